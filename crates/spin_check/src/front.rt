//! The front of a report.

ghost use Rattle.spin_check.specs.Inner.Fronts.{IsBehind};

// What stands behind the text in the report, where the report begins with it.
pub(crate) fn behind<'a>(report: &'a [u8], text: &[u8]) -> Option<&'a [u8]>
    ensures { IsBehind text.now report.now result }
{
    report.strip_prefix(text)
}
