//! Laws of capture files.

ghost use Rattle.spin_pcap.specs.Laws.{OneReading, OneAnswer, EachHasBody, EachIsCapture};

/// A file is one capture at most: the order of its fields, the captured bytes of its records and the answer for
/// its rest are determined, so it doesn't matter in which pieces its bytes come.
pub fn one_reading()
    ensures { OneReading }
{}

/// What comes next in the bytes that are left is determined: a whole record or a rest, and not both.
pub fn one_answer()
    ensures { OneAnswer }
{}

/// Each file with the header of a capture is one, and whatever bytes stand behind records are whole records and then a
/// rest. So the definitions speak of each file, and a contract that speaks of the records that are left, of a reader
/// that reads, speaks of some.
pub fn each_has_reading()
    ensures body { EachHasBody }
    ensures file { EachIsCapture }
{}
