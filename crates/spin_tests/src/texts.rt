//! Scripts and reports of which several files of tests speak.

// Two lanes ask for the one binding that the owner grants.
pub(crate) const QUOTA_OF_ONE: &[u8] = b"\
spin 1
modules 2
event 0 0 - last
handler 1 -
rule 0 1 1 install any all quota 1
lane 0 install 0 1 1 0 free plain
lane 1 install 0 1 1 0 free plain
";

// Its report where the first lane is granted it.
pub(crate) const LANE_0_FIRST: &[u8] = b"\
report 1
segment 0 at 0
1 0 6 install ok
1 1 7 install refused 9 denied 1
end 1
";

// Its report where the second is.
pub(crate) const LANE_1_FIRST: &[u8] = b"\
report 1
segment 0 at 0
1 1 7 install ok
1 0 6 install refused 9 denied 1
end 1
";

// Raises of two lanes at one place.
pub(crate) const TWO_RAISES: &[u8] = b"\
spin 1
event 0 0 - last
lane 0 raise 0
lane 1 raise 0
";

// Its report.
pub(crate) const TWO_RAISED: &[u8] = b"\
report 1
segment 0 at 0
0 0 3 raise = nohandler
0 1 4 raise = nohandler
end 0
";
