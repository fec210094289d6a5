//! The limits of captures and of their readers.

ghost use Rattle.spin_pcap.specs.Limits.{AreStated};

/// The greatest number of records that are read of a capture.
pub const MAX_RECORDS: u32 = 1_048_576;

/// The greatest captured length of a record, in bytes.
pub const MAX_CAPTURED: u32 = 262_144;

/// The greatest number of bytes that a reader took from its source and hasn't given.
pub const MAX_HELD: usize = 65_536;

/// The limits that the definitions cite have the values that the documents give them.
pub fn limits_are_stated()
    ensures { AreStated }
{}
