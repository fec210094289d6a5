//! The limits of traces.

ghost use Rattle.spin_vm.specs.Limits.{AreStated};

/// The greatest number of a space.
pub const LAST_SPACE: u64 = 63;

/// The most regions of a space.
pub const MAX_REGIONS: usize = 256;

/// How many bytes a page has.
pub const PAGE_SIZE: u64 = 4096;

/// How many pages there are: those of all addresses below 2^64.
pub const PAGES: u64 = 1 << 52;

/// How many frames there are.
pub const FRAMES: u64 = 65_536;

/// The limits that the definitions cite have the values that the documents give them.
pub fn limits_are_stated()
    ensures { AreStated }
{}
