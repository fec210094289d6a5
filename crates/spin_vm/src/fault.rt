//! The faults of accesses.

ghost use Rattle.std.specs.Prelude.{◌≡◌};
ghost use Rattle.spin_vm.specs.Spaces.{event_of};
ghost use Rattle.spin_vm.specs.Output.{fault_word};

/// Why an access finds no frame. Each fault raises the event of its number.
#[derive(Clone, Copy, PartialEq, Eq, Drop, Debug)]
pub enum Fault {
    /// The page lies in a region, and isn't mapped.
    PageNotPresent,
    /// The page lies in no region.
    BadAddress,
    /// The page is written to, and lies in a region that may be read alone.
    ProtectionFault,
}

impl Fault {
    // The event that it raises.
    pub(crate) fn event(self) -> u8
        ensures { result ≡ event_of self }
    {
        match self {
            Fault::PageNotPresent => 0,
            Fault::BadAddress => 1,
            Fault::ProtectionFault => 2,
        }
    }

    // Its word in the output.
    pub(crate) fn word(self) -> &'static [u8]
        ensures { result.now ≡ fault_word self }
    {
        match self {
            Fault::PageNotPresent => b"page_not_present",
            Fault::BadAddress => b"bad_address",
            Fault::ProtectionFault => b"protection_fault",
        }
    }
}
