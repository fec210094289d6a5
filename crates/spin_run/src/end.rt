//! How a run ends.

use spin_pcap::BadRecord;
use spin_values::NoMemory;

/// How a run of a script ends.
#[derive(Clone, Copy, Debug, PartialEq, Eq)]
pub enum RunEnd {
    /// Everything was done, and the whole report was written.
    Whole,
    /// The capture was refused at a record.
    Capture {
        /// The number of the record, counted from 1.
        number: u32,
        /// The number of the fault, by [`PcapFault::number`](spin_pcap::PcapFault::number).
        fault: u8,
    },
    /// The source of the capture failed.
    ReadFault,
    /// The sink failed at the report.
    WriteFault,
    /// There was no memory.
    NoMemory,
    /// The endpoint of that number failed.
    Endpoint(u8),
}

impl From<NoMemory> for RunEnd {
    ghost use Rattle.std.specs.Prelude.{◌≡◌};
    ghost use Rattle.spin_run.specs.declared.end.RunEnd.TheVariants as end;

    ghost from_gives = { λ _ e. e ≡ end.NoMemory };

    fn from(_: NoMemory) -> RunEnd {
        RunEnd::NoMemory
    }
}

impl From<BadRecord> for RunEnd {
    ghost use Rattle.std.specs.Prelude.{◌≡◌};
    ghost use Rattle.spin_run.specs.Inner.Reading.{ended_by};

    ghost from_gives = { λ bad e. e ≡ ended_by bad };

    fn from(bad: BadRecord) -> RunEnd {
        match bad {
            BadRecord::Capture { number, fault } => RunEnd::Capture { number, fault },
            BadRecord::ReadFault => RunEnd::ReadFault,
            BadRecord::NoMemory => RunEnd::NoMemory,
        }
    }
}
