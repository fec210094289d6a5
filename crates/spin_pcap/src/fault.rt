//! Why a capture isn't read.

ghost use Rattle.std.specs.Prelude.{◌≡◌};
ghost use Rattle.spin_pcap.specs.Passing as specs;
ghost use Rattle.spin_pcap.specs.Whole.{bad_at};
ghost use Rattle.spin_pcap.specs.declared.fault.BadRecord.TheVariants as bad;
ghost use Rattle.spin_pcap.specs.declared.fault.PcapFault.TheVariants as faults;

use spin_outside::{Failed, NoMemory};
use thiserror::Error;

/// Why a capture isn't read. The faults are numbered from 1 in this order.
#[derive(Clone, Copy, Debug, PartialEq, Eq, Error)]
pub enum PcapFault {
    /// A read failed, and the source's count of faults rose.
    #[error("a read failed")]
    ReadFault,
    /// The first 4 bytes aren't a magic in either byte order.
    #[error("no capture file")]
    BadMagic,
    /// The version isn't 2.4.
    #[error("a version other than 2.4")]
    BadVersion,
    /// The link type field isn't 1, which is Ethernet.
    #[error("a link type other than Ethernet")]
    BadLink,
    /// The file ends before its header does.
    #[error("the file is shorter than its header")]
    Short,
    /// A captured length is over 262,144 bytes.
    #[error("a record is too long")]
    TooLong,
    /// A byte follows 1,048,576 whole records.
    #[error("too many records")]
    TooManyRecords,
    /// The reader refused before, by the fault of that number.
    #[error("refused before by fault {0}")]
    Spoilt(u8),
    /// There was no memory.
    #[error("out of memory")]
    NoMemory,
}

impl PcapFault {
    /// The number of the fault, from 1 in the order above.
    pub fn number(self) -> u8
        ensures { result ≡ specs.fault_number self }
    {
        match self {
            PcapFault::ReadFault => 1,
            PcapFault::BadMagic => 2,
            PcapFault::BadVersion => 3,
            PcapFault::BadLink => 4,
            PcapFault::Short => 5,
            PcapFault::TooLong => 6,
            PcapFault::TooManyRecords => 7,
            PcapFault::Spoilt(_) => 8,
            PcapFault::NoMemory => 9,
        }
    }
}

impl From<Failed> for PcapFault {
    ghost from_gives = { λ _ e. e ≡ faults.ReadFault };

    fn from(_: Failed) -> Self {
        PcapFault::ReadFault
    }
}

impl From<NoMemory> for PcapFault {
    ghost from_gives = { λ _ e. e ≡ faults.NoMemory };

    fn from(_: NoMemory) -> Self {
        PcapFault::NoMemory
    }
}

/// Why a capture isn't read to its end, and at which record.
#[derive(Clone, Copy, Debug, PartialEq, Eq, Error)]
pub enum BadRecord {
    /// The capture is refused at a record.
    #[error("bad capture: record {number}, fault {fault}")]
    Capture {
        /// The number of the record, counted from 1; 0 where it is the header.
        number: u32,
        /// The number of the fault, by [`PcapFault::number`].
        fault: u8,
    },
    /// A read failed, and the source's count of faults rose.
    #[error("a read failed")]
    ReadFault,
    /// There was no memory.
    #[error("out of memory")]
    NoMemory,
}

impl BadRecord {
    /// What a fault of the record of that number is, counted from 1; 0 is the header.
    pub fn at(number: u32, fault: PcapFault) -> BadRecord
        ensures { result ≡ bad_at number fault }
    {
        match fault {
            PcapFault::ReadFault => BadRecord::ReadFault,
            PcapFault::NoMemory => BadRecord::NoMemory,
            other => BadRecord::Capture {
                number,
                fault: other.number(),
            },
        }
    }
}

impl From<NoMemory> for BadRecord {
    ghost from_gives = { λ _ e. e ≡ bad.NoMemory };

    fn from(_: NoMemory) -> Self {
        BadRecord::NoMemory
    }
}
