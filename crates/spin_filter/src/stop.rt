//! Why records are passed no further.

ghost use Rattle.std.specs.Prelude.{◌≡◌};
ghost use Rattle.spin_filter.specs.declared.stop.Stop.TheVariants as stop;
ghost use Rattle.spin_filter.specs.Stops.{stop_at};

use spin_pcap::PcapFault;
use spin_values::NoMemory;

/// Why records are passed no further.
#[derive(Clone, Copy, Debug, PartialEq, Eq)]
pub enum Stop {
    /// The capture is refused at a record.
    Capture {
        /// The number of the record, counted from 1; 0 where it is the header.
        number: u64,
        /// Why.
        fault: PcapFault,
    },
    /// The endpoint of that number failed.
    Endpoint(u8),
    /// What was sent to the endpoint of that number, which writes a capture, is neither the record's frame nor empty.
    NoFrame(u8),
    /// The capture can't be written.
    WriteFault,
    /// The captures can't be read.
    Unread,
    /// There is no capture of that name.
    Absent,
    /// The script retires an endpoint.
    Retires,
    /// The script has another number of segments than one.
    Segments,
    /// The line of that number is of another lane than the first.
    Lane(u32),
    /// The line of that number isn't one of a filter's script: a raise, or a command behind a line that takes packets.
    InTheWay(u32),
    /// No line of the script takes packets.
    NoRecords,
    /// There was no memory.
    NoMemory,
}

impl From<NoMemory> for Stop {
    ghost from_gives = { λ _ e. e ≡ stop.NoMemory };

    fn from(_: NoMemory) -> Stop {
        Stop::NoMemory
    }
}

impl Stop {
    /// What a fault of the record of that number is, counted from 1; 0 is the header.
    pub fn at(number: u64, fault: PcapFault) -> Stop
        ensures { result ≡ stop_at number fault }
    {
        match fault {
            PcapFault::ReadFault => Stop::Unread,
            PcapFault::NoMemory => Stop::NoMemory,
            fault => Stop::Capture { number, fault },
        }
    }
}
