//! The outside of the program: sinks, sources and shelves, which say what they hold and how often they failed.
//!
//! - [`Sink`] is what takes bytes, and [`write_all`] writes to it;
//! - [`Source`] is what gives bytes; one file of a shelf is one ([`ShelfSource`]);
//! - [`Shelf`] is where files are found by name and read, and [`read_up_to`] takes a whole file;
//! - [`MemSink`], [`MemSource`] and [`MemShelf`] are in memory. They tell what they hold, and of their calls those of
//!   listed numbers fail ([`FailingCalls`]); on demand a call moves at most a piece;
//! - [`StdSink`] is a writer of std, as standard output, and [`FolderShelf`] the working folder, which tells of a file
//!   what std tells of it;
//! - [`Gate`] is what lanes pass before each deed, and [`OpenGate`] the one that holds up nothing;
//! - [`Failed`], [`FindFault`] and [`TakeFault`] are the answers that aren't success, and [`fault_of`] says which an
//!   error of the system is.
//!
//! Contracts see of each object a plain record, its ghost member `seen`; its faults and absences are a [`Count`].
#![tactic(auto)]

mod calls;
mod count;
mod faults;
mod folder_shelf;
mod gate;
mod limits;
mod mem_file;
mod mem_files;
mod mem_shelf;
mod mem_sink;
mod mem_source;
mod pieces;
mod shelf;
mod shelf_source;
mod sink;
mod source;
mod std_sink;

pub use calls::FailingCalls;
pub use count::Count;
pub use faults::{Failed, FindFault, TakeFault, fault_of};
pub use folder_shelf::FolderShelf;
pub use gate::{Gate, OpenGate};
pub use limits::limits_are_stated;
pub use mem_shelf::MemShelf;
pub use mem_sink::MemSink;
pub use mem_source::MemSource;
pub use shelf::{READ_SIZE, Shelf, read_up_to};
pub use shelf_source::ShelfSource;
pub use sink::{Sink, write_all};
pub use source::Source;
pub use spin_values::{NoMemory, Octets, Text};
pub use std_sink::StdSink;
