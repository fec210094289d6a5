//! The dispatcher for hosts in Rattle: all that a host calls, under the name of one crate.
//!
//! A host reads a script ([`read_script`]), which declares events and handlers, with natives of its own among them
//! ([`Natives`]), and opens a [`Hub`] over its setup. Each of its threads has a [`Seat`] of the hub, on which it binds by
//! commands and raises events. Threads that share work put tasks into a [`Queue`]; a script that is to be run whole, over
//! a capture and with endpoints, is run by [`run_script`].
//!
//! There is no code here: each name stands in a crate below, whose page says what is proved of it. What clauses and
//! proofs of a host cite comes with it: definitions as `Rattle.spin.specs.X`, lemmas as `Rattle.spin.proofs.X`.
#![tactic(auto)]

// ---- what events carry

/// The arguments of a raise, and lists of numbers, of words and of bytes.
pub use spin_values::{Args, Numbers, Octets, Value, Words};
/// The type of an event: its parameters, and whether it gives a word.
pub use spin_values::{EventType, Kind, MAX_PARAMS, Param, Params};
/// The answer for want of memory.
pub use spin_values::NoMemory;
/// The bytes of a name or a word.
pub use spin_values::{Text, Texts};

// ---- handlers, guards and authorisers

/// Acts, which say what a handler does, step by step.
pub use spin_code::{Act, ActStep, Layer, Part, Parts, Steplist};
/// Expressions and tests, by which acts compute and guards ask.
pub use spin_code::{Cmp, Expr, Test, argument_bytes, argument_word};
/// That each object does what it was handed in with.
pub use spin_code::Sincere;
/// Handlers and guards of the host's own, and what a handler gives.
pub use spin_objects::{Guard, Handler, Item, Outcome};
/// The objects that a host hands in, and why one is refused.
pub use spin_objects::{Catalogue, MAX_NATIVES, NativeFault, NativeKind, Natives};
/// Authorisers of the host's own, which answer requests as the policy says that they are handed in with.
pub use spin_policy::{Authoriser, Request, Verdict};
/// Policies: lists of rules, of which the first that matches decides.
pub use spin_policy::{Effect, MAX_RULES, OpMatch, Policy, PolicyFault, Rule};

// ---- scripts

/// Scripts, read from text.
pub use spin_script::{Script, ScriptFault, read_script};
/// What a script declares, and the bindings that commands have made of it.
pub use spin_table::{Setup, Version};

// ---- seats

/// Commands, which bind, replace and remove, and their limits.
pub use spin_word::{Command, MAX_LANES, MAX_PLACE, Mode, Op, Place};
/// The rows of a log that is closed, one for each command.
pub use spin_log::Rows;
/// A command as a row of four words, and the way back.
pub use spin_word::{Row, pack, unpack};
/// Raises that a seat is asked for.
pub use spin_word::Deed;
/// What raises answer, and the steps that were done.
pub use spin_proto::{Reply, ReplyBuffer, ReplyView, Step, Trace};
/// What became of a raised event.
pub use spin_raise::Answer;
/// Hubs, over which threads bind and raise, each on a seat of its own.
pub use spin_seat::{Hub, Judged, Raised, Seat, SeatFault, Seats};
/// Hubs that go on over a new log.
pub use spin_seat::{RenewFault, Renewal, Stayed, Unrenewed};
/// What commands answer.
pub use spin_table::{Refusal, StepFault, Verdicted};

// ---- work for later

/// Calls of jobs, done on a version.
pub use spin_proto::{Job, JobCall, JobCalls, Jobs, job_path};
/// All jobs of a list, done by several workers.
pub use spin_jobs::{MAX_WORKERS, Replies, run_all};
/// Tasks that threads share by a queue, and what they agree on.
pub use spin_later::{
    Agreement, AnyTask, Full, MAX_CAPACITY, MAX_PARTIES, Parties, Party, Queue, Task, Tasks,
};

// ---- whole runs

/// Endpoints of the host's own, and those that are there.
pub use spin_endpoint::{Endpoint, Ends, EndsFault, EndsSeen, FileEnd, GatherEnd, KeepEnd};
/// Headers of IPv4 and UDP, written.
pub use spin_headers::{write_ipv4, write_udp};
/// What a run reads from and writes to.
pub use spin_outside::{
    Failed, FolderShelf, Gate, MemShelf, MemSink, MemSource, OpenGate, Shelf, ShelfSource, Sink,
    Source, StdSink, write_all,
};
/// Captures, read record by record.
pub use spin_pcap::{PcapFault, Reader};
/// Scripts that are run whole.
pub use spin_run::{RunEnd, run_script, run_summary};
