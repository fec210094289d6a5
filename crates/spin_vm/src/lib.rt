//! Translation faults as events: a script's dispatcher answers a trace of memory accesses.
//!
//! - `line` is what the lines of a trace say, and `words` reads them from words;
//! - `draft` is the trace so far, and `read` reads whole traces;
//! - `regions` are the regions of a space, and `space` has its mapped pages beside them;
//! - `fault` is why an access finds no frame, and `raises` raises faults as events;
//! - `answering` says what each line comes to, and `writing` writes it;
//! - `suited` says which scripts have the events of faults, and `version` applies a script's commands;
//! - `run` runs whole traces, and `laws` has the law of isolation;
//! - `came` is what a line comes to, `cause` why a line is bad, and `end` how a trace ends; `limits` are the limits of
//!   traces.
#![tactic(auto)]

mod answering;
mod came;
mod cause;
mod draft;
mod end;
mod fault;
mod laws;
mod limits;
mod line;
mod raises;
mod read;
mod regions;
mod run;
mod space;
mod suited;
mod version;
mod words;
mod writing;

pub use came::Came;
pub use cause::TraceCause;
pub use end::VmEnd;
pub use fault::Fault;
pub use laws::spaces_are_isolated;
pub use limits::{FRAMES, LAST_SPACE, MAX_REGIONS, PAGE_SIZE, PAGES, limits_are_stated};
pub use line::{Region, Request, Statement, Trace, TraceLine};
pub use read::{TraceFault, read_trace};
pub use run::run_trace;
pub use suited::is_suited;
