//! The jobs of a segment, done by several workers at once, each job claimed once.
//!
//! - [`run_all`] does [`Jobs`] by workers side by side, and answers their [`Replies`] in the order of the jobs;
//! - [`laws`] has the names that only proofs use.
//!
//! Workers share the setup and the jobs, which none changes, and one atomic word, the number of the next job. A worker
//! claims a job by one fetch-and-add on that word. Nothing waits but for the end of all workers.
#![tactic(auto)]

mod claim;
mod doing;
pub mod laws;
mod limits;
mod order;
mod running;
mod team;
mod worker;

pub use claim::MAX_WORKERS;
pub use doing::run_all;
pub use running::Replies;
pub use spin_proto::{Job, Jobs};
