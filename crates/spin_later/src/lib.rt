//! A bounded queue of tasks, for hosts that have threads of their own.
//!
//! - a [`Task`] is the call of a job on its version, under the number of the party that sent it;
//! - a [`Queue`] is shared by reference; [`Queue::new`] makes it with its parties, and [`Queue::close`] gives what is
//!   left in it;
//! - a [`Party`] puts tasks into it by [`Party::put`] and takes tasks out of it by [`Party::take`];
//! - [`run_background`] does the calls of [`Batches`] by parties side by side, which share a queue;
//! - [`laws`] has the names that only proofs use.
//!
//! # What a caller learns, and when
//!
//! A [`Party`] is seen as a record `PartyValue` (`specs/Parties.antt`): its queue with the number of parties, its
//! number, the tasks that it sent and the tasks that it took. A [`Queue`] is seen as its id, its number of parties and
//! its capacity. A queue's history (`specs/History.antt`) is the tasks that were put, in the order of their puts, and
//! those that were taken, in the order of the takes.
//!
//! | when | what is known |
//! |---|---|
//! | [`Party::put`] | the task is the last that the party sent, and its number counts them; where it is [`Full`], some history has what the party did, and the queue held its capacity: in a queue of two or more parties some history always does |
//! | [`Party::take`] | the task is the last that the party took, and of its sender it comes after all that the party took before; where there is none, some history has what the party did, and the queue was empty: in a queue of two or more parties some history always does |
//! | [`Queue::close`] | one history has what all parties did, and leaves just the tasks that are given: each sent task was taken once or is left once, with its version and call |
//! | [`run_background`] | each reply is what its call comes to on its version, in the order of the batches and their calls |
//! | never | what the queue holds at present, when a step is made, that a call returns |
//!
//! `put`, `take`, `close` and `run_background` take [`Wait`](std::sync::Wait): each may spin while another thread is in
//! the middle of a step. That they return isn't promised.
#![tactic(auto)]

mod agreement;
mod background;
mod batch;
mod doing;
mod known;
pub mod laws;
mod limits;
mod party;
mod places;
mod queue;
mod rule;
mod task;
mod worker;

pub use agreement::{Agreement, AnyTask};
pub use background::run_background;
pub use batch::{Batch, BatchReplies, Batches, Call};
pub use party::{Parties, Party};
pub use queue::{MAX_CAPACITY, MAX_PARTIES, Queue};
pub use task::{Full, Task, Tasks};
