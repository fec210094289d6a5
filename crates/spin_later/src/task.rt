//! Tasks, as a queue holds them.

use spin_proto::JobCall;
use spin_table::Version;
use spin_values::Sequence;
use std::sync::Arc;

/// A call of a job on its version, which a party put into a queue as one of its tasks.
#[derive(Drop)]
pub struct Task {
    /// The number of the party that sent it.
    pub sender: u8,
    /// Which of the sender's tasks it is, counted from 0.
    pub number: u32,
    /// The version on which it is to be done.
    pub version: Arc<Version>,
    /// What is to be done.
    pub call: JobCall,
}

/// Tasks, in order.
pub type Tasks = Sequence<Task>;

/// Why a task wasn't put: the queue held as many tasks as it may.
#[derive(Drop)]
pub struct Full {
    /// The task, which comes back.
    pub task: Task,
}
