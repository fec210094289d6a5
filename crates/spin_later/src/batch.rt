//! Batches of calls, and the replies to them.

use spin_jobs::Replies;
use spin_proto::JobCall;
use spin_table::Version;
use spin_values::Sequence;
use std::sync::Arc;

/// A call of a job, and the version on which it is done.
#[derive(Drop)]
pub struct Call {
    /// The version.
    pub version: Arc<Version>,
    /// What is to be done.
    pub call: JobCall,
}

/// The calls of one party, in order.
pub type Batch = Sequence<Call>;

/// A batch for each party.
pub type Batches = Sequence<Batch>;

/// For each batch the replies to its calls, in order.
pub type BatchReplies = Sequence<Replies>;
