//! What passes know of a queue. No value of these types is ever made: they are what proofs speak of.

use crate::task::Task;
use std::collections::LinkedList;

/// What one party did.
pub struct Hand {
    /// The party's number.
    pub number: u64,
    /// The tasks that it sent, in order.
    pub sent: LinkedList<Task>,
    /// The tasks that it took, in order.
    pub taken: LinkedList<Task>,
}

/// What a pass of the queue knows: that of a party has one hand.
pub struct Known {
    /// The number of parties.
    pub parties: u64,
    /// The parties that the pass stands for.
    pub hands: LinkedList<Hand>,
    /// The tasks that were left when all parties had ended.
    pub left: LinkedList<Task>,
}
