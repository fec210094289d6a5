//! What seats know of the log. No value of these types is ever made: they are what proofs speak of.

use spin_word::Row;
use std::collections::LinkedList;

/// What one pen knows.
pub struct Hand {
    /// The number of lanes.
    pub lanes: u64,
    /// The pen's lane.
    pub lane: u64,
    /// The part of the log that it knows.
    pub front: LinkedList<Row>,
    /// The rows that it published.
    pub own: LinkedList<Row>,
    /// How many rows there were each time that it found no next one.
    pub pins: LinkedList<u64>,
    /// The places, in the log's history, of its publishes and its pins.
    pub places: LinkedList<u64>,
    /// What it has written of its next row, word by word.
    pub draft: LinkedList<u64>,
}

/// What a seat of the table knows: that of a pen has one hand, that of a note none.
pub struct View {
    /// The pens that the seat stands for.
    pub hands: LinkedList<Hand>,
    /// Fronts of other pens that it was told of.
    pub older: LinkedList<LinkedList<Row>>,
}
