//! The laws of lanes between two segments, and of the records of a capture.

ghost use Rattle.spin_run.specs.Laws.{PlaceIsFront, RecordsAreOne};

/// The place of the state that lanes are ready in lies past that of their first state by the number of rows that they
/// know: each row of the log was accepted at its own place. It does nothing.
pub fn place_is_front()
    ensures { PlaceIsFront }
{}

/// Of a source that tells what it has left, just one list of records is left: so what a contract says of some records
/// that are left holds of those that the source tells. It does nothing.
pub fn records_are_one()
    ensures { RecordsAreOne }
{}
