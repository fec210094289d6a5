//! What deeds come to in states that differ in numbers alone.

ghost use Rattle.spin_proto.specs.Renamings.{RepliesAreRenamed};

/// The law of replies: where two states differ in the numbers of their bindings alone, and the numbers keep their
/// order, each deed has the same reply in both, but for those numbers. It does nothing.
pub fn renamed_states_reply_alike()
    ensures { RepliesAreRenamed }
{}
