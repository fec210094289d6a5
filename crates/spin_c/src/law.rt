//! What room commands leave.

ghost use Rattle.spin_c.specs.Crowded.{CommandsLeaveRoom};

/// The law of room: a command that doesn't crowd the state at which it is judged leaves a place by a renewal for each lane,
/// where there was one. So while one lane gives commands, by a handle, a renewal always has room for a command of it, and
/// the hub goes on: by a removal, if it is as full as it gets. It does nothing.
pub fn commands_leave_room()
    ensures { CommandsLeaveRoom }
{}
