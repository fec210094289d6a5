//! Laws of logs.

ghost use Rattle.spin_log.specs.Laws.{FrontIsLog};

/// A log in which a pen of each lane stands, all of them with one front, is that front: so lanes that all met know
/// the whole log, as [`Log::close`](crate::Log::close) gives it.
pub fn front_is_log()
    ensures { FrontIsLog }
{}
