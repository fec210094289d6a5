//! The law of isolation, which is a function without work so that its contract can be cited.

ghost use Rattle.spin_vm.specs.Laws.{SpacesAreIsolated};

/// What the lines of one space come to doesn't depend on the region, unmap and access lines of other spaces.
pub fn spaces_are_isolated()
    ensures { SpacesAreIsolated }
{}
