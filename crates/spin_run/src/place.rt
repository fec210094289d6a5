//! The place of the lanes between two segments.

ghost use Rattle.std.specs.Prelude.{◌≡◌, ◌≤◌};
ghost use Rattle.spin_word.specs.declared.command.TheConstants.{MAX_PLACE};
ghost use Rattle.spin_table.specs.SetupOf.{data_of};
ghost use Rattle.spin_run.specs.Segments.{AreReady, place_of, state_of};

use crate::lanes::Lanes;
use spin_seat::Hub;
use spin_word::MAX_PLACE;

impl Lanes {
    // The place of the lanes' state, where they are ready: from the start that is how many commands were accepted.
    pub(crate) fn place(&self, _hub: &Hub) -> u16
        requires ready { let d = data_of _hub.now.setup in
            AreReady d _hub.now.log.id _hub.now.log.lanes self.now }
        requires few { place_of (data_of _hub.now.setup) self.now ≤ MAX_PLACE }
        ensures { let d = data_of _hub.now.setup in
            result ≡ (state_of d self.now).place }
    {
        MAX_PLACE - self.items[0].seat.room()
    }
}
