//! Commands, of which none leaves a hub that has no room for its renewal.

ghost use Rattle.std.specs.Prelude.{◌≡◌, ◌≤◌, ◌*◌, IfOk, OnErr, IsTrue, length};
ghost use Rattle.spin_word.specs.Commands.{is_command};
ghost use Rattle.spin_word.specs.declared.command.TheConstants.{MAX_EVENTS};
ghost use Rattle.spin_log.specs.Pens.{IsSamePen};
ghost use Rattle.spin_policy.specs.Verdicts.{is_install};
ghost use Rattle.spin_table.specs.declared.setup.TheConstants.{MAX_LIVE};
ghost use Rattle.spin_table.specs.SetupOf.{data_of};
ghost use Rattle.spin_table.specs.Renewals.{live_numbers};
ghost use Rattle.spin_table.specs.Soundness.{IsSoundVersion};
ghost use Rattle.spin_seat.specs.Seats.{IsSeat};
ghost use Rattle.spin_c.specs.Crowded.{crowds};
ghost use Rattle.spin_c.specs.Judging.{Judges};

use crate::ask::Outcome;
use crate::cycles::judged_told;
use crate::kept::Kept;
use spin_code::Sincere;
use spin_objects::Catalogue;
use spin_seat::{Hub, Seat, SeatFault};
use spin_table::{Setup, Version};
use spin_values::NoMemory;
use spin_word::{Command, MAX_PLACE, Op};
use std::alloc::Global;

// How many bindings are live.
fn live_count(setup: &Setup, version: &Version) -> u32
    requires { IsSoundVersion (data_of setup.now) version.now }
    ensures count { result ≡ length (live_numbers version.now.state) }
    ensures few { result ≤ MAX_EVENTS * MAX_LIVE }
{
    let _few = setup.live();
    let mut count = 0;
    for event in 0..setup.events() {
        count += version.bindings(event).len() as u32;
    }
    count
}

// Whether the command would leave no room for the renewal of a hub of so many lanes, if each did one such at the seat's
// version. An install needs a share of that, which takes no memory; no statement says that there always is one.
fn crowds(hub: &Hub, seat: &Seat, lanes: u8, command: &Command) -> Result<bool, NoMemory>
    requires { IsSeat (data_of hub.now.setup) seat.now }
    ensures found { IfOk result (λ yes. yes ≡ crowds lanes seat.now.state command.now) }
    ensures install { OnErr result (IsTrue (is_install command.now.op)) }
{
    match command.op {
        Op::Install => {
            let version = seat.version()?;
            let live = live_count(hub.setup(), &version);
            Ok(live + u32::from(lanes) >= u32::from(MAX_PLACE))
        }
        Op::Remove | Op::Replace | Op::Default | Op::NoDefault => Ok(false),
    }
}

impl Kept {
    // Does the command of the seat's lane, in a hub of so many lanes, and keeps what that leaves.
    pub(crate) fn command(
        &mut self,
        alloc: Global,
        hub: &Hub,
        seat: &mut Seat,
        lanes: u8,
        c: &Command,
    ) -> Outcome
        requires sincere { ⟦<Catalogue as Sincere>⟧.sincere hub.now.setup.catalogue }
        requires log { seat.old.pen.log ≡ hub.now.log.id }
        requires seat { IsSeat (data_of hub.now.setup) seat.old }
        requires valid { IsTrue (is_command c.now) }
        requires lane { c.now.lane ≡ seat.old.pen.lane }
        ensures seat { IsSeat (data_of hub.now.setup) seat.new }
        ensures first { seat.new.base ≡ seat.old.base }
        ensures same { IsSamePen seat.old.pen seat.new.pen }
        ensures judges { Judges (data_of hub.now.setup) lanes seat.old c.now seat.new self.new result }
    {
        self.forget();
        match crowds(hub, seat, lanes, c) {
            Ok(false) => {}
            Ok(true) => return Outcome::Full,
            Err(NoMemory) => return Outcome::Shared,
        }
        match seat.command(alloc, hub, c) {
            Ok(judged) => {
                let (told, last) = judged_told(judged);
                self.last = last;
                told
            }
            Err(SeatFault::Full) => Outcome::Full,
            Err(SeatFault::NoMemory) => Outcome::NoMemory,
        }
    }
}
