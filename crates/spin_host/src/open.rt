//! A raise on a version that stays as it is, with the raises within it.

ghost use Rattle.std.specs.Prelude.{◌≡◌, ◌⊎◌, ◌-◌, ◌<◌, ◌++◌, [], ◌∷◌, length, is_some, OnOk, OnErr, IfOk, IfErr};
ghost use Rattle.std.specs.Prelude.{MatchOption, IsOk, None, Err, nat_le};
ghost use Rattle.spin_proto.specs.declared.reply.TheConstants.{MAX_RUNS};
ghost use Rattle.std.specs.Arc.{arc_value};
ghost use Rattle.spin_plan.specs.Planned.{IsOver};
ghost use Rattle.spin_objects.specs.Units.{tests_of};
ghost use Rattle.spin_raise.specs.Firing.{Units, units_of, as_found, IsThere};
ghost use Rattle.spin_table.specs.SetupOf.{data_of};
ghost use Rattle.spin_table.specs.Soundness.{IsSoundVersion};
ghost use Rattle.spin_proto.specs.Replies.{units_in};
ghost use Rattle.spin_host.specs.OpenRaises.{Done, Gave, Declined};
ghost use Rattle.spin_host.specs.Frames.{Tells, due_in, answer_fault};
ghost use Rattle.spin_host.specs.Opening as specs;
ghost use Rattle.spin_host.specs.Levels.{OnEvent, OnTop, ups_in, IsOpen, IsFresh, IsAtTop, IsTurn, IsWithin};
ghost use Rattle.spin_host.specs.Levels as levels;

use crate::fault::{RaiseFault, begin_fault};
use crate::firing::{AnswerFault, Firing};
use crate::frame::Frame;
use crate::gift::Gift;
use crate::spare::Spare;
use crate::turn::Turn;
use crate::upward::{Upward, keep_ups};
use spin_code::Sincere;
use spin_objects::{Catalogue, Item, Outcome};
use spin_proto::MAX_RUNS;
use spin_raise::{Bound, Progress};
use spin_table::{Setup, Version};
use spin_values::{Args, NoMemory, Sequence};
use std::alloc::Global;
use std::mem;
use std::sync::Arc;

/// One raise among those that are nested.
#[derive(Drop)]
pub struct Level {
    pub(crate) frame: Frame,
    pub(crate) ups: Sequence<Upward>,
    pub(crate) by_act: bool,
}

/// The room that an open raise takes, which the next one takes over.
#[derive(Drop)]
pub struct Room {
    /// Lists for arguments, bytes and gifts.
    pub spare: Spare,
    pub(crate) below: Sequence<Level>,
    pub(crate) given: Outcome,
}

impl Room {
    /// No room so far. It takes no memory.
    pub fn new(alloc: Global) -> Room
        ensures { (result.below ≡ []) × (result.given ≡ []) }
    {
        Room {
            spare: Spare::new(alloc),
            below: Sequence::new(alloc),
            given: Outcome::new(alloc),
        }
    }
}

/// A raise of an event on a version, whose firings the host answers one by one, with the raises within it: the innermost
/// one answers first.
#[derive(Drop)]
pub struct OpenRaise {
    pub(crate) version: Arc<Version>,
    pub(crate) top: Level,
    pub(crate) below: Sequence<Level>,
    pub(crate) spare: Spare,
    pub(crate) given: Outcome,
    pub(crate) started: u16,
}

// An event that is there, as a raise finds it.
fn bound_at<'a>(version: &'a Version, setup: &'a Setup, event: u8) -> Bound<'a>
    requires sound { IsSoundVersion (data_of setup.now) version.now }
    requires there { event < length (data_of setup.now).events }
    ensures found { OnEvent (data_of setup.now) version.now.state event (λ sig e. e ≡ as_found result) }
    ensures there { IsThere (units_of setup.now.catalogue) (as_found result) }
    ensures over { IsOver (tests_of setup.now.catalogue) result.plan.now }
{
    let def = setup.event(event);
    let plan = version.plan(event);
    let default = version.default_of(event);
    Bound {
        plan,
        merge: &def.merge,
        default,
    }
}

impl Level {
    // A raise in which nothing was told yet.
    fn begin(event: u8, args: Args, by_act: bool) -> Level
        ensures { IsFresh event args by_act result }
    {
        let ups = Sequence::new(args.allocator());
        Level {
            frame: Frame::begin(event, args),
            ups,
            by_act,
        }
    }
}

impl OpenRaise {
    /// Opens a raise of an event on these arguments, or says why not: [`RaiseFault::UnknownEvent`] or
    /// [`RaiseFault::WrongArgs`]. It takes no memory.
    pub fn begin(
        alloc: Global,
        version: Arc<Version>,
        setup: &Setup,
        event: u8,
        args: Args,
    ) -> Result<OpenRaise, RaiseFault>
        requires sound { IsSoundVersion (data_of setup.now) (arc_value version) }
        ensures fault { MatchOption (specs.begin_fault (data_of setup.now) event args)
            (IsOk result) (λ why. result ≡ Err why) }
        ensures well { IfOk result (λ raise. IsOpen (data_of setup.now) raise) }
        ensures begun { IfOk result (λ raise. levels.IsBegun (arc_value version) event args raise) }
    {
        match begin_fault(setup, event, &args) {
            Some(fault) => Err(fault),
            None => Ok(OpenRaise::begin_in(Room::new(alloc), version, setup, event, args)),
        }
    }

    /// Opens a raise for which [`begin_fault`] finds no fault, in the room of an earlier one. It takes no memory.
    pub fn begin_in(
        room: Room,
        version: Arc<Version>,
        setup: &Setup,
        event: u8,
        args: Args,
    ) -> OpenRaise
        requires sound { IsSoundVersion (data_of setup.now) (arc_value version) }
        requires fit { specs.begin_fault (data_of setup.now) event args ≡ None }
        ensures well { IsOpen (data_of setup.now) result }
        ensures begun { levels.IsBegun (arc_value version) event args result }
    {
        let Room {
            spare,
            below,
            given,
        } = room;
        let mut below = below;
        let mut given = given;
        below.clear();
        given.clear();
        OpenRaise {
            version,
            top: Level::begin(event, args, false),
            below,
            spare,
            given,
            started: 0,
        }
    }

    /// Opens a raise from within, between a firing and its answer, on the same version.
    pub fn begin_within(&mut self, setup: &Setup, event: u8, args: Args) -> Result<(), RaiseFault>
        requires well { IsOpen (data_of setup.now) self.old }
        ensures well { OnOk result (IsOpen (data_of setup.now) self.new) }
        ensures fault { OnTop (data_of setup.now) self.old (λ sig e.
            MatchOption (specs.within_fault (data_of setup.now) self.old.top.frame.event
            (is_some (due_in e self.old.top.frame)) event args)
            (IfErr result (λ why. why ≡ RaiseFault.NoMemory))
            (λ why. (result ≡ Err why) × (self.new ≡ self.old))) }
        ensures begun { OnOk result (IsWithin event args self.old self.new) }
        ensures kept { OnErr result (self.new ≡ self.old) }
    {
        let raised = self.top.frame.event;
        let bound = bound_at(&self.version, setup, raised);
        if !self.top.frame.is_due(&bound) {
            return Err(RaiseFault::NotDue);
        }
        if let Some(fault) = begin_fault(setup, event, &args) {
            return Err(fault);
        }
        if event <= raised {
            return Err(RaiseFault::Downward);
        }
        self.push(Level::begin(event, args, false))?;
        Ok(())
    }

    // Puts a raise on the others.
    fn push(&mut self, level: Level) -> Result<(), NoMemory>
        ensures ok { OnOk result (self.new
            ≡ record self.old { top = level; below = self.old.below ++ self.old.top ∷ [] }) }
        ensures err { OnErr result (self.new ≡ self.old) }
    {
        let none = Sequence::new(self.below.allocator());
        let mut below = mem::replace(&mut self.below, none).into_vec();
        // the room first, so that nothing is lost where there is none
        if below.reserve(1).is_err() {
            self.below = Sequence::from_vec(below);
            return Err(NoMemory);
        }
        below.push_reserved(mem::replace(&mut self.top, level));
        self.below = Sequence::from_vec(below);
        Ok(())
    }

    /// Keeps a list of what a handler gives, for the room that it has.
    pub fn keep_gift(&mut self, gift: Gift)
        ensures { self.new ≡ self.old }
    {
        self.spare.keep_gift(gift);
    }

    /// Lends its spare room, and has none until [`OpenRaise::take_back`].
    pub fn lend(&mut self, alloc: Global) -> Spare
        ensures { self.new ≡ self.old }
    {
        mem::replace(&mut self.spare, Spare::new(alloc))
    }

    /// Takes spare room back.
    pub fn take_back(&mut self, spare: Spare)
        ensures { self.new ≡ self.old }
    {
        self.spare = spare;
    }

    /// The arguments of the innermost raise, as they stand.
    pub fn args(&self) -> &Args
        ensures { result.now ≡ self.now.top.frame.progress.args }
    {
        &self.top.frame.progress.args
    }

    /// The place of the version.
    pub fn place(&self) -> u16
        ensures { result ≡ (arc_value self.now.version).state.place }
    {
        self.version.place()
    }

    /// The event of the innermost raise.
    pub fn event(&self) -> u8
        ensures { result ≡ self.now.top.frame.event }
    {
        self.top.frame.event
    }

    /// How many raises are open around the innermost one.
    pub fn around(&self) -> usize
        ensures { result ≡ length self.now.below }
    {
        self.below.len()
    }

    /// What the last answer gave, its number first.
    pub fn given(&self) -> &[Item]
        ensures { result.now ≡ self.now.given }
    {
        self.given.as_slice()
    }

    /// What comes next.
    pub fn next(&mut self, setup: &Setup) -> Result<Turn, NoMemory>
        requires well { IsOpen (data_of setup.now) self.old }
        requires sincere { ⟦<Catalogue as Sincere>⟧.sincere setup.now.catalogue }
        ensures well { OnOk result (IsOpen (data_of setup.now) self.new) }
        ensures turn { IfOk result (λ turn. IsTurn (data_of setup.now) self.old.top.ups self.old turn self.new) }
        ensures given { OnOk result (self.new.given ≡ []) }
    {
        self.spare.keep_items(&mut self.given);
        match self.top.ups.take_first() {
            Some(up) => self.open_up(up),
            None => Ok(self.tell(setup)),
        }
    }

    // Opens a raise upwards that an act asked for.
    fn open_up(&mut self, up: Upward) -> Result<Turn, NoMemory>
        ensures opened { OnOk result (levels.IsUpOpened up self.old self.new) }
        ensures turn { IfOk result (λ turn. turn ≡ Turn.Up up.event) }
        ensures given { OnOk result (self.new.given ≡ self.old.given) }
    {
        let Upward { event, args } = up;
        self.push(Level::begin(event, args, true))?;
        Ok(Turn::Up(event))
    }

    // Tells what is due, or the answer where nothing is.
    fn tell(&mut self, setup: &Setup) -> Turn
        requires well { IsOpen (data_of setup.now) self.old }
        requires sincere { ⟦<Catalogue as Sincere>⟧.sincere setup.now.catalogue }
        ensures well { IsOpen (data_of setup.now) self.new }
        ensures turn { levels.ComesNext (data_of setup.now) self.old result self.new }
        ensures given { self.new.given ≡ self.old.given }
    {
        let bound = bound_at(&self.version, setup, self.top.frame.event);
        let was_due = self.top.frame.is_due(&bound);
        match self.top.frame.next(setup.catalogue(), &bound) {
            None => self.end(),
            Some(firing) => self.start(was_due, firing),
        }
    }

    // Tells a firing, whose handler starts where it wasn't told before, if one may start.
    fn start(&mut self, was_due: bool, firing: Firing) -> Turn
        ensures turn { result ≡ levels.told_or_spent was_due (nat_le MAX_RUNS self.old.started) firing }
        ensures raise { self.new ≡ levels.after_telling was_due (nat_le MAX_RUNS self.old.started) self.old }
    {
        if was_due {
            return Turn::Due(firing);
        }
        if self.started >= MAX_RUNS {
            self.top.frame.forget();
            return Turn::Spent;
        }
        self.started += 1;
        Turn::Due(firing)
    }

    // Ends the innermost raise.
    fn end(&mut self) -> Turn
        ensures { levels.IsEnd self.old result self.new }
    {
        let answer = self.top.frame.progress.answer;
        match self.below.pop() {
            None => Turn::Ended(answer),
            Some(around) => {
                let ended = mem::replace(&mut self.top, around);
                let Level { frame, by_act, .. } = ended;
                let Frame { progress, .. } = frame;
                let Progress { args, .. } = progress;
                self.spare.keep_args(args);
                if by_act {
                    Turn::Back(answer)
                } else {
                    Turn::Ended(answer)
                }
            }
        }
    }

    /// The declared act of what is due is done.
    pub fn do_act(&mut self, alloc: Global, setup: &Setup) -> Result<(), AnswerFault>
        requires well { IsOpen (data_of setup.now) self.old }
        requires sincere { ⟦<Catalogue as Sincere>⟧.sincere setup.now.catalogue }
        ensures well { OnOk result (IsOpen (data_of setup.now) self.new) }
        ensures fault { OnTop (data_of setup.now) self.old (λ sig e. MatchOption (due_in e self.old.top.frame)
            ((result ≡ Err AnswerFault.NotDue) × (self.new ≡ self.old))
            (λ _. IfErr result (λ why. why ≡ AnswerFault.NoMemory))) }
        ensures kept { IfErr result (λ why. (why ≡ AnswerFault.NoMemory) ⊎ (self.new ≡ self.old)) }
        ensures told { OnOk result (OnTop (data_of setup.now) self.old (λ sig e.
            Tells (units_in (data_of setup.now)) sig e Done self.old.top.frame self.new.top.frame
            self.old.given self.new.given)) }
        ensures ups { let event = self.old.top.frame.event in
            OnOk result (self.new.top.ups ≡ self.old.top.ups
            ++ ups_in event (length (data_of setup.now).events) self.new.given) }
        ensures same { OnOk result (IsAtTop self.old self.new × (self.new.started ≡ self.old.started)) }
    {
        let event = self.top.frame.event;
        let bound = bound_at(&self.version, setup, event);
        self.top
            .frame
            .do_act(alloc, setup.catalogue(), &bound, &mut self.given)?;
        keep_ups(
            event,
            setup.events(),
            self.given.as_slice(),
            &mut self.top.ups,
        )?;
        Ok(())
    }

    /// The host's own handler ran in the place of what is due, and gave this, of which nothing is left then.
    pub fn gave(&mut self, setup: &Setup, gift: &mut Gift) -> Result<(), AnswerFault>
        requires well { IsOpen (data_of setup.now) self.old }
        ensures well { OnOk result (IsOpen (data_of setup.now) self.new) }
        ensures fault { OnTop (data_of setup.now) self.old (λ sig e.
            MatchOption (answer_fault sig (due_in e self.old.top.frame) gift.old)
            (IfErr result (λ why. why ≡ AnswerFault.NoMemory))
            (λ why. (result ≡ Err why) × (self.new ≡ self.old) × (gift.new ≡ gift.old))) }
        ensures kept { IfErr result (λ why. (why ≡ AnswerFault.NoMemory) ⊎ (self.new ≡ self.old)) }
        ensures told { OnOk result (OnTop (data_of setup.now) self.old (λ sig e.
            Tells (units_in (data_of setup.now)) sig e (Gave gift.old) self.old.top.frame self.new.top.frame
            self.old.given self.new.given)) }
        ensures gift { OnOk result (gift.new ≡ []) }
        ensures same { OnOk result (IsAtTop self.old self.new × (self.new.started ≡ self.old.started)
            × (self.new.top.ups ≡ self.old.top.ups)) }
    {
        let event = self.top.frame.event;
        let bound = bound_at(&self.version, setup, event);
        self.top.frame.gave(
            &setup.event(event).sig,
            &bound,
            gift,
            &mut self.given,
            &mut self.spare,
        )
    }

    /// The host's own guard didn't hold: what is due runs no handler.
    pub fn declined(&mut self, setup: &Setup) -> Result<(), AnswerFault>
        requires well { IsOpen (data_of setup.now) self.old }
        ensures well { OnOk result (IsOpen (data_of setup.now) self.new) }
        ensures fault { OnTop (data_of setup.now) self.old (λ sig e. MatchOption (due_in e self.old.top.frame)
            ((result ≡ Err AnswerFault.NotDue) × (self.new ≡ self.old)) (λ _. IfErr result (λ _. ⊥))) }
        ensures why { IfErr result (λ why. why ≡ AnswerFault.NotDue) }
        ensures kept { OnErr result (self.new ≡ self.old) }
        ensures told { OnOk result (OnTop (data_of setup.now) self.old (λ sig e.
            Tells (units_in (data_of setup.now)) sig e Declined self.old.top.frame self.new.top.frame [] [])) }
        ensures started { OnOk result (self.new.started ≡ self.old.started - 1) }
        ensures args { self.new.top.frame.progress.args ≡ self.old.top.frame.progress.args }
        ensures answer { self.new.top.frame.progress.answer ≡ self.old.top.frame.progress.answer }
        ensures same { IsAtTop self.old self.new × (self.new.given ≡ self.old.given)
            × (self.new.top.ups ≡ self.old.top.ups) }
    {
        let bound = bound_at(&self.version, setup, self.top.frame.event);
        self.top.frame.declined(&bound)?;
        self.started = self.started.saturating_sub(1);
        Ok(())
    }

    /// Ends the raise where it stands: what was told stays told. Its room is left for another.
    pub fn abandon(self) -> Room
        ensures { (result.below ≡ self.below) × (result.given ≡ self.given) }
    {
        let OpenRaise {
            top,
            below,
            spare,
            given,
            ..
        } = self;
        let Level { frame, .. } = top;
        let Frame { progress, .. } = frame;
        let Progress { args, .. } = progress;
        let mut spare = spare;
        spare.keep_args(args);
        Room {
            spare,
            below,
            given,
        }
    }
}
