//! Seats.

ghost use Rattle.std.specs.Prelude.{◌≡◌, ◌≢◌, ◌<◌, ◌≤◌, ◌-◌, IsTrue, IfOk, IfErr, OnOk, OnErr};
ghost use Rattle.std.specs.Prelude.{Some, None, Ok, All, length, MatchResult};
ghost use Rattle.std.specs.Arc.{arc_value};
ghost use Rattle.spin_word.specs.declared.command.TheConstants.{MAX_LANES, MAX_PLACE};
ghost use Rattle.spin_word.specs.Commands.{is_command};
ghost use Rattle.spin_word.specs.Rows.{StandsFor};
ghost use Rattle.spin_log.specs.Answers.{Looks as LooksSay};
ghost use Rattle.spin_log.specs.Pens.{IsPen, IsSamePen, with_front};
ghost use Rattle.spin_table.specs.SetupOf.{data_of};
ghost use Rattle.spin_table.specs.Refusals.{refusal_of};
ghost use Rattle.spin_table.specs.Steps.{IsAnswer, IsStep};
ghost use Rattle.spin_table.specs.declared.refusal.Verdicted.TheVariants as verdicted;
ghost use Rattle.spin_table.specs.Soundness.{IsSoundVersion};
ghost use Rattle.spin_proto.specs.Replies.{BelongsTo, calls_left};
ghost use Rattle.spin_seat.specs.Seats.{IsSeat, version_of};
ghost use Rattle.spin_seat.specs.Answers.{place_before};
ghost use Rattle.spin_seat.specs.Calls.{ReadsOn, ReadsToPin, AddsAtMostAPin, GivesFrom};
ghost use Rattle.spin_seat.specs.Places.{place_past};
ghost use Rattle.spin_seat.specs.Calls.{IsFaultAt, IsUnrefused, reply_answer, verdict_answer};
ghost use Rattle.spin_seat.specs.Inner.Tries.{row_seen, Tries, TurnsFor};

use crate::answer::{Judged, Raised, SeatFault};
use crate::hub::Hub;
use crate::next::next_version;
use spin_code::Sincere;
use spin_log::{Look, Pen, Publish};
use spin_objects::Catalogue;
use spin_proto::{Deed, path};
use spin_table::{Refusal, StepFault, Verdicted, Version};
use spin_values::{NoMemory, Sequence, Steps};
use spin_word::{Command, MAX_PLACE, Row, pack, unpack};
use std::alloc::Global;
use std::marker::{Brand, Model};
use std::sync::Arc;
use std::sync::ledger::{Blank, Ledger};

/// Seats, in order.
pub type Seats = Sequence<Seat>;

/// A lane's pen, with its own replica of the dispatcher. Contracts see the pen, the first state, on
/// which the log follows, the state of its version and the tests of the guards over which the version's plans were
/// compiled, and the row that it has read and not yet applied.
///
/// What holds of every seat of a [`Hub`], and stays so through each call, whatever it answers: the
/// first state is the same; the state is the replay of the pen's front from there, less that one row;
/// and of the front each row of its own lane was accepted at its place.
#[derive(Drop)]
pub struct Seat {
    pub(crate) pen: Pen,
    pub(crate) base: Arc<Version>,
    pub(crate) version: Arc<Version>,
    pub(crate) pending: Option<Row>,
}

impl Model for Seat {
    ghost use Rattle.std.specs.Arc.{arc_value};
    ghost use Rattle.std.specs.Coded.{codes};
    ghost use Rattle.spin_code.specs.contracts.test.Test as test;
    ghost use Rattle.spin_seat.specs.Seats.{SeatValue};

    ghost Value = { SeatValue };

    ghost coded = { Prim.hlevel (codes, test.the_row.coded) };

    ghost view = { λ s. record {
      pen = s.pen;
      base = (arc_value s.base).state;
      state = (arc_value s.version).state;
      tests = (arc_value s.version).tests;
      pending = s.pending;
    } };
}

impl Seat {
    /// The lane of the seat, which is below the number of lanes of its log. It takes no memory.
    pub fn lane(&self) -> u8
        ensures lane { result ≡ self.now.pen.lane }
        ensures below { self.now.pen.lane < self.now.pen.lanes }
        ensures few { self.now.pen.lanes ≤ MAX_LANES }
    {
        self.pen.lane()
    }

    /// The length of the front, in rows: the part of the log that the seat knows. It is at most
    /// [`MAX_PLACE`], and it takes no memory.
    pub fn front(&self) -> u16
        ensures length { result ≡ length self.now.pen.front }
        ensures room { length self.now.pen.front ≤ MAX_PLACE }
    {
        self.pen.front()
    }

    /// How many commands can still be accepted after what this seat has read, at most: other lanes may
    /// have published more, which it hasn't read. Where the front is the whole log, as after a
    /// [`Hub::meet`](crate::Hub::meet) of all seats, it is just that many. At 0 the seat's next command
    /// is answered [`Full`](SeatFault::Full). It reads no log, takes no memory and waits for nobody.
    pub fn room(&self) -> u16
        ensures left { result ≡ MAX_PLACE - place_past self.now.base.place (length self.now.pen.front) }
        ensures front { length self.now.pen.front ≤ MAX_PLACE }
    {
        MAX_PLACE
            .saturating_sub(self.base.place())
            .saturating_sub(self.pen.front())
    }

    // The place of the front's end.
    pub(crate) fn place(&self) -> u16
        requires fits { self.now.base.place ≤ MAX_PLACE }
        ensures { result ≡ place_past self.now.base.place (length self.now.pen.front) }
    {
        self.base.place() + self.pen.front()
    }

    // Takes the version after the command of the row that it kept.
    fn accepted(&mut self, _hub: &Hub, _row: &Row, _c: &Command, after: Arc<Version>)
        requires seat { IsSeat (data_of _hub.now.setup) self.old }
        requires kept { self.old.pending ≡ Some _row.now }
        requires stands { StandsFor _row.now _c.now }
        requires step { let verdict = verdicted.Accepted in
            IsStep (data_of _hub.now.setup) self.old.state _c.now verdict (arc_value after).state }
        requires sound { IsSoundVersion (data_of _hub.now.setup) (arc_value after) }
        ensures seat { IsSeat (data_of _hub.now.setup) self.new }
        ensures first { self.new.base ≡ self.old.base }
        ensures pen { self.new.pen ≡ self.old.pen }
        ensures ok { self.new.pending ≡ None }
    {
        self.version = after;
        self.pending = None;
    }

    // Leaves its version, since the command of the row that it kept is refused.
    fn refused(&mut self, _hub: &Hub, _row: &Row, _c: &Command, _refusal: &Refusal)
        requires seat { IsSeat (data_of _hub.now.setup) self.old }
        requires kept { self.old.pending ≡ Some _row.now }
        requires stands { StandsFor _row.now _c.now }
        requires step { let verdict = verdicted.Refused _refusal.now in
            IsStep (data_of _hub.now.setup) self.old.state _c.now verdict self.old.state }
        ensures seat { IsSeat (data_of _hub.now.setup) self.new }
        ensures first { self.new.base ≡ self.old.base }
        ensures pen { self.new.pen ≡ self.old.pen }
        ensures ok { self.new.pending ≡ None }
    {
        self.pending = None;
    }

    // Applies this row, which it keeps: another lane's, whose command may be refused.
    fn step(&mut self, alloc: Global, hub: &Hub, row: Row) -> Result<(), NoMemory>
        requires sincere { ⟦<Catalogue as Sincere>⟧.sincere hub.now.setup.catalogue }
        requires seat { IsSeat (data_of hub.now.setup) self.old }
        requires kept { self.old.pending ≡ Some row }
        ensures seat { IsSeat (data_of hub.now.setup) self.new }
        ensures first { self.new.base ≡ self.old.base }
        ensures pen { self.new.pen ≡ self.old.pen }
        ensures ok { OnOk result (self.new.pending ≡ None) }
        ensures err { OnErr result (self.new ≡ self.old) }
    {
        let _front = self.pen.front();
        let Some(command) = unpack(&row) else {
            unreachable!()
        };
        match next_version(alloc, &hub.setup, &self.version, &command) {
            Ok(next) => {
                self.accepted(hub, &row, &command, next);
                Ok(())
            }
            Err(StepFault::Refused(refusal)) => {
                self.refused(hub, &row, &command, &refusal);
                Ok(())
            }
            Err(StepFault::NoMemory) => Err(NoMemory),
        }
    }

    /// Applies the row that it has read and not yet applied, if there is one, so that its version is
    /// that of its whole front. The pen stays, and after want of memory, which comes only where there is such a row, the
    /// seat is as before.
    ///
    /// The last clause tells what is so of every pen, as [`Pen::front`](spin_log::Pen::front) does.
    #[inline]
    pub fn apply(&mut self, alloc: Global, hub: &Hub) -> Result<(), NoMemory>
        requires sincere { ⟦<Catalogue as Sincere>⟧.sincere hub.now.setup.catalogue }
        requires seat { IsSeat (data_of hub.now.setup) self.old }
        ensures seat { IsSeat (data_of hub.now.setup) self.new }
        ensures first { self.new.base ≡ self.old.base }
        ensures pen { self.new.pen ≡ self.old.pen }
        ensures ok { OnOk result (self.new.pending ≡ None) }
        ensures err { OnErr result (self.new ≡ self.old) }
        ensures kept { OnErr result (self.old.pending ≢ None) }
        ensures is_pen { IsPen self.new.pen }
    {
        let _front = self.pen.front();
        match self.pending {
            Some(row) => self.step(alloc, hub, row),
            None => Ok(()),
        }
    }

    // Reads the next row, and keeps it; or adds a pin where there is none.
    #[inline]
    fn read(&mut self, hub: &Hub) -> Look
        requires log { self.old.pen.log ≡ hub.now.log.id }
        requires seat { IsSeat (data_of hub.now.setup) self.old }
        requires whole { self.old.pending ≡ None }
        ensures look { LooksSay self.old.pen result self.new.pen }
        ensures state { self.new.state ≡ self.old.state }
        ensures kept { self.new.pending ≡ row_seen result }
        ensures seat { IsSeat (data_of hub.now.setup) self.new }
        ensures first { self.new.base ≡ self.old.base }
    {
        match hub.log.look(&mut self.pen) {
            Look::Entry(row) => {
                self.pending = Some(row);
                Look::Entry(row)
            }
            Look::Pinned => Look::Pinned,
        }
    }

    // Reads on until there is no next row, which is a pin. It counts its turns: one for each row that it reads, and at
    // most one more.
    #[inline]
    fn pin<L: Ledger>(
        &mut self,
        alloc: Global,
        hub: &Hub,
        turns: &mut Steps<L>,
    ) -> Result<(), NoMemory>
        requires sincere { ⟦<Catalogue as Sincere>⟧.sincere hub.now.setup.catalogue }
        requires log { self.old.pen.log ≡ hub.now.log.id }
        requires seat { IsSeat (data_of hub.now.setup) self.old }
        ensures seat { IsSeat (data_of hub.now.setup) self.new }
        ensures first { self.new.base ≡ self.old.base }
        ensures ok { OnOk result (ReadsToPin self.old.pen self.new.pen × (self.new.pending ≡ None)) }
        ensures err { OnErr result (ReadsOn self.old.pen self.new.pen) }
        ensures turns { TurnsFor self.old.pen turns.old self.new.pen turns.new }
    {
        loop {
            turns.tick();
            self.apply(alloc, hub)?;
            if let Look::Pinned = self.read(hub) {
                return Ok(());
            }
        }
    }

    // The same with a count of its own.
    #[inline]
    pub(crate) fn pin_counted<L: Ledger>(
        &mut self,
        alloc: Global,
        hub: &Hub,
        blank: Blank,
    ) -> Result<(), NoMemory>
        requires sincere { ⟦<Catalogue as Sincere>⟧.sincere hub.now.setup.catalogue }
        requires log { self.old.pen.log ≡ hub.now.log.id }
        requires seat { IsSeat (data_of hub.now.setup) self.old }
        requires name { blank.name ≡ L.name }
        requires parts { blank.parts ≡ L.parts }
        requires some { 0 < L.parts }
        ensures seat { IsSeat (data_of hub.now.setup) self.new }
        ensures first { self.new.base ≡ self.old.base }
        ensures ok { OnOk result (ReadsToPin self.old.pen self.new.pen × (self.new.pending ≡ None)) }
        ensures err { OnErr result (ReadsOn self.old.pen self.new.pen) }
    {
        let mut turns = Steps::<L>::new(blank);
        self.pin(alloc, hub, &mut turns)
    }

    /// Does the deed on the version of the present end of the log: it reads on until a load finds
    /// no next row, which is a pin of that place, and answers what [`path`] does on the version of
    /// that place.
    ///
    /// After `NoMemory` no answer stands; the seat may have read on, and may have one pin more; the
    /// next call goes on from there. The seat's log is the hub's, the seat is one of the hub's
    /// setup, and the catalogue's objects do what they were handed in with.
    ///
    /// It waits for nobody. It turns at most once for each row that it reads, and once more, so at
    /// most [`MAX_PLACE`] and one times. Where the front is whole, the whole log, it costs one
    /// atomic load beside `path`, and the version is shared and not copied.
    pub fn raise(&mut self, alloc: Global, hub: &Hub, deed: &Deed) -> Result<Raised, NoMemory>
        requires sincere { ⟦<Catalogue as Sincere>⟧.sincere hub.now.setup.catalogue }
        requires log { self.old.pen.log ≡ hub.now.log.id }
        requires seat { IsSeat (data_of hub.now.setup) self.old }
        ensures seat { IsSeat (data_of hub.now.setup) self.new }
        ensures first { self.new.base ≡ self.old.base }
        ensures same { IsSamePen self.old.pen self.new.pen }
        ensures answer { let d = data_of hub.now.setup in
            let first = self.old.base in
            let pen = self.old.pen in
            IfOk result (λ raised.
            GivesFrom d first pen (reply_answer pen.lane deed.now raised.place raised.reply) self.new.pen) }
        ensures whole { OnOk result (self.new.pending ≡ None) }
        ensures pinned { IfOk result (λ raised. arc_value raised.pinned ≡ version_of self.new) }
        ensures calls { IfOk result (λ raised. All (BelongsTo self.new.state) (calls_left raised.reply)) }
        ensures err { OnErr result (AddsAtMostAPin self.old.pen self.new.pen) }
    {
        self.pin_counted::<Brand>(alloc, hub, Blank::new(1))?;
        let place = self.place();
        let reply = path(alloc, &self.version, &hub.setup, deed)?;
        let pinned = Arc::try_clone(&self.version)?;
        Ok(Raised {
            place,
            reply,
            pinned,
        })
    }

    // Publishes the command, whose next version this is; or reads the row that came first, and
    // keeps it.
    fn publish(&mut self, hub: &Hub, c: &Command, next: Arc<Version>) -> Option<Judged>
        requires log { self.old.pen.log ≡ hub.now.log.id }
        requires seat { IsSeat (data_of hub.now.setup) self.old }
        requires whole { self.old.pending ≡ None }
        requires room { place_past self.old.base.place (length self.old.pen.front) < MAX_PLACE }
        requires valid { IsTrue (is_command c.now) }
        requires lane { c.now.lane ≡ self.old.pen.lane }
        requires step { IsAnswer (data_of hub.now.setup) self.old.state c.now (Ok (arc_value next)) }
        requires sound { IsSoundVersion (data_of hub.now.setup) (arc_value next) }
        ensures seat { IsSeat (data_of hub.now.setup) self.new }
        ensures first { self.new.base ≡ self.old.base }
        ensures tries { Tries (data_of hub.now.setup) self.old c.now result self.new }
    {
        let place = self.place();
        match hub.log.publish(&mut self.pen, pack(c)) {
            Publish::Done => {
                self.version = next;
                Some(Judged {
                    place: place + 1,
                    verdict: Verdicted::Accepted,
                })
            }
            Publish::Lost(other) => {
                self.pending = Some(other);
                None
            }
            Publish::Full => unreachable!(),
        }
    }

    // Refuses the command at a pin; or reads the row that came first, and keeps it.
    fn refuse(&mut self, hub: &Hub, _c: &Command, refusal: Refusal) -> Option<Judged>
        requires log { self.old.pen.log ≡ hub.now.log.id }
        requires seat { IsSeat (data_of hub.now.setup) self.old }
        requires whole { self.old.pending ≡ None }
        requires room { place_past self.old.base.place (length self.old.pen.front) < MAX_PLACE }
        requires step { let verdict = verdicted.Refused refusal in
            IsStep (data_of hub.now.setup) self.old.state _c.now verdict self.old.state }
        ensures seat { IsSeat (data_of hub.now.setup) self.new }
        ensures first { self.new.base ≡ self.old.base }
        ensures tries { Tries (data_of hub.now.setup) self.old _c.now result self.new }
    {
        let place = self.place();
        match self.read(hub) {
            Look::Entry(_) => None,
            Look::Pinned => Some(Judged {
                place,
                verdict: Verdicted::Refused(refusal),
            }),
        }
    }

    // Judges the command at the front, and publishes it there or refuses it at a pin. None where
    // another row came first, which the seat keeps then.
    fn judge(&mut self, alloc: Global, hub: &Hub, c: &Command) -> Result<Option<Judged>, NoMemory>
        requires sincere { ⟦<Catalogue as Sincere>⟧.sincere hub.now.setup.catalogue }
        requires log { self.old.pen.log ≡ hub.now.log.id }
        requires seat { IsSeat (data_of hub.now.setup) self.old }
        requires whole { self.old.pending ≡ None }
        requires room { place_past self.old.base.place (length self.old.pen.front) < MAX_PLACE }
        requires valid { IsTrue (is_command c.now) }
        requires lane { c.now.lane ≡ self.old.pen.lane }
        ensures seat { IsSeat (data_of hub.now.setup) self.new }
        ensures first { self.new.base ≡ self.old.base }
        ensures tries { let d = data_of hub.now.setup in
            IfOk result (λ judged. Tries d self.old c.now judged self.new) }
        ensures err { OnErr result (self.new ≡ self.old) }
        ensures unrefused { OnErr result (refusal_of (data_of hub.now.setup) self.old.state c.now ≡ None) }
    {
        match next_version(alloc, &hub.setup, &self.version, c) {
            Ok(next) => Ok(self.publish(hub, c, next)),
            Err(StepFault::Refused(refusal)) => Ok(self.refuse(hub, c, refusal)),
            Err(StepFault::NoMemory) => Err(NoMemory),
        }
    }

    // Judges the command at the front, and where another row came first again at the next one. It counts its turns: one
    // for each row that it reads, and at most one more.
    fn command_turning<L: Ledger>(
        &mut self,
        alloc: Global,
        hub: &Hub,
        c: &Command,
        turns: &mut Steps<L>,
    ) -> Result<Judged, SeatFault>
        requires sincere { ⟦<Catalogue as Sincere>⟧.sincere hub.now.setup.catalogue }
        requires log { self.old.pen.log ≡ hub.now.log.id }
        requires seat { IsSeat (data_of hub.now.setup) self.old }
        requires valid { IsTrue (is_command c.now) }
        requires lane { c.now.lane ≡ self.old.pen.lane }
        ensures seat { IsSeat (data_of hub.now.setup) self.new }
        ensures first { self.new.base ≡ self.old.base }
        ensures same { IsSamePen self.old.pen self.new.pen }
        ensures answer { let d = data_of hub.now.setup in
            let first = self.old.base in
            let pen = self.old.pen in
            IfOk result (λ judged.
            GivesFrom d first pen (verdict_answer pen.lane c.now judged.place judged.verdict) self.new.pen) }
        ensures room { let lane = self.old.pen.lane in
            IfOk result (λ judged.
            place_before (verdict_answer lane c.now judged.place judged.verdict) < MAX_PLACE) }
        ensures whole { OnOk result (self.new.pending ≡ None) }
        ensures read { OnErr result (ReadsOn self.old.pen self.new.pen) }
        ensures fault { IfErr result (IsFaultAt self.old.base.place (length self.new.pen.front)) }
        ensures unrefused { IfErr result (IsUnrefused (data_of hub.now.setup) self.new c.now) }
        ensures turns { TurnsFor self.old.pen turns.old self.new.pen turns.new }
    {
        while self.room() > 0 {
            turns.tick();
            self.apply(alloc, hub)?;
            if let Some(judged) = self.judge(alloc, hub, c)? {
                return Ok(judged);
            }
        }
        Err(SeatFault::Full)
    }

    // The same with a count of its own.
    fn command_counted<L: Ledger>(
        &mut self,
        alloc: Global,
        hub: &Hub,
        c: &Command,
        blank: Blank,
    ) -> Result<Judged, SeatFault>
        requires sincere { ⟦<Catalogue as Sincere>⟧.sincere hub.now.setup.catalogue }
        requires log { self.old.pen.log ≡ hub.now.log.id }
        requires seat { IsSeat (data_of hub.now.setup) self.old }
        requires valid { IsTrue (is_command c.now) }
        requires lane { c.now.lane ≡ self.old.pen.lane }
        requires name { blank.name ≡ L.name }
        requires parts { blank.parts ≡ L.parts }
        requires some { 0 < L.parts }
        ensures seat { IsSeat (data_of hub.now.setup) self.new }
        ensures first { self.new.base ≡ self.old.base }
        ensures same { IsSamePen self.old.pen self.new.pen }
        ensures answer { let d = data_of hub.now.setup in
            let first = self.old.base in
            let pen = self.old.pen in
            IfOk result (λ judged.
            GivesFrom d first pen (verdict_answer pen.lane c.now judged.place judged.verdict) self.new.pen) }
        ensures room { let lane = self.old.pen.lane in
            IfOk result (λ judged.
            place_before (verdict_answer lane c.now judged.place judged.verdict) < MAX_PLACE) }
        ensures whole { OnOk result (self.new.pending ≡ None) }
        ensures read { OnErr result (ReadsOn self.old.pen self.new.pen) }
        ensures fault { IfErr result (IsFaultAt self.old.base.place (length self.new.pen.front)) }
        ensures unrefused { IfErr result (IsUnrefused (data_of hub.now.setup) self.new c.now) }
    {
        let mut turns = Steps::<L>::new(blank);
        self.command_turning(alloc, hub, c, &mut turns)
    }

    /// Judges the command at the version of its own place. An accepted command has its whole next
    /// version, and then one exchange publishes it as the next row of the log: so nothing that was
    /// published can be refused for want of memory. A refusal is judged at a pin. Where another
    /// lane's row came first, the seat reads and applies that, and judges the command again.
    ///
    /// `Full` exactly where there is no [room](Seat::room) at the start, or none is left by reading
    /// another lane's row; nothing is judged there. Want of memory is no refusal: where the seat has
    /// applied all that it has read, none but a conflict applies to the command there. After a fault the
    /// command wasn't published, no pin is added, the seat may have read on, and the next call goes on
    /// from there.
    /// The command is valid and of the seat's lane; the seat's log is the hub's, the seat is one of
    /// the hub's setup, and the catalogue's objects do what they were handed in with.
    ///
    /// It waits for nobody. It turns at most once for each row that it reads, and once more, so at
    /// most [`MAX_PLACE`] times. Beside the making of its version, which shares all events but the
    /// command's own, an accepted command costs four atomic stores and one exchange.
    pub fn command(&mut self, alloc: Global, hub: &Hub, c: &Command) -> Result<Judged, SeatFault>
        requires sincere { ⟦<Catalogue as Sincere>⟧.sincere hub.now.setup.catalogue }
        requires log { self.old.pen.log ≡ hub.now.log.id }
        requires seat { IsSeat (data_of hub.now.setup) self.old }
        requires valid { IsTrue (is_command c.now) }
        requires lane { c.now.lane ≡ self.old.pen.lane }
        ensures seat { IsSeat (data_of hub.now.setup) self.new }
        ensures first { self.new.base ≡ self.old.base }
        ensures same { IsSamePen self.old.pen self.new.pen }
        ensures answer { let d = data_of hub.now.setup in
            let first = self.old.base in
            let pen = self.old.pen in
            IfOk result (λ judged.
            GivesFrom d first pen (verdict_answer pen.lane c.now judged.place judged.verdict) self.new.pen) }
        ensures room { let lane = self.old.pen.lane in
            IfOk result (λ judged.
            place_before (verdict_answer lane c.now judged.place judged.verdict) < MAX_PLACE) }
        ensures whole { OnOk result (self.new.pending ≡ None) }
        ensures read { OnErr result (ReadsOn self.old.pen self.new.pen) }
        ensures fault { IfErr result (IsFaultAt self.old.base.place (length self.new.pen.front)) }
        ensures unrefused { IfErr result (IsUnrefused (data_of hub.now.setup) self.new c.now) }
    {
        self.command_counted::<Brand>(alloc, hub, c, Blank::new(1))
    }

    // Learns what a seat with a front no shorter knows, and shares its version. Neither keeps a
    // row.
    pub(crate) fn learn(&mut self, hub: &Hub, other: &mut Seat) -> Result<(), NoMemory>
        requires log { self.old.pen.log ≡ hub.now.log.id }
        requires other_log { other.old.pen.log ≡ hub.now.log.id }
        requires seat { IsSeat (data_of hub.now.setup) self.old }
        requires other { IsSeat (data_of hub.now.setup) other.old }
        requires whole { (self.old.pending ≡ None) × (other.old.pending ≡ None) }
        requires longer { length self.old.pen.front ≤ length other.old.pen.front }
        requires one { other.old.base ≡ self.old.base }
        ensures seat { IsSeat (data_of hub.now.setup) self.new }
        ensures first { self.new.base ≡ self.old.base }
        ensures other { other.new ≡ other.old }
        ensures ok { let pen = with_front self.old.pen other.old.pen.front in
            OnOk result (self.new ≡ record other.old { pen = pen }) }
        ensures reads { OnOk result (ReadsOn self.old.pen self.new.pen) }
        ensures pens { OnOk result (IsPen self.new.pen × IsPen other.new.pen) }
        ensures err { OnErr result (self.new ≡ self.old) }
    {
        let version = Arc::try_clone(&other.version)?;
        let _before = self.pen.front();
        let _of_other = other.pen.front();
        hub.log.meet(&mut self.pen, &mut other.pen);
        let _after = self.pen.front();
        self.version = version;
        Ok(())
    }
}
