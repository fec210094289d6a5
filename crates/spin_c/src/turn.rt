//! The calls of a handle.

ghost use Rattle.std.specs.Prelude.{◌≡◌, ◌≢◌, ◌<◌, ◌≤◌, IfOk, OnOk, IfSome, None, Some, Option, map};
ghost use Rattle.std.specs.Arc.{arc_value};
ghost use Rattle.spin_values.specs.declared.values.Value.TheVariants as value;
ghost use Rattle.spin_word.specs.declared.command.TheConstants.{MAX_LANES};
ghost use Rattle.spin_word.specs.declared.work.Deed.TheVariants as deed;
ghost use Rattle.spin_script.specs.States.{natives_seen};
ghost use Rattle.spin_c.specs.declared.ask.Ask.TheVariants as asked;
ghost use Rattle.spin_c.specs.declared.ask.Outcome.TheVariants as outcome;
ghost use Rattle.spin_c.specs.Waiting.{IfLane, IsWell, IsWellLane, IsStarted};
ghost use Rattle.spin_c.specs.StepLists.{ReadsSteps, TellsSteps};
ghost use Rattle.spin_c.specs.Turns.{Opens, OpensTo, Raises, Commands, Works, Does, DoesHeld, Returns, Turns, ended_told};
ghost use Rattle.spin_c.specs.Verdicts.{no_natives};

use crate::ask::{Ask, Call, Outcome};
use crate::cycles::in_cycle;
use crate::gathering::{Apart, Laid, lay, tell_missing};
use crate::handing::{let_go_held, why_kept};
use crate::kept::Kept;
use crate::lane::{Held, Lane};
use crate::loose::Loose;
use crate::maybe::Maybe;
use crate::renewing::{before, end_held, renew_held, row_at};
use crate::row::in_lane;
use crate::step::SpinStep;
use crate::trail::{hand_bytes, tell_step, tell_steps};
use spin_code::Sincere;
use spin_log::Rows;
use spin_objects::{Catalogue, Natives};
use spin_script::{Script, ScriptFault, read_script};
use spin_seat::Party;
use spin_table::Setup;
use spin_values::{NoMemory, Numbers};
use spin_word::{Deed, MAX_LANES, Row, unpack};
use std::alloc::Global;
use std::mem;
use std::sync::Arc;

// A lane over the setup, at its start: that of the first seat, at which the others wait.
fn start(alloc: Global, setup: Setup, lanes: u8) -> Result<Lane, NoMemory>
    requires some { 0 < lanes }
    requires few { lanes ≤ MAX_LANES }
    ensures setup { IfOk result (λ l. (arc_value l.party).hub.setup ≡ setup) }
    ensures lanes { OnOk result ((0 < lanes) × (lanes ≤ MAX_LANES)) }
    ensures started { IfOk result (λ l. IsStarted lanes l) }
    ensures well { IfOk result (λ l. IsWellLane l) }
{
    let (party, seats, tickets) = Party::new(alloc, setup, lanes)?;
    let slots = Vec::with_capacity(alloc, usize::from(lanes))?;
    let party = Arc::new(alloc, party)?;
    let Laid {
        away,
        waiting,
        room,
    } = lay(Apart {
        seats,
        tickets,
        slots,
    });
    Ok(Lane {
        party,
        away,
        reply: Kept::new(alloc),
        waiting,
        room,
        before: Numbers::new(alloc),
        lanes,
    })
}

// A lane over the script, at its start.
fn open(alloc: Global, natives: Natives, text: &[u8], lanes: u8) -> Result<Lane, Outcome>
    requires sincere { ⟦<Natives as Sincere>⟧.sincere natives }
    ensures opens { Opens (natives_seen natives) text.now lanes result }
    ensures sincere { IfOk result (λ l. ⟦<Catalogue as Sincere>⟧.sincere (arc_value l.party).hub.setup.catalogue) }
    ensures well { IfOk result (λ l. IsWellLane l) }
{
    if lanes == 0 || lanes > MAX_LANES {
        return Err(Outcome::NoLane);
    }
    let script = match read_script(alloc, text, natives) {
        Ok(script) => script,
        Err(ScriptFault::Bad { line, cause }) => return Err(Outcome::Bad { line, cause }),
        Err(ScriptFault::NoMemory) => return Err(Outcome::NoMemory),
    };
    let Script { setup, .. } = script;
    match start(alloc, setup, lanes) {
        Ok(lane) => Ok(lane),
        Err(NoMemory) => Err(Outcome::NoMemory),
    }
}

// Does the deed, and keeps the reply.
fn raise(alloc: Global, lane: &mut Lane, deed: &Deed) -> Outcome
    requires sincere { ⟦<Catalogue as Sincere>⟧.sincere (arc_value lane.old.party).hub.setup.catalogue }
    requires well { IsWellLane lane.old }
    ensures well { IsWellLane lane.new }
    ensures raises { Raises lane.old deed.now lane.new result }
{
    match lane
        .reply
        .raise(alloc, &lane.party.hub, &mut lane.away.seat, deed)
    {
        Ok((place, told)) => Outcome::Raised { place, told },
        Err(NoMemory) => Outcome::NoMemory,
    }
}

// Raises an event with words, and keeps the reply.
fn raise_words(alloc: Global, lane: &mut Lane, event: u8, words: &[u64]) -> Outcome
    requires sincere { ⟦<Catalogue as Sincere>⟧.sincere (arc_value lane.old.party).hub.setup.catalogue }
    requires well { IsWellLane lane.old }
    ensures well { IsWellLane lane.new }
    ensures raises { Raises lane.old (deed.Raise event (map value.Word words.now)) lane.new result }
{
    match lane
        .reply
        .raise_words(alloc, &lane.party.hub, &mut lane.away.seat, event, words)
    {
        Ok((place, told)) => Outcome::Raised { place, told },
        Err(NoMemory) => Outcome::NoMemory,
    }
}

// Does the command of the row, whose lane is the seat's.
fn command(alloc: Global, lane: &mut Lane, row: &Row) -> Outcome
    requires sincere { ⟦<Catalogue as Sincere>⟧.sincere (arc_value lane.old.party).hub.setup.catalogue }
    requires well { IsWellLane lane.old }
    ensures well { IsWellLane lane.new }
    ensures commands { Commands lane.old row.now lane.new result }
{
    let Some(command) = unpack(&in_lane(row, lane.away.seat.lane())) else {
        return Outcome::NoCommand;
    };
    lane.reply.command(
        alloc,
        &lane.party.hub,
        &mut lane.away.seat,
        lane.lanes,
        &command,
    )
}

// Does the job at an index of those that the reply leaves that is kept.
fn job(alloc: Global, lane: &mut Lane, index: u64) -> Outcome
    requires sincere { ⟦<Catalogue as Sincere>⟧.sincere (arc_value lane.old.party).hub.setup.catalogue }
    requires well { IsWellLane lane.old }
    ensures well { IsWellLane lane.new }
    ensures works { Works lane.old index lane.new result }
{
    lane.reply.job(alloc, &lane.party.hub, index)
}

// Does what is asked of a lane, but to renew its hub, to end it and to close it.
fn turn_lane(alloc: Global, lane: &mut Lane, ask: Ask) -> Outcome
    requires sincere { ⟦<Catalogue as Sincere>⟧.sincere (arc_value lane.old.party).hub.setup.catalogue }
    requires well { IsWellLane lane.old }
    ensures well { IsWellLane lane.new }
    ensures does { Does lane.old ask lane.new result }
{
    match ask {
        Ask::Open { .. } => Outcome::Open,
        Ask::Raise { event, args } => raise(alloc, lane, &Deed::Raise { event, args }),
        Ask::Later { event, args } => raise(alloc, lane, &Deed::Later { event, args }),
        Ask::Job(index) => job(alloc, lane, index),
        Ask::Command(row) => command(alloc, lane, &row),
        Ask::Step(index) => tell_step(lane.reply.steps(), index),
        Ask::Bytes(index) => hand_bytes(alloc, lane.reply.steps(), index),
        Ask::JobStep(index) => tell_step(lane.reply.job_steps(), index),
        Ask::JobBytes(index) => hand_bytes(alloc, lane.reply.job_steps(), index),
        Ask::Cycle(index) => in_cycle(&lane.reply, index),
        Ask::Before(index) => before(&lane.before, index),
        Ask::Gather => tell_missing(alloc, lane),
        Ask::RowAt(_) => Outcome::NoRow,
        Ask::Renew | Ask::End | Ask::Return | Ask::Close => Outcome::Done,
    }
}

// Does what is asked of a hub that was ended, but to close it.
fn turn_ended(rows: &Rows, ask: &Ask) -> Outcome
    ensures { result ≡ ended_told rows.now ask.now }
{
    match ask {
        Ask::Open { .. } => Outcome::Open,
        Ask::RowAt(index) => row_at(rows, *index),
        _ => Outcome::Ended,
    }
}

// Does what is asked of what a handle holds in its place, but to renew a hub, to end it and to close it.
fn turn_placed(alloc: Global, held: &mut Held, ask: Ask) -> Outcome
    requires sincere { IfLane held.old
        (λ l. ⟦<Catalogue as Sincere>⟧.sincere (arc_value l.party).hub.setup.catalogue) }
    requires well { IfLane held.old (λ l. IsWellLane l) }
    requires not_renew { ask ≢ asked.Renew }
    requires not_end { ask ≢ asked.End }
    ensures well { IfLane held.new (λ l. IsWellLane l) }
    ensures does { DoesHeld held.old ask held.new result }
{
    match held {
        Held::Lane(lane) => turn_lane(alloc, lane, ask),
        Held::Ended(rows) => turn_ended(rows, &ask),
    }
}

// Does what is asked of what a handle holds, but to close it.
fn turn_held(alloc: Global, held: &mut Held, ask: Ask) -> Outcome
    requires sincere { IfLane held.old
        (λ l. ⟦<Catalogue as Sincere>⟧.sincere (arc_value l.party).hub.setup.catalogue) }
    requires well { IfLane held.old (λ l. IsWellLane l) }
    ensures well { IfLane held.new (λ l. IsWellLane l) }
    ensures does { DoesHeld held.old ask held.new result }
{
    if let Ask::Renew = ask {
        let old = mem::replace(held, Held::Ended(Rows::new(alloc)));
        let (after, outcome) = renew_held(alloc, old);
        *held = after;
        return outcome;
    }
    if let Ask::End = ask {
        let old = mem::replace(held, Held::Ended(Rows::new(alloc)));
        let (after, outcome) = end_held(alloc, old);
        *held = after;
        return outcome;
    }
    turn_placed(alloc, held, ask)
}

// Tells steps of the reply that is kept, from an index on, in a list.
fn steps_in(held: &Held, from: u64, steps: &mut [SpinStep]) -> Outcome
    ensures { TellsSteps (Some held.now) from steps.old steps.new result }
{
    match held {
        Held::Lane(lane) => tell_steps(lane.reply.steps(), from, steps),
        Held::Ended(_) => Outcome::Ended,
    }
}

// Tells steps of the reply that a handle keeps, which is as it was.
pub(crate) fn steps_maybe(
    maybe: Maybe<Held>,
    alloc: Global,
    from: u64,
    steps: &mut [SpinStep],
) -> (Maybe<Held>, Outcome)
    requires well { IsWell maybe.value }
    ensures well { IsWell result.0.value }
    ensures reads { ReadsSteps maybe.value from steps.old result.0.value steps.new result.1 }
{
    let Some(loose) = maybe.into_loose() else {
        return (Maybe::none(alloc), Outcome::Closed);
    };
    let held = loose.into_box();
    let told = steps_in(&held, from, steps);
    (Maybe::of(Loose::of(held)), told)
}

// Raises an event with words on what a handle holds in its place.
fn words_in(alloc: Global, held: &mut Held, event: u8, words: &[u64]) -> Outcome
    requires sincere { IfLane held.old
        (λ l. ⟦<Catalogue as Sincere>⟧.sincere (arc_value l.party).hub.setup.catalogue) }
    requires well { IfLane held.old (λ l. IsWellLane l) }
    ensures well { IfLane held.new (λ l. IsWellLane l) }
    ensures does { DoesHeld held.old (asked.Raise event (map value.Word words.now)) held.new result }
{
    match held {
        Held::Lane(lane) => raise_words(alloc, lane, event, words),
        Held::Ended(_) => Outcome::Ended,
    }
}

// Raises an event with words on what a handle holds.
pub(crate) fn words_maybe(
    maybe: Maybe<Held>,
    alloc: Global,
    event: u8,
    words: &[u64],
) -> (Maybe<Held>, Outcome)
    requires sincere { IfSome maybe.value (λ h. IfLane h
        (λ l. ⟦<Catalogue as Sincere>⟧.sincere (arc_value l.party).hub.setup.catalogue)) }
    requires well { IsWell maybe.value }
    ensures well { IsWell result.0.value }
    ensures raises { Turns no_natives maybe.value (asked.Raise event (map value.Word words.now)) result.0.value result.1 }
{
    let Some(loose) = maybe.into_loose() else {
        return (Maybe::none(alloc), Outcome::Closed);
    };
    let mut held = loose.into_box();
    let outcome = words_in(alloc, &mut held, event, words);
    (Maybe::of(Loose::of(held)), outcome)
}

// Opens a closed handle.
fn open_maybe(alloc: Global, natives: Natives, text: &[u8], lanes: u8) -> (Maybe<Held>, Outcome)
    requires sincere { ⟦<Natives as Sincere>⟧.sincere natives }
    ensures well { IsWell result.0.value }
    ensures opens { OpensTo (natives_seen natives) text.now lanes result.0.value result.1 }
{
    let lane = match open(alloc, natives, text, lanes) {
        Ok(lane) => lane,
        Err(outcome) => return (Maybe::none(alloc), outcome),
    };
    match Box::new(alloc, Held::Lane(lane)) {
        Ok(held) => (Maybe::of(Loose::of(held)), Outcome::Done),
        Err(_) => (Maybe::none(alloc), Outcome::NoMemory),
    }
}

// Closes a handle.
fn close(alloc: Global, held: Box<Held>) -> (Maybe<Held>, Outcome)
    requires well { IfLane held.value (λ l. IsWellLane l) }
    ensures after { result.0.value ≡ None }
    ensures told { result.1 ≡ outcome.Done }
{
    let_go_held(Box::into_inner(held));
    (Maybe::none(alloc), Outcome::Done)
}

// Closes a handle whose seat was handed out.
fn give_back(alloc: Global, held: Box<Held>) -> (Maybe<Held>, Outcome)
    requires well { IfLane held.value (λ l. IsWellLane l) }
    ensures well { IsWell result.0.value }
    ensures returns { Returns held.value result.0.value result.1 }
{
    match why_kept(&held) {
        Some(why) => (Maybe::of(Loose::of(held)), why),
        None => close(alloc, held),
    }
}

// Does the call on what a handle holds. There are no natives.
pub(crate) fn turn_maybe(maybe: Maybe<Held>, call: Call) -> (Maybe<Held>, Outcome)
    requires sincere { IfSome maybe.value (λ h. IfLane h
        (λ l. ⟦<Catalogue as Sincere>⟧.sincere (arc_value l.party).hub.setup.catalogue)) }
    requires well { IsWell maybe.value }
    ensures well { IsWell result.0.value }
    ensures does { Turns no_natives maybe.value call.ask result.0.value result.1 }
{
    let Call { alloc, ask } = call;
    let Some(loose) = maybe.into_loose() else {
        return match ask {
            Ask::Open { text, lanes } => {
                open_maybe(alloc, Natives::new(alloc), text.as_slice(), lanes)
            }
            _ => (Maybe::none(alloc), Outcome::Closed),
        };
    };
    let mut held = loose.into_box();
    if let Ask::Close = ask {
        return close(alloc, held);
    }
    if let Ask::Return = ask {
        return give_back(alloc, held);
    }
    let outcome = turn_held(alloc, &mut held, ask);
    (Maybe::of(Loose::of(held)), outcome)
}
