//! Pens that share a log, in one thread and in several.

ghost use Rattle.std.specs.Prelude.{◌≡◌, ◌<◌, IfOk, IsTrue};
ghost use Rattle.std.specs.Thread.{IsSync};
ghost use Rattle.spin_word.specs.Commands.{is_command};
ghost use Rattle.spin_log.specs.Rows.{IsRowOf};
ghost use Rattle.spin_log.specs.Pens.{IsSamePen};

use spin_log::{Log, Look, MAX_PLACE, Pen, Pens, Publish, Rows};
use spin_values::NoMemory;
use spin_word::{Command, Op, Row, pack, unpack};
use std::alloc::Global;
use std::process::Abort;
use std::test::Fail;
use std::thread::{Threads, join};

// How many rows each lane publishes in the test with threads.
const ROWS_EACH: u16 = 250;

fn default_of(lane: u8, handler: u16) -> Command
    requires { (lane < 16) × (handler < 1024) }
    ensures { IsTrue (is_command result) × (result.lane ≡ lane) }
{
    Command {
        handler,
        ..Command::bare(Op::Default, lane, 0, 0)
    }
}

// Publishes the row again and again, and tells how often it was done before another answer came.
fn publish_often(log: &Log, pen: &mut Pen, row: Row, times: u16) -> u16
    requires log { pen.old.log ≡ log.now.id }
    requires row { IsRowOf pen.old.lane row }
    ensures { IsSamePen pen.old pen.new }
{
    for done in 0..times {
        if log.publish(pen, row) != Publish::Done {
            return done;
        }
    }
    times
}

// Publishes the row after all that others publish before.
fn publish_at_last(log: &Log, pen: &mut Pen, row: Row)
    requires log { pen.old.log ≡ log.now.id }
    requires row { IsRowOf pen.old.lane row }
    ensures { IsSamePen pen.old pen.new }
{
    for _ in 0..MAX_PLACE {
        if log.publish(pen, row) == Publish::Done {
            return;
        }
    }
}

// Publishes the rows of a lane, one after another.
fn publish_all(log: &Log, mut pen: Pen) -> Pen
    requires { pen.log ≡ log.now.id }
    ensures { result.log ≡ pen.log }
{
    let lane = pen.lane();
    for handler in 0..ROWS_EACH {
        let row = pack(&default_of(lane, handler));
        publish_at_last(log, &mut pen, row);
    }
    pen
}

// Publishes the rows of two lanes, both at once.
fn publish_both<R: Threads + Sync>(rt: &R, log: &Log, first: Pen, second: Pen) -> (Pen, Pen)
    requires { (first.log ≡ log.now.id) × (second.log ≡ log.now.id) }
    ensures { (result.0.log ≡ log.now.id) × (result.1.log ≡ log.now.id) }
{
    join(
        rt,
        || -> Pen
            requires { first.log ≡ log.now.id }
            ensures { result.log ≡ log.entry.now.id }
        { publish_all(log, first) },
        || -> Pen
            requires { second.log ≡ log.now.id }
            ensures { result.log ≡ log.entry.now.id }
        { publish_all(log, second) },
    )
}

// Whether the rows of the lane are those that it published, each once and in its order.
fn has_all_of(rows: &[Row], lane: u8) -> bool {
    let mut next = 0;
    for row in rows {
        let Some(command) = unpack(row) else {
            return false;
        };
        if command.lane == lane {
            if command.handler != next {
                return false;
            }
            next = next.wrapping_add(1);
        }
    }
    next == ROWS_EACH
}

// Each pen publishes a row, the second when it has read the first.
fn publish_in_turn(rt: &impl Abort, log: &Log, zero: &mut Pen, one: &mut Pen, a: Row, b: Row)
    requires zero { (zero.old.log ≡ log.now.id) × IsRowOf zero.old.lane a }
    requires one { (one.old.log ≡ log.now.id) × IsRowOf one.old.lane b }
    ensures zero { IsSamePen zero.old zero.new }
    ensures one { IsSamePen one.old one.new }
{
    assert_eq!(rt; log.publish(zero, a), Publish::Done);
    assert_eq!(rt; log.publish(one, b), Publish::Lost(a));
    assert_eq!(rt; one.front(), 1);
    assert_eq!(rt; log.publish(one, b), Publish::Done);
    assert_eq!(rt; log.look(zero), Look::Entry(b));
    assert_eq!(rt; log.look(zero), Look::Pinned);
}

// A log of two lanes, and their pens.
fn two_pens(alloc: Global) -> Result<(Log, Pen, Pen), NoMemory>
    ensures lanes { IfOk result (λ made. made.0.lanes ≡ 2) }
    ensures zero { IfOk result (λ made. (made.1.log ≡ made.0.id) × (made.1.lane ≡ 0)) }
    ensures one { IfOk result (λ made. (made.2.log ≡ made.0.id) × (made.2.lane ≡ 1)) }
{
    let (log, mut pens) = Log::new(alloc, 2)?;
    let Some(zero) = pens.take_first() else {
        unreachable!()
    };
    let Some(one) = pens.take_first() else {
        unreachable!()
    };
    Ok((log, zero, one))
}

// Both pens meet, and have read as far.
fn meet(rt: &impl Abort, log: &Log, zero: &mut Pen, one: &mut Pen)
    requires { (zero.old.log ≡ log.now.id) × (one.old.log ≡ log.now.id) }
    ensures zero { IsSamePen zero.old zero.new }
    ensures one { IsSamePen one.old one.new }
{
    assert_eq!(rt; (zero.lane(), one.lane()), (0, 1));
    log.meet(zero, one);
    assert_eq!(rt; (zero.front(), one.front()), (2, 2));
}

// The rows of a log of two lanes.
fn close_two(alloc: Global, log: Log, zero: Pen, one: Pen) -> Result<Rows, NoMemory>
    requires lanes { log.lanes ≡ 2 }
    requires logs { (zero.log ≡ log.id) × (one.log ≡ log.id) }
{
    let pens = Pens::from_vec(vec![in alloc; zero, one]?);
    log.close(alloc, pens)
}

#[test]
fn two_pens_share_a_log(rt: HostRuntime) -> Result<(), Fail> {
    let a = pack(&default_of(0, 7));
    let b = pack(&default_of(1, 7));
    let (log, mut zero, mut one) = two_pens(rt.alloc())?;
    publish_in_turn(&rt, &log, &mut zero, &mut one, a, b);
    meet(&rt, &log, &mut zero, &mut one);
    let rows = close_two(rt.alloc(), log, zero, one)?;
    assert_eq!(rt; rows.as_slice(), [a, b].as_slice());
    Ok(())
}

// A log of one lane, and its pen.
fn one_pen(alloc: Global) -> Result<(Log, Pen), NoMemory>
    ensures lanes { IfOk result (λ made. made.0.lanes ≡ 1) }
    ensures pen { IfOk result (λ made. (made.1.log ≡ made.0.id) × (made.1.lane ≡ 0)) }
{
    let (log, mut pens) = Log::new(alloc, 1)?;
    let Some(pen) = pens.take_first() else {
        unreachable!()
    };
    Ok((log, pen))
}

// The row is published until the log is full.
fn publish_all_places(rt: &impl Abort, log: &Log, pen: &mut Pen, row: Row)
    requires log { pen.old.log ≡ log.now.id }
    requires row { IsRowOf pen.old.lane row }
    ensures { IsSamePen pen.old pen.new }
{
    assert_eq!(rt; publish_often(log, pen, row, 4097), 4096);
    assert_eq!(rt; log.publish(pen, row), Publish::Full);
    assert_eq!(rt; log.look(pen), Look::Pinned);
    assert_eq!(rt; pen.front(), 4096);
}

// The rows of a log of one lane.
fn close_one(alloc: Global, log: Log, pen: Pen) -> Result<Rows, NoMemory>
    requires lanes { log.lanes ≡ 1 }
    requires log { pen.log ≡ log.id }
{
    let pens = Pens::from_vec(vec![in alloc; pen]?);
    log.close(alloc, pens)
}

#[test]
fn a_log_is_full(rt: HostRuntime) -> Result<(), Fail> {
    let row = pack(&default_of(0, 7));
    let (log, mut pen) = one_pen(rt.alloc())?;
    publish_all_places(&rt, &log, &mut pen, row);
    let rows = close_one(rt.alloc(), log, pen)?;
    assert_eq!(rt; rows.len(), 4096);
    Ok(())
}

// A log of four lanes, and their pens.
fn four_pens(alloc: Global) -> Result<(Log, (Pen, Pen), (Pen, Pen)), NoMemory>
    ensures lanes { IfOk result (λ made. made.0.lanes ≡ 4) }
    ensures zero { IfOk result (λ made. made.1.0.log ≡ made.0.id) }
    ensures one { IfOk result (λ made. made.1.1.log ≡ made.0.id) }
    ensures two { IfOk result (λ made. made.2.0.log ≡ made.0.id) }
    ensures three { IfOk result (λ made. made.2.1.log ≡ made.0.id) }
{
    let (log, mut pens) = Log::new(alloc, 4)?;
    let Some(zero) = pens.take_first() else {
        unreachable!()
    };
    let Some(one) = pens.take_first() else {
        unreachable!()
    };
    let Some(two) = pens.take_first() else {
        unreachable!()
    };
    let Some(three) = pens.take_first() else {
        unreachable!()
    };
    Ok((log, (zero, one), (two, three)))
}

// The rows of a log of four lanes.
fn close_four(
    alloc: Global,
    log: Log,
    first: (Pen, Pen),
    second: (Pen, Pen),
) -> Result<Rows, NoMemory>
    requires lanes { log.lanes ≡ 4 }
    requires first { (first.0.log ≡ log.id) × (first.1.log ≡ log.id) }
    requires second { (second.0.log ≡ log.id) × (second.1.log ≡ log.id) }
{
    let (zero, one) = first;
    let (two, three) = second;
    let pens = Pens::from_vec(vec![in alloc; zero, one, two, three]?);
    log.close(alloc, pens)
}

// Each of four lanes has all its rows.
fn have_all(rt: &impl Abort, rows: &[Row]) {
    assert_eq!(rt; rows.len(), 1000);
    for lane in 0..4 {
        assert!(rt; has_all_of(rows, lane));
    }
}

#[test]
fn four_lanes_publish_at_once(rt: HostRuntime) -> Result<(), Fail> {
    let (log, (zero, one), (two, three)) = four_pens(rt.alloc())?;
    let (first, second) = join(
        &rt,
        || publish_both(&rt, &log, zero, one),
        || publish_both(&rt, &log, two, three),
    );
    let rows = close_four(rt.alloc(), log, first, second)?;
    have_all(&rt, rows.as_slice());
    Ok(())
}
