//! The noting of what handlers give.

ghost use Rattle.std.specs.Prelude.{◌≡◌, ◌++◌, OnOk, IfOk, IfSome, is_some};
ghost use Rattle.spin_objects.specs.Doing.{result_after, last_result};
ghost use Rattle.spin_proto.specs.Whole.{marks_at, up_of};
ghost use Rattle.spin_proto.specs.Inner.Walks.{Spends, Notes};

use crate::reply::Step;
use crate::walk::{Upward, Walk};
use spin_objects::{Item, Outcome};
use spin_values::{NoMemory, Sequence};

// The result so far after one more item.
#[inline]
pub(crate) fn result_after(last: Option<u64>, item: &Item) -> Option<u64>
    ensures { result ≡ result_after last item.now }
{
    match item {
        Item::Result(word) => Some(*word),
        _ => last,
    }
}

// Notes one item, and keeps a raise upwards for later. False where too many handlers start.
#[inline(always)]
pub(crate) fn note_item(
    walk: &mut Walk,
    event: u8,
    item: Item,
    ups: &mut Sequence<Upward>,
) -> Result<bool, NoMemory>
    ensures walk { IfOk result (λ on. Spends on (marks_at event item) walk.old walk.new) }
    ensures ups { OnOk result (ups.new ≡ ups.old ++ up_of item) }
{
    match item {
        Item::Ran(number) => walk.start(event, number),
        Item::Result(word) => {
            walk.note(Step::Result(word))?;
            Ok(true)
        }
        Item::Send { endpoint, bytes } => {
            walk.note(Step::Send { endpoint, bytes })?;
            Ok(true)
        }
        Item::Up { event, args } => {
            ups.push(Upward { event, args })?;
            Ok(true)
        }
        Item::Dropped(fault) => {
            walk.note(Step::Dropped(fault))?;
            Ok(true)
        }
        Item::Job { number, args } => walk.queue(event, number, args),
    }
}

// Notes what was given, which it takes out of the list, and puts its raises upwards into another, in place of what that
// held. Answers the last result that was given; `None` where too many handlers start.
#[inline(always)]
pub(crate) fn note_given(
    walk: &mut Walk,
    event: u8,
    given: &mut Outcome,
    ups: &mut Sequence<Upward>,
) -> Result<Option<Option<u64>>, NoMemory>
    ensures noted { IfOk result
        (λ last. Notes (is_some last) ups.new event given.old walk.old walk.new) }
    ensures last { IfOk result (λ last. IfSome last (λ word. word ≡ last_result given.old)) }
{
    ups.clear();
    // turned round, so that each item is taken by `pop` in its turn
    given.reverse();
    let mut last = None;
    while let Some(item) = given.pop() {
        last = result_after(last, &item);
        if !note_item(walk, event, item, ups)? {
            return Ok(None);
        }
    }
    Ok(Some(last))
}

// The same, where the result is known. False where too many handlers start.
pub(crate) fn note_items(
    walk: &mut Walk,
    event: u8,
    given: &mut Outcome,
    ups: &mut Sequence<Upward>,
) -> Result<bool, NoMemory>
    ensures { IfOk result (λ on. Notes on ups.new event given.old walk.old walk.new) }
{
    Ok(note_given(walk, event, given, ups)?.is_some())
}
