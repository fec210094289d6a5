//! How the results of a raise become its answer.

ghost use Rattle.std.specs.Prelude.{◌≡◌, IfOk};
ghost use Rattle.spin_objects.specs.Doing.{last_result, result_after};
ghost use Rattle.spin_raise.specs.Firing.{combine};
ghost use Rattle.spin_raise.specs.Progress.{with_result, ran, default_now};

use crate::answer::Answer;
use spin_code::{Merge, value};
use spin_objects::Item;
use spin_values::{Args, NoMemory, Value};
use std::alloc::Global;

/// The last result among the items, which is that of the act that gave them.
#[inline]
pub fn last_of(items: &[Item]) -> Option<u64>
    ensures { result ≡ last_result items.now }
{
    let mut last = None;
    for item in items {
        if let Item::Result(word) = item {
            last = Some(*word);
        }
    }
    last
}

// The merge of the results so far and the next one.
#[inline]
fn combined(alloc: Global, merge: &Merge, so_far: u64, next: u64) -> Result<u64, NoMemory>
    ensures { IfOk result (λ n. n ≡ combine merge.now so_far next) }
{
    match merge {
        Merge::Last => Ok(next),
        Merge::Fold(e) => {
            let mut args = Args::new(alloc);
            args.push(Value::Word(so_far))?;
            args.push(Value::Word(next))?;
            Ok(value(e, &args))
        }
    }
}

// The answer so far after a handler that ran with no result to merge.
#[inline]
pub(crate) fn after_run(answer: Answer) -> Answer
    ensures { result ≡ ran answer }
{
    match answer {
        Answer::NoHandler => Answer::Done,
        Answer::Value(word) => Answer::Value(word),
        Answer::Done => Answer::Done,
        Answer::Default(word) => Answer::Default(word),
    }
}

/// The answer so far after one more handler of a binding: its result, if it gave one that is merged, is merged with
/// those before it, and else the answer only says that something ran. It takes constant time beside the merge, and
/// memory only where the merge is a fold.
#[inline]
pub fn after_result(
    alloc: Global,
    merge: &Merge,
    answer: Answer,
    word: Option<u64>,
) -> Result<Answer, NoMemory>
    ensures { IfOk result (λ a. a ≡ with_result merge.now answer word) }
{
    match word {
        None => Ok(after_run(answer)),
        Some(next) => match answer {
            Answer::Value(so_far) => Ok(Answer::Value(combined(alloc, merge, so_far, next)?)),
            Answer::Done => Ok(Answer::Value(next)),
            Answer::Default(_) => Ok(Answer::Value(next)),
            Answer::NoHandler => Ok(Answer::Value(next)),
        },
    }
}

/// The number of the default that runs where no binding fires any more: 0, which is none, where a handler ran.
#[inline]
pub fn default_next(answer: Answer, default: u16) -> u16
    ensures { result ≡ default_now answer default }
{
    match answer {
        Answer::NoHandler => default,
        Answer::Value(_) => 0,
        Answer::Done => 0,
        Answer::Default(_) => 0,
    }
}
