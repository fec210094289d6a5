//! What a deed comes to on a version.

ghost use Rattle.std.specs.Prelude.{◌≡◌, ◌<◌, length, IfOk, OnErr, MatchOption};
ghost use Rattle.std.specs.List.{All};
ghost use Rattle.spin_table.specs.SetupOf.{data_of};
ghost use Rattle.spin_table.specs.Soundness.{IsSoundVersion};
ghost use Rattle.spin_proto.specs.Replies.{units_in, IsDeedReply, IsFitDeed, BelongsTo, calls_left};
ghost use Rattle.spin_proto.specs.Inner.Fits.{IsFit, IsUnfit};
ghost use Rattle.spin_proto.specs.Whole.{raised, reply_of};
ghost use Rattle.spin_proto.specs.Inner.Walks.{OnBounds};

use crate::deed::JobCall;
use crate::reply::{MAX_RUNS, Reply};
use crate::rising::raise_event;
use crate::walk::Walk;
use spin_code::Sincere;
use spin_objects::Catalogue;
use spin_raise::{Answer, Progress, Runner};
use spin_table::{Setup, Version};
use spin_values::{Args, NoMemory, Sequence, fits};
use spin_word::Deed;
use std::alloc::Global;

// Does a raise of an event that is there.
pub(crate) fn raise_whole(
    alloc: Global,
    version: &Version,
    setup: &Setup,
    runner: Runner,
    event: u8,
    args: Args,
) -> Result<Reply, NoMemory>
    requires sound { IsSoundVersion (data_of setup.now) version.now }
    requires sincere { ⟦<Catalogue as Sincere>⟧.sincere setup.now.catalogue }
    requires there { event < length version.now.state.events }
    ensures { IfOk result (λ reply. OnBounds (data_of setup.now) version.now.state (λ bounds.
        let all = raised runner (units_in (data_of setup.now)) bounds 0 event args in
        reply ≡ reply_of MAX_RUNS all)) }
{
    let mut progress = Progress {
        from: 0,
        answer: Answer::NoHandler,
        args,
    };
    let mut given = Sequence::new(alloc);
    let mut walk = Walk::new(alloc);
    match raise_event(
        alloc,
        version,
        setup,
        runner,
        event,
        &mut progress,
        &mut given,
        &mut walk,
    )? {
        None => Ok(Reply::Spent),
        Some(answer) => {
            let Walk { trace, jobs, .. } = walk;
            Ok(Reply::Ran {
                answer,
                trace,
                jobs,
            })
        }
    }
}

// Why a deed isn't done, if it isn't.
#[inline]
pub(crate) fn refusal(setup: &Setup, event: u8, args: &Args) -> Option<Reply>
    ensures { MatchOption result
        (IsFit (data_of setup.now) event args.now)
        (IsUnfit (data_of setup.now) event args.now) }
{
    if event >= setup.events() {
        return Some(Reply::UnknownEvent);
    }
    if !fits(args, &setup.event(event).sig) {
        return Some(Reply::WrongArgs);
    }
    None
}

/// What a deed comes to on this version.
///
/// [`Reply::UnknownEvent`] comes exactly where the event isn't there, and [`Reply::WrongArgs`] exactly where it is and
/// the arguments haven't the number and kinds of its parameters. A deed to which neither applies is left to a job, if
/// it asks for that: the answer is [`Reply::Queued`]. Else the event is raised. After each of its handlers, and before
/// the next is looked for, the raises upwards of that handler are done in order, depth first, on the same version, so
/// that no command comes between. [`Reply::Spent`] comes exactly where more than [`MAX_RUNS`] handlers would start,
/// jobs counting as one each; then nothing of what was done is left. Else the answer is [`Reply::Ran`], with the call
/// of a job for each asynchronous binding that was reached. A deed to which one of the first two applies is answered so,
/// and never with want of memory.
///
/// The version is sound for the setup, and the catalogue's objects do what they were handed in with. It
/// is linear in what the handlers do and give and in the guards that are tested, and at most 64 raises are nested.
///
/// [`MAX_RUNS`]: crate::MAX_RUNS
pub fn path(alloc: Global, version: &Version, setup: &Setup, deed: &Deed) -> Result<Reply, NoMemory>
    requires sound { IsSoundVersion (data_of setup.now) version.now }
    requires sincere { ⟦<Catalogue as Sincere>⟧.sincere setup.now.catalogue }
    ensures reply { IfOk result (λ reply. IsDeedReply (data_of setup.now) version.now.state deed.now reply) }
    ensures calls { IfOk result (λ reply. All (BelongsTo version.now.state) (calls_left reply)) }
    ensures err { OnErr result (IsFitDeed (data_of setup.now) deed.now) }
{
    match deed {
        Deed::Raise { event, args } => match refusal(setup, *event, args) {
            Some(refused) => Ok(refused),
            None => {
                let args = args.copy()?;
                raise_whole(alloc, version, setup, Runner::Raiser, *event, args)
            }
        },
        Deed::Later { event, args } => match refusal(setup, *event, args) {
            Some(refused) => Ok(refused),
            None => Ok(Reply::Queued(JobCall::Whole {
                event: *event,
                args: args.copy()?,
            })),
        },
    }
}
