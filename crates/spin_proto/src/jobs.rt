//! What the call of a job comes to on its version.

ghost use Rattle.std.specs.Prelude.{◌≡◌, ◌<◌, [], length, IfOk};
ghost use Rattle.std.specs.Option.{option_copied, option_map_or};
ghost use Rattle.spin_table.specs.SetupOf.{data_of};
ghost use Rattle.spin_table.specs.States.{binding_of};
ghost use Rattle.spin_table.specs.Soundness.{IsSoundVersion};
ghost use Rattle.spin_proto.specs.Replies.{units_in, job_reply, IsJobReply, BelongsTo, calls_left};
ghost use Rattle.spin_proto.specs.Whole.{job_answer};
ghost use Rattle.spin_proto.specs.Whole.{marks_of, raised_after, ups_of};
ghost use Rattle.spin_proto.specs.Inner.Walks.{OnBounds, Spends, UpsRise};

use crate::deed::JobCall;
use crate::deed_reply::raise_whole;
use crate::noting::note_items;
use crate::reply::{Reply, Step};
use crate::rising::raise_event;
use crate::walk::{Upward, Walk};
use spin_code::Sincere;
use spin_objects::{Catalogue, Outcome};
use spin_place::Binding;
use spin_raise::{Answer, Progress, Runner, run_handler};
use spin_table::{Setup, Version};
use spin_values::{Args, NoMemory, Sequence};
use std::alloc::Global;
use std::collections::VecDeque;

// The binding of that number.
fn find_binding(bindings: &[Binding], number: u16) -> Option<&Binding>
    ensures { option_copied result ≡ binding_of bindings.now number }
{
    bindings.iter().find(|binding| binding.number == number)
}

// The handler of the binding of that number, 0 where there is none.
fn handler_of(bindings: &[Binding], number: u16) -> u16
    ensures { result ≡ option_map_or (λ b. b.handler) (binding_of bindings.now number) 0 }
{
    match find_binding(bindings, number) {
        Some(binding) => binding.handler,
        None => 0,
    }
}

fn answer_of_job(word: Option<u64>) -> Answer
    ensures { result ≡ job_answer word }
{
    match word {
        Some(word) => Answer::Value(word),
        None => Answer::Done,
    }
}

// Notes what a firing gave at an event, and does its raises upwards. False where too many handlers start.
fn follow(
    alloc: Global,
    version: &Version,
    setup: &Setup,
    runner: Runner,
    event: u8,
    given: &mut Outcome,
    walk: &mut Walk,
) -> Result<bool, NoMemory>
    requires sound { IsSoundVersion (data_of setup.now) version.now }
    requires sincere { ⟦<Catalogue as Sincere>⟧.sincere setup.now.catalogue }
    requires rise { UpsRise (length version.now.state.events) event (ups_of given.old) }
    ensures { IfOk result (λ on. OnBounds (data_of setup.now) version.now.state (λ bounds.
        let later = raised_after runner (units_in (data_of setup.now)) bounds event in
        Spends on (marks_of event later given.old) walk.old walk.new)) }
{
    let mut ups = Sequence::new(alloc);
    if !note_items(walk, event, given, &mut ups)? {
        return Ok(false);
    }
    let mut queue = VecDeque::from(ups.into_vec());
    while let Some(up) = queue.pop_front() {
        let Upward { event: to, args } = up;
        walk.note(Step::Up(to))?;
        let mut own = Progress {
            from: 0,
            answer: Answer::NoHandler,
            args,
        };
        match raise_event(alloc, version, setup, runner, to, &mut own, given, walk)? {
            None => return Ok(false),
            Some(answer) => walk.note(Step::Back(answer))?,
        }
    }
    Ok(true)
}

// Does the handler of a live binding, its guards untested, with its raises upwards.
fn binding_job(
    alloc: Global,
    version: &Version,
    setup: &Setup,
    event: u8,
    number: u16,
    mut args: Args,
) -> Result<Reply, NoMemory>
    requires sound { IsSoundVersion (data_of setup.now) version.now }
    requires sincere { ⟦<Catalogue as Sincere>⟧.sincere setup.now.catalogue }
    requires belongs { BelongsTo version.now.state (JobCall.Binding event number args) }
    ensures { IfOk result (λ reply. OnBounds (data_of setup.now) version.now.state (λ bounds.
        let call = JobCall.Binding event number args in
        reply ≡ job_reply (units_in (data_of setup.now)) bounds call)) }
{
    let cat = setup.catalogue();
    let handler = handler_of(version.bindings(event), number);
    let mut given = Sequence::new(alloc);
    let word = run_handler(alloc, cat, handler, number, &mut args, &mut given)?;
    let mut walk = Walk::new(alloc);
    let runner = Runner::Job;
    if !follow(alloc, version, setup, runner, event, &mut given, &mut walk)? {
        return Ok(Reply::Spent);
    }
    let Walk { trace, jobs, .. } = walk;
    Ok(Reply::Ran {
        answer: answer_of_job(word),
        trace,
        jobs,
    })
}

/// What the call of a job comes to on the version that left it.
///
/// A whole raise is done as [`path`](crate::path) does it, but that asynchronous bindings run in place and their
/// results aren't merged. Of a binding the handler is run, with no guard tested again, and then its raises upwards
/// likewise; the answer is its result, or done. The answer is [`Reply::Ran`] without jobs, or [`Reply::Spent`] exactly
/// where more than [`MAX_RUNS`] handlers would start.
///
/// The version is sound for the setup, the catalogue's objects do what they were handed in with, and the
/// call's event is there, as is its binding: so it is of each call that a reply on this version leaves. It is linear
/// in what the handlers do and give and in the guards that are tested.
///
/// [`MAX_RUNS`]: crate::MAX_RUNS
pub fn job_path(
    alloc: Global,
    version: &Version,
    setup: &Setup,
    call: &JobCall,
) -> Result<Reply, NoMemory>
    requires sound { IsSoundVersion (data_of setup.now) version.now }
    requires sincere { ⟦<Catalogue as Sincere>⟧.sincere setup.now.catalogue }
    requires belongs { BelongsTo version.now.state call.now }
    ensures reply { IfOk result (λ reply. IsJobReply (data_of setup.now) version.now.state call.now reply) }
    ensures calls { IfOk result (λ reply. calls_left reply ≡ []) }
{
    match call {
        JobCall::Whole { event, args } => {
            let args = args.copy()?;
            raise_whole(alloc, version, setup, Runner::Job, *event, args)
        }
        JobCall::Binding {
            event,
            number,
            args,
        } => binding_job(alloc, version, setup, *event, *number, args.copy()?),
    }
}
