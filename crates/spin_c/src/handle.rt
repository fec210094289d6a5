//! What C holds: a pointer that owns a lane, or null.

ghost use Rattle.std.specs.Prelude.{◌≡◌, None, Option, map};
ghost use Rattle.spin_values.specs.declared.values.Value.TheVariants as value;
ghost use Rattle.spin_c.specs.Beginnings.{Begins};
ghost use Rattle.spin_c.specs.Lanes.{HeldAt, kept_coded, handle_owns};
ghost use Rattle.spin_c.specs.Shares.{Shares};
ghost use Rattle.spin_c.specs.StepLists.{ReadsSteps};
ghost use Rattle.spin_c.specs.Turns.{Turns};
ghost use Rattle.spin_c.specs.Verdicts.{no_natives};
ghost use Rattle.spin_c.specs.declared.ask.Ask.TheVariants as asked;

use crate::ask::{Call, Outcome, Pick};
use crate::beginning::begin_maybe;
use crate::handing::hand_out_maybe;
use crate::lane::Held;
use crate::maybe::Maybe;
use crate::moves::{Begin, Upshot};
use crate::raiser::SpinRaising;
use crate::raising::Raising;
use crate::step::SpinStep;
use crate::turn::{steps_maybe, turn_maybe, words_maybe};
use std::alloc::Global;
use std::marker::Model;
use std::ptr::null_mut;

/// A handle. Null is a closed one. C starts it as zeros, and copies no open one.
#[repr(C)]
#[derive(Drop)]
pub struct SpinLane {
    at: *mut u8,
    alloc: Global,
    pub ghost kept: { Option HeldAt } by { kept_coded },
}

impl Model for SpinLane {
    ghost also_owns = { λ h. handle_owns h.alloc h.at h.kept };
}

// What it owns may be used from any thread, one after another.
unsafe impl Send for SpinLane {}

impl SpinLane {
    // A closed handle.
    #[inline(always)]
    pub(crate) fn closed(alloc: Global) -> SpinLane
        ensures { result.kept ≡ None }
    {
        SpinLane {
            at: null_mut(),
            alloc,
        }
    }

    // Does the call on what the handle holds. There are no natives.
    pub(crate) fn turn(self, call: Call) -> (SpinLane, Outcome)
        ensures { Turns no_natives self.kept call.ask result.0.kept result.1 }
    {
        let SpinLane { at, alloc } = self;
        let (maybe, outcome) = turn_maybe(
            Maybe {
                at: at as *mut Held,
                alloc,
            },
            call,
        );
        let Maybe { at, alloc } = maybe;
        (
            SpinLane {
                at: at as *mut u8,
                alloc,
            },
            outcome,
        )
    }

    // Tells steps of the reply that the handle keeps, from an index on, in a list.
    pub(crate) fn steps(self, its: Global, from: u64, steps: &mut [SpinStep]) -> (SpinLane, Outcome)
        ensures { ReadsSteps self.kept from steps.old result.0.kept steps.new result.1 }
    {
        let SpinLane { at, alloc } = self;
        let (maybe, outcome) = steps_maybe(
            Maybe {
                at: at as *mut Held,
                alloc,
            },
            its,
            from,
            steps,
        );
        let Maybe { at, alloc } = maybe;
        (
            SpinLane {
                at: at as *mut u8,
                alloc,
            },
            outcome,
        )
    }

    // Raises an event with words on what the handle holds.
    pub(crate) fn raise_words(self, its: Global, event: u8, words: &[u64]) -> (SpinLane, Outcome)
        ensures { Turns no_natives self.kept (asked.Raise event (map value.Word words.now)) result.0.kept result.1 }
    {
        let SpinLane { at, alloc } = self;
        let (maybe, outcome) = words_maybe(
            Maybe {
                at: at as *mut Held,
                alloc,
            },
            its,
            event,
            words,
        );
        let Maybe { at, alloc } = maybe;
        (
            SpinLane {
                at: at as *mut u8,
                alloc,
            },
            outcome,
        )
    }

    // Hands out the seat of a lane that waits to the other handle.
    pub(crate) fn hand_out(self, other: SpinLane, pick: Pick) -> (SpinLane, SpinLane, Outcome)
        ensures { Shares self.kept other.kept pick.number result.0.kept result.1.kept result.2 }
    {
        let SpinLane { at, alloc } = self;
        let SpinLane { at: to, alloc: its } = other;
        let (maybe, share, outcome) = hand_out_maybe(
            Maybe {
                at: at as *mut Held,
                alloc,
            },
            Maybe {
                at: to as *mut Held,
                alloc: its,
            },
            pick,
        );
        let Maybe { at, alloc } = maybe;
        let Maybe { at: to, alloc: its } = share;
        (
            SpinLane {
                at: at as *mut u8,
                alloc,
            },
            SpinLane {
                at: to as *mut u8,
                alloc: its,
            },
            outcome,
        )
    }

    // Opens a raise on what the handle holds.
    #[inline(always)]
    pub(crate) fn begin(self, other: SpinRaising, begin: Begin) -> (SpinLane, SpinRaising, Upshot)
        ensures { Begins self.kept other.kept begin.event begin.args result.0.kept result.1.kept result.2 }
    {
        let SpinLane { at, alloc } = self;
        let SpinRaising { at: to, alloc: its } = other;
        let (maybe, raising, told) = begin_maybe(
            Maybe {
                at: at as *mut Held,
                alloc,
            },
            Maybe {
                at: to as *mut Raising,
                alloc: its,
            },
            begin,
        );
        let Maybe { at, alloc } = maybe;
        let Maybe { at: to, alloc: its } = raising;
        (
            SpinLane {
                at: at as *mut u8,
                alloc,
            },
            SpinRaising {
                at: to as *mut u8,
                alloc: its,
            },
            told,
        )
    }
}
