//! What C holds of an open raise: a pointer that owns it with its room, or null.

ghost use Rattle.std.specs.Prelude.{◌≡◌, None, Option};
ghost use Rattle.spin_c.specs.declared.moves.Move.TheVariants as wish;
ghost use Rattle.spin_c.specs.Moves.{Moves};
ghost use Rattle.spin_c.specs.Raisers.{RaisingAt, raiser_owns, raising_coded};

use crate::answering::{move_maybe, next_maybe};
use crate::maybe::Maybe;
use crate::moves::{MoveCall, Upshot};
use crate::raising::Raising;
use std::alloc::Global;
use std::marker::Model;
use std::ptr::null_mut;

/// The handle of an open raise. Null is a closed one. C starts it as zeros, and copies no open one.
#[repr(C)]
#[derive(Drop)]
pub struct SpinRaising {
    pub(crate) at: *mut u8,
    pub(crate) alloc: Global,
    pub ghost kept: { Option RaisingAt } by { raising_coded },
}

impl Model for SpinRaising {
    ghost also_owns = { λ h. raiser_owns h.alloc h.at h.kept };
}

// What it owns may be used from any thread, one after another.
unsafe impl Send for SpinRaising {}

impl SpinRaising {
    // A closed handle.
    #[inline(always)]
    pub(crate) fn closed(alloc: Global) -> SpinRaising
        ensures { result.kept ≡ None }
    {
        SpinRaising {
            at: null_mut(),
            alloc,
        }
    }

    // Does the call on what the handle holds.
    #[inline(always)]
    pub(crate) fn turn(self, call: MoveCall) -> (SpinRaising, Upshot)
        ensures { Moves self.kept call.asked result.0.kept result.1 }
    {
        let SpinRaising { at, alloc } = self;
        let (maybe, told) = move_maybe(
            Maybe {
                at: at as *mut Raising,
                alloc,
            },
            call,
        );
        let Maybe { at, alloc } = maybe;
        (
            SpinRaising {
                at: at as *mut u8,
                alloc,
            },
            told,
        )
    }

    // Tells what comes next in what the handle holds.
    pub(crate) fn next(self, its: Global) -> (SpinRaising, Upshot)
        ensures { Moves self.kept wish.Next result.0.kept result.1 }
    {
        let SpinRaising { at, alloc } = self;
        let (maybe, told) = next_maybe(
            Maybe {
                at: at as *mut Raising,
                alloc,
            },
            its,
        );
        let Maybe { at, alloc } = maybe;
        (
            SpinRaising {
                at: at as *mut u8,
                alloc,
            },
            told,
        )
    }
}
