// A box as its pointer, or null.
ghost use Rattle.std.specs.Prelude.{◌≡◌, None, Some, Option};
ghost use Rattle.std.specs.Option.{MatchOption};
ghost use Rattle.std.specs.Coded.{coded_option};
ghost use Rattle.spin_c.specs.Owned.{maybe_owns};

use crate::loose::Loose;
use std::alloc::Global;
use std::marker::Model;
use std::ptr::null_mut;

pub(crate) struct Maybe<T> {
    pub(crate) at: *mut T,
    pub(crate) alloc: Global,
    pub(crate) ghost value: { Option T } by { coded_option T.code },
}

impl<T> Model for Maybe<T> {
    ghost also_owns = { λ m. maybe_owns T.row m.alloc m.at m.value };
}

impl<T> Maybe<T> {
    pub(crate) fn none(alloc: Global) -> Maybe<T>
        ensures { result.value ≡ None }
    {
        Maybe {
            at: null_mut(),
            alloc,
        }
    }

    pub(crate) fn of(loose: Loose<T, Global>) -> Maybe<T>
        ensures { result.value ≡ Some loose.value }
    {
        let Loose { at, alloc } = loose;
        Maybe { at, alloc }
    }

    pub(crate) fn into_loose(self) -> Option<Loose<T, Global>>
        ensures { MatchOption result (self.value ≡ None) (λ loose. self.value ≡ Some loose.value) }
    {
        let Maybe { at, alloc } = self;
        if at.is_null() {
            None
        } else {
            Some(Loose { at, alloc })
        }
    }
}
