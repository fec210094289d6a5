//! Bindings: installed handlers, and which of them must run before which.

ghost use Rattle.std.specs.Prelude.{◌≡◌, IfOk};
ghost use Rattle.spin_place.specs.Precedence.{names, is_first, is_last, must_precede};

use spin_values::{NoMemory, Numbers};
use spin_word::{Mode, NO_BINDING, Place};

/// A handler that is installed on an event.
#[derive(Drop, Debug)]
pub struct Binding {
    /// What the binding is known by. No two bindings of an event share it.
    pub number: u16,
    /// The module that asked for it.
    pub requester: u8,
    /// The handler that runs.
    pub handler: u16,
    /// The guard that the requester gave, 0 being none.
    pub own_guard: u16,
    /// The guards that the event's owner imposed.
    pub imposed: Numbers,
    /// Whether it goes before all others that aren't so too, or after them.
    pub place: Place,
    /// The numbers of the bindings that it goes before, `NO_BINDING` being none.
    pub before: [u16; 4],
    /// The numbers of the bindings that it goes after, `NO_BINDING` being none.
    pub after: [u16; 4],
    /// How the handler runs.
    pub mode: Mode,
}

impl Binding {
    /// An equal binding. It takes memory for the imposed guards alone.
    pub fn copy(&self) -> Result<Binding, NoMemory>
        ensures { IfOk result (λ copy. copy ≡ self.now) }
    {
        Ok(Binding {
            number: self.number,
            requester: self.requester,
            handler: self.handler,
            own_guard: self.own_guard,
            imposed: Numbers::from_slice(self.imposed.allocator(), &self.imposed)?,
            place: self.place,
            before: self.before,
            after: self.after,
            mode: self.mode,
        })
    }
}

pub(crate) fn is_first(place: Place) -> bool
    ensures { result ≡ is_first place }
{
    matches!(place, Place::First)
}

pub(crate) fn is_last(place: Place) -> bool
    ensures { result ≡ is_last place }
{
    matches!(place, Place::Last)
}

// Whether the number is among the numbers of bindings; `NO_BINDING` names none.
fn names(numbers: &[u16], number: u16) -> bool
    ensures { result ≡ names numbers.now number }
{
    number != NO_BINDING && numbers.contains(&number)
}

/// Whether the first binding must precede the second, where they are different: it goes first and the other
/// doesn't, or the other goes last and it doesn't, or it goes before the other's number, or the other goes after
/// its number. (The four constraints of the SPIN dispatcher, Pardyak and Bershad, OSDI 1996.)
pub fn must_precede(earlier: &Binding, later: &Binding) -> bool
    ensures { result ≡ must_precede earlier.now later.now }
{
    earlier.number != later.number
        && (is_first(earlier.place) && !is_first(later.place)
            || is_last(later.place) && !is_last(earlier.place)
            || names(&earlier.before, later.number)
            || names(&later.after, earlier.number))
}
