//! The homes, and the tickets by which values go home.

ghost use Rattle.std.specs.Prelude.{◌≡◌, ◌<◌, length, replicate, IfOk, IfSome};
ghost use Rattle.spin_homes.specs.Rule.{AreTicketsFrom};

use crate::rule::{Fit, Gives, HomesRule, Takes};
use atomic_table::{Seat, Table};
use std::alloc::{AllocError, Global};
use std::marker::Model;

/// A home for each of so many values. Contracts see its table, whose key never changes. Threads share it by reference.
#[derive(Drop)]
pub struct Homes<T: Drop, K, M: Fit<T, K>> {
    /// The table: a word and a slot for each home.
    pub table: Table<Option<T>, K, K, HomesRule<M>, Global>,
    ghost sizes: { table.shared.table_id.words ≡ table.shared.table_id.slots },
}

/// The right to put a value into one home, which nobody else has. Contracts see which table it is of, and the index of
/// the home. A ticket that is let go leaves its home empty for good.
#[derive(Drop)]
pub struct Ticket<T, K> {
    seat: Seat<Option<T>, K>,
    slot: usize,
}

impl<T, K> Model for Ticket<T, K> {
    ghost use Rattle.std.specs.Prelude.{◌≡◌, ◌<◌, None, [], ◌∷◌};
    ghost use Rattle.spin_homes.specs.Rule.{TicketValue};

    ghost Value = { TicketValue };

    ghost view = { λ t. record { table = t.seat.table_id; slot = t.slot } };

    ghost invariant = { λ t. (t.seat.me.1 ≡ (t.slot, None) ∷ []) × (t.slot < t.seat.table_id.slots) };
}

/// Tickets, in order.
pub type Tickets<T, K> = Vec<Ticket<T, K>>;

// So many words, each 1.
fn ones(alloc: Global, count: usize) -> Result<Vec<u64>, AllocError>
    ensures { IfOk result (λ words. words.items ≡ replicate count 1) }
{
    Ok(vec![in alloc; 1u64; count]?)
}

impl<T: Drop, K, M: Fit<T, K>> Homes<T, K, M> {
    // So many homes, each empty.
    fn empty(alloc: Global, count: usize, key: &K) -> Result<Homes<T, K, M>, AllocError>
        ensures key { IfOk result (λ homes. homes.table.shared.key ≡ key.now) }
        ensures slots { IfOk result (λ homes. homes.table.shared.table_id.slots ≡ count) }
    {
        let words = ones(alloc, count)?;
        let (table, _first) = Table::vacant(alloc, words.as_slice(), count, key)?;
        Ok(Homes { table })
    }

    /// So many homes with that key, each empty, and their tickets in order: so nothing is at home until it is given.
    pub fn new(
        alloc: Global,
        count: usize,
        key: &K,
    ) -> Result<(Homes<T, K, M>, Tickets<T, K>), AllocError>
        ensures key { IfOk result (λ made. made.0.table.shared.key ≡ key.now) }
        ensures slots { IfOk result (λ made. made.0.table.shared.table_id.slots ≡ count) }
        ensures tickets { IfOk result (λ made. AreTicketsFrom made.0.table.shared.table_id 0 made.1.items) }
        ensures count { IfOk result (λ made. length made.1.items ≡ count) }
    {
        let homes = Homes::empty(alloc, count, key)?;
        let mut tickets = Vec::with_capacity(alloc, count)?;
        for slot in 0..count {
            // Nobody else has these homes yet, so each ticket is there; of a step of the table no clause says so.
            let Some((ticket, _nothing)) = homes.take_any(slot) else {
                return Err(AllocError);
            };
            tickets.push_reserved(ticket);
        }
        Ok((homes, tickets))
    }

    // The ticket of a home, where nobody has it, and what is at home there.
    fn take_any(&self, slot: usize) -> Option<(Ticket<T, K>, Option<T>)>
        requires { slot < self.now.table.shared.table_id.slots }
        ensures ticket { IfSome result (λ taken. (taken.0.table ≡ self.now.table.shared.table_id) × (taken.0.slot ≡ slot)) }
        ensures fits { IfSome result (λ taken. IfSome taken.1 (M.fits self.now.table.shared.key slot)) }
    {
        let (found, mut seat) = self.table.shared.swap_new_seat::<Takes<M>>(slot, 0);
        if found != 1 {
            return None;
        }
        let value = self.table.shared.exchange(&mut seat, slot, None);
        Some((Ticket { seat, slot }, value))
    }

    /// The value in this home, with the ticket by which it comes back. None where it is out. It takes no memory and waits
    /// for nobody.
    pub fn take(&self, slot: usize) -> Option<(Ticket<T, K>, T)>
        requires { slot < self.now.table.shared.table_id.slots }
        ensures ticket { IfSome result (λ taken. (taken.0.table ≡ self.now.table.shared.table_id) × (taken.0.slot ≡ slot)) }
        ensures fits { IfSome result (λ taken. M.fits self.now.table.shared.key slot taken.1) }
    {
        let (ticket, found) = self.take_any(slot)?;
        let value = found?;
        Some((ticket, value))
    }

    /// Puts a value into the ticket's home. It takes no memory and waits for nobody.
    pub fn give(&self, ticket: Ticket<T, K>, value: T)
        requires table { ticket.table ≡ self.now.table.shared.table_id }
        requires fits { M.fits self.now.table.shared.key ticket.slot value }
    {
        let Ticket { mut seat, slot } = ticket;
        let None = self.table.shared.exchange(&mut seat, slot, Some(value)) else {
            unreachable!()
        };
        self.table.shared.store::<Gives>(&mut seat, slot, 1);
    }
}
