//! The claim word: each number below it was claimed once.
//!
//! What holds between any two of its atomic steps stands in `specs/Claims.antt`, with what each kind of step does.

ghost use Rattle.std.specs.Prelude.{◌≡◌};

use atomic_table::{Join, Play, Split, TableRule};
use std::collections::LinkedList;

/// The greatest number of workers.
pub const MAX_WORKERS: u8 = 8;

/// What a seat at the claim word knows: for how many workers it stands, how many workers may still be split off it,
/// and the numbers that it has claimed. No value of it is made.
pub struct Claim {
    /// The workers: a worker's seat stands for one, the caller's for those that it has joined.
    pub workers: u64,
    /// How many workers may still be split off.
    pub room: u64,
    /// The numbers, in the order in which they were claimed.
    pub claimed: LinkedList<u64>,
}

/// Each number below the word was claimed once. The key is the number of jobs.
pub struct ClaimRule;

impl TableRule<(), Claim, u64> for ClaimRule {
    ghost use Rattle.spin_jobs.specs.Claims.{Kept, caller};

    ghost holds = { λ jobs s. Kept jobs s.words s.views };

    ghost first = { λ _. caller };
}

// The number that was found is the seat's.
pub(crate) struct Takes;

impl Play<(), Claim> for Takes {
    ghost use Rattle.spin_jobs.specs.Claims.{Took};

    ghost then = { λ _ v n w. Took v.0 n w.0 × (w.1 ≡ v.1) };
}

// A worker's seat is split off the caller's.
pub(crate) struct Hires;

impl Split<Claim> for Hires {
    ghost use Rattle.spin_jobs.specs.Claims.{with_less_room, worker};

    ghost left = { with_less_room };

    ghost right = { λ _. worker };
}

// A worker's numbers go over to the caller.
pub(crate) struct Absorbs;

impl Join<Claim> for Absorbs {
    ghost use Rattle.spin_jobs.specs.Claims.{together, spent};

    ghost both = { together };

    ghost spent = { spent };
}
