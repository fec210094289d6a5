//! Counts of numbered things.

ghost use Rattle.std.specs.Prelude.{◌≡◌, ◌+◌, ◌++◌, ◌∷◌, [], ℕ, List, length, IfOk, slice_index_or};
ghost use Rattle.spin_filter.specs.Counting.{capped, Tells};

use spin_values::NoMemory;
use std::alloc::Global;
use std::marker::Model;

/// How often each number from 0 on came up, for so many numbers. Contracts see the list of the counts.
#[derive(Debug, Drop)]
pub struct Tally {
    counts: Vec<u64>,
}

impl Model for Tally {
    ghost use Rattle.std.specs.Prelude.{ℕ, List};

    ghost Value = { List ℕ };

    ghost view = { λ t. t.counts.items };
}

/// One more, up to the greatest number of 64 bits.
pub fn one_more(count: u64) -> u64
    ensures { (n : ℕ) → count ≡ capped n → result ≡ capped (n + 1) }
{
    count.saturating_add(1)
}

/// So many more, up to the greatest number of 64 bits.
pub fn more_by(count: u64, more: usize) -> u64
    ensures { (n : ℕ) → count ≡ capped n → result ≡ capped (n + more) }
{
    count.saturating_add(more as u64)
}

impl Tally {
    /// For so many numbers, none of which came up.
    pub fn new(alloc: Global, numbers: usize) -> Result<Tally, NoMemory>
        ensures tells { IfOk result (λ tally. Tells [] tally) }
        ensures len { IfOk result (λ tally. length tally ≡ numbers) }
    {
        let mut counts = Vec::new(alloc);
        counts.resize(numbers, 0u64)?;
        Ok(Tally { counts })
    }

    /// How often the number came up, 0 where it isn't counted.
    pub fn of(&self, number: usize) -> u64
        ensures { result ≡ slice_index_or self.now number 0 }
    {
        match self.counts.get(number) {
            Some(count) => *count,
            None => 0,
        }
    }

    /// The number came up once more. One that isn't counted changes nothing.
    pub fn add(&mut self, number: usize)
        ensures tells { (numbers : List ℕ) → Tells numbers self.old → Tells (numbers ++ number ∷ []) self.new }
        ensures len { length self.new ≡ length self.old }
    {
        if number < self.counts.len() {
            self.counts[number] = one_more(self.counts[number]);
        }
    }
}
