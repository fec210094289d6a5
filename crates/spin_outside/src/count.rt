//! Counts of faults and absences, which clauses alone read.

ghost use Rattle.std.specs.Prelude.{◌≡◌, ◌+◌, ℕ, MatchResult, Ok, is_err, true};
ghost use Rattle.std.specs.Borrow.{ftrue};

use crate::faults::Failed;
use std::marker::{Model, PhantomData};
use std::{fmt, io};

/// How often something happened to an object. It takes no memory and has no greatest number: clauses read it as
/// `number`, and no code does.
#[derive(Drop)]
pub struct Count {
    marker: PhantomData<u8>,
    pub ghost number: { ℕ },
}

impl Model for Count {
    ghost also_owns = { λ _. ftrue };
}

// It owns nothing.
unsafe impl Send for Count {}

impl Count {
    /// Nothing happened yet.
    pub fn new() -> Count
        ensures { result.number ≡ 0 }
    {
        Count {
            marker: PhantomData,
        }
    }

    /// It happened once more.
    pub fn raise(&mut self)
        ensures { self.new.number ≡ self.old.number + 1 }
    {}

    /// Hands on what a call of std gave. It is counted once where it is an error, and else not.
    pub fn tell<T>(&mut self, given: io::Result<T>) -> Result<T, Failed>
        ensures { MatchResult given
            (λ value. (result ≡ Ok value) × (self.new.number ≡ self.old.number))
            (λ _. (is_err result ≡ true) × (self.new.number ≡ self.old.number + 1)) }
    {
        match given {
            Ok(value) => Ok(value),
            Err(_) => {
                self.raise();
                Err(Failed)
            }
        }
    }
}

impl fmt::Debug for Count {
    fn fmt<W: fmt::Write>(&self, f: &mut fmt::Formatter<W>) -> fmt::Result {
        f.write_str("Count")
    }
}
