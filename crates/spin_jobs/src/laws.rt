//! Names that only proofs use: [`ClaimRule`] is the fact of the claim word that holds between any two atomic steps,
//! over what each seat knows of it, a [`Claim`]; and [`limits_are_stated`] gives the limits in numbers.

pub use crate::claim::{Claim, ClaimRule};
pub use crate::limits::limits_are_stated;
