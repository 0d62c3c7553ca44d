//! From residues modulo two primes to rational numbers, and from two pairs of residues to a quotient.
#![tactic(auto)]

mod coeff;
mod error;
mod joint;
mod laws;
mod lifting;
mod part;
mod recovery;

pub use coeff::{Coeff, Part};
pub use error::LiftError;
pub use joint::join;
pub use laws::{one_joint, one_lift};
pub use lifting::lift;
pub use recovery::recover;

#[cfg(test)]
mod tests;
