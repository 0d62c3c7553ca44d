//! The least pair of polynomials in one variable that has given samples, by Thiele's continued fraction where it closes
//! early, else by Euclid's remainders.
//!
//! A pair (N, D) agrees with the samples where D isn't zero, the degrees are within their bounds, and N(t) is v * D(t)
//! at each point t with sample v. Nothing is asked of D(t).
#![tactic(auto)]

mod euclid;
mod laws;
mod least;
mod levels;
mod thiele;

pub use laws::{one_closing_level, one_least_pair};
pub use least::{UniPair, least_pair, least_pair_over, least_pair_up_to};
pub use thiele::{thiele_over, thiele_up_to};

/// Memory ran out.
pub type NoMemory = std::alloc::AllocError;

#[cfg(test)]
mod tests;
