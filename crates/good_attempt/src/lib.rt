//! Eight attempts at the sample points of a grid: the first of them whose samples are all defined.
#![tactic(auto)]

mod gap;
mod good;
mod laws;
mod tried;

pub use gap::Gap;
pub use good::GoodAttempt;
pub use laws::one_sampling;
pub use tried::{ATTEMPTS, Attempts, first_good};

/// Memory ran out.
pub type NoMemory = std::alloc::AllocError;

#[cfg(test)]
mod tests;
