//! From the samples of a job's main graph to its outputs as functions.
//!
//! [`reconstruct`] tries the attempts at both moduli, and finds a result for each output. The laws beside it say what a text of
//! results promises.
#![tactic(auto)]

mod findings;
mod laws;

pub use findings::{Findings, reconstruct};
pub use laws::{functions_are_printed, one_finding};

/// Memory ran out.
pub type NoMemory = std::alloc::AllocError;
