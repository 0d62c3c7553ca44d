//! What the samples of one output say: the quotient that they come from, or why there is none.
#![tactic(auto)]

mod finding;
mod laws;
mod print;

pub use finding::{Finding, Methods, Sampled, Told, find};
pub use laws::{
    agreeing_are_cross_equal, attempts_pin, found_is_printed, found_is_quotient, one_report,
    one_result, printed_is_found, quotient_is_found, results_are_shown,
};
pub use print::push_line;

/// Memory ran out.
pub type NoMemory = std::alloc::AllocError;

#[cfg(test)]
mod tests;
