//! What `flow` does, from the words that it is given to the bytes that it writes.
#![tactic(auto)]

mod arguments;
mod demo;
mod example;
mod functions;
mod laws;
mod lessons;
mod line;
mod manner;
mod printed;
mod refusals;
mod reply;
mod sampling;
mod status;
mod task;
mod top;
mod verb;
mod words;

pub use arguments::words_of;
pub use demo::demo_file;
pub use example::worked_example;
pub use laws::{learned_files_are_answered, one_answer};
pub use status::Status;
pub use top::{refuse, run};
pub use words::{Command, WordsError, read_words};

/// The greatest length of a graph file, in bytes.
pub const FILE_LIMIT: usize = 16_777_216;

#[cfg(test)]
mod tests;
