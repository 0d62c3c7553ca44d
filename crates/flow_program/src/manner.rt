//! How results are told.

/// How results are told.
#[derive(Clone, Copy, Debug)]
pub(crate) enum Manner {
    /// By a line for each output, with or without a report.
    Lines { report: bool },
    /// By the numbers of the demo of size `n`, whose attempts have so many points, and the line of its first output.
    Demo { n: u64, points: u64 },
}
