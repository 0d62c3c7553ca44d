use graph_eval::Cause;

/// The first point of an attempt at which a graph has no value, counted from 0, with the first node that has none there and
/// the cause.
#[derive(Clone, Copy, Debug, PartialEq, Eq)]
pub struct Gap {
    pub point: u32,
    pub node: u32,
    pub cause: Cause,
}
