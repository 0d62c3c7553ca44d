//! Who is told of the blocks that workers have drawn.

/// It is told of each block that a worker has drawn, before the block's first point is evaluated. Several threads may tell it at once.
pub trait Gate: Sync {
    /// A worker has drawn the block with this number.
    fn block(&self, number: u64);
}

/// Lets each block pass.
#[derive(Clone, Copy, Debug)]
pub struct OpenGate;

impl Gate for OpenGate {
    fn block(&self, _number: u64) {}
}
