//! The slots of the rows that are kept, where they are only read.

/// Slots that are lent to be read: each row begins at the place of its slot with 1, and is kept from there to its end, with its
/// right side in place of the 1.
#[derive(Clone, Copy)]
pub struct Slots<'a> {
    /// How many unknowns there are, and as many slots.
    pub unknowns: usize,
    /// The words of the slots, one more for each than there are unknowns.
    pub rows: &'a [u64],
    /// Where the row of each slot ends, 0 where the slot is empty.
    pub ends: &'a [u64],
}
