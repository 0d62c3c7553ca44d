//! The steps that a plan has learned.

ghost use Rattle.std.specs.Prelude.{◌≡◌, ℕ, ◌+◌, ◌<◌, All, length};
ghost use Rattle.sparse_solver.specs.Packed.{AreColumns};
ghost use Rattle.sparse_solver.specs.Steps.{AreShaped, head_of, kept_in, part_of};

/// Which rows are kept in turn, and what was met on the way.
#[derive(Drop, Debug)]
pub struct Steps {
    /// The number of the row that each turn keeps.
    pub numbers: Vec<usize>,
    /// Where the columns of each turn begin, and where those of the last one end.
    pub starts: Vec<usize>,
    /// Where the columns of each turn are at the unknown at which the kept row begins; nothing is left in those before it.
    pub leads: Vec<usize>,
    /// The columns of all turns.
    pub columns: Vec<u32>,
    /// Where the earlier turns of each turn begin, and where those of the last one end.
    pub firsts: Vec<usize>,
    /// The earlier turns whose kept rows are added to the row of a turn, for all turns.
    pub earlier: Vec<usize>,
    /// Whether a later turn adds the row that a turn keeps.
    pub is_used: Vec<bool>,
    /// For each unknown the number of the turn whose kept row begins at it, counted from 1, or 0 where there is none.
    pub turn_of: Vec<usize>,
}

/// The columns of a turn before that of the unknown at which its row begins.
pub fn head_columns(unknowns: usize, steps: &Steps, turn: usize) -> &[u32]
    requires shaped { AreShaped unknowns steps.now }
    requires turn { turn < kept_in steps.now }
    ensures part { result.now ≡ head_of steps.now turn }
    ensures within { AreColumns (unknowns + 1) result.now }
{
    &steps.columns[steps.starts[turn]..steps.leads[turn]]
}

/// The columns of the row that a turn keeps, that of the unknown at which it begins first.
pub fn kept_columns(unknowns: usize, steps: &Steps, turn: usize) -> &[u32]
    requires shaped { AreShaped unknowns steps.now }
    requires turn { turn < kept_in steps.now }
    ensures part { result.now ≡ part_of steps.now turn steps.now.columns.items }
    ensures within { AreColumns (unknowns + 1) result.now }
    ensures some { 0 < length result.now }
{
    &steps.columns[steps.leads[turn]..steps.starts[turn + 1]]
}

/// The values of the row that a turn keeps.
pub fn kept_values<'a>(unknowns: usize, steps: &Steps, kept: &'a [u64], turn: usize) -> &'a [u64]
    requires shaped { AreShaped unknowns steps.now }
    requires turn { turn < kept_in steps.now }
    requires room { length kept.now ≡ length steps.now.columns.items }
    ensures part { result.now ≡ part_of steps.now turn kept.now }
    ensures room { length result.now ≡ length (part_of steps.now turn steps.now.columns.items) }
    ensures below { (m : ℕ) → All (λ x. x < m) kept.now → All (λ x. x < m) result.now }
{
    &kept[steps.leads[turn]..steps.starts[turn + 1]]
}
