//! What a node learns on the lists before it.

ghost use Rattle.std.specs.Prelude.{◌≡◌, ◌≢◌, ℕ, ◌+◌, ◌-◌, ◌*◌, ◌≤◌, ◌<◌, All, IfErr, IfOk, IsTrue, List, None, OnErr, OnOk, Some, [], false, length, slice_index, true};
ghost use Rattle.prime_field.specs.Modulus.{value_of};
ghost use Rattle.prime_field.specs.Residue.{IsPrime};
ghost use Rattle.elim_core.specs.Kept.{HasSolution};
ghost use Rattle.elim_core.specs.Solver.{AreUnknowns, IsAscending};
ghost use Rattle.elim_core.specs.Sparse.{AreSparseRows, entries_of, rows_with};
ghost use Rattle.graph_file.specs.Needed.{sources_of};
ghost use Rattle.graph_file.specs.Sound.{IsKind, called_graph};
ghost use Rattle.graph_eval.specs.Fresh.{HasPlanOrFails, IsOwnOf, NodeLearns};
ghost use Rattle.graph_eval.specs.GraphValue.{NodeFails, meanings};
ghost use Rattle.graph_eval.specs.Learned.{AreGraphs, CallEarlier, FitsFirst, HasOwnLength, IsSetFor, listed_length, plan_of, plan_over, sets_of, sizes_of};
ghost use Rattle.graph_eval.specs.Needs.{AreTables, words_below};
ghost use Rattle.graph_eval.specs.Reading.{IsThere, placed};
ghost use Rattle.graph_eval.specs.Stacked.{IsAdded};
ghost use Rattle.graph_eval.specs.Systems.{AreEnoughFor, rows_in, words_of};

use crate::evaluation::{calls, push_call};
use crate::kinds::placed;
use crate::learned::GraphLearned;
use crate::needs::extra_of;
use crate::outcome::Cause;
use crate::plain::write_list;
use crate::shapes::entries_of;
use crate::systems::own_set;
use elim_core::SparseRow;
use graph_file::{Graph, Node, NodeKind};
use prime_field::Modulus;
use ratfun_text::NoMemory;
use sparse_solver::SparsePlan;
use sqlite_items::Items;
use std::alloc::Global;
use word_region::Stack;

/// What a node learns on the lists before it.
#[derive(Debug, Drop)]
pub(crate) struct NodeLearned {
    /// The independent unknowns of its own system; none where it isn't needed, where it solves no system, where the list
    /// that it names hasn't as many entries as the system, or where the system has no solution.
    pub(crate) set: Items<u32>,
    /// The plan of a sparse system over this set.
    pub(crate) plan: Option<SparsePlan>,
    /// False where a sparse system has no plan, since it has no solution or not as many entries as it wants.
    pub(crate) planned: bool,
}

/// What a node learns that has this set, and no plan.
fn without_plan(set: Items<u32>) -> NodeLearned
    ensures set { result.set ≡ set }
    ensures plan { result.plan ≡ None }
    ensures planned { result.planned ≡ true }
{
    NodeLearned {
        set,
        plan: None,
        planned: true,
    }
}

/// What a sparse system learns that has no plan.
fn unplanned(alloc: Global) -> NodeLearned
    ensures set { result.set ≡ [] }
    ensures plan { result.plan ≡ None }
    ensures planned { result.planned ≡ false }
{
    NodeLearned {
        set: Items::new(alloc),
        plan: None,
        planned: false,
    }
}

/// What a dense system learns: its independent unknowns, or nothing where the list hasn't its entries.
fn dense_learned(
    alloc: Global,
    m: Modulus,
    rows: usize,
    unknowns: usize,
    list: &[u64],
    work: &mut [u64],
) -> Result<Items<u32>, NoMemory>
    requires few_rows { rows ≤ 512 }
    requires few { unknowns ≤ 511 }
    requires residues { All (λ x. x < value_of m) list.now }
    requires room { (unknowns + 4) * (unknowns + 2) ≤ length work.old }
    ensures own { IfOk result (λ set. IsPrime (value_of m) → IsOwnOf (value_of m) unknowns (rows * (unknowns + 1)) (rows_in rows unknowns list.now) list.now set) }
    ensures ascending { IfOk result IsAscending }
    ensures numbers { IfOk result (AreUnknowns unknowns) }
{
    if list.len() != rows * (unknowns + 1) {
        return Ok(Items::new(alloc));
    }
    own_set(alloc, m, rows, unknowns, list, work)
}

/// The rows again.
fn copied(alloc: Global, rows: &[SparseRow]) -> Result<Items<SparseRow>, NoMemory>
    ensures { IfOk result (λ copy. copy ≡ rows.now) }
{
    let mut copy = Items::new(alloc);
    for row in rows {
        let columns = Items::from_slice(alloc, row.columns.as_slice())?;
        copy.push(SparseRow { columns })?;
    }
    Ok(copy)
}

/// What a sparse system learns: its independent unknowns and its plan, or nothing where the list hasn't its entries or
/// where it has no solution.
fn sparse_learned(
    alloc: Global,
    m: Modulus,
    unknowns: u32,
    rows: &[SparseRow],
    list: &[u64],
) -> Result<NodeLearned, NoMemory>
    requires some { 1 ≤ unknowns }
    requires few { unknowns ≤ 4096 }
    requires rows { AreSparseRows unknowns rows.now }
    requires bounded { entries_of rows.now ≤ 65536 }
    requires residues { All (λ x. x < value_of m) list.now }
    ensures own { IfOk result (λ own. IsPrime (value_of m) → IsOwnOf (value_of m) unknowns (entries_of rows.now) (rows_with unknowns rows.now list.now) list.now own.set) }
    ensures ascending { IfOk result (λ own. IsAscending own.set) }
    ensures numbers { IfOk result (λ own. AreUnknowns unknowns own.set) }
    ensures planned { IfOk result (λ own. own.planned ≡ true → own.plan ≡ Some (plan_over unknowns rows.now own.set)) }
    ensures unsolvable { IfOk result (λ own. own.planned ≡ false → length list.now ≡ entries_of rows.now → IsPrime (value_of m)
        → HasSolution (value_of m) unknowns (rows_with unknowns rows.now list.now) → ⊥) }
{
    if list.len() != entries_of(rows) {
        return Ok(unplanned(alloc));
    }
    let mut plan = SparsePlan::new(alloc, unknowns, copied(alloc, rows)?)?;
    let Some(set) = plan.learn(m, list)? else {
        return Ok(unplanned(alloc));
    };
    Ok(NodeLearned {
        set,
        plan: Some(plan),
        planned: true,
    })
}

/// What a node learns on the lists before it: the independent unknowns of its own system, with its plan where it is sparse,
/// or nothing where it isn't needed, where it solves no system, or where the list that it names hasn't as many entries as
/// the system.
pub(crate) fn learn_node(
    alloc: Global,
    m: Modulus,
    node: &Node,
    words: &[u64],
    places: &[usize],
    work: &mut [u64],
) -> Result<NodeLearned, NoMemory>
    requires sound { IsKind (slice_index places.now 0) (length places.now - 1) node.now.kind }
    requires there { All (IsThere words.now places.now) (sources_of node.now.kind) }
    requires work { IsTrue node.now.needed → words_of node.now.kind ≤ length work.old }
    requires residues { All (λ x. x < value_of m) words.now }
    ensures own { IfOk result (λ own. IsPrime (value_of m) → NodeLearns (value_of m) (placed words.now places.now) node.now own.set) }
    ensures fits { IfOk result (λ own. IsSetFor node.now own.set) }
    ensures plan { IfOk result (HasPlanOrFails (value_of m) (placed words.now places.now) node.now) }
{
    if !node.needed {
        return Ok(without_plan(Items::new(alloc)));
    }
    match &node.kind {
        NodeKind::Dense {
            from,
            rows,
            unknowns,
            ..
        } => {
            let list = placed(words, places, *from);
            let (rows, unknowns) = (*rows as usize, *unknowns as usize);
            let set = dense_learned(alloc, m, rows, unknowns, list, work)?;
            Ok(without_plan(set))
        }
        NodeKind::Sparse {
            from,
            unknowns,
            rows,
            ..
        } => {
            let list = placed(words, places, *from);
            let rows = rows.as_slice();
            Ok(sparse_learned(alloc, m, *unknowns, rows, list)?)
        }
        _ => Ok(without_plan(Items::new(alloc))),
    }
}

/// Appends the list of a needed node that calls an earlier graph, or tells the cause where it has no value. The graph is
/// evaluated on a stack of its own, above the lists so far.
fn push_called(
    alloc: Global,
    m: Modulus,
    graphs: &[Graph],
    learned: &[GraphLearned],
    tables: &[Items<usize>],
    wanted: &[usize],
    node: &Node,
    count: usize,
    words: &mut Vec<u64>,
    places: &[usize],
    work: &mut [u64],
) -> Result<Result<(), Cause>, NoMemory>
    requires sound_graphs { AreGraphs graphs.now }
    requires earlier { CallEarlier graphs.now }
    requires fits { FitsFirst graphs.now learned.now (length learned.now) }
    requires tables { AreTables graphs.now learned.now tables.now }
    requires wanted { (k : ℕ) → slice_index wanted.now k ≡ words_below graphs.now learned.now (length learned.now) k }
    requires bound { (k : ℕ) → slice_index wanted.now k ≤ 1152921504606846976 }
    requires many { length learned.now ≤ length wanted.now }
    requires within { length learned.now < length graphs.now }
    requires enough { AreEnoughFor graphs.now (length work.old) }
    requires calls { (called : ℕ) → called_graph node.now.kind ≡ Some called → called < length learned.now }
    requires count { count ≤ 262144 }
    requires needed { IsTrue node.now.needed }
    requires called { called_graph node.now.kind ≢ None }
    requires kind { (variables : ℕ) × (place : ℕ) × IsKind variables place node.now.kind }
    requires there { All (IsThere words.old.items places.now) (sources_of node.now.kind) }
    requires residues { All (λ x. x < value_of m) words.old.items }
    requires room { (set : List ℕ) × (listed_length (sizes_of graphs.now learned.now) (placed words.old.items places.now) set node.now.kind ≡ Some count) }
    ensures ok { IfOk result (λ answer. OnOk answer ((set : List ℕ) (own : ℕ) → listed_length (sizes_of graphs.now learned.now) (placed words.old.items places.now) set node.now.kind ≡ Some own
        → IsAdded (value_of m) (meanings (value_of m) graphs.now (sets_of learned.now) (length learned.now)) set (placed words.old.items places.now) node.now own words.old.items words.new.items)) }
    ensures err { IfOk result (λ answer. IfErr answer (λ cause. IsPrime (value_of m) → (set : List ℕ)
        → NodeFails (value_of m) (meanings (value_of m) graphs.now (sets_of learned.now) (length learned.now)) set (placed words.old.items places.now) node.now cause)) }
{
    let len = words.len();
    let extra = extra_of(&node.kind, wanted, learned);
    let size = len + count + extra;
    let mut stack = Stack::new(alloc, size, 0)?;
    stack.push(words.as_slice());
    let (number, mut moduli, mut counts) = (learned.len(), [], []);
    match push_call(
        m,
        graphs,
        learned,
        tables,
        &[],
        &[],
        number,
        node,
        0,
        places,
        0,
        &mut moduli,
        &mut counts,
        &mut stack,
        work,
    ) {
        Ok(()) => {}
        Err(cause) => return Ok(Err(cause)),
    }
    words.extend_from_slice(&stack.words()[len..])?;
    Ok(Ok(()))
}

/// Appends the list of a node over what it learned, which is empty where the node isn't needed, or tells the cause where it
/// is needed and has no value. Then nothing is known of the words.
pub(crate) fn push_own(
    alloc: Global,
    m: Modulus,
    graphs: &[Graph],
    learned: &[GraphLearned],
    tables: &[Items<usize>],
    wanted: &[usize],
    node: &Node,
    own: &NodeLearned,
    count: usize,
    words: &mut Vec<u64>,
    places: &[usize],
    work: &mut [u64],
) -> Result<Result<(), Cause>, NoMemory>
    requires sound_graphs { AreGraphs graphs.now }
    requires earlier { CallEarlier graphs.now }
    requires fits { FitsFirst graphs.now learned.now (length learned.now) }
    requires tables { AreTables graphs.now learned.now tables.now }
    requires wanted { (k : ℕ) → slice_index wanted.now k ≡ words_below graphs.now learned.now (length learned.now) k }
    requires bound { (k : ℕ) → slice_index wanted.now k ≤ 1152921504606846976 }
    requires many { length learned.now ≤ length wanted.now }
    requires within { length learned.now < length graphs.now }
    requires enough { AreEnoughFor graphs.now (length work.old) }
    requires calls { (called : ℕ) → called_graph node.now.kind ≡ Some called → called < length learned.now }
    requires count { count ≤ 262144 }
    requires sound { IsKind (slice_index places.now 0) (length places.now - 1) node.now.kind }
    requires there { All (IsThere words.old.items places.now) (sources_of node.now.kind) }
    requires set { IsSetFor node.now own.now.set }
    requires plan { HasPlanOrFails (value_of m) (placed words.old.items places.now) node.now own.now }
    requires work { IsTrue node.now.needed → words_of node.now.kind ≤ length work.old }
    requires residues { All (λ x. x < value_of m) words.old.items }
    requires room { HasOwnLength (sizes_of graphs.now learned.now) (placed words.old.items places.now) own.now.set node.now count }
    ensures ok { IfOk result (λ answer. OnOk answer (IsAdded (value_of m) (meanings (value_of m) graphs.now (sets_of learned.now) (length learned.now)) own.now.set (placed words.old.items places.now) node.now count words.old.items words.new.items)) }
    ensures err { IfOk result (λ answer. IfErr answer (λ cause. IsPrime (value_of m) → NodeFails (value_of m) (meanings (value_of m) graphs.now (sets_of learned.now) (length learned.now)) own.now.set (placed words.old.items places.now) node.now cause)) }
    ensures needed { IfOk result (λ answer. OnErr answer (IsTrue node.now.needed)) }
    ensures planned { IfOk result (λ answer. OnOk answer (own.now.plan ≡ plan_of own.now.set node.now)) }
{
    if !own.planned {
        return Ok(Err(Cause::System));
    }
    if !node.needed {
        return Ok(Ok(()));
    }
    if calls(&node.kind) {
        return push_called(
            alloc, m, graphs, learned, tables, wanted, node, count, words, places, work,
        );
    }
    let set = own.set.as_slice();
    let plan = own.plan.as_ref();
    let len = words.len();
    words.resize(len + count, 0)?;
    let (before, out) = words.as_mut_slice().split_at_mut(len);
    Ok(write_list(m, &node.kind, set, plan, before, places, work, out))
}
