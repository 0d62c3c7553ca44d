//! Dense systems of linear equations, solved in words that are lent.

ghost use Rattle.std.specs.Prelude.{◌≡◌, ◌+◌, ◌*◌, ◌<◌, ◌≤◌, All, IfNone, IfOk, IfSome, IsTrue, length, vec_len};
ghost use Rattle.std.specs.Bool.{OnFalse, OnTrue};
ghost use Rattle.prime_field.specs.Modulus.{value_of};
ghost use Rattle.prime_field.specs.Residue.{IsPrime};
ghost use Rattle.elim_core.specs.Kept.{HasSolution};
ghost use Rattle.elim_core.specs.Solved.{IsKept, IsOwnSet, IsSolved};
ghost use Rattle.elim_core.specs.Solver.{AreUnknowns, HasSolverValue, IsAscending};
ghost use Rattle.graph_file.specs.Sound.{IsGraph};
ghost use Rattle.graph_eval.specs.Learned.{AreGraphs};
ghost use Rattle.graph_eval.specs.Systems.{AreEnoughFor, HasFewUnknowns, greatest_work, rows_in, work_of};

use elim_core::{Elim, Rank};
use graph_file::{Graph, Node, NodeKind};
use prime_field::Modulus;
use ratfun_text::NoMemory;
use sqlite_items::Items;
use std::alloc::Global;

/// How many words a node wants for its work beside its list, 0 where it isn't needed.
fn work_of(node: &Node) -> usize
    requires { HasFewUnknowns node.now.kind }
    ensures { result ≡ work_of node.now }
{
    if !node.needed {
        return 0;
    }
    match node.kind {
        NodeKind::Dense { unknowns, .. } | NodeKind::Sparse { unknowns, .. } => {
            Elim::words(unknowns as usize)
        }
        _ => 0,
    }
}

/// The most words that a node of a graph wants for its work.
pub(crate) fn greatest_work(graph: &Graph) -> usize
    requires { IsGraph graph.now }
    ensures { result ≡ greatest_work graph.now.nodes }
{
    let mut most = 0;
    for node in graph.nodes.as_slice() {
        most = work_of(node).max(most);
    }
    most
}

/// Words that are enough for each system that is solved in the graphs.
pub(crate) fn work_for(alloc: Global, graphs: &[Graph]) -> Result<Vec<u64>, NoMemory>
    requires { AreGraphs graphs.now }
    ensures { IfOk result (λ work. AreEnoughFor graphs.now (vec_len work)) }
{
    let mut most = 0;
    for graph in graphs {
        most = greatest_work(graph).max(most);
    }
    Ok(vec![in alloc; 0; most]?)
}

/// Absorbs each row of a system once, in words of which there are enough, or answers nothing where it has no solution.
fn absorb_rows(
    m: Modulus,
    rows: usize,
    unknowns: usize,
    list: &[u64],
    words: &mut [u64],
) -> Option<Elim>
    requires few { unknowns ≤ 4096 }
    requires entries { length list.now ≡ rows * (unknowns + 1) }
    requires residues { All (λ x. x < value_of m) list.now }
    requires room { (unknowns + 4) * (unknowns + 2) ≤ length words.old }
    ensures kept { IfSome result (λ kept. IsKept kept words.new (value_of m) unknowns (rows_in rows unknowns list.now)) }
    ensures unsolvable { IfNone result (IsPrime (value_of m) → HasSolution (value_of m) unknowns (rows_in rows unknowns list.now) → ⊥) }
{
    let mut elimination = Elim::start(m, unknowns, words);
    for place in 0..rows {
        let start = place * (unknowns + 1);
        let row = &list[start..start + unknowns + 1];
        if let Rank::Contradiction = elimination.absorb(words, row) {
            return None;
        }
    }
    Some(elimination)
}

/// Writes the values that tell the wanted unknowns of a system by those of the set, or answers false where the set doesn't
/// tell them.
pub(crate) fn write_solved(
    m: Modulus,
    rows: usize,
    unknowns: usize,
    list: &[u64],
    set: &[u32],
    want: &[u32],
    words: &mut [u64],
    out: &mut [u64],
) -> bool
    requires few { unknowns ≤ 4096 }
    requires entries { length list.now ≡ rows * (unknowns + 1) }
    requires residues { All (λ x. x < value_of m) list.now }
    requires ascending { IsAscending set.now }
    requires set { AreUnknowns unknowns set.now }
    requires want { AreUnknowns unknowns want.now }
    requires words { (unknowns + 4) * (unknowns + 2) ≤ length words.old }
    requires room { length out.old ≡ length want.now * (length set.now + 1) }
    ensures solved { OnTrue result (IsSolved (value_of m) unknowns (rows_in rows unknowns list.now) set.now want.now out.new) }
    ensures undefined { OnFalse result (IsPrime (value_of m)
        → HasSolverValue (value_of m) unknowns (rows_in rows unknowns list.now) set.now → ⊥) }
    ensures residues { OnTrue result (All (λ x. x < value_of m) out.new) }
{
    match absorb_rows(m, rows, unknowns, list, words) {
        Some(mut elimination) => elimination.solve_over(words, set, want, out),
        None => false,
    }
}

/// The independent unknowns of a system, ascending; none where it has no solution.
pub(crate) fn own_set(
    alloc: Global,
    m: Modulus,
    rows: usize,
    unknowns: usize,
    list: &[u64],
    words: &mut [u64],
) -> Result<Items<u32>, NoMemory>
    requires few { unknowns ≤ 4096 }
    requires entries { length list.now ≡ rows * (unknowns + 1) }
    requires residues { All (λ x. x < value_of m) list.now }
    requires room { (unknowns + 4) * (unknowns + 2) ≤ length words.old }
    ensures own { IfOk result (λ set. IsPrime (value_of m) → IsOwnSet (value_of m) unknowns (rows_in rows unknowns list.now) set) }
    ensures ascending { IfOk result IsAscending }
    ensures numbers { IfOk result (AreUnknowns unknowns) }
{
    let Some(elimination) = absorb_rows(m, rows, unknowns, list, words) else {
        return Ok(Items::new(alloc));
    };
    let mut set = vec![in alloc; 0; unknowns]?;
    let count = elimination.independents(words, set.as_mut_slice());
    set.truncate(count);
    Ok(Items::from_vec(set))
}
