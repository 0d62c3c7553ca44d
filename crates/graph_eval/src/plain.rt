//! The lists of nodes that call no other graph, appended to a stack of words.

ghost use Rattle.std.specs.Prelude.{◌≡◌, ◌+◌, ◌-◌, ◌<◌, ◌≤◌, ◌++◌, [], All, None, Some, IfErr, OnErr, OnOk, IsTrue, List, drop, length, map, slice_index, slice_index_or, take};
ghost use Rattle.std.specs.Option.{option_copied};
ghost use Rattle.prime_field.specs.Modulus.{value_of};
ghost use Rattle.prime_field.specs.Residue.{IsPrime};
ghost use Rattle.basic_nodes.specs.Plain.{chained};
ghost use Rattle.graph_file.specs.Needed.{sources_of};
ghost use Rattle.graph_file.specs.Sound.{IsKind, called_graph};
ghost use Rattle.graph_eval.specs.Evaluated.{no_graphs};
ghost use Rattle.graph_eval.specs.GraphValue.{KindFails, KindGives, NodeFails};
ghost use Rattle.graph_eval.specs.Learned.{FitsNode, IsKindSet, kind_plan, listed_length};
ghost use Rattle.graph_eval.specs.Reading.{AreListed, HasPlaces, IsThere, placed, places_of, start_of, stop_of};
ghost use Rattle.graph_eval.specs.Stacked.{IsAdded};
ghost use Rattle.graph_eval.specs.Systems.{words_of};
ghost use Rattle.graph_eval.specs.declared.shapes.GraphSize.{GraphSize};

use crate::kinds::{placed, write_chained, write_product, write_sum, write_taken, write_values};
use crate::learned::GraphLearned;
use crate::outcome::Cause;
use crate::systems::write_solved;
use basic_nodes::{matmul, slice};
use graph_file::{Node, NodeKind, Source};
use prime_field::Modulus;
use sparse_solver::SparsePlan;
use word_region::Stack;

/// Writes the list of a node of this kind, which calls no graph, and for which this set and this plan were learned, to `out`,
/// which has its length.
/// The lists that it names stand in `words`, and end at these places. A system is solved in `work`.
///
/// # Errors
///
/// The cause where the node has no value.
pub(crate) fn write_list(
    m: Modulus,
    kind: &NodeKind,
    set: &[u32],
    plan: Option<&SparsePlan>,
    words: &[u64],
    places: &[usize],
    work: &mut [u64],
    out: &mut [u64],
) -> Result<(), Cause>
    requires plain { called_graph kind.now ≡ None }
    requires sound { IsKind (slice_index places.now 0) (length places.now - 1) kind.now }
    requires there { All (IsThere words.now places.now) (sources_of kind.now) }
    requires set { IsKindSet kind.now set.now }
    requires plan { option_copied plan ≡ kind_plan set.now kind.now }
    requires work { words_of kind.now ≤ length work.old }
    requires residues { All (λ x. x < value_of m) words.now }
    requires room { (sizes : List GraphSize) × (listed_length sizes (placed words.now places.now) set.now kind.now ≡ Some (length out.old)) }
    ensures ok { OnOk result (IsPrime (value_of m) → KindGives (value_of m) no_graphs set.now (placed words.now places.now) kind.now out.new) }
    ensures err { IfErr result (λ cause. IsPrime (value_of m) → KindFails (value_of m) no_graphs set.now (placed words.now places.now) kind.now cause) }
    ensures residues { OnOk result (All (λ x. x < value_of m) out.new) }
{
    match kind {
        NodeKind::Eval { from, exprs } => {
            let arguments = placed(words, places, *from);
            return write_values(m, exprs.as_slice(), arguments, out);
        }
        NodeKind::Take { parts } => write_taken(parts.as_slice(), words, places, out),
        NodeKind::Slice { from, first, .. } => {
            slice(placed(words, places, *from), *first as usize - 1, out);
        }
        NodeKind::Chain { parts } => write_chained(parts.as_slice(), words, places, out),
        NodeKind::Sum { parts } => write_sum(m, parts.as_slice(), words, places, out),
        NodeKind::Product { parts } => write_product(m, parts.as_slice(), words, places, out),
        NodeKind::Matmul {
            left,
            right,
            rows,
            mid,
            cols,
        } => matmul(
            m,
            placed(words, places, *left),
            placed(words, places, *right),
            *rows as usize,
            *mid as usize,
            *cols as usize,
            out,
        ),
        NodeKind::Dense {
            from,
            rows,
            unknowns,
            want,
        } => {
            let list = placed(words, places, *from);
            let (rows, unknowns) = (*rows as usize, *unknowns as usize);
            if !write_solved(m, rows, unknowns, list, set, want.as_slice(), work, out) {
                return Err(Cause::System);
            }
        }
        NodeKind::Sparse { from, want, .. } => {
            let list = placed(words, places, *from);
            let Some(plan) = plan else { unreachable!() };
            if !plan.solve(m, list, want.as_slice(), work, out) {
                return Err(Cause::System);
            }
        }
        NodeKind::Call { .. } | NodeKind::Memo { .. } => unreachable!(),
        NodeKind::Map { .. } | NodeKind::Laurent { .. } => unreachable!(),
    }
    Ok(())
}

/// Appends the list of the node at this place of a graph, which calls no other, and whose list is empty where the node isn't needed. The graph's inputs
/// and its lists so far stand on top of the first `base` words, and a system is solved in `work`.
///
/// # Errors
///
/// The cause where the node is needed and has no value. Then nothing is known of the words.
pub(crate) fn push_plain(
    m: Modulus,
    node: &Node,
    learned: &GraphLearned,
    places: &[usize],
    place: usize,
    base: usize,
    stack: &mut Stack,
    work: &mut [u64],
) -> Result<(), Cause>
    requires plain { called_graph node.now.kind ≡ None }
    requires fits { (sizes : List GraphSize) × FitsNode sizes (slice_index places.now 0) learned.now place node.now }
    requires places { places.now ≡ places_of (slice_index places.now 0) learned.now.lengths }
    requires base { base ≤ length stack.old.words }
    requires listed { AreListed (slice_index places.now 0) (take place learned.now.lengths) (drop base stack.old.words) }
    requires work { IsTrue node.now.needed → words_of node.now.kind ≤ length work.old }
    requires residues { All (λ x. x < value_of m) (drop base stack.old.words) }
    requires room { length stack.old.words + slice_index learned.now.lengths place ≤ stack.old.size }
    ensures size { stack.new.size ≡ stack.old.size }
    ensures kept { stack.new.kept ≡ stack.old.kept }
    ensures ok { OnOk result (IsAdded (value_of m) no_graphs (slice_index_or learned.now.sets place [])
        (placed (drop base stack.old.words) (take (place + 1) places.now)) node.now (slice_index learned.now.lengths place) stack.old.words stack.new.words) }
    ensures err { IfErr result (λ cause. IsPrime (value_of m) → NodeFails (value_of m) no_graphs (slice_index_or learned.now.sets place [])
        (placed (drop base stack.old.words) (take (place + 1) places.now)) node.now cause) }
    ensures needed { OnErr result (IsTrue node.now.needed) }
{
    if !node.needed {
        return Ok(());
    }
    let set = learned.sets.as_slice()[place].as_slice();
    let plan = learned.plans.as_slice()[place].as_ref();
    let own = learned.lengths.as_slice()[place] as usize;
    let (words, out) = stack.grow(own);
    write_list(
        m,
        &node.kind,
        set,
        plan,
        &words[base..],
        &places[..place + 1],
        work,
        out,
    )
}

/// Appends the lists that sources name, one after the other, which have `count` entries together. The lists stand above the
/// first `base` words, and end at these places.
pub(crate) fn push_chain(
    parts: &[Source],
    places: &[usize],
    base: usize,
    count: usize,
    stack: &mut Stack,
)
    requires base { base ≤ length stack.old.words }
    requires there { All (IsThere (drop base stack.old.words) places.now) parts.now }
    requires count { count ≡ length (chained (map (placed (drop base stack.old.words) places.now) parts.now)) }
    requires room { length stack.old.words + count ≤ stack.old.size }
    ensures { stack.new ≡ record stack.old { words = stack.old.words ++ chained (map (placed (drop base stack.old.words) places.now) parts.now) } }
{
    let (words, out) = stack.grow(count);
    write_chained(parts, &words[base..], places, out);
}

/// Where the list that a source names begins and ends.
pub(crate) fn run_of(places: &[usize], source: Source) -> (usize, usize)
    requires { HasPlaces places.now source }
    ensures start { result.0 ≡ start_of places.now source }
    ensures stop { result.1 ≡ stop_of places.now source }
{
    match source {
        Source::Input => (0, places[0]),
        Source::Node(number) => {
            let number = number as usize;
            (places[number], places[number + 1])
        }
    }
}
