//! The lengths of a graph's lists, by the rules of its nodes alone.

ghost use Rattle.std.specs.Prelude.{◌≡◌, ◌+◌, ◌<◌, ◌≤◌, [], false, All, IfOk, IfSome, None, length, map, sum, vec_len};
ghost use Rattle.graph_file.specs.Sound.{IsEarlier, IsGraph, IsKind, IsNode};
ghost use Rattle.graph_eval.specs.Fresh.{IsMeasured, IsMeasuredAt};
ghost use Rattle.graph_eval.specs.Learned.{AreEmpty, AreFew, AreNone, FitsFirst, IsKindSet, IsPlainAt, IsSetFor, has_solver, is_solver, kind_length, named_length, node_length, sizes_of};

use crate::fresh::Fresh;
use crate::learned::{GraphLearned, Learned};
use crate::shapes::{GraphSize, shape_of, sizes_of};
use basic_nodes::length_of;
use graph_file::{Graph, Job, Node, NodeKind, Source, sources_of};
use ratfun_text::NoMemory;
use sparse_solver::SparsePlan;
use sqlite_items::Items;
use std::alloc::Global;

/// The most entries that the lists of a graph may have together.
const ALL_LISTS: usize = 2_097_152;

/// The length of the list that a source names.
pub(crate) fn named_length(inputs: usize, lengths: &[u32], source: Source) -> usize
    requires { IsEarlier (length lengths.now) source }
    ensures { result ≡ named_length inputs lengths.now source }
{
    match source {
        Source::Input => inputs,
        Source::Node(place) => lengths[place as usize] as usize,
    }
}

/// What was learned of a graph whose nodes have these lengths, sets and plans, without the number of its point.
pub(crate) fn learned_of(
    inputs: usize,
    output: Source,
    lengths: Vec<u32>,
    sets: Items<Items<u32>>,
    plans: Items<Option<SparsePlan>>,
) -> GraphLearned
    requires there { IsEarlier (vec_len lengths) output }
    requires few { inputs ≤ 8 }
    ensures point { result.point ≡ None }
    ensures output { result.output ≡ named_length inputs lengths.items output }
    ensures lengths { result.lengths ≡ lengths.items }
    ensures sets { result.sets ≡ sets }
    ensures plans { result.plans ≡ plans }
{
    GraphLearned {
        point: None,
        output: named_length(inputs, lengths.as_slice(), output) as u32,
        lengths: Items::from_vec(lengths),
        sets,
        plans,
    }
}

/// The lengths of the lists that sources name.
fn named_lengths(
    alloc: Global,
    inputs: usize,
    lengths: &[u32],
    sources: &[Source],
) -> Result<Vec<usize>, NoMemory>
    requires { All (IsEarlier (length lengths.now)) sources.now }
    ensures { IfOk result (λ named. named.items ≡ map (named_length inputs lengths.now) sources.now) }
{
    let mut named = Vec::new(alloc);
    for source in sources {
        named.push(named_length(inputs, lengths, *source))?;
    }
    Ok(named)
}

/// The length of the list of a needed node of this kind behind lists of these lengths, where this set was learned for it,
/// or nothing where a rule fails.
fn kind_length(
    alloc: Global,
    kind: &NodeKind,
    set: &[u32],
    sizes: &[GraphSize],
    inputs: usize,
    earlier: &[u32],
) -> Result<Option<usize>, NoMemory>
    requires sound { IsKind inputs (length earlier.now) kind.now }
    requires set { IsKindSet kind.now set.now }
    requires few { inputs ≤ 8 }
    requires sizes { AreFew sizes.now }
    requires within { All (λ n. n ≤ 262144) earlier.now }
    ensures value { IfOk result (λ own. own ≡ kind_length sizes.now inputs earlier.now set.now kind.now) }
    ensures limit { IfOk result (λ own. IfSome own (λ n. n ≤ 262144)) }
{
    let shape = shape_of(alloc, kind, set, sizes)?;
    let sources = sources_of(alloc, kind)?;
    let lengths = named_lengths(alloc, inputs, earlier, sources.as_slice())?;
    Ok(length_of(&shape, lengths.as_slice()).ok())
}

/// The length of the list of a node behind lists of these lengths, where this set was learned for it: 0 where the node
/// isn't needed, or nothing where a rule fails. The lists so far have `total` entries together.
pub(crate) fn node_length(
    alloc: Global,
    node: &Node,
    set: &[u32],
    sizes: &[GraphSize],
    inputs: usize,
    earlier: &[u32],
    total: usize,
) -> Result<Option<u32>, NoMemory>
    requires sound { IsKind inputs (length earlier.now) node.now.kind }
    requires set { IsSetFor node.now set.now }
    requires few { inputs ≤ 8 }
    requires sizes { AreFew sizes.now }
    requires within { All (λ n. n ≤ 262144) earlier.now }
    requires total { total ≡ sum earlier.now }
    requires bound { total ≤ 2097152 }
    ensures value { IfOk result (λ own. own ≡ node_length sizes.now inputs earlier.now set.now node.now) }
    ensures limit { IfOk result (λ own. IfSome own (λ n. n ≤ 262144)) }
    ensures bound { IfOk result (λ own. IfSome own (λ n. total + n ≤ 2097152)) }
{
    if !node.needed {
        return Ok(Some(0));
    }
    match kind_length(alloc, &node.kind, set, sizes, inputs, earlier)? {
        Some(own) if total + own <= ALL_LISTS => Ok(Some(own as u32)),
        _ => Ok(None),
    }
}

/// Whether the node is a solver whose value is needed.
pub fn is_solver(node: &Node) -> bool
    ensures { result ≡ is_solver node.now }
{
    node.needed && matches!(node.kind, NodeKind::Dense { .. } | NodeKind::Sparse { .. })
}

/// Whether some needed node of the graph is a solver, so that the graph is learned at a point.
pub fn has_solver(graph: &Graph) -> bool
    ensures { result ≡ has_solver graph.now }
{
    graph.nodes.as_slice().iter().any(is_solver)
}

/// An empty set for each of so many nodes.
fn no_sets(alloc: Global, count: usize) -> Result<Items<Items<u32>>, NoMemory>
    ensures { IfOk result (AreEmpty count) }
{
    let mut sets = Items::new(alloc);
    for _node in 0..count {
        sets.push(Items::new(alloc))?;
    }
    Ok(sets)
}

/// No plan for any of so many nodes.
fn no_plans(alloc: Global, count: usize) -> Result<Items<Option<SparsePlan>>, NoMemory>
    ensures { IfOk result (AreNone count) }
{
    let mut plans = Items::new(alloc);
    for _node in 0..count {
        plans.push(None)?;
    }
    Ok(plans)
}

/// The lengths of a graph's lists, none of whose needed nodes is a solver, or the node whose length breaks a rule.
fn graph_lengths(alloc: Global, graph: &Graph, sizes: &[GraphSize]) -> Result<Fresh, NoMemory>
    requires sound { IsGraph graph.now }
    requires sizes { AreFew sizes.now }
    requires plain { has_solver graph.now ≡ false }
    ensures { IfOk result (IsMeasured sizes.now graph.now) }
{
    let inputs = graph.inputs.len();
    let mut lengths = Vec::new(alloc);
    let mut total = 0;
    for (place, node) in graph.nodes.as_slice().iter().enumerate() {
        let Some(own) = node_length(alloc, node, &[], sizes, inputs, lengths.as_slice(), total)?
        else {
            return Ok(Fresh::Length { node: place as u32 });
        };
        lengths.push(own)?;
        total += own as usize;
    }
    let sets = no_sets(alloc, graph.nodes.len())?;
    let plans = no_plans(alloc, graph.nodes.len())?;
    Ok(Fresh::Learned(learned_of(inputs, graph.output, lengths, sets, plans)))
}

/// The lengths of the lists of the graph with this number, counted from 0, by the rules of its nodes alone; what was
/// learned of the graphs before it is known. The graph has no solver whose value is needed ([`has_solver`]), and the
/// answer is never [`Fresh::Singular`].
pub fn lengths_of(
    alloc: Global,
    job: &Job,
    learned: &Learned,
    graph: u32,
) -> Result<Fresh, NoMemory>
    requires there { graph < length job.now.graphs }
    requires before { FitsFirst job.now.graphs learned.now graph }
    requires plain { IsPlainAt job.now.graphs graph }
    ensures { IfOk result (IsMeasuredAt job.now.graphs learned.now graph) }
{
    let graphs = job.graphs.as_slice();
    let sizes = sizes_of(alloc, graphs, learned.all())?;
    Ok(graph_lengths(alloc, &graphs[graph as usize], sizes.as_slice())?)
}
