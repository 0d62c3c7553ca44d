//! How many words the evaluation of a graph needs, and where its lists stand.

ghost use Rattle.std.specs.Prelude.{◌≡◌, ℕ, ◌+◌, ◌<◌, ◌≤◌, IfOk, List, Some, length, slice_get, slice_index, sum};
ghost use Rattle.graph_file.specs.Sound.{CallsEarlier, IsGraph, called_graph};
ghost use Rattle.graph_eval.specs.GraphValue.{main_number};
ghost use Rattle.graph_eval.specs.Learned.{AreGraphs, CallEarlier, Fits, FitsFirst, FitsGraph};
ghost use Rattle.graph_eval.specs.Needs.{AreTables, expansion_words, extra_of, graph_words, greatest_extra, node_extra, output_at, words_below, words_for, words_needed};
ghost use Rattle.graph_eval.specs.Reading.{places_of};
ghost use Rattle.graph_eval.specs.Systems.{HasFewUnknowns, HasWindow};
ghost use Rattle.graph_eval.specs.declared.shapes.GraphSize.{GraphSize};

use crate::frames::kept_words;
use crate::learned::{GraphLearned, Learned};
use elim_core::Elim;
use graph_file::{Graph, Job, Node, NodeKind};
use ratfun_text::NoMemory;
use sqlite_items::Items;
use std::alloc::Global;

/// How many entries lists of these lengths have together.
fn total_of(lengths: &[u32]) -> usize
    requires { length lengths.now ≤ 4096 }
    ensures total { result ≡ sum lengths.now }
    ensures bound { result ≤ 17592186044416 }
{
    let mut total = 0;
    for own in lengths {
        total += *own as usize;
    }
    total
}

/// How many words are wanted to expand so many outputs from their values at so many points: these values, and work for one.
fn expansion_words(points: usize, outputs: u32) -> usize
    requires { points ≤ 131 }
    ensures words { result ≡ expansion_words points outputs }
    ensures bound { result ≤ 562640717241 }
{
    points * outputs as usize + 12 * (points + 2)
}

/// How many words a node of this kind wants beside its list, where this was learned of the graphs before its own, and they
/// want so many.
pub(crate) fn extra_of(kind: &NodeKind, words: &[usize], learned: &[GraphLearned]) -> usize
    requires few { HasFewUnknowns kind.now }
    requires window { HasWindow kind.now }
    requires there { (called : ℕ) → called_graph kind.now ≡ Some called → called < length words.now }
    requires known { (called : ℕ) → called_graph kind.now ≡ Some called → called < length learned.now }
    requires bound { (k : ℕ) → slice_index words.now k ≤ 1152921504606846976 }
    ensures { result ≡ extra_of (slice_index words.now) learned.now kind.now }
{
    match kind {
        NodeKind::Dense { unknowns, .. } | NodeKind::Sparse { unknowns, .. } => {
            Elim::words(*unknowns as usize)
        }
        NodeKind::Call { graph, .. } | NodeKind::Memo { graph, .. } | NodeKind::Map { graph, .. } =>
            { words[*graph as usize] }
        NodeKind::Laurent {
            graph,
            num,
            den,
            ..
        } => {
            let graph = *graph as usize;
            let points = *num as usize + *den as usize + 3;
            words[graph] + expansion_words(points, learned[graph].output)
        }
        _ => 0,
    }
}

/// How many words a node wants beside its list, 0 where it isn't needed.
fn node_extra(node: &Node, words: &[usize], learned: &[GraphLearned]) -> usize
    requires few { HasFewUnknowns node.now.kind }
    requires window { HasWindow node.now.kind }
    requires there { (called : ℕ) → called_graph node.now.kind ≡ Some called → called < length words.now }
    requires known { (called : ℕ) → called_graph node.now.kind ≡ Some called → called < length learned.now }
    requires bound { (k : ℕ) → slice_index words.now k ≤ 1152921504606846976 }
    ensures { result ≡ node_extra (slice_index words.now) learned.now node.now }
{
    if !node.needed {
        return 0;
    }
    extra_of(&node.kind, words, learned)
}

/// The most that a node of a graph wants.
fn greatest_extra(graph: &Graph, words: &[usize], learned: &[GraphLearned]) -> usize
    requires sound { IsGraph graph.now }
    requires there { CallsEarlier (length words.now) graph.now }
    requires known { CallsEarlier (length learned.now) graph.now }
    requires bound { (k : ℕ) → slice_index words.now k ≤ 1152921504606846976 }
    ensures { result ≡ greatest_extra (slice_index words.now) learned.now graph.now.nodes }
{
    let mut most = 0;
    for node in graph.nodes.as_slice() {
        most = node_extra(node, words, learned).max(most);
    }
    most
}

/// How many words a graph needs for its inputs, for the lists of its needed nodes, and beside these for one of them.
fn graph_words(
    graph: &Graph,
    entry: &GraphLearned,
    words: &[usize],
    learned: &[GraphLearned],
) -> usize
    requires sound { IsGraph graph.now }
    requires there { CallsEarlier (length words.now) graph.now }
    requires known { CallsEarlier (length learned.now) graph.now }
    requires fits { (sizes : List GraphSize) × FitsGraph sizes graph.now entry.now }
    requires outputs { (k : ℕ) → output_at (slice_get learned.now k) ≤ 4294967295 }
    requires bound { (k : ℕ) → slice_index words.now k ≤ 1152921504606846976 }
    ensures words { result ≡ graph_words (slice_index words.now) learned.now graph.now entry.now }
    ensures bound { (limit : ℕ) → 16801800 ≤ limit → ((k : ℕ) → slice_index words.now k ≤ limit) → result ≤ limit + 18154826761665 }
{
    let own = total_of(entry.lengths.as_slice());
    graph.inputs.len() + own + greatest_extra(graph, words, learned)
}

/// How many words each of the first graphs of a file needs, of which this was learned.
pub(crate) fn words_of_each(graphs: &[Graph], learned: &[GraphLearned]) -> [usize; 64]
    requires sound { AreGraphs graphs.now }
    requires earlier { CallEarlier graphs.now }
    requires few { length learned.now ≤ 64 }
    requires within { length learned.now ≤ length graphs.now }
    requires fits { FitsFirst graphs.now learned.now (length learned.now) }
    ensures words { (k : ℕ) → slice_index result k ≡ words_below graphs.now learned.now (length learned.now) k }
    ensures bound { (k : ℕ) → slice_index result k ≤ 1152921504606846976 }
{
    let mut words = [0; 64];
    for (number, entry) in learned.iter().enumerate() {
        words[number] = graph_words(&graphs[number], entry, &words, learned);
    }
    words
}

/// How many words the main graph needs for its inputs, for the lists of its needed nodes, and beside these for one of them.
fn main_words(job: &Job, learned: &Learned) -> usize
    requires { Fits job.now.graphs learned.now }
    ensures words { result ≡ words_for job.now.graphs learned.now (main_number job.now.graphs) }
    ensures bound { result ≤ 1152921504606846976 }
{
    let graphs = job.graphs.as_slice();
    let words = words_of_each(graphs, learned.all());
    words[graphs.len() - 1]
}

/// How many words a worker's region has: those that it keeps from one point to the next, and those that the main graph
/// needs for its inputs, for the lists of its needed nodes, and beside these for one of them.
pub fn words_needed(job: &Job, learned: &Learned) -> usize
    requires { Fits job.now.graphs learned.now }
    ensures { result ≡ words_needed job.now.graphs learned.now }
{
    kept_words(job.graphs.as_slice(), learned.all()) + main_words(job, learned)
}

/// The places where so many inputs end, and behind them lists of these lengths.
fn places_of(alloc: Global, inputs: usize, lengths: &[u32]) -> Result<Items<usize>, NoMemory>
    requires few_inputs { inputs ≤ 8 }
    requires few { length lengths.now ≤ 4096 }
    ensures { IfOk result (λ places. places ≡ places_of inputs lengths.now) }
{
    let mut end = inputs;
    let mut places = Items::new(alloc);
    places.push(end)?;
    for own in lengths {
        end += *own as usize;
        places.push(end)?;
    }
    Ok(places)
}

/// For each graph of which something was learned the places where its inputs and its lists end.
pub(crate) fn tables_of(
    alloc: Global,
    graphs: &[Graph],
    learned: &[GraphLearned],
) -> Result<Items<Items<usize>>, NoMemory>
    requires sound { AreGraphs graphs.now }
    requires within { length learned.now ≤ length graphs.now }
    requires fits { FitsFirst graphs.now learned.now (length learned.now) }
    ensures { IfOk result (AreTables graphs.now learned.now) }
{
    let mut tables = Items::new(alloc);
    for (number, entry) in learned.iter().enumerate() {
        let lengths = entry.lengths.as_slice();
        tables.push(places_of(alloc, graphs[number].inputs.len(), lengths)?)?;
    }
    Ok(tables)
}
