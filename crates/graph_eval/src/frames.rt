//! Where the memos of a file's graphs keep their words.

ghost use Rattle.std.specs.Prelude.{◌≡◌, ℕ, ◌+◌, ◌*◌, ◌<◌, ◌≤◌, IfNone, IfOk, IfSome, Some, length};
ghost use Rattle.graph_file.specs.Sound.{CallsEarlier, IsGraph, called_graph};
ghost use Rattle.graph_eval.specs.Learned.{AreGraphs, CallEarlier};
ghost use Rattle.graph_eval.specs.Memos.{AreFrames, FitsFrame};
ghost use Rattle.graph_eval.specs.Needs.{graphs_kept, kept_words, node_kept, nodes_kept};

use crate::learned::GraphLearned;
use crate::memos::MemoFrame;
use graph_file::{Graph, Node, NodeKind};
use ratfun_text::NoMemory;
use sqlite_items::Items;
use std::alloc::Global;

/// Where a node keeps its words from a place on, if it is a memo whose value is needed.
fn frame_of(graphs: &[Graph], learned: &[GraphLearned], node: &Node, at: usize) -> Option<MemoFrame>
    requires sound { AreGraphs graphs.now }
    requires calls { (called : ℕ) → called_graph node.now.kind ≡ Some called → called < length graphs.now }
    requires known { length learned.now ≡ length graphs.now }
    ensures none { IfNone result (node_kept graphs.now learned.now node.now ≡ 0) }
    ensures at { IfSome result (λ frame. frame.at ≡ at) }
    ensures fits { IfSome result (FitsFrame graphs.now learned.now) }
    ensures words { IfSome result (λ frame. frame.inputs + frame.outputs ≡ node_kept graphs.now learned.now node.now) }
    ensures few { IfSome result (λ frame. frame.inputs ≤ 8) }
    ensures bound { IfSome result (λ frame. frame.outputs ≤ 4294967295) }
{
    if !node.needed {
        return None;
    }
    let NodeKind::Memo { graph, .. } = &node.kind else {
        return None;
    };
    let graph = *graph as usize;
    Some(MemoFrame {
        graph,
        at,
        inputs: graphs[graph].inputs.len(),
        outputs: learned[graph].output as usize,
    })
}

/// How many words a node keeps.
fn node_kept(graphs: &[Graph], learned: &[GraphLearned], node: &Node) -> usize
    requires sound { AreGraphs graphs.now }
    requires calls { (called : ℕ) → called_graph node.now.kind ≡ Some called → called < length graphs.now }
    requires known { length learned.now ≡ length graphs.now }
    ensures words { result ≡ node_kept graphs.now learned.now node.now }
    ensures bound { result ≤ 4294967303 }
{
    match frame_of(graphs, learned, node, 0) {
        Some(frame) => frame.inputs + frame.outputs,
        None => 0,
    }
}

/// How many words the nodes of a graph keep.
fn graph_kept(graphs: &[Graph], learned: &[GraphLearned], graph: &Graph) -> usize
    requires sound { AreGraphs graphs.now }
    requires this { IsGraph graph.now }
    requires calls { CallsEarlier (length graphs.now) graph.now }
    requires known { length learned.now ≡ length graphs.now }
    ensures words { result ≡ nodes_kept graphs.now learned.now graph.now.nodes }
    ensures bound { result ≤ 4096 * 4294967303 }
{
    let mut kept = 0;
    for node in graph.nodes.as_slice() {
        let own = node_kept(graphs, learned, node);
        kept += own;
    }
    kept
}

/// How many words a worker keeps from one point to the next.
pub(crate) fn kept_words(graphs: &[Graph], learned: &[GraphLearned]) -> usize
    requires sound { AreGraphs graphs.now }
    requires earlier { CallEarlier graphs.now }
    requires few { length graphs.now ≤ 64 }
    requires known { length learned.now ≡ length graphs.now }
    ensures words { result ≡ kept_words graphs.now learned.now }
    ensures bound { result ≤ 1152921504606846976 }
{
    let mut kept = 0;
    for graph in graphs {
        let own = graph_kept(graphs, learned, graph);
        kept += own;
    }
    kept
}

/// Adds a node to the memos, which keep so many words, if it is one. Answers how many more are then kept.
fn add_frame(
    graphs: &[Graph],
    learned: &[GraphLearned],
    node: &Node,
    at: usize,
    frames: &mut Vec<MemoFrame>,
) -> Result<usize, NoMemory>
    requires sound { AreGraphs graphs.now }
    requires calls { (called : ℕ) → called_graph node.now.kind ≡ Some called → called < length graphs.now }
    requires known { length learned.now ≡ length graphs.now }
    requires before { AreFrames graphs.now learned.now frames.old.items at }
    ensures frames { IfOk result (λ own. AreFrames graphs.now learned.now frames.new.items (at + own)) }
    ensures words { IfOk result (λ own. own ≡ node_kept graphs.now learned.now node.now) }
    ensures bound { IfOk result (λ own. own ≤ 4294967303) }
{
    let Some(frame) = frame_of(graphs, learned, node, at) else {
        return Ok(0);
    };
    frames.push(frame)?;
    Ok(frame.inputs + frame.outputs)
}

/// Adds the memos of a graph to those of the graphs before it, which keep so many words. Answers for each node its number
/// among the memos, if it is one, and how many words are then kept.
fn add_frames(
    alloc: Global,
    graphs: &[Graph],
    learned: &[GraphLearned],
    graph: &Graph,
    frames: &mut Vec<MemoFrame>,
    at: usize,
) -> Result<(Items<usize>, usize), NoMemory>
    requires sound { AreGraphs graphs.now }
    requires this { IsGraph graph.now }
    requires calls { CallsEarlier (length graphs.now) graph.now }
    requires known { length learned.now ≡ length graphs.now }
    requires low { at ≤ 1152921504606846976 }
    requires before { AreFrames graphs.now learned.now frames.old.items at }
    ensures frames { IfOk result (λ made. AreFrames graphs.now learned.now frames.new.items made.1) }
    ensures words { IfOk result (λ made. made.1 ≡ at + nodes_kept graphs.now learned.now graph.now.nodes) }
    ensures bound { IfOk result (λ made. made.1 ≤ at + 4096 * 4294967303) }
{
    let mut slots = Items::new(alloc);
    let mut end = at;
    for node in graph.nodes.as_slice() {
        slots.push(frames.len())?;
        let own = add_frame(graphs, learned, node, end, frames)?;
        end += own;
    }
    Ok((slots, end))
}

/// The memos of a file's graphs in the order of the file, one behind the other, and for each node of each graph its number
/// among them, if it is one.
pub(crate) fn frames_of(
    alloc: Global,
    graphs: &[Graph],
    learned: &[GraphLearned],
) -> Result<(Items<Items<usize>>, Vec<MemoFrame>), NoMemory>
    requires sound { AreGraphs graphs.now }
    requires earlier { CallEarlier graphs.now }
    requires few { length graphs.now ≤ 64 }
    requires known { length learned.now ≡ length graphs.now }
    ensures { IfOk result (λ made. AreFrames graphs.now learned.now made.1.items (kept_words graphs.now learned.now)) }
{
    let mut slots = Items::new(alloc);
    let mut frames = Vec::new(alloc);
    let mut end = 0;
    for graph in graphs {
        let (own, after) = add_frames(alloc, graphs, learned, graph, &mut frames, end)?;
        slots.push(own)?;
        end = after;
    }
    Ok((slots, frames))
}
