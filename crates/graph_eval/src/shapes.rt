//! What the length of a node's list depends on.

ghost use Rattle.std.specs.Prelude.{◌≡◌, ◌≤◌, IfOk, length, map};
ghost use Rattle.elim_core.specs.Sparse.{entries_of};
ghost use Rattle.ratfun_text.specs.Value.{greatest};
ghost use Rattle.graph_eval.specs.Learned.{greatest_among, shape_of, size_at, sizes_of};
ghost use Rattle.graph_eval.specs.Systems.{HasFewEntries, HasWindow};

use crate::learned::GraphLearned;
use basic_nodes::NodeShape;
use elim_core::SparseRow;
use graph_file::{Graph, NodeKind, Source};
use ratfun_text::{Expr, NoMemory};
use sqlite_items::Items;
use std::alloc::Global;

/// How many inputs a graph has, and how many entries its output has.
#[derive(Clone, Copy, Debug)]
pub(crate) struct GraphSize {
    pub(crate) inputs: usize,
    pub(crate) outputs: usize,
}

/// The sizes of the first graphs of a file, of which this was learned.
pub(crate) fn sizes_of(
    alloc: Global,
    graphs: &[Graph],
    learned: &[GraphLearned],
) -> Result<Vec<GraphSize>, NoMemory>
    requires { length learned.now ≤ length graphs.now }
    ensures { IfOk result (λ sizes. sizes.items ≡ sizes_of graphs.now learned.now) }
{
    let mut sizes = Vec::new(alloc);
    for (number, entry) in learned.iter().enumerate() {
        sizes.push(GraphSize {
            inputs: graphs[number].inputs.len(),
            outputs: entry.output as usize,
        })?;
    }
    Ok(sizes)
}

/// The size of the graph with this number among these.
fn size_at(sizes: &[GraphSize], graph: u32) -> GraphSize
    ensures { result ≡ size_at sizes.now graph }
{
    let graph = graph as usize;
    if graph >= sizes.len() {
        return GraphSize {
            inputs: 0,
            outputs: 0,
        };
    }
    sizes[graph]
}

/// The greatest position that an expression among these uses, 0 where none uses any.
fn greatest_among(exprs: &[Expr]) -> u32
    ensures { result ≡ greatest_among exprs.now }
{
    let mut greatest = 0;
    for expr in exprs {
        greatest = expr.greatest().max(greatest);
    }
    greatest
}

/// The positions of a node that takes entries.
fn positions_of(alloc: Global, parts: &[(Source, u32)]) -> Result<Vec<usize>, NoMemory>
    ensures { IfOk result (λ positions. positions.items ≡ map (λ part. part.1) parts.now) }
{
    parts
        .iter()
        .map(|(_, position)| *position as usize)
        .collect(alloc)
}

/// How many values sparse rows have together.
pub(crate) fn entries_of(rows: &[SparseRow]) -> usize
    requires { entries_of rows.now ≤ 65536 }
    ensures { result ≡ entries_of rows.now }
{
    let mut count = 0;
    for row in rows {
        count += row.columns.len();
    }
    count
}

/// The kind of a node with the numbers that its length depends on, where this set was learned for it, and the graphs before
/// its own have these sizes.
pub(crate) fn shape_of(
    alloc: Global,
    kind: &NodeKind,
    set: &[u32],
    sizes: &[GraphSize],
) -> Result<NodeShape, NoMemory>
    requires few { HasFewEntries kind.now }
    requires window { HasWindow kind.now }
    ensures { IfOk result (λ shape. shape ≡ shape_of sizes.now set.now kind.now) }
{
    Ok(match kind {
        NodeKind::Eval { exprs, .. } => NodeShape::Eval {
            count: exprs.len(),
            greatest: greatest_among(exprs.as_slice()) as usize,
        },
        NodeKind::Take { parts } => NodeShape::Take {
            positions: Items::from_vec(positions_of(alloc, parts.as_slice())?),
        },
        NodeKind::Slice { first, last, .. } => NodeShape::Slice {
            first: *first as usize,
            last: *last as usize,
        },
        NodeKind::Chain { .. } => NodeShape::Chain,
        NodeKind::Sum { .. } => NodeShape::Sum,
        NodeKind::Product { .. } => NodeShape::Product,
        NodeKind::Matmul {
            rows,
            mid,
            cols,
            ..
        } => NodeShape::Matmul {
            rows: *rows as usize,
            mid: *mid as usize,
            cols: *cols as usize,
        },
        NodeKind::Dense {
            rows,
            unknowns,
            want,
            ..
        } => NodeShape::Solver {
            entries: *rows as usize * (*unknowns as usize + 1),
            wanted: want.len(),
            independent: set.len(),
        },
        NodeKind::Sparse { rows, want, .. } => NodeShape::Solver {
            entries: entries_of(rows.as_slice()),
            wanted: want.len(),
            independent: set.len(),
        },
        NodeKind::Call { graph, .. } | NodeKind::Memo { graph, .. } => {
            let size = size_at(sizes, *graph);
            NodeShape::Call {
                inputs: size.inputs,
                outputs: size.outputs,
            }
        }
        NodeKind::Map { graph, .. } => {
            let size = size_at(sizes, *graph);
            NodeShape::Map {
                inputs: size.inputs,
                outputs: size.outputs,
            }
        }
        NodeKind::Laurent { graph, lo, hi, .. } => {
            let size = size_at(sizes, *graph);
            NodeShape::Laurent {
                inputs: size.inputs,
                outputs: size.outputs,
                orders: (*hi - *lo + 1) as usize,
            }
        }
    })
}
