//! How deep calls of graphs go.
ghost use Rattle.std.specs.Prelude.{◌≡◌, ◌≤◌, ℕ, Some, length, slice_get, take, OnOk};
ghost use Rattle.graph_file.specs.Facts as spec;

use crate::line::Statement;
use crate::table::Table;
use ratfun_text::Name;
use std::alloc::AllocError;

/// The number, counted from 0, of the graph with this name among the first of these, as many as `count`.
pub fn graph_named(graphs: &Table, count: usize, graph: &Name) -> Option<u32>
    requires { length graphs.now ≤ 64 }
    ensures { result ≡ spec.graph_named (take count graphs.now) graph.now }
{
    let Some(number) = graphs.number(graph) else {
        return None;
    };
    if number >= count {
        return None;
    }
    Some(number as u32)
}

/// One more than the depth of the graph with this name.
fn depth_above(graphs: &Table, count: usize, depths: &[u32], graph: &Name) -> u32
    requires few { length graphs.now ≤ 64 }
    requires low { (k depth : ℕ) → slice_get depths.now k ≡ Some depth → depth ≤ 8 }
    ensures { result ≡ spec.depth_over (take count graphs.now) depths.now (Some graph.now) }
{
    let Some(number) = graph_named(graphs, count, graph) else {
        return 1;
    };
    let Some(depth) = depths.get(number as usize) else {
        return 1;
    };
    *depth + 1
}

/// The depth of calls to which a node brings its graph, where the graphs before it are the first `count` of these: 1, or one
/// more than that of the graph that it calls.
pub fn depth_over(graphs: &Table, count: usize, depths: &[u32], statement: &Statement) -> u32
    requires few { length graphs.now ≤ 64 }
    requires low { (k depth : ℕ) → slice_get depths.now k ≡ Some depth → depth ≤ 8 }
    ensures { result ≡ spec.depth_over (take count graphs.now) depths.now (spec.called_by statement.now) }
{
    match statement {
        Statement::Call { graph, parts: _ } => depth_above(graphs, count, depths, graph),
        Statement::Memo { graph, parts: _ } => depth_above(graphs, count, depths, graph),
        Statement::Map { graph, parts: _ } => depth_above(graphs, count, depths, graph),
        Statement::Laurent {
            graph,
            expansion: _,
            parts: _,
        } => depth_above(graphs, count, depths, graph),
        _ => 1,
    }
}

/// Raises the last of the depths to this where it is less.
pub fn raise_last(depths: &mut Vec<u32>, depth: u32) -> Result<(), AllocError>
    ensures { OnOk result (depths.new.items ≡ spec.last_raised depth depths.old.items) }
{
    let last = depths.pop();
    let Some(last) = last else {
        return Ok(());
    };
    depths.push(last.max(depth))?;
    Ok(())
}
