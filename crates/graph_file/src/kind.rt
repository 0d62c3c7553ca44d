//! What a node computes, from what its line says.
ghost use Rattle.std.specs.Prelude.{◌≡◌, ◌≤◌, length, map, take, IfOk};
ghost use Rattle.std.specs.List.{range_with_len};
ghost use Rattle.graph_file.specs.Line.{all_of};
ghost use Rattle.graph_file.specs.Says as spec;

use crate::depth::graph_named;
use crate::graph::{NodeKind, Source};
use crate::line::{Expansion, Statement, Want};
use crate::table::Table;
use ratfun_text::{Expr, Name};
use sqlite_items::Items;
use std::alloc::{AllocError, Global};

/// The list with this name.
pub fn source_named(nodes: &Table, list: &Name) -> Option<Source>
    requires { length nodes.now ≤ 4096 }
    ensures { result ≡ spec.source_named nodes.now list.now }
{
    if list.bytes() == b"input".as_slice() {
        return Some(Source::Input);
    }
    let number = nodes.number(list)?;
    Some(Source::Node(number as u32))
}

fn sources_named(
    alloc: Global,
    nodes: &Table,
    lists: &[Name],
) -> Result<Option<Items<Source>>, AllocError>
    requires { length nodes.now ≤ 4096 }
    ensures { IfOk result (λ sources. sources ≡ all_of (map (spec.source_named nodes.now) lists.now)) }
{
    let mut sources = Items::new(alloc);
    for list in lists {
        let Some(source) = source_named(nodes, list) else {
            return Ok(None);
        };
        sources.push(source)?;
    }
    Ok(Some(sources))
}

fn part_named(nodes: &Table, part: &(Name, u32)) -> Option<(Source, u32)>
    requires { length nodes.now ≤ 4096 }
    ensures { result ≡ spec.part_named nodes.now part.now }
{
    let (list, position) = part;
    let source = source_named(nodes, list)?;
    Some((source, *position))
}

fn parts_named(
    alloc: Global,
    nodes: &Table,
    parts: &[(Name, u32)],
) -> Result<Option<Items<(Source, u32)>>, AllocError>
    requires { length nodes.now ≤ 4096 }
    ensures { IfOk result (λ wanted. wanted ≡ all_of (map (spec.part_named nodes.now) parts.now)) }
{
    let mut wanted = Items::new(alloc);
    for part in parts {
        let Some(part) = part_named(nodes, part) else {
            return Ok(None);
        };
        wanted.push(part)?;
    }
    Ok(Some(wanted))
}

fn take_of(
    alloc: Global,
    nodes: &Table,
    parts: &[(Name, u32)],
) -> Result<Option<NodeKind>, AllocError>
    requires { length nodes.now ≤ 4096 }
    ensures { IfOk result (λ kind. kind ≡ spec.take_of nodes.now parts.now) }
{
    let Some(parts) = parts_named(alloc, nodes, parts)? else {
        return Ok(None);
    };
    Ok(Some(NodeKind::Take { parts }))
}

fn chain_of(alloc: Global, nodes: &Table, lists: &[Name]) -> Result<Option<NodeKind>, AllocError>
    requires { length nodes.now ≤ 4096 }
    ensures { IfOk result (λ kind. kind ≡ spec.chain_of nodes.now lists.now) }
{
    let Some(parts) = sources_named(alloc, nodes, lists)? else {
        return Ok(None);
    };
    Ok(Some(NodeKind::Chain { parts }))
}

fn sum_of(alloc: Global, nodes: &Table, lists: &[Name]) -> Result<Option<NodeKind>, AllocError>
    requires { length nodes.now ≤ 4096 }
    ensures { IfOk result (λ kind. kind ≡ spec.sum_of nodes.now lists.now) }
{
    let Some(parts) = sources_named(alloc, nodes, lists)? else {
        return Ok(None);
    };
    Ok(Some(NodeKind::Sum { parts }))
}

fn product_of(alloc: Global, nodes: &Table, lists: &[Name]) -> Result<Option<NodeKind>, AllocError>
    requires { length nodes.now ≤ 4096 }
    ensures { IfOk result (λ kind. kind ≡ spec.product_of nodes.now lists.now) }
{
    let Some(parts) = sources_named(alloc, nodes, lists)? else {
        return Ok(None);
    };
    Ok(Some(NodeKind::Product { parts }))
}

fn eval_of(nodes: &Table, from: &Name, exprs: Items<Expr>) -> Option<NodeKind>
    requires { length nodes.now ≤ 4096 }
    ensures { result ≡ spec.eval_of nodes.now from.now exprs }
{
    let Some(from) = source_named(nodes, from) else {
        return None;
    };
    Some(NodeKind::Eval { from, exprs })
}

fn slice_of(nodes: &Table, from: &Name, first: u32, last: u32) -> Option<NodeKind>
    requires { length nodes.now ≤ 4096 }
    ensures { result ≡ spec.slice_of nodes.now from.now first last }
{
    let from = source_named(nodes, from)?;
    Some(NodeKind::Slice { from, first, last })
}

fn matmul_of(
    nodes: &Table,
    left: &Name,
    right: &Name,
    rows: u32,
    mid: u32,
    cols: u32,
) -> Option<NodeKind>
    requires { length nodes.now ≤ 4096 }
    ensures { result ≡ spec.matmul_of nodes.now left.now right.now rows mid cols }
{
    let left = source_named(nodes, left)?;
    let right = source_named(nodes, right)?;
    Some(NodeKind::Matmul {
        left,
        right,
        rows,
        mid,
        cols,
    })
}

/// The numbers of a system's unknowns, in their order.
fn every_unknown(alloc: Global, unknowns: u32) -> Result<Items<u32>, AllocError>
    ensures { IfOk result (λ numbers. numbers ≡ range_with_len 1 unknowns) }
{
    let mut numbers = Items::new(alloc);
    for place in 0..unknowns {
        numbers.push(place + 1)?;
    }
    Ok(numbers)
}

/// The numbers of the unknowns that are wanted.
fn wanted(alloc: Global, unknowns: u32, want: &Want) -> Result<Items<u32>, AllocError>
    ensures { IfOk result (λ numbers. numbers ≡ spec.wanted unknowns want.now) }
{
    match want {
        Want::Every => every_unknown(alloc, unknowns),
        Want::Numbers(numbers) => Items::from_slice(alloc, numbers.as_slice()),
    }
}

fn dense_of(
    alloc: Global,
    nodes: &Table,
    from: &Name,
    rows: u32,
    unknowns: u32,
    want: &Want,
) -> Result<Option<NodeKind>, AllocError>
    requires { length nodes.now ≤ 4096 }
    ensures { IfOk result (λ kind. kind ≡ spec.dense_of nodes.now from.now rows unknowns want.now) }
{
    let Some(from) = source_named(nodes, from) else {
        return Ok(None);
    };
    let want = wanted(alloc, unknowns, want)?;
    Ok(Some(NodeKind::Dense {
        from,
        rows,
        unknowns,
        want,
    }))
}

fn sparse_of(
    alloc: Global,
    nodes: &Table,
    from: &Name,
    unknowns: u32,
    want: &Want,
) -> Result<Option<NodeKind>, AllocError>
    requires { length nodes.now ≤ 4096 }
    ensures { IfOk result (λ kind. kind ≡ spec.sparse_of nodes.now from.now unknowns want.now) }
{
    let Some(from) = source_named(nodes, from) else {
        return Ok(None);
    };
    let want = wanted(alloc, unknowns, want)?;
    Ok(Some(NodeKind::Sparse {
        from,
        unknowns,
        want,
        rows: Items::new(alloc),
    }))
}

/// The number of the graph with this name among the first of the graphs, and the lists.
fn call_parts(
    alloc: Global,
    graphs: &Table,
    count: usize,
    nodes: &Table,
    graph: &Name,
    lists: &[Name],
) -> Result<Option<(u32, Items<Source>)>, AllocError>
    requires graphs { length graphs.now ≤ 64 }
    requires nodes { length nodes.now ≤ 4096 }
    ensures { IfOk result (λ call. call ≡ spec.call_parts (take count graphs.now) nodes.now graph.now lists.now) }
{
    let Some(number) = graph_named(graphs, count, graph) else {
        return Ok(None);
    };
    let Some(parts) = sources_named(alloc, nodes, lists)? else {
        return Ok(None);
    };
    Ok(Some((number, parts)))
}

fn call_of(
    alloc: Global,
    graphs: &Table,
    count: usize,
    nodes: &Table,
    graph: &Name,
    lists: &[Name],
) -> Result<Option<NodeKind>, AllocError>
    requires graphs { length graphs.now ≤ 64 }
    requires nodes { length nodes.now ≤ 4096 }
    ensures { IfOk result (λ kind. kind ≡ spec.call_of (take count graphs.now) nodes.now graph.now lists.now) }
{
    let Some((graph, parts)) = call_parts(alloc, graphs, count, nodes, graph, lists)? else {
        return Ok(None);
    };
    Ok(Some(NodeKind::Call { graph, parts }))
}

fn memo_of(
    alloc: Global,
    graphs: &Table,
    count: usize,
    nodes: &Table,
    graph: &Name,
    lists: &[Name],
) -> Result<Option<NodeKind>, AllocError>
    requires graphs { length graphs.now ≤ 64 }
    requires nodes { length nodes.now ≤ 4096 }
    ensures { IfOk result (λ kind. kind ≡ spec.memo_of (take count graphs.now) nodes.now graph.now lists.now) }
{
    let Some((graph, parts)) = call_parts(alloc, graphs, count, nodes, graph, lists)? else {
        return Ok(None);
    };
    Ok(Some(NodeKind::Memo { graph, parts }))
}

fn map_of(
    alloc: Global,
    graphs: &Table,
    count: usize,
    nodes: &Table,
    graph: &Name,
    lists: &[Name],
) -> Result<Option<NodeKind>, AllocError>
    requires graphs { length graphs.now ≤ 64 }
    requires nodes { length nodes.now ≤ 4096 }
    ensures { IfOk result (λ kind. kind ≡ spec.map_of (take count graphs.now) nodes.now graph.now lists.now) }
{
    let Some((graph, parts)) = call_parts(alloc, graphs, count, nodes, graph, lists)? else {
        return Ok(None);
    };
    Ok(Some(NodeKind::Map { graph, parts }))
}

fn laurent_of(
    alloc: Global,
    graphs: &Table,
    count: usize,
    nodes: &Table,
    graph: &Name,
    expansion: Expansion,
    lists: &[Name],
) -> Result<Option<NodeKind>, AllocError>
    requires graphs { length graphs.now ≤ 64 }
    requires nodes { length nodes.now ≤ 4096 }
    ensures { IfOk result (λ kind. kind ≡ spec.laurent_of (take count graphs.now) nodes.now graph.now expansion lists.now) }
{
    let Some((graph, parts)) = call_parts(alloc, graphs, count, nodes, graph, lists)? else {
        return Ok(None);
    };
    Ok(Some(NodeKind::Laurent {
        graph,
        lo: expansion.lo,
        hi: expansion.hi,
        num: expansion.num,
        den: expansion.den,
        parts,
    }))
}

/// What a node computes, where the earlier graphs, which are the first `count` of these, and the earlier nodes have these
/// names and its expressions these trees.
pub fn kind_of(
    alloc: Global,
    graphs: &Table,
    count: usize,
    nodes: &Table,
    exprs: Items<Expr>,
    statement: &Statement,
) -> Result<Option<NodeKind>, AllocError>
    requires graphs { length graphs.now ≤ 64 }
    requires nodes { length nodes.now ≤ 4096 }
    ensures { IfOk result (λ kind. kind ≡ spec.kind_of (take count graphs.now) nodes.now exprs statement.now) }
{
    match statement {
        Statement::Eval { from, texts: _ } => Ok(eval_of(nodes, from, exprs)),
        Statement::Take { parts } => take_of(alloc, nodes, parts.as_slice()),
        Statement::Slice { from, first, last } => Ok(slice_of(nodes, from, *first, *last)),
        Statement::Chain { parts } => chain_of(alloc, nodes, parts.as_slice()),
        Statement::Sum { parts } => sum_of(alloc, nodes, parts.as_slice()),
        Statement::Product { parts } => product_of(alloc, nodes, parts.as_slice()),
        Statement::Matmul {
            left,
            right,
            rows,
            mid,
            cols,
        } => Ok(matmul_of(nodes, left, right, *rows, *mid, *cols)),
        Statement::Dense {
            from,
            rows,
            unknowns,
            want,
        } => dense_of(alloc, nodes, from, *rows, *unknowns, want),
        Statement::Sparse {
            from,
            unknowns,
            want,
        } => sparse_of(alloc, nodes, from, *unknowns, want),
        Statement::Call { graph, parts } => call_of(
            alloc,
            graphs,
            count,
            nodes,
            graph,
            parts.as_slice(),
        ),
        Statement::Memo { graph, parts } => memo_of(
            alloc,
            graphs,
            count,
            nodes,
            graph,
            parts.as_slice(),
        ),
        Statement::Map { graph, parts } => map_of(
            alloc,
            graphs,
            count,
            nodes,
            graph,
            parts.as_slice(),
        ),
        Statement::Laurent {
            graph,
            expansion,
            parts,
        } => laurent_of(
            alloc,
            graphs,
            count,
            nodes,
            graph,
            *expansion,
            parts.as_slice(),
        ),
    }
}
