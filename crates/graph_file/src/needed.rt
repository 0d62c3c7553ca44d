//! The nodes on which a graph's output rests.
ghost use Rattle.std.specs.Prelude.{◌≡◌, ◌<◌, ◌≤◌, ◌+◌, ℕ, Some, false, length, map, replicate, slice_get, IfOk};
ghost use Rattle.graph_file.specs.Needed as spec;
ghost use Rattle.graph_file.specs.Needed.{kinds_of};
ghost use Rattle.graph_file.specs.Marks.{AreMarkedFrom, MarksFirst, ReadEarlier, marked};
ghost use Rattle.graph_file.specs.Says.{names_of};
ghost use Rattle.graph_file.specs.declared.graph.Node.{Node as NodeOf};
ghost use Rattle.graph_file.specs.declared.graph.Source.TheVariants as source;

use crate::graph::{Node, NodeKind, Source};
use sqlite_items::Items;
use std::alloc::{AllocError, Global};

fn one_source(alloc: Global, from: Source) -> Result<Items<Source>, AllocError>
    ensures { IfOk result (λ sources. sources ≡ spec.one_source from) }
{
    let mut sources = Items::new(alloc);
    sources.push(from)?;
    Ok(sources)
}

fn two_sources(alloc: Global, left: Source, right: Source) -> Result<Items<Source>, AllocError>
    ensures { IfOk result (λ sources. sources ≡ spec.two_sources left right) }
{
    let mut sources = Items::new(alloc);
    sources.push(left)?;
    sources.push(right)?;
    Ok(sources)
}

fn part_sources(alloc: Global, parts: &[(Source, u32)]) -> Result<Items<Source>, AllocError>
    ensures { IfOk result (λ sources. sources ≡ map (λ part. part.0) parts.now) }
{
    let mut sources = Items::new(alloc);
    for part in parts {
        sources.push(part.0)?;
    }
    Ok(sources)
}

/// The lists that a node of this kind reads, in the order of its line.
pub fn sources_of(alloc: Global, kind: &NodeKind) -> Result<Items<Source>, AllocError>
    ensures { IfOk result (λ sources. sources ≡ spec.sources_of kind.now) }
{
    match kind {
        NodeKind::Eval { from, exprs: _ } => one_source(alloc, *from),
        NodeKind::Take { parts } => part_sources(alloc, parts.as_slice()),
        NodeKind::Slice {
            from,
            first: _,
            last: _,
        } => one_source(alloc, *from),
        NodeKind::Chain { parts } => Items::from_slice(alloc, parts.as_slice()),
        NodeKind::Sum { parts } => Items::from_slice(alloc, parts.as_slice()),
        NodeKind::Product { parts } => Items::from_slice(alloc, parts.as_slice()),
        NodeKind::Matmul {
            left,
            right,
            rows: _,
            mid: _,
            cols: _,
        } => two_sources(alloc, *left, *right),
        NodeKind::Dense { from, .. } => one_source(alloc, *from),
        NodeKind::Sparse { from, .. } => one_source(alloc, *from),
        NodeKind::Call { graph: _, parts } => Items::from_slice(alloc, parts.as_slice()),
        NodeKind::Memo { graph: _, parts } => Items::from_slice(alloc, parts.as_slice()),
        NodeKind::Map { graph: _, parts } => Items::from_slice(alloc, parts.as_slice()),
        NodeKind::Laurent { parts, .. } => Items::from_slice(alloc, parts.as_slice()),
    }
}

/// The flags with that of the list's node set.
fn with_mark(flags: Vec<bool>, from: Source) -> Vec<bool>
    requires { (k : ℕ) → from ≡ source.Node k → k < length flags.items }
    ensures { result.items ≡ marked from flags.items }
{
    let mut flags = flags;
    if let Source::Node(number) = from {
        flags[number as usize] = true;
    }
    flags
}

/// The flags with those of the lists' nodes set.
fn with_marks(flags: Vec<bool>, sources: &[Source]) -> Vec<bool>
    requires { (i k : ℕ) → slice_get sources.now i ≡ Some (source.Node k) → k < length flags.items }
    ensures { MarksFirst sources.now (length sources.now) flags.items result.items }
{
    let mut flags = flags;
    for from in sources {
        flags = with_mark(flags, *from);
    }
    flags
}

/// The flags with those of what the node at this place reads, where its own is set.
fn with_reads(
    alloc: Global,
    flags: Vec<bool>,
    nodes: &[Node],
    output: Source,
    place: usize,
) -> Result<Vec<bool>, AllocError>
    requires within { place < length nodes.now }
    requires earlier { ReadEarlier (kinds_of nodes.now) }
    requires flags { AreMarkedFrom (kinds_of nodes.now) output (place + 1) flags.items }
    ensures { IfOk result (λ flags. AreMarkedFrom (kinds_of nodes.now) output place flags.items) }
{
    if !flags[place] {
        return Ok(flags);
    }
    let sources = sources_of(alloc, &nodes[place].kind)?;
    let flags = with_marks(flags, sources.as_slice());
    Ok(flags)
}

fn no_marks(alloc: Global, count: usize) -> Result<Vec<bool>, AllocError>
    ensures { IfOk result (λ flags. flags.items ≡ replicate count false) }
{
    let mut flags = Vec::new(alloc);
    for _place in 0..count {
        flags.push(false)?;
    }
    Ok(flags)
}

/// For each node whether the output rests on it.
pub fn marks(alloc: Global, nodes: &[Node], output: Source) -> Result<Vec<bool>, AllocError>
    requires earlier { ReadEarlier (kinds_of nodes.now) }
    requires within { (k : ℕ) → output ≡ source.Node k → k < length nodes.now }
    ensures { IfOk result (λ flags. AreMarkedFrom (kinds_of nodes.now) output 0 flags.items) }
{
    let flags = no_marks(alloc, nodes.len())?;
    let mut flags = with_mark(flags, output);
    let mut place = nodes.len();
    while place > 0 {
        place -= 1;
        flags = with_reads(alloc, flags, nodes, output, place)?;
    }
    Ok(flags)
}

/// The nodes, each marked as its flag says.
pub fn marked_nodes(nodes: Vec<Node>, flags: &[bool]) -> Vec<Node>
    requires { length flags.now ≡ length nodes.items }
    ensures names { names_of result.items ≡ names_of nodes.items }
    ensures kinds { kinds_of result.items ≡ kinds_of nodes.items }
    ensures marks { (k : ℕ) (node : NodeOf) → slice_get result.items k ≡ Some node → slice_get flags.now k ≡ Some node.needed }
{
    let mut nodes = nodes;
    for (place, flag) in flags.iter().enumerate() {
        nodes[place].needed = *flag;
    }
    nodes
}
