//! Why a file, or the graphs that it says, are refused.

ghost use Rattle.std.specs.Prelude.{◌≡◌, ◌++◌, OnOk};
ghost use Rattle.flow_program.specs.Refusals as spec;

use crate::printed::push_number;
use graph_eval::{Cause, Singular};
use graph_file::{FileKind, Graph, Source};
use ratfun_text::ExprKind;
use std::alloc::AllocError;

/// What is wrong with an expression.
fn expression_words(kind: ExprKind) -> &'static [u8]
    ensures { result.now ≡ spec.expression_words kind }
{
    match kind {
        ExprKind::Unexpected => b"unexpected",
        ExprKind::WideNumber => b"wide number",
        ExprKind::UnknownName => b"unknown name",
        ExprKind::TooDeep => b"too deep",
        ExprKind::NoMemory => b"no memory",
    }
}

/// Writes what is wrong with a line behind the text.
fn push_line_words(text: &mut Vec<u8>, kind: FileKind) -> Result<(), AllocError>
    ensures { OnOk result (text.new.items ≡ text.old.items ++ spec.line_words kind) }
{
    let words: &[u8] = match kind {
        FileKind::Syntax => b"syntax",
        FileKind::Version => b"version",
        FileKind::Repeated => b"repeated",
        FileKind::UnknownGraph => b"unknown graph",
        FileKind::UnknownNode => b"unknown node",
        FileKind::Residue => b"residue",
        FileKind::Limit => b"limit",
        FileKind::Missing => b"missing",
        FileKind::NoMemory => b"no memory",
        FileKind::Expr { expression, error } => {
            text.extend_from_slice(b"expression ")?;
            push_number(text, u64::from(expression))?;
            text.extend_from_slice(b" place ")?;
            push_number(text, error.place as u64)?;
            text.extend_from_slice(b": ")?;
            expression_words(error.kind)
        }
    };
    text.extend_from_slice(words)?;
    Ok(())
}

/// Writes the first bad line of a file, counted from 1, and what is wrong with it behind the text.
pub(crate) fn push_file_text(
    text: &mut Vec<u8>,
    line: usize,
    kind: FileKind,
) -> Result<(), AllocError>
    ensures { OnOk result (text.new.items ≡ text.old.items ++ spec.file_text line kind) }
{
    text.extend_from_slice(b"flow: line ")?;
    push_number(text, line as u64)?;
    text.extend_from_slice(b": ")?;
    push_line_words(text, kind)?;
    text.push(b'\n')?;
    Ok(())
}

/// Writes the name that a graph has for a list behind the text.
fn push_source(text: &mut Vec<u8>, graph: &Graph, list: Source) -> Result<(), AllocError>
    ensures { OnOk result (text.new.items ≡ text.old.items ++ spec.source_name graph.now list) }
{
    match list {
        Source::Input => text.extend_from_slice(b"input")?,
        Source::Node(place) => {
            if let Some(node) = graph.nodes.as_slice().get(place as usize) {
                text.extend_from_slice(node.name.bytes())?;
            }
        }
    }
    Ok(())
}

/// Writes which graph a node belongs to behind the text.
fn push_graph(text: &mut Vec<u8>, graph: &Graph) -> Result<(), AllocError>
    ensures { OnOk result (text.new.items ≡ text.old.items ++ spec.graph_words graph.now) }
{
    text.extend_from_slice(b"flow: graph ")?;
    text.extend_from_slice(graph.name.bytes())?;
    text.extend_from_slice(b" node ")?;
    Ok(())
}

/// Writes the list of a graph whose length is refused behind the text.
pub(crate) fn push_length_text(
    text: &mut Vec<u8>,
    graph: &Graph,
    list: Source,
) -> Result<(), AllocError>
    ensures { OnOk result (text.new.items ≡ text.old.items ++ spec.length_text graph.now list) }
{
    push_graph(text, graph)?;
    push_source(text, graph, list)?;
    text.extend_from_slice(b" length\n")?;
    Ok(())
}

/// The list that is named where this node of a graph is told: the input, where the output is the input.
pub(crate) fn told_list(output: Source, node: u32) -> Source
    ensures { result ≡ spec.told_list output node }
{
    match output {
        Source::Input => Source::Input,
        Source::Node(_) => Source::Node(node),
    }
}

/// The word that a line has for a cause.
fn cause_word(cause: Cause) -> &'static [u8]
    ensures { result.now ≡ spec.cause_word cause }
{
    match cause {
        Cause::Division => b"division",
        Cause::System => b"system",
        Cause::Degree => b"degree",
        Cause::Pole => b"pole",
    }
}

/// Writes the node of a graph that has no value and the cause behind the text.
pub(crate) fn push_singular(
    text: &mut Vec<u8>,
    graph: &Graph,
    singular: Singular,
) -> Result<(), AllocError>
    ensures { OnOk result (text.new.items ≡ text.old.items ++ spec.singular_node (spec.node_names graph.now) singular.node singular.cause) }
{
    if let Some(node) = graph.nodes.as_slice().get(singular.node as usize) {
        text.extend_from_slice(node.name.bytes())?;
    }
    text.push(b' ')?;
    text.extend_from_slice(cause_word(singular.cause))?;
    Ok(())
}

/// Writes the line of a learning point, at which this node has no value, behind the text.
fn push_point_line(
    text: &mut Vec<u8>,
    graph: &Graph,
    q: u64,
    singular: Singular,
) -> Result<(), AllocError>
    ensures { OnOk result (text.new.items ≡ text.old.items ++ spec.point_line (spec.node_names graph.now) q singular) }
{
    text.extend_from_slice(b"point ")?;
    push_number(text, q)?;
    text.push(b' ')?;
    push_singular(text, graph, singular)?;
    text.push(b'\n')?;
    Ok(())
}

/// Writes the lines of the learning points of a graph, at which these nodes have no value, behind the text.
fn push_point_lines(text: &mut Vec<u8>, graph: &Graph, first: &[Singular]) -> Result<(), AllocError>
    ensures { OnOk result (text.new.items ≡ text.old.items ++ spec.point_lines (spec.node_names graph.now) 0 first.now) }
{
    for (q, singular) in first.iter().enumerate() {
        push_point_line(text, graph, q as u64, *singular)?;
    }
    Ok(())
}

/// Writes that a graph has no learning point, since these nodes have no value there, behind the text.
pub(crate) fn push_no_point_text(
    text: &mut Vec<u8>,
    graph: &Graph,
    first: &[Singular],
) -> Result<(), AllocError>
    ensures { OnOk result (text.new.items ≡ text.old.items ++ spec.no_point_text graph.now first.now) }
{
    text.extend_from_slice(b"flow: graph ")?;
    text.extend_from_slice(graph.name.bytes())?;
    text.extend_from_slice(b" has no learning point\n")?;
    push_point_lines(text, graph, first)?;
    Ok(())
}
