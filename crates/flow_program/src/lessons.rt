//! The lines of graphs that were learned.

ghost use Rattle.std.specs.Prelude.{◌≡◌, ◌++◌, length, IfOk, OnOk};
ghost use Rattle.graph_eval.specs.Learned.{Fits};
ghost use Rattle.flow_program.specs.Lessons as spec;
ghost use Rattle.flow_program.specs.Lessons.{further, graph_line, graph_lines, node_line, node_lines};

use crate::printed::push_number;
use graph_eval::{GraphLearned, Learned, is_solver};
use graph_file::{Graph, Job, Node};
use sqlite_items::Items;
use std::alloc::{AllocError, Global};

/// Writes the number of a learning point, or that there is none, behind the text.
fn push_point(text: &mut Vec<u8>, point: Option<u32>) -> Result<(), AllocError>
    ensures { OnOk result (text.new.items ≡ text.old.items ++ spec.point_words point) }
{
    match point {
        Some(q) => push_number(text, u64::from(q))?,
        None => text.extend_from_slice(b"none")?,
    }
    Ok(())
}

/// Writes the line of a graph behind the text: where it was learned, and the length of its output.
fn push_graph(text: &mut Vec<u8>, graph: &Graph, entry: &GraphLearned) -> Result<(), AllocError>
    ensures { OnOk result (text.new.items ≡ text.old.items ++ graph_line graph.now entry.now) }
{
    text.extend_from_slice(b"graph ")?;
    text.extend_from_slice(graph.name.bytes())?;
    text.extend_from_slice(b" point ")?;
    push_point(text, entry.point)?;
    text.extend_from_slice(b" length ")?;
    push_number(text, u64::from(entry.output))?;
    text.push(b'\n')?;
    Ok(())
}

/// Writes unknowns behind the text, with a space before each.
fn push_unknowns(text: &mut Vec<u8>, unknowns: &[u32]) -> Result<(), AllocError>
    ensures { OnOk result (text.new.items ≡ text.old.items ++ further unknowns.now) }
{
    for unknown in unknowns {
        text.push(b' ')?;
        push_number(text, u64::from(*unknown))?;
    }
    Ok(())
}

/// Writes the line of a node that solves a system behind the text, and nothing for another node.
fn push_node(text: &mut Vec<u8>, node: &Node, set: &[u32]) -> Result<(), AllocError>
    ensures { OnOk result (text.new.items ≡ text.old.items ++ node_line node.now set.now) }
{
    if !is_solver(node) {
        return Ok(());
    }
    text.extend_from_slice(b"solver ")?;
    text.extend_from_slice(node.name.bytes())?;
    text.extend_from_slice(b" independent")?;
    push_unknowns(text, set)?;
    text.push(b'\n')?;
    Ok(())
}

/// Writes the lines of a graph's nodes, each with its set, behind the text.
fn push_nodes(text: &mut Vec<u8>, nodes: &[Node], sets: &[Items<u32>]) -> Result<(), AllocError>
    requires { length sets.now ≡ length nodes.now }
    ensures { OnOk result (text.new.items ≡ text.old.items ++ node_lines nodes.now sets.now) }
{
    for (place, node) in nodes.iter().enumerate() {
        push_node(text, node, sets[place].as_slice())?;
    }
    Ok(())
}

/// Writes what was learned of a graph behind the text.
fn push_lesson(text: &mut Vec<u8>, graph: &Graph, entry: &GraphLearned) -> Result<(), AllocError>
    requires { length entry.now.sets ≡ length graph.now.nodes }
    ensures { OnOk result (text.new.items ≡ text.old.items ++ graph_lines graph.now entry.now) }
{
    push_graph(text, graph, entry)?;
    push_nodes(text, graph.nodes.as_slice(), entry.sets.as_slice())
}

/// The lines of what was learned of a job's graphs.
pub(crate) fn lessons(alloc: Global, job: &Job, learned: &Learned) -> Result<Vec<u8>, AllocError>
    requires { Fits job.now.graphs learned.now }
    ensures { IfOk result (λ text. text.items ≡ spec.lessons job.now.graphs learned.now) }
{
    let mut text = Vec::new(alloc);
    for (place, graph) in job.graphs.as_slice().iter().enumerate() {
        push_lesson(&mut text, graph, learned.graph(place as u32))?;
    }
    Ok(text)
}
