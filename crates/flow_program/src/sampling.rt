//! The lines of a sampling.

ghost use Rattle.std.specs.Prelude.{◌≡◌, ◌*◌, ◌<◌, ◌≤◌, ◌++◌, OnOk, IfOk, length};
ghost use Rattle.std.specs.List.{flat_map};
ghost use Rattle.prime_field.specs.Modulus.{value_of};
ghost use Rattle.prime_field.specs.Residue.{IsPrime};
ghost use Rattle.graph_eval.specs.GraphValue.{Value, SingularAt};
ghost use Rattle.graph_eval.specs.Learned.{Fits, outputs_of, sets_of};
ghost use Rattle.flow_program.specs.Refusals.{node_names};
ghost use Rattle.flow_program.specs.Sampled.{AddsRow, SamplesTo, outcome_line};
ghost use Rattle.flow_program.specs.Words.{IsCount};

use crate::printed::push_residues;
use crate::refusals::push_singular;
use graph_eval::{Learned, Singular, main_graph};
use graph_file::{Graph, Job};
use parallel_sampler::{Crew, Gate, Samples};
use prime_field::Modulus;
use std::alloc::{AllocError, Global};
use std::thread::Threads;

/// Writes the line of a point at which the graph has these values behind the text.
fn push_values(text: &mut Vec<u8>, graph: &Graph, values: &[u64]) -> Result<(), AllocError>
    ensures { OnOk result (text.new.items ≡ text.old.items ++ outcome_line (node_names graph.now) (Value values.now)) }
{
    // The line of values names no node.
    let _graph = graph;
    push_residues(text, values)?;
    text.push(b'\n')?;
    Ok(())
}

/// Writes the line of a point at which this node of the graph has no value behind the text.
fn push_without_value(
    text: &mut Vec<u8>,
    graph: &Graph,
    singular: Singular,
) -> Result<(), AllocError>
    ensures { OnOk result (text.new.items ≡ text.old.items ++ outcome_line (node_names graph.now) (SingularAt singular.node singular.cause)) }
{
    text.extend_from_slice(b"singular ")?;
    push_singular(text, graph, singular)?;
    text.push(b'\n')?;
    Ok(())
}

/// Writes the line of row `i` behind the text.
fn push_row(text: &mut Vec<u8>, graph: &Graph, rows: &Samples, i: usize) -> Result<(), AllocError>
    requires { i < length rows.now }
    ensures { OnOk result (AddsRow (node_names graph.now) rows.now i text.old.items text.new.items) }
{
    if let Some(values) = rows.values(i) {
        return push_values(text, graph, values);
    }
    let Some(singular) = rows.singular(i) else {
        unreachable!()
    };
    push_without_value(text, graph, singular)
}

/// Writes the lines of all rows behind the text.
fn push_rows(text: &mut Vec<u8>, graph: &Graph, rows: &Samples) -> Result<(), AllocError>
    ensures { OnOk result (text.new.items ≡ text.old.items ++ flat_map (outcome_line (node_names graph.now)) rows.now) }
{
    for i in 0..rows.len() {
        push_row(text, graph, rows, i)?;
    }
    Ok(())
}

/// The lines of the outcomes of the main graph at the job's points, in order, by so many workers.
pub(crate) fn sample<G: Gate, R: Threads + Sync>(
    rt: &R,
    alloc: Global,
    workers: u32,
    job: &Job,
    learned: &Learned,
    modulus: Modulus,
    gate: &G,
) -> Result<Vec<u8>, AllocError>
    requires workers { IsCount workers }
    requires fits { Fits job.now.graphs learned.now }
    requires room { length job.now.points * outputs_of learned.now ≤ 1048576 }
    ensures { IfOk result (λ text. IsPrime (value_of modulus) → SamplesTo (value_of modulus) job.now.graphs (sets_of learned.now) job.now.points text.items) }
{
    let graph = main_graph(job);
    let points = job.points.as_slice();
    let mut crew = Crew::new(alloc, job, learned, workers)?;
    let rows = parallel_sampler::sample(rt, alloc, &mut crew, job, learned, modulus, points, gate)?;
    let mut text = Vec::new(alloc);
    push_rows(&mut text, graph, &rows)?;
    Ok(text)
}
