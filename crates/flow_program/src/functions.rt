//! What is told of a main graph's outputs as functions.

ghost use Rattle.std.specs.Prelude.{◌≡◌, ◌≢◌, ◌≤◌, ◌++◌, ℕ, IfOk, OnOk, Ok, Some, None, codes, count_by, length, map, take};
ghost use Rattle.std.specs.Fmt.{decimal};
ghost use Rattle.ratfun_text.specs.Printed.{AreVariables};
ghost use Rattle.graph_file.specs.Says.{form, grid_of};
ghost use Rattle.graph_file.specs.declared.job.Need.TheVariants as need;
ghost use Rattle.ray_grid.specs.Grid.{point_count};
ghost use Rattle.learn_phase.specs.Answers.{FitsJob};
ghost use Rattle.output_result.specs.Findings.{result_of};
ghost use Rattle.output_result.specs.Methods.{report_of};
ghost use Rattle.output_result.specs.Printing.{AreShown};
ghost use Rattle.output_result.specs.Texts.{all_found, is_found, results_text};
ghost use Rattle.reconstruction.specs.Found.{AreTold, FitsFindings, findings_of, reports_in, reports_of, result_told};
ghost use Rattle.flow_program.specs.Jobs.{LearnedAnswer, TellsFindings};
ghost use Rattle.flow_program.specs.Reconstructed as spec;
ghost use Rattle.flow_program.specs.Refusals.{node_names};
ghost use Rattle.flow_program.specs.Reply.{answer_of};
ghost use Rattle.flow_program.specs.Run.{ModuliArePrime};
ghost use Rattle.flow_program.specs.Status.{IsJobStatus};
ghost use Rattle.flow_program.specs.Words.{IsCount};
ghost use Rattle.flow_program.specs.declared.task.Task.TheVariants as task;

use crate::manner::Manner;
use crate::printed::{push_number, push_numbered};
use crate::refusals::push_singular;
use crate::reply::{Reply, refusal_of};
use crate::status::Status;
use good_attempt::Gap;
use graph_eval::{Learned, Singular, main_graph};
use graph_file::{Graph, Job};
use output_result::{Finding, Methods, Told, push_line};
use parallel_sampler::{Crew, Gate};
use prime_field::Modulus;
use ratfun_text::Name;
use ray_grid::size;
use reconstruction::{Findings, reconstruct};
use std::alloc::{AllocError, Global};
use std::thread::Threads;

/// Writes the line of an attempt, whose first point without values this gap tells, behind the text.
fn push_attempt_line(
    text: &mut Vec<u8>,
    graph: &Graph,
    attempt: u64,
    gap: Gap,
) -> Result<(), AllocError>
    ensures { OnOk result (text.new.items ≡ text.old.items ++ spec.attempt_line (node_names graph.now) attempt gap) }
{
    text.extend_from_slice(b"attempt ")?;
    push_number(text, attempt)?;
    text.extend_from_slice(b" point ")?;
    push_number(text, u64::from(gap.point))?;
    text.push(b' ')?;
    push_singular(
        text,
        graph,
        Singular {
            node: gap.node,
            cause: gap.cause,
        },
    )?;
    text.push(b'\n')?;
    Ok(())
}

/// Writes the lines of the attempts, whose first gaps these are, behind the text.
fn push_attempt_lines(text: &mut Vec<u8>, graph: &Graph, gaps: &[Gap]) -> Result<(), AllocError>
    ensures { OnOk result (text.new.items ≡ text.old.items ++ spec.attempt_lines (node_names graph.now) 0 gaps.now) }
{
    for (attempt, gap) in gaps.iter().enumerate() {
        push_attempt_line(text, graph, attempt as u64, *gap)?;
    }
    Ok(())
}

/// Writes that no attempt at the modulus has a value at each of its points, with the first gap of each, behind the text.
fn push_exhausted_text(
    text: &mut Vec<u8>,
    graph: &Graph,
    modulus: Modulus,
    gaps: &[Gap],
) -> Result<(), AllocError>
    ensures { OnOk result (text.new.items ≡ text.old.items ++ spec.exhausted_text (node_names graph.now) modulus gaps.now) }
{
    text.extend_from_slice(b"flow: modulus ")?;
    push_number(text, u64::from(modulus.number()))?;
    text.extend_from_slice(b" exhausted\n")?;
    push_attempt_lines(text, graph, gaps)?;
    Ok(())
}

/// How the least pairs of an output were found, where that is to be told.
fn methods_of(told: &Told, report: bool) -> Option<Methods>
    ensures { report_of result ≡ spec.told_report report (report_of told.now.methods) }
{
    if report { told.methods } else { None }
}

/// The lines of what was found of the outputs, in order, in these names of the variables, with or without a report.
fn lines_of(
    alloc: Global,
    report: bool,
    outputs: &[Told],
    names: &[Name],
) -> Result<Vec<u8>, AllocError>
    requires names { AreVariables names.now }
    requires shown { AreShown names.now (map result_told outputs.now) }
    requires few { length outputs.now ≤ 1048576 }
    ensures { IfOk result (λ text. text.items ≡ results_text names.now (spec.told_reports report (reports_in outputs.now)) (map result_told outputs.now)) }
{
    let mut text = Vec::new(alloc);
    for (k, told) in outputs.iter().enumerate() {
        let methods = methods_of(told, report);
        push_line(
            alloc,
            &mut text,
            k as u32 + 1,
            &told.finding,
            methods,
            names,
        )?;
    }
    Ok(text)
}

/// Whether it is a function.
fn is_function(finding: &Finding) -> bool
    ensures { result ≡ is_found (result_of finding.now) }
{
    matches!(finding, Finding::Found(_))
}

/// Whether what was found of each output is a function.
fn are_functions(outputs: &[Told]) -> bool
    ensures { result ≡ all_found (map result_told outputs.now) }
{
    for told in outputs {
        if !is_function(&told.finding) {
            return false;
        }
    }
    true
}

/// Of how many outputs a function was found.
fn functions_among(outputs: &[Told]) -> usize
    ensures { result ≡ count_by (λ told. is_found (result_told told)) outputs.now }
{
    outputs
        .iter()
        .filter(|told| is_function(&told.finding))
        .count()
}

/// Writes a line of the name and the number behind the text.
fn push_count(text: &mut Vec<u8>, name: &[u8], number: u64) -> Result<(), AllocError>
    ensures { OnOk result (text.new.items ≡ text.old.items ++ (name.now ++ decimal number ++ codes "\n")) }
{
    push_numbered(text, name, number)?;
    text.push(b'\n')?;
    Ok(())
}

/// Writes the line of the first output behind the text, where there is one.
fn push_first_line(
    alloc: Global,
    text: &mut Vec<u8>,
    outputs: &[Told],
    names: &[Name],
) -> Result<(), AllocError>
    requires names { AreVariables names.now }
    requires shown { AreShown names.now (map result_told outputs.now) }
    ensures { OnOk result (text.new.items ≡ text.old.items ++ results_text names.now spec.no_reports (take 1 (map result_told outputs.now))) }
{
    match outputs {
        [] => Ok(()),
        [first, ..] => push_line(alloc, text, 1, &first.finding, None, names),
    }
}

/// The text of the demo of size `n`, whose attempts have so many points, in these names of the variables.
fn demo_text(
    alloc: Global,
    n: u64,
    points: u64,
    outputs: &[Told],
    names: &[Name],
) -> Result<Vec<u8>, AllocError>
    requires names { AreVariables names.now }
    requires shown { AreShown names.now (map result_told outputs.now) }
    ensures { IfOk result (λ text. text.items ≡ spec.demo_text n points names.now spec.no_reports (map result_told outputs.now)) }
{
    let mut text = Vec::new(alloc);
    push_count(&mut text, b"demo ", n)?;
    push_count(&mut text, b"points ", points)?;
    push_count(&mut text, b"outputs ", outputs.len() as u64)?;
    push_count(&mut text, b"found ", functions_among(outputs) as u64)?;
    push_first_line(alloc, &mut text, outputs, names)?;
    Ok(text)
}

/// The text that tells what was found of the outputs, in these names of the variables.
fn text_of(
    alloc: Global,
    manner: Manner,
    outputs: &[Told],
    names: &[Name],
) -> Result<Vec<u8>, AllocError>
    requires names { AreVariables names.now }
    requires shown { AreShown names.now (map result_told outputs.now) }
    requires few { length outputs.now ≤ 1048576 }
    ensures { IfOk result (λ text. text.items ≡ spec.telling_of manner names.now (spec.told_reports (spec.asks_reports manner) (reports_in outputs.now)) (map result_told outputs.now)) }
{
    match manner {
        Manner::Lines { report } => lines_of(alloc, report, outputs, names),
        Manner::Demo { n, points } => demo_text(alloc, n, points, outputs, names),
    }
}

/// The reply that tells what was found of the outputs of a job's main graph.
fn reply_to_findings(
    alloc: Global,
    manner: Manner,
    graph: &Graph,
    findings: &Findings,
) -> Result<Reply, AllocError>
    requires names { AreVariables graph.now.inputs }
    requires shown { AreTold graph.now.inputs (findings_of findings.now) }
    requires few { (outputs : ℕ) × (outputs ≤ 1048576) × FitsFindings outputs (findings_of findings.now) }
    ensures answer { IfOk result (λ reply. answer_of reply
        ≡ spec.findings_answer (spec.telling_of manner) (Some graph.now) (spec.told_reports (spec.asks_reports manner) (reports_of findings.now)) (findings_of findings.now)) }
    ensures status { IfOk result (λ reply. IsJobStatus reply.status) }
{
    match findings {
        Findings::Exhausted { modulus, gaps } => {
            let mut err = Vec::new(alloc);
            push_exhausted_text(&mut err, graph, *modulus, gaps)?;
            Ok(refusal_of(alloc, Status::Exhausted, err))
        }
        Findings::Found(outputs) => Ok(Reply {
            status: if are_functions(outputs) {
                Status::Done
            } else {
                Status::Unfound
            },
            out: text_of(alloc, manner, outputs, graph.inputs.as_slice())?,
            err: Vec::new(alloc),
        }),
    }
}

/// The reply to a job whose outputs are reconstructed as functions by so many workers, which are told in this manner.
fn reply_in_manner<G: Gate, R: Threads + Sync>(
    rt: &R,
    alloc: Global,
    workers: u32,
    job: &Job,
    learned: &Learned,
    manner: Manner,
    gate: &G,
) -> Result<Reply, AllocError>
    requires workers { IsCount workers }
    requires need { job.now.need ≡ need.Functions }
    requires fits { FitsJob job.now.need (form job.now) (Ok learned.now) }
    ensures answer { IfOk result (λ reply. ModuliArePrime → TellsFindings (spec.asks_reports manner) (spec.telling_of manner) (form job.now) learned.now (answer_of reply)) }
    ensures status { IfOk result (λ reply. IsJobStatus reply.status) }
{
    let mut crew = Crew::new(alloc, job, learned, workers)?;
    let findings = reconstruct(rt, alloc, &mut crew, job, learned, gate)?;
    reply_to_findings(alloc, manner, main_graph(job), &findings)
}

/// The reply to a job whose outputs are reconstructed as functions, with a line for each, with or without a report.
pub(crate) fn reply_to_functions<G: Gate, R: Threads + Sync>(
    rt: &R,
    alloc: Global,
    workers: u32,
    job: &Job,
    learned: &Learned,
    report: bool,
    gate: &G,
) -> Result<Reply, AllocError>
    requires workers { IsCount workers }
    requires need { job.now.need ≡ need.Functions }
    requires fits { FitsJob job.now.need (form job.now) (Ok learned.now) }
    ensures answer { IfOk result (λ reply. ModuliArePrime → LearnedAnswer (task.Reconstruct report) (form job.now) learned.now (answer_of reply)) }
    ensures status { IfOk result (λ reply. IsJobStatus reply.status) }
{
    let manner = Manner::Lines { report };
    reply_in_manner(rt, alloc, workers, job, learned, manner, gate)
}

/// How many points an attempt over the job's grid has.
fn points_of_attempt(job: &Job) -> u64
    requires { job.now.all ≢ None }
    ensures { result ≡ point_count (grid_of (form job.now)) }
{
    let Some(count) = size(&job.grid()) else {
        unreachable!()
    };
    count
}

/// The reply to the job of the demo of size `n`.
pub(crate) fn reply_to_demo<G: Gate, R: Threads + Sync>(
    rt: &R,
    alloc: Global,
    workers: u32,
    job: &Job,
    learned: &Learned,
    n: u32,
    gate: &G,
) -> Result<Reply, AllocError>
    requires workers { IsCount workers }
    requires need { job.now.need ≡ need.Functions }
    requires fits { FitsJob job.now.need (form job.now) (Ok learned.now) }
    ensures answer { IfOk result (λ reply. ModuliArePrime → LearnedAnswer (task.Demo n) (form job.now) learned.now (answer_of reply)) }
    ensures status { IfOk result (λ reply. IsJobStatus reply.status) }
{
    let manner = Manner::Demo {
        n: u64::from(n),
        points: points_of_attempt(job),
    };
    reply_in_manner(rt, alloc, workers, job, learned, manner, gate)
}
