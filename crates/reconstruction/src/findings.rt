//! Reconstructing the outputs of a job's main graph.

ghost use Rattle.std.specs.Prelude.{◌≡◌, ◌≢◌, ℕ, ◌+◌, ◌*◌, ◌<◌, ◌≤◌, All, List, None, IfOk, length, slice_get};
ghost use Rattle.prime_field.specs.Modulus.{value_of};
ghost use Rattle.prime_field.specs.Residue.{IsPrime};
ghost use Rattle.prime_field.specs.declared.Modulus.{Modulus as ModulusOf};
ghost use Rattle.prime_field.specs.declared.Modulus.TheVariants.{First, Second};
ghost use Rattle.graph_file.specs.Says.{bounds_at, form, grid_of};
ghost use Rattle.graph_eval.specs.GraphValue.{main_number};
ghost use Rattle.graph_eval.specs.Learned.{Fits, outputs_of};
ghost use Rattle.graph_eval.specs.Made.{IsMadeFor};
ghost use Rattle.ray_grid.specs.Grid.{IsGrid, point_count};
ghost use Rattle.rational_lift.specs.Parts.{by_modulus};
ghost use Rattle.output_result.specs.Methods.{IsReport, report_of};
ghost use Rattle.output_result.specs.Printing.{IsShown};
ghost use Rattle.output_result.specs.Results.{OutputResult};
ghost use Rattle.reconstruction.specs.Form.{functions_of, variables_of};
ghost use Rattle.reconstruction.specs.Found.{AreFound, AreTold, FitsFindings, HasColumn, findings_of, found_at, reports_of, result_told};
ghost use Rattle.reconstruction.specs.Functions.{AreReported, Reconstructs};

use crate::NoMemory;
use good_attempt::{Attempts, Gap, GoodAttempt, first_good};
use graph_eval::Learned;
use graph_file::Job;
use output_result::{Sampled, Told, find};
use parallel_sampler::{Crew, Gate};
use prime_field::Modulus;
use ray_grid::Grid;
use std::alloc::Global;
use std::thread::Threads;

/// What is found of the outputs of a job's main graph as functions.
#[derive(Drop)]
pub enum Findings {
    /// At this modulus, the first such one, no attempt has a value at each of its points: the first gap of each attempt.
    Exhausted { modulus: Modulus, gaps: Vec<Gap> },
    /// What is told of each output, in order.
    Found(Vec<Told>),
}

/// What is found of output `k`, counted from 0, over the attempts taken at both moduli.
fn find_output(
    alloc: Global,
    job: &Job,
    grid: &Grid,
    k: usize,
    first: &GoodAttempt,
    second: &GoodAttempt,
) -> Result<Told, NoMemory>
    requires bounds { job.now.all ≢ None }
    requires grid { grid.now ≡ grid_of (form job.now) }
    requires sound { IsGrid grid.now }
    requires points { point_count grid.now ≤ 65536 }
    requires small { k < 1048576 }
    requires first { HasColumn (value_of First) (point_count grid.now) k first.now }
    requires second { HasColumn (value_of Second) (point_count grid.now) k second.now }
    ensures result { IfOk result (λ told. ((m : ModulusOf) → IsPrime (value_of m)) →
        OutputResult job.now.coeff (found_at (bounds_at (form job.now) (k + 1)) (grid_of (form job.now)) first.now second.now k) (result_told told)) }
    ensures methods { IfOk result (λ told. ((m : ModulusOf) → IsPrime (value_of m)) → IsReport (grid_of (form job.now)) (by_modulus first.now.attempt second.now.attempt)
        (found_at (bounds_at (form job.now) (k + 1)) (grid_of (form job.now)) first.now second.now k) (result_told told) (report_of told.methods)) }
    ensures shown { IfOk result (λ told. (names : List (List ℕ)) → length names ≡ grid.now.variables → IsShown names (result_told told)) }
{
    let first_values = first.column(alloc, k)?;
    let second_values = second.column(alloc, k)?;
    let bounds = job.bounds_of(k as u32 + 1);
    find(
        alloc,
        &bounds,
        grid,
        &job.coeff,
        Sampled {
            attempt: first.attempt(),
            values: &first_values,
        },
        Sampled {
            attempt: second.attempt(),
            values: &second_values,
        },
    )
}

/// What is found of each output, in order, over the attempts taken at both moduli.
fn find_outputs(
    alloc: Global,
    job: &Job,
    grid: &Grid,
    outputs: usize,
    first: &GoodAttempt,
    second: &GoodAttempt,
) -> Result<Vec<Told>, NoMemory>
    requires bounds { job.now.all ≢ None }
    requires grid { grid.now ≡ grid_of (form job.now) }
    requires sound { IsGrid grid.now }
    requires points { point_count grid.now ≤ 65536 }
    requires few { outputs ≤ 1048576 }
    requires first { (k : ℕ) → k < outputs → HasColumn (value_of First) (point_count grid.now) k first.now }
    requires second { (k : ℕ) → k < outputs → HasColumn (value_of Second) (point_count grid.now) k second.now }
    ensures { IfOk result (λ tolds. (names : List (List ℕ)) → length names ≡ grid.now.variables →
        AreFound (form job.now) first.now second.now names tolds.items outputs) }
{
    let mut tolds = Vec::with_capacity(alloc, outputs)?;
    for k in 0..outputs {
        let told = find_output(alloc, job, grid, k, first, second)?;
        tolds.push(told)?;
    }
    Ok(tolds)
}

/// What is found of the outputs of the job's main graph as functions, within the bounds that the file gives.
///
/// At each modulus the attempts are tried in turn, and the first whose samples are all defined is taken. Where there is none the
/// second modulus is not tried. Then each output has its result, and how its least pairs were found is told. The crew samples
/// the attempts, and the gate is told of each block of their points. The crew is made for the job both after an answer and where memory runs out.
pub fn reconstruct<G: Gate, R: Threads + Sync>(
    rt: &R,
    alloc: Global,
    crew: &mut Crew,
    job: &Job,
    learned: &Learned,
    gate: &G,
) -> Result<Findings, NoMemory>
    requires made { All (IsMadeFor job.now.graphs learned.now) crew.old }
    requires fits { Fits job.now.graphs learned.now }
    requires bounds { job.now.all ≢ None }
    requires room { point_count (grid_of (form job.now)) * outputs_of learned.now ≤ 1048576 }
    ensures made { All (IsMadeFor job.now.graphs learned.now) crew.new }
    ensures found { IfOk result (λ findings. ((m : ModulusOf) → IsPrime (value_of m)) → Reconstructs (functions_of (form job.now) learned.now) (findings_of findings)) }
    ensures reported { IfOk result (λ findings. ((m : ModulusOf) → IsPrime (value_of m)) → AreReported (functions_of (form job.now) learned.now) (findings_of findings) (reports_of findings)) }
    ensures told { IfOk result (λ findings. AreTold (variables_of (slice_get job.now.graphs (main_number job.now.graphs))) (findings_of findings)) }
    ensures fits { IfOk result (λ findings. FitsFindings (outputs_of learned.now) (findings_of findings)) }
{
    let grid = job.grid();
    let first = match first_good(rt, alloc, crew, job, learned, Modulus::First, &grid, gate)? {
        Attempts::Good(first) => first,
        Attempts::Exhausted(gaps) => {
            return Ok(Findings::Exhausted {
                modulus: Modulus::First,
                gaps,
            });
        }
    };
    let second = match first_good(rt, alloc, crew, job, learned, Modulus::Second, &grid, gate)? {
        Attempts::Good(second) => second,
        Attempts::Exhausted(gaps) => {
            return Ok(Findings::Exhausted {
                modulus: Modulus::Second,
                gaps,
            });
        }
    };
    let outputs = learned.outputs();
    Ok(Findings::Found(find_outputs(alloc, job, &grid, outputs, &first, &second)?))
}
