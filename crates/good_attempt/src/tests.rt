//! What is tried of the functions of small files, from their text.

ghost use Rattle.std.specs.Prelude.{◌≡◌, IfOk};

use super::*;
use graph_eval::Cause;
use graph_file::{Job, Need, read_graphs};
use learn_phase::learn;
use parallel_sampler::{Crew, OpenGate};
use prime_field::Modulus;
use std::alloc::Global;
use std::test::Fail;
use std::thread::Threads;

/// What trying attempts told of one output of a file.
#[derive(Debug, PartialEq, Drop)]
enum Told {
    Good { attempt: u32, column: Vec<u64> },
    Exhausted(Vec<Gap>),
}

/// The job of a file with functions.
fn job_of(alloc: Global, text: &str) -> Result<Job, Fail>
    ensures { IfOk result (λ job. job.need ≡ Need.Functions) }
{
    let bytes = text.as_bytes();
    if bytes.len() > 16_777_216 {
        return Err(Fail::from("a long text"));
    }
    Ok(read_graphs(alloc, bytes, Need::Functions)?)
}

/// What trying attempts tells of output `k`, counted from 0, of the file with this text, modulo `m`.
fn told_by<R: Threads + Sync>(
    rt: &R,
    alloc: Global,
    text: &str,
    m: Modulus,
    k: usize,
) -> Result<Told, Fail> {
    let job = job_of(alloc, text)?;
    let learned = learn(alloc, &job)?;
    if k >= learned.outputs() {
        return Err(Fail::from("no such output"));
    }
    let grid = job.grid();
    let mut crew = Crew::new(alloc, &job, &learned, 2)?;
    match first_good(rt, alloc, &mut crew, &job, &learned, m, &grid, &OpenGate)? {
        Attempts::Good(good) => Ok(Told::Good {
            attempt: good.attempt(),
            column: good.column(alloc, k)?,
        }),
        Attempts::Exhausted(gaps) => Ok(Told::Exhausted(gaps)),
    }
}

/// A good attempt, with these values of an output.
fn good(alloc: Global, attempt: u32, values: &[u64]) -> Result<Told, Fail> {
    Ok(Told::Good {
        attempt,
        column: Vec::from_slice(alloc, values)?,
    })
}

#[test]
fn polynomials_are_good_at_attempt_0(rt: HostRuntime) -> Result<(), Fail> {
    let alloc = rt.alloc();
    let text =
        "flow 1\ngraph main\ninput x y\nnode r eval input = x + y ; x*y\noutput r\nbounds all num 1 den 0\n";
    let sums = [
        862628727471972137,
        862628731682740354,
        862628735893508571,
        862628740104276788,
        862628727471972138,
        862628731682740356,
        862628735893508574,
        862628740104276792,
    ];
    let want = good(alloc, 0, &sums)?;
    assert_eq!(rt; told_by(&rt, alloc, text, Modulus::first(), 0)?, want);

    let products = [
        1990411864136232463,
        6673843854535668627,
        2133903816501865440,
        6817335823744374468,
        2750605050592712171,
        8194230227448628045,
        4414483375871304570,
        634736532715517529,
    ];
    let want = good(alloc, 0, &products)?;
    assert_eq!(rt; told_by(&rt, alloc, text, Modulus::second(), 1)?, want);
    Ok(())
}

#[test]
fn a_pole_at_a_point_of_attempt_0_leaves_attempt_1(rt: HostRuntime) -> Result<(), Fail> {
    let alloc = rt.alloc();
    let text =
        "flow 1\ngraph main\ninput x\nnode r eval input = 1/(x - 760193186456479708)\noutput r\nbounds all num 0 den 1\n";
    let first = [
        533326316077294039,
        499576841472678355,
        569063589483087960,
        810533018984851719,
    ];
    let want = good(alloc, 1, &first)?;
    assert_eq!(rt; told_by(&rt, alloc, text, Modulus::first(), 0)?, want);

    let second = [
        3808980102449920346,
        3040118253243913408,
        9062364730671075646,
        7792663896595184617,
    ];
    let want = good(alloc, 1, &second)?;
    assert_eq!(rt; told_by(&rt, alloc, text, Modulus::second(), 0)?, want);
    Ok(())
}

/// Gaps by division at these points and this node, in order.
fn gaps_at(alloc: Global, node: u32, points: &[u32]) -> Result<Told, Fail> {
    let mut gaps = Vec::new(alloc);
    for point in points {
        gaps.push(Gap {
            point: *point,
            node,
            cause: Cause::Division,
        })?;
    }
    Ok(Told::Exhausted(gaps))
}

#[test]
fn attempts_are_exhausted_where_there_is_no_value(rt: HostRuntime) -> Result<(), Fail> {
    let alloc = rt.alloc();
    let text =
        "flow 1\ngraph main\ninput x\nnode r eval input = 1/(x-x)\noutput r\nbounds all num 0 den 1\n";
    let want = gaps_at(alloc, 0, &[0; 8])?;
    assert_eq!(rt; told_by(&rt, alloc, text, Modulus::first(), 0)?, want);
    Ok(())
}

#[test]
fn the_first_gap_of_each_attempt_is_told(rt: HostRuntime) -> Result<(), Fail> {
    // The poles are at the points 0, 1, 2, 3, 3, 2, 1, 0 of the attempts in order, and at point 3 of attempt 2 as well.
    let alloc = rt.alloc();
    let text =
        "flow 1\ngraph main\ninput x\nnode d eval input = (x-760193186456479708)*(x-547693886933905906)*(x-419350911784671048)*(x-419350911784671049)*(x-860954586341042142)*(x-182846897149391795)*(x-618690436954950343)*(x-440215892483980571)*(x-917580904535333551)\nnode r eval d = 1/z1\noutput r\nbounds all num 0 den 1\n";
    let want = gaps_at(alloc, 1, &[0, 1, 2, 3, 3, 2, 1, 0])?;
    assert_eq!(rt; told_by(&rt, alloc, text, Modulus::first(), 0)?, want);
    Ok(())
}
