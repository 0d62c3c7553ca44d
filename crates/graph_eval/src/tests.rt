//! Whole files, from their text to the values of their main graphs.

ghost use Rattle.std.specs.Prelude.{◌≡◌, IfOk, length, slice_get};
ghost use Rattle.graph_eval.specs.Evaluated.{HasInputs};
ghost use Rattle.graph_eval.specs.GraphValue.{main_number};
ghost use Rattle.graph_eval.specs.Learned.{Fits, outputs_of};
ghost use Rattle.graph_eval.specs.Made.{IsMadeFor};

use super::*;
use graph_file::{Job, Need, read_graphs};
use poly_maps::Point;
use prime_field::Modulus;
use std::alloc::Global;
use std::test::Fail;

/// What a file told at its first point.
#[derive(Debug, PartialEq, Drop)]
enum Told {
    Values(Vec<u64>),
    Singular(Singular),
    Length(u32),
}

/// What is learned of a job's only graph at a point, or what the point told in its place.
fn learn(alloc: Global, job: &Job, point: &Point) -> Result<Result<Learned, Told>, Fail>
    requires one { length job.now.graphs ≡ 1 }
    requires entries { HasInputs (slice_get job.now.graphs (main_number job.now.graphs)) point.now }
    ensures { IfOk result (λ answer. IfOk answer (Fits job.now.graphs)) }
{
    let mut learned = Learned::new(alloc);
    match fresh_point(alloc, job, &learned, 0, Modulus::first(), point)? {
        Fresh::Learned(entry) => learned.add(entry)?,
        Fresh::Singular(singular) => return Ok(Err(Told::Singular(singular))),
        Fresh::Length { node } => return Ok(Err(Told::Length(node))),
    }
    Ok(Ok(learned))
}

/// The job of a file with one graph.
fn job_of(alloc: Global, text: &str) -> Result<Job, Fail>
    ensures { IfOk result (λ job. length job.graphs ≡ 1) }
{
    let bytes = text.as_bytes();
    if bytes.len() > 16_777_216 {
        return Err(Fail::from("a long text"));
    }
    let job = read_graphs(alloc, bytes, Need::Points)?;
    if job.graphs.len() != 1 {
        return Err(Fail::from("more than one graph"));
    }
    Ok(job)
}

/// What the file with this text, learned at its first point, tells at its last point, modulo 2^61 - 1.
fn told_by(rt: &HostRuntime, text: &str) -> Result<Told, Fail> {
    let alloc = rt.alloc();
    let job = job_of(alloc, text)?;
    let points = job.points.as_slice();
    let learned = match learn(alloc, &job, points.first().ok_or("no point")?)? {
        Ok(learned) => learned,
        Err(told) => return Ok(told),
    };
    let mut worker = Worker::new(alloc, &job, &learned)?;
    let mut out = vec![in alloc; 0; learned.outputs()]?;
    let point = points.last().ok_or("no point")?;
    let m = Modulus::first();
    match worker.eval_point(&job, &learned, m, point, out.as_mut_slice()) {
        Outcome::Defined => Ok(Told::Values(out)),
        Outcome::Singular(singular) => Ok(Told::Singular(singular)),
    }
}

/// What the list `r` of this kind is, beside the list `a` of 3, 5, 15 and 2 and the inputs 3 and 5.
fn list_of(rt: &HostRuntime, kind: &str) -> Result<Told, Fail> {
    let text = format!(in rt.alloc();
        "flow 1\ngraph main\ninput x y\nnode a eval input = x ; y ; x*y ; 2\nnode r {kind}\noutput r\npoint 3 5\n"
    )?;
    told_by(rt, text.as_str())
}

#[test]
fn each_kind_gives_its_list(rt: HostRuntime) -> Result<(), Fail> {
    let cases: [(&str, &[u64]); 7] = [
        ("eval a = z1/z4 ; z2^2 - z3", &[1152921504606846977, 10]),
        ("take a 3 input 1", &[15, 3]),
        ("slice a 2 3", &[5, 15]),
        ("chain input a", &[3, 5, 3, 5, 15, 2]),
        ("sum a a", &[6, 10, 30, 4]),
        ("product a a", &[9, 25, 225, 4]),
        ("matmul a a 2 2 2", &[84, 25, 75, 79]),
    ];
    for (kind, values) in cases {
        let want = Told::Values(Vec::from_slice(rt.alloc(), values)?);
        assert_eq!(rt; list_of(&rt, kind)?, want, "{kind}");
    }
    Ok(())
}

#[test]
fn a_position_past_the_inputs_breaks_the_length_rule(rt: HostRuntime) -> Result<(), Fail> {
    assert_eq!(rt; list_of(&rt, "take input 3")?, Told::Length(1));
    Ok(())
}

#[test]
fn a_division_by_zero_counts_where_it_is_needed(rt: HostRuntime) -> Result<(), Fail> {
    let singular = Singular {
        node: 1,
        cause: Cause::Division,
    };
    assert_eq!(rt;
        list_of(&rt, "eval a = z1/(z3 - 3*z2)")?,
        Told::Singular(singular)
    );

    let unneeded =
        "flow 1\ngraph main\ninput x y\nnode d eval input = 1/0\nnode r eval input = x\noutput r\npoint 3 5\n";
    let want = Told::Values(Vec::from_slice(rt.alloc(), &[3])?);
    assert_eq!(rt; told_by(&rt, unneeded)?, want);
    Ok(())
}

#[test]
fn the_output_may_be_the_input(rt: HostRuntime) -> Result<(), Fail> {
    let text = "flow 1\ngraph main\ninput x y\nnode r eval input = 1/0\noutput input\npoint 3 5\n";
    let want = Told::Values(Vec::from_slice(rt.alloc(), &[3, 5])?);
    assert_eq!(rt; told_by(&rt, text)?, want);
    Ok(())
}

#[test]
fn a_system_tells_its_unknowns_in_the_wanted_order(rt: HostRuntime) -> Result<(), Fail> {
    let text =
        "flow 1\ngraph main\ninput x y\nnode a eval input = 1;1;x;1;0-1;y\nnode s dense a 2 2 want 2 1\noutput s\npoint 3 5\n";
    let want = Told::Values(Vec::from_slice(rt.alloc(), &[2305843009213693950, 4])?);
    assert_eq!(rt; told_by(&rt, text)?, want);
    Ok(())
}

#[test]
fn a_row_redundant_where_it_is_learned_decides_later(rt: HostRuntime) -> Result<(), Fail> {
    let text =
        "flow 1\ngraph main\ninput x\nnode a eval input = x;x;1;1\nnode s dense a 2 1\noutput s\npoint 5\npoint 0\n";
    let want = Told::Values(Vec::from_slice(rt.alloc(), &[1])?);
    assert_eq!(rt; told_by(&rt, text)?, want);
    Ok(())
}

#[test]
fn a_system_without_a_solution_is_singular(rt: HostRuntime) -> Result<(), Fail> {
    let text =
        "flow 1\ngraph main\ninput x\nnode a eval input = x;1;2*x;2\nnode s dense a 2 1\noutput s\npoint 2\npoint 0\n";
    let want = Told::Singular(Singular {
        node: 1,
        cause: Cause::System,
    });
    assert_eq!(rt; told_by(&rt, text)?, want);
    Ok(())
}

#[test]
fn one_row_of_two_unknowns_is_told_by_the_second(rt: HostRuntime) -> Result<(), Fail> {
    let alloc = rt.alloc();
    let job = job_of(
        alloc,
        "flow 1\ngraph main\ninput x\nnode a eval input = 1;2;x\nnode s dense a 1 2\noutput s\npoint 7\n",
    )?;
    let point = job.points.as_slice().first().ok_or("no point")?;
    let Ok(learned) = learn(alloc, &job, point)? else {
        return Err(Fail::from("nothing is learned"));
    };
    let entry = learned.graph(0);
    let set = entry.sets.as_slice().last().ok_or("no set")?;
    assert_eq!(rt; set.as_slice().first(), Some(&2));
    assert_eq!(rt; (set.len(), entry.output), (1, 4));
    Ok(())
}

/// A file of one variable with the list `c` of these expressions, a sparse system over it with two rows of one unknown, and
/// these points.
fn with_two_rows(alloc: Global, exprs: &str, points: &str) -> Result<String, Fail> {
    Ok(format!(in alloc;
        "flow 1\ngraph main\ninput x\nnode c eval input = {exprs}\nnode s sparse c 1\nrow 0 1\nrow 0 1\noutput s\n{points}"
    )?)
}

#[test]
fn a_sparse_row_redundant_where_it_is_learned_decides_later(rt: HostRuntime) -> Result<(), Fail> {
    let exprs = "1 ; 1 ; x-487926954045984774 ; 1";
    let there = "point 487926954045984775\n";
    let text = with_two_rows(rt.alloc(), exprs, there)?;
    let want = Told::Values(Vec::from_slice(rt.alloc(), &[1])?);
    assert_eq!(rt; told_by(&rt, text.as_str())?, want);

    let both = "point 487926954045984775\npoint 5\n";
    let text = with_two_rows(rt.alloc(), exprs, both)?;
    let want = Told::Singular(Singular {
        node: 1,
        cause: Cause::System,
    });
    assert_eq!(rt; told_by(&rt, text.as_str())?, want);
    Ok(())
}

#[test]
fn a_sparse_system_without_a_solution_is_singular(rt: HostRuntime) -> Result<(), Fail> {
    let exprs = "1 ; x ; 2 ; 2*x";
    let text = with_two_rows(rt.alloc(), exprs, "point 2\npoint 0\n")?;
    let unsolved = Told::Singular(Singular {
        node: 1,
        cause: Cause::System,
    });
    assert_eq!(rt; told_by(&rt, text.as_str())?, unsolved);

    let text = with_two_rows(rt.alloc(), exprs, "point 2\n")?;
    let want = Told::Values(Vec::from_slice(rt.alloc(), &[1152921504606846976])?);
    assert_eq!(rt; told_by(&rt, text.as_str())?, want);
    Ok(())
}

#[test]
fn sparse_rows_are_told_by_the_last_unknown(rt: HostRuntime) -> Result<(), Fail> {
    let alloc = rt.alloc();
    let text =
        "flow 1\ngraph main\ninput d m\nnode c eval input = 4*m ; -(d-4) ; 2*m ; -(d-2)\nnode s sparse c 3 want 1\nrow 1 2\nrow 2 3\noutput s\npoint 7 5\n";
    let job = job_of(alloc, text)?;
    let point = job.points.as_slice().first().ok_or("no point")?;
    let Ok(learned) = learn(alloc, &job, point)? else {
        return Err(Fail::from("nothing is learned"));
    };
    let entry = learned.graph(0);
    let set = entry.sets.as_slice().last().ok_or("no set")?;
    assert_eq!(rt; set.as_slice().first(), Some(&3));
    assert_eq!(rt; (set.len(), entry.output), (1, 2));
    Ok(())
}

#[test]
fn lengths_alone_are_learned_of_a_plain_graph(rt: HostRuntime) -> Result<(), Fail> {
    let alloc = rt.alloc();
    let job = job_of(
        alloc,
        "flow 1\ngraph main\ninput x\nnode a eval input = x;1\nnode c chain a a\noutput c\npoint 7\n",
    )?;
    if has_solver(main_graph(&job)) {
        return Err(Fail::from("a solver"));
    }
    let Fresh::Learned(entry) = lengths_of(alloc, &job, &Learned::new(alloc), 0)? else {
        return Err(Fail::from("a wrong length"));
    };
    assert_eq!(rt; entry.output, 4);
    Ok(())
}

#[test]
fn all_words_are_free_behind_each_point(rt: HostRuntime) -> Result<(), Fail> {
    let alloc = rt.alloc();
    let text =
        "flow 1\ngraph main\ninput x y\nnode a eval input = 1;1;x;1;0-1;1/y\nnode s dense a 2 2 want 2 1\noutput s\npoint 3 5\npoint 3 0\n";
    let job = job_of(alloc, text)?;
    let points = job.points.as_slice();
    let first = points.first().ok_or("no point")?;
    let last = points.last().ok_or("no point")?;
    let Ok(learned) = learn(alloc, &job, first)? else {
        return Err(Fail::from("nothing is learned"));
    };
    assert_eq!(rt; words_needed(&job, &learned), 34);
    let mut worker = Worker::new(alloc, &job, &learned)?;
    assert_eq!(rt; worker.free_words(), 34);
    let mut out = vec![in alloc; 0; learned.outputs()]?;
    let values = out.as_mut_slice();
    let m = Modulus::second();
    assert_eq!(rt;
        worker.eval_point(&job, &learned, m, first, values),
        Outcome::Defined
    );
    assert_eq!(rt; worker.free_words(), 34);
    let undefined = Outcome::Singular(Singular {
        node: 0,
        cause: Cause::Division,
    });
    assert_eq!(rt;
        worker.eval_point(&job, &learned, m, last, values),
        undefined
    );
    assert_eq!(rt; worker.free_words(), 34);
    assert_eq!(rt;
        worker.eval_point(&job, &learned, m, first, values),
        Outcome::Defined
    );
    assert_eq!(rt; worker.free_words(), 34);
    Ok(())
}

fn may_be_shared<T: Send + Sync>(_value: &T) {}

#[test]
fn what_was_learned_and_a_worker_go_to_other_threads(rt: HostRuntime) -> Result<(), Fail> {
    let alloc = rt.alloc();
    let text = "flow 1\ngraph main\ninput x\nnode r eval input = x\noutput r\npoint 3\n";
    let job = job_of(alloc, text)?;
    let point = job.points.as_slice().first().ok_or("no point")?;
    if let Ok(learned) = learn(alloc, &job, point)? {
        may_be_shared(&Worker::new(alloc, &job, &learned)?);
        may_be_shared(&learned);
    }
    may_be_shared(&Fresh::Length { node: 0 });
    may_be_shared(&Outcome::Defined);
    Ok(())
}

/// The job of a file with several graphs.
fn graphs_of(alloc: Global, text: &str) -> Result<Job, Fail> {
    let bytes = text.as_bytes();
    if bytes.len() > 16_777_216 {
        return Err(Fail::from("a long text"));
    }
    Ok(read_graphs(alloc, bytes, Need::Points)?)
}

/// The lengths of the lists of a job's graphs, of which none solves a system.
fn all_lengths(alloc: Global, job: &Job) -> Result<Learned, Fail>
    ensures { IfOk result (Fits job.now.graphs) }
{
    let mut learned = Learned::new(alloc);
    for number in 0..job.graphs.len() {
        if has_solver(&job.graphs.as_slice()[number]) {
            return Err(Fail::from("a solver"));
        }
        let Fresh::Learned(entry) = lengths_of(alloc, job, &learned, number as u32)? else {
            return Err(Fail::from("a wrong length"));
        };
        learned.add(entry)?;
    }
    Ok(learned)
}

/// The modulus at this place: the second at one of them, and else the first.
fn modulus_at(place: usize, second: usize) -> Modulus {
    if place == second {
        return Modulus::second();
    }
    Modulus::first()
}

/// What a worker tells at each point of a job in order, the values of all of them one after the other. One of the points is
/// taken at the second modulus. All words that aren't kept are free behind each point.
fn values_in_order(
    alloc: Global,
    job: &Job,
    learned: &Learned,
    worker: &mut Worker,
    second: usize,
    out: &mut [u64],
) -> Result<Vec<u64>, Fail>
    requires made { IsMadeFor job.now.graphs learned.now worker.old }
    requires fits { Fits job.now.graphs learned.now }
    requires long { length out.old ≡ outputs_of learned.now }
{
    let free = worker.free_words();
    let mut values = Vec::new(alloc);
    for (place, point) in job.points.as_slice().iter().enumerate() {
        let m = modulus_at(place, second);
        let Outcome::Defined = worker.eval_point(job, learned, m, point, out) else {
            return Err(Fail::from("a singular point"));
        };
        if worker.free_words() != free {
            return Err(Fail::from("words that aren't free"));
        }
        values.extend_from_slice(out)?;
    }
    Ok(values)
}

/// What one worker tells at each point of a file in order, and how often it evaluated the first graph. One of the points is
/// taken at the second modulus.
fn told_in_order(rt: &HostRuntime, text: &str, second: usize) -> Result<(Vec<u64>, u64), Fail> {
    let alloc = rt.alloc();
    let job = graphs_of(alloc, text)?;
    let learned = all_lengths(alloc, &job)?;
    let mut worker = Worker::new(alloc, &job, &learned)?;
    let mut out = vec![in alloc; 0; learned.outputs()]?;
    let values = values_in_order(
        alloc,
        &job,
        &learned,
        &mut worker,
        second,
        out.as_mut_slice(),
    )?;
    Ok((values, worker.evaluations(0)))
}

/// A file that squares its one variable by a graph of its own, called in this way, at four points.
fn squared(alloc: Global, kind: &str) -> Result<String, Fail> {
    Ok(format!(in alloc;
        "flow 1\ngraph sq\ninput u\nnode p eval input = u^2\noutput p\ngraph main\ninput x\nnode q {kind} sq input\noutput q\npoint 3\npoint 3\npoint 4\npoint 3\n"
    )?)
}

#[test]
fn a_graph_is_called_at_each_point(rt: HostRuntime) -> Result<(), Fail> {
    let text = squared(rt.alloc(), "call")?;
    let (values, evaluations) = told_in_order(&rt, text.as_str(), 4)?;
    assert_eq!(rt; values.as_slice(), [9, 9, 16, 9].as_slice());
    assert_eq!(rt; evaluations, 4);
    Ok(())
}

#[test]
fn a_memo_is_asked_anew_only_where_its_inputs_change(rt: HostRuntime) -> Result<(), Fail> {
    let text = squared(rt.alloc(), "memo")?;
    let (values, evaluations) = told_in_order(&rt, text.as_str(), 4)?;
    assert_eq!(rt; values.as_slice(), [9, 9, 16, 9].as_slice());
    assert_eq!(rt; evaluations, 3);
    let job = graphs_of(rt.alloc(), text.as_str())?;
    let learned = all_lengths(rt.alloc(), &job)?;
    assert_eq!(rt; words_needed(&job, &learned), 6);
    Ok(())
}

#[test]
fn a_graph_is_mapped_over_lists(rt: HostRuntime) -> Result<(), Fail> {
    let text =
        "flow 1\ngraph sq\ninput u\nnode p eval input = u^2\noutput p\ngraph main\ninput x y\nnode a slice input 1 1\nnode b slice input 2 2\nnode q map sq a b\noutput q\npoint 3 5\n";
    let (values, evaluations) = told_in_order(&rt, text, 4)?;
    assert_eq!(rt; values.as_slice(), [9, 25].as_slice());
    assert_eq!(rt; evaluations, 2);
    Ok(())
}

#[test]
fn a_memo_keeps_by_its_modulus(rt: HostRuntime) -> Result<(), Fail> {
    let text =
        "flow 1\ngraph sq\ninput u\nnode p eval input = u^2\noutput p\ngraph main\ninput x\nnode q memo sq input\noutput q\npoint 2305843009213693950\npoint 2305843009213693950\npoint 2305843009213693950\n";
    let (values, evaluations) = told_in_order(&rt, text, 1)?;
    assert_eq!(rt; values.as_slice(), [1, 5188146770730811396, 1].as_slice());
    assert_eq!(rt; evaluations, 3);
    Ok(())
}

#[test]
fn a_called_graph_is_singular_at_the_calling_node(rt: HostRuntime) -> Result<(), Fail> {
    let alloc = rt.alloc();
    let text =
        "flow 1\ngraph inv\ninput u\nnode c eval input = 1\nnode p eval input = 1/u\noutput p\ngraph main\ninput x y\nnode a slice input 1 1\nnode b slice input 2 2\nnode q map inv a b\noutput q\npoint 3 0\n";
    let job = graphs_of(alloc, text)?;
    let learned = all_lengths(alloc, &job)?;
    let mut worker = Worker::new(alloc, &job, &learned)?;
    let free = worker.free_words();
    let mut out = vec![in alloc; 0; learned.outputs()]?;
    let point = job.points.as_slice().first().ok_or("no point")?;
    let singular = Outcome::Singular(Singular {
        node: 2,
        cause: Cause::Division,
    });
    assert_eq!(rt;
        worker.eval_point(&job, &learned, Modulus::first(), point, out.as_mut_slice()),
        singular
    );
    assert_eq!(rt; worker.free_words(), free);
    Ok(())
}

/// What a file of several graphs tells at its first point, and how many words its worker's block has.
fn told_with_words(rt: &HostRuntime, text: &str) -> Result<(Told, usize), Fail> {
    let alloc = rt.alloc();
    let job = graphs_of(alloc, text)?;
    let learned = all_lengths(alloc, &job)?;
    let mut worker = Worker::new(alloc, &job, &learned)?;
    let free = worker.free_words();
    let mut out = vec![in alloc; 0; learned.outputs()]?;
    let point = job.points.as_slice().first().ok_or("no point")?;
    let m = Modulus::first();
    let told = match worker.eval_point(&job, &learned, m, point, out.as_mut_slice()) {
        Outcome::Defined => Told::Values(out),
        Outcome::Singular(singular) => Told::Singular(singular),
    };
    if worker.free_words() != free {
        return Err(Fail::from("words that aren't free"));
    }
    Ok((told, words_needed(&job, &learned)))
}

/// What `laurent g` tells with these numbers, where `g` gives these expressions in `e`, at the point 7.
fn expansion_of(rt: &HostRuntime, exprs: &str, numbers: &str) -> Result<Told, Fail> {
    let text = format!(in rt.alloc();
        "flow 1\ngraph g\ninput e\nnode r eval input = {exprs}\noutput r\ngraph main\ninput x\nnode l laurent g {numbers}\noutput l\npoint 7\n"
    )?;
    Ok(told_with_words(rt, text.as_str())?.0)
}

#[test]
fn a_simple_pole_is_expanded(rt: HostRuntime) -> Result<(), Fail> {
    // 1/(e + e^2) = 1/e - 1 + e - ..
    let text =
        "flow 1\ngraph g\ninput e\nnode r eval input = 1/(e*(1+e))\noutput r\ngraph main\ninput x\nnode l laurent g -1 1 0 2\noutput l\npoint 7\n";
    let (told, words) = told_with_words(&rt, text)?;
    let want = Told::Values(Vec::from_slice(rt.alloc(), &[1, 2305843009213693950, 1])?);
    assert_eq!(rt; told, want);
    assert_eq!(rt; words, 95);
    Ok(())
}

#[test]
fn expansions_stand_output_by_output(rt: HostRuntime) -> Result<(), Fail> {
    // 3 + e^2, and 1/(1 - 2*e) = 1 + 2*e + 4*e^2 + ..
    let want = Told::Values(Vec::from_slice(rt.alloc(), &[3, 0, 1, 1, 2, 4])?);
    assert_eq!(rt; expansion_of(&rt, "3 + e^2 ; 1/(1-2*e)", "0 2 2 1")?, want);
    Ok(())
}

#[test]
fn one_order_may_be_wanted(rt: HostRuntime) -> Result<(), Fail> {
    let want = Told::Values(Vec::from_slice(rt.alloc(), &[5])?);
    assert_eq!(rt; expansion_of(&rt, "5/e^2 + 4/e", "-2 -2 1 2")?, want);
    Ok(())
}

#[test]
fn an_expansion_that_begins_below_the_orders_is_a_pole(rt: HostRuntime) -> Result<(), Fail> {
    let pole = Told::Singular(Singular {
        node: 0,
        cause: Cause::Pole,
    });
    assert_eq!(rt; expansion_of(&rt, "1/(e*(1+e))", "0 1 0 2")?, pole);
    // the first output that fails decides
    assert_eq!(rt; expansion_of(&rt, "1 ; 1/e ; e^3", "0 1 2 2")?, pole);
    Ok(())
}

#[test]
fn an_output_past_the_degrees_is_told(rt: HostRuntime) -> Result<(), Fail> {
    let degree = Told::Singular(Singular {
        node: 0,
        cause: Cause::Degree,
    });
    assert_eq!(rt; expansion_of(&rt, "1/(e*(1+e))", "-1 1 0 1")?, degree);
    assert_eq!(rt; expansion_of(&rt, "1 ; e^3 ; 1/e", "0 1 2 2")?, degree);
    Ok(())
}

#[test]
fn a_point_at_which_the_graph_is_singular_comes_first(rt: HostRuntime) -> Result<(), Fail> {
    // the third point is 2^40 + 3
    let division = Told::Singular(Singular {
        node: 0,
        cause: Cause::Division,
    });
    assert_eq!(rt;
        expansion_of(&rt, "e^9 ; 1/(e - 1099511627779)", "0 1 2 2")?,
        division
    );
    Ok(())
}

#[test]
fn an_expansion_is_expanded_again(rt: HostRuntime) -> Result<(), Fail> {
    // 1/(1 - u*v) = 1 + u*v + (u*v)^2 + .. in u; of each coefficient the terms in v, each times x
    let text =
        "flow 1\ngraph inner\ninput u v x\nnode r eval input = x/(1-u*v)\noutput r\ngraph outer\ninput v x\nnode l laurent inner 0 2 1 1 input\noutput l\ngraph main\ninput x\nnode l laurent outer 0 2 2 0 input\noutput l\npoint 7\n";
    let (told, _words) = told_with_words(&rt, text)?;
    let want = Told::Values(Vec::from_slice(rt.alloc(), &[7, 0, 0, 0, 7, 0, 0, 0, 7])?);
    assert_eq!(rt; told, want);
    Ok(())
}

#[test]
fn a_memo_is_asked_at_each_point_of_an_expansion(rt: HostRuntime) -> Result<(), Fail> {
    let text =
        "flow 1\ngraph sq\ninput u\nnode p eval input = u^2\noutput p\ngraph g\ninput e x\nnode a slice input 2 2\nnode q memo sq a\nnode s slice input 1 1\nnode r product q s\noutput r\ngraph main\ninput x\nnode l laurent g 0 1 1 0 input\noutput l\npoint 3\n";
    let (values, evaluations) = told_in_order(&rt, text, 1)?;
    assert_eq!(rt; values.as_slice(), [0, 9].as_slice());
    assert_eq!(rt; evaluations, 1);
    Ok(())
}
