//! What is learned of small files.

use super::*;
use graph_eval::{Cause, GraphLearned, Singular};
use graph_file::{Job, Need, read_graphs};
use std::alloc::Global;
use std::test::Fail;

/// The job that the file with this text asks for.
fn job_of(rt: &HostRuntime, text: &str, need: Need) -> Result<Job, Fail> {
    let bytes = text.as_bytes();
    if bytes.len() > 16_777_216 {
        return Err(Fail::from("a long text"));
    }
    Ok(read_graphs(rt.alloc(), bytes, need)?)
}

/// A file of one variable with the list `a` of these expressions and one more node, `s`, which is the output.
fn with_solver(alloc: Global, exprs: &str, kind: &str) -> Result<String, Fail> {
    Ok(format!(in alloc;
        "flow 1\ngraph main\ninput x\nnode a eval input = {exprs}\nnode s {kind}\noutput s\n"
    )?)
}

/// Whether an entry was learned at this point, with an output of this length, and these unknowns of the second node.
fn is_entry(entry: &GraphLearned, point: u32, output: u32, unknowns: &[u32]) -> bool {
    let Some(set) = entry.sets.as_slice().get(1) else {
        return false;
    };
    entry.point == Some(point) && entry.output == output && set.as_slice() == unknowns
}

#[test]
fn learning_points_are_taken_from_the_sequence(rt: HostRuntime) {
    let first = [
        487_926_954_045_984_775,
        587_306_795_507_425_713,
        747_507_488_014_301_856,
    ];
    assert_eq!(rt; learning_point(3, 0).entries(), first.as_slice());
    let last = [410_352_835_586_149_385];
    assert_eq!(rt; learning_point(1, 7).entries(), last.as_slice());
}

#[test]
fn the_independent_unknowns_are_learned_at_the_first_point(rt: HostRuntime) -> Result<(), Fail> {
    let text = with_solver(rt.alloc(), "1 ; 2 ; x", "dense a 1 2")?;
    let job = job_of(&rt, text.as_str(), Need::Learning)?;
    let learned = learn(rt.alloc(), &job)?;
    assert_eq!(rt; learned.outputs(), 4);
    assert!(rt; is_entry(learned.graph(0), 0, 4, &[2]));
    Ok(())
}

#[test]
fn sparse_rows_over_three_unknowns_are_told_by_the_last(rt: HostRuntime) -> Result<(), Fail> {
    let text =
        "flow 1\ngraph main\ninput d m\nnode c eval input = 4*m ; -(d-4) ; 2*m ; -(d-2)\nnode s sparse c 3 want 1\nrow 1 2\nrow 2 3\noutput s\n";
    let learned = learn(rt.alloc(), &job_of(&rt, text, Need::Learning)?)?;
    assert!(rt; is_entry(learned.graph(0), 0, 2, &[3]));
    Ok(())
}

#[test]
fn a_graph_with_a_solver_is_called_by_one_with_a_solver(rt: HostRuntime) -> Result<(), Fail> {
    // the inner system is z1 + 2*z2 = x, the outer one z1 = the inner solution's first entry
    let text =
        "flow 1\ngraph inner\ninput x\nnode a eval input = 1 ; 2 ; x\nnode s dense a 1 2 want 1\noutput s\ngraph main\ninput x\nnode a call inner input\nnode b chain a input\nnode s dense b 1 2 want 2 1\noutput s\n";
    let job = job_of(&rt, text, Need::Learning)?;
    if job.graphs.len() < 2 {
        return Err(Fail::from("a file of two graphs"));
    }
    let learned = learn(rt.alloc(), &job)?;
    assert!(rt; is_entry(learned.graph(0), 0, 2, &[2]));
    let main = learned.graph(1);
    assert_eq!(rt; main.point, Some(0));
    assert_eq!(rt; main.output, 4);
    let sets = main.sets.as_slice();
    assert_eq!(rt; sets.get(2).map(|set| set.as_slice()), Some([2].as_slice()));
    Ok(())
}

#[test]
fn an_expansion_is_learned_at_points(rt: HostRuntime) -> Result<(), Fail> {
    // a solver's list is expanded: e*z1 + z2 = 1, so that z1 = -1/e*z2 + 1/e
    let text =
        "flow 1\ngraph inner\ninput e\nnode a eval input = e ; 1 ; 1\nnode s dense a 1 2 want 1\noutput s\ngraph main\ninput x\nnode l laurent inner -1 0 1 1\nnode b chain l input\nnode s dense b 1 4 want 1\noutput s\n";
    let job = job_of(&rt, text, Need::Learning)?;
    if job.graphs.len() < 2 {
        return Err(Fail::from("a file of two graphs"));
    }
    let learned = learn(rt.alloc(), &job)?;
    assert!(rt; is_entry(learned.graph(0), 0, 2, &[2]));
    let main = learned.graph(1);
    assert_eq!(rt; main.output, 4);
    let lengths = main.lengths.as_slice();
    assert_eq!(rt; lengths.first().copied(), Some(4));
    Ok(())
}

#[test]
fn a_point_without_a_value_is_passed_over(rt: HostRuntime) -> Result<(), Fail> {
    let text = with_solver(rt.alloc(), "x - 487926954045984775 ; 1", "dense a 1 1")?;
    let job = job_of(&rt, text.as_str(), Need::Learning)?;
    let learned = learn(rt.alloc(), &job)?;
    assert!(rt; is_entry(learned.graph(0), 1, 1, &[]));
    Ok(())
}

#[test]
fn a_system_that_is_never_solvable_has_no_learning_point(rt: HostRuntime) -> Result<(), Fail> {
    let text = with_solver(rt.alloc(), "x-x ; 1", "dense a 1 1")?;
    let job = job_of(&rt, text.as_str(), Need::Learning)?;
    let Err(LearnError::NoLearningPoint { graph, first }) = learn(rt.alloc(), &job) else {
        return Err(Fail::from("no such answer"));
    };
    let unsolved = Singular {
        node: 1,
        cause: Cause::System,
    };
    assert_eq!(rt; graph, 0);
    assert_eq!(rt; first, [unsolved; 8]);
    Ok(())
}

#[test]
fn a_length_that_breaks_a_rule_ends_the_learning(rt: HostRuntime) -> Result<(), Fail> {
    let text = with_solver(rt.alloc(), "1 ; 2 ; x", "dense a 2 2")?;
    let job = job_of(&rt, text.as_str(), Need::Learning)?;
    let answer = learn(rt.alloc(), &job);
    assert!(rt; matches!(&answer, Err(LearnError::Length { graph: 0, node: 1 })));
    Ok(())
}

#[test]
fn a_length_rule_comes_before_having_no_value(rt: HostRuntime) -> Result<(), Fail> {
    let most = " 1".repeat(rt.alloc(), 262_144)?;
    let kind = format!(in rt.alloc(); "dense a 1 1 want{most}")?;
    let text = with_solver(rt.alloc(), "x-x ; 1", kind.as_str())?;
    let answer = learn(rt.alloc(), &job_of(&rt, text.as_str(), Need::Learning)?);
    assert!(rt; matches!(&answer, Err(LearnError::NoLearningPoint { graph: 0, .. })));

    let kind = format!(in rt.alloc(); "dense a 1 1 want{most} 1")?;
    let text = with_solver(rt.alloc(), "x-x ; 1", kind.as_str())?;
    let answer = learn(rt.alloc(), &job_of(&rt, text.as_str(), Need::Learning)?);
    assert!(rt; matches!(&answer, Err(LearnError::Length { graph: 0, node: 1 })));
    Ok(())
}

/// The beginning of a file of one variable: the nodes `d0` to `d18`, of which `d18` has 262144 entries, each the variable.
fn with_long_list(alloc: Global) -> Result<String, Fail> {
    let mut text = String::from_str(
        alloc,
        "flow 1\ngraph main\ninput x\nnode d0 eval input = x\n",
    )?;
    for place in 0..18 {
        let next = place + 1;
        let line = format!(in alloc; "node d{next} chain d{place} d{place}\n")?;
        text.push_str(line.as_str())?;
    }
    Ok(text)
}

#[test]
fn the_widest_system_is_learned(rt: HostRuntime) -> Result<(), Fail> {
    let list = with_long_list(rt.alloc())?;
    let text = format!(in rt.alloc(); "{list}node s dense d18 512 511\noutput s\n")?;
    let learned = learn(rt.alloc(), &job_of(&rt, text.as_str(), Need::Learning)?)?;
    assert_eq!(rt; learned.outputs(), 511 * 511);
    let solver = learned.graph(0).sets.as_slice().get(19);
    assert_eq!(rt; solver.map(|set| set.as_slice().len()), Some(510));
    Ok(())
}

/// A file of one variable whose output, the node `d18`, has 262144 entries, with so many points.
fn with_long_output(alloc: Global, points: usize) -> Result<String, Fail> {
    let list = with_long_list(alloc)?;
    let points = "point 1\n".repeat(alloc, points)?;
    Ok(format!(in alloc; "{list}output d18\n{points}")?)
}

#[test]
fn points_and_outputs_together_have_a_limit(rt: HostRuntime) -> Result<(), Fail> {
    let most = with_long_output(rt.alloc(), 4)?;
    let learned = learn(rt.alloc(), &job_of(&rt, most.as_str(), Need::Points)?)?;
    assert_eq!(rt; learned.outputs(), 262_144);

    let past = with_long_output(rt.alloc(), 5)?;
    let answer = learn(rt.alloc(), &job_of(&rt, past.as_str(), Need::Points)?);
    assert!(rt; matches!(&answer, Err(LearnError::Length { graph: 0, node: 18 })));
    let learned = learn(rt.alloc(), &job_of(&rt, past.as_str(), Need::Learning)?)?;
    assert_eq!(rt; learned.outputs(), 262_144);
    Ok(())
}
