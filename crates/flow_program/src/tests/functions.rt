//! Runs that reconstruct functions, and the points and reports of such runs.

use super::{is_same, is_told, run_on, steady};
use poly_maps::Point;
use ray_grid::{Grid, attempt};
use std::alloc::{AllocError, Global};
use std::test::Fail;

/// A file of the variables x and y whose output has these expressions, with these lines behind it.
fn with_bounds(alloc: Global, exprs: &str, lines: &str) -> Result<String, AllocError> {
    format!(in alloc;
        "flow 1\ngraph main\ninput x y\nnode r eval input = {exprs}\noutput r\n{lines}\n"
    )
}

#[test]
fn outputs_are_reconstructed_as_functions(rt: HostRuntime) -> Result<(), Fail> {
    let cases = [
        ("x - x", "bounds all num 1 den 1", 0, "f1 = 0\n"),
        (
            "(x^2-y^2)/(x-y)",
            "bounds all num 3 den 2",
            0,
            "f1 = x + y\n",
        ),
        (
            "((x^2+1)*y)/(x*y+3)",
            "bounds all num 3 den 2",
            0,
            "f1 = (x^2*y + y)/(x*y + 3)\n",
        ),
        (
            "1/2*x + 1/3",
            "bounds all num 1 den 0",
            0,
            "f1 = 1/2*x + 1/3\n",
        ),
        (
            "1/2*x + 1/3 ; 7*x",
            "bounds all num 1 den 0\ncoeff 3 3",
            1,
            "f1 = 1/2*x + 1/3\nf2 ? norational numerator x 7\n",
        ),
        (
            "1/2*x + 1/3 ; x*y ; 0 ; -x",
            "bounds 2 num 2 den 0\nbounds all num 1 den 0\npoint 1 2",
            0,
            "f1 = 1/2*x + 1/3\nf2 = x*y\nf3 = 0\nf4 = -x\n",
        ),
        ("5*x", "bounds all num 1 den 0\ncoeff 5 1", 0, "f1 = 5*x\n"),
        ("1/(x-y)", "bounds all num 2 den 0", 1, "f1 ? nopair 1\n"),
        (
            "1/(2305843009213693951*x+1)",
            "bounds all num 0 den 1",
            1,
            "f1 ? unlike 1 x\n",
        ),
    ];
    for (exprs, lines, status, out) in cases {
        let file = with_bounds(rt.alloc(), exprs, lines)?;
        let told = run_on(&rt, &["reconstruct", "f"], steady(file.as_bytes()))?;
        assert!(rt; is_told(&told, status, out, ""), "{exprs}: {told:?}");
    }
    Ok(())
}

#[test]
fn a_report_tells_how_each_function_was_found(rt: HostRuntime) -> Result<(), Fail> {
    let cases = [
        ("x - x", "bounds all num 1 den 1", 0, "f1 = 0 # rays rays\n"),
        (
            "((x^2+1)*y)/(x*y+3)",
            "bounds all num 3 den 2",
            0,
            "f1 = (x^2*y + y)/(x*y + 3) # rays rays\n",
        ),
        ("1/(x-y)", "bounds all num 2 den 0", 1, "f1 ? nopair 1\n"),
        (
            "5*x",
            "bounds all num 1 den 0\ncoeff 4 1",
            1,
            "f1 ? norational numerator x 5 # rays rays\n",
        ),
    ];
    for (exprs, lines, status, out) in cases {
        let file = with_bounds(rt.alloc(), exprs, lines)?;
        let words = ["reconstruct", "f", "--report"];
        let told = run_on(&rt, &words, steady(file.as_bytes()))?;
        assert!(rt; is_told(&told, status, out, ""), "{exprs}: {told:?}");
    }
    Ok(())
}

/// The 8 points of the first attempt for numerators of degree 0 and denominators of degree 1 in two variables.
fn linear_points(alloc: Global) -> Result<Vec<Point>, AllocError> {
    let grid = Grid {
        variables: 2,
        total: 1,
        each: [1, 1, 0, 0, 0, 0, 0, 0],
    };
    attempt(alloc, &grid, 0)
}

/// The entry at this place of the point with this number.
fn entry(points: &[Point], number: usize, place: usize) -> Result<u64, Fail> {
    let Some(point) = points.get(number) else {
        return Err(Fail::from("no such point"));
    };
    match point.entries().get(place) {
        Some(entry) => Ok(*entry),
        None => Err(Fail::from("no such entry")),
    }
}

/// On the second ray of the attempt the denominator is the same at all points.
#[test]
fn a_denominator_that_loses_its_degree_on_a_ray_is_fitted(rt: HostRuntime) -> Result<(), Fail> {
    let points = linear_points(rt.alloc())?;
    let slope = entry(&points, 5, 1)?.abs_diff(entry(&points, 4, 1)?);
    let expr = format!(in rt.alloc(); "1/(y-{slope}*x)")?;
    let file = with_bounds(rt.alloc(), expr.as_str(), "bounds all num 0 den 1")?;
    let words = ["reconstruct", "--report", "f"];
    let told = run_on(&rt, &words, steady(file.as_bytes()))?;
    let out = format!(in rt.alloc(); "f1 = (-1/{slope})/(x - 1/{slope}*y) # fit fit\n")?;
    assert!(rt; is_told(&told, 0, out.as_str(), ""), "{told:?}");
    Ok(())
}

/// A file whose function has no value at the first point of the first attempt, nor at the last of 70 points.
fn with_gaps(alloc: Global) -> Result<String, Fail> {
    let gap = entry(&linear_points(alloc)?, 0, 0)?;
    let expr = format!(in alloc; "1/(x-{gap})")?;
    let mut file = with_bounds(alloc, expr.as_str(), "bounds all num 0 den 1")?;
    for x in 0..69 {
        let line = format!(in alloc; "point {x} 1\n")?;
        file.push_str(line.as_str())?;
    }
    let line = format!(in alloc; "point {gap} 1\n")?;
    file.push_str(line.as_str())?;
    Ok(file)
}

#[test]
fn the_number_of_workers_changes_no_byte(rt: HostRuntime) -> Result<(), Fail> {
    let file = with_gaps(rt.alloc())?;
    for command in ["sample", "reconstruct"] {
        let one = run_on(&rt, &[command, "f"], steady(file.as_bytes()))?;
        assert!(rt; one.status == 0 && !one.out.is_empty(), "{one:?}");
        for workers in ["1", "2", "3", "16"] {
            let words = [command, "--workers", workers, "f"];
            let told = run_on(&rt, &words, steady(file.as_bytes()))?;
            assert!(rt; is_same(&told, &one), "{words:?}: {told:?}");
        }
    }
    Ok(())
}

#[test]
fn a_graph_that_gives_its_variable_prints_it(rt: HostRuntime) -> Result<(), Fail> {
    let file = "flow 1\ngraph main\ninput x\noutput input\nbounds all num 1 den 0\n";
    let told = run_on(&rt, &["reconstruct", "f"], steady(file.as_bytes()))?;
    assert!(rt; is_told(&told, 0, "f1 = x\n", ""), "{told:?}");
    Ok(())
}

#[test]
fn a_modulus_without_a_good_attempt_is_told_with_its_gaps(rt: HostRuntime) -> Result<(), Fail> {
    let first =
        "flow: modulus 1 exhausted\nattempt 0 point 0 r division\nattempt 1 point 0 r division\nattempt 2 point 0 r division\nattempt 3 point 0 r division\nattempt 4 point 0 r division\nattempt 5 point 0 r division\nattempt 6 point 0 r division\nattempt 7 point 0 r division\n";
    let second =
        "flow: modulus 2 exhausted\nattempt 0 point 0 r division\nattempt 1 point 0 r division\nattempt 2 point 0 r division\nattempt 3 point 0 r division\nattempt 4 point 0 r division\nattempt 5 point 0 r division\nattempt 6 point 0 r division\nattempt 7 point 0 r division\n";
    let cases = [("x ; 1/(x-x)", first), ("1/9223372036854775783", second)];
    for (exprs, err) in cases {
        let file = with_bounds(rt.alloc(), exprs, "bounds all num 0 den 0")?;
        let told = run_on(&rt, &["reconstruct", "f"], steady(file.as_bytes()))?;
        assert!(rt; is_told(&told, 5, "", err), "{exprs}: {told:?}");
    }
    Ok(())
}

#[test]
fn what_a_file_lacks_for_functions_is_told(rt: HostRuntime) -> Result<(), Fail> {
    let cases = [
        ("point 1 2", 3, "flow: line 7: missing\n"),
        ("bounds all num 65 den 0", 3, "flow: line 6: limit\n"),
        ("bounds all num 31 den 31", 3, "flow: line 6: limit\n"),
        ("bounds all num 1 d", 3, "flow: line 6: syntax\n"),
        (
            "bounds all num 1 den 0\nbounds all num 1 den 0",
            3,
            "flow: line 7: repeated\n",
        ),
        (
            "bounds all num 1 den 0\nbounds 2 num 1 den 0",
            4,
            "flow: graph main node r length\n",
        ),
    ];
    for (lines, status, err) in cases {
        let file = with_bounds(rt.alloc(), "x", lines)?;
        let told = run_on(&rt, &["reconstruct", "f"], steady(file.as_bytes()))?;
        assert!(rt; is_told(&told, status, "", err), "{lines}: {told:?}");
    }
    Ok(())
}

/// The relations that integration by parts gives for the one-loop bubble, as `data/bubble.flow` of the program has them.
const BUBBLE: &str =
    "flow 1\ngraph main\ninput d s m\nnode c eval input = s-2*m ; -4*m ; -1 ; d-5 ; -2*m ; 2*s-4*m ; d-4 ; -2 ; 2*s-4*m ; -2*m ; d-4 ; -2 ; -4*m ; s-2*m ; d-5 ; -1 ; s-2*m ; -2*m ; d-3 ; -1 ; -2*m ; s-2*m ; d-3 ; -1 ; -4*m ; d-4 ; -4*m ; d-4 ; -2*m ; d-2 ; -2*m ; d-2\nnode r sparse c 12 want 5 2\nrow 2 3 4 5\nrow 2 3 5 8\nrow 1 2 4 7\nrow 1 2 4 5\nrow 4 5 6 9\nrow 4 5 6 10\nrow 8 10\nrow 7 9\nrow 10 12\nrow 9 11\noutput r\nbounds all num 3 2 1 1 den 4 0 3 3\n";

#[test]
fn integrals_are_reduced_to_master_integrals(rt: HostRuntime) -> Result<(), Fail> {
    let out =
        "f1 = (-d + 3)/(s - 4*m)\nf2 = (d - 2)/(s^2 - 4*s*m)\nf3 = (1/2*d*s - d*m - s + 2*m)/(s^2*m - 4*s*m^2)\nf4 = 0\nf5 = (d^2*s - 9*d*s + 4*d*m + 18*s - 12*m)/(s^3 - 8*s^2*m + 16*s*m^2)\nf6 = (-d^2*m + 1/2*d*s + 5*d*m - s - 6*m)/(s^3*m - 8*s^2*m^2 + 16*s*m^3)\nf7 = (-d^2*m + 1/2*d*s + 5*d*m - s - 6*m)/(s^3*m - 8*s^2*m^2 + 16*s*m^3)\nf8 = 0\n";
    let told = run_on(&rt, &["reconstruct", "f"], steady(BUBBLE.as_bytes()))?;
    assert!(rt; is_told(&told, 0, out, ""), "{told:?}");
    let learned = run_on(&rt, &["learn", "f"], steady(BUBBLE.as_bytes()))?;
    assert!(rt;
        is_told(
            &learned,
            0,
            "graph main point 0 length 8\nsolver r independent 6 11 12\n",
            ""
        ),
        "{learned:?}"
    );
    Ok(())
}
