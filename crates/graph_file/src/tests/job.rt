//! Lines of the job.
use super::{TWO_QUOTIENTS, is_refused, read};
use crate::{FileError, FileKind, Job, Need, Special, read_graphs};
use poly_maps::{Bound, Bounds};
use rational_lift::Coeff;
use std::alloc::Global;
use std::process::Abort;
use std::test::Fail;

/// A file of one node over these variables, with these lines of the job.
fn with_job_lines(alloc: Global, variables: &[u8], lines: &[u8]) -> Result<Vec<u8>, Fail> {
    let mut bytes = Vec::from_slice(alloc, b"flow 1\ngraph main\ninput ")?;
    bytes.extend_from_slice(variables)?;
    bytes.extend_from_slice(b"\nnode r eval input = x\noutput r\n")?;
    bytes.extend_from_slice(lines)?;
    Ok(bytes)
}

fn bound(total: u32, first: u32, second: u32) -> Bound {
    Bound {
        total,
        each: [first, second, 0, 0, 0, 0, 0, 0],
    }
}

fn read_functions(rt: &impl Abort, alloc: Global, bytes: &[u8]) -> Result<Job, FileError> {
    assert!(rt; bytes.len() <= 16777216);
    read_graphs(alloc, bytes, Need::Functions)
}

#[test]
fn bounds_are_read_with_their_degrees(rt: HostRuntime) -> Result<(), Fail> {
    let bytes = with_job_lines(
        rt.alloc(),
        b"x y",
        b"bounds 2 num 5 7 0 den 3\npoint 1 2\nbounds all num 2 den 4 1 9\ncoeff 5 07\nbounds 03 num 0 den 64 1 0\n",
    )?;
    let job = read_functions(&rt, rt.alloc(), bytes.as_slice())?;
    assert_eq!(rt; job.need, Need::Functions);
    assert_eq!(rt; job.points.len(), 1);
    assert_eq!(rt; job.coeff, Coeff { num: 5, den: 7 });
    let every = Bounds {
        num: bound(2, 2, 2),
        den: bound(4, 1, 4),
    };
    let second = Bounds {
        num: bound(5, 5, 0),
        den: bound(3, 3, 3),
    };
    let third = Bounds {
        num: bound(0, 0, 0),
        den: bound(64, 1, 0),
    };
    assert_eq!(rt; job.all, Some(every));
    assert_eq!(rt; job.special.len(), 2);
    assert_eq!(rt;
        job.special.get(0),
        Some(&Special {
            output: 2,
            bounds: second
        })
    );
    assert_eq!(rt;
        job.special.get(1),
        Some(&Special {
            output: 3,
            bounds: third
        })
    );
    assert!(rt; job.all.is_some());
    assert_eq!(rt; job.bounds_of(1), every);
    assert_eq!(rt; job.bounds_of(2), second);
    assert_eq!(rt; job.bounds_of(3), third);
    assert_eq!(rt; job.bounds_of(4), every);
    let grid = job.grid();
    assert_eq!(rt; (grid.variables, grid.total), (2, 64));
    assert_eq!(rt; grid.each, [8, 6, 0, 0, 0, 0, 0, 0]);
    Ok(())
}

#[test]
fn without_a_line_coefficients_have_bounds(rt: HostRuntime) -> Result<(), Fail> {
    let job = read(&rt, rt.alloc(), TWO_QUOTIENTS)?;
    assert_eq!(rt;
        job.coeff,
        Coeff {
            num: 2305843009213693952,
            den: 2305843009213693952
        }
    );
    assert_eq!(rt; job.all, None);
    assert_eq!(rt; job.special.len(), 0);
    Ok(())
}

#[test]
fn lines_of_the_job_are_read_up_to_their_limits(rt: HostRuntime) -> Result<(), Fail> {
    for (variables, lines) in [
        (b"x y".as_slice(), b"bounds all num 30 den 30".as_slice()),
        (b"x y", b"bounds all num 62 0 62 den 60 30 30"),
        (b"x", b"bounds 262144 num 64 den 64"),
        (b"x", b"bounds all num 0 99999999999999999999 den 0"),
        (b"x", b"bounds 1 num 0 den 0\nbounds all num 0 den 0"),
        (
            b"x y z",
            b"bounds 1 num 61 0 31 0 den 0\nbounds 2 num 31 0 0 31 den 0",
        ),
        (b"x", b"coeff 10633823966279326949795732848644194316 1"),
        (b"x", b"coeff 1 010633823966279326949795732848644194316"),
    ] {
        let bytes = with_job_lines(rt.alloc(), variables, lines)?;
        let job = read(&rt, rt.alloc(), bytes.as_slice())?;
        assert_eq!(rt; job.points.len(), 0);
    }
    Ok(())
}

#[test]
fn lines_of_the_job_past_their_limits_are_told(rt: HostRuntime) -> Result<(), Fail> {
    for (variables, lines, line) in [
        (b"x y".as_slice(), b"bounds all num 31 den 31".as_slice(), 6),
        (b"x y", b"bounds all num 63 0 63 den 60 30 30", 6),
        (b"x y z u v w p q", b"bounds all num 64 den 64", 6),
        (b"x", b"bounds all num 65 den 0", 6),
        (b"x", b"bounds all num 0 den 65", 6),
        (b"x", b"bounds all num 99999999999999999999 den 0", 6),
        (b"x", b"bounds 0 num 0 den 0", 6),
        (b"x", b"bounds 262145 num 0 den 0", 6),
        (b"x", b"bounds 99999999999999999999 num 0 den 0", 6),
        (
            b"x y z",
            b"bounds 1 num 61 0 31 0 den 0\nbounds 2 num 32 0 0 32 den 0",
            7,
        ),
        (
            b"x y z",
            b"bounds 2 num 32 0 0 32 den 0\nbounds all num 61 0 31 0 den 0",
            7,
        ),
        (b"x", b"coeff 10633823966279326949795732848644194317 1", 6),
        (b"x", b"coeff 0 1", 6),
        (b"x", b"coeff 1 0", 6),
        (b"x", b"coeff 1 340282366920938463463374607431768211456", 6),
        (b"x", b"coeff 340282366920938463463374607431768211456 0", 6),
    ] {
        let bytes = with_job_lines(rt.alloc(), variables, lines)?;
        assert!(rt; is_refused(&rt, rt.alloc(), bytes.as_slice(), line, FileKind::Limit));
    }
    Ok(())
}

#[test]
fn lines_of_the_job_out_of_form_are_told(rt: HostRuntime) -> Result<(), Fail> {
    for lines in [
        b"bounds all".as_slice(),
        b"bounds all num 1",
        b"bounds all num den 1",
        b"bounds all num 1 den",
        b"bounds all den 1 num 1",
        b"bounds every num 1 den 1",
        b"bounds -1 num 1 den 1",
        b"bounds all num 1 1 den 1",
        b"bounds all num 1 den 1 1 1 1",
        b"bounds all num 1 den 1 den 1",
        b"bounds all num 65 1 den 1",
        b"coeff 1",
        b"coeff 1 2 3",
        b"coeff a 1",
        b"coeff 1 1\ngraph other",
    ] {
        let bytes = with_job_lines(rt.alloc(), b"x y", lines)?;
        let line = if lines.contains(&b'\n') { 7 } else { 6 };
        assert!(rt; is_refused(&rt, rt.alloc(), bytes.as_slice(), line, FileKind::Syntax));
    }
    assert!(rt;
        is_refused(
            &rt,
            rt.alloc(),
            b"flow 1\ngraph main\ninput x\nbounds all num 1 den 1",
            4,
            FileKind::Syntax
        )
    );
    assert!(rt; is_refused(&rt, rt.alloc(), b"flow 1\ncoeff 1 1", 2, FileKind::Syntax));
    Ok(())
}

#[test]
fn second_bounds_are_told(rt: HostRuntime) -> Result<(), Fail> {
    for lines in [
        b"coeff 1 1\ncoeff 0 1".as_slice(),
        b"bounds 1 num 0 den 0\nbounds 01 num 65 den 0",
        b"bounds all num 0 den 0\nbounds all num 0 den 0",
    ] {
        let bytes = with_job_lines(rt.alloc(), b"x", lines)?;
        assert!(rt; is_refused(&rt, rt.alloc(), bytes.as_slice(), 7, FileKind::Repeated));
    }
    Ok(())
}

#[test]
fn functions_need_bounds_for_every_output(rt: HostRuntime) -> Result<(), Fail> {
    let lacking = with_job_lines(rt.alloc(), b"x", b"bounds 1 num 1 den 1\n")?;
    let whole = with_job_lines(rt.alloc(), b"x", b"bounds all num 1 den 1\n")?;
    assert!(rt; read(&rt, rt.alloc(), lacking.as_slice()).is_ok());
    assert!(rt; read_functions(&rt, rt.alloc(), whole.as_slice()).is_ok());
    match read_functions(&rt, rt.alloc(), lacking.as_slice()) {
        Ok(_) => Err(Fail::from("bounds for every output are missing")),
        Err(error) => {
            assert_eq!(rt;
                error,
                FileError {
                    line: 7,
                    kind: FileKind::Missing
                }
            );
            Ok(())
        }
    }
}
