use crate::{FileError, FileKind, Graph, Job, Need, Node, NodeKind, Source, Special, read_graphs};
use poly_maps::Point;
use ratfun_text::{ExprError, ExprKind};
use std::alloc::Global;
use std::process::Abort;
use std::test::Fail;

mod expansions;
mod job;

const TWO_QUOTIENTS: &[u8] =
    b"flow 1\ngraph main\ninput x y\nnode r eval input = x/(x+y) ; 1/y\noutput r\npoint 1 2\n";

fn read(rt: &impl Abort, alloc: Global, bytes: &[u8]) -> Result<Job, FileError> {
    assert!(rt; bytes.len() <= 16777216);
    read_graphs(alloc, bytes, Need::Points)
}

fn is_refused(rt: &impl Abort, alloc: Global, bytes: &[u8], line: usize, kind: FileKind) -> bool {
    match read(rt, alloc, bytes) {
        Ok(_) => false,
        Err(error) => error == FileError { line, kind },
    }
}

fn refused_expression(expression: u32, place: usize, kind: ExprKind) -> FileKind {
    FileKind::Expr {
        expression,
        error: ExprError { place, kind },
    }
}

fn crosses<T: Send + Sync>() {}

#[test]
fn types_cross_threads() {
    crosses::<Source>();
    crosses::<Point>();
    crosses::<Need>();
    crosses::<Special>();
    crosses::<FileError>();
}

#[test]
fn two_quotients_are_read(rt: HostRuntime) -> Result<(), Fail> {
    for bytes in [
        TWO_QUOTIENTS,
        b"flow 01\n# a comment \xff\ngraph main\n \t\r\ninput x y\nnode r eval input = x/(x+y) ; 1/y\n  # b\noutput r\npoint 1 2",
        b"flow 1\r\ngraph main\r\ninput x y\r\nnode r eval input = x/(x+y) ; 1/y\r\noutput r\r\npoint 1 2\r\n",
    ] {
        let job = read(&rt, rt.alloc(), bytes)?;
        assert_eq!(rt; job.need, Need::Points);
        assert_eq!(rt; job.graphs.len(), 1);
        assert_eq!(rt; job.points.len(), 1);
        let graph = job.graphs.get(0).expect(&rt, "the graph");
        assert_eq!(rt; graph.name.bytes(), b"main".as_slice());
        assert_eq!(rt; graph.inputs.len(), 2);
        assert_eq!(rt; graph.output, Source::Node(0));
        assert_eq!(rt; graph.nodes.len(), 1);
        let node = graph.nodes.get(0).expect(&rt, "the node");
        assert_eq!(rt; node.name.bytes(), b"r".as_slice());
        assert!(rt; node.needed);
        let point = job.points.get(0).expect(&rt, "the point");
        assert_eq!(rt; point.entries(), [1, 2].as_slice());
    }
    Ok(())
}

#[test]
fn nodes_of_each_kind_are_read(rt: HostRuntime) -> Result<(), Fail> {
    let bytes =
        b"flow 1\ngraph main\ninput x y\nnode a eval input = x ; y ; x*y ; 2\nnode t take a 3 input 1\nnode s slice a 2 3\nnode c chain input a\nnode u sum a a\nnode p product a a\nnode m matmul a a 2 2 2\nnode z eval m = z4\noutput z\npoint 3 5\npoint 0 2305843009213693950\n";
    let job = read(&rt, rt.alloc(), bytes)?;
    assert_eq!(rt; job.points.len(), 2);
    let graph = job.graphs.get(0).expect(&rt, "the graph");
    assert_eq!(rt; graph.nodes.len(), 8);
    assert_eq!(rt; graph.output, Source::Node(7));
    for (place, needed) in [true, false, false, false, false, false, true, true]
        .iter()
        .enumerate()
    {
        let node = graph.nodes.get(place).expect(&rt, "a node");
        assert_eq!(rt; node.needed, *needed);
    }
    let node = graph.nodes.get(1).expect(&rt, "the node that takes");
    let NodeKind::Take { parts } = &node.kind else {
        return Err(Fail::from("another kind"));
    };
    assert_eq!(rt;
        parts.as_slice(),
        [(Source::Node(0), 3), (Source::Input, 1)].as_slice()
    );
    let node = graph.nodes.get(2).expect(&rt, "the slice");
    let NodeKind::Slice { from, first, last } = &node.kind else {
        return Err(Fail::from("another kind"));
    };
    assert_eq!(rt; (*from, *first, *last), (Source::Node(0), 2, 3));
    let node = graph.nodes.get(7).expect(&rt, "the last node");
    let NodeKind::Eval { from, exprs } = &node.kind else {
        return Err(Fail::from("another kind"));
    };
    assert_eq!(rt; *from, Source::Node(6));
    assert_eq!(rt; exprs.len(), 1);
    Ok(())
}

#[test]
fn systems_are_read_with_their_unknowns(rt: HostRuntime) -> Result<(), Fail> {
    for (line, expected) in [
        (b"dense input 2 3".as_slice(), [1, 2, 3].as_slice()),
        (b"dense input 2 3 want 3 1 3", [3, 1, 3].as_slice()),
        (b"dense input 02 3 want 2", [2].as_slice()),
    ] {
        let mut bytes = Vec::from_slice(rt.alloc(), b"flow 1\ngraph main\ninput x\nnode s ")?;
        bytes.extend_from_slice(line)?;
        bytes.extend_from_slice(b"\noutput s\n")?;
        let job = read(&rt, rt.alloc(), bytes.as_slice())?;
        let graph = job.graphs.get(0).expect(&rt, "the graph");
        let node = graph.nodes.get(0).expect(&rt, "the node");
        assert!(rt; node.needed);
        let NodeKind::Dense {
            from,
            rows,
            unknowns,
            want,
        } = &node.kind
        else {
            return Err(Fail::from("another kind"));
        };
        assert_eq!(rt; (*from, *rows, *unknowns), (Source::Input, 2, 3));
        assert_eq!(rt; want.as_slice(), expected);
    }
    Ok(())
}

#[test]
fn the_largest_system_is_read_for_learning(rt: HostRuntime) -> Result<(), Fail> {
    let bytes = b"flow 1\ngraph main\ninput x\nnode s dense input 512 511\noutput s\n";
    let job = read_graphs(rt.alloc(), bytes, Need::Learning)?;
    assert_eq!(rt; job.need, Need::Learning);
    let graph = job.graphs.get(0).expect(&rt, "the graph");
    let node = graph.nodes.get(0).expect(&rt, "the node");
    let NodeKind::Dense { want, .. } = &node.kind else {
        return Err(Fail::from("another kind"));
    };
    assert_eq!(rt; want.len(), 511);
    assert_eq!(rt; want.get(510), Some(&511));
    Ok(())
}

#[test]
fn rows_are_read_in_their_order(rt: HostRuntime) -> Result<(), Fail> {
    let bytes =
        b"flow 1\ngraph main\ninput x\nnode c eval input = 1 ; x ; 3 ; 4\nnode s sparse c 4096 want 4096 1\nrow 01\n# the second row\nrow 0 2 4096\nnode t chain s\noutput t\npoint 5\n";
    let job = read(&rt, rt.alloc(), bytes)?;
    let graph = job.graphs.get(0).expect(&rt, "the graph");
    assert_eq!(rt; graph.nodes.len(), 3);
    let node = graph.nodes.get(1).expect(&rt, "the node");
    assert!(rt; node.needed);
    let NodeKind::Sparse {
        from,
        unknowns,
        want,
        rows,
    } = &node.kind
    else {
        return Err(Fail::from("another kind"));
    };
    assert_eq!(rt; (*from, *unknowns), (Source::Node(0), 4096));
    assert_eq!(rt; want.as_slice(), [4096, 1].as_slice());
    assert_eq!(rt; rows.len(), 2);
    let row = rows.get(0).expect(&rt, "the first row");
    assert_eq!(rt; row.columns.as_slice(), [1].as_slice());
    let row = rows.get(1).expect(&rt, "the second row");
    assert_eq!(rt; row.columns.as_slice(), [0, 2, 4096].as_slice());
    Ok(())
}

#[test]
fn entries_are_read_up_to_their_limit(rt: HostRuntime) -> Result<(), Fail> {
    let mut bytes = Vec::from_slice(
        rt.alloc(),
        b"flow 1\ngraph main\ninput x\nnode s sparse input 4096\n",
    )?;
    for _turn in 0..16 {
        bytes.extend_from_slice(b"row")?;
        for column in 1..4097 {
            let word = format!(in rt.alloc(); " {column}")?;
            bytes.extend_from_slice(word.as_bytes())?;
        }
        bytes.extend_from_slice(b"\n")?;
    }
    let mut more = Vec::from_slice(rt.alloc(), bytes.as_slice())?;
    bytes.extend_from_slice(b"output s\n")?;
    let job = read(&rt, rt.alloc(), bytes.as_slice())?;
    let graph = job.graphs.get(0).expect(&rt, "the graph");
    assert_eq!(rt; graph.output, Source::Node(0));
    more.extend_from_slice(b"row 0\n")?;
    assert!(rt; is_refused(&rt, rt.alloc(), more.as_slice(), 21, FileKind::Limit));
    Ok(())
}

#[test]
fn the_input_may_be_the_output(rt: HostRuntime) -> Result<(), Fail> {
    let job = read(
        &rt,
        rt.alloc(),
        b"flow 1\ngraph input\ninput input y\nnode r eval input = y/(input+y)\noutput input",
    )?;
    assert_eq!(rt; job.points.len(), 0);
    let graph = job.graphs.get(0).expect(&rt, "the graph");
    assert_eq!(rt; graph.output, Source::Input);
    let node = graph.nodes.get(0).expect(&rt, "the node");
    assert!(rt; !node.needed);
    Ok(())
}

#[test]
fn lines_out_of_form_are_told(rt: HostRuntime) {
    for (bytes, line) in [
        (b"".as_slice(), 1),
        (b"# a note\nflow 1\n", 1),
        (b"flow one\n", 1),
        (b"flow 1\ngra", 2),
        (b"flow 1\nflow 1\n", 2),
        (b"flow 1\ngraph main\n\ninput\n", 4),
        (b"flow 1\ngraph main\ninput x\nnode r chain\n", 4),
        (
            b"flow 1\ngraph main\ninput x\nnode r take input 1 input\n",
            4,
        ),
        (
            b"flow 1\ngraph main\ninput x\nnode r slice input 1 2 3\n",
            4,
        ),
        (b"flow 1\ngraph main\ninput x\nnode r eval input x\n", 4),
        (b"flow 1\ngraph main\ninput x\nnode r sparse input\n", 4),
        (
            b"flow 1\ngraph main\ninput x\nnode r sparse input 1\noutput r\n",
            5,
        ),
        (
            b"flow 1\ngraph main\ninput x\nnode r sparse input 1\nnode t chain r\n",
            5,
        ),
        (
            b"flow 1\ngraph main\ninput x\nnode r sparse input 1\nrow\n",
            5,
        ),
        (
            b"flow 1\ngraph main\ninput x\nnode r sparse input 1\nrow 1 1\n",
            5,
        ),
        (
            b"flow 1\ngraph main\ninput x\nnode r sparse input 2\nrow 2 02\n",
            5,
        ),
        (
            b"flow 1\ngraph main\ninput x\nnode r sparse input 2\nrow 10 9\n",
            5,
        ),
        (b"flow 1\ngraph main\ninput x\nrow 1\n", 4),
        (
            b"flow 1\ngraph main\ninput x\nnode r chain input\nrow 1\n",
            5,
        ),
        (b"flow 1\ngraph main\ninput x\nnode r dense input 1\n", 4),
        (
            b"flow 1\ngraph main\ninput x\nnode r dense input 1 one\n",
            4,
        ),
        (
            b"flow 1\ngraph main\ninput x\nnode r dense input 1 2 want\n",
            4,
        ),
        (
            b"flow 1\ngraph main\ninput x\nnode r dense input 1 2 want 1 z\n",
            4,
        ),
        (
            b"flow 1\ngraph main\ninput x\nnode r dense input 1 2 2\n",
            4,
        ),
        (
            b"flow 1\ngraph main\ninput x\noutput input\npoint 1\ngraph next\n",
            6,
        ),
        (
            b"flow 1\ngraph main\ninput x\noutput input\ncoeff 1 1\ngraph next\n",
            6,
        ),
        (b"flow 1\ngraph main\ninput x\ngraph next\n", 4),
        (b"flow 1\ngraph main\ninput x\nnode a call main\n", 4),
        (b"flow 1\ngraph main\ninput x\nnode a memo\n", 4),
        (b"flow 1\ngraph main\ninput x\nnode a map main\n", 4),
        (
            b"flow 1\ngraph main\ninput x\nnode a chain input\ngraph next\n",
            5,
        ),
        (
            b"flow 1\ngraph one\ninput x\noutput input\ngraph two\ninput x y\noutput input\npoint 1\n",
            8,
        ),
        (b"flow 1\ngraph main\ninput x\noutput input \x7f\n", 4),
        (b"flow 1\ngraph main\ninput x y\noutput input\npoint 1\n", 5),
        (
            b"flow 1\ngraph main\ninput x y\noutput input\npoint 1 -2\n",
            5,
        ),
    ] {
        assert!(rt; is_refused(&rt, rt.alloc(), bytes, line, FileKind::Syntax));
    }
}

#[test]
fn the_first_kind_is_told_at_its_line(rt: HostRuntime) {
    for (bytes, line, kind) in [
        (b"flow 3\ngraph main\n".as_slice(), 1, FileKind::Version),
        (b"flow 1\ngraph main\ninput x y x\n", 3, FileKind::Repeated),
        (
            b"flow 1\ngraph main\ninput x\nnode a sum input\nnode a sum b\n",
            5,
            FileKind::Repeated,
        ),
        (
            b"flow 1\ngraph main\ninput x\nnode input sum b\n",
            4,
            FileKind::Repeated,
        ),
        (
            b"flow 1\ngraph main\ninput x\n\nnode a sum b\n",
            5,
            FileKind::UnknownNode,
        ),
        (
            b"flow 1\ngraph main\ninput x\noutput x\n",
            4,
            FileKind::UnknownNode,
        ),
        (
            b"flow 1\ngraph main\ninput x\nnode a slice b 0 9\n",
            4,
            FileKind::UnknownNode,
        ),
        (
            b"flow 1\ngraph main\ninput x\nnode a dense b 513 1\n",
            4,
            FileKind::UnknownNode,
        ),
        (
            b"flow 1\ngraph main\ninput x\noutput input\npoint 2305843009213693951\n",
            5,
            FileKind::Residue,
        ),
        (
            b"flow 1\ngraph main\ninput x\noutput input\npoint 99999999999999999999999999999999999999999\n",
            5,
            FileKind::Residue,
        ),
        (
            b"flow 1\ngraph main\ninput a b c d e f g h i\n",
            3,
            FileKind::Limit,
        ),
        (
            b"flow 1\ngraph abcdefghijklmnopqrstuvwxyz0123456\n",
            2,
            FileKind::Limit,
        ),
        (
            b"flow 1\ngraph main\ninput x\nnode a slice input 2 1\n",
            4,
            FileKind::Limit,
        ),
        (
            b"flow 1\ngraph main\ninput x\nnode a take input 0\n",
            4,
            FileKind::Limit,
        ),
        (
            b"flow 1\ngraph main\ninput x\nnode a take input 262145\n",
            4,
            FileKind::Limit,
        ),
        (
            b"flow 1\ngraph main\ninput x\nnode a matmul input input 512 1 513\n",
            4,
            FileKind::Limit,
        ),
        (
            b"flow 1\ngraph main\ninput x\nnode a dense input 0 1\n",
            4,
            FileKind::Limit,
        ),
        (
            b"flow 1\ngraph main\ninput x\nnode a dense input 513 1\n",
            4,
            FileKind::Limit,
        ),
        (
            b"flow 1\ngraph main\ninput x\nnode a dense input 1 0\n",
            4,
            FileKind::Limit,
        ),
        (
            b"flow 1\ngraph main\ninput x\nnode a dense input 1 512\n",
            4,
            FileKind::Limit,
        ),
        (
            b"flow 1\ngraph main\ninput x\nnode a dense input 512 512\n",
            4,
            FileKind::Limit,
        ),
        (
            b"flow 1\ngraph main\ninput x\nnode a dense input 1 99999999999999999999\n",
            4,
            FileKind::Limit,
        ),
        (
            b"flow 1\ngraph main\ninput x\nnode a dense input 2 2 want 0\n",
            4,
            FileKind::Limit,
        ),
        (
            b"flow 1\ngraph main\ninput x\nnode a dense input 2 2 want 1 3\n",
            4,
            FileKind::Limit,
        ),
        (
            b"flow 1\ngraph main\ninput x y\nnode r eval input = x/(x+y) ; 1/y\n",
            5,
            FileKind::Missing,
        ),
        (b"flow 1", 1, FileKind::Missing),
        (
            b"flow 1\ngraph main\ninput x\nnode r sparse input 1\n",
            5,
            FileKind::Missing,
        ),
        (
            b"flow 1\ngraph one\ninput x\noutput input\ngraph two\ninput x\n",
            7,
            FileKind::Missing,
        ),
        (
            b"flow 1\ngraph one\ninput x\noutput input\ngraph one\n",
            5,
            FileKind::Repeated,
        ),
        (
            b"flow 1\ngraph one\ninput x\noutput input\ngraph two\ninput x\noutput input\ngraph one\n",
            8,
            FileKind::Repeated,
        ),
        (
            b"flow 1\ngraph one\ninput x\nnode a sum input\noutput a\ngraph two\ninput x\nnode b sum a\n",
            8,
            FileKind::UnknownNode,
        ),
        (
            b"flow 1\ngraph one\ninput x\noutput input\ngraph two\ninput x\nnode a sum input\nnode a sum input\n",
            8,
            FileKind::Repeated,
        ),
        (
            b"flow 1\ngraph one\ninput x\noutput input\ngraph abcdefghijklmnopqrstuvwxyz0123456\n",
            5,
            FileKind::Limit,
        ),
        (
            b"flow 1\ngraph main\ninput x\nnode a call main b\n",
            4,
            FileKind::UnknownGraph,
        ),
        (
            b"flow 1\ngraph main\ninput x\nnode a memo 7 b\n",
            4,
            FileKind::UnknownGraph,
        ),
        (
            b"flow 1\ngraph one\ninput x\noutput input\ngraph two\ninput x\nnode a map two input\n",
            7,
            FileKind::UnknownGraph,
        ),
        (
            b"flow 1\ngraph one\ninput x\noutput input\ngraph two\ninput x\nnode a map one b\n",
            7,
            FileKind::UnknownNode,
        ),
        (
            b"flow 1\ngraph main\ninput x\nnode a sum input\nnode a call main b\n",
            5,
            FileKind::Repeated,
        ),
        (
            b"flow 1\ngraph main\ninput x\nnode r sparse b 4097\n",
            4,
            FileKind::UnknownNode,
        ),
        (
            b"flow 1\ngraph main\ninput x\nnode r sparse input 0\n",
            4,
            FileKind::Limit,
        ),
        (
            b"flow 1\ngraph main\ninput x\nnode r sparse input 4097\n",
            4,
            FileKind::Limit,
        ),
        (
            b"flow 1\ngraph main\ninput x\nnode r sparse input 2 want 3\n",
            4,
            FileKind::Limit,
        ),
        (
            b"flow 1\ngraph main\ninput x\nnode r sparse input 1\nrow 0 2\n",
            5,
            FileKind::Limit,
        ),
        (
            b"flow 1\ngraph main\ninput x\nnode r sparse input 1\nrow 4294967295 4294967296\n",
            5,
            FileKind::Limit,
        ),
    ] {
        assert!(rt; is_refused(&rt, rt.alloc(), bytes, line, kind));
    }
}

#[test]
fn the_first_refused_expression_is_told(rt: HostRuntime) {
    for (bytes, kind) in [
        (
            b"flow 1\ngraph main\ninput x y\nnode r eval input = x/(x+y) ; 1/w\n".as_slice(),
            refused_expression(2, 3, ExprKind::UnknownName),
        ),
        (
            b"flow 1\ngraph main\ninput x y\nnode r eval input = x/(x+y) ; 1/",
            refused_expression(2, 3, ExprKind::Unexpected),
        ),
        (
            b"flow 1\ngraph main\ninput x y\nnode r eval input =\n",
            refused_expression(1, 0, ExprKind::Unexpected),
        ),
        (
            b"flow 1\ngraph main\ninput x y\nnode r eval input = x;\n",
            refused_expression(2, 0, ExprKind::Unexpected),
        ),
    ] {
        assert!(rt; is_refused(&rt, rt.alloc(), bytes, 4, kind));
    }
}

#[test]
fn graphs_are_read_with_their_own_names(rt: HostRuntime) -> Result<(), Fail> {
    let bytes =
        b"flow 1\ngraph one\ninput x input\nnode a eval input = x ; input\nnode two chain a\noutput a\ngraph two\ninput x\nnode a sum input\nnode two chain a\noutput two\ngraph input\ninput a b c\noutput input\npoint 1 2 3\n";
    let job = read(&rt, rt.alloc(), bytes)?;
    assert_eq!(rt; job.graphs.len(), 3);
    let graph = job.graphs.get(0).expect(&rt, "the first graph");
    assert_eq!(rt; graph.name.bytes(), b"one".as_slice());
    assert_eq!(rt; graph.inputs.len(), 2);
    assert_eq!(rt; graph.nodes.len(), 2);
    assert_eq!(rt; graph.output, Source::Node(0));
    let node = graph.nodes.get(1).expect(&rt, "a node that isn't needed");
    assert!(rt; !node.needed);
    let graph = job.graphs.get(1).expect(&rt, "the second graph");
    assert_eq!(rt; graph.name.bytes(), b"two".as_slice());
    assert_eq!(rt; graph.inputs.len(), 1);
    assert_eq!(rt; graph.output, Source::Node(1));
    let node = graph.nodes.get(0).expect(&rt, "a node that is read");
    assert_eq!(rt; node.name.bytes(), b"a".as_slice());
    assert!(rt; node.needed);
    let NodeKind::Sum { parts } = &node.kind else {
        return Err(Fail::from("another kind"));
    };
    assert_eq!(rt; parts.as_slice(), [Source::Input].as_slice());
    let graph = job.graphs.get(2).expect(&rt, "the main graph");
    assert_eq!(rt; graph.name.bytes(), b"input".as_slice());
    assert_eq!(rt; graph.inputs.len(), 3);
    assert_eq!(rt; graph.nodes.len(), 0);
    assert_eq!(rt; graph.output, Source::Input);
    assert_eq!(rt; job.points.len(), 1);
    Ok(())
}

#[test]
fn graphs_are_read_up_to_their_limit(rt: HostRuntime) -> Result<(), Fail> {
    let mut bytes = Vec::from_slice(rt.alloc(), b"flow 1\n")?;
    for turn in 0..64 {
        let lines = format!(in rt.alloc(); "graph g{turn}\ninput x\noutput input\n")?;
        bytes.extend_from_slice(lines.as_bytes())?;
    }
    let job = read(&rt, rt.alloc(), bytes.as_slice())?;
    assert_eq!(rt; job.graphs.len(), 64);
    let graph = job.graphs.get(63).expect(&rt, "the main graph");
    assert_eq!(rt; graph.name.bytes(), b"g63".as_slice());
    let mut again = Vec::from_slice(rt.alloc(), bytes.as_slice())?;
    bytes.extend_from_slice(b"graph more\n")?;
    assert!(rt; is_refused(&rt, rt.alloc(), bytes.as_slice(), 194, FileKind::Limit));
    again.extend_from_slice(b"graph g0\n")?;
    assert!(rt; is_refused(&rt, rt.alloc(), again.as_slice(), 194, FileKind::Repeated));
    Ok(())
}

#[test]
fn calls_are_read_with_their_graphs(rt: HostRuntime) -> Result<(), Fail> {
    let bytes =
        b"flow 1\ngraph one\ninput x\noutput input\ngraph input\ninput x\nnode a memo one input\noutput a\ngraph main\ninput x y\nnode a call input input input\nnode b map one a input\nnode c memo one b\noutput b\n";
    let job = read(&rt, rt.alloc(), bytes)?;
    assert_eq!(rt; job.graphs.len(), 3);
    let graph = job.graphs.get(2).expect(&rt, "the main graph");
    let node = graph.nodes.get(0).expect(&rt, "a call");
    let NodeKind::Call {
        graph: called,
        parts,
    } = &node.kind
    else {
        return Err(Fail::from("another kind"));
    };
    assert_eq!(rt; *called, 1);
    assert_eq!(rt; parts.as_slice(), [Source::Input, Source::Input].as_slice());
    assert!(rt; node.needed);
    let node = graph.nodes.get(1).expect(&rt, "a map");
    let NodeKind::Map {
        graph: called,
        parts,
    } = &node.kind
    else {
        return Err(Fail::from("another kind"));
    };
    assert_eq!(rt; *called, 0);
    assert_eq!(rt;
        parts.as_slice(),
        [Source::Node(0), Source::Input].as_slice()
    );
    assert!(rt; node.needed);
    let node = graph.nodes.get(2).expect(&rt, "a memo that isn't needed");
    let NodeKind::Memo {
        graph: called,
        parts,
    } = &node.kind
    else {
        return Err(Fail::from("another kind"));
    };
    assert_eq!(rt; *called, 0);
    assert_eq!(rt; parts.as_slice(), [Source::Node(1)].as_slice());
    assert!(rt; !node.needed);
    Ok(())
}

#[test]
fn calls_are_read_up_to_their_depth(rt: HostRuntime) -> Result<(), Fail> {
    let mut bytes = Vec::from_slice(rt.alloc(), b"flow 1\ngraph g1\ninput x\noutput input\n")?;
    for turn in 1..8 {
        let next = turn + 1;
        let lines = format!(in rt.alloc();
            "graph g{next}\ninput x\nnode c call g{turn} input\noutput input\n"
        )?;
        bytes.extend_from_slice(lines.as_bytes())?;
    }
    let job = read(&rt, rt.alloc(), bytes.as_slice())?;
    assert_eq!(rt; job.graphs.len(), 8);
    bytes.extend_from_slice(b"graph main\ninput x\nnode a call g7 input\n")?;
    let mut deep = Vec::from_slice(rt.alloc(), bytes.as_slice())?;
    bytes.extend_from_slice(b"output a\n")?;
    let job = read(&rt, rt.alloc(), bytes.as_slice())?;
    assert_eq!(rt; job.graphs.len(), 9);
    deep.extend_from_slice(b"node b map g8 input\n")?;
    assert!(rt; is_refused(&rt, rt.alloc(), deep.as_slice(), 36, FileKind::Limit));
    Ok(())
}

#[test]
fn points_are_read_up_to_their_limit(rt: HostRuntime) -> Result<(), Fail> {
    let mut bytes = Vec::from_slice(rt.alloc(), b"flow 1\ngraph main\ninput x\noutput input\n")?;
    for _turn in 0..65536 {
        bytes.extend_from_slice(b"point 7\n")?;
    }
    let job = read(&rt, rt.alloc(), bytes.as_slice())?;
    assert_eq!(rt; job.points.len(), 65536);
    bytes.extend_from_slice(b"point 7\n")?;
    assert!(rt; is_refused(&rt, rt.alloc(), bytes.as_slice(), 65541, FileKind::Limit));
    Ok(())
}

#[test]
fn nodes_are_read_up_to_their_limit(rt: HostRuntime) -> Result<(), Fail> {
    let mut bytes = Vec::from_slice(rt.alloc(), b"flow 1\ngraph main\ninput x\n")?;
    for turn in 0..4096 {
        let line = format!(in rt.alloc(); "node n{turn} chain input\n")?;
        bytes.extend_from_slice(line.as_bytes())?;
    }
    let mut more = Vec::from_slice(rt.alloc(), bytes.as_slice())?;
    bytes.extend_from_slice(b"output n4095\n")?;
    let job = read(&rt, rt.alloc(), bytes.as_slice())?;
    let graph = job.graphs.get(0).expect(&rt, "the graph");
    assert_eq!(rt; graph.nodes.len(), 4096);
    assert_eq!(rt; graph.output, Source::Node(4095));
    more.extend_from_slice(b"node n chain input\n")?;
    assert!(rt; is_refused(&rt, rt.alloc(), more.as_slice(), 4100, FileKind::Limit));
    Ok(())
}
