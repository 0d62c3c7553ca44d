//! Nodes that expand quotients.
use super::{is_refused, read};
use crate::{FileKind, NodeKind, Source};
use std::alloc::Global;
use std::test::Fail;

/// A graph of one variable and one with an expansion of it, whose node has these words behind `laurent`.
fn with_expansion(alloc: Global, words: &[u8]) -> Result<Vec<u8>, Fail> {
    let mut bytes = Vec::from_slice(
        alloc,
        b"flow 1\ngraph g\ninput x\noutput input\ngraph main\ninput x y\nnode l laurent ",
    )?;
    bytes.extend_from_slice(words)?;
    bytes.extend_from_slice(b"\noutput l\n")?;
    Ok(bytes)
}

#[test]
fn expansions_are_read_with_their_numbers(rt: HostRuntime) -> Result<(), Fail> {
    for (words, orders, degrees, sources) in [
        (b"g -1 2 3 5".as_slice(), (-1, 2), (3, 5), [].as_slice()),
        (
            b"g 2 3 5 7 input input",
            (2, 3),
            (5, 7),
            [Source::Input, Source::Input].as_slice(),
        ),
        (b"g -64 64 64 64", (-64, 64), (64, 64), [].as_slice()),
        (b"g -064 -64 0 00", (-64, -64), (0, 0), [].as_slice()),
        (b"g 64 64 64 0", (64, 64), (64, 0), [].as_slice()),
        (b"g -0 0 0 64", (0, 0), (0, 64), [].as_slice()),
    ] {
        let bytes = with_expansion(rt.alloc(), words)?;
        let job = read(&rt, rt.alloc(), bytes.as_slice())?;
        let main = job.graphs.get(1).expect(&rt, "the main graph");
        let node = main.nodes.get(0).expect(&rt, "the expansion");
        let NodeKind::Laurent {
            graph,
            lo,
            hi,
            num,
            den,
            parts,
        } = &node.kind
        else {
            return Err(Fail::from("another kind"));
        };
        assert_eq!(rt; *graph, 0);
        assert_eq!(rt; (*lo, *hi), orders);
        assert_eq!(rt; (*num, *den), degrees);
        assert_eq!(rt; parts.as_slice(), sources);
        assert!(rt; node.needed);
    }
    Ok(())
}

#[test]
fn expansions_need_their_lists(rt: HostRuntime) -> Result<(), Fail> {
    let bytes =
        b"flow 1\ngraph g\ninput x y\noutput input\ngraph main\ninput x\nnode a chain input\nnode b chain input\nnode l laurent g 0 1 2 3 b\noutput l\n";
    let job = read(&rt, rt.alloc(), bytes)?;
    let main = job.graphs.get(1).expect(&rt, "the main graph");
    for (place, needed) in [false, true, true].iter().enumerate() {
        let node = main.nodes.get(place).expect(&rt, "a node");
        assert_eq!(rt; node.needed, *needed);
    }
    Ok(())
}

#[test]
fn expansions_with_a_fault_are_told(rt: HostRuntime) -> Result<(), Fail> {
    for (words, kind) in [
        (b"g".as_slice(), FileKind::Syntax),
        (b"g 0 1 2", FileKind::Syntax),
        (b"g +3 4 1 1", FileKind::Syntax),
        (b"g --1 4 1 1", FileKind::Syntax),
        (b"g - 4 1 1", FileKind::Syntax),
        (b"g 1- 4 1 1", FileKind::Syntax),
        (b"g 0 1 -2 3", FileKind::Syntax),
        (b"g 0 1 2 -3", FileKind::Syntax),
        (b"g 0 x 2 3", FileKind::Syntax),
        (b"main 0 1 2 3", FileKind::UnknownGraph),
        (b"h 0 1 2 3 m", FileKind::UnknownGraph),
        (b"g 2 1 2 3 m", FileKind::UnknownNode),
        (b"g 0 1 2 3 l", FileKind::UnknownNode),
        (b"g -65 0 1 1", FileKind::Limit),
        (b"g 0 65 1 1", FileKind::Limit),
        (b"g 65 65 1 1", FileKind::Limit),
        (b"g -65 -65 1 1", FileKind::Limit),
        (b"g 0 0 65 1", FileKind::Limit),
        (b"g 0 0 1 65", FileKind::Limit),
        (b"g 1 0 1 1", FileKind::Limit),
        (b"g -63 -64 1 1", FileKind::Limit),
        (b"g -99999999999999999999 0 1 1", FileKind::Limit),
        (b"g 0 99999999999999999999 1 1", FileKind::Limit),
        (b"g 0 0 99999999999999999999 1", FileKind::Limit),
        (b"g 0 0 1 4294967296", FileKind::Limit),
    ] {
        let bytes = with_expansion(rt.alloc(), words)?;
        assert!(rt; is_refused(&rt, rt.alloc(), bytes.as_slice(), 7, kind));
    }
    Ok(())
}

#[test]
fn expansions_count_for_the_depth(rt: HostRuntime) -> Result<(), Fail> {
    let mut bytes = Vec::from_slice(rt.alloc(), b"flow 1\ngraph g1\ninput x\noutput input\n")?;
    for turn in 1..8 {
        let next = turn + 1;
        let lines = format!(in rt.alloc();
            "graph g{next}\ninput x\nnode l laurent g{turn} 0 1 1 1\noutput input\n"
        )?;
        bytes.extend_from_slice(lines.as_bytes())?;
    }
    let job = read(&rt, rt.alloc(), bytes.as_slice())?;
    assert_eq!(rt; job.graphs.len(), 8);
    bytes.extend_from_slice(b"graph main\ninput x\nnode a laurent g7 0 1 1 1\n")?;
    let mut deep = Vec::from_slice(rt.alloc(), bytes.as_slice())?;
    bytes.extend_from_slice(b"output a\n")?;
    let job = read(&rt, rt.alloc(), bytes.as_slice())?;
    assert_eq!(rt; job.graphs.len(), 9);
    deep.extend_from_slice(b"node b laurent g8 0 1 1 1\n")?;
    assert!(rt; is_refused(&rt, rt.alloc(), deep.as_slice(), 36, FileKind::Limit));
    Ok(())
}
