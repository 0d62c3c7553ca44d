//! Whole runs over devices in memory.

mod functions;
mod words;

use crate::top::run;
use flow_base::{MemShelf, MemSink};
use parallel_sampler::OpenGate;
use std::alloc::{AllocError, Global};
use std::test::Fail;
use std::thread::Threads;

/// Two variables, one node of two quotients, one point.
const QUOTIENTS: &str =
    "flow 1\ngraph main\ninput x y\nnode r eval input = x/(x+y) ; 1/y\noutput r\npoint 1 2\n";

const RESIDUES: &str = "1537228672809129301 1152921504606846976\n";

/// What a run told: its status, and what the sinks then hold.
#[derive(Debug, Drop)]
struct Told {
    status: u8,
    out: Vec<u8>,
    err: Vec<u8>,
}

/// The devices of a run: what stands under the name `f`, how many bytes a read and a write take, and the
/// numbers of those that fail.
#[derive(Clone, Copy, Debug)]
struct Devices<'a> {
    file: Option<&'a [u8]>,
    most: usize,
    failing_reads: &'a [u64],
    failing_writes: &'a [u64],
}

fn steady(file: &[u8]) -> Devices<'_> {
    Devices {
        file: Some(file),
        most: 65536,
        failing_reads: &[],
        failing_writes: &[],
    }
}

fn run_on<R: AllocGlobal + Threads + Sync>(
    rt: &R,
    words: &[&str],
    devices: Devices<'_>,
) -> Result<Told, Fail> {
    let alloc = rt.alloc();
    let mut asked = Vec::new(alloc);
    for word in words {
        asked.push(String::from_str(alloc, word)?)?;
    }
    let mut files = Vec::new(alloc);
    if let Some(bytes) = devices.file {
        files.push((
            String::from_str(alloc, "f")?,
            Vec::from_slice(alloc, bytes)?,
        ))?;
    }
    let most = devices.most.max(1);
    let failing_reads = Vec::from_slice(alloc, devices.failing_reads)?;
    let failing_writes = Vec::from_slice(alloc, devices.failing_writes)?;
    let mut shelf = MemShelf::new(alloc, files, most, failing_reads);
    let mut out = MemSink::new(alloc, most, failing_writes)?;
    let mut err = MemSink::new(alloc, most, Vec::new(alloc))?;
    let status = run(
        rt,
        alloc,
        asked.as_slice(),
        &mut shelf,
        &mut out,
        &mut err,
        &OpenGate,
    );
    Ok(Told {
        status: status.code(),
        out: Vec::from_slice(alloc, out.held())?,
        err: Vec::from_slice(alloc, err.held())?,
    })
}

fn is_told(told: &Told, status: u8, out: &str, err: &str) -> bool {
    told.status == status
        && told.out.as_slice() == out.as_bytes()
        && told.err.as_slice() == err.as_bytes()
}

fn is_same(told: &Told, other: &Told) -> bool {
    told.status == other.status && told.out == other.out && told.err == other.err
}

#[test]
fn samples_quotients_at_one_point(rt: HostRuntime) -> Result<(), Fail> {
    let told = run_on(&rt, &["sample", "f"], steady(QUOTIENTS.as_bytes()))?;
    assert!(rt; is_told(&told, 0, RESIDUES, ""), "{told:?}");
    Ok(())
}

#[test]
fn names_the_node_that_divides_by_zero(rt: HostRuntime) -> Result<(), Fail> {
    let file =
        "flow 1\ngraph main\ninput x y\nnode r eval input = x/(x+y) ; 1/y\noutput r\npoint 1 2305843009213693950\n";
    let told = run_on(&rt, &["sample", "f"], steady(file.as_bytes()))?;
    assert!(rt; is_told(&told, 0, "singular r division\n", ""), "{told:?}");
    Ok(())
}

#[test]
fn a_failing_second_write_leaves_the_first(rt: HostRuntime) -> Result<(), Fail> {
    let devices = Devices {
        most: 4,
        failing_writes: &[2],
        ..steady(QUOTIENTS.as_bytes())
    };
    let told = run_on(&rt, &["sample", "f"], devices)?;
    assert!(rt; is_told(&told, 7, "1537", ""), "{told:?}");
    Ok(())
}

#[test]
fn devices_of_one_byte_at_a_time_change_nothing(rt: HostRuntime) -> Result<(), Fail> {
    let devices = Devices {
        most: 1,
        ..steady(QUOTIENTS.as_bytes())
    };
    let told = run_on(&rt, &["sample", "f"], devices)?;
    assert!(rt; is_told(&told, 0, RESIDUES, ""), "{told:?}");
    Ok(())
}

#[test]
fn a_missing_file_and_a_failing_read_are_read_faults(rt: HostRuntime) -> Result<(), Fail> {
    let missing = Devices {
        file: None,
        ..steady(b"")
    };
    let failing = Devices {
        most: 16,
        failing_reads: &[3],
        ..steady(QUOTIENTS.as_bytes())
    };
    for devices in [missing, failing] {
        let told = run_on(&rt, &["sample", "f"], devices)?;
        assert!(rt; is_told(&told, 6, "", "flow: read fault\n"), "{told:?}");
    }
    Ok(())
}

/// A file of two variables with the node `a` and one more node, which is the output, at the point 3 5.
fn with_node(alloc: Global, node: &str) -> Result<String, AllocError> {
    format!(in alloc;
        "flow 1\ngraph main\ninput x y\nnode a eval input = x ; y ; x*y ; 2\nnode b {node}\noutput b\npoint 3 5\n"
    )
}

#[test]
fn each_kind_of_node_gives_its_list(rt: HostRuntime) -> Result<(), Fail> {
    let cases = [
        ("eval a = z1 + z4 ; z3^2", "5 225\n"),
        ("eval input = -x^2 + 2*(y-1)", "2305843009213693950\n"),
        ("take a 3 input 1", "15 3\n"),
        ("slice a 2 3", "5 15\n"),
        ("chain input a", "3 5 3 5 15 2\n"),
        ("sum a a", "6 10 30 4\n"),
        ("product a a", "9 25 225 4\n"),
        ("matmul a a 2 2 2", "84 25 75 79\n"),
    ];
    for (node, out) in cases {
        let file = with_node(rt.alloc(), node)?;
        let told = run_on(&rt, &["sample", "f"], steady(file.as_bytes()))?;
        assert!(rt; is_told(&told, 0, out, ""), "{node}: {told:?}");
    }
    Ok(())
}

#[test]
fn the_second_modulus_is_asked_for(rt: HostRuntime) -> Result<(), Fail> {
    let cases: [&[&str]; 2] = [&["sample", "f", "--second"], &["sample", "--second", "f"]];
    for words in cases {
        let told = run_on(&rt, words, steady(QUOTIENTS.as_bytes()))?;
        assert!(rt;
            is_told(&told, 0, "6148914691236517189 4611686018427387892\n", ""),
            "{words:?}: {told:?}"
        );
    }
    Ok(())
}

#[test]
fn what_the_output_does_not_rest_on_is_left_out(rt: HostRuntime) -> Result<(), Fail> {
    let unneeded =
        "flow 1\ngraph main\ninput x y\nnode r eval input = x/(x+y) ; 1/y\nnode u eval input = 1/0\noutput r\npoint 1 2\n";
    let told = run_on(&rt, &["sample", "f"], steady(unneeded.as_bytes()))?;
    assert!(rt; is_told(&told, 0, RESIDUES, ""), "{told:?}");
    let input =
        "flow 1\ngraph main\ninput x y\nnode r eval input = 1/0\noutput input\npoint 1 2\npoint 3 4\n";
    let told = run_on(&rt, &["sample", "f"], steady(input.as_bytes()))?;
    assert!(rt; is_told(&told, 0, "1 2\n3 4\n", ""), "{told:?}");
    Ok(())
}

/// A file of two variables with the list `a` of these expressions and the system `s` on it, which is the output, and two
/// points.
fn with_system(
    alloc: Global,
    exprs: &str,
    system: &str,
    points: [&str; 2],
) -> Result<String, AllocError> {
    let [first, second] = points;
    format!(in alloc;
        "flow 1\ngraph main\ninput x y\nnode a eval input = {exprs}\nnode s dense a {system}\noutput s\npoint {first}\npoint {second}\n"
    )
}

#[test]
fn systems_are_solved_over_what_was_learned(rt: HostRuntime) -> Result<(), Fail> {
    let cases = [
        (
            "1 ; 1 ; x ; 1 ; -1 ; y",
            "2 2 want 2 1",
            ["3 5", "7 3"],
            "2305843009213693950 4\n2 5\n",
        ),
        (
            "1 ; 2 ; x",
            "1 2",
            ["7 0", "0 7"],
            "2305843009213693949 7 1 0\n2305843009213693949 0 1 0\n",
        ),
        ("x ; x ; 1 ; 1", "2 1", ["0 0", "5 0"], "1\n1\n"),
        (
            "x ; 1 ; 2*x ; 2",
            "2 1",
            ["0 0", "2 0"],
            "singular s system\n1152921504606846976\n",
        ),
    ];
    for (exprs, system, points, out) in cases {
        let file = with_system(rt.alloc(), exprs, system, points)?;
        let told = run_on(&rt, &["sample", "f"], steady(file.as_bytes()))?;
        assert!(rt; is_told(&told, 0, out, ""), "{exprs:?}: {told:?}");
    }
    Ok(())
}

#[test]
fn the_second_modulus_uses_what_was_learned_at_the_first(rt: HostRuntime) -> Result<(), Fail> {
    let file = with_system(rt.alloc(), "1 ; 2 ; x", "1 2", ["7 0", "0 7"])?;
    let out = "9223372036854775781 7 1 0\n9223372036854775781 0 1 0\n";
    for words in [["sample", "f", "--second"], ["sample", "--second", "f"]] {
        let told = run_on(&rt, &words, steady(file.as_bytes()))?;
        assert!(rt; is_told(&told, 0, out, ""), "{words:?}: {told:?}");
    }
    Ok(())
}

#[test]
fn learning_tells_the_point_the_length_and_the_unknowns(rt: HostRuntime) -> Result<(), Fail> {
    let two = with_system(
        rt.alloc(),
        "1 ; 1 ; x ; 1 ; -1 ; y",
        "2 2 want 2 1",
        ["3 5", "5 3"],
    )?;
    let one = with_system(rt.alloc(), "1 ; 2 ; x", "1 2", ["7 0", "0 7"])?;
    let cases = [
        (
            two.as_str(),
            "graph main point 0 length 2\nsolver s independent\n",
        ),
        (
            one.as_str(),
            "graph main point 0 length 4\nsolver s independent 2\n",
        ),
        (QUOTIENTS, "graph main point none length 2\n"),
    ];
    for (file, out) in cases {
        let told = run_on(&rt, &["learn", "f"], steady(file.as_bytes()))?;
        assert!(rt; is_told(&told, 0, out, ""), "{file:?}: {told:?}");
    }
    Ok(())
}

/// Two systems, of which the first has an independent unknown, and the chain of their lists.
const SYSTEMS: &str =
    "flow 1\ngraph main\ninput x y\nnode a eval input = 1 ; 2 ; x\nnode s dense a 1 2\nnode c eval input = 1 ; y\nnode t dense c 1 1\nnode b chain t s\n";

#[test]
fn learning_tells_the_needed_solvers_as_they_stand_in_the_file(
    rt: HostRuntime,
) -> Result<(), Fail> {
    let cases = [
        (
            "b",
            "graph main point 0 length 5\nsolver s independent 2\nsolver t independent\n",
        ),
        ("t", "graph main point 0 length 1\nsolver t independent\n"),
        ("input", "graph main point none length 2\n"),
    ];
    for (list, out) in cases {
        let file = format!(in rt.alloc(); "{SYSTEMS}output {list}\n")?;
        let told = run_on(&rt, &["learn", "f"], steady(file.as_bytes()))?;
        assert!(rt; is_told(&told, 0, out, ""), "{list}: {told:?}");
    }
    Ok(())
}

#[test]
fn a_graph_without_a_learning_point_is_told_with_its_points(rt: HostRuntime) -> Result<(), Fail> {
    let file = with_system(rt.alloc(), "x-x ; 1", "1 1", ["3 5", "5 3"])?;
    let err =
        "flow: graph main has no learning point\npoint 0 s system\npoint 1 s system\npoint 2 s system\npoint 3 s system\npoint 4 s system\npoint 5 s system\npoint 6 s system\npoint 7 s system\n";
    for command in ["learn", "sample"] {
        let told = run_on(&rt, &[command, "f"], steady(file.as_bytes()))?;
        assert!(rt; is_told(&told, 4, "", err), "{command:?}: {told:?}");
    }
    Ok(())
}

/// Two equations in three unknowns, each of which names two of them.
const SPARSE: &str =
    "flow 1\ngraph main\ninput d m\nnode c eval input = 4*m ; -(d-4) ; 2*m ; -(d-2)\nnode s sparse c 3 want 1\nrow 1 2\nrow 2 3\noutput s\npoint 6 1\n";

#[test]
fn a_sparse_system_is_learned_and_solved(rt: HostRuntime) -> Result<(), Fail> {
    let learned = run_on(&rt, &["learn", "f"], steady(SPARSE.as_bytes()))?;
    let out = "graph main point 0 length 2\nsolver s independent 3\n";
    assert!(rt; is_told(&learned, 0, out, ""), "{learned:?}");
    let sampled = run_on(&rt, &["sample", "f"], steady(SPARSE.as_bytes()))?;
    assert!(rt; is_told(&sampled, 0, "1 0\n", ""), "{sampled:?}");
    Ok(())
}

/// The first entry of the first learning point is 487926954045984775: the second row is redundant there.
#[test]
fn each_row_of_a_sparse_system_decides_at_each_point(rt: HostRuntime) -> Result<(), Fail> {
    let cases = [
        (
            "1 ; 1 ; x-487926954045984774 ; 1",
            ["487926954045984775", "5"],
            "1\nsingular s system\n",
        ),
        (
            "1 ; x ; 2 ; 2*x",
            ["0", "2"],
            "singular s system\n1152921504606846976\n",
        ),
    ];
    for (exprs, points, out) in cases {
        let [first, second] = points;
        let file = format!(in rt.alloc();
            "flow 1\ngraph main\ninput x\nnode c eval input = {exprs}\nnode s sparse c 1\nrow 0 1\nrow 0 1\noutput s\npoint {first}\npoint {second}\n"
        )?;
        let told = run_on(&rt, &["sample", "f"], steady(file.as_bytes()))?;
        assert!(rt; is_told(&told, 0, out, ""), "{exprs:?}: {told:?}");
    }
    Ok(())
}

#[test]
fn rows_are_refused_with_their_kind(rt: HostRuntime) -> Result<(), Fail> {
    let cases = [
        ("row 4294967295 4294967296\n", "flow: line 6: limit\n"),
        ("row 1 0\n", "flow: line 6: syntax\n"),
        ("row 2\n", "flow: line 6: limit\n"),
        ("output s\n", "flow: line 6: syntax\n"),
        ("row 0 1\nrow 1\n", "flow: line 8: missing\n"),
        ("", "flow: line 6: missing\n"),
    ];
    for (lines, err) in cases {
        let file = format!(in rt.alloc();
            "flow 1\ngraph main\ninput x\nnode c eval input = 1 ; x\nnode s sparse c 1\n{lines}"
        )?;
        let told = run_on(&rt, &["sample", "f"], steady(file.as_bytes()))?;
        assert!(rt; is_told(&told, 3, "", err), "{lines:?}: {told:?}");
    }
    Ok(())
}

#[test]
fn the_first_bad_line_is_told_with_its_kind(rt: HostRuntime) -> Result<(), Fail> {
    let cases = [
        ("", "flow: line 1: syntax\n"),
        ("flow 3\n", "flow: line 1: version\n"),
        (
            "flow 1\n\n# comment\ngraph main\ninput x x\n",
            "flow: line 5: repeated\n",
        ),
        (
            "flow 1\ngraph main\ninput x y\nnode t call main input\n",
            "flow: line 4: unknown graph\n",
        ),
        (
            "flow 1\ngraph main\ninput x y\nnode t take a 3\n",
            "flow: line 4: unknown node\n",
        ),
        (
            "flow 1\ngraph main\ninput x y\nnode t take input 0\n",
            "flow: line 4: limit\n",
        ),
        (
            "flow 1\ngraph main\ninput x y\nnode r eval input = x/(x+y) ; 1/w\n",
            "flow: line 4: expression 2 place 3: unknown name\n",
        ),
        (
            "flow 1\ngraph main\ninput x y\nnode r eval input =\n",
            "flow: line 4: expression 1 place 0: unexpected\n",
        ),
        (
            "flow 1\ngraph main\ninput x y\nnode r eval input = x^65536\n",
            "flow: line 4: expression 1 place 3: wide number\n",
        ),
        (
            "flow 1\ngraph main\ninput x y\nnode r eval input = x/(x+y)\n",
            "flow: line 5: missing\n",
        ),
        (
            "flow 1\ngraph main\ninput x y\noutput input\npoint 1 2305843009213693951\n",
            "flow: line 5: residue\n",
        ),
        (
            "flow 1\ngraph main\ninput x y\noutput input\npoint 1\n",
            "flow: line 5: syntax\n",
        ),
        (
            "flow 1\ngraph main\ninput x y\noutput input\npoint 1 \u{e9}\n",
            "flow: line 5: syntax\n",
        ),
    ];
    for (file, err) in cases {
        let told = run_on(&rt, &["sample", "f"], steady(file.as_bytes()))?;
        assert!(rt; is_told(&told, 3, "", err), "{file:?}: {told:?}");
    }
    Ok(())
}

#[test]
fn lists_of_wrong_lengths_are_refused(rt: HostRuntime) -> Result<(), Fail> {
    let past = "flow 1\ngraph main\ninput x y\nnode t take input 3\noutput t\npoint 1 2\n";
    let told = run_on(&rt, &["sample", "f"], steady(past.as_bytes()))?;
    assert!(rt;
        is_told(&told, 4, "", "flow: graph main node t length\n"),
        "{told:?}"
    );
    Ok(())
}

/// A file of one variable, whose output has it 8192 times.
fn with_long_output(alloc: Global) -> Result<String, AllocError> {
    let mut file = String::from_str(alloc, "flow 1\ngraph main\ninput x\nnode n0 chain input\n")?;
    for number in 0..13 {
        let next = number + 1;
        let line = format!(in alloc; "node n{next} chain n{number} n{number}\n")?;
        file.push_str(line.as_str())?;
    }
    file.push_str("output n13\npoint 7\n")?;
    Ok(file)
}

#[test]
fn an_output_of_8192_numbers_is_one_line(rt: HostRuntime) -> Result<(), Fail> {
    let file = with_long_output(rt.alloc())?;
    let told = run_on(&rt, &["sample", "f"], steady(file.as_bytes()))?;
    assert_eq!(rt; told.status, 0);
    assert_eq!(rt; told.out.len(), 16_384);
    for (place, byte) in told.out.as_slice().iter().enumerate() {
        let wanted = if place % 2 == 0 {
            b'7'
        } else if place < 16_383 {
            b' '
        } else {
            b'\n'
        };
        assert_eq!(rt; *byte, wanted, "at {place}");
    }
    Ok(())
}

#[test]
fn a_file_is_long_from_16777217_bytes_on(rt: HostRuntime) -> Result<(), Fail> {
    let mut file = Vec::from_slice(rt.alloc(), QUOTIENTS.as_bytes())?;
    for _ in QUOTIENTS.len()..16_777_216 {
        file.push(b'#')?;
    }
    let whole = run_on(&rt, &["sample", "f"], steady(file.as_slice()))?;
    assert!(rt; is_told(&whole, 0, RESIDUES, ""), "{whole:?}");
    file.push(b'#')?;
    let long = run_on(&rt, &["sample", "f"], steady(file.as_slice()))?;
    assert!(rt; is_told(&long, 3, "", "flow: file too long\n"), "{long:?}");
    Ok(())
}

/// A file of two variables with so many points, whose output is its input.
fn with_points(alloc: Global, count: usize) -> Result<String, AllocError> {
    let mut file = String::from_str(alloc, "flow 1\ngraph main\ninput x y\noutput input\n")?;
    for _ in 0..count {
        file.push_str("point 1 2\n")?;
    }
    Ok(file)
}

/// A file of one variable with so many nodes and one point, whose output is its input.
fn with_nodes(alloc: Global, count: usize) -> Result<String, AllocError> {
    let mut file = String::from_str(alloc, "flow 1\ngraph main\ninput x\n")?;
    for number in 0..count {
        let line = format!(in alloc; "node n{number} eval input = x\n")?;
        file.push_str(line.as_str())?;
    }
    file.push_str("output input\npoint 7\n")?;
    Ok(file)
}

#[test]
fn points_and_nodes_have_their_limits(rt: HostRuntime) -> Result<(), Fail> {
    let alloc = rt.alloc();
    let points = run_on(
        &rt,
        &["sample", "f"],
        steady(with_points(alloc, 65_536)?.as_bytes()),
    )?;
    assert_eq!(rt; points.status, 0);
    assert_eq!(rt; points.out.len(), 4 * 65_536);
    let past = run_on(
        &rt,
        &["sample", "f"],
        steady(with_points(alloc, 65_537)?.as_bytes()),
    )?;
    assert!(rt;
        is_told(&past, 3, "", "flow: line 65541: limit\n"),
        "{past:?}"
    );
    let nodes = run_on(
        &rt,
        &["sample", "f"],
        steady(with_nodes(alloc, 4096)?.as_bytes()),
    )?;
    assert!(rt; is_told(&nodes, 0, "7\n", ""), "{nodes:?}");
    let past = run_on(
        &rt,
        &["sample", "f"],
        steady(with_nodes(alloc, 4097)?.as_bytes()),
    )?;
    assert!(rt;
        is_told(&past, 3, "", "flow: line 4100: limit\n"),
        "{past:?}"
    );
    Ok(())
}
