//! From the bytes of a file to what it asks for.
ghost use Rattle.std.specs.Prelude.{◌≡◌, ◌≤◌, ℕ, List, Some, true, length, take, slice_get, IfErr, IfOk};
ghost use Rattle.graph_file.specs.declared.line.Line.{Line as LineOf};
ghost use Rattle.graph_file.specs.File as spec;
ghost use Rattle.graph_file.specs.File.{IsGoodFile, said};
ghost use Rattle.graph_file.specs.Lines as spec_lines;
ghost use Rattle.graph_file.specs.Read.{AreRead, IsNext, IsRead, IsRefusal, KeepsFile, KeepsGood};
ghost use Rattle.graph_file.specs.Says.{Says, form};

use crate::asked::coeff_or;
use crate::error::{FileError, FileKind};
use crate::job::{Job, Need};
use crate::line::Last;
use crate::lines::{cut, is_passed_over};
use crate::reader::Reader;
use std::alloc::{AllocError, Global};

/// Whether the line at this place, counted from 0, is passed over.
fn is_idle_at(place: usize, line: &[u8]) -> bool
    ensures { result ≡ spec.is_idle_at place line.now }
{
    place > 0 && is_passed_over(line)
}

/// Reads the line at this place, counted from 0. After a refusal nothing is said of the reader.
fn next_line(reader: &mut Reader, place: usize, line: &[u8]) -> Result<(), FileError>
    requires short { length line.now ≤ 16777216 }
    requires early { place ≤ 16777216 }
    requires read { KeepsGood reader.old }
    ensures { (all : List (List ℕ)) → slice_get all place ≡ Some line.now → IsRead (said (take place all)) reader.old → IsNext all place reader.new result }
{
    if is_idle_at(place, line) {
        return Ok(());
    }
    match reader.read_line(line) {
        Ok(()) => Ok(()),
        Err(kind) => Err(told(place, kind)),
    }
}

/// What is told of the line at this place, counted from 0.
fn told(place: usize, kind: FileKind) -> FileError
    requires { place ≤ 16777216 }
    ensures { result ≡ spec.told place kind }
{
    match kind {
        FileKind::NoMemory => FileError { line: 0, kind },
        _ => FileError {
            line: place + 1,
            kind,
        },
    }
}

/// Whether nothing is missing of what the file is read for.
fn is_complete(reader: &Reader, need: Need) -> bool
    ensures { (all : List LineOf) → IsRead all reader.now → result ≡ spec.is_complete need all }
{
    let is_ended = reader.stood == Last::Output || reader.stood == Last::Job;
    match need {
        Need::Points | Need::Learning => is_ended,
        Need::Functions => is_ended && reader.asked.all.is_some(),
    }
}

/// The reader after all lines.
fn read_lines(alloc: Global, bytes: &[u8], need: Need) -> Result<Reader, FileError>
    requires { length bytes.now ≤ 16777216 }
    ensures { AreRead need bytes.now result }
{
    let mut reader = Reader::new(alloc);
    let mut place = 0;
    let mut rest = Some(bytes);
    while let Some(later) = rest {
        let (line, behind) = cut(later, b'\n');
        next_line(&mut reader, place, line)?;
        place += 1;
        rest = behind;
    }
    if !is_complete(&reader, need) {
        return Err(FileError {
            line: place,
            kind: FileKind::Missing,
        });
    }
    Ok(reader)
}

/// The job that the lines ask for.
fn finish(reader: Reader, need: Need) -> Result<Job, AllocError>
    requires { KeepsFile need reader }
    ensures said { IfOk result (λ job. (bytes : List ℕ) → IsRead (said (spec_lines.lines bytes)) reader → Says need bytes (form job)) }
    ensures need { IfOk result (λ job. job.need ≡ need) }
{
    let mut reader = reader;
    reader.finish_graph()?;
    let Reader { graphs, asked, .. } = reader;
    Ok(Job {
        graphs,
        points: asked.points,
        all: asked.all,
        special: asked.special,
        coeff: coeff_or(asked.coeff),
        need,
    })
}

/// Reads the file with these bytes.
///
/// A file has the line `flow 1`, then one graph or more, and any number of lines of the job. A graph has the lines `graph
/// NAME` and `input NAME ..`, any number of lines `node NAME KIND ..`, and the line `output LIST`. The last graph is the main
/// graph, of which the lines of the job speak: `point NUM ..`, `bounds WHICH num NUM .. den NUM ..` and
/// `coeff NUM NUM`. Behind `num` and `den` stands a total degree, and then nothing or one degree for each variable; WHICH is
/// `all` or the number of an output. Where the file is read for functions it has bounds for all. Lines of blanks and
/// lines that begin with `#` are passed over, but not as line 1. The kinds of nodes are `eval LIST = EXPR ; ..`, `take
/// LIST NUM ..`, `slice LIST NUM NUM`, `chain LIST ..`, `sum LIST ..`, `product LIST ..`, `matmul LIST LIST NUM NUM
/// NUM`, `dense LIST NUM NUM` and `sparse LIST NUM`; behind the last two `want NUM ..` may stand. Behind a node of
/// kind `sparse` stand its rows, one line `row NUM ..` or more, each with the ascending columns in which the row has
/// values.
///
/// A refusal tells the first bad line with the first kind of `FileKind`'s order that applies there, or `Missing` at the
/// last line. Want of memory is the kind `NoMemory` at line 0.
pub fn read_graphs(alloc: Global, bytes: &[u8], need: Need) -> Result<Job, FileError>
    requires fits { length bytes.now ≤ 16777216 }
    ensures ok { IfOk result (λ job. IsGoodFile need bytes.now × Says need bytes.now (form job)) }
    ensures need { IfOk result (λ job. job.need ≡ need) }
    ensures bad { IfErr result (λ error. IsRefusal need bytes.now error.line error.kind) }
{
    let reader = read_lines(alloc, bytes, need)?;
    match finish(reader, need) {
        Ok(job) => Ok(job),
        Err(AllocError) => Err(FileError {
            line: 0,
            kind: FileKind::NoMemory,
        }),
    }
}
