//! What a run is to tell, worked out before anything is written.

ghost use Rattle.std.specs.Prelude.{◌≡◌, ◌≢◌, ◌≤◌, ◌⊎◌, ◌↔◌, IfOk, OnOk, Ok, Err, length};
ghost use Rattle.graph_file.specs.Says.{form};
ghost use Rattle.learn_phase.specs.Answers.{FitsJob};
ghost use Rattle.flow_program.specs.Answer.{refusal};
ghost use Rattle.flow_program.specs.Jobs.{HasBadLine, JobAnswer, LearnedAnswer, ShortAnswer, long_answer, success};
ghost use Rattle.flow_program.specs.Refusals.{file_text, length_text, no_point_text};
ghost use Rattle.flow_program.specs.Reply.{TellsWhy, answer_of};
ghost use Rattle.flow_program.specs.Run.{ModuliArePrime, words_answer};
ghost use Rattle.flow_program.specs.Status.{IsFileStatus, IsJobStatus, code_of};
ghost use Rattle.flow_program.specs.Tasks as spec;
ghost use Rattle.flow_program.specs.Words.{IsCount};

use crate::FILE_LIMIT;
use crate::functions::{reply_to_demo, reply_to_functions};
use crate::lessons::lessons;
use crate::refusals::{push_file_text, push_length_text, push_no_point_text, told_list};
use crate::sampling::sample;
use crate::status::Status;
use crate::task::{Task, need_of};
use graph_eval::{Learned, Singular};
use graph_file::{FileError, FileKind, Graph, Job, Source, no_fault, read_graphs};
use learn_phase::{LearnError, learn};
use parallel_sampler::Gate;
use std::alloc::{AllocError, Global};
use std::thread::Threads;

/// A status, and all that goes to out and to err with it.
#[derive(Debug, Drop)]
pub(crate) struct Reply {
    pub(crate) status: Status,
    pub(crate) out: Vec<u8>,
    pub(crate) err: Vec<u8>,
}

/// Nothing on out, and this text on err.
pub(crate) fn refusal_of(alloc: Global, status: Status, err: Vec<u8>) -> Reply
    ensures answer { answer_of result ≡ refusal (code_of status) err.items }
    ensures status { result.status ≡ status }
{
    Reply {
        status,
        out: Vec::new(alloc),
        err,
    }
}

/// Nothing on out, and a copy of this text on err.
fn refuse(alloc: Global, status: Status, text: &[u8]) -> Result<Reply, AllocError>
    ensures answer { IfOk result (λ reply. answer_of reply ≡ refusal (code_of status) text.now) }
    ensures status { IfOk result (λ reply. reply.status ≡ status) }
{
    Ok(refusal_of(alloc, status, Vec::from_slice(alloc, text)?))
}

/// The reply to words that go wrong at this place, counted from 1.
pub(crate) fn reply_to_words(alloc: Global, place: usize) -> Result<Reply, AllocError>
    ensures answer { IfOk result (λ reply. answer_of reply ≡ words_answer place) }
    ensures status { IfOk result (λ reply. reply.status ≡ Status.BadWords) }
{
    let text = format!(in alloc; "flow: bad words at {place}\n")?;
    refuse(alloc, Status::BadWords, text.as_bytes())
}

/// The reply to a file that is longer than the limit.
pub(crate) fn reply_to_long_file(alloc: Global) -> Result<Reply, AllocError>
    ensures answer { IfOk result (λ reply. answer_of reply ≡ long_answer) }
    ensures status { IfOk result (λ reply. reply.status ≡ Status.BadFile) }
{
    refuse(alloc, Status::BadFile, b"flow: file too long\n")
}

/// The reply to a file whose first bad line is this one, counted from 1, or want of memory where it is that.
fn reply_to_bad_line(alloc: Global, line: usize, kind: FileKind) -> Result<Reply, AllocError>
    ensures answer { IfOk result (λ reply. answer_of reply ≡ refusal 3 (file_text line kind)) }
    ensures kind { OnOk result (kind ≢ FileKind.NoMemory) }
    ensures status { IfOk result (λ reply. reply.status ≡ Status.BadFile) }
{
    if let FileKind::NoMemory = kind {
        return Err(AllocError);
    }
    let mut err = Vec::new(alloc);
    push_file_text(&mut err, line, kind)?;
    Ok(refusal_of(alloc, Status::BadFile, err))
}

/// The reply where the length of a graph's list is refused.
fn reply_to_length(alloc: Global, graph: &Graph, list: Source) -> Result<Reply, AllocError>
    ensures answer { IfOk result (λ reply. answer_of reply ≡ refusal 4 (length_text graph.now list)) }
    ensures status { IfOk result (λ reply. reply.status ≡ Status.NotLearned) }
{
    let mut err = Vec::new(alloc);
    push_length_text(&mut err, graph, list)?;
    Ok(refusal_of(alloc, Status::NotLearned, err))
}

/// The reply where a graph has no learning point, since these nodes have no value there.
fn reply_to_no_point(alloc: Global, graph: &Graph, first: &[Singular]) -> Result<Reply, AllocError>
    ensures answer { IfOk result (λ reply. answer_of reply ≡ refusal 4 (no_point_text graph.now first.now)) }
    ensures status { IfOk result (λ reply. reply.status ≡ Status.NotLearned) }
{
    let mut err = Vec::new(alloc);
    push_no_point_text(&mut err, graph, first)?;
    Ok(refusal_of(alloc, Status::NotLearned, err))
}

/// The reply where a job's graphs can't be learned, or want of memory where it is that.
fn reply_to_unlearned(alloc: Global, job: &Job, why: &LearnError) -> Result<Reply, AllocError>
    requires { FitsJob job.now.need (form job.now) (Err why.now) }
    ensures answer { IfOk result (λ reply. TellsWhy job.now.graphs why.now (answer_of reply)) }
    ensures status { IfOk result (λ reply. reply.status ≡ Status.NotLearned) }
{
    let graphs = job.graphs.as_slice();
    match why {
        LearnError::NoLearningPoint { graph, first } => {
            Ok(reply_to_no_point(alloc, &graphs[*graph as usize], first)?)
        }
        LearnError::Length { graph, node } => {
            let graph = &graphs[*graph as usize];
            let list = told_list(graph.output, *node);
            Ok(reply_to_length(alloc, graph, list)?)
        }
        LearnError::NoMemory => Err(AllocError),
    }
}

/// This text on out, and nothing on err.
fn success_of(alloc: Global, out: Vec<u8>) -> Reply
    ensures answer { answer_of result ≡ success out.items }
    ensures status { result.status ≡ Status.Done }
{
    Reply {
        status: Status::Done,
        out,
        err: Vec::new(alloc),
    }
}

/// The reply to a job whose graphs are all learned.
fn reply_to_learned<G: Gate, R: Threads + Sync>(
    rt: &R,
    alloc: Global,
    workers: u32,
    job: &Job,
    learned: &Learned,
    task: Task,
    gate: &G,
) -> Result<Reply, AllocError>
    requires workers { IsCount workers }
    requires need { job.now.need ≡ spec.need_of task }
    requires fits { FitsJob job.now.need (form job.now) (Ok learned.now) }
    ensures answer { IfOk result (λ reply. ModuliArePrime → LearnedAnswer task (form job.now) learned.now (answer_of reply)) }
    ensures status { IfOk result (λ reply. IsJobStatus reply.status) }
{
    match task {
        Task::Sample(modulus) => {
            let lines = sample(rt, alloc, workers, job, learned, modulus, gate)?;
            Ok(success_of(alloc, lines))
        }
        Task::Learn => Ok(success_of(alloc, lessons(alloc, job, learned)?)),
        Task::Reconstruct { report } => {
            reply_to_functions(rt, alloc, workers, job, learned, report, gate)
        }
        Task::Demo(n) => reply_to_demo(rt, alloc, workers, job, learned, n, gate),
    }
}

/// The reply to a job with which this is to be done.
fn reply_to_job<G: Gate, R: Threads + Sync>(
    rt: &R,
    alloc: Global,
    workers: u32,
    job: &Job,
    task: Task,
    gate: &G,
) -> Result<Reply, AllocError>
    requires workers { IsCount workers }
    requires need { job.now.need ≡ spec.need_of task }
    ensures answer { IfOk result (λ reply. ModuliArePrime → JobAnswer task (form job.now) (answer_of reply)) }
    ensures status { IfOk result (λ reply. IsJobStatus reply.status) }
{
    match learn(alloc, job) {
        Ok(learned) => reply_to_learned(rt, alloc, workers, job, &learned, task, gate),
        Err(why) => Ok(reply_to_unlearned(alloc, job, &why)?),
    }
}

/// The reply to a file of these bytes, with which this is to be done by so many workers.
pub(crate) fn reply_to_file<G: Gate, R: Threads + Sync>(
    rt: &R,
    alloc: Global,
    workers: u32,
    bytes: &[u8],
    task: Task,
    gate: &G,
) -> Result<Reply, AllocError>
    requires workers { IsCount workers }
    requires few { length bytes.now ≤ FILE_LIMIT }
    ensures answer { IfOk result (λ reply. ModuliArePrime ⊎ HasBadLine task bytes.now → ShortAnswer task bytes.now (answer_of reply)) }
    ensures bad_line { IfOk result (λ reply. (code_of reply.status ≡ 3) ↔ HasBadLine task bytes.now) }
    ensures status { IfOk result (λ reply. IsFileStatus reply.status) }
{
    // That a file with which nothing is wrong has no bad line follows from this law.
    no_fault();
    match read_graphs(alloc, bytes, need_of(task)) {
        Ok(job) => Ok(reply_to_job(rt, alloc, workers, &job, task, gate)?),
        Err(FileError { line, kind }) => Ok(reply_to_bad_line(alloc, line, kind)?),
    }
}
