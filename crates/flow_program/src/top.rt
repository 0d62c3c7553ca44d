//! The calls that the program makes.

ghost use Rattle.std.specs.Prelude.{◌≡◌, ◌≢◌, ◌≤◌, ◌⊎◌, ◌↔◌, None, Some, IfOk, OnOk, OnErr, IsErrOf, codes};
ghost use Rattle.flow_base.specs.Counts.{Rose};
ghost use Rattle.flow_base.specs.Sink.{Adds, AddsFront};
ghost use Rattle.flow_program.specs.Demo.{demo_bytes};
ghost use Rattle.flow_program.specs.Jobs.{LearnedAnswer};
ghost use Rattle.flow_program.specs.Outside.{FileRose, IsLearnable, IsRightAnswer, NameRose, StandsAnswered, outside, told_of};
ghost use Rattle.flow_program.specs.Reply.{answer_of};
ghost use Rattle.flow_program.specs.Run.{ModuliArePrime};
ghost use Rattle.flow_program.specs.Runs.{Runs, no_words_text};
ghost use Rattle.flow_program.specs.Status.{IsFileStatus, code_of};
ghost use Rattle.flow_program.specs.Tasks.{task_of};
ghost use Rattle.flow_program.specs.Words.{HasCounts, IsCount, asked, file_of, request, texts};

use crate::FILE_LIMIT;
use crate::demo::demo_file;
use crate::laws::learned_files_are_answered;
use crate::reply::{Reply, reply_to_file, reply_to_long_file, reply_to_words};
use crate::status::Status;
use crate::task::Task;
use crate::words::{Command, WordsError, read_words};
use flow_base::{OpenError, ReadError, Shelf, Sink, WriteFault, read_all, write_all_of};
use parallel_sampler::Gate;
use reconstruction::{functions_are_printed, one_finding};
use std::alloc::{AllocError, Global};
use std::thread::Threads;

/// Why there is no reply.
#[derive(Clone, Copy, Debug, PartialEq, Eq)]
enum Trouble {
    ReadFault,
    NoMemory,
}

impl From<AllocError> for Trouble {
    ghost use Rattle.flow_program.specs.declared.top.Trouble.TheVariants.{NoMemory};

    ghost from_gives = { λ _ e. e ≡ NoMemory };

    fn from(_error: AllocError) -> Trouble {
        Trouble::NoMemory
    }
}

/// Reads the file whole and works out the reply to it; nothing is written.
fn answer_file<H: Shelf, G: Gate, R: Threads + Sync>(
    rt: &R,
    alloc: Global,
    workers: u32,
    file: &str,
    task: Task,
    shelf: &mut H,
    gate: &G,
) -> Result<Reply, Trouble>
    requires { IsCount workers }
    ensures right { IfOk result (λ reply. StandsAnswered task ((H.view shelf.old).files file.now) (answer_of reply)) }
    ensures status { IfOk result (λ reply. IsFileStatus reply.status) }
    ensures failed { IsErrOf result Trouble.ReadFault → Rose ((H.view shelf.old).faults file.now) ((H.view shelf.new).faults file.now) }
{
    match shelf.open(file) {
        Ok(()) => {}
        Err(OpenError::Failed) => return Err(Trouble::ReadFault),
        Err(OpenError::NoMemory) => return Err(Trouble::NoMemory),
    }
    match read_all(alloc, shelf, FILE_LIMIT) {
        Ok(bytes) => Ok(reply_to_file(rt, alloc, workers, bytes.as_slice(), task, gate)?),
        Err(ReadError::TooLong) => Ok(reply_to_long_file(alloc)?),
        Err(ReadError::ReadFault) => Err(Trouble::ReadFault),
        Err(ReadError::NoMemory) => Err(Trouble::NoMemory),
    }
}

/// Works out the reply to the demo of size `n`.
fn answer_demo<G: Gate, R: Threads + Sync>(
    rt: &R,
    alloc: Global,
    workers: u32,
    n: u32,
    gate: &G,
) -> Result<Reply, AllocError>
    requires workers { IsCount workers }
    requires size { IsCount n }
    ensures right { IfOk result (λ reply. StandsAnswered (Task.Demo n) (Some (Some (demo_bytes n))) (answer_of reply)) }
    ensures status { IfOk result (λ reply. IsFileStatus reply.status) }
{
    let bytes = demo_file(alloc, n)?;
    if bytes.len() > FILE_LIMIT {
        return reply_to_long_file(alloc);
    }
    reply_to_file(rt, alloc, workers, bytes.as_slice(), Task::Demo(n), gate)
}

/// Works out the reply to a command; nothing is written.
fn answer_command<H: Shelf, G: Gate, R: Threads + Sync>(
    rt: &R,
    alloc: Global,
    command: &Command,
    shelf: &mut H,
    gate: &G,
) -> Result<Reply, Trouble>
    requires { HasCounts (request command.now) }
    ensures right { IfOk result (λ reply. StandsAnswered (task_of (request command.now)) (told_of (request command.now) (H.view shelf.old)) (answer_of reply)) }
    ensures status { IfOk result (λ reply. IsFileStatus reply.status) }
    ensures failed { IsErrOf result Trouble.ReadFault → NameRose (file_of (request command.now)) (H.view shelf.old) (H.view shelf.new) }
{
    let task = command.task();
    let workers = command.workers();
    match command {
        Command::Sample { file, .. } | Command::Reconstruct { file, .. } => {
            answer_file(rt, alloc, workers, file.as_str(), task, shelf, gate)
        }
        Command::Learn { file } => {
            answer_file(rt, alloc, workers, file.as_str(), task, shelf, gate)
        }
        Command::Demo { n, .. } => Ok(answer_demo(rt, alloc, workers, *n, gate)?),
    }
}

/// Works out all that is to be told; nothing is written.
fn work_out<H: Shelf, G: Gate, R: Threads + Sync>(
    rt: &R,
    alloc: Global,
    words: &[String],
    shelf: &mut H,
    gate: &G,
) -> Result<Reply, Trouble>
    ensures right { IfOk result (λ reply. IsRightAnswer (texts words.now) (H.view shelf.old) (answer_of reply)) }
    ensures status { IfOk result (λ reply. code_of reply.status ≤ 5) }
    ensures learned { IfOk result (λ reply. ModuliArePrime → (file : IsLearnable (texts words.now) (H.view shelf.old)) → LearnedAnswer (task_of file.wish) file.form file.learned (answer_of reply)) }
    ensures words { IfOk result (λ reply. (reply.status ≡ Status.BadWords) ↔ (asked (texts words.now) ≡ None)) }
    ensures failed { IsErrOf result Trouble.ReadFault → FileRose (asked (texts words.now)) (H.view shelf.old) (H.view shelf.new) }
{
    // What is said of files that are learned follows from this law.
    learned_files_are_answered();
    match read_words(alloc, words) {
        Ok(command) => Ok(answer_command(rt, alloc, &command, shelf, gate)?),
        Err(WordsError::Bad { word }) => Ok(reply_to_words(alloc, word)?),
        Err(WordsError::NoMemory) => Err(Trouble::NoMemory),
    }
}

/// Writes all of a reply: out before err.
fn deliver<O: Sink, E: Sink>(reply: &Reply, out: &mut O, err: &mut E) -> Result<(), WriteFault>
    ensures out { OnOk result (Adds (O.view out.old) (O.view out.new) reply.now.out.items) }
    ensures err { OnOk result (Adds (E.view err.old) (E.view err.new) reply.now.err.items) }
    ensures out_front { OnErr result (AddsFront (O.view out.old) (O.view out.new) reply.now.out.items) }
    ensures err_front { OnErr result (AddsFront (E.view err.old) (E.view err.new) reply.now.err.items) }
    ensures failed { OnErr result (Rose (O.view out.old).faults (O.view out.new).faults ⊎ Rose (E.view err.old).faults (E.view err.new).faults) }
{
    write_all_of(out, reply.out.as_slice())?;
    write_all_of(err, reply.err.as_slice())
}

/// Writes one text to err, and answers `status`, or `WriteFault` where it isn't taken.
fn tell<E: Sink>(err: &mut E, text: &[u8], status: Status) -> Status
    requires { status ≢ Status.WriteFault }
    ensures either { (result ≡ status) ⊎ (result ≡ Status.WriteFault) }
    ensures told { result ≡ status → Adds (E.view err.old) (E.view err.new) text.now }
    ensures front { result ≡ Status.WriteFault → AddsFront (E.view err.old) (E.view err.new) text.now }
    ensures failed { result ≡ Status.WriteFault → Rose (E.view err.old).faults (E.view err.new).faults }
{
    match write_all_of(err, text) {
        Ok(()) => status,
        Err(WriteFault) => Status::WriteFault,
    }
}

/// Tells on err why there are no words to run on.
pub fn refuse<E: Sink>(alloc: Global, error: WordsError, err: &mut E) -> Status
    ensures ends { (result ≡ Status.BadWords) ⊎ ((result ≡ Status.WriteFault) ⊎ (result ≡ Status.NoMemory)) }
    ensures bad_words { result ≡ Status.BadWords → (error ≢ WordsError.NoMemory) × Adds (E.view err.old) (E.view err.new) (no_words_text error) }
    ensures write_fault { result ≡ Status.WriteFault → Rose (E.view err.old).faults (E.view err.new).faults }
    ensures front { result ≡ Status.WriteFault → AddsFront (E.view err.old) (E.view err.new) (no_words_text error) ⊎ AddsFront (E.view err.old) (E.view err.new) (codes "flow: no memory\n") }
    ensures no_memory { result ≡ Status.NoMemory → Adds (E.view err.old) (E.view err.new) (codes "flow: no memory\n") }
{
    match error {
        WordsError::Bad { word } => match reply_to_words(alloc, word) {
            Ok(reply) => tell(err, reply.err.as_slice(), Status::BadWords),
            Err(AllocError) => tell(err, b"flow: no memory\n", Status::NoMemory),
        },
        WordsError::NoMemory => tell(err, b"flow: no memory\n", Status::NoMemory),
    }
}

/// Runs the program on the words after its name. Workers may be threads of the runtime, and the gate is told of each block of
/// points that one of them has drawn.
pub fn run<H: Shelf, O: Sink, E: Sink, G: Gate, R: Threads + Sync>(
    rt: &R,
    alloc: Global,
    words: &[String],
    shelf: &mut H,
    out: &mut O,
    err: &mut E,
    gate: &G,
) -> Status
    ensures { let before = outside (H.view shelf.old) (O.view out.old) (E.view err.old) in
        let after = outside (H.view shelf.new) (O.view out.new) (E.view err.new) in
        Runs (texts words.now) before after result }
{
    // What is said of functions follows from these laws.
    one_finding();
    functions_are_printed();
    match work_out(rt, alloc, words, shelf, gate) {
        Ok(reply) => match deliver(&reply, out, err) {
            Ok(()) => reply.status,
            Err(WriteFault) => Status::WriteFault,
        },
        Err(Trouble::ReadFault) => tell(err, b"flow: read fault\n", Status::ReadFault),
        Err(Trouble::NoMemory) => tell(err, b"flow: no memory\n", Status::NoMemory),
    }
}
