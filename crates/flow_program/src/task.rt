//! What is to be done with a file that is read.

ghost use Rattle.std.specs.Prelude.{◌≡◌};
ghost use Rattle.flow_program.specs.Tasks as spec;

use graph_file::Need;
use prime_field::Modulus;

/// What is to be done with a file that is read, or with the demo.
#[derive(Clone, Copy, Debug)]
pub(crate) enum Task {
    /// The main graph is evaluated at each point, modulo this modulus.
    Sample(Modulus),
    /// The graphs are learned.
    Learn,
    /// The outputs of the main graph are reconstructed as functions, with or without a report.
    Reconstruct { report: bool },
    /// So are those of the demo of this size.
    Demo(u32),
}

/// The modulus that is asked for.
pub(crate) fn modulus_of(second: bool) -> Modulus
    ensures { result ≡ spec.modulus_of second }
{
    if second {
        Modulus::Second
    } else {
        Modulus::First
    }
}

/// What a file is read for, to do this with it.
pub(crate) fn need_of(task: Task) -> Need
    ensures { result ≡ spec.need_of task }
{
    match task {
        Task::Sample(_) => Need::Points,
        Task::Learn => Need::Learning,
        Task::Reconstruct { report: _ } | Task::Demo(_) => Need::Functions,
    }
}
