//! How a run ended.

ghost use Rattle.std.specs.Prelude.{◌≡◌, ◌≤◌};

/// How a run ended, as the process tells it.
#[derive(Clone, Copy, Debug, PartialEq, Eq)]
pub enum Status {
    /// Every point was sampled, whether it has a value or is singular, or the graphs were learned, or each output's function was
    /// found.
    Done,
    /// Some output has no function that is printed.
    Unfound,
    /// The words ask for nothing.
    BadWords,
    /// The file is too long, or has a bad line.
    BadFile,
    /// The graphs can't be learned: a length breaks a rule, or a graph has no learning point.
    NotLearned,
    /// At one of the moduli no attempt has a value at each of its points.
    Exhausted,
    /// The file can't be read.
    ReadFault,
    /// Something written was not taken.
    WriteFault,
    /// There was no memory.
    NoMemory,
}

impl Status {
    ghost use Rattle.flow_program.specs.Status.{code_of};

    /// The exit status of the process, from 0 to 8.
    pub fn code(&self) -> u8
        ensures { result ≡ code_of self.now }
    {
        match self {
            Status::Done => 0,
            Status::Unfound => 1,
            Status::BadWords => 2,
            Status::BadFile => 3,
            Status::NotLearned => 4,
            Status::Exhausted => 5,
            Status::ReadFault => 6,
            Status::WriteFault => 7,
            Status::NoMemory => 8,
        }
    }
}
