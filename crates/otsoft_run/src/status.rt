//! How a run ended, as a status.

ghost use Rattle.std.specs.Prelude.{◌≡◌};
ghost use Rattle.otsoft_run.specs.Answers.{code_of};

/// How a run ended.
#[derive(Clone, Copy, Debug, PartialEq, Eq)]
pub enum Status {
    /// The report was written whole.
    Done,
    /// The report was written whole, and it is that no ranking keeps the conditions of the winners.
    Contradictory,
    /// The words give no settings.
    BadWords,
    /// A file is not accepted.
    Refused,
    /// A file could not be read.
    ReadFault,
    /// The output could not be written.
    WriteFault,
    /// There was no memory for the work.
    NoMemory,
}

impl Status {
    /// The exit status of the program, from 0 to 6 in the order of the variants.
    pub fn code(self) -> u8
        ensures { result ≡ code_of self }
    {
        match self {
            Status::Done => 0,
            Status::Contradictory => 1,
            Status::BadWords => 2,
            Status::Refused => 3,
            Status::ReadFault => 4,
            Status::WriteFault => 5,
            Status::NoMemory => 6,
        }
    }
}
