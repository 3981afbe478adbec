//! The program's statuses.
ghost use Rattle.std.specs.Prelude.{◌≡◌};
ghost use Rattle.dtp_run.specs.Statuses.{code_of};

/// How a run ends.
#[derive(Clone, Copy, Debug, PartialEq, Eq)]
pub enum Status {
    /// The whole output is written.
    Done,
    /// A command of the script is refused; the output ends with the error's line.
    Refused,
    /// The words are no command line.
    Usage,
    ReadFault,
    WriteFault,
    OutOfMemory,
    /// The certificate isn't accepted.
    NotAccepted,
    /// More than 2^30 bytes came.
    TooLong,
}

impl Status {
    /// The number that the program ends with.
    pub fn code(self) -> u8
        ensures { result ≡ code_of self }
    {
        match self {
            Status::Done => 0,
            Status::Refused => 1,
            Status::Usage => 2,
            Status::ReadFault => 3,
            Status::WriteFault => 4,
            Status::OutOfMemory => 5,
            Status::NotAccepted => 6,
            Status::TooLong => 7,
        }
    }
}
