ghost use Rattle.std.specs.Prelude.{◌≡◌};

/// How a run ends.
#[derive(Clone, Copy, Debug, PartialEq, Eq)]
pub enum Status {
    /// The input was read to its end, and each line was answered.
    Done,
    /// The words are no command.
    BadWords,
    /// The input failed.
    ReadFault,
    /// The output failed.
    WriteFault,
    /// The keeper failed before anything was taken of the input.
    StoreFault,
    /// Memory was wanting.
    OutOfMemory,
    /// More than 2^40 bytes came in.
    TooMuch,
}

impl Status {
    ghost use Rattle.datawave.specs.Statuses.{exit_code};

    /// The status with which the process exits.
    pub fn code(self) -> u8
        ensures { result ≡ exit_code self }
    {
        match self {
            Status::Done => 0,
            Status::BadWords => 2,
            Status::ReadFault => 3,
            Status::WriteFault => 4,
            Status::StoreFault => 5,
            Status::OutOfMemory => 7,
            Status::TooMuch => 8,
        }
    }

    /// What is said of it on standard error.
    pub fn text(self) -> &'static str {
        match self {
            Status::Done => "done",
            Status::BadWords => "bad words",
            Status::ReadFault => "read fault",
            Status::WriteFault => "write fault",
            Status::StoreFault => "store fault",
            Status::OutOfMemory => "out of memory",
            Status::TooMuch => "too much input",
        }
    }
}
