ghost use Rattle.std.specs.Prelude.{◌≡◌};
ghost use Rattle.steampipe_top.specs.Running.{status_number};

/// How a run ends.
#[derive(Clone, Copy, Debug, PartialEq, Eq)]
pub enum Status {
    /// All answers are rows, and all is written.
    Done,
    /// An answer is an error, and all is written.
    Failed,
    /// The words are none of the program's.
    Usage,
    /// The settings file is absent, too long or refused.
    Settings,
    /// The settings file could not be read.
    FileFault,
    /// The input could not be read.
    ReadFault,
    /// The input has more than 1,048,576 bytes or 10,000 lines.
    InputLimit,
    /// The answers or the notes could not be written.
    WriteFault,
    /// Memory was wanting.
    Memory,
}

impl Status {
    /// The number that a program of this status ends with.
    pub fn number(self) -> u8
        ensures { result ≡ status_number self }
    {
        match self {
            Status::Done => 0,
            Status::Failed => 1,
            Status::Usage => 2,
            Status::Settings => 3,
            Status::FileFault => 4,
            Status::ReadFault => 5,
            Status::InputLimit => 6,
            Status::WriteFault => 7,
            Status::Memory => 8,
        }
    }
}
