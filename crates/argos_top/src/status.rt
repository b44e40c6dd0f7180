ghost use Rattle.std.specs.Prelude.{◌≡◌};

use dd_core::Arena;

/// How a call ends.
#[derive(Debug, Drop)]
pub enum Status {
    /// The output is whole, and a simulation read its input to the end.
    Yes,
    /// The verdict is no.
    No,
    /// The words are no command.
    Usage,
    /// A file or a trace line is refused.
    Refused,
    /// A file or the input couldn't be read.
    ReadFault,
    /// The output couldn't be written.
    WriteFault,
    /// A job on diagrams found no room in this arena, which holds as many nodes as it may.
    Budget(Arena),
    /// No memory was given.
    OutOfMemory,
}

impl Status {
    ghost use Rattle.argos_top.specs.Statuses.{number_of};

    /// The number that the process ends with.
    pub fn number(&self) -> u8
        ensures { result ≡ number_of self.now }
    {
        match self {
            Status::Yes => 0,
            Status::No => 1,
            Status::Usage => 2,
            Status::Refused => 3,
            Status::ReadFault => 4,
            Status::WriteFault => 5,
            Status::Budget(_) => 6,
            Status::OutOfMemory => 7,
        }
    }
}
