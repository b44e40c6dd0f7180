use std::alloc::{AllocError, AllocFailed};

/// What a program is turned into.
#[derive(Clone, Copy, Debug, PartialEq, Eq)]
pub enum Target {
    /// Boolean equations: the word `eq`.
    Equations,
    /// The text of a C program: the word `c`.
    CText,
}

/// What the program is asked to do. `nodes` is how many nodes of diagrams it may use.
#[derive(Debug, PartialEq, Eq, Drop)]
pub enum Command {
    /// Whether a program is good.
    Check {
        file: String,
        nodes: u32,
    },
    /// A program as equations or C.
    Compile {
        file: String,
        to: Target,
        nodes: u32,
    },
    /// The same of a program with 1 to 16 aspects woven in, in this order.
    Weave {
        file: String,
        aspects: Vec<String>,
        to: Target,
        nodes: u32,
    },
    /// A run of a program with at most 16 aspects woven in.
    Simulate {
        file: String,
        aspects: Vec<String>,
        nodes: u32,
    },
    /// Whether two programs do the same, by a certificate.
    Equiv {
        left: String,
        right: String,
        cert: String,
        nodes: u32,
    },
    /// So many samples, 1 to 60.
    Sample {
        count: u8,
    },
}

/// Why words give no command.
#[derive(Clone, Copy, Debug, PartialEq, Eq)]
pub enum WordsError {
    /// They are no command.
    Usage,
    /// No memory was given.
    OutOfMemory,
}

impl From<AllocError> for WordsError {
    ghost use Rattle.std.specs.Prelude.{◌≡◌};
    ghost use Rattle.argos_words.specs.declared.command.WordsError.TheVariants.{OutOfMemory};

    ghost from_gives = { λ _ e. e ≡ OutOfMemory };

    fn from(_error: AllocError) -> WordsError {
        WordsError::OutOfMemory
    }
}

impl<T: Drop> From<AllocFailed<T>> for WordsError {
    ghost use Rattle.std.specs.Prelude.{◌≡◌};
    ghost use Rattle.argos_words.specs.declared.command.WordsError.TheVariants.{OutOfMemory};

    ghost from_gives = { λ _ e. e ≡ OutOfMemory };

    fn from(_error: AllocFailed<T>) -> WordsError {
        WordsError::OutOfMemory
    }
}
