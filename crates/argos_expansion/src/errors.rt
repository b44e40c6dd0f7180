use argos_base::OutOfMemory;
use std::alloc::{AllocError, AllocFailed};

/// What is limited.
#[derive(Clone, Copy, Debug, PartialEq, Eq)]
pub enum Which {
    /// The signals of the main component and of all that is inside it.
    Signals,
    /// The automata.
    Automata,
    /// The codes that the states of one automaton take.
    Codes,
    /// How deep processes stand in one another.
    Depth,
    /// The size of the module.
    Size,
    /// The length of a trace.
    Trace,
}

/// Why components have no expansion.
#[derive(Clone, Copy, Debug, PartialEq, Eq)]
pub enum ExpansionError {
    /// The main component grows past this limit, with the number that is reached there.
    Limit { which: Which, count: u64 },
    /// No memory was given.
    OutOfMemory,
}

impl From<OutOfMemory> for ExpansionError {
    ghost use Rattle.std.specs.Prelude.{◌≡◌};
    ghost use Rattle.argos_expansion.specs.declared.errors.ExpansionError.TheVariants as errors;

    ghost from_gives = { λ _ e. e ≡ errors.OutOfMemory };

    fn from(_error: OutOfMemory) -> ExpansionError {
        ExpansionError::OutOfMemory
    }
}

impl From<AllocError> for ExpansionError {
    ghost use Rattle.std.specs.Prelude.{◌≡◌};
    ghost use Rattle.argos_expansion.specs.declared.errors.ExpansionError.TheVariants as errors;

    ghost from_gives = { λ _ e. e ≡ errors.OutOfMemory };

    fn from(_error: AllocError) -> ExpansionError {
        ExpansionError::OutOfMemory
    }
}

impl<T: Drop> From<AllocFailed<T>> for ExpansionError {
    ghost use Rattle.std.specs.Prelude.{◌≡◌};
    ghost use Rattle.argos_expansion.specs.declared.errors.ExpansionError.TheVariants as errors;

    ghost from_gives = { λ _ e. e ≡ errors.OutOfMemory };

    fn from(_error: AllocFailed<T>) -> ExpansionError {
        ExpansionError::OutOfMemory
    }
}
