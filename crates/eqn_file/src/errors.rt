ghost use Rattle.std.specs.Prelude.{◌≡◌};
ghost use Rattle.eqn_file.specs.declared.errors.EqError.TheVariants.{OutOfMemory};

use argos_base::OutOfMemory;
use std::alloc::{AllocError, AllocFailed};
use thiserror::Error;

/// What is wrong with a line.
#[derive(Clone, Copy, Debug, PartialEq, Eq, Error)]
pub enum EqKind {
    /// It isn't spelt as a line that is due, or is missing, or lacks its LF.
    #[error("spelling")]
    Spelling,
    /// It is well spelt, with a number outside its range.
    #[error("range")]
    Range,
    /// It gives a name that stood before in the file.
    #[error("name")]
    Name,
    /// It stands behind the last line.
    #[error("after")]
    After,
}

/// Why bytes give no system.
#[derive(Clone, Copy, Debug, PartialEq, Eq, Error)]
pub enum EqError {
    /// The number of the first bad line, from 1, and what is wrong with it.
    #[error("line {at}: {kind}")]
    Line { at: u32, kind: EqKind },
    /// No memory was given.
    #[error("out of memory")]
    OutOfMemory,
}

impl From<OutOfMemory> for EqError {
    ghost from_gives = { λ _ e. e ≡ OutOfMemory };

    fn from(_error: OutOfMemory) -> EqError {
        EqError::OutOfMemory
    }
}

impl From<AllocError> for EqError {
    ghost from_gives = { λ _ e. e ≡ OutOfMemory };

    fn from(_error: AllocError) -> EqError {
        EqError::OutOfMemory
    }
}

impl<T: Drop> From<AllocFailed<T>> for EqError {
    ghost from_gives = { λ _ e. e ≡ OutOfMemory };

    fn from(_error: AllocFailed<T>) -> EqError {
        EqError::OutOfMemory
    }
}
