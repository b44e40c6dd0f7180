ghost use Rattle.std.specs.Prelude.{◌≡◌};
ghost use Rattle.c_step.specs.declared.errors.CError.TheVariants.{OutOfMemory};

use argos_base::OutOfMemory;
use std::alloc::{AllocError, AllocFailed};
use thiserror::Error;

/// Why bytes give no step.
#[derive(Clone, Copy, Debug, PartialEq, Eq, Error)]
pub enum CError {
    /// The number of the first line, from 1, that isn't one that is due there.
    #[error("line {at}: not in the subset")]
    NotSubset { at: u32 },
    /// No memory was given.
    #[error("out of memory")]
    OutOfMemory,
}

impl From<OutOfMemory> for CError {
    ghost from_gives = { λ _ e. e ≡ OutOfMemory };

    fn from(_error: OutOfMemory) -> CError {
        CError::OutOfMemory
    }
}

impl From<AllocError> for CError {
    ghost from_gives = { λ _ e. e ≡ OutOfMemory };

    fn from(_error: AllocError) -> CError {
        CError::OutOfMemory
    }
}

impl<T: Drop> From<AllocFailed<T>> for CError {
    ghost from_gives = { λ _ e. e ≡ OutOfMemory };

    fn from(_error: AllocFailed<T>) -> CError {
        CError::OutOfMemory
    }
}
