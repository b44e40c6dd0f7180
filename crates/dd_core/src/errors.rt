// Why an arena isn't made, and why a diagram isn't.
ghost use Rattle.std.specs.Prelude.{◌≡◌};

use std::alloc::{AllocError, AllocFailed};

/// Why there is no arena.
#[derive(Clone, Copy, Debug, PartialEq, Eq)]
pub enum NewError {
    /// So many variables, which is more than 1,024.
    Variables(u32),
    OutOfMemory,
}

impl From<AllocError> for NewError {
    ghost use Rattle.std.specs.Prelude.{◌≡◌};
    ghost use Rattle.dd_core.specs.declared.errors.NewError.TheVariants.{OutOfMemory};

    ghost from_gives = { λ _ e. e ≡ OutOfMemory };

    fn from(_: AllocError) -> NewError {
        NewError::OutOfMemory
    }
}

/// Why a diagram isn't made.
#[derive(Clone, Copy, Debug, PartialEq, Eq)]
pub enum DdError {
    /// The arena holds as many nodes as it may, and one more is needed.
    Budget,
    OutOfMemory,
}

impl<T: Drop> From<AllocFailed<T>> for DdError {
    ghost use Rattle.std.specs.Prelude.{◌≡◌};
    ghost use Rattle.dd_core.specs.declared.errors.DdError.TheVariants.{OutOfMemory};

    ghost from_gives = { λ _ e. e ≡ OutOfMemory };

    fn from(_: AllocFailed<T>) -> DdError {
        DdError::OutOfMemory
    }
}

impl From<AllocError> for DdError {
    ghost use Rattle.std.specs.Prelude.{◌≡◌};
    ghost use Rattle.dd_core.specs.declared.errors.DdError.TheVariants.{OutOfMemory};

    ghost from_gives = { λ _ e. e ≡ OutOfMemory };

    fn from(_: AllocError) -> DdError {
        DdError::OutOfMemory
    }
}
