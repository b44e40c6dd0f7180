ghost use Rattle.std.specs.Prelude.{◌≡◌};
ghost use Rattle.pointcuts.specs.inner.Errors.{error_of_accept};

use argos_base::OutOfMemory;
use argos_compile::AcceptError;
use argos_core::Module;
use argos_names::NameFault;
use argos_scope::ScopeError;

/// Why a tree tells no aspect over a program. Want of memory never stands inside the others.
#[derive(Debug, Drop)]
pub enum AspectError {
    /// A name rule is broken, or a limit is passed.
    Scope(ScopeError),
    /// The observer hasn't one output, but so many.
    Outputs { count: u32 },
    /// The observer, which is this module, isn't accepted.
    Observer(Module, AcceptError),
    /// No memory was given.
    OutOfMemory,
}

impl From<ScopeError> for AspectError {
    ghost use Rattle.std.specs.Prelude.{◌≡◌};
    ghost use Rattle.pointcuts.specs.inner.Errors.{error_of_scope};

    ghost from_gives = { λ error e. e ≡ error_of_scope error };

    fn from(error: ScopeError) -> AspectError {
        match error {
            ScopeError::OutOfMemory => AspectError::OutOfMemory,
            _ => AspectError::Scope(error),
        }
    }
}

impl From<NameFault> for AspectError {
    ghost use Rattle.std.specs.Prelude.{◌≡◌};
    ghost use Rattle.argos_scope.specs.inner.Joined.{error_of_fault};
    ghost use Rattle.pointcuts.specs.inner.Errors.{error_of_scope};

    ghost from_gives = { λ fault e. e ≡ error_of_scope (error_of_fault fault) };

    fn from(fault: NameFault) -> AspectError {
        ScopeError::from(fault).into()
    }
}

impl From<OutOfMemory> for AspectError {
    ghost use Rattle.std.specs.Prelude.{◌≡◌};
    ghost use Rattle.pointcuts.specs.declared.errors.AspectError.TheVariants as errors;

    ghost from_gives = { λ _ e. e ≡ errors.OutOfMemory };

    fn from(_error: OutOfMemory) -> AspectError {
        AspectError::OutOfMemory
    }
}

/// The observer, which is this module, isn't accepted for this reason.
pub fn unaccepted(observer: Module, error: AcceptError) -> AspectError
    ensures { result ≡ error_of_accept observer error }
{
    match error {
        AcceptError::OutOfMemory => AspectError::OutOfMemory,
        _ => AspectError::Observer(observer, error),
    }
}
