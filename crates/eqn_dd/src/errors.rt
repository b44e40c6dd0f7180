//! Why a check by diagrams has no answer.
use argos_base::OutOfMemory;
use dd_core::Arena;

/// Why a check by diagrams has no answer.
#[derive(Debug, Drop)]
pub enum CheckError {
    /// A job of diagrams has so many variables, which is more than 1,024.
    Variables(u32),
    /// An operation of a job answered `Budget`. The arena is the job's, as it then stood.
    Budget(Arena),
    OutOfMemory,
}

impl From<OutOfMemory> for CheckError {
    ghost use Rattle.std.specs.Prelude.{◌≡◌};
    ghost use Rattle.eqn_dd.specs.declared.errors.CheckError.TheVariants as variants;

    ghost from_gives = { λ _ e. e ≡ variants.OutOfMemory };

    fn from(_: OutOfMemory) -> CheckError {
        CheckError::OutOfMemory
    }
}
