//! The arena of one job on diagrams.
ghost use Rattle.std.specs.Prelude.{◌≡◌, ◌≢◌, ◌<◌, ◌≤◌, ℕ, Err, IfOk};
ghost use Rattle.dd_core.specs.Arenas.{ArenaView, IsEmpty};

use crate::errors::CheckError;
use dd_core::{Arena, NewError};
use std::alloc::Global;

/// An arena of its own for a job with so many variables.
///
/// # Errors
///
/// `Variables` where there are more than 1,024; never `Budget`.
pub fn job_arena(alloc: Global, variables: u32, budget: u32) -> Result<Arena, CheckError>
    requires least { 2 ≤ budget }
    requires greatest { budget ≤ 16777216 }
    ensures empty { IfOk result (λ arena. IsEmpty variables budget arena) }
    ensures fits { IfOk result (λ _. variables ≤ 1024) }
    ensures variables { (n : ℕ) → result ≡ Err (CheckError.Variables n) → (n ≡ variables) × (1024 < n) }
    ensures budget { (arena : ArenaView) → result ≢ Err (CheckError.Budget arena) }
{
    match Arena::new(alloc, variables, budget) {
        Ok(arena) => Ok(arena),
        Err(NewError::Variables(n)) => Err(CheckError::Variables(n)),
        Err(NewError::OutOfMemory) => Err(CheckError::OutOfMemory),
    }
}
