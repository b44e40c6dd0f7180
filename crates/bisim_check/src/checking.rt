ghost use Rattle.std.specs.Prelude.{◌≡◌, ◌<◌, ◌≤◌, ℕ, true, Ok, Err, IfOk};
ghost use Rattle.argos_congruence.specs.Congruence.{AreEqualUnderAspects, HaveSameNames};
ghost use Rattle.argos_core.specs.ModuleViews.{module_of};
ghost use Rattle.bisim_check.specs.Found.{answer_of, FitsJob};
ghost use Rattle.bisim_check.specs.Jobs.{job_variables, IsJob, IsStopped};
ghost use Rattle.bisim_formula.specs.Views.{formula_of};
ghost use Rattle.bisim_verdict.specs.Bisimulation.{IsEquivAnswer};
ghost use Rattle.bisim_verdict.specs.EquivTests.{starts};
ghost use Rattle.dd_core.specs.Arenas.{ArenaView};

use crate::decoding::found_of;
use crate::found::EquivFound;
use crate::interfaces::first_foreign;
use crate::placing::places_together;
use crate::searching::search;
use argos_compile::Accepted;
use bisim_formula::{Cert, holds};
use dd_core::DdError;
use eqn_dd::{CheckError, job_arena};
use std::alloc::Global;

/// Whether the memories that satisfy the certificate's formula are a bisimulation of the two programs; else why not. Decided in this
/// order: the names of both interfaces, the initial memories, outputs, next memories.
///
/// # Errors
///
/// `Variables` where names and initial memories would do, and the job has more than 1,024 variables, which are the register bits of
/// both programs and the left inputs. `Budget` where an operation on diagrams answered it; the job's arena then holds `budget` nodes, and
/// `budget` is below the job's need.
pub fn equiv(
    alloc: Global,
    left: &Accepted,
    right: &Accepted,
    cert: &Cert,
    budget: u32,
) -> Result<EquivFound, CheckError>
    requires least { 2 ≤ budget }
    requires greatest { budget ≤ 16777216 }
    ensures answer { IfOk result (λ found. ∥ IsEquivAnswer (formula_of cert.now) (module_of left.now.«module») (module_of right.now.«module») (answer_of found) ∥₁) }
    ensures fits { IfOk result (λ found. FitsJob (module_of left.now.«module») (module_of right.now.«module») (answer_of found)) }
    ensures congruence { result ≡ Ok EquivFound.Accept → ∥ AreEqualUnderAspects (module_of left.now.«module») (module_of right.now.«module») ∥₁ }
    ensures variables { (n : ℕ) → result ≡ Err (CheckError.Variables n) → (n ≡ job_variables (module_of left.now.«module») (module_of right.now.«module»)) × (1024 < n)
        × ∥ IsJob (formula_of cert.now) (module_of left.now.«module») (module_of right.now.«module») ∥₁ }
    ensures budget { (arena : ArenaView) → result ≡ Err (CheckError.Budget arena)
        → ∥ IsStopped (formula_of cert.now) (module_of left.now.«module») (module_of right.now.«module») left.now.ordered right.now.ordered budget arena ∥₁ }
{
    if let Some(name) = first_foreign(left.module(), right.module()) {
        return Ok(EquivFound::Interfaces { name });
    }
    if !starts_related(left, right, cert) {
        return Ok(EquivFound::Start);
    }
    decide(alloc, left, right, cert, budget)
}

// The answer by diagrams, where the names are the same and the initial memories related.
fn decide(
    alloc: Global,
    left: &Accepted,
    right: &Accepted,
    cert: &Cert,
    budget: u32,
) -> Result<EquivFound, CheckError>
    requires same { HaveSameNames (module_of left.now.«module») (module_of right.now.«module») }
    requires started { starts (formula_of cert.now) (module_of left.now.«module») (module_of right.now.«module») ≡ true }
    requires least { 2 ≤ budget }
    requires greatest { budget ≤ 16777216 }
    ensures answer { IfOk result (λ found. ∥ IsEquivAnswer (formula_of cert.now) (module_of left.now.«module») (module_of right.now.«module») (answer_of found) ∥₁) }
    ensures fits { IfOk result (λ _. job_variables (module_of left.now.«module») (module_of right.now.«module») ≤ 1024) }
    ensures variables { (n : ℕ) → result ≡ Err (CheckError.Variables n) → (n ≡ job_variables (module_of left.now.«module») (module_of right.now.«module»)) × (1024 < n) }
    ensures budget { (arena : ArenaView) → result ≡ Err (CheckError.Budget arena)
        → IsStopped (formula_of cert.now) (module_of left.now.«module») (module_of right.now.«module») left.now.ordered right.now.ordered budget arena }
{
    let together = places_together(alloc, left, right)?;
    let mut arena = job_arena(alloc, together.variables, budget)?;
    match search(alloc, &mut arena, left, right, cert, &together) {
        Ok(outcome) => Ok(found_of(alloc, outcome, left.module(), &together)?),
        Err(DdError::Budget) => Err(CheckError::Budget(arena)),
        Err(DdError::OutOfMemory) => Err(CheckError::OutOfMemory),
    }
}

// Whether the initial memories satisfy the formula.
fn starts_related(left: &Accepted, right: &Accepted, cert: &Cert) -> bool
    ensures { result ≡ starts (formula_of cert.now) (module_of left.now.«module») (module_of right.now.«module») }
{
    let initial = &left.ordered().system().init;
    let other = &right.ordered().system().init;
    holds(cert, left.layout(), right.layout(), initial, other)
}
