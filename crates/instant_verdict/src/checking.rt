ghost use Rattle.std.specs.Prelude.{◌≡◌, ◌≢◌, ◌+◌, ◌<◌, ◌≤◌, ℕ, [], length, IfOk, Err};
ghost use Rattle.argos_core.specs.Views.{shapes_of};
ghost use Rattle.dd_core.specs.Arenas.{ArenaView};
ghost use Rattle.eqn_core.specs.Orderable.{IsOrderable};
ghost use Rattle.eqn_core.specs.Plans.{IsPlanOf};
ghost use Rattle.eqn_core.specs.Views.{equations_from};
ghost use Rattle.instant_verdict.specs.Jobs.{job_variables, IsStopped};
ghost use Rattle.instant_verdict.specs.Verdicts.{IsVerdictOn};

use crate::decoding::verdict_of;
use crate::reactions::Verdict;
use crate::searching::search;
use argos_core::Layout;
use dd_core::DdError;
use eqn_core::{Plan, System};
use eqn_dd::{CheckError, job_arena, place_vars};
use std::alloc::Global;

/// The verdict on one reaction of a system at the memories that fit the layout. The plan is the system's own. Where something is cyclic,
/// a verdict comes of at most 1,024 variables.
///
/// # Errors
///
/// `Variables` where the job has more than 1,024 variables, which are register bits, inputs and cyclic bits. `Budget` where an
/// operation on diagrams answered it; the job's arena then holds `budget` nodes, and `budget` is below the job's need. Neither comes
/// where nothing is cyclic.
pub fn instant(
    alloc: Global,
    system: &System,
    plan: &Plan,
    layout: &Layout,
    budget: u32,
) -> Result<Verdict, CheckError>
    requires orderable { IsOrderable (equations_from system.now) }
    requires plan { IsPlanOf (equations_from system.now) plan.now.order.items plan.now.cyclic.items }
    requires sized { length layout.now.regs.items ≡ length system.now.init.items }
    requires least { 2 ≤ budget }
    requires greatest { budget ≤ 16777216 }
    ensures verdict { IfOk result (IsVerdictOn (equations_from system.now) (shapes_of layout.now)) }
    ensures fits { 0 < length plan.now.cyclic.items → IfOk result (λ _. job_variables (equations_from system.now) (shapes_of layout.now) plan.now.cyclic.items ≤ 1024) }
    ensures variables { (n : ℕ) → result ≡ Err (CheckError.Variables n)
        → (n ≡ job_variables (equations_from system.now) (shapes_of layout.now) plan.now.cyclic.items) × (1024 < n) }
    ensures budget { (arena : ArenaView) → result ≡ Err (CheckError.Budget arena)
        → IsStopped (equations_from system.now) (shapes_of layout.now) plan.now.cyclic.items budget arena }
    ensures acyclic { plan.now.cyclic.items ≡ [] → (n : ℕ) → result ≢ Err (CheckError.Variables n) }
    ensures no_diagrams { plan.now.cyclic.items ≡ [] → (arena : ArenaView) → result ≢ Err (CheckError.Budget arena) }
{
    if plan.cyclic.is_empty() {
        return Ok(Verdict::One);
    }
    let places = place_vars(alloc, system, plan, layout)?;
    // The cyclic bits' variables come behind those of registers and inputs.
    let points = places.cyclic[0];
    let mut arena = job_arena(alloc, points + plan.cyclic.len() as u32, budget)?;
    match search(alloc, &mut arena, system, plan, layout, &places, points) {
        Ok(found) => Ok(verdict_of(alloc, found, system, &places)?),
        Err(DdError::Budget) => Err(CheckError::Budget(arena)),
        Err(DdError::OutOfMemory) => Err(CheckError::OutOfMemory),
    }
}
