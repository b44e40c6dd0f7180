ghost use Rattle.std.specs.Prelude.{◌≡◌, ◌≢◌, ℕ, ◌+◌, ◌*◌, ◌<◌, ◌≤◌, [], length, IfOk};
ghost use Rattle.argos_base.specs.Machines.{AlwaysReactsOnce};
ghost use Rattle.argos_core.specs.Layouts.{FitsLayout};
ghost use Rattle.argos_core.specs.Views.{shapes_of};
ghost use Rattle.dd_core.specs.Arenas.{ArenaView};
ghost use Rattle.eqn_core.specs.Equations.{weight_of};
ghost use Rattle.eqn_core.specs.Orderable.{IsOrderable};
ghost use Rattle.eqn_core.specs.Plans.{IsPlanOf};
ghost use Rattle.eqn_core.specs.Solutions.{SystemReacts};
ghost use Rattle.eqn_core.specs.Views.{equations_from};
ghost use Rattle.instant_verdict.specs.Jobs.{job_variables, IsStopped};
ghost use Rattle.cycle_solve.specs.Solved.{IsSolved};

use crate::listing::nodes_under;
use crate::roots::cycle_roots;
use crate::system::solved_system;
use argos_core::Layout;
use dd_core::DdError;
use eqn_core::{Ordered, Plan, System};
use eqn_dd::{CheckError, job_arena, place_vars};
use eqn_sort::sort;
use std::alloc::Global;

/// An ordered system with the reactions of this one at the memories that fit the layout, and how many
/// nodes were needed for it: the different ones, constants aside, of the functions that say where each
/// cyclic bit is in the least solution. The plan is the system's own. Inputs, initial codes and the
/// number of outputs stay; bits and words get new numbers. Where nothing is cyclic it has no more lines
/// and no more weight, and no node is needed.
///
/// # Errors
///
/// `Variables` where the job has more than 1,024 variables, which are register bits, inputs and cyclic
/// bits. `Budget` where an operation on diagrams answered it; the job's arena then holds `budget`
/// nodes, and `budget` is below the job's need. Neither comes where nothing is cyclic.
pub fn solve(
    alloc: Global,
    system: System,
    plan: &Plan,
    layout: &Layout,
    budget: u32,
) -> Result<(Ordered, u32), CheckError>
    requires orderable { IsOrderable (equations_from system) }
    requires plan { IsPlanOf (equations_from system) plan.now.order.items plan.now.cyclic.items }
    requires sized { length layout.now.regs.items ≡ length system.init.items }
    requires register { 1 ≤ length system.init.items }
    requires reacts { AlwaysReactsOnce (FitsLayout (shapes_of layout.now)) system.inputs
        (SystemReacts (equations_from system)) }
    requires least { 2 ≤ budget }
    requires greatest { budget ≤ 16777216 }
    ensures solved { IfOk result (λ made. IsSolved (equations_from system)
        (shapes_of layout.now) plan.now.cyclic.items made.0 made.1) }
    ensures variables { (n : ℕ) → result ≡ Err (CheckError.Variables n)
        → (n ≡ job_variables (equations_from system) (shapes_of layout.now) plan.now.cyclic.items)
        × (1024 < n) }
    ensures budget { (arena : ArenaView) → result ≡ Err (CheckError.Budget arena)
        → IsStopped (equations_from system) (shapes_of layout.now) plan.now.cyclic.items budget arena }
    ensures acyclic { plan.now.cyclic.items ≡ [] → (n : ℕ) → result ≢ Err (CheckError.Variables n) }
    ensures no_diagrams { plan.now.cyclic.items ≡ [] → (arena : ArenaView)
        → result ≢ Err (CheckError.Budget arena) }
    ensures no_nodes { plan.now.cyclic.items ≡ [] → IfOk result (λ made. made.1 ≡ 0) }
    ensures no_lines { plan.now.cyclic.items ≡ []
        → IfOk result (λ made. length made.0.lines ≤ length system.lines.items) }
    ensures no_weight { plan.now.cyclic.items ≡ []
        → IfOk result (λ made. weight_of made.0 ≤ weight_of (equations_from system)) }
{
    if plan.cyclic.is_empty() {
        return Ok((sort(alloc, &system, plan)?, 0));
    }
    solve_cycles(alloc, &system, plan, layout, budget)
}

// The same, where something is cyclic.
fn solve_cycles(
    alloc: Global,
    system: &System,
    plan: &Plan,
    layout: &Layout,
    budget: u32,
) -> Result<(Ordered, u32), CheckError>
    requires orderable { IsOrderable (equations_from system.now) }
    requires plan { IsPlanOf (equations_from system.now) plan.now.order.items plan.now.cyclic.items }
    requires cyclic { 0 < length plan.now.cyclic.items }
    requires sized { length layout.now.regs.items ≡ length system.now.init.items }
    requires register { 1 ≤ length system.now.init.items }
    requires reacts { AlwaysReactsOnce (FitsLayout (shapes_of layout.now)) system.now.inputs
        (SystemReacts (equations_from system.now)) }
    requires least { 2 ≤ budget }
    requires greatest { budget ≤ 16777216 }
    ensures solved { IfOk result (λ made. IsSolved (equations_from system.now)
        (shapes_of layout.now) plan.now.cyclic.items made.0 made.1) }
    ensures variables { (n : ℕ) → result ≡ Err (CheckError.Variables n)
        → (n ≡ job_variables (equations_from system.now) (shapes_of layout.now) plan.now.cyclic.items)
        × (1024 < n) }
    ensures budget { (arena : ArenaView) → result ≡ Err (CheckError.Budget arena)
        → IsStopped (equations_from system.now) (shapes_of layout.now) plan.now.cyclic.items budget arena }
{
    let places = place_vars(alloc, system, plan, layout)?;
    // The cyclic bits' variables come behind those of registers and inputs.
    let points = places.cyclic[0];
    let mut arena = job_arena(alloc, points + plan.cyclic.len() as u32, budget)?;
    let roots = match cycle_roots(alloc, &mut arena, system, plan, layout, &places, points) {
        Ok(roots) => roots,
        Err(DdError::Budget) => return Err(CheckError::Budget(arena)),
        Err(DdError::OutOfMemory) => return Err(CheckError::OutOfMemory),
    };
    let ids = nodes_under(alloc, &arena, &roots)?;
    let solved = solved_system(
        alloc,
        system,
        plan,
        &places.regs,
        points,
        &arena,
        &ids,
        &roots,
    )?;
    match Ordered::from_system(solved) {
        Ok(ordered) => Ok((ordered, ids.len() as u32)),
        Err(_) => unreachable!(),
    }
}
