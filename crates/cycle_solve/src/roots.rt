// The roots of the cyclic bits.
ghost use Rattle.std.specs.Prelude.{◌≡◌, ◌+◌, ◌<◌, ◌≤◌, length, map, All, IfOk};
ghost use Rattle.argos_base.specs.Machines.{AlwaysReactsOnce};
ghost use Rattle.argos_core.specs.Layouts.{FitsLayout};
ghost use Rattle.argos_core.specs.Views.{shapes_of, register_shape_of};
ghost use Rattle.dd_core.specs.Arenas.{AddsAtMost, HasNoRoom};
ghost use Rattle.eqn_completion.specs.Binary.{digits_in};
ghost use Rattle.eqn_core.specs.Orderable.{IsOrderable};
ghost use Rattle.eqn_core.specs.Plans.{IsPlanOf};
ghost use Rattle.eqn_core.specs.Solutions.{SystemReacts};
ghost use Rattle.eqn_core.specs.Views.{equations_from};
ghost use Rattle.eqn_dd.specs.Placed.{AreInTurn};
ghost use Rattle.eqn_dd.specs.Structural.{widths_of};
ghost use Rattle.eqn_verdict.specs.Needs.{solve_operations};
ghost use Rattle.instant_verdict.specs.Jobs.{job_size, job_variables};
ghost use Rattle.instant_verdict.specs.inner.Searched.{node_or_false};
ghost use Rattle.cycle_solve.specs.inner.Roots.{AreRootsOf};

use argos_core::{Layout, Shape};
use dd_core::{Arena, DdError, NodeId};
use eqn_core::{Plan, System};
use eqn_dd::{Places, diagrams_of, structural};
use std::alloc::{AllocError, Global};
use verdict_search::{consistency, least_roots};

/// For each cyclic bit the node of the function that says where it is in the least solution. Of the
/// variables so many are points: register bits and inputs.
pub(crate) fn cycle_roots(
    alloc: Global,
    arena: &mut Arena,
    system: &System,
    plan: &Plan,
    layout: &Layout,
    places: &Places,
    points: u32,
) -> Result<Vec<NodeId>, DdError>
    requires orderable { IsOrderable (equations_from system.now) }
    requires plan { IsPlanOf (equations_from system.now) plan.now.order.items plan.now.cyclic.items }
    requires sized { length layout.now.regs.items ≡ length system.now.init.items }
    requires reacts { AlwaysReactsOnce (FitsLayout (shapes_of layout.now)) system.now.inputs
        (SystemReacts (equations_from system.now)) }
    requires places { AreInTurn (widths_of (shapes_of layout.now)) system.now.inputs
        (length plan.now.cyclic.items) places.now }
    requires points { points ≡ digits_in (widths_of (shapes_of layout.now)) + system.now.inputs }
    requires variables { arena.old.variables
        ≡ job_variables (equations_from system.now) (shapes_of layout.now) plan.now.cyclic.items }
    ensures adds { AddsAtMost (solve_operations (job_size (equations_from system.now)
        (shapes_of layout.now) plan.now.cyclic.items)) arena.old arena.new }
    ensures budget { result ≡ Err DdError.Budget → HasNoRoom arena.new }
    ensures roots { IfOk result (λ roots. AreRootsOf (equations_from system.now)
        (shapes_of layout.now) plan.now.cyclic.items arena.new roots.items) }
{
    greatest_codes(&layout.regs);
    let diagrams = diagrams_of(alloc, arena, system, plan, places)?;
    let fitting = structural(alloc, arena, layout, places)?;
    let given = listed(alloc, &diagrams.bits, &plan.cyclic)?;
    let parts = consistency(alloc, arena, points, &given)?;
    least_roots(alloc, arena, points, fitting, &parts)
}

// Each register's greatest code has sixteen bits, so the variables for it are enough.
fn greatest_codes(shapes: &[Shape])
    ensures { All (λ s. s.top ≤ 65535) (map register_shape_of shapes.now) }
{
    for shape in shapes {
        sixteen_bits(shape.top);
    }
}

// What the type says of a code.
fn sixteen_bits(code: u16)
    ensures { code ≤ 65535 }
{}

// The diagrams of these bits.
fn listed(alloc: Global, bits: &[NodeId], numbers: &[u32]) -> Result<Vec<NodeId>, AllocError>
    requires { All (λ k. k < length bits.now) numbers.now }
    ensures { IfOk result (λ ids. ids.items ≡ map (node_or_false bits.now) numbers.now) }
{
    let mut ids = Vec::new(alloc);
    for number in numbers {
        ids.push(bits[*number as usize])?;
    }
    Ok(ids)
}
