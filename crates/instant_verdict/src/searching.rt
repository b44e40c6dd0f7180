// The search for the verdict, by diagrams of a system's lines.
ghost use Rattle.std.specs.Prelude.{◌≡◌, ◌+◌, ◌<◌, ◌≤◌, ◌++◌, [], map, length, flat_map, slice_index_or, All, IfOk};
ghost use Rattle.argos_core.specs.Views.{shapes_of, register_shape_of};
ghost use Rattle.dd_core.specs.Arenas.{AddsAtMost, HasNoRoom};
ghost use Rattle.eqn_completion.specs.Binary.{digits_in};
ghost use Rattle.eqn_core.specs.Orderable.{IsOrderable};
ghost use Rattle.eqn_core.specs.Plans.{IsPlanOf};
ghost use Rattle.eqn_core.specs.Views.{equations_from};
ghost use Rattle.eqn_dd.specs.Placed.{AreInTurn};
ghost use Rattle.eqn_dd.specs.Structural.{widths_of};
ghost use Rattle.eqn_verdict.specs.Needs.{instant_operations};
ghost use Rattle.instant_verdict.specs.Jobs.{job_size, job_variables};
ghost use Rattle.instant_verdict.specs.inner.Searched.{IsVerdictFound, node_or_false};

use argos_core::{Layout, Shape};
use dd_core::{Arena, DdError, NodeId};
use eqn_core::{Plan, System};
use eqn_dd::{Diagrams, Places, diagrams_of, structural};
use std::alloc::{AllocError, Global};
use verdict_search::{Found, consistency, find};

/// The verdict in the values of variables, of which so many are points: register bits and inputs.
pub(crate) fn search(
    alloc: Global,
    arena: &mut Arena,
    system: &System,
    plan: &Plan,
    layout: &Layout,
    places: &Places,
    points: u32,
) -> Result<Found, DdError>
    requires orderable { IsOrderable (equations_from system.now) }
    requires plan { IsPlanOf (equations_from system.now) plan.now.order.items plan.now.cyclic.items }
    requires sized { length layout.now.regs.items ≡ length system.now.init.items }
    requires places { AreInTurn (widths_of (shapes_of layout.now)) system.now.inputs (length plan.now.cyclic.items) places.now }
    requires points { points ≡ digits_in (widths_of (shapes_of layout.now)) + system.now.inputs }
    requires variables { arena.old.variables ≡ job_variables (equations_from system.now) (shapes_of layout.now) plan.now.cyclic.items }
    ensures adds { AddsAtMost (instant_operations (job_size (equations_from system.now) (shapes_of layout.now) plan.now.cyclic.items)) arena.old arena.new }
    ensures budget { result ≡ Err DdError.Budget → HasNoRoom arena.new }
    ensures found { IfOk result (IsVerdictFound (equations_from system.now) (shapes_of layout.now) plan.now.cyclic.items) }
{
    greatest_codes(&layout.regs);
    let Diagrams { bits, words } = diagrams_of(alloc, arena, system, plan, places)?;
    let fitting = structural(alloc, arena, layout, places)?;
    let given = listed(alloc, &bits, &plan.cyclic)?;
    let parts = consistency(alloc, arena, points, &given)?;
    let results = results_of(alloc, system, &bits, &words)?;
    find(alloc, arena, points, fitting, &parts, &results)
}

// Each register's greatest code has sixteen bits, so the variables for it are enough.
fn greatest_codes(shapes: &[Shape])
    ensures { All (λ s. s.top ≤ 65535) (map register_shape_of shapes.now) }
{
    for shape in shapes {
        sixteen_bits(shape.top);
    }
}

// What the type says of a code.
fn sixteen_bits(code: u16)
    ensures { code ≤ 65535 }
{}

// The diagrams of these bits.
fn listed(alloc: Global, bits: &[NodeId], numbers: &[u32]) -> Result<Vec<NodeId>, AllocError>
    requires { All (λ k. k < length bits.now) numbers.now }
    ensures { IfOk result (λ ids. ids.items ≡ map (node_or_false bits.now) numbers.now) }
{
    let mut ids = Vec::new(alloc);
    for number in numbers {
        ids.push(bits[*number as usize])?;
    }
    Ok(ids)
}

// The diagrams of the outputs, and then of the digits of the next words.
fn results_of(
    alloc: Global,
    system: &System,
    bits: &[NodeId],
    words: &[Vec<NodeId>],
) -> Result<Vec<NodeId>, AllocError>
    requires outputs { All (λ k. k < length bits.now) system.now.outs.items }
    requires next { All (λ k. k < length words.now) system.now.next.items }
    ensures { IfOk result (λ ids. ids.items ≡ map (node_or_false bits.now) system.now.outs.items
        ++ flat_map (λ k. slice_index_or (map (λ w. w.items) words.now) k []) system.now.next.items) }
{
    let mut ids = listed(alloc, bits, &system.outs)?;
    for word in &system.next {
        ids.extend_from_slice(&words[*word as usize])?;
    }
    Ok(ids)
}
