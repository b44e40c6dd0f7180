ghost use Rattle.std.specs.Prelude.{◌≡◌, ◌≤◌, [], length, IfOk, IsTrue};
ghost use Rattle.eqn_core.specs.Equations.{weight_of};
ghost use Rattle.eqn_core.specs.Orderable.{IsOrderable};
ghost use Rattle.eqn_core.specs.Ordered.{all_below, IsOrdered};
ghost use Rattle.eqn_core.specs.Plans.{IsPlanOf};
ghost use Rattle.eqn_core.specs.Views.{equations_from};
ghost use Rattle.eqn_completion.specs.Sorted.{sorted_system};
ghost use Rattle.eqn_sort.specs.Promises.{HasReactionsOf, HasRunsOf};

use crate::moving::move_lines;
use crate::tables::Tables;
use argos_base::OutOfMemory;
use eqn_core::{Ordered, Plan, System};
use std::alloc::Global;

/// A system without cyclic bits with its lines in the order of its plan: an ordered system with exactly its reactions, at all memories,
/// so a stepper of it runs the system. Inputs, initial codes and the number of outputs stay; bits and words get new numbers.
pub fn sort(alloc: Global, system: &System, plan: &Plan) -> Result<Ordered, OutOfMemory>
    requires orderable { IsOrderable (equations_from system.now) }
    requires plan { IsPlanOf (equations_from system.now) plan.now.order.items plan.now.cyclic.items }
    requires acyclic { plan.now.cyclic.items ≡ [] }
    requires register { 1 ≤ length system.now.init.items }
    ensures is { IfOk result (λ o. o ≡ sorted_system (equations_from system.now) plan.now.order.items) }
    ensures reactions { IfOk result (λ o. HasReactionsOf o (equations_from system.now)) }
    ensures runs { IfOk result (λ o. HasRunsOf o (equations_from system.now)) }
    ensures inputs { IfOk result (λ o. o.inputs ≡ system.now.inputs) }
    ensures initial { IfOk result (λ o. o.initial ≡ system.now.init.items) }
    ensures outputs { IfOk result (λ o. length o.outputs ≡ length system.now.outs.items) }
    ensures lines { IfOk result (λ o. length o.lines ≤ length system.now.lines.items) }
    ensures weight { IfOk result (λ o. weight_of o ≤ weight_of (equations_from system.now)) }
{
    let sorted = sorted_system(alloc, system, plan)?;
    match Ordered::from_system(sorted) {
        Ok(ordered) => Ok(ordered),
        Err(_) => unreachable!(),
    }
}

// The system with its lines in the order of the plan.
fn sorted_system(alloc: Global, system: &System, plan: &Plan) -> Result<System, OutOfMemory>
    requires orderable { IsOrderable (equations_from system.now) }
    requires plan { IsPlanOf (equations_from system.now) plan.now.order.items plan.now.cyclic.items }
    requires acyclic { plan.now.cyclic.items ≡ [] }
    requires register { 1 ≤ length system.now.init.items }
    ensures is { IfOk result (λ s. equations_from s ≡ sorted_system (equations_from system.now) plan.now.order.items) }
    ensures ordered { IfOk result (λ s. IsOrdered (equations_from s)) }
{
    let mut tables = Tables::first(alloc, system)?;
    let mut lines = Vec::with_capacity(alloc, system.lines.len())?;
    move_lines(alloc, system, plan, &mut tables, &mut lines)?;
    Ok(System {
        inputs: system.inputs,
        init: copy_codes(alloc, &system.init)?,
        lines,
        outs: tables.new_bits(alloc, &system.outs)?,
        locals: Vec::new(alloc),
        next: tables.new_words(alloc, &system.next)?,
    })
}

// The same codes, each of which has 16 bits.
fn copy_codes(alloc: Global, codes: &[u16]) -> Result<Vec<u16>, OutOfMemory>
    ensures items { IfOk result (λ v. v.items ≡ codes.now) }
    ensures codes { IfOk result (λ v. IsTrue (all_below 65536 v.items)) }
{
    Ok(Vec::from_slice(alloc, codes)?)
}
