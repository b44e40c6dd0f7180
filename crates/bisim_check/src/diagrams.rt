// A program's equations as diagrams.
ghost use Rattle.std.specs.Prelude.{◌≡◌, ◌+◌, ◌*◌, ◌<◌, ◌^◌, [], All, IfOk, length, map, slice_index_or, Err};
ghost use Rattle.std.specs.List.{range_with_len};
ghost use Rattle.argos_core.specs.Views.{shapes_of};
ghost use Rattle.bisim_check.specs.inner.Nodes.{AreDrawn};
ghost use Rattle.dd_core.specs.Arenas.{AddsAtMost, HasNoRoom};
ghost use Rattle.eqn_core.specs.Equations.{registers, weight_of};
ghost use Rattle.eqn_dd.specs.Placed.{NamesRegisters, NamesVariables};

use argos_core::Layout;
use dd_core::{Arena, DdError, NodeId};
use eqn_core::{Ordered, Plan};
use eqn_dd::{Diagrams, Places, diagrams_of, structural};
use std::alloc::{AllocError, Global};

/// The diagrams of a program's registers and next words, as words of sixteen digits each, of its outputs, and of its structural
/// memories.
#[derive(Debug, Drop)]
pub(crate) struct ProgramDiagrams {
    pub registers: Vec<Vec<NodeId>>,
    pub next: Vec<Vec<NodeId>>,
    pub outputs: Vec<NodeId>,
    pub structural: NodeId,
}

/// The diagrams of ordered equations over these places.
pub(crate) fn program_diagrams(
    alloc: Global,
    arena: &mut Arena,
    ordered: &Ordered,
    layout: &Layout,
    places: &Places,
) -> Result<ProgramDiagrams, DdError>
    requires places { NamesVariables arena.old.variables ordered.now [] places.now }
    requires registers { NamesRegisters arena.old.variables places.now.regs.items }
    requires sized { length layout.now.regs.items ≡ registers ordered.now }
    ensures adds { AddsAtMost (64 * weight_of ordered.now + arena.old.variables + (128 * registers ordered.now + arena.old.variables)) arena.old arena.new }
    ensures budget { result ≡ Err DdError.Budget → HasNoRoom arena.new }
    ensures drawn { IfOk result (AreDrawn arena.new ordered.now (shapes_of layout.now) places.now) }
{
    // The proof begins with what this call says of each arena.
    let _ = arena.variables();
    let system = ordered.system();
    let plan = plan_as_it_stands(alloc, system.lines.len())?;
    let Diagrams { bits, mut words } = diagrams_of(alloc, arena, system, &plan, places)?;
    let structural = structural(alloc, arena, layout, places)?;
    let next = words_at(alloc, &words, &system.next)?;
    let outputs = bits_at(alloc, &bits, &system.outs)?;
    // The registers are the first words.
    words.truncate(system.init.len());
    Ok(ProgramDiagrams {
        registers: words,
        next,
        outputs,
        structural,
    })
}

// The plan of so many lines in their order, where no bit is cyclic.
fn plan_as_it_stands(alloc: Global, lines: usize) -> Result<Plan, AllocError>
    requires { lines < 2 ^ 32 }
    ensures order { IfOk result (λ plan. plan.order.items ≡ range_with_len 0 lines) }
    ensures cyclic { IfOk result (λ plan. plan.cyclic.items ≡ []) }
{
    let order = (0..lines as u32).collect(alloc)?;
    Ok(Plan {
        order,
        cyclic: Vec::new(alloc),
    })
}

// The words of these numbers.
fn words_at(
    alloc: Global,
    words: &[Vec<NodeId>],
    numbers: &[u32],
) -> Result<Vec<Vec<NodeId>>, AllocError>
    requires { All (λ k. k < length words.now) numbers.now }
    ensures { IfOk result (λ found. map (λ w. w.items) found.items ≡ map (λ k. slice_index_or (map (λ w. w.items) words.now) k []) numbers.now) }
{
    let mut found = Vec::with_capacity(alloc, numbers.len())?;
    for number in numbers {
        found.push(Vec::from_slice(alloc, &words[*number as usize])?)?;
    }
    Ok(found)
}

// The bits of these numbers.
fn bits_at(alloc: Global, bits: &[NodeId], numbers: &[u32]) -> Result<Vec<NodeId>, AllocError>
    requires { All (λ k. k < length bits.now) numbers.now }
    ensures { IfOk result (λ found. found.items ≡ map (λ k. slice_index_or bits.now k (record { 0 = 0 })) numbers.now) }
{
    let mut found = Vec::with_capacity(alloc, numbers.len())?;
    for number in numbers {
        found.push(bits[*number as usize])?;
    }
    Ok(found)
}
