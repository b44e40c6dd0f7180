// The diagrams of a state's guards.
ghost use Rattle.std.specs.Prelude.{◌≡◌, ◌*◌, map, length, IfOk};
ghost use Rattle.dd_core.specs.Arenas.{AddsAtMost, HasNoRoom};
ghost use Rattle.argos_core.specs.Overlaps.{some_reads};
ghost use Rattle.argos_core.specs.Sizes.{transitions_size};
ghost use Rattle.argos_core.specs.Views.{transition_of, numbers};
ghost use Rattle.instant_check.specs.Telling.{AreAmong};
ghost use Rattle.instant_check.specs.inner.Meeting.{AreGuards};

use crate::guards::guard_diagram;
use argos_base::SigId;
use argos_core::Trans;
use dd_core::{Arena, DdError, NodeId};
use std::alloc::Global;

/// The node of the guard of each transition.
pub(crate) fn guard_diagrams(
    alloc: Global,
    arena: &mut Arena,
    transitions: &[Trans],
    signals: &[SigId],
) -> Result<Vec<NodeId>, DdError>
    requires sized { length signals.now ≡ arena.old.variables }
    requires read { AreAmong (some_reads (map transition_of transitions.now)) (numbers signals.now) }
    ensures adds { AddsAtMost (2 * transitions_size (map transition_of transitions.now)) arena.old arena.new }
    ensures budget { result ≡ Err DdError.Budget → HasNoRoom arena.new }
    ensures guards { IfOk result (λ guards.
        AreGuards arena.new (numbers signals.now) (map transition_of transitions.now) guards.items) }
{
    // The proof begins with what this call says of each arena.
    let _ = arena.variables();
    let mut guards = Vec::with_capacity(alloc, transitions.len())?;
    for transition in transitions {
        guards.push(guard_diagram(arena, &transition.guard, signals)?)?;
    }
    Ok(guards)
}
