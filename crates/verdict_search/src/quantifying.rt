// The last variables quantified.
ghost use Rattle.std.specs.Prelude.{◌≡◌, ◌-◌, ◌≤◌, IfOk};
ghost use Rattle.dd_core.specs.Arenas.{IsArena, Holds, AddsAtMost, HasNoRoom};
ghost use Rattle.verdict_search.specs.inner.Testing.{IsSomeFrom};

use dd_core::{Arena, DdError, NodeId};
use dd_ops::exists;
use std::alloc::Global;

/// The node of the function that is true where some values of the variables from `first` on make f true.
pub(crate) fn exists_from(
    alloc: Global,
    arena: &mut Arena,
    f: NodeId,
    first: u32,
) -> Result<NodeId, DdError>
    requires held { Holds arena.old f.0 }
    requires first { first ≤ arena.old.variables }
    ensures adds { AddsAtMost (arena.old.variables - first) arena.old arena.new }
    ensures budget { result ≡ Err DdError.Budget → HasNoRoom arena.new }
    ensures held { IfOk result (λ e. Holds arena.new e.0) }
    ensures some { IfOk result (λ e. IsSomeFrom arena.old arena.new first f.0 e.0) }
{
    let later: Vec<u32> = (first..arena.variables()).collect(alloc)?;
    exists(arena, f, &later)
}
