// The least values of the cyclic bits.
ghost use Rattle.std.specs.Prelude.{◌≡◌, ◌+◌, ◌-◌, ◌<◌, length, All, IfOk};
ghost use Rattle.dd_core.specs.Arenas.{IsArena, Holds, AddsAtMost, HasNoRoom};
ghost use Rattle.verdict_search.specs.Counts.{solving_count};
ghost use Rattle.verdict_search.specs.Parts.{AreParts};
ghost use Rattle.verdict_search.specs.Roots.{AreLeastOnes};
ghost use Rattle.verdict_search.specs.inner.Solving.{IsRoot, AreBoth};

use crate::parting::Parts;
use crate::quantifying::exists_from;
use dd_core::{Arena, DdError, NodeId};
use dd_ops::restrict;
use std::alloc::Global;

/// For each cyclic bit the node of the function that is true at the structural points where it is true in
/// the least consistent values: variable `points` first, and false before true. Each structural point should
/// have consistent values.
///
/// # Errors
///
/// `Budget` where the arena is full and some function of its variables isn't held.
pub fn least_roots(
    alloc: Global,
    arena: &mut Arena,
    points: u32,
    structural: NodeId,
    parts: &Parts,
) -> Result<Vec<NodeId>, DdError>
    requires structural { Holds arena.old structural.0 }
    requires parts { AreParts arena.old points parts.now }
    ensures adds { AddsAtMost (solving_count (arena.old.variables - points)) arena.old arena.new }
    ensures budget { result ≡ Err DdError.Budget → HasNoRoom arena.new }
    ensures sized { IfOk result (λ roots. length roots.items ≡ arena.old.variables - points) }
    ensures held { IfOk result (λ roots. All (λ f. Holds arena.new f.0) roots.items) }
    ensures least { IfOk result (λ roots.
        AreLeastOnes arena.old arena.new points structural.0 parts.now.consistent.items roots.items) }
{
    let mut rests = at_structural(alloc, arena, structural, &parts.consistent)?;
    let mut roots = Vec::new(alloc);
    for (place, part) in parts.labels.iter().enumerate() {
        let variable = points + place as u32;
        let (root, next) = take_least(alloc, arena, structural, rests[*part], variable)?;
        roots.push(root)?;
        rests[*part] = next;
    }
    Ok(roots)
}

// Each of the functions, but false at points that aren't structural.
fn at_structural(
    alloc: Global,
    arena: &mut Arena,
    structural: NodeId,
    fs: &[NodeId],
) -> Result<Vec<NodeId>, DdError>
    requires structural { Holds arena.old structural.0 }
    requires held { All (λ f. Holds arena.old f.0) fs.now }
    ensures adds { AddsAtMost (length fs.now) arena.old arena.new }
    ensures budget { result ≡ Err DdError.Budget → HasNoRoom arena.new }
    ensures sized { IfOk result (λ rests. length rests.items ≡ length fs.now) }
    ensures denote { IfOk result (λ rests. AreBoth arena.old arena.new structural.0 fs.now rests.items) }
{
    // The proof begins with what this call says of each arena.
    let _ = arena.variables();
    let mut rests = Vec::new(alloc);
    for f in fs {
        let rest = arena.and(structural, *f)?;
        rests.push(rest)?;
    }
    Ok(rests)
}

// Where the next cyclic bit is true in the least values that `rest` passes, and `rest` with this bit set so.
// In `rest` the earlier ones are set to their least values.
fn take_least(
    alloc: Global,
    arena: &mut Arena,
    structural: NodeId,
    rest: NodeId,
    variable: u32,
) -> Result<(NodeId, NodeId), DdError>
    requires variable { variable < arena.old.variables }
    requires structural { Holds arena.old structural.0 }
    requires rest { Holds arena.old rest.0 }
    ensures adds { AddsAtMost (5 + (arena.old.variables - variable)) arena.old arena.new }
    ensures budget { result ≡ Err DdError.Budget → HasNoRoom arena.new }
    ensures held_root { IfOk result (λ made. Holds arena.new made.0.0) }
    ensures held_next { IfOk result (λ made. Holds arena.new made.1.0) }
    ensures root { IfOk result (λ made.
        IsRoot arena.old arena.new variable structural.0 rest.0 made.0.0 made.1.0) }
{
    let low = restrict(arena, rest, variable, false)?;
    let somewhere = exists_from(alloc, arena, low, variable + 1)?;
    let forced = arena.not(somewhere)?;
    let root = arena.and(structural, forced)?;
    let high = restrict(arena, rest, variable, true)?;
    let next = arena.ite(forced, high, low)?;
    Ok((root, next))
}
