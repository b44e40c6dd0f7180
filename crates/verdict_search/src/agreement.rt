// Where the values of the cyclic bits agree with their functions.
ghost use Rattle.std.specs.Prelude.{◌≡◌, ◌+◌, ◌<◌, not, if◌then◌else◌, length, All, IfOk};
ghost use Rattle.argos_base.specs.SignalSets.{has};
ghost use Rattle.dd_core.specs.Arenas.{IsArena, Holds, function_of, AddsAtMost, HasNoRoom};
ghost use Rattle.eqn_dd.specs.Denoting.{Denotes};
ghost use Rattle.verdict_search.specs.Consistency.{IsConsistency};
ghost use Rattle.verdict_search.specs.Counts.{agreeing_count};
ghost use Rattle.verdict_search.specs.Parts.{AreParts};

use crate::parting::{Parts, labels_of};
use dd_core::{Arena, DdError, NodeId};
use std::alloc::Global;

/// The cyclic bits in parts, and for each the node of the function that is true where each of its bits has
/// the value of its function: the j-th one of `bits` is that of variable `points` + j.
///
/// # Errors
///
/// `Budget` where the arena is full and some function of its variables isn't held.
pub fn consistency(
    alloc: Global,
    arena: &mut Arena,
    points: u32,
    bits: &[NodeId],
) -> Result<Parts, DdError>
    requires variables { points + length bits.now ≡ arena.old.variables }
    requires bits { All (λ f. Holds arena.old f.0) bits.now }
    ensures adds { AddsAtMost (agreeing_count (length bits.now)) arena.old arena.new }
    ensures budget { result ≡ Err DdError.Budget → HasNoRoom arena.new }
    ensures parts { IfOk result (λ parts. AreParts arena.new points parts) }
    ensures consistency { IfOk result (λ parts.
        IsConsistency arena.old arena.new points bits.now parts.consistent.items) }
{
    // The proof begins with what this call says of each arena.
    let _ = arena.variables();
    let labels = labels_of(alloc, arena, points, bits)?;
    let mut consistent = vec![in alloc; NodeId::TRUE; bits.len()]?;
    for (place, bit) in bits.iter().enumerate() {
        let same = agreeing(arena, points + place as u32, *bit)?;
        let part = labels[place];
        consistent[part] = arena.and(consistent[part], same)?;
    }
    Ok(Parts { labels, consistent })
}

// The node of the function that is true where f has the value of the variable.
fn agreeing(arena: &mut Arena, variable: u32, f: NodeId) -> Result<NodeId, DdError>
    requires variable { variable < arena.old.variables }
    requires held { Holds arena.old f.0 }
    ensures adds { AddsAtMost 3 arena.old arena.new }
    ensures budget { result ≡ Err DdError.Budget → HasNoRoom arena.new }
    ensures denotes { IfOk result (λ g. Denotes arena.new g.0 (λ x.
        if has x variable then function_of arena.old f.0 x else not (function_of arena.old f.0 x))) }
{
    let value = arena.var(variable)?;
    let opposite = arena.not(f)?;
    arena.ite(value, f, opposite)
}
