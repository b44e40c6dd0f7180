//! What a run tells: that calls succeed with ample memory, and verdicts and roots that were worked by hand.
ghost use Rattle.std.specs.Prelude.{◌≡◌, ◌<◌, IfOk};
ghost use Rattle.dd_core.specs.Arenas.{Holds};
ghost use Rattle.verdict_search.specs.Parts.{AreParts};

use crate::{Found, Parts, consistency, find, least_roots};
use dd_core::{Arena, DdError, NodeId};
use std::alloc::Global;
use std::test::Fail;

// How the first of two cyclic bits, variables 1 and 2, depends on the point, variable 0, and on the second
// bit. The second bit is the first.
#[derive(Clone, Copy)]
enum First {
    /// The point and the second bit.
    Both,
    /// The point or the second bit.
    Either,
    /// The point, but not the second bit.
    Without,
}

// Where the two bits are consistent: they are one part.
fn consistent_values(alloc: Global, arena: &mut Arena, kind: First) -> Result<Parts, DdError>
    requires variables { arena.old.variables ≡ 3 }
    ensures variables { arena.new.variables ≡ 3 }
    ensures parts { IfOk result (λ parts. AreParts arena.new 1 parts) }
{
    let first = first_bit(arena, kind)?;
    let own = arena.var(1)?;
    consistency(alloc, arena, 1, &[first, own])
}

// The function of the first bit.
fn first_bit(arena: &mut Arena, kind: First) -> Result<NodeId, DdError>
    requires variables { arena.old.variables ≡ 3 }
    ensures variables { arena.new.variables ≡ 3 }
    ensures held { IfOk result (λ f. Holds arena.new f.0) }
{
    let point = arena.var(0)?;
    let second = arena.var(2)?;
    match kind {
        First::Both => arena.and(point, second),
        First::Either => arena.or(point, second),
        First::Without => arena.ite(second, NodeId::FALSE, point),
    }
}

// The verdict, where the point itself and the first bit are the results.
fn verdict(
    arena: &mut Arena,
    alloc: Global,
    kind: First,
    structural: NodeId,
) -> Result<Found, DdError>
    requires variables { arena.old.variables ≡ 3 }
    requires structural { structural.0 < 2 }
{
    let parts = consistent_values(alloc, arena, kind)?;
    let point = arena.var(0)?;
    let bit = arena.var(1)?;
    find(alloc, arena, 1, structural, &parts, &[point, bit])
}

#[test]
fn a_ring_has_two_reactions(rt: HostRuntime) -> Result<(), Fail> {
    let mut arena = Arena::new(rt.alloc(), 3, 1000)?;
    let found = verdict(&mut arena, rt.alloc(), First::Both, NodeId::TRUE)?;
    let Found::Several { at, first, second } = found else {
        return Err("another verdict".into());
    };
    assert_eq!(rt; at.as_slice(), [true].as_slice());
    assert_eq!(rt; first.as_slice(), [true, false].as_slice());
    assert_eq!(rt; second.as_slice(), [true, true].as_slice());
    Ok(())
}

#[test]
fn a_twisted_ring_has_none(rt: HostRuntime) -> Result<(), Fail> {
    let mut arena = Arena::new(rt.alloc(), 3, 1000)?;
    let found = verdict(&mut arena, rt.alloc(), First::Without, NodeId::TRUE)?;
    let Found::NoReaction { at } = found else {
        return Err("another verdict".into());
    };
    assert_eq!(rt; at.as_slice(), [true].as_slice());
    Ok(())
}

#[test]
fn other_points_are_not_looked_at(rt: HostRuntime) -> Result<(), Fail> {
    let mut arena = Arena::new(rt.alloc(), 3, 1000)?;
    let found = verdict(&mut arena, rt.alloc(), First::Both, NodeId::FALSE)?;
    assert!(rt; matches!(found, Found::One));
    Ok(())
}

#[test]
fn the_least_values_are_those_of_the_point(rt: HostRuntime) -> Result<(), Fail> {
    let mut arena = Arena::new(rt.alloc(), 3, 1000)?;
    let parts = consistent_values(rt.alloc(), &mut arena, First::Either)?;
    let roots = least_roots(rt.alloc(), &mut arena, 1, NodeId::TRUE, &parts)?;
    let point = arena.var(0)?;
    assert_eq!(rt; roots.as_slice(), [point, point].as_slice());
    Ok(())
}
