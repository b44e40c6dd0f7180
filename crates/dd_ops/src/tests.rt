ghost use Rattle.std.specs.Prelude.{◌≡◌, ◌*◌, ◌<◌, ◌≤◌, ℕ, IfOk};
ghost use Rattle.dd_core.specs.Arenas.{IsArena, Holds};

use crate::listing::nodes;
use crate::quantifying::exists;
use crate::reading::least;
use crate::restricting::restrict;
use dd_core::{Arena, DdError, NodeId};
use std::alloc::Global;
use std::test::Fail;

#[test]
fn a_variable_is_set(rt: HostRuntime) -> Result<(), Fail> {
    let mut arena = Arena::new(rt.alloc(), 2, 5)?;
    let first = arena.var(0)?;
    let second = arena.var(1)?;
    let conjunction = arena.and(first, second)?;
    assert_eq!(rt; restrict(&mut arena, conjunction, 0, true)?.0, 3);
    assert_eq!(rt; arena.used(), 5);
    Ok(())
}

#[test]
fn a_variable_is_quantified(rt: HostRuntime) -> Result<(), Fail> {
    let mut arena = Arena::new(rt.alloc(), 2, 5)?;
    let first = arena.var(0)?;
    let second = arena.var(1)?;
    let conjunction = arena.and(first, second)?;
    assert_eq!(rt; exists(&mut arena, conjunction, &[0])?.0, 3);
    assert_eq!(rt; arena.used(), 5);
    Ok(())
}

#[test]
fn least_values(rt: HostRuntime) -> Result<(), Fail> {
    let mut arena = Arena::new(rt.alloc(), 2, 5)?;
    let first = arena.var(0)?;
    let second = arena.var(1)?;
    let conjunction = arena.and(first, second)?;
    let values = least(rt.alloc(), &arena, conjunction)?.ok_or("true nowhere")?;
    assert_eq!(rt; values.as_slice(), [true, true].as_slice());
    assert!(rt; least(rt.alloc(), &arena, NodeId::FALSE)?.is_none());
    Ok(())
}

#[test]
fn nodes_with_children_first(rt: HostRuntime) -> Result<(), Fail> {
    let mut arena = Arena::new(rt.alloc(), 2, 5)?;
    let first = arena.var(0)?;
    let second = arena.var(1)?;
    let conjunction = arena.and(first, second)?;
    let ids = nodes(rt.alloc(), &arena, conjunction)?;
    assert_eq!(rt; ids.as_slice(), [NodeId(3), NodeId(4)].as_slice());
    Ok(())
}

// The conjunction of two variables in a full arena that holds nothing else but the second one.
fn full(alloc: Global) -> Result<(Arena, NodeId), Fail>
    ensures variables { IfOk result (λ made. made.0.variables ≡ 2) }
    ensures held { IfOk result (λ made. Holds made.0 made.1.0) }
{
    let mut arena = Arena::new(alloc, 2, 4)?;
    let second = arena.var(1)?;
    let conjunction = arena.mk(0, NodeId::FALSE, second)?;
    Ok((arena, conjunction))
}

#[test]
fn no_room_for_a_restriction(rt: HostRuntime) -> Result<(), Fail> {
    let (mut arena, conjunction) = full(rt.alloc())?;
    assert_eq!(rt;
        restrict(&mut arena, conjunction, 1, true),
        Err(DdError::Budget)
    );
    Ok(())
}

#[test]
fn no_room_for_a_quantified_variable(rt: HostRuntime) -> Result<(), Fail> {
    let (mut arena, conjunction) = full(rt.alloc())?;
    assert_eq!(rt; exists(&mut arena, conjunction, &[1]), Err(DdError::Budget));
    Ok(())
}

// Variable `left` equals variable `right`.
fn equal_pair(arena: &mut Arena, left: u32, right: u32) -> Result<NodeId, DdError>
    requires left { left < arena.old.variables }
    requires right { right < arena.old.variables }
    ensures variables { arena.new.variables ≡ arena.old.variables }
    ensures node { IfOk result (λ f. Holds arena.new f.0) }
    ensures stay { (f : ℕ) → Holds arena.old f → Holds arena.new f }
{
    let x = arena.var(left)?;
    let y = arena.var(right)?;
    let opposite = arena.not(y)?;
    arena.ite(x, y, opposite)
}

// For each k below `count`, variable k equals variable `count` + k.
fn pairwise_equality(arena: &mut Arena, count: u32) -> Result<NodeId, DdError>
    requires few { count ≤ 512 }
    requires variables { arena.old.variables ≡ 2 * count }
    requires valid { IsArena arena.old }
    ensures { IfOk result (λ f. Holds arena.new f.0) }
{
    let mut equality = NodeId::TRUE;
    for k in 0..count {
        let same = equal_pair(arena, k, count + k)?;
        equality = arena.and(equality, same)?;
    }
    Ok(equality)
}

#[test]
fn pairwise_equality_of_sixteen_pairs(rt: HostRuntime) -> Result<(), Fail> {
    let mut arena = Arena::new(rt.alloc(), 32, 16_777_216)?;
    let equality = pairwise_equality(&mut arena, 16)?;
    assert_eq!(rt; nodes(rt.alloc(), &arena, equality)?.len(), 196_605);
    Ok(())
}
