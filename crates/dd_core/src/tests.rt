use crate::diagrams::Arena;
use crate::errors::{DdError, NewError};
use crate::nodes::NodeId;
use std::process::Abort;
use std::test::Fail;

#[test]
fn two_variables_and_their_conjunction(rt: HostRuntime) -> Result<(), Fail> {
    let mut arena = Arena::new(rt.alloc(), 2, 5)?;
    let first = arena.var(0)?;
    assert_eq!(rt; first.0, 2);
    let second = arena.var(1)?;
    assert_eq!(rt; second.0, 3);
    assert_eq!(rt; arena.mk(0, second, second)?.0, 3);
    let conjunction = arena.and(first, second)?;
    assert_eq!(rt; conjunction.0, 4);
    assert_eq!(rt; arena.used(), 5);
    assert!(rt; arena.eval(conjunction, &[true, true]));
    assert!(rt; !arena.eval(conjunction, &[true, false]));
    Ok(())
}

// The ids of a chain, where there is such a bucket.
fn chain(rt: &impl Abort, arena: &Arena, bucket: u32) -> Result<Vec<NodeId>, Fail> {
    assert!(rt; bucket < arena.buckets());
    Ok(arena.chain(bucket)?)
}

#[test]
fn chains_by_bucket(rt: HostRuntime) -> Result<(), Fail> {
    let mut arena = Arena::new(rt.alloc(), 2, 5)?;
    let first = arena.var(0)?;
    let second = arena.var(1)?;
    arena.and(first, second)?;
    assert_eq!(rt; arena.buckets(), 256);
    assert_eq!(rt; chain(&rt, &arena, 1)?.as_slice(), [NodeId(2)].as_slice());
    assert_eq!(rt; chain(&rt, &arena, 194)?.as_slice(), [NodeId(3)].as_slice());
    assert_eq!(rt; chain(&rt, &arena, 3)?.as_slice(), [NodeId(4)].as_slice());
    assert!(rt; chain(&rt, &arena, 0)?.is_empty());
    Ok(())
}

#[test]
fn nodes_are_found_again(rt: HostRuntime) -> Result<(), Fail> {
    let mut arena = Arena::new(rt.alloc(), 2, 5)?;
    let first = arena.var(0)?;
    let second = arena.var(1)?;
    let conjunction = arena.and(first, second)?;
    assert_eq!(rt; arena.or(conjunction, second)?.0, 3);
    assert_eq!(rt; arena.var(0)?.0, 2);
    assert_eq!(rt; arena.used(), 5);
    Ok(())
}

#[test]
fn constants_choose(rt: HostRuntime) -> Result<(), Fail> {
    let mut arena = Arena::new(rt.alloc(), 2, 5)?;
    let first = arena.var(0)?;
    let second = arena.var(1)?;
    assert_eq!(rt; arena.ite(NodeId::TRUE, first, second)?.0, 2);
    assert_eq!(rt; arena.not(NodeId::FALSE)?.0, 1);
    Ok(())
}

#[test]
fn a_full_arena_keeps_its_nodes(rt: HostRuntime) -> Result<(), Fail> {
    let mut arena = Arena::new(rt.alloc(), 2, 5)?;
    let first = arena.var(0)?;
    let second = arena.var(1)?;
    let conjunction = arena.and(first, second)?;
    assert_eq!(rt; arena.not(first), Err(DdError::Budget));
    assert!(rt; arena.eval(conjunction, &[true, true]));
    Ok(())
}

#[test]
fn no_room_for_a_conjunction(rt: HostRuntime) -> Result<(), Fail> {
    let mut arena = Arena::new(rt.alloc(), 2, 4)?;
    let first = arena.var(0)?;
    let second = arena.var(1)?;
    assert_eq!(rt; arena.and(first, second), Err(DdError::Budget));
    assert!(rt; arena.eval(second, &[false, true]));
    Ok(())
}

#[test]
fn too_many_variables(rt: HostRuntime) {
    assert!(rt;
        matches!(
            Arena::new(rt.alloc(), 1025, 5),
            Err(NewError::Variables(1025))
        )
    );
    assert!(rt; Arena::new(rt.alloc(), 1024, 5).is_ok());
}
