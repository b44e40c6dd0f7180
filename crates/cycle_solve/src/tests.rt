//! What a run tells: that calls succeed with ample memory, and which lines and nodes they make.
use crate::branches::{push_branches, push_roots};
use crate::digits::push_digits;
use crate::listing::nodes_under;
use dd_core::{Arena, NodeId};
use eqn_core::Line;
use std::test::Fail;

#[test]
fn nodes_of_two_roots(rt: HostRuntime) -> Result<(), Fail> {
    let mut arena = Arena::new(rt.alloc(), 2, 6)?;
    let first = arena.var(0)?;
    let second = arena.var(1)?;
    let conjunction = arena.and(first, second)?;
    let ids = nodes_under(rt.alloc(), &arena, &[second, conjunction])?;
    assert_eq!(rt; ids.as_slice(), [NodeId(3), NodeId(4)].as_slice());
    Ok(())
}

#[test]
fn digits_of_two_registers(rt: HostRuntime) -> Result<(), Fail> {
    let mut lines = Vec::new(rt.alloc());
    push_digits(&mut lines, &[(0, 2), (2, 1)])?;
    assert_eq!(rt; lines.len(), 3);
    assert!(rt; matches!(&lines[0], Line::Digit { word: 0, place: 1 }));
    assert!(rt; matches!(&lines[1], Line::Digit { word: 0, place: 0 }));
    assert!(rt; matches!(&lines[2], Line::Digit { word: 1, place: 0 }));
    Ok(())
}

#[test]
fn lines_of_a_node(rt: HostRuntime) -> Result<(), Fail> {
    let mut arena = Arena::new(rt.alloc(), 2, 6)?;
    let input = arena.var(1)?;
    let roots = [input, NodeId::FALSE];
    let ids = nodes_under(rt.alloc(), &arena, &roots)?;
    assert_eq!(rt; ids.len(), 1);
    let mut lines = Vec::new(rt.alloc());
    let bits = push_branches(rt.alloc(), &arena, &ids, 1, 1, 2, &mut lines)?;
    push_roots(rt.alloc(), &roots, &bits, &mut lines)?;
    assert_eq!(rt; lines.len(), 5);
    assert_eq!(rt; first_bit(&lines[0]), Some(0));
    assert_eq!(rt; first_bit(&lines[1]), None);
    assert_eq!(rt; first_bit(&lines[2]), Some(2));
    assert_eq!(rt; first_bit(&lines[3]), Some(4));
    assert_eq!(rt; first_bit(&lines[4]), None);
    Ok(())
}

// The bit of the first literal.
fn first_bit(line: &Line) -> Option<u32> {
    match line {
        Line::All(literals) => Some(literals.first()?.bit),
        Line::Any(literals) => Some(literals.first()?.bit),
        _ => None,
    }
}
