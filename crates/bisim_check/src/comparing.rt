// Where outputs differ, as diagrams.
ghost use Rattle.std.specs.Prelude.{◌≡◌, ◌*◌, IfOk, MatchOption, Err, false, length, map, slice_index_or};
ghost use Rattle.argos_base.specs.Names.{place_of};
ghost use Rattle.argos_congruence.specs.NamedSets.{number_or_zero};
ghost use Rattle.bisim_check.specs.inner.Nodes.{AreHeld, any_differs, IsFirstDifference};
ghost use Rattle.bisim_verdict.specs.EquivTests.{differs};
ghost use Rattle.dd_core.specs.Arenas.{Holds, function_of, AddsAtMost, HasNoRoom};
ghost use Rattle.eqn_dd.specs.Denoting.{Denotes, values_at};

use argos_base::{Name, NameTable};
use dd_core::{Arena, DdError, NodeId};
use std::alloc::{AllocError, Global};

/// The node of the function that is true where the outputs of some place differ.
pub(crate) fn some_differ(
    arena: &mut Arena,
    lefts: &[NodeId],
    rights: &[NodeId],
) -> Result<NodeId, DdError>
    requires same { length lefts.now ≡ length rights.now }
    requires left { AreHeld arena.old lefts.now }
    requires right { AreHeld arena.old rights.now }
    ensures adds { AddsAtMost (3 * length lefts.now) arena.old arena.new }
    ensures budget { result ≡ Err DdError.Budget → HasNoRoom arena.new }
    ensures denotes { IfOk result (λ f. Denotes arena.new f.0 (λ x. any_differs (values_at arena.old lefts.now x) (values_at arena.old rights.now x))) }
{
    // The proof begins with what this call says of each arena.
    let _ = arena.variables();
    let mut differ = NodeId::FALSE;
    let mut left = lefts.len();
    while left > 0 {
        left -= 1;
        let one = alone(arena, lefts[left], rights[left])?;
        differ = arena.or(one, differ)?;
    }
    Ok(differ)
}

// The node of the function that is true where exactly one of the two is.
fn alone(arena: &mut Arena, f: NodeId, g: NodeId) -> Result<NodeId, DdError>
    requires held_f { Holds arena.old f.0 }
    requires held_g { Holds arena.old g.0 }
    ensures adds { AddsAtMost 2 arena.old arena.new }
    ensures budget { result ≡ Err DdError.Budget → HasNoRoom arena.new }
    ensures denotes { IfOk result (λ h. Denotes arena.new h.0 (λ x.
        differs (function_of arena.old f.0 x) (function_of arena.old g.0 x))) }
{
    let other = arena.not(g)?;
    arena.ite(f, other, g)
}

/// The right outputs in the order of the left names; false where a name isn't there.
pub(crate) fn in_left_order(
    alloc: Global,
    left: &NameTable,
    right: &NameTable,
    nodes: &[NodeId],
) -> Result<Vec<NodeId>, AllocError>
    ensures { IfOk result (λ ordered. ordered.items ≡ map (λ name. slice_index_or nodes.now (number_or_zero (place_of right.now name)) (record { 0 = 0 })) left.now) }
{
    let mut ordered = Vec::with_capacity(alloc, left.len() as usize)?;
    let mut place = 0;
    while let Some(name) = left.get(place) {
        ordered.push(node_named(right, nodes, name))?;
        place += 1;
    }
    Ok(ordered)
}

// The node of the output with this name.
fn node_named(names: &NameTable, nodes: &[NodeId], name: &Name) -> NodeId
    ensures { result ≡ slice_index_or nodes.now (number_or_zero (place_of names.now name.now)) (record { 0 = 0 }) }
{
    let place = names
        .find(name.bytes())
        .map_or(0, |signal| signal.0 as usize);
    if place < nodes.len() {
        nodes[place]
    } else {
        NodeId::FALSE
    }
}

/// The first place at which the two lists of nodes have different values.
pub(crate) fn first_differing(
    arena: &Arena,
    lefts: &[NodeId],
    rights: &[NodeId],
    values: &[bool],
) -> Option<usize>
    requires same { length lefts.now ≡ length rights.now }
    requires left { AreHeld arena.now lefts.now }
    requires right { AreHeld arena.now rights.now }
    requires sized { length values.now ≡ arena.now.variables }
    ensures { let o = values_at arena.now lefts.now values.now in let p = values_at arena.now rights.now values.now in
        MatchOption result (any_differs o p ≡ false) (IsFirstDifference o p) }
{
    for place in 0..lefts.len() {
        if arena.eval(lefts[place], values) != arena.eval(rights[place], values) {
            return Some(place);
        }
    }
    None
}
