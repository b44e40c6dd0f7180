// Where there isn't exactly one reaction.
ghost use Rattle.std.specs.Prelude.{◌≡◌, ◌+◌, ◌-◌, ◌*◌, ◌<◌, ◌≤◌, length, All, IfOk};
ghost use Rattle.dd_core.specs.Arenas.{IsArena, Holds, AddsAtMost, HasNoRoom};
ghost use Rattle.verdict_search.specs.Counts.{testing_count};
ghost use Rattle.verdict_search.specs.Parts.{AreParts};
ghost use Rattle.verdict_search.specs.inner.Testing.{IsSomeOfAll, IsSomeWith, IsDiffering, AreChosen, IsNear};
ghost use Rattle.verdict_search.specs.inner.Testing.{IsOrDiffering, IsNoneOrDiffering, IsBadTest};

use crate::parting::{Parts, bits_read};
use crate::quantifying::exists_from;
use dd_core::{Arena, DdError, NodeId};
use std::alloc::{AllocError, Global};

/// The node of the function that is true at the structural points at which there isn't exactly one reaction.
pub(crate) fn bad(
    alloc: Global,
    arena: &mut Arena,
    points: u32,
    structural: NodeId,
    parts: &Parts,
    results: &[NodeId],
) -> Result<NodeId, DdError>
    requires structural { Holds arena.old structural.0 }
    requires parts { AreParts arena.old points parts.now }
    requires results { All (λ g. Holds arena.old g.0) results.now }
    ensures adds { AddsAtMost (testing_count (arena.old.variables - points) (length results.now))
        arena.old arena.new }
    ensures budget { result ≡ Err DdError.Budget → HasNoRoom arena.new }
    ensures held { IfOk result (λ f. Holds arena.new f.0) }
    ensures bad { IfOk result (λ f.
        IsBadTest arena.old arena.new points structural.0 parts.now.consistent.items results.now f.0) }
{
    let odd = none_or_differing(alloc, arena, points, parts, results)?;
    arena.and(structural, odd)
}

// The node of the function that is true where some part has no consistent values, or some result differs among
// those that are consistent.
fn none_or_differing(
    alloc: Global,
    arena: &mut Arena,
    points: u32,
    parts: &Parts,
    results: &[NodeId],
) -> Result<NodeId, DdError>
    requires parts { AreParts arena.old points parts.now }
    requires results { All (λ g. Holds arena.old g.0) results.now }
    ensures adds { AddsAtMost (testing_count (arena.old.variables - points) (length results.now) - 1)
        arena.old arena.new }
    ensures budget { result ≡ Err DdError.Budget → HasNoRoom arena.new }
    ensures held { IfOk result (λ f. Holds arena.new f.0) }
    ensures none_or_differing { IfOk result (λ f.
        IsNoneOrDiffering arena.old arena.new points parts.now.consistent.items results.now f.0) }
{
    let somewhere = some_in_each(alloc, arena, points, parts)?;
    let mut odd = arena.not(somewhere)?;
    for result in results {
        odd = or_differing(alloc, arena, points, parts, odd, *result)?;
    }
    Ok(odd)
}

// The node of the function that is true where each part has consistent values. No part reads the bits of another,
// so these are values of all cyclic bits at once.
fn some_in_each(
    alloc: Global,
    arena: &mut Arena,
    points: u32,
    parts: &Parts,
) -> Result<NodeId, DdError>
    requires parts { AreParts arena.old points parts.now }
    ensures adds { AddsAtMost ((arena.old.variables - points) * ((arena.old.variables - points) + 1)) arena.old arena.new }
    ensures budget { result ≡ Err DdError.Budget → HasNoRoom arena.new }
    ensures held { IfOk result (λ e. Holds arena.new e.0) }
    ensures some { IfOk result (λ e. IsSomeOfAll arena.old arena.new points parts.now.consistent.items e.0) }
{
    // The proof begins with what this call says of each arena.
    let _ = arena.variables();
    let mut each = NodeId::TRUE;
    for f in &parts.consistent {
        let somewhere = exists_from(alloc, arena, *f, points)?;
        each = arena.and(each, somewhere)?;
    }
    Ok(each)
}

// The node of the function that is true where f is, or where g differs among the consistent values. Only the parts
// whose bits g reads are looked at: so at points where some other part has none, it may differ. A result that
// reads no cyclic bit doesn't differ.
fn or_differing(
    alloc: Global,
    arena: &mut Arena,
    points: u32,
    parts: &Parts,
    f: NodeId,
    g: NodeId,
) -> Result<NodeId, DdError>
    requires parts { AreParts arena.old points parts.now }
    requires held_f { Holds arena.old f.0 }
    requires held_g { Holds arena.old g.0 }
    ensures adds { AddsAtMost (5 + 3 * (arena.old.variables - points)) arena.old arena.new }
    ensures budget { result ≡ Err DdError.Budget → HasNoRoom arena.new }
    ensures held { IfOk result (λ e. Holds arena.new e.0) }
    ensures or_differing { IfOk result (λ e.
        IsOrDiffering arena.old arena.new points parts.now.consistent.items f.0 g.0 e.0) }
{
    // The proof begins with what this call says of each arena.
    let _ = arena.variables();
    let read = bits_read(alloc, arena, points, g)?;
    if read.is_empty() {
        return Ok(f);
    }
    let consistent = near(alloc, arena, parts, &read)?;
    let differs = differing(alloc, arena, points, consistent, g)?;
    arena.or(f, differs)
}

// The node of the function that is true where the parts of these cyclic bits are consistent.
fn near(alloc: Global, arena: &mut Arena, parts: &Parts, read: &[usize]) -> Result<NodeId, DdError>
    requires held { All (λ f. Holds arena.old f.0) parts.now.consistent.items }
    requires labelled { All (λ p. p < length parts.now.consistent.items) parts.now.labels.items }
    requires read { All (λ j. j < length parts.now.labels.items) read.now }
    ensures adds { AddsAtMost (length parts.now.consistent.items) arena.old arena.new }
    ensures budget { result ≡ Err DdError.Budget → HasNoRoom arena.new }
    ensures near { IfOk result (λ e. IsNear arena.old arena.new parts.now read.now e.0) }
{
    // The proof begins with what this call says of each arena.
    let _ = arena.variables();
    let flags = flags_of(alloc, parts, read)?;
    let mut met = NodeId::TRUE;
    for (part, f) in parts.consistent.iter().enumerate() {
        if flags[part] {
            met = arena.and(met, *f)?;
        }
    }
    Ok(met)
}

// For each part whether one of these cyclic bits is in it.
fn flags_of(alloc: Global, parts: &Parts, read: &[usize]) -> Result<Vec<bool>, AllocError>
    requires labelled { All (λ p. p < length parts.now.consistent.items) parts.now.labels.items }
    requires read { All (λ j. j < length parts.now.labels.items) read.now }
    ensures sized { IfOk result (λ flags. length flags.items ≡ length parts.now.consistent.items) }
    ensures chosen { IfOk result (λ flags. AreChosen parts.now.labels.items read.now flags.items) }
{
    let mut flags = vec![in alloc; false; parts.consistent.len()]?;
    for bit in read {
        flags[parts.labels[*bit]] = true;
    }
    Ok(flags)
}

// The node of the function that is true where g differs among the consistent values.
fn differing(
    alloc: Global,
    arena: &mut Arena,
    points: u32,
    consistent: NodeId,
    g: NodeId,
) -> Result<NodeId, DdError>
    requires points { points ≤ arena.old.variables }
    requires consistent { Holds arena.old consistent.0 }
    requires held { Holds arena.old g.0 }
    ensures adds { AddsAtMost (4 + 2 * (arena.old.variables - points)) arena.old arena.new }
    ensures budget { result ≡ Err DdError.Budget → HasNoRoom arena.new }
    ensures held { IfOk result (λ d. Holds arena.new d.0) }
    ensures differing { IfOk result (λ d. IsDiffering arena.old arena.new points consistent.0 g.0 d.0) }
{
    let yes = some_with(alloc, arena, points, consistent, g)?;
    let opposite = arena.not(g)?;
    let no = some_with(alloc, arena, points, consistent, opposite)?;
    arena.and(yes, no)
}

// The node of the function that is true where some consistent values make g true.
fn some_with(
    alloc: Global,
    arena: &mut Arena,
    points: u32,
    consistent: NodeId,
    g: NodeId,
) -> Result<NodeId, DdError>
    requires points { points ≤ arena.old.variables }
    requires consistent { Holds arena.old consistent.0 }
    requires held { Holds arena.old g.0 }
    ensures adds { AddsAtMost (1 + (arena.old.variables - points)) arena.old arena.new }
    ensures budget { result ≡ Err DdError.Budget → HasNoRoom arena.new }
    ensures held { IfOk result (λ e. Holds arena.new e.0) }
    ensures some { IfOk result (λ e. IsSomeWith arena.old arena.new points consistent.0 g.0 e.0) }
{
    let met = arena.and(consistent, g)?;
    exists_from(alloc, arena, met, points)
}
