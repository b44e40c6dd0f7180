// The least answers of functions in turn.
ghost use Rattle.std.specs.Prelude.{◌≡◌, ◌*◌, length, IfOk, All, if◌then◌else◌};
ghost use Rattle.dd_core.specs.Functions.{both, opposite};
ghost use Rattle.dd_core.specs.Arenas.{IsArena, Holds, function_of, AddsAtMost, HasNoRoom};
ghost use Rattle.eqn_dd.specs.Denoting.{Denotes};
ghost use Rattle.verdict_search.specs.Counts.{leaving_count};
ghost use Rattle.verdict_search.specs.inner.Taking.{IsTaken, AreLeast, IsWithout, IsWith};

use dd_core::{Arena, DdError, NodeId};
use std::alloc::Global;

/// The least answers of the functions where q holds: the first function's answer first, and false before
/// true.
pub(crate) fn least_answers(
    alloc: Global,
    arena: &mut Arena,
    q: NodeId,
    results: &[NodeId],
) -> Result<Vec<bool>, DdError>
    requires held_q { Holds arena.old q.0 }
    requires held { All (λ g. Holds arena.old g.0) results.now }
    ensures adds { AddsAtMost (2 * length results.now) arena.old arena.new }
    ensures budget { result ≡ Err DdError.Budget → HasNoRoom arena.new }
    ensures sized { IfOk result (λ answers. length answers.items ≡ length results.now) }
    ensures least { IfOk result (λ answers. AreLeast arena.old q.0 results.now answers.items) }
{
    // The proof begins with what this call says of each arena.
    let _ = arena.variables();
    let mut answers = Vec::new(alloc);
    let mut rest = q;
    for g in results {
        let (answer, left) = take_one(arena, rest, *g)?;
        answers.push(answer)?;
        rest = left;
    }
    Ok(answers)
}

// The least answer of g where q holds, and where q holds and g has this answer.
fn take_one(arena: &mut Arena, q: NodeId, g: NodeId) -> Result<(bool, NodeId), DdError>
    requires held_q { Holds arena.old q.0 }
    requires held_g { Holds arena.old g.0 }
    ensures adds { AddsAtMost 2 arena.old arena.new }
    ensures budget { result ≡ Err DdError.Budget → HasNoRoom arena.new }
    ensures taken { IfOk result (λ t. IsTaken arena.old arena.new q.0 g.0 t.0 t.1.0) }
{
    let without = arena.not(g)?;
    let rest = arena.and(q, without)?;
    if rest == NodeId::FALSE {
        Ok((true, q))
    } else {
        Ok((false, rest))
    }
}

/// Where q holds, but the functions don't have these answers.
pub(crate) fn without_answers(
    arena: &mut Arena,
    q: NodeId,
    results: &[NodeId],
    answers: &[bool],
) -> Result<NodeId, DdError>
    requires held_q { Holds arena.old q.0 }
    requires held { All (λ g. Holds arena.old g.0) results.now }
    requires sized { length answers.now ≡ length results.now }
    ensures adds { AddsAtMost (leaving_count (length results.now)) arena.old arena.new }
    ensures budget { result ≡ Err DdError.Budget → HasNoRoom arena.new }
    ensures held { IfOk result (λ f. Holds arena.new f.0) }
    ensures without { IfOk result (λ f. IsWithout arena.old arena.new q.0 results.now answers.now f.0) }
{
    let taken = with_answers(arena, q, results, answers)?;
    let others = arena.not(taken)?;
    arena.and(q, others)
}

// Where q holds, and the functions have these answers.
fn with_answers(
    arena: &mut Arena,
    q: NodeId,
    results: &[NodeId],
    answers: &[bool],
) -> Result<NodeId, DdError>
    requires held_q { Holds arena.old q.0 }
    requires held { All (λ g. Holds arena.old g.0) results.now }
    requires sized { length answers.now ≡ length results.now }
    ensures adds { AddsAtMost (2 * length results.now) arena.old arena.new }
    ensures budget { result ≡ Err DdError.Budget → HasNoRoom arena.new }
    ensures held { IfOk result (λ f. Holds arena.new f.0) }
    ensures with { IfOk result (λ f. IsWith arena.old arena.new q.0 results.now answers.now f.0) }
{
    // The proof begins with what this call says of each arena.
    let _ = arena.variables();
    let mut met = q;
    for (place, g) in results.iter().enumerate() {
        met = and_answer(arena, met, *g, answers[place])?;
    }
    Ok(met)
}

// Where q holds, and g has this answer.
fn and_answer(arena: &mut Arena, q: NodeId, g: NodeId, answer: bool) -> Result<NodeId, DdError>
    requires held_q { Holds arena.old q.0 }
    requires held_g { Holds arena.old g.0 }
    ensures adds { AddsAtMost 2 arena.old arena.new }
    ensures budget { result ≡ Err DdError.Budget → HasNoRoom arena.new }
    ensures denotes { IfOk result (λ f. Denotes arena.new f.0 (both (function_of arena.old q.0)
        (if answer then function_of arena.old g.0 else opposite (function_of arena.old g.0)))) }
{
    if answer {
        return arena.and(q, g);
    }
    let opposite = arena.not(g)?;
    arena.and(q, opposite)
}
