// The verdict.
ghost use Rattle.std.specs.Prelude.{◌≡◌, ◌+◌, ◌-◌, ◌≤◌, ℕ, List, length, All, IfOk};
ghost use Rattle.dd_core.specs.Arenas.{Holds, AddsAtMost, HasNoRoom};
ghost use Rattle.eqn_completion.specs.Findings.{Finding};
ghost use Rattle.eqn_verdict.specs.Searching.{Test};
ghost use Rattle.verdict_search.specs.Counts.{finding_count, pinning_count, taking_count, leaving_count};
ghost use Rattle.verdict_search.specs.Outcomes.{IsFound, AreSized};
ghost use Rattle.verdict_search.specs.Parts.{AreParts};
ghost use Rattle.verdict_search.specs.Splitting.{AreSearched};
ghost use Rattle.verdict_search.specs.inner.Taking.{IsWhatIsThere};

use crate::parting::Parts;
use crate::pinning::pin;
use crate::taking::{least_answers, without_answers};
use crate::testing::bad;
use dd_core::{Arena, DdError, NodeId};
use dd_ops::least;
use std::alloc::Global;

/// Whether there is one reaction at each structural point; else what there is at the first other one.
#[derive(Debug, Drop)]
pub enum Found {
    /// Exactly one reaction at each structural point.
    One,
    /// No values of the cyclic bits are consistent at this point.
    NoReaction {
        at: Vec<bool>,
    },
    /// The least answers of the results at this point, among the consistent values, and the least others.
    Several {
        at: Vec<bool>,
        first: Vec<bool>,
        second: Vec<bool>,
    },
}

/// The verdict by functions of points, which are the values of the first variables, and of cyclic bits:
/// which points are `structural`, where the `parts` of the cyclic bits are consistent, and the `results`.
/// Points are compared variable 0 first, answers result 0 first, and false comes before true.
///
/// # Errors
///
/// `Budget` where the arena is full and some function of its variables isn't held.
pub fn find(
    alloc: Global,
    arena: &mut Arena,
    points: u32,
    structural: NodeId,
    parts: &Parts,
    results: &[NodeId],
) -> Result<Found, DdError>
    requires structural { Holds arena.old structural.0 }
    requires parts { AreParts arena.old points parts.now }
    requires results { All (λ g. Holds arena.old g.0) results.now }
    ensures adds { AddsAtMost (finding_count points (arena.old.variables - points) (length results.now))
        arena.old arena.new }
    ensures budget { result ≡ Err DdError.Budget → HasNoRoom arena.new }
    ensures sized { IfOk result (AreSized points (length results.now)) }
    ensures found { IfOk result (λ found. (c : ℕ) (s : Test) (K : Finding) (gs : List Finding)
        → AreSearched arena.old points c structural.0 parts.now.consistent.items results.now s K gs
        → IsFound points c s K gs found) }
{
    let bad = bad(alloc, arena, points, structural, parts, results)?;
    let Some(mut at) = least(alloc, arena, bad)? else {
        return Ok(Found::One);
    };
    at.truncate(points as usize);
    what_is_there(alloc, arena, at, &parts.consistent, results)
}

// What there is at a bad point: no reaction, or the two least.
fn what_is_there(
    alloc: Global,
    arena: &mut Arena,
    at: Vec<bool>,
    consistent: &[NodeId],
    results: &[NodeId],
) -> Result<Found, DdError>
    requires sized { length at.items ≤ arena.old.variables }
    requires consistent { All (λ f. Holds arena.old f.0) consistent.now }
    requires results { All (λ g. Holds arena.old g.0) results.now }
    ensures adds { AddsAtMost (pinning_count (length at.items) (length consistent.now) + taking_count (length results.now)
        + leaving_count (length results.now) + taking_count (length results.now)) arena.old arena.new }
    ensures budget { result ≡ Err DdError.Budget → HasNoRoom arena.new }
    ensures sized { IfOk result (AreSized (length at.items) (length results.now)) }
    ensures there { IfOk result (IsWhatIsThere arena.old at.items consistent.now results.now) }
{
    let here = pin(arena, consistent, &at)?;
    if here == NodeId::FALSE {
        return Ok(Found::NoReaction { at });
    }
    let first = least_answers(alloc, arena, here, results)?;
    let others = without_answers(arena, here, results, &first)?;
    let second = least_answers(alloc, arena, others, results)?;
    Ok(Found::Several { at, first, second })
}
