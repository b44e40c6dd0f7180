// The first two transitions of a state that overlap, by the diagrams of its guards.
ghost use Rattle.std.specs.Prelude.{◌≡◌, ◌+◌, ◌*◌, ◌<◌, map, length, IfOk, MatchOption};
ghost use Rattle.dd_core.specs.Arenas.{AddsAtMost, HasNoRoom};
ghost use Rattle.argos_core.specs.Views.{transition_of, numbers};
ghost use Rattle.instant_check.specs.inner.Meeting.{AreGuards, Covers, NeverMeet, IsLeastMeeting};
ghost use Rattle.instant_check.specs.inner.Meeting.{NoneAfter, IsFirstAfter, NoneFrom, IsFirstFrom};

use crate::effects::have_one_effect;
use argos_base::SigId;
use argos_core::Trans;
use dd_core::{Arena, DdError, NodeId};
use dd_ops::least;
use std::alloc::Global;

/// Two transitions, by their places, and the least values of the signals at which both guards hold.
#[derive(Debug, Drop)]
pub(crate) struct Meeting {
    pub first: usize,
    pub second: usize,
    pub values: Vec<bool>,
}

/// The first two transitions with different effects whose guards hold together.
pub(crate) fn first_meeting(
    alloc: Global,
    arena: &mut Arena,
    transitions: &[Trans],
    guards: &[NodeId],
    signals: &[SigId],
    count: u32,
) -> Result<Option<Meeting>, DdError>
    requires sized { length signals.now ≡ arena.old.variables }
    requires guards { AreGuards arena.old (numbers signals.now) (map transition_of transitions.now) guards.now }
    ensures adds { AddsAtMost (length transitions.now * (length transitions.now + 2)) arena.old arena.new }
    ensures budget { result ≡ Err DdError.Budget → HasNoRoom arena.new }
    ensures found { IfOk result (λ found. let ts = map transition_of transitions.now in MatchOption found
        (NoneFrom count ts 0)
        (λ m. IsFirstFrom count (numbers signals.now) ts 0 m.first m.second m.values.items)) }
{
    // The proof begins with what this call says of each arena.
    let _ = arena.variables();
    let mut found = None;
    let mut later = NodeId::FALSE;
    let mut left = transitions.len();
    while left > 0 {
        left -= 1;
        let behind = meeting_behind(
            alloc,
            arena,
            transitions,
            guards,
            signals,
            left,
            later,
            count,
        )?;
        found = behind.or(found);
        later = arena.or(guards[left], later)?;
    }
    Ok(found)
}

// The same for one first transition, where `later` is true wherever some transition behind it can be taken: only where
// the two meet are those looked at one by one.
fn meeting_behind(
    alloc: Global,
    arena: &mut Arena,
    transitions: &[Trans],
    guards: &[NodeId],
    signals: &[SigId],
    first: usize,
    later: NodeId,
    count: u32,
) -> Result<Option<Meeting>, DdError>
    requires sized { length signals.now ≡ arena.old.variables }
    requires guards { AreGuards arena.old (numbers signals.now) (map transition_of transitions.now) guards.now }
    requires inside { first < length transitions.now }
    requires later { Covers arena.old later.0 (numbers signals.now) (map transition_of transitions.now) (first + 1) }
    ensures adds { AddsAtMost (length transitions.now + 1) arena.old arena.new }
    ensures budget { result ≡ Err DdError.Budget → HasNoRoom arena.new }
    ensures found { IfOk result (λ found. let ts = map transition_of transitions.now in MatchOption found
        (NoneAfter count ts first (length ts))
        (λ m. (m.first ≡ first) × IsFirstAfter count (numbers signals.now) ts first m.second m.values.items)) }
{
    let met = arena.and(guards[first], later)?;
    if met == NodeId::FALSE {
        return Ok(None);
    }
    first_after(alloc, arena, transitions, guards, signals, first, count)
}

// The first transition behind this one that has another effect and whose guard holds together with its guard.
fn first_after(
    alloc: Global,
    arena: &mut Arena,
    transitions: &[Trans],
    guards: &[NodeId],
    signals: &[SigId],
    first: usize,
    count: u32,
) -> Result<Option<Meeting>, DdError>
    requires sized { length signals.now ≡ arena.old.variables }
    requires guards { AreGuards arena.old (numbers signals.now) (map transition_of transitions.now) guards.now }
    requires inside { first < length transitions.now }
    ensures adds { AddsAtMost (length transitions.now) arena.old arena.new }
    ensures budget { result ≡ Err DdError.Budget → HasNoRoom arena.new }
    ensures found { IfOk result (λ found. let ts = map transition_of transitions.now in MatchOption found
        (NoneAfter count ts first (length ts))
        (λ m. (m.first ≡ first) × IsFirstAfter count (numbers signals.now) ts first m.second m.values.items)) }
{
    // The proof begins with what this call says of each arena.
    let _ = arena.variables();
    for second in first + 1..transitions.len() {
        let met = least_meeting(
            alloc,
            arena,
            transitions,
            guards,
            signals,
            first,
            second,
            count,
        )?;
        if let Some(values) = met {
            return Ok(Some(Meeting {
                first,
                second,
                values,
            }));
        }
    }
    Ok(None)
}

// The least values of the signals at which both guards hold, where the two have different effects.
fn least_meeting(
    alloc: Global,
    arena: &mut Arena,
    transitions: &[Trans],
    guards: &[NodeId],
    signals: &[SigId],
    first: usize,
    second: usize,
    count: u32,
) -> Result<Option<Vec<bool>>, DdError>
    requires sized { length signals.now ≡ arena.old.variables }
    requires guards { AreGuards arena.old (numbers signals.now) (map transition_of transitions.now) guards.now }
    requires first { first < length transitions.now }
    requires second { second < length transitions.now }
    ensures adds { AddsAtMost 1 arena.old arena.new }
    ensures budget { result ≡ Err DdError.Budget → HasNoRoom arena.new }
    ensures found { IfOk result (λ found. let ts = map transition_of transitions.now in MatchOption found
        (NeverMeet count ts first second)
        (λ values. IsLeastMeeting count (numbers signals.now) ts first second values.items)) }
{
    let both = arena.and(guards[first], guards[second])?;
    if both == NodeId::FALSE || have_one_effect(&transitions[first], &transitions[second], count) {
        return Ok(None);
    }
    Ok(least(alloc, arena, both)?)
}
