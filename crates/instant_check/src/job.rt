// The overlap of one state, as one job of diagrams.
ghost use Rattle.std.specs.Prelude.{◌≡◌, ◌≢◌, ◌+◌, ◌*◌, ◌^◌, ◌<◌, ◌≤◌, ℕ, true, map, length, IfOk, MatchOption};
ghost use Rattle.argos_base.specs.SignalSets.{lists, set_of};
ghost use Rattle.argos_core.specs.Overlaps.{some_reads};
ghost use Rattle.argos_core.specs.Sizes.{transitions_size};
ghost use Rattle.argos_core.specs.Views.{transition_of, numbers};
ghost use Rattle.dd_core.specs.Arenas.{ArenaView, IsEmpty, AddsAtMost, HasNoRoom};
ghost use Rattle.instant_check.specs.Effects.{SomeDiffer};
ghost use Rattle.instant_check.specs.Reading.{signals_read};
ghost use Rattle.instant_check.specs.StateOverlaps.{HasNoOverlap, IsLeastOverlap, IsStopped};
ghost use Rattle.instant_check.specs.Telling.{AreAmong};
ghost use Rattle.instant_check.specs.inner.Chosen.{chosen};
ghost use Rattle.instant_check.specs.inner.Meeting.{NoneFrom, IsFirstFrom};

use crate::drawing::guard_diagrams;
use crate::effects::some_differ;
use crate::reading::read_signals;
use crate::sets::set_with;
use crate::states::{Meeting, first_meeting};
use argos_base::{OutOfMemory, SigId, Signals};
use argos_core::Trans;
use dd_core::{Arena, DdError};
use eqn_dd::{CheckError, job_arena};
use std::alloc::Global;

/// Two transitions of a state that overlap: there is a set of signals on which both guards hold, and their effects
/// differ.
#[derive(Debug, Drop)]
pub struct StateOverlap {
    /// Their places, from 0.
    pub first: u32,
    pub second: u32,
    /// The least such set, over the signals that the state's guards read. It has a place for each signal of the module.
    pub set: Signals,
}

/// The first overlap of a state with these transitions, in a module with `count` signals; `None` where no two of them
/// overlap.
///
/// No diagram is made where no two differ in effect. Else the variables are the signals that the guards read.
///
/// # Errors
///
/// `Variables` where two differ in effect and more than 1,024 signals are read, `Budget` where an operation on diagrams
/// answered it.
pub fn state_overlap(
    alloc: Global,
    transitions: &[Trans],
    count: u32,
    budget: u32,
) -> Result<Option<StateOverlap>, CheckError>
    requires least { 2 ≤ budget }
    requires greatest { budget ≤ 16777216 }
    requires few { length transitions.now < 2 ^ 32 }
    requires read { (k : ℕ) → some_reads (map transition_of transitions.now) k ≡ true → k < count }
    ensures found { IfOk result (λ found. let ts = map transition_of transitions.now in MatchOption found
        (HasNoOverlap count ts) (λ o. IsLeastOverlap count ts o.first o.second o.set)) }
    ensures variables { (n : ℕ) → result ≡ Err (CheckError.Variables n)
        → SomeDiffer count (map transition_of transitions.now)
        × (n ≡ length (signals_read count (map transition_of transitions.now))) × (1024 < n) }
    ensures fits { IfOk result (λ _. SomeDiffer count (map transition_of transitions.now)
        → length (signals_read count (map transition_of transitions.now)) ≤ 1024) }
    ensures budget { (arena : ArenaView) → result ≡ Err (CheckError.Budget arena)
        → SomeDiffer count (map transition_of transitions.now)
        × IsStopped count (map transition_of transitions.now) budget arena }
{
    if !some_differ(transitions, count) {
        return Ok(None);
    }
    let signals = read_signals(alloc, transitions, count)?;
    let mut arena = job_arena(alloc, signals.len() as u32, budget)?;
    let found = match find_meeting(alloc, &mut arena, transitions, &signals, count) {
        Ok(found) => found,
        Err(DdError::Budget) => return Err(CheckError::Budget(arena)),
        Err(DdError::OutOfMemory) => return Err(CheckError::OutOfMemory),
    };
    match found {
        None => Ok(None),
        Some(meeting) => Ok(Some(overlap_of(alloc, &meeting, &signals, count)?)),
    }
}

// The overlap of two transitions that meet.
fn overlap_of(
    alloc: Global,
    meeting: &Meeting,
    signals: &[SigId],
    count: u32,
) -> Result<StateOverlap, OutOfMemory>
    requires first { meeting.now.first < 2 ^ 32 }
    requires second { meeting.now.second < 2 ^ 32 }
    requires sized { length meeting.now.values.items ≡ length signals.now }
    requires inside { (k : ℕ) → lists (numbers signals.now) k ≡ true → k < count }
    ensures first { IfOk result (λ o. o.first ≡ meeting.now.first) }
    ensures second { IfOk result (λ o. o.second ≡ meeting.now.second) }
    ensures set { IfOk result (λ o. o.set ≡ set_of count (chosen (numbers signals.now) meeting.now.values.items)) }
{
    Ok(StateOverlap {
        first: meeting.first as u32,
        second: meeting.second as u32,
        set: set_with(alloc, signals, &meeting.values, count)?,
    })
}

// The first two transitions with different effects whose guards hold together.
fn find_meeting(
    alloc: Global,
    arena: &mut Arena,
    transitions: &[Trans],
    signals: &[SigId],
    count: u32,
) -> Result<Option<Meeting>, DdError>
    requires sized { length signals.now ≡ arena.old.variables }
    requires read { AreAmong (some_reads (map transition_of transitions.now)) (numbers signals.now) }
    ensures adds { AddsAtMost (2 * transitions_size (map transition_of transitions.now)
        + length transitions.now * (length transitions.now + 2)) arena.old arena.new }
    ensures budget { result ≡ Err DdError.Budget → HasNoRoom arena.new }
    ensures found { IfOk result (λ found. let ts = map transition_of transitions.now in MatchOption found
        (NoneFrom count ts 0)
        (λ m. IsFirstFrom count (numbers signals.now) ts 0 m.first m.second m.values.items)) }
{
    let guards = guard_diagrams(alloc, arena, transitions, signals)?;
    first_meeting(alloc, arena, transitions, &guards, signals, count)
}
