//! Guards, transitions and timeouts of which the signals stand as places, with the signals that stand there; and their sizes.
ghost use Rattle.std.specs.Prelude.{◌≡◌, ◌+◌, map, option_map, sum_by, MatchResult, IfOk};
ghost use Rattle.argos_core.specs.Views as core;
ghost use Rattle.argos_core.specs.Views.{numbers};
ghost use Rattle.argos_expansion.specs.inner.Renaming as renaming;
ghost use Rattle.argos_expansion.specs.inner.Shapes.{states_shape, state_shape, transition_shape, timeout_shape};

use crate::counts::sum;
use crate::errors::ExpansionError;
use crate::marks::Marks;
use crate::placed::{PlacedState, PlacedTimed, PlacedTrans};
use argos_base::{OutOfMemory, SigId};
use argos_core::{Guard, Timed, Trans};
use smallvec::SmallVec;
use std::alloc::Global;

/// The signal at a place, or the first one where none stands there.
#[tactic(auto, using(crate::proofs::RenamedLists::renamed_lists))]
pub fn signal_at(signals: &[SigId], place: SigId) -> SigId
    ensures { result.0 ≡ renaming.signal_at (numbers signals.now) place.0 }
{
    match signals.get(place.0 as usize) {
        Some(signal) => *signal,
        None => SigId(0),
    }
}

/// The signal at the k-th of these places, or the first one where there are fewer.
#[tactic(auto, using(crate::proofs::RenamedLists::renamed_lists))]
pub fn used_signal(signals: &[SigId], places: &[SigId], k: usize) -> SigId
    ensures { result.0 ≡ renaming.signal_at (map (renaming.signal_at (numbers signals.now)) (numbers places.now)) k }
{
    match places.get(k) {
        Some(place) => signal_at(signals, *place),
        None => SigId(0),
    }
}

// The signals at these places.
#[tactic(auto, using(crate::proofs::RenamedLists::renamed_lists))]
fn signals_at(alloc: Global, signals: &[SigId], places: &[SigId]) -> Result<Vec<SigId>, OutOfMemory>
    ensures { IfOk result (λ found. numbers found.items ≡ map (renaming.signal_at (numbers signals.now)) (numbers places.now)) }
{
    let mut found = Vec::with_capacity(alloc, places.len())?;
    for place in places {
        found.push(signal_at(signals, *place))?;
    }
    Ok(found)
}

// The signals at the places of a list of emissions, each at its first place.
fn outs(
    alloc: Global,
    marks: &mut Marks,
    signals: &[SigId],
    places: &[SigId],
) -> Result<SmallVec<SigId, 4>, OutOfMemory>
    ensures { IfOk result (λ outs. numbers outs.items ≡ renaming.renamed_outs (numbers signals.now) (numbers places.now)) }
{
    let all = signals_at(alloc, signals, places)?;
    Ok(marks.once(alloc, &all)?)
}

#[cycle(guard)]
#[tactic(auto, using(crate::proofs::RenamedLists::renamed_lists))]
fn guard(alloc: Global, signals: &[SigId], form: &Guard) -> Result<Guard, OutOfMemory>
    ensures { IfOk result (λ g. core.guard_of g ≡ renaming.renamed_guard (numbers signals.now) (core.guard_of form.now)) }
{
    match form {
        Guard::True => Ok(Guard::True),
        Guard::False => Ok(Guard::False),
        Guard::Sig(place) => Ok(Guard::Sig(signal_at(signals, *place))),
        Guard::Not(operand) => {
            let operand = guard(alloc, signals, operand)?;
            let operand = Box::new(alloc, operand)?;
            Ok(Guard::Not(operand))
        }
        Guard::All(operands) => {
            let operands = guards(alloc, signals, operands)?;
            Ok(Guard::All(operands))
        }
        Guard::Any(operands) => {
            let operands = guards(alloc, signals, operands)?;
            Ok(Guard::Any(operands))
        }
    }
}

#[cycle(guard)]
#[tactic(auto, using(crate::proofs::RenamedLists::renamed_lists))]
fn guards(alloc: Global, signals: &[SigId], forms: &[Guard]) -> Result<Vec<Guard>, OutOfMemory>
    ensures { IfOk result (λ gs. core.guards_of (map core.guard_of gs.items) ≡ renaming.renamed_guards (numbers signals.now) (core.guards_of (map core.guard_of forms.now))) }
{
    let mut guards = Vec::new(alloc);
    for form in forms {
        guards.push(guard(alloc, signals, form)?)?;
    }
    Ok(guards)
}

/// The transitions.
#[tactic(auto, using(crate::proofs::RenamedLists::renamed_lists))]
pub fn transitions(
    alloc: Global,
    marks: &mut Marks,
    signals: &[SigId],
    forms: &[PlacedTrans],
) -> Result<Vec<Trans>, OutOfMemory>
    ensures { IfOk result (λ ts. map core.transition_of ts.items ≡ map (renaming.renamed_transition (numbers signals.now)) (map transition_shape forms.now)) }
{
    let mut transitions = Vec::new(alloc);
    for form in forms {
        transitions.push(transition(alloc, marks, signals, form)?)?;
    }
    Ok(transitions)
}

fn transition(
    alloc: Global,
    marks: &mut Marks,
    signals: &[SigId],
    form: &PlacedTrans,
) -> Result<Trans, OutOfMemory>
    ensures { IfOk result (λ t. core.transition_of t ≡ renaming.renamed_transition (numbers signals.now) (transition_shape form.now)) }
{
    let guard = guard(alloc, signals, &form.guard)?;
    let outs = outs(alloc, marks, signals, &form.outs)?;
    let target = state_number(form.target)?;
    Ok(Trans {
        guard,
        outs,
        target,
    })
}

/// The timeout of a state, if it has one.
pub fn timeout(
    alloc: Global,
    marks: &mut Marks,
    signals: &[SigId],
    form: &Option<PlacedTimed>,
) -> Result<Option<Timed>, OutOfMemory>
    ensures { IfOk result (λ t. core.timeout_in t ≡ option_map (renaming.renamed_timeout (numbers signals.now)) (timeout_shape form.now)) }
{
    let Some(form) = form else {
        return Ok(None);
    };
    let outs = outs(alloc, marks, signals, &form.outs)?;
    let target = state_number(form.target)?;
    Ok(Some(Timed {
        count: form.count,
        signal: signal_at(signals, form.signal),
        outs,
        target,
    }))
}

/// The number of a state in two bytes. More states than that come only of states with timeouts of no instant, which no text has:
/// else the limit of codes is passed before.
pub fn state_number(place: usize) -> Result<u16, OutOfMemory>
    ensures { IfOk result (λ k. k ≡ place) }
{
    match u16::try_from(place) {
        Ok(number) => Ok(number),
        Err(_) => Err(OutOfMemory),
    }
}

// How many nodes the guard has.
#[cycle(nodes)]
#[tactic(auto, using(crate::proofs::RenamedLists::renamed_lists))]
fn nodes(form: &Guard) -> Result<u64, ExpansionError>
    ensures { MatchResult result (λ n. n ≡ renaming.guard_size (core.guard_of form.now)) (λ e. e ≡ ExpansionError.OutOfMemory) }
{
    match form {
        Guard::True | Guard::False | Guard::Sig(_) => Ok(1),
        Guard::Not(operand) => Ok(sum(nodes(operand)?, 1)?),
        Guard::All(operands) | Guard::Any(operands) => Ok(sum(nodes_of(operands)?, 1)?),
    }
}

#[cycle(nodes)]
#[tactic(auto, using(crate::proofs::RenamedLists::renamed_lists))]
fn nodes_of(forms: &[Guard]) -> Result<u64, ExpansionError>
    ensures { MatchResult result (λ n. n ≡ renaming.guards_size (core.guards_of (map core.guard_of forms.now))) (λ e. e ≡ ExpansionError.OutOfMemory) }
{
    let mut count = 0;
    for form in forms {
        count = sum(count, nodes(form)?)?;
    }
    Ok(count)
}

/// The size of the states, without their bodies.
#[tactic(auto, using(crate::proofs::RenamedLists::renamed_lists))]
pub fn size_in(
    alloc: Global,
    marks: &mut Marks,
    signals: &[SigId],
    states: &[PlacedState],
) -> Result<u64, ExpansionError>
    ensures { MatchResult result (λ n. n ≡ renaming.states_size (numbers signals.now) (states_shape states.now)) (λ e. e ≡ ExpansionError.OutOfMemory) }
{
    let mut size = 0;
    for state in states {
        size = sum(size, size_of(alloc, marks, signals, state)?)?;
    }
    Ok(size)
}

#[tactic(auto, using(crate::proofs::RenamedLists::renamed_lists))]
fn size_of(
    alloc: Global,
    marks: &mut Marks,
    signals: &[SigId],
    state: &PlacedState,
) -> Result<u64, ExpansionError>
    ensures { MatchResult result (λ n. n ≡ renaming.rules_size (numbers signals.now) (state_shape state.now).rules) (λ e. e ≡ ExpansionError.OutOfMemory) }
{
    let transitions = size_of_transitions(alloc, marks, signals, &state.trans)?;
    let timeout = size_of_timeout(alloc, marks, signals, &state.timed)?;
    sum(sum(1, transitions)?, timeout)
}

#[tactic(auto, using(crate::proofs::RenamedLists::renamed_lists))]
fn size_of_transitions(
    alloc: Global,
    marks: &mut Marks,
    signals: &[SigId],
    forms: &[PlacedTrans],
) -> Result<u64, ExpansionError>
    ensures { MatchResult result (λ n. n ≡ sum_by (renaming.transition_size (numbers signals.now)) (map transition_shape forms.now)) (λ e. e ≡ ExpansionError.OutOfMemory) }
{
    let mut size = 0;
    for form in forms {
        size = sum(size, size_of_transition(alloc, marks, signals, form)?)?;
    }
    Ok(size)
}

#[tactic(auto, using(crate::proofs::RenamedLists::renamed_lists))]
fn size_of_transition(
    alloc: Global,
    marks: &mut Marks,
    signals: &[SigId],
    form: &PlacedTrans,
) -> Result<u64, ExpansionError>
    ensures { MatchResult result (λ n. n ≡ renaming.transition_size (numbers signals.now) (transition_shape form.now)) (λ e. e ≡ ExpansionError.OutOfMemory) }
{
    let nodes = nodes(&form.guard)?;
    let outs = outs(alloc, marks, signals, &form.outs)?.len() as u64;
    sum(sum(1, nodes)?, outs)
}

#[tactic(auto, using(crate::proofs::RenamedLists::renamed_lists))]
fn size_of_timeout(
    alloc: Global,
    marks: &mut Marks,
    signals: &[SigId],
    form: &Option<PlacedTimed>,
) -> Result<u64, ExpansionError>
    ensures { MatchResult result (λ n. n ≡ renaming.timeout_size (numbers signals.now) (timeout_shape form.now)) (λ e. e ≡ ExpansionError.OutOfMemory) }
{
    let Some(form) = form else {
        return Ok(0);
    };
    let outs = outs(alloc, marks, signals, &form.outs)?.len() as u64;
    sum(1, outs)
}
