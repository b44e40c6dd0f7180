// The first overlap of a module, state by state.
ghost use Rattle.std.specs.Prelude.{◌≡◌, ◌+◌, ◌^◌, ◌<◌, ◌≤◌, ◌∷◌, [], ◌↔◌, ℕ, Ok, IsTrue, map, length};
ghost use Rattle.std.specs.Prelude.{IfOk, MatchOption};
ghost use Rattle.argos_core.specs.ModuleViews.{module_of};
ghost use Rattle.argos_core.specs.Reactions.{signal_count};
ghost use Rattle.argos_core.specs.Views.{process_of, processes_of, state_of, states_of};
ghost use Rattle.dd_core.specs.Arenas.{ArenaView};
ghost use Rattle.instant_check.specs.ModuleOverlaps.{IsAnswer, IsTooWide, IsOutOfBudget};
ghost use Rattle.instant_check.specs.inner.Jobs.{AreFit, AreFitStates, IsFitState};
ghost use Rattle.instant_check.specs.inner.Jobs.{transitions_in, jobs_of, jobs_of_parts, jobs_in, jobs_within};
ghost use Rattle.instant_check.specs.inner.Searching.{Answers, Settles};

use crate::job::{StateOverlap, state_overlap};
use argos_base::{RegId, Signals};
use argos_core::{Module, Prog, State};
use eqn_dd::CheckError;
use std::alloc::Global;

/// Whether two transitions of a state of a module overlap: both guards hold on some set of signals, and the two go to
/// different states or emit different sets.
#[derive(Debug, Drop)]
pub enum OverlapFound {
    /// No two transitions of a state do.
    Clear,
    /// The first that do: by register, state, and the places of both transitions from 0, with the least such set of the
    /// signals that the state's guards read. The set has a place for each signal of the module.
    Overlap {
        reg: RegId,
        state: u16,
        first: u32,
        second: u32,
        set: Signals,
    },
}

/// The first overlap of a module. A state is one job of diagrams where two of its transitions differ in effect; its
/// variables are the signals that its guards read, by number. States are taken in order, and the first that has an overlap
/// or an error decides.
///
/// # Errors
///
/// `Variables` where a job has more than 1,024 variables; `Budget` where an operation on the diagrams of a job answered
/// it, which it never does where `budget` is what the job needs.
pub fn overlaps(alloc: Global, module: &Module, budget: u32) -> Result<OverlapFound, CheckError>
    requires least { 2 ≤ budget }
    requires greatest { budget ≤ 16777216 }
    ensures found { IfOk result (IsAnswer (module_of «module».now)) }
    ensures variables { (n : ℕ) → result ≡ Err (CheckError.Variables n) → IsTooWide (module_of «module».now) n }
    ensures budget { (arena : ArenaView) → result ≡ Err (CheckError.Budget arena)
        → IsOutOfBudget (module_of «module».now) budget arena }
{
    let mut register = 0;
    process_overlaps(
        alloc,
        &module.prog,
        count_signals(module),
        budget,
        &mut register,
    )
}

// How many signals a module has.
fn count_signals(module: &Module) -> u32
    ensures { result ≡ signal_count (module_of «module».now) }
{
    module.names.inputs.len() + module.names.outputs.len() + module.locals.len() as u32
}

// The first overlap of a process whose first register is `register`, which is moved on behind the last where there is
// none.
#[cycle(search)]
fn process_overlaps(
    alloc: Global,
    prog: &Prog,
    count: u32,
    budget: u32,
    register: &mut u32,
) -> Result<OverlapFound, CheckError>
    requires least { 2 ≤ budget }
    requires greatest { budget ≤ 16777216 }
    requires fit { AreFit count (jobs_of (process_of prog.now)) }
    requires numbered { register.old + length (jobs_of (process_of prog.now)) < 2 ^ 32 }
    ensures moved { result ≡ Ok OverlapFound.Clear
        → register.new ≡ register.old + length (jobs_of (process_of prog.now)) }
    ensures answer { Answers count budget register.old (jobs_of (process_of prog.now)) result }
{
    match prog {
        Prog::Auto(auto) => automaton_overlaps(alloc, &auto.states, count, budget, register),
        Prog::Par(parts) => parts_overlaps(alloc, parts, count, budget, register),
        Prog::Local(_, inside) | Prog::Freeze(_, inside) => {
            process_overlaps(alloc, inside, count, budget, register)
        }
    }
}

#[cycle(search)]
fn parts_overlaps(
    alloc: Global,
    parts: &[Prog],
    count: u32,
    budget: u32,
    register: &mut u32,
) -> Result<OverlapFound, CheckError>
    requires least { 2 ≤ budget }
    requires greatest { budget ≤ 16777216 }
    requires fit { AreFit count (jobs_of_parts (processes_of (map process_of parts.now))) }
    requires numbered { register.old + length (jobs_of_parts (processes_of (map process_of parts.now))) < 2 ^ 32 }
    ensures moved { result ≡ Ok OverlapFound.Clear
        → register.new ≡ register.old + length (jobs_of_parts (processes_of (map process_of parts.now))) }
    ensures answer { let jobs = jobs_of_parts (processes_of (map process_of parts.now)) in
        Answers count budget register.old jobs result }
{
    for part in parts {
        let answer = process_overlaps(alloc, part, count, budget, register);
        if !is_clear(&answer) {
            return answer;
        }
    }
    Ok(OverlapFound::Clear)
}

// An automaton with these states: they come before those in their bodies.
#[cycle(search)]
fn automaton_overlaps(
    alloc: Global,
    states: &[State],
    count: u32,
    budget: u32,
    register: &mut u32,
) -> Result<OverlapFound, CheckError>
    requires least { 2 ≤ budget }
    requires greatest { budget ≤ 16777216 }
    requires fit { let ss = states_of (map state_of states.now) in AreFit count (transitions_in ss ∷ jobs_in ss) }
    requires numbered { register.old + length (jobs_in (states_of (map state_of states.now))) + 1 < 2 ^ 32 }
    ensures moved { result ≡ Ok OverlapFound.Clear
        → register.new ≡ register.old + length (jobs_in (states_of (map state_of states.now))) + 1 }
    ensures answer { let ss = states_of (map state_of states.now) in
        Answers count budget register.old (transitions_in ss ∷ jobs_in ss) result }
{
    let answer = states_overlaps(alloc, states, count, budget, RegId(*register));
    if !is_clear(&answer) {
        return answer;
    }
    *register += 1;
    bodies_overlaps(alloc, states, count, budget, register)
}

// The states of an automaton with this register, without their bodies.
fn states_overlaps(
    alloc: Global,
    states: &[State],
    count: u32,
    budget: u32,
    register: RegId,
) -> Result<OverlapFound, CheckError>
    requires least { 2 ≤ budget }
    requires greatest { budget ≤ 16777216 }
    requires numbered { length states.now ≤ 65535 }
    requires fit { AreFitStates count (transitions_in (states_of (map state_of states.now))) }
    ensures { Answers count budget register.0 (transitions_in (states_of (map state_of states.now)) ∷ []) result }
{
    for (number, state) in states.iter().enumerate() {
        let answer = overlap_in(alloc, state, count, budget, register, number as u16);
        if !is_clear(&answer) {
            return answer;
        }
    }
    Ok(OverlapFound::Clear)
}

// One state, which has this register and number.
fn overlap_in(
    alloc: Global,
    state: &State,
    count: u32,
    budget: u32,
    register: RegId,
    number: u16,
) -> Result<OverlapFound, CheckError>
    requires least { 2 ≤ budget }
    requires greatest { budget ≤ 16777216 }
    requires fit { IsFitState count (state_of state.now).rules.transitions }
    ensures { Settles count budget register.0 number (state_of state.now).rules.transitions result }
{
    match state_overlap(alloc, &state.trans, count, budget) {
        Ok(found) => Ok(overlap_at(found, register, number)),
        Err(error) => Err(error),
    }
}

// The overlap of a state, with its place in the module.
fn overlap_at(found: Option<StateOverlap>, register: RegId, number: u16) -> OverlapFound
    ensures { MatchOption found (result ≡ OverlapFound.Clear)
        (λ o. result ≡ OverlapFound.Overlap register number o.first o.second o.set) }
{
    match found {
        None => OverlapFound::Clear,
        Some(overlap) => OverlapFound::Overlap {
            reg: register,
            state: number,
            first: overlap.first,
            second: overlap.second,
            set: overlap.set,
        },
    }
}

// The bodies of states, one after the other.
#[cycle(search)]
fn bodies_overlaps(
    alloc: Global,
    states: &[State],
    count: u32,
    budget: u32,
    register: &mut u32,
) -> Result<OverlapFound, CheckError>
    requires least { 2 ≤ budget }
    requires greatest { budget ≤ 16777216 }
    requires fit { AreFit count (jobs_in (states_of (map state_of states.now))) }
    requires numbered { register.old + length (jobs_in (states_of (map state_of states.now))) < 2 ^ 32 }
    ensures moved { result ≡ Ok OverlapFound.Clear
        → register.new ≡ register.old + length (jobs_in (states_of (map state_of states.now))) }
    ensures answer { Answers count budget register.old (jobs_in (states_of (map state_of states.now))) result }
{
    for state in states {
        let answer = body_overlaps(alloc, state, count, budget, register);
        if !is_clear(&answer) {
            return answer;
        }
    }
    Ok(OverlapFound::Clear)
}

#[cycle(search)]
fn body_overlaps(
    alloc: Global,
    state: &State,
    count: u32,
    budget: u32,
    register: &mut u32,
) -> Result<OverlapFound, CheckError>
    requires least { 2 ≤ budget }
    requires greatest { budget ≤ 16777216 }
    requires fit { AreFit count (jobs_within (state_of state.now).body) }
    requires numbered { register.old + length (jobs_within (state_of state.now).body) < 2 ^ 32 }
    ensures moved { result ≡ Ok OverlapFound.Clear
        → register.new ≡ register.old + length (jobs_within (state_of state.now).body) }
    ensures answer { Answers count budget register.old (jobs_within (state_of state.now).body) result }
{
    match &state.body {
        Some(inside) => process_overlaps(alloc, inside, count, budget, register),
        None => Ok(OverlapFound::Clear),
    }
}

// Whether the answer is that nothing overlaps.
fn is_clear(answer: &Result<OverlapFound, CheckError>) -> bool
    ensures { IsTrue result ↔ (answer.now ≡ Ok OverlapFound.Clear) }
{
    matches!(answer, Ok(OverlapFound::Clear))
}
