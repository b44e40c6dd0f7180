//! States as lines, without their bodies.
ghost use Rattle.std.specs.Prelude.{◌≡◌, [], ◌∷◌, ◌+◌, ◌-◌, ◌^◌, ◌<◌, ◌≤◌, ◌++◌, IfOk, Some, length, map, suc};
ghost use Rattle.argos_base.specs.Limits.{code_limit};
ghost use Rattle.argos_core.specs.Automata as automata;
ghost use Rattle.argos_core.specs.Modules.{AreShapedStates};
ghost use Rattle.argos_core.specs.Views.{transition_of, timeout_of, state_of, states_of};
ghost use Rattle.eqn_build.specs.inner.BuilderViews.{fire_bit_of, exit_bits_of, own_exits, timed_lines, waits_lines, ticks_of_state};
ghost use Rattle.eqn_scheme.specs.Scheme as meaning;
ghost use Rattle.eqn_core.specs.Views.{literal_of, line_of};

use crate::builder::{
    Around, Builder, Exit, Fire, Own, both, minus, opposite, plus, put_bit, three,
};
use crate::guards::put_guard;
use crate::tables::fire_literals;
use argos_base::OutOfMemory;
use argos_core::{State, Timed, Trans};
use eqn_core::{Line, Lit};
use smallvec::SmallVec;
use std::alloc::Global;

/// Adds the lines of transitions of a state with this bit for live, their fires, and the opposites of their guards.
#[tactic(auto, using(crate::proofs::StateBuilding::state_building))]
pub(crate) fn put_transitions(
    alloc: Global,
    transitions: &[Trans],
    live: u32,
    builder: &mut Builder,
    fires: &mut Vec<Fire>,
    refusals: &mut SmallVec<Lit, 4>,
) -> Result<(), OutOfMemory>
    requires room { builder.old.bits + meaning.transition_bits (map transition_of transitions.now) < 2 ^ 32 }
    ensures bits { IfOk result (λ _. builder.new.bits ≡ builder.old.bits + meaning.transition_bits (map transition_of transitions.now)) }
    ensures one { IfOk result (λ _. builder.new.one ≡ builder.old.one) }
    ensures lines { IfOk result (λ _. map line_of builder.new.lines.items ≡ map line_of builder.old.lines.items ++ meaning.transition_lines builder.old.one live builder.old.bits (map transition_of transitions.now)) }
    ensures fires { IfOk result (λ _. map fire_bit_of fires.new.items ≡ map fire_bit_of fires.old.items ++ meaning.transition_fires builder.old.bits (map transition_of transitions.now)) }
    ensures refusals { IfOk result (λ _. map literal_of refusals.new.items ≡ map literal_of refusals.old.items ++ meaning.refusals builder.old.one builder.old.bits (map transition_of transitions.now)) }
{
    for transition in transitions {
        let guard = put_guard(alloc, &transition.guard, builder)?;
        let bit = put_bit(builder, Line::All(both(alloc, plus(live), guard)?))?;
        fires.push(Fire {
            bit,
            outs: SmallVec::from_slice(alloc, &transition.outs)?,
            target: transition.target,
        })?;
        refusals.push(opposite(guard))?;
    }
    Ok(())
}

// Adds the lines of a timeout, of which the first has these literals, its fire and its tick.
#[tactic(auto, using(crate::proofs::StateBuilding::state_building))]
fn put_timed(
    alloc: Global,
    timed: &Timed,
    register: u32,
    first: u16,
    waits: SmallVec<Lit, 4>,
    builder: &mut Builder,
    fires: &mut Vec<Fire>,
    ticks: &mut Vec<u32>,
) -> Result<(), OutOfMemory>
    requires room { builder.old.bits + 4 < 2 ^ 32 }
    requires counts { 1 ≤ timed.now.count }
    requires codes { first + timed.now.count ≤ 65536 }
    ensures bits { IfOk result (λ _. builder.new.bits ≡ builder.old.bits + 4) }
    ensures one { IfOk result (λ _. builder.new.one ≡ builder.old.one) }
    ensures lines { IfOk result (λ _. map line_of builder.new.lines.items ≡ map line_of builder.old.lines.items ++ timed_lines register first builder.old.bits (map literal_of waits.items) (timeout_of timed.now)) }
    ensures fires { IfOk result (λ _. map fire_bit_of fires.new.items ≡ map fire_bit_of fires.old.items ++ meaning.timeout_fires builder.old.bits (Some (timeout_of timed.now))) }
    ensures ticks { IfOk result (λ _. ticks.new.items ≡ ticks.old.items ++ meaning.timeout_ticks builder.old.bits (Some (timeout_of timed.now))) }
{
    let last = first + (timed.count - 1);
    let waiting = put_bit(builder, Line::All(waits))?;
    let at_last = put_bit(
        builder,
        Line::Within {
            word: register,
            lo: last,
            hi: last,
        },
    )?;
    let signal = plus(timed.signal.0);
    let time = put_bit(
        builder,
        Line::All(three(alloc, plus(waiting), signal, plus(at_last))?),
    )?;
    let tick = put_bit(
        builder,
        Line::All(three(alloc, plus(waiting), signal, minus(at_last))?),
    )?;
    fires.push(Fire {
        bit: time,
        outs: SmallVec::from_slice(alloc, &timed.outs)?,
        target: timed.target,
    })?;
    ticks.push(tick)?;
    Ok(())
}

// Adds the lines of a state's timeout, if it has one.
#[tactic(auto, using(crate::proofs::StateBuilding::state_building))]
fn put_timeout(
    alloc: Global,
    state: &State,
    register: u32,
    first: u16,
    waits: SmallVec<Lit, 4>,
    builder: &mut Builder,
    fires: &mut Vec<Fire>,
    ticks: &mut Vec<u32>,
) -> Result<(), OutOfMemory>
    requires room { builder.old.bits + meaning.timeout_bits (state_of state.now).rules.timeout < 2 ^ 32 }
    requires counts { 1 ≤ automata.counts_of (state_of state.now).rules.timeout }
    requires codes { first + automata.counts_of (state_of state.now).rules.timeout ≤ 65536 }
    ensures bits { IfOk result (λ _. builder.new.bits ≡ builder.old.bits + meaning.timeout_bits (state_of state.now).rules.timeout) }
    ensures one { IfOk result (λ _. builder.new.one ≡ builder.old.one) }
    ensures lines { IfOk result (λ _. map line_of builder.new.lines.items ≡ map line_of builder.old.lines.items ++ waits_lines register first builder.old.bits (map literal_of waits.items) (state_of state.now).rules.timeout) }
    ensures fires { IfOk result (λ _. map fire_bit_of fires.new.items ≡ map fire_bit_of fires.old.items ++ meaning.timeout_fires builder.old.bits (state_of state.now).rules.timeout) }
    ensures ticks { IfOk result (λ _. ticks.new.items ≡ ticks.old.items ++ meaning.timeout_ticks builder.old.bits (state_of state.now).rules.timeout) }
{
    match &state.timed {
        Some(timed) => Ok(put_timed(alloc, timed, register, first, waits, builder, fires, ticks)?),
        None => Ok(()),
    }
}

/// How many codes a state has.
pub(crate) fn counts_of(state: &State) -> u16
    ensures { result ≡ automata.counts_of (state_of state.now).rules.timeout }
{
    match &state.timed {
        Some(timed) => timed.count,
        None => 1,
    }
}

/// Adds the lines of a state with these codes, without its body, its fires and its ticks.
#[tactic(auto, using(crate::proofs::StateBuilding::state_building))]
pub(crate) fn put_state(
    alloc: Global,
    state: &State,
    run: Lit,
    register: u32,
    first: u16,
    builder: &mut Builder,
    fires: &mut Vec<Fire>,
    ticks: &mut Vec<u32>,
) -> Result<(), OutOfMemory>
    requires room { builder.old.bits + meaning.state_bits (state_of state.now).rules.transitions (state_of state.now).rules.timeout < 2 ^ 32 }
    requires counts { 1 ≤ automata.counts_of (state_of state.now).rules.timeout }
    requires codes { first + automata.counts_of (state_of state.now).rules.timeout ≤ 65536 }
    ensures bits { IfOk result (λ _. builder.new.bits ≡ builder.old.bits + meaning.state_bits (state_of state.now).rules.transitions (state_of state.now).rules.timeout) }
    ensures one { IfOk result (λ _. builder.new.one ≡ builder.old.one) }
    ensures lines { IfOk result (λ _. map line_of builder.new.lines.items ≡ map line_of builder.old.lines.items ++ meaning.state_lines builder.old.one (literal_of run) register first builder.old.bits (state_of state.now).rules.transitions (state_of state.now).rules.timeout) }
    ensures fires { IfOk result (λ _. map fire_bit_of fires.new.items ≡ map fire_bit_of fires.old.items ++ meaning.state_fire_bits builder.old.bits (state_of state.now).rules.transitions (state_of state.now).rules.timeout) }
    ensures ticks { IfOk result (λ _. ticks.new.items ≡ ticks.old.items ++ ticks_of_state builder.old.bits (state_of state.now).rules.transitions (state_of state.now).rules.timeout) }
{
    let last = first + (counts_of(state) - 1);
    let current = put_bit(
        builder,
        Line::Within {
            word: register,
            lo: first,
            hi: last,
        },
    )?;
    let live = put_bit(builder, Line::All(both(alloc, run, plus(current))?))?;
    let mut waits = SmallVec::new(alloc);
    waits.push(plus(live))?;
    put_transitions(alloc, &state.trans, live, builder, fires, &mut waits)?;
    put_timeout(alloc, state, register, first, waits, builder, fires, ticks)?;
    Ok(())
}

/// Adds the lines of the states of an automaton, without their bodies.
#[tactic(auto, using(crate::proofs::OwnStates::own_building))]
pub(crate) fn put_states(
    alloc: Global,
    states: &[State],
    around: Around,
    register: u32,
    builder: &mut Builder,
) -> Result<Own, OutOfMemory>
    requires counted { automata.code_count (states_of (map state_of states.now)) ≤ code_limit }
    requires shaped { AreShapedStates (length states.now) (states_of (map state_of states.now)) }
    requires room { builder.old.bits + meaning.own_bits (states_of (map state_of states.now)) < 2 ^ 32 }
    ensures bits { IfOk result (λ _. builder.new.bits ≡ builder.old.bits + meaning.own_bits (states_of (map state_of states.now))) }
    ensures one { IfOk result (λ _. builder.new.one ≡ builder.old.one) }
    ensures lines { IfOk result (λ _. map line_of builder.new.lines.items ≡ map line_of builder.old.lines.items ++ meaning.own_lines (states_of (map state_of states.now)) builder.old.one (literal_of around.run) register 1 builder.old.bits) }
    ensures fires { IfOk result (λ own. map fire_bit_of own.fires.items ≡ meaning.own_fires (states_of (map state_of states.now)) builder.old.bits) }
    ensures ticks { IfOk result (λ own. own.ticks.items ≡ meaning.own_ticks (states_of (map state_of states.now)) builder.old.bits) }
    ensures exits { IfOk result (λ own. map exit_bits_of own.exits.items ≡ own_exits (states_of (map state_of states.now)) (literal_of around.kill) builder.old.bits) }
{
    let mut fires = Vec::new(alloc);
    let mut ticks = Vec::new(alloc);
    let mut exits = Vec::new(alloc);
    let mut used = 0;
    for state in states {
        let live = builder.bits + 1;
        let before = fires.len();
        put_state(
            alloc,
            state,
            around.run,
            register,
            used + 1,
            builder,
            &mut fires,
            &mut ticks,
        )?;
        let left = fire_literals(alloc, &fires[before..], around.kill)?;
        exits.push(Exit { live, left })?;
        used += counts_of(state);
    }
    Ok(Own {
        fires,
        ticks,
        exits,
    })
}
