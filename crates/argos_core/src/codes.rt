//! The codes of configurations.
ghost use Rattle.std.specs.Prelude.{◌≡◌, ◌+◌, ◌<◌, ◌≤◌, ◌∷◌, ◌++◌, IfOk, length, map, replicate};
ghost use Rattle.argos_base.specs.Limits.{code_limit};
ghost use Rattle.argos_core.specs.Automata.{register_count, registers_of, registers_in, registers_within, rules_of};
ghost use Rattle.argos_core.specs.Automata as automata;
ghost use Rattle.argos_core.specs.Codes.{code_of, codes_of, codes_in, codes_within};
ghost use Rattle.argos_core.specs.Configurations.{IsConfiguration, AreOfParts, IsOfState, IsOfBody};
ghost use Rattle.argos_core.specs.Modules.{IsShaped, AreShapedParts, AreShapedStates, IsShapedBody};
ghost use Rattle.argos_core.specs.Views.{process_of, automaton_of, state_of, processes_of, states_of, configuration_of, configurations_of, inner_of};
ghost use Rattle.argos_core.specs.Process.{parallel};

use crate::prog::{Auto, Config, Prog, State};
use argos_base::OutOfMemory;
use std::alloc::Global;

/// The code of a configuration: one number for each automaton in the order of registers, and 0 for one that is off.
pub fn encode(alloc: Global, prog: &Prog, config: &Config) -> Result<Vec<u16>, OutOfMemory>
    requires shaped { IsShaped (process_of prog.now) }
    requires fits { IsConfiguration (process_of prog.now) (configuration_of config.now) }
    ensures { IfOk result (λ codes. codes.items ≡ code_of (process_of prog.now) (configuration_of config.now)) }
{
    let mut codes = Vec::new(alloc);
    encode_process(prog, config, &mut codes)?;
    Ok(codes)
}

#[cycle(encode)]
#[tactic(auto, using(crate::proofs::Encoding::encoding))]
fn encode_process(prog: &Prog, config: &Config, codes: &mut Vec<u16>) -> Result<(), OutOfMemory>
    requires shaped { IsShaped (process_of prog.now) }
    requires fits { IsConfiguration (process_of prog.now) (configuration_of config.now) }
    ensures { IfOk result (λ _. codes.new.items ≡ codes.old.items ++ code_of (process_of prog.now) (configuration_of config.now)) }
{
    match prog {
        Prog::Auto(auto) => Ok(encode_automaton(auto, config, codes)?),
        Prog::Par(parts) => Ok(encode_parts(parts, config, codes)?),
        Prog::Local(_, inside) | Prog::Freeze(_, inside) => Ok(encode_process(
            inside, config, codes,
        )?),
    }
}

#[cycle(encode)]
#[tactic(auto, using(crate::proofs::Encoding::encoding))]
fn encode_automaton(auto: &Auto, config: &Config, codes: &mut Vec<u16>) -> Result<(), OutOfMemory>
    requires shaped { IsShaped (automaton_of auto.now) }
    requires fits { IsConfiguration (automaton_of auto.now) (configuration_of config.now) }
    ensures { IfOk result (λ _. codes.new.items ≡ codes.old.items ++ code_of (automaton_of auto.now) (configuration_of config.now)) }
{
    match config {
        Config::At {
            state,
            elapsed,
            body,
        } => Ok(encode_states(&auto.states, *state, *elapsed, body, codes)?),
        Config::Beside(_) => Ok(()),
    }
}

// The states of an automaton, of which one is current.
#[cycle(encode)]
#[tactic(auto, using(crate::proofs::Encoding::encoding))]
fn encode_states(
    states: &[State],
    current: u16,
    elapsed: u16,
    body: &Option<Box<Config>>,
    codes: &mut Vec<u16>,
) -> Result<(), OutOfMemory>
    requires counted { automata.code_count (states_of (map state_of states.now)) ≤ code_limit }
    requires shaped { AreShapedStates (length (rules_of (states_of (map state_of states.now)))) (states_of (map state_of states.now)) }
    requires fits { IsOfState (states_of (map state_of states.now)) current elapsed (inner_of body.now) }
    ensures { IfOk result (λ _. codes.new.items ≡ codes.old.items ++ (automata.first_code (states_of (map state_of states.now)) current + elapsed) ∷ codes_in (states_of (map state_of states.now)) current (inner_of body.now)) }
{
    let number = current as usize;
    prove!(number < states.len());
    codes.push(first_code(states, current) + elapsed)?;
    states_off(&states[..number], codes)?;
    encode_body(&states[number], body, codes)?;
    states_off(&states[number + 1..], codes)
}

#[cycle(encode)]
#[tactic(auto, using(crate::proofs::Encoding::encoding))]
fn encode_body(
    state: &State,
    body: &Option<Box<Config>>,
    codes: &mut Vec<u16>,
) -> Result<(), OutOfMemory>
    requires shaped { IsShapedBody (state_of state.now).body }
    requires fits { IsOfBody (state_of state.now).body (inner_of body.now) }
    ensures { IfOk result (λ _. codes.new.items ≡ codes.old.items ++ codes_within (state_of state.now).body (inner_of body.now)) }
{
    match (&state.body, body) {
        (Some(inside), Some(config)) => Ok(encode_process(inside, config, codes)?),
        _ => Ok(()),
    }
}

#[cycle(encode)]
#[tactic(auto, using(crate::proofs::Encoding::encoding))]
fn encode_parts(parts: &[Prog], config: &Config, codes: &mut Vec<u16>) -> Result<(), OutOfMemory>
    requires shaped { AreShapedParts (processes_of (map process_of parts.now)) }
    requires fits { IsConfiguration (parallel (processes_of (map process_of parts.now))) (configuration_of config.now) }
    ensures { IfOk result (λ _. codes.new.items ≡ codes.old.items ++ code_of (parallel (processes_of (map process_of parts.now))) (configuration_of config.now)) }
{
    match config {
        Config::Beside(configs) => Ok(encode_each(parts, configs, codes)?),
        Config::At { .. } => Ok(()),
    }
}

#[cycle(encode)]
#[tactic(auto, using(crate::proofs::Encoding::encoding))]
fn encode_each(parts: &[Prog], configs: &[Config], codes: &mut Vec<u16>) -> Result<(), OutOfMemory>
    requires shaped { AreShapedParts (processes_of (map process_of parts.now)) }
    requires fits { AreOfParts (processes_of (map process_of parts.now)) (configurations_of (map configuration_of configs.now)) }
    ensures { IfOk result (λ _. codes.new.items ≡ codes.old.items ++ codes_of (processes_of (map process_of parts.now)) (configurations_of (map configuration_of configs.now))) }
{
    for (part, config) in parts.iter().zip(configs) {
        encode_process(part, config, codes)?;
    }
    Ok(())
}

// What is off has zeros.
#[cycle(off)]
#[tactic(auto, using(crate::proofs::Encoding::encoding))]
fn process_off(prog: &Prog, codes: &mut Vec<u16>) -> Result<(), OutOfMemory>
    ensures { IfOk result (λ _. codes.new.items ≡ codes.old.items ++ replicate (register_count (process_of prog.now)) 0) }
{
    match prog {
        Prog::Auto(auto) => Ok(automaton_off(auto, codes)?),
        Prog::Par(parts) => Ok(parts_off(parts, codes)?),
        Prog::Local(_, inside) | Prog::Freeze(_, inside) => Ok(process_off(inside, codes)?),
    }
}

#[cycle(off)]
#[tactic(auto, using(crate::proofs::Encoding::encoding))]
fn automaton_off(auto: &Auto, codes: &mut Vec<u16>) -> Result<(), OutOfMemory>
    ensures { IfOk result (λ _. codes.new.items ≡ codes.old.items ++ replicate (register_count (automaton_of auto.now)) 0) }
{
    codes.push(0)?;
    states_off(&auto.states, codes)
}

#[cycle(off)]
#[tactic(auto, using(crate::proofs::Encoding::encoding))]
fn parts_off(parts: &[Prog], codes: &mut Vec<u16>) -> Result<(), OutOfMemory>
    ensures { IfOk result (λ _. codes.new.items ≡ codes.old.items ++ replicate (registers_of (processes_of (map process_of parts.now))) 0) }
{
    for part in parts {
        process_off(part, codes)?;
    }
    Ok(())
}

#[cycle(off)]
#[tactic(auto, using(crate::proofs::Encoding::encoding))]
fn states_off(states: &[State], codes: &mut Vec<u16>) -> Result<(), OutOfMemory>
    ensures { IfOk result (λ _. codes.new.items ≡ codes.old.items ++ replicate (registers_in (states_of (map state_of states.now))) 0) }
{
    for state in states {
        body_off(state, codes)?;
    }
    Ok(())
}

#[cycle(off)]
#[tactic(auto, using(crate::proofs::Encoding::encoding))]
fn body_off(state: &State, codes: &mut Vec<u16>) -> Result<(), OutOfMemory>
    ensures { IfOk result (λ _. codes.new.items ≡ codes.old.items ++ replicate (registers_within (state_of state.now).body) 0) }
{
    match &state.body {
        Some(inside) => Ok(process_off(inside, codes)?),
        None => Ok(()),
    }
}

/// The first code of the state with this number.
#[tactic(auto, using(crate::proofs::Encoding::encoding))]
pub fn first_code(states: &[State], number: u16) -> u16
    requires exists { number < length states.now }
    requires counted { automata.first_code (states_of (map state_of states.now)) number ≤ code_limit }
    ensures { result ≡ automata.first_code (states_of (map state_of states.now)) number }
{
    code_count(&states[..number as usize]) + 1
}

/// How many codes the states have.
#[tactic(auto, using(crate::proofs::Encoding::encoding))]
pub fn code_count(states: &[State]) -> u16
    requires { automata.code_count (states_of (map state_of states.now)) ≤ code_limit }
    ensures { result ≡ automata.code_count (states_of (map state_of states.now)) }
{
    let mut count = 0;
    for state in states {
        count += counts_of(state);
    }
    count
}

/// How many codes a state has: one for each elapsed count.
pub fn counts_of(state: &State) -> u16
    ensures { result ≡ automata.counts_of (state_of state.now).rules.timeout }
{
    match &state.timed {
        Some(timed) => timed.count,
        None => 1,
    }
}
