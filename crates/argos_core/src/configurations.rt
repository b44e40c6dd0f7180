//! Where a process begins.
ghost use Rattle.std.specs.Prelude.{◌≡◌, IfOk, map};
ghost use Rattle.argos_core.specs.Configurations.{initial_configuration, initial_parts, initial_in, initial_body};
ghost use Rattle.argos_core.specs.Views.{process_of, automaton_of, state_of, processes_of, states_of, configuration_of, configurations_of, inner_of};

use crate::prog::{Auto, Config, Prog, State};
use argos_base::OutOfMemory;
use std::alloc::Global;

/// The initial configuration.
#[cycle(initial)]
#[tactic(auto, using(crate::proofs::InitialPlaces::initial_places))]
pub fn initial(alloc: Global, prog: &Prog) -> Result<Config, OutOfMemory>
    ensures { IfOk result (λ c. configuration_of c ≡ initial_configuration (process_of prog.now)) }
{
    match prog {
        Prog::Auto(auto) => Ok(initial_of_automaton(alloc, auto)?),
        Prog::Par(parts) => Ok(Config::Beside(initial_of_parts(alloc, parts)?)),
        Prog::Local(_, inside) | Prog::Freeze(_, inside) => Ok(initial(alloc, inside)?),
    }
}

#[cycle(initial)]
#[tactic(auto, using(crate::proofs::InitialPlaces::initial_places))]
fn initial_of_automaton(alloc: Global, auto: &Auto) -> Result<Config, OutOfMemory>
    ensures { IfOk result (λ c. configuration_of c ≡ initial_configuration (automaton_of auto.now)) }
{
    let body = initial_of_state(alloc, &auto.states, auto.init)?;
    Ok(Config::At {
        state: auto.init,
        elapsed: 0,
        body,
    })
}

#[cycle(initial)]
#[tactic(auto, using(crate::proofs::InitialPlaces::initial_places))]
fn initial_of_parts(alloc: Global, parts: &[Prog]) -> Result<Vec<Config>, OutOfMemory>
    ensures { IfOk result (λ cs. configurations_of (map configuration_of cs.items) ≡ initial_parts (processes_of (map process_of parts.now))) }
{
    let mut configs = Vec::new(alloc);
    for part in parts {
        configs.push(initial(alloc, part)?)?;
    }
    Ok(configs)
}

// Of the body of the state with this number.
#[cycle(initial)]
#[tactic(auto, using(crate::proofs::InitialPlaces::initial_places))]
fn initial_of_state(
    alloc: Global,
    states: &[State],
    number: u16,
) -> Result<Option<Box<Config>>, OutOfMemory>
    ensures { IfOk result (λ b. inner_of b ≡ initial_in (states_of (map state_of states.now)) number) }
{
    match states.get(number as usize) {
        Some(state) => Ok(initial_of_body(alloc, state)?),
        None => Ok(None),
    }
}

#[cycle(initial)]
#[tactic(auto, using(crate::proofs::InitialPlaces::initial_places))]
fn initial_of_body(alloc: Global, state: &State) -> Result<Option<Box<Config>>, OutOfMemory>
    ensures { IfOk result (λ b. inner_of b ≡ initial_body (state_of state.now).body) }
{
    match &state.body {
        Some(inside) => Ok(Some(Box::new(alloc, initial(alloc, inside)?)?)),
        None => Ok(None),
    }
}
