//! The states of the automata of a program, in the order of registers.
ghost use Rattle.std.specs.Prelude.{◌≡◌, ◌++◌, ◌∷◌, IfOk, map};
ghost use Rattle.argos_core.specs.Automata as automata;
ghost use Rattle.argos_core.specs.Views.{process_of, processes_of, state_of, states_of};
ghost use Rattle.argos_states.specs.Lent.{states_behind};
ghost use Rattle.argos_states.specs.inner.Gathered.{gathered, gathered_of_parts, gathered_in, gathered_within};

use argos_base::OutOfMemory;
use argos_core::{Prog, State};
use std::alloc::Global;

/// The states of each automaton of a program, in the order of registers.
#[tactic(auto, using(crate::proofs::Gathering::gathering))]
pub fn automata_of<'a>(alloc: Global, prog: &'a Prog) -> Result<Vec<&'a [State]>, OutOfMemory>
    ensures { IfOk result (λ all. states_behind all.items ≡ map (λ a. a.states) (automata.automata_of (process_of prog.now))) }
{
    let mut all = Vec::new(alloc);
    add_process(&mut all, prog)?;
    Ok(all)
}

#[cycle(gathering)]
fn add_process<'a>(all: &mut Vec<&'a [State]>, prog: &'a Prog) -> Result<(), OutOfMemory>
    ensures { IfOk result (λ _. states_behind all.new.items ≡ states_behind all.old.items ++ gathered (process_of prog.now)) }
{
    match prog {
        Prog::Auto(auto) => add_automaton(all, &auto.states),
        Prog::Par(parts) => add_parts(all, parts),
        Prog::Local(_, inside) | Prog::Freeze(_, inside) => add_process(all, inside),
    }
}

#[cycle(gathering)]
fn add_parts<'a>(all: &mut Vec<&'a [State]>, parts: &'a [Prog]) -> Result<(), OutOfMemory>
    ensures { IfOk result (λ _. states_behind all.new.items ≡ states_behind all.old.items ++ gathered_of_parts (processes_of (map process_of parts.now))) }
{
    for part in parts {
        add_process(all, part)?;
    }
    Ok(())
}

// An automaton with these states, and those in their bodies.
#[cycle(gathering)]
fn add_automaton<'a>(all: &mut Vec<&'a [State]>, states: &'a [State]) -> Result<(), OutOfMemory>
    ensures { let ss = states_of (map state_of states.now) in
        IfOk result (λ _. states_behind all.new.items ≡ states_behind all.old.items ++ ss ∷ gathered_in ss) }
{
    all.push(states)?;
    for state in states {
        add_body(all, state)?;
    }
    Ok(())
}

#[cycle(gathering)]
fn add_body<'a>(all: &mut Vec<&'a [State]>, state: &'a State) -> Result<(), OutOfMemory>
    ensures { IfOk result (λ _. states_behind all.new.items ≡ states_behind all.old.items ++ gathered_within (state_of state.now).body) }
{
    match &state.body {
        Some(inside) => add_process(all, inside),
        None => Ok(()),
    }
}
