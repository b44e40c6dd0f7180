//! The names of an automaton's states, with their numbers.
ghost use Rattle.std.specs.Prelude.{◌≡◌, IfOk};
ghost use Rattle.argos_grammar.specs.Views as tree;
ghost use Rattle.argos_grammar.specs.Views.{mark_of};
ghost use Rattle.argos_expansion.specs.Expansion as expansion;
ghost use Rattle.argos_names.specs.Scope as scope;

use crate::first_names::FirstNames;
use argos_base::{Name, OutOfMemory};
use argos_grammar::{Spot, StateTree};
use std::alloc::Global;

/// The names of the states.
pub fn state_names(alloc: Global, states: &[StateTree]) -> Result<FirstNames, OutOfMemory>
    ensures { IfOk result (λ n. n.names.items ≡ scope.state_names (tree.states_of states.now)) }
{
    let names = names_of(alloc, states)?;
    Ok(FirstNames::new(alloc, names)?)
}

/// The number of the first state with this name, or how many states there are where none has it.
pub fn state_number(names: &FirstNames, spot: &Spot) -> usize
    ensures { result ≡ expansion.state_number names.now.names.items (mark_of spot.now) }
{
    names.place(&spot.name)
}

// The names of the states in order.
#[tactic(auto, using(crate::proofs::StateLists::state_lists))]
fn names_of(alloc: Global, states: &[StateTree]) -> Result<Vec<Name>, OutOfMemory>
    ensures { IfOk result (λ names. names.items ≡ scope.state_names (tree.states_of states.now)) }
{
    let mut names = Vec::new(alloc);
    for state in states {
        names.push(name_of(state))?;
    }
    Ok(names)
}

fn name_of(state: &StateTree) -> Name
    ensures { result ≡ (tree.state_of state.now).head.name.name }
{
    state.name.name
}
