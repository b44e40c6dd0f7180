//! Guards, transitions and timeouts, of which the names are looked up.
ghost use Rattle.std.specs.Prelude.{◌≡◌, ◌+◌, map, option_map, IfOk};
ghost use Rattle.argos_core.specs.Views as core;
ghost use Rattle.argos_grammar.specs.Views as tree;
ghost use Rattle.argos_grammar.specs.Views.{formulas_of, trans_of, timed_of};
ghost use Rattle.argos_expansion.specs.Expansion.{guard_of, guards_of};
ghost use Rattle.argos_expansion.specs.Expansion as expansion;
ghost use Rattle.argos_expansion.specs.inner.Shapes.{transition_shape, timeout_shape};

use crate::first_names::FirstNames;
use crate::placed::{PlacedTimed, PlacedTrans};
use crate::places::{outs, place};
use crate::scope::Scope;
use crate::state_names::state_number;
use argos_base::OutOfMemory;
use argos_core::Guard;
use argos_grammar::{GuardTree, StateTree, TimedTree, TransTree};
use std::alloc::Global;

/// The guard that the tree stands for.
#[cycle(guard)]
#[tactic(auto, using(crate::proofs::GuardLists::guard_lists))]
fn guard(alloc: Global, scope: &Scope, form: &GuardTree) -> Result<Guard, OutOfMemory>
    ensures { IfOk result (λ g. core.guard_of g ≡ guard_of scope.now (tree.guard_of form.now)) }
{
    match form {
        GuardTree::True => Ok(Guard::True),
        GuardTree::False => Ok(Guard::False),
        GuardTree::Sig(spot) => Ok(Guard::Sig(place(scope, spot))),
        GuardTree::Not(operand) => {
            let operand = guard(alloc, scope, operand)?;
            let operand = Box::new(alloc, operand)?;
            Ok(Guard::Not(operand))
        }
        GuardTree::All(operands) => {
            let operands = guards(alloc, scope, operands)?;
            Ok(Guard::All(operands))
        }
        GuardTree::Any(operands) => {
            let operands = guards(alloc, scope, operands)?;
            Ok(Guard::Any(operands))
        }
    }
}

#[cycle(guard)]
#[tactic(auto, using(crate::proofs::GuardLists::guard_lists))]
fn guards(alloc: Global, scope: &Scope, forms: &[GuardTree]) -> Result<Vec<Guard>, OutOfMemory>
    ensures { IfOk result (λ gs. core.guards_of (map core.guard_of gs.items) ≡ guards_of scope.now (formulas_of (map tree.guard_of forms.now))) }
{
    let mut guards = Vec::new(alloc);
    for form in forms {
        guards.push(guard(alloc, scope, form)?)?;
    }
    Ok(guards)
}

/// The transitions of a state, among these names of states.
#[tactic(auto, using(crate::proofs::StateLists::state_lists))]
pub fn transitions(
    alloc: Global,
    scope: &Scope,
    names: &FirstNames,
    forms: &[TransTree],
) -> Result<Vec<PlacedTrans>, OutOfMemory>
    ensures { IfOk result (λ ts. map transition_shape ts.items ≡ map (expansion.transition_of scope.now names.now.names.items) (map trans_of forms.now)) }
{
    let mut transitions = Vec::new(alloc);
    for form in forms {
        transitions.push(transition(alloc, scope, names, form)?)?;
    }
    Ok(transitions)
}

fn transition(
    alloc: Global,
    scope: &Scope,
    names: &FirstNames,
    form: &TransTree,
) -> Result<PlacedTrans, OutOfMemory>
    ensures { IfOk result (λ t. transition_shape t ≡ expansion.transition_of scope.now names.now.names.items (trans_of form.now)) }
{
    let guard = guard(alloc, scope, &form.guard)?;
    let outs = outs(alloc, scope, &form.outs)?;
    let target = state_number(names, &form.target);
    Ok(PlacedTrans {
        guard,
        outs,
        target,
    })
}

/// The timeout of a state, if it has one.
pub fn timeout(
    alloc: Global,
    scope: &Scope,
    names: &FirstNames,
    form: &Option<TimedTree>,
) -> Result<Option<PlacedTimed>, OutOfMemory>
    ensures { IfOk result (λ t. timeout_shape t ≡ option_map (expansion.timeout_of scope.now names.now.names.items) (option_map timed_of form.now)) }
{
    let Some(form) = form else {
        return Ok(None);
    };
    let outs = outs(alloc, scope, &form.outs)?;
    let target = state_number(names, &form.target);
    Ok(Some(PlacedTimed {
        count: form.count,
        signal: place(scope, &form.signal),
        outs,
        target,
    }))
}

/// How many codes the states have, without their bodies.
#[tactic(auto, using(crate::proofs::StateLists::state_lists))]
pub fn codes_in(states: &[StateTree]) -> Result<u64, OutOfMemory>
    ensures { IfOk result (λ n. n ≡ expansion.codes_in (tree.states_of states.now)) }
{
    let mut codes = 0;
    for state in states {
        codes = sum(codes, codes_of(state))?;
    }
    Ok(codes)
}

fn codes_of(state: &StateTree) -> u64
    ensures { result ≡ expansion.codes_of (tree.state_of state.now).head.timed }
{
    match &state.timed {
        Some(timed) => timed.count as u64,
        None => 1,
    }
}

// The sum. No tree whose parts add up to more than a `u64` fits in memory.
fn sum(a: u64, b: u64) -> Result<u64, OutOfMemory>
    ensures { IfOk result (λ s. s ≡ a + b) }
{
    match a.checked_add(b) {
        Some(sum) => Ok(sum),
        None => Err(OutOfMemory),
    }
}
