//! The rules on signals, and on the states that transitions go to.
ghost use Rattle.std.specs.Prelude.{◌≡◌, drop, length, map, option_map, flat_map, IfOk};
ghost use Rattle.argos_grammar.specs.Views.{mark_of, marks_of, guard_of, formulas_of, trans_of, timed_of};
ghost use Rattle.argos_names.specs.Scope.{reading, emitting, with_names, declaring, declared_as, sort_in, atoms, atoms_in, going, in_trans, in_timed};
ghost use Rattle.argos_names.specs.inner.Least.{least_after};
ghost use Rattle.argos_names.specs.inner.SortViews.{sort_of};

use crate::errors::NameRule;
use crate::least::Least;
use crate::scope::{Scope, Sort};
use argos_base::{Name, OutOfMemory};
use argos_grammar::{GuardTree, Spot, TimedTree, TransTree};
use indexmap::IndexSet;

/// A signal is read.
pub fn read(scope: &Scope, least: &mut Least, signal: &Spot)
    ensures { least.new ≡ least_after least.old (reading scope.now (mark_of signal.now)) }
{
    match scope.sort(&signal.name) {
        None => least.broken(NameRule::Unknown, signal),
        Some(Sort::Output) => least.broken(NameRule::NotReadable, signal),
        Some(_) => {}
    }
}

/// A signal is emitted.
pub fn emit(scope: &Scope, least: &mut Least, signal: &Spot)
    ensures { least.new ≡ least_after least.old (emitting scope.now (mark_of signal.now)) }
{
    match scope.sort(&signal.name) {
        None => least.broken(NameRule::Unknown, signal),
        Some(Sort::Input) => least.broken(NameRule::NotEmittable, signal),
        Some(_) => {}
    }
}

/// Signals are read.
#[tactic(auto, using(crate::proofs::Signals::signals))]
pub fn read_all(scope: &Scope, least: &mut Least, signals: &[Spot])
    ensures { least.new ≡ least_after least.old (flat_map (reading scope.now) (marks_of signals.now)) }
{
    for signal in signals {
        read(scope, least, signal);
    }
}

/// Signals are emitted.
#[tactic(auto, using(crate::proofs::Signals::signals))]
pub fn emit_all(scope: &Scope, least: &mut Least, signals: &[Spot])
    ensures { least.new ≡ least_after least.old (flat_map (emitting scope.now) (marks_of signals.now)) }
{
    for signal in signals {
        emit(scope, least, signal);
    }
}

/// Signals of this sort come into scope.
#[tactic(auto, using(crate::proofs::Signals::declarations))]
pub fn declare_all(
    scope: &mut Scope,
    least: &mut Least,
    sort: Sort,
    signals: &[Spot],
) -> Result<(), OutOfMemory>
    ensures scope { IfOk result (λ _. scope.new ≡ with_names (sort_of sort) (marks_of signals.now) scope.old) }
    ensures least { IfOk result (λ _. least.new ≡ least_after least.old (declaring (sort_of sort) (marks_of signals.now) scope.old)) }
{
    for signal in signals {
        declare(scope, least, signal);
        scope.declare(signal.name, sort)?;
    }
    Ok(())
}

// A signal is about to come into scope.
fn declare(scope: &Scope, least: &mut Least, signal: &Spot)
    ensures { least.new ≡ least_after least.old (declared_as (sort_in scope.now signal.now.name) (mark_of signal.now)) }
{
    if scope.sort(&signal.name).is_some() {
        least.broken(NameRule::Duplicate, signal);
    }
}

/// As many signals leave the scope.
#[tactic(auto, using(crate::proofs::Signals::declarations))]
pub fn leave_all(scope: &mut Scope, signals: &[Spot]) -> Result<(), OutOfMemory>
    ensures { IfOk result (λ _. scope.new ≡ drop (length signals.now) scope.old) }
{
    for _signal in signals {
        scope.leave()?;
    }
    Ok(())
}

// The signals of a guard are read.
#[cycle(guard)]
#[tactic(auto, using(crate::proofs::Signals::signals))]
fn read_guard(scope: &Scope, least: &mut Least, guard: &GuardTree)
    ensures { least.new ≡ least_after least.old (flat_map (reading scope.now) (atoms (guard_of guard.now))) }
{
    match guard {
        GuardTree::True | GuardTree::False => {}
        GuardTree::Sig(signal) => read(scope, least, signal),
        GuardTree::Not(guard) => read_guard(scope, least, guard),
        GuardTree::All(guards) => read_guards(scope, least, guards),
        GuardTree::Any(guards) => read_guards(scope, least, guards),
    }
}

// The signals of guards are read.
#[cycle(guard)]
#[tactic(auto, using(crate::proofs::Signals::signals))]
fn read_guards(scope: &Scope, least: &mut Least, guards: &[GuardTree])
    ensures { least.new ≡ least_after least.old (flat_map (reading scope.now) (atoms_in (formulas_of (map guard_of guards.now)))) }
{
    for guard in guards {
        read_guard(scope, least, guard);
    }
}

// A transition goes to a state, among these names of states.
fn go(least: &mut Least, names: &IndexSet<Name>, target: &Spot)
    ensures { least.new ≡ least_after least.old (going names.now.keys (mark_of target.now)) }
{
    least.broken_unless(names.contains(&target.name), NameRule::Unknown, target);
}

/// Transitions of a state, among these names of states.
#[tactic(auto, using(crate::proofs::Signals::signals))]
pub fn transitions(
    scope: &Scope,
    least: &mut Least,
    names: &IndexSet<Name>,
    transitions: &[TransTree],
)
    ensures { least.new ≡ least_after least.old (flat_map (in_trans scope.now names.now.keys) (map trans_of transitions.now)) }
{
    for trans in transitions {
        transition(scope, least, names, trans);
    }
}

// A transition.
#[tactic(auto, using(crate::proofs::Signals::signals))]
fn transition(scope: &Scope, least: &mut Least, names: &IndexSet<Name>, transition: &TransTree)
    ensures { least.new ≡ least_after least.old (in_trans scope.now names.now.keys (trans_of transition.now)) }
{
    read_guard(scope, least, &transition.guard);
    emit_all(scope, least, &transition.outs);
    go(least, names, &transition.target);
}

/// A timeout, if there is one.
#[tactic(auto, using(crate::proofs::Signals::signals))]
pub fn timeout(
    scope: &Scope,
    least: &mut Least,
    names: &IndexSet<Name>,
    timeout: &Option<TimedTree>,
)
    ensures { least.new ≡ least_after least.old (in_timed scope.now names.now.keys (option_map timed_of timeout.now)) }
{
    let Some(timed) = timeout else {
        return;
    };
    read(scope, least, &timed.signal);
    emit_all(scope, least, &timed.outs);
    go(least, names, &timed.target);
}
