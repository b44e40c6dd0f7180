//! What guards say of sets of signals.
ghost use Rattle.std.specs.Prelude.{◌≡◌, map};
ghost use Rattle.argos_base.specs.SignalSets.{has};
ghost use Rattle.argos_core.specs.Guards as meaning;
ghost use Rattle.argos_core.specs.Views.{guard_of, guards_of};

use crate::prog::Guard;
use argos_base::{SigId, Signals};

/// Whether the guard holds where these signals are present. A signal beyond the set's length is absent.
#[cycle(holds)]
pub fn holds(guard: &Guard, present: &Signals) -> bool
    ensures { result ≡ meaning.holds (guard_of guard.now) present.now }
{
    match guard {
        Guard::True => true,
        Guard::False => false,
        Guard::Sig(signal) => is_present(*signal, present),
        Guard::Not(operand) => !holds(operand, present),
        Guard::All(operands) => all_hold(operands, present),
        Guard::Any(operands) => any_holds(operands, present),
    }
}

#[cycle(holds)]
#[tactic(auto, using(crate::proofs::GuardLists::guard_lists))]
fn all_hold(guards: &[Guard], present: &Signals) -> bool
    ensures { result ≡ meaning.every (guards_of (map guard_of guards.now)) present.now }
{
    for guard in guards {
        if !holds(guard, present) {
            return false;
        }
    }
    true
}

#[cycle(holds)]
#[tactic(auto, using(crate::proofs::GuardLists::guard_lists))]
fn any_holds(guards: &[Guard], present: &Signals) -> bool
    ensures { result ≡ meaning.some (guards_of (map guard_of guards.now)) present.now }
{
    for guard in guards {
        if holds(guard, present) {
            return true;
        }
    }
    false
}

fn is_present(signal: SigId, present: &Signals) -> bool
    ensures { result ≡ has present.now signal.0 }
{
    signal.0 < present.len() && present.get(signal.0)
}

/// Whether the guard reads the signal.
#[cycle(reads)]
pub fn reads(guard: &Guard, signal: SigId) -> bool
    ensures { result ≡ meaning.reads (guard_of guard.now) signal.0 }
{
    match guard {
        Guard::True | Guard::False => false,
        Guard::Sig(own) => *own == signal,
        Guard::Not(operand) => reads(operand, signal),
        Guard::All(operands) | Guard::Any(operands) => any_reads(operands, signal),
    }
}

#[cycle(reads)]
#[tactic(auto, using(crate::proofs::GuardLists::guard_lists))]
fn any_reads(guards: &[Guard], signal: SigId) -> bool
    ensures { result ≡ meaning.reads_some (guards_of (map guard_of guards.now)) signal.0 }
{
    for guard in guards {
        if reads(guard, signal) {
            return true;
        }
    }
    false
}
