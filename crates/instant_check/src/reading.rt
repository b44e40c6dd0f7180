// Which signals the guards of a state read.
ghost use Rattle.std.specs.Prelude.{◌≡◌, ◌≤◌, map, length, IfOk};
ghost use Rattle.std.specs.List.{filter, range_with_len};
ghost use Rattle.argos_base.specs.SignalSets.{has};
ghost use Rattle.argos_core.specs.Guards as meaning;
ghost use Rattle.argos_core.specs.Overlaps.{some_reads};
ghost use Rattle.argos_core.specs.Views.{guard_of, guards_of, transition_of, numbers};
ghost use Rattle.instant_check.specs.Reading.{signals_read};
ghost use Rattle.instant_check.specs.inner.Marking.{IsMarked};

use argos_base::{OutOfMemory, SigId, Signals};
use argos_core::{Guard, Trans};
use std::alloc::Global;

/// The signals below `count` that the guards of a state's transitions read, by number, each once.
pub fn read_signals(
    alloc: Global,
    transitions: &[Trans],
    count: u32,
) -> Result<Vec<SigId>, OutOfMemory>
    ensures { IfOk result (λ signals. numbers signals.items ≡ signals_read count (map transition_of transitions.now)) }
{
    let mut read = Signals::new(alloc, count)?;
    mark_transitions(transitions, &mut read);
    members(alloc, &read)
}

// Puts the signals that the guards of the transitions read into the set, as far as it has places for them.
#[tactic(auto, using(crate::proofs::ReadLists::read_lists))]
fn mark_transitions(transitions: &[Trans], read: &mut Signals)
    ensures { IsMarked (some_reads (map transition_of transitions.now)) read.old read.new }
{
    for transition in transitions {
        mark_guard(&transition.guard, read);
    }
}

#[cycle(marking)]
fn mark_guard(guard: &Guard, read: &mut Signals)
    ensures { IsMarked (meaning.reads (guard_of guard.now)) read.old read.new }
{
    match guard {
        Guard::True | Guard::False => {}
        Guard::Sig(signal) => {
            if signal.0 < read.len() {
                read.set(signal.0, true);
            }
        }
        Guard::Not(operand) => mark_guard(operand, read),
        Guard::All(operands) | Guard::Any(operands) => mark_guards(operands, read),
    }
}

#[cycle(marking)]
#[tactic(auto, using(crate::proofs::ReadLists::read_lists))]
fn mark_guards(guards: &[Guard], read: &mut Signals)
    ensures { IsMarked (meaning.reads_some (guards_of (map guard_of guards.now))) read.old read.new }
{
    for guard in guards {
        mark_guard(guard, read);
    }
}

// The numbers that the set has.
fn members(alloc: Global, set: &Signals) -> Result<Vec<SigId>, OutOfMemory>
    ensures { IfOk result (λ signals. numbers signals.items ≡ filter (has set.now) (range_with_len 0 (length set.now))) }
{
    let mut signals = Vec::new(alloc);
    for number in 0..set.len() {
        if set.get(number) {
            signals.push(SigId(number))?;
        }
    }
    Ok(signals)
}
