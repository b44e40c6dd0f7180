//! States and memories, as they are told.
ghost use Rattle.std.specs.Prelude.{◌≡◌, ◌++◌, IfOk, map, slice_get, nat_lt};
ghost use Rattle.argos_core.specs.Automata.{rules_of};
ghost use Rattle.argos_core.specs.Automata as automata;
ghost use Rattle.argos_core.specs.ModuleViews.{module_of};
ghost use Rattle.argos_core.specs.Views.{state_of, states_of};
ghost use Rattle.argos_report.specs.States.{name_in, state_name, elapsed_text, state_text, code_text, memory_text};
ghost use Rattle.argos_report.specs.inner.Told.{item_text};
ghost use Rattle.trace_io.specs.Parts.{spaced};

use crate::texts::push_number;
use argos_base::{OutOfMemory, RegId};
use argos_core::{Module, State};
use argos_states::automata_of;
use std::alloc::Global;

/// Appends the name of the state with this number of the automaton with this register.
pub(crate) fn push_state_name(
    alloc: Global,
    text: &mut Vec<u8>,
    module: &Module,
    register: RegId,
    number: u16,
) -> Result<(), OutOfMemory>
    ensures { IfOk result (λ _. text.new.items ≡ text.old.items ++ state_name (module_of «module».now) register.0 number) }
{
    let automata = automata_of(alloc, &module.prog)?;
    match automata.get(register.0 as usize) {
        Some(states) => push_name(text, states, number),
        None => Ok(()),
    }
}

// The name of one of these states, where it is there.
fn push_name(text: &mut Vec<u8>, states: &[State], number: u16) -> Result<(), OutOfMemory>
    ensures { IfOk result (λ _. text.new.items ≡ text.old.items ++ name_in (slice_get (rules_of (states_of (map state_of states.now))) number)) }
{
    match states.get(number as usize) {
        Some(state) => Ok(text.extend_from_slice(state.name.bytes())?),
        None => Ok(()),
    }
}

/// Appends an item for each register, with one space between two: the state that its code says, or a dash where it is off.
pub(crate) fn push_memory(
    alloc: Global,
    text: &mut Vec<u8>,
    module: &Module,
    memory: &[u16],
) -> Result<(), OutOfMemory>
    ensures { IfOk result (λ _. text.new.items ≡ text.old.items ++ memory_text (module_of «module».now) memory.now) }
{
    let automata = automata_of(alloc, &module.prog)?;
    for (register, states) in automata.iter().enumerate() {
        if let Some(code) = memory.get(register) {
            push_item(text, register, states, *code)?;
        }
    }
    Ok(())
}

// What a code says of the automaton with this register, after a space where another stands before it.
fn push_item(
    text: &mut Vec<u8>,
    register: usize,
    states: &[State],
    code: u16,
) -> Result<(), OutOfMemory>
    ensures { IfOk result (λ _. text.new.items ≡ text.old.items ++ spaced (nat_lt 0 register) (item_text register (states_of (map state_of states.now)) code)) }
{
    if register > 0 {
        text.push(b' ')?;
    }
    text.push(b'r')?;
    push_number(text, register as u64)?;
    text.push(b'=')?;
    push_code(text, states, code)
}

// What a code says of an automaton with these states.
fn push_code(text: &mut Vec<u8>, states: &[State], code: u16) -> Result<(), OutOfMemory>
    ensures { IfOk result (λ _. text.new.items ≡ text.old.items ++ code_text (states_of (map state_of states.now)) code) }
{
    if code == 0 {
        text.push(b'-')?;
        return Ok(());
    }
    push_state(text, states, code - 1)
}

// The state whose codes have this one among them, where the first code of all is 0.
fn push_state(text: &mut Vec<u8>, states: &[State], code: u16) -> Result<(), OutOfMemory>
    ensures { IfOk result (λ _. text.new.items ≡ text.old.items ++ state_text (states_of (map state_of states.now)) code) }
{
    let mut left = code;
    for state in states {
        let count = counts_of(state);
        if left < count {
            return push_elapsed(text, state, left);
        }
        left -= count;
    }
    Ok(())
}

// How many codes a state has.
fn counts_of(state: &State) -> u16
    ensures { result ≡ automata.counts_of (state_of state.now).rules.timeout }
{
    match &state.timed {
        Some(timed) => timed.count,
        None => 1,
    }
}

// The name of a state, and its elapsed count where it is timed.
fn push_elapsed(text: &mut Vec<u8>, state: &State, elapsed: u16) -> Result<(), OutOfMemory>
    ensures { IfOk result (λ _. text.new.items ≡ text.old.items ++ ((state_of state.now).rules.name ++ elapsed_text (state_of state.now).rules.timeout elapsed)) }
{
    text.extend_from_slice(state.name.bytes())?;
    if state.timed.is_some() {
        text.push(b'+')?;
        push_number(text, u64::from(elapsed))?;
    }
    Ok(())
}
