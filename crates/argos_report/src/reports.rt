//! The reports of modules that aren't accepted.
ghost use Rattle.std.specs.Prelude.{◌≡◌, ◌++◌, IfOk};
ghost use Rattle.argos_base.specs.Machines.{no_reaction, several};
ghost use Rattle.argos_core.specs.ModuleViews.{module_of};
ghost use Rattle.argos_report.specs.Reports.{IsReport};
ghost use Rattle.argos_report.specs.Reports as reports;
ghost use Rattle.argos_report.specs.Texts.{line};
ghost use Rattle.argos_verdict.specs.Answers.{IsRefused};
ghost use Rattle.instant_verdict.specs.Verdicts.{coded};

use crate::sets::{push_set, signal_names, table_names};
use crate::states::{push_memory, push_state_name};
use crate::texts::{file_line, push_number};
use argos_base::{OutOfMemory, RegId, Signals};
use argos_core::Module;
use argos_verdict::AcceptError;
use instant_verdict::Reaction;
use std::alloc::Global;

/// The report of file `number`, whose module isn't accepted for this reason within `budget` nodes.
pub fn report_text(
    alloc: Global,
    number: u8,
    module: &Module,
    budget: u32,
    error: &AcceptError,
) -> Result<Vec<u8>, OutOfMemory>
    requires { IsRefused (module_of «module».now) budget error.now }
    ensures { IfOk result (λ text. IsReport number (module_of «module».now) budget error.now text.items) }
{
    text_of(alloc, number, module, budget, error)
}

// The same, whether or not the module has what the reason tells of: what isn't there has an empty text.
pub(crate) fn text_of(
    alloc: Global,
    number: u8,
    module: &Module,
    budget: u32,
    error: &AcceptError,
) -> Result<Vec<u8>, OutOfMemory>
    ensures { IfOk result (λ text. IsReport number (module_of «module».now) budget error.now text.items) }
{
    match error {
        AcceptError::Overlap {
            reg,
            state,
            first,
            second,
            set,
        } => {
            let cause = overlap_cause(alloc, module, (*reg, *state), (*first, *second), set)?;
            file_line(alloc, b"refused: file ", number, &cause)
        }
        AcceptError::NoReaction { memory, input } => {
            no_reaction_text(alloc, number, module, memory, input)
        }
        AcceptError::Several {
            memory,
            input,
            first,
            second,
        } => several_text(alloc, number, module, memory, input, first, second),
        AcceptError::Variables(count) => variables_text(alloc, number, *count),
        AcceptError::Budget(_) => budget_text(alloc, budget),
        AcceptError::OutOfMemory => Err(OutOfMemory),
    }
}

// Two transitions of a state, which are counted from 0, hold on this set of signals.
fn overlap_cause(
    alloc: Global,
    module: &Module,
    state: (RegId, u16),
    places: (u32, u32),
    set: &Signals,
) -> Result<Vec<u8>, OutOfMemory>
    ensures { IfOk result (λ text. text.items ≡ reports.overlap_cause (module_of «module».now) state.0.0 state.1 places.0 places.1 set.now) }
{
    let (register, number) = state;
    let names = signal_names(alloc, module)?;
    let mut text = Vec::from_slice(alloc, b"overlap in r")?;
    push_number(&mut text, u64::from(register.0))?;
    text.extend_from_slice(b" state ")?;
    push_state_name(alloc, &mut text, module, register, number)?;
    text.extend_from_slice(b" of transitions ")?;
    push_number(&mut text, u64::from(places.0) + 1)?;
    text.extend_from_slice(b" and ")?;
    push_number(&mut text, u64::from(places.1) + 1)?;
    text.extend_from_slice(b" at ")?;
    push_set(&mut text, set, &names)?;
    Ok(text)
}

fn variables_text(alloc: Global, number: u8, count: u32) -> Result<Vec<u8>, OutOfMemory>
    ensures { IfOk result (λ text. text.items ≡ reports.variables_text number count) }
{
    let mut cause = Vec::new(alloc);
    push_number(&mut cause, u64::from(count))?;
    cause.extend_from_slice(b" variables")?;
    file_line(alloc, b"refused: file ", number, &cause)
}

fn budget_text(alloc: Global, budget: u32) -> Result<Vec<u8>, OutOfMemory>
    ensures { IfOk result (λ text. text.items ≡ reports.budget_text budget) }
{
    let mut text = Vec::from_slice(alloc, b"budget: ")?;
    push_number(&mut text, u64::from(budget))?;
    text.extend_from_slice(b" nodes\n")?;
    Ok(text)
}

fn no_reaction_text(
    alloc: Global,
    number: u8,
    module: &Module,
    memory: &[u16],
    input: &Signals,
) -> Result<Vec<u8>, OutOfMemory>
    ensures { IfOk result (λ text. text.items ≡ reports.bad_case_text number (module_of «module».now) memory.now input.now no_reaction) }
{
    let mut text = file_line(alloc, b"no: file ", number, b"no reaction")?;
    push_case(alloc, &mut text, module, memory, input)?;
    Ok(text)
}

fn several_text(
    alloc: Global,
    number: u8,
    module: &Module,
    memory: &[u16],
    input: &Signals,
    first: &Reaction,
    second: &Reaction,
) -> Result<Vec<u8>, OutOfMemory>
    ensures { IfOk result (λ text. text.items ≡ reports.bad_case_text number (module_of «module».now) memory.now input.now (several (coded first.now) (coded second.now))) }
{
    let mut text = file_line(alloc, b"no: file ", number, b"several reactions")?;
    push_case(alloc, &mut text, module, memory, input)?;
    push_reaction(alloc, &mut text, b"first", module, first)?;
    push_reaction(alloc, &mut text, b"second", module, second)?;
    Ok(text)
}

// Appends the lines of the memory and the input of a case.
fn push_case(
    alloc: Global,
    text: &mut Vec<u8>,
    module: &Module,
    memory: &[u16],
    input: &Signals,
) -> Result<(), OutOfMemory>
    ensures { IfOk result (λ _. text.new.items ≡ text.old.items ++ reports.case_text (module_of «module».now) memory.now input.now) }
{
    let inputs = table_names(alloc, &module.names.inputs)?;
    text.extend_from_slice(b"memory ")?;
    push_memory(alloc, text, module, memory)?;
    text.extend_from_slice(b"\ninput ")?;
    push_set(text, input, &inputs)?;
    text.push(b'\n')?;
    Ok(())
}

// Appends the line of a reaction, with its outputs and its next memory.
fn push_reaction(
    alloc: Global,
    text: &mut Vec<u8>,
    which: &[u8],
    module: &Module,
    reaction: &Reaction,
) -> Result<(), OutOfMemory>
    ensures { IfOk result (λ _. text.new.items ≡ text.old.items ++ line (which.now ++ reports.reaction_text (module_of «module».now) (coded reaction.now))) }
{
    let outputs = table_names(alloc, &module.names.outputs)?;
    text.extend_from_slice(which)?;
    text.extend_from_slice(b" emit ")?;
    push_set(text, &reaction.outputs, &outputs)?;
    text.extend_from_slice(b" memory ")?;
    push_memory(alloc, text, module, &reaction.next)?;
    text.push(b'\n')?;
    Ok(())
}
