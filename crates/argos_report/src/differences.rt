//! The texts of an equivalence that is refused.
ghost use Rattle.std.specs.Prelude.{◌≡◌, ◌++◌, IfOk};
ghost use Rattle.argos_core.specs.ModuleViews.{module_of};
ghost use Rattle.argos_report.specs.Differences as differences;

use crate::sets::{push_set, table_names};
use crate::states::push_memory;
use argos_base::{Name, OutOfMemory, Signals};
use argos_core::Module;
use std::alloc::Global;

/// At the memories of the left and the right module, which are related, their outputs differ on this name where they read this input.
pub fn outputs_differ_text(
    alloc: Global,
    left: &Module,
    right: &Module,
    memories: (&[u16], &[u16]),
    input: &Signals,
    name: &Name,
) -> Result<Vec<u8>, OutOfMemory>
    ensures { IfOk result (λ text. text.items ≡ differences.outputs_differ_text (module_of left.now) (module_of right.now) memories.entry.0.now memories.entry.1.now input.now name.now) }
{
    let mut text = Vec::from_slice(alloc, b"no: outputs differ on ")?;
    text.extend_from_slice(name.bytes())?;
    text.push(b'\n')?;
    push_sides(alloc, &mut text, left, right, memories, input)?;
    Ok(text)
}

/// From the memories of the left and the right module, which are related, a step on this input leads to memories that aren't.
pub fn left_by_step_text(
    alloc: Global,
    left: &Module,
    right: &Module,
    memories: (&[u16], &[u16]),
    input: &Signals,
) -> Result<Vec<u8>, OutOfMemory>
    ensures { IfOk result (λ text. text.items ≡ differences.left_by_step_text (module_of left.now) (module_of right.now) memories.entry.0.now memories.entry.1.now input.now) }
{
    let mut text = Vec::from_slice(alloc, b"no: related pair left by a step\n")?;
    push_sides(alloc, &mut text, left, right, memories, input)?;
    Ok(text)
}

// Appends the lines of both memories and of the input, which is told by the left module's names.
fn push_sides(
    alloc: Global,
    text: &mut Vec<u8>,
    left: &Module,
    right: &Module,
    memories: (&[u16], &[u16]),
    input: &Signals,
) -> Result<(), OutOfMemory>
    ensures { IfOk result (λ _. text.new.items ≡ text.old.items ++ differences.sides_text (module_of left.now) (module_of right.now) memories.entry.0.now memories.entry.1.now input.now) }
{
    let inputs = table_names(alloc, &left.names.inputs)?;
    text.extend_from_slice(b"left ")?;
    push_memory(alloc, text, left, memories.0)?;
    text.extend_from_slice(b"\nright ")?;
    push_memory(alloc, text, right, memories.1)?;
    text.extend_from_slice(b"\ninput ")?;
    push_set(text, input, &inputs)?;
    text.push(b'\n')?;
    Ok(())
}
