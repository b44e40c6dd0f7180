//! Sets of signals, as they are told.
ghost use Rattle.std.specs.Prelude.{◌≡◌, ◌++◌, IfOk};
ghost use Rattle.argos_base.specs.SignalSets.{has};
ghost use Rattle.argos_core.specs.ModuleViews.{module_of};
ghost use Rattle.argos_report.specs.Reports as reports;
ghost use Rattle.argos_report.specs.inner.Told.{names_behind};
ghost use Rattle.trace_io.specs.Lines.{set_text};
ghost use Rattle.trace_io.specs.Parts.{spaced};

use argos_base::{Name, NameTable, OutOfMemory, Signals};
use argos_core::Module;
use std::alloc::Global;

/// The names of all signals of a module, by number.
pub(crate) fn signal_names<'a>(
    alloc: Global,
    module: &'a Module,
) -> Result<Vec<&'a Name>, OutOfMemory>
    ensures { IfOk result (λ names. names_behind names.items ≡ reports.signal_names (module_of «module».now)) }
{
    let mut names = Vec::new(alloc);
    add_names(&mut names, &module.names.inputs)?;
    add_names(&mut names, &module.names.outputs)?;
    for local in &module.locals {
        names.push(local)?;
    }
    Ok(names)
}

/// The names of a table, by number.
pub(crate) fn table_names<'a>(
    alloc: Global,
    table: &'a NameTable,
) -> Result<Vec<&'a Name>, OutOfMemory>
    ensures { IfOk result (λ names. names_behind names.items ≡ table.now) }
{
    let mut names = Vec::new(alloc);
    add_names(&mut names, table)?;
    Ok(names)
}

fn add_names<'a>(names: &mut Vec<&'a Name>, table: &'a NameTable) -> Result<(), OutOfMemory>
    ensures { IfOk result (λ _. names_behind names.new.items ≡ names_behind names.old.items ++ table.now) }
{
    for k in 0..table.len() {
        if let Some(name) = table.get(k) {
            names.push(name)?;
        }
    }
    Ok(())
}

/// Appends the names that are present, by number, with one space between two, or a dash.
pub(crate) fn push_set(
    text: &mut Vec<u8>,
    set: &Signals,
    names: &[&Name],
) -> Result<(), OutOfMemory>
    ensures { IfOk result (λ _. text.new.items ≡ text.old.items ++ set_text set.now (names_behind names.now)) }
{
    let mut some = false;
    for (k, name) in names.iter().enumerate() {
        if is_present(set, k) {
            push_name(text, some, name)?;
            some = true;
        }
    }
    if !some {
        text.push(b'-')?;
    }
    Ok(())
}

// Whether the set has the number `k`.
fn is_present(set: &Signals, k: usize) -> bool
    ensures { result ≡ has set.now k }
{
    k < set.len() as usize && set.get(k as u32)
}

// Appends a name, after a space where another stands before it.
fn push_name(text: &mut Vec<u8>, after_another: bool, name: &Name) -> Result<(), OutOfMemory>
    ensures { IfOk result (λ _. text.new.items ≡ text.old.items ++ spaced after_another name.now) }
{
    if after_another {
        text.push(b' ')?;
    }
    text.extend_from_slice(name.bytes())?;
    Ok(())
}
