ghost use Rattle.std.specs.Prelude.{◌≡◌, ◌+◌, ◌<◌, ◌++◌, [], ◌∷◌, length, take, None, IfOk};
ghost use Rattle.argos_base.specs.Limits.{signal_limit};
ghost use Rattle.argos_base.specs.Names.{IsTable, place_of};
ghost use Rattle.line_format.specs.FileNames.{names_of};

use argos_base::{AddError, Name, NameTable, Names, OutOfMemory};
use std::alloc::Global;

/// The same names.
pub fn copy_names(alloc: Global, names: &Names) -> Result<Names, OutOfMemory>
    ensures names { IfOk result (λ n. names_of n ≡ names_of names.now) }
    ensures inputs { IfOk result (λ _. IsTable names.now.inputs) }
    ensures outputs { IfOk result (λ _. IsTable names.now.outputs) }
{
    let inputs = copy_table(alloc, &names.inputs)?;
    let outputs = copy_table(alloc, &names.outputs)?;
    Ok(Names { inputs, outputs })
}

// A table of the same names.
fn copy_table(alloc: Global, names: &NameTable) -> Result<NameTable, OutOfMemory>
    ensures same { IfOk result (λ t. t ≡ names.now) }
    ensures kept { IsTable names.now }
{
    let mut table = NameTable::new(alloc);
    for k in 0..names.len() {
        copy_name(&mut table, names, k)?;
    }
    Ok(table)
}

// Appends the name with a number to those before it.
fn copy_name(table: &mut NameTable, names: &NameTable, k: u32) -> Result<(), OutOfMemory>
    requires exists { k < length names.now }
    requires kept { IsTable names.now }
    requires before { table.old ≡ take k names.now }
    ensures { IfOk result (λ _. table.new ≡ take (k + 1) names.now) }
{
    match names.get(k) {
        Some(name) => add(table, *name),
        None => Ok(()),
    }
}

// Adds a name that stands nowhere in the table.
fn add(table: &mut NameTable, name: Name) -> Result<(), OutOfMemory>
    requires few { length table.old < signal_limit }
    requires fresh { place_of table.old name ≡ None }
    ensures { IfOk result (λ _. table.new ≡ table.old ++ name ∷ []) }
{
    match table.add(name) {
        Ok(_) | Err(AddError::Duplicate(_)) => Ok(()),
        Err(AddError::OutOfMemory) => Err(OutOfMemory),
    }
}
