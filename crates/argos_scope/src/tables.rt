//! The tables of a component's names.
ghost use Rattle.std.specs.Prelude.{◌≡◌, ◌+◌, ◌<◌, ◌≤◌, ◌∷◌, [], ◌++◌, length, true, None, IfOk};
ghost use Rattle.argos_base.specs.Limits.{signal_limit};
ghost use Rattle.argos_base.specs.Names.{are_distinct, place_of};
ghost use Rattle.argos_grammar.specs.Views.{marks_of};
ghost use Rattle.argos_names.specs.Scope.{names_in};

use argos_base::{AddError, Name, NameTable, Names, OutOfMemory};
use argos_grammar::{ComponentTree, Spot};
use std::alloc::Global;

/// The names of the inputs and outputs of a component, none of which stands twice.
#[tactic(auto, using(crate::proofs::NameTables::name_tables))]
pub fn names_of(alloc: Global, component: &ComponentTree) -> Result<Names, OutOfMemory>
    requires distinct { are_distinct (names_in (marks_of component.now.inputs.items) ++ names_in (marks_of component.now.outputs.items)) ≡ true }
    requires few { length component.now.inputs.items + length component.now.outputs.items ≤ signal_limit }
    ensures inputs { IfOk result (λ n. n.inputs ≡ names_in (marks_of component.now.inputs.items)) }
    ensures outputs { IfOk result (λ n. n.outputs ≡ names_in (marks_of component.now.outputs.items)) }
{
    let inputs = table_of(alloc, &component.inputs)?;
    let outputs = table_of(alloc, &component.outputs)?;
    Ok(Names { inputs, outputs })
}

// A table of these names, none of which stands twice.
#[tactic(auto, using(crate::proofs::NameTables::name_tables))]
fn table_of(alloc: Global, spots: &[Spot]) -> Result<NameTable, OutOfMemory>
    requires distinct { are_distinct (names_in (marks_of spots.now)) ≡ true }
    requires few { length spots.now ≤ signal_limit }
    ensures { IfOk result (λ t. t ≡ names_in (marks_of spots.now)) }
{
    let mut table = NameTable::new(alloc);
    for spot in spots {
        add(&mut table, spot.name)?;
    }
    Ok(table)
}

// Adds a name that stands nowhere in the table.
fn add(table: &mut NameTable, name: Name) -> Result<(), OutOfMemory>
    requires few { length table.old < signal_limit }
    requires fresh { place_of table.old name ≡ None }
    ensures { IfOk result (λ _. table.new ≡ table.old ++ name ∷ []) }
{
    match table.add(name) {
        Ok(_) | Err(AddError::Duplicate(_)) => Ok(()),
        Err(AddError::OutOfMemory) => Err(OutOfMemory),
    }
}
