//! Sets of signals that are told by their names.
ghost use Rattle.std.specs.Prelude.{◌≡◌, [], ◌∷◌, ◌++◌, length, map, List, IfOk};
ghost use Rattle.argos_base.specs.Names.{AreDistinct};
ghost use Rattle.argos_grammar.specs.Forms.{Mark};
ghost use Rattle.argos_grammar.specs.Views.{mark_of, marks_of, set_of};
ghost use Rattle.pointcuts.specs.Pointcuts.{told};

use argos_base::{NameTable, OutOfMemory, Signals};
use argos_grammar::Spot;
use std::alloc::Global;

/// The set of those of the names that are told.
#[tactic(auto, using(crate::proofs::ToldSets::told_sets))]
pub fn told_set(alloc: Global, names: &NameTable, spots: &[Spot]) -> Result<Signals, OutOfMemory>
    ensures { IfOk result (λ s. s ≡ told names.now (marks_of spots.now)) }
{
    let mut set = Signals::new(alloc, names.len())?;
    for spot in spots {
        tell(names, &mut set, spot);
    }
    Ok(set)
}

// One more name is told, which counts where it is one of the names.
fn tell(names: &NameTable, set: &mut Signals, spot: &Spot)
    requires sized { length set.old ≡ length names.now }
    requires distinct { AreDistinct names.now }
    ensures { (ms : List Mark) → set.old ≡ told names.now ms → set.new ≡ told names.now (ms ++ mark_of spot.now ∷ []) }
{
    match names.find(spot.name.bytes()) {
        Some(k) => set.set(k.0, true),
        None => {}
    }
}

/// The sets of those of the names that are told in each of these lists.
#[tactic(auto, using(crate::proofs::ToldSets::told_sets))]
pub fn told_sets(
    alloc: Global,
    names: &NameTable,
    lists: &[Vec<Spot>],
) -> Result<Vec<Signals>, OutOfMemory>
    ensures { IfOk result (λ sets. sets.items ≡ map (told names.now) (map set_of lists.now)) }
{
    let mut sets = Vec::new(alloc);
    for list in lists {
        sets.push(told_set(alloc, names, list)?)?;
    }
    Ok(sets)
}
