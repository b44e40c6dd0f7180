//! Names in order, and the first place of each.
ghost use Rattle.std.specs.Prelude.{◌≡◌, ℕ, List, IfOk, bytes_eq};
ghost use Rattle.std.specs.List.{position_or_len};
ghost use Rattle.indexmap.specs.IndexMap.{get};
ghost use Rattle.argos_expansion.specs.inner.FirstPlaces.{first_place, first_or, AreFirst};

use argos_base::{Name, OutOfMemory};
use indexmap::IndexMap;
use std::alloc::Global;

/// Names in order, and the place of the first of those that are the same.
#[derive(Debug, Drop)]
pub struct FirstNames {
    pub names: Vec<Name>,
    firsts: IndexMap<Name, usize>,
    ghost kept: { AreFirst names.items firsts },
}

impl FirstNames {
    /// These names.
    pub fn new(alloc: Global, names: Vec<Name>) -> Result<FirstNames, OutOfMemory>
        ensures { IfOk result (λ n. n.names.items ≡ names.items) }
    {
        let firsts = firsts_of(alloc, &names)?;
        Ok(FirstNames { names, firsts })
    }

    /// The place of the first name that is the same.
    pub fn first(&self, name: &Name) -> Option<usize>
        ensures { result ≡ first_place name.now self.now.names.items }
    {
        self.firsts.get(name).copied()
    }

    /// The place of the first name that is the same, or how many names there are.
    #[tactic(auto, using(crate::proofs::FirstPlaces::first_places))]
    pub fn place(&self, name: &Name) -> usize
        ensures { result ≡ position_or_len (bytes_eq name.now) self.now.names.items }
    {
        match self.firsts.get(name) {
            Some(place) => *place,
            None => self.names.len(),
        }
    }
}

// The place of the first of the names that is the same, for each.
#[tactic(auto, using(crate::proofs::FirstPlaces::first_places))]
fn firsts_of(alloc: Global, names: &[Name]) -> Result<IndexMap<Name, usize>, OutOfMemory>
    ensures { IfOk result (λ m. AreFirst names.now m) }
{
    let mut firsts = IndexMap::new(alloc);
    for (k, name) in names.iter().enumerate() {
        note(&mut firsts, *name, k)?;
    }
    Ok(firsts)
}

// The name stands at this place, and maybe at places before.
fn note(firsts: &mut IndexMap<Name, usize>, name: Name, place: usize) -> Result<(), OutOfMemory>
    ensures { IfOk result (λ _. (q : List ℕ) → get bytes_eq firsts.new q ≡ first_or (get bytes_eq firsts.old q) (bytes_eq name q) place) }
{
    if firsts.get(&name).is_none() {
        firsts.insert(name, place)?;
    }
    Ok(())
}
