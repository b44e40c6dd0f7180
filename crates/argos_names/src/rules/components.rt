//! Components by name.
ghost use Rattle.std.specs.Prelude.{◌≡◌, ℕ, List, IfOk, bytes_eq, map};
ghost use Rattle.indexmap.specs.IndexMap.{get};
ghost use Rattle.argos_grammar.specs.Views.{component_of};
ghost use Rattle.argos_names.specs.inner.FirstPlaces.{first_place, first_or, AreFirst};

use argos_base::{Name, OutOfMemory};
use argos_grammar::ComponentTree;
use indexmap::IndexMap;
use std::alloc::Global;

/// All components, and the place of the first with each name.
#[derive(Debug, Drop)]
pub struct Components<'a> {
    pub all: &'a [ComponentTree],
    firsts: IndexMap<Name, usize>,
    ghost kept: { AreFirst (map component_of all.now) firsts },
}

impl<'a> Components<'a> {
    /// These components.
    pub fn new(alloc: Global, all: &'a [ComponentTree]) -> Result<Components<'a>, OutOfMemory>
        ensures { IfOk result (λ c. c.all.now ≡ all.now) }
    {
        let firsts = firsts_of(alloc, all)?;
        Ok(Components { all, firsts })
    }

    /// The place of the first component with the name.
    #[tactic(auto, using(crate::proofs::Components::lookups))]
    pub fn first(&self, name: &Name) -> Option<usize>
        ensures { result ≡ first_place name.now (map component_of self.now.all.now) }
    {
        self.firsts.get(name).copied()
    }
}

// The place of the first component with each name.
#[tactic(auto, using(crate::proofs::Components::lookups))]
fn firsts_of(alloc: Global, all: &[ComponentTree]) -> Result<IndexMap<Name, usize>, OutOfMemory>
    ensures { IfOk result (λ m. AreFirst (map component_of all.now) m) }
{
    let mut firsts = IndexMap::new(alloc);
    for (k, component) in all.iter().enumerate() {
        note(&mut firsts, component.name.name, k)?;
    }
    Ok(firsts)
}

// The name stands at this place, and maybe at places before.
fn note(firsts: &mut IndexMap<Name, usize>, name: Name, place: usize) -> Result<(), OutOfMemory>
    ensures { IfOk result (λ _. (q : List ℕ) → get bytes_eq firsts.new q ≡ first_or (get bytes_eq firsts.old q) (bytes_eq name q) place) }
{
    if firsts.get(&name).is_none() {
        firsts.insert(name, place)?;
    }
    Ok(())
}
