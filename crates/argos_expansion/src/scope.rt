//! The names in scope, with their places.
ghost use Rattle.std.specs.Prelude.{◌≡◌, [], ◌∷◌, drop, IfOk};
ghost use Rattle.argos_expansion.specs.Expansion.{number_in};

use argos_base::{Name, OutOfMemory};
use indexmap::IndexMap;
use std::alloc::Global;
use std::marker::Model;

/// A name that came into scope with its place, and the place that the name had before, or 0.
#[derive(Clone, Copy, Debug)]
pub struct Declared {
    pub name: Name,
    pub place: u32,
    pub hidden: u32,
}

/// The names in scope with their places, seen as a list: the innermost first. A name that isn't in scope has the place 0.
#[derive(Debug, Drop)]
pub struct Scope {
    declared: Vec<Declared>,
    places: IndexMap<Name, u32>,
}

impl Model for Scope {
    ghost use Rattle.std.specs.Prelude.{[]};
    ghost use Rattle.argos_expansion.specs.Expansion.{Numbers};
    ghost use Rattle.argos_expansion.specs.inner.ScopeViews.{scope_from, IsKept};

    ghost Value = { Numbers };

    ghost view = { λ s. scope_from s.declared.items [] };

    ghost invariant = { λ s. IsKept s.declared.items s.places };
}

impl Scope {
    /// No names.
    pub fn new(alloc: Global) -> Scope
        ensures { result ≡ [] }
    {
        Scope {
            declared: Vec::new(alloc),
            places: IndexMap::new(alloc),
        }
    }

    /// The place of the name.
    #[tactic(auto, using(crate::proofs::Scopes::scopes))]
    pub fn place(&self, name: &Name) -> u32
        ensures { result ≡ number_in self.now name.now }
    {
        self.places.get(name).copied().unwrap_or(0)
    }

    /// A name comes into scope.
    #[tactic(auto, using(crate::proofs::Scopes::scopes))]
    pub fn declare(&mut self, name: Name, place: u32) -> Result<(), OutOfMemory>
        ensures { IfOk result (λ _. self.new ≡ (name, place) ∷ self.old) }
    {
        let hidden = self.place(&name);
        self.declared.push(Declared {
            name,
            place,
            hidden,
        })?;
        match self.places.insert(name, place) {
            Ok(_) => Ok(()),
            Err(_) => {
                self.declared.pop();
                Err(OutOfMemory)
            }
        }
    }

    /// The innermost name leaves the scope.
    #[tactic(auto, using(crate::proofs::Scopes::scopes))]
    pub fn leave(&mut self) -> Result<(), OutOfMemory>
        ensures { IfOk result (λ _. self.new ≡ drop 1 self.old) }
    {
        let Some(last) = self.declared.as_slice().last() else {
            return Ok(());
        };
        let last = *last;
        self.places.insert(last.name, last.hidden)?;
        self.declared.pop();
        Ok(())
    }
}
