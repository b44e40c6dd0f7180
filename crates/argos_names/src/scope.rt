//! The names in scope.
ghost use Rattle.std.specs.Prelude.{◌≡◌, [], ◌∷◌, ◌<◌, length, drop, option_map, IfOk};
ghost use Rattle.argos_names.specs.Scope.{sort_in};
ghost use Rattle.argos_names.specs.inner.SortViews.{sort_of};

use argos_base::{Name, OutOfMemory};
use indexmap::IndexMap;
use std::alloc::Global;
use std::marker::Model;

/// What a signal is where it is in scope.
#[derive(Clone, Copy, Debug)]
pub enum Sort {
    Input,
    Output,
    Inner,
}

/// A name that came into scope, and what it was before.
#[derive(Clone, Copy, Debug)]
pub struct Declared {
    pub name: Name,
    pub sort: Sort,
    pub hidden: Option<Sort>,
}

/// The names in scope with their sorts, seen as a list: the innermost first.
#[derive(Debug, Drop)]
pub struct Scope {
    declared: Vec<Declared>,
    sorts: IndexMap<Name, Option<Sort>>,
}

impl Model for Scope {
    ghost use Rattle.std.specs.Prelude.{[]};
    ghost use Rattle.argos_names.specs.Scope as scope;
    ghost use Rattle.argos_names.specs.inner.ScopeViews.{scope_from, IsKept};

    ghost Value = { scope.Scope };

    ghost view = { λ s. scope_from s.declared.items [] };

    ghost invariant = { λ s. IsKept s.declared.items s.sorts };
}

impl Scope {
    /// No names.
    pub fn new(alloc: Global) -> Scope
        ensures { result ≡ [] }
    {
        Scope {
            declared: Vec::new(alloc),
            sorts: IndexMap::new(alloc),
        }
    }

    /// What the name is here.
    #[tactic(auto, using(crate::proofs::Scopes::scopes))]
    pub fn sort(&self, name: &Name) -> Option<Sort>
        ensures { option_map sort_of result ≡ sort_in self.now name.now }
    {
        *self.sorts.get(name)?
    }

    /// A name comes into scope.
    #[tactic(auto, using(crate::proofs::Scopes::scopes))]
    pub fn declare(&mut self, name: Name, sort: Sort) -> Result<(), OutOfMemory>
        ensures { IfOk result (λ _. self.new ≡ (name, sort_of sort) ∷ self.old) }
    {
        let hidden = self.sort(&name);
        self.declared.push(Declared { name, sort, hidden })?;
        match self.sorts.insert(name, Some(sort)) {
            Ok(_) => Ok(()),
            Err(_) => {
                self.declared.pop();
                Err(OutOfMemory)
            }
        }
    }

    /// The innermost name leaves the scope.
    #[tactic(auto, using(crate::proofs::Scopes::scopes))]
    pub fn leave(&mut self) -> Result<(), OutOfMemory>
        ensures { IfOk result (λ _. self.new ≡ drop 1 self.old) }
    {
        let Some(last) = self.declared.as_slice().last() else {
            return Ok(());
        };
        let last = *last;
        self.sorts.insert(last.name, last.hidden)?;
        self.declared.pop();
        Ok(())
    }
}
