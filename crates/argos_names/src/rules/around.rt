//! The components around a process.
ghost use Rattle.std.specs.Prelude.{◌≡◌, map, option_map};
ghost use Rattle.argos_base.specs.Spelling.{is_one_of};
ghost use Rattle.argos_grammar.specs.Views.{component_of};
ghost use Rattle.argos_names.specs.Scope.{named};
ghost use Rattle.argos_names.specs.inner.AroundViews.{around_of};

use crate::rules::components::Components;
use argos_base::Name;
use argos_grammar::ComponentTree;
use std::alloc::Global;

/// The components, and the place of the one at hand.
#[derive(Debug, Drop)]
pub struct Around<'a> {
    pub alloc: Global,
    pub components: &'a Components<'a>,
    pub place: usize,
}

impl Around<'_> {
    /// The first component before this one that has the name.
    #[tactic(auto, using(crate::proofs::Components::lookups))]
    pub fn named(&self, name: &Name) -> Option<&ComponentTree>
        ensures { option_map (λ c. component_of c.now) result ≡ named name.now (around_of self.now).earlier }
    {
        let first = self.components.first(name)?;
        if first < self.place {
            self.components.all.get(first)
        } else {
            None
        }
    }

    /// Whether a component before this one has the name.
    #[tactic(auto, using(crate::proofs::Components::lookups))]
    pub fn is_earlier(&self, name: &Name) -> bool
        ensures { result ≡ is_one_of (map (λ c. c.name.name) (around_of self.now).earlier) name.now }
    {
        self.named(name).is_some()
    }

    /// Whether some component has the name.
    #[tactic(auto, using(crate::proofs::Components::lookups))]
    pub fn is_component(&self, name: &Name) -> bool
        ensures { result ≡ is_one_of (around_of self.now).names name.now }
    {
        self.components.first(name).is_some()
    }
}
