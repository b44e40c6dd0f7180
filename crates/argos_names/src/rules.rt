//! The name rules.
ghost use Rattle.std.specs.Prelude.{◌≡◌, [], ◌++◌, None, IfOk, IfErr, map};
ghost use Rattle.argos_grammar.specs.Views.{component_of};
ghost use Rattle.argos_names.specs.Scope.{breaches, in_component};
ghost use Rattle.argos_names.specs.inner.Least.{least_after};
ghost use Rattle.argos_names.specs.Refusals.{Refuses};
ghost use Rattle.argos_names.specs.inner.AroundViews.{around_of};

mod around;
mod components;
mod process;
mod signals;

use crate::errors::{NameFault, NameRule};
use crate::least::Least;
use crate::scope::{Scope, Sort};
use argos_base::OutOfMemory;
use argos_grammar::ComponentTree;
use around::Around;
use components::Components;
use signals::declare_all;
use std::alloc::Global;

/// Whether all name rules are kept. Errors tell the rule that is broken at the least place, and of several there the first:
/// `Broken`; or that no memory was given: `OutOfMemory`.
pub fn check_names(alloc: Global, components: &[ComponentTree]) -> Result<(), NameFault>
    ensures kept { IfOk result (λ _. breaches (map component_of components.now) ≡ []) }
    ensures broken { IfErr result (λ e. Refuses (map component_of components.now) e) }
{
    let least = least_broken(alloc, components)?;
    match least.found() {
        None => Ok(()),
        Some(found) => Err(found.fault()),
    }
}

// The broken rule at the least place.
#[tactic(auto, using(crate::proofs::Components::components))]
fn least_broken(alloc: Global, components: &[ComponentTree]) -> Result<Least, OutOfMemory>
    ensures { IfOk result (λ l. l ≡ least_after None (breaches (map component_of components.now))) }
{
    let all = Components::new(alloc, components)?;
    let mut least = Least::new();
    for (place, component) in components.iter().enumerate() {
        let around = Around {
            alloc,
            components: &all,
            place,
        };
        around.component(&mut least, component)?;
    }
    Ok(least)
}

impl Around<'_> {
    // A component.
    #[tactic(auto, using(crate::proofs::Components::components))]
    fn component(&self, least: &mut Least, component: &ComponentTree) -> Result<(), OutOfMemory>
        ensures { IfOk result (λ _. least.new ≡ least_after least.old (in_component (around_of self.now) (component_of component.now))) }
    {
        let fresh = !self.is_earlier(&component.name.name);
        least.broken_unless(fresh, NameRule::Duplicate, &component.name);
        let mut scope = Scope::new(self.alloc);
        declare_all(&mut scope, least, Sort::Input, &component.inputs)?;
        declare_all(&mut scope, least, Sort::Output, &component.outputs)?;
        Ok(self.block(&mut scope, least, &component.block)?)
    }
}
