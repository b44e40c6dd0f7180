//! From components to their module.
ghost use Rattle.std.specs.Prelude.{◌≤◌, length, map, IfOk, IfErr};
ghost use Rattle.std.specs.List.{AllByRecursion};
ghost use Rattle.argos_core.specs.ModuleViews.{module_of};
ghost use Rattle.argos_grammar.specs.Text.{IsComponent};
ghost use Rattle.argos_grammar.specs.Views.{component_of};
ghost use Rattle.argos_scope.specs.Meaning.{Resolves};
ghost use Rattle.argos_scope.specs.Faults.{TellsFault};

use crate::errors::ScopeError;
use crate::laws::resolved_modules_are_kept;
use crate::tables::names_of;
use argos_core::Module;
use argos_expansion::expand;
use argos_grammar::ComponentTree;
use argos_names::check_names;
use std::alloc::Global;

/// The module of the last of these components, each of them well formed. The error is the name rule that is broken at the least
/// place, else the first limit that the expansion passes, with the number that is reached there; or no memory was given.
pub fn resolve(alloc: Global, components: &[ComponentTree]) -> Result<Module, ScopeError>
    requires some { 1 ≤ length components.now }
    requires formed { AllByRecursion IsComponent (map component_of components.now) }
    ensures module { IfOk result (λ m. Resolves (map component_of components.now) (module_of m)) }
    ensures fault { IfErr result (TellsFault (map component_of components.now)) }
{
    check_names(alloc, components)?;
    let expanded = expand(alloc, components)?;
    let main = &components[components.len() - 1];
    // so the names are distinct, and the module keeps what a module has to
    resolved_modules_are_kept();
    let names = names_of(alloc, main)?;
    Ok(Module {
        prog: expanded.prog,
        names,
        locals: expanded.locals,
    })
}
