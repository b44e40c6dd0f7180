// Names that two interfaces don't share.
ghost use Rattle.std.specs.Prelude.{◌≡◌, IfNone, IfSome};
ghost use Rattle.argos_base.specs.Spelling.{is_one_of};
ghost use Rattle.argos_congruence.specs.Congruence as congruence;
ghost use Rattle.argos_congruence.specs.Congruence.{HaveSameNames};
ghost use Rattle.argos_core.specs.ModuleViews.{module_of};
ghost use Rattle.bisim_check.specs.inner.Sharing as sharing;
ghost use Rattle.bisim_verdict.specs.Bisimulation.{IsFirstForeign};

use argos_base::{Name, NameTable};
use argos_core::Module;

/// The first name that isn't an input of both or an output of both, of the left inputs, left outputs, right inputs and right outputs.
pub(crate) fn first_foreign(left: &Module, right: &Module) -> Option<Name>
    ensures same { IfNone result (HaveSameNames (module_of left.now) (module_of right.now)) }
    ensures foreign { IfSome result (IsFirstForeign (module_of left.now) (module_of right.now)) }
{
    let left_names = &left.names;
    let right_names = &right.names;
    first_unshared(&left_names.inputs, left, right)
        .or(first_unshared(&left_names.outputs, left, right))
        .or(first_unshared(&right_names.inputs, left, right))
        .or(first_unshared(&right_names.outputs, left, right))
}

fn first_unshared(names: &NameTable, left: &Module, right: &Module) -> Option<Name>
    ensures { result ≡ sharing.first_unshared (congruence.is_shared (module_of left.now) (module_of right.now)) names.now }
{
    for k in 0..names.len() {
        if let Some(name) = names.get(k) {
            if !is_shared(left, right, name) {
                return Some(*name);
            }
        }
    }
    None
}

fn is_shared(left: &Module, right: &Module, name: &Name) -> bool
    ensures { result ≡ congruence.is_shared (module_of left.now) (module_of right.now) name.now }
{
    (contains(&left.names.inputs, name) && contains(&right.names.inputs, name))
        || (contains(&left.names.outputs, name) && contains(&right.names.outputs, name))
}

fn contains(names: &NameTable, name: &Name) -> bool
    ensures { result ≡ is_one_of names.now name.now }
{
    names.find(name.bytes()).is_some()
}
