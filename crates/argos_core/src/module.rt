ghost use Rattle.argos_core.specs.Modules.{IsModule};
ghost use Rattle.argos_core.specs.ModuleOnce.{IsModule-prop};
ghost use Rattle.argos_core.specs.ModuleParts.{module_from};

use crate::prog::Prog;
use argos_base::{Name, Names};

/// A component whose names are resolved to numbers and whose uses of other components are expanded.
///
/// Its inputs have the first signal numbers, then come its outputs, and then its locals. It keeps the rules of scope and the
/// limits: what a place in it reads and emits is in scope there, and it has at most 16,384 signals, 4,096 automata with at most
/// 65,535 codes each, 64 process nodes on one path, and size 262,144.
#[derive(Debug, Drop)]
pub struct Module {
    pub prog: Prog,
    pub names: Names,
    /// The name of each local, in the order of their numbers.
    pub locals: Vec<Name>,
    ghost kept: { IsModule (module_from prog names locals.items) } by { IsModule-prop (module_from prog names locals.items) },
}
