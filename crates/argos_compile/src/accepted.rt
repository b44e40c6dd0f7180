ghost use Rattle.std.specs.Prelude.{◌≡◌, ◌<◌, ◌^◌};
ghost use Rattle.argos_compile.specs.Accepting.{IsAccepted};
ghost use Rattle.argos_core.specs.Layouts.{layout_of};
ghost use Rattle.argos_core.specs.ModuleViews.{module_of};
ghost use Rattle.argos_core.specs.Views.{shapes_of};

use argos_core::{Layout, Module};
use eqn_core::Ordered;

/// A module that was accepted: a program each of whose configurations has one reaction to each input.
#[derive(Debug, Drop)]
pub struct Accepted {
    pub(crate) module: Module,
    pub(crate) layout: Layout,
    pub(crate) ordered: Ordered,
    pub(crate) lines: u64,
    ghost laid: { shapes_of layout ≡ layout_of (module_of «module»).process },
    ghost small: { lines < 2 ^ 40 },
    ghost judged: { ∥ IsAccepted (module_of «module») ordered lines ∥₁ },
}

impl Accepted {
    /// The module that was accepted.
    pub fn module(&self) -> &Module
        ensures { result.now ≡ self.now.«module» }
    {
        &self.module
    }

    /// The layout of its registers, one for each automaton.
    pub fn layout(&self) -> &Layout
        ensures { result.now ≡ self.now.layout }
    {
        &self.layout
    }

    /// Its ordered equations.
    pub fn ordered(&self) -> &Ordered
        ensures { result.now ≡ self.now.ordered }
    {
        &self.ordered
    }

    /// How many lines they have at most. It is a number of the module, and not of the lines that were made.
    pub fn lines(&self) -> u64
        ensures { result ≡ self.now.lines }
    {
        self.lines
    }
}
