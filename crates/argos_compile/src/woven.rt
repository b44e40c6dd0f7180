ghost use Rattle.std.specs.Prelude.{◌≡◌, ◌<◌, ◌^◌, []};
ghost use Rattle.argos_compile.specs.AspectViews.{woven_from};
ghost use Rattle.argos_compile.specs.Weaving.{IsWoven};
ghost use Rattle.argos_core.specs.Layouts.{layout_of};
ghost use Rattle.argos_core.specs.ModuleViews.{module_of};
ghost use Rattle.argos_core.specs.Views.{shapes_of};

use crate::accepted::Accepted;
use crate::aspect::Aspect;
use argos_core::{Layout, Module};
use eqn_core::Ordered;
use std::alloc::Global;

/// A program with the aspects that are woven into it one after the other.
#[derive(Debug, Drop)]
pub struct Woven {
    /// The program without aspects.
    pub module: Module,
    /// The layout of its registers, which are the first ones of the equations.
    pub layout: Layout,
    /// The aspects, the first one first.
    pub aspects: Vec<Aspect>,
    /// The equations of the woven program. Their registers are those of the program, and then those of each observer in turn.
    pub ordered: Ordered,
    /// How many lines they have at most. It is a number of the program and its aspects, and not of the lines that were made.
    pub most: u64,
    ghost laid: { shapes_of layout ≡ layout_of (module_of «module»).process },
    ghost small: { most < 2 ^ 40 },
    ghost judged: { ∥ IsWoven (woven_from (module_of «module») aspects.items) ordered most ∥₁ },
}

impl Woven {
    /// The program without aspects.
    pub fn plain(alloc: Global, accepted: Accepted) -> Woven
        ensures base { result.«module» ≡ accepted.«module» }
        ensures layout { result.layout ≡ accepted.layout }
        ensures aspects { result.aspects.items ≡ [] }
        ensures ordered { result.ordered ≡ accepted.ordered }
        ensures most { result.most ≡ accepted.lines }
    {
        let Accepted {
            module,
            layout,
            ordered,
            lines,
        } = accepted;
        // These equations are in order.
        let _system = ordered.system();
        Woven {
            module,
            layout,
            aspects: Vec::new(alloc),
            ordered,
            most: lines,
        }
    }
}
