//! The expansion of components into one process.
ghost use Rattle.std.specs.Prelude.{◌≡◌, ◌≤◌, [], ◌∷◌, length, map, IfOk, IfErr};
ghost use Rattle.std.specs.List.{AllByRecursion, range_with_len};
ghost use Rattle.argos_base.specs.Limits.{signal_limit};
ghost use Rattle.argos_core.specs.Views as core;
ghost use Rattle.argos_core.specs.Views.{numbers};
ghost use Rattle.argos_grammar.specs.Text.{IsComponent};
ghost use Rattle.argos_grammar.specs.Views.{component_of};
ghost use Rattle.argos_names.specs.Scope.{breaches};
ghost use Rattle.argos_expansion.specs.Expansion.{expansion};
ghost use Rattle.argos_expansion.specs.Refusals.{IsLimitOf};
ghost use Rattle.argos_expansion.specs.Limits.{IsWithin};

use crate::counts::{Counts, Node, sum};
use crate::errors::ExpansionError;
use crate::expander::{Expander, joined, signals_from};
use crate::marks::Marks;
use crate::placing::placed;
use argos_base::{Name, OutOfMemory, SigId};
use argos_core::Prog;
use argos_grammar::ComponentTree;
use std::alloc::Global;

/// What components expand to: the process of the last one, and the names of its local signals. Its signals are numbered from 0
/// on: the inputs come first, then the outputs, then the local signals.
#[derive(Debug, Drop)]
pub struct Expanded {
    pub prog: Prog,
    pub locals: Vec<Name>,
}

/// Expands the last of the components, each of them well formed, which keep the name rules. Each run stands for the block of the
/// component with that name. Errors: `Limit`, the first limit that is passed, with the number that is reached there; and
/// `OutOfMemory`.
pub fn expand(alloc: Global, components: &[ComponentTree]) -> Result<Expanded, ExpansionError>
    requires some { 1 ≤ length components.now }
    requires formed { AllByRecursion IsComponent (map component_of components.now) }
    requires named { breaches (map component_of components.now) ≡ [] }
    ensures expansion { IfOk result (λ x.
        (core.process_of x.prog ≡ (expansion (map component_of components.now)).whole)
        × (x.locals.items ≡ (expansion (map component_of components.now)).locals)
        × IsWithin (expansion (map component_of components.now)).visits) }
    ensures limit { IfErr result (λ e. IsLimitOf (expansion (map component_of components.now)).visits e) }
{
    let Some((main, earlier)) = components.split_last() else {
        unreachable!()
    };
    let mut expander = Expander {
        alloc,
        marks: Marks::new(alloc),
        counts: Counts {
            signals: 0,
            automata: 0,
            size: 0,
        },
        locals: Vec::new(alloc),
    };
    let count = sum(main.inputs.len() as u64, main.outputs.len() as u64)?;
    expander.counts.visit(Node {
        depth: 0,
        signals: count,
        automata: 0,
        codes: 0,
        size: count,
    })?;
    let placed = placed(alloc, earlier, main)?;
    let signals = main_signals(alloc, count as u32)?;
    let prog = expander.block(&placed.components, &signals, 1, &placed.block)?;
    Ok(Expanded {
        prog,
        locals: expander.locals,
    })
}

// The signals at the places of the main component.
fn main_signals(alloc: Global, count: u32) -> Result<Vec<SigId>, OutOfMemory>
    requires { count ≤ signal_limit }
    ensures { IfOk result (λ signals. numbers signals.items ≡ 0 ∷ range_with_len 0 count) }
{
    let own = signals_from(alloc, 0, count)?;
    Ok(joined(alloc, &[SigId(0)], &own)?)
}
