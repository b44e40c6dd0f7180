ghost use Rattle.std.specs.Prelude.{◌≡◌, length, IfOk};
ghost use Rattle.line_format.specs.FileNames.{names_of};
ghost use Rattle.c_step.specs.StepViews.{step_of};
ghost use Rattle.c_emit.specs.COf as emitted;
ghost use Rattle.c_emit.specs.Laws.{HasRunsOf, HasStatementsOf};

use crate::names::copy_names;
use crate::statements::statements_of;
use argos_base::{Names, OutOfMemory};
use c_step::CStep;
use eqn_core::{Ordered, count_words};
use std::alloc::Global;

/// The C step of an ordered system, whose names are these.
pub fn c_of(alloc: Global, ordered: &Ordered, names: &Names) -> Result<CStep, OutOfMemory>
    requires inputs { length names.now.inputs ≡ ordered.now.inputs }
    requires outputs { length names.now.outputs ≡ length ordered.now.outputs }
    ensures step { IfOk result (λ s. step_of s ≡ emitted.c_of ordered.now (names_of names.now)) }
    ensures runs { IfOk result (λ s. HasRunsOf ordered.now (step_of s)) }
    ensures counted { IfOk result (λ s. HasStatementsOf ordered.now (step_of s)) }
{
    let system = ordered.system();
    let names = copy_names(alloc, names)?;
    let init = Vec::from_slice(alloc, &system.init)?;
    let stats = statements_of(alloc, ordered)?;
    let word_lines = count_words(&system.lines);
    let bits = system.inputs + (system.lines.len() - word_lines) as u32;
    Ok(CStep {
        names,
        words: (init.len() + word_lines) as u32,
        bits: bits.max(1),
        init,
        stats,
    })
}
