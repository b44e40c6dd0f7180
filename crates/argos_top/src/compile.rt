//! Writing a program with its aspects, to equations or to C: the commands `compile`, where there are no aspects, and `weave`.
ghost use Rattle.std.specs.Prelude.{IfOk};
ghost use Rattle.argos_compile.specs.WovenViews.{woven_view};
ghost use Rattle.argos_words.specs.Views.{target_of};
ghost use Rattle.argos_load.specs.Calls.{call};
ghost use Rattle.argos_top.specs.Compilation.{Compiled};
ghost use Rattle.argos_load.specs.Said as said;
ghost use Rattle.argos_top.specs.inner.Compiling.{Wrote};

use crate::report::report;
use crate::status::Status;
use argos_base::{OutOfMemory, Sink};
use argos_compile::Woven;
use argos_words::Target;
use c_emit::c_of;
use c_step::print_c;
use eqn_file::write_equations;
use std::alloc::Global;

/// Writes what a program with its aspects compiles to.
pub fn compile<W: Sink>(alloc: Global, woven: &Woven, to: Target, out: &mut W) -> Status
    ensures { Wrote (woven_view woven.now) (target_of to) (call W.held W.faults out.old out.new) result }
{
    match compiled(alloc, woven, to) {
        Ok(text) => report(&text, Status::Yes, out),
        Err(OutOfMemory) => Status::OutOfMemory,
    }
}

// The equation file or the C file of a program with its aspects.
fn compiled(alloc: Global, woven: &Woven, to: Target) -> Result<Vec<u8>, OutOfMemory>
    ensures { IfOk result (λ text. Compiled (woven_view woven.now) (target_of to) (said.said said.Yes text.items)) }
{
    let names = &woven.module.names;
    match to {
        Target::Equations => write_equations(alloc, &woven.ordered, names),
        Target::CText => {
            let step = c_of(alloc, &woven.ordered, names)?;
            print_c(alloc, &step)
        }
    }
}
