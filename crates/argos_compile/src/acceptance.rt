ghost use Rattle.std.specs.Prelude.{◌≡◌, ◌<◌, ◌≤◌, ◌^◌, IfOk, MatchResult};
ghost use Rattle.argos_compile.specs.Accepting.{IsAccepted};
ghost use Rattle.argos_core.specs.ModuleViews.{module_of};
ghost use Rattle.argos_core.specs.Layouts.{layout_of};
ghost use Rattle.argos_core.specs.Views.{shapes_of};
ghost use Rattle.argos_verdict.specs.Answers.{IsRefused, IsSound};

use crate::accepted::Accepted;
use crate::line_bound::line_bound;
use argos_core::{Layout, Module};
use argos_verdict::{AcceptError, Sound, judge};
use cycle_solve::solve;
use eqn_core::Ordered;
use eqn_dd::CheckError;
use std::alloc::Global;

/// Accepts a module, and puts its equations in order. At the codes of its configurations they have exactly its reactions. Where it is
/// refused, it is handed back.
///
/// # Errors
///
/// Those of `judge`; and `Budget` where an operation on the diagrams of its locals that depend on themselves answered it.
pub fn accept(alloc: Global, module: Module, budget: u32) -> Result<Accepted, (Module, AcceptError)>
    requires least { 2 ≤ budget }
    requires greatest { budget ≤ 16777216 }
    ensures answer { MatchResult result (λ a. IsAccepted (module_of «module») a.ordered a.lines) (λ e. IsRefused (module_of «module») budget e.1) }
    ensures kept { MatchResult result (λ a. a.«module» ≡ «module») (λ e. e.0 ≡ «module») }
{
    match put_in_order(alloc, &module, budget) {
        Ok(
            InOrder {
                layout,
                ordered,
                lines,
            },
        ) => Ok(Accepted {
            module,
            layout,
            ordered,
            lines,
        }),
        Err(error) => Err((module, error)),
    }
}

// The ordered equations of an accepted module, with the layout of its registers, and how many lines they have at most.
struct InOrder {
    layout: Layout,
    ordered: Ordered,
    lines: u64,
}

// The equations of a module in their order.
fn put_in_order(alloc: Global, program: &Module, budget: u32) -> Result<InOrder, AcceptError>
    requires least { 2 ≤ budget }
    requires greatest { budget ≤ 16777216 }
    ensures answer { MatchResult result (λ o. IsAccepted (module_of program.now) o.ordered o.lines) (λ e. IsRefused (module_of program.now) budget e) }
    ensures laid { IfOk result (λ o. shapes_of o.layout ≡ layout_of (module_of program.now).process) }
    ensures small { IfOk result (λ o. o.lines < 2 ^ 40) }
{
    match judge(alloc, program, budget) {
        Ok(sound) => solved(alloc, program, sound, budget),
        Err(error) => Err(error),
    }
}

// The equations of a good program in their order, where those of the locals that depend on themselves are solved.
fn solved(
    alloc: Global,
    program: &Module,
    sound: Sound,
    budget: u32,
) -> Result<InOrder, AcceptError>
    requires least { 2 ≤ budget }
    requires greatest { budget ≤ 16777216 }
    requires sound { IsSound (module_of program.now) sound }
    ensures answer { MatchResult result (λ o. IsAccepted (module_of program.now) o.ordered o.lines) (λ e. IsRefused (module_of program.now) budget e) }
    ensures laid { IfOk result (λ o. shapes_of o.layout ≡ layout_of (module_of program.now).process) }
    ensures small { IfOk result (λ o. o.lines < 2 ^ 40) }
{
    let Sound {
        system,
        plan,
        layout,
    } = sound;
    match solve(alloc, system, &plan, &layout, budget) {
        Ok((ordered, nodes)) => {
            let lines = line_bound(program, &layout, plan.cyclic.len(), nodes);
            Ok(InOrder {
                layout,
                ordered,
                lines,
            })
        }
        // Its job is the one that was judged.
        Err(CheckError::Variables(_)) => unreachable!(),
        Err(CheckError::Budget(arena)) => Err(AcceptError::Budget(arena)),
        Err(CheckError::OutOfMemory) => Err(AcceptError::OutOfMemory),
    }
}
