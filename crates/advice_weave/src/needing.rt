//! How many lines a woven program may need.
ghost use Rattle.std.specs.Prelude.{◌≡◌, ◌*◌, ◌≤◌, length};
ghost use Rattle.advice_weave.specs.Needs.{FitsInto, registers_with, lines_with};
ghost use Rattle.argos_aspects.specs.Views.{onset_of};
ghost use Rattle.argos_aspects.specs.Weaving.{unrolled};
ghost use Rattle.argos_base.specs.Limits.{advice_set_limit, register_limit, signal_limit};
ghost use Rattle.argos_core.specs.ModuleViews.{module_of};
ghost use Rattle.argos_core.specs.Reactions.{output_count};
ghost use Rattle.eqn_core.specs.Equations.{registers};

use argos_compile::{Advice, Aspect, Woven};
use argos_core::Module;
use eqn_core::Ordered;

// How many sets of the trace are unrolled into lines.
fn copies_for(advice: &Advice) -> u64
    ensures { result ≡ length (unrolled (onset_of advice.now.current) advice.now.trace.items) }
{
    if advice.current {
        advice.trace.len() as u64
    } else {
        0
    }
}

fn outputs_of(program: &Module) -> u64
    ensures count { result ≡ output_count (module_of program.now) }
    ensures few { result ≤ signal_limit }
{
    u64::from(program.names.outputs.len())
}

fn registers_of(ordered: &Ordered) -> u64
    ensures count { result ≡ registers ordered.now }
    ensures few { result ≤ register_limit }
{
    ordered.system().init.len() as u64
}

// The registers of the program with the aspect.
fn registers_with(woven: &Woven, aspect: &Aspect) -> u64
    requires { FitsInto woven.now aspect.now }
    ensures count { result ≡ registers_with woven.now aspect.now }
    ensures few { result ≤ 2 * register_limit }
{
    registers_of(&woven.ordered) + registers_of(aspect.observer.ordered())
}

/// The most lines of the program with the aspect.
pub(crate) fn lines_with(woven: &Woven, aspect: &Aspect) -> u64
    requires fits { FitsInto woven.now aspect.now }
    requires trace { length aspect.now.advice.trace.items ≤ advice_set_limit }
    ensures { result ≡ lines_with woven.now aspect.now }
{
    let copies = copies_for(&aspect.advice);
    let lines = woven.most + aspect.observer.lines();
    let outputs = outputs_of(&woven.module);
    let registers = registers_with(woven, aspect);
    (copies + 1) * lines + 2 * outputs + registers + 2
}
