//! A base and an observer that run along a trace.
ghost use Rattle.std.specs.Prelude.{◌≡◌, ◌+◌, ◌^◌, ◌<◌, ◌≤◌, ◌++◌, List, length, map, IfOk, IsTrue};
ghost use Rattle.argos_base.specs.SignalSets.{has};
ghost use Rattle.argos_aspects.specs.Aspects.{IsBelow, AreBelow, AreSized};
ghost use Rattle.argos_aspects.specs.Views.{seen_of};
ghost use Rattle.argos_aspects.specs.Weaving.{sees, observed};
ghost use Rattle.eqn_core.specs.Ordered.{all_below};
ghost use Rattle.eqn_core.specs.Running.{start_of};
ghost use Rattle.weave_lines.specs.Systems.{CanObserve, MoveAlong, AreReached};

use argos_aspects::Seen;
use argos_base::{OutOfMemory, Signals};
use eqn_core::{Ordered, Stepper};
use std::alloc::Global;

fn sees(seen: Seen, inputs: &Signals, outputs: &Signals) -> bool
    requires { IsBelow (length inputs.now) (length outputs.now) (seen_of seen) }
    ensures { result ≡ sees inputs.now outputs.now (seen_of seen) }
{
    match seen {
        Seen::Input(k) => inputs.get(k),
        Seen::Output(k) => outputs.get(k),
    }
}

// The input set of the observer.
#[tactic(auto, using(crate::proofs::RunLoops::run_loops))]
fn observe(seen: &[Seen], inputs: &Signals, outputs: &Signals, set: &mut Signals)
    requires sized { length set.old ≡ length seen.now }
    requires exist { AreBelow (length inputs.now) (length outputs.now) (map seen_of seen.now) }
    ensures { set.new ≡ observed (map seen_of seen.now) inputs.now outputs.now }
{
    for k in 0..set.len() {
        set.set(k, sees(seen[k as usize], inputs, outputs));
    }
}

// No signal, with a place for each output.
#[tactic(auto, using(crate::proofs::RunLoops::run_loops))]
fn no_outputs(alloc: Global, system: &Ordered) -> Result<Signals, OutOfMemory>
    ensures { IfOk result (λ s. length s ≡ length system.now.outputs) }
{
    let system = system.system();
    Ok(Signals::new(alloc, system.outs.len() as u32)?)
}

// No signal, with a place for each input.
#[tactic(auto, using(crate::proofs::RunLoops::run_loops))]
fn no_inputs(alloc: Global, system: &Ordered) -> Result<Signals, OutOfMemory>
    ensures { IfOk result (λ s. length s ≡ system.now.inputs) }
{
    let system = system.system();
    Ok(Signals::new(alloc, system.inputs)?)
}

// The memories of both, behind each other.
fn both_memories(alloc: Global, base: &Stepper, observer: &Stepper) -> Result<Vec<u16>, OutOfMemory>
    ensures { IfOk result (λ v. v.items ≡ base.now.memory ++ observer.now.memory) }
{
    let mut codes = Vec::from_slice(alloc, base.memory())?;
    codes.extend_from_slice(observer.memory())?;
    Ok(codes)
}

// A copy that runs, from the initial codes on.
fn started(alloc: Global, system: &Ordered) -> Result<Stepper, OutOfMemory>
    ensures { IfOk result (λ s. s ≡ start_of system.now) }
{
    Stepper::begin(alloc, system.copy(alloc)?)
}

/// The memories behind the trace, from the initial codes on.
#[tactic(auto, using(crate::proofs::RunLoops::run_loops))]
pub(crate) fn codes_behind(
    alloc: Global,
    base: &Ordered,
    observer: &Ordered,
    seen: &[Seen],
    trace: &[Signals],
) -> Result<Vec<u16>, OutOfMemory>
    requires observe { CanObserve base.now observer.now (map seen_of seen.now) }
    requires trace { AreSized base.now.inputs trace.now }
    ensures { IfOk result (λ v. AreReached base.now observer.now (map seen_of seen.now) trace.now v.items) }
{
    let mut outputs = no_outputs(alloc, base)?;
    let mut observed = no_inputs(alloc, observer)?;
    let mut join = no_outputs(alloc, observer)?;
    let mut base_runs = started(alloc, base)?;
    let mut observer_runs = started(alloc, observer)?;
    for set in trace {
        base_runs.step(set, &mut outputs);
        observe(seen, set, &outputs, &mut observed);
        observer_runs.step(&observed, &mut join);
    }
    let codes = both_memories(alloc, &base_runs, &observer_runs)?;
    Ok(codes)
}
