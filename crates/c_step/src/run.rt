ghost use Rattle.std.specs.Prelude.{◌≡◌, length, take, IfOk};
ghost use Rattle.c_step.specs.CRuns.{CReacts};
ghost use Rattle.c_step.specs.Running.{start_of, StepsTo};
ghost use Rattle.c_step.specs.StepViews.{step_of};

use crate::running::run_statements;
use crate::step::CStep;
use argos_base::{OutOfMemory, Signals};
use std::alloc::Global;
use std::marker::Model;

/// A C step that runs: it is seen as the step and the memory that it has reached.
#[derive(Debug, Drop)]
pub struct CRun {
    step: CStep,
    words: Vec<u16>,
    bits: Vec<bool>,
}

impl Model for CRun {
    ghost use Rattle.std.specs.Prelude.{length, take};
    ghost use Rattle.c_step.specs.Running.{Running};

    ghost Value = { Running };

    ghost use Rattle.c_step.specs.inner.Places.{HasPlaces};
    ghost use Rattle.c_step.specs.StepViews.{step_of};

    ghost view = { λ r. record { step = step_of r.step; memory = take (length r.step.init.items) r.words.items } };

    ghost invariant = { λ r. HasPlaces (step_of r.step) (length r.words.items) (length r.bits.items) };
}

impl CRun {
    /// A run whose registers hold the initial codes.
    pub fn begin(alloc: Global, step: CStep) -> Result<CRun, OutOfMemory>
        ensures { IfOk result (λ r. r ≡ start_of (step_of step)) }
    {
        let mut words = vec![in alloc; 0; step.words as usize]?;
        let bits = vec![in alloc; false; step.bits as usize]?;
        put_codes(&step, &mut words);
        Ok(CRun { step, words, bits })
    }

    /// One step: `output` gets the outputs of the statements at the memory and `input`, and the registers their next values. It takes no
    /// memory.
    pub fn step(&mut self, input: &Signals, output: &mut Signals)
        requires inputs { length input.now ≡ length self.old.step.names.inputs }
        requires outputs { length output.old ≡ length self.old.step.names.outputs }
        ensures { StepsTo self.old input.now output.new self.new }
    {
        react(&self.step, input, output, &mut self.words, &mut self.bits);
    }

    /// The values of the registers.
    pub fn memory(&self) -> &[u16]
        ensures { result.now ≡ self.now.memory }
    {
        &self.words[..self.step.init.len()]
    }
}

// The registers get their initial codes.
fn put_codes(step: &CStep, words: &mut [u16])
    requires { length words.old ≡ step.now.words }
    ensures { take (length step.now.init.items) words.new ≡ step.now.init.items }
{
    words[..step.init.len()].copy_from_slice(&step.init);
}

// The reaction of a step, whatever stood in the other places.
fn react(step: &CStep, input: &Signals, output: &mut Signals, words: &mut [u16], bits: &mut [bool])
    requires inputs { length input.now ≡ length step.now.names.inputs }
    requires outputs { length output.old ≡ length step.now.names.outputs }
    requires words { length words.old ≡ step.now.words }
    requires bits { length bits.old ≡ step.now.bits }
    ensures { CReacts (step_of step.now) (take (length step.now.init.items) words.old) input.now output.new (take (length step.now.init.items) words.new) }
{
    run_statements(&step.stats, input, words, bits, output);
}
