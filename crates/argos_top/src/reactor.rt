//! What reacts to input sets.
ghost use Rattle.std.specs.Prelude.{◌≡◌, ℕ, length};
ghost use Rattle.argos_base.specs.SignalSets.{SignalSet};

use argos_base::Signals;
use c_step::CRun;
use eqn_core::Stepper;

/// Anything that reacts, instant by instant: a stepper of equations, or a C step that runs.
pub trait Reactor {
    /// How many inputs it has.
    ghost inputs: { Self → ℕ };

    /// How many outputs it has.
    ghost outputs: { Self → ℕ };

    /// From where it stands it can react to an input set with an output set, and stands there then.
    ghost reacts: { Self → SignalSet → SignalSet → Self → Type 0 };

    /// Reacts to the present inputs: `output` gets the present outputs. It takes no memory.
    fn react(&mut self, input: &Signals, output: &mut Signals)
        requires input { length input.now ≡ inputs self.old }
        requires output { length output.old ≡ outputs self.old }
        ensures reaction { reacts self.old input.now output.new self.new }
        ensures same_inputs { inputs self.new ≡ inputs self.old }
        ensures same_outputs { outputs self.new ≡ outputs self.old }
        ensures sized { length output.new ≡ outputs self.old };
}

impl Reactor for Stepper {
    ghost use Rattle.std.specs.Prelude.{length};
    ghost use Rattle.eqn_core.specs.Running.{StepsTo};

    ghost inputs = { λ s. s.equations.inputs };

    ghost outputs = { λ s. length s.equations.outputs };

    ghost reacts = { λ s i o s'. StepsTo s i o s' };

    #[tactic(auto, using(crate::proofs::Traces::steps))]
    fn react(&mut self, input: &Signals, output: &mut Signals) {
        self.step(input, output);
    }
}

impl Reactor for CRun {
    ghost use Rattle.std.specs.Prelude.{length};
    ghost use Rattle.c_step.specs.Running.{StepsTo};

    ghost inputs = { λ r. length r.step.names.inputs };

    ghost outputs = { λ r. length r.step.names.outputs };

    ghost reacts = { λ r i o r'. StepsTo r i o r' };

    #[tactic(auto, using(crate::proofs::Traces::c_running_steps))]
    fn react(&mut self, input: &Signals, output: &mut Signals) {
        self.step(input, output);
    }
}
