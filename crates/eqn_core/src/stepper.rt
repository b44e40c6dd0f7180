ghost use Rattle.std.specs.Prelude.{◌≡◌, ◌≤◌, [], ◌++◌, length, drop, map, IsTrue, IfOk};
ghost use Rattle.eqn_core.specs.inner.LineValues.{known};
ghost use Rattle.eqn_core.specs.Ordered.{IsOrdered, all_below};
ghost use Rattle.eqn_core.specs.Running.{start_of, StepsTo, HasPlaces};
ghost use Rattle.eqn_core.specs.Solutions.{bit_of, word_of, SystemReacts};
ghost use Rattle.eqn_core.specs.Views.{equations_from};

use crate::order::count_words;
use crate::ordered::Ordered;
use crate::system::System;
use crate::values::evaluate;
use argos_base::{OutOfMemory, Signals};
use std::alloc::Global;
use std::marker::Model;

/// An ordered system that runs: it is seen as its equations and the memory that it has reached.
#[derive(Debug, Drop)]
pub struct Stepper {
    ordered: Ordered,
    memory: Vec<u16>,
    bits: Vec<bool>,
    words: Vec<u16>,
}

impl Model for Stepper {
    ghost use Rattle.std.specs.Prelude.{length};
    ghost use Rattle.eqn_core.specs.Running.{Running, HasPlaces};

    ghost Value = { Running };

    ghost view = { λ s. record { equations = s.ordered; memory = s.memory.items } };

    ghost invariant = { λ s. HasPlaces s.ordered (length s.memory.items) (length s.bits.items) (length s.words.items) };
}

impl Stepper {
    /// A stepper whose registers hold the initial codes.
    pub fn begin(alloc: Global, ordered: Ordered) -> Result<Stepper, OutOfMemory>
        ensures { IfOk result (λ s. s ≡ start_of ordered) }
    {
        let system = ordered.system();
        let count = count_words(&system.lines);
        let bit_count = system.inputs as usize + (system.lines.len() - count);
        let memory = Vec::from_slice(alloc, &system.init)?;
        let bits = vec![in alloc; false; bit_count]?;
        let words = vec![in alloc; 0; memory.len() + count]?;
        Ok(Stepper {
            ordered,
            memory,
            bits,
            words,
        })
    }

    /// One step: `output` gets the outputs of the one solution at the memory and `input`, and the registers its next words. It takes
    /// no memory.
    pub fn step(&mut self, input: &Signals, output: &mut Signals)
        requires inputs { length input.now ≡ self.old.equations.inputs }
        requires outputs { length output.old ≡ length self.old.equations.outputs }
        ensures { StepsTo self.old input.now output.new self.new }
    {
        let system = self.ordered.system();
        react(
            system,
            input,
            output,
            &mut self.memory,
            &mut self.bits,
            &mut self.words,
        );
    }

    /// The values of the registers.
    pub fn memory(&self) -> &[u16]
        ensures { result.now ≡ self.now.memory }
    {
        &self.memory
    }
}

// The reaction of an ordered system; in the end `bits` and `words` are the solution.
fn react(
    system: &System,
    input: &Signals,
    output: &mut Signals,
    memory: &mut [u16],
    bits: &mut [bool],
    words: &mut [u16],
)
    requires ordered { IsOrdered (equations_from system.now) }
    requires inputs { length input.now ≡ system.now.inputs }
    requires outputs { length output.old ≡ length system.now.outs.items }
    requires places { HasPlaces (equations_from system.now) (length memory.old) (length bits.old) (length words.old) }
    ensures reacts { SystemReacts (equations_from system.now) memory.old input.now output.new memory.new }
    ensures kept { HasPlaces (equations_from system.now) (length memory.new) (length bits.new) (length words.new) }
{
    let registers = memory.len();
    put_inputs(input, bits);
    words[..registers].copy_from_slice(memory);
    evaluate(
        &system.lines,
        system.inputs as usize,
        registers,
        bits,
        words,
    );
    // only now is a register written, since each line reads its old value
    take_outputs(&system.outs, bits, output);
    take_words(&system.next, words, memory);
}

// The inputs are the first bits.
fn put_inputs(input: &Signals, bits: &mut [bool])
    requires { length input.now ≤ length bits.old }
    ensures { bits.new ≡ input.now ++ drop (length input.now) bits.old }
{
    for k in 0..input.len() {
        bits[k as usize] = input.get(k);
    }
}

// The outputs are these bits.
fn take_outputs(outs: &[u32], bits: &[bool], output: &mut Signals)
    requires exist { IsTrue (all_below (length bits.now) outs.now) }
    requires places { length output.old ≡ length outs.now }
    ensures { output.new ≡ map (bit_of (known bits.now [])) outs.now }
{
    for k in 0..output.len() {
        output.set(k, bits[outs[k as usize] as usize]);
    }
}

// The next values of the registers are these words.
fn take_words(next: &[u32], words: &[u16], memory: &mut [u16])
    requires exist { IsTrue (all_below (length words.now) next.now) }
    requires places { length memory.old ≡ length next.now }
    ensures { memory.new ≡ map (word_of (known [] words.now)) next.now }
{
    for (k, word) in next.iter().enumerate() {
        memory[k] = words[*word as usize];
    }
}
