ghost use Rattle.std.specs.Prelude.{◌≡◌, ◌≤◌, length, slice_index_or, slice_set, IfOk};
ghost use Rattle.eqn_core.specs.Views.{line_of, equations_from};
ghost use Rattle.eqn_order.specs.inner.Sources.{defines_word, origins_of, line_of_bit, line_of_word, with_given};
ghost use Rattle.eqn_order.specs.inner.Views.{origins_from};

use argos_base::OutOfMemory;
use eqn_core::{Line, System};
use std::alloc::Global;

/// Which line defines which bit and which word; none where it is taken as given.
#[derive(Drop)]
pub(crate) struct Sources {
    inputs: usize,
    registers: usize,
    // the lines of the bits behind the inputs, and of the words behind the registers
    bits: Vec<Option<u32>>,
    words: Vec<Option<u32>>,
}

impl Sources {
    /// The sources of a system in which inputs and registers alone are given.
    #[tactic(auto, using(crate::proofs::Building::building))]
    pub(crate) fn of(alloc: Global, system: &System) -> Result<Sources, OutOfMemory>
        requires { length system.now.lines.items ≤ 30000000 }
        ensures { IfOk result (λ s. origins_from s ≡ origins_of (equations_from system.now)) }
    {
        let mut bits = Vec::new(alloc);
        let mut words = Vec::new(alloc);
        for (place, line) in system.lines.iter().enumerate() {
            if is_choose(line) {
                words.push(Some(place as u32))?;
            } else {
                bits.push(Some(place as u32))?;
            }
        }
        Ok(Sources {
            inputs: system.inputs as usize,
            registers: system.init.len(),
            bits,
            words,
        })
    }

    /// The line that defines a bit.
    pub(crate) fn of_bit(&self, bit: u32) -> Option<u32>
        ensures { result ≡ line_of_bit (origins_from self.now) bit }
    {
        let bit = bit as usize;
        if bit < self.inputs {
            None
        } else {
            entry(&self.bits, bit - self.inputs)
        }
    }

    /// The line that defines a word.
    pub(crate) fn of_word(&self, word: u32) -> Option<u32>
        ensures { result ≡ line_of_word (origins_from self.now) word }
    {
        let word = word as usize;
        if word < self.registers {
            None
        } else {
            entry(&self.words, word - self.registers)
        }
    }

    /// Takes a bit as given from now on.
    #[tactic(auto, using(crate::proofs::Building::building))]
    pub(crate) fn give(&mut self, bit: u32)
        ensures { origins_from self.new ≡ with_given (origins_from self.old) bit }
    {
        let bit = bit as usize;
        if self.inputs <= bit {
            clear(&mut self.bits, bit - self.inputs);
        }
    }
}

// The entry of a table, or none past its end.
fn entry(table: &[Option<u32>], place: usize) -> Option<u32>
    ensures { result ≡ slice_index_or table.now place None }
{
    if place < table.len() {
        table[place]
    } else {
        None
    }
}

// Takes an entry out of a table, if it has one there.
#[tactic(auto, using(crate::proofs::Building::building))]
fn clear(table: &mut [Option<u32>], place: usize)
    ensures { table.new ≡ slice_set table.old place None }
{
    if place < table.len() {
        table[place] = None;
    }
}

fn is_choose(line: &Line) -> bool
    ensures { result ≡ defines_word (line_of line.now) }
{
    match line {
        Line::Choose { .. } => true,
        _ => false,
    }
}
