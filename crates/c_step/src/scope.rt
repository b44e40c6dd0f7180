ghost use Rattle.std.specs.Prelude.{◌≡◌, ℕ, false, ◌||◌, nat_eq, OnOk};
ghost use Rattle.std.specs.HashSet.{contains};
ghost use Rattle.c_step.specs.inner.Scopes.{scope_of};

use argos_base::OutOfMemory;
use std::alloc::Global;
use std::collections::HashSet;

/// The numbers of the bits, words and outputs that were given a value so far.
#[derive(Debug, Drop)]
pub(crate) struct Marks {
    pub bits: HashSet<u32>,
    pub words: HashSet<u32>,
    pub outs: HashSet<u32>,
}

impl Marks {
    /// No marks.
    pub fn new(alloc: Global) -> Marks
        ensures bits { (k : ℕ) → contains nat_eq result.bits k ≡ false }
        ensures words { (k : ℕ) → contains nat_eq result.words k ≡ false }
        ensures outs { (k : ℕ) → contains nat_eq result.outs k ≡ false }
    {
        Marks {
            bits: HashSet::new(alloc),
            words: HashSet::new(alloc),
            outs: HashSet::new(alloc),
        }
    }
}

/// What a statement may name: how many inputs, outputs, words and bits there are, and which words and bits may be read.
#[derive(Clone, Copy, Debug)]
pub(crate) struct Scope<'a> {
    pub inputs: u32,
    pub outputs: u32,
    pub words: u32,
    pub bits: u32,
    pub registers: u32,
    pub marks: &'a Marks,
}

impl Scope<'_> {
    /// Whether a bit may be read: it was given a value.
    pub fn has_bit(&self, bit: u32) -> bool
        ensures { result ≡ (scope_of self.now).has_bit bit }
    {
        self.marks.bits.contains(&bit)
    }

    /// Whether a word may be read: it is a register, or was given a value.
    pub fn has_word(&self, word: u32) -> bool
        ensures { result ≡ (scope_of self.now).has_word word }
    {
        word < self.registers || self.marks.words.contains(&word)
    }
}

/// Marks a number.
pub(crate) fn mark(marks: &mut HashSet<u32>, number: u32) -> Result<(), OutOfMemory>
    ensures { OnOk result ((k : ℕ) → contains nat_eq marks.new k ≡ (nat_eq number k || contains nat_eq marks.old k)) }
{
    marks.insert(number)?;
    Ok(())
}
