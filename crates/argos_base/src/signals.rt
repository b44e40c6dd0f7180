ghost use Rattle.std.specs.Prelude.{◌≡◌, ◌<◌, length, slice_set, IfOk};
ghost use Rattle.argos_base.specs.SignalSets.{has, empty};

use crate::out_of_memory::OutOfMemory;
use std::alloc::Global;
use std::marker::Model;

/// The number of a signal of a module: its inputs come first, then its outputs, then its locals.
#[derive(Clone, Copy, Debug, Default, PartialEq, Eq)]
pub struct SigId(pub u32);

/// The number of a register, which is one automaton of a module.
#[derive(Clone, Copy, Debug, Default, PartialEq, Eq)]
pub struct RegId(pub u32);

/// A set of numbers below a length, seen as a list with one truth value per number.
#[derive(Debug, Drop)]
pub struct Signals {
    present: Vec<bool>,
}

impl Model for Signals {
    ghost use Rattle.std.specs.Prelude.{List, Bool, ◌^◌, ◌<◌, length};

    ghost Value = { List Bool };

    ghost view = { λ s. s.present.items };

    ghost invariant = { λ s. length s.present.items < 2 ^ 32 };
}

impl Signals {
    /// The empty set of numbers below `len`.
    #[tactic(auto, using(crate::proofs::SetLemmas::empty_sets))]
    pub fn new(alloc: Global, len: u32) -> Result<Signals, OutOfMemory>
        ensures { IfOk result (λ s. s ≡ empty len) }
    {
        let present = vec![in alloc; false; len as usize]?;
        Ok(Signals { present })
    }

    /// The length, below which all numbers are.
    pub fn len(&self) -> u32
        ensures { result ≡ length self.now }
    {
        self.present.len() as u32
    }

    /// Whether the set has the number `k`.
    pub fn get(&self, k: u32) -> bool
        requires { k < length self.now }
        ensures { result ≡ has self.now k }
    {
        self.present[k as usize]
    }

    /// Puts the number `k` into the set, or takes it out.
    pub fn set(&mut self, k: u32, value: bool)
        requires { k < length self.old }
        ensures { self.new ≡ slice_set self.old k value }
    {
        self.present[k as usize] = value;
    }

    /// Takes all numbers out.
    #[tactic(auto, using(crate::proofs::SetLemmas::empty_sets))]
    pub fn clear(&mut self)
        ensures { self.new ≡ empty (length self.old) }
    {
        self.present.fill(false);
    }
}
