//! Signals, each once, by a mark for each of them.
ghost use Rattle.std.specs.Prelude.{◌≡◌, ◌||◌, ◌<◌, ◌≤◌, ◌∷◌, ◌++◌, [], ℕ, IfOk, length, nat_eq, not, false, slice_index, if◌then◌else◌};
ghost use Rattle.argos_core.specs.Views.{numbers};
ghost use Rattle.argos_expansion.specs.Expansion as expansion;
ghost use Rattle.argos_expansion.specs.inner.Marked.{is_marked, StayWithin};

use argos_base::{OutOfMemory, SigId};
use smallvec::SmallVec;
use std::alloc::Global;

/// For each signal the last round in which it was marked, or 0.
#[derive(Debug, Drop)]
pub struct Marks {
    pub rounds: Vec<u64>,
    pub round: u64,
    ghost kept: { StayWithin round rounds.items },
}

impl Marks {
    /// No marks.
    pub fn new(alloc: Global) -> Marks {
        Marks {
            rounds: Vec::new(alloc),
            round: 0,
        }
    }

    /// The signals, each at its first place.
    #[tactic(auto, using(crate::proofs::OnceLists::once_lists))]
    pub fn once(
        &mut self,
        alloc: Global,
        signals: &[SigId],
    ) -> Result<SmallVec<SigId, 4>, OutOfMemory>
        ensures { IfOk result (λ outs. numbers outs.items ≡ expansion.once (numbers signals.now)) }
    {
        self.begin();
        let mut outs = SmallVec::new(alloc);
        for signal in signals {
            self.add(&mut outs, signal)?;
        }
        Ok(outs)
    }

    // One more signal, where it has no mark.
    fn add(&mut self, outs: &mut SmallVec<SigId, 4>, signal: &SigId) -> Result<(), OutOfMemory>
        ensures outs { IfOk result (λ _. outs.new.items ≡ (if is_marked self.old.round self.old.rounds.items signal.now.0 then outs.old.items else outs.old.items ++ signal.now ∷ [])) }
        ensures marks { IfOk result (λ _. (k : ℕ) → is_marked self.new.round self.new.rounds.items k ≡ (nat_eq k signal.now.0 || is_marked self.old.round self.old.rounds.items k)) }
    {
        if self.mark(signal)? {
            outs.push(*signal)?;
        }
        Ok(())
    }

    // No signal is marked in the next round.
    fn begin(&mut self)
        ensures { (k : ℕ) → is_marked self.new.round self.new.rounds.items k ≡ false }
    {
        if self.round == u64::MAX {
            self.rounds.clear();
            self.round = 0;
        }
        self.round += 1;
    }

    // Marks a signal, and says whether it had no mark.
    fn mark(&mut self, signal: &SigId) -> Result<bool, OutOfMemory>
        ensures fresh { IfOk result (λ fresh. fresh ≡ not (is_marked self.old.round self.old.rounds.items signal.now.0)) }
        ensures round { self.new.round ≡ self.old.round }
        ensures marks { IfOk result (λ _. (k : ℕ) → is_marked self.new.round self.new.rounds.items k ≡ (nat_eq k signal.now.0 || is_marked self.old.round self.old.rounds.items k)) }
    {
        let place = signal.0 as usize;
        self.grow(place)?;
        let fresh = self.rounds[place] != self.round;
        self.rounds[place] = self.round;
        Ok(fresh)
    }

    // There is a mark for the signal at this place.
    fn grow(&mut self, place: usize) -> Result<(), OutOfMemory>
        ensures round { self.new.round ≡ self.old.round }
        ensures room { IfOk result (λ _. place < length self.new.rounds.items) }
        ensures same { IfOk result (λ _. (k : ℕ) → slice_index self.new.rounds.items k ≡ slice_index self.old.rounds.items k) }
    {
        while self.rounds.len() <= place {
            self.rounds.push(0)?;
        }
        Ok(())
    }
}
