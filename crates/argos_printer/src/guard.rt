//! The printing of guards and transitions.
ghost use Rattle.std.specs.Prelude.{◌≡◌, ◌++◌, IfOk, map, option_map, flat_map};
ghost use Rattle.argos_grammar.specs.Forms.{all, any};
ghost use Rattle.argos_grammar.specs.Views.{guard_of, formulas_of, trans_of, timed_of, mark_of, marks_of};
ghost use Rattle.argos_grammar.specs.Printed.{name_words, formula_words, trans_words, timeout_words};
ghost use Rattle.argos_printer.specs.Spaced.{spaced, round_words, unit_words, part_words, effect_words};

use crate::printer::Printer;
use argos_base::OutOfMemory;
use argos_grammar::{GuardTree, Spot, TimedTree, TransTree};

impl Printer {
    /// Appends a guard.
    #[cycle(guard)]
    #[tactic(auto, using(crate::proofs::GuardWords::guard_words))]
    pub fn guard(&mut self, guard: &GuardTree) -> Result<(), OutOfMemory>
        ensures { IfOk result (λ _. self.new.text.items ≡ self.old.text.items ++ spaced (formula_words name_words (guard_of guard.now))) }
    {
        match guard {
            GuardTree::True => self.word(b"true"),
            GuardTree::False => self.word(b"false"),
            GuardTree::Sig(signal) => self.name(signal),
            GuardTree::Not(unit) => {
                self.word(b"not")?;
                Ok(self.unit(unit)?)
            }
            GuardTree::All(units) => Ok(self.units(units)?),
            GuardTree::Any(parts) => Ok(self.parts(parts)?),
        }
    }

    // Appends a unit, with parentheses round an All or an Any.
    #[cycle(guard)]
    #[tactic(auto, using(crate::proofs::GuardWords::guard_words))]
    fn unit(&mut self, guard: &GuardTree) -> Result<(), OutOfMemory>
        ensures { IfOk result (λ _. self.new.text.items ≡ self.old.text.items ++ spaced (unit_words name_words (guard_of guard.now))) }
    {
        match guard {
            GuardTree::All(_) | GuardTree::Any(_) => Ok(self.enclosed(guard)?),
            _ => Ok(self.guard(guard)?),
        }
    }

    // Appends a part, with parentheses round an Any.
    #[cycle(guard)]
    #[tactic(auto, using(crate::proofs::GuardWords::guard_words))]
    fn part(&mut self, guard: &GuardTree) -> Result<(), OutOfMemory>
        ensures { IfOk result (λ _. self.new.text.items ≡ self.old.text.items ++ spaced (part_words name_words (guard_of guard.now))) }
    {
        match guard {
            GuardTree::Any(_) => Ok(self.enclosed(guard)?),
            _ => Ok(self.guard(guard)?),
        }
    }

    // Appends a guard in parentheses.
    #[cycle(guard)]
    #[tactic(auto, using(crate::proofs::GuardWords::guard_words))]
    fn enclosed(&mut self, guard: &GuardTree) -> Result<(), OutOfMemory>
        ensures { IfOk result (λ _. self.new.text.items ≡ self.old.text.items ++ spaced (round_words (formula_words name_words (guard_of guard.now)))) }
    {
        self.word(b"(")?;
        self.guard(guard)?;
        self.word(b")")
    }

    // Appends units with `and` between two.
    #[cycle(guard)]
    #[tactic(auto, using(crate::proofs::GuardWords::guard_words))]
    fn units(&mut self, units: &[GuardTree]) -> Result<(), OutOfMemory>
        ensures { IfOk result (λ _. self.new.text.items ≡ self.old.text.items ++ spaced (formula_words name_words (all (formulas_of (map guard_of units.now))))) }
    {
        let Some((first, others)) = units.split_first() else {
            return Ok(());
        };
        self.unit(first)?;
        for unit in others {
            self.word(b"and")?;
            self.unit(unit)?;
        }
        Ok(())
    }

    // Appends parts with `or` between two.
    #[cycle(guard)]
    #[tactic(auto, using(crate::proofs::GuardWords::guard_words))]
    fn parts(&mut self, parts: &[GuardTree]) -> Result<(), OutOfMemory>
        ensures { IfOk result (λ _. self.new.text.items ≡ self.old.text.items ++ spaced (formula_words name_words (any (formulas_of (map guard_of parts.now))))) }
    {
        let Some((first, others)) = parts.split_first() else {
            return Ok(());
        };
        self.part(first)?;
        for part in others {
            self.word(b"or")?;
            self.part(part)?;
        }
        Ok(())
    }

    /// Appends transitions, each behind the one before.
    #[tactic(auto, using(crate::proofs::GuardWords::transition_words))]
    pub fn transitions(&mut self, transitions: &[TransTree]) -> Result<(), OutOfMemory>
        ensures { IfOk result (λ _. self.new.text.items ≡ self.old.text.items ++ spaced (flat_map trans_words (map trans_of transitions.now))) }
    {
        for transition in transitions {
            self.transition(transition)?;
        }
        Ok(())
    }

    // Appends a transition.
    #[tactic(auto, using(crate::proofs::Spaced::words))]
    fn transition(&mut self, transition: &TransTree) -> Result<(), OutOfMemory>
        ensures { IfOk result (λ _. self.new.text.items ≡ self.old.text.items ++ spaced (trans_words (trans_of transition.now))) }
    {
        self.word(b"when")?;
        self.guard(&transition.guard)?;
        self.effect(&transition.outs, &transition.target)
    }

    /// Appends a timeout, if there is one.
    #[tactic(auto, using(crate::proofs::Spaced::words))]
    pub fn timeout(&mut self, timeout: &Option<TimedTree>) -> Result<(), OutOfMemory>
        ensures { IfOk result (λ _. self.new.text.items ≡ self.old.text.items ++ spaced (timeout_words (option_map timed_of timeout.now))) }
    {
        let Some(timed) = timeout else {
            return Ok(());
        };
        self.word(b"after")?;
        self.number(timed.count)?;
        self.word(b"of")?;
        self.name(&timed.signal)?;
        self.effect(&timed.outs, &timed.target)
    }

    // Appends what is emitted, if anything is, and the state that follows.
    #[tactic(auto, using(crate::proofs::Spaced::words))]
    fn effect(&mut self, outs: &[Spot], target: &Spot) -> Result<(), OutOfMemory>
        ensures { IfOk result (λ _. self.new.text.items ≡ self.old.text.items ++ spaced (effect_words (marks_of outs.now) (mark_of target.now))) }
    {
        self.emission(outs)?;
        self.word(b"goto")?;
        self.name(target)?;
        self.word(b";")
    }
}
