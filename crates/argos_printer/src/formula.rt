//! The printing of certificates' formulas. Places aren't printed, so clauses put 0 there.
ghost use Rattle.std.specs.Prelude.{◌≡◌, ℕ, ◌++◌, IfOk, map, Option};
ghost use Rattle.argos_grammar.specs.Forms.{atom, in_state, inactive, same_code, all, any};
ghost use Rattle.argos_grammar.specs.Views.{mark_of, formula_of, formulas_of, numeral, elapsed_of};
ghost use Rattle.argos_grammar.specs.Printed.{side_words, elapsed_words, atom_words, formula_words};
ghost use Rattle.argos_printer.specs.Spaced.{spaced, round_words, unit_words, part_words};

use crate::printer::Printer;
use argos_base::OutOfMemory;
use argos_grammar::{CertNode, Spot};

impl Printer {
    /// Appends a formula.
    #[cycle(formula)]
    #[tactic(auto, using(crate::proofs::FormulaWords::formula_list))]
    pub fn formula(&mut self, formula: &CertNode) -> Result<(), OutOfMemory>
        ensures { IfOk result (λ _. self.new.text.items ≡ self.old.text.items ++ spaced (formula_words atom_words (formula_of formula.now))) }
    {
        match formula {
            CertNode::True => self.word(b"true"),
            CertNode::False => self.word(b"false"),
            CertNode::InState {
                left,
                reg,
                reg_at: _,
                state,
                elapsed,
            } => Ok(self.in_state(*left, *reg, state, *elapsed)?),
            CertNode::Inactive {
                left,
                reg,
                reg_at: _,
            } => Ok(self.inactive(*left, *reg)?),
            CertNode::SameCode {
                left,
                left_at: _,
                right,
                right_at: _,
            } => Ok(self.same_code(*left, *right)?),
            CertNode::Not(factor) => {
                self.word(b"not")?;
                Ok(self.factor(factor)?)
            }
            CertNode::All(factors) => Ok(self.factors(factors)?),
            CertNode::Any(conjuncts) => Ok(self.conjuncts(conjuncts)?),
        }
    }

    // Appends a factor, with parentheses round an All or an Any.
    #[cycle(formula)]
    #[tactic(auto, using(crate::proofs::FormulaWords::formula_list))]
    fn factor(&mut self, formula: &CertNode) -> Result<(), OutOfMemory>
        ensures { IfOk result (λ _. self.new.text.items ≡ self.old.text.items ++ spaced (unit_words atom_words (formula_of formula.now))) }
    {
        match formula {
            CertNode::All(_) | CertNode::Any(_) => Ok(self.grouped(formula)?),
            _ => Ok(self.formula(formula)?),
        }
    }

    // Appends a conjunct, with parentheses round an Any.
    #[cycle(formula)]
    #[tactic(auto, using(crate::proofs::FormulaWords::formula_list))]
    fn conjunct(&mut self, formula: &CertNode) -> Result<(), OutOfMemory>
        ensures { IfOk result (λ _. self.new.text.items ≡ self.old.text.items ++ spaced (part_words atom_words (formula_of formula.now))) }
    {
        match formula {
            CertNode::Any(_) => Ok(self.grouped(formula)?),
            _ => Ok(self.formula(formula)?),
        }
    }

    // Appends a formula in parentheses.
    #[cycle(formula)]
    #[tactic(auto, using(crate::proofs::FormulaWords::formula_list))]
    fn grouped(&mut self, formula: &CertNode) -> Result<(), OutOfMemory>
        ensures { IfOk result (λ _. self.new.text.items ≡ self.old.text.items ++ spaced (round_words (formula_words atom_words (formula_of formula.now)))) }
    {
        self.word(b"(")?;
        self.formula(formula)?;
        self.word(b")")
    }

    // Appends factors with `and` between two.
    #[cycle(formula)]
    #[tactic(auto, using(crate::proofs::FormulaWords::formula_list))]
    fn factors(&mut self, factors: &[CertNode]) -> Result<(), OutOfMemory>
        ensures { IfOk result (λ _. self.new.text.items ≡ self.old.text.items ++ spaced (formula_words atom_words (all (formulas_of (map formula_of factors.now))))) }
    {
        let Some((first, others)) = factors.split_first() else {
            return Ok(());
        };
        self.factor(first)?;
        for factor in others {
            self.word(b"and")?;
            self.factor(factor)?;
        }
        Ok(())
    }

    // Appends conjuncts with `or` between two.
    #[cycle(formula)]
    #[tactic(auto, using(crate::proofs::FormulaWords::formula_list))]
    fn conjuncts(&mut self, conjuncts: &[CertNode]) -> Result<(), OutOfMemory>
        ensures { IfOk result (λ _. self.new.text.items ≡ self.old.text.items ++ spaced (formula_words atom_words (any (formulas_of (map formula_of conjuncts.now))))) }
    {
        let Some((first, others)) = conjuncts.split_first() else {
            return Ok(());
        };
        self.conjunct(first)?;
        for conjunct in others {
            self.word(b"or")?;
            self.conjunct(conjunct)?;
        }
        Ok(())
    }

    // Appends that a register is in a state, perhaps with an elapsed count.
    #[tactic(auto, using(crate::proofs::Spaced::words))]
    fn in_state(
        &mut self,
        left: bool,
        reg: u16,
        state: &Spot,
        elapsed: Option<(u16, u32)>,
    ) -> Result<(), OutOfMemory>
        ensures { IfOk result (λ _. self.new.text.items ≡ self.old.text.items ++ spaced (atom_words (in_state left (numeral reg 0) (mark_of state.now) (elapsed_of elapsed)))) }
    {
        self.side(left)?;
        self.number(reg)?;
        self.word(b"in")?;
        self.name(state)?;
        self.elapsed(elapsed)
    }

    // Appends that a register is inactive.
    #[tactic(auto, using(crate::proofs::Spaced::words))]
    fn inactive(&mut self, left: bool, reg: u16) -> Result<(), OutOfMemory>
        ensures { IfOk result (λ _. self.new.text.items ≡ self.old.text.items ++ spaced (atom_words (inactive left (numeral reg 0)))) }
    {
        self.side(left)?;
        self.number(reg)?;
        self.word(b"inactive")
    }

    // Appends that two registers have the same code.
    #[tactic(auto, using(crate::proofs::Spaced::words))]
    fn same_code(&mut self, left: u16, right: u16) -> Result<(), OutOfMemory>
        ensures { IfOk result (λ _. self.new.text.items ≡ self.old.text.items ++ spaced (atom_words (same_code (numeral left 0) (numeral right 0)))) }
    {
        self.word(b"samecode")?;
        self.number(left)?;
        self.number(right)
    }

    // Appends on which side a register is.
    fn side(&mut self, left: bool) -> Result<(), OutOfMemory>
        ensures { IfOk result (λ _. self.new.text.items ≡ self.old.text.items ++ spaced (side_words left)) }
    {
        if left {
            self.word(b"lhs")
        } else {
            self.word(b"rhs")
        }
    }

    // Appends an elapsed count, if there is one.
    #[tactic(auto, using(crate::proofs::Spaced::words))]
    fn elapsed(&mut self, elapsed: Option<(u16, u32)>) -> Result<(), OutOfMemory>
        ensures { IfOk result (λ _. self.new.text.items ≡ self.old.text.items ++ spaced (elapsed_words (elapsed_of elapsed))) }
    {
        let Some((count, _)) = elapsed else {
            return Ok(());
        };
        self.word(b"elapsed")?;
        self.number(count)
    }
}
