//! Certificates.
ghost use Rattle.std.specs.Prelude.{◌≡◌, ◌<◌, ◌≤◌, IfOk, length, MatchResult, ◌∷◌, []};
ghost use Rattle.argos_base.specs.Limits.{level_limit};
ghost use Rattle.argos_tokens.specs.TokenViews.{tokens_of};
ghost use Rattle.argos_grammar.specs.Views.{formula_of, claim_of, elapsed_of, claim_atom, numeral};
ghost use Rattle.argos_grammar.specs.Forms.{atom};
ghost use Rattle.argos_parser.specs.inner.Answers.{Answers, AnswersAt, AnswersToken, AnswersUnit, AnswersNot, AnswersEnclosed, AnswersClaimed};
ghost use Rattle.argos_grammar.specs.DueSymbols as due;
ghost use Rattle.argos_grammar.specs.Grammar as grammar;

use crate::parser::{Parser, Stop};
use argos_grammar::{CertNode, Spot};

impl Parser<'_, '_> {
    /// Reads a formula, where so much is open.
    #[cycle(formula)]
    #[tactic(auto, using(crate::proofs::Formulas::formulas))]
    pub fn formula(&mut self, depth: usize) -> Result<CertNode, Stop>
        requires { depth ≤ level_limit }
        ensures tree { IfOk result (λ g. grammar.IsCondition grammar.one_atom (formula_of g) (tokens_of self.old.rest.now) (tokens_of self.new.rest.now)) }
        ensures run { AnswersAt (due.rule due.formula ∷ []) depth (tokens_of self.old.rest.now) result (tokens_of self.new.rest.now) }
        ensures shorter { IfOk result (λ _. length self.new.rest.now < length self.old.rest.now) }
    {
        let first = self.conjunct(depth)?;
        if !self.take(b"or") {
            return Ok(first);
        }
        let mut conjuncts = Vec::new(self.alloc);
        conjuncts.push(first)?;
        conjuncts.push(self.conjunct(depth)?)?;
        while self.take(b"or") {
            conjuncts.push(self.conjunct(depth)?)?;
        }
        Ok(CertNode::Any(conjuncts))
    }

    // Reads factors with `and` between two.
    #[cycle(formula)]
    #[tactic(auto, using(crate::proofs::Formulas::formulas))]
    fn conjunct(&mut self, depth: usize) -> Result<CertNode, Stop>
        requires { depth ≤ level_limit }
        ensures tree { IfOk result (λ g. grammar.IsPart grammar.one_atom (formula_of g) (tokens_of self.old.rest.now) (tokens_of self.new.rest.now)) }
        ensures run { AnswersAt (due.rule due.conjunct ∷ []) depth (tokens_of self.old.rest.now) result (tokens_of self.new.rest.now) }
        ensures shorter { IfOk result (λ _. length self.new.rest.now < length self.old.rest.now) }
    {
        let first = self.factor(depth)?;
        if !self.take(b"and") {
            return Ok(first);
        }
        let mut factors = Vec::new(self.alloc);
        factors.push(first)?;
        factors.push(self.factor(depth)?)?;
        while self.take(b"and") {
            factors.push(self.factor(depth)?)?;
        }
        Ok(CertNode::All(factors))
    }

    // Reads a factor.
    #[cycle(formula)]
    #[tactic(auto, using(crate::proofs::Formulas::formulas))]
    fn factor(&mut self, depth: usize) -> Result<CertNode, Stop>
        requires { depth ≤ level_limit }
        ensures tree { IfOk result (λ g. grammar.IsUnit grammar.one_atom (formula_of g) (tokens_of self.old.rest.now) (tokens_of self.new.rest.now)) }
        ensures run { AnswersUnit due.factor depth (tokens_of self.old.rest.now) result (tokens_of self.new.rest.now) }
        ensures shorter { IfOk result (λ _. length self.new.rest.now < length self.old.rest.now) }
    {
        if self.is_at(b"not") {
            return Ok(self.denied(depth)?);
        }
        if self.take(b"true") {
            return Ok(CertNode::True);
        }
        if self.take(b"false") {
            return Ok(CertNode::False);
        }
        if self.is_at(b"(") {
            return Ok(self.grouped(depth)?);
        }
        Ok(self.atom()?)
    }

    // Reads `not` and a factor.
    #[cycle(formula)]
    #[tactic(auto, using(crate::proofs::Formulas::formulas))]
    fn denied(&mut self, depth: usize) -> Result<CertNode, Stop>
        requires { depth ≤ level_limit }
        ensures tree { IfOk result (λ g. grammar.IsUnit grammar.one_atom (formula_of g) (tokens_of self.old.rest.now) (tokens_of self.new.rest.now)) }
        ensures run { AnswersNot due.factor depth (tokens_of self.old.rest.now) result (tokens_of self.new.rest.now) }
        ensures shorter { IfOk result (λ _. length self.new.rest.now < length self.old.rest.now) }
    {
        self.not(depth)?;
        let factor = self.factor(depth + 1)?;
        Ok(CertNode::Not(Box::new(self.alloc, factor)?))
    }

    // Reads a formula in parentheses.
    #[cycle(formula)]
    #[tactic(auto, using(crate::proofs::Formulas::formulas))]
    fn grouped(&mut self, depth: usize) -> Result<CertNode, Stop>
        requires { depth ≤ level_limit }
        ensures tree { IfOk result (λ g. grammar.IsUnit grammar.one_atom (formula_of g) (tokens_of self.old.rest.now) (tokens_of self.new.rest.now)) }
        ensures run { AnswersEnclosed due.formula depth (tokens_of self.old.rest.now) result (tokens_of self.new.rest.now) }
        ensures shorter { IfOk result (λ _. length self.new.rest.now < length self.old.rest.now) }
    {
        self.open(b"(", depth)?;
        let formula = self.formula(depth + 1)?;
        self.close(b")")?;
        Ok(formula)
    }

    // Reads what is said of one register, or of two.
    #[tactic(auto, using(crate::proofs::Formulas::formulas))]
    fn atom(&mut self) -> Result<CertNode, Stop>
        ensures tree { IfOk result (λ x. grammar.IsUnit grammar.one_atom (formula_of x) (tokens_of self.old.rest.now) (tokens_of self.new.rest.now)) }
        ensures run { AnswersToken (due.rule due.atom) (tokens_of self.old.rest.now) result (tokens_of self.new.rest.now) }
        ensures shorter { IfOk result (λ _. length self.new.rest.now < length self.old.rest.now) }
    {
        if self.take(b"samecode") {
            let (left, left_at) = self.plain_number()?;
            let (right, right_at) = self.plain_number()?;
            return Ok(CertNode::SameCode {
                left,
                left_at,
                right,
                right_at,
            });
        }
        Ok(self.claimed()?)
    }

    // Reads what is said of one register.
    #[tactic(auto, using(crate::proofs::Formulas::formulas))]
    fn claimed(&mut self) -> Result<CertNode, Stop>
        ensures tree { IfOk result (λ x. grammar.IsUnit grammar.one_atom (formula_of x) (tokens_of self.old.rest.now) (tokens_of self.new.rest.now)) }
        ensures run { AnswersClaimed (tokens_of self.old.rest.now) result (tokens_of self.new.rest.now) }
        ensures shorter { IfOk result (λ _. length self.new.rest.now < length self.old.rest.now) }
    {
        let left = self.side()?;
        let (reg, reg_at) = self.plain_number()?;
        let claim = self.claim()?;
        Ok(node_of(left, reg, reg_at, claim))
    }

    // Reads whether the register is one of the left program.
    #[tactic(auto, using(crate::proofs::Formulas::formulas))]
    fn side(&mut self) -> Result<bool, Stop>
        ensures tree { IfOk result (λ x. grammar.side x (tokens_of self.old.rest.now) (tokens_of self.new.rest.now)) }
        ensures run { AnswersToken (due.rule due.side) (tokens_of self.old.rest.now) result (tokens_of self.new.rest.now) }
        ensures shorter { IfOk result (λ _. length self.new.rest.now < length self.old.rest.now) }
    {
        if self.take(b"lhs") {
            return Ok(true);
        }
        self.expect(b"rhs")?;
        Ok(false)
    }

    // Reads the state and the elapsed count that a register is in, or that it is inactive.
    #[tactic(auto, using(crate::proofs::Formulas::formulas))]
    fn claim(&mut self) -> Result<Option<(Spot, Option<(u16, u32)>)>, Stop>
        ensures tree { IfOk result (λ x. grammar.claim (claim_of x) (tokens_of self.old.rest.now) (tokens_of self.new.rest.now)) }
        ensures run { Answers (due.rule due.claim ∷ []) (tokens_of self.old.rest.now) result (tokens_of self.new.rest.now) }
        ensures shorter { IfOk result (λ _. length self.new.rest.now ≤ length self.old.rest.now) }
    {
        if self.take(b"inactive") {
            return Ok(None);
        }
        self.expect(b"in")?;
        let state = self.name()?;
        let elapsed = self.elapsed()?;
        Ok(Some((state, elapsed)))
    }

    // Reads an elapsed count, if there is one.
    #[tactic(auto, using(crate::proofs::Formulas::formulas))]
    fn elapsed(&mut self) -> Result<Option<(u16, u32)>, Stop>
        ensures tree { IfOk result (λ x. grammar.elapsed (elapsed_of x) (tokens_of self.old.rest.now) (tokens_of self.new.rest.now)) }
        ensures run { Answers (due.option due.elapsed ∷ []) (tokens_of self.old.rest.now) result (tokens_of self.new.rest.now) }
        ensures shorter { IfOk result (λ _. length self.new.rest.now ≤ length self.old.rest.now) }
    {
        if !self.take(b"elapsed") {
            return Ok(None);
        }
        let (count, at) = self.plain_number()?;
        Ok(Some((count, at)))
    }
}

// What is said of this register.
#[tactic(auto, using(crate::proofs::Formulas::formulas))]
fn node_of(left: bool, reg: u16, reg_at: u32, claim: Option<(Spot, Option<(u16, u32)>)>) -> CertNode
    ensures { formula_of result ≡ atom (claim_atom left (numeral reg reg_at) (claim_of claim)) }
{
    match claim {
        Some((state, elapsed)) => CertNode::InState {
            left,
            reg,
            reg_at,
            state,
            elapsed,
        },
        None => CertNode::Inactive { left, reg, reg_at },
    }
}
