//! Guards.
ghost use Rattle.std.specs.Prelude.{◌≡◌, ◌<◌, ◌≤◌, IfOk, length, MatchResult, ◌∷◌, []};
ghost use Rattle.argos_base.specs.Limits.{level_limit};
ghost use Rattle.argos_tokens.specs.TokenViews.{tokens_of};
ghost use Rattle.argos_grammar.specs.Views.{guard_of};
ghost use Rattle.argos_parser.specs.inner.Answers.{AnswersAt, AnswersUnit, AnswersNot, AnswersEnclosed};
ghost use Rattle.argos_grammar.specs.DueSymbols as due;
ghost use Rattle.argos_grammar.specs.Grammar as grammar;

use crate::parser::{Parser, Stop};
use argos_grammar::GuardTree;

impl Parser<'_, '_> {
    /// Reads a guard, where so much is open.
    #[cycle(guard)]
    #[tactic(auto, using(crate::proofs::Conditions::guards))]
    pub fn guard(&mut self, depth: usize) -> Result<GuardTree, Stop>
        requires { depth ≤ level_limit }
        ensures tree { IfOk result (λ g. grammar.IsCondition grammar.name (guard_of g) (tokens_of self.old.rest.now) (tokens_of self.new.rest.now)) }
        ensures run { AnswersAt (due.rule due.guard ∷ []) depth (tokens_of self.old.rest.now) result (tokens_of self.new.rest.now) }
        ensures shorter { IfOk result (λ _. length self.new.rest.now < length self.old.rest.now) }
    {
        let first = self.part(depth)?;
        if !self.take(b"or") {
            return Ok(first);
        }
        let mut parts = Vec::new(self.alloc);
        parts.push(first)?;
        parts.push(self.part(depth)?)?;
        while self.take(b"or") {
            parts.push(self.part(depth)?)?;
        }
        Ok(GuardTree::Any(parts))
    }

    // Reads units with `and` between two.
    #[cycle(guard)]
    #[tactic(auto, using(crate::proofs::Conditions::guards))]
    fn part(&mut self, depth: usize) -> Result<GuardTree, Stop>
        requires { depth ≤ level_limit }
        ensures tree { IfOk result (λ g. grammar.IsPart grammar.name (guard_of g) (tokens_of self.old.rest.now) (tokens_of self.new.rest.now)) }
        ensures run { AnswersAt (due.rule due.part ∷ []) depth (tokens_of self.old.rest.now) result (tokens_of self.new.rest.now) }
        ensures shorter { IfOk result (λ _. length self.new.rest.now < length self.old.rest.now) }
    {
        let first = self.unit(depth)?;
        if !self.take(b"and") {
            return Ok(first);
        }
        let mut units = Vec::new(self.alloc);
        units.push(first)?;
        units.push(self.unit(depth)?)?;
        while self.take(b"and") {
            units.push(self.unit(depth)?)?;
        }
        Ok(GuardTree::All(units))
    }

    // Reads a unit.
    #[cycle(guard)]
    #[tactic(auto, using(crate::proofs::Conditions::guards))]
    fn unit(&mut self, depth: usize) -> Result<GuardTree, Stop>
        requires { depth ≤ level_limit }
        ensures tree { IfOk result (λ g. grammar.IsUnit grammar.name (guard_of g) (tokens_of self.old.rest.now) (tokens_of self.new.rest.now)) }
        ensures run { AnswersUnit due.unit depth (tokens_of self.old.rest.now) result (tokens_of self.new.rest.now) }
        ensures shorter { IfOk result (λ _. length self.new.rest.now < length self.old.rest.now) }
    {
        if self.is_at(b"not") {
            return Ok(self.opposite(depth)?);
        }
        if self.take(b"true") {
            return Ok(GuardTree::True);
        }
        if self.take(b"false") {
            return Ok(GuardTree::False);
        }
        if self.is_at(b"(") {
            return Ok(self.enclosed(depth)?);
        }
        Ok(GuardTree::Sig(self.name()?))
    }

    // Reads `not` and a unit.
    #[cycle(guard)]
    #[tactic(auto, using(crate::proofs::Conditions::guards))]
    fn opposite(&mut self, depth: usize) -> Result<GuardTree, Stop>
        requires { depth ≤ level_limit }
        ensures tree { IfOk result (λ g. grammar.IsUnit grammar.name (guard_of g) (tokens_of self.old.rest.now) (tokens_of self.new.rest.now)) }
        ensures run { AnswersNot due.unit depth (tokens_of self.old.rest.now) result (tokens_of self.new.rest.now) }
        ensures shorter { IfOk result (λ _. length self.new.rest.now < length self.old.rest.now) }
    {
        self.not(depth)?;
        let unit = self.unit(depth + 1)?;
        Ok(GuardTree::Not(Box::new(self.alloc, unit)?))
    }

    // Reads a guard in parentheses.
    #[cycle(guard)]
    #[tactic(auto, using(crate::proofs::Conditions::guards))]
    fn enclosed(&mut self, depth: usize) -> Result<GuardTree, Stop>
        requires { depth ≤ level_limit }
        ensures tree { IfOk result (λ g. grammar.IsUnit grammar.name (guard_of g) (tokens_of self.old.rest.now) (tokens_of self.new.rest.now)) }
        ensures run { AnswersEnclosed due.guard depth (tokens_of self.old.rest.now) result (tokens_of self.new.rest.now) }
        ensures shorter { IfOk result (λ _. length self.new.rest.now < length self.old.rest.now) }
    {
        self.open(b"(", depth)?;
        let guard = self.guard(depth + 1)?;
        self.close(b")")?;
        Ok(guard)
    }
}
