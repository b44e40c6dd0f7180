//! Lists of names.
ghost use Rattle.std.specs.Prelude.{◌≡◌, ◌<◌, ◌≤◌, false, IfOk, length, MatchResult, ◌∷◌, []};
ghost use Rattle.argos_base.specs.Spelling.{is_word};
ghost use Rattle.argos_tokens.specs.TokenViews.{tokens_of};
ghost use Rattle.argos_grammar.specs.Views.{marks_of};
ghost use Rattle.argos_parser.specs.inner.Answers.{Answers, AnswersAt, AnswersBefore};
ghost use Rattle.argos_grammar.specs.DueSymbols as due;
ghost use Rattle.argos_grammar.specs.Grammar as grammar;

use crate::parser::{Parser, Stop};
use argos_grammar::Spot;

impl Parser<'_, '_> {
    /// Reads one name or more, with a comma between two.
    #[tactic(auto, using(crate::proofs::Growing::growing))]
    pub fn names(&mut self) -> Result<Vec<Spot>, Stop>
        ensures tree { IfOk result (λ v. grammar.names (marks_of v.items) (tokens_of self.old.rest.now) (tokens_of self.new.rest.now)) }
        ensures run { Answers (due.rule due.names ∷ []) (tokens_of self.old.rest.now) result (tokens_of self.new.rest.now) }
        ensures shorter { IfOk result (λ _. length self.new.rest.now < length self.old.rest.now) }
    {
        let mut names = Vec::new(self.alloc);
        names.push(self.name()?)?;
        while self.take(b",") {
            names.push(self.name()?)?;
        }
        Ok(names)
    }

    /// Reads names before a bracket that closes, or none.
    #[tactic(auto, using(crate::proofs::Growing::growing))]
    pub fn names_before(&mut self, close: &[u8]) -> Result<Vec<Spot>, Stop>
        requires { is_word close.now ≡ false }
        ensures tree { IfOk result (λ v. grammar.optional grammar.names (marks_of v.items) (tokens_of self.old.rest.now) (tokens_of self.new.rest.now)) }
        ensures run { AnswersBefore close.now (due.option due.names ∷ []) (tokens_of self.old.rest.now) result (tokens_of self.new.rest.now) }
        ensures shorter { IfOk result (λ _. length self.new.rest.now ≤ length self.old.rest.now) }
    {
        if self.is_at(close) {
            return Ok(Vec::new(self.alloc));
        }
        Ok(self.names()?)
    }

    /// Reads names in parentheses, or none.
    #[tactic(auto, using(crate::proofs::Growing::growing))]
    pub fn listed(&mut self, depth: usize) -> Result<Vec<Spot>, Stop>
        ensures tree { IfOk result (λ v. grammar.listed (marks_of v.items) (tokens_of self.old.rest.now) (tokens_of self.new.rest.now)) }
        ensures run { AnswersAt (due.w "(" ∷ due.option due.names ∷ due.w ")" ∷ []) depth (tokens_of self.old.rest.now) result (tokens_of self.new.rest.now) }
        ensures shorter { IfOk result (λ _. length self.new.rest.now < length self.old.rest.now) }
    {
        self.open(b"(", depth)?;
        let names = self.names_before(b")")?;
        self.close(b")")?;
        Ok(names)
    }

    /// Reads the names that are emitted, or none.
    #[tactic(auto, using(crate::proofs::Growing::growing))]
    pub fn emission(&mut self) -> Result<Vec<Spot>, Stop>
        ensures tree { IfOk result (λ v. grammar.emitted (marks_of v.items) (tokens_of self.old.rest.now) (tokens_of self.new.rest.now)) }
        ensures run { Answers (due.option due.emission ∷ []) (tokens_of self.old.rest.now) result (tokens_of self.new.rest.now) }
        ensures shorter { IfOk result (λ _. length self.new.rest.now ≤ length self.old.rest.now) }
    {
        if !self.take(b"emit") {
            return Ok(Vec::new(self.alloc));
        }
        Ok(self.names()?)
    }

    /// Reads the names of inputs and of outputs.
    #[tactic(auto, using(crate::proofs::Pieces::pieces))]
    pub fn interface(&mut self, depth: usize) -> Result<(Vec<Spot>, Vec<Spot>), Stop>
        ensures tree { IfOk result (λ v. grammar.interface (marks_of v.0.items) (marks_of v.1.items) (tokens_of self.old.rest.now) (tokens_of self.new.rest.now)) }
        ensures run { AnswersAt (due.listed (due.w "->" ∷ due.listed [])) depth (tokens_of self.old.rest.now) result (tokens_of self.new.rest.now) }
        ensures shorter { IfOk result (λ _. length self.new.rest.now < length self.old.rest.now) }
    {
        let inputs = self.listed(depth)?;
        self.expect(b"->")?;
        let outputs = self.listed(depth)?;
        Ok((inputs, outputs))
    }
}
