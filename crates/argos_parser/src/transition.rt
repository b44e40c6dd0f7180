//! Transitions and timeouts.
ghost use Rattle.std.specs.Prelude.{◌≡◌, ◌<◌, ◌≤◌, IfOk, length, map, option_map, MatchResult, ◌∷◌, []};
ghost use Rattle.argos_base.specs.Limits.{level_limit};
ghost use Rattle.argos_tokens.specs.TokenViews.{tokens_of};
ghost use Rattle.argos_grammar.specs.Views.{mark_of, marks_of, trans_of, timed_of};
ghost use Rattle.argos_parser.specs.inner.Answers.{Answers, AnswersAt};
ghost use Rattle.argos_grammar.specs.DueSymbols as due;
ghost use Rattle.argos_grammar.specs.Grammar as grammar;

use crate::parser::{Parser, Stop};
use argos_grammar::{Spot, TimedTree, TransTree};

impl Parser<'_, '_> {
    /// Reads the transitions of a state, where so much is open.
    #[tactic(auto, using(crate::proofs::Pieces::pieces))]
    pub fn transitions(&mut self, depth: usize) -> Result<Vec<TransTree>, Stop>
        requires { depth ≤ level_limit }
        ensures tree { IfOk result (λ v. grammar.each grammar.trans (map trans_of v.items) (tokens_of self.old.rest.now) (tokens_of self.new.rest.now)) }
        ensures run { AnswersAt (due.repeat due.trans ∷ []) depth (tokens_of self.old.rest.now) result (tokens_of self.new.rest.now) }
        ensures shorter { IfOk result (λ _. length self.new.rest.now ≤ length self.old.rest.now) }
    {
        let mut transitions = Vec::new(self.alloc);
        while self.is_at(b"when") {
            transitions.push(self.transition(depth)?)?;
        }
        Ok(transitions)
    }

    // Reads one transition.
    #[tactic(auto, using(crate::proofs::Pieces::pieces))]
    fn transition(&mut self, depth: usize) -> Result<TransTree, Stop>
        requires { depth ≤ level_limit }
        ensures tree { IfOk result (λ t. grammar.trans (trans_of t) (tokens_of self.old.rest.now) (tokens_of self.new.rest.now)) }
        ensures run { AnswersAt (due.rule due.trans ∷ []) depth (tokens_of self.old.rest.now) result (tokens_of self.new.rest.now) }
        ensures shorter { IfOk result (λ _. length self.new.rest.now < length self.old.rest.now) }
    {
        self.expect(b"when")?;
        let guard = self.guard(depth)?;
        let (outs, target) = self.effect()?;
        Ok(TransTree {
            guard,
            outs,
            target,
        })
    }

    /// Reads the timeout of a state, if it has one.
    #[tactic(auto, using(crate::proofs::Pieces::pieces))]
    pub fn timeout(&mut self) -> Result<Option<TimedTree>, Stop>
        ensures tree { IfOk result (λ t. grammar.timeout (option_map timed_of t) (tokens_of self.old.rest.now) (tokens_of self.new.rest.now)) }
        ensures run { Answers (due.option due.timeout ∷ []) (tokens_of self.old.rest.now) result (tokens_of self.new.rest.now) }
        ensures shorter { IfOk result (λ _. length self.new.rest.now ≤ length self.old.rest.now) }
    {
        if !self.is_at(b"after") {
            return Ok(None);
        }
        let timed = self.timed()?;
        Ok(Some(timed))
    }

    // Reads one timeout.
    #[tactic(auto, using(crate::proofs::Pieces::pieces))]
    fn timed(&mut self) -> Result<TimedTree, Stop>
        ensures tree { IfOk result (λ t. grammar.timed (timed_of t) (tokens_of self.old.rest.now) (tokens_of self.new.rest.now)) }
        ensures run { Answers (due.rule due.timeout ∷ []) (tokens_of self.old.rest.now) result (tokens_of self.new.rest.now) }
        ensures shorter { IfOk result (λ _. length self.new.rest.now < length self.old.rest.now) }
    {
        let count = self.delay()?;
        let signal = self.name()?;
        let (outs, target) = self.effect()?;
        Ok(TimedTree {
            count,
            signal,
            outs,
            target,
        })
    }

    // Reads how often the signal of a timeout is counted.
    #[tactic(auto, using(crate::proofs::Pieces::pieces))]
    fn delay(&mut self) -> Result<u16, Stop>
        ensures tree { IfOk result (λ n. grammar.delay n (tokens_of self.old.rest.now) (tokens_of self.new.rest.now)) }
        ensures run { Answers (due.w "after" ∷ due.count ∷ due.w "of" ∷ []) (tokens_of self.old.rest.now) result (tokens_of self.new.rest.now) }
        ensures shorter { IfOk result (λ _. length self.new.rest.now < length self.old.rest.now) }
    {
        self.expect(b"after")?;
        let count = self.count()?;
        self.expect(b"of")?;
        Ok(count)
    }

    // Reads what is emitted, and the state that is entered.
    #[tactic(auto, using(crate::proofs::Pieces::pieces))]
    fn effect(&mut self) -> Result<(Vec<Spot>, Spot), Stop>
        ensures tree { IfOk result (λ e. grammar.effect (marks_of e.0.items) (mark_of e.1) (tokens_of self.old.rest.now) (tokens_of self.new.rest.now)) }
        ensures run { Answers (due.option due.emission ∷ due.w "goto" ∷ due.name ∷ due.w ";" ∷ []) (tokens_of self.old.rest.now) result (tokens_of self.new.rest.now) }
        ensures shorter { IfOk result (λ _. length self.new.rest.now < length self.old.rest.now) }
    {
        let outs = self.emission()?;
        self.expect(b"goto")?;
        let target = self.name()?;
        self.expect(b";")?;
        Ok((outs, target))
    }
}
