//! Aspects.
ghost use Rattle.std.specs.Prelude.{◌≡◌, ◌<◌, ◌≤◌, true, IfOk, length, map, MatchResult, ◌∷◌, []};
ghost use Rattle.argos_base.specs.Limits.{level_limit};
ghost use Rattle.argos_tokens.specs.TokenViews.{tokens_of};
ghost use Rattle.argos_grammar.specs.Views.{marks_of, set_of, component_of, aspect_of};
ghost use Rattle.argos_grammar.specs.Runs.{outcome, ended};
ghost use Rattle.argos_parser.specs.inner.Answers.{Answers, AnswersAt, AnswersSets, Refuses};
ghost use Rattle.argos_grammar.specs.DueSymbols as due;
ghost use Rattle.argos_grammar.specs.Grammar as grammar;

use crate::parser::{Parser, Stop};
use argos_grammar::{AspectTree, ComponentTree, Spot};
use argos_tokens::Token;
use std::alloc::Global;

/// The aspect that these tokens are, or why they are none.
#[tactic(auto, using(crate::proofs::Aspects::aspects))]
pub fn read_aspect(alloc: Global, tokens: &[Token]) -> Result<AspectTree, Stop>
    ensures tree { IfOk result (λ a. grammar.aspect (aspect_of a) (tokens_of tokens.now) []) }
    ensures run { MatchResult result (λ _. outcome (due.rule due.aspect ∷ []) [] (tokens_of tokens.now) ≡ ended true) (λ e. Refuses (due.rule due.aspect ∷ []) [] (tokens_of tokens.now) e) }
{
    let mut parser = Parser {
        alloc,
        rest: tokens,
    };
    let aspect = parser.aspect()?;
    parser.end()?;
    Ok(aspect)
}

impl Parser<'_, '_> {
    // Reads an aspect.
    #[tactic(auto, using(crate::proofs::Aspects::aspects))]
    fn aspect(&mut self) -> Result<AspectTree, Stop>
        ensures tree { IfOk result (λ x. grammar.aspect (aspect_of x) (tokens_of self.old.rest.now) (tokens_of self.new.rest.now)) }
        ensures run { AnswersAt (due.rule due.aspect ∷ []) 0 (tokens_of self.old.rest.now) result (tokens_of self.new.rest.now) }
    {
        let (version, components) = self.observer()?;
        let (outs, current) = self.advice()?;
        let trace = self.trace(0)?;
        Ok(AspectTree {
            version,
            components,
            outs,
            current,
            trace,
        })
    }

    // Reads the version and the components.
    #[tactic(auto, using(crate::proofs::Aspects::aspects))]
    fn observer(&mut self) -> Result<(u16, Vec<ComponentTree>), Stop>
        ensures tree { IfOk result (λ x. grammar.observer x.0 (map component_of x.1.items) (tokens_of self.old.rest.now) (tokens_of self.new.rest.now)) }
        ensures run { AnswersAt (due.w "larissa" ∷ due.version ∷ due.w ";" ∷ due.rule due.component ∷ due.repeat due.component ∷ []) 0 (tokens_of self.old.rest.now) result (tokens_of self.new.rest.now) }
    {
        self.expect(b"larissa")?;
        let version = self.version()?;
        self.expect(b";")?;
        let components = self.components()?;
        Ok((version, components))
    }

    // Reads what is emitted in place of the outputs, and where the trace begins.
    #[tactic(auto, using(crate::proofs::Aspects::aspects))]
    fn advice(&mut self) -> Result<(Vec<Spot>, bool), Stop>
        ensures tree { IfOk result (λ x. grammar.advice (marks_of x.0.items) x.1 (tokens_of self.old.rest.now) (tokens_of self.new.rest.now)) }
        ensures run { Answers (due.w "advice" ∷ due.option due.emission ∷ due.rule due.onset ∷ []) (tokens_of self.old.rest.now) result (tokens_of self.new.rest.now) }
    {
        self.expect(b"advice")?;
        let outs = self.emission()?;
        let current = self.onset()?;
        Ok((outs, current))
    }

    // Reads whether the trace begins at the current configuration.
    #[tactic(auto, using(crate::proofs::Aspects::aspects))]
    fn onset(&mut self) -> Result<bool, Stop>
        ensures tree { IfOk result (λ x. grammar.onset x (tokens_of self.old.rest.now) (tokens_of self.new.rest.now)) }
        ensures run { Answers (due.rule due.onset ∷ []) (tokens_of self.old.rest.now) result (tokens_of self.new.rest.now) }
    {
        if self.take(b"toCurrent") {
            return Ok(true);
        }
        self.expect(b"toInit")?;
        Ok(false)
    }

    // Reads the sets of the trace.
    #[tactic(auto, using(crate::proofs::Aspects::aspects))]
    fn trace(&mut self, depth: usize) -> Result<Vec<Vec<Spot>>, Stop>
        requires { depth ≤ level_limit }
        ensures tree { IfOk result (λ x. grammar.trace (map set_of x.items) (tokens_of self.old.rest.now) (tokens_of self.new.rest.now)) }
        ensures run { AnswersAt (due.w "[" ∷ due.option due.sets ∷ due.w "]" ∷ due.w ";" ∷ []) depth (tokens_of self.old.rest.now) result (tokens_of self.new.rest.now) }
    {
        self.open(b"[", depth)?;
        let sets = self.sets_before(depth + 1)?;
        self.close(b"]")?;
        self.expect(b";")?;
        Ok(sets)
    }

    // Reads the sets before the bracket that closes, or none.
    #[tactic(auto, using(crate::proofs::Aspects::aspects))]
    fn sets_before(&mut self, depth: usize) -> Result<Vec<Vec<Spot>>, Stop>
        ensures tree { IfOk result (λ x. grammar.optional grammar.sets (map set_of x.items) (tokens_of self.old.rest.now) (tokens_of self.new.rest.now)) }
        ensures run { AnswersSets depth (tokens_of self.old.rest.now) result (tokens_of self.new.rest.now) }
    {
        if self.is_at(b"]") {
            return Ok(Vec::new(self.alloc));
        }
        Ok(self.sets(depth)?)
    }

    // Reads one set or more.
    #[tactic(auto, using(crate::proofs::Aspects::aspects))]
    fn sets(&mut self, depth: usize) -> Result<Vec<Vec<Spot>>, Stop>
        ensures tree { IfOk result (λ x. grammar.sets (map set_of x.items) (tokens_of self.old.rest.now) (tokens_of self.new.rest.now)) }
        ensures run { AnswersAt (due.rule due.sets ∷ []) depth (tokens_of self.old.rest.now) result (tokens_of self.new.rest.now) }
    {
        let mut sets = Vec::new(self.alloc);
        sets.push(self.set(depth)?)?;
        while self.take(b",") {
            sets.push(self.set(depth)?)?;
        }
        Ok(sets)
    }

    // Reads a set of names.
    #[tactic(auto, using(crate::proofs::Aspects::aspects))]
    fn set(&mut self, depth: usize) -> Result<Vec<Spot>, Stop>
        ensures tree { IfOk result (λ x. grammar.set (marks_of x.items) (tokens_of self.old.rest.now) (tokens_of self.new.rest.now)) }
        ensures run { AnswersAt (due.rule due.set ∷ []) depth (tokens_of self.old.rest.now) result (tokens_of self.new.rest.now) }
        ensures shorter { IfOk result (λ _. length self.new.rest.now < length self.old.rest.now) }
    {
        self.open(b"{", depth)?;
        let names = self.names_before(b"}")?;
        self.close(b"}")?;
        Ok(names)
    }
}
