//! Components and programs.
ghost use Rattle.std.specs.Prelude.{◌≡◌, ◌<◌, ◌≤◌, true, IfOk, IfErr, length, map, MatchResult, List, ◌∷◌, []};
ghost use Rattle.argos_tokens.specs.TokenViews.{tokens_of};
ghost use Rattle.argos_grammar.specs.Views.{component_of, program_of};
ghost use Rattle.argos_grammar.specs.Runs.{outcome, ended};
ghost use Rattle.argos_parser.specs.inner.Answers.{AnswersAt, Refuses};
ghost use Rattle.argos_grammar.specs.DueSymbols as due;
ghost use Rattle.argos_grammar.specs.Grammar as grammar;

use crate::parser::{Parser, Stop};
use argos_grammar::{ComponentTree, ProgramTree};
use argos_tokens::Token;
use std::alloc::Global;

/// The program that these tokens are, or why they are none.
#[tactic(auto, using(crate::proofs::Programs::programs))]
pub fn read_program(alloc: Global, tokens: &[Token]) -> Result<ProgramTree, Stop>
    ensures tree { IfOk result (λ p. grammar.program (program_of p) (tokens_of tokens.now) []) }
    ensures run { MatchResult result (λ _. outcome (due.rule due.program ∷ []) [] (tokens_of tokens.now) ≡ ended true) (λ e. Refuses (due.rule due.program ∷ []) [] (tokens_of tokens.now) e) }
{
    let mut parser = Parser {
        alloc,
        rest: tokens,
    };
    let program = parser.program()?;
    parser.end()?;
    Ok(program)
}

impl Parser<'_, '_> {
    /// Sees that no token is ahead.
    #[tactic(auto, using(crate::proofs::Programs::programs))]
    pub fn end(&self) -> Result<(), Stop>
        ensures none { IfOk result (λ _. tokens_of self.now.rest.now ≡ []) }
        ensures run { MatchResult result (λ _. outcome [] [] (tokens_of self.now.rest.now) ≡ ended true) (λ e. Refuses [] [] (tokens_of self.now.rest.now) e) }
    {
        if !self.rest.is_empty() {
            return Err(self.refusal());
        }
        Ok(())
    }

    // Reads a program.
    #[tactic(auto, using(crate::proofs::Programs::programs))]
    fn program(&mut self) -> Result<ProgramTree, Stop>
        ensures tree { IfOk result (λ p. grammar.program (program_of p) (tokens_of self.old.rest.now) (tokens_of self.new.rest.now)) }
        ensures run { AnswersAt (due.rule due.program ∷ []) 0 (tokens_of self.old.rest.now) result (tokens_of self.new.rest.now) }
    {
        self.expect(b"argos")?;
        let version = self.version()?;
        self.expect(b";")?;
        let components = self.components()?;
        Ok(ProgramTree {
            version,
            components,
        })
    }

    /// Reads one component or more.
    #[tactic(auto, using(crate::proofs::Programs::programs))]
    pub fn components(&mut self) -> Result<Vec<ComponentTree>, Stop>
        ensures tree { IfOk result (λ v. grammar.components (map component_of v.items) (tokens_of self.old.rest.now) (tokens_of self.new.rest.now)) }
        ensures run { AnswersAt (due.rule due.component ∷ due.repeat due.component ∷ []) 0 (tokens_of self.old.rest.now) result (tokens_of self.new.rest.now) }
    {
        let mut components = Vec::new(self.alloc);
        components.push(self.component()?)?;
        while self.is_at(b"component") {
            components.push(self.component()?)?;
        }
        Ok(components)
    }

    // Reads a component.
    #[tactic(auto, using(crate::proofs::Programs::programs))]
    fn component(&mut self) -> Result<ComponentTree, Stop>
        ensures tree { IfOk result (λ c. grammar.component (component_of c) (tokens_of self.old.rest.now) (tokens_of self.new.rest.now)) }
        ensures run { AnswersAt (due.rule due.component ∷ []) 0 (tokens_of self.old.rest.now) result (tokens_of self.new.rest.now) }
        ensures shorter { IfOk result (λ _. length self.new.rest.now < length self.old.rest.now) }
    {
        self.expect(b"component")?;
        let name = self.name()?;
        let (inputs, outputs) = self.interface(0)?;
        let block = self.block(0)?;
        Ok(ComponentTree {
            name,
            inputs,
            outputs,
            block,
        })
    }
}
