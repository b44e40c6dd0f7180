//! Certificates.
ghost use Rattle.std.specs.Prelude.{◌≡◌, ◌<◌, ◌≤◌, true, IfOk, length, MatchResult, ◌∷◌, []};
ghost use Rattle.argos_base.specs.Limits.{level_limit};
ghost use Rattle.argos_tokens.specs.TokenViews.{tokens_of};
ghost use Rattle.argos_grammar.specs.Views.{formula_of, cert_of};
ghost use Rattle.argos_grammar.specs.Runs.{outcome, ended};
ghost use Rattle.argos_parser.specs.inner.Answers.{AnswersAt, Refuses};
ghost use Rattle.argos_grammar.specs.DueSymbols as due;
ghost use Rattle.argos_grammar.specs.Grammar as grammar;

use crate::parser::{Parser, Stop};
use argos_grammar::{CertNode, CertTree};
use argos_tokens::Token;
use std::alloc::Global;

/// The certificate that these tokens are, or why they are none.
#[tactic(auto, using(crate::proofs::Certificates::certificates))]
pub fn read_cert(alloc: Global, tokens: &[Token]) -> Result<CertTree, Stop>
    ensures tree { IfOk result (λ c. grammar.cert (cert_of c) (tokens_of tokens.now) []) }
    ensures run { MatchResult result (λ _. outcome (due.rule due.cert ∷ []) [] (tokens_of tokens.now) ≡ ended true) (λ e. Refuses (due.rule due.cert ∷ []) [] (tokens_of tokens.now) e) }
{
    let mut parser = Parser {
        alloc,
        rest: tokens,
    };
    let cert = parser.cert()?;
    parser.end()?;
    Ok(cert)
}

impl Parser<'_, '_> {
    // Reads a certificate.
    #[tactic(auto, using(crate::proofs::Certificates::certificates))]
    fn cert(&mut self) -> Result<CertTree, Stop>
        ensures tree { IfOk result (λ c. grammar.cert (cert_of c) (tokens_of self.old.rest.now) (tokens_of self.new.rest.now)) }
        ensures run { AnswersAt (due.rule due.cert ∷ []) 0 (tokens_of self.old.rest.now) result (tokens_of self.new.rest.now) }
    {
        self.expect(b"bisim")?;
        let version = self.version()?;
        self.expect(b";")?;
        let formula = self.relation(0)?;
        Ok(CertTree { version, formula })
    }

    // Reads the formula of a certificate.
    #[tactic(auto, using(crate::proofs::Certificates::certificates))]
    fn relation(&mut self, depth: usize) -> Result<CertNode, Stop>
        requires { depth ≤ level_limit }
        ensures tree { IfOk result (λ f. grammar.relation (formula_of f) (tokens_of self.old.rest.now) (tokens_of self.new.rest.now)) }
        ensures run { AnswersAt (due.w "relation" ∷ due.rule due.formula ∷ due.w ";" ∷ []) depth (tokens_of self.old.rest.now) result (tokens_of self.new.rest.now) }
    {
        self.expect(b"relation")?;
        let formula = self.formula(depth)?;
        self.expect(b";")?;
        Ok(formula)
    }
}
