//! What the machine of due symbols does with texts that follow the grammar.
ghost use Rattle.std.specs.Prelude.{◌≡◌, List, [], ◌∷◌, true};
ghost use Rattle.argos_grammar.specs.Forms.{ProgramForm, AspectForm, CertForm};
ghost use Rattle.argos_tokens.specs.Tokens.{Token};
ghost use Rattle.argos_grammar.specs.Text.{IsShallow};
ghost use Rattle.argos_grammar.specs.Runs.{outcome, ended};
ghost use Rattle.argos_grammar.specs.DueSymbols.{rule, program, aspect, cert};
ghost use Rattle.argos_grammar.specs.Grammar as grammar;

/// A list of tokens that follows the grammar of programs, and is nested no deeper than the limit, is taken to its end.
pub fn programs_are_taken()
    ensures { (p : ProgramForm) (ts : List Token) → grammar.program p ts [] → IsShallow [] ts → outcome (rule program ∷ []) [] ts ≡ ended true }
{}

/// A list of tokens that follows the grammar of aspects, and is nested no deeper than the limit, is taken to its end.
pub fn aspects_are_taken()
    ensures { (a : AspectForm) (ts : List Token) → grammar.aspect a ts [] → IsShallow [] ts → outcome (rule aspect ∷ []) [] ts ≡ ended true }
{}

/// A list of tokens that follows the grammar of certificates, and is nested no deeper than the limit, is taken to its end.
pub fn certificates_are_taken()
    ensures { (c : CertForm) (ts : List Token) → grammar.cert c ts [] → IsShallow [] ts → outcome (rule cert ∷ []) [] ts ≡ ended true }
{}
