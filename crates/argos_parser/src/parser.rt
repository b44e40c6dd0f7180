//! What the parsers share: the tokens ahead, and the words, names and numbers among them.
ghost use Rattle.std.specs.Prelude.{◌≡◌, ◌+◌, ◌<◌, ◌≤◌, true, false, IsTrue, IfOk, length, drop, MatchResult, List, ◌∷◌, [], if◌then◌else◌, IfErr, codes};
ghost use Rattle.argos_base.specs.Limits.{level_limit};
ghost use Rattle.std.specs.List.{list_all};
ghost use Rattle.argos_base.specs.Spelling.{is_word, is_letter_or_digit};
ghost use Rattle.argos_tokens.specs.TokenViews.{tokens_of};
ghost use Rattle.argos_grammar.specs.Views.{mark_of, marks_of, numeral};
ghost use Rattle.argos_grammar.specs.Faults.{Open, is_long_name};
ghost use Rattle.argos_grammar.specs.Runs.{begins_with};
ghost use Rattle.argos_parser.specs.inner.Answers.{AnswersToken, Opens, Closes, Declines, Refuses, IsNumeric, mismatch};
ghost use Rattle.argos_grammar.specs.Runs.{is_plain, opens, closes};
ghost use Rattle.argos_grammar.specs.DueSymbols as due;
ghost use Rattle.argos_grammar.specs.Faults as faults;
ghost use Rattle.argos_grammar.specs.Grammar as grammar;

use crate::number::{is_wrong_number, numeral};
use argos_base::{LEVEL_LIMIT, NAME_LIMIT, Name, is_letter, is_letter_or_digit, is_reserved};
use argos_grammar::{Spot, SyntaxKind};
use argos_tokens::Token;
use std::alloc::{AllocError, AllocFailed, Global};

/// Why a rule of the grammar can't be read.
#[derive(Clone, Copy, Debug)]
pub enum Stop {
    /// The tokens end.
    Ended,
    /// The token at this place can't stand there.
    Wrong { at: u32, kind: SyntaxKind },
    /// The token at this place is nested too deep.
    TooDeep { at: u32 },
    /// No memory was given.
    OutOfMemory,
}

impl From<AllocError> for Stop {
    ghost use Rattle.std.specs.Prelude.{◌≡◌};
    ghost use Rattle.argos_parser.specs.declared.parser.Stop.TheVariants.{OutOfMemory};

    ghost from_gives = { λ _ e. e ≡ OutOfMemory };

    fn from(_error: AllocError) -> Stop {
        Stop::OutOfMemory
    }
}

impl<T: Drop> From<AllocFailed<T>> for Stop {
    ghost use Rattle.std.specs.Prelude.{◌≡◌};
    ghost use Rattle.argos_parser.specs.declared.parser.Stop.TheVariants.{OutOfMemory};

    ghost from_gives = { λ _ e. e ≡ OutOfMemory };

    fn from(_error: AllocFailed<T>) -> Stop {
        Stop::OutOfMemory
    }
}

/// The tokens that are still ahead.
#[derive(Debug, Drop)]
pub struct Parser<'t, 'a> {
    pub alloc: Global,
    pub rest: &'t [Token<'a>],
}

impl Parser<'_, '_> {
    /// Whether the next token is this word or symbol.
    pub fn is_at(&self, word: &[u8]) -> bool
        ensures { result ≡ begins_with word.now (tokens_of self.now.rest.now) }
    {
        match self.rest.first() {
            Some(token) => token.text == word,
            None => false,
        }
    }

    /// Takes this word or symbol, if it is the next token.
    #[tactic(auto, using(crate::proofs::Ahead::ahead))]
    pub fn take(&mut self, word: &[u8]) -> bool
        ensures was { result ≡ begins_with word.now (tokens_of self.old.rest.now) }
        ensures rest { tokens_of self.new.rest.now ≡ (if result then drop 1 (tokens_of self.old.rest.now) else tokens_of self.old.rest.now) }
        ensures shorter { length self.new.rest.now + (if result then 1 else 0) ≡ length self.old.rest.now }
    {
        let found = self.is_at(word);
        if found {
            self.rest = &self.rest[1..];
        }
        found
    }

    /// Why the next token can't stand there, or the text end there.
    #[tactic(auto, using(crate::proofs::Ahead::ahead))]
    pub fn refusal(&self) -> Stop
        ensures { (symbols : List due.Symbol) (os : List Open) → Declines symbols (tokens_of self.now.rest.now) → Refuses symbols os (tokens_of self.now.rest.now) result }
    {
        match self.rest.first() {
            Some(token) => Stop::Wrong {
                at: token.at,
                kind: mismatch(token.text),
            },
            None => Stop::Ended,
        }
    }

    /// Takes this word or symbol, which opens and closes nothing.
    #[tactic(auto, using(crate::proofs::Ahead::ahead))]
    pub fn expect(&mut self, word: &[u8]) -> Result<(), Stop>
        requires { is_plain word.now ≡ true }
        ensures token { IfOk result (λ _. grammar.spelled word.now (tokens_of self.old.rest.now) (tokens_of self.new.rest.now)) }
        ensures run { AnswersToken (due.text word.now) (tokens_of self.old.rest.now) result (tokens_of self.new.rest.now) }
        ensures shorter { IfOk result (λ _. length self.new.rest.now < length self.old.rest.now) }
    {
        if self.take(word) {
            Ok(())
        } else {
            Err(self.refusal())
        }
    }

    /// Takes a name.
    #[tactic(auto, using(crate::proofs::Ahead::ahead))]
    pub fn name(&mut self) -> Result<Spot, Stop>
        ensures token { IfOk result (λ s. grammar.name (mark_of s) (tokens_of self.old.rest.now) (tokens_of self.new.rest.now)) }
        ensures run { AnswersToken due.name (tokens_of self.old.rest.now) result (tokens_of self.new.rest.now) }
        ensures shorter { IfOk result (λ _. length self.new.rest.now < length self.old.rest.now) }
    {
        let Some(token) = self.rest.first() else {
            return Err(Stop::Ended);
        };
        match Name::new(token.text) {
            Ok(name) => {
                let at = token.at;
                self.rest = &self.rest[1..];
                Ok(Spot { name, at })
            }
            Err(_) => Err(self.refusal()),
        }
    }

    /// Takes this bracket, which opens, where so much is open.
    #[tactic(auto, using(crate::proofs::Ahead::ahead))]
    pub fn open(&mut self, bracket: &[u8], depth: usize) -> Result<(), Stop>
        requires { opens bracket.now ≡ true }
        ensures token { IfOk result (λ _. grammar.spelled bracket.now (tokens_of self.old.rest.now) (tokens_of self.new.rest.now)) }
        ensures run { Opens bracket.now faults.bracket depth (tokens_of self.old.rest.now) result (tokens_of self.new.rest.now) }
        ensures shorter { IfOk result (λ _. length self.new.rest.now < length self.old.rest.now) }
        ensures shallow { IfOk result (λ _. depth < level_limit) }
    {
        match self.rest.first() {
            Some(token) if token.text == bracket && depth >= LEVEL_LIMIT => {
                Err(Stop::TooDeep { at: token.at })
            }
            _ if self.take(bracket) => Ok(()),
            _ => Err(self.refusal()),
        }
    }

    /// Takes a `not`, where so much is open.
    #[tactic(auto, using(crate::proofs::Ahead::ahead))]
    pub fn not(&mut self, depth: usize) -> Result<(), Stop>
        ensures token { IfOk result (λ _. grammar.word "not" (tokens_of self.old.rest.now) (tokens_of self.new.rest.now)) }
        ensures run { Opens (codes "not") faults.negation depth (tokens_of self.old.rest.now) result (tokens_of self.new.rest.now) }
        ensures shorter { IfOk result (λ _. length self.new.rest.now < length self.old.rest.now) }
        ensures shallow { IfOk result (λ _. depth < level_limit) }
    {
        match self.rest.first() {
            Some(token) if token.text == b"not".as_slice() && depth >= LEVEL_LIMIT => {
                Err(Stop::TooDeep { at: token.at })
            }
            _ if self.take(b"not") => Ok(()),
            _ => Err(self.refusal()),
        }
    }

    /// Takes this bracket, which closes.
    #[tactic(auto, using(crate::proofs::Ahead::ahead))]
    pub fn close(&mut self, bracket: &[u8]) -> Result<(), Stop>
        requires { closes bracket.now ≡ true }
        ensures token { IfOk result (λ _. grammar.spelled bracket.now (tokens_of self.old.rest.now) (tokens_of self.new.rest.now)) }
        ensures run { Closes bracket.now (tokens_of self.old.rest.now) result (tokens_of self.new.rest.now) }
        ensures shorter { IfOk result (λ _. length self.new.rest.now < length self.old.rest.now) }
    {
        if self.take(bracket) {
            Ok(())
        } else {
            Err(self.refusal())
        }
    }

    /// Takes a number, and says its place.
    #[tactic(auto, using(crate::proofs::Ahead::ahead))]
    pub fn number(&mut self) -> Result<(u16, u32), Stop>
        ensures token { IfOk result (λ n. grammar.numeral (numeral n.0 n.1) (tokens_of self.old.rest.now) (tokens_of self.new.rest.now)) }
        ensures refused { IfErr result (λ e. (s : due.Symbol) (symbols : List due.Symbol) (os : List Open) → IsNumeric s → Refuses (s ∷ symbols) os (tokens_of self.old.rest.now) e) }
        ensures shorter { IfOk result (λ _. length self.new.rest.now < length self.old.rest.now) }
    {
        let Some(token) = self.rest.first() else {
            return Err(Stop::Ended);
        };
        match numeral(token.text) {
            Some(number) => {
                let at = token.at;
                self.rest = &self.rest[1..];
                Ok((number, at))
            }
            None => Err(self.refusal()),
        }
    }

    /// Takes a number that is no version and no count, and says its place.
    #[tactic(auto, using(crate::proofs::Ahead::ahead))]
    pub fn plain_number(&mut self) -> Result<(u16, u32), Stop>
        ensures token { IfOk result (λ n. grammar.numeral (numeral n.0 n.1) (tokens_of self.old.rest.now) (tokens_of self.new.rest.now)) }
        ensures run { AnswersToken due.number (tokens_of self.old.rest.now) result (tokens_of self.new.rest.now) }
        ensures shorter { IfOk result (λ _. length self.new.rest.now < length self.old.rest.now) }
    {
        let (number, at) = self.number()?;
        Ok((number, at))
    }

    /// Takes the number of a version, which is 1.
    #[tactic(auto, using(crate::proofs::Ahead::ahead))]
    pub fn version(&mut self) -> Result<u16, Stop>
        ensures token { IfOk result (λ n. grammar.version n (tokens_of self.old.rest.now) (tokens_of self.new.rest.now)) }
        ensures run { AnswersToken due.version (tokens_of self.old.rest.now) result (tokens_of self.new.rest.now) }
    {
        let (version, at) = self.number()?;
        if version != 1 {
            let kind = SyntaxKind::Version;
            return Err(Stop::Wrong { at, kind });
        }
        Ok(version)
    }

    /// Takes the count of a timeout, which isn't 0.
    #[tactic(auto, using(crate::proofs::Ahead::ahead))]
    pub fn count(&mut self) -> Result<u16, Stop>
        ensures token { IfOk result (λ n. grammar.count n (tokens_of self.old.rest.now) (tokens_of self.new.rest.now)) }
        ensures run { AnswersToken due.count (tokens_of self.old.rest.now) result (tokens_of self.new.rest.now) }
        ensures shorter { IfOk result (λ _. length self.new.rest.now < length self.old.rest.now) }
    {
        let (count, at) = self.number()?;
        if count == 0 {
            let kind = SyntaxKind::Number;
            return Err(Stop::Wrong { at, kind });
        }
        Ok(count)
    }
}

// Why a token can't stand where it isn't due.
fn mismatch(text: &[u8]) -> SyntaxKind
    ensures { result ≡ mismatch text.now }
{
    if is_long_name(text) {
        SyntaxKind::LongName
    } else if is_wrong_number(text) {
        SyntaxKind::Number
    } else {
        SyntaxKind::Token
    }
}

// A name of more bytes than the limit.
fn is_long_name(text: &[u8]) -> bool
    ensures { result ≡ is_long_name text.now }
{
    is_word(text) && !is_reserved(text) && text.len() > NAME_LIMIT
}

// A letter, and letters and digits after it.
fn is_word(text: &[u8]) -> bool
    ensures { result ≡ is_word text.now }
{
    match text.split_first() {
        Some((first, rest)) => is_letter(*first) && are_letters_or_digits(rest),
        None => false,
    }
}

// Each byte is a letter or a digit.
fn are_letters_or_digits(bytes: &[u8]) -> bool
    ensures { result ≡ list_all is_letter_or_digit bytes.now }
{
    bytes.iter().all(|b| is_letter_or_digit(*b))
}
