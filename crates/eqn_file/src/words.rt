ghost use Rattle.std.specs.Prelude.{◌≡◌, ◌≢◌, ◌<◌, [], ◌∷◌, true, Some, nat_lt, ⊤, IfOk, MatchOption, MatchResult};
ghost use Rattle.eqn_core.specs.Ordered.{literal_below, choice_below};
ghost use Rattle.eqn_core.specs.Views.{literal_of, choice_of};
ghost use Rattle.line_format.proofs.Options.{keyword};
ghost use Rattle.eqn_file.specs.inner.Words.{split, words_left};
ghost use Rattle.eqn_file.specs.inner.WordReading.{number, take_number, take_literal, take_choice};

use crate::due::DueLine;
use crate::errors::{EqError, EqKind};
use crate::keywords::{CODE, NEXT, WORD};
use eqn_core::{Lit, Pick};
use line_format::{cut, read_number};

/// The words of a line that are left, each a part between single spaces; and whether each number that was read is in its range. One
/// that isn't is read as 0, and the line is refused where it is well spelt.
#[derive(Clone, Copy, Debug)]
pub(crate) struct LineWords<'a> {
    pub at: u32,
    pub left: Option<&'a [u8]>,
    pub fits: bool,
}

impl<'a> LineWords<'a> {
    ghost use Rattle.eqn_file.specs.inner.Taking.{IsMisspelt, IsNumber, Takes};

    /// All words of a line.
    pub fn new(line: DueLine<'a>) -> LineWords<'a>
        ensures at { result.at ≡ line.entry.at }
        ensures words { words_left result.left ≡ split line.entry.bytes.now }
        ensures fits { result.fits ≡ true }
    {
        LineWords {
            at: line.at,
            left: Some(line.bytes),
            fits: true,
        }
    }

    /// That the line isn't so spelt.
    pub fn misspelt(&self) -> EqError
        ensures { result ≡ EqError.Line self.now.at EqKind.Spelling }
    {
        EqError::Line {
            at: self.at,
            kind: EqKind::Spelling,
        }
    }

    /// That a number is outside its range.
    pub fn outside(&self) -> EqError
        ensures { result ≡ EqError.Line self.now.at EqKind.Range }
    {
        EqError::Line {
            at: self.at,
            kind: EqKind::Range,
        }
    }

    /// The next word, if one is left.
    pub fn next(&mut self) -> Option<&'a [u8]>
        ensures word { MatchOption result (words_left self.old.left ≡ []) (λ word. words_left self.old.left ≡ word.now ∷ words_left self.new.left) }
        ensures fits { self.new.fits ≡ self.old.fits }
        ensures at { self.new.at ≡ self.old.at }
    {
        let left = self.left?;
        match cut(left, b' ') {
            Some((word, rest)) => {
                self.left = Some(rest);
                Some(word)
            }
            None => {
                self.left = None;
                Some(left)
            }
        }
    }

    /// The next word, where one is due.
    pub fn word(&mut self) -> Result<&'a [u8], EqError>
        ensures word { MatchResult result (λ word. words_left self.old.left ≡ word.now ∷ words_left self.new.left) (λ _. words_left self.old.left ≡ []) }
        ensures kind { MatchResult result (λ _. self.new.at ≡ self.old.at) (λ e. e ≡ EqError.Line self.old.at EqKind.Spelling) }
        ensures fits { self.new.fits ≡ self.old.fits }
    {
        match self.next() {
            Some(word) => Ok(word),
            None => Err(self.misspelt()),
        }
    }

    /// The line has no word more.
    pub fn end(&self) -> Result<(), EqError>
        ensures end { MatchResult result (λ _. words_left self.now.left ≡ []) (λ _. words_left self.now.left ≢ []) }
        ensures kind { MatchResult result (λ _. ⊤) (λ e. e ≡ EqError.Line self.now.at EqKind.Spelling) }
    {
        match self.left {
            None => Ok(()),
            Some(_) => Err(self.misspelt()),
        }
    }

    /// The next word is this one.
    pub fn keyword(&mut self, word: &[u8]) -> Result<(), EqError>
        ensures word { MatchResult result (λ _. keyword word.now (λ ws. Some ws) (words_left self.old.left) ≡ Some (words_left self.new.left)) (λ e. IsMisspelt self.old.at (keyword word.now (λ ws. Some ws) (words_left self.old.left)) e) }
        ensures fits { self.new.fits ≡ self.old.fits }
        ensures at { self.new.at ≡ self.old.at }
    {
        match self.next() {
            Some(next) if next == word => Ok(()),
            _ => Err(self.misspelt()),
        }
    }

    // A number below `end`, from its digits.
    fn number_of(&mut self, digits: &[u8], end: u32) -> Result<u32, EqError>
        ensures number { MatchResult result (λ n. IsNumber digits.now end self.old.fits self.new.fits n) (λ e. IsMisspelt self.old.at (number digits.now) e) }
        ensures below { IfOk result (λ n. 0 < end → n < end) }
        ensures left { self.new.left ≡ self.old.left }
        ensures at { self.new.at ≡ self.old.at }
    {
        match read_number(digits) {
            Some(number) if number < end as u64 => Ok(number as u32),
            Some(_) => {
                self.fits = false;
                Ok(0)
            }
            None => Err(self.misspelt()),
        }
    }

    /// A number below `end`.
    pub fn number(&mut self, end: u32) -> Result<u32, EqError>
        ensures number { Takes (λ n. n) (take_number (words_left self.old.left)) (λ n. nat_lt n end) self.old self.new result }
        ensures below { IfOk result (λ n. 0 < end → n < end) }
    {
        let word = self.word()?;
        self.number_of(word, end)
    }

    /// A code.
    pub fn code(&mut self) -> Result<u16, EqError>
        ensures { Takes (λ n. n) (take_number (words_left self.old.left)) (λ n. nat_lt n 65536) self.old self.new result }
    {
        let code = self.number(65_536)?;
        Ok(code as u16)
    }

    /// A literal of a bit with a number below `bits`.
    pub fn literal(&mut self, bits: u32) -> Result<Lit, EqError>
        ensures { Takes literal_of (take_literal (words_left self.old.left)) (literal_below bits) self.old self.new result }
    {
        let word = self.word()?;
        match word.split_first() {
            Some((b'+', digits)) => Ok(Lit {
                bit: self.number_of(digits, bits)?,
                negated: false,
            }),
            Some((b'-', digits)) => Ok(Lit {
                bit: self.number_of(digits, bits)?,
                negated: true,
            }),
            _ => Err(self.misspelt()),
        }
    }

    /// A pick of a code, or of a word with a number below `words`.
    pub fn pick(&mut self, words: u32) -> Result<Pick, EqError>
        ensures { Takes choice_of (take_choice (words_left self.old.left)) (choice_below words) self.old self.new result }
    {
        let kind = self.word()?;
        if kind == CODE {
            Ok(Pick::Code(self.code()?))
        } else if kind == WORD {
            Ok(Pick::Word(self.number(words)?))
        } else if kind == NEXT {
            Ok(Pick::Next(self.number(words)?))
        } else {
            Err(self.misspelt())
        }
    }
}
