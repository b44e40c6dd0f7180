ghost use Rattle.std.specs.Prelude.{◌≡◌, ◌+◌, ◌≤◌, ◌<◌, ◌^◌, length, take, drop, bytes_eq, true, false, Some, None, IfOk, IfErr, MatchResult, MatchOption};
ghost use Rattle.std.specs.Char.{is_ascii_digit};
ghost use Rattle.line_format.specs.Lines.{IsCut, IsLine};
ghost use Rattle.c_step.specs.inner.Pieces.{behind, before, begins, skipped, front_of, behind_front, take_number, take_index};

use crate::errors::CError;
use line_format::{LineReader, read_number};

/// A line without its LF, of which the front is read, and its number.
#[derive(Clone, Copy, Debug)]
pub(crate) struct Pieces<'a> {
    pub at: u32,
    pub rest: &'a [u8],
}

/// The next line, where one is due.
pub(crate) fn due_line<'a>(reader: &mut LineReader<'a>) -> Result<Pieces<'a>, CError>
    requires { reader.old.number + length reader.old.rest.now < 2 ^ 32 }
    ensures line { IfOk result (λ line. IsCut 10 reader.old.rest.now line.rest.now reader.new.rest.now) }
    ensures at { IfOk result (λ line. line.at ≡ reader.old.number) }
    ensures number { IfOk result (λ _. reader.new.number ≡ reader.old.number + 1) }
    ensures shorter { IfOk result (λ _. length reader.new.rest.now < length reader.old.rest.now) }
    ensures missing { IfErr result (λ _. IsLine reader.old.rest.now) }
    ensures kind { IfErr result (λ e. e ≡ CError.NotSubset reader.old.number) }
{
    let at = reader.number;
    if reader.rest.is_empty() {
        return Err(CError::NotSubset { at });
    }
    match reader.next_line() {
        Some(rest) => Ok(Pieces { at, rest }),
        None => Err(CError::NotSubset { at }),
    }
}

// The bytes behind the text, where it stands in front.
fn behind<'a>(bytes: &'a [u8], text: &[u8]) -> Option<&'a [u8]>
    ensures { MatchOption result (behind text.now bytes.now ≡ None) (λ rest. behind text.now bytes.now ≡ Some rest.now) }
{
    bytes.strip_prefix(text)
}

/// The bytes before the text, where it stands at the end.
pub(crate) fn before<'a>(bytes: &'a [u8], text: &[u8]) -> Option<&'a [u8]>
    ensures { MatchOption result (before text.now bytes.now ≡ None) (λ front. before text.now bytes.now ≡ Some front.now) }
{
    bytes.strip_suffix(text)
}

// How many of the bytes in front are digits.
fn count_digits(bytes: &[u8]) -> usize
    ensures within { result ≤ length bytes.now }
    ensures digits { take result bytes.now ≡ front_of is_ascii_digit bytes.now }
    ensures rest { drop result bytes.now ≡ behind_front is_ascii_digit bytes.now }
{
    for (count, byte) in bytes.iter().enumerate() {
        if !byte.is_ascii_digit() {
            return count;
        }
    }
    bytes.len()
}

impl<'a> Pieces<'a> {
    ghost use Rattle.c_step.specs.inner.Taking.{Refuses, Takes, TakesText};

    /// That the line isn't one that is due.
    pub fn refused(&self) -> CError
        ensures { result ≡ CError.NotSubset self.now.at }
    {
        CError::NotSubset { at: self.at }
    }

    /// Whether the text stands in front.
    pub fn begins(&self, text: &[u8]) -> bool
        ensures { result ≡ begins text.now self.now.rest.now }
    {
        behind(self.rest, text).is_some()
    }

    /// Takes the text where it stands in front, and tells whether it did.
    pub fn skip(&mut self, text: &[u8]) -> bool
        ensures stood { result ≡ begins text.now self.old.rest.now }
        ensures rest { self.new.rest.now ≡ skipped text.now self.old.rest.now }
        ensures at { self.new.at ≡ self.old.at }
    {
        match behind(self.rest, text) {
            Some(rest) => {
                self.rest = rest;
                true
            }
            None => false,
        }
    }

    /// The text.
    pub fn text(&mut self, text: &[u8]) -> Result<(), CError>
        ensures { TakesText (behind text.now self.old.rest.now) self.old self.new result }
    {
        match behind(self.rest, text) {
            Some(rest) => {
                self.rest = rest;
                Ok(())
            }
            None => Err(self.refused()),
        }
    }

    /// Whether the text is all that is left.
    pub fn is_last(&self, text: &[u8]) -> bool
        ensures { result ≡ bytes_eq self.now.rest.now text.now }
    {
        self.rest == text
    }

    /// The text, and the end of the line.
    pub fn last(&self, text: &[u8]) -> Result<(), CError>
        ensures whole { MatchResult result (λ _. bytes_eq self.now.rest.now text.now ≡ true) (λ _. bytes_eq self.now.rest.now text.now ≡ false) }
        ensures kind { IfErr result (λ e. e ≡ CError.NotSubset self.now.at) }
    {
        if self.is_last(text) {
            Ok(())
        } else {
            Err(self.refused())
        }
    }

    /// A number below `end`.
    pub fn number(&mut self, end: u32) -> Result<u32, CError>
        ensures taken { Takes (λ n. n) (take_number end self.old.rest.now) self.old self.new result }
        ensures below { IfOk result (λ n. n < end) }
    {
        let (digits, rest) = self.rest.split_at(count_digits(self.rest));
        match read_number(digits) {
            Some(number) if number < end as u64 => {
                self.rest = rest;
                Ok(number as u32)
            }
            _ => Err(self.refused()),
        }
    }

    /// A place of an array that has `end` places.
    pub fn index(&mut self, array: &[u8], end: u32) -> Result<u32, CError>
        ensures taken { Takes (λ n. n) (take_index array.now end self.old.rest.now) self.old self.new result }
        ensures below { IfOk result (λ n. n < end) }
    {
        self.text(array)?;
        let index = self.number(end)?;
        self.text(b"]")?;
        Ok(index)
    }
}
