ghost use Rattle.std.specs.Prelude.{◌≡◌, ◌+◌, ◌^◌, ◌<◌, length, IfSome, MatchOption};
ghost use Rattle.line_format.specs.Lines.{IsLine, IsCut};

use crate::cutting::cut;

/// A reader of bytes line by line: what is left of them, and the number of the line that stands in front, from 1.
#[derive(Clone, Copy, Debug)]
pub struct LineReader<'a> {
    pub rest: &'a [u8],
    pub number: u32,
}

impl<'a> LineReader<'a> {
    /// A reader that stands before the first line.
    pub fn new(bytes: &'a [u8]) -> LineReader<'a>
        ensures rest { result.rest.now ≡ bytes.now }
        ensures number { result.number ≡ 1 }
    {
        LineReader {
            rest: bytes,
            number: 1,
        }
    }

    /// The next line without its LF. Where no LF is left there is none, and the reader stays.
    pub fn next_line(&mut self) -> Option<&'a [u8]>
        requires { self.old.number + 1 < 2 ^ 32 }
        ensures line { MatchOption result (IsLine self.old.rest.now) (λ line. IsCut 10 self.old.rest.now line.now self.new.rest.now) }
        ensures number { MatchOption result (self.new.number ≡ self.old.number) (λ _. self.new.number ≡ self.old.number + 1) }
        ensures shorter { IfSome result (λ _. length self.new.rest.now < length self.old.rest.now) }
    {
        let (line, rest) = cut(self.rest, b'\n')?;
        self.rest = rest;
        self.number += 1;
        Some(line)
    }
}
