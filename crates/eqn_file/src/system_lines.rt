ghost use Rattle.std.specs.Prelude.{◌≡◌, ℕ, ◌+◌, ◌^◌, ◌<◌, map, IfOk};
ghost use Rattle.std.specs.List.{list_all};
ghost use Rattle.eqn_core.specs.Equations.{bits_of_line, words_of_line};
ghost use Rattle.eqn_core.specs.Ordered.{literal_below, line_below};
ghost use Rattle.eqn_core.specs.Views.{literal_of, line_of};
ghost use Rattle.eqn_file.specs.EquationFile.{range, unless};
ghost use Rattle.eqn_file.specs.inner.Words.{split, words_left};
ghost use Rattle.eqn_file.specs.inner.WordReading as reading;
ghost use Rattle.eqn_file.specs.inner.Taking.{TakesAll, Gives};

use crate::due::DueLine;
use crate::errors::EqError;
use crate::keywords::{ALL, ANY, BIT, CHOOSE, ELSE, WHEN, WITHIN};
use crate::words::LineWords;
use eqn_core::{Case, Line, Lit};
use smallvec::SmallVec;
use std::alloc::Global;

/// How many bits and words a line may read: those of inputs, registers and earlier lines.
#[derive(Clone, Copy, Debug)]
pub(crate) struct Bounds {
    pub bits: u32,
    pub words: u32,
}

impl Bounds {
    /// Those behind a line, which defines a bit or a word.
    pub fn behind(self, line: &Line) -> Bounds
        requires bits { self.bits + 1 < 2 ^ 32 }
        requires words { self.words + 1 < 2 ^ 32 }
        ensures bits { result.bits ≡ self.bits + bits_of_line (line_of line.now) }
        ensures words { result.words ≡ self.words + words_of_line (line_of line.now) }
    {
        match line {
            Line::Choose { .. } => Bounds {
                bits: self.bits,
                words: self.words + 1,
            },
            _ => Bounds {
                bits: self.bits + 1,
                words: self.words,
            },
        }
    }
}

/// A line of the system.
pub(crate) fn system_line(alloc: Global, line: DueLine<'_>, bounds: Bounds) -> Result<Line, EqError>
    ensures { Gives line_of line.entry.at (reading.read_line (split line.entry.bytes.now)) (λ l. unless range (line_below bounds.bits bounds.words l)) result }
{
    let mut words = LineWords::new(line);
    let line = line_by_kind(alloc, &mut words, bounds)?;
    if words.fits {
        Ok(line)
    } else {
        Err(words.outside())
    }
}

// A line by its first word.
fn line_by_kind(alloc: Global, words: &mut LineWords<'_>, bounds: Bounds) -> Result<Line, EqError>
    ensures { TakesAll line_of (reading.read_line (words_left words.old.left)) (line_below bounds.bits bounds.words) words.old words.new result }
{
    let kind = words.word()?;
    if kind == ALL {
        Ok(Line::All(literals(alloc, words, bounds.bits)?))
    } else if kind == ANY {
        Ok(Line::Any(literals(alloc, words, bounds.bits)?))
    } else if kind == WITHIN {
        within(words, bounds)
    } else if kind == BIT {
        digit(words, bounds)
    } else if kind == CHOOSE {
        choose(alloc, words, bounds)
    } else {
        Err(words.misspelt())
    }
}

// Literals up to the end of the line.
fn literals(
    alloc: Global,
    words: &mut LineWords<'_>,
    bits: u32,
) -> Result<SmallVec<Lit, 4>, EqError>
    ensures { TakesAll (λ v. map literal_of v.items) (reading.literals (words_left words.old.left)) (list_all (literal_below bits)) words.old words.new result }
{
    let mut literals = SmallVec::new(alloc);
    while words.left.is_some() {
        literals.push(words.literal(bits)?)?;
    }
    Ok(literals)
}

// A word and the bounds of its values.
fn within(words: &mut LineWords<'_>, bounds: Bounds) -> Result<Line, EqError>
    ensures { TakesAll line_of (reading.within_of (words_left words.old.left)) (line_below bounds.bits bounds.words) words.old words.new result }
{
    let word = words.number(bounds.words)?;
    let lo = words.code()?;
    let hi = words.code()?;
    words.end()?;
    words.fits &= lo <= hi;
    Ok(Line::Within { word, lo, hi })
}

// A word and the place of its digit.
fn digit(words: &mut LineWords<'_>, bounds: Bounds) -> Result<Line, EqError>
    ensures { TakesAll line_of (reading.digit_of (words_left words.old.left)) (line_below bounds.bits bounds.words) words.old words.new result }
{
    let word = words.number(bounds.words)?;
    let place = words.number(16)?;
    words.end()?;
    Ok(Line::Digit {
        word,
        place: place as u8,
    })
}

// Any number of cases, and the pick where none is true.
fn choose(alloc: Global, words: &mut LineWords<'_>, bounds: Bounds) -> Result<Line, EqError>
    ensures { TakesAll line_of (reading.choose_of (words_left words.old.left)) (line_below bounds.bits bounds.words) words.old words.new result }
{
    let mut cases = SmallVec::new(alloc);
    loop {
        let kind = words.word()?;
        if kind == WHEN {
            let when = words.literal(bounds.bits)?;
            let pick = words.pick(bounds.words)?;
            cases.push(Case { when, pick })?;
        } else if kind == ELSE {
            let other = words.pick(bounds.words)?;
            words.end()?;
            return Ok(Line::Choose { cases, other });
        } else {
            return Err(words.misspelt());
        }
    }
}
