ghost use Rattle.std.specs.Prelude.{◌≡◌, ℕ, ◌+◌, ◌<◌, ◌^◌, length, map, IfOk, IsTrue, All};
ghost use Rattle.std.specs.List.{list_all};
ghost use Rattle.argos_base.specs.SignalSets.{has, lists};
ghost use Rattle.eqn_core.specs.Ordered.{choice_below, case_below, line_below};
ghost use Rattle.eqn_core.specs.Views.{literal_of, choice_of, case_of, line_of};
ghost use Rattle.eqn_completion.specs.Moving as plain;
ghost use Rattle.eqn_sort.specs.Numbers.{numbers_from};
ghost use Rattle.eqn_sort.specs.inner.Own.{defines_word, own_numbers};

use crate::tables::Tables;
use argos_base::{OutOfMemory, Signals};
use eqn_core::{Case, Line, Lit, Pick, System};
use smallvec::SmallVec;
use std::alloc::Global;

/// Whether the line defines a word.
pub(crate) fn defines_word(line: &Line) -> bool
    ensures { result ≡ defines_word (line_of line.now) }
{
    match line {
        Line::Choose { .. } => true,
        _ => false,
    }
}

/// For each line the number of the bit or the word that it defines.
#[tactic(auto, using(crate::proofs::Entries::entries))]
pub(crate) fn own_numbers(alloc: Global, system: &System) -> Result<Vec<u32>, OutOfMemory>
    requires room { system.now.inputs + length system.now.init.items + length system.now.lines.items < 2 ^ 32 }
    ensures { IfOk result (λ v. v.items ≡ own_numbers system.now.inputs (length system.now.init.items) (map line_of system.now.lines.items)) }
{
    let mut numbers = Vec::with_capacity(alloc, system.lines.len())?;
    let mut bits = system.inputs;
    let mut words = system.init.len() as u32;
    for line in &system.lines {
        if defines_word(line) {
            numbers.push(words)?;
            words += 1;
        } else {
            numbers.push(bits)?;
            bits += 1;
        }
    }
    Ok(numbers)
}

/// The set of these numbers, which are below a count.
#[tactic(auto, using(crate::proofs::Entries::entries))]
pub(crate) fn set_of(alloc: Global, count: u32, numbers: &[u32]) -> Result<Signals, OutOfMemory>
    requires { All (λ k. k < count) numbers.now }
    ensures sized { IfOk result (λ s. length s ≡ count) }
    ensures numbers { IfOk result (λ s. (k : ℕ) → has s k ≡ lists numbers.now k) }
{
    let mut set = Signals::new(alloc, count)?;
    for number in numbers {
        set.set(*number, true);
    }
    Ok(set)
}

// The literal under the new numbers.
fn moved_literal(tables: &Tables, literal: Lit) -> Lit
    requires { literal.bit < length tables.now.bits.items }
    ensures { literal_of result ≡ plain.moved_literal (numbers_from tables.now).bits (literal_of literal) }
{
    Lit {
        bit: tables.bit(literal.bit),
        negated: literal.negated,
    }
}

fn moved_pick(tables: &Tables, pick: Pick) -> Pick
    requires { IsTrue (choice_below (length tables.now.words.items) (choice_of pick)) }
    ensures { choice_of result ≡ plain.moved_choice (numbers_from tables.now).words (choice_of pick) }
{
    match pick {
        Pick::Code(code) => Pick::Code(code),
        Pick::Word(word) => Pick::Word(tables.word(word)),
        Pick::Next(word) => Pick::Next(tables.word(word)),
    }
}

#[tactic(auto, using(crate::proofs::Entries::entries))]
fn moved_literals(
    alloc: Global,
    tables: &Tables,
    literals: &[Lit],
) -> Result<SmallVec<Lit, 4>, OutOfMemory>
    requires { All (λ l. l.bit < length tables.now.bits.items) literals.now }
    ensures { IfOk result (λ v. map literal_of v.items ≡ map (plain.moved_literal (numbers_from tables.now).bits) (map literal_of literals.now)) }
{
    let mut moved = SmallVec::new(alloc);
    for literal in literals {
        moved.push(moved_literal(tables, *literal))?;
    }
    Ok(moved)
}

#[tactic(auto, using(crate::proofs::Entries::entries))]
fn moved_cases(
    alloc: Global,
    tables: &Tables,
    cases: &[Case],
) -> Result<SmallVec<Case, 4>, OutOfMemory>
    requires { IsTrue (list_all (case_below (length tables.now.bits.items) (length tables.now.words.items)) (map case_of cases.now)) }
    ensures { IfOk result (λ v. map case_of v.items ≡ map (plain.moved_case (numbers_from tables.now).bits (numbers_from tables.now).words) (map case_of cases.now)) }
{
    let mut moved = SmallVec::new(alloc);
    for case in cases {
        moved.push(Case {
            when: moved_literal(tables, case.when),
            pick: moved_pick(tables, case.pick),
        })?;
    }
    Ok(moved)
}

/// The line under the new numbers.
#[tactic(auto, using(crate::proofs::Entries::entries))]
pub(crate) fn moved_line(alloc: Global, tables: &Tables, line: &Line) -> Result<Line, OutOfMemory>
    requires { IsTrue (line_below (length tables.now.bits.items) (length tables.now.words.items) (line_of line.now)) }
    ensures { IfOk result (λ l. line_of l ≡ plain.moved_line (numbers_from tables.now).bits (numbers_from tables.now).words (line_of line.now)) }
{
    Ok(match line {
        Line::All(literals) => Line::All(moved_literals(alloc, tables, literals)?),
        Line::Any(literals) => Line::Any(moved_literals(alloc, tables, literals)?),
        Line::Within { word, lo, hi } => Line::Within {
            word: tables.word(*word),
            lo: *lo,
            hi: *hi,
        },
        Line::Digit { word, place } => Line::Digit {
            word: tables.word(*word),
            place: *place,
        },
        Line::Choose { cases, other } => Line::Choose {
            cases: moved_cases(alloc, tables, cases)?,
            other: moved_pick(tables, *other),
        },
    })
}
