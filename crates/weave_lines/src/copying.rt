//! Lines once more, at another place.
ghost use Rattle.std.specs.Prelude.{◌≡◌, ◌+◌, ◌-◌, ◌^◌, ◌<◌, ◌≤◌, ◌++◌, length, map, IfOk, IsTrue};
ghost use Rattle.std.specs.List.{list_all};
ghost use Rattle.eqn_core.specs.Equations.{bit_lines, word_lines};
ghost use Rattle.eqn_core.specs.Ordered.{literal_below, choice_below, case_below, line_below, IsOrdered};
ghost use Rattle.eqn_core.specs.Views.{literal_of, choice_of, case_of, line_of, equations_from};
ghost use Rattle.weave_lines.specs.WovenLines.{placed, moved_literal, moved_choice, moved_case, moved_line, copied};

use argos_base::OutOfMemory;
use eqn_core::{Case, Line, Lit, Pick, System};
use smallvec::SmallVec;
use std::alloc::Global;

// The number that stands for number `k`, where the first ones are given, and the others take the numbers from `first` on.
pub(crate) fn place(given: &[u32], first: u32, k: u32) -> u32
    requires { k < length given.now + (2 ^ 32 - first) }
    ensures { result ≡ placed given.now first k }
{
    if (k as usize) < given.len() {
        given[k as usize]
    } else {
        first + (k - given.len() as u32)
    }
}

#[tactic(auto, using(crate::proofs::CopyLoops::copy_loops))]
fn move_literals(
    alloc: Global,
    literals: &[Lit],
    bits: &[u32],
    bit: u32,
) -> Result<SmallVec<Lit, 4>, OutOfMemory>
    requires { IsTrue (list_all (literal_below (length bits.now + (2 ^ 32 - bit))) (map literal_of literals.now)) }
    ensures { IfOk result (λ ls. map literal_of ls.items ≡ map (moved_literal (placed bits.now bit)) (map literal_of literals.now)) }
{
    let mut moved = SmallVec::new(alloc);
    for literal in literals {
        moved.push(Lit {
            bit: place(bits, bit, literal.bit),
            negated: literal.negated,
        })?;
    }
    Ok(moved)
}

fn move_pick(pick: Pick, words: &[u32], word: u32) -> Pick
    requires { IsTrue (choice_below (length words.now + (2 ^ 32 - word)) (choice_of pick)) }
    ensures { choice_of result ≡ moved_choice (placed words.now word) (choice_of pick) }
{
    match pick {
        Pick::Code(code) => Pick::Code(code),
        Pick::Word(own) => Pick::Word(place(words, word, own)),
        Pick::Next(own) => Pick::Next(place(words, word, own)),
    }
}

#[tactic(auto, using(crate::proofs::CopyLoops::copy_loops))]
fn move_cases(
    alloc: Global,
    cases: &[Case],
    bits: &[u32],
    bit: u32,
    words: &[u32],
    word: u32,
) -> Result<SmallVec<Case, 4>, OutOfMemory>
    requires { IsTrue (list_all (case_below (length bits.now + (2 ^ 32 - bit)) (length words.now + (2 ^ 32 - word))) (map case_of cases.now)) }
    ensures { IfOk result (λ cs. map case_of cs.items ≡ map (moved_case (placed bits.now bit) (placed words.now word)) (map case_of cases.now)) }
{
    let mut moved = SmallVec::new(alloc);
    for case in cases {
        moved.push(move_case(*case, bits, bit, words, word))?;
    }
    Ok(moved)
}

#[tactic(auto, using(crate::proofs::CopyLoops::copy_loops))]
fn move_case(case: Case, bits: &[u32], bit: u32, words: &[u32], word: u32) -> Case
    requires { IsTrue (case_below (length bits.now + (2 ^ 32 - bit)) (length words.now + (2 ^ 32 - word)) (case_of case)) }
    ensures { case_of result ≡ moved_case (placed bits.now bit) (placed words.now word) (case_of case) }
{
    Case {
        when: Lit {
            bit: place(bits, bit, case.when.bit),
            negated: case.when.negated,
        },
        pick: move_pick(case.pick, words, word),
    }
}

#[tactic(auto, using(crate::proofs::CopyLoops::copy_loops))]
fn move_line(
    alloc: Global,
    line: &Line,
    bits: &[u32],
    bit: u32,
    words: &[u32],
    word: u32,
) -> Result<Line, OutOfMemory>
    requires { IsTrue (line_below (length bits.now + (2 ^ 32 - bit)) (length words.now + (2 ^ 32 - word)) (line_of line.now)) }
    ensures { IfOk result (λ l. line_of l ≡ moved_line (placed bits.now bit) (placed words.now word) (line_of line.now)) }
{
    match line {
        Line::All(literals) => Ok(Line::All(move_literals(alloc, literals, bits, bit)?)),
        Line::Any(literals) => Ok(Line::Any(move_literals(alloc, literals, bits, bit)?)),
        Line::Within { word: own, lo, hi } => Ok(Line::Within {
            word: place(words, word, *own),
            lo: *lo,
            hi: *hi,
        }),
        Line::Digit {
            word: own,
            place: digit,
        } => Ok(Line::Digit {
            word: place(words, word, *own),
            place: *digit,
        }),
        Line::Choose { cases, other } => Ok(Line::Choose {
            cases: move_cases(alloc, cases, bits, bit, words, word)?,
            other: move_pick(*other, words, word),
        }),
    }
}

/// Adds the lines of an ordered system once more, from bit `bit` and word `word` on: `bits` are its inputs, and `words` its
/// registers.
#[tactic(auto, using(crate::proofs::CopyLoops::copy_loops))]
pub(crate) fn put_copy(
    alloc: Global,
    lines: &mut Vec<Line>,
    system: &System,
    bits: &[u32],
    bit: u32,
    words: &[u32],
    word: u32,
) -> Result<(), OutOfMemory>
    requires ordered { IsOrdered (equations_from system.now) }
    requires bits { length bits.now ≡ system.now.inputs }
    requires words { length words.now ≡ length system.now.init.items }
    requires bit_room { bit + bit_lines (map line_of system.now.lines.items) ≤ 2 ^ 32 }
    requires word_room { word + word_lines (map line_of system.now.lines.items) ≤ 2 ^ 32 }
    ensures { IfOk result (λ _. map line_of lines.new.items ≡ map line_of lines.old.items ++ copied (equations_from system.now) bits.now bit words.now word) }
{
    for line in &system.lines {
        lines.push(move_line(alloc, line, bits, bit, words, word)?)?;
    }
    Ok(())
}
