//! The lines that join: at the join point the advice's outputs and next memories, else those of the base and the observer.
ghost use Rattle.std.specs.Prelude.{◌≡◌, [], ◌∷◌, ◌+◌, ◌^◌, ◌<◌, ◌≤◌, ◌++◌, length, map, IfOk};
ghost use Rattle.std.specs.List.{range_with_len};
ghost use Rattle.eqn_core.specs.Equations.{code, word};
ghost use Rattle.eqn_core.specs.Equations as lines;
ghost use Rattle.eqn_core.specs.Views.{literal_of, choice_of, case_of, line_of};
ghost use Rattle.weave_lines.specs.WovenLines.{output_line, output_lines, next_lines};
ghost use Rattle.weave_lines.specs.WovenLines as meaning;

use argos_base::{OutOfMemory, Signals};
use eqn_core::{Case, Line, Lit, Pick};
use smallvec::SmallVec;
use std::alloc::Global;

fn plus(bit: u32) -> Lit
    ensures { literal_of result ≡ meaning.plus bit }
{
    Lit {
        bit,
        negated: false,
    }
}

fn minus(bit: u32) -> Lit
    ensures { literal_of result ≡ meaning.minus bit }
{
    Lit { bit, negated: true }
}

// At the join point the advised value, else the bit.
fn output_line_for(alloc: Global, join: u32, advised: bool, bit: u32) -> Result<Line, OutOfMemory>
    ensures { IfOk result (λ l. line_of l ≡ output_line join advised bit) }
{
    if advised {
        let literals = SmallVec::from_slice(alloc, &[plus(join), plus(bit)])?;
        Ok(Line::Any(literals))
    } else {
        let literals = SmallVec::from_slice(alloc, &[minus(join), plus(bit)])?;
        Ok(Line::All(literals))
    }
}

/// Adds a line for each output.
#[tactic(auto, using(crate::proofs::JoinLoops::join_loops))]
pub(crate) fn put_outputs(
    alloc: Global,
    lines: &mut Vec<Line>,
    join: u32,
    outs: &Signals,
    bits: &[u32],
) -> Result<(), OutOfMemory>
    requires { length outs.now ≡ length bits.now }
    ensures { IfOk result (λ _. map line_of lines.new.items ≡ map line_of lines.old.items ++ output_lines join outs.now bits.now) }
{
    for k in 0..outs.len() {
        lines.push(output_line_for(alloc, join, outs.get(k), bits[k as usize])?)?;
    }
    Ok(())
}

// At the join point the pick, else the word.
fn next_line(alloc: Global, join: u32, pick: Pick, word: u32) -> Result<Line, OutOfMemory>
    ensures { IfOk result (λ l. line_of l ≡ lines.choose (record { when = meaning.plus join; choice = choice_of pick } ∷ []) (lines.word word)) }
{
    let cases = SmallVec::from_slice(
        alloc,
        &[Case {
            when: plus(join),
            pick,
        }],
    )?;
    Ok(Line::Choose {
        cases,
        other: Pick::Word(word),
    })
}

/// Adds a line for each register.
#[tactic(auto, using(crate::proofs::JoinLoops::join_loops))]
pub(crate) fn put_next(
    alloc: Global,
    lines: &mut Vec<Line>,
    join: u32,
    picks: &[Pick],
    words: &[u32],
) -> Result<(), OutOfMemory>
    requires { length picks.now ≡ length words.now }
    ensures { IfOk result (λ _. map line_of lines.new.items ≡ map line_of lines.old.items ++ next_lines join (map choice_of picks.now) words.now) }
{
    for k in 0..picks.len() {
        lines.push(next_line(alloc, join, picks[k], words[k])?)?;
    }
    Ok(())
}

/// The codes as picks.
#[tactic(auto, using(crate::proofs::JoinLoops::join_loops))]
pub(crate) fn code_picks(alloc: Global, codes: &[u16]) -> Result<Vec<Pick>, OutOfMemory>
    ensures { IfOk result (λ v. map choice_of v.items ≡ map code codes.now) }
{
    let mut picks = Vec::new(alloc);
    for number in codes {
        picks.push(Pick::Code(*number))?;
    }
    Ok(picks)
}

/// The words as picks.
#[tactic(auto, using(crate::proofs::JoinLoops::join_loops))]
pub(crate) fn word_picks(alloc: Global, words: &[u32]) -> Result<Vec<Pick>, OutOfMemory>
    ensures { IfOk result (λ v. map choice_of v.items ≡ map word words.now) }
{
    let mut picks = Vec::new(alloc);
    for number in words {
        picks.push(Pick::Word(*number))?;
    }
    Ok(picks)
}

/// So many numbers from `first` on.
#[tactic(auto, using(crate::proofs::JoinLoops::join_loops))]
pub(crate) fn numbers(alloc: Global, first: u32, count: u32) -> Result<Vec<u32>, OutOfMemory>
    requires { first + count < 2 ^ 32 }
    ensures numbers { IfOk result (λ v. v.items ≡ range_with_len first count) }
    ensures count { IfOk result (λ v. length v.items ≡ count) }
{
    let mut numbers = Vec::new(alloc);
    for k in 0..count {
        numbers.push(first + k)?;
    }
    Ok(numbers)
}
