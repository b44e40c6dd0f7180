//! The woven system.
ghost use Rattle.std.specs.Prelude.{◌≡◌, false, [], ◌∷◌, ◌+◌, ◌*◌, ◌^◌, ◌<◌, ◌≤◌, ◌++◌, length, map, IfOk, IsTrue};
ghost use Rattle.argos_base.specs.Limits as limits;
ghost use Rattle.argos_aspects.specs.Views.{seen_of, onset_of, advice_of};
ghost use Rattle.argos_aspects.specs.Weaving.{unrolled};
ghost use Rattle.eqn_core.specs.Equations as lines;
ghost use Rattle.eqn_core.specs.Ordered.{all_below};
ghost use Rattle.eqn_core.specs.Views.{choice_of, line_of, equations_from};
ghost use Rattle.weave_lines.specs.Systems.{CanJoin, AreAdvised, HasRoom};
ghost use Rattle.weave_lines.specs.inner.Views.{words_of};
ghost use Rattle.weave_lines.specs.WovenLines.{bits_together, words_together, along, copies, register_words, first_bit, first_word, advised_choices, output_lines, next_lines, woven_lines, woven_equations};

use crate::joining::{code_picks, numbers, put_next, put_outputs, word_picks};
use crate::together::{Ends, Memories, count_bits, count_words, put_along, put_together};
use argos_aspects::{Advice, Seen};
use argos_base::{OutOfMemory, Signals};
use eqn_core::{Line, Pick, System};
use smallvec::SmallVec;
use std::alloc::Global;

// The words of both memories, behind each other.
fn both(alloc: Global, memories: &Memories) -> Result<Vec<u32>, OutOfMemory>
    ensures { IfOk result (λ v. v.items ≡ memories.now.base.items ++ memories.now.observer.items) }
{
    let mut words = Vec::from_slice(alloc, &memories.base)?;
    words.extend_from_slice(&memories.observer)?;
    Ok(words)
}

// Adds the copies along the trace where it starts at the current configurations, and answers what the advice picks for each
// register.
fn advised_picks(
    alloc: Global,
    lines: &mut Vec<Line>,
    base: &System,
    observer: &System,
    seen: &[Seen],
    advice: &Advice,
    codes: &[u16],
    registers: Memories,
    bit: u32,
    word: u32,
) -> Result<Vec<Pick>, OutOfMemory>
    requires join { CanJoin (equations_from base.now) (equations_from observer.now) (map seen_of seen.now) (advice_of advice.now) }
    requires inputs { base.now.inputs + 1 < 2 ^ 32 }
    requires registers { words_of registers ≡ register_words (equations_from base.now) (equations_from observer.now) }
    requires word { word ≡ first_word (equations_from base.now) (equations_from observer.now) + words_together (equations_from base.now) (equations_from observer.now) }
    requires base_words { length registers.base.items ≡ length base.now.init.items }
    requires observer_words { length registers.observer.items ≡ length observer.now.init.items }
    requires bit_room { bit + length (copies (equations_from base.now) (equations_from observer.now) (map seen_of seen.now) (advice_of advice.now)) * bits_together (equations_from base.now) (equations_from observer.now) < 2 ^ 32 }
    requires word_room { word + length (copies (equations_from base.now) (equations_from observer.now) (map seen_of seen.now) (advice_of advice.now)) * words_together (equations_from base.now) (equations_from observer.now) < 2 ^ 32 }
    ensures picks { IfOk result (λ v. map choice_of v.items ≡ advised_choices (equations_from base.now) (equations_from observer.now) (map seen_of seen.now) (advice_of advice.now) (onset_of advice.now.current) codes.now) }
    ensures lines { IfOk result (λ _. map line_of lines.new.items ≡ map line_of lines.old.items ++ along (equations_from base.now) (equations_from observer.now) (map seen_of seen.now) base.now.inputs (copies (equations_from base.now) (equations_from observer.now) (map seen_of seen.now) (advice_of advice.now)) (register_words (equations_from base.now) (equations_from observer.now)) bit word) }
{
    if !advice.current {
        return code_picks(alloc, codes);
    }
    let end = put_along(
        alloc,
        lines,
        base,
        observer,
        seen,
        base.inputs,
        &advice.trace,
        registers,
        bit,
        word,
    )?;
    let words = both(alloc, &end)?;
    word_picks(alloc, &words)
}

// A bit that is true, and one that is false.
fn constant_lines(alloc: Global) -> Result<Vec<Line>, OutOfMemory>
    ensures { IfOk result (λ v. map line_of v.items ≡ lines.all [] ∷ lines.any [] ∷ []) }
{
    let mut lines = Vec::new(alloc);
    lines.push(Line::All(SmallVec::new(alloc)))?;
    lines.push(Line::Any(SmallVec::new(alloc)))?;
    Ok(lines)
}

// The words of the registers.
fn registers_of(alloc: Global, base: &System, observer: &System) -> Result<Memories, OutOfMemory>
    requires { length base.now.init.items + length observer.now.init.items < 2 ^ 32 }
    ensures words { IfOk result (λ m. words_of m ≡ register_words (equations_from base.now) (equations_from observer.now)) }
    ensures base { IfOk result (λ m. length m.base.items ≡ length base.now.init.items) }
    ensures observer { IfOk result (λ m. length m.observer.items ≡ length observer.now.init.items) }
{
    let base_count = base.init.len() as u32;
    let observer_count = observer.init.len() as u32;
    Ok(Memories {
        base: numbers(alloc, 0, base_count)?,
        observer: numbers(alloc, base_count, observer_count)?,
    })
}

// Adds the joining lines.
fn put_joins(
    alloc: Global,
    lines: &mut Vec<Line>,
    outs: &Signals,
    ends: &Ends,
    picks: &[Pick],
) -> Result<(), OutOfMemory>
    requires outputs { length outs.now ≡ length ends.now.outputs.items }
    requires picks { length picks.now ≡ length (ends.now.next.base.items ++ ends.now.next.observer.items) }
    ensures { IfOk result (λ _. map line_of lines.new.items ≡ map line_of lines.old.items ++ (output_lines ends.now.join outs.now ends.now.outputs.items ++ next_lines ends.now.join (map choice_of picks.now) (ends.now.next.base.items ++ ends.now.next.observer.items))) }
{
    put_outputs(alloc, lines, ends.join, outs, &ends.outputs)?;
    let words = both(alloc, &ends.next)?;
    put_next(alloc, lines, ends.join, picks, &words)
}

/// The lines of the woven system.
fn woven_lines(
    alloc: Global,
    base: &System,
    observer: &System,
    seen: &[Seen],
    advice: &Advice,
    codes: &[u16],
) -> Result<Vec<Line>, OutOfMemory>
    requires join { CanJoin (equations_from base.now) (equations_from observer.now) (map seen_of seen.now) (advice_of advice.now) }
    requires advised { AreAdvised (equations_from base.now) (equations_from observer.now) (map seen_of seen.now) (advice_of advice.now) (onset_of advice.now.current) codes.now }
    requires codes { IsTrue (all_below 65536 codes.now) }
    requires room { HasRoom (equations_from base.now) (equations_from observer.now) (map seen_of seen.now) (advice_of advice.now) }
    ensures { IfOk result (λ v. map line_of v.items ≡ woven_lines (equations_from base.now) (equations_from observer.now) (map seen_of seen.now) (advice_of advice.now) codes.now) }
{
    let mut lines = constant_lines(alloc)?;
    let inputs = numbers(alloc, 0, base.inputs)?;
    let registers = registers_of(alloc, base, observer)?;
    let bit = base.inputs + 2;
    let word = (base.init.len() + observer.init.len()) as u32;
    let bits = count_bits(&base.lines) + count_bits(&observer.lines);
    let words = count_words(&base.lines) + count_words(&observer.lines);
    let ends = put_together(
        alloc, &mut lines, base, observer, seen, &inputs, &registers, bit, word,
    )?;
    let picks = advised_picks(
        alloc,
        &mut lines,
        base,
        observer,
        seen,
        advice,
        codes,
        registers,
        bit + bits,
        word + words,
    )?;
    put_joins(alloc, &mut lines, &advice.outs, &ends, &picks)?;
    Ok(lines)
}

// How many copies there are along the trace.
fn count_copies(advice: &Advice) -> u32
    requires { length advice.now.trace.items ≤ limits.advice_set_limit }
    ensures { result ≡ length (unrolled (onset_of advice.now.current) advice.now.trace.items) }
{
    if advice.current {
        advice.trace.len() as u32
    } else {
        0
    }
}

// The initial codes of both.
fn initial_codes(alloc: Global, base: &System, observer: &System) -> Result<Vec<u16>, OutOfMemory>
    ensures { IfOk result (λ v. v.items ≡ base.now.init.items ++ observer.now.init.items) }
{
    let mut codes = Vec::from_slice(alloc, &base.init)?;
    codes.extend_from_slice(&observer.init)?;
    Ok(codes)
}

/// The system with the aspect. `codes` are the memories behind the trace of advice that starts at the initial configurations.
pub(crate) fn woven_system(
    alloc: Global,
    base: &System,
    observer: &System,
    seen: &[Seen],
    advice: &Advice,
    codes: &[u16],
) -> Result<System, OutOfMemory>
    requires join { CanJoin (equations_from base.now) (equations_from observer.now) (map seen_of seen.now) (advice_of advice.now) }
    requires advised { AreAdvised (equations_from base.now) (equations_from observer.now) (map seen_of seen.now) (advice_of advice.now) (onset_of advice.now.current) codes.now }
    requires codes { IsTrue (all_below 65536 codes.now) }
    requires trace { length advice.now.trace.items ≤ limits.advice_set_limit }
    requires room { HasRoom (equations_from base.now) (equations_from observer.now) (map seen_of seen.now) (advice_of advice.now) }
    ensures { IfOk result (λ s. equations_from s ≡ woven_equations (equations_from base.now) (equations_from observer.now) (map seen_of seen.now) (advice_of advice.now) codes.now) }
{
    let copies = count_copies(advice);
    let bits = count_bits(&base.lines) + count_bits(&observer.lines);
    let words = count_words(&base.lines) + count_words(&observer.lines);
    let registers = (base.init.len() + observer.init.len()) as u32;
    let output_bit = base.inputs + 2 + bits + copies * bits;
    let next_word = registers + words + copies * words;
    Ok(System {
        inputs: base.inputs,
        init: initial_codes(alloc, base, observer)?,
        lines: woven_lines(alloc, base, observer, seen, advice, codes)?,
        outs: numbers(alloc, output_bit, base.outs.len() as u32)?,
        locals: Vec::new(alloc),
        next: numbers(alloc, next_word, registers)?,
    })
}
