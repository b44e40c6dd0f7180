//! A base and an observer, once more and together.
ghost use Rattle.std.specs.Prelude.{◌≡◌, ◌+◌, ◌-◌, ◌*◌, ◌^◌, ◌<◌, ◌≤◌, ◌++◌, length, map, slice_index_or, IfOk, IsTrue};
ghost use Rattle.argos_aspects.specs.Aspects.{IsBelow, AreBelow, AreSized};
ghost use Rattle.argos_aspects.specs.Views.{seen_of};
ghost use Rattle.eqn_core.specs.Equations.{bit_lines, word_lines, words_of_line};
ghost use Rattle.eqn_core.specs.Ordered.{all_below, IsOrdered};
ghost use Rattle.eqn_core.specs.Views.{line_of, equations_from};
ghost use Rattle.weave_lines.specs.Systems.{CanObserve};
ghost use Rattle.weave_lines.specs.inner.Views.{words_of};
ghost use Rattle.weave_lines.specs.WovenLines.{placed, bit_seen, constants, base_outputs, together, join_bit, moved_on, bits_together, words_together, along, behind};

use crate::copying::{place, put_copy};
use argos_aspects::Seen;
use argos_base::{OutOfMemory, Signals};
use eqn_core::{Line, System};
use std::alloc::Global;

/// The words that hold the memories of the base and of the observer.
#[derive(Debug, Drop)]
pub(crate) struct Memories {
    pub base: Vec<u32>,
    pub observer: Vec<u32>,
}

/// Where a copy of both ends: the bits of the base's outputs, the bit of the join point, and the words of the next memories.
#[derive(Debug, Drop)]
pub(crate) struct Ends {
    pub outputs: Vec<u32>,
    pub join: u32,
    pub next: Memories,
}

// What stands for these numbers.
#[tactic(auto, using(crate::proofs::CopyLoops::copy_loops))]
fn place_all(
    alloc: Global,
    given: &[u32],
    first: u32,
    numbers: &[u32],
) -> Result<Vec<u32>, OutOfMemory>
    requires { IsTrue (all_below (length given.now + (2 ^ 32 - first)) numbers.now) }
    ensures { IfOk result (λ v. v.items ≡ map (placed given.now first) numbers.now) }
{
    let mut placed = Vec::new(alloc);
    for number in numbers {
        placed.push(place(given, first, *number))?;
    }
    Ok(placed)
}

// The bits that the observer sees.
#[tactic(auto, using(crate::proofs::CopyLoops::copy_loops))]
fn see(alloc: Global, seen: &[Seen], bits: &[u32], outputs: &[u32]) -> Result<Vec<u32>, OutOfMemory>
    requires { AreBelow (length bits.now) (length outputs.now) (map seen_of seen.now) }
    ensures { IfOk result (λ v. v.items ≡ map (bit_seen bits.now outputs.now) (map seen_of seen.now)) }
{
    let mut found = Vec::new(alloc);
    for signal in seen {
        found.push(bit_of(*signal, bits, outputs))?;
    }
    Ok(found)
}

fn bit_of(seen: Seen, bits: &[u32], outputs: &[u32]) -> u32
    requires { IsBelow (length bits.now) (length outputs.now) (seen_of seen) }
    ensures { result ≡ bit_seen bits.now outputs.now (seen_of seen) }
{
    match seen {
        Seen::Input(k) => bits[k as usize],
        Seen::Output(k) => outputs[k as usize],
    }
}

// The bits that have the values of a set: `one` is true, and the next bit false.
#[tactic(auto, using(crate::proofs::CopyLoops::copy_loops))]
fn constants_for(alloc: Global, one: u32, set: &Signals) -> Result<Vec<u32>, OutOfMemory>
    requires { one + 1 < 2 ^ 32 }
    ensures { IfOk result (λ v. v.items ≡ constants one set.now) }
{
    let mut bits = Vec::new(alloc);
    for k in 0..set.len() {
        bits.push(if set.get(k) { one } else { one + 1 })?;
    }
    Ok(bits)
}

// How many of the lines define a word.
#[tactic(auto, using(crate::proofs::CopyLoops::copy_loops))]
pub(crate) fn count_words(lines: &[Line]) -> u32
    requires { length lines.now < 2 ^ 32 }
    ensures count { result ≡ word_lines (map line_of lines.now) }
    ensures most { result ≤ length lines.now }
{
    let mut words = 0;
    for line in lines {
        words += words_of_line(line);
    }
    words
}

fn words_of_line(line: &Line) -> u32
    ensures { result ≡ words_of_line (line_of line.now) }
{
    match line {
        Line::Choose { .. } => 1,
        _ => 0,
    }
}

// How many of the lines define a bit.
#[tactic(auto, using(crate::proofs::CopyLoops::copy_loops))]
pub(crate) fn count_bits(lines: &[Line]) -> u32
    requires { length lines.now < 2 ^ 32 }
    ensures { result ≡ bit_lines (map line_of lines.now) }
{
    lines.len() as u32 - count_words(lines)
}

// The bits that are the outputs of a copy, whose inputs are `bits` and whose lines begin at bit `bit`.
fn outputs_of(
    alloc: Global,
    system: &System,
    bits: &[u32],
    bit: u32,
) -> Result<Vec<u32>, OutOfMemory>
    requires ordered { IsOrdered (equations_from system.now) }
    requires bits { length bits.now ≡ system.now.inputs }
    requires room { bit + bit_lines (map line_of system.now.lines.items) < 2 ^ 32 }
    ensures { IfOk result (λ v. v.items ≡ map (placed bits.now bit) system.now.outs.items) }
{
    place_all(alloc, bits, bit, &system.outs)
}

// The words that are the next values of a copy, whose registers are `words` and whose words begin at `word`.
fn next_of(
    alloc: Global,
    system: &System,
    words: &[u32],
    word: u32,
) -> Result<Vec<u32>, OutOfMemory>
    requires ordered { IsOrdered (equations_from system.now) }
    requires words { length words.now ≡ length system.now.init.items }
    requires room { word + word_lines (map line_of system.now.lines.items) < 2 ^ 32 }
    ensures { IfOk result (λ v. v.items ≡ map (placed words.now word) system.now.next.items) }
{
    place_all(alloc, words, word, &system.next)
}

// The bit of the first output of a copy.
fn first_output(system: &System, bits: &[u32], bit: u32) -> u32
    requires ordered { IsOrdered (equations_from system.now) }
    requires some { length system.now.outs.items ≡ 1 }
    requires bits { length bits.now ≡ system.now.inputs }
    requires room { bit + bit_lines (map line_of system.now.lines.items) < 2 ^ 32 }
    ensures { result ≡ placed bits.now bit (slice_index_or system.now.outs.items 0 0) }
{
    place(bits, bit, system.outs[0])
}

/// Adds a copy of the base and of the observer, from bit `bit` and word `word` on, where the base has `base_bits` and `base_words`
/// of them: `bits` are the inputs, and `memories` the registers.
#[tactic(auto, using(crate::proofs::CopyLoops::copy_loops))]
pub(crate) fn put_together(
    alloc: Global,
    lines: &mut Vec<Line>,
    base: &System,
    observer: &System,
    seen: &[Seen],
    bits: &[u32],
    memories: &Memories,
    bit: u32,
    word: u32,
) -> Result<Ends, OutOfMemory>
    requires observe { CanObserve (equations_from base.now) (equations_from observer.now) (map seen_of seen.now) }
    requires bits { length bits.now ≡ base.now.inputs }
    requires base_words { length memories.now.base.items ≡ length base.now.init.items }
    requires observer_words { length memories.now.observer.items ≡ length observer.now.init.items }
    requires bit_room { bit + bits_together (equations_from base.now) (equations_from observer.now) < 2 ^ 32 }
    requires word_room { word + words_together (equations_from base.now) (equations_from observer.now) < 2 ^ 32 }
    ensures outputs { IfOk result (λ e. e.outputs.items ≡ base_outputs (equations_from base.now) (equations_from observer.now) bits.now bit) }
    ensures join { IfOk result (λ e. e.join ≡ join_bit (equations_from base.now) (equations_from observer.now) (map seen_of seen.now) bits.now bit) }
    ensures next { IfOk result (λ e. words_of e.next ≡ moved_on (equations_from base.now) (equations_from observer.now) (words_of memories.now) word) }
    ensures lines { IfOk result (λ _. map line_of lines.new.items ≡ map line_of lines.old.items ++ together (equations_from base.now) (equations_from observer.now) (map seen_of seen.now) bits.now (words_of memories.now) bit word) }
{
    let observer_bit = bit + count_bits(&base.lines);
    let observer_word = word + count_words(&base.lines);
    put_copy(alloc, lines, base, bits, bit, &memories.base, word)?;
    let outputs = outputs_of(alloc, base, bits, bit)?;
    let sights = see(alloc, seen, bits, &outputs)?;
    put_copy(
        alloc,
        lines,
        observer,
        &sights,
        observer_bit,
        &memories.observer,
        observer_word,
    )?;
    let join = first_output(observer, &sights, observer_bit);
    let next = Memories {
        base: next_of(alloc, base, &memories.base, word)?,
        observer: next_of(alloc, observer, &memories.observer, observer_word)?,
    };
    Ok(Ends {
        outputs,
        join,
        next,
    })
}

// Adds a copy of both whose inputs have the values of a set, and answers the words of the next memories.
#[tactic(auto, using(crate::proofs::CopyLoops::copy_loops))]
fn put_constant(
    alloc: Global,
    lines: &mut Vec<Line>,
    base: &System,
    observer: &System,
    seen: &[Seen],
    one: u32,
    set: &Signals,
    memories: &Memories,
    bit: u32,
    word: u32,
) -> Result<Memories, OutOfMemory>
    requires observe { CanObserve (equations_from base.now) (equations_from observer.now) (map seen_of seen.now) }
    requires one { one + 1 < 2 ^ 32 }
    requires set { length set.now ≡ base.now.inputs }
    requires base_words { length memories.now.base.items ≡ length base.now.init.items }
    requires observer_words { length memories.now.observer.items ≡ length observer.now.init.items }
    requires bit_room { bit + bits_together (equations_from base.now) (equations_from observer.now) < 2 ^ 32 }
    requires word_room { word + words_together (equations_from base.now) (equations_from observer.now) < 2 ^ 32 }
    ensures next { IfOk result (λ m. words_of m ≡ moved_on (equations_from base.now) (equations_from observer.now) (words_of memories.now) word) }
    ensures base_words { IfOk result (λ m. length m.base.items ≡ length base.now.init.items) }
    ensures observer_words { IfOk result (λ m. length m.observer.items ≡ length observer.now.init.items) }
    ensures lines { IfOk result (λ _. map line_of lines.new.items ≡ map line_of lines.old.items ++ together (equations_from base.now) (equations_from observer.now) (map seen_of seen.now) (constants one set.now) (words_of memories.now) bit word) }
{
    let bits = constants_for(alloc, one, set)?;
    let ends = put_together(
        alloc, lines, base, observer, seen, &bits, memories, bit, word,
    )?;
    Ok(ends.next)
}

/// Adds a copy of both for each set of the trace, each from the next memories of the one before, and answers the words of the
/// memories behind the last one.
#[tactic(auto, using(crate::proofs::CopyLoops::copy_loops))]
pub(crate) fn put_along(
    alloc: Global,
    lines: &mut Vec<Line>,
    base: &System,
    observer: &System,
    seen: &[Seen],
    one: u32,
    trace: &[Signals],
    start: Memories,
    first_bit: u32,
    first_word: u32,
) -> Result<Memories, OutOfMemory>
    requires observe { CanObserve (equations_from base.now) (equations_from observer.now) (map seen_of seen.now) }
    requires trace { AreSized base.now.inputs trace.now }
    requires one { one + 1 < 2 ^ 32 }
    requires base_words { length start.base.items ≡ length base.now.init.items }
    requires observer_words { length start.observer.items ≡ length observer.now.init.items }
    requires bit_room { first_bit + length trace.now * bits_together (equations_from base.now) (equations_from observer.now) < 2 ^ 32 }
    requires word_room { first_word + length trace.now * words_together (equations_from base.now) (equations_from observer.now) < 2 ^ 32 }
    ensures behind { IfOk result (λ m. words_of m ≡ behind (equations_from base.now) (equations_from observer.now) trace.now (words_of start) first_word) }
    ensures lines { IfOk result (λ _. map line_of lines.new.items ≡ map line_of lines.old.items ++ along (equations_from base.now) (equations_from observer.now) (map seen_of seen.now) one trace.now (words_of start) first_bit first_word) }
{
    let bits = count_bits(&base.lines) + count_bits(&observer.lines);
    let words = count_words(&base.lines) + count_words(&observer.lines);
    let mut memories = start;
    let mut bit = first_bit;
    let mut word = first_word;
    for set in trace {
        memories = put_constant(
            alloc, lines, base, observer, seen, one, set, &memories, bit, word,
        )?;
        bit += bits;
        word += words;
    }
    Ok(memories)
}
