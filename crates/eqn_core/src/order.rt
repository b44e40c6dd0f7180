ghost use Rattle.std.specs.Prelude.{◌≡◌, ◌+◌, ◌<◌, ◌≤◌, ◌^◌, length, map, IsTrue};
ghost use Rattle.argos_base.specs.Limits as limits;
ghost use Rattle.std.specs.List.{list_all};
ghost use Rattle.eqn_core.specs.Equations.{words_of_line, word_lines};
ghost use Rattle.eqn_core.specs.Ordered.{literal_below, choice_below, case_below, line_below, all_below, all_between};
ghost use Rattle.eqn_core.specs.inner.OrderTest.{within_limits, lines_in_order, ends_exist, is_ordered};
ghost use Rattle.eqn_core.specs.Views.{literal_of, choice_of, case_of, line_of, equations_from};

use crate::system::{Case, Line, Lit, Pick, System};
use argos_base::{LINE_LIMIT, REGISTER_LIMIT, SIGNAL_LIMIT};

/// Whether the system is within the limits, and each line reads inputs, registers and earlier lines alone.
pub(crate) fn is_ordered(system: &System) -> bool
    ensures test { result ≡ is_ordered (equations_from system.now) }
    ensures codes { IsTrue (all_below 65536 system.now.init.items) }
{
    let registers = count_registers(&system.init);
    within_limits(system)
        && reads_earlier_only(&system.lines, system.inputs as usize, registers)
        && ends_exist(system)
}

fn within_limits(system: &System) -> bool
    ensures { result ≡ within_limits (equations_from system.now) }
{
    1 <= system.init.len()
        && system.init.len() <= REGISTER_LIMIT
        && system.inputs <= SIGNAL_LIMIT
        && system.outs.len() <= SIGNAL_LIMIT as usize
        && system.lines.len() <= LINE_LIMIT
}

// How many registers there are. Each code has 16 bits.
fn count_registers(init: &[u16]) -> usize
    ensures count { result ≡ length init.now }
    ensures codes { IsTrue (all_below 65536 init.now) }
{
    init.len()
}

// Whether outputs and next values are bits and words that exist, and there is one next value per register and no local.
#[tactic(auto, using(crate::proofs::Walks::walks))]
fn ends_exist(system: &System) -> bool
    requires registers { length system.now.init.items ≤ limits.register_limit }
    requires lines { length system.now.lines.items ≤ limits.line_limit }
    ensures { result ≡ ends_exist (equations_from system.now) }
{
    let registers = system.init.len();
    let words = count_words(&system.lines);
    let bits = system.inputs as usize + (system.lines.len() - words);
    let next_exist = all_between(&system.next, registers, registers + words);
    let outs_exist = all_below(&system.outs, bits);
    system.next.len() == registers && next_exist && outs_exist && system.locals.is_empty()
}

fn all_below(numbers: &[u32], end: usize) -> bool
    ensures { result ≡ all_below end numbers.now }
{
    numbers.iter().all(|number| (*number as usize) < end)
}

fn all_between(numbers: &[u32], start: usize, end: usize) -> bool
    ensures { result ≡ all_between start end numbers.now }
{
    numbers.iter().all(|number| start <= *number as usize && (*number as usize) < end)
}

/// How many of the lines define a word.
#[tactic(auto, using(crate::proofs::Walks::walks))]
pub fn count_words(lines: &[Line]) -> usize
    ensures count { result ≡ word_lines (map line_of lines.now) }
    ensures most { result ≤ length lines.now }
{
    let mut words = 0;
    for line in lines {
        words += words_of_line(line);
    }
    words
}

fn words_of_line(line: &Line) -> usize
    ensures { result ≡ words_of_line (line_of line.now) }
{
    match line {
        Line::Choose { .. } => 1,
        _ => 0,
    }
}

// Whether each line reads only what stands before it, where so many bits and words stand before the first.
#[tactic(auto, using(crate::proofs::Walks::walks))]
fn reads_earlier_only(lines: &[Line], mut bits: usize, mut words: usize) -> bool
    requires { bits + words + length lines.now < 2 ^ 64 }
    ensures { result ≡ lines_in_order bits words (map line_of lines.now) }
{
    for line in lines {
        if !reads_below(line, bits, words) {
            return false;
        }
        let word = words_of_line(line);
        bits += 1 - word;
        words += word;
    }
    true
}

// Whether a line reads bits and words below these numbers, with bounds in order and a digit's place of at most 15.
#[tactic(auto, using(crate::proofs::Walks::walks))]
fn reads_below(line: &Line, bits: usize, words: usize) -> bool
    ensures { result ≡ line_below bits words (line_of line.now) }
{
    match line {
        Line::All(literals) => literals_below(literals, bits),
        Line::Any(literals) => literals_below(literals, bits),
        Line::Within { word, lo, hi } => (*word as usize) < words && lo <= hi,
        Line::Digit { word, place } => (*word as usize) < words && *place <= 15,
        Line::Choose { cases, other } => {
            cases_below(cases, bits, words) && pick_below(*other, words)
        }
    }
}

fn literals_below(literals: &[Lit], bits: usize) -> bool
    ensures { result ≡ list_all (λ l. literal_below bits (literal_of l)) literals.now }
{
    literals.iter().all(|literal| (literal.bit as usize) < bits)
}

fn cases_below(cases: &[Case], bits: usize, words: usize) -> bool
    ensures { result ≡ list_all (λ c. case_below bits words (case_of c)) cases.now }
{
    cases.iter().all(|case| (case.when.bit as usize) < bits && pick_below(case.pick, words))
}

fn pick_below(pick: Pick, words: usize) -> bool
    ensures { result ≡ choice_below words (choice_of pick) }
{
    match pick {
        Pick::Code(_) => true,
        Pick::Word(word) | Pick::Next(word) => (word as usize) < words,
    }
}
