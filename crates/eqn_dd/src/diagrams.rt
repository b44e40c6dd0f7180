// The diagrams of all bits and words of a system.
ghost use Rattle.std.specs.Prelude.{◌≡◌, ◌+◌, ◌*◌, ◌≤◌, map, length, IfOk};
ghost use Rattle.argos_base.specs.Limits.{register_limit, signal_limit, line_limit};
ghost use Rattle.dd_core.specs.Arenas.{IsArena, AddsAtMost, HasNoRoom};
ghost use Rattle.eqn_core.specs.Equations.{bits_of_line, words_of_line, bit_lines, word_lines};
ghost use Rattle.eqn_core.specs.Equations.{bit_count, word_count, weight_of};
ghost use Rattle.eqn_core.specs.Views.{line_of, equations_from};
ghost use Rattle.eqn_dd.specs.Completed.{IsDrawable, DenoteCompletions};
ghost use Rattle.eqn_dd.specs.Placed.{NamesVariables};
ghost use Rattle.eqn_dd.specs.inner.Tables.{numbers_from, view_of};
ghost use Rattle.eqn_dd.specs.inner.Tables as tables;

use crate::lines::draw_line;
use crate::places::Places;
use crate::table::{Table, begin, put};
use dd_core::{Arena, DdError, NodeId};
use eqn_core::{Line, Plan, System};
use std::alloc::{AllocError, Global};

/// The diagrams of a system's bits and words, by number.
#[derive(Debug, Drop)]
pub struct Diagrams {
    pub bits: Vec<NodeId>,
    /// Each is sixteen nodes, of its binary digits, the most significant first.
    pub words: Vec<Vec<NodeId>>,
}

/// Each bit and each word as a function of the variables: the value that its line gives it, where
/// the variables of cyclic bits are read in place of these. Digits of a register without a variable
/// are false.
///
/// # Errors
///
/// `Budget` where the arena is full and some function of its variables isn't held.
pub fn diagrams_of(
    alloc: Global,
    arena: &mut Arena,
    system: &System,
    plan: &Plan,
    places: &Places,
) -> Result<Diagrams, DdError>
    requires drawable { IsDrawable (equations_from system.now) plan.now.order.items plan.now.cyclic.items }
    requires places { NamesVariables arena.old.variables (equations_from system.now) plan.now.cyclic.items places.now }
    ensures adds { AddsAtMost (64 * weight_of (equations_from system.now) + arena.old.variables) arena.old arena.new }
    ensures budget { result ≡ Err DdError.Budget → HasNoRoom arena.new }
    ensures denote { IfOk result (λ d. DenoteCompletions arena.new (equations_from system.now) plan.now.cyclic.items
        places.now d.bits.items (map (λ w. w.items) d.words.items)) }
    ensures bits { IfOk result (λ d. length d.bits.items ≡ bit_count (equations_from system.now)) }
    ensures words { IfOk result (λ d. length d.words.items ≡ word_count (equations_from system.now)) }
{
    // The proof begins with what this call says of each arena.
    let _ = arena.variables();
    let numbers = numbers_of(
        alloc,
        system.inputs as usize,
        system.init.len(),
        &system.lines,
    )?;
    let Table {
        bits,
        given: _,
        words,
    } = draw_all(alloc, arena, system, plan, places, &numbers)?;
    Ok(Diagrams { bits, words })
}

// The table after each line is drawn, one after the other in the order of the plan.
fn draw_all(
    alloc: Global,
    arena: &mut Arena,
    system: &System,
    plan: &Plan,
    places: &Places,
    numbers: &Numbers,
) -> Result<Table, DdError>
    requires drawable { IsDrawable (equations_from system.now) plan.now.order.items plan.now.cyclic.items }
    requires places { NamesVariables arena.old.variables (equations_from system.now) plan.now.cyclic.items places.now }
    requires own { let e = equations_from system.now in
        numbers.now.own.items ≡ numbers_from e.inputs (length e.initial) e.lines }
    requires bits { numbers.now.bits ≡ bit_count (equations_from system.now) }
    requires words { numbers.now.words ≡ word_count (equations_from system.now) }
    ensures adds { AddsAtMost (64 * weight_of (equations_from system.now) + arena.old.variables) arena.old arena.new }
    ensures budget { result ≡ Err DdError.Budget → HasNoRoom arena.new }
    ensures denote { IfOk result (λ t. DenoteCompletions arena.new (equations_from system.now) plan.now.cyclic.items
        places.now (view_of t).bits (view_of t).words) }
    ensures bits { IfOk result (λ t. length (view_of t).bits ≡ bit_count (equations_from system.now)) }
    ensures words { IfOk result (λ t. length (view_of t).words ≡ word_count (equations_from system.now)) }
{
    let mut table = begin(
        alloc,
        arena,
        numbers.bits,
        numbers.words,
        &plan.cyclic,
        places,
    )?;
    for place in &plan.order {
        let line = *place as usize;
        let drawn = draw_line(alloc, arena, &table, &system.lines[line])?;
        put(&mut table, numbers.own[line], drawn);
    }
    Ok(table)
}

// For each line the number of the bit or the word that it defines, and how many bits and words
// there are.
#[derive(Drop)]
struct Numbers {
    own: Vec<usize>,
    bits: usize,
    words: usize,
}

// The numbers of these lines behind so many inputs and registers.
fn numbers_of(
    alloc: Global,
    inputs: usize,
    registers: usize,
    lines: &[Line],
) -> Result<Numbers, AllocError>
    requires inputs { inputs ≤ signal_limit }
    requires registers { registers ≤ register_limit }
    requires lines { length lines.now ≤ line_limit }
    ensures own { IfOk result (λ n. n.own.items ≡ numbers_from inputs registers (map line_of lines.now)) }
    ensures bits { IfOk result (λ n. n.bits ≡ inputs + bit_lines (map line_of lines.now)) }
    ensures words { IfOk result (λ n. n.words ≡ registers + word_lines (map line_of lines.now)) }
{
    let mut own = Vec::with_capacity(alloc, lines.len())?;
    let mut bits = inputs;
    let mut words = registers;
    for line in lines {
        own.push(line_number(line, bits, words))?;
        bits += bits_of(line);
        words += words_of(line);
    }
    Ok(Numbers { own, bits, words })
}

// The number of what a line defines, where so many bits and words come before.
fn line_number(line: &Line, bits: usize, words: usize) -> usize
    ensures { result ≡ tables.line_number bits words (line_of line.now) }
{
    match line {
        Line::Choose { .. } => words,
        _ => bits,
    }
}

// How many bits a line defines.
fn bits_of(line: &Line) -> usize
    ensures { result ≡ bits_of_line (line_of line.now) }
{
    match line {
        Line::Choose { .. } => 0,
        _ => 1,
    }
}

// How many words a line defines.
fn words_of(line: &Line) -> usize
    ensures { result ≡ words_of_line (line_of line.now) }
{
    match line {
        Line::Choose { .. } => 1,
        _ => 0,
    }
}
