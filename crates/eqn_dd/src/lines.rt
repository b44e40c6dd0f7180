// The diagram of a line, by those of the bits and words that it reads.
ghost use Rattle.std.specs.Prelude.{◌≡◌, [], ◌+◌, ◌*◌, ◌<◌, map, length, All, IsTrue, if◌then◌else◌, IfOk, slice_index_or};
ghost use Rattle.std.specs.List.{list_all, list_any};
ghost use Rattle.dd_core.specs.Arenas.{IsArena, Holds, function_of, AddsAtMost, HasNoRoom};
ghost use Rattle.eqn_core.specs.Equations.{line_weight};
ghost use Rattle.eqn_core.specs.Ordered.{case_below, choice_below, line_below};
ghost use Rattle.eqn_core.specs.Solutions.{is_true, value_of, chosen_value};
ghost use Rattle.eqn_core.specs.Views.{literal_of, choice_of, case_of, line_of};
ghost use Rattle.eqn_dd.specs.Denoting.{Denotes, IsWord, DenotesWord, code_at};
ghost use Rattle.eqn_dd.specs.inner.Tables.{view_of, read_id, table_values, IsTable, DenotesLine};

use crate::ranges::within;
use crate::table::{Drawn, Table};
use crate::words::{choose_word, code_word, next_word};
use dd_core::{Arena, DdError, NodeId};
use eqn_core::{Case, Line, Lit, Pick};
use std::alloc::Global;

// What is read of a bit.
fn read(table: &Table, bit: u32) -> NodeId
    requires bit { bit < length table.now.bits.items }
    requires given { bit < length table.now.given.items }
    ensures { result.0 ≡ read_id (view_of table.now) bit }
{
    table.given[bit as usize].unwrap_or(table.bits[bit as usize])
}

// The diagrams of a word.
fn read_word(table: &Table, word: u32) -> &[NodeId]
    requires { word < length table.now.words.items }
    ensures { result.now ≡ slice_index_or (view_of table.now).words word [] }
{
    &table.words[word as usize]
}

// The node that is `yes` where the literal is true, and `no` elsewhere.
fn choose(
    arena: &mut Arena,
    table: &Table,
    literal: Lit,
    yes: NodeId,
    no: NodeId,
) -> Result<NodeId, DdError>
    requires table { IsTable arena.old (view_of table.now) }
    requires literal { literal.bit < length table.now.bits.items }
    requires yes { Holds arena.old yes.0 }
    requires no { Holds arena.old no.0 }
    ensures adds { AddsAtMost 1 arena.old arena.new }
    ensures budget { result ≡ Err DdError.Budget → HasNoRoom arena.new }
    ensures denotes { IfOk result (λ f. Denotes arena.new f.0 (λ x.
        if is_true (table_values arena.old (view_of table.now) x) (literal_of literal)
        then function_of arena.old yes.0 x else function_of arena.old no.0 x)) }
{
    let test = read(table, literal.bit);
    if literal.negated {
        arena.ite(test, no, yes)
    } else {
        arena.ite(test, yes, no)
    }
}

// The node that is true where each literal is.
fn all_of(arena: &mut Arena, table: &Table, literals: &[Lit]) -> Result<NodeId, DdError>
    requires table { IsTable arena.old (view_of table.now) }
    requires literals { All (λ l. l.bit < length table.now.bits.items) literals.now }
    ensures adds { AddsAtMost (length literals.now) arena.old arena.new }
    ensures budget { result ≡ Err DdError.Budget → HasNoRoom arena.new }
    ensures denotes { IfOk result (λ f. Denotes arena.new f.0 (λ x.
        list_all (is_true (table_values arena.old (view_of table.now) x)) (map literal_of literals.now))) }
{
    // The proof begins with what this call says of each arena.
    let _ = arena.variables();
    // From the last one on, so that literals in the order of the variables make one node each.
    let mut met = NodeId::TRUE;
    let mut left = literals.len();
    while left > 0 {
        left -= 1;
        met = choose(arena, table, literals[left], met, NodeId::FALSE)?;
    }
    Ok(met)
}

// The node that is true where some literal is.
fn any_of(arena: &mut Arena, table: &Table, literals: &[Lit]) -> Result<NodeId, DdError>
    requires table { IsTable arena.old (view_of table.now) }
    requires literals { All (λ l. l.bit < length table.now.bits.items) literals.now }
    ensures adds { AddsAtMost (length literals.now) arena.old arena.new }
    ensures budget { result ≡ Err DdError.Budget → HasNoRoom arena.new }
    ensures denotes { IfOk result (λ f. Denotes arena.new f.0 (λ x.
        list_any (is_true (table_values arena.old (view_of table.now) x)) (map literal_of literals.now))) }
{
    // The proof begins with what this call says of each arena.
    let _ = arena.variables();
    // From the last one on, as in `all_of`.
    let mut met = NodeId::FALSE;
    let mut left = literals.len();
    while left > 0 {
        left -= 1;
        met = choose(arena, table, literals[left], NodeId::TRUE, met)?;
    }
    Ok(met)
}

// The word that a pick is.
fn picked(
    alloc: Global,
    arena: &mut Arena,
    table: &Table,
    pick: Pick,
) -> Result<Vec<NodeId>, DdError>
    requires table { IsTable arena.old (view_of table.now) }
    requires pick { IsTrue (choice_below (length table.now.words.items) (choice_of pick)) }
    ensures adds { AddsAtMost 48 arena.old arena.new }
    ensures budget { result ≡ Err DdError.Budget → HasNoRoom arena.new }
    ensures denotes { IfOk result (λ w. DenotesWord arena.new w.items (λ x.
        value_of (table_values arena.old (view_of table.now) x) (choice_of pick))) }
{
    // The proof begins with what this call says of each arena.
    let _ = arena.variables();
    match pick {
        Pick::Code(code) => Ok(code_word(alloc, code)?),
        Pick::Word(word) => Ok(Vec::from_slice(alloc, read_word(table, word))?),
        Pick::Next(word) => next_word(alloc, arena, read_word(table, word)),
    }
}

// The word that is the case's pick where its literal is true, and `other` elsewhere.
fn take_case(
    alloc: Global,
    arena: &mut Arena,
    table: &Table,
    case: Case,
    other: &[NodeId],
) -> Result<Vec<NodeId>, DdError>
    requires table { IsTable arena.old (view_of table.now) }
    requires case { IsTrue (case_below (length table.now.bits.items) (length table.now.words.items) (case_of case)) }
    requires other { IsWord arena.old other.now }
    ensures adds { AddsAtMost 64 arena.old arena.new }
    ensures budget { result ≡ Err DdError.Budget → HasNoRoom arena.new }
    ensures denotes { IfOk result (λ w. DenotesWord arena.new w.items (λ x.
        let values = table_values arena.old (view_of table.now) x in
        if is_true values (literal_of case.when) then value_of values (choice_of case.pick) else code_at arena.old other.now x)) }
{
    let own = picked(alloc, arena, table, case.pick)?;
    let test = read(table, case.when.bit);
    if case.when.negated {
        choose_word(alloc, arena, test, other, &own)
    } else {
        choose_word(alloc, arena, test, &own, other)
    }
}

// The word that is the pick of the first case whose literal is true, else the other one.
fn chosen(
    alloc: Global,
    arena: &mut Arena,
    table: &Table,
    cases: &[Case],
    other: Pick,
) -> Result<Vec<NodeId>, DdError>
    requires table { IsTable arena.old (view_of table.now) }
    requires cases { IsTrue (list_all (case_below (length table.now.bits.items) (length table.now.words.items)) (map case_of cases.now)) }
    requires other { IsTrue (choice_below (length table.now.words.items) (choice_of other)) }
    ensures adds { AddsAtMost (64 * (1 + length cases.now)) arena.old arena.new }
    ensures budget { result ≡ Err DdError.Budget → HasNoRoom arena.new }
    ensures denotes { IfOk result (λ w. DenotesWord arena.new w.items (λ x.
        chosen_value (table_values arena.old (view_of table.now) x) (map case_of cases.now) (choice_of other))) }
{
    let mut word = picked(alloc, arena, table, other)?;
    let mut left = cases.len();
    while left > 0 {
        left -= 1;
        word = take_case(alloc, arena, table, cases[left], &word)?;
    }
    Ok(word)
}

/// The diagram of the bit or the word that the line defines.
pub(crate) fn draw_line(
    alloc: Global,
    arena: &mut Arena,
    table: &Table,
    line: &Line,
) -> Result<Drawn, DdError>
    requires table { IsTable arena.old (view_of table.now) }
    requires line { IsTrue (line_below (length table.now.bits.items) (length table.now.words.items) (line_of line.now)) }
    ensures adds { AddsAtMost (64 * line_weight (line_of line.now)) arena.old arena.new }
    ensures budget { result ≡ Err DdError.Budget → HasNoRoom arena.new }
    ensures denotes { IfOk result (DenotesLine arena.new (table_values arena.old (view_of table.now)) (line_of line.now)) }
{
    // The proof begins with what this call says of each arena.
    let _ = arena.variables();
    match line {
        Line::All(literals) => Ok(Drawn::Bit(all_of(arena, table, literals)?)),
        Line::Any(literals) => Ok(Drawn::Bit(any_of(arena, table, literals)?)),
        Line::Within { word, lo, hi } => Ok(Drawn::Bit(within(
            arena,
            read_word(table, *word),
            *lo,
            *hi,
        )?)),
        Line::Digit { word, place } => {
            Ok(Drawn::Bit(read_word(table, *word)[15 - *place as usize]))
        }
        Line::Choose { cases, other } => {
            Ok(Drawn::Word(chosen(alloc, arena, table, cases, *other)?))
        }
    }
}
