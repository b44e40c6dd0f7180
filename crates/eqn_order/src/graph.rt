ghost use Rattle.std.specs.Prelude.{◌≡◌, ◌+◌, ◌<◌, ◌≤◌, ◌^◌, [], ◌∷◌, ◌++◌, length, map, replicate, slice_get, slice_set, IfOk, IfSome, OnOk};
ghost use Rattle.eqn_core.specs.Views.{literal_of, case_of, line_of};
ghost use Rattle.eqn_order.specs.inner.Graphs.{rows_of, row, AreRows, AreReversed};
ghost use Rattle.eqn_order.specs.inner.Sources.{line_of_word, or_nothing, lines_of_literals, lines_of_cases, lines_read, graph_of};
ghost use Rattle.eqn_order.specs.inner.Views.{origins_from};

use crate::sources::Sources;
use argos_base::OutOfMemory;
use eqn_core::{Case, Line, Lit};
use std::alloc::Global;

/// For each line the lines whose bits and words it reads.
#[tactic(auto, using(crate::proofs::Building::building))]
pub(crate) fn rows(
    alloc: Global,
    lines: &[Line],
    sources: &Sources,
) -> Result<Vec<Vec<u32>>, OutOfMemory>
    ensures { IfOk result (λ v. rows_of v.items ≡ graph_of (origins_from sources.now) (map line_of lines.now)) }
{
    let mut rows = Vec::with_capacity(alloc, lines.len())?;
    for line in lines {
        rows.push(lines_read(alloc, line, sources)?)?;
    }
    Ok(rows)
}

// The lines whose bits and words a line reads. The words that a choice picks are registers.
fn lines_read(alloc: Global, line: &Line, sources: &Sources) -> Result<Vec<u32>, OutOfMemory>
    ensures { IfOk result (λ v. v.items ≡ lines_read (origins_from sources.now) (line_of line.now)) }
{
    match line {
        Line::All(literals) => Ok(of_literals(alloc, literals, sources)?),
        Line::Any(literals) => Ok(of_literals(alloc, literals, sources)?),
        Line::Within { word, .. } => Ok(of_word(alloc, *word, sources)?),
        Line::Digit { word, .. } => Ok(of_word(alloc, *word, sources)?),
        Line::Choose { cases, .. } => Ok(of_cases(alloc, cases, sources)?),
    }
}

#[tactic(auto, using(crate::proofs::Building::building))]
fn of_literals(alloc: Global, literals: &[Lit], sources: &Sources) -> Result<Vec<u32>, OutOfMemory>
    ensures { IfOk result (λ v. v.items ≡ lines_of_literals (origins_from sources.now) (map literal_of literals.now)) }
{
    let mut row = Vec::new(alloc);
    for literal in literals {
        put(&mut row, sources.of_bit(literal.bit))?;
    }
    Ok(row)
}

#[tactic(auto, using(crate::proofs::Building::building))]
fn of_cases(alloc: Global, cases: &[Case], sources: &Sources) -> Result<Vec<u32>, OutOfMemory>
    ensures { IfOk result (λ v. v.items ≡ lines_of_cases (origins_from sources.now) (map case_of cases.now)) }
{
    let mut row = Vec::new(alloc);
    for case in cases {
        put(&mut row, sources.of_bit(case.when.bit))?;
    }
    Ok(row)
}

fn of_word(alloc: Global, word: u32, sources: &Sources) -> Result<Vec<u32>, OutOfMemory>
    ensures { IfOk result (λ v. v.items ≡ or_nothing (line_of_word (origins_from sources.now) word)) }
{
    let mut row = Vec::new(alloc);
    put(&mut row, sources.of_word(word))?;
    Ok(row)
}

// Appends a line, if there is one.
fn put(row: &mut Vec<u32>, line: Option<u32>) -> Result<(), OutOfMemory>
    ensures { OnOk result (row.new.items ≡ row.old.items ++ or_nothing line) }
{
    if let Some(line) = line {
        row.push(line)?;
    }
    Ok(())
}

/// The reversed graph: for each line those that lead to it.
pub(crate) fn reversed(alloc: Global, rows: &[Vec<u32>]) -> Result<Vec<Vec<u32>>, OutOfMemory>
    requires inside { AreRows (rows_of rows.now) }
    requires count { length rows.now ≤ 30000000 }
    ensures { IfOk result (λ v. AreReversed (rows_of rows.now) (rows_of v.items)) }
{
    let mut readers = empty_rows(alloc, rows.len())?;
    for line in 0..rows.len() {
        for target in row_of(rows, line) {
            add(&mut readers, *target as usize, line as u32)?;
        }
    }
    Ok(readers)
}

#[tactic(auto, using(crate::proofs::Building::building))]
fn empty_rows(alloc: Global, count: usize) -> Result<Vec<Vec<u32>>, OutOfMemory>
    ensures { IfOk result (λ v. rows_of v.items ≡ replicate count []) }
{
    let mut rows = Vec::with_capacity(alloc, count)?;
    for _ in 0..count {
        rows.push(Vec::new(alloc))?;
    }
    Ok(rows)
}

// Adds a line to a row.
fn add(rows: &mut Vec<Vec<u32>>, place: usize, line: u32) -> Result<(), OutOfMemory>
    requires { place < length rows.old.items }
    ensures { OnOk result (rows_of rows.new.items ≡ slice_set (rows_of rows.old.items) place (row (rows_of rows.old.items) place ++ line ∷ [])) }
{
    rows[place].push(line)?;
    Ok(())
}

/// The row of a line.
pub(crate) fn row_of(rows: &[Vec<u32>], line: usize) -> &[u32]
    requires { line < length rows.now }
    ensures { result.now ≡ row (rows_of rows.now) line }
{
    &rows[line]
}

/// The line that this edge of a line leads to, if it has so many.
pub(crate) fn edge(rows: &[Vec<u32>], line: usize, place: usize) -> Option<u32>
    requires { line < length rows.now }
    ensures edge { result ≡ slice_get (row (rows_of rows.now) line) place }
    ensures bound { IfSome result (λ _. place + 1 < 2 ^ 64) }
{
    let row = row_of(rows, line);
    if place < row.len() {
        Some(row[place])
    } else {
        None
    }
}
