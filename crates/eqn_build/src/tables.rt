//! Lists of literals, one for each number.
ghost use Rattle.std.specs.Prelude.{◌≡◌, [], ◌∷◌, ◌+◌, ◌<◌, ◌++◌, ℕ, IfOk, length, map, nat_eq, if◌then◌else◌};
ghost use Rattle.eqn_build.specs.inner.BuilderViews.{fire_bit_of, any_line, literals, literals_at, LeadBelow, AreFrom, EmitFrom};
ghost use Rattle.argos_core.specs.Views.{numbers};
ghost use Rattle.eqn_core.specs.Views.{literal_of, line_of};
ghost use Rattle.eqn_scheme.specs.Scheme as meaning;

use crate::builder::{Fire, plus};
use argos_base::{OutOfMemory, SigId};
use eqn_core::{Line, Lit};
use smallvec::SmallVec;
use std::alloc::Global;

/// The bits of fires, and then a literal.
#[tactic(auto, using(crate::proofs::LiteralLists::tables))]
pub(crate) fn fire_literals(
    alloc: Global,
    fires: &[Fire],
    last: Lit,
) -> Result<SmallVec<Lit, 4>, OutOfMemory>
    ensures { IfOk result (λ ls. literals ls ≡ meaning.fire_literals (map fire_bit_of fires.now) ++ literal_of last ∷ []) }
{
    let mut literals = SmallVec::new(alloc);
    for fire in fires {
        literals.push(plus(fire.bit))?;
    }
    literals.push(last)?;
    Ok(literals)
}

/// For each of so many states the bits of the fires that lead to it.
#[tactic(auto, using(crate::proofs::LiteralLists::tables))]
pub(crate) fn entries(
    alloc: Global,
    fires: &[Fire],
    count: usize,
) -> Result<Vec<SmallVec<Lit, 4>>, OutOfMemory>
    requires lead { LeadBelow count (map fire_bit_of fires.now) }
    ensures len { IfOk result (λ lists. length lists.items ≡ count) }
    ensures each { IfOk result (λ lists. (q : ℕ) → literals_at lists.items q ≡ meaning.entering (map fire_bit_of fires.now) q) }
{
    let mut lists = empty_lists(alloc, count)?;
    for fire in fires {
        put_literal(&mut lists, fire.target as usize, plus(fire.bit))?;
    }
    Ok(lists)
}

/// The lines of so many signals, of which the first has the number `first`: each tells whether some fire emits the signal.
#[tactic(auto, using(crate::proofs::LiteralLists::tables))]
pub(crate) fn signal_lines(
    alloc: Global,
    fires: &[Fire],
    first: u32,
    count: usize,
) -> Result<Vec<Line>, OutOfMemory>
    requires emit { EmitFrom first count (map fire_bit_of fires.now) }
    ensures { IfOk result (λ lines. map line_of lines.items ≡ meaning.signal_lines (map fire_bit_of fires.now) first count) }
{
    let mut lists = empty_lists(alloc, count)?;
    for fire in fires {
        put_emissions(fire.bit, &fire.outs, first, &mut lists)?;
    }
    Ok(any_lines(alloc, &lists)?)
}

// Of each list the line that tells whether one of its literals is true.
#[tactic(auto, using(crate::proofs::LiteralLists::tables))]
fn any_lines(alloc: Global, lists: &[SmallVec<Lit, 4>]) -> Result<Vec<Line>, OutOfMemory>
    ensures { IfOk result (λ lines. map line_of lines.items ≡ map any_line lists.now) }
{
    let mut lines = Vec::new(alloc);
    for list in lists {
        lines.push(Line::Any(SmallVec::from_slice(alloc, list)?))?;
    }
    Ok(lines)
}

// Pushes the bit onto the list of each of these signals.
#[tactic(auto, using(crate::proofs::LiteralLists::tables))]
fn put_emissions(
    bit: u32,
    signals: &[SigId],
    first: u32,
    lists: &mut Vec<SmallVec<Lit, 4>>,
) -> Result<(), OutOfMemory>
    requires emit { AreFrom first (length lists.old.items) (numbers signals.now) }
    ensures len { IfOk result (λ _. length lists.new.items ≡ length lists.old.items) }
    ensures each { IfOk result (λ _. (k : ℕ) → literals_at lists.new.items k ≡ literals_at lists.old.items k ++ meaning.for_signal bit (numbers signals.now) (first + k)) }
{
    for signal in signals {
        put_literal(lists, (signal.0 - first) as usize, plus(bit))?;
    }
    Ok(())
}

#[tactic(auto, using(crate::proofs::LiteralLists::tables))]
fn empty_lists(alloc: Global, count: usize) -> Result<Vec<SmallVec<Lit, 4>>, OutOfMemory>
    ensures len { IfOk result (λ lists. length lists.items ≡ count) }
    ensures empty { IfOk result (λ lists. (q : ℕ) → literals_at lists.items q ≡ []) }
{
    let mut lists = Vec::new(alloc);
    for number in 0..count {
        lists.push(SmallVec::new(alloc))?;
    }
    Ok(lists)
}

// Pushes the literal onto one of the lists.
#[tactic(auto, using(crate::proofs::LiteralLists::tables))]
fn put_literal(
    lists: &mut Vec<SmallVec<Lit, 4>>,
    number: usize,
    literal: Lit,
) -> Result<(), OutOfMemory>
    requires exists { number < length lists.old.items }
    ensures len { IfOk result (λ _. length lists.new.items ≡ length lists.old.items) }
    ensures each { IfOk result (λ _. (q : ℕ) → literals_at lists.new.items q ≡ (if nat_eq number q then literals_at lists.old.items q ++ literal_of literal ∷ [] else literals_at lists.old.items q)) }
{
    lists[number].push(literal)?;
    Ok(())
}
