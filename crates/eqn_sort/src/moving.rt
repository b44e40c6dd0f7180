ghost use Rattle.std.specs.Prelude.{◌≡◌, ℕ, ◌+◌, ◌<◌, ◌≤◌, ◌^◌, List, ◌∷◌, ◌++◌, false, ◌&&◌, not, if◌then◌else◌, length, map, IfOk, IsTrue};
ghost use Rattle.argos_base.specs.SignalSets.{has, lists};
ghost use Rattle.eqn_core.specs.Equations.{bit_count, word_count};
ghost use Rattle.eqn_core.specs.Orderable.{IsOrderable};
ghost use Rattle.eqn_core.specs.Ordered.{line_below};
ghost use Rattle.eqn_core.specs.Plans.{IsPlanOf};
ghost use Rattle.eqn_core.specs.Views.{line_of, equations_from};
ghost use Rattle.eqn_completion.specs.Moving.{moved_line, moved_lines, tables_after};
ghost use Rattle.eqn_sort.specs.Numbers.{numbers_from};
ghost use Rattle.eqn_sort.specs.inner.Own.{defines_word, own_numbers, with_number};

use crate::lines::{defines_word, moved_line, own_numbers, set_of};
use crate::tables::Tables;
use argos_base::{OutOfMemory, Signals};
use eqn_core::{Line, Plan, System};
use std::alloc::Global;

/// Adds the lines of a plan in its order, without those that define a cyclic bit. Each gets the next free number, and reads under the
/// numbers that the tables hold by then; in the end they hold all new numbers. The caller gives numbers to inputs, registers and
/// cyclic bits before. Time and memory are linear in the weight of the system.
pub fn move_lines(
    alloc: Global,
    system: &System,
    plan: &Plan,
    tables: &mut Tables,
    lines: &mut Vec<Line>,
) -> Result<(), OutOfMemory>
    requires orderable { IsOrderable (equations_from system.now) }
    requires plan { IsPlanOf (equations_from system.now) plan.now.order.items plan.now.cyclic.items }
    requires bits { length tables.old.bits.items ≡ bit_count (equations_from system.now) }
    requires words { length tables.old.words.items ≡ word_count (equations_from system.now) }
    requires room { tables.old.next_bit + tables.old.next_word + length system.now.lines.items < 2 ^ 32 }
    ensures lines { IfOk result (λ _. map line_of lines.new.items ≡ map line_of lines.old.items ++ moved_lines (equations_from system.now) plan.now.cyclic.items plan.now.order.items (numbers_from tables.old)) }
    ensures numbers { IfOk result (λ _. numbers_from tables.new ≡ tables_after (equations_from system.now) plan.now.cyclic.items plan.now.order.items (numbers_from tables.old)) }
    ensures bits { IfOk result (λ _. length tables.new.bits.items ≡ length tables.old.bits.items) }
    ensures words { IfOk result (λ _. length tables.new.words.items ≡ length tables.old.words.items) }
{
    let numbers = own_numbers(alloc, system)?;
    let given = set_of(alloc, tables.bits.len() as u32, &plan.cyclic)?;
    for place in &plan.order {
        move_place(
            alloc,
            system,
            *place as usize,
            &numbers,
            &given,
            tables,
            lines,
        )?;
    }
    Ok(())
}

// Adds the line of one place, if it defines no given bit. `numbers` are those of what lines define.
#[tactic(auto, using(crate::proofs::Steps::steps))]
fn move_place(
    alloc: Global,
    system: &System,
    place: usize,
    numbers: &[u32],
    given: &Signals,
    tables: &mut Tables,
    lines: &mut Vec<Line>,
) -> Result<(), OutOfMemory>
    requires orderable { IsOrderable (equations_from system.now) }
    requires place { place < length system.now.lines.items }
    requires numbers { numbers.now ≡ own_numbers system.now.inputs (length system.now.init.items) (map line_of system.now.lines.items) }
    requires given { length given.now ≡ bit_count (equations_from system.now) }
    requires bits { length tables.old.bits.items ≡ bit_count (equations_from system.now) }
    requires words { length tables.old.words.items ≡ word_count (equations_from system.now) }
    requires room { tables.old.next_bit + tables.old.next_word + 1 < 2 ^ 32 }
    ensures lines { IfOk result (λ _. (cyclic later : List ℕ) → ((k : ℕ) → has given.now k ≡ lists cyclic k) → map line_of lines.new.items ++ moved_lines (equations_from system.now) cyclic later (numbers_from tables.new) ≡ map line_of lines.old.items ++ moved_lines (equations_from system.now) cyclic (place ∷ later) (numbers_from tables.old)) }
    ensures numbers { IfOk result (λ _. (cyclic later : List ℕ) → ((k : ℕ) → has given.now k ≡ lists cyclic k) → tables_after (equations_from system.now) cyclic later (numbers_from tables.new) ≡ tables_after (equations_from system.now) cyclic (place ∷ later) (numbers_from tables.old)) }
    ensures bits { IfOk result (λ _. length tables.new.bits.items ≡ length tables.old.bits.items) }
    ensures words { IfOk result (λ _. length tables.new.words.items ≡ length tables.old.words.items) }
    ensures count { IfOk result (λ _. tables.new.next_bit + tables.new.next_word ≤ tables.old.next_bit + tables.old.next_word + 1) }
{
    let line = &system.lines[place];
    let number = numbers[place];
    if is_given(line, number, given) {
        return Ok(());
    }
    let moved = move_line(alloc, line, number, tables)?;
    lines.push(moved)?;
    Ok(())
}

// Whether the line, with the number of what it defines, defines a given bit.
fn is_given(line: &Line, number: u32, given: &Signals) -> bool
    requires { defines_word (line_of line.now) ≡ false → number < length given.now }
    ensures { result ≡ (not (defines_word (line_of line.now)) && has given.now number) }
{
    !defines_word(line) && given.get(number)
}

// The line under the new numbers, after which what it defines has one too.
fn move_line(
    alloc: Global,
    line: &Line,
    number: u32,
    tables: &mut Tables,
) -> Result<Line, OutOfMemory>
    requires below { IsTrue (line_below (length tables.old.bits.items) (length tables.old.words.items) (line_of line.now)) }
    requires number { number < (if defines_word (line_of line.now) then length tables.old.words.items else length tables.old.bits.items) }
    requires room { tables.old.next_bit + tables.old.next_word + 1 < 2 ^ 32 }
    ensures line { IfOk result (λ l. line_of l ≡ moved_line (numbers_from tables.old).bits (numbers_from tables.old).words (line_of line.now)) }
    ensures numbers { IfOk result (λ _. numbers_from tables.new ≡ with_number number (line_of line.now) (numbers_from tables.old)) }
    ensures bits { IfOk result (λ _. length tables.new.bits.items ≡ length tables.old.bits.items) }
    ensures words { IfOk result (λ _. length tables.new.words.items ≡ length tables.old.words.items) }
    ensures count { IfOk result (λ _. tables.new.next_bit + tables.new.next_word ≡ tables.old.next_bit + tables.old.next_word + 1) }
{
    let moved = moved_line(alloc, tables, line)?;
    enter(tables, line, number);
    Ok(moved)
}

// Gives what the line defines the next free number.
fn enter(tables: &mut Tables, line: &Line, number: u32)
    requires number { number < (if defines_word (line_of line.now) then length tables.old.words.items else length tables.old.bits.items) }
    requires room { tables.old.next_bit + tables.old.next_word + 1 < 2 ^ 32 }
    ensures numbers { numbers_from tables.new ≡ with_number number (line_of line.now) (numbers_from tables.old) }
    ensures bits { length tables.new.bits.items ≡ length tables.old.bits.items }
    ensures words { length tables.new.words.items ≡ length tables.old.words.items }
    ensures count { tables.new.next_bit + tables.new.next_word ≡ tables.old.next_bit + tables.old.next_word + 1 }
{
    match line {
        Line::Choose { .. } => tables.enter_word(number),
        _ => tables.enter_bit(number),
    }
}
