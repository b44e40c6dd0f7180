ghost use Rattle.std.specs.Prelude.{◌≡◌, ◌+◌, ◌<◌, ◌≤◌, ◌^◌, ◌++◌, length, map, IfOk, if◌then◌else◌};
ghost use Rattle.eqn_core.specs.Equations.{bits_of_line, words_of_line, bit_lines, word_lines};
ghost use Rattle.eqn_core.specs.Views.{line_of};
ghost use Rattle.c_emit.specs.COf.{input_statements, line_statement, line_statements, out_statements, register_statements, statements_of};
ghost use Rattle.c_step.specs.Views.{statement_of};

use argos_base::OutOfMemory;
use c_step::{CStat, CValue};
use eqn_core::{Line, Ordered, Pick};
use std::alloc::Global;

/// Each input's bit is set to the input.
#[tactic(auto, using(crate::proofs::EmitLemmas::emits))]
pub(crate) fn push_inputs(statements: &mut Vec<CStat>, inputs: u32) -> Result<(), OutOfMemory>
    ensures { IfOk result (λ u. map statement_of statements.new.items ≡ map statement_of statements.old.items ++ input_statements 0 inputs) }
{
    for input in 0..inputs {
        statements.push(CStat::Bit {
            to: input,
            value: CValue::Input(input),
        })?;
    }
    Ok(())
}

/// Each output is set to its bit.
#[tactic(auto, using(crate::proofs::EmitLemmas::emits))]
pub(crate) fn push_outs(statements: &mut Vec<CStat>, outs: &[u32]) -> Result<(), OutOfMemory>
    requires { length outs.now < 2 ^ 32 }
    ensures { IfOk result (λ u. map statement_of statements.new.items ≡ map statement_of statements.old.items ++ out_statements 0 outs.now) }
{
    for (to, bit) in outs.iter().enumerate() {
        statements.push(CStat::Out {
            to: to as u32,
            bit: *bit,
        })?;
    }
    Ok(())
}

/// Each register is set to its next word.
#[tactic(auto, using(crate::proofs::EmitLemmas::emits))]
pub(crate) fn push_registers(
    alloc: Global,
    statements: &mut Vec<CStat>,
    next: &[u32],
) -> Result<(), OutOfMemory>
    requires { length next.now < 2 ^ 32 }
    ensures { IfOk result (λ u. map statement_of statements.new.items ≡ map statement_of statements.old.items ++ register_statements 0 next.now) }
{
    for (to, word) in next.iter().enumerate() {
        statements.push(CStat::Word {
            to: to as u32,
            cases: Vec::new(alloc),
            other: Pick::Word(*word),
        })?;
    }
    Ok(())
}

fn line_statement(alloc: Global, bit: u32, word: u32, line: &Line) -> Result<CStat, OutOfMemory>
    ensures { IfOk result (λ x. statement_of x ≡ line_statement bit word (line_of line.now)) }
{
    Ok(match line {
        Line::All(literals) => CStat::Bit {
            to: bit,
            value: if literals.is_empty() {
                CValue::Const(true)
            } else {
                CValue::And(Vec::from_slice(alloc, literals)?)
            },
        },
        Line::Any(literals) => CStat::Bit {
            to: bit,
            value: match literals.len() {
                0 => CValue::Const(false),
                1 => CValue::And(Vec::from_slice(alloc, literals)?),
                _ => CValue::Or(Vec::from_slice(alloc, literals)?),
            },
        },
        Line::Within { word: of, lo, hi } => CStat::Bit {
            to: bit,
            value: CValue::Within {
                word: *of,
                lo: *lo,
                hi: *hi,
            },
        },
        Line::Digit { word: of, place } => CStat::Bit {
            to: bit,
            value: CValue::Digit {
                word: *of,
                place: *place,
            },
        },
        Line::Choose { cases, other } => CStat::Word {
            to: word,
            cases: Vec::from_slice(alloc, cases)?,
            other: *other,
        },
    })
}

// Whether a line defines a word.
fn is_word_line(line: &Line) -> bool
    ensures bits { bits_of_line (line_of line.now) ≡ (if result then 0 else 1) }
    ensures words { words_of_line (line_of line.now) ≡ (if result then 1 else 0) }
{
    match line {
        Line::Choose { .. } => true,
        _ => false,
    }
}

/// Each line is a statement, of which the first defines this bit or this word.
#[tactic(auto, using(crate::proofs::EmitLemmas::emits))]
pub(crate) fn push_lines(
    alloc: Global,
    statements: &mut Vec<CStat>,
    lines: &[Line],
    mut bit: u32,
    mut word: u32,
) -> Result<(), OutOfMemory>
    requires bits { bit + bit_lines (map line_of lines.now) < 2 ^ 32 }
    requires words { word + word_lines (map line_of lines.now) < 2 ^ 32 }
    ensures { IfOk result (λ u. map statement_of statements.new.items ≡ map statement_of statements.old.items ++ line_statements bit word (map line_of lines.now)) }
{
    for line in lines {
        let statement = line_statement(alloc, bit, word, line)?;
        statements.push(statement)?;
        if is_word_line(line) {
            word += 1;
        } else {
            bit += 1;
        }
    }
    Ok(())
}

/// The statements of the C step: inputs, lines, outputs, and the registers last.
#[tactic(auto, using(crate::proofs::EmitLemmas::whole))]
pub fn statements_of(alloc: Global, ordered: &Ordered) -> Result<Vec<CStat>, OutOfMemory>
    ensures { IfOk result (λ v. map statement_of v.items ≡ statements_of ordered.now) }
{
    let system = ordered.system();
    let mut statements = Vec::new(alloc);
    push_inputs(&mut statements, system.inputs)?;
    push_lines(
        alloc,
        &mut statements,
        &system.lines,
        system.inputs,
        system.init.len() as u32,
    )?;
    push_outs(&mut statements, &system.outs)?;
    push_registers(alloc, &mut statements, &system.next)?;
    Ok(statements)
}
