// Verdicts read off values of variables.
ghost use Rattle.std.specs.Prelude.{◌≡◌, ◌+◌, ◌*◌, ◌^◌, ◌<◌, ◌≤◌, length, drop, replicate, All, IfOk};
ghost use Rattle.eqn_completion.specs.Binary.{number, memory_of, digits_in};
ghost use Rattle.eqn_verdict.specs.Verdicts.{reaction_of};
ghost use Rattle.instant_verdict.specs.Verdicts.{coded};
ghost use Rattle.instant_verdict.specs.inner.Decoded.{IsDecoded, register_widths};
ghost use Rattle.verdict_search.specs.Outcomes.{AreSized};

use crate::reactions::{Reaction, Verdict};
use argos_base::{OutOfMemory, Signals};
use eqn_core::System;
use eqn_dd::Places;
use std::alloc::Global;
use verdict_search::Found;

/// The verdict with memories, inputs and reactions in place of the values of variables.
pub(crate) fn verdict_of(
    alloc: Global,
    found: Found,
    system: &System,
    places: &Places,
) -> Result<Verdict, OutOfMemory>
    requires sized { AreSized (digits_in (register_widths places.now.regs.items) + system.now.inputs) (length system.now.outs.items + 16 * length system.now.next.items) found }
    requires narrow { All (λ r. r.1 ≤ 16) places.now.regs.items }
    requires few { digits_in (register_widths places.now.regs.items) + system.now.inputs < 2 ^ 32 }
    requires outputs { length system.now.outs.items < 2 ^ 32 }
    ensures { IfOk result (IsDecoded (register_widths places.now.regs.items) (length system.now.outs.items) (length system.now.next.items) found) }
{
    let widths = widths_of(alloc, &places.regs)?;
    match found {
        Found::One => Ok(Verdict::One),
        Found::NoReaction { at } => {
            let (memory, input) = case_of(alloc, &widths, &at)?;
            Ok(Verdict::NoReaction { memory, input })
        }
        Found::Several { at, first, second } => {
            let (memory, input) = case_of(alloc, &widths, &at)?;
            let digits = vec![in alloc; 16; system.next.len()]?;
            Ok(Verdict::Several {
                memory,
                input,
                first: reaction_of(alloc, &digits, system.outs.len(), &first)?,
                second: reaction_of(alloc, &digits, system.outs.len(), &second)?,
            })
        }
    }
}

// How many digits each register has.
fn widths_of(alloc: Global, registers: &[(u32, u8)]) -> Result<Vec<u8>, OutOfMemory>
    ensures { IfOk result (λ widths. widths.items ≡ register_widths registers.now) }
{
    let mut widths = Vec::new(alloc);
    for (_, digits) in registers {
        widths.push(*digits)?;
    }
    Ok(widths)
}

// The memory with so many digits each, and the input set behind it.
fn case_of(alloc: Global, widths: &[u8], at: &[bool]) -> Result<(Vec<u16>, Signals), OutOfMemory>
    requires narrow { All (λ w. w ≤ 16) widths.now }
    requires sized { digits_in widths.now ≤ length at.now }
    requires few { length at.now < 2 ^ 32 }
    ensures memory { IfOk result (λ case. case.0.items ≡ memory_of widths.now at.now) }
    ensures input { IfOk result (λ case. case.1 ≡ drop (digits_in widths.now) at.now) }
{
    let (memory, behind) = codes_of(alloc, widths, at)?;
    let input = signals_of(alloc, behind)?;
    Ok((memory, input))
}

// So many outputs, and then the next codes with these digits.
fn reaction_of(
    alloc: Global,
    digits: &[u8],
    outputs: usize,
    bits: &[bool],
) -> Result<Reaction, OutOfMemory>
    requires digits { digits.now ≡ replicate (length digits.now) 16 }
    requires sized { length bits.now ≡ outputs + 16 * length digits.now }
    requires few { outputs < 2 ^ 32 }
    ensures { IfOk result (λ r. coded r ≡ reaction_of outputs (length digits.now) bits.now) }
{
    let (present, words) = bits.split_at(outputs);
    let (next, _) = codes_of(alloc, digits, words)?;
    let outputs = signals_of(alloc, present)?;
    Ok(Reaction { outputs, next })
}

// The codes with so many digits each, and what stands behind them.
fn codes_of<'a>(
    alloc: Global,
    widths: &[u8],
    bits: &'a [bool],
) -> Result<(Vec<u16>, &'a [bool]), OutOfMemory>
    requires narrow { All (λ w. w ≤ 16) widths.now }
    requires sized { digits_in widths.now ≤ length bits.now }
    ensures codes { IfOk result (λ read. read.0.items ≡ memory_of widths.now bits.now) }
    ensures behind { IfOk result (λ read. read.1.now ≡ drop (digits_in widths.now) bits.now) }
{
    let mut codes = Vec::new(alloc);
    let mut rest = bits;
    for width in widths {
        let (digits, behind) = rest.split_at(*width as usize);
        codes.push(code_of(digits))?;
        rest = behind;
    }
    Ok((codes, rest))
}

// The code with these binary digits, the most significant first.
fn code_of(digits: &[bool]) -> u16
    requires { length digits.now ≤ 16 }
    ensures { result ≡ number digits.now }
{
    let mut code = 0;
    for digit in digits {
        code = code * 2 + *digit as u16;
    }
    code
}

// The set with these members.
fn signals_of(alloc: Global, values: &[bool]) -> Result<Signals, OutOfMemory>
    requires { length values.now < 2 ^ 32 }
    ensures { IfOk result (λ set. set ≡ values.now) }
{
    let mut set = Signals::new(alloc, values.len() as u32)?;
    for (number, value) in values.iter().enumerate() {
        set.set(number as u32, *value);
    }
    Ok(set)
}
