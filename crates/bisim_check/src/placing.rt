// The variables of both programs.
ghost use Rattle.std.specs.Prelude.{◌≡◌, ◌+◌, ◌*◌, ◌^◌, ◌<◌, ◌≤◌, map, length, IfOk};
ghost use Rattle.std.specs.List.{range_with_len};
ghost use Rattle.argos_base.specs.Limits.{automaton_limit, signal_limit};
ghost use Rattle.argos_base.specs.Names.{place_of};
ghost use Rattle.argos_congruence.specs.NamedSets.{number_or_zero};
ghost use Rattle.argos_core.specs.Layouts.{layout_of};
ghost use Rattle.argos_core.specs.ModuleViews.{module_of};
ghost use Rattle.argos_core.specs.Views.{register_shape_of};
ghost use Rattle.bisim_check.specs.Jobs.{job_variables};
ghost use Rattle.bisim_verdict.specs.EquivFunctions.{ArePlacedTogether};
ghost use Rattle.eqn_completion.specs.Binary.{digits_in};
ghost use Rattle.eqn_dd.specs.Placed.{registers_from};
ghost use Rattle.eqn_dd.specs.Structural.{widths_of};
ghost use Rattle.eqn_dd.specs.Structural as widths;

use argos_base::{NameTable, OutOfMemory};
use argos_compile::Accepted;
use argos_core::Shape;
use eqn_dd::Places;
use std::alloc::Global;

/// Places for both programs, numbered from 0: the digits of the left registers, those of the right ones, and the left inputs. The
/// right program reads the variables of the left inputs with its names.
#[derive(Debug, Drop)]
pub(crate) struct Together {
    pub left: Places,
    pub right: Places,
    pub variables: u32,
}

/// The places of both programs, and how many variables there are.
pub(crate) fn places_together(
    alloc: Global,
    left: &Accepted,
    right: &Accepted,
) -> Result<Together, OutOfMemory>
    ensures places { let P = module_of left.now.«module» in let Q = module_of right.now.«module» in
        IfOk result (λ t. ArePlacedTogether P Q (widths_of (layout_of P.process)) (widths_of (layout_of Q.process)) t.left t.right) }
    ensures variables { IfOk result (λ t. t.variables ≡ job_variables (module_of left.now.«module») (module_of right.now.«module»)) }
{
    let names = &left.module().names.inputs;
    let count = names.len();
    let (left_registers, between) = registers_in_turn(alloc, 0, &left.layout().regs)?;
    let (right_registers, behind) = registers_in_turn(alloc, between, &right.layout().regs)?;
    Ok(Together {
        left: Places {
            regs: left_registers,
            inputs: (behind..behind + count).collect(alloc)?,
            cyclic: Vec::new(alloc),
        },
        right: Places {
            regs: right_registers,
            inputs: variables_by_name(alloc, behind, names, &right.module().names.inputs)?,
            cyclic: Vec::new(alloc),
        },
        variables: behind + count,
    })
}

// From this variable on, the first variable of each register and how many it has, and the variable behind them.
fn registers_in_turn(
    alloc: Global,
    first: u32,
    shapes: &[Shape],
) -> Result<(Vec<(u32, u8)>, u32), OutOfMemory>
    requires some { length shapes.now ≤ automaton_limit }
    requires room { first ≤ 16 * automaton_limit }
    ensures registers { IfOk result (λ made. made.0.items ≡ registers_from first (widths_of (map register_shape_of shapes.now))) }
    ensures behind { IfOk result (λ made. made.1 ≡ first + digits_in (widths_of (map register_shape_of shapes.now))) }
    ensures few { IfOk result (λ made. made.1 ≤ first + 16 * automaton_limit) }
{
    let mut regs = Vec::new(alloc);
    let mut next = first;
    for shape in shapes {
        let digits = digit_count(shape.top);
        regs.push((next, digits))?;
        next += digits as u32;
    }
    Ok((regs, next))
}

// How many binary digits a code has; 0 has one.
fn digit_count(code: u16) -> u8
    ensures { result ≡ widths.digit_count code }
{
    (u16::BITS - code.leading_zeros()).max(1) as u8
}

// For each of the other names the variable of the name among these, which have the variables from this one on.
fn variables_by_name(
    alloc: Global,
    first: u32,
    names: &NameTable,
    others: &NameTable,
) -> Result<Vec<u32>, OutOfMemory>
    requires room { first ≤ 32 * automaton_limit }
    ensures { IfOk result (λ variables. variables.items ≡ map (λ name. first + number_or_zero (place_of names.now name)) others.now) }
{
    let mut variables = Vec::new(alloc);
    for k in 0..others.len() {
        if let Some(name) = others.get(k) {
            variables.push(first + number_of(names, name.bytes()))?;
        }
    }
    Ok(variables)
}

// The number of a name, 0 where it isn't there.
fn number_of(names: &NameTable, bytes: &[u8]) -> u32
    ensures number { result ≡ number_or_zero (place_of names.now bytes.now) }
    ensures few { result ≤ signal_limit }
{
    let _ = names.len();
    match names.find(bytes) {
        Some(number) => number.0,
        None => 0,
    }
}
