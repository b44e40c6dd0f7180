// Which variables stand for what.
ghost use Rattle.std.specs.Prelude.{◌≡◌, ◌+◌, ◌*◌, ◌^◌, ◌<◌, ◌≤◌, map, length, IfOk};
ghost use Rattle.std.specs.List.{range_with_len};
ghost use Rattle.argos_base.specs.Limits.{register_limit};
ghost use Rattle.argos_core.specs.Views.{shapes_of, register_shape_of};
ghost use Rattle.eqn_core.specs.Views.{equations_from};
ghost use Rattle.eqn_completion.specs.Binary.{digits_in};
ghost use Rattle.eqn_dd.specs.Placed.{AreInTurn, IsPlaceable, registers_from};
ghost use Rattle.eqn_dd.specs.Structural.{widths_of};
ghost use Rattle.eqn_dd.specs.Structural as widths;

use argos_base::OutOfMemory;
use argos_core::{Layout, Shape};
use eqn_core::{Plan, System};
use std::alloc::Global;

/// The variables of an arena that stand for the registers, the inputs and the cyclic bits of a system.
#[derive(Debug, Drop)]
pub struct Places {
    /// For each register its first variable and how many it has: one for each binary digit, the most significant first.
    pub regs: Vec<(u32, u8)>,
    /// For each input.
    pub inputs: Vec<u32>,
    /// For each cyclic bit, in the order of the plan.
    pub cyclic: Vec<u32>,
}

/// The variables numbered from 0: registers in order, then inputs, then cyclic bits. A register has as many as its greatest code has
/// binary digits, where 0 has one.
pub fn place_vars(
    alloc: Global,
    system: &System,
    plan: &Plan,
    layout: &Layout,
) -> Result<Places, OutOfMemory>
    requires placeable { IsPlaceable (equations_from system.now) plan.now.cyclic.items }
    requires sized { length layout.now.regs.items ≡ length system.now.init.items }
    ensures { IfOk result (AreInTurn (widths_of (shapes_of layout.now)) system.now.inputs (length plan.now.cyclic.items)) }
{
    let (regs, next) = registers_in_turn(alloc, &layout.regs)?;
    let inputs = variables_from(alloc, next, system.inputs)?;
    let cyclic = variables_from(alloc, next + system.inputs, plan.cyclic.len() as u32)?;
    Ok(Places {
        regs,
        inputs,
        cyclic,
    })
}

// The first variable of each register and how many it has, and how many all have.
fn registers_in_turn(alloc: Global, shapes: &[Shape]) -> Result<(Vec<(u32, u8)>, u32), OutOfMemory>
    requires { length shapes.now ≤ register_limit }
    ensures registers { IfOk result (λ made. made.0.items ≡ registers_from 0 (widths_of (map register_shape_of shapes.now))) }
    ensures count { IfOk result (λ made. made.1 ≡ digits_in (widths_of (map register_shape_of shapes.now))) }
    ensures few { IfOk result (λ made. made.1 ≤ 16 * register_limit) }
{
    let mut regs = Vec::new(alloc);
    let mut next = 0;
    for shape in shapes {
        let digits = digit_count(shape.top);
        regs.push((next, digits))?;
        next += digits as u32;
    }
    Ok((regs, next))
}

// So many variables from this one on.
fn variables_from(alloc: Global, first: u32, count: u32) -> Result<Vec<u32>, OutOfMemory>
    requires { first + count < 2 ^ 32 }
    ensures { IfOk result (λ variables. variables.items ≡ range_with_len first count) }
{
    let variables = (first..first + count).collect(alloc)?;
    Ok(variables)
}

// How many binary digits a code has; 0 has one.
fn digit_count(code: u16) -> u8
    ensures { result ≡ widths.digit_count code }
{
    (u16::BITS - code.leading_zeros()).max(1) as u8
}
