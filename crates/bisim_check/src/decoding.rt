// Memories and input sets read off values of variables.
ghost use Rattle.std.specs.Prelude.{◌≡◌, ◌+◌, ◌<◌, ◌≤◌, ◌^◌, ℕ, IfOk, All, length, take, drop};
ghost use Rattle.eqn_completion.specs.Binary.{number};
ghost use Rattle.argos_core.specs.ModuleViews.{module_of};
ghost use Rattle.bisim_check.specs.inner.Decoded.{IsSized, IsDecoded};
ghost use Rattle.eqn_dd.specs.Placed.{memory_at, inputs_at, NamesRegisters};

use crate::found::EquivFound;
use crate::placing::Together;
use crate::searching::Outcome;
use argos_base::{OutOfMemory, Signals};
use argos_core::Module;
use eqn_dd::Places;
use std::alloc::Global;

/// Two memories and an input set, one after the other.
#[derive(Debug, Drop)]
struct Case {
    left: Vec<u16>,
    right: Vec<u16>,
    input: Signals,
}

/// What is found, with memories, an input set and a name in place of values of the variables.
pub(crate) fn found_of(
    alloc: Global,
    outcome: Outcome,
    left: &Module,
    together: &Together,
) -> Result<EquivFound, OutOfMemory>
    requires left { NamesRegisters together.now.variables together.now.left.regs.items }
    requires right { NamesRegisters together.now.variables together.now.right.regs.items }
    requires inputs { All (λ k. k < together.now.variables) together.now.left.inputs.items }
    requires few { length together.now.left.inputs.items < 2 ^ 32 }
    requires sized { IsSized together.now.variables (module_of left.now) outcome }
    ensures { IfOk result (IsDecoded (module_of left.now) together.now.left together.now.right outcome) }
{
    match outcome {
        Outcome::Accept => Ok(EquivFound::Accept),
        Outcome::Outputs { at, place } => {
            let name = *left.names.outputs.get(place as u32).unwrap();
            let Case { left, right, input } = case_of(alloc, together, &at)?;
            Ok(EquivFound::Outputs {
                left,
                right,
                input,
                name,
            })
        }
        Outcome::Leaves { at } => {
            let Case { left, right, input } = case_of(alloc, together, &at)?;
            Ok(EquivFound::Leaves { left, right, input })
        }
    }
}

fn case_of(alloc: Global, together: &Together, values: &[bool]) -> Result<Case, OutOfMemory>
    requires left { NamesRegisters (length values.now) together.now.left.regs.items }
    requires right { NamesRegisters (length values.now) together.now.right.regs.items }
    requires inputs { All (λ k. k < length values.now) together.now.left.inputs.items }
    requires few { length together.now.left.inputs.items < 2 ^ 32 }
    ensures left { IfOk result (λ case. case.left.items ≡ memory_at together.now.left values.now) }
    ensures right { IfOk result (λ case. case.right.items ≡ memory_at together.now.right values.now) }
    ensures input { IfOk result (λ case. case.input ≡ inputs_at together.now.left values.now) }
{
    Ok(Case {
        left: memory_of(alloc, &together.left, values)?,
        right: memory_of(alloc, &together.right, values)?,
        input: inputs_of(alloc, &together.left, values)?,
    })
}

/// The memory of the registers with these places.
pub(crate) fn memory_of(
    alloc: Global,
    places: &Places,
    values: &[bool],
) -> Result<Vec<u16>, OutOfMemory>
    requires { NamesRegisters (length values.now) places.now.regs.items }
    ensures { IfOk result (λ memory. memory.items ≡ memory_at places.now values.now) }
{
    let mut memory = Vec::new(alloc);
    for (first, digits) in &places.regs {
        memory.push(code_of(values, *first, *digits))?;
    }
    Ok(memory)
}

// The code with so many binary digits from this variable on, the most significant first.
fn code_of(values: &[bool], first: u32, digits: u8) -> u16
    requires narrow { digits ≤ 16 }
    requires exist { (k : ℕ) → k < digits → first + k < length values.now }
    ensures { result ≡ number (take digits (drop first values.now)) }
{
    let mut code = 0;
    for digit in 0..digits as usize {
        code = code * 2 + values[first as usize + digit] as u16;
    }
    code
}

/// The input set with these places.
pub(crate) fn inputs_of(
    alloc: Global,
    places: &Places,
    values: &[bool],
) -> Result<Signals, OutOfMemory>
    requires exist { All (λ k. k < length values.now) places.now.inputs.items }
    requires few { length places.now.inputs.items < 2 ^ 32 }
    ensures { IfOk result (λ set. set ≡ inputs_at places.now values.now) }
{
    let mut set = Signals::new(alloc, places.inputs.len() as u32)?;
    for (number, variable) in places.inputs.iter().enumerate() {
        set.set(number as u32, values[*variable as usize]);
    }
    Ok(set)
}
