ghost use Rattle.std.specs.Prelude.{◌≡◌, ◌+◌, ◌*◌, ◌^◌, ◌<◌, ◌≤◌, IfOk, length, map};
ghost use Rattle.std.specs.List.{range_with_len};
ghost use Rattle.argos_core.specs.Automata.{register_count};
ghost use Rattle.argos_core.specs.Codes.{code_of};
ghost use Rattle.argos_core.specs.Configurations.{initial_configuration};
ghost use Rattle.argos_core.specs.Modules.{IsShaped};
ghost use Rattle.argos_core.specs.ModuleViews.{module_of};
ghost use Rattle.argos_core.specs.Overlaps.{IsProgram};
ghost use Rattle.argos_core.specs.Reactions.{input_count, output_count, initial_of};
ghost use Rattle.argos_core.specs.Sizes.{size_of};
ghost use Rattle.argos_core.specs.Views.{process_of};
ghost use Rattle.eqn_build.specs.Promises.{ReactsAs, StaysStructural, IsCyclicAs, ChoosesLocals};
ghost use Rattle.eqn_build.specs.inner.BuilderViews.{EmitFrom};
ghost use Rattle.eqn_build.specs.inner.ModuleLines as inner;
ghost use Rattle.eqn_core.specs.Equations.{weight_of};
ghost use Rattle.eqn_core.specs.Orderable.{IsOrderable};
ghost use Rattle.eqn_core.specs.Views.{equations_from, line_of};
ghost use Rattle.eqn_scheme.specs.Scheme as meaning;

use crate::builder::{Around, Builder, minus, plus, put_bit};
use crate::processes::put_process;
use crate::tables::signal_lines;
use argos_base::OutOfMemory;
use argos_core::{Module, Prog, encode, initial};
use eqn_core::{Line, System};
use smallvec::SmallVec;
use std::alloc::Global;

/// The equations of a module.
///
/// Bit `k` is the signal with the number `k`, and register `r` is the automaton with the number `r`. At the codes of configurations of a
/// module without overlapping transitions the solutions are exactly its reactions (after Maraninchi and Rémond 2001), and the bit of a
/// local is true exactly where the local is present.
pub fn equations(alloc: Global, module: &Module) -> Result<System, OutOfMemory>
    ensures reactions { IfOk result (λ s. IsProgram (module_of «module».now) → ReactsAs (module_of «module».now) (equations_from s)) }
    ensures structural { IfOk result (λ s. IsProgram (module_of «module».now) → StaysStructural (module_of «module».now) (equations_from s)) }
    ensures chosen { IfOk result (λ s. IsProgram (module_of «module».now) → ChoosesLocals (module_of «module».now) (equations_from s)) }
    ensures initial { IfOk result (λ s. s.init.items ≡ code_of (module_of «module».now).process (initial_of (module_of «module».now))) }
    ensures registers { IfOk result (λ s. length s.init.items ≡ register_count (module_of «module».now).process) }
    ensures inputs { IfOk result (λ s. s.inputs ≡ input_count (module_of «module».now)) }
    ensures outputs { IfOk result (λ s. s.outs.items ≡ range_with_len (input_count (module_of «module».now)) (output_count (module_of «module».now))) }
    ensures locals { IfOk result (λ s. s.locals.items ≡ range_with_len (input_count (module_of «module».now) + output_count (module_of «module».now)) (length (module_of «module».now).locals)) }
    ensures lines { IfOk result (λ s. length s.lines.items ≤ 8 * size_of (module_of «module».now)) }
    ensures weight { IfOk result (λ s. weight_of (equations_from s) ≤ 32 * size_of (module_of «module».now)) }
    ensures orderable { IfOk result (λ s. IsOrderable (equations_from s)) }
    ensures cyclic { IfOk result (λ s. IsCyclicAs (module_of «module».now) (equations_from s)) }
{
    Ok(build(alloc, module)?)
}

// The equations of the scheme.
fn build(alloc: Global, module: &Module) -> Result<System, OutOfMemory>
    ensures { IfOk result (λ s. equations_from s ≡ meaning.equations_of (module_of «module».now)) }
{
    let inputs = module.names.inputs.len();
    let outputs = module.names.outputs.len();
    let locals = module.locals.len() as u32;
    let (lines, registers) = module_lines(alloc, &module.prog, inputs, outputs + locals)?;
    Ok(System {
        inputs,
        init: initial_codes(alloc, &module.prog)?,
        lines,
        outs: range(alloc, inputs, outputs)?,
        locals: range(alloc, inputs + outputs, locals)?,
        next: range(alloc, registers, registers)?,
    })
}

// The lines of a process with so many inputs and other signals, and how many registers it has.
fn module_lines(
    alloc: Global,
    prog: &Prog,
    inputs: u32,
    others: u32,
) -> Result<(Vec<Line>, u32), OutOfMemory>
    requires shaped { IsShaped (process_of prog.now) }
    requires room { inputs + others + 1 + meaning.process_bits (process_of prog.now) < 2 ^ 32 }
    requires numbered { register_count (process_of prog.now) < 2 ^ 32 }
    requires emit { EmitFrom inputs others (meaning.process_fires (process_of prog.now) (inputs + others + 1)) }
    ensures lines { IfOk result (λ made. map line_of made.0.items ≡ inner.module_lines (process_of prog.now) inputs others) }
    ensures registers { IfOk result (λ made. made.1 ≡ register_count (process_of prog.now)) }
{
    let signals = inputs + others;
    let mut builder = Builder {
        lines: Vec::new(alloc),
        bits: signals,
        one: signals,
    };
    let one = put_bit(&mut builder, Line::All(SmallVec::new(alloc)))?;
    let around = Around {
        run: plus(one),
        start: minus(one),
        kill: minus(one),
    };
    let mut fires = Vec::new(alloc);
    let registers = put_process(alloc, prog, 0, around, &mut builder, &mut fires)?;
    let mut lines = signal_lines(alloc, &fires, inputs, others as usize)?;
    lines.append(&mut builder.lines)?;
    Ok((lines, registers))
}

// The code of the initial configuration.
fn initial_codes(alloc: Global, prog: &Prog) -> Result<Vec<u16>, OutOfMemory>
    requires { IsShaped (process_of prog.now) }
    ensures { IfOk result (λ codes. codes.items ≡ code_of (process_of prog.now) (initial_configuration (process_of prog.now))) }
{
    let config = initial(alloc, prog)?;
    Ok(encode(alloc, prog, &config)?)
}

// So many numbers from the first one on.
fn range(alloc: Global, first: u32, count: u32) -> Result<Vec<u32>, OutOfMemory>
    requires { first + count < 2 ^ 32 }
    ensures { IfOk result (λ numbers. numbers.items ≡ range_with_len first count) }
{
    let mut numbers = Vec::new(alloc);
    for number in first..first + count {
        numbers.push(number)?;
    }
    Ok(numbers)
}
