//! How many lines the ordered equations of a module have at most.
ghost use Rattle.std.specs.Prelude.{◌≡◌, ◌+◌, ◌*◌, ◌<◌, ◌≤◌, ◌^◌, length};
ghost use Rattle.argos_base.specs.Limits.{register_limit, signal_limit};
ghost use Rattle.argos_core.specs.ModuleViews.{module_of};
ghost use Rattle.argos_core.specs.Reactions.{input_count};
ghost use Rattle.argos_core.specs.Sizes.{size_of};
ghost use Rattle.argos_core.specs.Views.{shapes_of};
ghost use Rattle.eqn_completion.specs.Binary.{digits_in};
ghost use Rattle.eqn_dd.specs.Structural.{widths_of};

use crate::sizes::{module_size, register_bits};
use argos_core::{Layout, Module};

/// Eight lines for each unit of the module's size. Where some locals depend on themselves, four more for each node of the diagrams of
/// their least solution, and one for each variable of these: register bits, inputs and the locals themselves.
pub fn line_bound(program: &Module, layout: &Layout, cyclic: usize, nodes: u32) -> u64
    requires registers { length layout.now.regs.items ≤ register_limit }
    requires few { cyclic ≤ signal_limit }
    ensures acyclic { cyclic ≡ 0 → result ≡ 8 * size_of (module_of program.now) }
    ensures cyclic { 1 ≤ cyclic → result ≡ 8 * size_of (module_of program.now) + 4 * nodes
        + (digits_in (widths_of (shapes_of layout.now)) + input_count (module_of program.now) + cyclic) }
    ensures small { result < 2 ^ 40 }
{
    let own = 8 * module_size(program);
    if cyclic == 0 {
        return own;
    }
    let variables = register_bits(layout) + u64::from(program.names.inputs.len()) + cyclic as u64;
    own + 4 * u64::from(nodes) + variables
}
