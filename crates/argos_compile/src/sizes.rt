//! How large a module is, and how many binary digits its registers have.
ghost use Rattle.std.specs.Prelude.{◌≡◌, ◌+◌, ◌*◌, ◌≤◌, length, map};
ghost use Rattle.argos_base.specs.Limits.{register_limit, size_limit};
ghost use Rattle.argos_core.specs.ModuleViews.{module_of};
ghost use Rattle.argos_core.specs.Reactions as reactions;
ghost use Rattle.argos_core.specs.Sizes as plain;
ghost use Rattle.argos_core.specs.Views.{guard_of, guards_of, transition_of, timeout_in, register_shape_of, shapes_of};
ghost use Rattle.argos_core.specs.Views.{process_of, processes_of, state_of, states_of};
ghost use Rattle.eqn_completion.specs.Binary.{digits_in};
ghost use Rattle.eqn_dd.specs.Structural.{widths_of};
ghost use Rattle.eqn_dd.specs.Structural as widths;

use argos_core::{Guard, Layout, Module, Prog, Shape, State, Timed, Trans};

/// The size of a module: its signals, and the nodes, states, transitions, timeouts, guard nodes and emitted signals of its process.
pub fn module_size(module: &Module) -> u64
    ensures { result ≡ plain.size_of (module_of «module».now) }
{
    signal_count(module) + process_size(&module.prog)
}

fn signal_count(module: &Module) -> u64
    ensures { result ≡ reactions.signal_count (module_of «module».now) }
{
    let interface = u64::from(module.names.inputs.len()) + u64::from(module.names.outputs.len());
    interface + module.locals.len() as u64
}

#[cycle(processes)]
#[tactic(auto, using(crate::proofs::SizeLists::size_lists))]
fn process_size(prog: &Prog) -> u64
    requires { plain.process_size (process_of prog.now) ≤ size_limit }
    ensures { result ≡ plain.process_size (process_of prog.now) }
{
    match prog {
        Prog::Auto(auto) => 1 + states_size(&auto.states),
        Prog::Par(parts) => 1 + parts_size(parts),
        Prog::Local(_, inside) | Prog::Freeze(_, inside) => 1 + process_size(inside),
    }
}

#[cycle(processes)]
#[tactic(auto, using(crate::proofs::SizeLists::size_lists))]
fn parts_size(parts: &[Prog]) -> u64
    requires { plain.parts_size (processes_of (map process_of parts.now)) ≤ size_limit }
    ensures { result ≡ plain.parts_size (processes_of (map process_of parts.now)) }
{
    let mut size = 0;
    for part in parts {
        size += process_size(part);
    }
    size
}

#[cycle(processes)]
#[tactic(auto, using(crate::proofs::SizeLists::size_lists))]
fn states_size(states: &[State]) -> u64
    requires { plain.states_size (states_of (map state_of states.now)) ≤ size_limit }
    ensures { result ≡ plain.states_size (states_of (map state_of states.now)) }
{
    let mut size = 0;
    for state in states {
        size += state_size(state);
        size += body_size(state);
    }
    size
}

#[cycle(processes)]
#[tactic(auto, using(crate::proofs::SizeLists::size_lists))]
fn body_size(state: &State) -> u64
    requires { plain.body_size (state_of state.now).body ≤ size_limit }
    ensures { result ≡ plain.body_size (state_of state.now).body }
{
    match &state.body {
        Some(inside) => process_size(inside),
        None => 0,
    }
}

// A state without its body.
fn state_size(state: &State) -> u64
    requires { plain.state_size (state_of state.now).rules ≤ size_limit }
    ensures { result ≡ plain.state_size (state_of state.now).rules }
{
    1 + transitions_size(&state.trans) + timeout_size(&state.timed)
}

#[tactic(auto, using(crate::proofs::SizeLists::size_lists))]
fn transitions_size(transitions: &[Trans]) -> u64
    requires { plain.transitions_size (map transition_of transitions.now) ≤ size_limit }
    ensures { result ≡ plain.transitions_size (map transition_of transitions.now) }
{
    let mut size = 0;
    for transition in transitions {
        size += transition_size(transition);
    }
    size
}

fn transition_size(transition: &Trans) -> u64
    requires { 1 + plain.guard_size (guard_of transition.now.guard) + length transition.now.outs.items ≤ size_limit }
    ensures { result ≡ 1 + plain.guard_size (guard_of transition.now.guard) + length transition.now.outs.items }
{
    1 + guard_size(&transition.guard) + transition.outs.len() as u64
}

fn timeout_size(timed: &Option<Timed>) -> u64
    requires { plain.timeout_size (timeout_in timed.now) ≤ size_limit }
    ensures { result ≡ plain.timeout_size (timeout_in timed.now) }
{
    match timed {
        Some(timed) => 1 + timed.outs.len() as u64,
        None => 0,
    }
}

#[cycle(guards)]
#[tactic(auto, using(crate::proofs::SizeLists::size_lists))]
fn guard_size(guard: &Guard) -> u64
    requires { plain.guard_size (guard_of guard.now) ≤ size_limit }
    ensures { result ≡ plain.guard_size (guard_of guard.now) }
{
    match guard {
        Guard::True | Guard::False | Guard::Sig(_) => 1,
        Guard::Not(operand) => 1 + guard_size(operand),
        Guard::All(operands) | Guard::Any(operands) => 1 + guards_size(operands),
    }
}

#[cycle(guards)]
#[tactic(auto, using(crate::proofs::SizeLists::size_lists))]
fn guards_size(guards: &[Guard]) -> u64
    requires { plain.guards_size (guards_of (map guard_of guards.now)) ≤ size_limit }
    ensures { result ≡ plain.guards_size (guards_of (map guard_of guards.now)) }
{
    let mut size = 0;
    for guard in guards {
        size += guard_size(guard);
    }
    size
}

/// How many binary digits the registers have: each as many as its greatest code, where 0 has one.
pub fn register_bits(layout: &Layout) -> u64
    requires { length layout.now.regs.items ≤ register_limit }
    ensures sum { result ≡ digits_in (widths_of (shapes_of layout.now)) }
    ensures few { result ≤ 16 * register_limit }
{
    digits(&layout.regs)
}

#[tactic(auto, using(crate::proofs::SizeLists::size_lists))]
fn digits(shapes: &[Shape]) -> u64
    requires { length shapes.now ≤ register_limit }
    ensures sum { result ≡ digits_in (widths_of (map register_shape_of shapes.now)) }
    ensures few { result ≤ 16 * register_limit }
{
    let mut all = 0;
    for shape in shapes {
        all += digit_count(shape.top) as u64;
    }
    all
}

// How many binary digits a code has; 0 has one.
fn digit_count(code: u16) -> u8
    ensures { result ≡ widths.digit_count code }
{
    (u16::BITS - code.leading_zeros()).max(1) as u8
}
