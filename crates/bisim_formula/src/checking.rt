//! The faults of a certificate's text.
ghost use Rattle.std.specs.Prelude.{◌≡◌, ◌≤◌, map, length, slice_get};
ghost use Rattle.argos_grammar.specs.Views as tree;
ghost use Rattle.argos_grammar.specs.Views.{mark_of, numeral, formulas_of, elapsed_of};
ghost use Rattle.bisim_formula.specs.Certificates.{elapsed_faults, state_faults, in_register, register_faults, formula_faults, formulas_faults, state_number, has_elapsed, least_after};
ghost use Rattle.bisim_formula.specs.inner.Lent.{known_state, states_in, registers_in, AreFew};

use crate::faults::{Fault, LeastFault};
use crate::places::state_place;
use argos_core::State;
use argos_grammar::{CertNode, Spot};

/// Adds the faults of the formula, in the order of the text.
#[cycle(check)]
#[tactic(auto, using(crate::proofs::CertLists::cert_lists))]
pub(crate) fn check(node: &CertNode, left: &[&[State]], right: &[&[State]], least: &mut LeastFault)
    requires left { AreFew left.now }
    requires right { AreFew right.now }
    ensures { least.new ≡ least_after least.old (formula_faults (registers_in left.now) (registers_in right.now) (tree.formula_of node.now)) }
{
    match node {
        CertNode::True | CertNode::False => {}
        CertNode::InState {
            left: true,
            reg,
            reg_at,
            state,
            elapsed,
        } => check_in(left, *reg, *reg_at, state, *elapsed, least),
        CertNode::InState {
            left: false,
            reg,
            reg_at,
            state,
            elapsed,
        } => check_in(right, *reg, *reg_at, state, *elapsed, least),
        CertNode::Inactive {
            left: true,
            reg,
            reg_at,
        } => check_register(left, *reg, *reg_at, least),
        CertNode::Inactive {
            left: false,
            reg,
            reg_at,
        } => check_register(right, *reg, *reg_at, least),
        CertNode::SameCode {
            left: l,
            left_at,
            right: r,
            right_at,
        } => {
            check_register(left, *l, *left_at, least);
            check_register(right, *r, *right_at, least);
        }
        CertNode::Not(operand) => check(operand, left, right, least),
        CertNode::All(operands) | CertNode::Any(operands) => check_all(
            operands, left, right, least,
        ),
    }
}

#[cycle(check)]
#[tactic(auto, using(crate::proofs::CertLists::cert_lists))]
fn check_all(nodes: &[CertNode], left: &[&[State]], right: &[&[State]], least: &mut LeastFault)
    requires left { AreFew left.now }
    requires right { AreFew right.now }
    ensures { least.new ≡ least_after least.old (formulas_faults (registers_in left.now) (registers_in right.now) (formulas_of (map tree.formula_of nodes.now))) }
{
    for node in nodes {
        check(node, left, right, least);
    }
}

#[tactic(auto, using(crate::proofs::Tables::tables))]
fn check_register(registers: &[&[State]], reg: u16, reg_at: u32, least: &mut LeastFault)
    ensures { least.new ≡ least_after least.old (register_faults (slice_get (registers_in registers.now) reg) (numeral reg reg_at)) }
{
    if reg as usize >= registers.len() {
        least.add(Fault::Number(reg, reg_at));
    }
}

#[tactic(auto, using(crate::proofs::Tables::tables))]
fn check_in(
    registers: &[&[State]],
    reg: u16,
    reg_at: u32,
    state: &Spot,
    elapsed: Option<(u16, u32)>,
    least: &mut LeastFault,
)
    requires few { AreFew registers.now }
    ensures { least.new ≡ least_after least.old (in_register (slice_get (registers_in registers.now) reg) (numeral reg reg_at) (mark_of state.now) (elapsed_of elapsed)) }
{
    let r = reg as usize;
    if r < registers.len() {
        check_state(registers[r], state, elapsed, least);
    } else {
        least.add(Fault::Number(reg, reg_at));
    }
}

#[tactic(auto, using(crate::proofs::Tables::tables))]
fn check_state(states: &[State], state: &Spot, elapsed: Option<(u16, u32)>, least: &mut LeastFault)
    requires few { length states.now ≤ 65535 }
    ensures { least.new ≡ least_after least.old (state_faults (states_in states.now) (state_number (states_in states.now) (mark_of state.now).name) (mark_of state.now) (elapsed_of elapsed)) }
{
    match state_place(states, &state.name) {
        Some(q) => check_elapsed(states, q, elapsed, least),
        None => least.add(Fault::Unknown(*state)),
    }
}

#[tactic(auto, using(crate::proofs::Tables::tables))]
fn check_elapsed(states: &[State], state: u16, elapsed: Option<(u16, u32)>, least: &mut LeastFault)
    ensures { least.new ≡ least_after least.old (elapsed_faults (slice_get (states_in states.now) state) (elapsed_of elapsed)) }
{
    let q = state as usize;
    if q < states.len() {
        if let Some((count, at)) = elapsed {
            if !counts_to(&states[q], count) {
                least.add(Fault::Number(count, at));
            }
        }
    }
}

// Whether the state can have this elapsed count.
fn counts_to(state: &State, elapsed: u16) -> bool
    ensures { result ≡ has_elapsed (known_state state.now).count elapsed }
{
    match &state.timed {
        None => elapsed == 0,
        Some(timed) => elapsed < timed.count,
    }
}
