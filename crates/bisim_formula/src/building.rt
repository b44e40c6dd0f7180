//! The formula that a certificate's text says, with numbers for names.
ghost use Rattle.std.specs.Prelude.{◌≡◌, ◌≤◌, map, length, slice_get, unwrap_or, IfOk};
ghost use Rattle.argos_grammar.specs.Views as tree;
ghost use Rattle.argos_grammar.specs.Views.{formulas_of, elapsed_of};
ghost use Rattle.bisim_formula.specs.Certificates.{state_number, number_in, state_atom, resolved, all_resolved};
ghost use Rattle.bisim_formula.specs.Views as cert;
ghost use Rattle.bisim_formula.specs.inner.Lent.{states_in, registers_in, AreFew};

use crate::cert::{Cert, Side};
use crate::places::state_place;
use argos_base::{Name, OutOfMemory, RegId};
use argos_core::State;
use argos_grammar::CertNode;
use std::alloc::Global;

/// The formula with numbers for names.
#[cycle(build)]
#[tactic(auto, using(crate::proofs::CertMaking::cert_making))]
pub(crate) fn build(
    alloc: Global,
    node: &CertNode,
    left: &[&[State]],
    right: &[&[State]],
) -> Result<Cert, OutOfMemory>
    requires left { AreFew left.now }
    requires right { AreFew right.now }
    ensures { IfOk result (λ c. cert.formula_of c ≡ resolved (registers_in left.now) (registers_in right.now) (tree.formula_of node.now)) }
{
    match node {
        CertNode::True => Ok(Cert::True),
        CertNode::False => Ok(Cert::False),
        CertNode::InState {
            left: true,
            reg,
            state,
            elapsed,
            ..
        } => Ok(state_cert(Side::Left, *reg, number(left, *reg, &state.name), *elapsed)),
        CertNode::InState {
            left: false,
            reg,
            state,
            elapsed,
            ..
        } => Ok(state_cert(
            Side::Right,
            *reg,
            number(right, *reg, &state.name),
            *elapsed,
        )),
        CertNode::Inactive {
            left: true,
            reg,
            ..
        } => Ok(Cert::Inactive(Side::Left, RegId(u32::from(*reg)))),
        CertNode::Inactive {
            left: false,
            reg,
            ..
        } => Ok(Cert::Inactive(Side::Right, RegId(u32::from(*reg)))),
        CertNode::SameCode {
            left: l,
            right: r,
            ..
        } => Ok(Cert::SameCode(RegId(u32::from(*l)), RegId(u32::from(*r)))),
        CertNode::Not(operand) => {
            let operand = build(alloc, operand, left, right)?;
            Ok(Cert::Not(Box::new(alloc, operand)?))
        }
        CertNode::All(operands) => Ok(Cert::All(build_all(alloc, operands, left, right)?)),
        CertNode::Any(operands) => Ok(Cert::Any(build_all(alloc, operands, left, right)?)),
    }
}

#[cycle(build)]
#[tactic(auto, using(crate::proofs::CertMaking::cert_making))]
fn build_all(
    alloc: Global,
    nodes: &[CertNode],
    left: &[&[State]],
    right: &[&[State]],
) -> Result<Vec<Cert>, OutOfMemory>
    requires left { AreFew left.now }
    requires right { AreFew right.now }
    ensures { IfOk result (λ cs. cert.formulas_of (map cert.formula_of cs.items) ≡ all_resolved (registers_in left.now) (registers_in right.now) (formulas_of (map tree.formula_of nodes.now))) }
{
    let mut certs = Vec::new(alloc);
    for node in nodes {
        certs.push(build(alloc, node, left, right)?)?;
    }
    Ok(certs)
}

#[tactic(auto, using(crate::proofs::CertMaking::cert_making))]
fn state_cert(on: Side, reg: u16, state: u16, elapsed: Option<(u16, u32)>) -> Cert
    ensures { cert.formula_of result ≡ state_atom (cert.which_of on) reg state (elapsed_of elapsed) }
{
    let reg = RegId(u32::from(reg));
    match elapsed {
        None => Cert::InState(on, reg, state),
        Some((count, _)) => Cert::AtElapsed(on, reg, state, count),
    }
}

// The number of the register's state with this name, 0 where there is none.
#[tactic(auto, using(crate::proofs::Tables::tables))]
fn number(registers: &[&[State]], reg: u16, name: &Name) -> u16
    requires few { AreFew registers.now }
    ensures { result ≡ number_in (slice_get (registers_in registers.now) reg) name.now }
{
    let r = reg as usize;
    if r < registers.len() {
        number_among(registers[r], name)
    } else {
        0
    }
}

#[tactic(auto, using(crate::proofs::Tables::tables))]
fn number_among(states: &[State], name: &Name) -> u16
    requires few { length states.now ≤ 65535 }
    ensures { result ≡ unwrap_or (state_number (states_in states.now) name.now) 0 }
{
    state_place(states, name).unwrap_or(0)
}
