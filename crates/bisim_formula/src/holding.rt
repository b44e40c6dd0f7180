//! What a formula says of two memories.
ghost use Rattle.std.specs.Prelude.{◌≡◌, map, slice_get};
ghost use Rattle.argos_core.specs.Views.{register_shape_of, shapes_of};
ghost use Rattle.bisim_formula.specs.Formulas.{related_by, all_related, any_related, range_at, is_within, is_behind, register_code, of_side};
ghost use Rattle.bisim_formula.specs.Views.{which_of, formula_of, formulas_of};

use crate::cert::{Cert, Side};
use argos_base::RegId;
use argos_core::{Layout, Shape};

/// Whether the memories satisfy the formula, where these are the layouts. Of a register or a state that isn't there nothing holds
/// but that it is off.
#[cycle(formula)]
pub fn holds(cert: &Cert, left: &Layout, right: &Layout, m: &[u16], n: &[u16]) -> bool
    ensures { result ≡ related_by (shapes_of left.now) (shapes_of right.now) (formula_of cert.now) m.now n.now }
{
    match cert {
        Cert::InState(Side::Left, reg, state) => is_in_state(left, m, *reg, *state),
        Cert::InState(Side::Right, reg, state) => is_in_state(right, n, *reg, *state),
        Cert::AtElapsed(Side::Left, reg, state, elapsed) => is_at_elapsed(
            left, m, *reg, *state, *elapsed,
        ),
        Cert::AtElapsed(Side::Right, reg, state, elapsed) => is_at_elapsed(
            right, n, *reg, *state, *elapsed,
        ),
        Cert::Inactive(Side::Left, reg) => code(m, *reg) == 0,
        Cert::Inactive(Side::Right, reg) => code(n, *reg) == 0,
        Cert::SameCode(l, r) => code(m, *l) == code(n, *r),
        Cert::True => true,
        Cert::False => false,
        Cert::Not(operand) => !holds(operand, left, right, m, n),
        Cert::All(operands) => all_hold(operands, left, right, m, n),
        Cert::Any(operands) => any_holds(operands, left, right, m, n),
    }
}

#[cycle(formula)]
#[tactic(auto, using(crate::proofs::Operands::operands))]
fn all_hold(certs: &[Cert], left: &Layout, right: &Layout, m: &[u16], n: &[u16]) -> bool
    ensures { result ≡ all_related (shapes_of left.now) (shapes_of right.now) (formulas_of (map formula_of certs.now)) m.now n.now }
{
    for cert in certs {
        if !holds(cert, left, right, m, n) {
            return false;
        }
    }
    true
}

#[cycle(formula)]
#[tactic(auto, using(crate::proofs::Operands::operands))]
fn any_holds(certs: &[Cert], left: &Layout, right: &Layout, m: &[u16], n: &[u16]) -> bool
    ensures { result ≡ any_related (shapes_of left.now) (shapes_of right.now) (formulas_of (map formula_of certs.now)) m.now n.now }
{
    for cert in certs {
        if holds(cert, left, right, m, n) {
            return true;
        }
    }
    false
}

/// The register's code, 0 where it isn't there.
fn code(memory: &[u16], reg: RegId) -> u16
    ensures { result ≡ register_code memory.now reg.0 }
{
    let at = reg.0 as usize;
    if at < memory.len() { memory[at] } else { 0 }
}

fn is_in_state(layout: &Layout, memory: &[u16], reg: RegId, state: u16) -> bool
    ensures { result ≡ is_within (range_at (shapes_of layout.now) reg.0 state) (register_code memory.now reg.0) }
{
    let code = code(memory, reg);
    let at = reg.0 as usize;
    at < layout.regs.len() && is_in_range(&layout.regs[at], state, code)
}

fn is_in_range(shape: &Shape, state: u16, code: u16) -> bool
    ensures { result ≡ is_within (slice_get (register_shape_of shape.now).ranges state) code }
{
    let at = state as usize;
    if at < shape.ranges.len() {
        let (first, last) = shape.ranges[at];
        first <= code && code <= last
    } else {
        false
    }
}

fn is_at_elapsed(layout: &Layout, memory: &[u16], reg: RegId, state: u16, elapsed: u16) -> bool
    ensures { result ≡ is_behind (range_at (shapes_of layout.now) reg.0 state) elapsed (register_code memory.now reg.0) }
{
    let code = code(memory, reg);
    let at = reg.0 as usize;
    at < layout.regs.len() && is_behind_first(&layout.regs[at], state, elapsed, code)
}

fn is_behind_first(shape: &Shape, state: u16, elapsed: u16, code: u16) -> bool
    ensures { result ≡ is_behind (slice_get (register_shape_of shape.now).ranges state) elapsed code }
{
    let at = state as usize;
    if at < shape.ranges.len() {
        let (first, _) = shape.ranges[at];
        u32::from(code) == u32::from(first) + u32::from(elapsed)
    } else {
        false
    }
}
