// A formula as a diagram.
ghost use Rattle.std.specs.Prelude.{◌≡◌, ◌-◌, ◌*◌, IfOk, Err, map, nat_eq, not};
ghost use Rattle.std.specs.Option.{option_map};
ghost use Rattle.argos_core.specs.Views.{shapes_of, range_of};
ghost use Rattle.bisim_check.specs.inner.Nodes.{AreWords, codes_at};
ghost use Rattle.bisim_formula.specs.Formulas.{related_by, all_related, any_related, formula_size, formulas_size, range_at, is_within, is_behind, register_code};
ghost use Rattle.bisim_formula.specs.Views.{formula_of, formulas_of};
ghost use Rattle.dd_core.specs.Arenas.{ArenaView, IsArena, AddsAtMost, HasNoRoom};
ghost use Rattle.eqn_dd.specs.Denoting.{Denotes, DenotesWord, IsWord, code_at};

use crate::comparing::some_differ;
use argos_base::RegId;
use argos_core::Layout;
use bisim_formula::{Cert, Side};
use dd_core::{Arena, DdError, NodeId};
use eqn_dd::within;

/// The node of the function that is true where the formula holds of the codes that these words are.
pub(crate) fn formula_node(
    arena: &mut Arena,
    cert: &Cert,
    left: &Layout,
    right: &Layout,
    lefts: &[Vec<NodeId>],
    rights: &[Vec<NodeId>],
) -> Result<NodeId, DdError>
    requires left { AreWords arena.old lefts.now }
    requires right { AreWords arena.old rights.now }
    ensures adds { AddsAtMost (50 * formula_size (formula_of cert.now)) arena.old arena.new }
    ensures budget { result ≡ Err DdError.Budget → HasNoRoom arena.new }
    ensures denotes { IfOk result (λ f. Denotes arena.new f.0 (λ x. related_by (shapes_of left.now) (shapes_of right.now) (formula_of cert.now)
        (codes_at arena.old lefts.now x) (codes_at arena.old rights.now x))) }
{
    cert_node(arena, cert, left, right, lefts, rights)
}

// The same with one operation less, which joins the node with those of other operands.
#[cycle(formula)]
fn cert_node(
    arena: &mut Arena,
    cert: &Cert,
    left: &Layout,
    right: &Layout,
    lefts: &[Vec<NodeId>],
    rights: &[Vec<NodeId>],
) -> Result<NodeId, DdError>
    requires left { AreWords arena.old lefts.now }
    requires right { AreWords arena.old rights.now }
    ensures adds { AddsAtMost (50 * formula_size (formula_of cert.now) - 1) arena.old arena.new }
    ensures budget { result ≡ Err DdError.Budget → HasNoRoom arena.new }
    ensures denotes { IfOk result (λ f. Denotes arena.new f.0 (λ x. related_by (shapes_of left.now) (shapes_of right.now) (formula_of cert.now)
        (codes_at arena.old lefts.now x) (codes_at arena.old rights.now x))) }
{
    // The proof begins with what this call says of each arena.
    let _ = arena.variables();
    match cert {
        Cert::InState(Side::Left, register, state) => {
            state_node(arena, left, lefts, *register, *state)
        }
        Cert::InState(Side::Right, register, state) => {
            state_node(arena, right, rights, *register, *state)
        }
        Cert::AtElapsed(Side::Left, register, state, elapsed) => {
            elapsed_node(arena, left, lefts, *register, *state, *elapsed)
        }
        Cert::AtElapsed(Side::Right, register, state, elapsed) => {
            elapsed_node(arena, right, rights, *register, *state, *elapsed)
        }
        Cert::Inactive(Side::Left, register) => off_node(arena, lefts, *register),
        Cert::Inactive(Side::Right, register) => off_node(arena, rights, *register),
        Cert::SameCode(l, r) => same_code(arena, word_of(lefts, *l), word_of(rights, *r)),
        Cert::True => Ok(NodeId::TRUE),
        Cert::False => Ok(NodeId::FALSE),
        Cert::Not(operand) => negation_node(arena, operand, left, right, lefts, rights),
        Cert::All(operands) => all_node(arena, operands, left, right, lefts, rights),
        Cert::Any(operands) => any_node(arena, operands, left, right, lefts, rights),
    }
}

// The node that is true where the operand isn't.
#[cycle(formula)]
fn negation_node(
    arena: &mut Arena,
    operand: &Cert,
    left: &Layout,
    right: &Layout,
    lefts: &[Vec<NodeId>],
    rights: &[Vec<NodeId>],
) -> Result<NodeId, DdError>
    requires left { AreWords arena.old lefts.now }
    requires right { AreWords arena.old rights.now }
    ensures adds { AddsAtMost (50 * formula_size (formula_of operand.now)) arena.old arena.new }
    ensures budget { result ≡ Err DdError.Budget → HasNoRoom arena.new }
    ensures denotes { IfOk result (λ f. Denotes arena.new f.0 (λ x. not (related_by (shapes_of left.now) (shapes_of right.now) (formula_of operand.now)
        (codes_at arena.old lefts.now x) (codes_at arena.old rights.now x)))) }
{
    let f = cert_node(arena, operand, left, right, lefts, rights)?;
    arena.not(f)
}

// The node that is true where each operand is, made from the last one on.
#[cycle(formula)]
fn all_node(
    arena: &mut Arena,
    operands: &[Cert],
    left: &Layout,
    right: &Layout,
    lefts: &[Vec<NodeId>],
    rights: &[Vec<NodeId>],
) -> Result<NodeId, DdError>
    requires left { AreWords arena.old lefts.now }
    requires right { AreWords arena.old rights.now }
    ensures adds { AddsAtMost (50 * formulas_size (formulas_of (map formula_of operands.now))) arena.old arena.new }
    ensures budget { result ≡ Err DdError.Budget → HasNoRoom arena.new }
    ensures denotes { IfOk result (λ f. Denotes arena.new f.0 (λ x. all_related (shapes_of left.now) (shapes_of right.now)
        (formulas_of (map formula_of operands.now)) (codes_at arena.old lefts.now x) (codes_at arena.old rights.now x))) }
{
    // The proof begins with what this call says of each arena.
    let _ = arena.variables();
    let mut met = NodeId::TRUE;
    let mut count = operands.len();
    while count > 0 {
        count -= 1;
        let f = cert_node(arena, &operands[count], left, right, lefts, rights)?;
        met = arena.and(f, met)?;
    }
    Ok(met)
}

// The node that is true where some operand is, likewise.
#[cycle(formula)]
fn any_node(
    arena: &mut Arena,
    operands: &[Cert],
    left: &Layout,
    right: &Layout,
    lefts: &[Vec<NodeId>],
    rights: &[Vec<NodeId>],
) -> Result<NodeId, DdError>
    requires left { AreWords arena.old lefts.now }
    requires right { AreWords arena.old rights.now }
    ensures adds { AddsAtMost (50 * formulas_size (formulas_of (map formula_of operands.now))) arena.old arena.new }
    ensures budget { result ≡ Err DdError.Budget → HasNoRoom arena.new }
    ensures denotes { IfOk result (λ f. Denotes arena.new f.0 (λ x. any_related (shapes_of left.now) (shapes_of right.now)
        (formulas_of (map formula_of operands.now)) (codes_at arena.old lefts.now x) (codes_at arena.old rights.now x))) }
{
    // The proof begins with what this call says of each arena.
    let _ = arena.variables();
    let mut met = NodeId::FALSE;
    let mut count = operands.len();
    while count > 0 {
        count -= 1;
        let f = cert_node(arena, &operands[count], left, right, lefts, rights)?;
        met = arena.or(f, met)?;
    }
    Ok(met)
}

// The node that is true where the register is in the state.
fn state_node(
    arena: &mut Arena,
    layout: &Layout,
    words: &[Vec<NodeId>],
    register: RegId,
    state: u16,
) -> Result<NodeId, DdError>
    requires { AreWords arena.old words.now }
    ensures adds { AddsAtMost 49 arena.old arena.new }
    ensures budget { result ≡ Err DdError.Budget → HasNoRoom arena.new }
    ensures denotes { IfOk result (λ f. Denotes arena.new f.0 (λ x.
        is_within (range_at (shapes_of layout.now) register.0 state) (register_code (codes_at arena.old words.now x) register.0))) }
{
    // The proof begins with what this call says of each arena.
    let _ = arena.variables();
    match state_range(layout, register, state) {
        Some((first, last)) => within(arena, word_of(words, register), first, last),
        None => Ok(NodeId::FALSE),
    }
}

// The node that is true where the register is in the state with this elapsed count. No code is above the greatest `u16`.
fn elapsed_node(
    arena: &mut Arena,
    layout: &Layout,
    words: &[Vec<NodeId>],
    register: RegId,
    state: u16,
    elapsed: u16,
) -> Result<NodeId, DdError>
    requires { AreWords arena.old words.now }
    ensures adds { AddsAtMost 49 arena.old arena.new }
    ensures budget { result ≡ Err DdError.Budget → HasNoRoom arena.new }
    ensures denotes { IfOk result (λ f. Denotes arena.new f.0 (λ x.
        is_behind (range_at (shapes_of layout.now) register.0 state) elapsed (register_code (codes_at arena.old words.now x) register.0))) }
{
    // The proof begins with what this call says of each arena.
    let _ = arena.variables();
    let Some((first, _)) = state_range(layout, register, state) else {
        return Ok(NodeId::FALSE);
    };
    match first.checked_add(elapsed) {
        Some(code) => within(arena, word_of(words, register), code, code),
        None => Ok(NodeId::FALSE),
    }
}

// The node that is true where the register is off.
fn off_node(arena: &mut Arena, words: &[Vec<NodeId>], register: RegId) -> Result<NodeId, DdError>
    requires { AreWords arena.old words.now }
    ensures adds { AddsAtMost 49 arena.old arena.new }
    ensures budget { result ≡ Err DdError.Budget → HasNoRoom arena.new }
    ensures denotes { IfOk result (λ f. Denotes arena.new f.0 (λ x. nat_eq (register_code (codes_at arena.old words.now x) register.0) 0)) }
{
    // The proof begins with what this call says of each arena.
    let _ = arena.variables();
    within(arena, word_of(words, register), 0, 0)
}

// The node that is true where the two words are one code.
fn same_code(arena: &mut Arena, left: &[NodeId], right: &[NodeId]) -> Result<NodeId, DdError>
    requires left { IsWord arena.old left.now }
    requires right { IsWord arena.old right.now }
    ensures adds { AddsAtMost 49 arena.old arena.new }
    ensures budget { result ≡ Err DdError.Budget → HasNoRoom arena.new }
    ensures denotes { IfOk result (λ f. Denotes arena.new f.0 (λ x. nat_eq (code_at arena.old left.now x) (code_at arena.old right.now x))) }
{
    let other = some_differ(arena, left, right)?;
    arena.not(other)
}

// The codes of a state.
fn state_range(layout: &Layout, register: RegId, state: u16) -> Option<(u16, u16)>
    ensures { option_map range_of result ≡ range_at (shapes_of layout.now) register.0 state }
{
    let shape = layout.regs.get(register.0 as usize)?;
    shape.ranges.get(state as usize).copied()
}

// The code 0.
const OFF: [NodeId; 16] = [NodeId::FALSE; 16];

// The word of a register, which is code 0 where the register isn't there.
fn word_of(words: &[Vec<NodeId>], register: RegId) -> &[NodeId]
    ensures { (arena : ArenaView) → IsArena arena → AreWords arena words.now
        → DenotesWord arena result.now (λ x. register_code (codes_at arena words.now x) register.0) }
{
    match words.get(register.0 as usize) {
        Some(word) => word,
        None => &OFF,
    }
}
