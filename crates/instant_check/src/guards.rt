// The diagrams of guards.
ghost use Rattle.std.specs.Prelude.{◌≡◌, ◌-◌, ◌*◌, ◌≤◌, Some, true, not, map, length, slice_get, IfOk};
ghost use Rattle.dd_core.specs.Arenas.{AddsAtMost, HasNoRoom};
ghost use Rattle.argos_base.specs.SignalSets.{has, lists};
ghost use Rattle.argos_core.specs.Guards as meaning;
ghost use Rattle.argos_core.specs.Sizes.{guard_size, guards_size};
ghost use Rattle.argos_core.specs.Views.{guard_of, guards_of, numbers};
ghost use Rattle.instant_check.specs.Telling.{DenotesTest, AreAmong};

use argos_base::SigId;
use argos_core::Guard;
use dd_core::{Arena, DdError, NodeId};

/// The node of the guard as a function of signals: variable k stands for the k-th of `signals`. It makes less than two
/// operations for each node of the guard.
///
/// # Errors
///
/// `Budget` where the arena is full and some function of its variables isn't held.
#[cycle(guard_diagram)]
pub fn guard_diagram(arena: &mut Arena, guard: &Guard, signals: &[SigId]) -> Result<NodeId, DdError>
    requires sized { length signals.now ≡ arena.old.variables }
    requires read { AreAmong (meaning.reads (guard_of guard.now)) (numbers signals.now) }
    ensures adds { AddsAtMost (2 * guard_size (guard_of guard.now) - 1) arena.old arena.new }
    ensures budget { result ≡ Err DdError.Budget → HasNoRoom arena.new }
    ensures denotes { IfOk result (λ f.
        DenotesTest arena.new f.0 (numbers signals.now) (meaning.holds (guard_of guard.now))) }
{
    // The proof begins with what this call says of each arena.
    let _ = arena.variables();
    match guard {
        Guard::True => Ok(NodeId::TRUE),
        Guard::False => Ok(NodeId::FALSE),
        Guard::Sig(signal) => signal_diagram(arena, *signal, signals),
        Guard::Not(operand) => negation_diagram(arena, operand, signals),
        Guard::All(operands) => all_diagram(arena, operands, signals),
        Guard::Any(operands) => any_diagram(arena, operands, signals),
    }
}

// The node that is true where the signal is present.
fn signal_diagram(arena: &mut Arena, signal: SigId, signals: &[SigId]) -> Result<NodeId, DdError>
    requires sized { length signals.now ≡ arena.old.variables }
    requires read { lists (numbers signals.now) signal.0 ≡ true }
    ensures adds { AddsAtMost 1 arena.old arena.new }
    ensures budget { result ≡ Err DdError.Budget → HasNoRoom arena.new }
    ensures denotes { IfOk result (λ f. DenotesTest arena.new f.0 (numbers signals.now) (λ S. has S signal.0)) }
{
    // The proof begins with what this call says of each arena.
    let _ = arena.variables();
    arena.var(place_of(signals, signal))
}

// Where the signal stands.
fn place_of(signals: &[SigId], signal: SigId) -> u32
    requires few { length signals.now ≤ 1024 }
    requires listed { lists (numbers signals.now) signal.0 ≡ true }
    ensures { slice_get signals.now result ≡ Some signal }
{
    let mut place = 0;
    while signals[place as usize] != signal {
        place += 1;
    }
    place
}

#[cycle(guard_diagram)]
fn negation_diagram(
    arena: &mut Arena,
    operand: &Guard,
    signals: &[SigId],
) -> Result<NodeId, DdError>
    requires sized { length signals.now ≡ arena.old.variables }
    requires read { AreAmong (meaning.reads (guard_of operand.now)) (numbers signals.now) }
    ensures adds { AddsAtMost (2 * guard_size (guard_of operand.now)) arena.old arena.new }
    ensures budget { result ≡ Err DdError.Budget → HasNoRoom arena.new }
    ensures denotes { IfOk result (λ f. DenotesTest arena.new f.0 (numbers signals.now)
        (λ S. not (meaning.holds (guard_of operand.now) S))) }
{
    let f = guard_diagram(arena, operand, signals)?;
    arena.not(f)
}

// The node that is true where each operand is. The last operands come first: so where they stand in the order of their
// signals, each one more adds a node above the others.
#[cycle(guard_diagram)]
fn all_diagram(arena: &mut Arena, operands: &[Guard], signals: &[SigId]) -> Result<NodeId, DdError>
    requires sized { length signals.now ≡ arena.old.variables }
    requires read { AreAmong (meaning.reads_some (guards_of (map guard_of operands.now))) (numbers signals.now) }
    ensures adds { AddsAtMost (2 * guards_size (guards_of (map guard_of operands.now))) arena.old arena.new }
    ensures budget { result ≡ Err DdError.Budget → HasNoRoom arena.new }
    ensures denotes { IfOk result (λ f. DenotesTest arena.new f.0 (numbers signals.now)
        (meaning.every (guards_of (map guard_of operands.now)))) }
{
    // The proof begins with what this call says of each arena.
    let _ = arena.variables();
    let mut met = NodeId::TRUE;
    let mut left = operands.len();
    while left > 0 {
        left -= 1;
        let f = guard_diagram(arena, &operands[left], signals)?;
        met = arena.and(f, met)?;
    }
    Ok(met)
}

// The node that is true where some operand is, likewise.
#[cycle(guard_diagram)]
fn any_diagram(arena: &mut Arena, operands: &[Guard], signals: &[SigId]) -> Result<NodeId, DdError>
    requires sized { length signals.now ≡ arena.old.variables }
    requires read { AreAmong (meaning.reads_some (guards_of (map guard_of operands.now))) (numbers signals.now) }
    ensures adds { AddsAtMost (2 * guards_size (guards_of (map guard_of operands.now))) arena.old arena.new }
    ensures budget { result ≡ Err DdError.Budget → HasNoRoom arena.new }
    ensures denotes { IfOk result (λ f. DenotesTest arena.new f.0 (numbers signals.now)
        (meaning.some (guards_of (map guard_of operands.now)))) }
{
    // The proof begins with what this call says of each arena.
    let _ = arena.variables();
    let mut met = NodeId::FALSE;
    let mut left = operands.len();
    while left > 0 {
        left -= 1;
        let f = guard_diagram(arena, &operands[left], signals)?;
        met = arena.or(f, met)?;
    }
    Ok(met)
}
