//! What each register of a program holds.
ghost use Rattle.std.specs.Prelude.{◌≡◌, ◌+◌, ◌^◌, ◌<◌, ◌≤◌, ◌++◌, IfOk, Some, length, map};
ghost use Rattle.argos_base.specs.Limits.{code_limit};
ghost use Rattle.argos_core.specs.Automata.{register_count, registers_of, registers_in, registers_within, rules_of};
ghost use Rattle.argos_core.specs.Automata as automata;
ghost use Rattle.argos_core.specs.Layouts as layouts;
ghost use Rattle.argos_core.specs.Modules.{IsShaped, AreShapedParts, AreShapedStates, IsShapedBody};
ghost use Rattle.argos_core.specs.Process.{automaton};
ghost use Rattle.argos_core.specs.inner.Shapes.{shape_with, shapes_from, shapes_of_parts, shapes_in, shapes_within};
ghost use Rattle.argos_core.specs.Views.{process_of, state_of, processes_of, states_of, shapes_of, register_shape_of, range_of, parent_of, parent_at};

use crate::codes::{code_count, counts_of, first_code};
use crate::prog::{Prog, State};
use argos_base::{OutOfMemory, RegId};
use std::alloc::Global;

/// What one register holds, which is one automaton of a program. The code 0 says that the automaton is off.
#[derive(Debug, Drop)]
pub struct Shape {
    /// The greatest code.
    pub top: u16,
    /// The first code of the initial state, whether or not the automaton is on at the start.
    pub init: u16,
    /// The first and the last code of each state.
    pub ranges: Vec<(u16, u16)>,
    /// The register, and the first and last code, of the state in whose body the automaton stands.
    pub parent: Option<(RegId, u16, u16)>,
}

/// One shape per automaton, in the order of registers.
#[derive(Debug, Drop)]
pub struct Layout {
    pub regs: Vec<Shape>,
}

/// What each register of the program holds, in the order of registers.
pub fn layout_of(alloc: Global, prog: &Prog) -> Result<Layout, OutOfMemory>
    requires shaped { IsShaped (process_of prog.now) }
    requires numbered { register_count (process_of prog.now) ≤ 2 ^ 32 }
    ensures { IfOk result (λ layout. shapes_of layout ≡ layouts.layout_of (process_of prog.now)) }
{
    let mut regs = Vec::new(alloc);
    put_process(alloc, prog, None, &mut regs)?;
    Ok(Layout { regs })
}

#[cycle(shapes)]
#[tactic(auto, using(crate::proofs::Shaping::shaping))]
fn put_process(
    alloc: Global,
    prog: &Prog,
    parent: Option<(RegId, u16, u16)>,
    regs: &mut Vec<Shape>,
) -> Result<(), OutOfMemory>
    requires shaped { IsShaped (process_of prog.now) }
    requires numbered { length regs.old.items + register_count (process_of prog.now) ≤ 2 ^ 32 }
    ensures grown { IfOk result (λ _. length regs.new.items ≡ length regs.old.items + register_count (process_of prog.now)) }
    ensures shapes { IfOk result (λ _. map register_shape_of regs.new.items ≡ map register_shape_of regs.old.items ++ shapes_from (length regs.old.items) (parent_of parent) (process_of prog.now)) }
{
    match prog {
        Prog::Auto(auto) => Ok(put_automaton(alloc, &auto.states, auto.init, parent, regs)?),
        Prog::Par(parts) => Ok(put_parts(alloc, parts, parent, regs)?),
        Prog::Local(_, inside) | Prog::Freeze(_, inside) => Ok(put_process(
            alloc, inside, parent, regs,
        )?),
    }
}

#[cycle(shapes)]
#[tactic(auto, using(crate::proofs::Shaping::shaping))]
fn put_parts(
    alloc: Global,
    parts: &[Prog],
    parent: Option<(RegId, u16, u16)>,
    regs: &mut Vec<Shape>,
) -> Result<(), OutOfMemory>
    requires shaped { AreShapedParts (processes_of (map process_of parts.now)) }
    requires numbered { length regs.old.items + registers_of (processes_of (map process_of parts.now)) ≤ 2 ^ 32 }
    ensures grown { IfOk result (λ _. length regs.new.items ≡ length regs.old.items + registers_of (processes_of (map process_of parts.now))) }
    ensures shapes { IfOk result (λ _. map register_shape_of regs.new.items ≡ map register_shape_of regs.old.items ++ shapes_of_parts (length regs.old.items) (parent_of parent) (processes_of (map process_of parts.now))) }
{
    for part in parts {
        put_process(alloc, part, parent, regs)?;
    }
    Ok(())
}

// An automaton with these states and this initial one.
#[cycle(shapes)]
#[tactic(auto, using(crate::proofs::Shaping::shaping))]
fn put_automaton(
    alloc: Global,
    states: &[State],
    init: u16,
    parent: Option<(RegId, u16, u16)>,
    regs: &mut Vec<Shape>,
) -> Result<(), OutOfMemory>
    requires shaped { IsShaped (automaton (states_of (map state_of states.now)) init) }
    requires numbered { length regs.old.items + register_count (automaton (states_of (map state_of states.now)) init) ≤ 2 ^ 32 }
    ensures grown { IfOk result (λ _. length regs.new.items ≡ length regs.old.items + register_count (automaton (states_of (map state_of states.now)) init)) }
    ensures shapes { IfOk result (λ _. map register_shape_of regs.new.items ≡ map register_shape_of regs.old.items ++ shapes_from (length regs.old.items) (parent_of parent) (automaton (states_of (map state_of states.now)) init)) }
{
    let own = RegId(regs.len() as u32);
    regs.push(shape_of(alloc, states, init, parent)?)?;
    put_states(alloc, states, own, regs)?;
    Ok(())
}

// The automata in the bodies of the states of an automaton with this register.
#[cycle(shapes)]
#[tactic(auto, using(crate::proofs::Shaping::shaping))]
fn put_states(
    alloc: Global,
    states: &[State],
    own: RegId,
    regs: &mut Vec<Shape>,
) -> Result<(), OutOfMemory>
    requires counted { automata.code_count (states_of (map state_of states.now)) ≤ code_limit }
    requires shaped { AreShapedStates (length (rules_of (states_of (map state_of states.now)))) (states_of (map state_of states.now)) }
    requires numbered { length regs.old.items + registers_in (states_of (map state_of states.now)) ≤ 2 ^ 32 }
    ensures grown { IfOk result (λ _. length regs.new.items ≡ length regs.old.items + registers_in (states_of (map state_of states.now))) }
    ensures shapes { IfOk result (λ _. map register_shape_of regs.new.items ≡ map register_shape_of regs.old.items ++ shapes_in (length regs.old.items) own.0 1 (states_of (map state_of states.now))) }
{
    let mut used = 0;
    for state in states {
        let first = used + 1;
        used += counts_of(state);
        put_body(alloc, state, (own, first, used), regs)?;
    }
    Ok(())
}

#[cycle(shapes)]
#[tactic(auto, using(crate::proofs::Shaping::shaping))]
fn put_body(
    alloc: Global,
    state: &State,
    parent: (RegId, u16, u16),
    regs: &mut Vec<Shape>,
) -> Result<(), OutOfMemory>
    requires shaped { IsShapedBody (state_of state.now).body }
    requires numbered { length regs.old.items + registers_within (state_of state.now).body ≤ 2 ^ 32 }
    ensures grown { IfOk result (λ _. length regs.new.items ≡ length regs.old.items + registers_within (state_of state.now).body) }
    ensures shapes { IfOk result (λ _. map register_shape_of regs.new.items ≡ map register_shape_of regs.old.items ++ shapes_within (length regs.old.items) (parent_at parent) (state_of state.now).body) }
{
    match &state.body {
        Some(inside) => Ok(put_process(alloc, inside, Some(parent), regs)?),
        None => Ok(()),
    }
}

// The register of an automaton with these states and this initial one.
#[tactic(auto, using(crate::proofs::Shaping::shaping))]
fn shape_of(
    alloc: Global,
    states: &[State],
    init: u16,
    parent: Option<(RegId, u16, u16)>,
) -> Result<Shape, OutOfMemory>
    requires exists { init < length states.now }
    requires counted { automata.code_count (states_of (map state_of states.now)) ≤ code_limit }
    requires shaped { AreShapedStates (length (rules_of (states_of (map state_of states.now)))) (states_of (map state_of states.now)) }
    ensures { IfOk result (λ s. register_shape_of s ≡ shape_with (parent_of parent) (states_of (map state_of states.now)) init) }
{
    Ok(Shape {
        top: code_count(states),
        init: first_code(states, init),
        ranges: ranges(alloc, states)?,
        parent,
    })
}

// The codes of each state.
#[tactic(auto, using(crate::proofs::Shaping::shaping))]
fn ranges(alloc: Global, states: &[State]) -> Result<Vec<(u16, u16)>, OutOfMemory>
    requires counted { automata.code_count (states_of (map state_of states.now)) ≤ code_limit }
    requires shaped { AreShapedStates (length (rules_of (states_of (map state_of states.now)))) (states_of (map state_of states.now)) }
    ensures { IfOk result (λ ranges. map range_of ranges.items ≡ layouts.ranges_from 1 (rules_of (states_of (map state_of states.now)))) }
{
    let mut ranges = Vec::new(alloc);
    let mut used = 0;
    for state in states {
        let first = used + 1;
        used += counts_of(state);
        ranges.push((first, used))?;
    }
    Ok(ranges)
}
