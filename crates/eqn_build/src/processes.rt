//! Processes as lines.
ghost use Rattle.std.specs.Prelude.{◌≡◌, [], ◌∷◌, ◌+◌, ◌^◌, ◌<◌, ◌≤◌, ◌++◌, IfOk, length, map};
ghost use Rattle.argos_base.specs.Limits.{code_limit};
ghost use Rattle.argos_core.specs.Automata.{register_count, registers_of, registers_in, registers_within, code_count};
ghost use Rattle.argos_core.specs.Modules.{IsShaped, AreShapedParts, AreShapedStates, IsShapedBody};
ghost use Rattle.argos_core.specs.Process.{automaton, freeze, body};
ghost use Rattle.argos_core.specs.Views.{process_of, state_of, processes_of, states_of};
ghost use Rattle.eqn_build.specs.inner.BuilderViews.{fire_bit_of, exit_bits_of, literals, literals_at, literals_in, entry_lines, placed_body, placed_bodies, starts_of};
ghost use Rattle.eqn_core.specs.Views.{line_of, literal_of};
ghost use Rattle.eqn_scheme.specs.Scheme as meaning;

use crate::builder::{Around, Builder, Exit, Fire, Initial, both, minus, opposite, plus, put_bit};
use crate::registers::register_line;
use crate::states::put_states;
use crate::tables::entries;
use argos_base::OutOfMemory;
use argos_core::{Prog, State};
use eqn_core::{Line, Lit};
use smallvec::SmallVec;
use std::alloc::Global;

/// Adds the lines of a process whose registers begin with this one, and its fires, and answers the next register.
#[cycle(processes)]
#[tactic(auto, using(crate::proofs::ProcessBuilding::process_building))]
pub(crate) fn put_process(
    alloc: Global,
    prog: &Prog,
    register: u32,
    around: Around,
    builder: &mut Builder,
    fires: &mut Vec<Fire>,
) -> Result<u32, OutOfMemory>
    requires shaped { IsShaped (process_of prog.now) }
    requires room { builder.old.bits + meaning.process_bits (process_of prog.now) < 2 ^ 32 }
    requires numbered { register + register_count (process_of prog.now) < 2 ^ 32 }
    ensures next { IfOk result (λ next. next ≡ register + register_count (process_of prog.now)) }
    ensures bits { IfOk result (λ _. builder.new.bits ≡ builder.old.bits + meaning.process_bits (process_of prog.now)) }
    ensures one { IfOk result (λ _. builder.new.one ≡ builder.old.one) }
    ensures lines { IfOk result (λ _. map line_of builder.new.lines.items ≡ map line_of builder.old.lines.items ++ meaning.process_lines (process_of prog.now) builder.old.one builder.old.bits register (literal_of around.run) (literal_of around.start) (literal_of around.kill)) }
    ensures fires { IfOk result (λ _. map fire_bit_of fires.new.items ≡ map fire_bit_of fires.old.items ++ meaning.process_fires (process_of prog.now) builder.old.bits) }
{
    match prog {
        Prog::Auto(auto) => Ok(put_automaton(
            alloc,
            &auto.states,
            auto.init,
            register,
            around,
            builder,
            fires,
        )?),
        Prog::Par(parts) => Ok(put_parts(alloc, parts, register, around, builder, fires)?),
        Prog::Local(_, inside) => Ok(put_process(alloc, inside, register, around, builder, fires)?),
        Prog::Freeze(signal, inside) => Ok(put_frozen(
            alloc, signal.0, inside, register, around, builder, fires,
        )?),
    }
}

// A process that reacts only where the signal is absent.
#[cycle(processes)]
#[tactic(auto, using(crate::proofs::ProcessBuilding::process_building))]
fn put_frozen(
    alloc: Global,
    signal: u32,
    inside: &Prog,
    register: u32,
    around: Around,
    builder: &mut Builder,
    fires: &mut Vec<Fire>,
) -> Result<u32, OutOfMemory>
    requires shaped { IsShaped (process_of inside.now) }
    requires room { builder.old.bits + 1 + meaning.process_bits (process_of inside.now) < 2 ^ 32 }
    requires numbered { register + register_count (process_of inside.now) < 2 ^ 32 }
    ensures next { IfOk result (λ next. next ≡ register + register_count (process_of inside.now)) }
    ensures bits { IfOk result (λ _. builder.new.bits ≡ builder.old.bits + 1 + meaning.process_bits (process_of inside.now)) }
    ensures one { IfOk result (λ _. builder.new.one ≡ builder.old.one) }
    ensures lines { IfOk result (λ _. map line_of builder.new.lines.items ≡ map line_of builder.old.lines.items ++ meaning.process_lines (freeze signal (process_of inside.now)) builder.old.one builder.old.bits register (literal_of around.run) (literal_of around.start) (literal_of around.kill)) }
    ensures fires { IfOk result (λ _. map fire_bit_of fires.new.items ≡ map fire_bit_of fires.old.items ++ meaning.process_fires (freeze signal (process_of inside.now)) builder.old.bits) }
{
    let line = Line::All(both(alloc, around.run, minus(signal))?);
    let run = plus(put_bit(builder, line)?);
    let within = Around {
        run,
        start: around.start,
        kill: around.kill,
    };
    Ok(put_process(alloc, inside, register, within, builder, fires)?)
}

#[cycle(processes)]
#[tactic(auto, using(crate::proofs::ProcessBuilding::process_building))]
fn put_parts(
    alloc: Global,
    parts: &[Prog],
    register: u32,
    around: Around,
    builder: &mut Builder,
    fires: &mut Vec<Fire>,
) -> Result<u32, OutOfMemory>
    requires shaped { AreShapedParts (processes_of (map process_of parts.now)) }
    requires room { builder.old.bits + meaning.parts_bits (processes_of (map process_of parts.now)) < 2 ^ 32 }
    requires numbered { register + registers_of (processes_of (map process_of parts.now)) < 2 ^ 32 }
    ensures next { IfOk result (λ next. next ≡ register + registers_of (processes_of (map process_of parts.now))) }
    ensures bits { IfOk result (λ _. builder.new.bits ≡ builder.old.bits + meaning.parts_bits (processes_of (map process_of parts.now))) }
    ensures one { IfOk result (λ _. builder.new.one ≡ builder.old.one) }
    ensures lines { IfOk result (λ _. map line_of builder.new.lines.items ≡ map line_of builder.old.lines.items ++ meaning.parts_lines (processes_of (map process_of parts.now)) builder.old.one builder.old.bits register (literal_of around.run) (literal_of around.start) (literal_of around.kill)) }
    ensures fires { IfOk result (λ _. map fire_bit_of fires.new.items ≡ map fire_bit_of fires.old.items ++ meaning.parts_fires (processes_of (map process_of parts.now)) builder.old.bits) }
{
    let mut next = register;
    for part in parts {
        next = put_process(alloc, part, next, around, builder, fires)?;
    }
    Ok(next)
}

// An automaton with these states and this initial one.
#[cycle(processes)]
#[tactic(auto, using(crate::proofs::ProcessBuilding::process_building))]
fn put_automaton(
    alloc: Global,
    states: &[State],
    init: u16,
    register: u32,
    around: Around,
    builder: &mut Builder,
    fires: &mut Vec<Fire>,
) -> Result<u32, OutOfMemory>
    requires shaped { IsShaped (automaton (states_of (map state_of states.now)) init) }
    requires room { builder.old.bits + meaning.process_bits (automaton (states_of (map state_of states.now)) init) < 2 ^ 32 }
    requires numbered { register + register_count (automaton (states_of (map state_of states.now)) init) < 2 ^ 32 }
    ensures next { IfOk result (λ next. next ≡ register + register_count (automaton (states_of (map state_of states.now)) init)) }
    ensures bits { IfOk result (λ _. builder.new.bits ≡ builder.old.bits + meaning.process_bits (automaton (states_of (map state_of states.now)) init)) }
    ensures one { IfOk result (λ _. builder.new.one ≡ builder.old.one) }
    ensures lines { IfOk result (λ _. map line_of builder.new.lines.items ≡ map line_of builder.old.lines.items ++ meaning.process_lines (automaton (states_of (map state_of states.now)) init) builder.old.one builder.old.bits register (literal_of around.run) (literal_of around.start) (literal_of around.kill)) }
    ensures fires { IfOk result (λ _. map fire_bit_of fires.new.items ≡ map fire_bit_of fires.old.items ++ meaning.process_fires (automaton (states_of (map state_of states.now)) init) builder.old.bits) }
{
    let go = Line::All(both(alloc, opposite(around.start), opposite(around.kill))?);
    let go = put_bit(builder, go)?;
    let mut own = put_states(alloc, states, around, register, builder)?;
    let enters = entries(alloc, &own.fires, states.len())?;
    let line = register_line(alloc, states, init, register, around, &own)?;
    builder.lines.push(line)?;
    fires.append(&mut own.fires)?;
    Ok(put_bodies(
        alloc,
        states,
        go,
        Initial {
            state: init,
            start: around.start,
        },
        &own.exits,
        &enters,
        register + 1,
        builder,
        fires,
    )?)
}

// The bodies of states, of which one is the initial state of an automaton with this start.
#[cycle(processes)]
#[tactic(auto, using(crate::proofs::ProcessBuilding::process_building))]
fn put_bodies(
    alloc: Global,
    states: &[State],
    go: u32,
    begin: Initial,
    exits: &[Exit],
    enters: &[SmallVec<Lit, 4>],
    register: u32,
    builder: &mut Builder,
    fires: &mut Vec<Fire>,
) -> Result<u32, OutOfMemory>
    requires exits { length exits.now ≡ length states.now }
    requires enters { length enters.now ≡ length states.now }
    requires shaped { AreShapedStates (length states.now) (states_of (map state_of states.now)) }
    requires room { builder.old.bits + meaning.bodies_bits (states_of (map state_of states.now)) < 2 ^ 32 }
    requires numbered { register + registers_in (states_of (map state_of states.now)) < 2 ^ 32 }
    ensures next { IfOk result (λ next. next ≡ register + registers_in (states_of (map state_of states.now))) }
    ensures bits { IfOk result (λ _. builder.new.bits ≡ builder.old.bits + meaning.bodies_bits (states_of (map state_of states.now))) }
    ensures one { IfOk result (λ _. builder.new.one ≡ builder.old.one) }
    ensures lines { IfOk result (λ _. map line_of builder.new.lines.items ≡ map line_of builder.old.lines.items ++ placed_bodies (states_of (map state_of states.now)) builder.old.one go register (map exit_bits_of exits.now) (literals_at enters.now) (starts_of begin.state (literal_of begin.start)) builder.old.bits) }
    ensures fires { IfOk result (λ _. map fire_bit_of fires.new.items ≡ map fire_bit_of fires.old.items ++ meaning.bodies_fires (states_of (map state_of states.now)) builder.old.bits) }
{
    let mut next = register;
    for (number, state) in states.iter().enumerate() {
        let start = start_at(begin, number);
        next = put_body(
            alloc,
            state,
            go,
            start,
            &exits[number],
            &enters[number],
            next,
            builder,
            fires,
        )?;
    }
    Ok(next)
}

// What starts the state with this number together with its automaton.
fn start_at(begin: Initial, number: usize) -> Option<Lit>
    ensures { literals_in result ≡ starts_of begin.state (literal_of begin.start) number }
{
    if begin.state as usize == number {
        Some(begin.start)
    } else {
        None
    }
}

#[cycle(processes)]
#[tactic(auto, using(crate::proofs::ProcessBuilding::process_building))]
fn put_body(
    alloc: Global,
    state: &State,
    go: u32,
    start: Option<Lit>,
    exit: &Exit,
    enters: &[Lit],
    register: u32,
    builder: &mut Builder,
    fires: &mut Vec<Fire>,
) -> Result<u32, OutOfMemory>
    requires shaped { IsShapedBody (state_of state.now).body }
    requires room { builder.old.bits + meaning.body_bits (state_of state.now).body < 2 ^ 32 }
    requires numbered { register + registers_within (state_of state.now).body < 2 ^ 32 }
    ensures next { IfOk result (λ next. next ≡ register + registers_within (state_of state.now).body) }
    ensures bits { IfOk result (λ _. builder.new.bits ≡ builder.old.bits + meaning.body_bits (state_of state.now).body) }
    ensures one { IfOk result (λ _. builder.new.one ≡ builder.old.one) }
    ensures lines { IfOk result (λ _. map line_of builder.new.lines.items ≡ map line_of builder.old.lines.items ++ placed_body (state_of state.now).body builder.old.one go register (exit_bits_of exit.now) (map literal_of enters.now) (literals_in start) builder.old.bits) }
    ensures fires { IfOk result (λ _. map fire_bit_of fires.new.items ≡ map fire_bit_of fires.old.items ++ meaning.body_fires (state_of state.now).body builder.old.bits) }
{
    match &state.body {
        Some(inside) => Ok(put_inside(
            alloc, inside, go, start, exit, enters, register, builder, fires,
        )?),
        None => Ok(register),
    }
}

// The process inside a state.
#[cycle(processes)]
#[tactic(auto, using(crate::proofs::ProcessBuilding::process_building))]
fn put_inside(
    alloc: Global,
    inside: &Prog,
    go: u32,
    start: Option<Lit>,
    exit: &Exit,
    enters: &[Lit],
    register: u32,
    builder: &mut Builder,
    fires: &mut Vec<Fire>,
) -> Result<u32, OutOfMemory>
    requires shaped { IsShaped (process_of inside.now) }
    requires room { builder.old.bits + 4 + meaning.process_bits (process_of inside.now) < 2 ^ 32 }
    requires numbered { register + register_count (process_of inside.now) < 2 ^ 32 }
    ensures next { IfOk result (λ next. next ≡ register + register_count (process_of inside.now)) }
    ensures bits { IfOk result (λ _. builder.new.bits ≡ builder.old.bits + 4 + meaning.process_bits (process_of inside.now)) }
    ensures one { IfOk result (λ _. builder.new.one ≡ builder.old.one) }
    ensures lines { IfOk result (λ _. map line_of builder.new.lines.items ≡ map line_of builder.old.lines.items ++ placed_body (body (process_of inside.now)) builder.old.one go register (exit_bits_of exit.now) (map literal_of enters.now) (literals_in start) builder.old.bits) }
    ensures fires { IfOk result (λ _. map fire_bit_of fires.new.items ≡ map fire_bit_of fires.old.items ++ meaning.body_fires (body (process_of inside.now)) builder.old.bits) }
{
    let around = put_entry(alloc, go, start, exit, enters, builder)?;
    Ok(put_process(alloc, inside, register, around, builder, fires)?)
}

// The four lines before those of a body, and what they tell it.
#[tactic(auto, using(crate::proofs::ProcessBuilding::process_building))]
fn put_entry(
    alloc: Global,
    go: u32,
    start: Option<Lit>,
    exit: &Exit,
    enters: &[Lit],
    builder: &mut Builder,
) -> Result<Around, OutOfMemory>
    requires room { builder.old.bits + 4 < 2 ^ 32 }
    ensures run { IfOk result (λ around. literal_of around.run ≡ meaning.plus exit.now.live) }
    ensures start { IfOk result (λ around. literal_of around.start ≡ meaning.plus (builder.old.bits + 3)) }
    ensures kill { IfOk result (λ around. literal_of around.kill ≡ meaning.plus builder.old.bits) }
    ensures bits { IfOk result (λ _. builder.new.bits ≡ builder.old.bits + 4) }
    ensures one { IfOk result (λ _. builder.new.one ≡ builder.old.one) }
    ensures lines { IfOk result (λ _. map line_of builder.new.lines.items ≡ map line_of builder.old.lines.items ++ entry_lines go (literals exit.now.left) (map literal_of enters.now) (literals_in start) builder.old.bits) }
{
    let left = put_bit(builder, Line::Any(SmallVec::from_slice(alloc, &exit.left)?))?;
    let entered = put_bit(builder, Line::Any(SmallVec::from_slice(alloc, enters)?))?;
    let begun = put_bit(builder, Line::All(both(alloc, plus(go), plus(entered))?))?;
    let started = put_bit(builder, Line::Any(one_or_both(alloc, plus(begun), start)?))?;
    Ok(Around {
        run: plus(exit.live),
        start: plus(started),
        kill: plus(left),
    })
}

// The first literal, and the second if there is one.
fn one_or_both(
    alloc: Global,
    first: Lit,
    second: Option<Lit>,
) -> Result<SmallVec<Lit, 4>, OutOfMemory>
    ensures { IfOk result (λ ls. literals ls ≡ literal_of first ∷ literals_in second) }
{
    match second {
        Some(second) => Ok(both(alloc, first, second)?),
        None => Ok(SmallVec::from_slice(alloc, &[first])?),
    }
}
