//! The next codes of registers.
ghost use Rattle.std.specs.Prelude.{◌≡◌, [], ◌∷◌, ◌+◌, ◌<◌, ◌≤◌, ◌++◌, IfOk, length, map, slice_index_or};
ghost use Rattle.argos_base.specs.Limits.{code_limit};
ghost use Rattle.argos_core.specs.Automata as automata;
ghost use Rattle.argos_core.specs.Modules.{AreShapedStates};
ghost use Rattle.argos_core.specs.Views.{state_of, states_of};
ghost use Rattle.eqn_build.specs.inner.BuilderViews.{fire_bit_of, LeadBelow, cases_of, first_codes_from};
ghost use Rattle.eqn_core.specs.Views.{case_of, line_of, literal_of};
ghost use Rattle.eqn_scheme.specs.Scheme as meaning;

use crate::builder::{Around, Fire, Own, plus};
use crate::states::counts_of;
use argos_base::OutOfMemory;
use argos_core::State;
use eqn_core::{Case, Line, Pick};
use smallvec::SmallVec;
use std::alloc::Global;

/// The line that defines the next code of an automaton.
#[tactic(auto, using(crate::proofs::RegisterCases::registers))]
pub(crate) fn register_line(
    alloc: Global,
    states: &[State],
    init: u16,
    register: u32,
    around: Around,
    own: &Own,
) -> Result<Line, OutOfMemory>
    requires exists { init < length states.now }
    requires counted { automata.code_count (states_of (map state_of states.now)) ≤ code_limit }
    requires shaped { AreShapedStates (length states.now) (states_of (map state_of states.now)) }
    requires lead { LeadBelow (length states.now) (map fire_bit_of own.now.fires.items) }
    ensures { IfOk result (λ line. line_of line ≡ meaning.register_line (states_of (map state_of states.now)) init register (literal_of around.start) (literal_of around.kill) (map fire_bit_of own.now.fires.items) own.now.ticks.items) }
{
    let firsts = first_codes(alloc, states)?;
    Ok(Line::Choose {
        cases: register_cases(alloc, &firsts, init, register, around, own)?,
        other: Pick::Word(register),
    })
}

// Its cases, where the states have these first codes.
#[tactic(auto, using(crate::proofs::RegisterCases::registers))]
fn register_cases(
    alloc: Global,
    firsts: &[u16],
    init: u16,
    register: u32,
    around: Around,
    own: &Own,
) -> Result<SmallVec<Case, 4>, OutOfMemory>
    requires exists { init < length firsts.now }
    requires lead { LeadBelow (length firsts.now) (map fire_bit_of own.now.fires.items) }
    ensures { IfOk result (λ cases. map case_of cases.items ≡ cases_of (λ q. slice_index_or firsts.now q 0) init register (literal_of around.start) (literal_of around.kill) (map fire_bit_of own.now.fires.items) own.now.ticks.items) }
{
    let mut cases = SmallVec::new(alloc);
    cases.push(Case {
        when: around.start,
        pick: Pick::Code(firsts[init as usize]),
    })?;
    cases.push(Case {
        when: around.kill,
        pick: Pick::Code(0),
    })?;
    put_fire_cases(&own.fires, firsts, &mut cases)?;
    put_tick_cases(&own.ticks, register, &mut cases)?;
    Ok(cases)
}

// The first code of each state.
#[tactic(auto, using(crate::proofs::RegisterCases::registers))]
fn first_codes(alloc: Global, states: &[State]) -> Result<Vec<u16>, OutOfMemory>
    requires counted { automata.code_count (states_of (map state_of states.now)) ≤ code_limit }
    requires shaped { AreShapedStates (length states.now) (states_of (map state_of states.now)) }
    ensures { IfOk result (λ firsts. firsts.items ≡ first_codes_from 1 (states_of (map state_of states.now))) }
{
    let mut firsts = Vec::new(alloc);
    let mut used = 0;
    for state in states {
        firsts.push(used + 1)?;
        used += counts_of(state);
    }
    Ok(firsts)
}

// Each fire enters its target.
#[tactic(auto, using(crate::proofs::RegisterCases::registers))]
fn put_fire_cases(
    fires: &[Fire],
    firsts: &[u16],
    cases: &mut SmallVec<Case, 4>,
) -> Result<(), OutOfMemory>
    requires lead { LeadBelow (length firsts.now) (map fire_bit_of fires.now) }
    ensures { IfOk result (λ _. map case_of cases.new.items ≡ map case_of cases.old.items ++ meaning.fire_cases (λ q. slice_index_or firsts.now q 0) (map fire_bit_of fires.now)) }
{
    for fire in fires {
        cases.push(Case {
            when: plus(fire.bit),
            pick: Pick::Code(firsts[fire.target as usize]),
        })?;
    }
    Ok(())
}

// Each tick goes on to the next code.
#[tactic(auto, using(crate::proofs::RegisterCases::registers))]
fn put_tick_cases(
    ticks: &[u32],
    register: u32,
    cases: &mut SmallVec<Case, 4>,
) -> Result<(), OutOfMemory>
    ensures { IfOk result (λ _. map case_of cases.new.items ≡ map case_of cases.old.items ++ meaning.tick_cases register ticks.now) }
{
    for tick in ticks {
        cases.push(Case {
            when: plus(*tick),
            pick: Pick::Next(register),
        })?;
    }
    Ok(())
}
