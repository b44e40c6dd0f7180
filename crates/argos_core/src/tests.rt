ghost use Rattle.std.specs.Prelude.{◌≡◌, IfOk, map};
ghost use Rattle.argos_core.specs.SmallPrograms.{IsPlain, IsSmall, body_holding};
ghost use Rattle.argos_core.specs.Process as meaning;
ghost use Rattle.argos_core.specs.Views.{process_of, state_of, states_of, timeout_in};

use crate::*;
use argos_base::{Name, RegId, SigId, Signals};
use smallvec::SmallVec;
use std::alloc::Global;
use std::test::Fail;

const A: SigId = SigId(0);

const B: SigId = SigId(1);

const C: SigId = SigId(2);

// Of three signals those of the list.
fn set_of(alloc: Global, present: &[SigId]) -> Result<Signals, Fail> {
    let mut set = Signals::new(alloc, 3)?;
    emit(present, &mut set);
    Ok(set)
}

#[test]
fn puts_the_listed_signals_into_a_set(rt: HostRuntime) -> Result<(), Fail> {
    let set = set_of(rt.alloc(), &[A, C, A, SigId(3)])?;
    assert!(rt; set.len() == 3);
    assert!(rt; set.get(0));
    assert!(rt; !set.get(1));
    assert!(rt; set.get(2));
    assert!(rt; lists(&[A, C], C));
    assert!(rt; !lists(&[A, C], B));
    Ok(())
}

// a and not (b or c)
fn guard(alloc: Global) -> Result<Guard, Fail> {
    let either = Guard::Any(vec![in alloc; Guard::Sig(B), Guard::Sig(C)]?);
    let neither = Guard::Not(Box::new(alloc, either)?);
    Ok(Guard::All(vec![in alloc; Guard::Sig(A), neither]?))
}

#[test]
fn holds_where_it_should(rt: HostRuntime) -> Result<(), Fail> {
    let alloc = rt.alloc();
    let guard = guard(alloc)?;
    assert!(rt; holds(&guard, &set_of(alloc, &[A])?));
    assert!(rt; !holds(&guard, &set_of(alloc, &[])?));
    assert!(rt; !holds(&guard, &set_of(alloc, &[A, C])?));
    assert!(rt; reads(&guard, C));
    assert!(rt; !reads(&guard, SigId(3)));
    Ok(())
}

// A state without transitions.
fn state(
    alloc: Global,
    name: &[u8],
    timed: Option<Timed>,
    body: Option<Box<Prog>>,
) -> Result<State, Fail>
    ensures { IfOk result (λ s. IsPlain (state_of s) (timeout_in timed) (body_holding body)) }
{
    Ok(State {
        name: Name::new(name)?,
        trans: Vec::new(alloc),
        timed,
        body,
    })
}

fn automaton(states: Vec<State>) -> Prog
    ensures { process_of result ≡ meaning.automaton (states_of (map state_of states.items)) 0 }
{
    Prog::Auto(Auto { states, init: 0 })
}

// P, in whose body is an automaton of the one state I, and Q.
fn refined(alloc: Global) -> Result<Prog, Fail>
    ensures { IfOk result (λ p. IsSmall 2 (process_of p)) }
{
    let inside = automaton(vec![in alloc; state(alloc, b"I", None, None)?]?);
    let p = state(alloc, b"P", None, Some(Box::new(alloc, inside)?))?;
    Ok(automaton(vec![in alloc; p, state(alloc, b"Q", None, None)?]?))
}

#[test]
fn codes_the_initial_configuration(rt: HostRuntime) -> Result<(), Fail> {
    let alloc = rt.alloc();
    let prog = refined(alloc)?;
    let first = initial(alloc, &prog)?;
    assert!(rt;
        matches!(
            &first,
            Config::At {
                state: 0,
                elapsed: 0,
                body: Some(_)
            }
        )
    );
    if let Config::At {
        body: Some(inside),
        ..
    } = &first
    {
        assert!(rt;
            matches!(
                &**inside,
                Config::At {
                    state: 0,
                    elapsed: 0,
                    body: None
                }
            )
        );
    }
    assert!(rt; encode(alloc, &prog, &first)?.as_slice() == [1, 1].as_slice());
    Ok(())
}

#[test]
fn lays_out_a_body(rt: HostRuntime) -> Result<(), Fail> {
    let alloc = rt.alloc();
    let layout = layout_of(alloc, &refined(alloc)?)?;
    let [outer, inside] = layout.regs.as_slice() else {
        panic!(rt; "two registers");
    };
    assert!(rt; outer.top == 2);
    assert!(rt; outer.ranges.as_slice() == [(1, 1), (2, 2)].as_slice());
    assert!(rt; outer.parent.is_none());
    assert!(rt; inside.top == 1);
    assert!(rt; inside.ranges.as_slice() == [(1, 1)].as_slice());
    assert!(rt; inside.parent == Some((RegId(0), 1, 1)));
    Ok(())
}

#[test]
fn decodes_structural_memories_alone(rt: HostRuntime) -> Result<(), Fail> {
    let alloc = rt.alloc();
    let prog = refined(alloc)?;
    let found = decode(alloc, &prog, &[2, 0])?;
    assert!(rt;
        matches!(
            found,
            Some(Config::At {
                state: 1,
                elapsed: 0,
                body: None
            })
        )
    );
    assert!(rt; decode(alloc, &prog, &[1, 0])?.is_none());
    assert!(rt; decode(alloc, &prog, &[2, 1])?.is_none());
    assert!(rt; decode(alloc, &prog, &[0, 0])?.is_none());
    assert!(rt; decode(alloc, &prog, &[1])?.is_none());
    Ok(())
}

// In parallel, W that counts to 3 before V, and the refined automaton.
fn timed(alloc: Global) -> Result<Prog, Fail>
    ensures { IfOk result (λ p. IsSmall 3 (process_of p)) }
{
    let timeout = Timed {
        count: 3,
        signal: A,
        outs: SmallVec::new(alloc),
        target: 1,
    };
    let w = state(alloc, b"W", Some(timeout), None)?;
    let waiting = automaton(vec![in alloc; w, state(alloc, b"V", None, None)?]?);
    Ok(Prog::Par(vec![in alloc; waiting, refined(alloc)?]?))
}

#[test]
fn codes_elapsed_counts_and_parts(rt: HostRuntime) -> Result<(), Fail> {
    let alloc = rt.alloc();
    let prog = timed(alloc)?;
    let found = decode(alloc, &prog, &[3, 2, 0])?.expect(&rt, "the memory is structural");
    if let Config::Beside(parts) = &found {
        assert!(rt; parts.len() == 2);
        assert!(rt;
            matches!(
                &parts[0],
                Config::At {
                    state: 0,
                    elapsed: 2,
                    body: None
                }
            )
        );
    }
    assert!(rt; encode(alloc, &prog, &found)?.as_slice() == [3, 2, 0].as_slice());
    assert!(rt; decode(alloc, &prog, &[5, 2, 0])?.is_none());
    let layout = layout_of(alloc, &prog)?;
    let [waiting, _, inside] = layout.regs.as_slice() else {
        panic!(rt; "three registers");
    };
    assert!(rt; waiting.top == 4);
    assert!(rt; waiting.ranges.as_slice() == [(1, 3), (4, 4)].as_slice());
    assert!(rt; inside.parent == Some((RegId(1), 1, 1)));
    Ok(())
}
