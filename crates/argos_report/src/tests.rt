//! An overlap and a bad case, told of a module with a timed state, a body and a local.
ghost use Rattle.std.specs.Prelude.{◌≡◌, [], ◌∷◌, IfOk, Some, None, codes};
ghost use Rattle.argos_base.specs.Spelling.{IsName};
ghost use Rattle.argos_core.specs.Process as plain;
ghost use Rattle.argos_core.specs.Views.{process_of, transition_of, numbers};
ghost use Rattle.argos_report.specs.inner.Tested as tested;

use crate::reports::text_of;
use argos_base::{Name, NameTable, Names, OutOfMemory, RegId, SigId, Signals};
use argos_core::{Auto, Guard, Module, Prog, State, Timed, Trans, emit};
use argos_verdict::AcceptError;
use smallvec::SmallVec;
use std::alloc::Global;
use std::test::Fail;

const A: SigId = SigId(0);

const B: SigId = SigId(1);

const O: SigId = SigId(2);

const L: SigId = SigId(3);

// The name that these bytes spell.
fn name_of(bytes: &[u8]) -> Name
    requires { IsName bytes.now }
    ensures { result ≡ bytes.now }
{
    match Name::new(bytes) {
        Ok(name) => name,
        Err(_) => unreachable!(),
    }
}

// The table of these names.
#[tactic(auto, unfolding(argos_base::specs::Spelling::reserved_words))]
fn inputs(alloc: Global) -> Result<NameTable, OutOfMemory>
    ensures { IfOk result (λ names. names ≡ codes "a" ∷ codes "b" ∷ []) }
{
    let mut names = NameTable::new(alloc);
    match names.add(name_of(b"a")) {
        Ok(_) => {}
        Err(_) => return Err(OutOfMemory),
    }
    match names.add(name_of(b"b")) {
        Ok(_) => Ok(names),
        Err(_) => Err(OutOfMemory),
    }
}

#[tactic(auto, unfolding(argos_base::specs::Spelling::reserved_words))]
fn outputs(alloc: Global) -> Result<NameTable, OutOfMemory>
    ensures { IfOk result (λ names. names ≡ codes "o" ∷ []) }
{
    let mut names = NameTable::new(alloc);
    match names.add(name_of(b"o")) {
        Ok(_) => Ok(names),
        Err(_) => Err(OutOfMemory),
    }
}

fn loop_with(alloc: Global, outs: &[SigId]) -> Result<Trans, OutOfMemory>
    ensures { IfOk result (λ t. transition_of t ≡ tested.loop_with (numbers outs.now)) }
{
    Ok(Trans {
        guard: Guard::Sig(L),
        outs: SmallVec::from_slice(alloc, outs)?,
        target: 0,
    })
}

// The automaton inside P.
#[tactic(auto, unfolding(argos_base::specs::Spelling::reserved_words))]
fn inside(alloc: Global) -> Result<Prog, OutOfMemory>
    ensures { IfOk result (λ p. process_of p ≡ tested.inside) }
{
    let first = loop_with(alloc, &[O])?;
    let second = loop_with(alloc, &[])?;
    let state = State {
        name: name_of(b"I"),
        trans: vec![in alloc; first, second]?,
        timed: None,
        body: None,
    };
    Ok(Prog::Auto(Auto {
        states: vec![in alloc; state]?,
        init: 0,
    }))
}

// P, with this automaton in its body, and Q.
#[tactic(auto, unfolding(argos_base::specs::Spelling::reserved_words))]
fn outside(alloc: Global, inside: Prog) -> Result<Prog, OutOfMemory>
    ensures { IfOk result (λ p. process_of p ≡ plain.automaton
        (plain.state (tested.bare (codes "P") (Some tested.third)) (plain.body (process_of inside))
        (plain.state (tested.bare (codes "Q") None) plain.no_body plain.no_states)) 0) }
{
    let third = Timed {
        count: 3,
        signal: A,
        outs: SmallVec::new(alloc),
        target: 1,
    };
    let p = State {
        name: name_of(b"P"),
        trans: Vec::new(alloc),
        timed: Some(third),
        body: Some(Box::new(alloc, inside)?),
    };
    let q = State {
        name: name_of(b"Q"),
        trans: Vec::new(alloc),
        timed: None,
        body: None,
    };
    Ok(Prog::Auto(Auto {
        states: vec![in alloc; p, q]?,
        init: 0,
    }))
}

fn program(alloc: Global) -> Result<Prog, OutOfMemory>
    ensures { IfOk result (λ p. process_of p ≡ tested.program) }
{
    let inside = inside(alloc)?;
    let outside = outside(alloc, inside)?;
    Ok(Prog::Local(vec![in alloc; L]?, Box::new(alloc, outside)?))
}

#[tactic(auto, unfolding(argos_base::specs::Spelling::reserved_words))]
fn module(alloc: Global) -> Result<Module, OutOfMemory> {
    let prog = program(alloc)?;
    let inputs = inputs(alloc)?;
    let outputs = outputs(alloc)?;
    Ok(Module {
        prog,
        names: Names { inputs, outputs },
        locals: vec![in alloc; name_of(b"l")]?,
    })
}

// Of so many signals those of the list.
fn set_of(alloc: Global, count: u32, present: &[SigId]) -> Result<Signals, Fail> {
    let mut set = Signals::new(alloc, count)?;
    emit(present, &mut set);
    Ok(set)
}

#[test]
fn tells_an_overlap(rt: HostRuntime) -> Result<(), Fail> {
    let alloc = rt.alloc();
    let module = module(alloc)?;
    let error = AcceptError::Overlap {
        reg: RegId(0),
        state: 1,
        first: 0,
        second: 9,
        set: set_of(alloc, 4, &[B, L])?,
    };
    let text = text_of(alloc, 1, &module, 300, &error)?;
    let line = b"refused: file 1: overlap in r0 state Q of transitions 1 and 10 at b l\n";
    assert!(rt; text.as_slice() == line.as_slice());
    Ok(())
}

#[test]
fn tells_a_case_without_a_reaction(rt: HostRuntime) -> Result<(), Fail> {
    let alloc = rt.alloc();
    let module = module(alloc)?;
    let error = AcceptError::NoReaction {
        memory: vec![in alloc; 2, 1]?,
        input: set_of(alloc, 2, &[A, B])?,
    };
    let text = text_of(alloc, 3, &module, 300, &error)?;
    let lines = b"no: file 3: no reaction\nmemory r0=P+1 r1=I\ninput a b\n";
    assert!(rt; text.as_slice() == lines.as_slice());
    Ok(())
}
