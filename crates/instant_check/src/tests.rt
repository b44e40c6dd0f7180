ghost use Rattle.std.specs.Prelude.{◌≡◌, ◌<◌, ℕ, List, [], ◌∷◌, None, codes, IfOk};
ghost use Rattle.argos_base.specs.Spelling.{IsName};
ghost use Rattle.argos_core.specs.Process.{present, Transition, Rules, automaton, state, no_states, no_body};
ghost use Rattle.argos_core.specs.Views.{OneState, process_of, state_of};

use crate::{OverlapFound, overlaps};
use argos_base::{Name, NameTable, Names, OutOfMemory, RegId, SigId};
use argos_core::{Auto, Guard, Module, Prog, State, Trans};
use eqn_dd::CheckError;
use smallvec::SmallVec;
use std::alloc::Global;
use std::process::Abort;
use std::test::Fail;

// The name that these bytes spell.
fn name_of(bytes: &[u8]) -> Name
    requires { IsName bytes.now }
    ensures { result ≡ bytes.now }
{
    match Name::new(bytes) {
        Ok(name) => name,
        Err(_) => unreachable!(),
    }
}

// The table of the names a and b.
#[tactic(auto, unfolding(argos_base::specs::Spelling::reserved_words))]
fn inputs(alloc: Global) -> Result<NameTable, OutOfMemory>
    ensures { IfOk result (λ names. names ≡ codes "a" ∷ codes "b" ∷ []) }
{
    let mut names = NameTable::new(alloc);
    match names.add(name_of(b"a")) {
        Ok(_) => {}
        Err(_) => return Err(OutOfMemory),
    }
    match names.add(name_of(b"b")) {
        Ok(_) => Ok(names),
        Err(_) => Err(OutOfMemory),
    }
}

// A state with transitions where a is present, to state 0, and where b is, to this one.
#[tactic(auto, unfolding(argos_base::specs::Spelling::reserved_words))]
fn choice(alloc: Global, target: u16) -> Result<State, OutOfMemory>
    ensures { IfOk result (λ s. state_of s ≡ record {
      rules = record {
        name = codes "S";
        transitions = record { guard = present 0; outs = []; target = 0 }
            ∷ record { guard = present 1; outs = []; target = target } ∷ [];
        timeout = None;
      };
      body = no_body;
    }) }
{
    let first = Trans {
        guard: Guard::Sig(SigId(0)),
        outs: SmallVec::new(alloc),
        target: 0,
    };
    let second = Trans {
        guard: Guard::Sig(SigId(1)),
        outs: SmallVec::new(alloc),
        target,
    };
    Ok(State {
        name: name_of(b"S"),
        trans: vec![in alloc; first, second]?,
        timed: None,
        body: None,
    })
}

// A state without transitions.
#[tactic(auto, unfolding(argos_base::specs::Spelling::reserved_words))]
fn bare(alloc: Global) -> State
    ensures { state_of result
        ≡ record { rules = record { name = codes "T"; transitions = []; timeout = None }; body = no_body } }
{
    State {
        name: name_of(b"T"),
        trans: Vec::new(alloc),
        timed: None,
        body: None,
    }
}

// The automaton of both.
fn choice_prog(alloc: Global, target: u16) -> Result<Prog, OutOfMemory>
    ensures { IfOk result (λ p. process_of p ≡ automaton
        (state (record {
          name = codes "S";
          transitions = record { guard = present 0; outs = []; target = 0 }
              ∷ record { guard = present 1; outs = []; target = target } ∷ [];
          timeout = None;
        }) no_body
        (state (record { name = codes "T"; transitions = []; timeout = None }) no_body no_states)) 0) }
{
    Ok(Prog::Auto(Auto {
        states: vec![in alloc; choice(alloc, target)?, bare(alloc)]?,
        init: 0,
    }))
}

// A module whose first state goes to state 0 on a, and to this one on b.
#[tactic(auto, unfolding(argos_base::specs::Spelling::reserved_words))]
fn choosing(alloc: Global, target: u16) -> Result<Module, OutOfMemory>
    requires { target < 2 }
{
    let prog = choice_prog(alloc, target)?;
    let inputs = inputs(alloc)?;
    Ok(Module {
        prog,
        names: Names {
            inputs,
            outputs: NameTable::new(alloc),
        },
        locals: Vec::new(alloc),
    })
}

#[test]
fn tells_the_first_overlap(rt: HostRuntime) -> Result<(), Fail> {
    let module = choosing(rt.alloc(), 1)?;
    let answer = overlaps(rt.alloc(), &module, 100);
    assert!(rt;
        matches!(
            &answer,
            Ok(OverlapFound::Overlap {
                reg: RegId(0),
                state: 0,
                first: 0,
                second: 1,
                ..
            })
        )
    );
    if let Ok(OverlapFound::Overlap { set, .. }) = &answer {
        assert!(rt; set.len() == 2);
        assert!(rt; set.get(0));
        assert!(rt; set.get(1));
    }
    Ok(())
}

#[test]
fn transitions_of_one_effect_may_overlap(rt: HostRuntime) -> Result<(), Fail> {
    let module = choosing(rt.alloc(), 0)?;
    let answer = overlaps(rt.alloc(), &module, 2);
    assert!(rt; matches!(&answer, Ok(OverlapFound::Clear)));
    Ok(())
}

#[test]
fn a_job_may_run_out_of_nodes(rt: HostRuntime) -> Result<(), Fail> {
    let module = choosing(rt.alloc(), 1)?;
    let answer = overlaps(rt.alloc(), &module, 3);
    assert!(rt; matches!(&answer, Err(CheckError::Budget(_))));
    if let Err(CheckError::Budget(arena)) = &answer {
        assert!(rt; arena.variables() == 2);
        assert!(rt; arena.used() == 3);
    }
    Ok(())
}
