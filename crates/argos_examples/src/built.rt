ghost use Rattle.std.specs.Prelude.{◌≡◌, [], ◌∷◌, IfOk};
ghost use Rattle.argos_base.specs.Spelling.{IsName};
ghost use Rattle.argos_core.specs.ModuleViews.{module_of};
ghost use Rattle.argos_core.specs.Process.{present, no_body};
ghost use Rattle.argos_core.specs.Views.{process_of, state_of, numbers};
ghost use Rattle.argos_examples.specs.Building.{when, untimed};
ghost use Rattle.argos_examples.specs.Toggle as example;

use argos_base::{Name, NameTable, Names, OutOfMemory, SigId};
use argos_core::{Auto, Guard, Module, Prog, State, Trans};
use smallvec::SmallVec;
use std::alloc::Global;

/// The toggle.
#[tactic(auto, unfolding(argos_base::specs::Spelling::reserved_words))]
pub fn toggle(alloc: Global) -> Result<Module, OutOfMemory>
    ensures { IfOk result (λ m. module_of m ≡ example.toggle) }
{
    let prog = toggle_prog(alloc)?;
    let inputs = one_name(alloc, b"a")?;
    let outputs = one_name(alloc, b"o")?;
    Ok(Module {
        prog,
        names: Names { inputs, outputs },
        locals: Vec::new(alloc),
    })
}

#[tactic(auto, unfolding(argos_base::specs::Spelling::reserved_words))]
fn toggle_prog(alloc: Global) -> Result<Prog, OutOfMemory>
    ensures { IfOk result (λ p. process_of p ≡ example.toggle.process) }
{
    let off = state(alloc, b"Off", &[], 1)?;
    let on = state(alloc, b"On", &[SigId(1)], 0)?;
    Ok(Prog::Auto(Auto {
        states: vec![in alloc; off, on]?,
        init: 0,
    }))
}

// A state with one transition, which is taken where `a` is present.
fn state(alloc: Global, name: &[u8], outs: &[SigId], target: u16) -> Result<State, OutOfMemory>
    requires { IsName name.now }
    ensures { IfOk result (λ s. state_of s ≡ record { rules = untimed name.now (when (present 0) (numbers outs.now) target ∷ []); body = no_body }) }
{
    let transition = Trans {
        guard: Guard::Sig(SigId(0)),
        outs: SmallVec::from_slice(alloc, outs)?,
        target,
    };
    Ok(State {
        name: name_of(name),
        trans: vec![in alloc; transition]?,
        timed: None,
        body: None,
    })
}

// The table that has this one name.
fn one_name(alloc: Global, bytes: &[u8]) -> Result<NameTable, OutOfMemory>
    requires { IsName bytes.now }
    ensures { IfOk result (λ names. names ≡ bytes.now ∷ []) }
{
    let mut names = NameTable::new(alloc);
    match names.add(name_of(bytes)) {
        Ok(_) => Ok(names),
        Err(_) => Err(OutOfMemory),
    }
}

// The name that these bytes spell.
fn name_of(bytes: &[u8]) -> Name
    requires { IsName bytes.now }
    ensures { result ≡ bytes.now }
{
    match Name::new(bytes) {
        Ok(name) => name,
        Err(_) => unreachable!(),
    }
}
