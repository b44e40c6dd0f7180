//! What the names of an aspect are in the base.
ghost use Rattle.std.specs.Prelude.{◌≡◌, [], ◌∷◌, length, flat_map, map, option_map, IfOk, IfSome, MatchResult};
ghost use Rattle.argos_aspects.specs.Views.{seen_of};
ghost use Rattle.argos_grammar.specs.Views.{mark_of, marks_of, set_of};
ghost use Rattle.argos_names.specs.Scope.{sort_in, names_in, reading, emitting};
ghost use Rattle.line_format.specs.FileNames.{names_of};
ghost use Rattle.pointcuts.specs.Pointcuts.{base_scope, seeing, IsSeen, AreSeen};
ghost use Rattle.pointcuts.specs.inner.Finding.{TellsFirst, TellsFirstOrNothing};
ghost use Rattle.pointcuts.specs.inner.Sorts.{sort_of};

use argos_base::{Name, Names};
use argos_compile::Seen;
use argos_grammar::Spot;
use argos_scope::ScopeError;
use std::alloc::Global;

// The input or output of the base that has this name.
fn signal(base: &Names, name: &Name) -> Option<Seen>
    ensures sort { option_map sort_of result ≡ sort_in (base_scope (names_of base.now)) name.now }
    ensures seen { IfSome result (λ s. IsSeen (names_of base.now) name.now (seen_of s)) }
{
    match base.inputs.find(name.bytes()) {
        Some(k) => Some(Seen::Input(k.0)),
        None => match base.outputs.find(name.bytes()) {
            Some(k) => Some(Seen::Output(k.0)),
            None => None,
        },
    }
}

// The input or output of the base that an input of the observer is.
fn see(base: &Names, input: &Spot) -> Result<Seen, ScopeError>
    ensures known { MatchResult result (λ _. seeing (base_scope (names_of base.now)) (mark_of input.now) ≡ []) (TellsFirst (seeing (base_scope (names_of base.now)) (mark_of input.now))) }
    ensures seen { IfOk result (λ s. IsSeen (names_of base.now) input.now.name (seen_of s)) }
{
    let Spot { name, at } = *input;
    match signal(base, &name) {
        Some(seen) => Ok(seen),
        None => Err(ScopeError::Unknown { name, at }),
    }
}

// An output of the base is emitted.
fn check_emitted(base: &Names, signal_named: &Spot) -> Result<(), ScopeError>
    ensures { MatchResult result (λ _. emitting (base_scope (names_of base.now)) (mark_of signal_named.now) ≡ []) (TellsFirst (emitting (base_scope (names_of base.now)) (mark_of signal_named.now))) }
{
    let Spot { name, at } = *signal_named;
    match signal(base, &name) {
        Some(Seen::Output(_)) => Ok(()),
        Some(Seen::Input(_)) => Err(ScopeError::NotEmittable { name, at }),
        None => Err(ScopeError::Unknown { name, at }),
    }
}

// An input of the base is read.
fn check_read(base: &Names, signal_named: &Spot) -> Result<(), ScopeError>
    ensures { MatchResult result (λ _. reading (base_scope (names_of base.now)) (mark_of signal_named.now) ≡ []) (TellsFirst (reading (base_scope (names_of base.now)) (mark_of signal_named.now))) }
{
    let Spot { name, at } = *signal_named;
    match signal(base, &name) {
        Some(Seen::Input(_)) => Ok(()),
        Some(Seen::Output(_)) => Err(ScopeError::NotReadable { name, at }),
        None => Err(ScopeError::Unknown { name, at }),
    }
}

/// The inputs and outputs of the base that the inputs of the observer are.
pub fn see_all(alloc: Global, base: &Names, inputs: &[Spot]) -> Result<Vec<Seen>, ScopeError>
    ensures known { MatchResult result (λ _. flat_map (seeing (base_scope (names_of base.now))) (marks_of inputs.now) ≡ [])
        (TellsFirstOrNothing (flat_map (seeing (base_scope (names_of base.now))) (marks_of inputs.now))) }
    ensures seen { IfOk result (λ s. AreSeen (names_of base.now) (names_in (marks_of inputs.now)) (map seen_of s.items)) }
{
    let mut seen = Vec::new(alloc);
    for input in inputs {
        let signal = see(base, input)?;
        match seen.push(signal) {
            Ok(()) => {}
            Err(_) => return Err(ScopeError::OutOfMemory),
        }
    }
    Ok(seen)
}

/// Outputs of the base are emitted.
pub fn check_all_emitted(base: &Names, signals: &[Spot]) -> Result<(), ScopeError>
    ensures { MatchResult result (λ _. flat_map (emitting (base_scope (names_of base.now))) (marks_of signals.now) ≡ [])
        (TellsFirst (flat_map (emitting (base_scope (names_of base.now))) (marks_of signals.now))) }
{
    for signal in signals {
        check_emitted(base, signal)?;
    }
    Ok(())
}

// Inputs of the base are read.
fn check_all_read(base: &Names, signals: &[Spot]) -> Result<(), ScopeError>
    ensures { MatchResult result (λ _. flat_map (reading (base_scope (names_of base.now))) (marks_of signals.now) ≡ [])
        (TellsFirst (flat_map (reading (base_scope (names_of base.now))) (marks_of signals.now))) }
{
    for signal in signals {
        check_read(base, signal)?;
    }
    Ok(())
}

/// Inputs of the base are read in each of these sets.
pub fn check_trace(base: &Names, sets: &[Vec<Spot>]) -> Result<(), ScopeError>
    ensures { MatchResult result (λ _. flat_map (flat_map (reading (base_scope (names_of base.now)))) (map set_of sets.now) ≡ [])
        (TellsFirst (flat_map (flat_map (reading (base_scope (names_of base.now)))) (map set_of sets.now))) }
{
    for set in sets {
        check_all_read(base, set)?;
    }
    Ok(())
}
