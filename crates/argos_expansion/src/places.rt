//! The places of names.
ghost use Rattle.std.specs.Prelude.{◌≡◌, ◌+◌, ◌-◌, ◌^◌, ◌<◌, ◌++◌, map, drop, length, IfOk};
ghost use Rattle.std.specs.List.{range_with_len};
ghost use Rattle.argos_core.specs.Views.{numbers};
ghost use Rattle.argos_grammar.specs.Views.{mark_of, marks_of};
ghost use Rattle.argos_expansion.specs.Expansion.{number_at, numbered, paired, outs_of};

use crate::once::once;
use crate::scope::Scope;
use argos_base::{OutOfMemory, SigId};
use argos_grammar::Spot;
use smallvec::SmallVec;
use std::alloc::Global;

/// The place of a name.
pub fn place(scope: &Scope, spot: &Spot) -> SigId
    ensures { result.0 ≡ number_at scope.now (mark_of spot.now) }
{
    SigId(scope.place(&spot.name))
}

/// The places of the inputs and the outputs that a component is run with.
pub fn places(
    alloc: Global,
    scope: &Scope,
    inputs: &[Spot],
    outputs: &[Spot],
) -> Result<Vec<SigId>, OutOfMemory>
    ensures { IfOk result (λ places. numbers places.items ≡ map (number_at scope.now) (marks_of inputs.now ++ marks_of outputs.now)) }
{
    let mut places = Vec::new(alloc);
    add_places(&mut places, scope, inputs)?;
    add_places(&mut places, scope, outputs)?;
    Ok(places)
}

// Appends the places of these names.
fn add_places(places: &mut Vec<SigId>, scope: &Scope, spots: &[Spot]) -> Result<(), OutOfMemory>
    ensures { IfOk result (λ _. numbers places.new.items ≡ numbers places.old.items ++ map (number_at scope.now) (marks_of spots.now)) }
{
    for spot in spots {
        places.push(place(scope, spot))?;
    }
    Ok(())
}

/// The places of names that are emitted, each at its first place.
pub fn outs(alloc: Global, scope: &Scope, spots: &[Spot]) -> Result<SmallVec<SigId, 4>, OutOfMemory>
    ensures { IfOk result (λ outs. numbers outs.items ≡ outs_of scope.now (marks_of spots.now)) }
{
    let mut places = Vec::new(alloc);
    add_places(&mut places, scope, spots)?;
    Ok(once(alloc, &places)?)
}

/// The names come into scope, with the places from the first one on.
#[tactic(auto, using(crate::proofs::ScopeLists::scope_lists))]
pub fn declare_all(scope: &mut Scope, spots: &[Spot], first: u32) -> Result<(), OutOfMemory>
    requires { first + length spots.now < 2 ^ 32 }
    ensures { IfOk result (λ _. scope.new ≡ numbered (marks_of spots.now) first scope.old) }
{
    for (k, spot) in spots.iter().enumerate() {
        scope.declare(spot.name, first + k as u32)?;
    }
    Ok(())
}

/// The same, the last name first.
#[tactic(auto, using(crate::proofs::ScopeLists::scope_lists))]
pub fn declare_backwards(scope: &mut Scope, spots: &[Spot], first: u32) -> Result<(), OutOfMemory>
    requires { first + length spots.now < 2 ^ 32 }
    ensures { IfOk result (λ _. scope.new ≡ paired (marks_of spots.now) (range_with_len first (length spots.now)) ++ scope.old) }
{
    let mut k = spots.len();
    while k > 0 {
        k -= 1;
        scope.declare(spots[k].name, first + k as u32)?;
    }
    Ok(())
}

/// As many names leave the scope.
pub fn leave_all(scope: &mut Scope, spots: &[Spot]) -> Result<(), OutOfMemory>
    ensures { IfOk result (λ _. scope.new ≡ drop (length spots.now) scope.old) }
{
    for _spot in spots {
        scope.leave()?;
    }
    Ok(())
}

/// The number that is greater by so many.
pub fn next(count: u32, more: usize) -> Result<u32, OutOfMemory>
    ensures { IfOk result (λ n. n ≡ count + more) }
{
    let Ok(more) = u32::try_from(more) else {
        return Err(OutOfMemory);
    };
    match count.checked_add(more) {
        Some(sum) => Ok(sum),
        None => Err(OutOfMemory),
    }
}
