//! Signals, each once.
ghost use Rattle.std.specs.Prelude.{◌≡◌, ◌++◌, ◌∷◌, [], nat_eq, if◌then◌else◌, IfOk};
ghost use Rattle.std.specs.List.{list_any};
ghost use Rattle.indexmap.specs.IndexSet.{insert_key};
ghost use Rattle.argos_core.specs.Views.{numbers};
ghost use Rattle.argos_expansion.specs.Expansion as expansion;

use argos_base::{OutOfMemory, SigId};
use indexmap::IndexSet;
use smallvec::SmallVec;
use std::alloc::Global;

/// The signals, each at its first place.
#[tactic(auto, using(crate::proofs::OnceLists::once_lists))]
pub fn once(alloc: Global, signals: &[SigId]) -> Result<SmallVec<SigId, 4>, OutOfMemory>
    ensures { IfOk result (λ outs. numbers outs.items ≡ expansion.once (numbers signals.now)) }
{
    let mut seen = IndexSet::new(alloc);
    let mut outs = SmallVec::new(alloc);
    for signal in signals {
        add(&mut seen, &mut outs, signal)?;
    }
    Ok(outs)
}

// One more signal, where it wasn't seen before.
fn add(
    seen: &mut IndexSet<u32>,
    outs: &mut SmallVec<SigId, 4>,
    signal: &SigId,
) -> Result<(), OutOfMemory>
    ensures seen { IfOk result (λ _. seen.new.keys ≡ insert_key nat_eq seen.old.keys signal.now.0) }
    ensures outs { IfOk result (λ _. outs.new.items ≡ (if list_any (nat_eq signal.now.0) seen.old.keys then outs.old.items else outs.old.items ++ signal.now ∷ [])) }
{
    if seen.insert(signal.0)? {
        outs.push(*signal)?;
    }
    Ok(())
}
