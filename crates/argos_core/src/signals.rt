//! Lists of signals.
ghost use Rattle.std.specs.Prelude.{◌≡◌, length, nat_eq};
ghost use Rattle.std.specs.List.{list_any};
ghost use Rattle.argos_base.specs.SignalSets as sets;
ghost use Rattle.argos_core.specs.Views.{numbers};

use argos_base::{SigId, Signals};

/// Whether the signal is one of the list.
pub fn lists(signals: &[SigId], signal: SigId) -> bool
    ensures { result ≡ sets.lists (numbers signals.now) signal.0 }
{
    has_number(signals, signal.0)
}

fn has_number(signals: &[SigId], number: u32) -> bool
    ensures { result ≡ list_any (λ own. nat_eq own.0 number) signals.now }
{
    signals.iter().any(|own| own.0 == number)
}

/// Puts the signals of the list into the set. Those beyond the set's length are left out.
#[tactic(auto, using(crate::proofs::Emitting::emitting))]
pub fn emit(signals: &[SigId], emitted: &mut Signals)
    ensures { let n = length emitted.old in emitted.new ≡ sets.union n (sets.set_of n (numbers signals.now)) emitted.old }
{
    for signal in signals {
        if signal.0 < emitted.len() {
            emitted.set(signal.0, true);
        }
    }
}
