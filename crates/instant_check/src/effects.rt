// The effects of transitions: where they go and what they emit.
ghost use Rattle.std.specs.Prelude.{◌≡◌, ◌<◌, ◌↔◌, ℕ, true, IsTrue, map};
ghost use Rattle.argos_base.specs.SignalSets.{lists, set_of};
ghost use Rattle.argos_core.specs.Overlaps.{HaveOneEffect};
ghost use Rattle.argos_core.specs.Views.{transition_of, numbers};
ghost use Rattle.instant_check.specs.Effects.{SomeDiffer};

use argos_base::SigId;
use argos_core::{Trans, lists};

/// Whether two of the transitions go to different states or emit different sets of signals below `count`.
pub(crate) fn some_differ(transitions: &[Trans], count: u32) -> bool
    ensures { IsTrue result ↔ SomeDiffer count (map transition_of transitions.now) }
{
    for transition in transitions {
        if !have_one_effect(&transitions[0], transition, count) {
            return true;
        }
    }
    false
}

/// Whether the two go to one state and emit the same of the signals below `count`.
pub(crate) fn have_one_effect(first: &Trans, second: &Trans, count: u32) -> bool
    ensures { IsTrue result ↔ HaveOneEffect count (transition_of first.now) (transition_of second.now) }
{
    first.target == second.target && are_one_set(&first.outs, &second.outs, count)
}

// Whether the two lists have the same of the signals below `count`.
fn are_one_set(first: &[SigId], second: &[SigId], count: u32) -> bool
    ensures { IsTrue result ↔ (set_of count (numbers first.now) ≡ set_of count (numbers second.now)) }
{
    all_listed(first, second, count) && all_listed(second, first, count)
}

// Whether the signals below `count` of the one list stand in the other.
fn all_listed(signals: &[SigId], others: &[SigId], count: u32) -> bool
    ensures { IsTrue result
        ↔ ((k : ℕ) → k < count → lists (numbers signals.now) k ≡ true → lists (numbers others.now) k ≡ true) }
{
    for signal in signals {
        if signal.0 < count && !lists(others, *signal) {
            return false;
        }
    }
    true
}
