// Sets of signals from the values of variables.
ghost use Rattle.std.specs.Prelude.{◌≡◌, ◌<◌, ℕ, true, length, IfOk};
ghost use Rattle.argos_base.specs.SignalSets.{lists, set_of};
ghost use Rattle.argos_core.specs.Views.{numbers};
ghost use Rattle.instant_check.specs.inner.Chosen.{chosen};

use argos_base::{OutOfMemory, SigId, Signals};
use std::alloc::Global;

/// The set of those of the signals whose value is true, with a place for each number below `count`.
pub(crate) fn set_with(
    alloc: Global,
    signals: &[SigId],
    values: &[bool],
    count: u32,
) -> Result<Signals, OutOfMemory>
    requires sized { length values.now ≡ length signals.now }
    requires inside { (k : ℕ) → lists (numbers signals.now) k ≡ true → k < count }
    ensures { IfOk result (λ set. set ≡ set_of count (chosen (numbers signals.now) values.now)) }
{
    let mut set = Signals::new(alloc, count)?;
    for (place, signal) in signals.iter().enumerate() {
        if values[place] {
            set.set(signal.0, true);
        }
    }
    Ok(set)
}
