//! Where a state stands among others.
ghost use Rattle.std.specs.Prelude.{◌≡◌, ◌≤◌, length};
ghost use Rattle.bisim_formula.specs.Certificates.{state_number};
ghost use Rattle.bisim_formula.specs.inner.Lent.{states_in};

use argos_base::Name;
use argos_core::State;

/// The place of the state with this name.
#[tactic(auto, using(crate::proofs::Tables::tables))]
pub(crate) fn state_place(states: &[State], name: &Name) -> Option<u16>
    requires few { length states.now ≤ 65535 }
    ensures { result ≡ state_number (states_in states.now) name.now }
{
    for (q, state) in states.iter().enumerate() {
        if *name == state.name {
            return Some(q as u16);
        }
    }
    None
}
