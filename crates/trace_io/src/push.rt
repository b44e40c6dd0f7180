ghost use Rattle.std.specs.Prelude.{◌≡◌, ℕ, take, OnOk, OnErr};
ghost use Rattle.argos_base.specs.Outside.{behind, HasCause};

use argos_base::{Failed, Sink};

/// Appends the whole piece: it is pushed again from where a push stopped, until it is taken. A failure has appended a part of it.
#[tactic(auto, using(crate::proofs::Devices::devices))]
pub fn push_all<W: Sink>(sink: &mut W, piece: &[u8]) -> Result<(), Failed>
    ensures whole { OnOk result (W.held sink.new ≡ behind (W.held sink.old) piece.now) }
    ensures part { OnErr result ((n : ℕ) × (W.held sink.new ≡ behind (W.held sink.old) (take n piece.now))) }
    ensures cause { HasCause (W.faults sink.old) (W.faults sink.new) result }
{
    let mut at = 0;
    while at < piece.len() {
        at += sink.push(&piece[at..])?;
    }
    Ok(())
}
