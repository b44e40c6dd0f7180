ghost use Rattle.std.specs.Prelude.{◌≡◌, ◌==◌, position, IsTrue, MatchOption};
ghost use Rattle.line_format.specs.Lines.{lacks, IsCut};

/// Cuts bytes at the first of a kind: what stands before it and what stands behind it, or `None` where there is none.
#[tactic(auto, using(crate::proofs::Cuts::cuts))]
pub fn cut(bytes: &[u8], at: u8) -> Option<(&[u8], &[u8])>
    ensures { MatchOption result (IsTrue (lacks at bytes.now)) (λ parts. IsCut at bytes.now parts.0.now parts.1.now) }
{
    let place = place_of(bytes, at)?;
    Some((&bytes[..place], &bytes[place + 1..]))
}

// The place of the first byte of a kind.
fn place_of(bytes: &[u8], at: u8) -> Option<usize>
    ensures { result ≡ position (λ b. b == at) bytes.now }
{
    bytes.iter().position(|b| *b == at)
}
