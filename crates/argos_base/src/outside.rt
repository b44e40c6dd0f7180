//! Streams of bytes that come in and go out.
ghost use Rattle.std.specs.Prelude.{◌≡◌, ℕ, ◌<◌, ◌≤◌, List, length, take, Option, IfOk, MatchResult};
ghost use Rattle.argos_base.specs.Outside.{ahead, behind, IsAtEnd, HasCause};

/// A fault of reading or writing.
#[derive(Clone, Copy, Debug, PartialEq, Eq)]
pub struct Failed;

/// Bytes that come in.
pub trait Source {
    /// What is left, where it is told.
    ghost left: { Self → Option (List ℕ) };

    /// The faults so far. They never fall.
    ghost faults: { Self → ℕ };

    /// Takes the next bytes, at most as many as `buf` holds. `Ok(n)` has put them at the front of `buf`, and `n` is 0 only at
    /// the end. A failure takes nothing.
    fn pull(&mut self, buf: &mut [u8]) -> Result<usize, Failed>
        requires { 0 < length buf.old }
        ensures bound { IfOk result (λ n. n ≤ length buf.new) }
        ensures taken { MatchResult result (λ n. left self.old ≡ ahead (take n buf.new) (left self.new)) (λ _. left self.new ≡ left self.old) }
        ensures ending { IfOk result (λ n. n ≡ 0 → IsAtEnd (left self.new)) }
        ensures cause { HasCause (faults self.old) (faults self.new) result };
}

/// Bytes that go out.
pub trait Sink {
    /// What was appended, where it is told.
    ghost held: { Self → Option (List ℕ) };

    /// The faults so far. They never fall.
    ghost faults: { Self → ℕ };

    /// Appends the first `n` bytes of the piece, at least one, and answers `n`. A failure appends nothing.
    fn push(&mut self, piece: &[u8]) -> Result<usize, Failed>
        requires { 0 < length piece.now }
        ensures bound { IfOk result (λ n. (0 < n) × (n ≤ length piece.now)) }
        ensures added { MatchResult result (λ n. held self.new ≡ behind (held self.old) (take n piece.now)) (λ _. held self.new ≡ held self.old) }
        ensures cause { HasCause (faults self.old) (faults self.new) result };
}
