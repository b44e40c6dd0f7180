ghost use Rattle.std.specs.Prelude.{◌≡◌, ◌-◌, ◌≤◌, ◌++◌, false, length, replicate, MatchResult};
ghost use Rattle.argos_base.specs.Spelling.{IsName, is_name};

use crate::spelling::is_name;
use std::hash::{Hash, Hasher};
use std::marker::Model;

/// The spelling of a name: 1 to 64 bytes, seen as the list of these bytes. It takes no memory.
#[derive(Clone, Copy, Debug)]
pub struct Name {
    buf: [u8; 64],
    len: usize,
}

impl Model for Name {
    ghost use Rattle.std.specs.Prelude.{List, ℕ, take};

    ghost Value = { List ℕ };

    ghost use Rattle.argos_base.specs.NamePlaces.{IsLaidOut, laid_out, laid_out_back};

    ghost view = { λ n. take n.len n.buf };

    ghost invariant = { IsLaidOut };

    ghost inverse = { laid_out };

    ghost inverse_ok = { laid_out_back };
}

/// Why bytes make no name.
#[derive(Clone, Copy, Debug, PartialEq, Eq)]
pub enum NameError {
    /// They are no spelling of a name, or have more than 64 bytes, or are a reserved word.
    Spelling,
}

impl Name {
    /// The name that these bytes spell.
    #[tactic(auto, using(crate::proofs::Places::laid_out_names))]
    pub fn new(bytes: &[u8]) -> Result<Name, NameError>
        ensures spelled { MatchResult result (λ name. name ≡ bytes.now) (λ _. is_name bytes.now ≡ false) }
        ensures name { MatchResult result (λ _. IsName bytes.now) (λ e. e ≡ NameError.Spelling) }
    {
        if !is_name(bytes) {
            return Err(NameError::Spelling);
        }
        Ok(Name {
            buf: padded(bytes),
            len: bytes.len(),
        })
    }

    /// Its bytes.
    pub fn bytes(&self) -> &[u8]
        ensures bytes { result.now ≡ self.now }
        ensures name { IsName self.now }
    {
        &self.buf[..self.len]
    }
}

// The bytes, and zeros after them.
#[tactic(auto, using(crate::proofs::Places::laid_out_names))]
fn padded(bytes: &[u8]) -> [u8; 64]
    requires { length bytes.now ≤ 64 }
    ensures { result ≡ bytes.now ++ replicate (64 - length bytes.now) 0 }
{
    let mut buf = [0; 64];
    buf[..bytes.len()].copy_from_slice(bytes);
    buf
}

impl PartialEq for Name {
    ghost use Rattle.std.specs.Prelude.{bytes_eq};
    ghost use Rattle.std.specs.Cmp.{partial_equiv_from_equiv};
    ghost use Rattle.std.specs.Cmp.Lexicographic.{nat_list_eq_equiv};

    ghost eq = { bytes_eq };

    ghost laws = { partial_equiv_from_equiv nat_list_eq_equiv };

    fn eq(&self, other: &Name) -> bool {
        self.bytes() == other.bytes()
    }
}

impl Eq for Name {
    ghost use Rattle.std.specs.Cmp.Lexicographic.{nat_list_eq_equiv};

    ghost laws = { nat_list_eq_equiv };
}

impl Hash for Name {
    ghost use Rattle.std.specs.Hash.{slice, u8};
    ghost use Rattle.std.specs.Hash.{same_Alike};
    ghost use Rattle.std.specs.Cmp.Lexicographic.{bytes_decides};

    ghost hash_input = { slice u8 };

    ghost respects_eq = { (same_Alike (slice u8) bytes_decides).fed };

    fn hash<H: Hasher>(&self, state: &mut H) {
        self.bytes().hash(state);
    }
}
