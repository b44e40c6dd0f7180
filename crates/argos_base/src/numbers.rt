//! Numbers as texts.
ghost use Rattle.std.specs.Prelude.{◌≡◌, ◌<◌, ◌≤◌, true, MatchOption};
ghost use Rattle.std.specs.List.{list_all};
ghost use Rattle.std.specs.Char.{is_ascii_digit};
ghost use Rattle.argos_base.specs.Spelling as spelling;

/// Whether the bytes are digits, one or more.
pub fn is_digits(bytes: &[u8]) -> bool
    ensures { result ≡ spelling.is_digits bytes.now }
{
    match bytes.split_first() {
        Some((first, rest)) => first.is_ascii_digit() && have_digits_alone(rest),
        None => false,
    }
}

// Each byte is a digit.
fn have_digits_alone(bytes: &[u8]) -> bool
    ensures { result ≡ list_all is_ascii_digit bytes.now }
{
    bytes.iter().all(|b| b.is_ascii_digit())
}

/// The number that digits spell, where it is at most `most`. It may have leading zeros.
#[tactic(auto, using(crate::proofs::DigitLemmas::numbers))]
pub fn number_within(digits: &[u8], most: u32) -> Option<u32>
    requires { spelling.is_digits digits.now ≡ true }
    ensures { MatchOption result (most < spelling.number_of digits.now) (λ n. (spelling.number_of digits.now ≡ n) × (n ≤ most)) }
{
    let mut value: u64 = 0;
    for digit in digits {
        value = 10 * value + u64::from(*digit - b'0');
        if value > u64::from(most) {
            return None;
        }
    }
    Some(value as u32)
}
