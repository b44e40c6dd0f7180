ghost use Rattle.std.specs.Prelude.{◌≡◌, ◌-◌, ◌^◌, ◌++◌, min, Some, None, if◌then◌else◌, OnOk};
ghost use Rattle.argos_base.specs.Spelling.{is_numeral, number_of};
ghost use Rattle.line_format.specs.Numerals as numerals;

use argos_base::OutOfMemory;
use itoa::Buffer;

/// The number that the bytes spell in decimal without leading zeros, or the largest `u64` where it is more; `None` where they spell
/// none.
#[tactic(auto, using(crate::proofs::Digits::digits))]
pub fn read_number(bytes: &[u8]) -> Option<u64>
    ensures { result ≡ (if is_numeral bytes.now then Some (min (number_of bytes.now) (2 ^ 64 - 1)) else None) }
{
    if bytes.is_empty() || (bytes.len() > 1 && bytes[0] == b'0') {
        return None;
    }
    let mut value: u64 = 0;
    for byte in bytes {
        if !byte.is_ascii_digit() {
            return None;
        }
        value = value
            .saturating_mul(10)
            .saturating_add((*byte - b'0') as u64);
    }
    Some(value)
}

/// Appends a number in decimal.
#[tactic(auto, using(crate::proofs::Digits::digits))]
pub fn push_number(text: &mut Vec<u8>, number: u64) -> Result<(), OutOfMemory>
    ensures { OnOk result (text.new.items ≡ text.old.items ++ numerals.numeral number) }
{
    let mut buffer = Buffer::new();
    text.extend_from_slice(buffer.format(number).as_bytes())?;
    Ok(())
}
