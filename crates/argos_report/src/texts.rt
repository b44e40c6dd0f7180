//! Numbers in texts, and lines that tell of a file.
ghost use Rattle.std.specs.Prelude.{◌≡◌, ◌++◌, IfOk, codes, decimal};
ghost use Rattle.argos_report.specs.Texts.{line};

use argos_base::OutOfMemory;
use itoa::Buffer;
use std::alloc::Global;

/// Appends a number in decimal.
pub(crate) fn push_number(text: &mut Vec<u8>, number: u64) -> Result<(), OutOfMemory>
    ensures { IfOk result (λ _. text.new.items ≡ text.old.items ++ decimal number) }
{
    let mut digits = Buffer::new();
    text.extend_from_slice(digits.format(number).as_bytes())?;
    Ok(())
}

/// The line that begins with these words, and tells this of the file with this number.
pub(crate) fn file_line(
    alloc: Global,
    words: &[u8],
    number: u8,
    cause: &[u8],
) -> Result<Vec<u8>, OutOfMemory>
    ensures { IfOk result (λ text. text.items ≡ line (words.now ++ decimal number ++ codes ": " ++ cause.now)) }
{
    let mut text = Vec::from_slice(alloc, words)?;
    push_number(&mut text, u64::from(number))?;
    text.extend_from_slice(b": ")?;
    text.extend_from_slice(cause)?;
    text.push(b'\n')?;
    Ok(text)
}
