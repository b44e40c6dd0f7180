//! What ends a call before its output, and the text of it.
ghost use Rattle.std.specs.Prelude.{◌≡◌, IfOk};
ghost use Rattle.argos_report.specs.Texts.{refused_file};
ghost use Rattle.argos_load.specs.Said.{read_fault_file};

use argos_base::OutOfMemory;
use dd_core::Arena;
use itoa::Buffer;
use std::alloc::Global;

/// Why a stage of a call gives nothing for the next one.
#[derive(Debug, Drop)]
pub enum Stop {
    /// A file is refused, with this report.
    Refused(Vec<u8>),
    /// The verdict on a file is no, with this report.
    No(Vec<u8>),
    /// A file couldn't be read, with this report.
    ReadFault(Vec<u8>),
    /// A job on diagrams found no room in this arena, with this report.
    Budget(Vec<u8>, Arena),
    /// No memory was given.
    OutOfMemory,
}

impl From<OutOfMemory> for Stop {
    ghost use Rattle.std.specs.Prelude.{◌≡◌};
    ghost use Rattle.argos_load.specs.declared.stop.Stop.TheVariants as stop;

    ghost from_gives = { λ _ e. e ≡ stop.OutOfMemory };

    fn from(_error: OutOfMemory) -> Stop {
        Stop::OutOfMemory
    }
}

/// The report of a file that is refused for this cause.
pub(crate) fn refusal(alloc: Global, number: u8, cause: &[u8]) -> Result<Vec<u8>, OutOfMemory>
    ensures { IfOk result (λ text. text.items ≡ refused_file number cause.now) }
{
    let mut digits = Buffer::new();
    let mut text = Vec::from_slice(alloc, b"refused: file ")?;
    text.extend_from_slice(digits.format(number).as_bytes())?;
    text.extend_from_slice(b": ")?;
    text.extend_from_slice(cause)?;
    text.push(b'\n')?;
    Ok(text)
}

/// The report of a file that couldn't be read.
pub(crate) fn read_fault(alloc: Global, number: u8) -> Result<Vec<u8>, OutOfMemory>
    ensures { IfOk result (λ text. text.items ≡ read_fault_file number) }
{
    let mut digits = Buffer::new();
    let mut text = Vec::from_slice(alloc, b"read fault: file ")?;
    text.extend_from_slice(digits.format(number).as_bytes())?;
    text.push(b'\n')?;
    Ok(text)
}
