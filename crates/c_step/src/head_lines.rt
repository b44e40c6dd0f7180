ghost use Rattle.std.specs.Prelude.{◌≡◌, IfOk};
ghost use Rattle.argos_base.specs.Spelling.{IsName};
ghost use Rattle.c_step.specs.inner.HeadParts.{size_parts_of, code_parts_of};
ghost use Rattle.c_step.specs.inner.LineReading as reading;
ghost use Rattle.c_step.specs.inner.Taking.{Reads};

use crate::errors::CError;
use crate::pieces::{Pieces, before};
use argos_base::Name;

/// The lengths of the arrays.
#[derive(Clone, Copy, Debug)]
pub(crate) struct Sizes {
    pub words: u32,
    pub bits: u32,
}

/// A register and its initial code.
#[derive(Clone, Copy, Debug)]
pub(crate) struct RegisterCode {
    pub register: u32,
    pub code: u16,
}

/// The name in a comment that begins so.
pub(crate) fn comment(mut line: Pieces<'_>, front: &[u8]) -> Result<Name, CError>
    ensures name { Reads (λ name. name) line.entry.at (reading.comment_name front.now line.entry.rest.now) result }
    ensures spelled { IfOk result (λ name. IsName name) }
{
    line.text(front)?;
    let Some(bytes) = before(line.rest, b" */") else {
        return Err(line.refused());
    };
    match Name::new(bytes) {
        Ok(name) => Ok(name),
        Err(_) => Err(line.refused()),
    }
}

/// The lengths of the arrays, each at most 200,000,000.
pub(crate) fn array_sizes(mut line: Pieces<'_>) -> Result<Sizes, CError>
    ensures { Reads size_parts_of line.entry.at (reading.size_parts line.entry.rest.now) result }
{
    line.text(b"struct argos { unsigned int w[")?;
    let words = line.number(200_000_001)?;
    line.text(b"]; unsigned int b[")?;
    let bits = line.number(200_000_001)?;
    line.last(b"]; };")?;
    Ok(Sizes { words, bits })
}

/// The initial code of a register, which is one of so many words.
pub(crate) fn register_code(mut line: Pieces<'_>, words: u32) -> Result<RegisterCode, CError>
    ensures { Reads code_parts_of line.entry.at (reading.code_parts words line.entry.rest.now) result }
{
    let register = line.index(b"m->w[", words)?;
    line.text(b" = ")?;
    let code = line.number(65_536)? as u16;
    line.last(b"u;")?;
    Ok(RegisterCode { register, code })
}
