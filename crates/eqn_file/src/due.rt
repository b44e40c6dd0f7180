ghost use Rattle.std.specs.Prelude.{◌≡◌, ◌+◌, ◌^◌, ◌<◌, IfOk, IfErr, IsErrOf};
ghost use Rattle.line_format.specs.Lines.{IsLine, IsCut};

use crate::errors::{EqError, EqKind};
use line_format::LineReader;

/// A line without its LF, and its number.
#[derive(Clone, Copy, Debug)]
pub(crate) struct DueLine<'a> {
    pub at: u32,
    pub bytes: &'a [u8],
}

/// The next line, where one is due.
pub(crate) fn due_line<'a>(reader: &mut LineReader<'a>) -> Result<DueLine<'a>, EqError>
    requires { reader.old.number + 1 < 2 ^ 32 }
    ensures line { IfOk result (λ line. IsCut 10 reader.old.rest.now line.bytes.now reader.new.rest.now) }
    ensures at { IfOk result (λ line. line.at ≡ reader.old.number) }
    ensures number { IfOk result (λ _. reader.new.number ≡ reader.old.number + 1) }
    ensures missing { IfErr result (λ _. IsLine reader.old.rest.now) }
    ensures kind { IfErr result (λ e. e ≡ EqError.Line reader.old.number EqKind.Spelling) }
{
    let at = reader.number;
    match reader.next_line() {
        Some(bytes) => Ok(DueLine { at, bytes }),
        None => Err(EqError::Line {
            at,
            kind: EqKind::Spelling,
        }),
    }
}
