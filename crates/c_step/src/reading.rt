ghost use Rattle.std.specs.Prelude.{◌≤◌, length, IfOk, IfErr};
ghost use Rattle.c_step.specs.CFile.{IsCText};
ghost use Rattle.c_step.specs.Errors.{TellsFault};
ghost use Rattle.c_step.specs.StepViews.{step_of};

use crate::draft::Draft;
use crate::errors::CError;
use crate::pieces::due_line;
use crate::step::CStep;
use line_format::LineReader;
use std::alloc::Global;

/// The step that the bytes spell, exactly where they are a spelling of one; else the first line that isn't due there. Nothing is reserved
/// for what a file only announces.
pub fn read_c(alloc: Global, bytes: &[u8]) -> Result<CStep, CError>
    requires { length bytes.now ≤ 4294967294 }
    ensures text { IfOk result (λ step. IsCText bytes.now (step_of step)) }
    ensures fault { IfErr result (λ e. TellsFault bytes.now e) }
{
    let mut reader = LineReader::new(bytes);
    let mut draft = Draft::new(alloc);
    'lines: while !draft.is_whole() {
        let line = due_line(&mut reader)?;
        draft.take(alloc, line)?;
    }
    if reader.rest.is_empty() {
        Ok(draft.into_step())
    } else {
        Err(CError::NotSubset { at: reader.number })
    }
}
