// The lines of register digits.
ghost use Rattle.std.specs.Prelude.{◌≡◌, ◌<◌, ◌≤◌, ◌^◌, ◌++◌, length, map, All, OnOk};
ghost use Rattle.eqn_core.specs.Views.{line_of};
ghost use Rattle.eqn_verdict.specs.Branches.{digits_of, digit_lines};
ghost use Rattle.instant_verdict.specs.inner.Decoded.{register_widths};

use argos_base::OutOfMemory;
use eqn_core::Line;

/// Adds a line for each digit of the registers, the most significant first. Of each register its first
/// variable is given, and how many digits it has.
pub(crate) fn push_digits(lines: &mut Vec<Line>, registers: &[(u32, u8)]) -> Result<(), OutOfMemory>
    requires few { length registers.now < 2 ^ 32 }
    ensures { OnOk result (map line_of lines.new.items ≡ map line_of lines.old.items
        ++ digit_lines 0 (register_widths registers.now)) }
{
    for (register, (_, digits)) in registers.iter().enumerate() {
        push_register(lines, register as u32, *digits)?;
    }
    Ok(())
}

// The lines of so many digits of one register.
fn push_register(lines: &mut Vec<Line>, register: u32, digits: u8) -> Result<(), OutOfMemory>
    ensures { OnOk result (map line_of lines.new.items ≡ map line_of lines.old.items
        ++ digits_of register digits) }
{
    let mut place = digits;
    while place > 0 {
        place -= 1;
        lines.push(Line::Digit {
            word: register,
            place,
        })?;
    }
    Ok(())
}
