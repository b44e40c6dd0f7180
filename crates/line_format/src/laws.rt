//! What holds of every format. Each function has its law as its contract, and does nothing.
ghost use Rattle.std.specs.Prelude.{◌≡◌, ℕ, List, IsTrue};
ghost use Rattle.argos_base.specs.Spelling.{is_numeral, number_of};
ghost use Rattle.line_format.specs.Lines.{Format, IsClear, HasLineLaws, HasReadingSteps};
ghost use Rattle.line_format.specs.Numerals.{numeral};

/// Where due lines are clear, a file says one thing and begins no other, and all other bytes have exactly one first bad line.
pub fn clear_formats_have_line_laws<S, C, K>()
    ensures { (F : Format S C K) → IsClear F → HasLineLaws F }
{}

/// How a reader of any format goes on line by line.
pub fn formats_have_reading_steps<S, C, K>()
    ensures { (F : Format S C K) → HasReadingSteps F }
{}

/// Each number has one spelling, and spellings of numbers are those without leading zeros.
pub fn numbers_have_one_spelling()
    ensures spelled { (n : ℕ) → IsTrue (is_numeral (numeral n)) }
    ensures value { (n : ℕ) → number_of (numeral n) ≡ n }
    ensures only { (bs : List ℕ) → IsTrue (is_numeral bs) → numeral (number_of bs) ≡ bs }
{}
