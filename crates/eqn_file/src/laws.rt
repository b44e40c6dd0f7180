//! What follows from the definitions. Each function has its law as its contract, and does nothing.
ghost use Rattle.eqn_file.specs.FileLaws.{EquationFileLaws, EquationTextsAreFiles};

/// An ordered system with names has a text; a text says one system with its names, and begins no other; all other bytes have exactly one
/// first bad line. So what is written reads back as the same system and names.
pub fn equation_file_laws()
    ensures { EquationFileLaws }
{}

/// The lines that are due one after the other up to the end are those of an ordered system and its names.
pub fn equation_texts_are_files()
    ensures { EquationTextsAreFiles }
{}
