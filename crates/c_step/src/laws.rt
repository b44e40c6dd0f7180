//! What follows from the definitions. Each function has its law as its contract, and does nothing.
ghost use Rattle.c_step.specs.CLaws.{CFileLaws, CTextsAreFiles};
ghost use Rattle.c_step.specs.Laws.{CStepsReact, CStepsReactOnce, CStepsRunOnce, StepsAreRuns};

/// A step has a text; a text says one step and begins no other; all other bytes have exactly one first line that isn't due. So what is
/// printed reads back as the same step.
pub fn c_file_laws()
    ensures { CFileLaws }
{}

/// The lines that are due one after the other up to the end are those of a step.
pub fn c_texts_are_files()
    ensures { CTextsAreFiles }
{}

/// The outputs and the next memory don't depend on what words other than the registers, bits and outputs held before.
pub fn c_steps_react()
    ensures { CStepsReact }
{}

/// At each memory and input a step has exactly one pair of outputs and next memory.
pub fn c_steps_react_once()
    ensures { CStepsReactOnce }
{}

/// On each list of inputs a step has exactly one run from its initial codes.
pub fn c_steps_run_once()
    ensures { CStepsRunOnce }
{}

/// The steps that are run, as many as there may be, are the one run: their outputs are its outputs, and their memories those that it
/// reaches.
pub fn steps_are_runs()
    ensures { StepsAreRuns }
{}
