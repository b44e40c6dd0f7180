//! What follows from the definitions. Each function has its law as its contract, and does nothing.
ghost use Rattle.c_emit.specs.Laws.{CReactsAsSystem, CRunsAsSystem, CStatementsCounted, CStepsOfSystems};

/// The C step of an ordered system has the system's reactions and runs, and one statement for each input, line, output and register.
pub fn c_runs_as_system()
    ensures reacts { CReactsAsSystem }
    ensures runs { CRunsAsSystem }
    ensures counted { CStatementsCounted }
{}

/// The C step of an ordered system keeps what a step keeps: it reads nothing too early, and assigns each output.
pub fn c_steps_of_systems()
    ensures { CStepsOfSystems }
{}
