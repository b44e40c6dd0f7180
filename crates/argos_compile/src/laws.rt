//! Laws of accepted modules. Each function has its law as its contract, and does nothing.
ghost use Rattle.argos_compile.specs.Laws.{AcyclicHaveSystems, OneLineBound, RunsAreTraces};

/// A module that is accepted and in which no local depends on itself has ordered equations that stand for it, of at most eight lines for
/// each unit of its size.
pub fn acyclic_modules_have_systems()
    ensures { AcyclicHaveSystems }
{}

/// The runs of a module's equations are exactly its traces, and the memories of a run are the codes of the trace's configurations.
pub fn runs_are_traces()
    ensures { RunsAreTraces }
{}

/// A module has one bound on the lines of its equations at most.
pub fn one_line_bound()
    ensures { OneLineBound }
{}
