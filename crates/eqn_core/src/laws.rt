//! Laws of ordered systems and of plans. Each is the contract of a function that does nothing: a caller gets the law by calling it.

ghost use Rattle.eqn_core.specs.Laws.{OrderedSolvesOnce, OrderedReactsOnce, OrderedRunsOnce, StepsAreRuns, RunsBegin, RunsGoOn, PlansHaveOneCyclic};

/// At each memory and input an ordered system has exactly one solution.
pub fn solves_once()
    ensures { OrderedSolvesOnce }
{}

/// At each memory and input an ordered system has exactly one pair of outputs and next memory.
pub fn reacts_once()
    ensures { OrderedReactsOnce }
{}

/// On each list of inputs an ordered system has exactly one run from its initial codes.
pub fn runs_once()
    ensures { OrderedRunsOnce }
{}

/// The steps of a stepper, as many as there may be, are the one run: their outputs are its outputs, and their memories those that it
/// reaches.
pub fn steps_are_runs()
    ensures { StepsAreRuns }
{}

/// A run begins at the initial codes and goes on by one reaction at a time, which is how a loop of steps keeps it.
pub fn runs_go_on()
    ensures begins { RunsBegin }
    ensures goes_on { RunsGoOn }
{}

/// All plans of a system have the same cyclic bits; their orders may differ.
pub fn plans_have_one_cyclic()
    ensures { PlansHaveOneCyclic }
{}
