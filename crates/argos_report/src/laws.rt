//! Laws of what is told of memories. Each function has its law as its contract, and does nothing.
ghost use Rattle.argos_report.specs.Laws.{StatesAreTold, OffIsTold};

/// The code of a state is told by the state's name, and by its elapsed count where it is timed.
pub fn states_are_told()
    ensures { StatesAreTold }
{}

/// An automaton that is off is told by a dash.
pub fn off_is_told()
    ensures { OffIsTold }
{}
