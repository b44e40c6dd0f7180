//! What follows from the definitions. Each function has its laws as its contract, and does nothing: a
//! caller gets them by calling it.

ghost use Rattle.eqn_dd.specs.Laws.{WidthsAreNarrow, TurnsNameRegisters, TurnsNameVariables, RowsAreRead};
ghost use Rattle.eqn_dd.specs.Laws.{DenotedAreDiagrams, DenotedLayoutsAreTests};
ghost use Rattle.eqn_dd.specs.Laws.{PlannedArePlaceable, PlannedAreDrawable};

/// Places in turn name different variables, where the arena has enough; and by them a row of the digits
/// of a memory, an input set and values of the cyclic bits is read as just these.
pub fn places_in_turn()
    ensures narrow { WidthsAreNarrow }
    ensures registers { TurnsNameRegisters }
    ensures variables { TurnsNameVariables }
    ensures rows { RowsAreRead }
{}

/// With places in turn the nodes of all bits and words are the diagrams that a verdict is found from,
/// and the node of a layout is true exactly at the memories that fit it.
pub fn denoted()
    ensures diagrams { DenotedAreDiagrams }
    ensures layouts { DenotedLayoutsAreTests }
{}

/// An orderable system with a plan has places, and its lines can be drawn.
pub fn planned()
    ensures placeable { PlannedArePlaceable }
    ensures drawable { PlannedAreDrawable }
{}
