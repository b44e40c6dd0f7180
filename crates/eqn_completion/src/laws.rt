//! What follows from the definitions. Each function has its laws as its contract, and does nothing: a caller gets them by calling it.

ghost use Rattle.eqn_completion.specs.OrderedSystems.{OrderedLinesExist, OrderedArePlanned, PlannedHaveCodes};
ghost use Rattle.eqn_completion.specs.Laws.{CompletesOnce, SolutionsComplete, CompletionsFollowLines, GivenAreRead, CompletionsHaveCodes, AcyclicReactOnce, SortedAreOrdered, SortedReact, SortedAreSmall, CasesInOrder, MemoriesFromDigits, DigitsFromMemories, DigitsByDivision};

/// At each memory, input set and values of the cyclic bits there is exactly one completion, in which each item has the value of its
/// line; and the solutions are the completions that are consistent.
pub fn completions()
    ensures once { CompletesOnce }
    ensures solutions { SolutionsComplete }
    ensures lines { CompletionsFollowLines }
    ensures given { GivenAreRead }
    ensures codes { CompletionsHaveCodes }
{}

/// Where no bit is cyclic the system reacts once everywhere, and its lines in the order of the plan are an ordered system with the
/// same reactions.
pub fn sorting()
    ensures once { AcyclicReactOnce }
    ensures ordered { SortedAreOrdered }
    ensures reacts { SortedReact }
    ensures small { SortedAreSmall }
{}

/// The binary digits of a memory tell it, and keep the order of memories and inputs.
pub fn memories_in_binary()
    ensures order { CasesInOrder }
    ensures memories { MemoriesFromDigits }
    ensures digits { DigitsFromMemories }
    ensures places { DigitsByDivision }
{}

/// An ordered system has a plan without cyclic bits, its lines as they stand; and with a plan the words of completions are codes, where
/// the memory holds codes.
pub fn ordered_systems()
    ensures lines { OrderedLinesExist }
    ensures plan { OrderedArePlanned }
    ensures codes { PlannedHaveCodes }
{}
