//! What follows from the definitions. Each function has its law as its contract, and does nothing: a caller gets the law by calling it.
ghost use Rattle.eqn_scheme.specs.Laws.{SettledAreReactions, EquationsChooseLocals, WiredAreReactions, WiredStayStructural, EquationsReact, EquationsStayStructural, EquationsAreSmall, EquationsAreOrderable, CyclicBitsAreCyclicLocals, InitialCodesAreCoded};

/// The values of the scheme's parts are the reactions of a program at structural memories, and each next memory is structural.
pub fn wired_are_reactions()
    ensures reactions { WiredAreReactions }
    ensures structural { WiredStayStructural }
{}

/// At structural memories the equations of a program have exactly its reactions, and the next words of every solution there are a
/// structural memory.
pub fn equations_react()
    ensures reactions { EquationsReact }
    ensures structural { EquationsStayStructural }
{}

/// The initial codes of the equations are the code of the initial configuration, one for each automaton.
pub fn initial_codes_are_coded()
    ensures { InitialCodesAreCoded }
{}

/// The equations of a module have at most eight lines for each unit of its size, and weigh at most 32.
pub fn equations_are_small()
    ensures { EquationsAreSmall }
{}

/// Each cycle among the bits of the equations passes the bit of a local, and each number names a bit or a word that exists.
pub fn equations_are_orderable()
    ensures { EquationsAreOrderable }
{}

/// The bit of a local depends on itself exactly where the local does.
pub fn cyclic_bits_are_cyclic_locals()
    ensures { CyclicBitsAreCyclicLocals }
{}

/// Each reaction has its present locals, and each reaction with its present locals is one.
pub fn settled_are_reactions()
    ensures { SettledAreReactions }
{}

/// At structural memories the sets of locals that solutions of a program's equations have, the bit of a local having the local's number,
/// are exactly those that are present in its reactions.
pub fn equations_choose_locals()
    ensures { EquationsChooseLocals }
{}
