//! Which examples are good programs, how large they are, and how their configurations are coded. Each function has its law as
//! its contract, and does nothing.
ghost use Rattle.std.specs.Prelude.{◌≡◌, [], ◌∷◌, None, Some};
ghost use Rattle.argos_core.specs.Codes.{code_of};
ghost use Rattle.argos_core.specs.Configurations.{IsConfiguration};
ghost use Rattle.argos_core.specs.Layouts.{layout_of};
ghost use Rattle.argos_core.specs.Overlaps.{IsGood, IsProgram};
ghost use Rattle.argos_core.specs.Process.{at, inner, no_inner};
ghost use Rattle.argos_core.specs.Reactions.{initial_of};
ghost use Rattle.argos_core.specs.Sizes.{size_of};
ghost use Rattle.argos_examples.specs.Freezing.{freezing};
ghost use Rattle.argos_examples.specs.LastInstant.{last_instant};
ghost use Rattle.argos_examples.specs.MutualSupport.{mutual_support};
ghost use Rattle.argos_examples.specs.NoReaction.{no_reaction};
ghost use Rattle.argos_examples.specs.SelfLoop.{self_loop};
ghost use Rattle.argos_examples.specs.Timeouts.{timeouts};
ghost use Rattle.argos_examples.specs.Toggle as example;
ghost use Rattle.argos_examples.specs.TokenRing.{token_ring};

/// The examples without local signals are programs that have exactly one reaction to each input set in each configuration.
pub fn examples_without_locals_are_good()
    ensures toggle { IsGood example.toggle }
    ensures last_instant { IsGood last_instant }
    ensures self_loop { IsGood self_loop }
    ensures freezing { IsGood freezing }
    ensures timeouts { IsGood timeouts }
{}

/// The examples with local signals are programs too, also where they don't have one reaction.
pub fn examples_with_locals_are_programs()
    ensures no_reaction { IsProgram no_reaction }
    ensures mutual_support { IsProgram mutual_support }
    ensures token_ring { IsProgram token_ring }
{}

/// Two signals, an automaton, two states, two transitions with one guard node each, and one emitted signal.
pub fn toggle_has_size_ten()
    ensures { size_of example.toggle ≡ 10 }
{}

/// At first both automata are on, in their first states. Where the outer one has left its state, the inner one is off.
pub fn last_instant_is_coded()
    ensures start { initial_of last_instant ≡ at 0 0 (inner (at 0 0 no_inner)) }
    ensures start_code { code_of last_instant.process (initial_of last_instant) ≡ 1 ∷ 1 ∷ [] }
    ensures left { IsConfiguration last_instant.process (at 1 0 no_inner) }
    ensures left_code { code_of last_instant.process (at 1 0 no_inner) ≡ 2 ∷ 0 ∷ [] }
    ensures layout { layout_of last_instant.process ≡
        record { top = 2; initial = 1; ranges = record { first = 1; last = 1 } ∷ record { first = 2; last = 2 } ∷ []; parent = None }
        ∷ record { top = 1; initial = 1; ranges = record { first = 1; last = 1 } ∷ []; parent = Some (record { register = 0; first = 1; last = 1 }) } ∷ [] }
{}
