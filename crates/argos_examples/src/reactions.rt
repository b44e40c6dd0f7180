//! How many reactions the examples with local signals have. Each function has its law as its contract, and does nothing.
ghost use Rattle.argos_examples.specs.Reactions.{HasNoReaction, HasTwoFirstReactions, HasNoThirdReaction, RingReactsOnceAtStart};

/// A local signal that is emitted exactly where it is absent leaves no reaction.
pub fn emitted_where_absent_has_no_reaction()
    ensures { HasNoReaction }
{}

/// Two local signals that emit each other leave two reactions: neither is present, or both are.
pub fn mutual_support_has_two_reactions()
    ensures first { HasTwoFirstReactions }
    ensures all { HasNoThirdReaction }
{}

/// The ring has one reaction to each input set in its initial configuration, though its local signals depend on each other.
pub fn token_ring_reacts_once_at_the_start()
    ensures { RingReactsOnceAtStart }
{}
