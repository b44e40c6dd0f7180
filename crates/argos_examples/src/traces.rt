//! How the examples react along worked traces. Each function has its law as its contract, and does nothing.
ghost use Rattle.std.specs.Prelude.{[], ◌∷◌, codes};
ghost use Rattle.argos_examples.specs.Freezing.{freezing};
ghost use Rattle.argos_examples.specs.LastInstant.{last_instant};
ghost use Rattle.argos_examples.specs.SelfLoop.{self_loop};
ghost use Rattle.argos_examples.specs.Timeouts.{timeouts};
ghost use Rattle.argos_examples.specs.Toggle as example;
ghost use Rattle.argos_examples.specs.Traces.{Gives, none, only, two};

/// The second `a` emits `o`.
pub fn toggle_emits_each_second_time()
    ensures { let a = only (codes "a") in let o = only (codes "o") in
        Gives example.toggle (a ∷ none ∷ a ∷ []) (none ∷ none ∷ o ∷ []) }
{}

/// The body of the state that is left emits `x`, and the transition `y`.
pub fn body_reacts_in_its_last_instant()
    ensures { let a = only (codes "a") in
        Gives last_instant (a ∷ a ∷ []) (two (codes "x") (codes "y") ∷ none ∷ []) }
{}

/// After `b` the body stands in its initial state again.
pub fn self_loop_starts_its_body_again()
    ensures { let a = only (codes "a") in let b = only (codes "b") in let x = only (codes "x") in
        Gives self_loop (a ∷ a ∷ b ∷ a ∷ a ∷ []) (none ∷ x ∷ none ∷ none ∷ x ∷ []) }
{}

/// With `f` the body stands still. With `f` and `k` it is dropped, and the next `k` starts it from its initial state.
pub fn frozen_body_stands_still_and_can_be_dropped()
    ensures { let a = only (codes "a") in let k = only (codes "k") in let x = only (codes "x") in
        Gives freezing
        (a ∷ two (codes "a") (codes "f") ∷ a ∷ two (codes "f") (codes "k") ∷ k ∷ a ∷ a ∷ [])
        (none ∷ none ∷ x ∷ none ∷ none ∷ none ∷ x ∷ []) }
{}

/// In the third instant with `t` the guard on `g` goes first. Entered again, the state counts from the start, and not without `t`.
pub fn timeout_counts_since_its_state_was_entered()
    ensures { let t = only (codes "t") in let g = only (codes "g") in
        Gives timeouts
        (t ∷ t ∷ two (codes "t") (codes "g") ∷ g ∷ t ∷ none ∷ t ∷ t ∷ [])
        (none ∷ none ∷ only (codes "y") ∷ none ∷ none ∷ none ∷ none ∷ only (codes "x") ∷ []) }
{}
