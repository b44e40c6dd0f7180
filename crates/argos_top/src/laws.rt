//! Laws of what is due. Each function has its law as its contract, and does nothing.
ghost use Rattle.std.specs.Prelude.{◌≡◌, ℕ, List};
ghost use Rattle.argos_top.specs.Due.{Compiles, CyclesAreSolved, Due};
ghost use Rattle.argos_load.specs.Said.{Yes, Said};

/// For any files, words and input one answer at most is due, and one text with it; but of a program that is written as a file the lines are free.
pub fn one_due_answer()
    ensures answer { (files : List ℕ → List ℕ) (words : List (List ℕ)) (input : List ℕ) (s t : Said) → Due files input words s → Due files input words t → s.answer ≡ t.answer }
    ensures text { (files : List ℕ → List ℕ) (words : List (List ℕ)) (input : List ℕ) (s t : Said) → Due files input words s → Due files input words t → (Compiles words → s.answer ≡ Yes → ⊥) → s ≡ t }
{}

/// It can't be that none is due, where each accepted module in which a local depends on itself has ordered equations of few enough lines.
pub fn some_due_answer()
    ensures { (files : List ℕ → List ℕ) (words : List (List ℕ)) (input : List ℕ) → CyclesAreSolved files words → ¬ ((s : Said) → ¬ (Due files input words s)) }
{}
