//! What holds of the first faults of all texts.
ghost use Rattle.std.specs.Prelude.{◌≡◌, ℕ, List};
ghost use Rattle.argos_grammar.specs.DueSymbols.{Rule, program, aspect, cert};
ghost use Rattle.argos_grammar.specs.Faults.{Kind, FirstFault};
ghost use Rattle.argos_grammar.specs.Forms.{ProgramForm, AspectForm, CertForm};
ghost use Rattle.argos_grammar.specs.Text.{IsText, IsAspectText, IsCertText};

/// A text has at most one first fault.
pub fn one_first_fault()
    ensures { (start : Rule) (bs : List ℕ) (n m : ℕ) (k l : Kind) → FirstFault start bs n k → FirstFault start bs m l → (n ≡ m) × (k ≡ l) }
{}

/// A text with the tree of a program has no fault.
pub fn programs_have_no_fault()
    ensures { (bs : List ℕ) (p : ProgramForm) (n : ℕ) (k : Kind) → IsText bs p → FirstFault program bs n k → ⊥ }
{}

/// A text with the tree of an aspect has no fault.
pub fn aspects_have_no_fault()
    ensures { (bs : List ℕ) (a : AspectForm) (n : ℕ) (k : Kind) → IsAspectText bs a → FirstFault aspect bs n k → ⊥ }
{}

/// A text with the tree of a certificate has no fault.
pub fn certificates_have_no_fault()
    ensures { (bs : List ℕ) (c : CertForm) (n : ℕ) (k : Kind) → IsCertText bs c → FirstFault cert bs n k → ⊥ }
{}
