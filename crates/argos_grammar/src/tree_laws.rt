//! Laws of texts and their trees.
ghost use Rattle.std.specs.Prelude.{◌≡◌, ℕ, List};
ghost use Rattle.argos_grammar.specs.Forms.{ProgramForm, AspectForm, CertForm};
ghost use Rattle.argos_grammar.specs.Text.{IsText, IsAspectText, IsCertText, IsProgramForm, IsAspectForm, IsCertForm};

/// A text of a program has one tree.
pub fn programs_have_one_tree()
    ensures { (bs : List ℕ) (p q : ProgramForm) → IsText bs p → IsText bs q → p ≡ q }
{}

/// A text of an aspect has one tree.
pub fn aspects_have_one_tree()
    ensures { (bs : List ℕ) (a b : AspectForm) → IsAspectText bs a → IsAspectText bs b → a ≡ b }
{}

/// A text of a certificate has one tree.
pub fn certificates_have_one_tree()
    ensures { (bs : List ℕ) (c d : CertForm) → IsCertText bs c → IsCertText bs d → c ≡ d }
{}

/// The tree of a program's text is well formed.
pub fn programs_are_well_formed()
    ensures { (bs : List ℕ) (p : ProgramForm) → IsText bs p → IsProgramForm p }
{}

/// The tree of an aspect's text is well formed.
pub fn aspects_are_well_formed()
    ensures { (bs : List ℕ) (a : AspectForm) → IsAspectText bs a → IsAspectForm a }
{}

/// The tree of a certificate's text is well formed.
pub fn certificates_are_well_formed()
    ensures { (bs : List ℕ) (c : CertForm) → IsCertText bs c → IsCertForm c }
{}
