//! What holds of the tokens of every text.
ghost use Rattle.std.specs.Prelude.{◌≡◌, ℕ, List, Some};
ghost use Rattle.argos_tokens.specs.Tokens.{Token, IsTokens};
ghost use Rattle.argos_tokens.specs.TokenViews.{AreTokens};

/// A text has at most one list of tokens.
pub fn one_list_of_tokens()
    ensures { (bs : List ℕ) (ts us : List Token) → IsTokens bs ts → IsTokens bs us → ts ≡ us }
{}

/// A text where a byte stands that begins no token has no list of tokens.
pub fn no_tokens_of_a_stuck_text()
    ensures { (bs : List ℕ) (us ts : List Token) (at : ℕ) → AreTokens bs us (Some at) → IsTokens bs ts → ⊥ }
{}
