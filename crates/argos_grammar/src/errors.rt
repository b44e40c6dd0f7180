use argos_base::OutOfMemory;

/// Why bytes are no text of the grammar. Places are counted in bytes from 0.
#[derive(Clone, Copy, Debug, PartialEq, Eq)]
pub enum ParseError {
    /// The text isn't UTF-8: at the first byte that begins no character.
    NotUtf8 { at: u32 },
    /// The first byte of a token that can't stand there, or the length of a text that ends too soon.
    Syntax { at: u32, kind: SyntaxKind },
    /// A `{`, `(`, `[` or `not` at a level above 64.
    TooDeep { at: u32 },
    /// No memory was given.
    OutOfMemory,
}

impl From<OutOfMemory> for ParseError {
    ghost use Rattle.std.specs.Prelude.{◌≡◌};
    ghost use Rattle.argos_grammar.specs.declared.errors.ParseError.TheVariants as errors;

    ghost from_gives = { λ _ e. e ≡ errors.OutOfMemory };

    fn from(_error: OutOfMemory) -> ParseError {
        ParseError::OutOfMemory
    }
}

/// What is wrong at the place of a syntax error.
#[derive(Clone, Copy, Debug, PartialEq, Eq)]
pub enum SyntaxKind {
    /// A byte that begins no token.
    Byte,
    /// A token with which no text of the grammar begins like this.
    Token,
    /// The end of a text that isn't whole.
    End,
    /// A number above 65,535 or with a leading zero, or a timeout of 0.
    Number,
    /// A name of more than 64 bytes.
    LongName,
    /// A version other than 1.
    Version,
}
