//! What holds of the words of every command.
ghost use Rattle.std.specs.Prelude.{◌≡◌};
ghost use Rattle.argos_words.specs.Words.{Words, Command, IsCommand};

/// Words are at most one command.
pub fn one_command()
    ensures { (words : Words) (c d : Command) → IsCommand words c → IsCommand words d → c ≡ d }
{}
