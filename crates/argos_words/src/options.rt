//! The options of the commands, and what they say.
ghost use Rattle.std.specs.Prelude.{◌≡◌, ℕ, codes, MatchResult};
ghost use Rattle.argos_words.specs.Words as plain;
ghost use Rattle.argos_words.specs.Words.{IsBudget, IsOneTarget};
ghost use Rattle.argos_words.specs.Views.{target_of, texts_of};
ghost use Rattle.argos_words.specs.inner.Reading as reading;
ghost use Rattle.argos_words.specs.inner.Reading.{OnUsage, value_of};

use crate::command::{Target, WordsError};
use crate::number::nodes_of;
use argos_base::USUAL_NODES;
use clap::ArgMatches;

/// The options of the command with this word.
pub fn options_of(command: &str) -> &'static [&'static str]
    ensures { texts_of result.now ≡ reading.options_of command.now }
{
    match command {
        "compile" | "weave" => &["to", "nodes"],
        "check" | "simulate" | "equiv" => &["nodes"],
        _ => &[],
    }
}

/// The number of nodes by `--nodes`.
pub fn nodes(matches: &ArgMatches) -> Result<u32, WordsError>
    ensures { MatchResult result
        (λ n. IsBudget (value_of (codes "nodes") matches.now) n)
        (λ e. OnUsage e ((n : ℕ) → ¬ (IsBudget (value_of (codes "nodes") matches.now) n))) }
{
    match matches.get_str("nodes") {
        Some(value) => nodes_of(value).ok_or(WordsError::Usage),
        None => Ok(USUAL_NODES),
    }
}

/// The target by `--to`.
pub fn target(matches: &ArgMatches) -> Result<Target, WordsError>
    ensures { MatchResult result
        (λ t. IsOneTarget (value_of (codes "to") matches.now) (target_of t))
        (λ e. OnUsage e ((t : plain.Target) → ¬ (IsOneTarget (value_of (codes "to") matches.now) t))) }
{
    match matches.get_str("to") {
        Some("eq") => Ok(Target::Equations),
        Some("c") => Ok(Target::CText),
        _ => Err(WordsError::Usage),
    }
}
