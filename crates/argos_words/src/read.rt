//! Reading the words of the command line.
ghost use Rattle.std.specs.Prelude.{map, string_bytes};
ghost use Rattle.argos_words.specs.inner.Reading.{HasCommand, IsRead};

use crate::command::{Command, WordsError};
use crate::options::options_of;
use crate::parts::{check, compile, equiv, sample, simulate, weave};
use crate::simple::matches_of;
use clap::ArgMatches;
use std::alloc::Global;

/// The command that these words are. `Usage`: they are none.
pub fn read_words(alloc: Global, words: &[String]) -> Result<Command, WordsError>
    ensures { IsRead (map string_bytes words.now) result }
{
    let [command, after @ ..] = words else {
        return Err(WordsError::Usage);
    };
    let matches = matches_of(alloc, command, options_of(command), after)?;
    read_command(alloc, command, &matches)
}

// The command with this word, by what clap found behind it.
fn read_command(alloc: Global, command: &str, matches: &ArgMatches) -> Result<Command, WordsError>
    ensures { HasCommand command.now matches.now result }
{
    match command {
        "check" => check(alloc, matches),
        "compile" => compile(alloc, matches),
        "weave" => weave(alloc, matches),
        "simulate" => simulate(alloc, matches),
        "equiv" => equiv(alloc, matches),
        "sample" => sample(matches),
        _ => Err(WordsError::Usage),
    }
}
