//! The words after the command, which a simple command of `clap` takes.
ghost use Rattle.std.specs.Prelude.{◌≡◌, codes, false, map, string_bytes, IfOk, MatchResult};
ghost use Rattle.argos_base.specs.Spelling.{is_one_of};
ghost use Rattle.clap.specs.Words.{app_of, kind_of};
ghost use Rattle.argos_words.specs.Views.{texts_of, texts_if_any};
ghost use Rattle.argos_words.specs.inner.Reading.{IsFound, NoneFits, OnUsage, plains_of};
ghost use Rattle.argos_words.specs.Simple.{simple_app};

use crate::command::WordsError;
use clap::error::ErrorKind;
use clap::{Arg, ArgAction, ArgMatches, Command, Error};
use std::alloc::{AllocError, Global};

/// The id of the plain words.
const PLAIN: &str = "words";

/// What clap finds among the words, where the command with this name has these options. `Usage`: it refuses them.
pub fn matches_of<'a>(
    alloc: Global,
    name: &'a str,
    options: &[&'a str],
    words: &'a [String],
) -> Result<ArgMatches<'a>, WordsError>
    requires { is_one_of (texts_of options.now) (codes "words") ≡ false }
    ensures { MatchResult result
        (λ m. IsFound (texts_of options.now) (map string_bytes words.now) m)
        (λ e. OnUsage e (NoneFits (texts_of options.now) (map string_bytes words.now))) }
{
    let command = simple_command(alloc, name, options)?;
    match command.try_get_matches_from(words) {
        Ok(matches) => Ok(matches),
        Err(error) => Err(refusal(&error)),
    }
}

/// The plain words that clap found, or None where there are none.
pub fn plain_words<'m, 'a>(matches: &'m ArgMatches<'a>) -> Option<&'m [&'a str]>
    ensures { plains_of matches.now ≡ texts_if_any result }
{
    matches.get_strs(PLAIN)
}

// The command with plain words, and with these options, each of which has a value. It gives no help.
fn simple_command<'a>(
    alloc: Global,
    name: &'a str,
    options: &[&'a str],
) -> Result<Command<'a>, AllocError>
    ensures { IfOk result (λ c. app_of c ≡ simple_app name.now (texts_of options.now)) }
{
    let plain = Arg::new(alloc, PLAIN).action(ArgAction::Append);
    let mut command = Command::new(alloc, name)
        .no_binary_name(true)
        .disable_help_flag(true)
        .arg(plain)?;
    for option in options {
        command = command.arg(Arg::new(alloc, option).long(option))?;
    }
    Ok(command)
}

// Why clap gives no matches.
fn refusal(error: &Error) -> WordsError
    ensures { OnUsage result (kind_of error.now ≡ ErrorKind.OutOfMemory → ⊥) }
{
    match error.kind() {
        ErrorKind::OutOfMemory => WordsError::OutOfMemory,
        _ => WordsError::Usage,
    }
}
