//! The commands, each from what clap found. `Usage`: there is no such command.
ghost use Rattle.std.specs.Prelude.{◌≡◌, codes, map, string_bytes, IfOk};
ghost use Rattle.argos_words.specs.Views.{texts_of};
ghost use Rattle.argos_words.specs.inner.Reading.{HasCommand};

use crate::command::{Command, WordsError};
use crate::number::count_of;
use crate::options::{nodes, target};
use crate::simple::plain_words;
use argos_base::ASPECT_LIMIT;
use clap::ArgMatches;
use std::alloc::{AllocError, Global};

/// `check FILE`.
pub fn check(alloc: Global, matches: &ArgMatches) -> Result<Command, WordsError>
    ensures { HasCommand (codes "check") matches.now result }
{
    let Some([file]) = plain_words(matches) else {
        return Err(WordsError::Usage);
    };
    let nodes = nodes(matches)?;
    let file = String::from_str(alloc, file)?;
    Ok(Command::Check { file, nodes })
}

/// `compile FILE --to TARGET`.
pub fn compile(alloc: Global, matches: &ArgMatches) -> Result<Command, WordsError>
    ensures { HasCommand (codes "compile") matches.now result }
{
    let Some([file]) = plain_words(matches) else {
        return Err(WordsError::Usage);
    };
    let to = target(matches)?;
    let nodes = nodes(matches)?;
    let file = String::from_str(alloc, file)?;
    Ok(Command::Compile { file, to, nodes })
}

/// `weave FILE ASPECT.. --to TARGET`.
pub fn weave(alloc: Global, matches: &ArgMatches) -> Result<Command, WordsError>
    ensures { HasCommand (codes "weave") matches.now result }
{
    let Some([file, aspects @ ..]) = plain_words(matches) else {
        return Err(WordsError::Usage);
    };
    if aspects.is_empty() || aspects.len() > ASPECT_LIMIT {
        return Err(WordsError::Usage);
    }
    let to = target(matches)?;
    let nodes = nodes(matches)?;
    let file = String::from_str(alloc, file)?;
    let aspects = copies(alloc, aspects)?;
    Ok(Command::Weave {
        file,
        aspects,
        to,
        nodes,
    })
}

/// `simulate FILE ASPECT..`.
pub fn simulate(alloc: Global, matches: &ArgMatches) -> Result<Command, WordsError>
    ensures { HasCommand (codes "simulate") matches.now result }
{
    let Some([file, aspects @ ..]) = plain_words(matches) else {
        return Err(WordsError::Usage);
    };
    if aspects.len() > ASPECT_LIMIT {
        return Err(WordsError::Usage);
    }
    let nodes = nodes(matches)?;
    let file = String::from_str(alloc, file)?;
    let aspects = copies(alloc, aspects)?;
    Ok(Command::Simulate {
        file,
        aspects,
        nodes,
    })
}

/// `equiv FILE FILE CERT`.
pub fn equiv(alloc: Global, matches: &ArgMatches) -> Result<Command, WordsError>
    ensures { HasCommand (codes "equiv") matches.now result }
{
    let Some([left, right, cert]) = plain_words(matches) else {
        return Err(WordsError::Usage);
    };
    let nodes = nodes(matches)?;
    let left = String::from_str(alloc, left)?;
    let right = String::from_str(alloc, right)?;
    let cert = String::from_str(alloc, cert)?;
    Ok(Command::Equiv {
        left,
        right,
        cert,
        nodes,
    })
}

/// `sample N`.
pub fn sample(matches: &ArgMatches) -> Result<Command, WordsError>
    ensures { HasCommand (codes "sample") matches.now result }
{
    let Some([number]) = plain_words(matches) else {
        return Err(WordsError::Usage);
    };
    let count = count_of(number).ok_or(WordsError::Usage)?;
    Ok(Command::Sample { count })
}

// These words, each copied.
fn copies(alloc: Global, words: &[&str]) -> Result<Vec<String>, AllocError>
    ensures { IfOk result (λ v. map string_bytes v.items ≡ texts_of words.now) }
{
    let mut copies = Vec::new(alloc);
    for word in words {
        copies.push(String::from_str(alloc, word)?)?;
    }
    Ok(copies)
}
