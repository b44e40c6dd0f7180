//! The program: the words, files and streams of the system, handed to `argos_run`.
#![tactic(auto)]

use argos_base::{FileShelf, StdinSource, StdoutSink};
use argos_top::argos_run;
use std::process::ExitCode;
use std::{env, io};

/// The status where the system doesn't give the words.
const NO_WORDS: u8 = 8;

fn main(rt: HostRuntime) -> ExitCode {
    let alloc = rt.alloc();
    let Ok(args) = env::args(&rt) else {
        return ExitCode::from(NO_WORDS);
    };
    // the first word is the program's name
    let Ok(words) = args.skip(1).collect::<Vec<String>>(alloc) else {
        return ExitCode::from(NO_WORDS);
    };
    let mut shelf = FileShelf::new(&rt);
    let mut input = StdinSource::new(rt.reader());
    let mut out = StdoutSink::new(io::writer(&rt));
    let status = argos_run(alloc, &words, &mut shelf, &mut input, &mut out);
    ExitCode::from(status.number())
}
