//! Words, and what they are read as. A word stands between blanks.
use crate::{WordsError, read_words};
use std::alloc::Global;
use std::process::Abort;

fn words(rt: &impl Abort, alloc: Global, line: &str) -> Vec<String> {
    let mut words = Vec::new(alloc);
    for word in line.split(' ') {
        words
            .push(String::from_str(alloc, word).expect(rt, "memory"))
            .expect(rt, "memory");
    }
    words
}

#[test]
fn reads_commands(rt: HostRuntime) {
    let alloc = rt.alloc();
    for (line, want) in [
        (
            "check p --nodes=0000016",
            "Check { file: \"p\", nodes: 16 }",
        ),
        (
            "check --nodes=16777216 p",
            "Check { file: \"p\", nodes: 16777216 }",
        ),
        ("check -- -x", "Check { file: \"-x\", nodes: 1000000 }"),
        ("check -- --", "Check { file: \"--\", nodes: 1000000 }"),
        ("check p --", "Check { file: \"p\", nodes: 1000000 }"),
        ("check -", "Check { file: \"-\", nodes: 1000000 }"),
        ("check ", "Check { file: \"\", nodes: 1000000 }"),
        (
            "compile --to=c p",
            "Compile { file: \"p\", to: CText, nodes: 1000000 }",
        ),
        (
            "weave --nodes 2 p a --to eq b",
            "Weave { file: \"p\", aspects: [\"a\", \"b\"], to: Equations, nodes: 2 }",
        ),
        (
            "weave p a b c d e f g h i j k l m n o --to c -- -",
            "Weave { file: \"p\", aspects: [\"a\", \"b\", \"c\", \"d\", \"e\", \"f\", \"g\", \"h\", \"i\", \"j\", \"k\", \"l\", \"m\", \"n\", \"o\", \"-\"], to: CText, nodes: 1000000 }",
        ),
        (
            "simulate p",
            "Simulate { file: \"p\", aspects: [], nodes: 1000000 }",
        ),
        (
            "equiv a b c",
            "Equiv { left: \"a\", right: \"b\", cert: \"c\", nodes: 1000000 }",
        ),
        ("sample 60", "Sample { count: 60 }"),
        ("sample -- 5", "Sample { count: 5 }"),
        ("sample 01", "Sample { count: 1 }"),
    ] {
        let command = read_words(alloc, &words(&rt, alloc, line)).expect(&rt, "command");
        let shown = format!(in alloc; "{command:?}").expect(&rt, "memory");
        assert_eq!(rt; shown.as_str(), want);
    }
}

#[test]
fn refuses_other_words(rt: HostRuntime) {
    let alloc = rt.alloc();
    assert_eq!(rt; read_words(alloc, &[]), Err(WordsError::Usage));
    for line in [
        "",
        "check",
        "check p q",
        "-- check p",
        "--nodes 3 check p",
        "checks p",
        "simulate p --nodes=1",
        "simulate p --nodes=16777217",
        "simulate p --nodes=000000016",
        "simulate p --nodes=",
        "simulate p --nodes=+16",
        "compile p",
        "compile p --to eq --to eq",
        "compile p --to=eq --to c",
        "compile p --to x",
        "compile p --to",
        "compile p --to -- eq",
        "compile --nodes p --to eq",
        "sample 0",
        "sample 61",
        "sample 001",
        "sample 5 --nodes 3",
        "sample --help",
        "check -x p",
        "check --",
        "check --help",
        "check p --node 3",
        "check p --=3",
        "check p --to eq",
        "check --nodes -3 p",
        "check --nodes - p",
        "check p --nodes 3 --nodes 3",
        "weave p --to eq",
        "weave p 1 2 3 4 5 6 7 8 9 10 11 12 13 14 15 16 17 --to eq",
        "simulate p 1 2 3 4 5 6 7 8 9 10 11 12 13 14 15 16 17",
        "equiv a b",
        "equiv a b c d",
    ] {
        let read = read_words(alloc, &words(&rt, alloc, line));
        assert_eq!(rt; read, Err(WordsError::Usage), "words {line}");
    }
}
