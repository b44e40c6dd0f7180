//! Each limit at its number, and one past it.
use super::{expect_fault, meaning};
use crate::{ScopeError, Which};
use std::alloc::{AllocError, Global};
use std::process::Abort;
use std::test::Fail;

const AUTOMATON: &str = "{automaton{init S;state S{}}}";

// A main component with so many inputs and this block.
fn with_inputs(alloc: Global, count: u32, block: &str) -> Result<String, AllocError> {
    let mut text = String::from_str(alloc, "component main(i0")?;
    for k in 1..count {
        write!(text, ",i{k}")?;
    }
    write!(text, ")->(){block}")?;
    Ok(text)
}

// Components that run one another so often in parallel, `levels` deep.
fn doubling(alloc: Global, levels: u32, times: u32) -> Result<String, AllocError> {
    let mut text = format!(in alloc; "component c0()->(){AUTOMATON}")?;
    for k in 0..levels {
        let next = k.wrapping_add(1);
        write!(text, "component c{next}()->(){{run c{k}()->()")?;
        for _ in 1..times {
            write!(text, "||run c{k}()->()")?;
        }
        write!(text, "}}")?;
    }
    Ok(text)
}

// At the limit the text has a module, and one past it this fault.
fn expect_limit(
    rt: &impl Abort,
    alloc: Global,
    kept: &str,
    passed: &str,
    which: Which,
    count: u64,
) -> Result<(), Fail> {
    let kept = format!(in alloc; "argos 1;{kept}")?;
    let passed = format!(in alloc; "argos 1;{passed}")?;
    assert!(rt; meaning(rt, alloc, kept.as_bytes()).is_ok(), "{which:?}");
    expect_fault(
        rt,
        alloc,
        passed.as_bytes(),
        ScopeError::Limit { which, count },
    )
}

#[test]
fn signals_and_codes(rt: HostRuntime) -> Result<(), Fail> {
    let alloc = rt.alloc();
    let kept = with_inputs(alloc, 16_384, AUTOMATON)?;
    let passed = with_inputs(alloc, 16_385, AUTOMATON)?;
    expect_limit(&rt, alloc, &kept, &passed, Which::Signals, 16_385)?;
    let kept =
        "component main(a)->(){automaton{init S;state S{after 65534 of a goto S;}state T{}}}";
    let passed =
        "component main(a)->(){automaton{init S;state S{after 65535 of a goto S;}state T{}}}";
    expect_limit(&rt, alloc, kept, passed, Which::Codes, 65_536)
}

#[test]
fn automata_and_depth(rt: HostRuntime) -> Result<(), Fail> {
    let alloc = rt.alloc();
    let components = doubling(alloc, 12, 2)?;
    let kept = format!(in alloc; "{components}component main()->(){{run c12()->()}}")?;
    let passed = format!(in alloc;
        "{components}component main()->(){{run c12()->()||run c12()->()}}"
    )?;
    expect_limit(&rt, alloc, &kept, &passed, Which::Automata, 4097)?;
    let kept = doubling(alloc, 63, 1)?;
    let passed = doubling(alloc, 64, 1)?;
    expect_limit(&rt, alloc, &kept, &passed, Which::Depth, 65)
}

// A component of size 4095, which is run 64 times in parallel, beside so many inputs.
#[test]
fn size(rt: HostRuntime) -> Result<(), Fail> {
    let alloc = rt.alloc();
    let mut part = String::from_str(
        alloc,
        "component part()->(){automaton{init S;state S{when not true goto S;",
    )?;
    for _ in 1..2046u32 {
        part.push_str("when true goto S;")?;
    }
    part.push_str("}}}")?;
    let mut block = String::from_str(alloc, "{run part()->()")?;
    for _ in 1..64u32 {
        block.push_str("||run part()->()")?;
    }
    block.push_str("}")?;
    let main = with_inputs(alloc, 63, &block)?;
    let kept = format!(in alloc; "{part}{main}")?;
    let main = with_inputs(alloc, 64, &block)?;
    let passed = format!(in alloc; "{part}{main}")?;
    expect_limit(&rt, alloc, &kept, &passed, Which::Size, 262_145)
}

// The name rules come before the limits, of which the first that is passed is told.
#[test]
fn first_faults(rt: HostRuntime) -> Result<(), Fail> {
    let alloc = rt.alloc();
    let components = doubling(alloc, 12, 2)?;
    let both = format!(in alloc;
        "argos 1;{components}component main(a)->(){{run c12()->()||freeze a in{{run c12()->()||automaton{{init S;state S{{after 65535 of a goto S;}}state T{{}}}}}}}}"
    )?;
    let passed = ScopeError::Limit {
        which: Which::Automata,
        count: 4097,
    };
    expect_fault(&rt, alloc, both.as_bytes(), passed)
}
