//! Texts, and what they mean.
mod limits;
mod modules;
mod names;

use super::{ScopeError, TextError, resolve_text};
use argos_core::Module;
use std::alloc::Global;
use std::process::Abort;
use std::test::Fail;

// What a text means.
fn meaning(rt: &impl Abort, alloc: Global, text: &[u8]) -> Result<Module, TextError> {
    assert!(rt; text.len() <= 1_048_576);
    resolve_text(alloc, text)
}

// The text means nothing, and this is why.
fn expect_fault(
    rt: &impl Abort,
    alloc: Global,
    text: &[u8],
    fault: ScopeError,
) -> Result<(), Fail> {
    let Err(error) = meaning(rt, alloc, text) else {
        return Err("a module".into());
    };
    assert_eq!(rt; error, TextError::Scope(fault), "{text:?}");
    Ok(())
}
