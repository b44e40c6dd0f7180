//! The words that begin lines.

pub(crate) const HEAD: &[u8] = b"argos-eq 1";

pub(crate) const INPUTS: &[u8] = b"inputs";

pub(crate) const OUTPUTS: &[u8] = b"outputs";

pub(crate) const REGISTERS: &[u8] = b"registers";

pub(crate) const LINES: &[u8] = b"lines";

pub(crate) const ALL: &[u8] = b"all";

pub(crate) const ANY: &[u8] = b"any";

pub(crate) const WITHIN: &[u8] = b"within";

pub(crate) const BIT: &[u8] = b"bit";

pub(crate) const CHOOSE: &[u8] = b"choose";

pub(crate) const WHEN: &[u8] = b"when";

pub(crate) const ELSE: &[u8] = b"else";

pub(crate) const CODE: &[u8] = b"code";

pub(crate) const WORD: &[u8] = b"word";

pub(crate) const NEXT: &[u8] = b"next";

pub(crate) const OUT: &[u8] = b"out";

pub(crate) const END: &[u8] = b"end";
