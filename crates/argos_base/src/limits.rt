//! The limits of texts, programs and traces.

/// The most bytes of a file.
pub const TEXT_LIMIT: usize = 1_048_576;

/// The most bytes of a name.
pub const NAME_LIMIT: usize = 64;

/// The deepest level of nesting in a text.
pub const LEVEL_LIMIT: usize = 64;

/// The greatest number in a text.
pub const NUMBER_LIMIT: u32 = 65_535;

/// The most signals of a module, and the most names of a table.
pub const SIGNAL_LIMIT: u32 = 16_384;

/// The most automata of a module.
pub const AUTOMATON_LIMIT: u32 = 4_096;

/// The most codes of one automaton, without 0.
pub const CODE_LIMIT: u32 = 65_535;

/// The most process nodes and uses by `run` on one path.
pub const DEPTH_LIMIT: u32 = 64;

/// The greatest size of a module.
pub const SIZE_LIMIT: u32 = 262_144;

/// The most registers of a system of equations.
pub const REGISTER_LIMIT: usize = 100_000;

/// The most lines of a system of equations.
pub const LINE_LIMIT: usize = 100_000_000;

/// The most lines of a system of equations that is put in order.
pub const PLAN_LINE_LIMIT: usize = 30_000_000;

/// The most lines of a woven system of equations.
pub const WOVEN_LINE_LIMIT: u64 = 4_000_000;

/// The most sets of the trace of an advice.
pub const ADVICE_SET_LIMIT: usize = 256;

/// The most bytes of a line of a trace.
pub const TRACE_LINE_LIMIT: usize = 65_535;

/// The most variables of an arena of diagrams.
pub const VARIABLE_LIMIT: u32 = 1_024;

/// The most nodes of an arena of diagrams.
pub const NODE_LIMIT: u32 = 16_777_216;

/// The nodes of an arena, where a command says nothing of them.
pub const USUAL_NODES: u32 = 1_000_000;

/// The most aspects of a command.
pub const ASPECT_LIMIT: usize = 16;

/// The most automata of a sample.
pub const SAMPLE_LIMIT: u32 = 60;
