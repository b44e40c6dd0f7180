//! Why a line gives no set.

/// What is wrong with a line of a trace.
#[derive(Clone, Copy, Debug, PartialEq, Eq)]
pub enum LineKind {
    /// A name of a well spelt line is no input.
    Unknown,
    /// The line is neither a dash nor names with spaces between.
    Spelling,
    /// The line has more than 65,535 bytes.
    TooLong,
    /// There are more than 4,294,967,295 lines.
    TooMany,
}

/// Why no more lines are read. Lines count from 1.
#[derive(Clone, Copy, Debug, PartialEq, Eq)]
pub enum TraceError {
    /// The line with this number is bad.
    BadLine { number: u64, kind: LineKind },
    /// The whole lines are used up, and pulling more failed; the next line would have this number.
    ReadFault { number: u64 },
    /// The whole lines are used up, and the trace has more bytes than are pulled.
    Long,
}
