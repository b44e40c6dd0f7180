//! The lines of output sets, written one after the other.
ghost use Rattle.std.specs.Prelude.{◌≡◌, ℕ, ◌+◌, ◌*◌, ◌<◌, ◌≤◌, [], ◌++◌, length, take, slice_index_or, vec_len, vec_capacity, IfOk, OnOk, OnErr};
ghost use Rattle.argos_base.specs.Outside.{behind, HasCause};
ghost use Rattle.trace_io.specs.Lines.{output_line, room_of};
ghost use Rattle.trace_io.specs.Parts.{spaced};

use crate::push::push_all;
use argos_base::{NAME_LIMIT, NameTable, OutOfMemory, Signals, Sink};
use std::alloc::Global;
use std::marker::Model;

/// The most bytes of a name, and a space before it.
const NAME_ROOM: usize = NAME_LIMIT + 1;

/// The output couldn't be written.
#[derive(Clone, Copy, Debug, PartialEq, Eq)]
pub struct WriteFault;

/// Writes the lines of output sets, each as one piece. It is seen as the room that it has for a line, in bytes.
#[derive(Debug, Drop)]
pub struct LineWriter {
    line: Vec<u8>,
}

impl Model for LineWriter {
    ghost use Rattle.std.specs.Prelude.{ℕ, vec_capacity};

    ghost Value = { ℕ };

    ghost view = { λ w. vec_capacity w.line };
}

impl LineWriter {
    /// Takes room for the longest line of these names.
    pub fn begin(alloc: Global, names: &NameTable) -> Result<LineWriter, OutOfMemory>
        ensures { IfOk result (λ w. room_of names.now ≤ w) }
    {
        let line = Vec::with_capacity(alloc, NAME_ROOM * names.len() as usize + 2)?;
        Ok(LineWriter { line })
    }

    /// Appends the line of an output set: the names that are present, in the order of their numbers, with one space between two,
    /// or a dash. It takes no memory. A failure has appended a part of the line.
    pub fn put_set<W: Sink>(
        &mut self,
        sink: &mut W,
        names: &NameTable,
        set: &Signals,
    ) -> Result<(), WriteFault>
        requires room { room_of names.now ≤ self.old }
        requires places { length set.now ≡ length names.now }
        ensures whole { OnOk result (W.held sink.new ≡ behind (W.held sink.old) (output_line set.now names.now)) }
        ensures part { OnErr result ((n : ℕ) × (W.held sink.new ≡ behind (W.held sink.old) (take n (output_line set.now names.now)))) }
        ensures cause { HasCause (W.faults sink.old) (W.faults sink.new) result }
        ensures room { self.old ≤ self.new }
    {
        write_line(&mut self.line, names, set);
        match push_all(sink, &self.line) {
            Ok(()) => Ok(()),
            Err(_) => Err(WriteFault),
        }
    }
}

// Makes the bytes the line of a set.
#[tactic(auto, using(crate::proofs::JoinedWords::lines))]
fn write_line(line: &mut Vec<u8>, names: &NameTable, set: &Signals)
    requires room { room_of names.now ≤ vec_capacity line.old }
    requires places { length set.now ≡ length names.now }
    ensures line { line.new.items ≡ output_line set.now names.now }
    ensures room { vec_capacity line.old ≤ vec_capacity line.new }
{
    line.clear();
    let mut some = false;
    for k in 0..names.len() {
        if set.get(k) {
            append_name(line, some, names, k);
            some = true;
        }
    }
    if !some {
        append(line, b"-");
    }
    append(line, b"\n");
}

// Appends the name with a number, after a space where another stands before it.
fn append_name(line: &mut Vec<u8>, after_another: bool, names: &NameTable, k: u32)
    requires number { k < length names.now }
    requires room { vec_len line.old + 65 ≤ vec_capacity line.old }
    ensures appended { line.new.items ≡ line.old.items ++ spaced after_another (slice_index_or names.now k []) }
    ensures short { vec_len line.new ≤ vec_len line.old + 65 }
    ensures room { vec_capacity line.old ≤ vec_capacity line.new }
{
    if after_another {
        append(line, b" ");
    }
    if let Some(name) = names.get(k) {
        append(line, name.bytes());
    }
}

// Appends bytes for which there is room.
fn append(line: &mut Vec<u8>, bytes: &[u8])
    requires { vec_len line.old + length bytes.now ≤ vec_capacity line.old }
    ensures appended { line.new.items ≡ line.old.items ++ bytes.now }
    ensures len { vec_len line.new ≡ vec_len line.old + length bytes.now }
    ensures room { vec_capacity line.old ≤ vec_capacity line.new }
{
    let _ = line.extend_from_slice(bytes);
}
