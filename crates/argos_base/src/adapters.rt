//! The devices of a running program. They tell nothing of content.
ghost use Rattle.std.specs.Prelude.{◌≡◌, ◌+◌, ◌<◌, ◌≤◌, None, MatchResult, IfSome, length};
ghost use Rattle.argos_base.specs.Shelves.{IsFile};

use crate::limits::TEXT_LIMIT;
use crate::outside::{Failed, Sink, Source};
use crate::shelf::{LoadError, Shelf};
use std::alloc::Global;
use std::fs;
use std::io::{Read, Write};
use std::rt::Files;

/// The files of the system.
#[derive(Drop)]
pub struct FileShelf<R: Files + Drop> {
    files: R,
    faults: u64,
}

impl<R: Files + Drop> FileShelf<R> {
    /// A shelf over what the runtime reaches.
    pub fn new(files: R) -> FileShelf<R>
        ensures { result.faults ≡ 0 }
    {
        FileShelf { files, faults: 0 }
    }
}

impl<R: Files + Drop> Shelf for FileShelf<R> {
    ghost told = { λ _. None };

    ghost faults = { λ s. s.faults };

    fn load(&mut self, alloc: Global, name: &str) -> Result<Vec<u8>, LoadError> {
        let Ok(mut file) = fs::open(&self.files, name) else {
            self.faults = self.faults.saturating_add(1);
            return Err(LoadError::Failed);
        };
        let loaded = read_file(alloc, &mut file);
        if let Err(LoadError::Failed) = loaded {
            self.faults = self.faults.saturating_add(1);
        }
        loaded
    }
}

// The whole file, or the first 1,048,577 bytes of a longer one.
fn read_file<F: Read>(alloc: Global, file: &mut F) -> Result<Vec<u8>, LoadError>
    ensures { IsFile result }
{
    let mut bytes = Vec::new(alloc);
    let mut buf = [0; 8192];
    while bytes.len() <= TEXT_LIMIT {
        let room = buf.len().min(TEXT_LIMIT + 1 - bytes.len());
        match file.read(&mut buf[..room]) {
            Ok(0) => return Ok(bytes),
            Ok(count) => append(&mut bytes, &buf[..count])?,
            Err(_) => return Err(LoadError::Failed),
        }
    }
    Err(LoadError::TooLong(bytes.len() as u64))
}

// Appends the piece.
fn append(bytes: &mut Vec<u8>, piece: &[u8]) -> Result<(), LoadError>
    ensures { MatchResult result (λ _. length bytes.new.items ≡ length bytes.old.items + length piece.now) (λ e. e ≡ LoadError.OutOfMemory) }
{
    match bytes.extend_from_slice(piece) {
        Ok(()) => Ok(()),
        Err(_) => Err(LoadError::OutOfMemory),
    }
}

/// A stream of the system to be read, as standard input.
#[derive(Drop)]
pub struct StdinSource<R: Read + Drop> {
    input: R,
    faults: u64,
}

impl<R: Read + Drop> StdinSource<R> {
    /// A source over a reader.
    pub fn new(input: R) -> StdinSource<R>
        ensures { result.faults ≡ 0 }
    {
        StdinSource { input, faults: 0 }
    }
}

impl<R: Read + Drop> Source for StdinSource<R> {
    ghost left = { λ _. None };

    ghost faults = { λ s. s.faults };

    fn pull(&mut self, buf: &mut [u8]) -> Result<usize, Failed> {
        match self.input.read(buf) {
            Ok(count) => Ok(count),
            Err(_) => {
                self.faults = self.faults.saturating_add(1);
                Err(Failed)
            }
        }
    }
}

/// A stream of the system to be written, as standard output. Each push is flushed. A write that takes nothing is a fault, and so
/// is a flush that fails.
#[derive(Drop)]
pub struct StdoutSink<W: Write + Drop> {
    output: W,
    faults: u64,
}

impl<W: Write + Drop> StdoutSink<W> {
    /// A sink over a writer.
    pub fn new(output: W) -> StdoutSink<W>
        ensures { result.faults ≡ 0 }
    {
        StdoutSink { output, faults: 0 }
    }

    /// The writer, with what was pushed.
    pub fn into_inner(self) -> W
        ensures { result ≡ self.output }
    {
        let StdoutSink { output, faults: _ } = self;
        output
    }
}

impl<W: Write + Drop> Sink for StdoutSink<W> {
    ghost held = { λ _. None };

    ghost faults = { λ s. s.faults };

    fn push(&mut self, piece: &[u8]) -> Result<usize, Failed> {
        match write_some(&mut self.output, piece) {
            Some(count) => Ok(count),
            None => {
                self.faults = self.faults.saturating_add(1);
                Err(Failed)
            }
        }
    }
}

// How many bytes of the piece were written and flushed, at least one.
fn write_some<W: Write>(output: &mut W, piece: &[u8]) -> Option<usize>
    ensures { IfSome result (λ count. (0 < count) × (count ≤ length piece.now)) }
{
    match output.write(piece) {
        Ok(0) | Err(_) => None,
        Ok(count) => match output.flush() {
            Ok(()) => Some(count),
            Err(_) => None,
        },
    }
}
