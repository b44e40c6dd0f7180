//! The parts of which the devices in memory are made.
ghost use Rattle.std.specs.Prelude.{◌≡◌, ◌+◌, ◌≤◌, min, ◌++◌, [], length, take, IfOk, option_copied, vec_len};
ghost use Rattle.argos_base.specs.Shelves.{entry_of, has_number, Copies};

use crate::limits::TEXT_LIMIT;
use crate::out_of_memory::OutOfMemory;
use crate::shelf::LoadError;
use std::alloc::Global;

/// Bytes of which those before `at` were taken.
#[derive(Debug, Drop)]
pub struct Rest {
    bytes: Vec<u8>,
    at: usize,
    ghost in_range: { at ≤ vec_len bytes },
}

impl Rest {
    ghost use Rattle.argos_base.specs.inner.Buffers.{bytes_left};

    pub fn new(bytes: Vec<u8>) -> Rest
        ensures { bytes_left result ≡ bytes.items }
    {
        Rest { bytes, at: 0 }
    }

    /// Takes the next bytes, at most as many as `buf` holds and at most `most`, and answers how many.
    pub fn take(&mut self, buf: &mut [u8], most: usize) -> usize
        ensures count { result ≡ min (min most (length buf.old)) (length (bytes_left self.old)) }
        ensures within { result ≤ length buf.new }
        ensures taken { bytes_left self.old ≡ take result buf.new ++ bytes_left self.new }
    {
        let rest = &self.bytes[self.at..];
        let count = most.min(buf.len()).min(rest.len());
        buf[..count].copy_from_slice(&rest[..count]);
        self.at += count;
        count
    }
}

/// Room for bytes, of which those before `len` were appended.
#[derive(Debug, Drop)]
pub struct Room {
    bytes: Vec<u8>,
    len: usize,
    ghost in_range: { len ≤ vec_len bytes },
}

impl Room {
    ghost use Rattle.argos_base.specs.inner.Buffers.{bytes_held, room_left};

    pub fn new(alloc: Global, room: usize) -> Result<Room, OutOfMemory>
        ensures empty { IfOk result (λ r. bytes_held r ≡ []) }
        ensures room { IfOk result (λ r. room_left r ≡ room) }
    {
        let bytes = vec![in alloc; 0; room]?;
        Ok(Room { bytes, len: 0 })
    }

    pub fn held(&self) -> &[u8]
        ensures { result.now ≡ bytes_held self.now }
    {
        &self.bytes[..self.len]
    }

    /// Appends the front of the piece, at most `most` bytes and as many as there is room for, and answers how many.
    pub fn append(&mut self, piece: &[u8], most: usize) -> usize
        ensures count { result ≡ min (min most (length piece.now)) (room_left self.old) }
        ensures room { length (bytes_held self.new) + room_left self.new ≡ length (bytes_held self.old) + room_left self.old }
        ensures added { bytes_held self.new ≡ bytes_held self.old ++ take result piece.now }
    {
        let count = most.min(piece.len()).min(self.bytes.len() - self.len);
        self.bytes[self.len..self.len + count].copy_from_slice(&piece[..count]);
        self.len += count;
        count
    }
}

/// The first file of a name, with the name.
pub fn find<'a>(files: &'a [(String, Vec<u8>)], name: &str) -> Option<&'a (String, Vec<u8>)>
    ensures { option_copied result ≡ entry_of files.now name.now }
{
    files.iter().find(|file| file.0.as_str() == name)
}

/// A copy of a file, as a shelf gives it.
pub fn copy_of(alloc: Global, bytes: &[u8]) -> Result<Vec<u8>, LoadError>
    ensures { Copies bytes.now result }
{
    if bytes.len() > TEXT_LIMIT {
        return Err(LoadError::TooLong(TEXT_LIMIT as u64 + 1));
    }
    match bytes.to_vec(alloc) {
        Ok(copy) => Ok(copy),
        Err(_) => Err(LoadError::OutOfMemory),
    }
}

/// Whether the list has the number.
pub fn has_number(list: &[u32], number: u64) -> bool
    ensures { result ≡ has_number list.now number }
{
    list.iter().any(|k| u64::from(*k) == number)
}
