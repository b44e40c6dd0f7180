//! Devices in memory that never fail.
ghost use Rattle.std.specs.Prelude.{◌≡◌, ◌+◌, ◌<◌, ◌≤◌, [], length, take, min, Some, IfOk, IsOkAnd, MatchResult};
ghost use Rattle.argos_base.specs.Fakes.{sure_files, FillsUp};
ghost use Rattle.argos_base.specs.Outside.{ahead, behind, IsAtEnd, HasCause};

use crate::fakes::{Rest, Room, copy_of, find};
use crate::out_of_memory::OutOfMemory;
use crate::outside::{Failed, Sink, Source};
use crate::shelf::{LoadError, Shelf};
use std::alloc::Global;
use std::marker::Model;

/// Files in memory. Of two files with one name the first counts, and under every other name stands the empty file.
#[derive(Debug, Drop)]
pub struct SureShelf {
    files: Vec<(String, Vec<u8>)>,
    loads: u64,
}

impl Model for SureShelf {
    ghost use Rattle.argos_base.specs.Fakes.{SureRack};

    ghost Value = { SureRack };

    ghost view = { λ s. record { entries = s.files.items; loads = s.loads } };
}

impl SureShelf {
    /// A shelf with these files by name.
    pub fn new(files: Vec<(String, Vec<u8>)>) -> SureShelf
        ensures { (result.entries ≡ files.items) × (result.loads ≡ 0) }
    {
        SureShelf { files, loads: 0 }
    }
}

impl Shelf for SureShelf {
    ghost told = { λ s. Some (sure_files s.entries s.loads) };

    ghost faults = { λ _. 0 };

    fn load(&mut self, alloc: Global, name: &str) -> Result<Vec<u8>, LoadError> {
        self.loads = self.loads.saturating_add(1);
        match find(&self.files, name) {
            Some(file) => copy_of(alloc, &file.1),
            None => Ok(Vec::new(alloc)),
        }
    }
}

/// Bytes in memory to be pulled, seen as those that are left.
#[derive(Debug, Drop)]
pub struct SureSource {
    rest: Rest,
}

impl Model for SureSource {
    ghost use Rattle.std.specs.Prelude.{List, ℕ};
    ghost use Rattle.argos_base.specs.inner.Buffers.{bytes_left};

    ghost Value = { List ℕ };

    ghost view = { λ s. bytes_left s.rest };
}

impl SureSource {
    /// A source that has these bytes left.
    pub fn new(bytes: Vec<u8>) -> SureSource
        ensures { result ≡ bytes.items }
    {
        SureSource {
            rest: Rest::new(bytes),
        }
    }
}

impl Source for SureSource {
    ghost left = { λ s. Some s };

    ghost faults = { λ _. 0 };

    fn pull(&mut self, buf: &mut [u8]) -> Result<usize, Failed>
        requires { 0 < length buf.old }
        ensures bound { IfOk result (λ n. n ≤ length buf.new) }
        ensures taken { MatchResult result (λ n. Some self.old ≡ ahead (take n buf.new) (Some self.new)) (λ _. Some self.new ≡ Some self.old) }
        ensures ending { IfOk result (λ n. n ≡ 0 → IsAtEnd (Some self.new)) }
        ensures cause { HasCause 0 0 result }
        // As many bytes come as the buffer holds, or all that are left.
        ensures moved { IsOkAnd result (λ n. n ≡ min (length buf.old) (length self.old)) }
    {
        Ok(self.rest.take(buf, usize::MAX))
    }
}

/// Room in memory for bytes that are pushed, seen as what is held, the room that is left, and the faults.
#[derive(Debug, Drop)]
pub struct SureSink {
    room: Room,
    faults: u64,
}

impl Model for SureSink {
    ghost use Rattle.argos_base.specs.Fakes.{Filling};
    ghost use Rattle.argos_base.specs.inner.Buffers.{bytes_held, room_left};

    ghost Value = { Filling };

    ghost view = { λ s. record { held = bytes_held s.room; room = room_left s.room; faults = s.faults } };
}

impl SureSink {
    /// An empty sink with room for so many bytes. A push that finds the room full is a fault.
    pub fn new(alloc: Global, room: usize) -> Result<SureSink, OutOfMemory>
        ensures empty { IfOk result (λ s. (s.held ≡ []) × (s.room ≡ room) × (s.faults ≡ 0)) }
    {
        let room = Room::new(alloc, room)?;
        Ok(SureSink { room, faults: 0 })
    }

    /// What was appended.
    pub fn bytes(&self) -> &[u8]
        ensures { result.now ≡ self.now.held }
    {
        self.room.held()
    }
}

impl Sink for SureSink {
    ghost held = { λ s. Some s.held };

    ghost faults = { λ s. s.faults };

    fn push(&mut self, piece: &[u8]) -> Result<usize, Failed>
        requires { 0 < length piece.now }
        ensures bound { IfOk result (λ n. (0 < n) × (n ≤ length piece.now)) }
        ensures added { MatchResult result (λ n. Some self.new.held ≡ behind (Some self.old.held) (take n piece.now)) (λ _. Some self.new.held ≡ Some self.old.held) }
        ensures cause { HasCause self.old.faults self.new.faults result }
        // As many bytes go in as the piece has and the room allows; only a full room is a fault.
        ensures filled { FillsUp self.old (length piece.now) result }
        ensures room { length self.new.held + self.new.room ≡ length self.old.held + self.old.room }
    {
        match self.room.append(piece, usize::MAX) {
            0 => {
                self.faults = self.faults.saturating_add(1);
                Err(Failed)
            }
            count => Ok(count),
        }
    }
}
