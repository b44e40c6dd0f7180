//! Devices in memory that fail at listed calls.
ghost use Rattle.std.specs.Prelude.{◌≡◌, ◌<◌, ◌≤◌, length, take, Some, Err, IfOk, MatchResult, IsTrue, ◌↔◌};
ghost use Rattle.argos_base.specs.Fakes.{failing_files, fails_next, full_supply, empty_store, PullsListed, PushesListed, IsPulled, IsPushed};
ghost use Rattle.argos_base.specs.Shelves.{Answers, IsCaused, LeavesFaults, after_load};
ghost use Rattle.argos_base.specs.Outside.{ahead, behind, IsAtEnd, HasCause};

use crate::fakes::{Rest, Room, copy_of, find, has_number};
use crate::out_of_memory::OutOfMemory;
use crate::outside::{Failed, Sink, Source};
use crate::shelf::{LoadError, Shelf};
use std::alloc::Global;
use std::marker::Model;

/// Files in memory. Of two files with one name the first counts. A load of a name that no file has is a fault, and so is each
/// load whose number, counted from 0, is in the list.
#[derive(Debug, Drop)]
pub struct MemShelf {
    files: Vec<(String, Vec<u8>)>,
    fail: Vec<u32>,
    loads: u64,
    faults: u64,
}

impl Model for MemShelf {
    ghost use Rattle.argos_base.specs.Fakes.{Rack};

    ghost Value = { Rack };

    ghost view = { λ s. record { entries = s.files.items; fails = s.fail.items; loads = s.loads; faults = s.faults } };
}

impl MemShelf {
    /// A shelf with these files by name, whose loads with these numbers fail.
    pub fn new(files: Vec<(String, Vec<u8>)>, fail: Vec<u32>) -> MemShelf
        ensures { result ≡ record { entries = files.items; fails = fail.items; loads = 0; faults = 0 } }
    {
        MemShelf {
            files,
            fail,
            loads: 0,
            faults: 0,
        }
    }
}

impl Shelf for MemShelf {
    ghost told = { λ s. Some (failing_files s.entries s.fails s.loads) };

    ghost faults = { λ s. s.faults };

    fn load(&mut self, alloc: Global, name: &str) -> Result<Vec<u8>, LoadError>
        ensures answer { Answers (Some (failing_files self.old.entries self.old.fails self.old.loads)) name.now result }
        ensures caused { IsCaused self.old.faults self.new.faults result }
        ensures counted { Some (failing_files self.new.entries self.new.fails self.new.loads) ≡ after_load (Some (failing_files self.old.entries self.old.fails self.old.loads)) }
        ensures faults { LeavesFaults self.old.faults self.new.faults result }
        // A listed load fails, and so does one of a name that no file has; no other does.
        ensures listed { IsTrue (fails_next self.old name.now) ↔ (result ≡ Err LoadError.Failed) }
    {
        let number = self.loads;
        self.loads = self.loads.saturating_add(1);
        if has_number(&self.fail, number) {
            self.faults = self.faults.saturating_add(1);
            return Err(LoadError::Failed);
        }
        match find(&self.files, name) {
            Some(file) => copy_of(alloc, &file.1),
            None => {
                self.faults = self.faults.saturating_add(1);
                Err(LoadError::Failed)
            }
        }
    }
}

/// Bytes in memory to be pulled, at most `step` at a time. Each pull whose number, counted from 0, is in the list is a fault.
#[derive(Debug, Drop)]
pub struct MemSource {
    rest: Rest,
    step: usize,
    fail: Vec<u32>,
    pulls: u64,
    faults: u64,
}

impl Model for MemSource {
    ghost use Rattle.std.specs.Prelude.{◌≤◌};
    ghost use Rattle.argos_base.specs.Fakes.{Supply};
    ghost use Rattle.argos_base.specs.inner.Buffers.{bytes_left};

    ghost Value = { Supply };

    ghost view = { λ s. record { left = bytes_left s.rest; step = s.step; fails = s.fail.items; pulls = s.pulls; faults = s.faults } };

    ghost invariant = { λ s. 1 ≤ s.step };
}

impl MemSource {
    /// A source that has these bytes left, and gives as many as are asked for.
    pub fn new(bytes: Vec<u8>, fail: Vec<u32>) -> MemSource
        ensures { result ≡ full_supply bytes.items usize.MAX fail.items }
    {
        MemSource::slow(bytes, usize::MAX, fail)
    }

    /// A source that has these bytes left, and gives at most `step` of them at a pull.
    pub fn slow(bytes: Vec<u8>, step: usize, fail: Vec<u32>) -> MemSource
        requires { 1 ≤ step }
        ensures { result ≡ full_supply bytes.items step fail.items }
    {
        MemSource {
            rest: Rest::new(bytes),
            step,
            fail,
            pulls: 0,
            faults: 0,
        }
    }
}

impl Source for MemSource {
    ghost left = { λ s. Some s.left };

    ghost faults = { λ s. s.faults };

    fn pull(&mut self, buf: &mut [u8]) -> Result<usize, Failed>
        requires { 0 < length buf.old }
        ensures bound { IfOk result (λ n. n ≤ length buf.new) }
        ensures taken { MatchResult result (λ n. Some self.old.left ≡ ahead (take n buf.new) (Some self.new.left)) (λ _. Some self.new.left ≡ Some self.old.left) }
        ensures ending { IfOk result (λ n. n ≡ 0 → IsAtEnd (Some self.new.left)) }
        ensures cause { HasCause self.old.faults self.new.faults result }
        // A listed pull fails, and no other; else as many bytes come as step, buffer and rest allow.
        ensures listed { PullsListed self.old (length buf.old) result }
        ensures pulled { IsPulled self.old self.new }
    {
        let number = self.pulls;
        self.pulls = self.pulls.saturating_add(1);
        if has_number(&self.fail, number) {
            self.faults = self.faults.saturating_add(1);
            return Err(Failed);
        }
        Ok(self.rest.take(buf, self.step))
    }
}

/// Room in memory for bytes that are pushed, at most `step` at a time. Each push whose number, counted from 0, is in the list is
/// a fault, and so is one that finds the room full.
#[derive(Debug, Drop)]
pub struct MemSink {
    room: Room,
    step: usize,
    fail: Vec<u32>,
    pushes: u64,
    faults: u64,
}

impl Model for MemSink {
    ghost use Rattle.argos_base.specs.Fakes.{Store};
    ghost use Rattle.argos_base.specs.inner.Buffers.{bytes_held, room_left};

    ghost Value = { Store };

    ghost view = { λ s. record { held = bytes_held s.room; room = room_left s.room; step = s.step; fails = s.fail.items; pushes = s.pushes; faults = s.faults } };
}

impl MemSink {
    /// An empty sink with room for so many bytes, which takes as much of a piece as the room still holds.
    pub fn new(alloc: Global, room: usize, fail: Vec<u32>) -> Result<MemSink, OutOfMemory>
        ensures { IfOk result (λ s. s ≡ empty_store room usize.MAX fail.items) }
    {
        MemSink::slow(alloc, room, usize::MAX, fail)
    }

    /// An empty sink with room for so many bytes, which takes at most `step` of them at a push.
    pub fn slow(
        alloc: Global,
        room: usize,
        step: usize,
        fail: Vec<u32>,
    ) -> Result<MemSink, OutOfMemory>
        requires { 1 ≤ step }
        ensures { IfOk result (λ s. s ≡ empty_store room step fail.items) }
    {
        let room = Room::new(alloc, room)?;
        Ok(MemSink {
            room,
            step,
            fail,
            pushes: 0,
            faults: 0,
        })
    }

    /// What was appended.
    pub fn bytes(&self) -> &[u8]
        ensures { result.now ≡ self.now.held }
    {
        self.room.held()
    }
}

impl Sink for MemSink {
    ghost held = { λ s. Some s.held };

    ghost faults = { λ s. s.faults };

    fn push(&mut self, piece: &[u8]) -> Result<usize, Failed>
        requires { 0 < length piece.now }
        ensures bound { IfOk result (λ n. (0 < n) × (n ≤ length piece.now)) }
        ensures added { MatchResult result (λ n. Some self.new.held ≡ behind (Some self.old.held) (take n piece.now)) (λ _. Some self.new.held ≡ Some self.old.held) }
        ensures cause { HasCause self.old.faults self.new.faults result }
        // A listed push fails, and one that finds no room; else as many bytes go in as step, piece and room allow.
        ensures listed { PushesListed self.old (length piece.now) result }
        ensures pushed { IsPushed self.old self.new }
    {
        let number = self.pushes;
        self.pushes = self.pushes.saturating_add(1);
        if has_number(&self.fail, number) {
            self.faults = self.faults.saturating_add(1);
            return Err(Failed);
        }
        match self.room.append(piece, self.step) {
            0 => {
                self.faults = self.faults.saturating_add(1);
                Err(Failed)
            }
            count => Ok(count),
        }
    }
}
