//! Files by name.
ghost use Rattle.std.specs.Prelude.{◌≡◌, ℕ, Option};
ghost use Rattle.argos_base.specs.Shelves.{Files, after_load, Answers, IsCaused, LeavesFaults};

use std::alloc::Global;

/// Why a load gives no file.
#[derive(Clone, Copy, Debug, PartialEq, Eq)]
pub enum LoadError {
    /// The file couldn't be read, or there is none. The shelf's faults rose.
    Failed,
    /// The file has more than 1,048,576 bytes. So many were taken.
    TooLong(u64),
    /// No memory was given.
    OutOfMemory,
}

/// Files by name.
pub trait Shelf {
    /// What the shelf tells of its files: each file, the number of loads so far, and which load of which name may fail.
    ghost told: { Self → Option Files };

    /// The faults so far. They never fall.
    ghost faults: { Self → ℕ };

    /// Gives the whole file of a name, at most 1,048,576 bytes. No load changes a file, and each is counted, whatever it answers.
    fn load(&mut self, alloc: Global, name: &str) -> Result<Vec<u8>, LoadError>
        ensures answer { Answers (told self.old) name.now result }
        ensures caused { IsCaused (faults self.old) (faults self.new) result }
        ensures counted { told self.new ≡ after_load (told self.old) }
        ensures faults { LeavesFaults (faults self.old) (faults self.new) result };
}
