// Why a measurement isn't made.
use argos_base::OutOfMemory;
use dd_core::{DdError, NewError};
use std::alloc::{AllocError, AllocFailed};
use std::io;

#[derive(Debug, Drop)]
pub enum Failure {
    /// The words are none that the program knows.
    Words,
    Arena(NewError),
    Diagram(DdError),
    Memory,
    /// The equations of the counter aren't ordered.
    Counter,
    Outside(io::Error),
}

impl From<NewError> for Failure {
    fn from(error: NewError) -> Failure {
        Failure::Arena(error)
    }
}

impl From<DdError> for Failure {
    fn from(error: DdError) -> Failure {
        Failure::Diagram(error)
    }
}

impl From<AllocError> for Failure {
    fn from(_: AllocError) -> Failure {
        Failure::Memory
    }
}

impl<T: Drop> From<AllocFailed<T>> for Failure {
    fn from(_: AllocFailed<T>) -> Failure {
        Failure::Memory
    }
}

impl From<OutOfMemory> for Failure {
    fn from(_: OutOfMemory) -> Failure {
        Failure::Memory
    }
}

impl From<io::Error> for Failure {
    fn from(error: io::Error) -> Failure {
        Failure::Outside(error)
    }
}
