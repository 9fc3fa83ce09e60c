// A command that failed; what went wrong has been printed.
use std::alloc::{AllocError, AllocFailed};
use std::io;

#[derive(Drop, Debug)]
pub enum Failed {
    // The call was wrong, and how to call the program was printed.
    Call,
    // A file could not be read or written, and its name was printed.
    File,
    // The file was refused, and why was printed.
    Refused,
    // Nothing could be printed.
    Output,
    // There was not enough memory.
    Memory,
}

impl From<io::Error> for Failed {
    fn from(_e: io::Error) -> Failed {
        Failed::Output
    }
}

impl From<AllocError> for Failed {
    fn from(_e: AllocError) -> Failed {
        Failed::Memory
    }
}

impl<T: Drop> From<AllocFailed<T>> for Failed {
    fn from(_e: AllocFailed<T>) -> Failed {
        Failed::Memory
    }
}
