//! What ends a test early.

use review_words::Bad;
use std::alloc::{AllocError, AllocFailed};
use std::io;

/// What ends a test early.
#[derive(Clone, Copy, Debug)]
pub enum Fault {
    /// There was no memory.
    Memory,
    /// A text is none of its form.
    Form,
    /// A socket failed.
    Network,
}

impl From<AllocError> for Fault {
    fn from(_error: AllocError) -> Fault {
        Fault::Memory
    }
}

impl<T: Drop> From<AllocFailed<T>> for Fault {
    fn from(_error: AllocFailed<T>) -> Fault {
        Fault::Memory
    }
}

impl From<Bad> for Fault {
    fn from(fault: Bad) -> Fault {
        match fault {
            Bad::Form => Fault::Form,
            Bad::Memory => Fault::Memory,
        }
    }
}

impl From<io::Error> for Fault {
    fn from(_error: io::Error) -> Fault {
        Fault::Network
    }
}
