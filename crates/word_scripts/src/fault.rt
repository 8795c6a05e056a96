//! What ends a transcript early.

use review_words::Bad;
use std::alloc::{AllocError, AllocFailed};
use std::fmt::{Display, Formatter};
use std::{fmt, io};

/// What ends a transcript early.
#[derive(Clone, Copy)]
pub enum Fault {
    /// There was no memory.
    Memory,
    /// The input failed, or has bytes that are no text.
    Input,
    /// The output failed.
    Output,
    /// A line is of none of the forms, or has a name or a number that is none where one has to be.
    Form,
}

impl Fault {
    pub fn of_input(_error: io::Error) -> Fault {
        Fault::Input
    }

    pub fn of_output(_error: io::Error) -> Fault {
        Fault::Output
    }
}

impl From<AllocError> for Fault {
    fn from(_error: AllocError) -> Fault {
        Fault::Memory
    }
}

impl<T: Drop> From<AllocFailed<T>> for Fault {
    fn from(_error: AllocFailed<T>) -> Fault {
        Fault::Memory
    }
}

impl From<Bad> for Fault {
    fn from(fault: Bad) -> Fault {
        match fault {
            Bad::Form => Fault::Form,
            Bad::Memory => Fault::Memory,
        }
    }
}

/// What was read, or none where it was of no form.
pub fn named<T>(read: Result<T, Bad>) -> Result<Option<T>, Fault> {
    match read {
        Ok(value) => Ok(Some(value)),
        Err(Bad::Form) => Ok(None),
        Err(Bad::Memory) => Err(Fault::Memory),
    }
}

impl Display for Fault {
    fn fmt<W: fmt::Write>(&self, f: &mut Formatter<W>) -> fmt::Result {
        f.write_str(match self {
            Fault::Memory => "out of memory",
            Fault::Input => "input fault",
            Fault::Output => "output fault",
            Fault::Form => "a line of no form",
        })
    }
}
