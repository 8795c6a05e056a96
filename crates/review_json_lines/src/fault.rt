//! What ends a command early, and how one ends otherwise.
ghost use Rattle.std.specs.Prelude.{◌≡◌, ◌&&◌};
ghost use Rattle.review_json_lines.specs.Answers.{is_complete};

use crate::lines::LineFault;
use std::alloc::AllocError;
use std::fmt;
use std::fmt::{Display, Formatter};

/// What ends a command early.
#[derive(Clone, Copy, PartialEq, Eq)]
pub enum Fault {
    /// There was no memory to read a line or to write its answer.
    Memory,
    /// The input failed, or had no end.
    Input,
    /// The output failed, or took no byte.
    Output,
}

impl From<AllocError> for Fault {
    ghost use Rattle.review_json_lines.specs.declared.fault.Fault.TheVariants.{Memory};

    ghost from_gives = { λ _ e. e ≡ Memory };

    fn from(_error: AllocError) -> Fault {
        Fault::Memory
    }
}

impl From<LineFault> for Fault {
    ghost use Rattle.review_json_lines.specs.Faults.{fault_of};

    ghost from_gives = { λ fault e. e ≡ fault_of fault };

    fn from(fault: LineFault) -> Fault {
        match fault {
            LineFault::Input | LineFault::Endless => Fault::Input,
            LineFault::Memory => Fault::Memory,
        }
    }
}

impl Display for Fault {
    fn fmt<W: fmt::Write>(&self, f: &mut Formatter<W>) -> fmt::Result {
        f.write_str(match self {
            Fault::Memory => "out of memory",
            Fault::Input => "input fault",
            Fault::Output => "output fault",
        })
    }
}

/// How a command ended that no fault cut short.
#[derive(Clone, Copy, PartialEq, Eq)]
pub enum Outcome {
    /// Each line was blank, or a delivery that was taken.
    Complete,
    /// A line was no delivery, or was not taken.
    Incomplete,
}

impl Outcome {
    /// How two parts of a command ended together.
    pub fn and(self, other: Outcome) -> Outcome
        ensures { is_complete result ≡ (is_complete self && is_complete other) }
    {
        match self {
            Outcome::Complete => other,
            Outcome::Incomplete => Outcome::Incomplete,
        }
    }
}
