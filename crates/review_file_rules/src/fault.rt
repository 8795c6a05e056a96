//! Why a text was not read as a project file.
ghost use Rattle.std.specs.Prelude.{◌≡◌};

use review_expr::ParseFault;
use review_words::FileFault;
use std::alloc::{AllocError, AllocFailed};

/// Why a text was not read as a project file.
#[derive(Clone, Copy, PartialEq, Eq)]
pub enum ReadFault {
    /// It is none, and will not be, however often it is tried. A text of more than 65,536 bytes is
    /// refused for its length alone, as Limit; of a shorter one the first fault that applies is
    /// answered, and for Expr that of the first faulty expression.
    File(FileFault),
    /// There was no memory for it. It may be tried again.
    Memory,
    /// An expression has a pattern that is one, and the engine refuses it all the same, as for its
    /// size.
    Pattern,
}

impl From<AllocError> for ReadFault {
    ghost use Rattle.review_file_rules.specs.declared.fault.ReadFault.TheVariants.{Memory};

    ghost from_gives = { λ _ e. e ≡ Memory };

    fn from(_error: AllocError) -> ReadFault {
        ReadFault::Memory
    }
}

impl<T: Drop> From<AllocFailed<T>> for ReadFault {
    ghost use Rattle.review_file_rules.specs.declared.fault.ReadFault.TheVariants.{Memory};

    ghost from_gives = { λ _ e. e ≡ Memory };

    fn from(_error: AllocFailed<T>) -> ReadFault {
        ReadFault::Memory
    }
}

impl From<ParseFault> for ReadFault {
    ghost use Rattle.review_file_rules.specs.Faults.{read_fault};

    ghost from_gives = { λ fault e. e ≡ read_fault fault };

    fn from(fault: ParseFault) -> ReadFault {
        match fault {
            ParseFault::Text(fault) => ReadFault::File(FileFault::Expr(fault)),
            ParseFault::Memory => ReadFault::Memory,
            ParseFault::Pattern => ReadFault::Pattern,
        }
    }
}
