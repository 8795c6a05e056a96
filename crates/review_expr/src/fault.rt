//! Why a text was not read.
ghost use Rattle.std.specs.Prelude.{◌≡◌};

use review_words::{ExprCode, ExprFault};
use std::alloc::{AllocError, AllocFailed};

/// Why a text was not read.
#[derive(Clone, Copy, PartialEq, Eq)]
pub enum ParseFault {
    /// The text is no expression.
    Text(ExprFault),
    /// There was no memory for it. It may be tried again.
    Memory,
    /// A word has a pattern that is one, and the engine refuses it all the same, as for its size.
    Pattern,
}

impl ParseFault {
    /// A fault of the text that is no word's.
    pub(crate) fn of_text(code: ExprCode) -> ParseFault
        ensures { result ≡ ParseFault.Text (record { place = 0; code = code }) }
    {
        ParseFault::Text(ExprFault { place: 0, code })
    }
}

impl From<AllocError> for ParseFault {
    ghost use Rattle.std.specs.Prelude.{◌≡◌};
    ghost use Rattle.review_expr.specs.declared.fault.ParseFault.TheVariants.{Memory};

    ghost from_gives = { λ _ e. e ≡ Memory };

    fn from(_error: AllocError) -> ParseFault {
        ParseFault::Memory
    }
}

impl<T: Drop> From<AllocFailed<T>> for ParseFault {
    ghost use Rattle.std.specs.Prelude.{◌≡◌};
    ghost use Rattle.review_expr.specs.declared.fault.ParseFault.TheVariants.{Memory};

    ghost from_gives = { λ _ e. e ≡ Memory };

    fn from(_error: AllocFailed<T>) -> ParseFault {
        ParseFault::Memory
    }
}
