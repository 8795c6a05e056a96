//! Why nothing was shown, or not all.
ghost use Rattle.std.specs.Prelude.{◌≡◌};
ghost use Rattle.review_desk_work.specs.Told.{missing, untaken};

use review_words::{NotTaken, Refusal};
use std::alloc::AllocError;

/// Why a page was not written, or not all of it.
#[derive(Clone, Copy, PartialEq, Eq)]
pub enum ShowFault {
    /// There was no memory for it.
    Memory,
    /// The store refused a call.
    Store,
    /// The tables are those of no history.
    Damaged,
    /// The pattern engine refused a pattern.
    Pattern,
    /// The change isn't there.
    NoChange,
    /// The project has no file.
    NoProject,
    /// The branch has no base.
    NoBranch,
    /// The output failed, or took no byte.
    Output,
}

impl From<AllocError> for ShowFault {
    ghost use Rattle.review_desk_work.specs.declared.show_fault.ShowFault.TheVariants.{Memory};

    ghost from_gives = { λ _ e. e ≡ Memory };

    fn from(_error: AllocError) -> ShowFault {
        ShowFault::Memory
    }
}

impl ShowFault {
    /// The fault of a question that was not taken. Full is never the cause of one.
    pub(crate) fn of_cause(cause: NotTaken) -> ShowFault
        ensures { result ≡ untaken cause }
    {
        match cause {
            NotTaken::Memory => ShowFault::Memory,
            NotTaken::Store => ShowFault::Store,
            NotTaken::Damaged | NotTaken::Full => ShowFault::Damaged,
            NotTaken::Pattern => ShowFault::Pattern,
        }
    }

    /// The fault of a question that was refused. Account 1 is always there, so any other refusal than these three comes from damaged
    /// tables.
    pub(crate) fn of_refusal(refusal: &Refusal) -> ShowFault
        ensures { result ≡ missing refusal.now }
    {
        match refusal {
            Refusal::NoChange => ShowFault::NoChange,
            Refusal::NoProject => ShowFault::NoProject,
            Refusal::NoBranch => ShowFault::NoBranch,
            _ => ShowFault::Damaged,
        }
    }
}
