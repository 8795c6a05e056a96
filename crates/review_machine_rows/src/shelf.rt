//! Where a desk's tables are kept, and what each call on them promises.
ghost use Rattle.std.specs.Prelude.{◌≡◌, ◌≤◌, ◌⊎◌, ℕ, Some, IfOk, OnOk};

use crate::rows::{Delta, Kept, Need, Recalled, Rows};
use review_words::{AccountNo, Epoch, NotTaken, RequestId};
use std::alloc::{AllocError, Global};

/// Why a call of a shelf was refused.
#[derive(Clone, Copy, PartialEq, Eq)]
pub enum ShelfFault {
    /// There was no memory for it.
    Memory,
    /// The store failed; the count of faults rose.
    Store,
    /// The tables are those of no history.
    Damaged,
}

impl From<AllocError> for ShelfFault {
    ghost use Rattle.std.specs.Prelude.{◌≡◌};
    ghost use Rattle.review_machine_rows.specs.declared.shelf.ShelfFault.TheVariants.{Memory};

    ghost from_gives = { λ _ f. f ≡ Memory };

    fn from(_error: AllocError) -> ShelfFault {
        ShelfFault::Memory
    }
}

impl From<ShelfFault> for NotTaken {
    ghost use Rattle.std.specs.Prelude.{◌≡◌};
    ghost use Rattle.review_machine_rows.specs.Shelf.{cause_of};

    ghost from_gives = { λ f c. c ≡ cause_of f };

    fn from(fault: ShelfFault) -> NotTaken {
        match fault {
            ShelfFault::Memory => NotTaken::Memory,
            ShelfFault::Store => NotTaken::Store,
            ShelfFault::Damaged => NotTaken::Damaged,
        }
    }
}

/// Where a desk's tables are kept.
///
/// A store that fails may shut for good: then it shows no tables, and each later call answers Store or Memory. Every other
/// fault leaves the tables as they are. What a stop of the machine at any moment may leave is shown too: only what it could
/// leave before the call, or what the call's success leaves.
pub trait Shelf {
    ghost use Rattle.review_machine_rows.specs.{Known.AgreesBeside, Known.AreAsked, Rows.Tables, Rows.kept_row};
    ghost use Rattle.review_machine_rows.specs.Shelf.{Shown, Shows, LeavesUndone, IsRecalled, IsCommitted, CountsFaults, KeepsTables, BlamesTables, AddsNoStop, StopLeavesOwnTables, greatest_count};

    /// The tables, whether the store was honest, its count of faults, and what a stop may leave.
    ghost state: { Self → Shown };

    /// The stored request of an identity, or that it is new, or that its epoch is closed.
    fn recall(
        &mut self,
        alloc: Global,
        caller: AccountNo,
        epoch: Epoch,
        id: &RequestId,
    ) -> Result<Recalled, ShelfFault>
        ensures honest { (state self.new).is_honest → (state self.old).is_honest }
        ensures found { (state self.new).is_honest → IfOk result (λ recalled. Shows (state self.old).tables (λ t. IsRecalled t (record { caller = caller; epoch = epoch; id = id.now }) recalled)) }
        ensures tables { (state self.new).is_honest → KeepsTables result (state self.old).tables (state self.new).tables }
        ensures damaged { (state self.new).is_honest → BlamesTables result (state self.old).tables }
        ensures stops { (state self.new).is_honest → AddsNoStop (state self.old) (state self.new) }
        ensures counted { CountsFaults result (state self.old).faults (state self.new).faults };

    /// Rows learn what the look-ups of the need find, and of no others. An error may leave a part of it learnt.
    fn load(&mut self, alloc: Global, need: &Need, rows: &mut Rows) -> Result<(), ShelfFault>
        ensures honest { (state self.new).is_honest → (state self.old).is_honest }
        ensures asked { OnOk result (AreAsked need.now.wants.items rows.old rows.new) }
        ensures found { (state self.new).is_honest → OnOk result (Shows (state self.old).tables (λ t. AgreesBeside t rows.old rows.new)) }
        ensures tables { (state self.new).is_honest → KeepsTables result (state self.old).tables (state self.new).tables }
        ensures damaged { (state self.new).is_honest → BlamesTables result (state self.old).tables }
        ensures stops { (state self.new).is_honest → AddsNoStop (state self.old) (state self.new) }
        ensures counted { CountsFaults result (state self.old).faults (state self.new).faults };

    /// Applies the delta and stores the request, and where the delta names an epoch makes it the least open one and gives up the kept answers of lower ones; or changes nothing.
    fn commit(&mut self, alloc: Global, delta: Delta, kept: Kept) -> Result<(), ShelfFault>
        ensures honest { (state self.new).is_honest → (state self.old).is_honest }
        ensures done { (state self.new).is_honest → OnOk result (Shows (state self.old).tables (λ t. Shows (state self.new).tables (IsCommitted t delta (kept_row kept)))) }
        ensures alone { (state self.new).is_honest → OnOk result (StopLeavesOwnTables (state self.new)) }
        ensures undone { (state self.new).is_honest → LeavesUndone result (state self.old).tables (state self.new).tables }
        ensures damaged { (state self.new).is_honest → BlamesTables result (state self.old).tables }
        ensures stops { (state self.new).is_honest → (t : Tables) → (state self.new).stops t →
            (state self.old).stops t ⊎ Shows (state self.old).tables (λ was. IsCommitted was delta (kept_row kept) t) }
        ensures counted { CountsFaults result (state self.old).faults (state self.new).faults };

    fn faults(&self) -> u64
        ensures { result ≡ (state self.now).faults };

    /// The count fits its type.
    ghost fits: { (s : Self) → (state s).faults ≤ greatest_count };
}
