//! A shelf that is shut after one commit.
ghost use Rattle.std.specs.Prelude.{◌≡◌, true, false, ℕ, ◌+◌, ◌≤◌, ◌<◌, ◌⊎◌, IfOk, OnOk};
ghost use Rattle.review_machine_rows.specs.Shelf.{ShowsAs, greatest_count};

use crate::faulty::Turn;
use review_machine_rows::{Delta, Kept, Need, Recalled, Rows, Shelf, ShelfFault};
use review_words::{AccountNo, Epoch, RequestId};
use std::alloc::Global;

/// A shelf over another one that passes its commit of a given number on, then answers Store, and is shut from then on: as a
/// store whose last sync failed. Its turn counts commits.
#[derive(Drop)]
pub struct ShuttingShelf<T> {
    pub(crate) inner: T,
    turn: Turn,
    refused: u64,
}

impl<T: Shelf> ShuttingShelf<T> {
    /// The k-th commit shuts the shelf, counted from 1; with 0 none does.
    pub fn new(inner: T, k: u64) -> ShuttingShelf<T>
        ensures shows { ShowsAs (⟦<ShuttingShelf<T> as Shelf>⟧.state result) (T.state inner) }
        ensures inner { result.inner ≡ inner }
        ensures turn { result.turn ≡ Turn.Ahead k }
    {
        ShuttingShelf {
            inner,
            turn: Turn::Ahead(k),
            refused: 0,
        }
    }

    /// The shelf below, as it is.
    pub fn into_inner(self) -> T
        ensures inner { result ≡ self.inner }
    {
        self.inner
    }

    // Is shut from now on, and counts a refused call.
    fn refuse(&mut self)
        ensures inner { self.new.inner ≡ self.old.inner }
        ensures shut { self.new.turn ≡ Turn.Past }
        ensures refused { (self.old.refused < self.new.refused) ⊎ ((self.old.refused ≡ greatest_count) × (self.new.refused ≡ self.old.refused)) }
    {
        self.turn = Turn::Past;
        self.refused = self.refused.saturating_add(1);
    }
}

impl<T: Shelf> Shelf for ShuttingShelf<T> {
    ghost use Rattle.review_machine_rows.specs.{Known.AgreesBeside, Known.AreAsked, Rows.Tables, Rows.kept_row};
    ghost use Rattle.review_machine_rows.specs.Shelf.{Shows, LeavesUndone, IsRecalled, IsCommitted, CountsFaults, KeepsTables, BlamesTables, AddsNoStop, StopLeavesOwnTables};
    ghost use Rattle.review_memory.specs.{Faults.shutting, Faults.after_call, Faults.ShutsInTurn, Fits.sum_fits};

    ghost state = { shutting T.state };

    fn recall(
        &mut self,
        alloc: Global,
        caller: AccountNo,
        epoch: Epoch,
        id: &RequestId,
    ) -> Result<Recalled, ShelfFault>
        ensures honest { (shutting T.state self.new).is_honest → (shutting T.state self.old).is_honest }
        ensures found { (shutting T.state self.new).is_honest → IfOk result (λ recalled. Shows (shutting T.state self.old).tables (λ t. IsRecalled t (record { caller = caller; epoch = epoch; id = id.now }) recalled)) }
        ensures tables { (shutting T.state self.new).is_honest → KeepsTables result (shutting T.state self.old).tables (shutting T.state self.new).tables }
        ensures damaged { (shutting T.state self.new).is_honest → BlamesTables result (shutting T.state self.old).tables }
        ensures stops { (shutting T.state self.new).is_honest → AddsNoStop (shutting T.state self.old) (shutting T.state self.new) }
        ensures counted { CountsFaults result (shutting T.state self.old).faults (shutting T.state self.new).faults }
        ensures in_turn { ShutsInTurn T.state self.old result self.old.turn self.new }
    {
        match self.turn {
            Turn::Ahead(_) => self.inner.recall(alloc, caller, epoch, id),
            Turn::Past => {
                self.refuse();
                Err(ShelfFault::Store)
            }
        }
    }

    fn load(&mut self, alloc: Global, need: &Need, rows: &mut Rows) -> Result<(), ShelfFault>
        ensures honest { (shutting T.state self.new).is_honest → (shutting T.state self.old).is_honest }
        ensures asked { OnOk result (AreAsked need.now.wants.items rows.old rows.new) }
        ensures found { (shutting T.state self.new).is_honest → OnOk result (Shows (shutting T.state self.old).tables (λ t. AgreesBeside t rows.old rows.new)) }
        ensures tables { (shutting T.state self.new).is_honest → KeepsTables result (shutting T.state self.old).tables (shutting T.state self.new).tables }
        ensures damaged { (shutting T.state self.new).is_honest → BlamesTables result (shutting T.state self.old).tables }
        ensures stops { (shutting T.state self.new).is_honest → AddsNoStop (shutting T.state self.old) (shutting T.state self.new) }
        ensures counted { CountsFaults result (shutting T.state self.old).faults (shutting T.state self.new).faults }
        ensures in_turn { ShutsInTurn T.state self.old result self.old.turn self.new }
    {
        match self.turn {
            Turn::Ahead(_) => self.inner.load(alloc, need, rows),
            Turn::Past => {
                self.refuse();
                Err(ShelfFault::Store)
            }
        }
    }

    fn commit(&mut self, alloc: Global, delta: Delta, kept: Kept) -> Result<(), ShelfFault>
        ensures honest { (shutting T.state self.new).is_honest → (shutting T.state self.old).is_honest }
        ensures done { (shutting T.state self.new).is_honest → OnOk result (Shows (shutting T.state self.old).tables (λ t. Shows (shutting T.state self.new).tables (IsCommitted t delta (kept_row kept)))) }
        ensures alone { (shutting T.state self.new).is_honest → OnOk result (StopLeavesOwnTables (shutting T.state self.new)) }
        ensures undone { (shutting T.state self.new).is_honest → LeavesUndone result (shutting T.state self.old).tables (shutting T.state self.new).tables }
        ensures damaged { (shutting T.state self.new).is_honest → BlamesTables result (shutting T.state self.old).tables }
        ensures stops { (shutting T.state self.new).is_honest → (t : Tables) → (shutting T.state self.new).stops t →
            (shutting T.state self.old).stops t ⊎ Shows (shutting T.state self.old).tables (λ was. IsCommitted was delta (kept_row kept) t) }
        ensures counted { CountsFaults result (shutting T.state self.old).faults (shutting T.state self.new).faults }
        ensures in_turn { ShutsInTurn T.state self.old result (after_call self.old.turn) self.new }
    {
        match self.turn {
            Turn::Past => {
                drop(delta);
                drop(kept);
                self.refuse();
                Err(ShelfFault::Store)
            }
            Turn::Ahead(1) => {
                let _done = self.inner.commit(alloc, delta, kept);
                self.refuse();
                Err(ShelfFault::Store)
            }
            Turn::Ahead(n) => {
                self.turn = Turn::Ahead(n.saturating_sub(1));
                self.inner.commit(alloc, delta, kept)
            }
        }
    }

    fn faults(&self) -> u64 {
        self.inner.faults().saturating_add(self.refused)
    }

    ghost fits = { λ s. sum_fits (T.state s.inner).faults s.refused };
}
