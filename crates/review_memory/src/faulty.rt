//! A shelf of which one call fails.
ghost use Rattle.std.specs.Prelude.{◌≡◌, ◌⊎◌, IfOk, OnOk};
ghost use Rattle.review_machine_rows.specs.Shelf.{ShowsAs};

use review_machine_rows::{Delta, Kept, Need, Recalled, Rows, Shelf, ShelfFault};
use review_words::{AccountNo, Epoch, RequestId};
use std::alloc::Global;

/// Which call to come fails: a shelf's turn, which contracts see beside the shelf below. Each call that may fail takes it one
/// further, and the one fails that finds it at 1 (`only_that_fails`).
#[derive(Clone, Copy, PartialEq, Eq)]
pub enum Turn {
    /// The call of this number, counted from 1; with 0 none does.
    Ahead(u64),
    /// None, since one has failed.
    Past,
}

/// A shelf over another one, whose call of a given number answers Store and isn't passed on. Its turn counts `recall`, `load` and
/// `commit`.
#[derive(Drop)]
pub struct FaultyShelf<T> {
    inner: T,
    turn: Turn,
}

impl<T: Shelf> FaultyShelf<T> {
    ghost use Rattle.review_memory.specs.Faults.{is_next, after_call};

    /// Of `recall`, `load` and `commit` together the k-th call fails, counted from 1; with 0 none does.
    pub fn new(inner: T, k: u64) -> FaultyShelf<T>
        ensures shows { ShowsAs (⟦<FaultyShelf<T> as Shelf>⟧.state result) (T.state inner) }
        ensures inner { result.inner ≡ inner }
        ensures turn { result.turn ≡ Turn.Ahead k }
    {
        FaultyShelf {
            inner,
            turn: Turn::Ahead(k),
        }
    }

    // Counts a call, and tells whether it is the one that fails.
    fn fails(&mut self) -> bool
        ensures inner { self.new.inner ≡ self.old.inner }
        ensures fails { result ≡ is_next self.old.turn }
        ensures turn { self.new.turn ≡ after_call self.old.turn }
    {
        match self.turn {
            Turn::Ahead(1) => {
                self.turn = Turn::Past;
                true
            }
            Turn::Ahead(n) => {
                self.turn = Turn::Ahead(n.saturating_sub(1));
                false
            }
            Turn::Past => false,
        }
    }
}

impl<T: Shelf> Shelf for FaultyShelf<T> {
    ghost use Rattle.review_machine_rows.specs.{Known.AgreesBeside, Known.AreAsked, Rows.Tables, Rows.kept_row};
    ghost use Rattle.review_machine_rows.specs.Shelf.{Shows, LeavesUndone, IsRecalled, IsCommitted, CountsFaults, KeepsTables, BlamesTables, AddsNoStop, StopLeavesOwnTables};
    ghost use Rattle.review_memory.specs.{Faults.faulty, Faults.is_past, Faults.FailsInTurn, Fits.one_more_fits};

    ghost state = { faulty T.state };

    fn recall(
        &mut self,
        alloc: Global,
        caller: AccountNo,
        epoch: Epoch,
        id: &RequestId,
    ) -> Result<Recalled, ShelfFault>
        ensures honest { (faulty T.state self.new).is_honest → (faulty T.state self.old).is_honest }
        ensures found { (faulty T.state self.new).is_honest → IfOk result (λ recalled. Shows (faulty T.state self.old).tables (λ t. IsRecalled t (record { caller = caller; epoch = epoch; id = id.now }) recalled)) }
        ensures tables { (faulty T.state self.new).is_honest → KeepsTables result (faulty T.state self.old).tables (faulty T.state self.new).tables }
        ensures damaged { (faulty T.state self.new).is_honest → BlamesTables result (faulty T.state self.old).tables }
        ensures stops { (faulty T.state self.new).is_honest → AddsNoStop (faulty T.state self.old) (faulty T.state self.new) }
        ensures counted { CountsFaults result (faulty T.state self.old).faults (faulty T.state self.new).faults }
        ensures in_turn { FailsInTurn T.state self.old result self.new }
    {
        if self.fails() {
            return Err(ShelfFault::Store);
        }
        self.inner.recall(alloc, caller, epoch, id)
    }

    fn load(&mut self, alloc: Global, need: &Need, rows: &mut Rows) -> Result<(), ShelfFault>
        ensures honest { (faulty T.state self.new).is_honest → (faulty T.state self.old).is_honest }
        ensures asked { OnOk result (AreAsked need.now.wants.items rows.old rows.new) }
        ensures found { (faulty T.state self.new).is_honest → OnOk result (Shows (faulty T.state self.old).tables (λ t. AgreesBeside t rows.old rows.new)) }
        ensures tables { (faulty T.state self.new).is_honest → KeepsTables result (faulty T.state self.old).tables (faulty T.state self.new).tables }
        ensures damaged { (faulty T.state self.new).is_honest → BlamesTables result (faulty T.state self.old).tables }
        ensures stops { (faulty T.state self.new).is_honest → AddsNoStop (faulty T.state self.old) (faulty T.state self.new) }
        ensures counted { CountsFaults result (faulty T.state self.old).faults (faulty T.state self.new).faults }
        ensures in_turn { FailsInTurn T.state self.old result self.new }
    {
        if self.fails() {
            return Err(ShelfFault::Store);
        }
        self.inner.load(alloc, need, rows)
    }

    fn commit(&mut self, alloc: Global, delta: Delta, kept: Kept) -> Result<(), ShelfFault>
        ensures honest { (faulty T.state self.new).is_honest → (faulty T.state self.old).is_honest }
        ensures done { (faulty T.state self.new).is_honest → OnOk result (Shows (faulty T.state self.old).tables (λ t. Shows (faulty T.state self.new).tables (IsCommitted t delta (kept_row kept)))) }
        ensures alone { (faulty T.state self.new).is_honest → OnOk result (StopLeavesOwnTables (faulty T.state self.new)) }
        ensures undone { (faulty T.state self.new).is_honest → LeavesUndone result (faulty T.state self.old).tables (faulty T.state self.new).tables }
        ensures damaged { (faulty T.state self.new).is_honest → BlamesTables result (faulty T.state self.old).tables }
        ensures stops { (faulty T.state self.new).is_honest → (t : Tables) → (faulty T.state self.new).stops t →
            (faulty T.state self.old).stops t ⊎ Shows (faulty T.state self.old).tables (λ was. IsCommitted was delta (kept_row kept) t) }
        ensures counted { CountsFaults result (faulty T.state self.old).faults (faulty T.state self.new).faults }
        ensures in_turn { FailsInTurn T.state self.old result self.new }
    {
        if self.fails() {
            drop(delta);
            drop(kept);
            return Err(ShelfFault::Store);
        }
        self.inner.commit(alloc, delta, kept)
    }

    fn faults(&self) -> u64 {
        match self.turn {
            Turn::Ahead(_) => self.inner.faults(),
            Turn::Past => self.inner.faults().saturating_add(1),
        }
    }

    ghost fits = { λ s. one_more_fits (is_past s.turn) (T.state s.inner).faults (T.fits s.inner) };
}
