//! A desk in memory.
ghost use Rattle.std.specs.Prelude.{◌≡◌, [], IfOk};
ghost use Rattle.review_machine_rows.specs.{Shelf.Shows, Shelf.StopLeavesOwnTables, View.IsView};

use crate::tables::MemoryTables;
use review_machine_rows::{Delta, Kept, Need, Recalled, Rows, Shelf, ShelfFault};
use review_words::{AccountNo, Epoch, RequestId};
use std::alloc::{AllocError, Global};
use std::marker::Model;

/// A desk in memory. Its calls look rows up by key or by a range of keys, and never walk a table, but for a commit that gives up answers, which walks those that are kept.
#[derive(Drop)]
pub struct MemoryShelf {
    tables: MemoryTables,
}

impl Model for MemoryShelf {
    ghost use Rattle.review_memory.specs.Desk.{Desk, desk_of, IsSound};

    ghost Value = { Desk };

    ghost view = { λ s. desk_of s.tables };

    ghost invariant = { λ s. IsSound s.tables };
}

impl MemoryShelf {
    /// The desk of no request: account 1 is `admin`, in the group `Administrators`.
    pub fn new(alloc: Global) -> Result<MemoryShelf, AllocError>
        ensures view { IfOk result (λ s. Shows (⟦<MemoryShelf as Shelf>⟧.state s).tables (IsView [])) }
        ensures stops { IfOk result (λ s. StopLeavesOwnTables (⟦<MemoryShelf as Shelf>⟧.state s)) }
    {
        Ok(MemoryShelf {
            tables: MemoryTables::new(alloc)?,
        })
    }
}

impl Shelf for MemoryShelf {
    ghost use Rattle.review_machine_rows.specs.Shelf.{in_memory};
    ghost use Rattle.review_memory.specs.{Desk.tables_of, Fits.none_fits};

    ghost state = { λ s. in_memory (tables_of s) };

    fn recall(
        &mut self,
        alloc: Global,
        caller: AccountNo,
        epoch: Epoch,
        id: &RequestId,
    ) -> Result<Recalled, ShelfFault> {
        match self.tables.recall(alloc, caller, epoch, id) {
            Ok(recalled) => Ok(recalled),
            Err(_) => Err(ShelfFault::Memory),
        }
    }

    fn load(&mut self, alloc: Global, need: &Need, rows: &mut Rows) -> Result<(), ShelfFault> {
        self.tables.load(alloc, need, rows)
    }

    fn commit(&mut self, alloc: Global, delta: Delta, kept: Kept) -> Result<(), ShelfFault> {
        // No history is that long.
        if self.tables.requests == u64::MAX {
            drop(delta);
            drop(kept);
            return Err(ShelfFault::Damaged);
        }
        match self.tables.commit(alloc, delta, kept) {
            Ok(()) => Ok(()),
            Err(_) => Err(ShelfFault::Memory),
        }
    }

    fn faults(&self) -> u64 {
        0
    }

    ghost fits = { λ s. none_fits };
}
