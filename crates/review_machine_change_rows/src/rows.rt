//! Rows that are copied.
ghost use Rattle.std.specs.Prelude.{◌≡◌, IfOk};

use review_core_rules::{AttentionEntry, Vote};
use review_words::{AccountName, Role};
use std::alloc::{AllocError, Global};

/// A row that can be copied exactly.
pub trait Copied: Drop + Sized {
    /// A copy of the row. An error where there was no memory for it.
    fn copied(&self, alloc: Global) -> Result<Self, AllocError>
        ensures { IfOk result (λ r. r ≡ self.now) };
}

impl Copied for Vote {
    fn copied(&self, _alloc: Global) -> Result<Vote, AllocError> {
        Ok(*self)
    }
}

impl Copied for Role {
    fn copied(&self, _alloc: Global) -> Result<Role, AllocError> {
        Ok(*self)
    }
}

impl Copied for AttentionEntry {
    fn copied(&self, alloc: Global) -> Result<AttentionEntry, AllocError> {
        Ok(AttentionEntry {
            reason: self.reason.copy()?,
            request: self.request,
        })
    }
}

impl Copied for AccountName {
    fn copied(&self, alloc: Global) -> Result<AccountName, AllocError> {
        self.copy()
    }
}
