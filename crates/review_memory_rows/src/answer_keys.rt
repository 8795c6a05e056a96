//! Identities as keys, and what is stored under them.
ghost use Rattle.std.specs.Prelude.{◌≡◌, IfOk};

use review_table::Key;
use review_words::{AccountNo, Epoch, RequestId};
use std::alloc::AllocError;

/// The identity of a stored request, by its epoch first.
#[derive(PartialEq, Eq, PartialOrd, Ord, Drop)]
pub struct AnswerKey {
    pub epoch: Epoch,
    pub caller: AccountNo,
    pub id: RequestId,
}

impl Key for AnswerKey {
    fn copy(&self) -> Result<AnswerKey, AllocError> {
        let id = self.id.copy()?;
        Ok(AnswerKey {
            epoch: self.epoch,
            caller: self.caller,
            id,
        })
    }
}

/// What is stored of a request beside its identity.
#[derive(Drop)]
pub struct StoredAnswer {
    pub request: u64,
    pub content: String,
    pub reply: String,
}
