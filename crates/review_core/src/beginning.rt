//! A new change.
ghost use Rattle.std.specs.Prelude.{◌≡◌, IfOk};
ghost use Rattle.review_core_rules.specs.{Change.begun, EditedChanges.IsBare, Seen.seen};

use review_core_rules::{ChangeRows, Header, PatchRow};
use review_table::Table;
use review_words::{AccountNo, ChangeKind, NewChange, State};
use std::alloc::{AllocError, Global};

/// The rows of the change that a request makes: its first patch set alone, whose uploader is the request's caller, as the owner is. An error is want of memory.
pub fn begun(
    alloc: Global,
    new: NewChange,
    caller: AccountNo,
    request: u64,
) -> Result<ChangeRows, AllocError>
    ensures change { IfOk result (λ rows. seen rows ≡ begun new caller request) }
    ensures bare { IfOk result IsBare }
{
    let NewChange {
        project,
        branch,
        subject,
        commit,
        parent,
        paths,
        wip,
    } = new;
    let mut patches = Vec::new(alloc);
    patches.push(PatchRow {
        commit,
        parent,
        kind: ChangeKind::Rework,
        uploader: caller,
        paths,
    })?;
    let header = Header {
        project,
        branch,
        subject,
        owner: caller,
        state: State::New,
        wip,
        place: 0,
        updated: request,
    };
    Ok(ChangeRows {
        header,
        patches,
        votes: Table::new(alloc),
        roles: Table::new(alloc),
        comments: Vec::new(alloc),
        attention: Table::new(alloc),
    })
}
