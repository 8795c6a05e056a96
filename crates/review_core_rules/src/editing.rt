//! An edited change, begun.
ghost use Rattle.std.specs.Prelude.{◌≡◌, IfOk};
ghost use Rattle.review_core_rules.specs.{EditedChanges.IsUnedited, EditedChanges.after_edits, Seen.seen};

use crate::edited_change::EditedChange;
use crate::rows::{ChangeRows, Header};
use review_table::Edited;
use review_words::State;
use std::alloc::{AllocError, Global};

/// A change as it is, but in this state, and with this request as the last that named it; edits go on from there. An error where there was
/// no memory for it.
pub fn begin_edits<'r>(
    alloc: Global,
    rows: &'r ChangeRows,
    state: State,
    request: u64,
) -> Result<EditedChange<'r>, AllocError>
    ensures rows { IfOk result (λ d. d.rows ≡ rows.entry) }
    ensures unedited { IfOk result (IsUnedited rows.now) }
    ensures same { IfOk result (λ d. after_edits d ≡ record (seen rows.now) { state = state; updated = request }) }
{
    let header = &rows.header;
    let header = Header {
        project: header.project.copy()?,
        branch: header.branch.copy()?,
        subject: header.subject.copy()?,
        owner: header.owner,
        state,
        wip: header.wip,
        place: header.place,
        updated: request,
    };
    Ok(EditedChange {
        rows,
        header,
        patches: Vec::new(alloc),
        votes: Edited::new(alloc, &rows.votes),
        roles: Edited::new(alloc, &rows.roles),
        comments: Vec::new(alloc),
        attention: Edited::new(alloc, &rows.attention),
    })
}
