//! A change whose rows fit together, and what they tell of it.
ghost use Rattle.std.specs.Prelude.{◌≡◌, ◌↔◌, true, IfOk, MatchResult};
ghost use Rattle.review_core_rules.specs.{Change.eligible, Seen.seen, Sound.IsSound, Threads.threads};
ghost use Rattle.{review_core_tables.specs.Copies.group_list, review_core_standing.specs.Grouped.IsStatus};
ghost use Rattle.review_core.specs.Faults.{IsRefused};

use crate::sound::{are_all, are_counted, are_eligible, are_in_order, are_in_place};
use review_core_rules::ChangeRows;
use review_core_standing::last_uploader;
use review_core_tables::GroupTables;
use review_file::{ProjectFile, Requirement};
use review_words::{AccountNo, Listed, Status, Thread};
use std::alloc::{AllocError, Global};

/// The rows of one change, which fit together.
#[derive(Drop)]
pub struct ChangeFile<'r> {
    pub(crate) rows: &'r ChangeRows,
    ghost sound: { IsSound (seen rows.now) },
}

/// Why rows make no change.
#[derive(Clone, Copy, PartialEq, Eq)]
pub enum RowsFault {
    /// They don't fit together. They will not, however often it is tried.
    Broken,
    /// There was no memory to find out. It may be tried again.
    Memory,
}

impl From<AllocError> for RowsFault {
    ghost use Rattle.std.specs.Prelude.{◌≡◌};
    ghost use Rattle.review_core.specs.declared.file.RowsFault.TheVariants.{Memory};

    ghost from_gives = { λ _ e. e ≡ Memory };

    fn from(_error: AllocError) -> RowsFault {
        RowsFault::Memory
    }
}

impl<'r> ChangeFile<'r> {
    /// The change of stored rows. Broken exactly where they don't fit together; Memory where there was no memory to find out.
    pub fn from_rows(alloc: Global, rows: &'r ChangeRows) -> Result<ChangeFile<'r>, RowsFault>
        ensures { MatchResult result (λ file. file.rows ≡ rows.entry) (IsRefused rows.now) }
    {
        if !fit_together(alloc, rows)? {
            return Err(RowsFault::Broken);
        }
        Ok(ChangeFile { rows })
    }

    /// The rows.
    pub fn rows(&self) -> &'r ChangeRows
        ensures same { result ≡ self.now.rows }
        ensures sound { IsSound (seen result.now) }
    {
        self.rows
    }

    /// Whether an account is the owner, the current uploader, or has a role. This takes no memory.
    pub fn eligible(&self, account: AccountNo) -> bool
        ensures { result ≡ eligible (seen self.now.rows.now) account }
    {
        let rows = self.rows;
        let uploader = last_uploader(rows.header.owner, &rows.patches);
        review_core_tables::is_eligible(rows.header.owner, uploader, &rows.roles, account)
    }

    /// The threads of its comments, by their first comments, each with its comments in order. An error is want of memory.
    pub fn threads(&self, alloc: Global) -> Result<Listed<Thread>, AllocError>
        ensures { IfOk result (λ v. v ≡ threads (seen self.now.rows.now).comments) }
    {
        let threads = review_core_standing::threads(alloc, &self.rows.comments)?;
        Ok(threads)
    }

    /// How a submit requirement stands for it, by the file of its project, where tables tell who is in which group. An error is want
    /// of memory.
    pub fn status(
        &self,
        alloc: Global,
        file: &ProjectFile,
        groups: &GroupTables,
        requirement: &Requirement,
    ) -> Result<Status, AllocError>
        ensures { IfOk result (IsStatus (record { file = file.now; groups = group_list groups.now }) (seen self.now.rows.now) requirement.now) }
    {
        review_core_standing::status(alloc, self.rows, file, groups, requirement)
    }
}

/// Whether rows fit together.
fn fit_together(alloc: Global, rows: &ChangeRows) -> Result<bool, AllocError>
    ensures { IfOk result (λ fit. (fit ≡ true) ↔ IsSound (seen rows.now)) }
{
    let owner = rows.header.owner;
    rows.votes.once();
    rows.attention.once();
    let current = rows.patches.len();
    let uploader = last_uploader(owner, &rows.patches);
    let votes = are_in_place(alloc, &rows.votes, current, &rows.roles)?;
    let called = are_eligible(alloc, owner, uploader, &rows.roles, &rows.attention)?;
    let counted = are_counted(&rows.patches, &rows.comments);
    let ordered = are_in_order(&rows.comments, current);
    Ok(are_all(counted, ordered, votes, called))
}
