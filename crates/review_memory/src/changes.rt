//! What a delta and its request change in tables in memory.
ghost use Rattle.std.specs.{List.All, Prelude.◌≡◌, Prelude.IfOk, Prelude.OnOk};
ghost use Rattle.{review_table.specs.Rows.rows_of, review_memory_rows.specs.Kept.ArePrepared};
ghost use Rattle.review_memory.specs.Desk.{IsNumber, IsHeld, IsGiven, IsNameOf, AreChanges, PutsAnswer, file_changes};

use crate::keys::NameKey;
use review_machine_rows::{ChangeEdit, Kept, MemberKey, Put, StoredFile};
use review_memory_rows::{AnswerKey, KeptChanges, Prepared, StoredAnswer, copied_changes};
use review_table::{Key, RowEdit, Table};
use review_words::{AccountName, AccountNo, ProjectName};
use std::alloc::{AllocError, Global};

/// The changes of a delta but for the base of a branch: those of accounts and members in copies of their own.
#[derive(Drop)]
pub struct Changes {
    pub accounts: Vec<RowEdit<AccountNo, AccountName>>,
    pub members: Vec<RowEdit<MemberKey, ()>>,
    pub files: Vec<RowEdit<ProjectName, StoredFile>>,
    pub edits: Prepared,
}

impl Changes {
    /// Those of the parts of a delta, where these are the changes before it.
    pub fn new(
        alloc: Global,
        accounts: &[RowEdit<AccountNo, AccountName>],
        members: &[RowEdit<MemberKey, ()>],
        file: Option<Put<ProjectName, StoredFile>>,
        edits: Vec<ChangeEdit>,
        kept: &KeptChanges,
    ) -> Result<Changes, AllocError>
        ensures copied { IfOk result (AreChanges accounts.now members.now file) }
        ensures edits { IfOk result (λ c. ArePrepared (rows_of kept.now.kept) edits.items c.edits) }
    {
        let edits = kept.prepare(alloc, edits)?;
        let files = file_edits(alloc, file)?;
        let members = copied_members(alloc, members)?;
        let accounts = copied_changes(alloc, accounts)?;
        Ok(Changes {
            accounts,
            members,
            files,
            edits,
        })
    }
}

fn copied_members(
    alloc: Global,
    changes: &[RowEdit<MemberKey, ()>],
) -> Result<Vec<RowEdit<MemberKey, ()>>, AllocError>
    ensures copied { IfOk result (λ copies. copies.items ≡ changes.now) }
    ensures numbered { OnOk result (All (λ c. IsNumber c.key.account) changes.now) }
{
    let mut copies = Vec::with_capacity(alloc, changes.len())?;
    for change in changes {
        copies.push(copied_member(change)?)?;
    }
    Ok(copies)
}

fn copied_member(change: &RowEdit<MemberKey, ()>) -> Result<RowEdit<MemberKey, ()>, AllocError>
    ensures copied { IfOk result (λ copy. copy ≡ change.now) }
    ensures numbered { IsNumber change.now.key.account }
{
    // A range over a group finds the member, since it is an account by its number.
    let _ = change.key.account.get();
    Ok(RowEdit {
        key: change.key.copy()?,
        row: change.row,
    })
}

fn file_edits(
    alloc: Global,
    file: Option<Put<ProjectName, StoredFile>>,
) -> Result<Vec<RowEdit<ProjectName, StoredFile>>, AllocError>
    ensures { IfOk result (λ v. v.items ≡ file_changes file) }
{
    match file {
        Some(put) => Ok(vec![in alloc;
            RowEdit {
                key: put.key,
                row: Some(put.row),
            },
        ]?),
        None => Ok(Vec::new(alloc)),
    }
}

/// The answer of a stored request, under its identity.
pub fn stored(kept: Kept) -> Put<AnswerKey, StoredAnswer>
    ensures { PutsAnswer kept result }
{
    Put {
        key: AnswerKey {
            epoch: kept.epoch,
            caller: kept.caller,
            id: kept.id,
        },
        row: StoredAnswer {
            request: kept.request,
            content: kept.content,
            reply: kept.reply,
        },
    }
}

/// The names that accounts have before they change, each with its account.
pub fn names_held(
    alloc: Global,
    accounts: &Table<AccountNo, AccountName>,
    changes: &[RowEdit<AccountNo, AccountName>],
) -> Result<Vec<NameKey>, AllocError>
    ensures { IfOk result (λ names. All (IsHeld (rows_of accounts.now) names.items) changes.now) }
{
    let mut names = Vec::new(alloc);
    for change in changes {
        if let Some(name) = accounts.get(&change.key) {
            names.push(NameKey {
                name: name.copy()?,
                account: change.key,
            })?;
        }
    }
    Ok(names)
}

/// The names that accounts have before their changes, and those that they get.
#[derive(Drop)]
pub struct Names {
    pub held: Vec<NameKey>,
    pub given: Vec<NameKey>,
}

/// Those of the changes of these accounts.
pub fn names_of(
    alloc: Global,
    accounts: &Table<AccountNo, AccountName>,
    changes: &[RowEdit<AccountNo, AccountName>],
) -> Result<Names, AllocError>
    ensures held { IfOk result (λ names. All (IsHeld (rows_of accounts.now) names.held.items) changes.now) }
    ensures all { IfOk result (λ names. All (IsGiven names.given.items) changes.now) }
    ensures only { IfOk result (λ names. All (IsNameOf changes.now) names.given.items) }
{
    let held = names_held(alloc, accounts, changes)?;
    let given = names_given(alloc, changes)?;
    Ok(Names { held, given })
}

/// The names that accounts get, each with its account.
pub fn names_given(
    alloc: Global,
    changes: &[RowEdit<AccountNo, AccountName>],
) -> Result<Vec<NameKey>, AllocError>
    ensures all { IfOk result (λ names. All (IsGiven names.items) changes.now) }
    ensures only { IfOk result (λ names. All (IsNameOf changes.now) names.items) }
{
    let mut names = Vec::with_capacity(alloc, changes.len())?;
    for change in changes {
        // A range over a name finds the account by its number.
        let _ = change.key.get();
        if let Some(name) = &change.row {
            names.push(NameKey {
                name: name.copy()?,
                account: change.key,
            })?;
        }
    }
    Ok(names)
}
