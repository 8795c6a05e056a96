//! What an edit makes of the tables of one change.
ghost use Rattle.std.specs.{BTreeMap.is_at, Ordering.nat_cmp};
ghost use Rattle.std.specs.Prelude.{◌≡◌, ℕ, [], ◌∷◌, ◌++◌, IfOk, OnOk, None, is_some, unwrap_or, if◌then◌else◌};
ghost use Rattle.review_table.specs.Rows.{changed, row_in, rows_of, HasNoEmptyPlace};
ghost use Rattle.review_core_rules.specs.{Seen.vote_cmp, declared.rows.VoteKey.VoteKey};
ghost use Rattle.review_machine_change_rows.specs.Tables.{part_in};
ghost use Rattle.review_memory_rows.specs.Kept.{AreEdited, renewed, renewed_at};

use review_core_rules::{AttentionEntry, Comment, Header, PatchRow, Vote, VoteKey};
use review_machine_change_rows::{ChangeTables, Copied, copied_header, copied_table};
use review_machine_rows::ChangeEdit;
use review_table::{Key, RowEdit, Table};
use review_words::{AccountNo, ChangeNo, CommentNo, PatchNo, Role};
use std::alloc::{AllocError, Global};

/// What an edit makes of the tables of one change: its header, and those tables of which it changes a row. The others stay as they are.
#[derive(Drop)]
pub struct NewTables {
    header: Header,
    patches: Option<Table<PatchNo, PatchRow>>,
    votes: Option<Table<VoteKey, Vote>>,
    roles: Option<Table<AccountNo, Role>>,
    comments: Option<Table<CommentNo, Comment>>,
    attention: Option<Table<AccountNo, AttentionEntry>>,
}

/// What an edit makes of the tables of a change. An error where there was no memory for it.
pub fn edited(alloc: Global, old: &ChangeTables, edit: ChangeEdit) -> Result<NewTables, AllocError>
    ensures { IfOk result (λ new. AreEdited (part_in old.now) edit (renewed old.now new)) }
{
    let ChangeEdit {
        header,
        patches,
        votes,
        roles,
        comments,
        attention,
        ..
    } = edit;
    let marks = edited_marks(alloc, old, votes, roles, attention)?;
    let patches = changed_table(alloc, &old.patches, patches)?;
    let comments = changed_table(alloc, &old.comments, comments)?;
    Ok(NewTables {
        header,
        patches,
        votes: marks.votes,
        roles: marks.roles,
        comments,
        attention: marks.attention,
    })
}

// What an edit makes of the tables of a change that are kept by accounts.
#[derive(Drop)]
struct NewMarks {
    votes: Option<Table<VoteKey, Vote>>,
    roles: Option<Table<AccountNo, Role>>,
    attention: Option<Table<AccountNo, AttentionEntry>>,
}

fn edited_marks(
    alloc: Global,
    old: &ChangeTables,
    votes: Vec<RowEdit<VoteKey, Vote>>,
    roles: Vec<RowEdit<AccountNo, Role>>,
    attention: Vec<RowEdit<AccountNo, AttentionEntry>>,
) -> Result<NewMarks, AllocError>
    ensures votes { IfOk result (λ new. (q : VoteKey) → row_in vote_cmp (rows_of (unwrap_or new.votes old.now.votes)) q ≡ changed vote_cmp votes.items q (row_in vote_cmp (rows_of old.now.votes) q)) }
    ensures roles { IfOk result (λ new. (u : ℕ) → row_in nat_cmp (rows_of (unwrap_or new.roles old.now.roles)) u ≡ changed nat_cmp roles.items u (row_in nat_cmp (rows_of old.now.roles) u)) }
    ensures attention { IfOk result (λ new. (u : ℕ) → row_in nat_cmp (rows_of (unwrap_or new.attention old.now.attention)) u ≡ changed nat_cmp attention.items u (row_in nat_cmp (rows_of old.now.attention) u)) }
{
    let votes = changed_table(alloc, &old.votes, votes)?;
    let roles = changed_table(alloc, &old.roles, roles)?;
    let attention = changed_table(alloc, &old.attention, attention)?;
    Ok(NewMarks {
        votes,
        roles,
        attention,
    })
}

/// The tables of a change that an edit makes where there was none. An error where there was no memory for them.
pub fn first_tables(alloc: Global, edit: ChangeEdit) -> Result<ChangeTables, AllocError>
    ensures { IfOk result (AreEdited (λ part. None) edit) }
{
    let bare = bare_tables(alloc, &edit)?;
    let new = edited(alloc, &bare, edit)?;
    Ok(renewed(bare, new))
}

// Tables with an edit's header alone.
fn bare_tables(alloc: Global, edit: &ChangeEdit) -> Result<ChangeTables, AllocError>
    ensures header { IfOk result (λ t. t.header ≡ edit.now.header) }
    ensures patches { IfOk result (λ t. rows_of t.patches ≡ []) }
    ensures votes { IfOk result (λ t. rows_of t.votes ≡ []) }
    ensures roles { IfOk result (λ t. rows_of t.roles ≡ []) }
    ensures comments { IfOk result (λ t. rows_of t.comments ≡ []) }
    ensures attention { IfOk result (λ t. rows_of t.attention ≡ []) }
{
    let header = copied_header(&edit.header)?;
    Ok(ChangeTables {
        header,
        patches: Table::new(alloc),
        votes: Table::new(alloc),
        roles: Table::new(alloc),
        comments: Table::new(alloc),
        attention: Table::new(alloc),
    })
}

// The tables of a change with what an edit makes of them.
fn renewed(old: ChangeTables, new: NewTables) -> ChangeTables
    ensures { result ≡ renewed old new }
{
    ChangeTables {
        header: new.header,
        patches: new.patches.unwrap_or(old.patches),
        votes: new.votes.unwrap_or(old.votes),
        roles: new.roles.unwrap_or(old.roles),
        comments: new.comments.unwrap_or(old.comments),
        attention: new.attention.unwrap_or(old.attention),
    }
}

/// Puts what edits make of changes in the place of what they had, which takes no memory. The first of a change decides; one that isn't there stays so.
pub fn renew_all(kept: &mut Table<ChangeNo, ChangeTables>, changes: Vec<(ChangeNo, NewTables)>)
    ensures rows { (n : ℕ) → row_in nat_cmp (rows_of kept.new) n ≡ renewed_at changes.items n (row_in nat_cmp (rows_of kept.old) n) }
    ensures full { HasNoEmptyPlace nat_cmp kept.old → HasNoEmptyPlace nat_cmp kept.new }
{
    let mut left = changes;
    while let Some(change) = left.pop() {
        renew(kept, &left, change.0, change.1);
    }
}

// Does so for a change, unless an earlier edit names it.
fn renew(
    kept: &mut Table<ChangeNo, ChangeTables>,
    earlier: &[(ChangeNo, NewTables)],
    number: ChangeNo,
    tables: NewTables,
)
    ensures rows { (n : ℕ) → renewed_at earlier.now n (row_in nat_cmp (rows_of kept.new) n) ≡ renewed_at (earlier.now ++ (number, tables) ∷ []) n (row_in nat_cmp (rows_of kept.old) n) }
    ensures full { HasNoEmptyPlace nat_cmp kept.old → HasNoEmptyPlace nat_cmp kept.new }
{
    if is_edited(earlier, number) {
        return;
    }
    kept.once();
    match kept.take(number) {
        Some(old) => kept.restore(number, renewed(old, tables)),
        None => kept.release_one(&number),
    }
}

// Whether one of these names a change.
fn is_edited(changes: &[(ChangeNo, NewTables)], number: ChangeNo) -> bool
    ensures { result ≡ is_some (row_in nat_cmp changes.now number) }
{
    for (edited, _) in changes {
        if edited.get() == number.get() {
            return true;
        }
    }
    false
}

// A table once more, with changes made, where there is one to make. An error where there was no memory for it.
fn changed_table<K: Key, V: Copied>(
    alloc: Global,
    old: &Table<K, V>,
    changes: Vec<RowEdit<K, V>>,
) -> Result<Option<Table<K, V>>, AllocError>
    ensures { IfOk result (λ t. (q : K) → row_in K.cmp (rows_of (unwrap_or t old.now)) q ≡ changed K.cmp changes.items q (row_in K.cmp (rows_of old.now) q)) }
{
    if changes.is_empty() {
        return Ok(None);
    }
    let mut table = copied_table(alloc, old)?;
    change_all(&mut table, changes)?;
    Ok(Some(table))
}

// Makes all changes, the last first, so that the first of a key stands.
fn change_all<K: Key, V: Drop>(
    table: &mut Table<K, V>,
    changes: Vec<RowEdit<K, V>>,
) -> Result<(), AllocError>
    ensures { OnOk result ((q : K) → row_in K.cmp (rows_of table.new) q ≡ changed K.cmp changes.items q (row_in K.cmp (rows_of table.old) q)) }
{
    let mut left = changes;
    while let Some(change) = left.pop() {
        change_one(table, change)?;
    }
    Ok(())
}

fn change_one<K: Key, V: Drop>(
    table: &mut Table<K, V>,
    change: RowEdit<K, V>,
) -> Result<(), AllocError>
    ensures { OnOk result ((q : K) → row_in K.cmp (rows_of table.new) q ≡ (if is_at (K.cmp change.key) q then change.row else row_in K.cmp (rows_of table.old) q)) }
{
    let RowEdit { key, row } = change;
    match row {
        Some(row) => table.put(key, row),
        None => {
            table.remove(&key);
            Ok(())
        }
    }
}

/// Edits once more. An error where there was no memory for them.
pub fn copied_changes<K: Key, V: Copied>(
    alloc: Global,
    changes: &[RowEdit<K, V>],
) -> Result<Vec<RowEdit<K, V>>, AllocError>
    ensures { IfOk result (λ copies. copies.items ≡ changes.now) }
{
    let mut copies = Vec::with_capacity(alloc, changes.len())?;
    for change in changes {
        copies.push(copied_one(alloc, change)?)?;
    }
    Ok(copies)
}

fn copied_one<K: Key, V: Copied>(
    alloc: Global,
    change: &RowEdit<K, V>,
) -> Result<RowEdit<K, V>, AllocError>
    ensures { IfOk result (λ copy. copy ≡ change.now) }
{
    let row = match &change.row {
        Some(row) => Some(row.copied(alloc)?),
        None => None,
    };
    Ok(RowEdit {
        key: change.key.copy()?,
        row,
    })
}
