//! Changes and patch sets that are copied.
ghost use Rattle.std.specs.{List.Sorted.IsStrictlySortedBy, Map.keys_of, Ordering.nat_cmp};
ghost use Rattle.std.specs.Prelude.{◌≡◌, ◌++◌, ◌∷◌, [], ℕ, IfOk, OnOk};
ghost use Rattle.review_table.specs.Rows.{row_in, rows_of};
ghost use Rattle.review_core_rules.specs.{Seen.vote_cmp, declared.rows.VoteKey.VoteKey};

use crate::rows::Copied;
use review_core_rules::{AttentionEntry, Comment, Header, PatchRow, Vote, VoteKey};
use review_table::{BadRows, Key, Table};
use review_words::{AccountNo, NewChange, NewPatch, Role};
use std::alloc::{AllocError, Global};

/// A new change once more. An error where there was no memory for it.
pub fn copied_new(alloc: Global, new: &NewChange) -> Result<NewChange, AllocError>
    ensures { IfOk result (λ n. n ≡ new.now) }
{
    Ok(NewChange {
        project: new.project.copy()?,
        branch: new.branch.copy()?,
        subject: new.subject.copy()?,
        commit: new.commit.copy()?,
        parent: new.parent.copy()?,
        paths: new.paths.copy(alloc)?,
        wip: new.wip,
    })
}

/// A new patch set once more. An error where there was no memory for it.
pub fn copied_patch(alloc: Global, patch: &NewPatch) -> Result<NewPatch, AllocError>
    ensures { IfOk result (λ p. p ≡ patch.now) }
{
    Ok(NewPatch {
        commit: patch.commit.copy()?,
        parent: patch.parent.copy()?,
        kind: patch.kind,
        paths: patch.paths.copy(alloc)?,
    })
}

/// The rows of a change that are kept by accounts: its votes, roles and attention set.
#[derive(Drop)]
pub struct Marks {
    pub votes: Table<VoteKey, Vote>,
    pub roles: Table<AccountNo, Role>,
    pub attention: Table<AccountNo, AttentionEntry>,
}

/// The votes, roles and attention set of a change once more. An error where there was no memory for them.
pub fn copied_marks(
    alloc: Global,
    votes: &Table<VoteKey, Vote>,
    roles: &Table<AccountNo, Role>,
    attention: &Table<AccountNo, AttentionEntry>,
) -> Result<Marks, AllocError>
    ensures votes { IfOk result (λ m. (q : VoteKey) → row_in vote_cmp (rows_of m.votes) q ≡ row_in vote_cmp (rows_of votes.now) q) }
    ensures roles { IfOk result (λ m. (u : ℕ) → row_in nat_cmp (rows_of m.roles) u ≡ row_in nat_cmp (rows_of roles.now) u) }
    ensures attention { IfOk result (λ m. (u : ℕ) → row_in nat_cmp (rows_of m.attention) u ≡ row_in nat_cmp (rows_of attention.now) u) }
{
    let votes = copied_table(alloc, votes)?;
    let roles = copied_table(alloc, roles)?;
    let attention = copied_table(alloc, attention)?;
    Ok(Marks {
        votes,
        roles,
        attention,
    })
}

/// A header once more. An error where there was no memory for it.
pub fn copied_header(header: &Header) -> Result<Header, AllocError>
    ensures { IfOk result (λ h. h ≡ header.now) }
{
    Ok(Header {
        project: header.project.copy()?,
        branch: header.branch.copy()?,
        subject: header.subject.copy()?,
        owner: header.owner,
        state: header.state,
        wip: header.wip,
        place: header.place,
        updated: header.updated,
    })
}

impl Copied for PatchRow {
    fn copied(&self, alloc: Global) -> Result<PatchRow, AllocError> {
        Ok(PatchRow {
            commit: self.commit.copy()?,
            parent: self.parent.copy()?,
            kind: self.kind,
            uploader: self.uploader,
            paths: self.paths.copy(alloc)?,
        })
    }
}

impl Copied for Comment {
    fn copied(&self, alloc: Global) -> Result<Comment, AllocError> {
        self.copy()
    }
}

/// A table once more: at each key it has the same row. An error where there was no memory for it.
pub fn copied_table<K: Key, V: Copied>(
    alloc: Global,
    table: &Table<K, V>,
) -> Result<Table<K, V>, AllocError>
    ensures { IfOk result (λ t. (q : K) → row_in K.cmp (rows_of t) q ≡ row_in K.cmp (rows_of table.now) q) }
{
    if table.last_key().is_none() {
        return Ok(Table::new(alloc));
    }
    let copies = copied_rows(alloc, table)?;
    match Table::from_vec(alloc, copies) {
        Ok(copy) => Ok(copy),
        Err(BadRows::Memory) => Err(AllocError),
        Err(BadRows::Double) => unreachable!(),
    }
}

// The rows of a table once more, in the order of their keys.
fn copied_rows<K: Key, V: Copied>(
    alloc: Global,
    table: &Table<K, V>,
) -> Result<Vec<(K, V)>, AllocError>
    ensures rows { IfOk result (λ rows. rows.items ≡ rows_of table.now) }
    ensures sorted { IsStrictlySortedBy K.cmp (keys_of (rows_of table.now)) }
{
    let rows = table.rows(alloc)?;
    let mut copies = Vec::with_capacity(alloc, rows.len())?;
    for (key, row) in rows {
        push_copy(alloc, &mut copies, key, row)?;
    }
    Ok(copies)
}

fn push_copy<K: Key, V: Copied>(
    alloc: Global,
    copies: &mut Vec<(K, V)>,
    key: &K,
    row: &V,
) -> Result<(), AllocError>
    ensures { OnOk result (copies.new.items ≡ copies.old.items ++ (key.now, row.now) ∷ []) }
{
    let key = key.copy()?;
    let row = row.copied(alloc)?;
    copies.push((key, row))?;
    Ok(())
}
