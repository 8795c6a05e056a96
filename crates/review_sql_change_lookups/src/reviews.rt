//! What is looked up of changes.
ghost use Rattle.std.specs.Prelude.{◌≡◌, ℕ, [], Some, true, false, IfOk, IfErr};
ghost use Rattle.{sqlite.specs.Held.state, sqlite_trees.specs.Tree.Trees, review_table.specs.Rows.rows_of};
ghost use Rattle.review_sql_tables.specs.{Ran.Looks, Search.HasGreatest};
ghost use Rattle.review_sql_records.specs.Forms.{is_small, where_is};
ghost use Rattle.review_sql_change_records.specs.Forms.{change_numbers};
ghost use Rattle.review_sql_lookups.specs.Loads.{Sees, last_of};
ghost use Rattle.review_sql_change_lookups.specs.Reviews.{AreFoundRows, AreFoundSets, AreFoundTalk, HasRow, HaveSome, HaveTables, IsWhyNone, IsFresh, number_after};
ghost use Rattle.review_machine_rows.specs.declared.rows.Want.TheVariants as want;

use review_core_rules::{AttentionEntry, Comment, Header, PatchRow, Vote, VoteKey};
use review_machine_change_rows::{ChangeFault, ChangeTables, change_rows};
use review_machine_rows::Found;
use review_sql_change_records::attention::AttentionEntries;
use review_sql_change_records::comments::Comments;
use review_sql_change_records::headers::{Headers, LastChange};
use review_sql_change_records::patches::Patches;
use review_sql_change_records::roles::Roles;
use review_sql_change_records::votes::Votes;
use review_sql_lookups::Sight;
use review_sql_lookups::plain::{last, whole};
use review_sql_tables::fronts::find_parts;
use review_sql_tables::greatest::find_greatest;
use review_sql_tables::reads::find;
use review_table::{Key, Table};
use review_words::{AccountNo, ChangeNo, CommentNo, PatchNo, Role};
use sqlite::{Alter, Error, Transaction};
use std::alloc::Global;

/// What was sent of a change, and the votes on it, table by table: none for a table where a row is odd, or two have one key.
#[derive(Drop)]
pub struct FoundSets {
    pub header: Option<Option<Header>>,
    pub patches: Option<Table<PatchNo, PatchRow>>,
    pub votes: Option<Table<VoteKey, Vote>>,
}

/// Who has a role in a change, what was said, and who is called, in the same way.
#[derive(Drop)]
pub struct FoundTalk {
    pub roles: Option<Table<AccountNo, Role>>,
    pub comments: Option<Table<CommentNo, Comment>>,
    pub attention: Option<Table<AccountNo, AttentionEntry>>,
}

/// The rows of a change.
#[derive(Drop)]
pub struct FoundRows {
    pub sets: FoundSets,
    pub talk: FoundTalk,
}

fn find_sets<S: Alter>(
    tx: &mut Transaction<'_, S>,
    alloc: Global,
    number: ChangeNo,
) -> Result<FoundSets, Error>
    ensures same_reference { tx.new.conn.ghost_name ≡ tx.old.conn.ghost_name }
    ensures looks { Looks (AreFoundSets number) (state S.Store tx.old.conn.now) (state S.Store tx.new.conn.now) result }
{
    let header = find::<Headers, S>(tx, alloc, &number)?;
    let patches = find_parts::<Patches, S>(tx, alloc, &number)?;
    let votes = find_parts::<Votes, S>(tx, alloc, &number)?;
    Ok(FoundSets {
        header,
        patches,
        votes,
    })
}

fn find_talk<S: Alter>(
    tx: &mut Transaction<'_, S>,
    alloc: Global,
    number: ChangeNo,
) -> Result<FoundTalk, Error>
    ensures same_reference { tx.new.conn.ghost_name ≡ tx.old.conn.ghost_name }
    ensures looks { Looks (AreFoundTalk number) (state S.Store tx.old.conn.now) (state S.Store tx.new.conn.now) result }
{
    let roles = find_parts::<Roles, S>(tx, alloc, &number)?;
    let comments = find_parts::<Comments, S>(tx, alloc, &number)?;
    let attention = find_parts::<AttentionEntries, S>(tx, alloc, &number)?;
    Ok(FoundTalk {
        roles,
        comments,
        attention,
    })
}

fn is_empty<K: Key, V: Drop>(table: &Table<K, V>) -> bool
    ensures none { result ≡ true → rows_of table.now ≡ [] }
    ensures some { result ≡ false → HasRow K.cmp (rows_of table.now) }
{
    table.last_key().is_none()
}

// Whether a change has no patch set, no vote, no role, no comment, and nobody in its attention set.
fn are_empty(
    patches: &Table<PatchNo, PatchRow>,
    votes: &Table<VoteKey, Vote>,
    roles: &Table<AccountNo, Role>,
    comments: &Table<CommentNo, Comment>,
    attention: &Table<AccountNo, AttentionEntry>,
) -> bool
    ensures patches { result ≡ true → rows_of patches.now ≡ [] }
    ensures votes { result ≡ true → rows_of votes.now ≡ [] }
    ensures roles { result ≡ true → rows_of roles.now ≡ [] }
    ensures comments { result ≡ true → rows_of comments.now ≡ [] }
    ensures attention { result ≡ true → rows_of attention.now ≡ [] }
    ensures some { result ≡ false → HaveSome (rows_of patches.now) (rows_of votes.now) (rows_of roles.now) (rows_of comments.now) (rows_of attention.now) }
{
    if !is_empty(patches) {
        return false;
    }
    if !is_empty(votes) {
        return false;
    }
    if !is_empty(roles) {
        return false;
    }
    if !is_empty(comments) {
        return false;
    }
    is_empty(attention)
}

// The tables of a change, or that it has no row.
fn tables_of(found: FoundRows) -> Result<Option<ChangeTables>, Sight>
    ensures ok { IfOk result (λ t. (n : ℕ) (db : Trees) → AreFoundRows n db found → HaveTables n db t) }
    ensures err { IfErr result (λ s. (n : ℕ) (db : Trees) → AreFoundRows n db found → IsWhyNone n db s) }
{
    let FoundRows { sets, talk } = found;
    let FoundSets {
        header,
        patches,
        votes,
    } = sets;
    let FoundTalk {
        roles,
        comments,
        attention,
    } = talk;
    let sets = patches.zip(votes);
    let talk = roles.zip(comments).zip(attention);
    let Some(all) = sets.zip(talk) else {
        drop(header);
        return Err(Sight::Damaged);
    };
    let ((patches, votes), ((roles, comments), attention)) = all;
    match whole(header) {
        Ok(Some(header)) => Ok(Some(ChangeTables {
            header,
            patches,
            votes,
            roles,
            comments,
            attention,
        })),
        Ok(None) => {
            if are_empty(&patches, &votes, &roles, &comments, &attention) {
                Ok(None)
            } else {
                Err(Sight::Damaged)
            }
        }
        Err(sight) => Err(sight),
    }
}

fn tell_change(alloc: Global, found: FoundRows) -> Sight
    ensures { (number : ℕ) (db : Trees) → AreFoundRows number db found → Sees (want.Change number) db result }
{
    match tables_of(found) {
        Ok(Some(tables)) => match change_rows(alloc, tables) {
            Ok(change) => Sight::Found(Found::AChange(Some(change))),
            Err(ChangeFault::Memory) => Sight::NoMemory,
            Err(ChangeFault::Gap) => Sight::Damaged,
        },
        Ok(None) => Sight::Found(Found::AChange(None)),
        Err(sight) => sight,
    }
}

/// A change with all its rows.
pub fn find_change<S: Alter>(
    tx: &mut Transaction<'_, S>,
    alloc: Global,
    number: ChangeNo,
) -> Result<Sight, Error>
    ensures same_reference { tx.new.conn.ghost_name ≡ tx.old.conn.ghost_name }
    ensures looks { Looks (Sees (want.Change number)) (state S.Store tx.old.conn.now) (state S.Store tx.new.conn.now) result }
{
    let sets = find_sets(tx, alloc, number)?;
    let talk = find_talk(tx, alloc, number)?;
    Ok(tell_change(alloc, FoundRows { sets, talk }))
}

fn tell_last_change(found: Option<Option<u64>>) -> Sight
    ensures { (db : Trees) → HasGreatest change_numbers 0 tt db found → Sees want.LastChange db result }
{
    match last(found) {
        Some(number) => Sight::Found(Found::Number(u64::from(number))),
        None => Sight::Damaged,
    }
}

// The number of the next change, where one may come.
fn next_change(found: Option<Option<u64>>) -> Option<ChangeNo>
    ensures { result ≡ number_after (where_is is_small (last_of found)) }
{
    let number = last(found)?;
    ChangeNo::from_number(u64::from(number) + 1)
}

// The greatest number of a change, where this was seen of the one after it.
fn last_beside(looked: &Sight, found: Option<Option<u64>>) -> Sight
    ensures told { (number : ℕ) (db : Trees) → HasGreatest change_numbers 0 tt db found → Sees (want.Change number) db looked.now → Sees want.LastChange db result }
    ensures fresh { (number : ℕ) (db : Trees) → HasGreatest change_numbers 0 tt db found → number_after (where_is is_small (last_of found)) ≡ Some number → Sees (want.Change number) db looked.now → IsFresh db result }
{
    match looked {
        Sight::Found(_) => tell_last_change(found),
        Sight::NoMemory => Sight::NoMemory,
        Sight::Damaged => Sight::Damaged,
    }
}

/// The greatest number of a change. Rows that stayed of a change after it, whose header is gone, are damage: else the next change would get them.
pub fn find_last_change<S: Alter>(
    tx: &mut Transaction<'_, S>,
    alloc: Global,
) -> Result<Sight, Error>
    ensures same_reference { tx.new.conn.ghost_name ≡ tx.old.conn.ghost_name }
    ensures looks { Looks (Sees want.LastChange) (state S.Store tx.old.conn.now) (state S.Store tx.new.conn.now) result }
    ensures fresh { Looks IsFresh (state S.Store tx.old.conn.now) (state S.Store tx.new.conn.now) result }
{
    let found = find_greatest::<LastChange, S>(tx, alloc, &())?;
    let Some(next) = next_change(found) else {
        return Ok(tell_last_change(found));
    };
    let looked = find_change(tx, alloc, next)?;
    Ok(last_beside(&looked, found))
}
