//! The change that sent a commit is looked up, and what a commit is to a branch.
ghost use Rattle.std.specs.Bool.{Decides};
ghost use Rattle.std.specs.Prelude.{◌≡◌, ℕ, Bool, true, false, Some, None, IfOk, MatchBool};
ghost use Rattle.{sqlite.specs.Held.state, sqlite_trees.specs.Tree.Trees};
ghost use Rattle.review_sql_tables.specs.{Ran.Looks, Search.HasGreatest, Search.row_at};
ghost use Rattle.review_machine_rows.specs.Known.{IsBaseOrNot, StandsAs};
ghost use Rattle.review_machine_rows.specs.declared.rows.{Base.Base, BranchKey.BranchKey};
ghost use Rattle.review_sql_change_records.specs.Forms.{headers, patch_numbers, patches};
ghost use Rattle.review_sql_lookups.specs.{Loads.IfTold, Loads.Sees, Tables.tables_at};
ghost use Rattle.review_sql_change_lookups.specs.Joins.{Examines, HasSent, IsFoundSent, IsLastSet, IsOutside, IsSentWith, TellsIf, is_sent_with};
ghost use Rattle.review_machine_rows.specs.declared.rows.Want.TheVariants as want;

use crate::bases::is_base;
use review_chain::Standing;
use review_core_rules::{Header, PatchRow};
use review_machine_rows::{Base, BranchKey, Found};
use review_sql_change_records::branches::ChangeBranches;
use review_sql_change_records::headers::Headers;
use review_sql_change_records::patches::{LastPatch, PatchSets};
use review_sql_change_records::sent::Sent;
use review_sql_lookups::Sight;
use review_sql_tables::greatest::find_greatest;
use review_sql_tables::reads::{find, find_all};
use review_words::{BranchName, ChangeNo, PatchNo, ProjectName, State};
use sqlite::{Alter, Error, Transaction};
use std::alloc::Global;

// Whether these are the project and the branch.
fn is_for(base: &Base, project: &ProjectName, branch: &BranchName) -> bool
    ensures { Decides result ((project.now ≡ base.now.project) × (branch.now ≡ base.now.branch)) }
{
    project.as_str() == base.project.as_str() && branch.as_str() == base.branch.as_str()
}

// Whether a change with the header is for the branch, and its patch set has the commit.
fn is_sent(base: &Base, header: &Header, patch: &PatchRow) -> bool
    ensures { result ≡ is_sent_with base.now header.now patch.now }
{
    header.project.as_str() == base.project.as_str()
        && header.branch.as_str() == base.branch.as_str()
        && patch.commit.as_str() == base.commit.as_str()
}

// The same; where a merged change is looked for, it is merged as well.
fn is_sent_as(base: &Base, merged: bool, header: &Header, patch: &PatchRow) -> bool
    ensures { MatchBool result (IsSentWith merged base.now header.now patch.now) (IsSentWith merged base.now header.now patch.now → ⊥) }
{
    if !is_sent(base, header, patch) {
        return false;
    }
    if !merged {
        return true;
    }
    match header.state {
        State::Merged => true,
        State::New | State::Abandoned => false,
    }
}

// Whether a change whose patch set is odd has sent a commit by it: not where it is for another branch, and none else, since such a patch set
// is one of no history.
fn odd_patch(base: &Base, header: &Header) -> Option<bool>
    ensures { (merged : Bool) (n p : ℕ) (db : Trees) → row_at headers db n ≡ Some (Some header.now) → row_at patches db (n, p) ≡ Some None → TellsIf db (HasSent merged base.now (n, p) db) result }
{
    if is_for(base, &header.project, &header.branch) {
        None
    } else {
        Some(false)
    }
}

// Whether a change for the branch has sent the commit by its patch set of a number; none where one of the two rows is odd, as in no history,
// unless the header tells that the change is for another branch.
fn sent_by(
    base: &Base,
    merged: bool,
    header: Option<Option<Header>>,
    patch: Option<Option<PatchRow>>,
) -> Option<bool>
    ensures { (n p : ℕ) (db : Trees) → header ≡ row_at headers db n → patch ≡ row_at patches db (n, p) → TellsIf db (HasSent merged base.now (n, p) db) result }
{
    let Some(header) = header else {
        return Some(false);
    };
    let Some(patch) = patch else {
        return Some(false);
    };
    let Some(header) = header else {
        return None;
    };
    let Some(patch) = patch else {
        return odd_patch(base, &header);
    };
    Some(is_sent_as(base, merged, &header, &patch))
}

fn is_odd(header: &Option<Option<Header>>) -> bool
    ensures { Decides result (header.now ≡ Some None) }
{
    matches!(header, Some(None))
}

// Whether a change whose header is odd has sent a commit: not where it is for another branch, and none else, since such a header is one of
// no history.
fn odd_sender(base: &Base, branch: Option<Option<BranchKey>>) -> Option<bool>
    ensures tells { (merged : Bool) (n p : ℕ) (db : Trees) → row_at headers db n ≡ Some None → TellsIf db (HasSent merged base.now (n, p) db) result }
    ensures elsewhere { result ≡ Some false → (other : BranchKey) × (branch ≡ Some (Some other)) × ((other.project ≡ base.now.project) × (other.branch ≡ base.now.branch) → ⊥) }
{
    let is_elsewhere = match branch {
        Some(Some(branch)) => !is_for(base, &branch.project, &branch.branch),
        Some(None) | None => false,
    };
    if is_elsewhere { Some(false) } else { None }
}

fn find_sender<S: Alter>(
    tx: &mut Transaction<'_, S>,
    alloc: Global,
    base: &Base,
    merged: bool,
    change: ChangeNo,
    patch: PatchNo,
) -> Result<Option<bool>, Error>
    ensures same_reference { tx.new.conn.ghost_name ≡ tx.old.conn.ghost_name }
    ensures looks { Looks (λ db is. TellsIf db (HasSent merged base.now (change, patch) db) is) (state S.Store tx.old.conn.now) (state S.Store tx.new.conn.now) result }
{
    let header = find::<Headers, S>(tx, alloc, &change)?;
    if is_odd(&header) {
        let branch = find::<ChangeBranches, S>(tx, alloc, &change)?;
        return Ok(odd_sender(base, branch));
    }
    let row = find::<PatchSets, S>(tx, alloc, &(change, patch))?;
    Ok(sent_by(base, merged, header, row))
}

// Whether no patch set has a greater number; none where the greatest is odd, as in no history.
fn is_last(patch: PatchNo, found: Option<Option<PatchNo>>) -> Option<bool>
    ensures { (n : ℕ) (db : Trees) → HasGreatest patch_numbers 2 n db found → TellsIf db (IsLastSet (n, patch) db) result }
{
    match found {
        Some(Some(last)) => Some(last.get() <= patch.get()),
        Some(None) => None,
        None => Some(true),
    }
}

fn find_is_last<S: Alter>(
    tx: &mut Transaction<'_, S>,
    alloc: Global,
    change: ChangeNo,
    patch: PatchNo,
) -> Result<Option<bool>, Error>
    ensures same_reference { tx.new.conn.ghost_name ≡ tx.old.conn.ghost_name }
    ensures looks { Looks (λ db is. TellsIf db (IsLastSet (change, patch) db) is) (state S.Store tx.old.conn.now) (state S.Store tx.new.conn.now) result }
{
    let found = find_greatest::<LastPatch, S>(tx, alloc, &change)?;
    Ok(is_last(patch, found))
}

// Whether a change has sent the commit so by its patch set of a number, which is looked up with its header. Only of a merged change the
// greatest number of a patch set is looked up too.
fn examine<S: Alter>(
    tx: &mut Transaction<'_, S>,
    alloc: Global,
    base: &Base,
    merged: bool,
    change: ChangeNo,
    patch: PatchNo,
) -> Result<Option<bool>, Error>
    ensures same_reference { tx.new.conn.ghost_name ≡ tx.old.conn.ghost_name }
    ensures looks { Looks (Examines merged base.now (change, patch)) (state S.Store tx.old.conn.now) (state S.Store tx.new.conn.now) result }
{
    let sent = find_sender(tx, alloc, base, merged, change, patch)?;
    match sent {
        Some(true) => {}
        Some(false) => return Ok(Some(false)),
        None => return Ok(None),
    }
    if !merged {
        return Ok(Some(true));
    }
    find_is_last(tx, alloc, change, patch)
}

// The change for a branch that has a patch set of a commit, with the number of that; where it is to be merged, as its current one. The
// patch sets of the commit are looked up first, and then the change of each.
fn find_sent<S: Alter>(
    tx: &mut Transaction<'_, S>,
    alloc: Global,
    base: &Base,
    merged: bool,
) -> Result<Option<Option<(ChangeNo, PatchNo)>>, Error>
    ensures same_reference { tx.new.conn.ghost_name ≡ tx.old.conn.ghost_name }
    ensures looks { Looks (λ db found. IfTold db (IsFoundSent merged base.now db) found) (state S.Store tx.old.conn.now) (state S.Store tx.new.conn.now) result }
{
    let found = find_all::<Sent, S>(tx, alloc, &base.commit)?;
    let Some(sent) = found else {
        return Ok(None);
    };
    for one in &sent {
        let is = examine(tx, alloc, base, merged, one.0, one.1)?;
        match is {
            Some(true) => return Ok(Some(Some((one.0, one.1)))),
            Some(false) => {}
            None => return Ok(None),
        }
    }
    Ok(Some(None))
}

fn tell_sender(found: Option<Option<(ChangeNo, PatchNo)>>) -> Sight
    ensures { (base : Base) (db : Trees) → IfTold db (IsFoundSent false base db) found → Sees (want.ChangeOf base) db result }
{
    match found {
        Some(Some(sent)) => Sight::Found(Found::Sender(Some(sent.0))),
        Some(None) => Sight::Found(Found::Sender(None)),
        None => Sight::Damaged,
    }
}

/// The change for a branch that has a patch set of a commit.
pub fn find_change_of<S: Alter>(
    tx: &mut Transaction<'_, S>,
    alloc: Global,
    base: &Base,
) -> Result<Sight, Error>
    ensures same_reference { tx.new.conn.ghost_name ≡ tx.old.conn.ghost_name }
    ensures looks { Looks (Sees (want.ChangeOf base.now)) (state S.Store tx.old.conn.now) (state S.Store tx.new.conn.now) result }
{
    let found = find_sent(tx, alloc, base, false)?;
    Ok(tell_sender(found))
}

fn tell_standing(standing: Standing) -> Sight
    ensures { (base : Base) (db : Trees) → StandsAs (tables_at db).row base standing → Sees (want.Standing base) db result }
{
    Sight::Found(Found::Stands(standing))
}

// What a commit outside of a branch is to it.
fn standing_outside(sent: Option<(ChangeNo, PatchNo)>) -> Standing
    ensures { (base : Base) (db : Trees) → IsOutside base db → IsFoundSent false base db sent → StandsAs (tables_at db).row base result }
{
    match sent {
        Some(sent) => Standing::PatchSet {
            change: sent.0,
            patch: sent.1,
        },
        None => Standing::Nowhere,
    }
}

// What a commit is to a branch that has not got it: that of a patch set, or nothing.
fn find_outside<S: Alter>(
    tx: &mut Transaction<'_, S>,
    alloc: Global,
    base: &Base,
) -> Result<Sight, Error>
    ensures same_reference { tx.new.conn.ghost_name ≡ tx.old.conn.ghost_name }
    ensures looks { Looks (λ db s. IsOutside base.now db → Sees (want.Standing base.now) db s) (state S.Store tx.old.conn.now) (state S.Store tx.new.conn.now) result }
{
    let found = find_sent(tx, alloc, base, false)?;
    let Some(sent) = found else {
        return Ok(Sight::Damaged);
    };
    Ok(tell_standing(standing_outside(sent)))
}

// What a commit that is no base is to a branch: in it as the current commit of a merged change, or outside.
fn find_merged<S: Alter>(
    tx: &mut Transaction<'_, S>,
    alloc: Global,
    base: &Base,
) -> Result<Sight, Error>
    ensures same_reference { tx.new.conn.ghost_name ≡ tx.old.conn.ghost_name }
    ensures looks { Looks (λ db s. IsBaseOrNot (tables_at db).row base.now false → Sees (want.Standing base.now) db s) (state S.Store tx.old.conn.now) (state S.Store tx.new.conn.now) result }
{
    let found = find_sent(tx, alloc, base, true)?;
    let Some(merged) = found else {
        return Ok(Sight::Damaged);
    };
    if merged.is_some() {
        return Ok(tell_standing(Standing::InBranch));
    }
    find_outside(tx, alloc, base)
}

/// What a commit is to a branch: whether it is a base is looked up, where it isn't whether it is the current commit of a merged change, and
/// else who sent it.
pub fn find_standing<S: Alter>(
    tx: &mut Transaction<'_, S>,
    alloc: Global,
    base: &Base,
) -> Result<Sight, Error>
    ensures same_reference { tx.new.conn.ghost_name ≡ tx.old.conn.ghost_name }
    ensures looks { Looks (Sees (want.Standing base.now)) (state S.Store tx.old.conn.now) (state S.Store tx.new.conn.now) result }
{
    let found = is_base(tx, alloc, base)?;
    let Some(is) = found else {
        return Ok(Sight::Damaged);
    };
    if is {
        return Ok(tell_standing(Standing::InBranch));
    }
    find_merged(tx, alloc, base)
}
