//! The facts of a change.
ghost use Rattle.std.specs.{BTreeMap.get, Cmp.Lexicographic.slice_cmp};
ghost use Rattle.std.specs.List.{find, filter, Sorted.IsStrictlySortedBy};
ghost use Rattle.std.specs.{Map.keys_of, Map.Iter.deref_pair, Option.option_or, Ordering.nat_cmp};
ghost use Rattle.std.specs.Prelude.{◌≡◌, ◌==◌, ℕ, List, Some, None, [], true, false, map, option_map, if◌then◌else◌, IfOk, OnOk};
ghost use Rattle.{std.specs.Str.bytes_eq, review_names.specs.Groups.GroupList, review_table.specs.Rows.row_in};
ghost use Rattle.review_core_rules.specs.Change.{last_paths, last_uploader, range_of};
ghost use Rattle.review_core_rules.specs.{Facts.AreFacts, Seen.seen, Seen.vote_cmp};
ghost use Rattle.review_core_tables.specs.{Tables.put_in, inner.Words.is_vote};
ghost use Rattle.review_core_standing.specs.inner.Made.{AreOrdered, AreVotesOf, is_voted, on_label, vote_at};

use crate::has_unresolved;
use review_core_rules::{ChangeRows, PatchRow, Vote, VoteKey};
use review_expr_judging::{ChangeFacts, ValueRange};
use review_file::{Label, ProjectFile};
use review_names::{Groups, Paths};
use review_table::Table;
use review_words::{AccountNo, LabelName};
use std::alloc::{AllocError, Global};
use std::collections::BTreeMap;

/// The votes on a patch set, by label and account.
type Votes = BTreeMap<LabelName, BTreeMap<AccountNo, i8>>;

/// Takes the votes on a label out.
fn taken(alloc: Global, votes: &mut Votes, label: &LabelName) -> BTreeMap<AccountNo, i8>
    ensures on { result.entries ≡ on_label votes.old label.now }
    ensures others { (l : List ℕ) → bytes_eq label.now l ≡ false → get (slice_cmp nat_cmp) votes.new l ≡ get (slice_cmp nat_cmp) votes.old l }
{
    match votes.remove(label) {
        Some(on) => on,
        None => BTreeMap::new(alloc),
    }
}

/// Puts a vote on a label.
fn put_on(
    on: BTreeMap<AccountNo, i8>,
    account: AccountNo,
    value: i8,
) -> Result<BTreeMap<AccountNo, i8>, AllocError>
    ensures vote { IfOk result (λ m. (a : ℕ) → row_in nat_cmp m.entries a ≡ (if account == a then Some value else row_in nat_cmp on.entries a)) }
    ensures ordered { IfOk result (λ m. IsStrictlySortedBy nat_cmp (keys_of m.entries)) }
{
    let mut on = on;
    on.insert(account, value)?;
    let _ = on.len();
    Ok(on)
}

/// Puts a vote.
fn add_vote(
    alloc: Global,
    votes: &mut Votes,
    label: LabelName,
    account: AccountNo,
    value: i8,
) -> Result<(), AllocError>
    ensures vote { OnOk result ((l : List ℕ) (a : ℕ) → vote_at votes.new l a ≡ (if bytes_eq label l then (if account == a then Some value else vote_at votes.old l a) else vote_at votes.old l a)) }
    ensures ordered { AreOrdered votes.old → OnOk result (AreOrdered votes.new) }
{
    let on = taken(alloc, votes, &label);
    let on = put_on(on, account, value)?;
    votes.insert(label, on)?;
    Ok(())
}

/// Puts a vote where it is on the current patch set.
fn put_vote(
    alloc: Global,
    votes: &mut Votes,
    current: usize,
    key: &VoteKey,
    vote: Vote,
) -> Result<(), AllocError>
    ensures vote { OnOk result ((l : List ℕ) (a : ℕ) → vote_at votes.new l a ≡ (if is_vote key.now current l a then Some vote else vote_at votes.old l a)) }
    ensures ordered { AreOrdered votes.old → OnOk result (AreOrdered votes.new) }
    ensures voted { is_voted (key.now, vote) ≡ true }
{
    let value = vote.get();
    if key.patch.get() as usize != current {
        return Ok(());
    }
    let label = key.label.copy()?;
    add_vote(alloc, votes, label, key.account, value)?;
    Ok(())
}

fn votes_of(alloc: Global, rows: &[(&VoteKey, &Vote)], current: usize) -> Result<Votes, AllocError>
    ensures votes { IfOk result (λ v. (l : List ℕ) (a : ℕ) → vote_at v l a ≡ put_in vote_cmp (filter is_voted (map deref_pair rows.now)) (record { patch = current; label = l; account = a }) None) }
    ensures ordered { IfOk result AreOrdered }
{
    let mut votes = BTreeMap::new(alloc);
    for (key, vote) in rows {
        put_vote(alloc, &mut votes, current, key, **vote)?;
    }
    Ok(votes)
}

/// Puts the range of a label, where none of its name is there.
fn add_range(ranges: &mut BTreeMap<LabelName, ValueRange>, label: &Label) -> Result<(), AllocError>
    ensures { OnOk result ((l : List ℕ) → get (slice_cmp nat_cmp) ranges.new l ≡ option_or (get (slice_cmp nat_cmp) ranges.old l) (if bytes_eq label.now.name l then Some (range_of label.now) else None)) }
{
    if ranges.contains_key(label.name()) {
        return Ok(());
    }
    let name = label.name().copy()?;
    let range = ValueRange {
        least: label.least(),
        greatest: label.greatest(),
    };
    ranges.insert(name, range)?;
    Ok(())
}

fn ranges_of(alloc: Global, labels: &[Label]) -> Result<BTreeMap<LabelName, ValueRange>, AllocError>
    ensures { IfOk result (λ m. (l : List ℕ) → get (slice_cmp nat_cmp) m l ≡ option_map range_of (find (λ x. bytes_eq x.name l) labels.now)) }
{
    let mut ranges = BTreeMap::new(alloc);
    for label in labels {
        add_range(&mut ranges, label)?;
    }
    Ok(ranges)
}

fn no_paths(alloc: Global) -> Result<Paths, AllocError>
    ensures { IfOk result (λ p. p ≡ []) }
{
    match Paths::from_vec(alloc, Vec::new(alloc)) {
        Ok(paths) => Ok(paths),
        Err(_) => Err(AllocError),
    }
}

/// The paths of the last patch set.
fn paths_of(alloc: Global, patches: &[PatchRow]) -> Result<Paths, AllocError>
    ensures { IfOk result (λ p. p ≡ last_paths [] patches.now) }
{
    match patches.last() {
        Some(patch) => Ok(patch.paths.copy(alloc)?),
        None => no_paths(alloc),
    }
}

/// Who sent the last of some patch sets.
pub fn last_uploader(owner: AccountNo, patches: &[PatchRow]) -> AccountNo
    ensures { result ≡ last_uploader owner patches.now }
{
    match patches.last() {
        Some(patch) => patch.uploader,
        None => owner,
    }
}

/// The votes on the current patch set of a change.
fn current_votes(
    alloc: Global,
    votes: &Table<VoteKey, Vote>,
    current: usize,
) -> Result<Votes, AllocError>
    ensures { IfOk result (AreVotesOf current votes.now) }
{
    let rows = votes.rows(alloc)?;
    let votes = votes_of(alloc, &rows, current)?;
    Ok(votes)
}

/// The facts of a change by which the submit requirements of its project's file are judged, whatever groups there are: none are among
/// them here. An error is want of memory.
pub fn facts_of(
    alloc: Global,
    file: &ProjectFile,
    rows: &ChangeRows,
) -> Result<ChangeFacts, AllocError>
    ensures { IfOk result (λ f. (groups : GroupList) → AreFacts (record { file = file.now; groups = groups }) (seen rows.now) (record f { groups = groups })) }
{
    let votes = current_votes(alloc, &rows.votes, rows.patches.len())?;
    let ranges = ranges_of(alloc, file.labels())?;
    let paths = paths_of(alloc, &rows.patches)?;
    let branch = rows.header.branch.copy()?;
    let unresolved = has_unresolved(alloc, &rows.comments)?;
    Ok(ChangeFacts {
        votes,
        ranges,
        paths,
        owner: rows.header.owner,
        uploader: last_uploader(rows.header.owner, &rows.patches),
        branch,
        unresolved,
        groups: Groups(BTreeMap::new(alloc)),
    })
}
