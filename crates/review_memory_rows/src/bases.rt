//! The bases of branches in memory.
ghost use Rattle.std.specs.{BTreeMap.is_at, Cmp.Lexicographic.slice_cmp, Ordering.nat_cmp};
ghost use Rattle.std.specs.Prelude.{◌≡◌, ◌++◌, ◌∷◌, ◌-◌, ◌^◌, ◌<◌, ◌↔◌, ◌&&◌, [], List, Option, ℕ, Some, None, IsTrue, IfOk, IfErr, OnOk, OnErr, not, option_map, if◌then◌else◌};
ghost use Rattle.review_table.specs.Rows.{rows_of, row_in, HasNoEmptyPlace, HavePlaces};
ghost use Rattle.review_machine_rows.specs.{Rows.branch_cmp, Rows.place_cmp, declared.rows.PlaceKey.PlaceKey};
ghost use Rattle.review_memory_rows.specs.Bases.{commit_cmp, base_at, total_in, IsLastPlace, IsPut, commit_at, has_commit, is_stale, AreBases, IsCommitThere, IsUnlisted, PutsBase, HasNoSpare, HasSpareOnly};
ghost use Rattle.review_memory_rows.specs.declared.keys.CommitKey.{CommitKey};

use crate::keys::CommitKey;
use review_machine_change_rows::ChangeFault;
use review_machine_rows::{Base, BranchKey, PlaceKey, Put};
use review_table::{Key, RowEdit, Table};
use review_words::{Bases, CommitName, ProjectName};
use std::alloc::{AllocError, Global};
use std::marker::Model;

/// The bases of branches by their places, with an index by commit, the last place of each branch and the number of each project's
/// bases. A base is put in the time of look-ups by key, however many there are.
#[derive(Drop)]
pub struct Branches {
    bases: Table<PlaceKey, CommitName>,
    commits: Table<CommitKey, ()>,
    lasts: Table<BranchKey, u64>,
    totals: Table<ProjectName, u64>,
}

impl Model for Branches {
    ghost use Rattle.review_table.specs.Rows.{rows_of};
    ghost use Rattle.review_memory_rows.specs.Bases.{BranchesView, AreListed, AreLast, HasNoSpare};

    ghost Value = { BranchesView };

    ghost view = { λ t. record { bases = rows_of t.bases; totals = rows_of t.totals } };

    ghost invariant = { λ t. AreListed (rows_of t.commits) (rows_of t.bases) × AreLast (rows_of t.lasts) (rows_of t.bases) × HasNoSpare t.bases t.commits t.lasts t.totals };
}

impl Branches {
    /// No branches.
    pub fn new(alloc: Global) -> Branches
        ensures { result ≡ record { bases = []; totals = [] } }
    {
        Branches {
            bases: Table::new(alloc),
            commits: Table::new(alloc),
            lasts: Table::new(alloc),
            totals: Table::new(alloc),
        }
    }

    /// The last place of a branch's bases; 0 where it has none.
    pub fn last_place(&self, branch: &BranchKey) -> u64
        ensures { IsLastPlace self.now.bases branch.now.project branch.now.branch result }
    {
        match self.lasts.get(branch) {
            Some(place) => *place,
            None => 0,
        }
    }

    /// The bases of a branch in the order of their places, none where it has none, or that these have a gap.
    pub fn bases_of(&self, alloc: Global, branch: &BranchKey) -> Result<Bases, ChangeFault>
        ensures bases { IfOk result (AreBases self.now.bases branch.now) }
        ensures gap { IfErr result (IsUnlisted self.now.bases branch.now) }
    {
        let mut key = PlaceKey {
            project: branch.project.copy()?,
            branch: branch.branch.copy()?,
            place: 0,
        };
        if self.bases.get(&key).is_some() {
            return Err(ChangeFault::Gap);
        }
        let mut bases = Bases::new(alloc);
        for before in 0..self.last_place(branch) {
            key.place = before + 1;
            match push_base(&self.bases, &mut bases, &key) {
                Ok(()) => {}
                Err(fault) => return Err(fault),
            }
        }
        Ok(bases)
    }

    /// Whether a commit is a base of a branch. An error is want of memory.
    pub fn has(&self, alloc: Global, base: &Base) -> Result<bool, AllocError>
        ensures { IfOk result (IsCommitThere self.now.bases base.now) }
    {
        let from = commit_key(base, 0)?;
        let to = commit_key(base, u64::MAX)?;
        for (key, _) in self.commits.select(alloc, from, to)? {
            if self.stands_at(base, key.place)? {
                return Ok(true);
            }
        }
        Ok(false)
    }

    // Whether a commit stands at a place of its branch.
    fn stands_at(&self, base: &Base, place: u64) -> Result<bool, AllocError>
        ensures { IfOk result (λ is. IsTrue is ↔ (base_at self.now.bases base.now.project base.now.branch place ≡ Some base.now.commit)) }
    {
        let key = PlaceKey {
            project: base.project.copy()?,
            branch: base.branch.copy()?,
            place,
        };
        Ok(is_there(&self.bases, &key, &base.commit))
    }

    /// How many bases a project has, over all its branches.
    pub fn total(&self, project: &ProjectName) -> u64
        ensures { result ≡ total_in self.now.totals project.now }
    {
        match self.totals.get(project) {
            Some(total) => *total,
            None => 0,
        }
    }

    /// Puts a base at its place, in place of one that stands there. Where there is no memory for it that is the error, and nothing changes.
    pub fn put(&mut self, alloc: Global, base: &Put<PlaceKey, CommitName>) -> Result<(), AllocError>
        requires { total_in self.old.totals base.now.key.project < 2 ^ 64 - 1 }
        ensures put { OnOk result (IsPut base.now self.old self.new) }
        ensures same { OnErr result (self.new ≡ self.old) }
    {
        let branch = branch_of(base)?;
        let ended = self.last_place(&branch);
        let before = self.listed_at(base, ended)?;
        let known = before.is_some();
        let last = ended.max(base.key.place);
        let total = self.total(&base.key.project) + u64::from(!known);
        let is_listed = has_commit(&before, &base.row);
        let changes = changes_of(alloc, base, is_listed, branch, last, total)?;
        let begun = begin(
            &mut self.bases,
            &mut self.commits,
            &mut self.lasts,
            &mut self.totals,
            &changes,
            base,
        );
        match begun {
            Ok(()) => {
                drop_stale(&mut self.commits, &before, base);
                drop(before);
                self.lasts.apply(changes.ended);
                self.totals.apply(changes.counted);
                Ok(())
            }
            Err(error) => {
                release(&mut self.lasts, &mut self.totals, &changes);
                drop(changes);
                drop(before);
                Err(error)
            }
        }
    }

    // The key in the index of the base that stands at the place of one, where there is one: none behind the last place of its branch.
    fn listed_at(
        &self,
        base: &Put<PlaceKey, CommitName>,
        last: u64,
    ) -> Result<Option<CommitKey>, AllocError>
        requires { IsLastPlace self.now.bases base.now.key.project base.now.key.branch last }
        ensures { IfOk result (λ key. key ≡ option_map (commit_at base.now.key) (row_in place_cmp self.now.bases base.now.key)) }
    {
        if base.key.place > last {
            return Ok(None);
        }
        let key = base.key.copy()?;
        let commit = match self.bases.get(&key) {
            Some(commit) => commit.copy()?,
            None => return Ok(None),
        };
        Ok(Some(CommitKey {
            commit,
            project: key.project,
            branch: key.branch,
            place: key.place,
        }))
    }
}

// Adds the base at a place to those before it, or tells that none stands there.
fn push_base(
    table: &Table<PlaceKey, CommitName>,
    bases: &mut Bases,
    key: &PlaceKey,
) -> Result<(), ChangeFault>
    ensures added { OnOk result ((commit : List ℕ) × (row_in place_cmp (rows_of table.now) key.now ≡ Some commit) × (bases.new ≡ bases.old ++ commit ∷ [])) }
    ensures gap { IfErr result (λ fault. fault ≡ ChangeFault.Gap → row_in place_cmp (rows_of table.now) key.now ≡ None) }
{
    let Some(commit) = table.get(key) else {
        return Err(ChangeFault::Gap);
    };
    let commit = commit.copy()?;
    bases.push(commit)?;
    Ok(())
}

// Takes the base that stood at a place before out of the index, where one with another commit stands there now.
fn drop_stale(
    commits: &mut Table<CommitKey, ()>,
    before: &Option<CommitKey>,
    base: &Put<PlaceKey, CommitName>,
)
    ensures rows { (q : CommitKey) → row_in commit_cmp (rows_of commits.new) q ≡ (if is_stale before.now base.now.row q then None else row_in commit_cmp (rows_of commits.old) q) }
    ensures full { HasNoEmptyPlace commit_cmp commits.old → HasNoEmptyPlace commit_cmp commits.new }
{
    if let Some(key) = before {
        if key.commit.as_str() != base.row.as_str() {
            commits.remove(key);
        }
    }
}

// Whether a commit stands at a place.
fn is_there(bases: &Table<PlaceKey, CommitName>, key: &PlaceKey, commit: &CommitName) -> bool
    ensures { IsTrue result ↔ (row_in place_cmp (rows_of bases.now) key.now ≡ Some commit.now) }
{
    match bases.get(key) {
        Some(there) => there.as_str() == commit.as_str(),
        None => false,
    }
}

// Whether the base that stood at a place before has this commit.
fn has_commit(before: &Option<CommitKey>, commit: &CommitName) -> bool
    ensures { result ≡ has_commit before.now commit.now }
{
    match before {
        Some(key) => key.commit.as_str() == commit.as_str(),
        None => false,
    }
}

// What the putting of a base changes beside its own table, table by table: its key in the index and whether that stands there already, the last place of its branch, and the number of its project's bases.
#[derive(Drop)]
struct BaseChanges {
    listed: CommitKey,
    is_listed: bool,
    ended: Vec<RowEdit<BranchKey, u64>>,
    counted: Vec<RowEdit<ProjectName, u64>>,
}

// The changes that put a base, where its branch has this last place then and its project so many bases.
fn changes_of(
    alloc: Global,
    base: &Put<PlaceKey, CommitName>,
    is_listed: bool,
    branch: BranchKey,
    last: u64,
    total: u64,
) -> Result<BaseChanges, AllocError>
    ensures { IfOk result (PutsBase base.now is_listed branch last total) }
{
    let ended = ended_change(alloc, branch, last)?;
    let listed = listed_of(base)?;
    let counted = counted_change(alloc, &base.key.project, total)?;
    Ok(BaseChanges {
        listed,
        is_listed,
        ended,
        counted,
    })
}

// A base once more, to be put.
fn placed_base(base: &Put<PlaceKey, CommitName>) -> Result<Put<PlaceKey, CommitName>, AllocError>
    ensures { IfOk result (λ copy. copy ≡ base.now) }
{
    Ok(Put {
        key: base.key.copy()?,
        row: base.row.copy()?,
    })
}

// The change of a branch's last place.
fn ended_change(
    alloc: Global,
    branch: BranchKey,
    last: u64,
) -> Result<Vec<RowEdit<BranchKey, u64>>, AllocError>
    ensures { IfOk result (λ changes. changes.items ≡ record { key = branch; row = Some last } ∷ []) }
{
    Ok(vec![in alloc;
        RowEdit {
            key: branch,
            row: Some(last),
        },
    ]?)
}

// The change of the number of a project's bases.
fn counted_change(
    alloc: Global,
    project: &ProjectName,
    total: u64,
) -> Result<Vec<RowEdit<ProjectName, u64>>, AllocError>
    ensures { IfOk result (λ changes. changes.items ≡ record { key = project.now; row = Some total } ∷ []) }
{
    let key = project.copy()?;
    Ok(vec![in alloc;
        RowEdit {
            key,
            row: Some(total),
        },
    ]?)
}

// Makes room for changes, and puts a base at its place and into the index. Where there is no memory for it no row changes.
fn begin(
    bases: &mut Table<PlaceKey, CommitName>,
    commits: &mut Table<CommitKey, ()>,
    lasts: &mut Table<BranchKey, u64>,
    totals: &mut Table<ProjectName, u64>,
    changes: &BaseChanges,
    base: &Put<PlaceKey, CommitName>,
) -> Result<(), AllocError>
    requires { row_in commit_cmp (rows_of commits.old) changes.now.listed ≡ (if changes.now.is_listed then Some tt else None) }
    ensures bases { OnErr result (rows_of bases.new ≡ rows_of bases.old) }
    ensures placed { OnOk result ((q : PlaceKey) → row_in place_cmp (rows_of bases.new) q ≡ (if is_at (place_cmp base.now.key) q then Some base.now.row else row_in place_cmp (rows_of bases.old) q)) }
    ensures listed { OnOk result ((q : CommitKey) → row_in commit_cmp (rows_of commits.new) q ≡ (if is_at (commit_cmp changes.now.listed) q then Some tt else row_in commit_cmp (rows_of commits.old) q)) }
    ensures unlisted { OnErr result ((q : CommitKey) → row_in commit_cmp (rows_of commits.new) q ≡ row_in commit_cmp (rows_of commits.old) q) }
    ensures lasts { rows_of lasts.new ≡ rows_of lasts.old }
    ensures totals { rows_of totals.new ≡ rows_of totals.old }
    ensures ended { OnOk result (HavePlaces branch_cmp lasts.new changes.now.ended.items) }
    ensures counted { OnOk result (HavePlaces (slice_cmp nat_cmp) totals.new changes.now.counted.items) }
    ensures spare { HasNoSpare bases.old commits.old lasts.old totals.old → HasSpareOnly changes.now bases.new commits.new lasts.new totals.new }
{
    reserve(lasts, totals, changes)?;
    let placed = placed_base(base)?;
    place(bases, commits, changes, placed)
}

// Puts a base at its place and into the index, by one walk over each. Where there is no memory for it no row changes.
fn place(
    bases: &mut Table<PlaceKey, CommitName>,
    commits: &mut Table<CommitKey, ()>,
    changes: &BaseChanges,
    base: Put<PlaceKey, CommitName>,
) -> Result<(), AllocError>
    requires { row_in commit_cmp (rows_of commits.old) changes.now.listed ≡ (if changes.now.is_listed then Some tt else None) }
    ensures bases { OnErr result (rows_of bases.new ≡ rows_of bases.old) }
    ensures placed { OnOk result ((q : PlaceKey) → row_in place_cmp (rows_of bases.new) q ≡ (if is_at (place_cmp base.key) q then Some base.row else row_in place_cmp (rows_of bases.old) q)) }
    ensures listed { OnOk result ((q : CommitKey) → row_in commit_cmp (rows_of commits.new) q ≡ (if is_at (commit_cmp changes.now.listed) q then Some tt else row_in commit_cmp (rows_of commits.old) q)) }
    ensures unlisted { OnErr result ((q : CommitKey) → row_in commit_cmp (rows_of commits.new) q ≡ row_in commit_cmp (rows_of commits.old) q) }
    ensures bases_full { HasNoEmptyPlace place_cmp bases.old → HasNoEmptyPlace place_cmp bases.new }
    ensures commits_full { HasNoEmptyPlace commit_cmp commits.old → HasNoEmptyPlace commit_cmp commits.new }
{
    commits.put(changes.listed.copy()?, ())?;
    let Put { key, row } = base;
    match bases.put(key, row) {
        Ok(()) => Ok(()),
        Err(error) => {
            unlist(commits, changes);
            Err(error)
        }
    }
}

// Takes the key of a base that wasn't put out of the index, unless it stood there before.
fn unlist(commits: &mut Table<CommitKey, ()>, changes: &BaseChanges)
    ensures rows { (q : CommitKey) → row_in commit_cmp (rows_of commits.new) q ≡ (if not changes.now.is_listed && is_at (commit_cmp changes.now.listed) q then None else row_in commit_cmp (rows_of commits.old) q) }
    ensures full { HasNoEmptyPlace commit_cmp commits.old → HasNoEmptyPlace commit_cmp commits.new }
{
    if !changes.is_listed {
        commits.remove(&changes.listed);
    }
}

// Makes room for changes of the other tables, which changes no row.
fn reserve(
    lasts: &mut Table<BranchKey, u64>,
    totals: &mut Table<ProjectName, u64>,
    changes: &BaseChanges,
) -> Result<(), AllocError>
    ensures lasts { rows_of lasts.new ≡ rows_of lasts.old }
    ensures totals { rows_of totals.new ≡ rows_of totals.old }
    ensures ended { OnOk result (HavePlaces branch_cmp lasts.new changes.now.ended.items) }
    ensures counted { OnOk result (HavePlaces (slice_cmp nat_cmp) totals.new changes.now.counted.items) }
    ensures spare { (bases : List (PlaceKey × Option (List ℕ))) (commits : List (CommitKey × Option (Unit {0}))) → HasNoSpare bases commits lasts.old totals.old → HasSpareOnly changes.now bases commits lasts.new totals.new }
{
    lasts.reserve_all(&changes.ended)?;
    totals.reserve_all(&changes.counted)?;
    Ok(())
}

// Drops the places that hold no row, of those that changes name, which changes no row.
fn release(
    lasts: &mut Table<BranchKey, u64>,
    totals: &mut Table<ProjectName, u64>,
    changes: &BaseChanges,
)
    ensures lasts { rows_of lasts.new ≡ rows_of lasts.old }
    ensures totals { rows_of totals.new ≡ rows_of totals.old }
    ensures full { (bases : List (PlaceKey × Option (List ℕ))) (commits : List (CommitKey × Option (Unit {0}))) → HasSpareOnly changes.now bases commits lasts.old totals.old → HasNoSpare bases commits lasts.new totals.new }
{
    lasts.release(&changes.ended);
    totals.release(&changes.counted);
}

fn branch_of(base: &Put<PlaceKey, CommitName>) -> Result<BranchKey, AllocError>
    ensures { IfOk result (λ k. k ≡ record { project = base.now.key.project; branch = base.now.key.branch }) }
{
    Ok(BranchKey {
        project: base.key.project.copy()?,
        branch: base.key.branch.copy()?,
    })
}

fn listed_of(base: &Put<PlaceKey, CommitName>) -> Result<CommitKey, AllocError>
    ensures { IfOk result (λ k. k ≡ commit_at base.now.key base.now.row) }
{
    Ok(CommitKey {
        project: base.key.project.copy()?,
        branch: base.key.branch.copy()?,
        commit: base.row.copy()?,
        place: base.key.place,
    })
}

fn commit_key(base: &Base, place: u64) -> Result<CommitKey, AllocError>
    ensures { IfOk result (λ k. k ≡ record { project = base.now.project; branch = base.now.branch; commit = base.now.commit; place = place }) }
{
    Ok(CommitKey {
        project: base.project.copy()?,
        branch: base.branch.copy()?,
        commit: base.commit.copy()?,
        place,
    })
}
