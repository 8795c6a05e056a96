//! What a shelf knows of how many requests were stored, how many projects there are, and how many bases they have, so that it needn't ask or count again.
ghost use Rattle.std.specs.{BTreeMap.is_at, Cmp.Lexicographic.slice_cmp, Ordering.nat_cmp};
ghost use Rattle.std.specs.Prelude.{ℕ, ◌≡◌, ◌+◌, ◌≤◌, List, Some, nat_lt, if◌then◌else◌, IfSome, OnOk, OnErr};
ghost use Rattle.review_table.specs.Rows.{row_in, rows_of};
ghost use Rattle.review_sql_tables.specs.Search.{as_counted};
ghost use Rattle.review_machine_rows.specs.Limits.{most_bases, most_projects};
ghost use Rattle.review_machine_rows.specs.Rows.{AnswerRow, BasesOf, Projects, Tables};
ghost use Rattle.review_machine_rows.specs.Shelf.{IsCommitted};
ghost use Rattle.review_sql_lookups.specs.Loads.{AreBasesBounded, AreBounded, Bounds, Grows};

use review_machine_rows::Delta;
use review_table::{Key, Table};
use review_words::ProjectName;
use std::alloc::{AllocError, Global};

/// The projects that there may be.
pub const MOST_PROJECTS: u64 = 1000;

/// The bases that a project may have.
pub const MOST_BASES: u64 = 100_000;

/// What is known of a count that has a limit.
#[derive(Clone, Copy, PartialEq, Eq, Drop)]
pub enum Bound {
    /// At most so many.
    AtMost(u64),
    /// As many as there may be, or more.
    Full,
}

impl Bound {
    /// What is known where so many were counted.
    pub fn of(count: u64, most: u64) -> Bound
        requires { most ≤ 1000000 }
        ensures { (n : ℕ) → as_counted n ≡ count → Bounds most result n }
    {
        if count < most {
            Bound::AtMost(count)
        } else {
            Bound::Full
        }
    }

    /// Whether there is room for one more, where that is known.
    fn room(self, most: u64) -> Option<bool>
        ensures { (n : ℕ) → Bounds most self n → IfSome result (λ is. nat_lt n most ≡ is) }
    {
        match self {
            Bound::AtMost(count) => { if count < most { Some(true) } else { None } }
            Bound::Full => Some(false),
        }
    }

    /// What is known once there may be one more.
    fn with_one(self, most: u64) -> Bound
        ensures { (n m : ℕ) → Bounds most self n → n ≤ m → m ≤ n + 1 → Bounds most result m }
    {
        match self {
            Bound::AtMost(count) => {
                if count < most {
                    Bound::AtMost(count + 1)
                } else {
                    Bound::AtMost(count)
                }
            }
            Bound::Full => Bound::Full,
        }
    }
}

/// What is known of how many requests were ever stored, how many projects there are, and how many bases each has.
#[derive(Drop)]
pub struct Counts {
    pub requests: Option<u64>,
    pub projects: Option<Bound>,
    pub bases: Table<ProjectName, Bound>,
}

impl Counts {
    /// Nothing is known.
    pub fn new(alloc: Global) -> Counts
        ensures { (t : Tables) → AreBounded result t }
    {
        Counts {
            requests: None,
            projects: None,
            bases: Table::new(alloc),
        }
    }

    /// How many requests were ever stored, where that is known.
    pub fn stored_requests(&self) -> Option<u64>
        ensures { (t : Tables) → AreBounded self.now t → IfSome result (λ n. n ≡ t.requests) }
    {
        self.requests
    }

    /// Whether there may be one more project, where that is known.
    pub fn room_for_projects(&self) -> Option<bool>
        ensures { (t : Tables) → AreBounded self.now t → IfSome result (λ is. nat_lt (t.count Projects) most_projects ≡ is) }
    {
        let bound = self.projects?;
        bound.room(MOST_PROJECTS)
    }

    /// Whether there may be one more base of a project, where that is known.
    pub fn room_for_bases(&self, project: &ProjectName) -> Option<bool>
        ensures { (t : Tables) → AreBounded self.now t → IfSome result (λ is. nat_lt (t.count (BasesOf project.now)) most_bases ≡ is) }
    {
        let bound = self.bases.get(project)?;
        bound.room(MOST_BASES)
    }

    /// Learns that so many requests were ever stored.
    pub fn learn_requests(&mut self, requests: u64)
        ensures { (t : Tables) → AreBounded self.old t → requests ≡ t.requests → AreBounded self.new t }
    {
        self.requests = Some(requests);
    }

    /// Learns that so many projects were counted.
    pub fn learn_projects(&mut self, count: u64)
        ensures { (t : Tables) → AreBounded self.old t → as_counted (t.count Projects) ≡ count → AreBounded self.new t }
    {
        self.projects = Some(Bound::of(count, MOST_PROJECTS));
    }

    /// Learns that so many bases of a project were counted. Nothing is learnt of a project with none, of which there may be any number, nor where there is no memory for it.
    pub fn learn_bases(&mut self, project: &ProjectName, count: u64)
        ensures { (t : Tables) → AreBounded self.old t → as_counted (t.count (BasesOf project.now)) ≡ count → AreBounded self.new t }
    {
        if count > 0 {
            let _ = set(&mut self.bases, project, Bound::of(count, MOST_BASES));
        }
    }

    /// What a delivery changes is done.
    pub fn note(&mut self, delta: &Delta)
        ensures { (old new : Tables) (kept : AnswerRow) → AreBounded self.old old → IsCommitted old delta.now kept new → AreBounded self.new new }
    {
        self.requests = with_request(self.requests);
        self.projects = noted(self.projects, delta);
        if let Some(put) = &delta.base {
            note_one(&mut self.bases, &put.key.project);
        }
    }
}

// How many requests there are once one more is stored, where that is known.
fn with_request(requests: Option<u64>) -> Option<u64>
    ensures { (n : ℕ) → IfSome requests (λ known. known ≡ n) → IfSome result (λ more. more ≡ n + 1) }
{
    let requests = requests?;
    requests.checked_add(1)
}

// What is known of the projects once a delta is done. A file that is put in place of another is taken for one more.
fn noted(projects: Option<Bound>, delta: &Delta) -> Option<Bound>
    ensures { (old new : Tables) (kept : AnswerRow) → IfSome projects (λ bound. Bounds most_projects bound (old.count Projects)) → IsCommitted old delta.now kept new → IfSome result (λ bound. Bounds most_projects bound (new.count Projects)) }
{
    let bound = projects?;
    match &delta.file {
        Some(_) => Some(bound.with_one(MOST_PROJECTS)),
        None => Some(bound),
    }
}

// Sets what is known of a project.
fn set(
    bases: &mut Table<ProjectName, Bound>,
    project: &ProjectName,
    bound: Bound,
) -> Result<(), AllocError>
    ensures put { OnOk result ((p : List ℕ) → row_in (slice_cmp nat_cmp) (rows_of bases.new) p ≡ (if is_at (slice_cmp nat_cmp project.now) p then Some bound else row_in (slice_cmp nat_cmp) (rows_of bases.old) p)) }
    ensures same { OnErr result (rows_of bases.new ≡ rows_of bases.old) }
{
    bases.put(project.copy()?, bound)
}

// A project may have one base more.
fn note_one(bases: &mut Table<ProjectName, Bound>, project: &ProjectName)
    ensures { (old new : Tables) → AreBasesBounded (rows_of bases.old) old → Grows project.now old new → AreBasesBounded (rows_of bases.new) new }
{
    let Some(bound) = bases.get(project) else {
        return;
    };
    let more = bound.with_one(MOST_BASES);
    match set(bases, project, more) {
        Ok(()) => {}
        Err(_) => bases.remove(project),
    }
}
