//! Groups of accounts, and sets of paths.
ghost use Rattle.std.specs.{Cmp.Lexicographic.slice_cmp, List.Sorted.IsStrictlySortedBy, Ordering.nat_cmp};
ghost use Rattle.std.specs.Prelude.{◌≡◌, ◌≤◌, ◌<◌, Err, IfOk, length};
ghost use Rattle.review_names.specs.{Forms.text_set, Forms.most_paths, Groups.has_account};

use crate::names::{AccountNo, Bad, GroupName, Members};
use crate::places::Path;
use std::alloc::{AllocError, Global};
use std::collections::{BTreeMap, BTreeSet};
use std::marker::Model;

/// The groups that were put, each with its members. Contracts see them in the order of their names' bytes.
#[derive(Drop)]
pub struct Groups(pub BTreeMap<GroupName, Members>);

impl Model for Groups {
    ghost use Rattle.review_names.specs.Groups.{GroupList};

    ghost Value = { GroupList };

    ghost view = { λ g. g.0.entries };
}

impl Groups {
    /// Whether an account is in a group. Every account is in `Registered-Users`; a group that was
    /// never put is empty. This takes no memory.
    pub fn has(&self, group: &GroupName, account: AccountNo) -> bool
        ensures { result ≡ has_account self.now group.now account }
    {
        if group.as_str() == "Registered-Users" {
            return true;
        }
        match self.0.get(group) {
            Some(members) => members.has(account),
            None => false,
        }
    }
}

/// A set of paths, at most 500. Contracts see them in the order of their bytes, each once.
#[derive(Drop)]
pub struct Paths {
    paths: Vec<Path>,
}

impl Model for Paths {
    ghost use Rattle.std.specs.{Cmp.Lexicographic.slice_cmp, List.Sorted.IsStrictlySortedBy, Ordering.nat_cmp};
    ghost use Rattle.std.specs.Prelude.{ℕ, List, length, ◌≤◌};
    ghost use Rattle.review_names.specs.Forms.{most_paths};

    ghost Value = { List (List ℕ) };

    ghost view = { λ p. p.paths.items };

    ghost invariant = { λ p. IsStrictlySortedBy (slice_cmp nat_cmp) p.paths.items × (length p.paths.items ≤ most_paths) };
}

/// The set of the paths in a list.
fn collected(alloc: Global, paths: Vec<Path>) -> Result<BTreeSet<Path>, Bad>
    ensures ok { IfOk result (λ s. s.keys ≡ text_set paths.items) }
    ensures form { result ≡ Err Bad.Form → ⊥ }
{
    let mut set = BTreeSet::new(alloc);
    let mut rest = paths;
    while let Some(path) = rest.pop() {
        set.insert(path)?;
    }
    Ok(set)
}

impl Paths {
    /// The set of the paths in a list of any length, whatever their order and with doubles counted
    /// once. Form exactly where the set has more than 500 members; Memory where there was no
    /// memory to sort them.
    pub fn from_vec(alloc: Global, paths: Vec<Path>) -> Result<Paths, Bad>
        ensures ok { IfOk result (λ p. (p ≡ text_set paths.items) × (length p ≤ most_paths)) }
        ensures form { result ≡ Err Bad.Form → most_paths < length (text_set paths.items) }
    {
        let set = collected(alloc, paths)?;
        if set.len() > 500 {
            return Err(Bad::Form);
        }
        let mut sorted = Vec::new(alloc);
        for path in set {
            sorted.push(path)?;
        }
        Ok(Paths { paths: sorted })
    }

    /// A copy of these paths. An error where there was no memory for them.
    pub fn copy(&self, alloc: Global) -> Result<Paths, AllocError>
        ensures { IfOk result (λ p. p ≡ self.now) }
    {
        let mut paths = Vec::new(alloc);
        for path in self.as_slice() {
            paths.push(path.copy()?)?;
        }
        Ok(Paths { paths })
    }

    /// The paths in the order of their bytes, each once.
    pub fn as_slice(&self) -> &[Path]
        ensures paths { result.now ≡ self.now }
        ensures ordered { IsStrictlySortedBy (slice_cmp nat_cmp) self.now }
        ensures most { length self.now ≤ most_paths }
    {
        self.paths.as_slice()
    }

    /// How many paths, from 0 to 500.
    pub fn len(&self) -> usize
        ensures { result ≡ length self.now }
    {
        self.paths.len()
    }
}
