//! The tables of a desk in memory, and what changes in them.
ghost use Rattle.std.specs.{Cmp.Lexicographic.slice_cmp, List.All, Ordering.nat_cmp};
ghost use Rattle.std.specs.Prelude.{◌≡◌, ℕ, List, Option, ◌∷◌, Some, IfOk, OnOk, OnErr, ◌<◌, ◌^◌, ◌-◌, IsTrue, ◌↔◌, [], true, None, unwrap_or, if◌then◌else◌};
ghost use Rattle.review_table.specs.Rows.{row_in, rows_of, is_named, HasEmptyOnly, HasNoEmptyPlace};
ghost use Rattle.review_table.specs.declared.table.RowEdit.{RowEdit};
ghost use Rattle.review_machine_rows.specs.Rows.{FileKey, count_put, kept_row, member_cmp};
ghost use Rattle.review_machine_rows.specs.{Shelf.IsRecalled, Shelf.IsCommitted, View.IsView};
ghost use Rattle.review_machine_rows.specs.declared.rows.{Put.Put, StoredFile.StoredFile};
ghost use Rattle.review_memory_rows.specs.Answers.{answer_cmp, is_among, key_of};
ghost use Rattle.review_memory_rows.specs.{Bases.IsPut, Kept.IsReady, declared.answer_keys.AnswerKey.AnswerKey};
ghost use Rattle.review_memory.specs.Desk.{tables_of, desk_of, desk_with, row_of, name_cmp, is_removed, IsIndexed, IsBounded, IsSound, AddsNames, AreChanges, AreIndexed, KeepsNames, HasChanged, HasNoSpareRoom, HasRemovedOnly, HasRoom, HasRoomOnlyFor, AreApplied, IsNameOf, IsStored, IsUsed, IsWithBase, beside_epoch, with_answers, with_stored};
ghost use Rattle.review_memory.specs.First.{HasAccount, HasName, HasMember};
ghost use Rattle.review_memory.specs.declared.changes.Changes.{Changes};

use crate::changes::{Changes, names_of, stored};
use crate::keys::NameKey;
use review_machine_rows::{Delta, Kept, MemberKey, PlaceKey, Put, Recalled, StoredFile};
use review_memory_rows::{AnswerKey, Branches, KeptChanges, StoredAnswer, lower_keys, remove_keys};
use review_table::{Key, RowEdit, Table};
use review_words::{
    AccountName, AccountNo, CommitName, Epoch, ProjectName, RequestId, admin_name, administrators,
};
use std::alloc::{AllocError, Global};

/// The tables, with an index of the accounts by name. Between two calls the index has just the names of the accounts, and every place of a
/// table has a row, so that the memory that a desk takes is bounded by its rows.
#[derive(Drop)]
pub struct MemoryTables {
    pub accounts: Table<AccountNo, AccountName>,
    pub names: Table<NameKey, ()>,
    pub members: Table<MemberKey, ()>,
    pub files: Table<ProjectName, StoredFile>,
    pub branches: Branches,
    pub changes: KeptChanges,
    /// How many projects have a file.
    pub projects: u64,
    pub answers: Table<AnswerKey, StoredAnswer>,
    /// The least open epoch.
    pub least: u32,
    pub requests: u64,
}

impl MemoryTables {
    /// The tables of no request: account 1 is `admin`, in the group `Administrators`.
    pub fn new(alloc: Global) -> Result<MemoryTables, AllocError>
        ensures sound { IfOk result IsSound }
        ensures view { IfOk result (λ t. IsView [] (tables_of (desk_of t))) }
    {
        let accounts = first_accounts(alloc)?;
        let names = first_names(alloc)?;
        let members = first_members(alloc)?;
        Ok(MemoryTables {
            accounts,
            names,
            members,
            files: Table::new(alloc),
            branches: Branches::new(alloc),
            changes: KeptChanges::new(alloc),
            projects: 0,
            answers: Table::new(alloc),
            least: 0,
            requests: 0,
        })
    }

    /// What is stored under an identity, or that nothing is, or that its epoch is closed.
    pub fn recall(
        &self,
        alloc: Global,
        caller: AccountNo,
        epoch: Epoch,
        id: &RequestId,
    ) -> Result<Recalled, AllocError>
        ensures { IfOk result (IsRecalled (tables_of (desk_of self.now)) (record { caller = caller; epoch = epoch; id = id.now })) }
    {
        if epoch.get() < self.least {
            return Ok(Recalled::Closed);
        }
        let key = AnswerKey {
            epoch,
            caller,
            id: id.copy()?,
        };
        let Some(stored) = self.answers.get(&key) else {
            return Ok(Recalled::Fresh);
        };
        let AnswerKey { epoch, caller, id } = key;
        Ok(Recalled::Kept(Kept {
            caller,
            epoch,
            id,
            request: stored.request,
            content: stored.content.clone()?,
            reply: stored.reply.clone()?,
        }))
    }

    /// Applies a delta and stores its request, or changes no row; where the delta names an epoch, what is kept of lower ones is given up then.
    pub fn commit(&mut self, alloc: Global, delta: Delta, kept: Kept) -> Result<(), AllocError>
        requires sound { IsSound self.old }
        requires room { self.old.requests < 2 ^ 64 - 1 }
        ensures sound { IsSound self.new }
        ensures done { OnOk result (IsCommitted (tables_of (desk_of self.old)) delta (kept_row kept) (tables_of (desk_of self.new))) }
        ensures same { OnErr result (tables_of (desk_of self.new) ≡ tables_of (desk_of self.old)) }
    {
        let lower = match lower_keys(alloc, &self.answers, delta.least_epoch, &kept) {
            Ok(lower) => lower,
            Err(error) => {
                drop(delta);
                drop(kept);
                return Err(error);
            }
        };
        let least = delta.least_epoch;
        self.commit_beside(alloc, delta, kept)?;
        self.give_up(least, &lower);
        Ok(())
    }

    /// Drops what is stored under these keys, and makes an epoch the least open one, if one is named.
    fn give_up(&mut self, epoch: Option<Epoch>, keys: &[AnswerKey])
        ensures answers { (q : AnswerKey) → row_in answer_cmp (rows_of self.new.answers) q ≡ (if is_among keys.now q then None else row_in answer_cmp (rows_of self.old.answers) q) }
        ensures filled { HasNoEmptyPlace answer_cmp self.old.answers → HasNoEmptyPlace answer_cmp self.new.answers }
        ensures rest { self.new ≡ with_answers self.old self.new.answers (unwrap_or epoch self.old.least) }
    {
        remove_keys(&mut self.answers, keys);
        if let Some(least) = epoch {
            self.least = least.get();
        }
    }

    /// Applies a delta but for its epoch and stores its request, or changes no row. Places that got no row are given back.
    fn commit_beside(&mut self, alloc: Global, delta: Delta, kept: Kept) -> Result<(), AllocError>
        requires sound { IsSound self.old }
        requires room { self.old.requests < 2 ^ 64 - 1 }
        ensures sound { IsSound self.new }
        ensures done { OnOk result (IsCommitted (tables_of (desk_of self.old)) (beside_epoch delta) (kept_row kept) (tables_of (desk_of self.new))) }
        ensures same { OnErr result (tables_of (desk_of self.new) ≡ tables_of (desk_of self.old)) }
    {
        let names = match names_of(alloc, &self.accounts, &delta.accounts) {
            Ok(names) => names,
            Err(error) => {
                drop(delta);
                drop(kept);
                return Err(error);
            }
        };
        let Delta {
            accounts,
            members,
            file,
            base,
            changes,
            ..
        } = delta;
        let projects = self.projects_with(&file);
        let answer = stored(kept);
        let changes = match Changes::new(alloc, &accounts, &members, file, changes, &self.changes) {
            Ok(changes) => changes,
            Err(error) => {
                drop(answer);
                drop(base);
                return Err(error);
            }
        };
        match self.make(alloc, &names.given, changes, projects, &base, answer) {
            Ok(()) => {
                drop(base);
                self.release_removed(&accounts, &members);
                self.drop_given(&accounts, &names.given);
                self.drop_names(&names.held);
                Ok(())
            }
            Err(error) => {
                drop(base);
                Err(error)
            }
        }
    }

    /// How many projects there are once one gets a file.
    fn projects_with(&self, file: &Option<Put<ProjectName, StoredFile>>) -> u64
        requires { self.now.projects < 2 ^ 64 - 1 }
        ensures { result ≡ count_put (λ p. true) file.now (λ p. row_of (desk_of self.now) (FileKey p)) self.now.projects }
    {
        match file {
            Some(put) if self.files.get(&put.key).is_none() => self.projects + 1,
            Some(_) | None => self.projects,
        }
    }

    /// Makes changes, puts a base, stores an answer and lists the names that accounts get. Where there is no memory for it no row changes, and
    /// what was begun is given back.
    fn make(
        &mut self,
        alloc: Global,
        given: &[NameKey],
        changes: Changes,
        projects: u64,
        base: &Option<Put<PlaceKey, CommitName>>,
        answer: Put<AnswerKey, StoredAnswer>,
    ) -> Result<(), AllocError>
        requires number { self.old.requests < 2 ^ 64 - 1 }
        requires sound { IsSound self.old }
        requires ready { IsReady (rows_of self.old.changes.kept) changes.edits }
        ensures kept { OnOk result (KeepsNames (rows_of self.old.names) (rows_of self.new.names)) }
        ensures only { OnOk result (AddsNames (rows_of self.old.names) given.now (rows_of self.new.names)) }
        ensures listed { OnOk result (AreIndexed (rows_of self.new.names) given.now) }
        ensures spare { OnOk result (HasRemovedOnly changes self.new) }
        ensures done { OnOk result (AreApplied (desk_of self.old) changes projects (desk_of self.new)) }
        ensures based { OnOk result (IsWithBase base.now self.old.branches self.new.branches) }
        ensures stored { OnOk result (IsStored answer (rows_of self.old.answers) (rows_of self.new.answers)) }
        ensures same { OnErr result (desk_of self.new ≡ desk_of self.old) }
        ensures undone { OnErr result (IsSound self.new) }
    {
        match self.begin(alloc, given, &changes, base, answer) {
            Ok(()) => {
                self.apply(changes, projects);
                Ok(())
            }
            Err(error) => {
                self.release(&changes);
                self.drop_names(given);
                Err(error)
            }
        }
    }

    /// Makes room for changes, lists names, puts a base and stores an answer. Where there is no memory for it no row changes.
    fn begin(
        &mut self,
        alloc: Global,
        given: &[NameKey],
        changes: &Changes,
        base: &Option<Put<PlaceKey, CommitName>>,
        answer: Put<AnswerKey, StoredAnswer>,
    ) -> Result<(), AllocError>
        requires number { self.old.requests < 2 ^ 64 - 1 }
        requires bounded { IsBounded (desk_of self.old) }
        ensures kept { KeepsNames (rows_of self.old.names) (rows_of self.new.names) }
        ensures only { AddsNames (rows_of self.old.names) given.now (rows_of self.new.names) }
        ensures listed { OnOk result (AreIndexed (rows_of self.new.names) given.now) }
        ensures room { OnOk result (HasRoom self.new changes.now) }
        ensures spare { HasNoSpareRoom self.old → HasRoomOnlyFor changes.now self.new }
        ensures based { OnOk result (IsWithBase base.now self.old.branches self.new.branches) }
        ensures stored { OnOk result (IsStored answer (rows_of self.old.answers) (rows_of self.new.answers)) }
        ensures rest { desk_of self.new ≡ desk_with (desk_of self.old) self.new.branches (rows_of self.new.answers) }
        ensures same { OnErr result (desk_of self.new ≡ desk_of self.old) }
    {
        self.reserve(alloc, given, changes)?;
        self.store(alloc, base, answer)
    }

    /// Stores an answer and puts a base, where there is one. Where there is no memory for it nothing changes. The answers are walked once, and
    /// no place of them is left without a row.
    fn store(
        &mut self,
        alloc: Global,
        base: &Option<Put<PlaceKey, CommitName>>,
        answer: Put<AnswerKey, StoredAnswer>,
    ) -> Result<(), AllocError>
        requires number { self.old.requests < 2 ^ 64 - 1 }
        requires bounded { IsBounded (desk_of self.old) }
        ensures based { OnOk result (IsWithBase base.now self.old.branches self.new.branches) }
        ensures stored { OnOk result (IsStored answer (rows_of self.old.answers) (rows_of self.new.answers)) }
        ensures filled { HasNoEmptyPlace answer_cmp self.old.answers → HasNoEmptyPlace answer_cmp self.new.answers }
        ensures rest { self.new ≡ with_stored self.old self.new.branches self.new.answers }
        ensures same { OnErr result (desk_of self.new ≡ desk_of self.old) }
    {
        match base {
            Some(base) => self.store_beside(alloc, base, answer),
            None => {
                let Put { key, row } = answer;
                self.answers.put(key, row)
            }
        }
    }

    /// The same with a base, which is put between: only a place for the answer may be given back.
    fn store_beside(
        &mut self,
        alloc: Global,
        base: &Put<PlaceKey, CommitName>,
        answer: Put<AnswerKey, StoredAnswer>,
    ) -> Result<(), AllocError>
        requires number { self.old.requests < 2 ^ 64 - 1 }
        requires bounded { IsBounded (desk_of self.old) }
        ensures based { OnOk result (IsPut base.now self.old.branches self.new.branches) }
        ensures stored { OnOk result (IsStored answer (rows_of self.old.answers) (rows_of self.new.answers)) }
        ensures filled { HasNoEmptyPlace answer_cmp self.old.answers → HasNoEmptyPlace answer_cmp self.new.answers }
        ensures rest { self.new ≡ with_stored self.old self.new.branches self.new.answers }
        ensures same { OnErr result (desk_of self.new ≡ desk_of self.old) }
    {
        let Put { key, row } = answer;
        self.answers.reserve(key.copy()?)?;
        match self.branches.put(alloc, base) {
            Ok(()) => {
                self.answers.restore(key, row);
                Ok(())
            }
            Err(error) => {
                self.answers.release_one(&key);
                Err(error)
            }
        }
    }

    /// Makes room for changes and lists names in the index, which changes no other row.
    fn reserve(
        &mut self,
        alloc: Global,
        names: &[NameKey],
        changes: &Changes,
    ) -> Result<(), AllocError>
        ensures same { desk_of self.new ≡ desk_of self.old }
        ensures kept { KeepsNames (rows_of self.old.names) (rows_of self.new.names) }
        ensures only { AddsNames (rows_of self.old.names) names.now (rows_of self.new.names) }
        ensures listed { OnOk result (AreIndexed (rows_of self.new.names) names.now) }
        ensures room { OnOk result (HasRoom self.new changes.now) }
        ensures spare { HasNoSpareRoom self.old → HasRoomOnlyFor changes.now self.new }
    {
        self.list_names(names)?;
        self.accounts.reserve_all(&changes.accounts)?;
        self.members.reserve_all(&changes.members)?;
        self.files.reserve_all(&changes.files)?;
        self.changes.reserve(alloc, &changes.edits)?;
        Ok(())
    }

    fn list_names(&mut self, names: &[NameKey]) -> Result<(), AllocError>
        ensures same { desk_of self.new ≡ desk_of self.old }
        ensures kept { KeepsNames (rows_of self.old.names) (rows_of self.new.names) }
        ensures only { AddsNames (rows_of self.old.names) names.now (rows_of self.new.names) }
        ensures listed { OnOk result (AreIndexed (rows_of self.new.names) names.now) }
        ensures filled { HasNoSpareRoom self.old → HasNoSpareRoom self.new }
    {
        for key in names {
            self.names.put(key.copy()?, ())?;
        }
        Ok(())
    }

    /// Drops the places that hold no row, of those that changes name.
    fn release(&mut self, changes: &Changes)
        ensures same { desk_of self.new ≡ desk_of self.old }
        ensures names { self.new.names ≡ self.old.names }
        ensures filled { HasRoomOnlyFor changes.now self.old → HasNoSpareRoom self.new }
    {
        self.accounts.release(&changes.accounts);
        self.members.release(&changes.members);
        self.files.release(&changes.files);
        self.changes.release(&changes.edits);
    }

    /// Drops the places of the accounts and members that a delta took away.
    fn release_removed(
        &mut self,
        accounts: &[RowEdit<AccountNo, AccountName>],
        members: &[RowEdit<MemberKey, ()>],
    )
        ensures same { desk_of self.new ≡ desk_of self.old }
        ensures names { self.new.names ≡ self.old.names }
        ensures filled { (file : Option (Put (List ℕ) StoredFile)) (changes : Changes) → AreChanges accounts.now members.now file changes → HasRemovedOnly changes self.old → HasNoSpareRoom self.new }
    {
        release_removed(&mut self.accounts, accounts);
        release_removed(&mut self.members, members);
    }

    /// Makes changes for which there is room.
    fn apply(&mut self, changes: Changes, projects: u64)
        requires room { HasRoom self.old changes }
        requires number { self.old.requests < 2 ^ 64 - 1 }
        requires ready { IsReady (rows_of self.old.changes.kept) changes.edits }
        ensures done { AreApplied (desk_of self.old) changes projects (desk_of self.new) }
        ensures branches { self.new.branches ≡ self.old.branches }
        ensures answers { self.new.answers ≡ self.old.answers }
        ensures names { self.new.names ≡ self.old.names }
        ensures spare { HasRoomOnlyFor changes self.old → HasRemovedOnly changes self.new }
    {
        let Changes {
            accounts,
            members,
            files,
            edits,
        } = changes;
        self.accounts.apply(accounts);
        self.members.apply(members);
        self.files.apply(files);
        self.changes.apply(edits);
        self.projects = projects;
        self.requests += 1;
    }

    /// Takes those of the names that accounts got out of the index that they don't have. One change gives its account the name that it keeps.
    fn drop_given(&mut self, accounts: &[RowEdit<AccountNo, AccountName>], given: &[NameKey])
        requires { IsIndexed (rows_of self.old.accounts) (rows_of self.old.names) }
        ensures same { desk_of self.new ≡ desk_of self.old }
        ensures indexed { IsIndexed (rows_of self.new.accounts) (rows_of self.new.names) }
        ensures no_more { KeepsNames (rows_of self.new.names) (rows_of self.old.names) }
        ensures dropped { All (IsNameOf accounts.now) given.now → HasChanged accounts.now (rows_of self.old.accounts) → All (IsUsed (rows_of self.new.accounts) (rows_of self.new.names)) given.now }
        ensures filled { HasNoSpareRoom self.old → HasNoSpareRoom self.new }
    {
        if accounts.len() > 1 {
            self.drop_names(given);
        }
    }

    /// Takes those of some names out of the index that their accounts don't have.
    fn drop_names(&mut self, names: &[NameKey])
        requires { IsIndexed (rows_of self.old.accounts) (rows_of self.old.names) }
        ensures same { desk_of self.new ≡ desk_of self.old }
        ensures indexed { IsIndexed (rows_of self.new.accounts) (rows_of self.new.names) }
        ensures no_more { KeepsNames (rows_of self.new.names) (rows_of self.old.names) }
        ensures dropped { All (IsUsed (rows_of self.new.accounts) (rows_of self.new.names)) names.now }
        ensures filled { HasNoSpareRoom self.old → HasNoSpareRoom self.new }
    {
        for key in names {
            self.drop_name(key);
        }
    }

    /// Takes a name out of the index, unless its account has it.
    fn drop_name(&mut self, key: &NameKey)
        ensures same { desk_of self.new ≡ desk_of self.old }
        ensures indexed { IsIndexed (rows_of self.old.accounts) (rows_of self.old.names) → IsIndexed (rows_of self.new.accounts) (rows_of self.new.names) }
        ensures no_more { KeepsNames (rows_of self.new.names) (rows_of self.old.names) }
        ensures dropped { IsUsed (rows_of self.new.accounts) (rows_of self.new.names) key.now }
        ensures filled { HasNoSpareRoom self.old → HasNoSpareRoom self.new }
    {
        if !self.has_name(key.account, &key.name) {
            self.names.remove(key);
        }
    }

    /// Whether an account has a name.
    pub fn has_name(&self, account: AccountNo, name: &AccountName) -> bool
        ensures { IsTrue result ↔ (row_in nat_cmp (rows_of self.now.accounts) account ≡ Some name.now) }
    {
        match self.accounts.get(&account) {
            Some(given) => given.as_str() == name.as_str(),
            None => false,
        }
    }
}

// The table of the first account.
fn first_accounts(alloc: Global) -> Result<Table<AccountNo, AccountName>, AllocError>
    ensures account { IfOk result (λ t. HasAccount (rows_of t)) }
    ensures filled { IfOk result (λ t. HasNoEmptyPlace nat_cmp t) }
{
    let name = admin_name(alloc)?;
    let mut accounts = Table::new(alloc);
    accounts.put(AccountNo::first(), name)?;
    Ok(accounts)
}

// The index of its name.
fn first_names(alloc: Global) -> Result<Table<NameKey, ()>, AllocError>
    ensures name { IfOk result (λ t. HasName (rows_of t)) }
    ensures filled { IfOk result (λ t. HasNoEmptyPlace name_cmp t) }
{
    let name = admin_name(alloc)?;
    let key = NameKey {
        name,
        account: AccountNo::first(),
    };
    let mut names = Table::new(alloc);
    names.put(key, ())?;
    Ok(names)
}

// The table of the group that it is in.
fn first_members(alloc: Global) -> Result<Table<MemberKey, ()>, AllocError>
    ensures member { IfOk result (λ t. HasMember (rows_of t)) }
    ensures filled { IfOk result (λ t. HasNoEmptyPlace member_cmp t) }
{
    let group = administrators(alloc)?;
    let key = MemberKey {
        group,
        account: AccountNo::first(),
    };
    let mut members = Table::new(alloc);
    members.put(key, ())?;
    Ok(members)
}

// Drops the places of the rows that changes took away.
fn release_removed<K: Key, V: Drop>(table: &mut Table<K, V>, changes: &[RowEdit<K, V>])
    ensures same { rows_of table.new ≡ rows_of table.old }
    ensures filled { HasEmptyOnly K.cmp (is_removed K.cmp changes.now) table.old → HasNoEmptyPlace K.cmp table.new }
{
    for change in changes {
        release_one(table, change);
    }
}

// Drops the place of the row that a change took away, if it took one.
fn release_one<K: Key, V: Drop>(table: &mut Table<K, V>, change: &RowEdit<K, V>)
    ensures same { rows_of table.new ≡ rows_of table.old }
    ensures left { (rest : List (RowEdit K V)) → HasEmptyOnly K.cmp (is_removed K.cmp (change.now ∷ rest)) table.old → HasEmptyOnly K.cmp (is_removed K.cmp rest) table.new }
{
    if change.row.is_none() {
        table.release_one(&change.key);
    }
}
