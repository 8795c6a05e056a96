//! What look-ups find in tables in memory.
ghost use Rattle.std.specs.{Cmp.Lexicographic.slice_cmp, Ordering.nat_cmp};
ghost use Rattle.std.specs.Prelude.{◌≡◌, ℕ, Some, None, IfOk, IfErr, OnOk, MatchOption};
ghost use Rattle.review_table.specs.Rows.{row_in, rows_of};
ghost use Rattle.review_machine_rows.specs.Known.{AgreesBeside, AreAsked, IsFound, IsLast, HasMembers, StandsAs, LearnsFound, group_of, meaning};
ghost use Rattle.review_machine_rows.specs.Rows.{AccountKey, member_cmp};
ghost use Rattle.review_memory.specs.Desk.{tables_of, desk_of, row_of, IsIndexed, IsNumbered};
ghost use Rattle.review_memory.specs.Loads.{IsUnread};

use crate::keys::NameKey;
use crate::tables::MemoryTables;
use review_chain::Standing;
use review_machine_rows::{Base, Counted, Found, MemberKey, Need, Rows, ShelfFault, Want};
use review_table::{Key, Table};
use review_words::{AccountName, AccountNo, GroupName};
use std::alloc::{AllocError, Global};

/// The most projects of a desk.
const MOST_PROJECTS: u64 = 1_000;

/// The most bases of a project, over all its branches.
const MOST_BASES: u64 = 100_000;

impl MemoryTables {
    /// Rows learn what the look-ups of a need find, and of no others. Damaged where the bases of a branch or the rows of a change that is
    /// asked for have a gap, which no history's have.
    pub fn load(&self, alloc: Global, need: &Need, rows: &mut Rows) -> Result<(), ShelfFault>
        requires indexed { IsIndexed (rows_of self.now.accounts) (rows_of self.now.names) }
        requires numbered { IsNumbered (rows_of self.now.members) }
        ensures asked { OnOk result (AreAsked need.now.wants.items rows.old rows.new) }
        ensures found { OnOk result (AgreesBeside (tables_of (desk_of self.now)) rows.old rows.new) }
        ensures fault { IfErr result (IsUnread (tables_of (desk_of self.now))) }
    {
        for want in &need.wants {
            self.find(alloc, want, rows)?;
        }
        Ok(())
    }

    // Learns what a look-up finds.
    fn find(&self, alloc: Global, want: &Want, rows: &mut Rows) -> Result<(), ShelfFault>
        requires indexed { IsIndexed (rows_of self.now.accounts) (rows_of self.now.names) }
        requires numbered { IsNumbered (rows_of self.now.members) }
        ensures found { OnOk result (LearnsFound (tables_of (desk_of self.now)) want.now rows.old rows.new) }
        ensures fault { IfErr result (IsUnread (tables_of (desk_of self.now))) }
    {
        match want.group() {
            Some(group) => {
                let members = self.members_of(alloc, group)?;
                rows.learn_group(group.copy()?, members)?;
            }
            None => {
                let found = self.look_up(alloc, want)?;
                rows.learn(want.copy()?, found)?;
            }
        }
        Ok(())
    }

    // What a look-up finds, but for that of a group.
    fn look_up(&self, alloc: Global, want: &Want) -> Result<Found, ShelfFault>
        requires plain { group_of want.now ≡ None }
        requires indexed { IsIndexed (rows_of self.now.accounts) (rows_of self.now.names) }
        ensures found { IfOk result (λ f. IsFound (tables_of (desk_of self.now)) want.now (meaning f)) }
        ensures fault { IfErr result (IsUnread (tables_of (desk_of self.now))) }
    {
        match want {
            Want::Requests => Ok(Found::Number(self.requests)),
            Want::Account(number) => match self.accounts.get(number) {
                Some(name) => Ok(Found::Name(Some(name.copy()?))),
                None => Ok(Found::Name(None)),
            },
            Want::AccountNamed(name) => Ok(Found::Holder(self.named(alloc, name)?)),
            Want::LastAccount => Ok(Found::Number(u64::from(self.last_account()))),
            Want::Member(member) => Ok(Found::IsSo(self.members.get(member).is_some())),
            Want::Group(_) => unreachable!(),
            Want::File(project) => match self.files.get(project) {
                Some(file) => Ok(Found::Text(Some(file.copy()?))),
                None => Ok(Found::Text(None)),
            },
            Want::Project(project) => Ok(Found::IsSo(self.files.get(project).is_some())),
            Want::Room(Counted::Projects) => Ok(Found::IsSo(self.projects < MOST_PROJECTS)),
            Want::Room(Counted::BasesOf(project)) => {
                Ok(Found::IsSo(self.branches.total(project) < MOST_BASES))
            }
            Want::Base(base) => Ok(Found::IsSo(self.branches.has(alloc, base)?)),
            Want::LastPlace(branch) => Ok(Found::Number(self.branches.last_place(branch))),
            Want::Bases(branch) => Ok(Found::Commits(self.branches.bases_of(alloc, branch)?)),
            Want::Change(number) => Ok(Found::AChange(self.changes.load(alloc, *number)?)),
            Want::ChangeOf(base) => Ok(Found::Sender(self.changes.sender(alloc, base)?)),
            Want::LastChange => Ok(Found::Number(u64::from(self.changes.last()))),
            Want::LastJoined(branch) => {
                Ok(Found::Number(u64::from(self.changes.last_joined(alloc, branch)?)))
            }
            Want::Standing(base) => Ok(Found::Stands(self.standing_of(alloc, base)?)),
            Want::Joined(branch) => Ok(Found::Joins(self.changes.joined(alloc, branch)?)),
            Want::LeastEpoch => Ok(Found::Number(u64::from(self.least))),
        }
    }

    /// What a commit is to a branch.
    fn standing_of(&self, alloc: Global, base: &Base) -> Result<Standing, AllocError>
        ensures { IfOk result (StandsAs (row_of (desk_of self.now)) base.now) }
    {
        if self.branches.has(alloc, base)? {
            return Ok(Standing::InBranch);
        }
        if self.changes.is_merged(alloc, base)? {
            return Ok(Standing::InBranch);
        }
        let Some(sent) = self.changes.sent_patch(alloc, base)? else {
            return Ok(Standing::Nowhere);
        };
        let (change, patch) = sent;
        Ok(Standing::PatchSet { change, patch })
    }

    /// All members of a group.
    fn members_of(
        &self,
        alloc: Global,
        group: &GroupName,
    ) -> Result<Table<AccountNo, ()>, AllocError>
        requires { IsNumbered (rows_of self.now.members) }
        ensures { IfOk result (λ members. HasMembers (row_of (desk_of self.now)) group.now (rows_of members)) }
    {
        let from = MemberKey {
            group: group.copy()?,
            account: AccountNo::first(),
        };
        let to = MemberKey {
            group: group.copy()?,
            account: AccountNo::last(),
        };
        let mut members = Table::new(alloc);
        for (key, _) in self.members.select(alloc, from, to)? {
            members.put(key.account, ())?;
        }
        Ok(members)
    }

    /// The account that has a name.
    fn named(&self, alloc: Global, name: &AccountName) -> Result<Option<AccountNo>, AllocError>
        requires { IsIndexed (rows_of self.now.accounts) (rows_of self.now.names) }
        ensures { IfOk result (λ found. MatchOption found ((n : ℕ) → row_in nat_cmp (rows_of self.now.accounts) n ≡ Some name.now → ⊥) (λ n. row_in nat_cmp (rows_of self.now.accounts) n ≡ Some name.now)) }
    {
        let from = NameKey {
            name: name.copy()?,
            account: AccountNo::first(),
        };
        let to = NameKey {
            name: name.copy()?,
            account: AccountNo::last(),
        };
        for (key, _) in self.names.select(alloc, from, to)? {
            if self.has_name(key.account, name) {
                return Ok(Some(key.account));
            }
        }
        Ok(None)
    }

    /// The greatest number of an account, or 0 where there is none.
    fn last_account(&self) -> u32
        ensures { IsLast AccountKey (row_of (desk_of self.now)) result }
    {
        match self.accounts.last_key() {
            Some(number) => number.get(),
            None => 0,
        }
    }
}
