//! What rows know, and how they learn it.
ghost use Rattle.std.specs.Option.{option_map_or};
ghost use Rattle.std.specs.Prelude.{◌≡◌, Some, None, OnOk, false, [], is_some, option_copied, option_map, unwrap_or};
ghost use Rattle.{review_table.specs.Rows.row_in, review_table.specs.Rows.rows_of, review_core_rules.specs.Seen.seen};
ghost use Rattle.review_machine_rows.specs.Known.{Members, known, meaning, group_of, Learns, is_so, is_there, number_of, holder_of, members_of, file_in, commits_of, change_in, standing_of, joined_of};
ghost use Rattle.review_machine_rows.specs.declared.rows.Want.{Want};
ghost use Rattle.review_machine_rows.specs.declared.rows.Want.TheVariants as want;

use crate::rows::{Found, Rows, StoredFile, Want};
use review_chain::Standing;
use review_core_rules::ChangeRows;
use review_table::Table;
use review_words::{AccountNo, Bases, ChangeNo, GroupName, JoinedChange, Listed};
use std::alloc::{AllocError, Global};

impl Want {
    /// The group whose members are looked up.
    pub fn group(&self) -> Option<&GroupName>
        ensures { option_copied result ≡ group_of self.now }
    {
        match self {
            Want::Group(group) => Some(group),
            _ => None,
        }
    }
}

impl Rows {
    /// Rows that know nothing.
    #[tactic(auto, using(crate::proofs::Looked::nothing_known))]
    pub fn new(alloc: Global) -> Rows
        ensures { (w : Want) → known result w ≡ None }
    {
        Rows {
            groups: Table::new(alloc),
            found: Table::new(alloc),
        }
    }

    /// Whether a look-up was made.
    #[tactic(auto, using(crate::proofs::Learning::knows_group, crate::proofs::Learning::knows_found))]
    pub fn knows(&self, want: &Want) -> bool
        ensures { result ≡ is_some (known self.now want.now) }
    {
        match want.group() {
            Some(group) => self.groups.get(group).is_some(),
            None => self.found.get(want).is_some(),
        }
    }

    /// What a look-up found, but for that of a group.
    pub fn learn(&mut self, want: Want, found: Found) -> Result<(), AllocError>
        requires plain { group_of want ≡ None }
        ensures { OnOk result (Learns want (meaning found) self.old self.new) }
    {
        self.found.put(want, found)?;
        Ok(())
    }

    /// The members of a group.
    pub fn learn_group(
        &mut self,
        group: GroupName,
        members: Table<AccountNo, ()>,
    ) -> Result<(), AllocError>
        ensures { OnOk result (Learns (want.Group group) (Members (rows_of members)) self.old self.new) }
    {
        self.groups.put(group, members)?;
        Ok(())
    }

    // What was found, where it was looked up.
    #[tactic(auto, using(crate::proofs::Learning::knows_found))]
    fn found(&self, want: &Want) -> Option<&Found>
        requires plain { group_of want.now ≡ None }
        ensures { option_map (λ f. meaning f) (option_copied result) ≡ known self.now want.now }
    {
        self.found.get(want)
    }

    /// The number that was found; 0 where that is unknown.
    pub fn number(&self, want: &Want) -> u64
        requires plain { group_of want.now ≡ None }
        ensures { result ≡ number_of (known self.now want.now) }
    {
        match self.found(want) {
            Some(Found::Number(number)) => *number,
            _ => 0,
        }
    }

    /// Whether it is known to be so.
    pub fn is_so(&self, want: &Want) -> bool
        requires plain { group_of want.now ≡ None }
        ensures { result ≡ is_so (known self.now want.now) }
    {
        match self.found(want) {
            Some(Found::IsSo(is)) => *is,
            _ => false,
        }
    }

    /// Whether an account is known to be there.
    pub fn is_there(&self, want: &Want) -> bool
        requires plain { group_of want.now ≡ None }
        ensures { result ≡ is_there (known self.now want.now) }
    {
        match self.found(want) {
            Some(Found::Name(name)) => name.is_some(),
            _ => false,
        }
    }

    /// Whether an account or a change is known to be what was looked for.
    pub fn has_holder(&self, want: &Want) -> bool
        requires plain { group_of want.now ≡ None }
        ensures { result ≡ is_some (holder_of (known self.now want.now)) }
    {
        match self.found(want) {
            Some(Found::Holder(holder)) => holder.is_some(),
            Some(Found::Sender(change)) => change.is_some(),
            _ => false,
        }
    }

    /// The members of a group, where they are known.
    pub fn group(&self, group: &GroupName) -> Option<&Table<AccountNo, ()>>
        ensures { option_map_or (λ t. rows_of t) (option_copied result) [] ≡ members_of (known self.now (want.Group group.now)) }
    {
        self.groups.get(group)
    }

    /// The file of a project, where it is known to have one.
    pub fn file(&self, want: &Want) -> Option<&StoredFile>
        requires plain { group_of want.now ≡ None }
        ensures { option_copied result ≡ file_in (known self.now want.now) }
    {
        match self.found(want) {
            Some(Found::Text(Some(file))) => Some(file),
            _ => None,
        }
    }

    /// The bases of a branch, where they are known.
    pub fn bases(&self, want: &Want) -> Option<&Bases>
        requires plain { group_of want.now ≡ None }
        ensures { unwrap_or (option_copied result) [] ≡ commits_of (known self.now want.now) }
    {
        match self.found(want) {
            Some(Found::Commits(bases)) => Some(bases),
            _ => None,
        }
    }

    /// A change, where it is known to be there.
    pub fn change(&self, number: ChangeNo) -> Option<&ChangeRows>
        ensures { option_map (λ c. seen c) (option_copied result) ≡ change_in (known self.now (want.Change number)) }
    {
        let want = Want::Change(number);
        let found = self.found(&want);
        drop(want);
        match found {
            Some(Found::AChange(Some(rows))) => Some(&**rows),
            _ => None,
        }
    }

    /// What a commit is known to be to a branch.
    pub fn standing(&self, want: &Want) -> Option<Standing>
        requires plain { group_of want.now ≡ None }
        ensures { result ≡ standing_of (known self.now want.now) }
    {
        match self.found(want) {
            Some(Found::Stands(standing)) => Some(*standing),
            Some(_) => Some(Standing::Nowhere),
            None => None,
        }
    }

    /// The changes that joined a branch, where they are known.
    pub fn joined(&self, want: &Want) -> Option<&Listed<JoinedChange>>
        requires plain { group_of want.now ≡ None }
        ensures { unwrap_or (option_copied result) [] ≡ joined_of (known self.now want.now) }
    {
        match self.found(want) {
            Some(Found::Joins(joined)) => Some(joined),
            _ => None,
        }
    }
}
