//! Reviewers, CCs, and who has to do with a change.
ghost use Rattle.std.specs.Prelude.{◌≡◌, ◌==◌, ◌&&◌, ◌||◌, not, true, length, unwrap_or, Some, IfOk, OnOk};
ghost use Rattle.review_names.specs.Forms.{is_within, most_patches};
ghost use Rattle.review_words.specs.declared.command.ChangeCommand.TheVariants.{AddReviewer, RemoveReviewer};
ghost use Rattle.review_core_rules.specs.Change.{after_plain, is_open, is_reviewer, last_uploader};
ghost use Rattle.review_core_rules.specs.{EditedChanges.Makes, EditedChanges.after_edits, Seen.seen};
ghost use Rattle.review_core_tables.specs.declared.attention.Who.{Who};

use crate::file::ChangeFile;
use crate::states::is_open;
use review_core_rules::{EditedChange, Header, PatchRow, begin_edits, stays_sound};
use review_core_standing::last_uploader;
use review_core_tables::{
    WhenAdded, Who, call_all, callable, drop_called, drop_votes, is_reviewer,
};
use review_words::{AccountNo, PatchNo, Role, State};
use std::alloc::{AllocError, Global};

/// Who has to do with a change, for a request of this caller.
pub fn who_for(header: &Header, patches: &[PatchRow], caller: AccountNo) -> Who
    ensures { result ≡ record { owner = header.now.owner; uploader = last_uploader header.now.owner patches.now; caller = caller; wip = header.now.wip } }
{
    Who {
        owner: header.owner,
        uploader: last_uploader(header.owner, patches),
        caller,
        wip: header.wip,
    }
}

/// The number of the current patch set.
pub fn current_patch(patches: &[PatchRow]) -> PatchNo
    requires { is_within most_patches (length patches.now) ≡ true }
    ensures { result ≡ length patches.now }
{
    match PatchNo::from_number(patches.len() as u64) {
        Some(patch) => patch,
        None => unreachable!(),
    }
}

fn calls_reviewer(role: Role, state: State) -> bool
    ensures { result ≡ (is_reviewer (Some role) && is_open state) }
{
    is_reviewer(Some(role)) && is_open(state)
}

fn is_other(account: AccountNo, owner: AccountNo, uploader: AccountNo) -> bool
    ensures { result ≡ not ((owner == account) || (uploader == account)) }
{
    owner != account && uploader != account
}

impl<'r> ChangeFile<'r> {
    /// A role for an account.
    pub fn with_reviewer(
        &self,
        alloc: Global,
        account: AccountNo,
        role: Role,
        caller: AccountNo,
        request: u64,
    ) -> Result<EditedChange<'r>, AllocError>
        ensures { IfOk result (Makes self.now.rows.now (after_plain (AddReviewer account role) caller request (seen self.now.rows.now))) }
    {
        let mut edited = begin_edits(alloc, self.rows, self.rows.header.state, request)?;
        match self.add_reviewer(alloc, &mut edited, account, role, caller, request) {
            Ok(()) => Ok(edited),
            Err(error) => {
                drop(edited);
                Err(error)
            }
        }
    }

    // Adds a role for an account to a change that is begun.
    fn add_reviewer(
        &self,
        alloc: Global,
        edited: &mut EditedChange<'r>,
        account: AccountNo,
        role: Role,
        caller: AccountNo,
        request: u64,
    ) -> Result<(), AllocError>
        requires over { edited.old.rows ≡ self.now.rows }
        requires same { after_edits edited.old ≡ record (seen self.now.rows.now) { updated = request } }
        ensures { OnOk result (Makes self.now.rows.now (after_plain (AddReviewer account role) caller request (seen self.now.rows.now)) edited.new) }
    {
        stays_sound();
        edited.roles.set(account, Some(role))?;
        let who = who_for(&self.rows.header, &self.rows.patches, caller);
        let rule = WhenAdded {
            account,
            is_called: calls_reviewer(role, self.rows.header.state),
        };
        let accounts = callable(alloc, &edited.roles, &who)?;
        call_all(alloc, &mut edited.attention, &accounts, &rule, request)?;
        Ok(())
    }

    /// No role for an account any more, and no votes on the current patch set.
    pub fn without_reviewer(
        &self,
        alloc: Global,
        account: AccountNo,
        caller: AccountNo,
        request: u64,
    ) -> Result<EditedChange<'r>, AllocError>
        ensures { IfOk result (Makes self.now.rows.now (after_plain (RemoveReviewer account) caller request (seen self.now.rows.now))) }
    {
        let mut edited = begin_edits(alloc, self.rows, self.rows.header.state, request)?;
        match self.remove_reviewer(alloc, &mut edited, account, caller, request) {
            Ok(()) => Ok(edited),
            Err(error) => {
                drop(edited);
                Err(error)
            }
        }
    }

    // Takes the role of an account out of a change that is begun, and its votes on the current patch set.
    fn remove_reviewer(
        &self,
        alloc: Global,
        edited: &mut EditedChange<'r>,
        account: AccountNo,
        caller: AccountNo,
        request: u64,
    ) -> Result<(), AllocError>
        requires over { edited.old.rows ≡ self.now.rows }
        requires same { after_edits edited.old ≡ record (seen self.now.rows.now) { updated = request } }
        ensures { OnOk result (Makes self.now.rows.now (after_plain (RemoveReviewer account) caller request (seen self.now.rows.now)) edited.new) }
    {
        stays_sound();
        let who = who_for(&self.rows.header, &self.rows.patches, caller);
        let patch = current_patch(&self.rows.patches);
        edited.roles.set(account, None)?;
        let is_gone = is_other(account, who.owner, who.uploader);
        drop_called(&mut edited.attention, account, is_gone)?;
        drop_votes(alloc, &mut edited.votes, patch, account)?;
        Ok(())
    }
}
