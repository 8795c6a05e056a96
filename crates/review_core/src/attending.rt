//! The attention set, changed by hand.
ghost use Rattle.std.specs.Prelude.{◌≡◌, true, IfOk};
ghost use Rattle.review_words.specs.declared.command.ChangeCommand.TheVariants.{AddAttention, RemoveAttention};
ghost use Rattle.review_core_rules.specs.{Change.after_plain, EditedChanges.Makes, Seen.seen, Sound.fits};

use crate::file::ChangeFile;
use review_core_rules::{EditedChange, begin_edits, stays_sound};
use review_core_tables::{drop_called, tell};
use review_words::{AccountNo, Reason};
use std::alloc::{AllocError, Global};

impl<'r> ChangeFile<'r> {
    /// An account called by hand.
    pub fn attend(
        &self,
        alloc: Global,
        account: AccountNo,
        reason: &Reason,
        caller: AccountNo,
        request: u64,
    ) -> Result<EditedChange<'r>, AllocError>
        requires { fits (AddAttention account reason.now) (seen self.now.rows.now) ≡ true }
        ensures { IfOk result (Makes self.now.rows.now (after_plain (AddAttention account reason.now) caller request (seen self.now.rows.now))) }
    {
        stays_sound();
        let mut edited = begin_edits(alloc, self.rows, self.rows.header.state, request)?;
        tell(&mut edited.attention, account, reason, request)?;
        Ok(edited)
    }

    /// An account called no more.
    pub fn unattend(
        &self,
        alloc: Global,
        account: AccountNo,
        reason: &Reason,
        caller: AccountNo,
        request: u64,
    ) -> Result<EditedChange<'r>, AllocError>
        ensures { IfOk result (Makes self.now.rows.now (after_plain (RemoveAttention account reason.now) caller request (seen self.now.rows.now))) }
    {
        stays_sound();
        let mut edited = begin_edits(alloc, self.rows, self.rows.header.state, request)?;
        drop_called(&mut edited.attention, account, true)?;
        Ok(edited)
    }
}
