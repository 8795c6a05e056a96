//! The state of a change, and whether it is in work in progress.
ghost use Rattle.std.specs.Prelude.{◌≡◌, IfOk};
ghost use Rattle.review_words.specs.declared.command.ChangeCommand.TheVariants.{SetWip, SetReady, Abandon, Restore};
ghost use Rattle.review_core_rules.specs.Change.{after_plain, is_open, joined_at};
ghost use Rattle.review_core_rules.specs.{EditedChanges.Makes, Seen.seen};

use crate::file::ChangeFile;
use crate::roles::who_for;
use review_core_rules::{EditedChange, begin_edits, joins_sound, stays_sound};
use review_core_tables::{WhenReady, call_all, callable};
use review_words::{AccountNo, State};
use std::alloc::{AllocError, Global};

pub fn is_open(state: State) -> bool
    ensures { result ≡ is_open state }
{
    match state {
        State::New => true,
        State::Merged => false,
        State::Abandoned => false,
    }
}

impl<'r> ChangeFile<'r> {
    /// Set to be worked on: nobody is called any more.
    pub fn wip(
        &self,
        alloc: Global,
        caller: AccountNo,
        request: u64,
    ) -> Result<EditedChange<'r>, AllocError>
        ensures { IfOk result (Makes self.now.rows.now (after_plain SetWip caller request (seen self.now.rows.now))) }
    {
        stays_sound();
        let mut edited = begin_edits(alloc, self.rows, self.rows.header.state, request)?;
        edited.header.wip = true;
        edited.attention.clear(alloc)?;
        Ok(edited)
    }

    /// Ready for review: every reviewer is called.
    pub fn ready(
        &self,
        alloc: Global,
        caller: AccountNo,
        request: u64,
    ) -> Result<EditedChange<'r>, AllocError>
        ensures { IfOk result (Makes self.now.rows.now (after_plain SetReady caller request (seen self.now.rows.now))) }
    {
        stays_sound();
        let mut edited = begin_edits(alloc, self.rows, self.rows.header.state, request)?;
        edited.header.wip = false;
        let who = who_for(&edited.header, &self.rows.patches, caller);
        let rule = WhenReady {
            roles: &self.rows.roles,
        };
        let accounts = callable(alloc, &edited.roles, &who)?;
        call_all(alloc, &mut edited.attention, &accounts, &rule, request)?;
        Ok(edited)
    }

    /// Abandoned: nobody is called any more.
    pub fn abandon(
        &self,
        alloc: Global,
        caller: AccountNo,
        request: u64,
    ) -> Result<EditedChange<'r>, AllocError>
        ensures { IfOk result (Makes self.now.rows.now (after_plain Abandon caller request (seen self.now.rows.now))) }
    {
        stays_sound();
        let mut edited = begin_edits(alloc, self.rows, State::Abandoned, request)?;
        edited.attention.clear(alloc)?;
        Ok(edited)
    }

    /// Open again, with nobody new called.
    pub fn restore(
        &self,
        alloc: Global,
        caller: AccountNo,
        request: u64,
    ) -> Result<EditedChange<'r>, AllocError>
        ensures { IfOk result (Makes self.now.rows.now (after_plain Restore caller request (seen self.now.rows.now))) }
    {
        stays_sound();
        let edited = begin_edits(alloc, self.rows, State::New, request)?;
        Ok(edited)
    }

    /// Joined to its branch at a place: nobody is called any more.
    pub fn merged(
        &self,
        alloc: Global,
        place: u32,
        request: u64,
    ) -> Result<EditedChange<'r>, AllocError>
        ensures { IfOk result (Makes self.now.rows.now (joined_at place request (seen self.now.rows.now))) }
    {
        joins_sound();
        let mut edited = begin_edits(alloc, self.rows, State::Merged, request)?;
        edited.header.place = place;
        edited.attention.clear(alloc)?;
        Ok(edited)
    }
}
