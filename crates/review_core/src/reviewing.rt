//! A review: its votes, the role of its writer, its comments, and who is called.
ghost use Rattle.std.specs.List.{list_any};
ghost use Rattle.std.specs.Prelude.{◌≡◌, ◌==◌, ◌&&◌, ◌||◌, not, ℕ, true, None, length, unwrap_or, IfOk, OnOk, if◌then◌else◌};
ghost use Rattle.review_names.specs.Forms.{is_within, most_patches};
ghost use Rattle.review_words.specs.declared.command.ChangeCommand.TheVariants.{Review as ReviewOf};
ghost use Rattle.review_core_rules.specs.Change.{after_plain, is_open, kept_or, why_commented, why_replied};
ghost use Rattle.review_core_rules.specs.EditedChanges.{Makes, after_edits};
ghost use Rattle.review_core_rules.specs.{EditedRows.edited_account, Seen.seen, Sound.fits};

use crate::file::ChangeFile;
use crate::roles::{current_patch, who_for};
use crate::states::is_open;
use review_core_rules::{
    AttentionEntry, Comment, EditedChange, PatchRow, Post, begin_edits, stays_sound,
};
use review_core_tables::{
    Origin, WhenReviewed, Who, call_all, callable, drop_called, give, new_comments, posts,
    review_roles,
};
use review_table::Edited;
use review_words::{AccountNo, NewComment, PatchNo, Review, Role, State};
use std::alloc::{AllocError, Global};

/// Whether who writes a review leaves the attention set.
fn leaves(state: State, wip: bool) -> bool
    ensures { result ≡ (not (is_open state) || not wip) }
{
    !is_open(state) || !wip
}

/// Takes who writes the review out of the attention set, where he is to go, and calls those of these accounts whom the review calls: on an open
/// change the owner, the uploader and who wrote in the threads that the given comments answer, on a closed one the owner, where one of the new
/// comments is unresolved.
fn call_reviewed(
    alloc: Global,
    attention: &mut Edited<'_, AccountNo, AttentionEntry>,
    accounts: &[AccountNo],
    who: &Who,
    state: State,
    stored: &[Post],
    given: &[NewComment],
    new: &[Comment],
    request: u64,
) -> Result<(), AllocError>
    ensures table { attention.new.rows ≡ attention.old.rows }
    ensures called { OnOk result ((u : ℕ) → edited_account attention.new u ≡ kept_or (if (who.now.caller == u) && (not (is_open state) || not who.now.wip) then None else edited_account attention.old u) (if list_any (λ x. x == u) accounts.now then (if is_open state then why_replied stored.now given.now who.now.caller who.now.owner who.now.uploader u else why_commented new.now who.now.caller who.now.owner u) else None) request) }
{
    let rule = WhenReviewed {
        is_open: is_open(state),
        stored,
        given,
        new,
        caller: who.caller,
        owner: who.owner,
        uploader: who.uploader,
    };
    let is_gone = leaves(state, who.wip);
    drop_called(attention, who.caller, is_gone)?;
    call_all(alloc, attention, accounts, &rule, request)
}

/// The patch set that is reviewed.
fn reviewed_patch(patches: &[PatchRow], review: &Review) -> PatchNo
    requires { is_within most_patches (length patches.now) ≡ true }
    ensures { result ≡ unwrap_or review.now.patch (length patches.now) }
{
    match review.patch {
        Some(patch) => patch,
        None => current_patch(patches),
    }
}

impl<'r> ChangeFile<'r> {
    /// A review: votes, a message, comments.
    pub fn with_review(
        &self,
        alloc: Global,
        review: &Review,
        caller: AccountNo,
        request: u64,
    ) -> Result<EditedChange<'r>, AllocError>
        requires { fits (ReviewOf review.now) (seen self.now.rows.now) ≡ true }
        ensures { IfOk result (Makes self.now.rows.now (after_plain (ReviewOf review.now) caller request (seen self.now.rows.now))) }
    {
        let mut edited = begin_edits(alloc, self.rows, self.rows.header.state, request)?;
        match self.add_review(alloc, &mut edited, review, caller, request) {
            Ok(()) => Ok(edited),
            Err(error) => {
                drop(edited);
                Err(error)
            }
        }
    }

    // Adds a review to a change that is begun.
    fn add_review(
        &self,
        alloc: Global,
        edited: &mut EditedChange<'r>,
        review: &Review,
        caller: AccountNo,
        request: u64,
    ) -> Result<(), AllocError>
        requires fitting { fits (ReviewOf review.now) (seen self.now.rows.now) ≡ true }
        requires over { edited.old.rows ≡ self.now.rows }
        requires same { after_edits edited.old ≡ record (seen self.now.rows.now) { updated = request } }
        ensures { OnOk result (Makes self.now.rows.now (after_plain (ReviewOf review.now) caller request (seen self.now.rows.now)) edited.new) }
    {
        stays_sound();
        let who = who_for(&self.rows.header, &self.rows.patches, caller);
        let patch = reviewed_patch(&self.rows.patches, review);
        let labels = review.labels.as_slice();
        give(&mut edited.votes, patch, caller, labels)?;
        review_roles(&mut edited.roles, review, who.owner, caller)?;
        let origin = Origin {
            patch,
            author: caller,
            request,
        };
        let new = new_comments(alloc, &self.rows.comments, &origin, review)?;
        let stored = posts(alloc, &self.rows.comments)?;
        let given = review.comments.as_slice();
        let accounts = callable(alloc, &edited.roles, &who)?;
        call_reviewed(
            alloc,
            &mut edited.attention,
            &accounts,
            &who,
            self.rows.header.state,
            &stored,
            given,
            &new,
            request,
        )?;
        edited.comments = new;
        Ok(())
    }
}
