//! What questions about a change or a branch are told, as JSON.
ghost use Rattle.std.specs.Prelude.{◌≡◌, OnOk, Some};
ghost use Rattle.json.specs.Tree.{members_tokens};
ghost use Rattle.serde_json.specs.{Data.string, Written.members_outline};
ghost use Rattle.review_words.specs.States.{state_name, status_name};
ghost use Rattle.review_json.specs.Shown.{vote_data, first_members, last_members, change_data, joined_change_data, requirement_data, with_answered, words_members, comment_data, thread_data, attention_entry_data};
ghost use Rattle.review_json.specs.Tokens.{HasPut};

use crate::text::{JsonText, Written};
use review_words::{
    CommentNo, JoinedChange, ShownAttentionEntry, ShownChange, ShownComment, ShownRequirement,
    ShownVote, State, Status, Thread,
};
use std::alloc::AllocError;

impl Written for State {
    ghost value_of = { λ state. string (state_name state) };

    fn write_to(&self, text: &mut JsonText) -> Result<(), AllocError> {
        text.text(self.name())
    }
}

impl Written for Status {
    ghost value_of = { λ status. string (status_name status) };

    fn write_to(&self, text: &mut JsonText) -> Result<(), AllocError> {
        text.text(self.name())
    }
}

impl Written for ShownVote {
    ghost value_of = { vote_data };

    fn write_to(&self, text: &mut JsonText) -> Result<(), AllocError> {
        text.begin_object()?;
        text.put("account", &self.account)?;
        text.put("label", &self.label)?;
        text.put("value", &self.value)?;
        text.end_object()?;
        Ok(())
    }
}

/// Puts the last members of a change, and ends it.
fn put_last_members(text: &mut JsonText, shown: &ShownChange) -> Result<(), AllocError>
    ensures { OnOk result (HasPut text.old text.new (members_tokens (members_outline (last_members shown.now)))) }
{
    text.put("reviewers", &shown.reviewers)?;
    text.put("status", &shown.state)?;
    text.put("subject", &shown.subject)?;
    text.put("updated", &shown.updated)?;
    text.put("uploader", &shown.uploader)?;
    text.put("votes", &shown.votes)?;
    text.put("work_in_progress", &shown.wip)?;
    text.end_object()?;
    Ok(())
}

/// Puts the members of a change, and ends it.
fn put_members(text: &mut JsonText, shown: &ShownChange) -> Result<(), AllocError>
    ensures { OnOk result (HasPut text.old text.new (members_tokens (members_outline (first_members shown.now (last_members shown.now))))) }
{
    text.put("branch", &shown.branch)?;
    text.put("ccs", &shown.ccs)?;
    text.put("change", &shown.change)?;
    text.put("commit", &shown.commit)?;
    text.put("current_patch_set", &shown.patch)?;
    text.put("owner", &shown.owner)?;
    text.put("project", &shown.project)?;
    put_last_members(text, shown)?;
    Ok(())
}

impl Written for ShownChange {
    ghost value_of = { change_data };

    fn write_to(&self, text: &mut JsonText) -> Result<(), AllocError> {
        text.begin_object()?;
        put_members(text, self)
    }
}

impl Written for JoinedChange {
    ghost value_of = { joined_change_data };

    fn write_to(&self, text: &mut JsonText) -> Result<(), AllocError> {
        text.begin_object()?;
        text.put("change", &self.change)?;
        text.put("commit", &self.commit)?;
        text.end_object()?;
        Ok(())
    }
}

impl Written for ShownRequirement {
    ghost value_of = { requirement_data };

    fn write_to(&self, text: &mut JsonText) -> Result<(), AllocError> {
        text.begin_object()?;
        text.put("name", &self.name)?;
        text.put("status", &self.status)?;
        text.end_object()?;
        Ok(())
    }
}

/// Puts the last members of a comment, and ends it.
fn put_words(text: &mut JsonText, comment: &ShownComment) -> Result<(), AllocError>
    ensures { OnOk result (HasPut text.old text.new (members_tokens (members_outline (words_members comment.now)))) }
{
    text.put("line", &comment.line)?;
    text.put("message", &comment.message)?;
    text.put("patch_set", &comment.patch)?;
    text.put("path", &comment.path)?;
    text.put("unresolved", &comment.unresolved)?;
    text.end_object()?;
    Ok(())
}

/// Puts the comment that is answered, and what stands behind that.
fn put_reply(
    text: &mut JsonText,
    answered: CommentNo,
    comment: &ShownComment,
) -> Result<(), AllocError>
    ensures { OnOk result (HasPut text.old text.new (members_tokens (members_outline (with_answered (Some answered) (words_members comment.now))))) }
{
    text.put("in_reply_to", &answered)?;
    put_words(text, comment)?;
    Ok(())
}

/// Puts the comment that is answered, if one is, and what stands behind that.
fn put_answered(text: &mut JsonText, comment: &ShownComment) -> Result<(), AllocError>
    ensures { OnOk result (HasPut text.old text.new (members_tokens (members_outline (with_answered comment.now.answers (words_members comment.now))))) }
{
    match comment.answers {
        Some(answered) => put_reply(text, answered, comment),
        None => put_words(text, comment),
    }
}

impl Written for ShownComment {
    ghost value_of = { comment_data };

    fn write_to(&self, text: &mut JsonText) -> Result<(), AllocError> {
        text.begin_object()?;
        text.put("author", &self.author)?;
        text.put("id", &self.number)?;
        put_answered(text, self)
    }
}

impl Written for Thread {
    ghost value_of = { thread_data };

    fn write_to(&self, text: &mut JsonText) -> Result<(), AllocError> {
        text.begin_object()?;
        text.put("comments", &self.comments)?;
        text.put("root", &self.root)?;
        text.put("unresolved", &self.unresolved)?;
        text.end_object()?;
        Ok(())
    }
}

impl Written for ShownAttentionEntry {
    ghost value_of = { attention_entry_data };

    fn write_to(&self, text: &mut JsonText) -> Result<(), AllocError> {
        text.begin_object()?;
        text.put("account", &self.account)?;
        text.put("reason", &self.reason)?;
        text.put("request", &self.request)?;
        text.end_object()?;
        Ok(())
    }
}
