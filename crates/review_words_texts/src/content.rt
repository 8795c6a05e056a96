//! The texts of commands.
ghost use Rattle.std.specs.Prelude.{◌≡◌, ◌++◌, ◌∷◌, [], flat_map, map, IfOk, OnOk, string_bytes};
ghost use Rattle.review_names.specs.Numerals.{numeral};
ghost use Rattle.review_words.specs.Texts.{asked_fields, asked_name, comment_fields, content_text, given_fields, shown_flag, shown_link, shown_patch, shown_truth};
ghost use Rattle.review_words.specs.declared.command.ChangeCommand.TheVariants.{Upload};
ghost use Rattle.review_words.specs.declared.command.Command.TheVariants.{CreateAccount, CreateChange, OnChange, PutGroup};
ghost use Rattle.review_words_texts.specs.Shown.{shown};
ghost use Rattle.review_words.specs.declared.command.ChangeCommand.TheVariants as asked;

use crate::{Piece, joined};
use review_names::{
    AccountName, AccountNo, ChangeNo, CommentNo, GroupName, Members, PatchNo, Path,
};
use review_words::{ChangeCommand, Command, Given, NewChange, NewComment, NewPatch, Review};
use std::alloc::{AllocError, Global};

fn add_accounts(out: &mut Vec<Piece<'_>>, accounts: &[AccountNo]) -> Result<(), AllocError>
    ensures { OnOk result (map shown out.new.items ≡ map shown out.old.items ++ map numeral accounts.now) }
{
    for account in accounts {
        out.push(Piece::Number(account.get() as u64))?;
    }
    Ok(())
}

fn add_paths<'a>(out: &mut Vec<Piece<'a>>, paths: &'a [Path]) -> Result<(), AllocError>
    ensures { OnOk result (map shown out.new.items ≡ map shown out.old.items ++ paths.now) }
{
    for path in paths {
        out.push(Piece::Text(path.as_str()))?;
    }
    Ok(())
}

fn add_paths_and_truth<'a>(
    out: &mut Vec<Piece<'a>>,
    paths: &'a [Path],
    truth: bool,
) -> Result<(), AllocError>
    ensures { OnOk result (map shown out.new.items ≡ map shown out.old.items ++ (paths.now ++ shown_truth truth ∷ [])) }
{
    add_paths(out, paths)?;
    out.push(truth_piece(truth))?;
    Ok(())
}

fn add_labels<'a>(out: &mut Vec<Piece<'a>>, labels: &'a [Given]) -> Result<(), AllocError>
    ensures { OnOk result (map shown out.new.items ≡ map shown out.old.items ++ flat_map given_fields labels.now) }
{
    for given in labels {
        out.push(Piece::Text(given.label.as_str()))?;
        out.push(Piece::Signed(given.value))?;
    }
    Ok(())
}

fn truth_piece(truth: bool) -> Piece<'static>
    ensures { shown result ≡ shown_truth truth }
{
    Piece::Text(if truth { "true" } else { "false" })
}

fn flag_piece(flag: Option<bool>) -> Piece<'static>
    ensures { shown result ≡ shown_flag flag }
{
    match flag {
        Some(flag) => truth_piece(flag),
        None => Piece::Text("absent"),
    }
}

fn patch_piece(patch: Option<PatchNo>) -> Piece<'static>
    ensures { shown result ≡ shown_patch patch }
{
    match patch {
        Some(patch) => Piece::Number(patch.get() as u64),
        None => Piece::Text("current"),
    }
}

fn link_piece(link: Option<CommentNo>) -> Piece<'static>
    ensures { shown result ≡ shown_link link }
{
    match link {
        Some(comment) => Piece::Number(comment.get() as u64),
        None => Piece::Text("absent"),
    }
}

fn add_comments<'a>(out: &mut Vec<Piece<'a>>, comments: &'a [NewComment]) -> Result<(), AllocError>
    ensures { OnOk result (map shown out.new.items ≡ map shown out.old.items ++ flat_map comment_fields comments.now) }
{
    for comment in comments {
        out.push(Piece::Text(comment.path.as_str()))?;
        out.push(Piece::Number(comment.line as u64))?;
        out.push(Piece::Text(comment.message.as_str()))?;
        out.push(flag_piece(comment.unresolved))?;
        out.push(link_piece(comment.in_reply_to))?;
    }
    Ok(())
}

fn account_text(alloc: Global, name: &AccountName) -> Result<String, AllocError>
    ensures { IfOk result (λ t. string_bytes t ≡ content_text (CreateAccount name.now)) }
{
    let pieces = [Piece::Text("CreateAccount"), Piece::Text(name.as_str())];
    joined(alloc, &pieces)
}

fn group_text(alloc: Global, group: &GroupName, members: &Members) -> Result<String, AllocError>
    ensures { IfOk result (λ t. string_bytes t ≡ content_text (PutGroup group.now members.now)) }
{
    let accounts = members.as_slice();
    let mut out = vec![in alloc;
        Piece::Text("PutGroup"),
        Piece::Text(group.as_str()),
        Piece::Number(accounts.len() as u64),
    ]?;
    add_accounts(&mut out, accounts)?;
    joined(alloc, &out)
}

fn change_text(alloc: Global, new: &NewChange) -> Result<String, AllocError>
    ensures { IfOk result (λ t. string_bytes t ≡ content_text (CreateChange new.now)) }
{
    let paths = new.paths.as_slice();
    let mut out = vec![in alloc;
        Piece::Text("CreateChange"),
        Piece::Text(new.project.as_str()),
        Piece::Text(new.branch.as_str()),
        Piece::Text(new.subject.as_str()),
        Piece::Text(new.commit.as_str()),
        Piece::Text(new.parent.as_str()),
        Piece::Number(paths.len() as u64),
    ]?;
    add_paths_and_truth(&mut out, paths, new.wip)?;
    joined(alloc, &out)
}

fn add_upload<'a>(out: &mut Vec<Piece<'a>>, new: &'a NewPatch) -> Result<(), AllocError>
    ensures { OnOk result (map shown out.new.items ≡ map shown out.old.items ++ asked_fields (Upload new.now)) }
{
    let paths = new.paths.as_slice();
    out.push(Piece::Text(new.commit.as_str()))?;
    out.push(Piece::Text(new.parent.as_str()))?;
    out.push(Piece::Text(new.kind.name()))?;
    out.push(Piece::Number(paths.len() as u64))?;
    add_paths(out, paths)?;
    Ok(())
}

fn add_review<'a>(out: &mut Vec<Piece<'a>>, review: &'a Review) -> Result<(), AllocError>
    ensures { OnOk result (map shown out.new.items ≡ map shown out.old.items ++ asked_fields (asked.Review review.now)) }
{
    let labels = review.labels.as_slice();
    let comments = review.comments.as_slice();
    out.push(patch_piece(review.patch))?;
    out.push(Piece::Text(review.message.as_str()))?;
    out.push(Piece::Number(labels.len() as u64))?;
    add_labels(out, labels)?;
    out.push(Piece::Number(comments.len() as u64))?;
    add_comments(out, comments)?;
    Ok(())
}

fn add_call<'a>(
    out: &mut Vec<Piece<'a>>,
    account: AccountNo,
    text: &'a str,
) -> Result<(), AllocError>
    ensures { OnOk result (map shown out.new.items ≡ map shown out.old.items ++ numeral account ∷ text.now ∷ []) }
{
    out.push(Piece::Number(account.get() as u64))?;
    out.push(Piece::Text(text))?;
    Ok(())
}

/// Adds the fields of what is asked of a change.
fn add_asked<'a>(out: &mut Vec<Piece<'a>>, command: &'a ChangeCommand) -> Result<(), AllocError>
    ensures { OnOk result (map shown out.new.items ≡ map shown out.old.items ++ asked_fields command.now) }
{
    match command {
        ChangeCommand::Upload(new) => add_upload(out, new),
        ChangeCommand::Review(review) => add_review(out, review),
        ChangeCommand::AddReviewer { account, role } => add_call(out, *account, role.name()),
        ChangeCommand::RemoveReviewer { account } => {
            out.push(Piece::Number(account.get() as u64))?;
            Ok(())
        }
        ChangeCommand::AddAttention { account, reason }
        | ChangeCommand::RemoveAttention { account, reason } => {
            add_call(out, *account, reason.as_str())
        }
        ChangeCommand::SetWip
        | ChangeCommand::SetReady
        | ChangeCommand::Abandon
        | ChangeCommand::Restore => Ok(()),
    }
}

fn asked_name(command: &ChangeCommand) -> &str
    ensures { result.now ≡ asked_name command.now }
{
    match command {
        ChangeCommand::Upload(_) => "Upload",
        ChangeCommand::Review(_) => "Review",
        ChangeCommand::AddReviewer { .. } => "AddReviewer",
        ChangeCommand::RemoveReviewer { .. } => "RemoveReviewer",
        ChangeCommand::SetWip => "SetWip",
        ChangeCommand::SetReady => "SetReady",
        ChangeCommand::Abandon => "Abandon",
        ChangeCommand::Restore => "Restore",
        ChangeCommand::AddAttention { .. } => "AddAttention",
        ChangeCommand::RemoveAttention { .. } => "RemoveAttention",
    }
}

fn asked_text(
    alloc: Global,
    change: ChangeNo,
    command: &ChangeCommand,
) -> Result<String, AllocError>
    ensures { IfOk result (λ t. string_bytes t ≡ content_text (OnChange change command.now)) }
{
    let mut out = Vec::with_capacity(alloc, 12)?;
    out.push(Piece::Text(asked_name(command)))?;
    out.push(Piece::Number(change.get() as u64))?;
    add_asked(&mut out, command)?;
    joined(alloc, &out)
}

/// The text of a command: its name, then its fields, a set or a list as its count and then its
/// members, a file as its text, each with its length in bytes before it; where something is asked of
/// a change, the change before its other fields. Equal texts come only from
/// equal commands. An error where there was no memory for it.
pub fn content_text(alloc: Global, command: &Command) -> Result<String, AllocError>
    ensures { IfOk result (λ t. string_bytes t ≡ content_text command.now) }
{
    match command {
        Command::CreateAccount { name } => account_text(alloc, name),
        Command::PutGroup { group, members } => group_text(alloc, group, members),
        Command::PutProject { project, file } => {
            let pieces = [
                Piece::Text("PutProject"),
                Piece::Text(project.as_str()),
                Piece::Text(file.as_str()),
            ];
            joined(alloc, &pieces)
        }
        Command::RecordBase {
            project,
            branch,
            commit,
        } => {
            let pieces = [
                Piece::Text("RecordBase"),
                Piece::Text(project.as_str()),
                Piece::Text(branch.as_str()),
                Piece::Text(commit.as_str()),
            ];
            joined(alloc, &pieces)
        }
        Command::CreateChange(new) => change_text(alloc, new),
        Command::OnChange { change, command } => asked_text(alloc, *change, command),
        Command::Submit { change } => {
            let pieces = [Piece::Text("Submit"), Piece::Number(change.get() as u64)];
            joined(alloc, &pieces)
        }
        Command::CloseEpoch { epoch } => {
            let pieces = [Piece::Text("CloseEpoch"), Piece::Number(epoch.get() as u64)];
            joined(alloc, &pieces)
        }
    }
}
