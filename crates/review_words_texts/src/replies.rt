//! The texts of replies.
ghost use Rattle.std.specs.Prelude.{◌≡◌, ◌++◌, map, IfOk, OnOk, string_bytes};
ghost use Rattle.review_names.specs.Numerals.{numeral};
ghost use Rattle.review_words.specs.Texts.{fault_fields, refusal_fields, reply_text};
ghost use Rattle.review_words.specs.declared.reply.Answer.TheVariants.{Reviewed, Submitted};
ghost use Rattle.review_words.specs.declared.reply.Reply.TheVariants.{Done, Refused};
ghost use Rattle.review_words_texts.specs.Shown.{shown};

use crate::{Piece, joined};
use review_names::{ChangeNo, CommentNo};
use review_words::{Answer, CommentNumbers, FileFault, Refusal, Reply};
use std::alloc::{AllocError, Global};

fn add_comments(out: &mut Vec<Piece<'_>>, comments: &[CommentNo]) -> Result<(), AllocError>
    ensures { OnOk result (map shown out.new.items ≡ map shown out.old.items ++ map numeral comments.now) }
{
    for comment in comments {
        out.push(Piece::Number(comment.get() as u64))?;
    }
    Ok(())
}

fn reviewed_text(alloc: Global, numbers: &CommentNumbers) -> Result<String, AllocError>
    ensures { IfOk result (λ t. string_bytes t ≡ reply_text (Done (Reviewed numbers.now))) }
{
    let comments = numbers.as_slice();
    let mut pieces = vec![in alloc;
        Piece::Text("Reviewed"),
        Piece::Number(comments.len() as u64),
    ]?;
    add_comments(&mut pieces, comments)?;
    joined(alloc, &pieces)
}

fn add_changes(out: &mut Vec<Piece<'_>>, changes: &[ChangeNo]) -> Result<(), AllocError>
    ensures { OnOk result (map shown out.new.items ≡ map shown out.old.items ++ map numeral changes.now) }
{
    for change in changes {
        out.push(Piece::Number(change.get() as u64))?;
    }
    Ok(())
}

fn submitted_text(alloc: Global, changes: &[ChangeNo]) -> Result<String, AllocError>
    ensures { IfOk result (λ t. string_bytes t ≡ reply_text (Done (Submitted changes.now))) }
{
    let mut pieces = vec![in alloc;
        Piece::Text("Submitted"),
        Piece::Number(changes.len() as u64),
    ]?;
    add_changes(&mut pieces, changes)?;
    joined(alloc, &pieces)
}

#[tactic(auto, unfolding(review_words::specs::Texts::text_of))]
fn answer_text(alloc: Global, answer: &Answer) -> Result<String, AllocError>
    ensures { IfOk result (λ t. string_bytes t ≡ reply_text (Done answer.now)) }
{
    match answer {
        Answer::Account(account) => {
            let pieces = [Piece::Text("Account"), Piece::Number(account.get() as u64)];
            joined(alloc, &pieces)
        }
        Answer::Nothing => joined(alloc, &[Piece::Text("Nothing")]),
        Answer::Change { change, patch } => {
            let pieces = [
                Piece::Text("Change"),
                Piece::Number(change.get() as u64),
                Piece::Number(patch.get() as u64),
            ];
            joined(alloc, &pieces)
        }
        Answer::Patch {
            change,
            patch,
            copied,
            outdated,
        } => {
            let pieces = [
                Piece::Text("Patch"),
                Piece::Number(change.get() as u64),
                Piece::Number(patch.get() as u64),
                Piece::Number(*copied),
                Piece::Number(*outdated),
            ];
            joined(alloc, &pieces)
        }
        Answer::Reviewed(numbers) => reviewed_text(alloc, numbers),
        Answer::Submitted(changes) => submitted_text(alloc, changes.as_slice()),
        Answer::Branch { .. }
        | Answer::Shown(_)
        | Answer::Requirements(_)
        | Answer::Threads(_)
        | Answer::Attention(_) => Ok(String::new(alloc)),
    }
}

fn add_fault(out: &mut Vec<Piece<'_>>, fault: FileFault) -> Result<(), AllocError>
    ensures { OnOk result (map shown out.new.items ≡ map shown out.old.items ++ fault_fields fault) }
{
    out.push(Piece::Number(fault.number() as u64))?;
    if let FileFault::Expr(expr) = fault {
        out.push(Piece::Number(expr.code.number() as u64))?;
        out.push(Piece::Number(expr.place as u64))?;
    }
    Ok(())
}

/// Adds what a refusal tells beside its number.
fn add_refusal<'a>(out: &mut Vec<Piece<'a>>, refusal: &'a Refusal) -> Result<(), AllocError>
    ensures { OnOk result (map shown out.new.items ≡ map shown out.old.items ++ refusal_fields refusal.now) }
{
    match refusal {
        Refusal::BadFile(fault) => add_fault(out, *fault),
        Refusal::RequirementUnsatisfied {
            change,
            requirement,
        } => {
            out.push(Piece::Number(change.get() as u64))?;
            out.push(Piece::Text(requirement.as_str()))?;
            Ok(())
        }
        _ => Ok(()),
    }
}

fn refusal_text(alloc: Global, refusal: &Refusal) -> Result<String, AllocError>
    ensures { IfOk result (λ t. string_bytes t ≡ reply_text (Refused refusal.now)) }
{
    let mut pieces = vec![in alloc;
        Piece::Text("Refused"),
        Piece::Number(refusal.number() as u64),
    ]?;
    add_refusal(&mut pieces, refusal)?;
    joined(alloc, &pieces)
}

/// The text of a stored reply: the name of its answer and its parts, or `Refused` and the number,
/// for a requirement that is unsatisfied then the change and the requirement, for a bad file then
/// the number of its fault, and for that of an expression then the number of its code and its place. Equal texts come only from equal stored replies. The replies that are
/// never stored, answers to queries, IdentityReused, EpochClosed and NotTaken, have the empty text. An error
/// where there was no memory for it.
#[tactic(auto, unfolding(review_words::specs::Texts::text_of))]
pub fn reply_text(alloc: Global, reply: &Reply) -> Result<String, AllocError>
    ensures { IfOk result (λ t. string_bytes t ≡ reply_text reply.now) }
{
    match reply {
        Reply::Done(answer) => answer_text(alloc, answer),
        Reply::Refused(refusal) => refusal_text(alloc, refusal),
        Reply::IdentityReused | Reply::EpochClosed | Reply::NotTaken(_) => Ok(String::new(alloc)),
    }
}
