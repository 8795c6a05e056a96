//! Texts of replies, read.
ghost use Rattle.std.specs.Prelude.{◌≡◌, ◌≤◌, Some, drop, map, option_map, true, IfOk, IfErr, IfSome, OnOk};
ghost use Rattle.{std.specs.Str.bytes_eq, review_names.specs.Bad.Gives};
ghost use Rattle.review_names.specs.Forms.{is_label, most_changes, most_comments, most_patches};
ghost use Rattle.review_names.specs.declared.names.Bad.TheVariants.{Form};
ghost use Rattle.review_words.specs.Texts.{most_joined, reply_text, IsCommentNumber, IsRefusalOf, IsStored, IsStoredAnswer};
ghost use Rattle.review_words.specs.declared.reply.Answer.TheVariants.{Reviewed, Submitted};
ghost use Rattle.review_words.specs.declared.reply.{Refusal.TheVariants.BadFile, Reply.Reply};
ghost use Rattle.review_words_texts.specs.Reading.{expr_fault_of, file_fault_of, label_of, list_of, new_change_of, new_patch_of, number_within, numbers_in, plain_answer_of, refusal_of, reply_of, unsatisfied_of};

use crate::replies::reply_text;
use crate::{cut, field_at};
use review_names::{Bad, ChangeNo, CommentNo, LabelName, PatchNo, read_account, read_number};
use review_words::{
    Answer, CommentNumbers, ExprCode, ExprFault, FileFault, Listed, Refusal, Reply,
};
use std::alloc::{AllocError, AllocFailed, Global};

fn is(bytes: &[u8], word: &str) -> bool
    ensures { result ≡ bytes_eq bytes.now word.now }
{
    bytes == word.as_bytes()
}

#[tactic(auto, unfolding(crate::specs::Reading::expr_fault_of))]
fn read_expr_fault(fields: &[&[u8]]) -> Option<ExprFault>
    ensures { result ≡ expr_fault_of (map (λ f. f.now) fields.now) }
{
    let code = ExprCode::from_number(read_number(field_at(fields, 3))?)?;
    let place = read_number(field_at(fields, 4))?;
    Some(ExprFault {
        place: place as usize,
        code,
    })
}

#[tactic(auto, unfolding(crate::specs::Reading::file_fault_of))]
fn read_file_fault(fields: &[&[u8]]) -> Option<FileFault>
    ensures { result ≡ file_fault_of (map (λ f. f.now) fields.now) }
{
    let number = read_number(field_at(fields, 2))?;
    if number == 7 {
        let fault = read_expr_fault(fields)?;
        return Some(FileFault::Expr(fault));
    }
    FileFault::from_number(number)
}

#[tactic(auto, unfolding(crate::specs::Reading::number_within, review_names::specs::Forms::is_within))]
fn read_change(bytes: &[u8]) -> Option<ChangeNo>
    ensures change { result ≡ number_within most_changes bytes.now }
    ensures range { IfSome result (λ n. (1 ≤ n) × (n ≤ most_changes)) }
{
    ChangeNo::from_number(read_number(bytes)?)
}

#[tactic(auto, unfolding(crate::specs::Reading::number_within, review_names::specs::Forms::is_within))]
fn read_patch(bytes: &[u8]) -> Option<PatchNo>
    ensures patch { result ≡ number_within most_patches bytes.now }
    ensures range { IfSome result (λ n. (1 ≤ n) × (n ≤ most_patches)) }
{
    PatchNo::from_number(read_number(bytes)?)
}

#[tactic(auto, unfolding(crate::specs::Reading::number_within, review_names::specs::Forms::is_within))]
fn read_comment(bytes: &[u8]) -> Option<CommentNo>
    ensures comment { result ≡ number_within most_comments bytes.now }
    ensures range { IfSome result IsCommentNumber }
{
    CommentNo::from_number(read_number(bytes)?)
}

#[tactic(auto, unfolding(crate::specs::Reading::new_change_of))]
fn read_new_change(fields: &[&[u8]]) -> Option<Answer>
    ensures answer { result ≡ new_change_of (map (λ f. f.now) fields.now) }
    ensures stored { IfSome result IsStoredAnswer }
{
    let change = read_change(field_at(fields, 1))?;
    let patch = read_patch(field_at(fields, 2))?;
    Some(Answer::Change { change, patch })
}

#[tactic(auto, unfolding(crate::specs::Reading::new_patch_of))]
fn read_new_patch(fields: &[&[u8]]) -> Option<Answer>
    ensures answer { result ≡ new_patch_of (map (λ f. f.now) fields.now) }
    ensures stored { IfSome result IsStoredAnswer }
{
    let change = read_change(field_at(fields, 1))?;
    let patch = read_patch(field_at(fields, 2))?;
    let copied = read_number(field_at(fields, 3))?;
    let outdated = read_number(field_at(fields, 4))?;
    Some(Answer::Patch {
        change,
        patch,
        copied,
        outdated,
    })
}

/// The name of a label or a requirement that a field is.
#[tactic(auto, unfolding(crate::specs::Reading::label_of))]
fn read_label(alloc: Global, bytes: &[u8]) -> Result<LabelName, Bad>
    ensures name { Gives result (label_of bytes.now) }
    ensures form { IfOk result (λ n. is_label n ≡ true) }
{
    let Ok(text) = str::from_utf8(bytes) else {
        return Err(Bad::Form);
    };
    match LabelName::read(alloc, text) {
        Ok(name) => Ok(name),
        Err(Bad::Form) => Err(Bad::Form),
        Err(Bad::Memory) => Err(Bad::Memory),
    }
}

/// The change that fields tell, and its requirement that is unsatisfied.
#[tactic(auto, unfolding(crate::specs::Reading::unsatisfied_of))]
fn read_unsatisfied(alloc: Global, fields: &[&[u8]]) -> Result<Refusal, Bad>
    ensures refusal { Gives result (unsatisfied_of (map (λ f. f.now) fields.now)) }
    ensures stored { IfOk result IsRefusalOf }
{
    let Some(change) = read_change(field_at(fields, 2)) else {
        return Err(Bad::Form);
    };
    let requirement = read_label(alloc, field_at(fields, 3))?;
    Ok(Refusal::RequirementUnsatisfied {
        change,
        requirement,
    })
}

fn read_bad_file(fields: &[&[u8]]) -> Option<Refusal>
    ensures refusal { result ≡ option_map (λ fault. BadFile fault) (file_fault_of (map (λ f. f.now) fields.now)) }
    ensures stored { IfSome result IsRefusalOf }
{
    let fault = read_file_fault(fields)?;
    Some(Refusal::BadFile(fault))
}

#[tactic(auto, unfolding(crate::specs::Reading::refusal_of))]
fn read_refusal(alloc: Global, fields: &[&[u8]]) -> Result<Refusal, Bad>
    ensures refusal { Gives result (refusal_of (map (λ f. f.now) fields.now)) }
    ensures stored { IfOk result IsRefusalOf }
{
    let Some(number) = read_number(field_at(fields, 1)) else {
        return Err(Bad::Form);
    };
    if number == 23 {
        return read_unsatisfied(alloc, fields);
    }
    let refusal = if number == 26 {
        read_bad_file(fields)
    } else {
        Refusal::from_number(number)
    };
    refusal.ok_or(Bad::Form)
}

/// The answer of fields that tell no list.
#[tactic(auto, unfolding(crate::specs::Reading::plain_answer_of))]
fn read_plain(fields: &[&[u8]]) -> Option<Answer>
    ensures answer { result ≡ plain_answer_of (map (λ f. f.now) fields.now) }
    ensures stored { IfSome result IsStoredAnswer }
{
    let name = field_at(fields, 0);
    if is(name, "Account") {
        let account = read_account(field_at(fields, 1))?;
        return Some(Answer::Account(account));
    }
    if is(name, "Nothing") {
        return Some(Answer::Nothing);
    }
    if is(name, "Change") {
        return read_new_change(fields);
    }
    if is(name, "Patch") {
        return read_new_patch(fields);
    }
    None
}

/// The fields from a place on.
fn fields_from<'a, 'b>(fields: &'b [&'a [u8]], first: usize) -> &'b [&'a [u8]]
    ensures { map (λ f. f.now) result.now ≡ drop first (map (λ f. f.now) fields.now) }
{
    if first <= fields.len() {
        &fields[first..]
    } else {
        &[]
    }
}

/// The numbers of comments that fields tell.
fn read_comment_numbers(alloc: Global, fields: &[&[u8]]) -> Result<CommentNumbers, Bad>
    ensures { Gives result (numbers_in most_comments (map (λ f. f.now) fields.now)) }
{
    let mut numbers = Vec::new(alloc);
    for field in fields {
        let Some(number) = read_comment(field) else {
            return Err(Bad::Form);
        };
        numbers.push(number)?;
    }
    Ok(CommentNumbers::from_vec(numbers))
}

/// The numbers of changes that fields tell.
fn read_change_numbers(alloc: Global, fields: &[&[u8]]) -> Result<Listed<ChangeNo>, Bad>
    ensures { Gives result (numbers_in most_changes (map (λ f. f.now) fields.now)) }
{
    let mut numbers = Vec::new(alloc);
    for field in fields {
        let Some(number) = read_change(field) else {
            return Err(Bad::Form);
        };
        numbers.push(number)?;
    }
    Ok(Listed::from_vec(numbers))
}

/// The numbers of comments that fields tell, at most 10,000.
#[tactic(auto, unfolding(crate::specs::Reading::list_of))]
fn read_comments(alloc: Global, fields: &[&[u8]]) -> Result<CommentNumbers, Bad>
    ensures comments { Gives result (list_of most_comments most_comments (map (λ f. f.now) fields.now)) }
    ensures stored { IfOk result (λ c. IsStoredAnswer (Reviewed c)) }
{
    if fields.len() > 10_000 {
        return Err(Bad::Form);
    }
    read_comment_numbers(alloc, fields)
}

/// The changes that joined, at most 100.
#[tactic(auto, unfolding(crate::specs::Reading::list_of))]
fn read_joined(alloc: Global, fields: &[&[u8]]) -> Result<Listed<ChangeNo>, Bad>
    ensures joined { Gives result (list_of most_joined most_changes (map (λ f. f.now) fields.now)) }
    ensures stored { IfOk result (λ c. IsStoredAnswer (Submitted c)) }
{
    if fields.len() > 100 {
        return Err(Bad::Form);
    }
    read_change_numbers(alloc, fields)
}

#[tactic(auto, unfolding(crate::specs::Reading::reply_of))]
fn read_fields(alloc: Global, fields: &[&[u8]]) -> Result<Reply, Bad>
    ensures reply { Gives result (reply_of (map (λ f. f.now) fields.now)) }
    ensures stored { IfOk result IsStored }
{
    let name = field_at(fields, 0);
    if is(name, "Reviewed") {
        let comments = read_comments(alloc, fields_from(fields, 2))?;
        return Ok(Reply::Done(Answer::Reviewed(comments)));
    }
    if is(name, "Submitted") {
        let joined = read_joined(alloc, fields_from(fields, 2))?;
        return Ok(Reply::Done(Answer::Submitted(joined)));
    }
    if is(name, "Refused") {
        let refusal = read_refusal(alloc, fields)?;
        return Ok(Reply::Refused(refusal));
    }
    match read_plain(fields) {
        Some(answer) => Ok(Reply::Done(answer)),
        None => Err(Bad::Form),
    }
}

/// The reply that a text is read as, of stored replies the one whose text it is. The readers let through more than is ever written, as a
/// length with leading zeros.
fn read_text(alloc: Global, text: &str) -> Result<Reply, Bad>
    ensures reply { (r : Reply) → IsStored r → reply_text r ≡ text.now → Gives result (Some r) }
    ensures stored { IfOk result IsStored }
{
    let Some(fields) = cut(alloc, text.as_bytes())? else {
        return Err(Bad::Form);
    };
    read_fields(alloc, &fields)
}

/// Whether a text is that of a reply: Form where it isn't.
fn check_text(alloc: Global, reply: &Reply, text: &str) -> Result<(), Bad>
    ensures same { OnOk result (reply_text reply.now ≡ text.now) }
    ensures form { IfErr result (λ e. e ≡ Form → reply_text reply.now ≡ text.now → ⊥) }
{
    let again = reply_text(alloc, reply)?;
    if again.as_str() == text {
        Ok(())
    } else {
        Err(Bad::Form)
    }
}

/// The stored reply whose text this is. Form exactly where it is the text of none, as the empty
/// text is; Memory where there was no memory to read it.
pub fn read_reply(alloc: Global, text: &str) -> Result<Reply, Bad>
    ensures ok { IfOk result (λ r. IsStored r × (reply_text r ≡ text.now)) }
    ensures form { IfErr result (λ e. e ≡ Form → (r : Reply) → IsStored r → reply_text r ≡ text.now → ⊥) }
    ensures back { (r : Reply) → IsStored r → reply_text r ≡ text.now → IfOk result (λ s. s ≡ r) }
{
    let reply = read_text(alloc, text)?;
    match check_text(alloc, &reply, text) {
        Ok(()) => Ok(reply),
        Err(fault) => Err(fault),
    }
}
