//! The JSON text of a reply.
ghost use Rattle.std.specs.Prelude.{◌≡◌, ◌++◌, IfOk, OnOk, codes, map, string_bytes};
ghost use Rattle.serde_json.specs.{Data.member, Data.no_members, Data.object, Data.string, Written.compact_text};
ghost use Rattle.review_words.specs.{Faults.code_name, declared.faults.FileFault.TheVariants.Expr};
ghost use Rattle.review_words.specs.declared.reply.Answer.TheVariants.{Branch, Change, Patch};
ghost use Rattle.review_json.specs.Answer.{cause_name, answer_data, bad_file_data, named_fault_data, refusal_data, reply_data, unsatisfied_data};
ghost use Rattle.review_json.specs.{Shown.number_data, Tokens.HasPut, Tokens.value_tokens};

use crate::text::{JsonText, Written};
use review_words::{
    Answer, Bases, ChangeNo, ExprCode, ExprFault, FileFault, JoinedChange, LabelName, Listed,
    NotTaken, PatchNo, Refusal, Reply,
};
use std::alloc::{AllocError, Global};

fn cause_name(cause: NotTaken) -> &'static str
    ensures { result.now ≡ cause_name cause }
{
    match cause {
        NotTaken::Memory => "MEMORY",
        NotTaken::Store => "STORE",
        NotTaken::Damaged => "DAMAGED",
        NotTaken::Pattern => "PATTERN",
        NotTaken::Full => "FULL",
    }
}

impl Written for ExprCode {
    ghost value_of = { λ code. string (code_name code) };

    fn write_to(&self, text: &mut JsonText) -> Result<(), AllocError> {
        text.text(self.name())
    }
}

/// Writes an object of one text.
fn write_text_alone(text: &mut JsonText, name: &str, value: &str) -> Result<(), AllocError>
    ensures { OnOk result (HasPut text.old text.new (value_tokens (object (member name.now (string value.now) no_members)))) }
{
    text.begin_object()?;
    text.put_text(name, value)?;
    text.end_object()?;
    Ok(())
}

/// Writes an object of one member.
fn write_alone<T: Written>(text: &mut JsonText, name: &str, value: &T) -> Result<(), AllocError>
    ensures { OnOk result (HasPut text.old text.new (value_tokens (object (member name.now (T.value_of value.now) no_members)))) }
{
    text.begin_object()?;
    text.put(name, value)?;
    text.end_object()?;
    Ok(())
}

fn write_nothing(text: &mut JsonText) -> Result<(), AllocError>
    ensures { OnOk result (HasPut text.old text.new (value_tokens (object no_members))) }
{
    text.begin_object()?;
    text.end_object()?;
    Ok(())
}

fn write_new_change(text: &mut JsonText, change: ChangeNo, first: PatchNo) -> Result<(), AllocError>
    ensures { OnOk result (HasPut text.old text.new (value_tokens (answer_data (Change change first)))) }
{
    text.begin_object()?;
    text.put("change", &change)?;
    text.put("patch_set", &first)?;
    text.end_object()?;
    Ok(())
}

fn write_new_patch(
    text: &mut JsonText,
    change: ChangeNo,
    patch: PatchNo,
    copied: u64,
    outdated: u64,
) -> Result<(), AllocError>
    ensures { OnOk result (HasPut text.old text.new (value_tokens (answer_data (Patch change patch copied outdated)))) }
{
    text.begin_object()?;
    text.put("change", &change)?;
    text.put("copied", &copied)?;
    text.put("outdated", &outdated)?;
    text.put("patch_set", &patch)?;
    text.end_object()?;
    Ok(())
}

fn write_branch(
    text: &mut JsonText,
    bases: &Bases,
    joined: &Listed<JoinedChange>,
) -> Result<(), AllocError>
    ensures { OnOk result (HasPut text.old text.new (value_tokens (answer_data (Branch bases.now joined.now)))) }
{
    text.begin_object()?;
    text.put("bases", bases)?;
    text.put("joined", joined)?;
    text.end_object()?;
    Ok(())
}

impl Written for Answer {
    ghost value_of = { answer_data };

    fn write_to(&self, text: &mut JsonText) -> Result<(), AllocError> {
        match self {
            Answer::Account(account) => write_alone(text, "account", account),
            Answer::Nothing => write_nothing(text),
            Answer::Change { change, patch } => write_new_change(text, *change, *patch),
            Answer::Patch {
                change,
                patch,
                copied,
                outdated,
            } => write_new_patch(text, *change, *patch, *copied, *outdated),
            Answer::Reviewed(comments) => write_alone(text, "comments", comments),
            Answer::Submitted(changes) => write_alone(text, "joined", changes),
            Answer::Branch { bases, joined } => write_branch(text, bases, joined),
            Answer::Shown(change) => change.write_to(text),
            Answer::Requirements(listed) => listed.write_to(text),
            Answer::Threads(threads) => threads.write_to(text),
            Answer::Attention(calls) => calls.write_to(text),
        }
    }
}

/// Writes that a file is refused, for an expression's fault.
fn write_bad_expression(text: &mut JsonText, fault: ExprFault) -> Result<(), AllocError>
    ensures { OnOk result (HasPut text.old text.new (value_tokens (bad_file_data (Expr fault)))) }
{
    text.begin_object()?;
    text.put("expr", &fault.code)?;
    text.put("number", &26u64)?;
    text.put("place", &(fault.place as u64))?;
    text.put_text("reason", "EXPR")?;
    text.put_text("refused", "BAD_FILE")?;
    text.end_object()?;
    Ok(())
}

/// Writes that a file is refused, for a fault of this name.
fn write_named_fault(text: &mut JsonText, fault: &str) -> Result<(), AllocError>
    ensures { OnOk result (HasPut text.old text.new (value_tokens (named_fault_data fault.now))) }
{
    text.begin_object()?;
    text.put("number", &26u64)?;
    text.put_text("reason", fault)?;
    text.put_text("refused", "BAD_FILE")?;
    text.end_object()?;
    Ok(())
}

fn write_unsatisfied(
    text: &mut JsonText,
    change: ChangeNo,
    requirement: &LabelName,
) -> Result<(), AllocError>
    ensures { OnOk result (HasPut text.old text.new (value_tokens (unsatisfied_data change requirement.now))) }
{
    text.begin_object()?;
    text.put("change", &change)?;
    text.put("number", &23u64)?;
    text.put_text("refused", "REQUIREMENT_UNSATISFIED")?;
    text.put("requirement", requirement)?;
    text.end_object()?;
    Ok(())
}

/// Writes a refusal's number and name.
fn write_numbered(text: &mut JsonText, number: u64, name: &str) -> Result<(), AllocError>
    ensures { OnOk result (HasPut text.old text.new (value_tokens (object (member (codes "number") (number_data number) (member (codes "refused") (string name.now) no_members))))) }
{
    text.begin_object()?;
    text.put("number", &number)?;
    text.put_text("refused", name)?;
    text.end_object()?;
    Ok(())
}

impl Written for Refusal {
    ghost value_of = { refusal_data };

    fn write_to(&self, text: &mut JsonText) -> Result<(), AllocError> {
        match self {
            Refusal::BadFile(FileFault::Expr(fault)) => write_bad_expression(text, *fault),
            Refusal::BadFile(fault) => write_named_fault(text, fault.name()),
            Refusal::RequirementUnsatisfied {
                change,
                requirement,
            } => write_unsatisfied(text, *change, requirement),
            _ => write_numbered(text, self.number() as u64, self.name()),
        }
    }
}

impl Written for Reply {
    ghost value_of = { reply_data };

    fn write_to(&self, text: &mut JsonText) -> Result<(), AllocError> {
        match self {
            Reply::Done(answer) => answer.write_to(text),
            Reply::Refused(refusal) => refusal.write_to(text),
            Reply::IdentityReused => write_text_alone(text, "refused", "IDENTITY_REUSED"),
            Reply::EpochClosed => write_text_alone(text, "refused", "EPOCH_CLOSED"),
            Reply::NotTaken(cause) => write_text_alone(text, "not_taken", cause_name(*cause)),
        }
    }
}

/// The text of a reply: compact JSON, the members of each object in the order of their keys, as
/// `{"account":2}`, `{"number":2,"refused":"NOT_ADMIN"}`,
/// `{"change":1,"number":23,"refused":"REQUIREMENT_UNSATISFIED","requirement":"Code-Review"}`,
/// `{"number":26,"reason":"TOML","refused":"BAD_FILE"}` or `{"not_taken":"MEMORY"}`; a list of objects
/// for requirements, threads and an attention set, as
/// `[{"account":4,"reason":"Please look","request":12}]`. It fails for want of memory alone.
pub fn answer_text(alloc: Global, reply: &Reply) -> Result<String, AllocError>
    ensures { IfOk result (λ text. string_bytes text ≡ compact_text (reply_data reply.now)) }
{
    let mut text = JsonText::new(alloc)?;
    reply.write_to(&mut text)?;
    Ok(text.into_string())
}
