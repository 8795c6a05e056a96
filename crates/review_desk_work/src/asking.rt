//! Questions, and what their replies tell.
ghost use Rattle.std.specs.Prelude.{◌≡◌, Ok, Err, IfOk, IfErr, length, string_bytes};
ghost use Rattle.review_desk_work.specs.Told.{IsPage, WereAsked, about, attention_told, change_page, change_told, joined_page, joined_told, page_of_three, requirements_told, answer_of};

use crate::pages::{change_text, joined_text};
use crate::show_fault::ShowFault;
use review_machine_deliveries::{Rules, run};
use review_machine_rows::Shelf;
use review_words::{
    AccountNo, Answer, ChangeNo, ChangeQuery, Delivery, JoinedChange, Query, Reply,
    ShownAttentionEntry, ShownChange, ShownRequirement,
};
use std::alloc::Global;

/// A question about a change, asked by account 1.
pub fn about(change: ChangeNo, query: ChangeQuery) -> Delivery
    ensures { result ≡ about change query }
{
    Delivery::Read {
        caller: AccountNo::first(),
        query: Query::OnChange { change, query },
    }
}

/// The replies to questions. There is none where there was no memory for their list.
pub fn replies_to<S: Shelf, D: Rules>(
    alloc: Global,
    shelf: &mut S,
    rules: &mut D,
    questions: &[Delivery],
) -> Vec<Reply>
    ensures { WereAsked questions.now result.items (S.state shelf.old) (S.state shelf.new) }
{
    match run(alloc, shelf, rules, questions) {
        Ok(replies) => replies,
        Err(stopped) => stopped.replies,
    }
}

fn answer_of(reply: &Reply) -> Result<&Answer, ShowFault>
    ensures ok { IfOk result (λ answer. answer_of reply.now ≡ Ok answer.now) }
    ensures err { IfErr result (λ fault. answer_of reply.now ≡ Err fault) }
{
    match reply {
        Reply::Done(answer) => Ok(answer),
        Reply::Refused(refusal) => Err(ShowFault::of_refusal(refusal)),
        Reply::IdentityReused | Reply::EpochClosed => Err(ShowFault::Damaged),
        Reply::NotTaken(cause) => Err(ShowFault::of_cause(*cause)),
    }
}

fn change_told(reply: &Reply) -> Result<&ShownChange, ShowFault>
    ensures ok { IfOk result (λ change. change_told reply.now ≡ Ok change.now) }
    ensures err { IfErr result (λ fault. change_told reply.now ≡ Err fault) }
{
    match answer_of(reply) {
        Ok(Answer::Shown(change)) => Ok(change),
        Ok(_) => Err(ShowFault::Damaged),
        Err(fault) => Err(fault),
    }
}

fn requirements_told(reply: &Reply) -> Result<&[ShownRequirement], ShowFault>
    ensures ok { IfOk result (λ requirements. requirements_told reply.now ≡ Ok requirements.now) }
    ensures err { IfErr result (λ fault. requirements_told reply.now ≡ Err fault) }
{
    match answer_of(reply) {
        Ok(Answer::Requirements(requirements)) => Ok(requirements.as_slice()),
        Ok(_) => Err(ShowFault::Damaged),
        Err(fault) => Err(fault),
    }
}

fn attention_told(reply: &Reply) -> Result<&[ShownAttentionEntry], ShowFault>
    ensures ok { IfOk result (λ calls. attention_told reply.now ≡ Ok calls.now) }
    ensures err { IfErr result (λ fault. attention_told reply.now ≡ Err fault) }
{
    match answer_of(reply) {
        Ok(Answer::Attention(calls)) => Ok(calls.as_slice()),
        Ok(_) => Err(ShowFault::Damaged),
        Err(fault) => Err(fault),
    }
}

fn joined_told(reply: &Reply) -> Result<&[JoinedChange], ShowFault>
    ensures ok { IfOk result (λ joined. joined_told reply.now ≡ Ok joined.now) }
    ensures err { IfErr result (λ fault. joined_told reply.now ≡ Err fault) }
{
    match answer_of(reply) {
        Ok(Answer::Branch { joined, .. }) => Ok(joined.as_slice()),
        Ok(_) => Err(ShowFault::Damaged),
        Err(fault) => Err(fault),
    }
}

fn page_of_three(
    alloc: Global,
    first: &Reply,
    second: &Reply,
    third: &Reply,
) -> Result<String, ShowFault>
    ensures { IsPage string_bytes (page_of_three first.now second.now third.now) result }
{
    let change = change_told(first)?;
    let requirements = requirements_told(second)?;
    let calls = attention_told(third)?;
    Ok(change_text(alloc, change, requirements, calls)?)
}

/// The page of a change from the replies to its three questions.
pub fn change_page(alloc: Global, replies: &[Reply]) -> Result<String, ShowFault>
    ensures { IsPage string_bytes (change_page replies.now) result }
{
    match replies {
        [first, second, third] => page_of_three(alloc, first, second, third),
        _ => Err(ShowFault::Memory),
    }
}

/// The page of a branch from the reply to its question.
pub fn joined_page(alloc: Global, replies: &[Reply]) -> Result<String, ShowFault>
    ensures { IsPage string_bytes (joined_page replies.now) result }
{
    match replies {
        [reply] => {
            let joined = joined_told(reply)?;
            Ok(joined_text(alloc, joined)?)
        }
        _ => Err(ShowFault::Memory),
    }
}
