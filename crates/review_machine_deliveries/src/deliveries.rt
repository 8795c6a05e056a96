//! One delivery.
ghost use Rattle.std.specs.Prelude.{◌≡◌, true, ◌≤◌, ◌<◌, ◌+◌, ◌⊎◌, ℕ, List, [], ◌∷◌, None, IfErr, IfOk, OnOk, length, string_bytes, option_copied, false};
ghost use Rattle.review_words.specs.History.{Entry, IsFirst, if_done};
ghost use Rattle.review_words.specs.Texts.{IsStored, content_text};
ghost use Rattle.review_words.specs.declared.command.Delivery.TheVariants.{Write, Read};
ghost use Rattle.review_machine_rows.specs.Answer.{IsHistory, most_requests};
ghost use Rattle.review_machine_rows.specs.{Changes.Reading, Decisions.RestsOn, Known.known, Known.number_of};
ghost use Rattle.review_machine_rows.specs.Rows.{HasNoEffect, Tables, new_least, is_above, is_below, kept_row};
ghost use Rattle.review_machine_rows.specs.Shelf.{Answers, BlamesTables, CountsFaults, IsCommitted, LeavesUndone, Shows, StopLeavesOwnTables, Views};
ghost use Rattle.review_machine_rows.specs.{Steps.OfCommand, View.AreEnough, View.IsDecidedAt, declared.rows.Want.Want};
ghost use Rattle.review_machine_deliveries.specs.{Delivered.IsDelivered, Formed.IsFormed};
ghost use Rattle.review_machine_deliveries.specs.Gathered.{OnlyGathers, CountsCause, LeavesTables};
ghost use Rattle.review_machine_deliveries.specs.Replies.{IsReplied, IsServed, KeepsUntaken, StoresOnce, CountsReply};
ghost use Rattle.review_machine_deliveries.specs.inner.Deciding.{IsDecidedBy, IsUndecidedBy, WasDecided, WasUndecided};
ghost use Rattle.review_machine_deliveries.specs.inner.{Kept.row_for, Words.IsToldAgain, Words.reply_of};
ghost use Rattle.review_machine_rows.specs.declared.rows.Want.TheVariants as want;

use crate::gathering::gathered;
use crate::rules::Rules;
use review_file::ProjectFile;
use review_machine_rows::{Delta, Kept, Matter, Recalled, Rows, Shelf, ShelfFault, Want};
use review_names::Bad;
use review_words::{AccountNo, Command, Delivery, Epoch, NotTaken, Query, Reply, RequestId};
use review_words_texts::{content_text, read_reply, reply_text};
use std::alloc::{AllocError, Global};

/// The last number of a request.
const MOST_REQUESTS: u64 = 9_007_199_254_740_991;

/// Takes one delivery.
///
/// From the tables of a history its reply is the right one: that its epoch is closed, what is stored for a repeat, that the identity is used for
/// another command under it, the answer of the command for a first arrival, or that it wasn't taken, for a lawful cause.
/// The tables are then those of the history after it, and a stop leaves what it could leave before, or the whole effect with
/// the answer; after Done or Refused it leaves only tables of a history that has the request.
///
/// Pattern is lawful only for a first arrival that puts a project file with a pattern which the engine refuses, or where a first arrival is
/// judged or a question answered by the effective file of a project that has a pattern in its own file or in an ancestor's: the project that it
/// names, or that of the change that it names, or the parent of a project that it makes.
///
/// On any tables whatever, what isn't taken, a used identity and a closed epoch leave them as they are, and Done and Refused either found
/// the identity stored with this command and this reply, and left them, or stored the request beside the others, of which an
/// accepted CloseEpoch gives up those of lower epochs; a refusal changes no row. An identity is used only where it is stored with
/// another command, an epoch closed only where the tables say so, a history full only where the identity is new, its epoch open
/// and the last number given. A question changes nothing, and is told neither that an identity is used nor that an epoch is closed.
/// A store fault is answered only where the shelf counted one.
///
/// Premises: the clauses on tables hold where the store returned what was written to it, and once a fault has shut it nothing is
/// said of tables; the clause on counts holds always.
pub fn deliver<S: Shelf, R: Rules>(
    alloc: Global,
    shelf: &mut S,
    rules: &mut R,
    delivery: &Delivery,
) -> Reply
    ensures { IsDelivered delivery.now result (S.state shelf.old) (S.state shelf.new) }
{
    are_forms(delivery);
    match delivery {
        Delivery::Write {
            caller,
            epoch,
            id,
            command,
        } => reply_of(write(alloc, shelf, rules, *caller, *epoch, id, command)),
        Delivery::Read { caller, query } => reply_of(read(alloc, shelf, rules, *caller, query)),
    }
}

// That the parts of a request's identity have their forms.
fn are_forms(delivery: &Delivery)
    ensures { IsFormed delivery.now }
{
    if let Delivery::Write {
        caller,
        epoch,
        id,
        ..
    } = delivery
    {
        let _caller = caller.get();
        let _epoch = epoch.get();
        let _id = id.as_str();
    }
}

fn reply_of(taken: Result<Reply, NotTaken>) -> Reply
    ensures { result ≡ reply_of taken }
{
    match taken {
        Ok(reply) => reply,
        Err(cause) => Reply::NotTaken(cause),
    }
}

fn write<S: Shelf, R: Rules>(
    alloc: Global,
    shelf: &mut S,
    rules: &mut R,
    caller: AccountNo,
    epoch: Epoch,
    id: &RequestId,
    command: &Command,
) -> Result<Reply, NotTaken>
    ensures { IsReplied (Write caller epoch id.now command.now) (reply_of result) (S.state shelf.old) (S.state shelf.new) }
{
    let content = content_text(alloc, command)?;
    match shelf.recall(alloc, caller, epoch, id)? {
        Recalled::Kept(kept) => repeated(alloc, &kept, content.as_str()),
        Recalled::Fresh => first_arrival(alloc, shelf, rules, caller, epoch, id, command, content),
        Recalled::Closed => Ok(Reply::EpochClosed),
    }
}

// Answers a question, and stores nothing.
fn read<S: Shelf, R: Rules>(
    alloc: Global,
    shelf: &mut S,
    rules: &mut R,
    caller: AccountNo,
    query: &Query,
) -> Result<Reply, NotTaken>
    ensures { IsReplied (Read caller query.now) (reply_of result) (S.state shelf.old) (S.state shelf.new) }
{
    let mut rows = Rows::new(alloc);
    let effective = gathered(alloc, shelf, rules, &mut rows, caller, Matter::Query(query))?;
    rules.show(alloc, effective.as_ref(), &rows, caller, query)
}

// What a request is told whose identity is stored.
fn repeated(alloc: Global, kept: &Kept, content: &str) -> Result<Reply, NotTaken>
    ensures { IsToldAgain (kept_row kept.now) content.now result }
{
    if kept.content.as_str() != content {
        return Ok(Reply::IdentityReused);
    }
    match read_reply(alloc, kept.reply.as_str()) {
        Ok(reply) => Ok(reply),
        Err(Bad::Memory) => Err(NotTaken::Memory),
        Err(Bad::Form) => Err(NotTaken::Damaged),
    }
}

// Decides a request whose identity is new and stores it with its answer in the same commit.
fn first_arrival<S: Shelf, R: Rules>(
    alloc: Global,
    shelf: &mut S,
    rules: &mut R,
    caller: AccountNo,
    epoch: Epoch,
    id: &RequestId,
    command: &Command,
    content: String,
) -> Result<Reply, NotTaken>
    requires content { string_bytes content ≡ content_text command.now }
    ensures honest { (S.state shelf.new).is_honest → (S.state shelf.old).is_honest }
    ensures served { (S.state shelf.new).is_honest → (h : List Entry) → IsHistory h → Views h (S.state shelf.old).tables →
        IsFirst h (record { caller = caller; epoch = epoch; id = id.now }) →
        IsServed h (Write caller epoch id.now command.now) (reply_of result) (S.state shelf.old) (S.state shelf.new) }
    ensures unchanged { (S.state shelf.new).is_honest → Shows (S.state shelf.old).tables (λ t. Answers t (record { caller = caller; epoch = epoch; id = id.now }) None) →
        KeepsUntaken (Write caller epoch id.now command.now) (reply_of result) (S.state shelf.old).tables (S.state shelf.new).tables }
    ensures once { (S.state shelf.new).is_honest → Shows (S.state shelf.old).tables (λ t. Answers t (record { caller = caller; epoch = epoch; id = id.now }) None) →
        StoresOnce (Write caller epoch id.now command.now) (reply_of result) (S.state shelf.old).tables (S.state shelf.new).tables }
    ensures counted { CountsReply (reply_of result) (S.state shelf.old).faults (S.state shelf.new).faults }
{
    let decided = gather_and_decide(alloc, shelf, rules, caller, epoch, command)?;
    let reply = store(alloc, shelf, caller, epoch, id, decided, content)?;
    Ok(reply)
}

// Decides a command by what the tables tell.
fn gather_and_decide<S: Shelf, R: Rules>(
    alloc: Global,
    shelf: &mut S,
    rules: &mut R,
    caller: AccountNo,
    epoch: Epoch,
    command: &Command,
) -> Result<Decided, NotTaken>
    ensures gathers { OnlyGathers result (S.state shelf.old) (S.state shelf.new) }
    ensures decided { (S.state shelf.new).is_honest → IfOk result (WasDecided caller epoch command.now (S.state shelf.old).tables) }
    ensures stored { IfOk result (λ decided. IsStored decided.reply) }
    ensures cause { (S.state shelf.new).is_honest → IfErr result (WasUndecided command.now (S.state shelf.old).tables) }
{
    let mut rows = Rows::new(alloc);
    let effective = gathered(
        alloc,
        shelf,
        rules,
        &mut rows,
        caller,
        Matter::Command(command),
    )?;
    decide(
        alloc,
        rules,
        effective.as_ref(),
        &rows,
        caller,
        epoch,
        command,
    )
}

/// What is to be stored of a command that was decided.
#[derive(Drop)]
struct Decided {
    /// The number of its request.
    request: u64,
    delta: Delta,
    reply: Reply,
}

// Decides a command, where there is a number left for its request.
fn decide<R: Rules>(
    alloc: Global,
    rules: &mut R,
    effective: Option<&ProjectFile>,
    rows: &Rows,
    caller: AccountNo,
    epoch: Epoch,
    command: &Command,
) -> Result<Decided, NotTaken>
    ensures decided { IfOk result (IsDecidedBy caller epoch command.now (option_copied effective.entry) rows.now) }
    ensures cause { IfErr result (IsUndecidedBy caller command.now (option_copied effective.entry) rows.now) }
{
    let requests = rows.number(&Want::Requests);
    if requests >= MOST_REQUESTS {
        return Err(NotTaken::Full);
    }
    let (delta, reply) = rules.decide(alloc, effective, rows, caller, epoch, command)?;
    Ok(Decided {
        request: requests + 1,
        delta,
        reply,
    })
}

// Stores a request with its answer, and what it changes, in one commit; and answers what was decided.
fn store<S: Shelf>(
    alloc: Global,
    shelf: &mut S,
    caller: AccountNo,
    epoch: Epoch,
    id: &RequestId,
    decided: Decided,
    content: String,
) -> Result<Reply, ShelfFault>
    ensures reply { IfOk result (λ reply. reply ≡ decided.reply) }
    ensures honest { (S.state shelf.new).is_honest → (S.state shelf.old).is_honest }
    ensures done { (S.state shelf.new).is_honest → OnOk result (Shows (S.state shelf.old).tables (λ t. Shows (S.state shelf.new).tables (IsCommitted t decided.delta (row_for caller epoch id.now decided (string_bytes content))))) }
    ensures alone { (S.state shelf.new).is_honest → OnOk result (StopLeavesOwnTables (S.state shelf.new)) }
    ensures undone { (S.state shelf.new).is_honest → LeavesUndone result (S.state shelf.old).tables (S.state shelf.new).tables }
    ensures damaged { (S.state shelf.new).is_honest → BlamesTables result (S.state shelf.old).tables }
    ensures stops { (S.state shelf.new).is_honest → (t : Tables) → (S.state shelf.new).stops t →
        (S.state shelf.old).stops t ⊎ Shows (S.state shelf.old).tables (λ was. IsCommitted was decided.delta (row_for caller epoch id.now decided (string_bytes content)) t) }
    ensures counted { CountsFaults result (S.state shelf.old).faults (S.state shelf.new).faults }
{
    let kept = match kept_for(alloc, caller, epoch, id, &decided, content) {
        Ok(kept) => kept,
        Err(fault) => {
            drop(decided);
            return Err(ShelfFault::from(fault));
        }
    };
    let Decided { delta, reply, .. } = decided;
    match shelf.commit(alloc, delta, kept) {
        Ok(()) => Ok(reply),
        Err(fault) => {
            drop(reply);
            Err(fault)
        }
    }
}

// What is stored of a request that was decided.
fn kept_for(
    alloc: Global,
    caller: AccountNo,
    epoch: Epoch,
    id: &RequestId,
    decided: &Decided,
    content: String,
) -> Result<Kept, AllocError>
    ensures { IfOk result (λ kept. kept_row kept ≡ row_for caller epoch id.now decided.now (string_bytes content)) }
{
    let id = id.copy()?;
    let reply = reply_text(alloc, &decided.reply)?;
    Ok(Kept {
        caller,
        epoch,
        id,
        request: decided.request,
        content,
        reply,
    })
}
