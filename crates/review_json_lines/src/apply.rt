//! Deliveries by the line.
ghost use Rattle.std.specs.{Io.KnownBytes.Appends, Io.KnownBytes.prepend_known, List.list_all};
ghost use Rattle.std.specs.Prelude.{◌≡◌, ◌++◌, ◌∷◌, [], ℕ, List, length, IfOk, IfErr, OnOk, OnErr, string_bytes};
ghost use Rattle.{review_words.specs.declared.reply.Reply.Reply, review_machine_deliveries.specs.Delivered.WasRun};
ghost use Rattle.review_json_lines.specs.Answers.{asked, with_asked, reply_line, bad_line, answered, answers, deliveries, HasLines, HasFirst, is_taken, is_done, all_done, is_complete, IsLeftBy, WereAnswered};
ghost use Rattle.review_json_lines.specs.{Lines.is_space, Lines.IsLineOf, inner.Words.IsRunOf, inner.Words.IsNextAsked};

use crate::fault::{Fault, Outcome};
use crate::lines::{Line, Lines};
use crate::output::Output;
use review_json::{answer_text, delivery_of_line};
use review_machine_deliveries::{Rules, deliver};
use review_machine_rows::Shelf;
use review_words::{Bad, Delivery, Reply};
use std::alloc::{AllocError, Global};
use std::io::{Read, Write};

/// What a line asks for.
#[derive(Drop)]
pub enum Asked {
    /// The line is blank.
    Nothing,
    /// The line is no delivery.
    Unreadable,
    Asks(Delivery),
}

fn is_space(byte: u8) -> bool
    ensures { result ≡ is_space byte }
{
    byte == b' ' || byte == b'\t' || byte == b'\r'
}

fn is_blank(bytes: &[u8]) -> bool
    ensures { result ≡ list_all is_space bytes.now }
{
    bytes.iter().all(|byte| is_space(*byte))
}

fn asked_by(alloc: Global, line: &Line) -> Result<Asked, AllocError>
    ensures { IfOk result (λ a. (bytes : List ℕ) → IsLineOf line.now bytes → a ≡ asked bytes) }
{
    let bytes = match line {
        Line::Whole(bytes) => bytes.as_slice(),
        Line::TooLong => return Ok(Asked::Unreadable),
    };
    if is_blank(bytes) {
        return Ok(Asked::Nothing);
    }
    match delivery_of_line(alloc, bytes) {
        Ok(delivery) => Ok(Asked::Asks(delivery)),
        Err(Bad::Form) => Ok(Asked::Unreadable),
        Err(Bad::Memory) => Err(AllocError),
    }
}

#[tactic(auto, unfolding(crate::specs::Answers::reply_line))]
fn reply_line(alloc: Global, reply: &Reply) -> Result<String, AllocError>
    ensures { IfOk result (λ text. string_bytes text ≡ reply_line reply.now) }
{
    let mut text = answer_text(alloc, reply)?;
    text.push('\n')?;
    Ok(text)
}

/// Adds a reply to the output as a line, or nothing where there is no memory.
fn add_reply(alloc: Global, output: &mut Output, reply: &Reply) -> Result<(), AllocError>
    ensures added { OnOk result (output.new.waiting.items ≡ output.old.waiting.items ++ reply_line reply.now) }
    ensures kept { OnErr result (output.new.waiting.items ≡ output.old.waiting.items) }
{
    let line = reply_line(alloc, reply)?;
    output.add(line.as_str())
}

fn outcome_of(reply: &Reply) -> Outcome
    ensures { is_complete result ≡ is_taken reply.now }
{
    match reply {
        Reply::NotTaken(_) => Outcome::Incomplete,
        Reply::Done(_) | Reply::Refused(_) | Reply::IdentityReused | Reply::EpochClosed => {
            Outcome::Complete
        }
    }
}

/// Adds a reply as a line and tells whether its delivery was taken, or adds nothing where there is no memory.
fn tell(alloc: Global, output: &mut Output, reply: &Reply) -> Result<Outcome, AllocError>
    ensures added { OnOk result (output.new.waiting.items ≡ output.old.waiting.items ++ reply_line reply.now) }
    ensures taken { IfOk result (λ outcome. is_complete outcome ≡ is_taken reply.now) }
    ensures kept { OnErr result (output.new.waiting.items ≡ output.old.waiting.items) }
{
    add_reply(alloc, output, reply)?;
    Ok(outcome_of(reply))
}

/// Does what a line asks for, and adds the answer to the output, or nothing where there is no memory.
#[tactic(auto, unfolding(crate::specs::Answers::bad_line))]
fn answer<S: Shelf, D: Rules>(
    alloc: Global,
    shelf: &mut S,
    rules: &mut D,
    output: &mut Output,
    asked: &Asked,
) -> Result<Outcome, AllocError>
    ensures answered { (replies : List Reply) × (length replies ≡ length (with_asked asked.now []))
        × WasRun (with_asked asked.now []) replies (S.state shelf.old) (S.state shelf.new)
        × IfOk result (λ outcome. (output.new.waiting.items ≡ output.old.waiting.items ++ answered asked.now replies (answers [])) × (is_complete outcome ≡ is_done asked.now replies (all_done []))) }
    ensures kept { OnErr result (output.new.waiting.items ≡ output.old.waiting.items) }
{
    match asked {
        Asked::Nothing => Ok(Outcome::Complete),
        Asked::Unreadable => {
            output.add("{\"fault\":\"BAD_LINE\"}\n")?;
            Ok(Outcome::Incomplete)
        }
        Asked::Asks(delivery) => {
            let reply = deliver(alloc, shelf, rules, delivery);
            let told = tell(alloc, output, &reply);
            drop(reply);
            told
        }
    }
}

/// Answers a line, and lets go of its delivery here, where there is no `?`: a large enum that is alive at one is dear to check.
fn answer_owned<S: Shelf, D: Rules>(
    alloc: Global,
    shelf: &mut S,
    rules: &mut D,
    output: &mut Output,
    asked: Asked,
) -> Result<Outcome, AllocError>
    ensures answered { (replies : List Reply) × (length replies ≡ length (with_asked asked []))
        × WasRun (with_asked asked []) replies (S.state shelf.old) (S.state shelf.new)
        × IfOk result (λ outcome. (output.new.waiting.items ≡ output.old.waiting.items ++ answered asked replies (answers [])) × (is_complete outcome ≡ is_done asked replies (all_done []))) }
    ensures kept { OnErr result (output.new.waiting.items ≡ output.old.waiting.items) }
{
    let outcome = answer(alloc, shelf, rules, output, &asked);
    drop(asked);
    outcome
}

/// What the next line asks for, or none where the input has ended.
fn next_asked<R: Read + Drop>(alloc: Global, lines: &mut Lines<R>) -> Result<Option<Asked>, Fault>
    ensures { IfOk result (λ next. IsNextAsked (prepend_known lines.old.piece (R.remaining lines.old.reader)) (prepend_known lines.new.piece (R.remaining lines.new.reader)) next) }
{
    let Some(line) = lines.next_line(alloc)? else {
        return Ok(None);
    };
    let asked = asked_by(alloc, &line)?;
    Ok(Some(asked))
}

/// Answers lines, until they end or a fault comes. Answers that were not sent yet wait in the output.
fn answer_lines<R: Read + Drop, W: Write, S: Shelf, D: Rules>(
    alloc: Global,
    reader: R,
    writer: &mut W,
    output: &mut Output,
    shelf: &mut S,
    rules: &mut D,
) -> Result<Outcome, Fault>
    requires { output.old.waiting.items ≡ [] }
    ensures { (lines : List (List ℕ)) × (replies : List Reply) × HasFirst (R.remaining reader) lines × (length replies ≡ length (deliveries lines)) × IsRunOf lines replies (S.state shelf.old) (S.state shelf.new)
        × (sent : List ℕ) × Appends (W.contents writer.old) (W.contents writer.new) sent
        × IfOk result (λ outcome. HasLines (R.remaining reader) lines
        × (sent ++ output.new.waiting.items ≡ answers lines replies)
        × (is_complete outcome ≡ all_done lines replies))
        × IfErr result (λ fault. IsLeftBy fault lines replies (sent ++ output.new.waiting.items)) }
{
    let mut lines = Lines::new(alloc, reader)?;
    let mut outcome = Outcome::Complete;
    for _ in 0..u64::MAX {
        output.send_unless(lines.holds_line(), writer)?;
        let Some(asked) = next_asked(alloc, &mut lines)? else {
            return Ok(outcome);
        };
        outcome = outcome.and(answer_owned(alloc, shelf, rules, output, asked)?);
    }
    Err(Fault::Input)
}

/// Reads deliveries, each a line of JSON, takes one after the other on the shelf, and writes a line for each: the text of
/// its reply, or `{"fault":"BAD_LINE"}` for a line that is no delivery or has more than 400,000 bytes. Blank lines are
/// skipped. Each answer is written and flushed before more input is waited for.
///
/// Complete exactly where each line was blank, or a delivery that was taken. A fault ends it early: want of memory for a line or the text
/// of its answer; a reader that fails, or that hasn't ended after 1,000,000,000 reads; a writer that fails or takes no byte,
/// which is told also where another fault came before. A delivery that was taken and not answered stands.
///
/// The deliveries of the first lines, of all where no fault came, were a run: from the tables of any history each acted
/// once, and on any tables whatever each was a step of a run. The bytes that were written are the answers to these lines, in
/// order, each delivery's with its reply: all of them where no fault came or the input failed, all but at most the last where there was no memory, and some
/// first part of them where the writer failed. This is said of readers and writers whose bytes are known; of standard input and
/// output `std` knows none.
///
/// Of the history that they leave: each change joined its branch at most once and has its place there; it stands on a base of the branch or
/// on a change that joined before it; and just before its submit it was open, not in work in progress, and no requirement was unsatisfied.
///
/// Premises: what is said of tables is said where the store returned what was written to it, and once a fault has shut it nothing is said of them.
pub fn apply_lines<R: Read, W: Write, S: Shelf, D: Rules>(
    alloc: Global,
    reader: &mut R,
    writer: &mut W,
    shelf: &mut S,
    rules: &mut D,
) -> Result<Outcome, Fault>
    ensures { WereAnswered (λ ds replies. WasRun ds replies (S.state shelf.old) (S.state shelf.new)) (R.remaining reader.old) (W.contents writer.old) (W.contents writer.new) result }
{
    let mut output = Output::new(alloc);
    let outcome = answer_lines(alloc, reader, writer, &mut output, shelf, rules);
    output.send(writer)?;
    outcome
}
