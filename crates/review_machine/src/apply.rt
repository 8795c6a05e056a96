//! Deliveries by the line.
ghost use Rattle.{review_machine_deliveries.specs.Delivered.WasRun, review_json_lines.specs.Answers.WereAnswered};

use crate::rules::DeskRules;
use review_json_lines::{Fault, Outcome};
use review_machine_rows::Shelf;
use std::alloc::Global;
use std::io::{Read, Write};

/// Reads deliveries, each a line of JSON, takes one after the other on the shelf, and writes a line for each: the text of
/// its reply, or `{"fault":"BAD_LINE"}` for a line that is no delivery or has more than 400,000 bytes. Blank lines are
/// skipped. Each answer is written and flushed before more input is waited for.
///
/// Complete exactly where each line was blank, or a delivery that was taken. A fault ends it early: want of memory for a line or the text
/// of its answer; a reader that fails, or that hasn't ended after 1,000,000,000 reads; a writer that fails or takes no byte,
/// which is told also where another fault came before. A delivery that was taken and not answered stands.
///
/// The deliveries of the first lines, of all where no fault came, were a run: from the tables of any history each request of an open epoch
/// acted once, and on any tables whatever each was a step of a run. The bytes that were written are the answers to these lines, in
/// order, each delivery's with its reply: all of them where no fault came or the input failed, all but at most the last where there was no memory, and some
/// first part of them where the writer failed. This is said of readers and writers whose bytes are known; of standard input and
/// output `std` knows none.
///
/// Of the history that they leave: each change joined its branch at most once and has its place there; it stands on a base of the branch or
/// on a change that joined before it; and just before its submit it was open, not in work in progress, and no requirement was unsatisfied.
///
/// Premises: what is said of tables is said where the store returned what was written to it, and once a fault has shut it nothing is said of them.
pub fn apply_lines<R: Read, W: Write, S: Shelf>(
    alloc: Global,
    reader: &mut R,
    writer: &mut W,
    shelf: &mut S,
) -> Result<Outcome, Fault>
    ensures { WereAnswered (λ ds replies. WasRun ds replies (S.state shelf.old) (S.state shelf.new)) (R.remaining reader.old) (W.contents writer.old) (W.contents writer.new) result }
{
    review_json_lines::apply_lines(alloc, reader, writer, shelf, &mut DeskRules::new(alloc))
}
