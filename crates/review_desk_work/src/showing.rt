//! Pages asked for and written.
ghost use Rattle.std.specs.Io.KnownBytes.{Appends};
ghost use Rattle.std.specs.Prelude.{◌≡◌, ◌∷◌, ℕ, List, [], IfOk};
ghost use Rattle.review_desk_work.specs.Told.{IsWritten, Showed, branch_questions, change_page, change_questions, joined_page};

use crate::asking::{about, change_page, joined_page, replies_to};
use crate::output::write_page;
use crate::show_fault::ShowFault;
use review_machine_deliveries::Rules;
use review_machine_rows::Shelf;
use review_words::{
    AccountNo, BranchName, ChangeNo, ChangeQuery, Delivery, ProjectName, Query, Reply,
};
use std::alloc::{AllocError, Global};
use std::io::Write;

/// Asks as account 1 what a change is, how its submit requirements stand and who is in its attention set, and writes the page of
/// the answers: a line for each thing, as `change 1 NEW` or `vote Code-Review +2 by 3`.
///
/// The questions are asked as `run` takes them, and change nothing; the page is that of their replies. Nothing is written where a
/// question is refused or not taken, and the first such reply says why; nor where there is no memory. A writer that fails or takes no byte
/// has some first part of the page. What is said of bytes is said of writers whose bytes are known; of standard output `std` knows none.
pub fn show_lines<S: Shelf, D: Rules, W: Write>(
    alloc: Global,
    shelf: &mut S,
    rules: &mut D,
    change: ChangeNo,
    writer: &mut W,
) -> Result<(), ShowFault>
    ensures { Showed (change_questions change) change_page (W.contents writer.old) (W.contents writer.new) result (S.state shelf.old) (S.state shelf.new) }
{
    let replies = replies_to(
        alloc,
        shelf,
        rules,
        &[
            about(change, ChangeQuery::Change),
            about(change, ChangeQuery::Requirements),
            about(change, ChangeQuery::Attention),
        ],
    );
    write_change(alloc, &replies, writer)
}

fn write_change<W: Write>(alloc: Global, replies: &[Reply], writer: &mut W) -> Result<(), ShowFault>
    ensures { (text : List ℕ) × Appends (W.contents writer.old) (W.contents writer.new) text × IsWritten (change_page replies.now) text result }
{
    match change_page(alloc, replies) {
        Ok(page) => write_page(writer, page.as_bytes()),
        Err(fault) => Err(fault),
    }
}

fn branch_question(project: &ProjectName, branch: &BranchName) -> Result<Delivery, AllocError>
    ensures { IfOk result (λ d. d ∷ [] ≡ branch_questions project.now branch.now) }
{
    let project = project.copy()?;
    let branch = branch.copy()?;
    Ok(Delivery::Read {
        caller: AccountNo::first(),
        query: Query::Branch { project, branch },
    })
}

/// Asks as account 1 which changes joined a branch, and writes a line for each: its place, the change, and the commit by which it
/// joined, as `1 1` and the commit.
///
/// What is said of `show_lines` holds here too.
pub fn joined_lines<S: Shelf, D: Rules, W: Write>(
    alloc: Global,
    shelf: &mut S,
    rules: &mut D,
    project: &ProjectName,
    branch: &BranchName,
    writer: &mut W,
) -> Result<(), ShowFault>
    ensures { Showed (branch_questions project.now branch.now) joined_page (W.contents writer.old) (W.contents writer.new) result (S.state shelf.old) (S.state shelf.new) }
{
    let Ok(question) = branch_question(project, branch) else {
        return Err(ShowFault::Memory);
    };
    let replies = replies_to(alloc, shelf, rules, &[question]);
    write_joined(alloc, &replies, writer)
}

fn write_joined<W: Write>(alloc: Global, replies: &[Reply], writer: &mut W) -> Result<(), ShowFault>
    ensures { (text : List ℕ) × Appends (W.contents writer.old) (W.contents writer.new) text × IsWritten (joined_page replies.now) text result }
{
    match joined_page(alloc, replies) {
        Ok(page) => write_page(writer, page.as_bytes()),
        Err(fault) => Err(fault),
    }
}
