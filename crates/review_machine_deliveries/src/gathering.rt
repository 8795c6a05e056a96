//! What the tables know of a delivery, asked for step by step.
ghost use Rattle.std.specs.Prelude.{◌≡◌, [], IfOk, IfErr, OnOk, option_copied};
ghost use Rattle.review_machine_rows.specs.Known.{Agrees, StaysKnown};
ghost use Rattle.review_machine_rows.specs.Shelf.{Shows, KeepsTables, BlamesTables, AddsNoStop, CountsFaults};
ghost use Rattle.review_machine_rows.specs.Steps.{HasComeTo, next, topic_of};
ghost use Rattle.review_machine_deliveries.specs.Gathered.{OnlyGathers, OnlyLooks, CountsCause, IsAllAsked, IsSoFar, IsUngathered, LeavesTables};

use crate::rules::Rules;
use review_file::ProjectFile;
use review_machine_rows::{Matter, Rows, Shelf, ShelfFault, Step};
use review_words::{AccountNo, NotTaken};
use std::alloc::Global;

/// Adds to rows what decides a command or a question, where this file was read. A step asks for all that is known to be needed; what it finds
/// may need more, and then a further step asks. Only what is asked for and wasn't made before is looked up: what the rows knew stays. Where they
/// knew nothing, or what is so in the tables, so it is in the end. An error may leave a part of it added.
pub fn gather<S: Shelf, R: Rules>(
    alloc: Global,
    shelf: &mut S,
    rules: &mut R,
    effective: Option<&ProjectFile>,
    rows: &mut Rows,
    caller: AccountNo,
    matter: Matter<'_>,
) -> Result<(), ShelfFault>
    ensures looks { OnlyLooks result (S.state shelf.old) (S.state shelf.new) }
    ensures enough { OnOk result (next (option_copied effective.entry) rows.new caller (topic_of matter.entry) ≡ []) }
    ensures stays { OnOk result (StaysKnown rows.old rows.new) }
    ensures found { (S.state shelf.new).is_honest → IsSoFar (S.state shelf.old).tables rows.old → OnOk result (Shows (S.state shelf.old).tables (λ t. Agrees t rows.new)) }
{
    gather_from(
        alloc,
        shelf,
        rules,
        effective,
        rows,
        caller,
        matter,
        Step::First,
    )
}

// Adds to rows what decides a command or a question, from the step on that asking has come to.
fn gather_from<S: Shelf, R: Rules>(
    alloc: Global,
    shelf: &mut S,
    rules: &mut R,
    effective: Option<&ProjectFile>,
    rows: &mut Rows,
    caller: AccountNo,
    matter: Matter<'_>,
    from: Step,
) -> Result<(), ShelfFault>
    requires come { HasComeTo (option_copied effective) rows.old caller (topic_of matter) from }
    ensures looks { OnlyLooks result (S.state shelf.old) (S.state shelf.new) }
    ensures enough { OnOk result (next (option_copied effective.entry) rows.new caller (topic_of matter.entry) ≡ []) }
    ensures stays { OnOk result (StaysKnown rows.old rows.new) }
    ensures found { (S.state shelf.new).is_honest → IsSoFar (S.state shelf.old).tables rows.old → OnOk result (Shows (S.state shelf.old).tables (λ t. Agrees t rows.new)) }
{
    let mut come = from;
    while let Some(need) = rules.next_need(alloc, effective, rows, caller, matter, &mut come)? {
        shelf.load(alloc, &need, rows)?;
    }
    Ok(())
}

/// Adds to rows what decides a command or a question, and answers the effective file by which it is judged, where there is one: first what is asked
/// without the file, which tells the texts of the project and of its ancestors; then the file is read; and then what is asked by the file. An error
/// may leave a part of it added.
///
/// Pattern is answered only for a command that is judged, or a question that is answered, by a file with a pattern or one that goes on from such a file.
pub fn gathered<S: Shelf, R: Rules>(
    alloc: Global,
    shelf: &mut S,
    rules: &mut R,
    rows: &mut Rows,
    caller: AccountNo,
    matter: Matter<'_>,
) -> Result<Option<ProjectFile>, NotTaken>
    ensures gathers { OnlyGathers result (S.state shelf.old) (S.state shelf.new) }
    ensures enough { IfOk result (λ effective. IsAllAsked caller (topic_of matter.entry) effective rows.new) }
    ensures found { (S.state shelf.new).is_honest → IsSoFar (S.state shelf.old).tables rows.old → OnOk result (Shows (S.state shelf.old).tables (λ t. Agrees t rows.new)) }
    ensures cause { (S.state shelf.new).is_honest → IsSoFar (S.state shelf.old).tables rows.old → IfErr result (IsUngathered (topic_of matter.entry) (S.state shelf.old).tables) }
{
    gather(alloc, shelf, rules, None, rows, caller, matter)?;
    let Some(effective) = rules.read(alloc, rows, matter)? else {
        return Ok(None);
    };
    let file = Some(&effective);
    gather_from(
        alloc,
        shelf,
        rules,
        file,
        rows,
        caller,
        matter,
        Step::ByFile,
    )?;
    Ok(Some(effective))
}
