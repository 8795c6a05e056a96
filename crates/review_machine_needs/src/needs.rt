//! What deliveries ask of the tables.
ghost use Rattle.std.specs.Prelude.{ℕ, ◌≡◌, Option, IfOk, IfSome, option_copied};
ghost use Rattle.review_machine_rows.specs.Files.{File};
ghost use Rattle.review_machine_rows.specs.Steps.{ComesTo, HasComeTo, MayGoOnFor, last_wants, next, topic_of, unknown, unless_none, wants_in};
ghost use Rattle.review_machine_needs.specs.inner.Asked.{IsAsked};
ghost use Rattle.review_machine_rows.specs.declared.step.Step.TheVariants as step;

use crate::chains::chain_wants;
use crate::changes::change_wants;
use crate::files::file_wants;
use crate::first::first_wants;
use crate::lines::wants_above;
use review_chain::Walked;
use review_file::ProjectFile;
use review_file_lines::FileMemo;
use review_machine_rows::{Matter, Need, Rows, Step, Want};
use review_words::{AccountNo, Command};
use std::alloc::{AllocError, Global};

/// What a command or a question asks of the tables next, where this file of its project was read; nothing where the rows decide it. Asking goes on
/// from the step that it has come to, and tells the one that it comes to once what is asked is known. The first file of a project is read for the
/// parent that it names, and kept for the decision.
pub fn next_need(
    alloc: Global,
    memo: &mut FileMemo,
    effective: Option<&ProjectFile>,
    rows: &Rows,
    caller: AccountNo,
    matter: Matter<'_>,
    come: &mut Step,
) -> Result<Option<Need>, AllocError>
    ensures need { HasComeTo (option_copied effective.entry) rows.now caller (topic_of matter.entry) come.old →
        IfOk result (λ need. wants_in need ≡ unless_none (next (option_copied effective.entry) rows.now caller (topic_of matter.entry))) }
    ensures come { HasComeTo (option_copied effective.entry) rows.now caller (topic_of matter.entry) come.old →
        IfOk result (λ need. IfSome need (λ n. ComesTo (option_copied effective.entry) rows.now caller (topic_of matter.entry) n.wants.items come.new)) }
{
    let asked = asked_from(alloc, memo, effective, rows, caller, matter, *come)?;
    *come = asked.step;
    if asked.wants.is_empty() {
        return Ok(None);
    }
    Ok(Some(Need { wants: asked.wants }))
}

/// What is asked next, and the step that asking comes to once it is known.
#[derive(Drop)]
struct NextWants {
    wants: Vec<Want>,
    step: Step,
}

// What is asked next from a step on.
fn asked_from(
    alloc: Global,
    memo: &mut FileMemo,
    effective: Option<&ProjectFile>,
    rows: &Rows,
    caller: AccountNo,
    matter: Matter<'_>,
    come: Step,
) -> Result<NextWants, AllocError>
    ensures { HasComeTo (option_copied effective.entry) rows.now caller (topic_of matter.entry) come →
        IfOk result (λ a. IsAsked (option_copied effective.entry) rows.now caller (topic_of matter.entry) a.wants.items a.step) }
{
    match come {
        Step::First => asked_first(alloc, memo, effective, rows, caller, matter),
        Step::ByChange => asked_by_change(alloc, memo, effective, rows, caller, matter),
        Step::Above => asked_above(alloc, memo, effective, rows, caller, matter),
        Step::ByFile => asked_by_file(alloc, effective, rows, caller, matter),
        Step::Last(walked) => asked_last(alloc, rows, matter, walked),
    }
}

fn asked_first(
    alloc: Global,
    memo: &mut FileMemo,
    effective: Option<&ProjectFile>,
    rows: &Rows,
    caller: AccountNo,
    matter: Matter<'_>,
) -> Result<NextWants, AllocError>
    ensures { IfOk result (λ a. IsAsked (option_copied effective.entry) rows.now caller (topic_of matter.entry) a.wants.items a.step) }
{
    let wants = unknown(rows, first_wants(alloc, caller, matter)?);
    if wants.is_empty() {
        return asked_by_change(alloc, memo, effective, rows, caller, matter);
    }
    let step = Step::ByChange;
    Ok(NextWants { wants, step })
}

fn asked_by_change(
    alloc: Global,
    memo: &mut FileMemo,
    effective: Option<&ProjectFile>,
    rows: &Rows,
    caller: AccountNo,
    matter: Matter<'_>,
) -> Result<NextWants, AllocError>
    ensures { HasComeTo (option_copied effective.entry) rows.now caller (topic_of matter.entry) step.ByChange →
        IfOk result (λ a. IsAsked (option_copied effective.entry) rows.now caller (topic_of matter.entry) a.wants.items a.step) }
{
    let wants = unknown(rows, change_wants(alloc, rows, matter)?);
    if wants.is_empty() {
        return asked_above(alloc, memo, effective, rows, caller, matter);
    }
    let step = Step::Above;
    Ok(NextWants { wants, step })
}

// An ancestor's file may name a further ancestor, so asking comes to no later step before all of them are known.
fn asked_above(
    alloc: Global,
    memo: &mut FileMemo,
    effective: Option<&ProjectFile>,
    rows: &Rows,
    caller: AccountNo,
    matter: Matter<'_>,
) -> Result<NextWants, AllocError>
    ensures { HasComeTo (option_copied effective.entry) rows.now caller (topic_of matter.entry) step.Above →
        IfOk result (λ a. IsAsked (option_copied effective.entry) rows.now caller (topic_of matter.entry) a.wants.items a.step) }
{
    let wants = wants_above(alloc, memo, rows, matter)?;
    if wants.is_empty() {
        return asked_by_file(alloc, effective, rows, caller, matter);
    }
    let step = Step::Above;
    Ok(NextWants { wants, step })
}

fn asked_by_file(
    alloc: Global,
    effective: Option<&ProjectFile>,
    rows: &Rows,
    caller: AccountNo,
    matter: Matter<'_>,
) -> Result<NextWants, AllocError>
    ensures { HasComeTo (option_copied effective.entry) rows.now caller (topic_of matter.entry) step.ByFile →
        IfOk result (λ a. IsAsked (option_copied effective.entry) rows.now caller (topic_of matter.entry) a.wants.items a.step) }
{
    let wants = unknown(rows, file_wants(alloc, effective, caller, matter)?);
    if wants.is_empty() {
        return asked_last(alloc, rows, matter, None);
    }
    let step = Step::Last(None);
    Ok(NextWants { wants, step })
}

// The look for a chain goes on from the walk that it has come to, and may ask once more from where it comes to now.
fn asked_last(
    alloc: Global,
    rows: &Rows,
    matter: Matter<'_>,
    walked: Option<Walked>,
) -> Result<NextWants, AllocError>
    ensures { (effective : Option File) (caller : ℕ) → HasComeTo effective rows.now caller (topic_of matter.entry) (step.Last walked) →
        IfOk result (λ a. IsAsked effective rows.now caller (topic_of matter.entry) a.wants.items a.step) }
{
    let mut walked = walked;
    let wants = last_wants(alloc, rows, matter, &mut walked)?;
    let step = Step::Last(walked);
    Ok(NextWants { wants, step })
}

// What a submit asks last: what is wanted for the chain of its change, where it isn't known.
fn last_wants(
    alloc: Global,
    rows: &Rows,
    matter: Matter<'_>,
    walked: &mut Option<Walked>,
) -> Result<Vec<Want>, AllocError>
    ensures wants { MayGoOnFor rows.now (topic_of matter.entry) walked.old → IfOk result (λ wants. wants.items ≡ last_wants rows.now (topic_of matter.entry)) }
    ensures walked { MayGoOnFor rows.now (topic_of matter.entry) walked.old → MayGoOnFor rows.now (topic_of matter.entry) walked.new }
{
    match matter {
        Matter::Command(Command::Submit { change }) => {
            let in_chain = chain_wants(alloc, rows, *change, walked)?;
            Ok(unknown(rows, in_chain))
        }
        _ => Ok(Vec::new(alloc)),
    }
}

// Those look-ups that weren't made.
fn unknown(rows: &Rows, wants: Vec<Want>) -> Vec<Want>
    ensures { result.items ≡ unknown rows.now wants.items }
{
    let mut left = wants;
    left.retain(|want| !rows.knows(want));
    left
}
