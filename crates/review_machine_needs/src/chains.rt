//! What is asked for the chain of a change that is submitted.
ghost use Rattle.std.specs.Prelude.{◌≡◌, Some, IfOk, IfSome, option_map, option_to_list};
ghost use Rattle.review_chain.specs.{Branches.Branch, Steps.want_of, Steps.wanted};
ghost use Rattle.review_core_rules.specs.Seen.{seen};
ghost use Rattle.review_machine_rows.specs.{Known.known, Known.change_in, Links.links_in};
ghost use Rattle.review_machine_rows.specs.Steps.{MayGoOn, chain_wants, look_up, wants_by};
ghost use Rattle.review_machine_needs.specs.inner.Walks.{IsWalkIn};
ghost use Rattle.review_machine_rows.specs.declared.rows.Want.TheVariants as want;

use review_chain::{Links, LookUp, Walked, wanted_on};
use review_core_rules::{ChangeRows, Header};
use review_machine_accounts::base_of;
use review_machine_rows::{RowLinks, Rows, Want};
use review_words::{ChangeNo, State};
use std::alloc::{AllocError, Global};

/// What is wanted for the chain of a change that is open and not in work in progress, once that is known. The look for the chain goes on from
/// the walk that an earlier one has come to, if there was one.
pub fn chain_wants(
    alloc: Global,
    rows: &Rows,
    change: ChangeNo,
    walked: &mut Option<Walked>,
) -> Result<Vec<Want>, AllocError>
    ensures wants { MayGoOn rows.now change walked.old → IfOk result (λ wants. wants.items ≡ wants_by (chain_wants rows.now change) (change_in (known rows.now (want.Change change)))) }
    ensures walked { MayGoOn rows.now change walked.old → MayGoOn rows.now change walked.new }
{
    match rows.change(change) {
        Some(found) => wants_of_chain(alloc, rows, change, found, walked),
        None => Ok(Vec::new(alloc)),
    }
}

fn wants_of_chain(
    alloc: Global,
    rows: &Rows,
    change: ChangeNo,
    found: &ChangeRows,
    walked: &mut Option<Walked>,
) -> Result<Vec<Want>, AllocError>
    ensures wants { change_in (known rows.now (want.Change change)) ≡ Some (seen found.now) → MayGoOn rows.now change walked.old → IfOk result (λ wants. wants.items ≡ chain_wants rows.now change (seen found.now)) }
    ensures walked { change_in (known rows.now (want.Change change)) ≡ Some (seen found.now) → MayGoOn rows.now change walked.old → MayGoOn rows.now change walked.new }
{
    let header = &found.header;
    if !matches!(header.state, State::New) || header.wip {
        return Ok(Vec::new(alloc));
    }
    wants_of_ready(alloc, rows, change, header, walked)
}

fn wants_of_ready(
    alloc: Global,
    rows: &Rows,
    change: ChangeNo,
    header: &Header,
    walked: &mut Option<Walked>,
) -> Result<Vec<Want>, AllocError>
    ensures wants { IfSome walked.old (IsWalkIn (links_in rows.now header.now.project header.now.branch) change) →
        IfOk result (λ wants. wants.items ≡ option_to_list (option_map (look_up header.now.project header.now.branch) (wanted (links_in rows.now header.now.project header.now.branch) change))) }
    ensures walked { IfSome walked.old (IsWalkIn (links_in rows.now header.now.project header.now.branch) change) → IfSome walked.new (IsWalkIn (links_in rows.now header.now.project header.now.branch) change) }
{
    let links = RowLinks {
        rows,
        project: &header.project,
        branch: &header.branch,
    };
    let found = look_on(&links, change, walked)?;
    look_ups(alloc, header, found)
}

// What is wanted for the chain of a change. The look for it goes on from a walk to it, if there is one, and leaves one.
fn look_on<L: Links>(
    links: &L,
    change: ChangeNo,
    walked: &mut Option<Walked>,
) -> Result<Option<LookUp>, AllocError>
    ensures is { IfSome walked.old (IsWalkIn (L.known links.now) change) → IfOk result (λ found. option_map want_of found ≡ wanted (L.known links.now) change) }
    ensures walked { IfSome walked.old (IsWalkIn (L.known links.now) change) → IfSome walked.new (IsWalkIn (L.known links.now) change) }
{
    let mut on = begun(walked, change);
    let found = wanted_on(links, &mut on)?;
    *walked = Some(on);
    Ok(found)
}

// The walk that a look goes on from: that of the change alone, where none was begun.
fn begun(walked: &Option<Walked>, change: ChangeNo) -> Walked
    ensures { (b : Branch) → IfSome walked.now (IsWalkIn b change) → IsWalkIn b change result }
{
    match walked {
        Some(walked) => *walked,
        None => Walked::new(change),
    }
}

// What is looked up for what a chain wants in the branch of a change, if anything.
fn look_ups(alloc: Global, header: &Header, wanted: Option<LookUp>) -> Result<Vec<Want>, AllocError>
    ensures { IfOk result (λ wants. wants.items ≡ option_to_list (option_map (look_up header.now.project header.now.branch) (option_map want_of wanted))) }
{
    let mut wants = Vec::new(alloc);
    if let Some(wanted) = wanted {
        wants.push(look_up(header, &wanted)?)?;
    }
    Ok(wants)
}

// What is looked up for what a chain wants.
fn look_up(header: &Header, wanted: &LookUp) -> Result<Want, AllocError>
    ensures { IfOk result (λ w. w ≡ look_up header.now.project header.now.branch (want_of wanted.now)) }
{
    match wanted {
        LookUp::Change(change) => Ok(Want::Change(*change)),
        LookUp::Commit(commit) => Ok(Want::Standing(base_of(
            &header.project,
            &header.branch,
            commit,
        )?)),
    }
}
