//! The decision on epochs.
ghost use Rattle.std.specs.Prelude.{◌≡◌, List, Option, IfOk, IfErr, true, false};
ghost use Rattle.review_words.specs.History.{Entry, if_done, is_account};
ghost use Rattle.review_words.specs.{Texts.IsStored, declared.command.Command.TheVariants.CloseEpoch};
ghost use Rattle.review_words.specs.declared.reply.NotTaken.TheVariants.{Memory};
ghost use Rattle.review_machine_rows.specs.{Changes.Reading, Decisions.NamesEachOnce, Files.File};
ghost use Rattle.review_machine_rows.specs.Known.{known, number_of};
ghost use Rattle.review_machine_rows.specs.Rows.{HasNoEffect, new_least, is_above, is_below};
ghost use Rattle.review_machine_rows.specs.{Steps.OfCommand, View.AreEnough, View.IsDecidedAt};
ghost use Rattle.review_machine_rows.specs.declared.rows.Want.TheVariants as want;

use crate::callers::is_admin;
use crate::deltas::{nothing, refused};
use review_machine_rows::{Delta, Rows, Want};
use review_words::{AccountNo, Answer, Epoch, NotTaken, Refusal, Reply};
use std::alloc::Global;

/// All epochs below one are closed, in a request of this epoch. Refused for an administrator missing, an epoch beyond that of the
/// request itself, or one that isn't above the least open one, in this order; an error is want of memory.
pub fn close_epoch(
    alloc: Global,
    rows: &Rows,
    caller: AccountNo,
    epoch: Epoch,
    least: Epoch,
) -> Result<(Delta, Reply), NotTaken>
    ensures decided { IfOk result (λ r. (reading : Reading) (effective : Option File) (h : List Entry) → is_account h caller ≡ true → AreEnough reading h caller (OfCommand (CloseEpoch least)) effective rows.now → IsDecidedAt reading h caller epoch (CloseEpoch least) r.0 r.1) }
    ensures cause { IfErr result (λ e. e ≡ Memory) }
    ensures stored { IfOk result (λ r. IsStored r.1) }
    ensures refused { IfOk result (λ r. HasNoEffect r.1 r.0) }
    ensures closes { IfOk result (λ r. r.0.least_epoch ≡ new_least (if_done r.1 (CloseEpoch least))) }
    ensures own { IfOk result (λ r. is_below r.0.least_epoch epoch ≡ false) }
    ensures raises { IfOk result (λ r. is_above r.0.least_epoch (number_of (known rows.now want.LeastEpoch)) ≡ true) }
    ensures once { IfOk result (λ r. NamesEachOnce r.0) }
{
    let admin = is_admin(alloc, rows, caller)?;
    if !admin {
        return Ok(refused(alloc, Refusal::NotAdmin));
    }
    if least.get() > epoch.get() {
        return Ok(refused(alloc, Refusal::EpochAhead));
    }
    let want = Want::LeastEpoch;
    let open = rows.number(&want);
    drop(want);
    if u64::from(least.get()) <= open {
        return Ok(refused(alloc, Refusal::SameState));
    }
    let mut delta = nothing(alloc);
    delta.least_epoch = Some(least);
    Ok((delta, Reply::Done(Answer::Nothing)))
}
