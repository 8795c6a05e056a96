//! Decisions on accounts and groups.
ghost use Rattle.std.specs.{List.list_all, List.Sorted.IsStrictlySortedBy, Map.Iter.deref_pair, Ordering.nat_cmp};
ghost use Rattle.std.specs.Prelude.{◌≡◌, ◌++◌, ◌∷◌, ◌+◌, ◌<◌, ◌≤◌, ℕ, List, Option, None, Some, [], IfOk, IfSome, IfErr, OnOk, is_some, map, true};
ghost use Rattle.review_table.specs.Rows.{NamesOnce, rows_of};
ghost use Rattle.review_words.specs.{History.Entry, History.is_account, Texts.IsStored};
ghost use Rattle.review_words.specs.declared.command.Command.TheVariants.{CreateAccount, PutGroup};
ghost use Rattle.review_words.specs.declared.reply.NotTaken.TheVariants.{Memory};
ghost use Rattle.review_machine_rows.specs.Answer.{checks, first_refusal};
ghost use Rattle.review_machine_rows.specs.{Changes.Reading, Decisions.NamesEachOnce, Desks.facts_in, Files.File};
ghost use Rattle.review_machine_rows.specs.Known.{known, holder_of, is_there, members_of, number_of};
ghost use Rattle.review_machine_rows.specs.{Limits.most_accounts, Rows.HasNoEffect, Rows.member_cmp, Steps.OfCommand};
ghost use Rattle.review_machine_rows.specs.View.{AreEnough, IsDecided};
ghost use Rattle.review_machine_accounts.specs.Decisions.{IsDelta, no_edits};
ghost use Rattle.review_machine_accounts.specs.inner.Words.{added, dropped, member_of};
ghost use Rattle.review_machine_rows.specs.declared.rows.Want.TheVariants as want;

use crate::callers::{is_account, is_admin};
use crate::deltas::{nothing, refused};
use review_machine_rows::{Delta, MemberKey, Rows, Want};
use review_table::{Key, RowEdit, Table};
use review_words::{AccountName, AccountNo, Answer, GroupName, Members, NotTaken, Refusal, Reply};
use std::alloc::{AllocError, Global};

/// The next account gets a name that none has: the answer is its number. Refused for an administrator missing, a name in use, or the
/// last account given, in this order; an error is want of memory.
pub fn create_account(
    alloc: Global,
    rows: &Rows,
    caller: AccountNo,
    name: &AccountName,
) -> Result<(Delta, Reply), NotTaken>
    ensures decided { IfOk result (λ r. (reading : Reading) (effective : Option File) (h : List Entry) → is_account h caller ≡ true → AreEnough reading h caller (OfCommand (CreateAccount name.now)) effective rows.now → IsDecided reading h caller (CreateAccount name.now) r.0 r.1) }
    ensures cause { IfErr result (λ e. e ≡ Memory) }
    ensures stored { IfOk result (λ r. IsStored r.1) }
    ensures refused { IfOk result (λ r. HasNoEffect r.1 r.0) }
    ensures epoch { IfOk result (λ r. r.0.least_epoch ≡ None) }
    ensures once { IfOk result (λ r. NamesEachOnce r.0) }
{
    let refusal = account_refusal(alloc, rows, caller, name)?;
    if let Some(refusal) = refusal {
        return Ok(refused(alloc, refusal));
    }
    let number = next_account(last_account(rows));
    let delta = account_delta(alloc, number, name)?;
    Ok((delta, Reply::Done(Answer::Account(number))))
}

// The first check of a new account that fails, where one does.
fn account_refusal(
    alloc: Global,
    rows: &Rows,
    caller: AccountNo,
    name: &AccountName,
) -> Result<Option<Refusal>, AllocError>
    ensures { IfOk result (λ r. r ≡ first_refusal (checks (facts_in rows.now) caller (CreateAccount name.now))) }
{
    if !is_admin(alloc, rows, caller)? {
        return Ok(Some(Refusal::NotAdmin));
    }
    if is_taken(rows, name)? {
        return Ok(Some(Refusal::NameTaken));
    }
    if last_account(rows) >= 1_000_000 {
        return Ok(Some(Refusal::Limit));
    }
    Ok(None)
}

// Whether an account has a name.
fn is_taken(rows: &Rows, name: &AccountName) -> Result<bool, AllocError>
    ensures { IfOk result (λ b. b ≡ is_some (holder_of (known rows.now (want.AccountNamed name.now)))) }
{
    let want = Want::AccountNamed(name.copy()?);
    let is = rows.has_holder(&want);
    drop(want);
    Ok(is)
}

// The greatest number of an account.
fn last_account(rows: &Rows) -> u64
    ensures { result ≡ number_of (known rows.now want.LastAccount) }
{
    let want = Want::LastAccount;
    let last = rows.number(&want);
    drop(want);
    last
}

// The account after the last one.
fn next_account(last: u64) -> AccountNo
    requires { last < most_accounts }
    ensures { result ≡ last + 1 }
{
    let Ok(last) = u32::try_from(last) else {
        unreachable!()
    };
    match AccountNo::after(last) {
        Some(next) => next,
        None => unreachable!(),
    }
}

// The delta that gives an account a name.
fn account_delta(alloc: Global, number: AccountNo, name: &AccountName) -> Result<Delta, AllocError>
    ensures delta { IfOk result (IsDelta (record no_edits { accounts = record { key = number; row = Some name.now } ∷ [] })) }
    ensures once { IfOk result NamesEachOnce }
{
    let name = name.copy()?;
    let accounts = vec![in alloc;
        RowEdit {
            key: number,
            row: Some(name),
        },
    ]?;
    let mut delta = nothing(alloc);
    delta.accounts = accounts;
    Ok(delta)
}

/// A group gets these members, in place of those it had. Refused for an administrator missing, the name of the group of everyone, or a member
/// that is no account, in this order; an error is want of memory.
pub fn put_group(
    alloc: Global,
    rows: &Rows,
    caller: AccountNo,
    group: &GroupName,
    members: &Members,
) -> Result<(Delta, Reply), NotTaken>
    ensures decided { IfOk result (λ r. (reading : Reading) (effective : Option File) (h : List Entry) → is_account h caller ≡ true → AreEnough reading h caller (OfCommand (PutGroup group.now members.now)) effective rows.now → IsDecided reading h caller (PutGroup group.now members.now) r.0 r.1) }
    ensures cause { IfErr result (λ e. e ≡ Memory) }
    ensures stored { IfOk result (λ r. IsStored r.1) }
    ensures refused { IfOk result (λ r. HasNoEffect r.1 r.0) }
    ensures epoch { IfOk result (λ r. r.0.least_epoch ≡ None) }
    ensures once { IfOk result (λ r. NamesEachOnce r.0) }
{
    let refusal = group_refusal(alloc, rows, caller, group, members)?;
    if let Some(refusal) = refusal {
        return Ok(refused(alloc, refusal));
    }
    let changes = member_changes(alloc, rows, group, members)?;
    let mut delta = nothing(alloc);
    delta.members = changes;
    Ok((delta, Reply::Done(Answer::Nothing)))
}

// The first check of the members of a group that fails, where one does.
fn group_refusal(
    alloc: Global,
    rows: &Rows,
    caller: AccountNo,
    group: &GroupName,
    members: &Members,
) -> Result<Option<Refusal>, AllocError>
    ensures { IfOk result (λ r. r ≡ first_refusal (checks (facts_in rows.now) caller (PutGroup group.now members.now))) }
{
    if !is_admin(alloc, rows, caller)? {
        return Ok(Some(Refusal::NotAdmin));
    }
    if group.as_str() == "Registered-Users" {
        return Ok(Some(Refusal::NameTaken));
    }
    if !have_accounts(rows, members) {
        return Ok(Some(Refusal::NoAccount));
    }
    Ok(None)
}

fn have_accounts(rows: &Rows, members: &Members) -> bool
    ensures { result ≡ list_all (λ n. is_there (known rows.now (want.Account n))) members.now }
{
    members
        .as_slice()
        .iter()
        .all(|number| is_account(rows, *number))
}

// The rows that make these the members of a group: those that aren't there yet are put, those that are to leave taken away.
fn member_changes(
    alloc: Global,
    rows: &Rows,
    group: &GroupName,
    members: &Members,
) -> Result<Vec<RowEdit<MemberKey, ()>>, AllocError>
    ensures changes { IfOk result (λ v. v.items ≡ added group.now (members_of (known rows.now (want.Group group.now))) members.now ++ dropped group.now (members_of (known rows.now (want.Group group.now))) members.now) }
    ensures once { IfOk result (λ v. NamesOnce member_cmp v.items) }
{
    match rows.group(group) {
        Some(held) => changes_from(alloc, held, group, members),
        None => changes_from(alloc, &Table::new(alloc), group, members),
    }
}

// The edits that give a group which holds these accounts its new members: those that come, then those that go.
fn changes_from(
    alloc: Global,
    held: &Table<AccountNo, ()>,
    group: &GroupName,
    members: &Members,
) -> Result<Vec<RowEdit<MemberKey, ()>>, AllocError>
    ensures changes { IfOk result (λ v. v.items ≡ added group.now (rows_of held.now) members.now ++ dropped group.now (rows_of held.now) members.now) }
    ensures once { IfOk result (λ v. NamesOnce member_cmp v.items) }
{
    let mut changes = add_members(alloc, held, group, members)?;
    let before = held.rows(alloc)?;
    drop_members(&mut changes, &before, group, members)?;
    Ok(changes)
}

fn add_members(
    alloc: Global,
    held: &Table<AccountNo, ()>,
    group: &GroupName,
    members: &Members,
) -> Result<Vec<RowEdit<MemberKey, ()>>, AllocError>
    ensures changes { IfOk result (λ v. v.items ≡ added group.now (rows_of held.now) members.now) }
    ensures ordered { IfOk result (λ v. IsStrictlySortedBy nat_cmp members.now) }
{
    let mut changes = Vec::new(alloc);
    for account in members.as_slice() {
        add_member(&mut changes, held, group, *account)?;
    }
    Ok(changes)
}

fn add_member(
    changes: &mut Vec<RowEdit<MemberKey, ()>>,
    held: &Table<AccountNo, ()>,
    group: &GroupName,
    account: AccountNo,
) -> Result<(), AllocError>
    ensures { OnOk result (changes.new.items ≡ changes.old.items ++ added group.now (rows_of held.now) (account ∷ [])) }
{
    if held.get(&account).is_none() {
        let key = member_key(group, account)?;
        changes.push(RowEdit { key, row: Some(()) })?;
    }
    Ok(())
}

fn member_key(group: &GroupName, account: AccountNo) -> Result<MemberKey, AllocError>
    ensures { IfOk result (λ k. k ≡ member_of group.now account) }
{
    Ok(MemberKey {
        group: group.copy()?,
        account,
    })
}

#[tactic(auto, using(crate::proofs::Members::dropped_more))]
fn drop_members(
    changes: &mut Vec<RowEdit<MemberKey, ()>>,
    held: &[(&AccountNo, &())],
    group: &GroupName,
    members: &Members,
) -> Result<(), AllocError>
    ensures { OnOk result (changes.new.items ≡ changes.old.items ++ dropped group.now (map deref_pair held.now) members.now) }
{
    for (account, _) in held {
        drop_member(changes, **account, group, members)?;
    }
    Ok(())
}

fn drop_member(
    changes: &mut Vec<RowEdit<MemberKey, ()>>,
    account: AccountNo,
    group: &GroupName,
    members: &Members,
) -> Result<(), AllocError>
    ensures { OnOk result (changes.new.items ≡ changes.old.items ++ dropped group.now ((account, tt) ∷ []) members.now) }
{
    if !members.has(account) {
        let key = member_key(group, account)?;
        changes.push(RowEdit { key, row: None })?;
    }
    Ok(())
}
