//! The attention set: whom a rule calls.
ghost use Rattle.std.specs.List.{list_any, filter};
ghost use Rattle.std.specs.Prelude.{◌≡◌, ◌==◌, ◌&&◌, ◌||◌, not, ℕ, Option, None, Some, IfOk, OnOk, is_some, if◌then◌else◌};
ghost use Rattle.review_core_rules.specs.{Change.kept_or, EditedRows.edited_account};
ghost use Rattle.review_core_rules.specs.declared.rows.Why.{Why, TheVariants.Told};

use crate::reasons::reason_of;
use review_core_rules::{AttentionEntry, Why};
use review_table::Edited;
use review_words::{AccountNo, Reason, Role};
use std::alloc::{AllocError, Global};

/// Why a rule calls an account, or that it doesn't.
pub trait Rule {
    ghost calls: { Self → ℕ → Option Why };

    /// Why the rule calls an account. An error where there was no memory to find out.
    fn call(&self, account: AccountNo) -> Result<Option<Why>, AllocError>
        ensures { IfOk result (λ why. why ≡ calls self.now account) };
}

/// Calls an account that a rule calls and that isn't in.
fn call_one<R: Rule>(
    alloc: Global,
    attention: &mut Edited<'_, AccountNo, AttentionEntry>,
    account: AccountNo,
    rule: &R,
    request: u64,
) -> Result<(), AllocError>
    ensures table { attention.new.rows ≡ attention.old.rows }
    ensures called { OnOk result ((u : ℕ) → edited_account attention.new u ≡ (if account == u then kept_or (edited_account attention.old u) (R.calls rule.now u) request else edited_account attention.old u)) }
{
    if attention.get(&account).is_some() {
        return Ok(());
    }
    let Some(why) = rule.call(account)? else {
        return Ok(());
    };
    let reason = reason_of(alloc, why)?;
    attention.set(account, Some(AttentionEntry { reason, request }))
}

/// Calls those of some accounts that a rule calls and that aren't in.
pub fn call_all<R: Rule>(
    alloc: Global,
    attention: &mut Edited<'_, AccountNo, AttentionEntry>,
    accounts: &[AccountNo],
    rule: &R,
    request: u64,
) -> Result<(), AllocError>
    ensures table { attention.new.rows ≡ attention.old.rows }
    ensures called { OnOk result ((u : ℕ) → edited_account attention.new u ≡ kept_or (edited_account attention.old u) (if list_any (λ x. x == u) accounts.now then R.calls rule.now u else None) request) }
{
    for account in accounts {
        call_one(alloc, attention, *account, rule, request)?;
    }
    Ok(())
}

fn has_role(roles: &Edited<'_, AccountNo, Role>, account: AccountNo) -> bool
    ensures { result ≡ is_some (edited_account roles.now account) }
{
    roles.get(&account).is_some()
}

/// The owner, the current uploader and who has a role.
fn eligible_accounts(
    alloc: Global,
    owner: AccountNo,
    uploader: AccountNo,
    roles: &Edited<'_, AccountNo, Role>,
) -> Result<Vec<AccountNo>, AllocError>
    ensures { IfOk result (λ v. (u : ℕ) → list_any (λ x. x == u) v.items ≡ ((owner == u) || ((uploader == u) || is_some (edited_account roles.now u)))) }
{
    let mut accounts = Vec::new(alloc);
    accounts.push(owner)?;
    accounts.push(uploader)?;
    let keys = roles.keys(alloc)?;
    for account in &keys {
        if has_role(roles, **account) {
            accounts.push(**account)?;
        }
    }
    Ok(accounts)
}

/// Who has to do with a change after a request: the caller is never called, and nobody while it is in work in progress.
#[derive(Drop)]
pub struct Who {
    pub owner: AccountNo,
    pub uploader: AccountNo,
    pub caller: AccountNo,
    pub wip: bool,
}

fn drop_caller(accounts: &mut Vec<AccountNo>, caller: AccountNo)
    ensures { accounts.new.items ≡ filter (λ x. not (x == caller)) accounts.old.items }
{
    accounts.retain(|account| *account != caller);
}

/// Whom rules may call: the eligible, but for the caller, and nobody while the change is in work in progress.
pub fn callable(
    alloc: Global,
    roles: &Edited<'_, AccountNo, Role>,
    who: &Who,
) -> Result<Vec<AccountNo>, AllocError>
    ensures { IfOk result (λ v. (u : ℕ) → list_any (λ x. x == u) v.items ≡ (((who.now.owner == u) || ((who.now.uploader == u) || is_some (edited_account roles.now u))) && (not (who.now.caller == u) && not who.now.wip))) }
{
    if who.wip {
        return Ok(Vec::new(alloc));
    }
    let mut accounts = eligible_accounts(alloc, who.owner, who.uploader, roles)?;
    drop_caller(&mut accounts, who.caller);
    Ok(accounts)
}

/// Takes an account out, where it is to go.
pub fn drop_called(
    attention: &mut Edited<'_, AccountNo, AttentionEntry>,
    account: AccountNo,
    is_gone: bool,
) -> Result<(), AllocError>
    ensures table { attention.new.rows ≡ attention.old.rows }
    ensures called { OnOk result ((u : ℕ) → edited_account attention.new u ≡ (if (account == u) && is_gone then None else edited_account attention.old u)) }
{
    if !is_gone || attention.get(&account).is_none() {
        return Ok(());
    }
    attention.set(account, None)
}

/// Calls an account by hand, unless it is in.
pub fn tell(
    attention: &mut Edited<'_, AccountNo, AttentionEntry>,
    account: AccountNo,
    reason: &Reason,
    request: u64,
) -> Result<(), AllocError>
    ensures table { attention.new.rows ≡ attention.old.rows }
    ensures called { OnOk result ((u : ℕ) → edited_account attention.new u ≡ kept_or (edited_account attention.old u) (if account == u then Some (Told reason.now) else None) request) }
{
    if attention.get(&account).is_some() {
        return Ok(());
    }
    let reason = reason.copy()?;
    attention.set(account, Some(AttentionEntry { reason, request }))
}
