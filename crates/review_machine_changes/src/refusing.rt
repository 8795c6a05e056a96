//! The first check of a request on a change that fails.
ghost use Rattle.std.specs.Prelude.{◌≡◌, ◌∷◌, [], false, not, IfOk, option_copied, unwrap_or, if◌then◌else◌};
ghost use Rattle.review_words.specs.declared.reply.Refusal.TheVariants.{SameState};
ghost use Rattle.{review_file_rules.specs.Inherited.no_file, review_core_rules.specs.Seen.seen};
ghost use Rattle.review_machine_rows.specs.Answer.{abandon_checks, call_checks, first_refusal, flag_checks, has_right, has_role, is_merged, leave_checks, may_abandon, removal_checks, request_checks, restore_checks, role_checks, runs};
ghost use Rattle.review_machine_rows.specs.Desks.{facts_by, facts_in};
ghost use Rattle.review_machine_changes.specs.inner.Done.{lacks_file};
ghost use Rattle.review_file_rules.specs.declared.parts.Right.TheVariants as right;

use crate::facts::{has_right, is_open};
use crate::reviewing::review_refusal;
use crate::uploading::upload_refusal;
use review_core::ChangeFile;
use review_core_rules::{ChangeRows, Header};
use review_file::{ProjectFile, Right};
use review_machine_accounts::{is_account, is_admin};
use review_machine_rows::Rows;
use review_words::{AccountNo, ChangeCommand, Refusal, Role, State};
use std::alloc::{AllocError, Global};

/// Whether an account is known to run a change: its owner, or who runs the desk.
fn runs(
    alloc: Global,
    rows: &Rows,
    caller: AccountNo,
    change: &ChangeRows,
) -> Result<bool, AllocError>
    ensures { IfOk result (λ b. b ≡ runs (facts_in rows.now) caller (seen change.now)) }
{
    if caller == change.header.owner {
        return Ok(true);
    }
    is_admin(alloc, rows, caller)
}

/// Whether an account is known to have the right to abandon.
fn has_right_by(
    effective: Option<&ProjectFile>,
    rows: &Rows,
    caller: AccountNo,
) -> Result<bool, AllocError>
    ensures { IfOk result (λ b. b ≡ has_right (facts_in rows.now) (unwrap_or (option_copied effective.entry) no_file) right.Abandon caller) }
{
    match effective {
        Some(file) => has_right(rows, file, Right::Abandon, caller),
        None => Ok(false),
    }
}

/// Whether an account may abandon a change and restore it.
fn may_abandon(
    alloc: Global,
    effective: Option<&ProjectFile>,
    rows: &Rows,
    caller: AccountNo,
    change: &ChangeRows,
) -> Result<bool, AllocError>
    ensures { IfOk result (λ b. b ≡ may_abandon (facts_by rows.now (option_copied effective.entry)) caller (seen change.now)) }
{
    if runs(alloc, rows, caller, change)? {
        return Ok(true);
    }
    has_right_by(effective, rows, caller)
}

/// Whether an account has just this role.
fn has_role(asked: Role, held: Option<&Role>) -> bool
    ensures { result ≡ has_role asked (option_copied held.entry) }
{
    match (asked, held) {
        (Role::Reviewer, Some(Role::Reviewer)) => true,
        (Role::Cc, Some(Role::Cc)) => true,
        _ => false,
    }
}

fn is_merged(state: State) -> bool
    ensures { result ≡ is_merged state }
{
    matches!(state, State::Merged)
}

fn role_refusal(rows: &Rows, change: &ChangeRows, account: AccountNo, role: Role) -> Option<Refusal>
    ensures { result ≡ first_refusal (role_checks (facts_in rows.now) account role (seen change.now)) }
{
    if !is_account(rows, account) {
        return Some(Refusal::NoAccount);
    }
    if has_role(role, change.roles.get(&account)) {
        return Some(Refusal::SameState);
    }
    None
}

fn removal_refusal(
    alloc: Global,
    rows: &Rows,
    caller: AccountNo,
    change: &ChangeRows,
    account: AccountNo,
) -> Result<Option<Refusal>, AllocError>
    ensures { IfOk result (λ r. r ≡ first_refusal (removal_checks (facts_in rows.now) caller account (seen change.now))) }
{
    if !is_account(rows, account) {
        return Ok(Some(Refusal::NoAccount));
    }
    if caller != account && !runs(alloc, rows, caller, change)? {
        return Ok(Some(Refusal::NotAllowed));
    }
    if !is_open(change.header.state) {
        return Ok(Some(Refusal::Closed));
    }
    if change.roles.get(&account).is_none() {
        return Ok(Some(Refusal::SameState));
    }
    Ok(None)
}

/// Of a work in progress flag that is to be other than this.
fn flag_refusal(
    alloc: Global,
    rows: &Rows,
    caller: AccountNo,
    change: &ChangeRows,
    was: bool,
) -> Result<Option<Refusal>, AllocError>
    ensures { IfOk result (λ r. r ≡ first_refusal (flag_checks (facts_in rows.now) caller was (seen change.now))) }
{
    if !runs(alloc, rows, caller, change)? {
        return Ok(Some(Refusal::NotAllowed));
    }
    if !is_open(change.header.state) {
        return Ok(Some(Refusal::Closed));
    }
    Ok(flag_state(&change.header, was))
}

fn flag_state(header: &Header, was: bool) -> Option<Refusal>
    ensures { result ≡ first_refusal ((if was then header.now.wip else not header.now.wip, SameState) ∷ []) }
{
    if header.wip != was {
        return Some(Refusal::SameState);
    }
    None
}

fn abandon_refusal(
    alloc: Global,
    effective: Option<&ProjectFile>,
    rows: &Rows,
    caller: AccountNo,
    change: &ChangeRows,
) -> Result<Option<Refusal>, AllocError>
    ensures { IfOk result (λ r. r ≡ first_refusal (abandon_checks (facts_by rows.now (option_copied effective.entry)) caller (seen change.now))) }
{
    if !may_abandon(alloc, effective, rows, caller, change)? {
        return Ok(Some(Refusal::NotAllowed));
    }
    if !is_open(change.header.state) {
        return Ok(Some(Refusal::Closed));
    }
    Ok(None)
}

fn restore_refusal(
    alloc: Global,
    effective: Option<&ProjectFile>,
    rows: &Rows,
    caller: AccountNo,
    change: &ChangeRows,
) -> Result<Option<Refusal>, AllocError>
    ensures { IfOk result (λ r. r ≡ first_refusal (restore_checks (facts_by rows.now (option_copied effective.entry)) caller (seen change.now))) }
{
    if !may_abandon(alloc, effective, rows, caller, change)? {
        return Ok(Some(Refusal::NotAllowed));
    }
    if is_merged(change.header.state) {
        return Ok(Some(Refusal::Closed));
    }
    if is_open(change.header.state) {
        return Ok(Some(Refusal::SameState));
    }
    Ok(None)
}

fn call_refusal(rows: &Rows, file: &ChangeFile, account: AccountNo) -> Option<Refusal>
    ensures { result ≡ first_refusal (call_checks (facts_in rows.now) account (seen file.now.rows.now)) }
{
    if !is_account(rows, account) {
        return Some(Refusal::NoAccount);
    }
    let change = file.rows();
    if !is_open(change.header.state) {
        return Some(Refusal::Closed);
    }
    if !file.eligible(account) {
        return Some(Refusal::NotEligible);
    }
    if change.attention.get(&account).is_some() {
        return Some(Refusal::SameState);
    }
    None
}

fn leave_refusal(rows: &Rows, change: &ChangeRows, account: AccountNo) -> Option<Refusal>
    ensures { result ≡ first_refusal (leave_checks (facts_in rows.now) account (seen change.now)) }
{
    if !is_account(rows, account) {
        return Some(Refusal::NoAccount);
    }
    if !is_open(change.header.state) {
        return Some(Refusal::Closed);
    }
    if change.attention.get(&account).is_none() {
        return Some(Refusal::SameState);
    }
    None
}

/// The first check of a request that fails, where one does. A request that needs a file is judged by one.
pub fn request_refusal(
    alloc: Global,
    effective: Option<&ProjectFile>,
    rows: &Rows,
    caller: AccountNo,
    command: &ChangeCommand,
    file: &ChangeFile,
) -> Result<Option<Refusal>, AllocError>
    requires { lacks_file (option_copied effective) command.now ≡ false }
    ensures { IfOk result (λ r. r ≡ first_refusal (request_checks (facts_by rows.now (option_copied effective.entry)) caller command.now (seen file.now.rows.now))) }
{
    let change = file.rows();
    match command {
        ChangeCommand::Upload(patch) => match effective {
            Some(project) => upload_refusal(project, rows, caller, patch, change),
            None => unreachable!(),
        },
        ChangeCommand::Review(review) => review_refusal(effective, rows, caller, review, change),
        ChangeCommand::AddReviewer { account, role } => {
            Ok(role_refusal(rows, change, *account, *role))
        }
        ChangeCommand::RemoveReviewer { account } => {
            removal_refusal(alloc, rows, caller, change, *account)
        }
        ChangeCommand::SetWip => flag_refusal(alloc, rows, caller, change, false),
        ChangeCommand::SetReady => flag_refusal(alloc, rows, caller, change, true),
        ChangeCommand::Abandon => abandon_refusal(alloc, effective, rows, caller, change),
        ChangeCommand::Restore => restore_refusal(alloc, effective, rows, caller, change),
        ChangeCommand::AddAttention { account, reason: _ } => {
            Ok(call_refusal(rows, file, *account))
        }
        ChangeCommand::RemoveAttention { account, reason: _ } => {
            Ok(leave_refusal(rows, change, *account))
        }
    }
}
