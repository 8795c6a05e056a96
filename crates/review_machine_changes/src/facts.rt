//! What rows tell of a command on a change.
ghost use Rattle.std.specs.{List.list_any, Prelude.◌≡◌, Prelude.IfOk};
ghost use Rattle.review_core_rules.specs.Change.{is_open};
ghost use Rattle.review_machine_rows.specs.{Answer.has_right, Desks.facts_in, Desks.in_rows};
ghost use Rattle.review_machine_changes.specs.Deltas.{next_request};

use review_file::{ProjectFile, Right};
use review_machine_rows::{MemberKey, Rows, Want};
use review_words::{AccountNo, GroupName, State};
use std::alloc::AllocError;

/// Whether an account is known to be in a group; every account is in `Registered-Users`.
pub fn is_in(rows: &Rows, account: AccountNo, group: &GroupName) -> Result<bool, AllocError>
    ensures { IfOk result (λ b. b ≡ in_rows rows.now account group.now) }
{
    if group.as_str() == "Registered-Users" {
        return Ok(true);
    }
    let want = Want::Member(MemberKey {
        group: group.copy()?,
        account,
    });
    let is = rows.is_so(&want);
    drop(want);
    Ok(is)
}

fn is_in_any(rows: &Rows, account: AccountNo, groups: &[GroupName]) -> Result<bool, AllocError>
    ensures { IfOk result (λ b. b ≡ list_any (in_rows rows.now account) groups.now) }
{
    for group in groups {
        if is_in(rows, account, group)? {
            return Ok(true);
        }
    }
    Ok(false)
}

/// Whether an account is known to have a right, by the project's file.
pub fn has_right(
    rows: &Rows,
    file: &ProjectFile,
    right: Right,
    account: AccountNo,
) -> Result<bool, AllocError>
    ensures { IfOk result (λ b. b ≡ has_right (facts_in rows.now) file.now right account) }
{
    is_in_any(rows, account, file.groups(right))
}

/// The number that a request gets: one more than were ever stored.
pub fn next_request(rows: &Rows) -> u64
    ensures { result ≡ next_request rows.now }
{
    let want = Want::Requests;
    let requests = rows.number(&want);
    drop(want);
    requests.saturating_add(1)
}

/// Whether a state is open.
pub fn is_open(state: State) -> bool
    ensures { result ≡ is_open state }
{
    matches!(state, State::New)
}
