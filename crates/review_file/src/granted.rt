//! What a project file gives an account.
ghost use Rattle.std.specs.{Int.int_min, Int.int_max, List.list_any};
ghost use Rattle.std.specs.Prelude.{◌≡◌, ℤ, pos, true, map, filter, find, fold, IfSome};
ghost use Rattle.{std.specs.Str.bytes_eq, review_names.specs.Groups.has_account};
ghost use Rattle.review_file_rules.specs.Rights.{granted, grants_of, greatest_of, least_of, may};
ghost use Rattle.review_file_rules.specs.Sound.{is_value};

use crate::file::ProjectFile;
use review_file_rules::{Grant, Right};
use review_words::{AccountNo, Groups, LabelName};

/// Whether an account is in one of the groups that have a right. This takes no memory.
pub fn may(file: &ProjectFile, right: Right, account: AccountNo, groups: &Groups) -> bool
    ensures { result ≡ may file.now right (λ group. has_account groups.now group account) }
{
    file.groups(right)
        .iter()
        .any(|group| groups.has(group, account))
}

/// The ranges that a label grants; none where the file hasn't the label. This takes no memory.
pub fn grants_of<'f>(file: &'f ProjectFile, label: &LabelName) -> &'f [Grant]
    ensures { result.now ≡ grants_of file.now label.now }
{
    match file.label(label) {
        Some(found) => found.grants(),
        None => &[],
    }
}

fn least_of(grants: &[Grant], account: AccountNo, groups: &Groups) -> i8
    ensures { result ≡ least_of (filter (λ g. has_account groups.now g.group account) grants.now) }
{
    let mut least = 0;
    for grant in grants {
        if groups.has(&grant.group, account) {
            least = least.min(grant.least);
        }
    }
    least
}

fn greatest_of(grants: &[Grant], account: AccountNo, groups: &Groups) -> i8
    ensures { result ≡ greatest_of (filter (λ g. has_account groups.now g.group account) grants.now) }
{
    let mut greatest = 0;
    for grant in grants {
        if groups.has(&grant.group, account) {
            greatest = greatest.max(grant.greatest);
        }
    }
    greatest
}

/// The range of a label's values that an account may vote: from the least of 0 and the least
/// values of the ranges granted to its groups to the greatest of 0 and their greatest values. Both
/// are values of the label; a label that the file hasn't gives from 0 to 0. This takes no memory.
pub fn range_of(
    file: &ProjectFile,
    label: &LabelName,
    account: AccountNo,
    groups: &Groups,
) -> (i8, i8)
    ensures least { result.0 ≡ least_of (granted file.now label.now (λ group. has_account groups.now group account)) }
    ensures greatest { result.1 ≡ greatest_of (granted file.now label.now (λ group. has_account groups.now group account)) }
    ensures values { IfSome (find (λ l. bytes_eq l.name label.now) file.now.labels) (λ l. (is_value l.values result.0 ≡ true) × (is_value l.values result.1 ≡ true)) }
{
    file.facts();
    let grants = grants_of(file, label);
    (
        least_of(grants, account, groups),
        greatest_of(grants, account, groups),
    )
}
