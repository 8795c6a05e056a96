//! Whether a term of a submit requirement holds for a change.
ghost use Rattle.std.specs.{List.list_any, List.Sorted.IsStrictlySortedBy, Map.keys_of, Ordering.nat_cmp};
ghost use Rattle.std.specs.Prelude.{◌≡◌, ◌==◌, ℕ, ℤ, Bool, IfOk, Some, map, count_by};
ghost use Rattle.{std.specs.Str.bytes_eq, review_names.specs.Forms.components};
ghost use Rattle.review_expr_judging.specs.Holds.{compares, is_count, is_counted, is_value, is_voter, label_holds, meets, range_of, requirement_holds, votes_of};

use crate::facts::{ChangeFacts, ValueRange};
use crate::judge::Judged;
use review_expr_terms::{Comparison, Count, LabelTerm, RequirementTerm, VoteValue, Voters};
use review_names::{AccountNo, LabelName, Path};
use std::alloc::{AllocError, Global};

fn is_value(range: Option<ValueRange>, asked: VoteValue, value: i8) -> bool
    ensures { result ≡ is_value range asked value }
{
    match asked {
        VoteValue::Max => match range {
            Some(range) => value == range.greatest,
            None => false,
        },
        VoteValue::Min => match range {
            Some(range) => value == range.least,
            None => false,
        },
        VoteValue::Any => true,
        VoteValue::Exactly(number) => value == number,
    }
}

/// Whether a vote's value meets a comparison. No comparison is met by 0, which is no vote.
pub fn meets(range: Option<ValueRange>, asked: Comparison, value: i8) -> bool
    ensures { result ≡ meets range asked value }
{
    let compares = match asked {
        Comparison::Is(asked) => is_value(range, asked, value),
        Comparison::AtLeast(number) => number <= value,
        Comparison::Above(number) => number < value,
        Comparison::AtMost(number) => value <= number,
        Comparison::Below(number) => value < number,
    };
    value != 0 && compares
}

fn is_voter(facts: &ChangeFacts, voters: &Voters, account: AccountNo) -> bool
    ensures { result ≡ is_voter facts.now voters.now account }
{
    match voters {
        Voters::Everyone => true,
        Voters::NonUploader => account != facts.uploader,
        Voters::Owner => account == facts.owner,
        Voters::Account(asked) => account == *asked,
        Voters::Group(group) => facts.groups.has(group, account),
    }
}

/// Whether a number of accounts is the count that a term asks: at least one where it asks none.
pub fn is_count(asked: Option<Count>, number: usize) -> bool
    ensures { result ≡ is_count asked number }
{
    match asked {
        None => 1 <= number,
        Some(Count::Exactly(count)) => number == count as usize,
        Some(Count::AtLeast(count)) => count as usize <= number,
        Some(Count::Above(count)) => (count as usize) < number,
    }
}

fn range_of(facts: &ChangeFacts, term: &LabelTerm) -> Option<ValueRange>
    ensures { result ≡ range_of facts.now term.now.label }
{
    facts.ranges.get(&term.label).copied()
}

/// Whether an account with its vote counts for a term, where this is the range of the term's label.
fn is_counted(
    facts: &ChangeFacts,
    term: &LabelTerm,
    range: Option<ValueRange>,
    account: AccountNo,
    value: i8,
) -> bool
    requires { range ≡ range_of facts.now term.now.label }
    ensures { result ≡ is_counted facts.now term.now (account, value) }
{
    meets(range, term.comparison, value) && is_voter(facts, &term.voters, account)
}

/// The law that each account has at most one vote on a label among a change's facts, so that a term
/// counts accounts.
pub fn each_account_once(facts: &ChangeFacts, label: &LabelName)
    ensures { IsStrictlySortedBy nat_cmp (keys_of (votes_of facts.now label.now)) }
{
    if let Some(votes) = facts.votes.get(label) {
        let _ = votes.len();
    }
}

/// How many accounts count for a term.
fn counted(facts: &ChangeFacts, term: &LabelTerm) -> usize
    ensures { result ≡ count_by (is_counted facts.now term.now) (votes_of facts.now term.now.label) }
{
    let range = range_of(facts, term);
    match facts.votes.get(&term.label) {
        Some(votes) => votes
            .iter()
            .filter(|vote| is_counted(facts, term, range, *vote.0, *vote.1))
            .count(),
        None => 0,
    }
}

fn label_holds(facts: &ChangeFacts, term: &LabelTerm) -> bool
    ensures { result ≡ label_holds facts.now term.now }
{
    is_count(term.count, counted(facts, term))
}

fn has_path(paths: &[Path], path: &Path) -> bool
    ensures { result ≡ list_any (λ p. bytes_eq p path.now) paths.now }
{
    paths.iter().any(|other| is_same(other, path))
}

fn is_same(path: &Path, other: &Path) -> bool
    ensures { result ≡ bytes_eq path.now other.now }
{
    path.as_str() == other.as_str()
}

/// Whether a name stands between slashes of a path, or before the first or behind the last one.
fn has_component(path: &str, name: &str) -> bool
    ensures { result ≡ list_any (λ part. bytes_eq part name.now) (components path.now) }
{
    let mut rest = path;
    while let Some((component, more)) = rest.split_once('/') {
        if component == name {
            return true;
        }
        rest = more;
    }
    rest == name
}

fn has_file(paths: &[Path], name: &Path) -> bool
    ensures { result ≡ list_any (λ p. list_any (λ part. bytes_eq part name.now) (components p)) paths.now }
{
    paths
        .iter()
        .any(|path| has_component(path.as_str(), name.as_str()))
}

impl Judged<ChangeFacts> for RequirementTerm {
    ghost is_held = { requirement_holds };

    fn is_met(&self, alloc: Global, facts: &ChangeFacts) -> Result<bool, AllocError> {
        match self {
            RequirementTerm::Always(holds) => Ok(*holds),
            RequirementTerm::Label(term) => Ok(label_holds(facts, term)),
            RequirementTerm::UploaderIn(group) => Ok(facts.groups.has(group, facts.uploader)),
            RequirementTerm::OwnerIn(group) => Ok(facts.groups.has(group, facts.owner)),
            RequirementTerm::Branch(name) => Ok(facts.branch.as_str() == name.as_str()),
            RequirementTerm::BranchMatches(pattern) => pattern.matches(
                alloc,
                facts.branch.as_str(),
            ),
            RequirementTerm::Path(path) => Ok(has_path(facts.paths.as_slice(), path)),
            RequirementTerm::PathMatches(pattern) => {
                pattern.matches_any(alloc, facts.paths.as_slice())
            }
            RequirementTerm::File(name) => Ok(has_file(facts.paths.as_slice(), name)),
            RequirementTerm::Unresolved => Ok(facts.unresolved),
        }
    }
}
