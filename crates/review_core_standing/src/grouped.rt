//! Whether a term of a submit requirement holds for a change, where tables tell who is in which group.
ghost use Rattle.std.specs.Prelude.{◌≡◌, ◌&&◌, IfOk, count_by, Some};
ghost use Rattle.review_expr_terms.specs.declared.terms.{RequirementTerm.TheVariants.Label, Voters.TheVariants.Group};
ghost use Rattle.review_expr_judging.specs.Holds.{is_counted, label_holds, meets, range_of, requirement_holds, votes_of};
ghost use Rattle.review_core_standing.specs.Grouped.{grouped};

use review_core_tables::{GroupTables, is_in};
use review_expr_judging::requirement::{is_count, meets};
use review_expr_judging::{ChangeFacts, Judged, ValueRange};
use review_expr_terms::{LabelTerm, RequirementTerm, Voters};
use review_words::{AccountNo, GroupName};
use std::alloc::{AllocError, Global};

/// A change as submit requirements are judged by it: its facts, but for groups, of which tables tell, however many accounts there are
/// in one.
#[derive(Drop)]
pub struct GroupedChange<'c> {
    pub facts: &'c ChangeFacts,
    pub groups: &'c GroupTables,
}

/// Whether the vote of an account meets a comparison, and the account is in a group, where this is the range of the term's label.
fn is_counted_in_group(
    change: &GroupedChange,
    term: &LabelTerm,
    group: &GroupName,
    range: Option<ValueRange>,
    account: AccountNo,
    value: i8,
) -> bool
    requires voters { term.now.voters ≡ Group group.now }
    requires range { range ≡ range_of change.now.facts.now term.now.label }
    ensures { result ≡ is_counted (grouped change.now.facts.now change.now.groups.now) term.now (account, value) }
{
    let met = meets(range, term.comparison, value);
    met && is_in(change.groups, group, account)
}

/// How many accounts of a group count for a term.
fn counted(change: &GroupedChange, term: &LabelTerm, group: &GroupName) -> usize
    requires { term.now.voters ≡ Group group.now }
    ensures { result ≡ count_by (is_counted (grouped change.now.facts.now change.now.groups.now) term.now) (votes_of change.now.facts.now term.now.label) }
{
    let range = change.facts.ranges.get(&term.label).copied();
    match change.facts.votes.get(&term.label) {
        Some(votes) => votes
            .iter()
            .filter(|vote| is_counted_in_group(change, term, group, range, *vote.0, *vote.1))
            .count(),
        None => 0,
    }
}

/// Whether a term holds for a change by its facts alone.
fn is_met_by(alloc: Global, term: &RequirementTerm, facts: &ChangeFacts) -> Result<bool, AllocError>
    ensures { IfOk result (λ b. b ≡ requirement_holds facts.now term.now) }
{
    term.is_met(alloc, facts)
}

/// Whether a `label:` term holds for a change.
fn label_holds(
    alloc: Global,
    term: &RequirementTerm,
    label: &LabelTerm,
    change: &GroupedChange,
) -> Result<bool, AllocError>
    requires { term.now ≡ Label label.now }
    ensures { IfOk result (λ b. b ≡ label_holds (grouped change.now.facts.now change.now.groups.now) label.now) }
{
    match &label.voters {
        Voters::Group(group) => Ok(is_count(label.count, counted(change, label, group))),
        Voters::Everyone | Voters::NonUploader | Voters::Owner | Voters::Account(_) => {
            is_met_by(alloc, term, change.facts)
        }
    }
}

impl<'c> Judged<GroupedChange<'c>> for RequirementTerm {
    ghost use Rattle.{review_expr_judging.specs.Holds.requirement_holds, review_core_standing.specs.Grouped.grouped};

    ghost is_held = { λ c t. requirement_holds (grouped c.facts.now c.groups.now) t };

    fn is_met(&self, alloc: Global, change: &GroupedChange<'c>) -> Result<bool, AllocError> {
        match self {
            RequirementTerm::Label(label) => label_holds(alloc, self, label, change),
            RequirementTerm::UploaderIn(group) => {
                Ok(is_in(change.groups, group, change.facts.uploader))
            }
            RequirementTerm::OwnerIn(group) => Ok(is_in(change.groups, group, change.facts.owner)),
            RequirementTerm::Always(_)
            | RequirementTerm::Branch(_)
            | RequirementTerm::BranchMatches(_)
            | RequirementTerm::Path(_)
            | RequirementTerm::PathMatches(_)
            | RequirementTerm::File(_)
            | RequirementTerm::Unresolved => is_met_by(alloc, self, change.facts),
        }
    }
}
