//! Whether a term of a copy condition holds for a vote.
ghost use Rattle.std.specs.Prelude.{◌≡◌, IfOk, Some};
ghost use Rattle.review_expr_judging.specs.Holds.{copy_holds, kind_matches};

use crate::facts::VoteFacts;
use crate::judge::Judged;
use crate::requirement::meets;
use review_expr_terms::{ChangeKind, Comparison, CopyTerm};
use std::alloc::{AllocError, Global};

/// Whether `changekind:` with a kind matches a patch set of another.
fn kind_matches(asked: ChangeKind, given: ChangeKind) -> bool
    ensures { result ≡ kind_matches asked given }
{
    match asked {
        ChangeKind::Rework => true,
        ChangeKind::NoChange => matches!(given, ChangeKind::NoChange),
        ChangeKind::NoCodeChange => {
            matches!(given, ChangeKind::NoChange | ChangeKind::NoCodeChange)
        }
        ChangeKind::TrivialRebase => {
            matches!(given, ChangeKind::NoChange | ChangeKind::TrivialRebase)
        }
        ChangeKind::TrivialRebaseWithMessageUpdate => {
            !matches!(
                given,
                ChangeKind::MergeFirstParentUpdate | ChangeKind::Rework
            )
        }
        ChangeKind::MergeFirstParentUpdate => false,
    }
}

impl Judged<VoteFacts> for CopyTerm {
    ghost is_held = { copy_holds };

    fn is_met(&self, _alloc: Global, facts: &VoteFacts) -> Result<bool, AllocError> {
        match self {
            CopyTerm::Value(asked) => Ok(meets(
                Some(facts.range),
                Comparison::Is(*asked),
                facts.value,
            )),
            CopyTerm::Kind(asked) => Ok(kind_matches(*asked, facts.kind)),
            CopyTerm::ApproverIn(group) => Ok(facts.groups.has(group, facts.voter)),
            CopyTerm::UploaderIn(group) => Ok(facts.groups.has(group, facts.uploader)),
            CopyTerm::UnchangedFiles => Ok(facts.unchanged_files),
        }
    }
}
