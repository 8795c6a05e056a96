//! Whether a change meets the requirement of a file.

use crate::answers::holds;
use crate::facts::{each_vote, first_change};
use crate::fault::Fault;
use review_expr::Facts;
use review_expr_judging::ValueRange;
use review_file::{Label, ProjectFile};
use review_words::AccountNo;
use std::alloc::Global;
use std::collections::BTreeMap;

/// The votes that words say: `ACCOUNT:VALUE`, with blanks between.
fn votes(alloc: Global, words: &str) -> Result<BTreeMap<AccountNo, i8>, Fault> {
    if words.is_empty() {
        return Ok(BTreeMap::new(alloc));
    }
    each_vote(alloc, words, ":", " ")
}

/// Account 2's change, whose current patch set account 3 sent, with these votes on a label, no paths and no groups.
fn change(alloc: Global, label: &Label, words: &str) -> Result<Facts, Fault> {
    let mut change = first_change(alloc)?;
    change.owner = AccountNo::read("2")?;
    change.uploader = AccountNo::read("3")?;
    let votes = votes(alloc, words)?;
    change.votes.insert(label.name().copy()?, votes)?;
    let range = ValueRange {
        least: label.least(),
        greatest: label.greatest(),
    };
    change.ranges.insert(label.name().copy()?, range)?;
    Ok(Facts::Change(change))
}

/// Whether votes on the first label of a file satisfy its first requirement.
pub fn is_satisfied(alloc: Global, file: &ProjectFile, words: &str) -> Result<bool, Fault> {
    let label = file.labels().first().ok_or(Fault::Form)?;
    let requirement = file.requirements().first().ok_or(Fault::Form)?;
    let facts = change(alloc, label, words)?;
    holds(alloc, requirement.submittable_if(), &facts)
}
