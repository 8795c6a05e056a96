//! Words of copy conditions.
ghost use Rattle.std.specs.Prelude.{◌≡◌, IfOk, IfErr};
ghost use Rattle.review_expr_terms.specs.Words.{Good, IsWordFault};
ghost use Rattle.review_expr_spelling.specs.Words.{copy_reading, copy_value};
ghost use Rattle.review_expr_spelling.specs.declared.keys.CopyKey.TheVariants as of_copy;

use crate::cuts::key_and_value;
use crate::keys::CopyKey;
use crate::names::read_name;
use crate::values::{is_met_by_zero, read_vote};
use review_expr_terms::{ChangeKind, Comparison, CopyTerm, WordFault};
use review_names::names::OfGroup;
use std::alloc::Global;

#[tactic(auto, unfolding(crate::specs::Words::copy_value))]
fn read_asked(value: &str) -> Result<CopyTerm, WordFault>
    ensures term { IfOk result (λ t. copy_value of_copy.Is value.now ≡ Good t) }
    ensures fault { IfErr result (IsWordFault (copy_value of_copy.Is value.now) ⊥ ⊥) }
{
    let Some(asked) = read_vote(value) else {
        return Err(WordFault::BadValue);
    };
    if is_met_by_zero(Comparison::Is(asked)) {
        return Err(WordFault::Zero);
    }
    Ok(CopyTerm::Value(asked))
}

#[tactic(auto, unfolding(crate::specs::Words::copy_value))]
fn read_changed(name: &str) -> Result<CopyTerm, WordFault>
    ensures term { IfOk result (λ t. copy_value of_copy.ChangeKind name.now ≡ Good t) }
    ensures fault { IfErr result (IsWordFault (copy_value of_copy.ChangeKind name.now) ⊥ ⊥) }
{
    let Some(kind) = ChangeKind::from_name(name) else {
        return Err(WordFault::BadValue);
    };
    Ok(CopyTerm::Kind(kind))
}

#[tactic(auto, unfolding(crate::specs::Words::copy_value))]
fn read_approver(alloc: Global, group: &str) -> Result<CopyTerm, WordFault>
    ensures term { IfOk result (λ t. copy_value of_copy.ApproverIn group.now ≡ Good t) }
    ensures fault { IfErr result (IsWordFault (copy_value of_copy.ApproverIn group.now) ⊥ ⊥) }
{
    match read_name::<OfGroup>(alloc, group) {
        Ok(group) => Ok(CopyTerm::ApproverIn(group)),
        Err(fault) => Err(fault),
    }
}

#[tactic(auto, unfolding(crate::specs::Words::copy_value))]
fn read_uploader(alloc: Global, group: &str) -> Result<CopyTerm, WordFault>
    ensures term { IfOk result (λ t. copy_value of_copy.UploaderIn group.now ≡ Good t) }
    ensures fault { IfErr result (IsWordFault (copy_value of_copy.UploaderIn group.now) ⊥ ⊥) }
{
    match read_name::<OfGroup>(alloc, group) {
        Ok(group) => Ok(CopyTerm::UploaderIn(group)),
        Err(fault) => Err(fault),
    }
}

#[tactic(auto, unfolding(crate::specs::Words::copy_value))]
fn read_has(value: &str) -> Result<CopyTerm, WordFault>
    ensures term { IfOk result (λ t. copy_value of_copy.Has value.now ≡ Good t) }
    ensures fault { IfErr result (IsWordFault (copy_value of_copy.Has value.now) ⊥ ⊥) }
{
    if value == "unchanged-files" {
        Ok(CopyTerm::UnchangedFiles)
    } else {
        Err(WordFault::BadValue)
    }
}

/// Reads a word of a copy condition as its term. BadTerm where it has no colon, an unknown key,
/// as one that begins with a minus, or a quote elsewhere than round the whole value; else BadValue
/// where the value is none of the key's; else Zero where it is the number 0.
#[tactic(auto, unfolding(crate::specs::Words::copy_reading))]
pub fn read_copy(alloc: Global, word: &str) -> Result<CopyTerm, WordFault>
    ensures term { IfOk result (λ t. copy_reading word.now ≡ Good t) }
    ensures fault { IfErr result (IsWordFault (copy_reading word.now) ⊥ ⊥) }
{
    let Some((name, value)) = key_and_value(word) else {
        return Err(WordFault::BadTerm);
    };
    let Some(key) = CopyKey::read(name) else {
        return Err(WordFault::BadTerm);
    };
    match key {
        CopyKey::Is => read_asked(value),
        CopyKey::ChangeKind => read_changed(value),
        CopyKey::ApproverIn => read_approver(alloc, value),
        CopyKey::UploaderIn => read_uploader(alloc, value),
        CopyKey::Has => read_has(value),
    }
}
