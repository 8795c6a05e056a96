//! Words of submit requirements.
ghost use Rattle.std.specs.Prelude.{◌≡◌, IfOk, IfErr, IsSomeAnd};
ghost use Rattle.review_expr_terms.specs.Patterns.{IsDeepPattern, IsEnginePattern};
ghost use Rattle.review_expr_terms.specs.Words.{Good, IsWordFault};
ghost use Rattle.review_expr_spelling.specs.Words.{is_component, pattern_of, requirement_reading, requirement_value, truth_in, IsDeep, IsPattern};
ghost use Rattle.review_expr_spelling.specs.declared.keys.RequirementKey.TheVariants as of_requirement;

use crate::cuts::{behind, cut_at, key_and_value};
use crate::keys::RequirementKey;
use crate::labels::read_label;
use crate::names::{read_name, read_pattern};
use crate::values::is_met_by_zero;
use review_expr_terms::{RequirementTerm, WordFault};
use review_names::names::OfGroup;
use review_names::places::{OfBranch, OfPath};
use std::alloc::Global;

#[tactic(auto, unfolding(crate::specs::Words::truth_in))]
fn read_truth(value: &str) -> Option<bool>
    ensures { result ≡ truth_in value.now }
{
    match value {
        "true" => Some(true),
        "false" => Some(false),
        _ => None,
    }
}

#[tactic(auto, unfolding(crate::specs::Words::requirement_value))]
fn read_is(value: &str) -> Result<RequirementTerm, WordFault>
    ensures term { IfOk result (λ t. requirement_value of_requirement.Is value.now ≡ Good t) }
    ensures fault { IfErr result (IsWordFault (requirement_value of_requirement.Is value.now) ⊥ ⊥) }
{
    match read_truth(value) {
        Some(holds) => Ok(RequirementTerm::Always(holds)),
        None => Err(WordFault::BadValue),
    }
}

#[tactic(auto, unfolding(crate::specs::Words::requirement_value))]
fn read_vote_term(alloc: Global, value: &str) -> Result<RequirementTerm, WordFault>
    ensures term { IfOk result (λ t. requirement_value of_requirement.Label value.now ≡ Good t) }
    ensures fault { IfErr result (IsWordFault (requirement_value of_requirement.Label value.now) ⊥ ⊥) }
{
    let term = match read_label(alloc, value) {
        Ok(term) => term,
        Err(fault) => return Err(fault),
    };
    if is_met_by_zero(term.comparison) {
        return Err(WordFault::Zero);
    }
    Ok(RequirementTerm::Label(term))
}

#[tactic(auto, unfolding(crate::specs::Words::requirement_value))]
fn read_uploader(alloc: Global, group: &str) -> Result<RequirementTerm, WordFault>
    ensures term { IfOk result (λ t. requirement_value of_requirement.UploaderIn group.now ≡ Good t) }
    ensures fault { IfErr result (IsWordFault (requirement_value of_requirement.UploaderIn group.now) ⊥ ⊥) }
{
    match read_name::<OfGroup>(alloc, group) {
        Ok(group) => Ok(RequirementTerm::UploaderIn(group)),
        Err(fault) => Err(fault),
    }
}

#[tactic(auto, unfolding(crate::specs::Words::requirement_value))]
fn read_owner(alloc: Global, group: &str) -> Result<RequirementTerm, WordFault>
    ensures term { IfOk result (λ t. requirement_value of_requirement.OwnerIn group.now ≡ Good t) }
    ensures fault { IfErr result (IsWordFault (requirement_value of_requirement.OwnerIn group.now) ⊥ ⊥) }
{
    match read_name::<OfGroup>(alloc, group) {
        Ok(group) => Ok(RequirementTerm::OwnerIn(group)),
        Err(fault) => Err(fault),
    }
}

#[tactic(auto, unfolding(crate::specs::Words::requirement_value))]
fn read_branch(alloc: Global, value: &str) -> Result<RequirementTerm, WordFault>
    ensures term { IfOk result (λ t. requirement_value of_requirement.Branch value.now ≡ Good t) }
    ensures fault { IfErr result (IsWordFault (requirement_value of_requirement.Branch value.now) (IsSomeAnd (pattern_of of_requirement.Branch value.now) IsDeepPattern) (IsSomeAnd (pattern_of of_requirement.Branch value.now) IsEnginePattern)) }
{
    if let Some(pattern) = behind(value, "^") {
        return match read_pattern(alloc, pattern) {
            Ok(pattern) => Ok(RequirementTerm::BranchMatches(pattern)),
            Err(fault) => Err(fault),
        };
    }
    match read_name::<OfBranch>(alloc, value) {
        Ok(name) => Ok(RequirementTerm::Branch(name)),
        Err(fault) => Err(fault),
    }
}

#[tactic(auto, unfolding(crate::specs::Words::requirement_value))]
fn read_path(alloc: Global, value: &str) -> Result<RequirementTerm, WordFault>
    ensures term { IfOk result (λ t. requirement_value of_requirement.Path value.now ≡ Good t) }
    ensures fault { IfErr result (IsWordFault (requirement_value of_requirement.Path value.now) (IsSomeAnd (pattern_of of_requirement.Path value.now) IsDeepPattern) (IsSomeAnd (pattern_of of_requirement.Path value.now) IsEnginePattern)) }
{
    if let Some(pattern) = behind(value, "^") {
        return match read_pattern(alloc, pattern) {
            Ok(pattern) => Ok(RequirementTerm::PathMatches(pattern)),
            Err(fault) => Err(fault),
        };
    }
    match read_name::<OfPath>(alloc, value) {
        Ok(path) => Ok(RequirementTerm::Path(path)),
        Err(fault) => Err(fault),
    }
}

#[tactic(auto, unfolding(crate::specs::Words::requirement_value))]
fn read_file(alloc: Global, value: &str) -> Result<RequirementTerm, WordFault>
    ensures term { IfOk result (λ t. requirement_value of_requirement.File value.now ≡ Good t) }
    ensures fault { IfErr result (IsWordFault (requirement_value of_requirement.File value.now) (IsSomeAnd (pattern_of of_requirement.File value.now) IsDeepPattern) (IsSomeAnd (pattern_of of_requirement.File value.now) IsEnginePattern)) }
{
    if let Some(pattern) = behind(value, "^") {
        return match read_pattern(alloc, pattern) {
            Ok(pattern) => Ok(RequirementTerm::PathMatches(pattern)),
            Err(fault) => Err(fault),
        };
    }
    if cut_at(value, '/').is_some() {
        return Err(WordFault::BadValue);
    }
    match read_name::<OfPath>(alloc, value) {
        Ok(name) => Ok(RequirementTerm::File(name)),
        Err(fault) => Err(fault),
    }
}

#[tactic(auto, unfolding(crate::specs::Words::requirement_value))]
fn read_has(value: &str) -> Result<RequirementTerm, WordFault>
    ensures term { IfOk result (λ t. requirement_value of_requirement.Has value.now ≡ Good t) }
    ensures fault { IfErr result (IsWordFault (requirement_value of_requirement.Has value.now) ⊥ ⊥) }
{
    if value == "unresolved" {
        Ok(RequirementTerm::Unresolved)
    } else {
        Err(WordFault::BadValue)
    }
}

fn read_value(alloc: Global, key: RequirementKey, value: &str) -> Result<RequirementTerm, WordFault>
    ensures term { IfOk result (λ t. requirement_value key value.now ≡ Good t) }
    ensures fault { IfErr result (IsWordFault (requirement_value key value.now) (IsSomeAnd (pattern_of key value.now) IsDeepPattern) (IsSomeAnd (pattern_of key value.now) IsEnginePattern)) }
{
    match key {
        RequirementKey::Is => read_is(value),
        RequirementKey::Label => read_vote_term(alloc, value),
        RequirementKey::UploaderIn => read_uploader(alloc, value),
        RequirementKey::OwnerIn => read_owner(alloc, value),
        RequirementKey::Branch => read_branch(alloc, value),
        RequirementKey::Path => read_path(alloc, value),
        RequirementKey::File => read_file(alloc, value),
        RequirementKey::Has => read_has(value),
    }
}

/// Reads a word of a submit requirement as its term. BadTerm where it has no colon, an unknown
/// key, as one that begins with a minus, or a quote elsewhere than round the whole value; else
/// BadValue where the value is none of the key's; else Zero where it compares with a number so that
/// 0 meets it. A pattern that nests deeper than the engine reads may be a BadValue too, and Engine
/// is answered only for a pattern.
#[tactic(auto, unfolding(crate::specs::Words::requirement_reading, crate::specs::Words::keyed))]
pub fn read_requirement(alloc: Global, word: &str) -> Result<RequirementTerm, WordFault>
    ensures term { IfOk result (λ t. requirement_reading word.now ≡ Good t) }
    ensures fault { IfErr result (IsWordFault (requirement_reading word.now) (IsDeep word.now) (IsPattern word.now)) }
{
    let Some((name, value)) = key_and_value(word) else {
        return Err(WordFault::BadTerm);
    };
    let Some(key) = RequirementKey::read(name) else {
        return Err(WordFault::BadTerm);
    };
    read_value(alloc, key, value)
}
