//! Terms written as words.
ghost use Rattle.std.specs.List.{list_any};
ghost use Rattle.std.specs.Prelude.{◌≡◌, ◌++◌, ℕ, List, codes, OnErr, OnOk, string_bytes};
ghost use Rattle.review_names.specs.Numerals.{numeral};
ghost use Rattle.review_expr_terms.specs.Lexemes.{is_blank, is_end};
ghost use Rattle.review_expr_printing.specs.Written.{comparison_text, copy_word, count_text, label_text, number_text, quoted, requirement_word, truth_text, vote_text, voters_text, word_of};

use review_expr_terms::{
    Comparison, CopyTerm, Count, LabelTerm, Pattern, RequirementTerm, VoteValue, Voters,
};
use std::alloc::AllocError;

fn is_blank(byte: u8) -> bool
    ensures { result ≡ is_blank byte }
{
    byte == b' ' || byte == b'\t' || byte == b'\n' || byte == b'\r'
}

fn is_end(byte: u8) -> bool
    ensures { result ≡ is_end byte }
{
    is_blank(byte) || byte == b'(' || byte == b')'
}

/// Whether a value has white space or a parenthesis.
fn needs_quotes(value: &str) -> bool
    ensures { result ≡ list_any is_end value.now }
{
    value.as_bytes().iter().any(|byte| is_end(*byte))
}

#[tactic(auto, unfolding(crate::specs::Written::quoted))]
fn push_quoted(text: &mut String, value: &str) -> Result<(), AllocError>
    ensures { OnOk result (string_bytes text.new ≡ string_bytes text.old ++ quoted value.now) }
{
    if needs_quotes(value) {
        text.push_str("\"")?;
        text.push_str(value)?;
        text.push_str("\"")?;
    } else {
        text.push_str(value)?;
    }
    Ok(())
}

#[tactic(auto, unfolding(crate::specs::Written::word_of))]
fn push_word(text: &mut String, key: &str, value: &str) -> Result<(), AllocError>
    ensures { OnOk result (string_bytes text.new ≡ string_bytes text.old ++ word_of key.now value.now) }
{
    text.push_str(key)?;
    text.push_str(":")?;
    push_quoted(text, value)?;
    Ok(())
}

#[tactic(auto, using(review_names::proofs::Numerals::decimal_numeral))]
fn push_decimal(text: &mut String, number: u32) -> Result<(), AllocError>
    ensures { OnOk result (string_bytes text.new ≡ string_bytes text.old ++ numeral number) }
{
    write!(text, "{number}")
}

#[tactic(auto, unfolding(crate::specs::Written::number_text))]
fn push_number(text: &mut String, number: i8) -> Result<(), AllocError>
    ensures { OnOk result (string_bytes text.new ≡ string_bytes text.old ++ number_text number) }
{
    if number < 0 {
        text.push_str("-")?;
    }
    push_decimal(text, number.unsigned_abs() as u32)?;
    Ok(())
}

fn push_vote(text: &mut String, asked: VoteValue) -> Result<(), AllocError>
    ensures { OnOk result (string_bytes text.new ≡ string_bytes text.old ++ vote_text asked) }
{
    match asked {
        VoteValue::Max => text.push_str("MAX")?,
        VoteValue::Min => text.push_str("MIN")?,
        VoteValue::Any => text.push_str("ANY")?,
        VoteValue::Exactly(number) => push_number(text, number)?,
    }
    Ok(())
}

fn push_marked(text: &mut String, mark: &str, number: i8) -> Result<(), AllocError>
    ensures { OnOk result (string_bytes text.new ≡ string_bytes text.old ++ (mark.now ++ number_text number)) }
{
    text.push_str(mark)?;
    push_number(text, number)?;
    Ok(())
}

fn push_comparison(text: &mut String, asked: Comparison) -> Result<(), AllocError>
    ensures { OnOk result (string_bytes text.new ≡ string_bytes text.old ++ comparison_text asked) }
{
    match asked {
        Comparison::Is(asked) => {
            text.push_str("=")?;
            push_vote(text, asked)?;
        }
        Comparison::AtLeast(number) => push_marked(text, ">=", number)?,
        Comparison::Above(number) => push_marked(text, ">", number)?,
        Comparison::AtMost(number) => push_marked(text, "<=", number)?,
        Comparison::Below(number) => push_marked(text, "<", number)?,
    }
    Ok(())
}

fn push_voters(text: &mut String, voters: &Voters) -> Result<(), AllocError>
    ensures { OnOk result (string_bytes text.new ≡ string_bytes text.old ++ voters_text voters.now) }
{
    match voters {
        Voters::Everyone => {}
        Voters::NonUploader => text.push_str(",user=non_uploader")?,
        Voters::Owner => text.push_str(",user=owner")?,
        Voters::Account(account) => {
            text.push_str(",user=")?;
            push_decimal(text, account.get())?;
        }
        Voters::Group(group) => {
            text.push_str(",group=")?;
            text.push_str(group.as_str())?;
        }
    }
    Ok(())
}

fn push_count(text: &mut String, asked: Option<Count>) -> Result<(), AllocError>
    ensures { OnOk result (string_bytes text.new ≡ string_bytes text.old ++ count_text asked) }
{
    let (mark, number) = match asked {
        None => return Ok(()),
        Some(Count::Exactly(number)) => (",count=", number),
        Some(Count::AtLeast(number)) => (",count>=", number),
        Some(Count::Above(number)) => (",count>", number),
    };
    text.push_str(mark)?;
    push_decimal(text, number as u32)?;
    Ok(())
}

#[tactic(auto, unfolding(crate::specs::Written::label_text))]
fn push_label(text: &mut String, term: &LabelTerm) -> Result<(), AllocError>
    ensures { OnOk result (string_bytes text.new ≡ string_bytes text.old ++ label_text term.now) }
{
    text.push_str(term.label.as_str())?;
    push_comparison(text, term.comparison)?;
    push_voters(text, &term.voters)?;
    push_count(text, term.count)?;
    Ok(())
}

/// The word of a label term.
fn push_label_word(text: &mut String, term: &LabelTerm) -> Result<(), AllocError>
    ensures { OnOk result (string_bytes text.new ≡ string_bytes text.old ++ word_of (codes "label") (label_text term.now)) }
{
    let mut value = String::new(*text.allocator());
    push_label(&mut value, term)?;
    push_word(text, "label", value.as_str())?;
    Ok(())
}

/// A word whose value is a pattern.
fn push_pattern(text: &mut String, key: &str, pattern: &Pattern) -> Result<(), AllocError>
    ensures { OnOk result (string_bytes text.new ≡ string_bytes text.old ++ word_of key.now (codes "^" ++ pattern.now)) }
{
    let mut value = String::new(*text.allocator());
    value.push_str("^")?;
    value.push_str(pattern.as_str())?;
    push_word(text, key, value.as_str())?;
    Ok(())
}

fn truth_text(holds: bool) -> &'static str
    ensures { result.now ≡ truth_text holds }
{
    if holds { "true" } else { "false" }
}

fn push_requirement_word(text: &mut String, term: &RequirementTerm) -> Result<(), AllocError>
    ensures { OnOk result (string_bytes text.new ≡ string_bytes text.old ++ requirement_word term.now) }
{
    match term {
        RequirementTerm::Always(holds) => push_word(text, "is", truth_text(*holds)),
        RequirementTerm::Label(term) => push_label_word(text, term),
        RequirementTerm::UploaderIn(group) => push_word(text, "uploaderin", group.as_str()),
        RequirementTerm::OwnerIn(group) => push_word(text, "ownerin", group.as_str()),
        RequirementTerm::Branch(name) => push_word(text, "branch", name.as_str()),
        RequirementTerm::BranchMatches(pattern) => push_pattern(text, "branch", pattern),
        RequirementTerm::Path(path) => push_word(text, "path", path.as_str()),
        RequirementTerm::PathMatches(pattern) => push_pattern(text, "path", pattern),
        RequirementTerm::File(name) => push_word(text, "file", name.as_str()),
        RequirementTerm::Unresolved => push_word(text, "has", "unresolved"),
    }
}

/// Appends the word of a submit requirement's term, `path:^RE` for a pattern of paths. A label's
/// numbers stand without a plus, and its user or group part before its count. The value stands in
/// quotes exactly where it has white space or a parenthesis. An error where there was no memory for
/// it; the text is as it was then.
pub fn push_requirement(text: &mut String, term: &RequirementTerm) -> Result<(), AllocError>
    ensures text { OnOk result (string_bytes text.new ≡ string_bytes text.old ++ requirement_word term.now) }
    ensures kept { OnErr result (string_bytes text.new ≡ string_bytes text.old) }
{
    let mut word = String::new(*text.allocator());
    push_requirement_word(&mut word, term)?;
    text.push_str(word.as_str())
}

/// The word of a vote's value.
fn push_vote_word(text: &mut String, asked: VoteValue) -> Result<(), AllocError>
    ensures { OnOk result (string_bytes text.new ≡ string_bytes text.old ++ word_of (codes "is") (vote_text asked)) }
{
    let mut value = String::new(*text.allocator());
    push_vote(&mut value, asked)?;
    push_word(text, "is", value.as_str())?;
    Ok(())
}

fn push_copy_word(text: &mut String, term: &CopyTerm) -> Result<(), AllocError>
    ensures { OnOk result (string_bytes text.new ≡ string_bytes text.old ++ copy_word term.now) }
{
    match term {
        CopyTerm::Value(asked) => push_vote_word(text, *asked),
        CopyTerm::Kind(kind) => push_word(text, "changekind", kind.name()),
        CopyTerm::ApproverIn(group) => push_word(text, "approverin", group.as_str()),
        CopyTerm::UploaderIn(group) => push_word(text, "uploaderin", group.as_str()),
        CopyTerm::UnchangedFiles => push_word(text, "has", "unchanged-files"),
    }
}

/// Appends the word of a copy condition's term, its number without a plus. An error where there was
/// no memory for it; the text is as it was then.
pub fn push_copy(text: &mut String, term: &CopyTerm) -> Result<(), AllocError>
    ensures text { OnOk result (string_bytes text.new ≡ string_bytes text.old ++ copy_word term.now) }
    ensures kept { OnErr result (string_bytes text.new ≡ string_bytes text.old) }
{
    let mut word = String::new(*text.allocator());
    push_copy_word(&mut word, term)?;
    text.push_str(word.as_str())
}
