//! What lines say of a change and of a vote.

use crate::fault::Fault;
use review_expr::Facts;
use review_expr_judging::{ChangeFacts, ValueRange, VoteFacts};
use review_expr_terms::ChangeKind;
use review_words::{AccountNo, BranchName, GroupName, Groups, LabelName, Members, Path, Paths};
use std::alloc::Global;
use std::collections::BTreeMap;

/// A change of which nothing was said.
pub fn first_change(alloc: Global) -> Result<ChangeFacts, Fault> {
    let paths = Paths::from_vec(alloc, Vec::new(alloc))?;
    let branch = BranchName::read(alloc, "main")?;
    Ok(ChangeFacts {
        votes: BTreeMap::new(alloc),
        ranges: BTreeMap::new(alloc),
        paths,
        owner: AccountNo::first(),
        uploader: AccountNo::first(),
        branch,
        unresolved: false,
        groups: Groups(BTreeMap::new(alloc)),
    })
}

/// A vote of which nothing was said.
pub fn first_vote(alloc: Global) -> Facts {
    Facts::Vote(VoteFacts {
        value: 2,
        voter: AccountNo::first(),
        range: ValueRange {
            least: -2,
            greatest: 2,
        },
        kind: ChangeKind::Rework,
        uploader: AccountNo::first(),
        unchanged_files: false,
        groups: Groups(BTreeMap::new(alloc)),
    })
}

/// The first word of a text, and what is behind it.
fn cut(text: &str) -> Result<(&str, &str), Fault> {
    text.split_once(" ").ok_or(Fault::Form)
}

/// Whether a word is the first of two.
fn is_first(word: &str, first: &str, second: &str) -> Result<bool, Fault> {
    if word == first {
        return Ok(true);
    }
    if word == second {
        return Ok(false);
    }
    Err(Fault::Form)
}

fn value(text: &str) -> Result<i8, Fault> {
    text.parse::<i8>().map_err(|_| Fault::Form)
}

fn range(text: &str) -> Result<ValueRange, Fault> {
    let (least, greatest) = cut(text)?;
    let least = value(least)?;
    let greatest = value(greatest)?;
    Ok(ValueRange { least, greatest })
}

fn paths(alloc: Global, text: &str) -> Result<Paths, Fault> {
    let mut paths = Vec::new(alloc);
    for path in text.split(", ") {
        let path = Path::read(alloc, path)?;
        paths.push(path)?;
    }
    Ok(Paths::from_vec(alloc, paths)?)
}

fn each_account(alloc: Global, text: &str) -> Result<Vec<AccountNo>, Fault> {
    let mut accounts = Vec::new(alloc);
    for number in text.split(" ") {
        let account = AccountNo::read(number)?;
        accounts.push(account)?;
    }
    Ok(accounts)
}

/// A group that words say, and its members.
pub fn group(alloc: Global, words: &str) -> Result<(GroupName, Members), Fault> {
    let (name, numbers) = cut(words)?;
    let accounts = each_account(alloc, numbers)?;
    let members = Members::from_vec(alloc, accounts)?;
    let name = GroupName::read(alloc, name)?;
    Ok((name, members))
}

fn put_group(alloc: Global, groups: &mut Groups, text: &str) -> Result<(), Fault> {
    let (name, members) = group(alloc, text)?;
    groups.0.insert(name, members)?;
    Ok(())
}

/// What labels have, by their names.
type OfLabels<T> = BTreeMap<LabelName, T>;

fn put_label(alloc: Global, ranges: &mut OfLabels<ValueRange>, text: &str) -> Result<(), Fault> {
    let (name, values) = cut(text)?;
    let values = range(values)?;
    let label = LabelName::read(alloc, name)?;
    ranges.insert(label, values)?;
    Ok(())
}

fn vote(text: &str, mark: &str) -> Result<(AccountNo, i8), Fault> {
    let (account, number) = text.split_once(mark).ok_or(Fault::Form)?;
    let account = AccountNo::read(account)?;
    Ok((account, value(number)?))
}

/// The votes that a text says, with a mark between an account and its value, and another between votes.
pub fn each_vote(
    alloc: Global,
    text: &str,
    mark: &str,
    between: &str,
) -> Result<BTreeMap<AccountNo, i8>, Fault> {
    let mut votes = BTreeMap::new(alloc);
    for part in text.split(between) {
        let (account, value) = vote(part, mark)?;
        votes.insert(account, value)?;
    }
    Ok(votes)
}

fn put_votes(
    alloc: Global,
    votes: &mut OfLabels<BTreeMap<AccountNo, i8>>,
    text: &str,
) -> Result<(), Fault> {
    let (name, given) = cut(text)?;
    let label = LabelName::read(alloc, name)?;
    let given = each_vote(alloc, given, " ", ", ")?;
    votes.insert(label, given)?;
    Ok(())
}

/// Takes a fact of a change: whether the word names one.
fn tell_change(
    alloc: Global,
    facts: &mut ChangeFacts,
    word: &str,
    text: &str,
) -> Result<bool, Fault> {
    match word {
        "owner" => facts.owner = AccountNo::read(text)?,
        "uploader" => facts.uploader = AccountNo::read(text)?,
        "branch" => facts.branch = BranchName::read(alloc, text)?,
        "paths" => facts.paths = paths(alloc, text)?,
        "threads" => facts.unresolved = is_first(text, "unresolved", "resolved")?,
        "group" => put_group(alloc, &mut facts.groups, text)?,
        "label" => put_label(alloc, &mut facts.ranges, text)?,
        "votes" => put_votes(alloc, &mut facts.votes, text)?,
        _ => return Ok(false),
    }
    Ok(true)
}

/// Takes a fact of a vote: whether the word names one.
fn tell_vote(alloc: Global, facts: &mut VoteFacts, word: &str, text: &str) -> Result<bool, Fault> {
    match word {
        "voter" => facts.voter = AccountNo::read(text)?,
        "uploader" => facts.uploader = AccountNo::read(text)?,
        "value" => facts.value = value(text)?,
        "range" => facts.range = range(text)?,
        "kind" => facts.kind = ChangeKind::from_name(text).ok_or(Fault::Form)?,
        "files" => facts.unchanged_files = is_first(text, "same", "changed")?,
        "group" => put_group(alloc, &mut facts.groups, text)?,
        _ => return Ok(false),
    }
    Ok(true)
}

/// Takes a fact: whether the word names one of this kind.
pub fn tell(alloc: Global, facts: &mut Facts, word: &str, text: &str) -> Result<bool, Fault> {
    match facts {
        Facts::Change(change) => tell_change(alloc, change, word, text),
        Facts::Vote(vote) => tell_vote(alloc, vote, word, text),
    }
}
