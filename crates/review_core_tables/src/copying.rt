//! Votes that are copied to a new patch set.
ghost use Rattle.std.specs.{List.Sorted.IsStrictlySortedBy, Map.keys_of, Map.Iter.deref_pair};
ghost use Rattle.std.specs.Prelude.{◌≡◌, ◌++◌, [], ◌∷◌, Some, find, map, option_copied, IfOk, OnOk};
ghost use Rattle.{std.specs.Str.bytes_eq, review_names.specs.Groups.has_account, review_table.specs.Rows.rows_of};
ghost use Rattle.review_expr_judging.specs.Holds.{copy_holds};
ghost use Rattle.review_expr.specs.{Exprs.AreTermsOf, declared.expr.Expr.Expr};
ghost use Rattle.review_core_rules.specs.{Change.condition_holds, Seen.vote_cmp};
ghost use Rattle.review_core_tables.specs.Conditions.{AreConditions, IsCompiled};
ghost use Rattle.review_core_tables.specs.Copies.{copies_by, copied_rows, group_list, lost_rows, with_groups, IsSplit};

use review_core_rules::{Vote, VoteKey};
use review_expr::{TermList, Terms, compile};
use review_expr_judging::{Judged, ValueRange, VoteFacts};
use review_expr_terms::CopyTerm;
use review_file::{Label, ProjectFile};
use review_table::{Key, Table};
use review_words::{AccountNo, GroupName, LabelName, PatchNo};
use std::alloc::{AllocError, Global};

/// Groups by their names, each with the accounts that are in it.
pub type GroupTables = Table<GroupName, Table<AccountNo, ()>>;

/// Whether an account is in a group. Every account is in `Registered-Users`; a group that has no table is empty.
pub fn is_in(groups: &GroupTables, group: &GroupName, account: AccountNo) -> bool
    ensures { result ≡ has_account (group_list groups.now) group.now account }
{
    if group.as_str() == "Registered-Users" {
        return true;
    }
    match groups.get(group) {
        Some(members) => members.get(&account).is_some(),
        None => false,
    }
}

/// A vote as copy conditions are judged by it, where tables tell who is in which group, however many accounts there are in one.
#[derive(Drop)]
struct GroupedVote<'v> {
    facts: &'v VoteFacts,
    groups: &'v GroupTables,
}

impl<'v> Judged<GroupedVote<'v>> for CopyTerm {
    ghost use Rattle.{review_expr_judging.specs.Holds.copy_holds, review_core_tables.specs.Copies.with_groups};

    ghost is_held = { λ v t. copy_holds (with_groups v.facts.now v.groups.now) t };

    fn is_met(&self, alloc: Global, vote: &GroupedVote<'v>) -> Result<bool, AllocError> {
        match self {
            CopyTerm::ApproverIn(group) => Ok(is_in(vote.groups, group, vote.facts.voter)),
            CopyTerm::UploaderIn(group) => Ok(is_in(vote.groups, group, vote.facts.uploader)),
            CopyTerm::Value(_) | CopyTerm::Kind(_) | CopyTerm::UnchangedFiles => {
                is_met_by(alloc, self, vote.facts)
            }
        }
    }
}

/// Whether a term holds for a vote by its facts alone.
fn is_met_by(alloc: Global, term: &CopyTerm, facts: &VoteFacts) -> Result<bool, AllocError>
    ensures { IfOk result (λ b. b ≡ copy_holds facts.now term.now) }
{
    term.is_met(alloc, facts)
}

/// A label of a file with its copy condition as a flat list.
#[derive(Drop)]
struct Condition<'f> {
    label: &'f Label,
    terms: Option<Terms<'f>>,
}

fn compiled(alloc: Global, label: &Label) -> Result<Condition<'_>, AllocError>
    ensures label { IfOk result (λ c. c.label.now ≡ label.now) }
    ensures terms { IfOk result IsCompiled }
{
    let terms = match label.copy_condition() {
        Some(condition) => Some(compile(alloc, condition)?),
        None => None,
    };
    Ok(Condition { label, terms })
}

/// The copy conditions of a file, which are compiled once for all votes of a patch set.
#[derive(Drop)]
struct Conditions<'f> {
    file: &'f ProjectFile,
    list: Vec<Condition<'f>>,
    ghost compiled: { ∥ AreConditions file.now.labels list.items ∥₁ },
}

fn compile_all<'f>(
    alloc: Global,
    list: &mut Vec<Condition<'f>>,
    labels: &'f [Label],
) -> Result<(), AllocError>
    requires { list.old.items ≡ [] }
    ensures { OnOk result (AreConditions labels.now list.new.items) }
{
    for label in labels {
        let condition = compiled(alloc, label)?;
        list.push(condition)?;
    }
    Ok(())
}

fn conditions_of(alloc: Global, file: &ProjectFile) -> Result<Conditions<'_>, AllocError>
    ensures file { IfOk result (λ c. c.file.now ≡ file.now) }
    ensures list { IfOk result (λ c. AreConditions file.now.labels c.list.items) }
{
    let mut list = Vec::new(alloc);
    compile_all(alloc, &mut list, file.labels())?;
    Ok(Conditions { file, list })
}

/// The condition of the label of a name, where there is one.
fn condition_on<'c, 'f>(list: &'c [Condition<'f>], name: &LabelName) -> Option<&'c Condition<'f>>
    ensures { option_copied result ≡ find (λ c. bytes_eq c.label.now.name name.now) list.now }
{
    for condition in list {
        if *condition.label.name() == *name {
            return Some(condition);
        }
    }
    None
}

fn are_met(
    alloc: Global,
    terms: &Terms,
    facts: &VoteFacts,
    groups: &GroupTables,
) -> Result<bool, AllocError>
    ensures { (e : Expr) → AreTermsOf e terms.now → IfOk result (λ b. b ≡ condition_holds (Some e) (with_groups facts.now groups.now)) }
{
    match terms.list() {
        TermList::Copy(steps) => steps.eval(alloc, &GroupedVote { facts, groups }),
        TermList::Requirement(_) => Ok(false),
    }
}

/// Whether a vote is copied. Of the facts only the vote, its voter and its range change.
fn is_copied(
    alloc: Global,
    conditions: &Conditions,
    facts: &mut VoteFacts,
    groups: &GroupTables,
    key: &VoteKey,
    value: i8,
) -> Result<bool, AllocError>
    ensures holds { IfOk result (λ b. b ≡ copies_by conditions.now.file.now (with_groups facts.old groups.now) key.now.label key.now.account value) }
    ensures same { copies_by conditions.now.file.now (with_groups facts.new groups.now) ≡ copies_by conditions.now.file.now (with_groups facts.old groups.now) }
{
    let Some(condition) = condition_on(&conditions.list, &key.label) else {
        return Ok(false);
    };
    let Some(terms) = &condition.terms else {
        return Ok(false);
    };
    facts.value = value;
    facts.voter = key.account;
    facts.range = ValueRange {
        least: condition.label.least(),
        greatest: condition.label.greatest(),
    };
    are_met(alloc, terms, facts, groups)
}

/// The votes of a patch set: those that are copied, on the next one, and the keys of the others.
#[derive(Drop)]
pub struct Parted {
    pub copied: Vec<(VoteKey, Vote)>,
    pub lost: Vec<VoteKey>,
}

fn part_one(
    alloc: Global,
    conditions: &Conditions,
    facts: &mut VoteFacts,
    groups: &GroupTables,
    key: &VoteKey,
    vote: Vote,
    patch: PatchNo,
    next: PatchNo,
    parted: &mut Parted,
) -> Result<(), AllocError>
    ensures copied { OnOk result (parted.new.copied.items ≡ parted.old.copied.items ++ copied_rows (copies_by conditions.now.file.now (with_groups facts.old groups.now)) patch next ((key.now, vote) ∷ [])) }
    ensures lost { OnOk result (parted.new.lost.items ≡ parted.old.lost.items ++ lost_rows (copies_by conditions.now.file.now (with_groups facts.old groups.now)) patch ((key.now, vote) ∷ [])) }
    ensures same { copies_by conditions.now.file.now (with_groups facts.new groups.now) ≡ copies_by conditions.now.file.now (with_groups facts.old groups.now) }
{
    if key.patch != patch {
        return Ok(());
    }
    if is_copied(alloc, conditions, facts, groups, key, vote.get())? {
        push_copied(&mut parted.copied, key, vote, next)
    } else {
        push_lost(&mut parted.lost, key)
    }
}

fn push_copied(
    copied: &mut Vec<(VoteKey, Vote)>,
    key: &VoteKey,
    vote: Vote,
    next: PatchNo,
) -> Result<(), AllocError>
    ensures { OnOk result (copied.new.items ≡ copied.old.items ++ (record { patch = next; label = key.now.label; account = key.now.account }, vote) ∷ []) }
{
    let copy = VoteKey {
        patch: next,
        label: key.label.copy()?,
        account: key.account,
    };
    copied.push((copy, vote))?;
    Ok(())
}

fn push_lost(lost: &mut Vec<VoteKey>, key: &VoteKey) -> Result<(), AllocError>
    ensures { OnOk result (lost.new.items ≡ lost.old.items ++ key.now ∷ []) }
{
    let key = Key::copy(key)?;
    lost.push(key)?;
    Ok(())
}

fn part(
    alloc: Global,
    conditions: &Conditions,
    facts: &mut VoteFacts,
    groups: &GroupTables,
    rows: &[(&VoteKey, &Vote)],
    patch: PatchNo,
    next: PatchNo,
) -> Result<Parted, AllocError>
    ensures { IfOk result (λ s. IsSplit (copies_by conditions.now.file.now (with_groups facts.old groups.now)) patch next (map deref_pair rows.now) s) }
{
    let mut parted = Parted {
        copied: Vec::new(alloc),
        lost: Vec::new(alloc),
    };
    for (key, vote) in rows {
        part_one(
            alloc,
            conditions,
            facts,
            groups,
            key,
            **vote,
            patch,
            next,
            &mut parted,
        )?;
    }
    Ok(parted)
}

/// Parts the votes of a patch set by the copy conditions of a file. Of the facts the vote, its voter and its range are those of
/// each vote in turn; their groups are not asked, but the tables.
pub fn part_votes(
    alloc: Global,
    votes: &Table<VoteKey, Vote>,
    file: &ProjectFile,
    facts: VoteFacts,
    groups: &GroupTables,
    patch: PatchNo,
    next: PatchNo,
) -> Result<Parted, AllocError>
    ensures parted { IfOk result (IsSplit (copies_by file.now (with_groups facts groups.now)) patch next (rows_of votes.now)) }
    ensures sorted { IfOk result (λ _. IsStrictlySortedBy vote_cmp (keys_of (rows_of votes.now))) }
{
    let rows = votes.rows(alloc)?;
    let conditions = conditions_of(alloc, file)?;
    let mut facts = facts;
    let parted = part(alloc, &conditions, &mut facts, groups, &rows, patch, next);
    drop(conditions);
    drop(facts);
    parted
}
