//! What is asked by the project file that was read.
ghost use Rattle.std.specs.Option.{option_map_or};
ghost use Rattle.std.specs.Prelude.{◌≡◌, ◌++◌, ◌∷◌, [], IfOk, OnOk, flat_map, map, option_copied};
ghost use Rattle.review_file_rules.specs.Named.{copying_groups, groups_in, groups_of_requirement};
ghost use Rattle.review_machine_rows.specs.Steps.{caller_in, file_wants, granted_groups, question_groups, request_groups, topic_of};
ghost use Rattle.review_machine_rows.specs.declared.rows.Want.TheVariants as want;

use review_expr::Expr;
use review_file::{Grant, Label, ProjectFile, Requirement, Right, grants_of};
use review_file_rules::push_groups;
use review_machine_rows::{Matter, MemberKey, Want};
use review_words::{AccountNo, ChangeCommand, ChangeQuery, Command, Given, GroupName, Query};
use std::alloc::{AllocError, Global};

/// What is asked of groups, by the file that was read: whether the caller is in those of a right or of a range, and the members of those
/// that copy conditions or submit requirements name.
pub fn file_wants(
    alloc: Global,
    effective: Option<&ProjectFile>,
    caller: AccountNo,
    matter: Matter<'_>,
) -> Result<Vec<Want>, AllocError>
    ensures { IfOk result (λ wants. wants.items ≡ file_wants (option_copied effective.entry) caller (topic_of matter.entry)) }
{
    let mut wants = Vec::new(alloc);
    let Some(file) = effective else {
        return Ok(wants);
    };
    match matter {
        Matter::Command(Command::CreateChange(_)) => {
            push_caller(&mut wants, caller, file.groups(Right::Create))?;
        }
        Matter::Command(Command::OnChange { change: _, command }) => {
            push_request(alloc, &mut wants, caller, file, command)?;
        }
        Matter::Command(Command::Submit { change: _ }) => {
            push_caller(&mut wants, caller, file.groups(Right::Submit))?;
            push_required(alloc, &mut wants, file.requirements())?;
        }
        Matter::Query(Query::OnChange { change: _, query }) => {
            push_question(alloc, &mut wants, file, *query)?;
        }
        _ => {}
    }
    Ok(wants)
}

/// Adds what a request on a change asks of groups.
fn push_request(
    alloc: Global,
    wants: &mut Vec<Want>,
    caller: AccountNo,
    file: &ProjectFile,
    command: &ChangeCommand,
) -> Result<(), AllocError>
    ensures { OnOk result (wants.new.items ≡ wants.old.items ++ request_groups file.now caller command.now) }
{
    match command {
        ChangeCommand::Upload(_) => {
            push_caller(wants, caller, file.groups(Right::Upload))?;
            push_copying(alloc, wants, file.labels())?;
        }
        ChangeCommand::Review(review) => {
            push_granted(wants, caller, file, review.labels.as_slice())?;
        }
        ChangeCommand::Abandon => {
            push_caller(wants, caller, file.groups(Right::Abandon))?;
        }
        ChangeCommand::Restore => {
            push_caller(wants, caller, file.groups(Right::Abandon))?;
        }
        _ => {}
    }
    Ok(())
}

/// Adds what a question about a change asks of groups.
fn push_question(
    alloc: Global,
    wants: &mut Vec<Want>,
    file: &ProjectFile,
    query: ChangeQuery,
) -> Result<(), AllocError>
    ensures { OnOk result (wants.new.items ≡ wants.old.items ++ question_groups file.now query) }
{
    if let ChangeQuery::Requirements = query {
        push_required(alloc, wants, file.requirements())?;
    }
    Ok(())
}

/// Adds the members of the groups that submit requirements name.
fn push_required(
    alloc: Global,
    wants: &mut Vec<Want>,
    requirements: &[Requirement],
) -> Result<(), AllocError>
    ensures { OnOk result (wants.new.items ≡ wants.old.items ++ map want.Group (flat_map groups_of_requirement requirements.now)) }
{
    for requirement in requirements {
        push_requirement(alloc, wants, requirement)?;
    }
    Ok(())
}

fn push_requirement(
    alloc: Global,
    wants: &mut Vec<Want>,
    requirement: &Requirement,
) -> Result<(), AllocError>
    ensures { OnOk result (wants.new.items ≡ wants.old.items ++ map want.Group (groups_of_requirement requirement.now)) }
{
    let mut groups = Vec::new(alloc);
    push_named(&mut groups, requirement)?;
    push_group_names(wants, &groups)
}

// Adds the groups that a submit requirement names.
fn push_named<'e>(
    groups: &mut Vec<&'e GroupName>,
    requirement: &'e Requirement,
) -> Result<(), AllocError>
    ensures { OnOk result (map (λ g. g.now) groups.new.items ≡ map (λ g. g.now) groups.old.items ++ groups_of_requirement requirement.now) }
{
    push_if_there(groups, requirement.applicable_if())?;
    push_if_there(groups, requirement.override_if())?;
    push_groups(groups, requirement.submittable_if())
}

fn push_if_there<'e>(
    groups: &mut Vec<&'e GroupName>,
    expr: Option<&'e Expr>,
) -> Result<(), AllocError>
    ensures { OnOk result (map (λ g. g.now) groups.new.items ≡ map (λ g. g.now) groups.old.items ++ option_map_or groups_in (option_copied expr.entry) []) }
{
    if let Some(expr) = expr {
        push_groups(groups, expr)?;
    }
    Ok(())
}

/// Adds whether the caller is in these groups.
fn push_caller(
    wants: &mut Vec<Want>,
    caller: AccountNo,
    groups: &[GroupName],
) -> Result<(), AllocError>
    ensures { OnOk result (wants.new.items ≡ wants.old.items ++ caller_in caller groups.now) }
{
    for group in groups {
        push_member(wants, caller, group)?;
    }
    Ok(())
}

fn push_member(
    wants: &mut Vec<Want>,
    caller: AccountNo,
    group: &GroupName,
) -> Result<(), AllocError>
    ensures { OnOk result (wants.new.items ≡ wants.old.items ++ caller_in caller (group.now ∷ [])) }
{
    wants.push(Want::Member(MemberKey {
        group: group.copy()?,
        account: caller,
    }))?;
    Ok(())
}

/// Adds whether the caller is in the groups that have a range of one of the labels.
fn push_granted(
    wants: &mut Vec<Want>,
    caller: AccountNo,
    file: &ProjectFile,
    given: &[Given],
) -> Result<(), AllocError>
    ensures { OnOk result (wants.new.items ≡ wants.old.items ++ caller_in caller (granted_groups file.now given.now)) }
{
    for one in given {
        push_grants(wants, caller, grants_of(file, &one.label))?;
    }
    Ok(())
}

fn push_grants(wants: &mut Vec<Want>, caller: AccountNo, grants: &[Grant]) -> Result<(), AllocError>
    ensures { OnOk result (wants.new.items ≡ wants.old.items ++ caller_in caller (map (λ g. g.group) grants.now)) }
{
    for grant in grants {
        push_member(wants, caller, &grant.group)?;
    }
    Ok(())
}

/// Adds the members of the groups that the copy conditions of labels name.
fn push_copying(alloc: Global, wants: &mut Vec<Want>, labels: &[Label]) -> Result<(), AllocError>
    ensures { OnOk result (wants.new.items ≡ wants.old.items ++ map want.Group (copying_groups labels.now)) }
{
    for label in labels {
        if let Some(condition) = label.copy_condition() {
            let mut groups = Vec::new(alloc);
            push_groups(&mut groups, condition)?;
            push_group_names(wants, &groups)?;
        }
    }
    Ok(())
}

fn push_group_names(wants: &mut Vec<Want>, groups: &[&GroupName]) -> Result<(), AllocError>
    ensures { OnOk result (wants.new.items ≡ wants.old.items ++ map want.Group (map (λ g. g.now) groups.now)) }
{
    for group in groups {
        wants.push(Want::Group(group.copy()?))?;
    }
    Ok(())
}
