//! What a file has.

use crate::fault::Fault;
use review_expr::Expr;
use review_expr_printing::print;
use review_file::{Grant, Label, LabelValue, ProjectFile, Requirement};
use std::alloc::{AllocError, Global};

fn push_values(alloc: Global, text: &mut String, values: &[LabelValue]) -> Result<(), AllocError> {
    for value in values {
        let number = value.value();
        let meaning = value.text();
        text.push_str(format!(in alloc; "\n     value {number}: {meaning}")?.as_str())?;
    }
    Ok(())
}

fn push_grants(alloc: Global, text: &mut String, grants: &[Grant]) -> Result<(), AllocError> {
    for grant in grants {
        let group = grant.group.as_str();
        let least = grant.least;
        let greatest = grant.greatest;
        text.push_str(format!(in alloc; "\n     {group} from {least} to {greatest}")?.as_str())?;
    }
    Ok(())
}

fn push_expression(
    alloc: Global,
    text: &mut String,
    front: &str,
    expr: &Expr,
) -> Result<(), AllocError> {
    text.push_str(front)?;
    text.push_str(print(alloc, expr)?.as_str())
}

fn push_label(alloc: Global, text: &mut String, label: &Label) -> Result<(), AllocError> {
    let name = label.name().as_str();
    let least = label.least();
    let greatest = label.greatest();
    text.push_str(format!(in alloc; "\n   label {name} from {least} to {greatest}")?.as_str())?;
    push_values(alloc, text, label.values())?;
    push_grants(alloc, text, label.grants())?;
    match label.copy_condition() {
        Some(expr) => push_expression(alloc, text, "\n     copied if ", expr),
        None => Ok(()),
    }
}

fn push_requirement(
    alloc: Global,
    text: &mut String,
    requirement: &Requirement,
) -> Result<(), AllocError> {
    let name = requirement.name().as_str();
    text.push_str(format!(in alloc; "\n   requirement {name}")?.as_str())?;
    push_expression(
        alloc,
        text,
        "\n     satisfied if ",
        requirement.submittable_if(),
    )
}

/// The labels and the requirements of a file.
pub fn contents_of(alloc: Global, file: &ProjectFile) -> Result<String, Fault> {
    let labels = file.labels().len();
    let requirements = file.requirements().len();
    let mut text = format!(in alloc; "labels: {labels}, requirements: {requirements}")?;
    for label in file.labels() {
        push_label(alloc, &mut text, label)?;
    }
    for requirement in file.requirements() {
        push_requirement(alloc, &mut text, requirement)?;
    }
    Ok(text)
}
