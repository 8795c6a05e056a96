//! What a script is answered.

use crate::fault::Fault;
use review_expr::{Expr, Facts, ParseFault, compile, eval, labels_of};
use review_expr_printing::print;
use std::alloc::{AllocError, Global};

/// The text that an expression is printed as, or its length.
fn printed(alloc: Global, expr: &Expr) -> Result<String, AllocError> {
    let text = print(alloc, expr)?;
    let length = text.len();
    if length > 200 {
        return format!(in alloc; "{length} bytes");
    }
    Ok(text)
}

/// The line of the labels that an expression names, with a line feed before it, if it names any.
fn labels_line(alloc: Global, expr: &Expr) -> Result<String, AllocError> {
    let labels = labels_of(alloc, expr)?;
    let mut line = String::new(alloc);
    for label in &labels {
        line.push_str(if line.is_empty() {
            "\n   labels: "
        } else {
            ", "
        })?;
        line.push_str(label.as_str())?;
    }
    Ok(line)
}

/// Why a text is no expression.
fn refused(alloc: Global, fault: ParseFault) -> Result<String, Fault> {
    match fault {
        ParseFault::Text(fault) => {
            let name = fault.code.name();
            let place = fault.place;
            Ok(format!(in alloc; "{name} at {place}")?)
        }
        ParseFault::Pattern => Ok(String::from_str(alloc, "PATTERN")?),
        ParseFault::Memory => Err(Fault::Memory),
    }
}

/// What an expression is printed as, and the line of its labels.
fn shown(alloc: Global, expr: &Expr) -> Result<String, Fault> {
    let mut answer = printed(alloc, expr)?;
    let labels = labels_line(alloc, expr)?;
    answer.push_str(labels.as_str())?;
    Ok(answer)
}

/// What is said of a text that was read.
pub fn reading(alloc: Global, read: Result<Expr, ParseFault>) -> Result<String, Fault> {
    match read {
        Ok(expr) => shown(alloc, &expr),
        Err(fault) => refused(alloc, fault),
    }
}

/// The answer to whether something is so.
pub fn yes_or_no(alloc: Global, is_so: bool) -> Result<String, Fault> {
    Ok(String::from_str(alloc, if is_so { "yes" } else { "no" })?)
}

/// Whether an expression holds, by its tree and by its flat list.
pub fn holds(alloc: Global, expr: &Expr, facts: &Facts) -> Result<bool, Fault> {
    let held = eval(alloc, expr, facts)?;
    let terms = compile(alloc, expr)?;
    if terms.eval(alloc, facts)? != held {
        return Err(Fault::Unlike);
    }
    Ok(held)
}

fn judged(alloc: Global, expr: &Expr, facts: &Facts) -> Result<String, Fault> {
    let held = holds(alloc, expr, facts)?;
    yes_or_no(alloc, held)
}

/// Whether a text that was read holds.
pub fn judgement(
    alloc: Global,
    read: Result<Expr, ParseFault>,
    facts: &Facts,
) -> Result<String, Fault> {
    match read {
        Ok(expr) => judged(alloc, &expr, facts),
        Err(fault) => refused(alloc, fault),
    }
}
