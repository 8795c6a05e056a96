//! Expressions at work, to be timed from outside.

use crate::facts::first_change;
use review_expr::{Facts, compile, eval, parse_requirement};
use review_expr_judging::ValueRange;
use review_expr_terms::Pattern;
use review_words::{AccountNo, LabelName, Path, Paths};
use std::alloc::Global;
use std::collections::BTreeMap;
use std::env::Args;

/// Votes 1 of 19 accounts, and 2 of another.
fn votes(alloc: Global) -> Option<BTreeMap<AccountNo, i8>> {
    let mut votes = BTreeMap::new(alloc);
    for number in 2..21u64 {
        votes.insert(AccountNo::from_number(number)?, 1i8).ok()?;
    }
    votes.insert(AccountNo::last(), 2i8).ok()?;
    Some(votes)
}

/// So many paths in `src`.
fn paths(alloc: Global, count: u64) -> Option<Paths> {
    let mut paths = Vec::new(alloc);
    for number in 0..count.min(500) {
        let text = format!(in alloc; "src/page-{number}.md").ok()?;
        paths.push(Path::read(alloc, text.as_str()).ok()?).ok()?;
    }
    Paths::from_vec(alloc, paths).ok()
}

/// A change with 20 votes on Code-Review, and so many paths.
fn change(alloc: Global, count: u64) -> Option<Facts> {
    let label = LabelName::read(alloc, "Code-Review").ok()?;
    let range = ValueRange {
        least: -2,
        greatest: 2,
    };
    let votes = votes(alloc)?;
    let mut change = first_change(alloc).ok()?;
    change.paths = paths(alloc, count)?;
    change.votes.insert(label.copy().ok()?, votes).ok()?;
    change.ranges.insert(label, range).ok()?;
    Some(Facts::Change(change))
}

/// How many of so many tries succeed.
fn counted<F: Fn() -> bool>(count: u64, succeeds: F) -> u64
    requires { F.IsAlwaysCallable succeeds }
{
    let mut done = 0u64;
    for _ in 0..count {
        if succeeds() {
            done = done.saturating_add(1);
        }
    }
    done
}

fn evaluated(alloc: Global, text: &str, count: u64, paths: u64) -> Option<u64> {
    let expression = parse_requirement(alloc, text).ok()?;
    let facts = change(alloc, paths)?;
    Some(counted(count, || {
        matches!(eval(alloc, &expression, &facts), Ok(true))
    }))
}

/// As `evaluated`, with the expression compiled once.
fn evaluated_as_terms(alloc: Global, text: &str, count: u64, paths: u64) -> Option<u64> {
    let expression = parse_requirement(alloc, text).ok()?;
    let terms = compile(alloc, &expression).ok()?;
    let facts = change(alloc, paths)?;
    Some(counted(count, || { matches!(terms.eval(alloc, &facts), Ok(true)) }))
}

fn work(alloc: Global, work: &str, count: u64, paths: u64, text: &str) -> Option<u64> {
    match work {
        "parse" => Some(counted(count, || parse_requirement(alloc, text).is_ok())),
        "compile" => Some(counted(count, || Pattern::read(alloc, text).is_ok())),
        "eval" => evaluated(alloc, text, count, paths),
        "terms" => evaluated_as_terms(alloc, text, count, paths),
        _ => None,
    }
}

/// How many times the expression was read or held in the work that words ask for, if they are words.
pub fn done(alloc: Global, name: &str, words: &mut Args<Global>) -> Option<u64> {
    let count = words.next()?.parse::<u64>().ok()?;
    let paths = words.next()?.parse::<u64>().ok()?;
    let text = words.next()?;
    work(alloc, name, count.min(1_000_000), paths, text.as_str())
}
