//! Scripts on the languages of a project: expressions and project files. A transcript that a person reads from top to bottom.
//!
//! Standard input has scripts, standard output the same lines, with the answer to each question beneath it, behind `=> `. A line is
//!
//! - `### TEXT`, a heading, `# TEXT`, a remark, or nothing;
//! - `@ expressions` or `@ project files`: what the scripts below are on, at first expressions;
//! - `== NAME`: a script begins, which knows nothing of those above it;
//! - any other line: as the modules `expressions` and `files` say.
//!
//! With words it reads no scripts, but does a piece of work with an expression, to be timed from outside: `language_scripts WORK
//! COUNT PATHS TEXT` does it COUNT times, at most 1,000,000, and prints how many times the expression was read or held. WORK is `parse`
//! (reads TEXT as a submit requirement), `eval` (evaluates it, read once, for a change with 20 votes on Code-Review and so many paths in
//! `src`, at most 500), `terms` (the same by its flat list, compiled once) or `compile` (reads TEXT as a pattern). `bench/expressions`
//! times it, and `bench/refuse_allocations` refuses its allocations.
#![tactic(auto)]

mod answers;
mod contents;
mod expressions;
mod facts;
mod fault;
mod file_readings;
mod files;
mod satisfied;
mod texts;
mod work;

use expressions::ExpressionScript;
use fault::Fault;
use files::FileScript;
use std::alloc::Global;
use std::io::{BufRead, BufReader};
use std::process::ExitCode;
use std::{env, io};

/// What scripts are on.
#[derive(Clone, Copy)]
enum Language {
    Expressions,
    ProjectFiles,
}

/// The script that has begun, in each language.
#[derive(Drop)]
struct Scripts {
    language: Language,
    expressions: ExpressionScript,
    files: FileScript,
}

impl Scripts {
    fn new(alloc: Global, language: Language) -> Result<Scripts, Fault> {
        let expressions = ExpressionScript::new(alloc)?;
        let files = FileScript::new(alloc);
        Ok(Scripts {
            language,
            expressions,
            files,
        })
    }

    /// Begins a script.
    fn begin(&mut self, alloc: Global, language: Language) -> Result<(), Fault> {
        *self = Scripts::new(alloc, language)?;
        Ok(())
    }

    /// Takes a line that is no remark: its answer, if it asks something.
    fn take(&mut self, alloc: Global, line: &str) -> Result<Option<String>, Fault> {
        if line.starts_with("== ") {
            self.begin(alloc, self.language)?;
            return Ok(None);
        }
        match self.language {
            Language::Expressions => self.expressions.take(alloc, line),
            Language::ProjectFiles => self.files.take(alloc, line),
        }
    }
}

/// The language that a line names.
fn language_named(line: &str) -> Option<Language> {
    match line {
        "@ expressions" => Some(Language::Expressions),
        "@ project files" => Some(Language::ProjectFiles),
        _ => None,
    }
}

/// Prints what a line of a script is answered.
fn answer(rt: &HostRuntime, scripts: &mut Scripts, line: &str) -> Result<(), Fault> {
    if let Some(answer) = scripts.take(rt.alloc(), line)? {
        println!(rt; "=> {answer}").map_err(Fault::of_output)?;
    }
    Ok(())
}

/// Prints a line, and does what it says.
fn step(rt: &HostRuntime, scripts: &mut Scripts, line: &str) -> Result<(), Fault> {
    println!(rt; "{line}").map_err(Fault::of_output)?;
    if line.is_empty() || line.starts_with("#") {
        return Ok(());
    }
    match language_named(line) {
        Some(language) => scripts.begin(rt.alloc(), language),
        None => answer(rt, scripts, line),
    }
}

/// Takes a line as it was read.
fn read_step(
    rt: &HostRuntime,
    scripts: &mut Scripts,
    line: Result<String, io::Error>,
) -> Result<(), Fault> {
    let line = line.map_err(Fault::of_input)?;
    step(rt, scripts, line.as_str())
}

fn transcribe_with(rt: &HostRuntime, scripts: &mut Scripts) -> Result<(), Fault> {
    let reader = BufReader::new(rt.alloc(), rt.reader()).map_err(Fault::of_input)?;
    for line in reader.lines(rt.alloc()) {
        read_step(rt, scripts, line)?;
    }
    Ok(())
}

fn transcribe(rt: &HostRuntime) -> Result<(), Fault> {
    let mut scripts = Scripts::new(rt.alloc(), Language::Expressions)?;
    transcribe_with(rt, &mut scripts)
}

fn transcript(rt: &HostRuntime) -> ExitCode {
    match transcribe(rt) {
        Ok(()) => ExitCode::SUCCESS,
        Err(fault) => {
            let _ = eprintln!(rt; "language_scripts: {fault}");
            ExitCode::FAILURE
        }
    }
}

/// Prints how many times a work was done, if words ask for one.
fn count(rt: &HostRuntime, done: Option<u64>) -> ExitCode {
    let Some(done) = done else {
        let _ = eprintln!(rt; "usage: language_scripts [parse|eval|compile COUNT PATHS TEXT]");
        return ExitCode::from(2);
    };
    match println!(rt; "{done}") {
        Ok(()) => ExitCode::SUCCESS,
        Err(_) => ExitCode::FAILURE,
    }
}

fn main(rt: HostRuntime) -> ExitCode {
    let Ok(mut words) = env::args(&rt) else {
        return count(&rt, None);
    };
    let _ = words.next();
    match words.next() {
        Some(name) => count(&rt, work::done(rt.alloc(), name.as_str(), &mut words)),
        None => transcript(&rt),
    }
}
