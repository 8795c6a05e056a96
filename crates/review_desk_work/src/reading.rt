//! Words read as a job.
ghost use Rattle.std.specs.Prelude.{◌≡◌, map, ok_or, option_map, string_bytes};
ghost use Rattle.clap.specs.Words.{first_of, found_of, rows_of, subcommand_rows_of};
ghost use Rattle.review_desk_work.specs.Jobs.{Gives, branch_in, change_in, change_of, count_in, count_of, job_found, job_from, job_on, job_spelled, job_taken, joined_in, port_in, port_of, project_in, serve_in, show_in, spelled, asks_help, command_fault, is_command};
ghost use Rattle.review_desk_work.specs.declared.words_fault.WordsFault.TheVariants as fault;

use crate::command::desk_command;
use crate::job::Job;
use crate::words_fault::WordsFault;
use clap::ArgMatches;
use review_names::{Bad, BranchName, ChangeNo, ProjectName, read_number};
use std::alloc::Global;

fn is_command(word: &str) -> bool
    ensures { result ≡ is_command word.now }
{
    word == "init"
        || word == "migrate"
        || word == "apply"
        || word == "serve"
        || word == "show"
        || word == "joined"
}

fn asks_help(word: &str) -> bool
    ensures { result ≡ asks_help word.now }
{
    word == "help" || word == "-h" || word == "--help"
}

/// The fault of the first word, where it is no command.
fn command_fault(words: &[String]) -> Option<WordsFault>
    ensures { result ≡ command_fault (map (λ w. string_bytes w) words.now) }
{
    let Some(word) = words.first() else {
        return Some(WordsFault::NoCommand);
    };
    if is_command(word.as_str()) {
        None
    } else if asks_help(word.as_str()) {
        Some(WordsFault::Help)
    } else {
        Some(WordsFault::UnknownCommand)
    }
}

fn text_at<'a>(matches: &ArgMatches<'a>, id: &str) -> Option<&'a str>
    ensures { option_map (λ s. s.now) result ≡ first_of id.now (rows_of (found_of matches.now)) }
{
    matches.get_str(id)
}

#[tactic(auto, unfolding(crate::specs::Jobs::change_of), using(crate::proofs::Numbers::change_read, crate::proofs::Numbers::no_change_read))]
fn change_of(text: &str) -> Option<ChangeNo>
    ensures { result ≡ change_of text.now }
{
    match ChangeNo::read(text) {
        Ok(change) => Some(change),
        Err(_) => None,
    }
}

#[tactic(auto, unfolding(crate::specs::Jobs::port_of))]
fn port_of(text: &str) -> Option<u16>
    ensures { result ≡ port_of text.now }
{
    let port = read_number(text.as_bytes())?;
    if port >= 1 && port <= 65_535 {
        Some(port as u16)
    } else {
        None
    }
}

#[tactic(auto, unfolding(crate::specs::Jobs::count_of))]
fn count_of(text: &str) -> Option<u32>
    ensures { result ≡ count_of text.now }
{
    let count = read_number(text.as_bytes())?;
    if count <= 4_294_967_295 {
        Some(count as u32)
    } else {
        None
    }
}

fn port_in(matches: &ArgMatches<'_>) -> Option<u16>
    ensures { ok_or result fault.Port ≡ port_in (rows_of (found_of matches.now)) }
{
    port_of(text_at(matches, "port")?)
}

fn count_in(matches: &ArgMatches<'_>) -> Option<u32>
    ensures { ok_or result fault.Count ≡ count_in (rows_of (found_of matches.now)) }
{
    count_of(text_at(matches, "count")?)
}

fn change_in(matches: &ArgMatches<'_>) -> Option<ChangeNo>
    ensures { ok_or result fault.Change ≡ change_in (rows_of (found_of matches.now)) }
{
    change_of(text_at(matches, "change")?)
}

fn project_in(alloc: Global, matches: &ArgMatches<'_>) -> Result<ProjectName, WordsFault>
    ensures { Gives (λ name. name) result (project_in (rows_of (found_of matches.now))) }
{
    let Some(text) = text_at(matches, "project") else {
        return Err(WordsFault::Project);
    };
    match ProjectName::read(alloc, text) {
        Ok(name) => Ok(name),
        Err(Bad::Form) => Err(WordsFault::Project),
        Err(Bad::Memory) => Err(WordsFault::Memory),
    }
}

fn branch_in(alloc: Global, matches: &ArgMatches<'_>) -> Result<BranchName, WordsFault>
    ensures { Gives (λ name. name) result (branch_in (rows_of (found_of matches.now))) }
{
    let Some(text) = text_at(matches, "branch") else {
        return Err(WordsFault::Branch);
    };
    match BranchName::read(alloc, text) {
        Ok(name) => Ok(name),
        Err(Bad::Form) => Err(WordsFault::Branch),
        Err(Bad::Memory) => Err(WordsFault::Memory),
    }
}

fn serve_job<'a>(matches: &ArgMatches<'a>, file: &'a str) -> Result<Job<'a>, WordsFault>
    ensures { Gives spelled result (serve_in file.now (rows_of (found_of matches.now))) }
{
    let Some(port) = port_in(matches) else {
        return Err(WordsFault::Port);
    };
    match count_in(matches) {
        Some(count) => Ok(Job::Serve { file, port, count }),
        None => Err(WordsFault::Count),
    }
}

fn show_job<'a>(matches: &ArgMatches<'a>, file: &'a str) -> Result<Job<'a>, WordsFault>
    ensures { Gives spelled result (show_in file.now (rows_of (found_of matches.now))) }
{
    match change_in(matches) {
        Some(change) => Ok(Job::Show { file, change }),
        None => Err(WordsFault::Change),
    }
}

fn joined_job<'a>(
    alloc: Global,
    matches: &ArgMatches<'a>,
    file: &'a str,
) -> Result<Job<'a>, WordsFault>
    ensures { Gives spelled result (joined_in file.now (rows_of (found_of matches.now))) }
{
    let project = project_in(alloc, matches)?;
    let branch = branch_in(alloc, matches)?;
    Ok(Job::Joined {
        file,
        project,
        branch,
    })
}

/// The job of a command with its file.
fn job_on<'a>(
    alloc: Global,
    name: &str,
    matches: &ArgMatches<'a>,
    file: &'a str,
) -> Result<Job<'a>, WordsFault>
    ensures { Gives spelled result (job_on name.now (rows_of (found_of matches.now)) file.now) }
{
    if name == "init" {
        return Ok(Job::Init { file });
    }
    if name == "migrate" {
        return Ok(Job::Migrate { file });
    }
    if name == "apply" {
        return Ok(Job::Apply { file });
    }
    if name == "serve" {
        return serve_job(matches, file);
    }
    if name == "show" {
        return show_job(matches, file);
    }
    if name == "joined" {
        return joined_job(alloc, matches, file);
    }
    Err(WordsFault::UnknownCommand)
}

fn job_with<'a>(alloc: Global, name: &str, matches: &ArgMatches<'a>) -> Result<Job<'a>, WordsFault>
    ensures { Gives spelled result (job_from (name.now, rows_of (found_of matches.now))) }
{
    match text_at(matches, "file") {
        Some(file) => job_on(alloc, name, matches, file),
        None => Err(WordsFault::File),
    }
}

fn job_in<'a>(alloc: Global, matches: &ArgMatches<'a>) -> Result<Job<'a>, WordsFault>
    ensures { Gives spelled result (job_found (subcommand_rows_of matches.now)) }
{
    match matches.subcommand() {
        Some((name, values)) => job_with(alloc, name, values),
        None => Err(WordsFault::NoCommand),
    }
}

/// The job of words whose first is a command.
fn job_taken<'a>(alloc: Global, words: &'a [String]) -> Result<Job<'a>, WordsFault>
    ensures { Gives spelled result (job_taken (map (λ w. string_bytes w) words.entry.now)) }
{
    let Ok(command) = desk_command(alloc) else {
        return Err(WordsFault::Memory);
    };
    match command.try_get_matches_from(words) {
        Ok(matches) => job_in(alloc, &matches),
        Err(error) => Err(WordsFault::from(error.kind())),
    }
}

/// The job that the words after the program's name ask for: `init FILE`, `migrate FILE`, `apply FILE`, `serve FILE --port P --count N`, `show FILE --change N`, or
/// `joined FILE --project P --branch B`. FILE is taken as it stands; of `serve`, P is 1 to 65,535 and N 0 to 4,294,967,295, both in decimal without leading
/// zeros; of `show`, N is the number of a change; of `joined`, P and B are names of a project and a branch. Words that ask for none of these have the first fault
/// of these: of the first word, of a word or an option that the command doesn't take, of FILE, of a value in the order above. Memory may lack at any time.
pub fn job_of<'a>(alloc: Global, words: &'a [String]) -> Result<Job<'a>, WordsFault>
    ensures { Gives spelled result (job_spelled (map (λ w. string_bytes w) words.entry.now)) }
{
    match command_fault(words) {
        Some(fault) => Err(fault),
        None => job_taken(alloc, words),
    }
}
