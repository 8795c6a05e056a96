//! The command line of the program. Each call fails for want of memory alone.
ghost use Rattle.std.specs.Prelude.{◌≡◌, Ok, false};
ghost use Rattle.clap.specs.Words.{App, new_app, rule_of, with_rule, with_subcommand};
ghost use Rattle.review_desk_work.specs.CommandLine.{Makes, branch, change, changing, count, desk, file, joined, making, port, project, serve, show, top};

use clap::{Arg, ArgAction, Command};
use std::alloc::{AllocError, Global};

fn file_arg<'a>(alloc: Global) -> Arg<'a>
    ensures rule { rule_of result ≡ file }
    ensures local { result.global ≡ false }
{
    Arg::new(alloc, "file").action(ArgAction::Set)
}

fn change_arg<'a>(alloc: Global) -> Arg<'a>
    ensures rule { rule_of result ≡ change }
    ensures local { result.global ≡ false }
{
    Arg::new(alloc, "change")
        .long("change")
        .action(ArgAction::Set)
}

fn project_arg<'a>(alloc: Global) -> Arg<'a>
    ensures rule { rule_of result ≡ project }
    ensures local { result.global ≡ false }
{
    Arg::new(alloc, "project")
        .long("project")
        .action(ArgAction::Set)
}

fn branch_arg<'a>(alloc: Global) -> Arg<'a>
    ensures rule { rule_of result ≡ branch }
    ensures local { result.global ≡ false }
{
    Arg::new(alloc, "branch")
        .long("branch")
        .action(ArgAction::Set)
}

fn port_arg<'a>(alloc: Global) -> Arg<'a>
    ensures rule { rule_of result ≡ port }
    ensures local { result.global ≡ false }
{
    Arg::new(alloc, "port").long("port").action(ArgAction::Set)
}

fn count_arg<'a>(alloc: Global) -> Arg<'a>
    ensures rule { rule_of result ≡ count }
    ensures local { result.global ≡ false }
{
    Arg::new(alloc, "count")
        .long("count")
        .action(ArgAction::Set)
}

/// The command with an argument more, if there is a command.
fn with_arg<'a>(
    command: Result<Command<'a>, AllocError>,
    arg: Arg<'a>,
) -> Result<Command<'a>, AllocError>
    ensures { arg.entry.global ≡ false → (a : App) → Makes a command.entry → Makes (with_rule a (rule_of arg.entry)) result }
{
    command?.arg(arg)
}

/// The program with a command more, if there are both.
fn with_command<'a>(
    program: Result<Command<'a>, AllocError>,
    command: Result<Command<'a>, AllocError>,
) -> Result<Command<'a>, AllocError>
    ensures { (a b : App) → Makes a program.entry → Makes b command.entry → Makes (with_subcommand a b.top) result }
{
    let program = program?;
    let command = command?;
    program.subcommand(command)
}

/// A command of a name, on a file.
fn command_on_file<'a>(alloc: Global, name: &'a str) -> Result<Command<'a>, AllocError>
    ensures { Makes (with_rule (new_app name.now) file) result }
{
    Command::new(alloc, name).arg(file_arg(alloc))
}

fn serve_command<'a>(alloc: Global) -> Result<Command<'a>, AllocError>
    ensures { Makes serve result }
{
    let with_file = command_on_file(alloc, "serve");
    let with_port = with_arg(with_file, port_arg(alloc));
    with_arg(with_port, count_arg(alloc))
}

fn show_command<'a>(alloc: Global) -> Result<Command<'a>, AllocError>
    ensures { Makes show result }
{
    let with_file = command_on_file(alloc, "show");
    with_arg(with_file, change_arg(alloc))
}

fn joined_command<'a>(alloc: Global) -> Result<Command<'a>, AllocError>
    ensures { Makes joined result }
{
    let with_file = command_on_file(alloc, "joined");
    let with_project = with_arg(with_file, project_arg(alloc));
    with_arg(with_project, branch_arg(alloc))
}

fn top_command<'a>(alloc: Global) -> Command<'a>
    ensures { Makes top (Ok result) }
{
    Command::new(alloc, "review_desk")
        .no_binary_name(true)
        .subcommand_required(true)
        .disable_help_subcommand(true)
}

/// The program with the commands that make a desk, or make it one of version 3.
fn making_command<'a>(alloc: Global) -> Result<Command<'a>, AllocError>
    ensures { Makes making result }
{
    let with_init = with_command(Ok(top_command(alloc)), command_on_file(alloc, "init"));
    with_command(with_init, command_on_file(alloc, "migrate"))
}

/// The program with the commands that may change a desk.
fn changing_command<'a>(alloc: Global) -> Result<Command<'a>, AllocError>
    ensures { Makes changing result }
{
    let with_apply = with_command(making_command(alloc), command_on_file(alloc, "apply"));
    with_command(with_apply, serve_command(alloc))
}

/// The program with all its commands.
pub fn desk_command<'a>(alloc: Global) -> Result<Command<'a>, AllocError>
    ensures { Makes desk result }
{
    let with_show = with_command(changing_command(alloc), show_command(alloc));
    with_command(with_show, joined_command(alloc))
}
