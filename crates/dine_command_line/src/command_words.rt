//! What the words of a command line ask for.

use crate::chart::{chart_asked, chart_command};
use crate::help::{
    ABOUT, ABOUT_AUDIT, ABOUT_RACE, ABOUT_RUN, ABOUT_SERVE, AUDIT_LINES, FILE_HELP, FIRST_SCRIPT,
    JOURNAL_HELP, LONG_HELP, PASSES_HELP, QUIET_HELP, RESUME_HELP, SCENARIO_KEYS, SCRIPT_LINES,
    SERVED_LINES, VERSION,
};
use crate::limits::{DefaultLimits, limit, limits_of, with_limits};
use crate::request::{Asked, Input, Request};
use clap::error::ErrorKind;
use clap::{Arg, ArgAction, ArgMatches, Command, Error};
use dine_lines::Print;
use dine_words::{Limits, MAX_NUMBERED_PASSES};
use std::alloc::{AllocError, Global};
use std::convert::AsStr;

/// What the words ask for, of which the first is the program's name. An error is want of memory.
pub fn read_words<S: AsStr>(alloc: Global, words: &[S]) -> Result<Request, AllocError> {
    let defaults = DefaultLimits::new(alloc)?;
    match program(alloc, &defaults)?.try_get_matches_from(words) {
        Ok(matches) => request_by(alloc, &matches),
        Err(error) => Ok(Request {
            asked: asked_instead(alloc, &error)?,
            input: Input::Standard,
            is_quiet: false,
        }),
    }
}

// The program with its subcommands.
fn program<'a>(alloc: Global, defaults: &'a DefaultLimits) -> Result<Command<'a>, AllocError> {
    let program = Command::new(alloc, "hygienic")
        .version(VERSION)
        .about(ABOUT)
        .after_help(FIRST_SCRIPT)
        .subcommand_required(true);
    let program = with_subcommand(program, run_command(alloc, defaults))?;
    let program = with_subcommand(program, race_command(alloc))?;
    let program = with_subcommand(program, audit_command(alloc))?;
    let program = with_subcommand(program, serve_command(alloc, defaults))?;
    with_subcommand(program, chart_command(alloc))
}

// The program with one more subcommand, if there is memory for both.
fn with_subcommand<'a>(
    program: Command<'a>,
    subcommand: Result<Command<'a>, AllocError>,
) -> Result<Command<'a>, AllocError> {
    program.subcommand(subcommand?)
}

// The subcommand that carries a script out.
fn run_command<'a>(alloc: Global, defaults: &'a DefaultLimits) -> Result<Command<'a>, AllocError> {
    let run = described(alloc, "run", ABOUT_RUN, SCRIPT_LINES);
    let run = with_limits(alloc, run, defaults)?;
    with_a_flag(alloc, run, "journal", JOURNAL_HELP)
}

// The subcommand that runs a scenario.
fn race_command<'a>(alloc: Global) -> Result<Command<'a>, AllocError> {
    let race = described(alloc, "race", ABOUT_RACE, SCENARIO_KEYS);
    with_a_flag(alloc, race, "journal", JOURNAL_HELP)
}

// The subcommand that audits a journal.
fn audit_command<'a>(alloc: Global) -> Result<Command<'a>, AllocError> {
    let audit = described(alloc, "audit", ABOUT_AUDIT, AUDIT_LINES);
    with_a_flag(alloc, audit, "long", LONG_HELP)
}

// The subcommand that answers lines as they come.
fn serve_command<'a>(
    alloc: Global,
    defaults: &'a DefaultLimits,
) -> Result<Command<'a>, AllocError> {
    let serve = described(alloc, "serve", ABOUT_SERVE, SERVED_LINES);
    let serve = with_limits(alloc, serve, defaults)?
        .arg(passes(alloc))?
        .arg(resume(alloc)?)?;
    over_a_file(alloc, serve)
}

// The option that says how many passes may ask, and gives their requests numbers.
fn passes<'a>(alloc: Global) -> Arg<'a> {
    limit(alloc, "passes", MAX_NUMBERED_PASSES, PASSES_HELP)
}

// The option that names a journal to go on with, whose limits are the journal's.
fn resume<'a>(alloc: Global) -> Result<Arg<'a>, AllocError> {
    valued(alloc, "resume", "JOURNAL", RESUME_HELP)
        .conflicts_with("tasks")?
        .conflicts_with("conflicts")
}

/// A subcommand of which the help says this, above its options and below them.
pub(crate) fn described<'a>(
    alloc: Global,
    name: &'a str,
    about: &'a str,
    lines: &'a str,
) -> Command<'a> {
    Command::new(alloc, name).about(about).after_help(lines)
}

// A subcommand that reads a file, with one more option without a value.
fn with_a_flag<'a>(
    alloc: Global,
    command: Command<'a>,
    name: &'a str,
    help: &'a str,
) -> Result<Command<'a>, AllocError> {
    let command = command.arg(flag(alloc, name, help))?;
    over_a_file(alloc, command)
}

/// A subcommand that reads a file, and that can be told to be quiet.
pub(crate) fn over_a_file<'a>(
    alloc: Global,
    command: Command<'a>,
) -> Result<Command<'a>, AllocError> {
    let file = Arg::new(alloc, "file").value_name("FILE").help(FILE_HELP);
    command
        .arg(flag(alloc, "quiet", QUIET_HELP).short('q'))?
        .arg(file)
}

/// An option with a value, which its help calls so.
pub(crate) fn valued<'a>(alloc: Global, name: &'a str, value: &'a str, help: &'a str) -> Arg<'a> {
    Arg::new(alloc, name)
        .long(name)
        .value_name(value)
        .help(help)
}

/// An option without a value.
pub(crate) fn flag<'a>(alloc: Global, name: &'a str, help: &'a str) -> Arg<'a> {
    Arg::new(alloc, name)
        .long(name)
        .action(ArgAction::SetTrue)
        .help(help)
}

// What a command line asks for that was read.
fn request_by(alloc: Global, matches: &ArgMatches) -> Result<Request, AllocError> {
    let Some((name, options)) = matches.subcommand() else {
        return Ok(Request {
            asked: Asked::Nothing(String::new(alloc)),
            input: Input::Standard,
            is_quiet: false,
        });
    };
    Ok(Request {
        asked: asked_by(alloc, name, options)?,
        input: input_of(alloc, options)?,
        is_quiet: options.get_flag("quiet"),
    })
}

// What a subcommand asks for with its options.
fn asked_by(alloc: Global, name: &str, options: &ArgMatches) -> Result<Asked, AllocError> {
    match (name, limits_of(options)) {
        ("run", Some(limits)) => Ok(Asked::Run(limits, print_of(options))),
        ("race", _) => Ok(Asked::Race(print_of(options))),
        ("audit", _) => Ok(audit_by(options)),
        ("serve", Some(limits)) => serve_by(alloc, limits, options),
        ("chart", _) => chart_asked(alloc, options),
        _ => Ok(Asked::Nothing(String::new(alloc))),
    }
}

// Which service the options ask for.
fn serve_by(alloc: Global, limits: Limits, options: &ArgMatches) -> Result<Asked, AllocError> {
    let passes = options.get_one::<u32>("passes");
    match options.get_str("resume") {
        Some(path) => Ok(Asked::Resume(String::from_str(alloc, path)?, passes)),
        None => Ok(Asked::Serve(limits, passes)),
    }
}

// Which audit the options ask for.
fn audit_by(options: &ArgMatches) -> Asked {
    if options.get_flag("long") {
        Asked::AuditLong
    } else {
        Asked::Audit
    }
}

// What the options want to be read.
fn input_of(alloc: Global, options: &ArgMatches) -> Result<Input, AllocError> {
    match options.get_str("file") {
        Some("-") | None => Ok(Input::Standard),
        Some(path) => Ok(Input::File(String::from_str(alloc, path)?)),
    }
}

// What the options ask a run to write.
fn print_of(matches: &ArgMatches) -> Print {
    if matches.get_flag("journal") {
        Print::Journal
    } else {
        Print::Replies
    }
}

// What a command line asks for that was not read: help, the version, or nothing that there is.
fn asked_instead(alloc: Global, error: &Error) -> Result<Asked, AllocError> {
    match error.kind() {
        ErrorKind::OutOfMemory => Err(AllocError),
        ErrorKind::DisplayHelp | ErrorKind::DisplayVersion => {
            Ok(Asked::Help(error.to_string(alloc)?))
        }
        _ => Ok(Asked::Nothing(error.to_string(alloc)?)),
    }
}
