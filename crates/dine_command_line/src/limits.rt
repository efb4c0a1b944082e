//! The options that set limits, which several subcommands have.

use crate::command_words::valued;
use crate::help::{CONFLICTS_HELP, TASKS_HELP};
use clap::{Arg, ArgMatches, Command, value_parser};
use dine_words::{DEFAULT_CONFLICTS, DEFAULT_TASKS, Limits, MAX_CONFLICTS, MAX_TASKS};
use std::alloc::{AllocError, Global};

/// The limits where no option sets them, as the texts that the options take.
#[derive(Drop)]
pub(crate) struct DefaultLimits {
    tasks: String,
    conflicts: String,
}

impl DefaultLimits {
    /// Those that a scenario has, too, where it sets none.
    pub(crate) fn new(alloc: Global) -> Result<DefaultLimits, AllocError> {
        Ok(DefaultLimits {
            tasks: DEFAULT_TASKS.to_string(alloc)?,
            conflicts: DEFAULT_CONFLICTS.to_string(alloc)?,
        })
    }
}

/// A subcommand with the options that set limits.
pub(crate) fn with_limits<'a>(
    alloc: Global,
    command: Command<'a>,
    defaults: &'a DefaultLimits,
) -> Result<Command<'a>, AllocError> {
    let tasks = limit(alloc, "tasks", MAX_TASKS, TASKS_HELP);
    let command = with_default(command, tasks, &defaults.tasks)?;
    let conflicts = limit(alloc, "conflicts", MAX_CONFLICTS, CONFLICTS_HELP);
    with_default(command, conflicts, &defaults.conflicts)
}

// The subcommand with one more option, which has this value where the command line doesn't set it.
fn with_default<'a>(
    command: Command<'a>,
    option: Arg<'a>,
    value: &'a str,
) -> Result<Command<'a>, AllocError> {
    command.arg(option.default_value(value))
}

/// An option for a limit, from 1 to the most.
pub(crate) fn limit<'a>(alloc: Global, name: &'a str, most: u32, help: &'a str) -> Arg<'a> {
    valued(alloc, name, "N", help).value_parser(value_parser!(u32).range(1..=i64::from(most)))
}

/// The limits that the options set.
pub(crate) fn limits_of(matches: &ArgMatches) -> Option<Limits> {
    let tasks = matches.get_one::<u32>("tasks")?;
    let conflicts = matches.get_one::<u32>("conflicts")?;
    Limits::new(tasks, conflicts)
}
