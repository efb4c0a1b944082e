//! What the options of `chart` ask for.

use crate::command_words::{described, flag, over_a_file, valued};
use crate::help::{
    ABOUT_CHART, CHART_LINES, DOT_HELP, FROM_HELP, HTML_HELP, NAME_HELP, SVG_HELP, TO_HELP,
    TRACE_HELP,
};
use crate::request::{Asked, Chart, Graph, Trace};
use clap::{Arg, ArgAction, ArgMatches, Command, value_parser};
use dine_lines::{Form, Label};
use dine_words::Task;
use std::alloc::{AllocError, Global};

// The most characters of a name that is given for a task: so many stand beside a lane.
const MOST_LETTERS: usize = 16;

/// The subcommand with its options.
pub(crate) fn chart_command<'a>(alloc: Global) -> Result<Command<'a>, AllocError> {
    let chart = described(alloc, "chart", ABOUT_CHART, CHART_LINES)
        .arg(form(alloc, "svg", SVG_HELP)?)?
        .arg(form(alloc, "html", HTML_HELP)?)?
        .arg(form(alloc, "trace", TRACE_HELP)?)?
        .arg(form(alloc, "dot", DOT_HELP)?)?;
    over_a_file(alloc, with_lines_and_names(alloc, chart)?)
}

// An option that says what is written. The last one counts.
fn form<'a>(alloc: Global, name: &'a str, help: &'a str) -> Result<Arg<'a>, AllocError> {
    flag(alloc, name, help).overrides_with_all(["svg", "html", "trace", "dot"].as_slice())
}

// The subcommand with the options for the lines that are drawn, and for the names of tasks.
fn with_lines_and_names<'a>(alloc: Global, chart: Command<'a>) -> Result<Command<'a>, AllocError> {
    chart
        .arg(line(alloc, "from", FROM_HELP))?
        .arg(line(alloc, "to", TO_HELP))?
        .arg(valued(alloc, "name", "T=TEXT", NAME_HELP).action(ArgAction::Append))
}

// An option for a line of the journal.
fn line<'a>(alloc: Global, name: &'a str, help: &'a str) -> Arg<'a> {
    valued(alloc, name, "N", help).value_parser(value_parser!(u64))
}

/// What a command line asks for whose subcommand has these options.
pub(crate) fn chart_asked(alloc: Global, options: &ArgMatches) -> Result<Asked, AllocError> {
    let from = options.get_one::<u64>("from").unwrap_or(0);
    let last = options.get_one::<u64>("to").unwrap_or(u64::MAX);
    if from > last {
        return nothing(alloc, "error: the line of --from is past that of --to");
    }
    if options.get_flag("dot") && options.get_one::<u64>("from").is_some() {
        return nothing(
            alloc,
            "error: --dot writes the table at one line, which --to gives: --from is of no use",
        );
    }
    let Some(labels) = labels_of(alloc, options)? else {
        return nothing(
            alloc,
            "error: --name is as 0.0=alice: a task, and a name of 1 to 16 characters",
        );
    };
    Ok(written_as(options, from, last, labels))
}

// What is asked for of the lines from the one to the other, with these names.
fn written_as(options: &ArgMatches, from: u64, last: u64, labels: Vec<Label>) -> Asked {
    let to = last.saturating_add(1);
    if options.get_flag("dot") {
        Asked::Graph(Graph { line: last, labels })
    } else if options.get_flag("trace") {
        Asked::Trace(Trace { from, to, labels })
    } else {
        let form = form_of(options);
        Asked::Chart(Chart {
            form,
            from,
            to,
            labels,
        })
    }
}

// It asks for nothing, for this reason.
fn nothing(alloc: Global, reason: &str) -> Result<Asked, AllocError> {
    Ok(Asked::Nothing(String::from_str(alloc, reason)?))
}

// What the picture is written as.
fn form_of(options: &ArgMatches) -> Form {
    if options.get_flag("html") {
        Form::Page
    } else {
        Form::Svg
    }
}

// The names that are given for tasks, or `None` if one of the words gives none. The last name of a task counts.
fn labels_of(alloc: Global, options: &ArgMatches) -> Result<Option<Vec<Label>>, AllocError> {
    let mut labels = Vec::new(alloc);
    if let Some(words) = options.get_strs("name") {
        for word in words {
            match label_of(alloc, *word)? {
                Some(label) => {
                    labels.retain(|known: &Label| known.task != label.task);
                    labels.push(label)?;
                }
                None => return Ok(None),
            }
        }
    }
    Ok(Some(labels))
}

// The name that a word gives for a task.
fn label_of(alloc: Global, word: &str) -> Result<Option<Label>, AllocError> {
    let Some((task, text)) = word.split_once('=') else {
        return Ok(None);
    };
    match task_of(task) {
        Some(task) if is_name(text) => Ok(Some(Label {
            task,
            text: Vec::from_slice(alloc, text.as_bytes())?,
        })),
        _ => Ok(None),
    }
}

// The task that a text names, as 0.0 does.
fn task_of(text: &str) -> Option<Task> {
    let (slot, born) = text.split_once('.')?;
    Some(Task {
        slot: slot.parse::<u32>().ok()?,
        born: born.parse::<u64>().ok()?,
    })
}

// Whether a text can stand beside a lane.
fn is_name(text: &str) -> bool {
    let letters = text.chars().count();
    letters >= 1 && letters <= MOST_LETTERS && !text.chars().any(|letter| letter.is_control())
}
