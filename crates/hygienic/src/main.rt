//! The program `hygienic`: hands its words, its streams and its files to [`dine_cli::run_words`], which does the rest. At a
//! terminal it tells who waits in a race.
#![tactic(auto)]

mod machine;
mod person;
mod scenario_text;
#[cfg(test)]
mod tests;
mod waiting;
mod watch;

use crate::machine::Machine;
use crate::person::Person;
use crate::scenario_text::Kept;
use crate::watch::Watch;
use dine_cli::{Gate, NoGate, run_words};
use dine_command_line::{Failures, Noting, Process, ProcessLine, Telling, seed};
use dine_words::Marked;
use std::io::{IsTerminal, Stderr, Stdin, Stdout};
use std::process::ExitCode;
use std::rt::Files;
use std::thread;

// The streams of the process, and what its people are told.
#[derive(Drop)]
struct Streams {
    input: Stdin,
    output: Stdout,
    telling: Telling,
}

// Does what the command line asks for, and answers the exit status. Each step of a race goes through the gate. The watch is
// shown the scenario.
fn run<T: Machine + Files, G: Gate + Sync>(
    rt: &T,
    line: ProcessLine,
    streams: Streams,
    gate: &G,
    watch: Option<&Watch>,
) -> u8 {
    let Streams {
        input,
        output,
        telling,
    } = streams;
    let failures = Failures::none();
    let is_typed = input.is_terminal();
    let process = Process::new(rt, telling, &failures, is_typed);
    let mut host = Person::new(process, watch);
    let mut reader = Marked::new(Kept::new(Noting::new(input, &failures.read), watch));
    let mut writer = Marked::new(Noting::new(output, &failures.write));
    run_words(
        rt,
        rt.alloc(),
        line,
        &mut reader,
        &mut writer,
        &mut host,
        gate,
        seed(rt),
    )
}

// Does so while a person watches. If no thread can be started, or there is no memory for the watch, nobody does.
fn run_watched<T: Machine + Files>(
    rt: &T,
    line: ProcessLine,
    streams: Streams,
    terminal: Stderr,
) -> u8 {
    let Ok(watch) = Watch::new(rt.alloc(), terminal, seed(rt)) else {
        return run(rt, line, streams, &NoGate, None);
    };
    let watch = &watch;
    thread::scope(thread::scope_env(), rt, |scope| {
        let _ = scope.spawn(move || watch.watch(rt));
        let status = run(rt, line, streams, watch, Some(watch));
        watch.end();
        status
    })
}

fn main(rt: HostRuntime) -> ExitCode {
    let line = ProcessLine::of(&rt);
    let telling = Telling::new(rt.alloc(), rt.stderr());
    let is_watched = line.begins_with("race") && telling.is_watched();
    let streams = Streams {
        input: rt.stdin(),
        output: rt.stdout(),
        telling,
    };
    let status = if is_watched {
        run_watched(&rt, line, streams, rt.stderr())
    } else {
        run(&rt, line, streams, &NoGate, None)
    };
    ExitCode::from(status)
}
