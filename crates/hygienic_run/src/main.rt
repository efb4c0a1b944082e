//! The program `hygienic` as far as scripts need it: its command `run`, its help and its version. `./hygienic` proves and
//! builds it for whoever runs a script first, since the whole program takes much longer to prove.
#![tactic(auto)]

mod program;

use crate::program::run_words;
use dine_command_line::{Failures, Noting, Process, ProcessLine, Telling, seed};
use dine_words::Marked;
use std::io::IsTerminal;
use std::process::ExitCode;

fn main(rt: HostRuntime) -> ExitCode {
    let (input, output) = (rt.stdin(), rt.stdout());
    let failures = Failures::none();
    let telling = Telling::new(rt.alloc(), rt.stderr());
    let is_typed = input.is_terminal();
    let status = run_words(
        rt.alloc(),
        ProcessLine::of(&rt),
        &mut Marked::new(Noting::new(input, &failures.read)),
        &mut Marked::new(Noting::new(output, &failures.write)),
        &mut Process::new(&rt, telling, &failures, is_typed),
        seed(&rt),
    );
    ExitCode::from(status)
}
