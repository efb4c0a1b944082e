//! Scripts, audits and races to which one growth is refused. Each test is an ordinary run where memory is ample;
//! `.ci/refused-growth` runs it over and over, and refuses its first growth, its second, and so on, until a run meets no
//! refusal. What was written where memory ran out is whole lines from the front of the output. It does so with the program
//! too.

mod order;

use crate::tests::engine::Engine;
use crate::tests::same::same;
use dine_cli::{CliFault, Ended, Print};
use dine_words::Marked;
use tests_kit::{FailingWriter, JOURNAL, Machine, REPLIES, SCRIPT};

// A command, its input, how it ends, and the output.
type Row = (Engine, &'static str, Ended, &'static str);

const SCRIPTS: [Row; 2] = [
    (Engine::Script(Print::Replies), SCRIPT, Ended::Good, REPLIES),
    (Engine::Script(Print::Journal), SCRIPT, Ended::Good, JOURNAL),
];

const VERDICT: &str = "legal 9\novertakes 0\n";

const AUDITS: [Row; 2] = [
    (Engine::Audit, JOURNAL, Ended::Good, VERDICT),
    (Engine::LongAudit, JOURNAL, Ended::Good, VERDICT),
];

// Nobody waits for a worker without memory, and a check that a scenario fails is told in one line or not at all.
const RACES: [Row; 4] = [
    (
        Engine::Race,
        "setup = ['join a', 'join b', 'conflict a b']\n\
        worker = [{ repeat = 100, steps = ['eat a'] }, { repeat = 100, steps = ['eat b'] }]\n",
        Ended::Good,
        "workers 2\ncalls 603\nmeals a 100\nmeals b 100\nsettled\n",
    ),
    // Workers who join, look and leave.
    (
        Engine::Race,
        "setup = ['join a', 'join b', 'conflict a b']\n\
        [[worker]]\nrepeat = 5\nsteps = ['eat a']\n\
        [[worker]]\nrepeat = 5\nsteps = ['join c', 'eat b', 'look a', 'leave c']\n",
        Ended::Good,
        "workers 2\ncalls 43\nmeals a 5\nmeals b 5\nsettled\n",
    ),
    // A worker waits for a meal of the setup that another ends. Where the other can't be started, or finds no memory for
    // its call, nobody else ends that meal.
    (
        Engine::Race,
        "setup = ['join a', 'join b', 'conflict a b', 'hungry a', 'begin a']\n\
        [[worker]]\nsteps = ['eat b']\n[[worker]]\nsteps = ['finish a']\n",
        Ended::Good,
        "workers 2\ncalls 9\nmeals a 1\nmeals b 1\nsettled\n",
    ),
    (
        Engine::Race,
        "setup = ['join a', 'hungry b']\n[[worker]]\nsteps = ['eat a']\n",
        Ended::Fault,
        "fault setup 2 unbound\n",
    ),
];

// Whether this may have been written where memory ran out, a worker's too: of a script whole lines, and else nothing.
fn is_lawful(engine: Engine, writer: &FailingWriter, output: &[u8]) -> bool {
    match engine {
        Engine::Script(_) => writer.holds_lines_of(output),
        _ => writer.written().is_empty(),
    }
}

// Runs the command of a row. Where memory runs out, it is run again.
fn check_row(rt: &impl Machine, row: &Row) {
    let (engine, input, wanted, output) = *row;
    let (input, output) = (input.as_bytes(), output.as_bytes());
    let mut writer = FailingWriter::new(1024, 100);
    let mut ended = engine.run(rt, &mut Marked::new(input), &mut writer);
    if ended == Err(CliFault::Memory) {
        assert!(rt; is_lawful(engine, &writer, output));
        writer = FailingWriter::new(1024, 100);
        ended = engine.run(rt, &mut Marked::new(input), &mut writer);
    }
    same(rt, ended, Ok(wanted));
    same(rt, writer.written(), output);
}

#[test]
fn a_script_is_run_again(rt: HostRuntime) {
    for row in &SCRIPTS {
        check_row(&rt, row);
    }
}

#[test]
fn an_audit_is_run_again(rt: HostRuntime) {
    for row in &AUDITS {
        check_row(&rt, row);
    }
}

#[test]
fn a_race_ends_and_is_run_again(rt: HostRuntime) {
    for row in &RACES {
        check_row(&rt, row);
    }
}
