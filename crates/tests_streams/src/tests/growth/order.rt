//! A read that fails is told before want of memory, whatever memory failed. Each test is an ordinary run where memory is
//! ample, as those of `growth` are.

use crate::tests::engine::Engine;
use crate::tests::program::run_over;
use crate::tests::same::same;
use dine_cli::{CliFault, CommandLine, Ended, Print, Request, Silence};
use std::alloc::{AllocError, Global};
use tests_kit::{FailingReader, FailingWriter, JOURNAL, Machine, SCRIPT};

const SCENARIO: &str = "setup = ['join a', 'join b', 'conflict a b']\n\
    worker = [{ steps = ['eat a'] }, { steps = ['eat b'] }]\n";

// So many bytes come at once, and so many reads succeed at most: fewer than any of the inputs takes.
const PART: usize = 32;

const MOST_READS: u32 = 3;

// Nothing is written but an answer that comes before the failed read.
const MANY: u32 = 100;

// What an engine answers over a reader that gives so many bytes at once, and fails after so many reads. It is asked once.
fn answer_of(
    rt: &impl Machine,
    engine: Engine,
    input: &[u8],
    part: usize,
    reads: u32,
) -> Result<Ended, CliFault> {
    let mut reader = FailingReader::new(input, part, reads);
    engine.run(rt, &mut reader, &mut FailingWriter::new(1024, MANY))
}

// Words that are read again if memory runs out.
#[derive(Drop)]
struct ReadAgain {
    words: &'static [&'static str],
}

impl CommandLine for ReadAgain {
    ghost asks = { λ _ _. Unit {0} };

    fn read(self, alloc: Global) -> Result<Request, AllocError> {
        self.words.read(alloc).or_else(|_| self.words.read(alloc))
    }
}

// A command line, and an input.
type Row = (&'static [&'static str], &'static str);

const ROWS: [Row; 8] = [
    (&["hygienic", "run"], SCRIPT),
    (&["hygienic", "run", "--journal"], SCRIPT),
    (&["hygienic", "race"], SCENARIO),
    (&["hygienic", "audit"], JOURNAL),
    (&["hygienic", "audit", "--long"], JOURNAL),
    (&["hygienic", "chart"], JOURNAL),
    (&["hygienic", "chart", "--trace"], JOURNAL),
    (&["hygienic", "chart", "--dot"], JOURNAL),
];

// The program ends with 3 then, after a last line.
#[test]
fn a_failed_read_is_told_first(rt: HostRuntime) {
    for (words, input) in &ROWS {
        for reads in 0..=MOST_READS {
            let mut reader = FailingReader::new(input.as_bytes(), PART, reads);
            let mut writer = FailingWriter::new(1024, MANY);
            let words = ReadAgain { words: *words };
            let (status, _) = run_over(&rt, words, &mut reader, &mut writer, Silence);
            same(&rt, status, 3);
            same(&rt, writer.written(), b"fault read\n".as_slice());
        }
    }
}

// A comment of one line, for which there is room after so many reads of so many bytes only if it grows.
const COMMENT_BYTES: usize = 400_000;

const LARGE_PART: usize = 65_536;

const ROOMY_READS: u32 = 4;

fn comment(alloc: Global) -> Result<Vec<u8>, AllocError> {
    vec![in alloc; b'#'; COMMENT_BYTES]
}

#[test]
fn a_read_that_fails_where_room_grows_is_told_first(rt: HostRuntime) {
    let text = comment(rt.alloc()).or_else(|_| comment(rt.alloc()));
    let text = text.ok().expect(&rt, "one growth is refused at most");
    for engine in [Engine::Script(Print::Replies), Engine::Race] {
        for reads in ROOMY_READS..ROOMY_READS + 2 {
            let ended = answer_of(&rt, engine, &text, LARGE_PART, reads);
            same(&rt, ended, Err(CliFault::Read));
        }
    }
}

// The second line is wrong.
const WRONG: &[u8] = b"dine 2 64 256\n0 begin 0.0 -> done\n0 join -> joined 0.0\n\
    0 hungry 0.0 -> done\n0 begin 0.0 -> done\n0 finish 0.0 -> done\n";

// A long audit has its answer at the wrong line, and reads on only where memory runs out.
#[test]
fn a_long_audit_tells_a_failed_read_behind_its_answer_first(rt: HostRuntime) {
    for reads in 0..=MOST_READS {
        let ended = answer_of(&rt, Engine::LongAudit, WRONG, PART, reads);
        if ended != Err(CliFault::Read) {
            same(&rt, ended, Ok(Ended::Wrong));
        }
    }
}
