//! Writes that fail, of many bytes too: none is tried again, and nothing is written behind it.

use crate::tests::program::{run_over, text_of};
use crate::tests::same::same_at;
use dine_cli::Silence;
use dine_words::Marked;
use tests_kit::{FailingWriter, Machine};

// The words of a command line, and the parts of an input: its front, and what stands there over and over, how often.
type Row = (&'static [&'static str], &'static [u8], &'static [u8], usize);

const JOINED: &[u8] = b"dine 2 64 256\n0 join -> joined 0.0\n";

const MEAL: &[u8] = b"0 hungry 0.0 -> done\n0 begin 0.0 -> done\n0 finish 0.0 -> done\n";

const MEAL_LINES: &[u8] = b"hungry a\nbegin a\nfinish a\n";

const SCENARIO: &[u8] = b"[[worker]]\nrepeat = 2\nsteps = ['join x', 'eat x', 'leave x']\n";

const ROWS: [Row; 10] = [
    (&["hygienic", "run"], b"join a\n", b"state a\n", 12_000),
    (&["hygienic", "run"], b"join a\n", b"neighbours a\n", 8_000),
    (
        &["hygienic", "run", "--journal"],
        b"join a\n",
        MEAL_LINES,
        5_000,
    ),
    (&["hygienic", "race"], SCENARIO, b"", 0),
    (&["hygienic", "audit"], JOINED, MEAL, 2_000),
    (&["hygienic", "audit", "--long"], JOINED, MEAL, 2_000),
    (&["hygienic", "chart"], JOINED, MEAL, 100),
    (&["hygienic", "chart", "--html"], JOINED, MEAL, 100),
    (&["hygienic", "chart", "--trace"], JOINED, MEAL, 1_000),
    (&["hygienic", "serve"], b"0 join\n", b"state 0.0\n", 10_000),
];

// Lets a write fail: the program ends with 3 then, and tries no other. Each run has a first write, and more than two of one
// byte.
fn check_write(rt: &impl Machine, row: &Row, input: &[u8], most: usize, writes: u32) {
    let mut writer = FailingWriter::new(most, writes);
    let (status, _) = run_over(rt, row.0, &mut Marked::new(input), &mut writer, Silence);
    let failures = u32::from(status == 3);
    same_at(rt, "the failures", most, writer.failures, failures);
    if failures > 0 {
        same_at(rt, "the writes", most, writer.writes, writes);
    } else {
        assert!(rt; writes > 0 && most > 1);
    }
}

#[test]
fn a_write_that_fails_is_not_tried_again(rt: HostRuntime) {
    for row in &ROWS {
        let (_, front, part, times) = *row;
        let input = text_of(rt.alloc(), front, part, times);
        let input = input.ok().expect(&rt, "memory");
        for most in [1, 65_536, 10_000_000] {
            for writes in 0..3 {
                check_write(&rt, row, &input, most, writes);
            }
        }
    }
}
