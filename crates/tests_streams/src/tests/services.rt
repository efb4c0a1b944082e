//! Services over streams that fail, and what is told where a stream fails.

use crate::tests::program::run_over;
use crate::tests::same::same_at;
use dine_cli::{CliFault, Ended, Listener, Remark, Silence, run_resumed, run_serve};
use tests_kit::{FailingReader, FailingWriter, LIMITS, Machine};

const JOINS: &[u8] = b"0 join\n0 join\n0 join\n";

const HEADER: &[u8] = b"dine 2 64 256\n";

const ONE_JOINED: &[u8] = b"dine 2 64 256\n0 join -> joined 0.0\n";

const TWO_JOINED: &[u8] = b"dine 2 64 256\n0 join -> joined 0.0\n0 join -> joined 1.1\n";

const ALL_JOINED: &[u8] =
    b"dine 2 64 256\n0 join -> joined 0.0\n0 join -> joined 1.1\n0 join -> joined 2.2\n";

// How many bytes a read gives and how many reads there are before one fails, the same of writes, how the service ends, and
// what is written then.
type Row = (
    (usize, u32),
    (usize, u32),
    Result<Ended, CliFault>,
    &'static [u8],
);

const ALL: (usize, u32) = (1024, 1000);

const ROWS: [Row; 7] = [
    ((7, 0), ALL, Err(CliFault::Read), HEADER),
    ((7, 1), ALL, Err(CliFault::Read), ONE_JOINED),
    ((6, 1), ALL, Err(CliFault::Read), HEADER),
    ((10, 1), ALL, Err(CliFault::Read), ONE_JOINED),
    ((1, 14), ALL, Err(CliFault::Read), TWO_JOINED),
    ((7, 1000), (1024, 2), Err(CliFault::Write), ONE_JOINED),
    ((2, 1000), (3, 1000), Ok(Ended::Good), ALL_JOINED),
];

fn check_service(rt: &impl Machine, place: usize, row: &Row) {
    let ((given, reads), (taken, writes), wanted, written) = *row;
    let mut reader = FailingReader::new(JOINS, given, reads);
    let mut writer = FailingWriter::new(taken, writes);
    let ended = run_serve(rt.alloc(), &mut reader, &mut writer, LIMITS, None);
    same_at(rt, "the end", place, ended, wanted);
    same_at(rt, "the output", place, writer.written(), written);
    let failed = u32::from(wanted == Err(CliFault::Write));
    same_at(rt, "the failures", place, writer.failures, failed);
}

// What was heard is answered before each read, and a failed write ends all.
#[test]
fn a_failed_stream_ends_a_service(rt: HostRuntime) {
    for (place, row) in ROWS.iter().enumerate() {
        check_service(&rt, place, row);
    }
}

// How many reads of the journal there are before one fails, and how many of the lines; and what is written then.
const RESUMED: [(u32, u32, &[u8]); 4] = [
    (0, 1000, b""),
    (4, 1000, b""),
    (1000, 0, b""),
    (1000, 1, b"0 join -> joined 1.1\n"),
];

// A read of the journal fails before anything is written, and one of the lines once all that were heard are answered.
fn check_resumed(rt: &impl Machine, place: usize, first: u32, then: u32, written: &[u8]) {
    let mut writer = FailingWriter::new(1024, 1000);
    let ended = run_resumed(
        rt.alloc(),
        &mut FailingReader::new(ONE_JOINED, 7, first),
        &mut FailingReader::new(JOINS, 7, then),
        &mut writer,
        None,
        &mut Silence,
    );
    same_at(rt, "the end", place, ended, Err(CliFault::Read));
    same_at(rt, "the output", place, writer.written(), written);
}

#[test]
fn a_failed_read_ends_what_goes_on(rt: HostRuntime) {
    for (place, (first, then, written)) in RESUMED.iter().enumerate() {
        check_resumed(&rt, place, *first, *then, written);
    }
}

// Whoever counts what it is told.
#[derive(Drop)]
struct Counts {
    remarks: usize,
}

impl Listener for Counts {
    fn tell(&mut self, _remark: &Remark) {
        self.remarks = self.remarks.saturating_add(1);
    }
}

const BROKEN: &[u8] = b"dine 2 64 256\nhungri a\n";

// A command line, and an input that has a fault.
type Faulty = (&'static [&'static str], &'static [u8]);

const FAULTY: [Faulty; 7] = [
    (&["hygienic", "run"], b"hungri a\nhungri b\n"),
    (&["hygienic", "race"], b"setup = []\n\n\n\n\n\n"),
    (&["hygienic", "audit"], BROKEN),
    (&["hygienic", "audit", "--long"], BROKEN),
    (&["hygienic", "chart"], BROKEN),
    (&["hygienic", "chart", "--trace"], BROKEN),
    (&["hygienic", "chart", "--dot"], BROKEN),
];

// Runs a command whose reads give so many bytes and fail after so many, and whose writes fail after one of three bytes: nothing
// is told.
fn check_untold(rt: &impl Machine, place: usize, row: &Faulty, most: usize, reads: u32) {
    let (words, input) = *row;
    let mut reader = FailingReader::new(input, most, reads);
    let mut writer = FailingWriter::new(3, 1);
    let counts = Counts { remarks: 0 };
    let (status, counts) = run_over(rt, words, &mut reader, &mut writer, counts);
    same_at(rt, "the end", place, (status, counts.remarks), (3, 0));
}

// Of an input that can't be read nothing is told: why the run gave up is the host's to tell. Of a script nothing is told
// before its output is written.
#[test]
fn nobody_is_told_of_what_is_not_read_or_answered(rt: HostRuntime) {
    for (place, row) in FAULTY.iter().enumerate() {
        check_untold(&rt, place, row, 9, 1);
    }
    check_untold(&rt, 0, &FAULTY[0], 100, 10);
}
