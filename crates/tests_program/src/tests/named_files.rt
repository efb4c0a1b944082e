//! A host that has files in memory: what it is asked for, and what it is told.

use crate::tests::program::words_of;
use crate::tests::same::same_in;
use dine_cli::{CliFault, Host, Listener, NoGate, Remark, Request, Seed, run_words};
use dine_words::{Marked, Sink};
use tests_kit::{FailingWriter, Machine};

// The names of files, and what they hold.
const FILES: [(&str, &[u8]); 3] = [
    ("script", b"join a\nhungry a\n"),
    ("journal", b"dine 2 64 256\n0 join -> joined 0.0\n"),
    ("lines", b"0 hungry 0.0\n"),
];

// Those files, and notes of what the host is asked for and told, in order.
#[derive(Drop)]
struct Memory {
    notes: FailingWriter,
}

impl Memory {
    fn new() -> Self {
        Memory {
            notes: FailingWriter::new(1024, 1000),
        }
    }

    fn note(&mut self, what: &str) {
        let _ = self.notes.write(what.as_bytes());
        let _ = self.notes.write(b"; ");
    }
}

impl Listener for Memory {
    fn tell(&mut self, _remark: &Remark) {
        self.note("remark");
    }
}

impl Host for Memory {
    ghost lacks = { λ _. Unit {0} };

    ghost holds = { λ _ _. Unit {0} };

    type File = Marked<&'static [u8]>;

    fn begin(&mut self, request: &Request) {
        self.note(if request.is_quiet { "quiet" } else { "begin" });
    }

    fn read_standard(&mut self) {
        self.note("standard");
    }

    fn open(&mut self, path: &str) -> Option<Marked<&'static [u8]>> {
        self.note(path);
        let file = FILES.iter().find(|file| file.0 == path)?;
        Some(Marked::new(file.1))
    }

    fn give_up(&mut self, fault: CliFault) {
        self.note(match fault {
            CliFault::Memory => "memory",
            CliFault::Read => "read",
            CliFault::Write => "write",
        });
    }
}

// What the reader has: a line that is served, and that no script has.
const INPUT: &[u8] = b"0 begin 0.0\n";

// Runs the program with these files: the status, and how many bytes of the reader are left.
fn run_to<W: Sink>(
    rt: &impl Machine,
    words: &str,
    writer: &mut W,
    host: &mut Memory,
) -> (u8, usize) {
    let mut reader = Marked::new(INPUT);
    let status = run_words(
        rt,
        rt.alloc(),
        words_of(rt, words).as_slice(),
        &mut reader,
        writer,
        host,
        &NoGate,
        Seed::fixed(),
    );
    (status, reader.into_inner().len())
}

// The words of a command line, the status, and the notes: that the run begins, each file that is to be opened or that the
// standard input is read, each remark, and why the run gives up. The journal is opened before the input, which isn't opened if
// there is no journal.
type Row = (&'static str, u8, &'static str);

const ROWS: [Row; 10] = [
    ("run", 2, "begin; standard; remark; "),
    ("run -q", 2, "quiet; standard; remark; "),
    ("run script", 0, "begin; script; "),
    ("run --journal script", 0, "begin; script; "),
    ("audit nobody", 3, "begin; nobody; read; "),
    ("serve --resume journal", 0, "begin; journal; standard; "),
    ("serve --resume journal lines", 0, "begin; journal; lines; "),
    ("serve --resume nobody", 3, "begin; nobody; read; "),
    ("serve --resume journal nobody", 3, RESUMED),
    // Words that ask for nothing are explained also to whoever wants quiet.
    (
        "run --quiet --tasks 0",
        2,
        "begin; remark; remark; remark; ",
    ),
];

const RESUMED: &str = "begin; journal; nobody; read; ";

#[test]
fn a_host_is_asked_for_files_and_told_the_rest(rt: HostRuntime) {
    for (words, wanted, notes) in &ROWS {
        let mut host = Memory::new();
        let mut writer = FailingWriter::new(1024, 100);
        let (status, left) = run_to(&rt, words, &mut writer, &mut host);
        same_in(&rt, words, status, *wanted);
        same_in(&rt, words, host.notes.written(), notes.as_bytes());
        same_in(&rt, words, left == 0, notes.contains("standard"));
    }
}

// A write that fails, at the first or at a later one, is told once, and nothing else is told.
#[test]
fn a_host_is_told_of_a_failed_write(rt: HostRuntime) {
    for writes in 0..3 {
        let mut host = Memory::new();
        let mut writer = FailingWriter::new(5, writes);
        let (status, _) = run_to(&rt, "run script", &mut writer, &mut host);
        same_in(&rt, "the status", status, 3);
        let notes = b"begin; script; write; ".as_slice();
        same_in(&rt, "the notes", host.notes.written(), notes);
    }
}
