//! What a program asks of the process that it is: the words of its command line, its files, and a seed.

use crate::command_line::CommandLine;
use crate::command_words::read_words;
use crate::host::Host;
use crate::noting::{Failures, Noting};
use crate::request::{Asked, Input, Request};
use crate::telling::Telling;
use dine_lines::{Listener, Remark, Seed};
use dine_streams::CliFault;
use dine_words::Marked;
use std::alloc::{AllocError, Global};
use std::env;
use std::fs::File;
use std::io::{self, ErrorKind};
use std::random::RandomSource;
use std::rt::{Env, Files};

// Why words that are no text ask for nothing.
const NO_TEXT: &str = "error: a word of the command line is no text in UTF-8";

/// The command line of the process.
#[derive(Drop)]
pub struct ProcessLine {
    words: io::Result<Vec<String>>,
}

impl ProcessLine {
    /// The command line with which the process was started.
    pub fn of<R: Env + AllocGlobal>(rt: &R) -> ProcessLine {
        ProcessLine {
            words: words_of(rt),
        }
    }

    /// Whether the word behind the program's name is this.
    pub fn begins_with(&self, name: &str) -> bool {
        match &self.words {
            Ok(words) => words.get(1).is_some_and(|word| word.as_str() == name),
            Err(_) => false,
        }
    }
}

// The words of the command line, of which the first is the program's name.
fn words_of<R: Env + AllocGlobal>(rt: &R) -> io::Result<Vec<String>> {
    Ok(env::args(rt)?.collect(rt.alloc())?)
}

// Words that are no text name no command.
impl CommandLine for ProcessLine {
    ghost asks = { λ _ _. Unit {0} };

    fn read(self, alloc: Global) -> Result<Request, AllocError> {
        match self.words {
            Ok(words) => read_words(alloc, words.as_slice()),
            Err(error) if error.kind() == ErrorKind::InvalidData => Ok(Request {
                asked: Asked::Nothing(String::from_str(alloc, NO_TEXT)?),
                input: Input::Standard,
                is_quiet: false,
            }),
            Err(_) => Err(AllocError),
        }
    }
}

/// The process as a host. It opens its files, and tells people on standard error what is wrong.
pub struct Process<'a, R> {
    rt: &'a R,
    telling: Telling,
    failures: &'a Failures,
    is_typed: bool,
    lacks_file: bool,
}

// The machine is only lent.
impl<'a, R> Drop for Process<'a, R> {
    fn drop(self) {
        let Process {
            rt: _,
            telling: _telling,
            failures: _,
            is_typed: _,
            lacks_file: _,
        } = self;
    }
}

impl<'a, R: Files> Process<'a, R> {
    /// The process. People are told by `telling`. It is noted in `failures` why a read or a write failed. `is_typed` says
    /// that a person types the standard input.
    pub fn new(
        rt: &'a R,
        telling: Telling,
        failures: &'a Failures,
        is_typed: bool,
    ) -> Process<'a, R> {
        Process {
            rt,
            telling,
            failures,
            is_typed,
            lacks_file: false,
        }
    }

    /// Opens the file at a path. `None` says that it can't be opened. People were told why.
    pub fn open_file(&mut self, path: &str) -> Option<Noting<'a, R::File>> {
        match File::open(self.rt, path) {
            Ok(file) => Some(Noting::new(file, &self.failures.read)),
            Err(error) => {
                self.lacks_file = true;
                self.telling.cannot_open(path.as_bytes(), error.kind());
                None
            }
        }
    }
}

impl<'a, R> Listener for Process<'a, R> {
    fn tell(&mut self, remark: &Remark) {
        self.telling.tell(remark);
    }
}

impl<'a, R: Files> Host for Process<'a, R> {
    ghost lacks = { λ _. Unit {0} };

    ghost holds = { λ _ _. Unit {0} };

    type File = Marked<Noting<'a, R::File>>;

    fn begin(&mut self, request: &Request) {
        if request.is_quiet {
            self.telling.hush();
        }
    }

    fn read_standard(&mut self) {
        if self.is_typed {
            self.telling.say(b"note: the input is read from the terminal, and Ctrl-D ends it");
        }
    }

    fn open(&mut self, path: &str) -> Option<Marked<Noting<'a, R::File>>> {
        Some(Marked::new(self.open_file(path)?))
    }

    fn give_up(&mut self, fault: CliFault) {
        // Of a file that can't be opened people were told.
        if self.lacks_file && fault == CliFault::Read {
            return;
        }
        let Failures { read, write } = self.failures;
        self.telling.give_up(fault, read.get(), write.get());
    }
}

/// A seed that nobody knows: two numbers from the system. Where the system gives none the fixed one serves: no answer
/// depends on it, only how long names that were chosen to collide can make a run.
pub fn seed<R: RandomSource>(rt: &R) -> Seed {
    let mut bytes = [0; 16];
    match rt.fill_bytes(&mut bytes) {
        Ok(()) => {
            let drawn = u128::from_le_bytes(bytes);
            Seed::new((drawn >> 64) as u64, (drawn & 0xffff_ffff_ffff_ffff) as u64)
        }
        Err(_) => Seed::fixed(),
    }
}
