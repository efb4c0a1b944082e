//! The process and the person at its terminal, who may watch a race.

use crate::scenario_text::Kept;
use crate::watch::Watch;
use dine_cli::{CliFault, Host, Listener, Remark, Request};
use dine_command_line::{Noting, Process};
use dine_words::Marked;
use std::rt::Files;

/// The process and the person at its terminal. A watch is shown what the files hold, until the person wants quiet.
pub struct Person<'a, R> {
    process: Process<'a, R>,
    watch: Option<&'a Watch>,
}

// The machine is only lent.
impl<'a, R> Drop for Person<'a, R> {
    fn drop(self) {
        let Person {
            process: _process,
            watch: _,
        } = self;
    }
}

impl<'a, R> Person<'a, R> {
    /// The process, and the watch of a race if a person watches.
    pub fn new(process: Process<'a, R>, watch: Option<&'a Watch>) -> Person<'a, R> {
        Person { process, watch }
    }
}

impl<'a, R> Listener for Person<'a, R> {
    fn tell(&mut self, remark: &Remark) {
        self.process.tell(remark);
    }
}

impl<'a, R: Files> Host for Person<'a, R> {
    ghost lacks = { λ _. Unit {0} };

    ghost holds = { λ _ _. Unit {0} };

    type File = Marked<Kept<'a, Noting<'a, R::File>>>;

    fn begin(&mut self, request: &Request) {
        self.process.begin(request);
        if let (Some(watch), true) = (self.watch, request.is_quiet) {
            watch.end();
        }
    }

    fn read_standard(&mut self) {
        self.process.read_standard();
    }

    fn open(&mut self, path: &str) -> Option<Marked<Kept<'a, Noting<'a, R::File>>>> {
        let file = self.process.open_file(path)?;
        Some(Marked::new(Kept::new(file, self.watch)))
    }

    fn give_up(&mut self, fault: CliFault) {
        self.process.give_up(fault);
    }
}
