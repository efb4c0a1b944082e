//! What reads an input and writes an output.

use dine_cli::{
    AuditReading, CliFault, Ended, NoGate, Print, Seed, Silence, run_audit, run_race, run_script,
};
use dine_words::{Sink, Source};
use tests_kit::{LIMITS, Machine};

/// One of the program's commands, below its command line.
#[derive(Clone, Copy)]
pub enum Engine {
    Script(Print),
    Audit,
    LongAudit,
    Race,
}

impl Engine {
    /// Runs the command, a script over the usual limits, and tells nobody what was wrong.
    pub fn run<R: Source, W: Sink>(
        self,
        rt: &impl Machine,
        reader: &mut R,
        writer: &mut W,
    ) -> Result<Ended, CliFault> {
        let (print, seed, alloc) = (Print::Replies, Seed::fixed(), rt.alloc());
        let mut nobody = Silence;
        match self {
            Engine::Script(print) => {
                run_script(alloc, reader, writer, LIMITS, print, seed, &mut nobody)
            }
            Engine::Audit => run_audit(alloc, reader, AuditReading::Whole, writer, &mut nobody),
            Engine::LongAudit => {
                run_audit(alloc, reader, AuditReading::ReadByRead, writer, &mut nobody)
            }
            Engine::Race => run_race(rt, alloc, reader, writer, &NoGate, print, seed, &mut nobody),
        }
    }
}
