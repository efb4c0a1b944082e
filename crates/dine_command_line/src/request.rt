//! What a command line can ask for.

use dine_lines::{Form, Label, Print};
use dine_words::Limits;

/// What of a journal is drawn, and how.
#[derive(Debug, Drop)]
pub struct Chart {
    /// What the picture is written as.
    pub form: Form,
    /// The first line of the journal that is drawn. The header's is line 0.
    pub from: u64,
    /// The first line that is drawn no longer, whether or not the journal goes so far.
    pub to: u64,
    /// The names that stand in the place of tasks' own.
    pub labels: Vec<Label>,
}

/// What of a journal is traced.
#[derive(Debug, Drop)]
pub struct Trace {
    /// The first line of the journal that is traced. The header's is line 0.
    pub from: u64,
    /// The first line that is traced no longer, whether or not the journal goes so far.
    pub to: u64,
    /// The names that stand in the place of tasks' own.
    pub labels: Vec<Label>,
}

/// The graph of which table is written.
#[derive(Debug, Drop)]
pub struct Graph {
    /// The line of the journal that leads to the table. One that the journal hasn't stands for its last.
    pub line: u64,
    /// The names that stand in the place of tasks' own.
    pub labels: Vec<Label>,
}

/// What a command line asks for.
#[derive(Debug, Drop)]
pub enum Asked {
    /// A script is run, with these limits, and this is written.
    Run(Limits, Print),
    /// A race is run, and this is written.
    Race(Print),
    /// A journal is audited.
    Audit,
    /// Each line is answered as it comes, with these limits. Where passes are given, those below this number may ask, and
    /// their requests have numbers.
    Serve(Limits, Option<u32>),
    /// The journal in the file that this path names is gone on with: each line is answered as it comes, behind its calls.
    /// The passes are as those of a service that begins.
    Resume(String, Option<u32>),
    /// A journal of any length is audited.
    AuditLong,
    /// A journal is drawn.
    Chart(Chart),
    /// A journal is traced.
    Trace(Trace),
    /// A table is written as a graph.
    Graph(Graph),
    /// The help text is written, or the line that names the version.
    Help(String),
    /// It asks for nothing that there is, which is explained here for people.
    Nothing(String),
}

/// What the input is read from.
#[derive(Debug, Drop)]
pub enum Input {
    /// Standard input.
    Standard,
    /// The file that this path names.
    File(String),
}

/// What a command line asks for, and how.
#[derive(Debug, Drop)]
pub struct Request {
    /// What it asks for.
    pub asked: Asked,
    /// What the input is read from. If nothing that has an input is asked for, nobody reads it.
    pub input: Input,
    /// Whether nobody is to be told, beside the output, what was wrong.
    pub is_quiet: bool,
}

impl Asked {
    /// Whether what is asked for has an input.
    pub fn has_input(&self) -> bool {
        match self {
            Asked::Run(..)
            | Asked::Race(_)
            | Asked::Audit
            | Asked::AuditLong
            | Asked::Serve(..)
            | Asked::Resume(..)
            | Asked::Chart(_)
            | Asked::Trace(_)
            | Asked::Graph(_) => true,
            Asked::Help(_) | Asked::Nothing(_) => false,
        }
    }
}
