//! The largest limits, and the command lines of the jobs.

use dine_words::Limits;

/// As many tasks and conflicts as limits can allow.
pub const LARGEST: Limits = Limits {
    tasks: 4096,
    conflicts: 65_535,
};

/// How a command line says how many tasks there may be.
pub const TASKS: &str = "--tasks";

/// How it says how many conflicts there may be.
pub const CONFLICTS: &str = "--conflicts";

/// How it asks for a journal.
pub const JOURNAL: &str = "--journal";

// How it says how many passes may number their requests.
const PASSES: &str = "--passes";

/// A script's replies, with the largest limits.
pub const RUN: [&str; 6] = ["hygienic", "run", TASKS, "4096", CONFLICTS, "65535"];

/// A script's journal, with the largest limits.
pub const TO_JOURNAL: [&str; 7] = [
    "hygienic", "run", JOURNAL, TASKS, "4096", CONFLICTS, "65535",
];

/// A broker, with the largest limits.
pub const SERVE: [&str; 6] = ["hygienic", "serve", TASKS, "4096", CONFLICTS, "65535"];

/// The same, for requests with numbers.
pub const SERVE_NUMBERED: [&str; 8] = [
    "hygienic", "serve", TASKS, "4096", CONFLICTS, "65535", PASSES, "4096",
];

/// An audit of the journal of a script.
pub const AUDIT: [&str; 2] = ["hygienic", "audit"];

/// An audit of the journal of a broker, as one that comes up again replays it.
pub const AUDIT_LONG: [&str; 3] = ["hygienic", "audit", "--long"];
