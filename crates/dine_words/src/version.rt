//! The versions of a journal's text.

ghost use Rattle.std.specs.Prelude.{◌≡◌, ◌≤◌, length};
ghost use Rattle.dine_words.specs.Reading.{Finds, version_at};
ghost use Rattle.dine_words.specs.Versions.{has_call_on_one, has_withdraw, most_conflicts_of, most_tasks_of, opening_of, written_version};

use crate::call_word::CallOnOne;
use crate::limits::{MAX_CONFLICTS, MAX_TASKS};
use crate::read::word_at;

/// The version of a journal's text. A header names it.
#[derive(Clone, Copy, Debug, PartialEq, Eq, Hash)]
pub enum JournalVersion {
    /// `dine 1`: at most 256 tasks and 1,024 conflicts, and no call by which hunger is given up.
    One,
    /// `dine 2`: all limits and all calls. Journals are written so.
    Two,
}

// The most tasks of a header of version 1.
const MAX_TASKS_OF_ONE: u32 = 256;

// The most conflicts of a header of version 1.
const MAX_CONFLICTS_OF_ONE: u32 = 1024;

impl JournalVersion {
    /// The version in which journals are written.
    pub fn written() -> JournalVersion
        ensures { result ≡ written_version }
    {
        JournalVersion::Two
    }

    // How a header of this version begins.
    pub(crate) fn opening(self) -> &'static [u8]
        ensures text { result.now ≡ opening_of self }
        ensures len { length result.now ≤ 7 }
    {
        match self {
            JournalVersion::One => b"dine 1 ",
            JournalVersion::Two => b"dine 2 ",
        }
    }

    // The version of the header at the front of the bytes, and the bytes after its opening.
    pub(crate) fn read_front(bytes: &[u8]) -> Option<(JournalVersion, &[u8])>
        ensures { Finds (λ found. (found.0, found.1.now)) result (version_at bytes.now) }
    {
        if let Some(rest) = word_at(bytes, JournalVersion::Two.opening()) {
            return Some((JournalVersion::Two, rest));
        }
        let rest = word_at(bytes, JournalVersion::One.opening())?;
        Some((JournalVersion::One, rest))
    }

    // The most tasks that a header of this version can allow.
    pub(crate) fn most_tasks(self) -> u32
        ensures { result ≡ most_tasks_of self }
    {
        match self {
            JournalVersion::One => MAX_TASKS_OF_ONE,
            JournalVersion::Two => MAX_TASKS,
        }
    }

    // The most conflicts that a header of this version can allow.
    pub(crate) fn most_conflicts(self) -> u32
        ensures { result ≡ most_conflicts_of self }
    {
        match self {
            JournalVersion::One => MAX_CONFLICTS_OF_ONE,
            JournalVersion::Two => MAX_CONFLICTS,
        }
    }

    // Whether hunger can be given up in this version.
    fn has_withdraw(self) -> bool
        ensures { result ≡ has_withdraw self }
    {
        match self {
            JournalVersion::One => false,
            JournalVersion::Two => true,
        }
    }

    // Whether an entry of this version can have this call about one task.
    #[inline(always)]
    pub(crate) fn has(self, asked: CallOnOne) -> bool
        ensures { result ≡ has_call_on_one self asked }
    {
        match asked {
            CallOnOne::Leave | CallOnOne::Hungry | CallOnOne::Begin | CallOnOne::Finish => true,
            CallOnOne::Withdraw => self.has_withdraw(),
        }
    }
}
