//! The laws of reading. Each is the contract of a function that does nothing.

ghost use Rattle.std.specs.Prelude.{◌≡◌, ℕ, ◌≤◌, false, List, ◌++◌, Some};
ghost use Rattle.dine_words.specs.declared.entry.Entry.{Entry};
ghost use Rattle.dine_words.specs.declared.limits.Limits.{Limits};
ghost use Rattle.dine_words.specs.declared.version.JournalVersion.{JournalVersion};
ghost use Rattle.dine_words.specs.Reading.{begins_with_digit, entry_at, header_at};
ghost use Rattle.dine_words.specs.Texts.{IsEntryOf, entry_text, header_of, header_text};
ghost use Rattle.dine_words.specs.Versions.{AllowsLimits, most_conflicts_of, most_tasks_of};

/// What is read as an entry is its text, and its call is the version's. And where an entry's text stands at the front and
/// no digit comes after it, that entry is read, and what comes after it is left.
pub fn entries_are_read_by_their_texts()
    ensures text { (version : JournalVersion) (bytes rest : List ℕ) (e : Entry) →
        entry_at version bytes ≡ Some (e, rest) → bytes ≡ entry_text e ++ rest }
    ensures fits { (version : JournalVersion) (bytes rest : List ℕ) (e : Entry) →
        entry_at version bytes ≡ Some (e, rest) → IsEntryOf version e }
    ensures each { (version : JournalVersion) (e : Entry) (rest : List ℕ) →
        IsEntryOf version e → begins_with_digit rest ≡ false →
        entry_at version (entry_text e ++ rest) ≡ Some (e, rest) }
{}

/// What is read as a header is its text, and its limits are in the ranges of its version. And where the text of a header
/// stands at the front and no digit comes after it, that header is read, and what comes after it is left.
pub fn headers_are_read_by_their_texts()
    ensures text { (bytes rest : List ℕ) (version : JournalVersion) (tasks conflicts : ℕ) →
        header_at bytes ≡ Some (version, tasks, conflicts, rest) →
        bytes ≡ header_of version tasks conflicts ++ rest }
    ensures range { (bytes rest : List ℕ) (version : JournalVersion) (tasks conflicts : ℕ) →
        header_at bytes ≡ Some (version, tasks, conflicts, rest) →
        (1 ≤ tasks) × (tasks ≤ most_tasks_of version)
        × (1 ≤ conflicts) × (conflicts ≤ most_conflicts_of version) }
    ensures each { (version : JournalVersion) (limits : Limits) (rest : List ℕ) →
        AllowsLimits version limits → begins_with_digit rest ≡ false →
        header_at (header_text version limits ++ rest)
        ≡ Some (version, limits.tasks, limits.conflicts, rest) }
{}
