//! The laws of an audit's answer and of going on. Each is the contract of a function that does nothing.

ghost use Rattle.std.specs.Prelude.{◌≡◌, ◌++◌, List, Result, ℕ};
ghost use Rattle.dine_words.specs.declared.entry.Entry.{Entry};
ghost use Rattle.dine_table.specs.History.{IsLegal, IsLegalFrom, table_after, table_from};
ghost use Rattle.dine_journal.specs.Kept.{Journal};
ghost use Rattle.dine_replay.specs.declared.audit_answer.AuditFault.{AuditFault};
ghost use Rattle.dine_replay.specs.declared.replayed.Replayed.{Replayed};
ghost use Rattle.dine_replay.specs.Audit.{IsAnswer, TellsOfText};
ghost use Rattle.dine_replay.specs.Replaying.{IsReplayedBefore};

/// Every text has an answer: it is that of a legal journal, or has no header, or has a first line that is no entry's or has
/// another reply than the table.
pub fn every_text_has_an_answer()
    ensures { (text : List ℕ) →
        (answer : Result Journal AuditFault) × TellsOfText answer × IsAnswer text answer }
{}

/// And it has one answer only.
pub fn no_text_has_two_answers()
    ensures { (text : List ℕ) (one other : Result Journal AuditFault) →
        TellsOfText one → TellsOfText other
        → IsAnswer text one → IsAnswer text other → one ≡ other }
{}

/// Whoever goes on with the arbiter of a replayed journal writes the rest of that journal: the entries after it are legal
/// from its table exactly as they are behind its history, and they leave the table that the whole history leaves.
pub fn who_goes_on_writes_the_rest_of_the_journal()
    ensures legal { (text torn : List ℕ) (replayed : Replayed) (more : List Entry)
        (before : IsReplayedBefore text torn replayed) →
        IsLegalFrom replayed.arbiter.table more
        → IsLegal before.limits (before.history ++ more) }
    ensures table { (text torn : List ℕ) (replayed : Replayed) (more : List Entry)
        (before : IsReplayedBefore text torn replayed) →
        table_from replayed.arbiter.table more
        ≡ table_after before.limits (before.history ++ more) }
{}
