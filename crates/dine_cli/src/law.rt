//! The law of journals that are gone on with: the contract of a function that does nothing.

ghost use Rattle.std.specs.Prelude.{◌≡◌, ◌++◌, ℕ, List, Option};
ghost use Rattle.std.specs.List.{filter};
ghost use Rattle.dine_words.specs.declared.entry.Entry.{Entry};
ghost use Rattle.dine_words.specs.declared.limits.Limits.{Limits};
ghost use Rattle.dine_table.specs.History.{IsLegal, table_after};
ghost use Rattle.dine_journal.specs.JournalText.{journal_text};
ghost use Rattle.dine_serve.specs.Journals.{is_of_journal};
ghost use Rattle.dine_serve.specs.Serving.{history_of, said_to_input, standing_at};
ghost use Rattle.dine_words.specs.Texts.{text_of_lines};

/// Whoever goes on with a journal writes the rest of it: the text of a legal journal, and behind it what is served from
/// where that journal left the table, without the lines that begin with `?`, `!` or `=`, are together the text of a
/// journal. It is that of the longer history, and it is legal.
pub fn who_resumes_writes_the_rest_of_the_journal()
    ensures text { (limits : Limits) (history : List Entry) (passes : Option ℕ)
        (input : List ℕ) →
        let s = standing_at (table_after limits history) passes in
        journal_text limits history ++ text_of_lines (filter is_of_journal (said_to_input s input))
        ≡ journal_text limits (history ++ history_of s input) }
    ensures legal { (limits : Limits) (history : List Entry) (passes : Option ℕ)
        (input : List ℕ) →
        IsLegal limits history →
        let s = standing_at (table_after limits history) passes in
        IsLegal limits (history ++ history_of s input) }
{}
