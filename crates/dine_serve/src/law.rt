//! What is served, as laws of its definition. Each is the contract of a function that does nothing.

ghost use Rattle.std.specs.Prelude.{◌≡◌, ◌≤◌, ℕ, ◌+◌, ◌++◌, List, Option, Result, Some, codes, length, map, take};
ghost use Rattle.std.specs.List.{filter};
ghost use Rattle.dine_journal.specs.JournalText.{journal_text};
ghost use Rattle.dine_serve.specs.declared.awaits.Await.{Await};
ghost use Rattle.dine_serve.specs.declared.receipts.RequestAnswer.{RequestAnswer};
ghost use Rattle.dine_serve.specs.declared.request.Deed.{Deed};
ghost use Rattle.dine_serve.specs.declared.request.Request.{Request};
ghost use Rattle.dine_serve.specs.declared.request_fault.LineFault.{LineFault};
ghost use Rattle.dine_table.specs.History.{IsLegal};
ghost use Rattle.dine_table.specs.Table.{Table};
ghost use Rattle.dine_words.specs.Texts.{text_of_lines};
ghost use Rattle.dine_words.specs.declared.limits.Limits.{Limits};
ghost use Rattle.dine_words.specs.declared.task.Task.{Task};
ghost use Rattle.dine_serve.specs.Waits.{AllWait, InOrder, awaits_of, begins_of, begun_from, still_waiting};
ghost use Rattle.dine_serve.specs.Journals.{is_of_journal};
ghost use Rattle.dine_serve.specs.declared.receipts.Coming.TheVariants as Coming;
ghost use Rattle.dine_serve.specs.Answers.{again_lines};
ghost use Rattle.dine_serve.specs.Partly.{HaveTheirLines, StopsAtReading};
ghost use Rattle.dine_serve.specs.Receipts.{coming_of};
ghost use Rattle.dine_serve.specs.Repeats.{is_no_repeat, times_carried_out, without_repeats};
ghost use Rattle.dine_serve.specs.Serving.{Broker, after_coming, answer_done, entries_by, entries_from, history_of, opening, said_done, said_from, served_lines, standing_at, standing_from};

/// After each line, whoever waits for a begin would be answered `not-yet`: no await is forgotten whose turn has come.
pub fn nobody_waits_whose_turn_has_come()
    ensures { (table : Table) (passes : Option ℕ) (lines : List (Option (List ℕ))) →
        let s = standing_from (standing_at table passes) lines in AllWait s.table s.awaits }
{}

/// After each line, those who wait for begins stand in the order of last meals, the earliest first. So they are made in that
/// order where several are due.
pub fn who_waits_stands_in_the_order_of_last_meals()
    ensures { (table : Table) (passes : Option ℕ) (lines : List (Option (List ℕ))) →
        let s = standing_from (standing_at table passes) lines in
        InOrder s.table.order s.awaits }
{}

/// Where begins that waited are made, each is made once, or goes on to wait: of each pass and each task as many waited as
/// begins are made and go on to wait.
pub fn each_await_is_answered_once()
    ensures { (t : Table) (awaits : List Await) (pass : ℕ) (u : Task) →
        begins_of pass u (begun_from t awaits) + awaits_of pass u (still_waiting t awaits)
        ≡ awaits_of pass u awaits }
{}

/// Whatever is asked, what is served without the lines that begin with `?`, `!` or `=` is the text of a journal, that of
/// the calls that were made, and the journal is legal.
pub fn what_is_served_is_a_journal()
    ensures text { (limits : Limits) (passes : Option ℕ) (input : List ℕ) →
        text_of_lines (filter is_of_journal (served_lines limits passes input))
        ≡ journal_text limits (history_of (opening limits passes) input) }
    ensures legal { (limits : Limits) (passes : Option ℕ) (input : List ℕ) →
        IsLegal limits (history_of (opening limits passes) input) }
{}

/// Requests that come again change nothing. With a blank line in the place of each, the broker stands where it stands,
/// the same calls are made, and the same is said but for the lines that begin with `=`.
pub fn repeats_change_nothing()
    ensures standing { (table : Table) (passes : Option ℕ) (lines : List (Option (List ℕ))) →
        let s = standing_at table passes in
        standing_from s lines ≡ standing_from s (without_repeats s lines) }
    ensures entries { (table : Table) (passes : Option ℕ) (lines : List (Option (List ℕ))) →
        let s = standing_at table passes in
        entries_from s lines ≡ entries_from s (without_repeats s lines) }
    ensures said { (table : Table) (passes : Option ℕ) (lines : List (Option (List ℕ))) →
        let s = standing_at table passes in
        filter is_no_repeat (said_from s lines) ≡ said_from s (without_repeats s lines) }
{}

/// A request that was carried out is answered the same where it comes again: by the first line that was said to it,
/// behind `= `, or by nothing where it has to wait.
pub fn what_comes_again_is_answered_the_same()
    ensures known { (s : Broker) (pass number : ℕ) (deed : Deed) (answer : RequestAnswer) →
        coming_of s.receipts pass number ≡ Coming.First → answer_done s pass deed ≡ Some answer →
        coming_of (after_coming s pass number deed Coming.First).receipts pass number
        ≡ Coming.Again answer }
    ensures line { (s : Broker) (pass : ℕ) (deed : Deed) (answer : RequestAnswer) →
        answer_done s pass deed ≡ Some answer → again_lines answer
        ≡ map (λ line. codes "= " ++ line)
        (take (length (again_lines answer)) (said_done s pass deed)) }
{}

/// Where memory is wanting on the way to the answer of a line, each call that was made has its line: of the entries that
/// are to be made some in front were, the table is the one that their calls leave, and their lines stand behind what stood
/// there before.
pub fn each_call_has_its_line()
    ensures { (s s' : Broker) (reading : Result (Option Request) LineFault)
        (before after : List ℕ) → StopsAtReading s s' reading before after →
        HaveTheirLines s.table s'.table (entries_by s reading) before after }
{}

/// No number of a pass is carried out twice, however often it comes.
pub fn each_number_is_carried_out_once()
    ensures { (table : Table) (passes : Option ℕ) (pass number : ℕ)
        (lines : List (Option (List ℕ))) →
        times_carried_out pass number (standing_at table passes) lines ≤ 1 }
{}
