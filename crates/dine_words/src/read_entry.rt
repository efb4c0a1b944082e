//! Reads the entries of a journal from text. Nothing else in the repository does.
//!
//! Nearly all lines have one of two usual forms, with tasks of few digits and a reply that most calls get:
//!
//! - a step of a meal, or a leave, on any pass;
//! - another call on pass 0.
//!
//! The reader looks for the usual forms first, and compares their words four or eight bytes at once. It reads every other
//! line word by word, as the definitions say. Both ways find the same entry, so a caller need not know the forms. A loop
//! that makes calls again asks for each form separately, so that each form is compiled for itself.

ghost use Rattle.std.specs.Prelude.{◌≡◌, ◌≢◌, ◌-◌, ◌^◌, ℕ, List, ◌∷◌, ◌++◌, IfNone, IfSome, Some, codes, true};
ghost use Rattle.std.specs.Int.{to_le_bytes, w32, w64};
ghost use Rattle.dine_words.specs.declared.call.Call.TheVariants as call;
ghost use Rattle.dine_words.specs.declared.call.Refusal.TheVariants.{NotYet};
ghost use Rattle.dine_words.specs.declared.call.Reply.TheVariants.{Done, Joined, Refused};
ghost use Rattle.dine_words.specs.CallWords.{call_about_one, call_about_two, opening_on_one};
ghost use Rattle.dine_words.specs.JournalText.{HasNoEntry, entry_line};
ghost use Rattle.dine_words.specs.Reading.{Finds, ReadsBack, answer_at, asked_at, entry_at, number_at, of_task, whole, word_at};
ghost use Rattle.dine_words.specs.Texts.{FitsEntry, IsEntryOf, entry_text};
ghost use Rattle.dine_words.specs.UsualLines.{opens_on_one, opens_on_two};
ghost use Rattle.dine_words.specs.Versions.{has_call_on_one, written_version};

use crate::call::{Call, Refusal, Reply};
use crate::call_word::{CallOnOne, CallOnTwo};
use crate::entry::Entry;
use crate::read::{after_byte, after_line_feed, call_at, number_at, reply_at, word_at};
use crate::task::Task;
use crate::version::JournalVersion;

impl Entry {
    /// The entry with this text, as `7 begin 0.0 -> refused not-yet`, without a line feed. There is one space between words,
    /// and numbers are as in [`Task::read`]. `None` for every other text. The reply may be wrong: the audit compares it.
    pub fn read(text: &str) -> Option<Entry>
        ensures { ReadsBack entry_text FitsEntry text.now result }
    {
        whole_entry(text.as_bytes())
    }

    /// The entry at the front of the bytes, if a journal of the version can have it, and the bytes after it. A number at the
    /// end of the entry takes all digits that follow.
    #[inline(always)]
    pub fn read_front(version: JournalVersion, bytes: &[u8]) -> Option<(Entry, &[u8])>
        ensures { Finds (λ found. (found.0, found.1.now)) result (entry_at version bytes.now) }
    {
        Entry::read_front_in::<0>(version, bytes)
    }

    // As `read_front`, compiled once for each `LOOP`. `read_asked_in` says why.
    #[inline(always)]
    #[tactic(auto, using(crate::proofs::Spelling::entry_unasked))]
    fn read_front_in<const LOOP: u32>(
        version: JournalVersion,
        bytes: &[u8],
    ) -> Option<(Entry, &[u8])>
        ensures { Finds (λ found. (found.0, found.1.now)) result (entry_at version bytes.now) }
    {
        let (pass, call, rest) = Entry::read_asked_in::<LOOP>(version, bytes)?;
        let (reply, rest) = Entry::read_answer(rest)?;
        Some((Entry { pass, call, reply }, rest))
    }

    /// The entry whose line is at the front of the text, if a journal of the version can have it, and the text after the
    /// line. `None` if there is no such line, or if the line lacks its line feed.
    ///
    /// It is compiled once for each `LOOP`: each loop over lines takes a number of its own.
    #[inline(always)]
    pub fn read_line<const LOOP: u32>(
        version: JournalVersion,
        text: &[u8],
    ) -> Option<(Entry, &[u8])>
        ensures fits { IfSome result (λ found. IsEntryOf version found.0) }
        ensures found { IfSome result (λ found. text.now ≡ entry_line found.0 ++ found.1.now) }
        ensures none { IfNone result (HasNoEntry version text.now) }
    {
        let (entry, rest) = Entry::read_front_in::<LOOP>(version, text)?;
        let rest = after_line_feed(rest)?;
        Some((entry, rest))
    }

    /// The pass and the call at the front of the bytes, as `7 begin 0.0`, if an entry of the version can have the call, and
    /// the bytes after them. [`Entry::read_answer_line`] reads what follows, and [`Reply::after_answer`] compares it with a
    /// known reply.
    #[inline(always)]
    pub fn read_asked(version: JournalVersion, bytes: &[u8]) -> Option<(u32, Call, &[u8])>
        ensures { Finds (λ found. (found.0, found.1, found.2.now)) result
            (asked_at version bytes.now) }
    {
        Entry::read_asked_in::<0>(version, bytes)
    }

    // As `read_asked`, compiled once for each `LOOP`. The compiler builds a function with one caller into that caller,
    // however large the function is. A function with several callers is called, and its result goes through memory: that
    // would cost a quarter of a line's time. So each loop over lines takes a number of its own.
    #[inline(always)]
    fn read_asked_in<const LOOP: u32>(
        version: JournalVersion,
        bytes: &[u8],
    ) -> Option<(u32, Call, &[u8])>
        ensures { Finds (λ found. (found.0, found.1, found.2.now)) result
            (asked_at version bytes.now) }
    {
        if let Some((pass, call, rest)) = usual_asked_at::<LOOP>(bytes) {
            return Some((pass, call, rest));
        }
        rare_asked_at(version, bytes)
    }

    // The reply behind an arrow at the front of the bytes, as ` -> refused not-yet`, and the bytes after it. A number at the
    // end of the reply takes all digits that follow.
    #[inline(always)]
    fn read_answer(bytes: &[u8]) -> Option<(Reply, &[u8])>
        ensures { Finds (λ found. (found.0, found.1.now)) result (answer_at bytes.now) }
    {
        if let Some(rest) = after_eight(bytes, *b" -> done") {
            return Some((Reply::Done, rest));
        }
        if let Some(rest) = not_yet_at(bytes) {
            return Some((Reply::Refused(Refusal::NotYet), rest));
        }
        any_answer_at(bytes)
    }

    /// The reply in the rest of a line, behind its call, and the text after the line.
    #[inline(never)]
    pub fn read_answer_line(text: &[u8]) -> Option<(Reply, &[u8])>
        ensures found { IfSome result (λ found.
            answer_at text.now ≡ Some (found.0, 10 ∷ found.1.now)) }
        ensures none { IfNone result ((reply : Reply) (rest : List ℕ) →
            answer_at text.now ≢ Some (reply, 10 ∷ rest)) }
    {
        // The callers have looked for the replies that most calls get.
        let (reply, rest) = any_answer_at(text)?;
        let rest = after_line_feed(rest)?;
        Some((reply, rest))
    }
}

// The entry whose text is all of the bytes.
fn whole_entry(bytes: &[u8]) -> Option<Entry>
    ensures { result ≡ whole (entry_at written_version bytes.now) }
{
    match Entry::read_front(JournalVersion::written(), bytes)? {
        (entry, []) => Some(entry),
        _ => None,
    }
}

// The reply behind an arrow at the front of the bytes, read word by word, and the bytes after it.
#[inline(always)]
fn any_answer_at(bytes: &[u8]) -> Option<(Reply, &[u8])>
    ensures { Finds (λ found. (found.0, found.1.now)) result (answer_at bytes.now) }
{
    let rest = after_arrow(bytes)?;
    let (reply, rest) = reply_at(rest)?;
    Some((reply, rest))
}

// The bytes after the arrow between a call and its reply.
#[inline(always)]
fn after_arrow(bytes: &[u8]) -> Option<&[u8]>
    ensures { Finds (λ rest. rest.now) result (word_at (codes " -> ") bytes.now) }
{
    match bytes {
        [b' ', b'-', b'>', b' ', rest @ ..] => Some(rest),
        _ => None,
    }
}

// The bytes after ` -> refused not-yet`.
#[inline(always)]
fn not_yet_at(bytes: &[u8]) -> Option<&[u8]>
    ensures { IfSome result (λ rest. answer_at bytes.now ≡ Some (Refused NotYet, rest.now)) }
{
    let rest = after_eight(bytes, *b" -> refu")?;
    match after_eight(rest, *b"sed not-")? {
        [b'y', b'e', b't', rest @ ..] => Some(rest),
        _ => None,
    }
}

// ---- a pass and a call

// The pass and the call at the front of a line of any form. The room for the result is made here, so lines of a usual form
// need no such room.
#[inline(always)]
fn rare_asked_at(version: JournalVersion, bytes: &[u8]) -> Option<(u32, Call, &[u8])>
    ensures { Finds (λ found. (found.0, found.1, found.2.now)) result
        (asked_at version bytes.now) }
{
    let (pass, call, rest) = any_asked_at(version, bytes)?;
    Some((pass, call, rest))
}

// As `rare_asked_at`. The program has it once.
#[inline(never)]
fn any_asked_at(version: JournalVersion, bytes: &[u8]) -> Option<(u32, Call, &[u8])>
    ensures { Finds (λ found. (found.0, found.1, found.2.now)) result
        (asked_at version bytes.now) }
{
    let (pass, rest) = number_at(bytes, u64::from(u32::MAX))?;
    let rest = after_byte(rest, b' ')?;
    let (call, rest) = call_at(version, rest)?;
    Some((pass as u32, call, rest))
}

// The pass and the call at the front of a line of a usual form, and the rest of the line. Each version has such calls.
// `None` doesn't mean that the line has no call.
#[inline(always)]
fn usual_asked_at<const LOOP: u32>(text: &[u8]) -> Option<(u32, Call, &[u8])>
    ensures { IfSome result (λ found. (version : _) →
        asked_at version text.now ≡ Some (found.0, found.1, found.2.now)) }
{
    if let Some((pass, step, rest)) = Entry::read_step_word(text) {
        let (call, rest) = step_at::<LOOP>(step, rest)?;
        return Some((pass, call, rest));
    }
    if let Some((pair, first, second, rest)) = Entry::read_pair(text) {
        return Some((0, pair.on(first, second), rest));
    }
    let rest = Entry::read_join(text)?;
    Some((0, Call::Join, rest))
}

// The call about the task whose name is at the front of the text, and the rest of the line. Each arm is compiled for itself,
// with its reading of the name, so that no later branch asks for the step again.
#[inline(always)]
fn step_at<const LOOP: u32>(step: CallOnOne, text: &[u8]) -> Option<(Call, &[u8])>
    ensures { IfSome result (λ found.
        of_task (call_about_one step) text.now ≡ Some (found.0, found.1.now)) }
{
    match step {
        CallOnOne::Begin => named(CallOnOne::Begin, text),
        CallOnOne::Hungry => named(CallOnOne::Hungry, text),
        CallOnOne::Finish => named(CallOnOne::Finish, text),
        CallOnOne::Leave => named(CallOnOne::Leave, text),
        CallOnOne::Withdraw => named(CallOnOne::Withdraw, text),
    }
}

// The call of this step about the task whose name is at the front of the text, and the rest of the line.
#[inline(always)]
fn named(step: CallOnOne, text: &[u8]) -> Option<(Call, &[u8])>
    ensures { IfSome result (λ found.
        of_task (call_about_one step) text.now ≡ Some (found.0, found.1.now)) }
{
    let (task, rest) = Task::read_short(text, b' ')?;
    Some((step.on(task), rest))
}

// The step, or the leave, whose word is at the front of the text between two spaces, and the text behind them. A pass is in
// front of the text.
#[inline(always)]
fn step_behind_a_pass(text: &[u8]) -> Option<(CallOnOne, &[u8])>
    ensures text { IfSome result (λ found.
        text.now ≡ 32 ∷ (opening_on_one found.0 ++ found.1.now)) }
    ensures has { IfSome result (λ found. (version : _) → has_call_on_one version found.0 ≡ true) }
{
    if let Some([b'i', b'n', b' ', rest @ ..]) = after_four(text, *b" beg") {
        return Some((CallOnOne::Begin, rest));
    }
    if let Some(rest) = after_eight(text, *b" hungry ") {
        return Some((CallOnOne::Hungry, rest));
    }
    if let Some(rest) = after_eight(text, *b" finish ") {
        return Some((CallOnOne::Finish, rest));
    }
    match after_four(text, *b" lea")? {
        [b'v', b'e', b' ', rest @ ..] => Some((CallOnOne::Leave, rest)),
        _ => None,
    }
}

// The step, or the leave, at the front of a line on pass 0, and the line behind its word and a space.
#[inline(always)]
fn step_word(text: &[u8]) -> Option<(CallOnOne, &[u8])>
    ensures text { IfSome result (λ found. text.now ≡ opens_on_one found.0 ++ found.1.now) }
    ensures has { IfSome result (λ found. (version : _) → has_call_on_one version found.0 ≡ true) }
{
    // No such line is shorter, so that one test of the length is enough for all comparisons.
    if text.len() < 20 {
        return None;
    }
    if let Some(rest) = after_eight(text, *b"0 begin ") {
        return Some((CallOnOne::Begin, rest));
    }
    if let Some([b' ', rest @ ..]) = after_eight(text, *b"0 hungry") {
        return Some((CallOnOne::Hungry, rest));
    }
    if let Some([b' ', rest @ ..]) = after_eight(text, *b"0 finish") {
        return Some((CallOnOne::Finish, rest));
    }
    Some((CallOnOne::Leave, after_eight(text, *b"0 leave ")?))
}

// The call about two tasks at the front of a line on pass 0, and the line behind its word and a space.
#[inline(always)]
fn pair_word(text: &[u8]) -> Option<(CallOnTwo, &[u8])>
    ensures { IfSome result (λ found. text.now ≡ opens_on_two found.0 ++ found.1.now) }
{
    if let Some([b'c', b't', b' ', rest @ ..]) = after_eight(text, *b"0 confli") {
        return Some((CallOnTwo::Conflict, rest));
    }
    match after_eight(text, *b"0 separa")? {
        [b't', b'e', b' ', rest @ ..] => Some((CallOnTwo::Separate, rest)),
        _ => None,
    }
}

// ---- the usual forms, for a loop that makes the calls again

impl Entry {
    /// The pass, and the step or the leave, at the front of a line, and the line behind the word and a space, where the task
    /// is. Each version has such calls. `None` doesn't mean that the line has no such call.
    #[inline(always)]
    pub fn read_step_word(text: &[u8]) -> Option<(u32, CallOnOne, &[u8])>
        ensures front { IfSome result (λ found. number_at (2 ^ 32 - 1) text.now
            ≡ Some (found.0, 32 ∷ (opening_on_one found.1 ++ found.2.now))) }
        ensures has { IfSome result (λ found. (version : _) →
            has_call_on_one version found.1 ≡ true) }
    {
        if let Some((step, rest)) = step_word(text) {
            return Some((0, step, rest));
        }
        // `step_word` has looked for pass 0.
        let [b'1'..=b'9', ..] = text else {
            return None;
        };
        let (pass, rest) = number_at(text, u64::from(u32::MAX))?;
        let (step, rest) = step_behind_a_pass(rest)?;
        Some((pass as u32, step, rest))
    }

    /// The call about two tasks and these on pass 0 at the front of a line, and what the line has after them. `None` says
    /// nothing of the line.
    #[inline(always)]
    pub fn read_pair(text: &[u8]) -> Option<(CallOnTwo, Task, Task, &[u8])>
        ensures { IfSome result (λ found. (version : _) → asked_at version text.now
            ≡ Some (0, call_about_two found.0 found.1 found.2, found.3.now)) }
    {
        let (pair, rest) = pair_word(text)?;
        let (first, rest) = Task::read_short(rest, b' ')?;
        let (second, rest) = Task::read_short(&rest[1..], b' ')?;
        Some((pair, first, second, rest))
    }

    /// The rest of a line that begins with pass 0 and the word by which a task joins.
    #[inline(always)]
    pub fn read_join(text: &[u8]) -> Option<&[u8]>
        ensures { IfSome result (λ rest. (version : _) →
            asked_at version text.now ≡ Some (0, call.Join, rest.now)) }
    {
        match text {
            [b'0', b' ', b'j', b'o', b'i', b'n', rest @ ..] => Some(rest),
            _ => None,
        }
    }
}

// ---- a reply that is known

impl Reply {
    /// The text after a line, if the rest of the line is an arrow, this reply and a line feed. The replies that most calls
    /// get are compared four or eight bytes at once, and the others are read. `None` doesn't mean that the reply isn't
    /// there, since its task may have long numbers. [`Entry::read_answer_line`] reads all replies.
    #[inline(always)]
    pub fn after_answer(self, text: &[u8]) -> Option<&[u8]>
        ensures { IfSome result (λ rest. answer_at text.now ≡ Some (self, 10 ∷ rest.now)) }
    {
        match self {
            Reply::Done => after_done(text),
            Reply::Joined(task) => after_joined(text, task),
            Reply::Refused(Refusal::NotYet) => after_not_yet(text),
            Reply::Refused(refusal) => after_refusal(refusal, text),
        }
    }
}

// As `after_answer`, of a refusal that few calls get. It is apart from `after_answer` so that the other arms make no room
// for the result of the call.
#[inline(always)]
fn after_refusal(refusal: Refusal, text: &[u8]) -> Option<&[u8]>
    ensures { IfSome result (λ rest. answer_at text.now ≡ Some (Refused refusal, 10 ∷ rest.now)) }
{
    after_rare_refusal(refusal, text)
}

// As `after_refusal`. The program has it once.
#[cold]
#[inline(never)]
fn after_rare_refusal(refusal: Refusal, text: &[u8]) -> Option<&[u8]>
    ensures { IfSome result (λ rest. answer_at text.now ≡ Some (Refused refusal, 10 ∷ rest.now)) }
{
    match Entry::read_answer_line(text)? {
        (Reply::Refused(told), rest) if told == refusal => Some(rest),
        _ => None,
    }
}

// The text after ` -> done` and a line feed.
#[inline(always)]
fn after_done(text: &[u8]) -> Option<&[u8]>
    ensures { IfSome result (λ rest. answer_at text.now ≡ Some (Done, 10 ∷ rest.now)) }
{
    // One test of the length is enough for both comparisons.
    if text.len() < 9 {
        return None;
    }
    match after_eight(text, *b" -> done")? {
        [b'\n', rest @ ..] => Some(rest),
        _ => None,
    }
}

// The text after ` -> refused not-yet` and a line feed.
#[inline(always)]
fn after_not_yet(text: &[u8]) -> Option<&[u8]>
    ensures { IfSome result (λ rest. answer_at text.now ≡ Some (Refused NotYet, 10 ∷ rest.now)) }
{
    if text.len() < 20 {
        return None;
    }
    let rest = after_eight(text, *b" -> refu")?;
    let rest = after_eight(rest, *b"sed not-")?;
    after_four(rest, *b"yet\n")
}

// The text after ` -> joined `, this task and a line feed.
#[inline(always)]
fn after_joined(text: &[u8], task: Task) -> Option<&[u8]>
    ensures { IfSome result (λ rest. answer_at text.now ≡ Some (Joined task, 10 ∷ rest.now)) }
{
    let [b'e', b'd', b' ', rest @ ..] = after_eight(text, *b" -> join")? else {
        return None;
    };
    match Task::read_short(rest, b'\n')? {
        (told, rest) if told == task => Some(&rest[1..]),
        _ => None,
    }
}

// ---- some bytes at once

// The text after these eight bytes, if the text begins with them.
#[inline(always)]
fn after_eight(text: &[u8], eight: [u8; 8]) -> Option<&[u8]>
    ensures { IfSome result (λ rest. text.now ≡ eight ++ rest.now) }
{
    let (front, rest) = text.split_first_chunk::<8>()?;
    if as_one(*front) == as_one(eight) {
        Some(rest)
    } else {
        None
    }
}

// Eight bytes as one number.
#[inline(always)]
fn as_one(eight: [u8; 8]) -> u64
    ensures { eight ≡ to_le_bytes w64 result }
{
    u64::from_le_bytes(eight)
}

// The text after these four bytes, if the text begins with them.
#[inline(always)]
fn after_four(text: &[u8], four: [u8; 4]) -> Option<&[u8]>
    ensures { IfSome result (λ rest. text.now ≡ four ++ rest.now) }
{
    let (front, rest) = text.split_first_chunk::<4>()?;
    if four_as_one(*front) == four_as_one(four) {
        Some(rest)
    } else {
        None
    }
}

// Four bytes as one number.
#[inline(always)]
fn four_as_one(four: [u8; 4]) -> u32
    ensures { four ≡ to_le_bytes w32 result }
{
    u32::from_le_bytes(four)
}
