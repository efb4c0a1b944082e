//! Reads tasks, calls, replies and headers from text, by the steps of the definitions. `read_entry.rt` reads entries.

ghost use Rattle.std.specs.Prelude.{◌≡◌, ◌≢◌, ◌+◌, ◌++◌, ◌-◌, ◌*◌, ◌≤◌, ◌^◌, ℕ, List, [], ◌∷◌, IfNone, IfSome};
ghost use Rattle.std.specs.Char.{IsAsciiDigit};
ghost use Rattle.dine_words.specs.JournalText.{HasNoHeader, header_line_of};
ghost use Rattle.dine_words.specs.Reading.{Finds, ReadsBack, begins_with_digit, call_at, digits_from, header_at, number_at, other_call_at, other_reply_at, refusal_at, reply_at, task_at, tasks_at, whole, word_at};
ghost use Rattle.dine_words.specs.Texts.{FitsTask, task_text};
ghost use Rattle.dine_words.specs.Versions.{AllowsLimits};

use crate::call::{Call, Refusal, Reply};
use crate::call_word::{CallOnOne, CallOnTwo, JOIN};
use crate::header::Header;
use crate::limits::Limits;
use crate::task::{State, Task};
use crate::version::JournalVersion;

// The number with one digit more at its end, if it fits.
fn with_digit(number: u64, digit: u8) -> Option<u64>
    requires { IsAsciiDigit digit }
    ensures value { IfSome result (λ longer. longer ≡ 10 * number + (digit - 48)) }
    ensures none { IfNone result (2 ^ 64 ≤ 10 * number + (digit - 48)) }
{
    number.checked_mul(10)?.checked_add(u64::from(digit - b'0'))
}

// Whether a digit is at the front of the bytes.
fn begins_with_digit(bytes: &[u8]) -> bool
    ensures { result ≡ begins_with_digit bytes.now }
{
    match bytes {
        [] => false,
        [first, ..] => first.is_ascii_digit(),
    }
}

// The number whose digits are the digits of `first` and then the digits at the front of the bytes, if it fits, and the
// bytes after the digits.
#[inline(always)]
fn digits_from(first: u64, bytes: &[u8]) -> Option<(u64, &[u8])>
    ensures { Finds (λ found. (found.0, found.1.now)) result (digits_from first bytes.now) }
{
    let mut number = first;
    for (index, byte) in bytes.iter().enumerate() {
        if !byte.is_ascii_digit() {
            return Some((number, &bytes[index..]));
        }
        match with_digit(number, *byte) {
            Some(longer) => number = longer,
            None => return None,
        }
    }
    Some((number, &bytes[bytes.len()..]))
}

// The number at the front of the bytes, if it has no leading zero and fits, and the bytes after it. Most numbers have one
// or two digits, and these need no loop.
#[inline(always)]
#[tactic(auto, using(crate::proofs::Numbers::one_digit, crate::proofs::Numbers::two_digits))]
fn any_number_at(bytes: &[u8]) -> Option<(u64, &[u8])>
    ensures { Finds (λ found. (found.0, found.1.now)) result (number_at (2 ^ 64 - 1) bytes.now) }
{
    match bytes {
        [only @ b'0'..=b'9', rest @ ..] if !begins_with_digit(rest) => {
            Some((u64::from(*only - b'0'), rest))
        }
        [tens @ b'1'..=b'9', ones @ b'0'..=b'9', rest @ ..] if !begins_with_digit(rest) => {
            Some((10 * u64::from(*tens - b'0') + u64::from(*ones - b'0'), rest))
        }
        [first @ b'1'..=b'9', rest @ ..] => digits_from(u64::from(*first - b'0'), rest),
        _ => None,
    }
}

/// The decimal number at the front of the bytes, if it has no leading zero and is at most `most`, and the bytes after it.
#[inline(always)]
pub fn number_at(bytes: &[u8], most: u64) -> Option<(u64, &[u8])>
    ensures { Finds (λ found. (found.0, found.1.now)) result (number_at most bytes.now) }
{
    match any_number_at(bytes) {
        Some((number, rest)) if number <= most => Some((number, rest)),
        _ => None,
    }
}

/// The bytes after a word at their front.
#[inline(always)]
pub(crate) fn word_at<'a>(bytes: &'a [u8], word: &[u8]) -> Option<&'a [u8]>
    ensures { Finds (λ rest. rest.now) result (word_at word.now bytes.now) }
{
    bytes.strip_prefix(word)
}

/// The bytes after this byte, if it is at their front.
#[inline(always)]
pub(crate) fn after_byte(bytes: &[u8], byte: u8) -> Option<&[u8]>
    ensures { Finds (λ rest. rest.now) result (word_at (byte ∷ []) bytes.now) }
{
    match bytes {
        [first, rest @ ..] if *first == byte => Some(rest),
        _ => None,
    }
}

// The task at the front of the bytes, and the bytes after it.
#[inline(always)]
fn task_at(bytes: &[u8]) -> Option<(Task, &[u8])>
    ensures { Finds (λ found. (found.0, found.1.now)) result (task_at bytes.now) }
{
    let (slot, rest) = number_at(bytes, u64::from(u32::MAX))?;
    let rest = after_byte(rest, b'.')?;
    let (born, rest) = number_at(rest, u64::MAX)?;
    let slot = slot as u32;
    Some((Task { slot, born }, rest))
}

// The two tasks at the front of the bytes, and the bytes after them.
#[inline(never)]
fn tasks_at(bytes: &[u8]) -> Option<(Task, Task, &[u8])>
    ensures { Finds (λ found. (found.0, found.1, found.2.now)) result (tasks_at bytes.now) }
{
    let (first, rest) = task_at(bytes)?;
    let rest = after_byte(rest, b' ')?;
    let (second, rest) = task_at(rest)?;
    Some((first, second, rest))
}

// The call at the front of the bytes, if it is about two tasks or about none, and the bytes after it.
#[inline(never)]
fn other_call_at(bytes: &[u8]) -> Option<(Call, &[u8])>
    ensures { Finds (λ found. (found.0, found.1.now)) result (other_call_at bytes.now) }
{
    if let Some((asked, rest)) = CallOnTwo::cut(bytes) {
        let (first, second, rest) = tasks_at(rest)?;
        return Some((asked.on(first, second), rest));
    }
    let rest = word_at(bytes, JOIN)?;
    Some((Call::Join, rest))
}

// As `other_call_at`. The room for the result is made here, so a call about one task needs no such room.
#[inline(always)]
fn rare_call_at(bytes: &[u8]) -> Option<(Call, &[u8])>
    ensures { Finds (λ found. (found.0, found.1.now)) result (other_call_at bytes.now) }
{
    let (call, rest) = other_call_at(bytes)?;
    Some((call, rest))
}

/// The call at the front of the bytes, if an entry of the version can have it, and the bytes after it. Most calls are about
/// one task.
#[inline(always)]
pub(crate) fn call_at(version: JournalVersion, bytes: &[u8]) -> Option<(Call, &[u8])>
    ensures { Finds (λ found. (found.0, found.1.now)) result (call_at version bytes.now) }
{
    let Some((asked, rest)) = CallOnOne::cut(bytes) else {
        return rare_call_at(bytes);
    };
    if !version.has(asked) {
        return None;
    }
    let (task, rest) = task_at(rest)?;
    Some((asked.on(task), rest))
}

// The refusal at the front of the bytes, and the bytes after it.
fn refusal_at(bytes: &[u8]) -> Option<(Refusal, &[u8])>
    ensures { Finds (λ found. (found.0, found.1.now)) result (refusal_at bytes.now) }
{
    if let Some(rest) = word_at(bytes, b"not-yet") {
        return Some((Refusal::NotYet, rest));
    }
    if let Some(rest) = word_at(bytes, b"thinking") {
        return Some((Refusal::WrongState(State::Thinking), rest));
    }
    if let Some(rest) = word_at(bytes, b"hungry") {
        return Some((Refusal::WrongState(State::Hungry), rest));
    }
    if let Some(rest) = word_at(bytes, b"eating") {
        return Some((Refusal::WrongState(State::Eating), rest));
    }
    if let Some(rest) = word_at(bytes, b"full") {
        return Some((Refusal::Full, rest));
    }
    if let Some(rest) = word_at(bytes, b"unknown") {
        return Some((Refusal::Unknown, rest));
    }
    if let Some(rest) = word_at(bytes, b"same") {
        return Some((Refusal::Same, rest));
    }
    if let Some(rest) = word_at(bytes, b"already") {
        return Some((Refusal::Already, rest));
    }
    if let Some(rest) = word_at(bytes, b"apart") {
        return Some((Refusal::Apart, rest));
    }
    if let Some(rest) = word_at(bytes, b"both-eating") {
        return Some((Refusal::BothEating, rest));
    }
    let rest = word_at(bytes, b"no-room")?;
    Some((Refusal::NoRoom, rest))
}

// The reply at the front of the bytes, if it isn't `done`, and the bytes after it.
#[inline(never)]
fn other_reply_at(bytes: &[u8]) -> Option<(Reply, &[u8])>
    ensures { Finds (λ found. (found.0, found.1.now)) result (other_reply_at bytes.now) }
{
    if let Some(rest) = word_at(bytes, b"refused ") {
        let (refusal, rest) = refusal_at(rest)?;
        return Some((Reply::Refused(refusal), rest));
    }
    let rest = word_at(bytes, b"joined ")?;
    let (task, rest) = task_at(rest)?;
    Some((Reply::Joined(task), rest))
}

// As `other_reply_at`. The room for the result is made here, so the reply `done` needs no such room.
#[inline(always)]
fn rare_reply_at(bytes: &[u8]) -> Option<(Reply, &[u8])>
    ensures { Finds (λ found. (found.0, found.1.now)) result (other_reply_at bytes.now) }
{
    let (reply, rest) = other_reply_at(bytes)?;
    Some((reply, rest))
}

/// The reply at the front of the bytes, and the bytes after it. Most replies are `done`.
#[inline(always)]
pub(crate) fn reply_at(bytes: &[u8]) -> Option<(Reply, &[u8])>
    ensures { Finds (λ found. (found.0, found.1.now)) result (reply_at bytes.now) }
{
    match bytes {
        [b'd', b'o', b'n', b'e', rest @ ..] => Some((Reply::Done, rest)),
        _ => rare_reply_at(bytes),
    }
}

// The task whose text is all of the bytes.
fn whole_task(bytes: &[u8]) -> Option<Task>
    ensures { result ≡ whole (task_at bytes.now) }
{
    match task_at(bytes)? {
        (task, []) => Some(task),
        _ => None,
    }
}

impl Task {
    /// The task with this text, as `1.7`: the slot, a dot, and the clock just before the task joined. Both numbers are
    /// decimal, without a leading zero and without a sign. `None` for every other text.
    pub fn read(text: &str) -> Option<Task>
        ensures { ReadsBack task_text FitsTask text.now result }
    {
        whole_task(text.as_bytes())
    }

    /// The task at the front of the bytes, and the bytes after it. The last number takes all digits that follow. `None` if
    /// no task is there.
    #[inline(always)]
    pub fn read_front(bytes: &[u8]) -> Option<(Task, &[u8])>
        ensures { Finds (λ found. (found.0, found.1.now)) result (task_at bytes.now) }
    {
        task_at(bytes)
    }
}

impl Call {
    /// The call at the front of the bytes, as `begin 0.0`, if an entry of the version can have it, and the bytes after it. A
    /// number at the end of the call takes all digits that follow.
    #[inline(always)]
    pub fn read_front(version: JournalVersion, bytes: &[u8]) -> Option<(Call, &[u8])>
        ensures { Finds (λ found. (found.0, found.1.now)) result (call_at version bytes.now) }
    {
        call_at(version, bytes)
    }
}

impl Header {
    /// The header at the front of the bytes, as `dine 2 64 256`, and the bytes after it. `None` if no header is there, or if
    /// a number is out of the version's range.
    pub fn read_front(bytes: &[u8]) -> Option<(Header, &[u8])>
        ensures { Finds
            (λ found. (
              found.0.version,
              found.0.limits.tasks,
              found.0.limits.conflicts,
              found.1.now,
            ))
            result (header_at bytes.now) }
    {
        let (version, rest) = JournalVersion::read_front(bytes)?;
        let (tasks, rest) = number_at(rest, u64::from(version.most_tasks()))?;
        let rest = word_at(rest, b" ")?;
        let (conflicts, rest) = number_at(rest, u64::from(version.most_conflicts()))?;
        let limits = Limits::new(tasks as u32, conflicts as u32)?;
        Some((Header { version, limits }, rest))
    }

    /// The header whose line is at the front of the text, and the text after the line. `None` if the text begins with no
    /// header of a version, or if the line lacks its line feed.
    pub fn read_line(text: &[u8]) -> Option<(Header, &[u8])>
        ensures found { IfSome result (λ found.
            text.now ≡ header_line_of found.0.version found.0.limits ++ found.1.now) }
        ensures allowed { IfSome result (λ found. AllowsLimits found.0.version found.0.limits) }
        ensures none { IfNone result (HasNoHeader text.now) }
    {
        let (header, rest) = Header::read_front(text)?;
        let rest = after_line_feed(rest)?;
        Some((header, rest))
    }
}

/// The text after a line feed at its front, or `None` if none is there.
#[inline(always)]
pub(crate) fn after_line_feed(text: &[u8]) -> Option<&[u8]>
    ensures found { IfSome result (λ rest. text.now ≡ 10 ∷ rest.now) }
    ensures none { IfNone result ((rest : List ℕ) → text.now ≢ 10 ∷ rest) }
{
    text.strip_prefix(b"\n")
}
