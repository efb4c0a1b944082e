//! The words of calls: what each is as text, and what it asks for. Journals, scripts and scenarios have them from here.

ghost use Rattle.std.specs.Prelude.{◌≡◌, ◌∷◌, ◌++◌, ◌≤◌, codes, length, IfSome};
ghost use Rattle.std.specs.Str.{bytes_eq};
ghost use Rattle.dine_words.specs.CallWords.{call_about_one, call_about_two, call_on_one, call_on_two, join_word, opening_on_one, opening_on_two, word_on_one};
ghost use Rattle.dine_words.specs.Reading.{Finds, one_at, two_at, word_at};

use crate::call::Call;
use crate::task::Task;

// The word by which a task joins.
pub(crate) const JOIN: &[u8] = b"join";

/// Whether the word is the one by which a task joins.
#[inline(always)]
pub fn is_join(word: &[u8]) -> bool
    ensures { result ≡ bytes_eq word.now join_word }
{
    word == JOIN
}

/// A call about one task, before it is said which.
#[derive(Clone, Copy, Debug, PartialEq, Eq, Hash)]
pub enum CallOnOne {
    Leave,
    Hungry,
    Begin,
    Finish,
    Withdraw,
}

/// A call about two tasks, before it is said which.
#[derive(Clone, Copy, Debug, PartialEq, Eq, Hash)]
pub enum CallOnTwo {
    Conflict,
    Separate,
}

impl CallOnOne {
    /// The call about one task that the word asks for, if it asks for one.
    #[inline(always)]
    pub fn read(word: &[u8]) -> Option<CallOnOne>
        ensures { result ≡ call_on_one word.now }
    {
        match word {
            b"leave" => Some(CallOnOne::Leave),
            b"hungry" => Some(CallOnOne::Hungry),
            b"begin" => Some(CallOnOne::Begin),
            b"finish" => Some(CallOnOne::Finish),
            b"withdraw" => Some(CallOnOne::Withdraw),
            _ => None,
        }
    }

    // The word, and the space before the task.
    #[inline(always)]
    pub(crate) fn opening(self) -> &'static [u8]
        ensures text { result.now ≡ opening_on_one self }
        ensures len { length result.now ≤ 9 }
    {
        match self {
            CallOnOne::Leave => b"leave ",
            CallOnOne::Hungry => b"hungry ",
            CallOnOne::Begin => b"begin ",
            CallOnOne::Finish => b"finish ",
            CallOnOne::Withdraw => b"withdraw ",
        }
    }

    /// The call about one task that a text begins with, as its word and one space, and the text after them. Most lines
    /// begin so: it takes a look at the first byte and then no call.
    #[inline(always)]
    pub fn cut(text: &[u8]) -> Option<(CallOnOne, &[u8])>
        ensures found { Finds (λ cut. (cut.0, cut.1.now)) result (one_at text.now) }
        ensures front { IfSome result (λ cut. text.now ≡ word_on_one cut.0 ++ 32 ∷ cut.1.now) }
    {
        match text {
            [b'h', ..] => Some((CallOnOne::Hungry, after_hungry(text)?)),
            [b'b', ..] => Some((CallOnOne::Begin, after_begin(text)?)),
            [b'f', ..] => Some((CallOnOne::Finish, after_finish(text)?)),
            [b'l', ..] => Some((CallOnOne::Leave, after_leave(text)?)),
            [b'w', ..] => Some((CallOnOne::Withdraw, after_withdraw(text)?)),
            _ => None,
        }
    }

    /// The call about this task.
    #[inline(always)]
    pub fn on(self, task: Task) -> Call
        ensures { result ≡ call_about_one self task }
    {
        match self {
            CallOnOne::Leave => Call::Leave(task),
            CallOnOne::Hungry => Call::Hungry(task),
            CallOnOne::Begin => Call::Begin(task),
            CallOnOne::Finish => Call::Finish(task),
            CallOnOne::Withdraw => Call::Withdraw(task),
        }
    }
}

// The text after `hungry `.
#[inline(always)]
fn after_hungry(text: &[u8]) -> Option<&[u8]>
    ensures { Finds (λ rest. rest.now) result (word_at (codes "hungry ") text.now) }
{
    match text {
        [b'h', b'u', b'n', b'g', b'r', b'y', b' ', rest @ ..] => Some(rest),
        _ => None,
    }
}

// The text after `begin `.
#[inline(always)]
fn after_begin(text: &[u8]) -> Option<&[u8]>
    ensures { Finds (λ rest. rest.now) result (word_at (codes "begin ") text.now) }
{
    match text {
        [b'b', b'e', b'g', b'i', b'n', b' ', rest @ ..] => Some(rest),
        _ => None,
    }
}

// The text after `finish `.
#[inline(always)]
fn after_finish(text: &[u8]) -> Option<&[u8]>
    ensures { Finds (λ rest. rest.now) result (word_at (codes "finish ") text.now) }
{
    match text {
        [b'f', b'i', b'n', b'i', b's', b'h', b' ', rest @ ..] => Some(rest),
        _ => None,
    }
}

// The text after `leave `.
#[inline(always)]
fn after_leave(text: &[u8]) -> Option<&[u8]>
    ensures { Finds (λ rest. rest.now) result (word_at (codes "leave ") text.now) }
{
    match text {
        [b'l', b'e', b'a', b'v', b'e', b' ', rest @ ..] => Some(rest),
        _ => None,
    }
}

// The text after `withdraw `.
#[inline(always)]
fn after_withdraw(text: &[u8]) -> Option<&[u8]>
    ensures { Finds (λ rest. rest.now) result (word_at (codes "withdraw ") text.now) }
{
    match text {
        [
            b'w',
            b'i',
            b't',
            b'h',
            b'd',
            b'r',
            b'a',
            b'w',
            b' ',
            rest @ ..,
        ] => Some(rest),
        _ => None,
    }
}

// The text after `conflict `.
#[inline(always)]
fn after_conflict(text: &[u8]) -> Option<&[u8]>
    ensures { Finds (λ rest. rest.now) result (word_at (codes "conflict ") text.now) }
{
    match text {
        [
            b'c',
            b'o',
            b'n',
            b'f',
            b'l',
            b'i',
            b'c',
            b't',
            b' ',
            rest @ ..,
        ] => Some(rest),
        _ => None,
    }
}

// The text after `separate `.
#[inline(always)]
fn after_separate(text: &[u8]) -> Option<&[u8]>
    ensures { Finds (λ rest. rest.now) result (word_at (codes "separate ") text.now) }
{
    match text {
        [
            b's',
            b'e',
            b'p',
            b'a',
            b'r',
            b'a',
            b't',
            b'e',
            b' ',
            rest @ ..,
        ] => Some(rest),
        _ => None,
    }
}

impl CallOnTwo {
    /// The call about two tasks that the word asks for, if it asks for one.
    #[inline(always)]
    pub fn read(word: &[u8]) -> Option<CallOnTwo>
        ensures { result ≡ call_on_two word.now }
    {
        match word {
            b"conflict" => Some(CallOnTwo::Conflict),
            b"separate" => Some(CallOnTwo::Separate),
            _ => None,
        }
    }

    // The word, and the space before the first task.
    #[inline(always)]
    pub(crate) fn opening(self) -> &'static [u8]
        ensures text { result.now ≡ opening_on_two self }
        ensures len { length result.now ≤ 9 }
    {
        match self {
            CallOnTwo::Conflict => b"conflict ",
            CallOnTwo::Separate => b"separate ",
        }
    }

    // The call about two tasks that a text begins with, as its word and one space, and the text after them.
    pub(crate) fn cut(text: &[u8]) -> Option<(CallOnTwo, &[u8])>
        ensures { Finds (λ cut. (cut.0, cut.1.now)) result (two_at text.now) }
    {
        if let Some(rest) = after_conflict(text) {
            return Some((CallOnTwo::Conflict, rest));
        }
        let rest = after_separate(text)?;
        Some((CallOnTwo::Separate, rest))
    }

    /// The call about these tasks.
    #[inline]
    pub fn on(self, first: Task, second: Task) -> Call
        ensures { result ≡ call_about_two self first second }
    {
        match self {
            CallOnTwo::Conflict => Call::Conflict(first, second),
            CallOnTwo::Separate => Call::Separate(first, second),
        }
    }
}
