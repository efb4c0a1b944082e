//! Lines in the form that nearly all lines of a script have, cut and read many bytes at once.

ghost use Rattle.std.specs.Prelude.{◌≡◌, ◌≤◌, ◌∷◌, ◌++◌, true, codes, take, Some, IfSome, IsTrue};
ghost use Rattle.std.specs.Int.{to_le_bytes, w64};
ghost use Rattle.dine_words.specs.CallWords.{join_word, word_on_one, word_on_two};
ghost use Rattle.dine_lines.specs.Names.{is_name};
ghost use Rattle.dine_lines.specs.Usual as usual;
ghost use Rattle.dine_lines.specs.UsualLines.{BeginsBound, BeginsName, BeginsOne, BeginsTwo, BeginsUsual};

use crate::name::{Name, eight_at, first_of, front_word, half};
use crate::names::{Found, Names, Reach};
use dine_words::{CallOnOne, CallOnTwo, Task};

/// A step of a meal that the first line of a text asks for, and the text after the line.
#[derive(Clone, Copy, Debug)]
pub struct StepLine<'a> {
    /// The call that the line asks for.
    pub call: CallOnOne,
    /// The task that its name is bound to.
    pub task: Task,
    /// The text after the line and its line feed.
    pub rest: &'a [u8],
}

/// A call about one task that the first line of a text asks for, and the text after the line.
#[derive(Clone, Copy, Debug)]
pub struct FoundCall<'a> {
    /// The call that the line asks for.
    pub call: CallOnOne,
    /// The task that its name is bound to, or `None` where the name is free.
    pub task: Option<Task>,
    /// The text after the line and its line feed.
    pub rest: &'a [u8],
}

/// A call about two tasks that the first line of a text asks for, and the text after the line.
#[derive(Clone, Copy, Debug)]
pub struct PairLine<'a> {
    /// The call that the line asks for.
    pub call: CallOnTwo,
    /// The task that its first name is bound to.
    pub first: Task,
    /// The task that its second name is bound to.
    pub second: Task,
    /// The text after the line and its line feed.
    pub rest: &'a [u8],
}

/// A call about two tasks that the first line of a text asks for, whose names are bound or free, and the text after the
/// line.
#[derive(Clone, Copy, Debug)]
pub struct FoundPair<'a> {
    /// The call that the line asks for.
    pub call: CallOnTwo,
    /// The task that its first name is bound to, or `None` where the name is free.
    pub first: Option<Task>,
    /// The task that its second name is bound to, or `None` where the name is free.
    pub second: Option<Task>,
    /// The text after the line and its line feed.
    pub rest: &'a [u8],
}

// How many bytes hold the longest word of a step with its space, and all that is looked at to take the name at once.
const STEP_AT_ONCE: usize = 40;

/// The step of a meal that the first line of a text asks for, where the line is a usual one, has a line feed, and the first
/// hint leads to its name. It may find none where there is one, as near the end of a text.
///
/// It calls nothing, so what it finds takes no memory where it is compiled into a loop.
#[inline(always)]
pub fn cut_step<'a>(text: &'a [u8], names: &Names) -> Option<StepLine<'a>>
    ensures { IfSome result (λ step.
        BeginsUsual names.now (usual.OnOne step.call step.task) text.now step.rest.now) }
{
    if text.len() < STEP_AT_ONCE {
        return None;
    }
    let (call, named) = meal_step(text)?;
    let (task, rest) = cut_hinted(named, b'\n', names, Reach::First)?;
    Some(StepLine { call, task, rest })
}

/// The call about two tasks that the first line of a text asks for, where the line is a usual one, has a line feed, and
/// hints lead to both names. It may find none where there is one, as near the end of a text.
#[inline(always)]
pub fn cut_pair<'a>(text: &'a [u8], names: &Names) -> Option<PairLine<'a>>
    ensures { IfSome result (λ pair. BeginsUsual names.now
        (usual.OnTwo pair.call pair.first pair.second) text.now pair.rest.now) }
{
    let (call, named) = call_on_two(text)?;
    let (first, more) = cut_hinted(named, b' ', names, Reach::All)?;
    let (second, rest) = cut_hinted(more, b'\n', names, Reach::All)?;
    Some(PairLine {
        call,
        first,
        second,
        rest,
    })
}

/// As [`cut_pair`], whether or not hints lead to its names: one that is free has no task.
#[inline(always)]
pub fn find_pair<'a>(text: &'a [u8], names: &Names) -> Option<FoundPair<'a>>
    ensures { IfSome result (λ pair. BeginsTwo names.now
        (word_on_two pair.call) pair.first pair.second text.now pair.rest.now) }
{
    let (call, named) = call_on_two(text)?;
    let (first, more) = cut_name(named, b' ', names)?;
    let (second, rest) = cut_name(more, b'\n', names)?;
    Some(FoundPair {
        call,
        first,
        second,
        rest,
    })
}

/// The call about one task that the first line of a text asks for, where the line is the call's word, one space and a name,
/// and has a line feed: a step of a meal, or one that leaves, or that gives its hunger up. It may find none where there is
/// one, as near the end of a text.
#[inline(always)]
pub fn find_call<'a>(text: &'a [u8], names: &Names) -> Option<FoundCall<'a>>
    ensures { IfSome result (λ line.
        BeginsOne names.now (word_on_one line.call) line.task text.now line.rest.now) }
{
    let (call, named) = call_on_one(text)?;
    let (task, rest) = cut_name(named, b'\n', names)?;
    Some(FoundCall { call, task, rest })
}

/// The task whose state the first line of a text asks for, and the text after the line, where the line is `state`, one space
/// and a name that a hint leads to, and has a line feed. It may find none where there
/// is one, as near the end of a text.
#[inline(always)]
pub fn cut_state<'a>(text: &'a [u8], names: &Names) -> Option<(Task, &'a [u8])>
    ensures { IfSome result (λ cut.
        BeginsOne names.now (codes "state") (Some cut.0) text.now cut.1.now) }
{
    cut_hinted(after_state(text)?, b'\n', names, Reach::All)
}

/// As [`cut_state`], with or without a hint. There is no task where the name is free.
#[inline(always)]
pub fn find_state<'a>(text: &'a [u8], names: &Names) -> Option<(Option<Task>, &'a [u8])>
    ensures { IfSome result (λ cut.
        BeginsOne names.now (codes "state") cut.0 text.now cut.1.now) }
{
    cut_name(after_state(text)?, b'\n', names)
}

/// The task whose neighbours the first line of a text asks for, if its name is bound, and the text after the line, as
/// [`find_call`] finds the one that a call is about.
#[inline(always)]
pub fn find_neighbours<'a>(text: &'a [u8], names: &Names) -> Option<(Option<Task>, &'a [u8])>
    ensures { IfSome result (λ cut.
        BeginsOne names.now (codes "neighbours") cut.0 text.now cut.1.now) }
{
    cut_name(after_neighbours(text)?, b'\n', names)
}

/// The name with which the first line of a text joins, and the text after the line, where the line is `join`, one space
/// and a name, and has a line feed. It is a usual line if the name is free, which isn't asked here. It may find none where
/// there is one, as near the end of a text.
#[inline(always)]
pub fn cut_join(text: &[u8]) -> Option<(Name, &[u8])>
    ensures name { IfSome result (λ cut. is_name cut.0 ≡ true) }
    ensures text { IfSome result (λ cut.
        text.now ≡ join_word ++ 32 ∷ cut.0 ++ 10 ∷ cut.1.now) }
{
    let Some(named) = after_join(text) else {
        return None;
    };
    let Some((name, rest)) = Name::cut_at_once(named) else {
        return None;
    };
    match rest {
        [b'\n', rest @ ..] => Some((name, rest)),
        _ => None,
    }
}

// The task of the name at the front of a text, and what follows the byte that ends it, where a hint within reach leads to
// the name. Such a name is one, so its letters aren't looked at.
#[inline(always)]
fn cut_hinted<'a>(text: &'a [u8], end: u8, names: &Names, reach: Reach) -> Option<(Task, &'a [u8])>
    ensures { IfSome result (λ cut. BeginsBound names.now text.now end cut.0 cut.1.now) }
{
    let word = front_word(text, end)?;
    let task = names.hinted(word.low, word.high, reach)?;
    Some((task, word.rest))
}

// The task of the name at the front of a text, if the name is bound, and what follows the byte that ends it. Hints lead to
// nearly all bound names, and then its letters aren't looked at.
#[inline(always)]
fn cut_name<'a>(text: &'a [u8], end: u8, names: &Names) -> Option<(Option<Task>, &'a [u8])>
    ensures { IfSome result (λ cut. BeginsName names.now text.now end cut.0 cut.1.now) }
{
    let word = front_word(text, end)?;
    if let Some(task) = names.hinted(word.low, word.high, Reach::All) {
        return Some((Some(task), word.rest));
    }
    if names.has_no_hint(word.low, word.high) {
        return if Name::is_front(text, word.len) {
            Some((None, word.rest))
        } else {
            None
        };
    }
    match names.find(text, word.len) {
        Found::At(place) => Some((Some(names.task_at(place)?), word.rest)),
        Found::Free => Some((None, word.rest)),
        Found::NoName => None,
    }
}

// The step of a meal whose word and one space a text begins with, and the text after them.
#[inline(always)]
fn meal_step(text: &[u8]) -> Option<(CallOnOne, &[u8])>
    ensures { IfSome result (λ cut. text.now ≡ word_on_one cut.0 ++ 32 ∷ cut.1.now) }
{
    if text.len() < 8 {
        return None;
    }
    let first = eight_at(text, 0);
    if begins_with(first, *b"hungry  ", 7) {
        Some((CallOnOne::Hungry, &text[7..]))
    } else if begins_with(first, *b"begin   ", 6) {
        Some((CallOnOne::Begin, &text[6..]))
    } else if begins_with(first, *b"finish  ", 7) {
        Some((CallOnOne::Finish, &text[7..]))
    } else {
        None
    }
}

// The call about one task whose word and one space a text begins with, and the text after them. Eight bytes at once tell
// whether it is `leave`, the commonest of those that are no step of a meal.
#[inline(always)]
fn call_on_one(text: &[u8]) -> Option<(CallOnOne, &[u8])>
    ensures { IfSome result (λ cut. text.now ≡ word_on_one cut.0 ++ 32 ∷ cut.1.now) }
{
    if text.len() >= 8 && begins_with(eight_at(text, 0), *b"leave   ", 6) {
        return Some((CallOnOne::Leave, &text[6..]));
    }
    CallOnOne::cut(text)
}

// The call about two tasks whose word and one space a text begins with, and the text after them.
#[inline(always)]
fn call_on_two(text: &[u8]) -> Option<(CallOnTwo, &[u8])>
    ensures { IfSome result (λ cut. text.now ≡ word_on_two cut.0 ++ 32 ∷ cut.1.now) }
{
    if text.len() < 9 || text[8] != b' ' {
        return None;
    }
    let asked = pair_word(eight_at(text, 0))?;
    Some((asked, &text[9..]))
}

// The call about two tasks whose word eight bytes are, as one number: both words have so many. Which of them it may be is
// told by a bit of their first letters, and not tried: so the processor looks for the names before it knows, where no line
// foretells the next.
#[inline(always)]
fn pair_word(eight: u64) -> Option<CallOnTwo>
    ensures { IfSome result (λ asked. take 8 (to_le_bytes w64 eight) ≡ word_on_two asked) }
{
    let (asked, word) = if eight.wrapping_shr(4) & 1 == 0 {
        (CallOnTwo::Conflict, *b"conflict")
    } else {
        (CallOnTwo::Separate, *b"separate")
    };
    if begins_with(eight, word, 8) {
        Some(asked)
    } else {
        None
    }
}

// The text after `state `.
#[inline(always)]
fn after_state(text: &[u8]) -> Option<&[u8]>
    ensures { IfSome result (λ rest. text.now ≡ codes "state" ++ 32 ∷ rest.now) }
{
    if text.len() < 8 || !begins_with(eight_at(text, 0), *b"state   ", 6) {
        return None;
    }
    Some(&text[6..])
}

// The text after `neighbours `. Eight bytes at once tell it from nearly all other texts.
#[inline(always)]
fn after_neighbours(text: &[u8]) -> Option<&[u8]>
    ensures { IfSome result (λ rest. text.now ≡ codes "neighbours" ++ 32 ∷ rest.now) }
{
    if text.len() < 8 || !begins_with(eight_at(text, 0), *b"neighbou", 8) {
        return None;
    }
    match &text[8..] {
        [b'r', b's', b' ', rest @ ..] => Some(rest),
        _ => None,
    }
}

// The text after `join `.
#[inline(always)]
fn after_join(text: &[u8]) -> Option<&[u8]>
    ensures { IfSome result (λ rest. text.now ≡ join_word ++ 32 ∷ rest.now) }
{
    if text.len() < 8 || !begins_with(eight_at(text, 0), *b"join    ", 5) {
        return None;
    }
    Some(&text[5..])
}

// Whether the first bytes of the eight, which are one number, are those of the word, which has so many.
#[inline(always)]
fn begins_with(eight: u64, word: [u8; 8], len: usize) -> bool
    requires { len ≤ 8 }
    ensures { IsTrue result → take len (to_le_bytes w64 eight) ≡ take len word }
{
    first_of(eight, len) == first_of(half(word), len)
}
