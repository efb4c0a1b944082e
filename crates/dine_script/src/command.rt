//! What a line of a script asks for, or the first fault that it has.

ghost use Rattle.std.specs.Prelude.{◌≡◌, ◌≤◌, [], ◌∷◌, length, take, Err, IfSome};
ghost use Rattle.dine_words.specs.CallWords.{call_on_two};
ghost use Rattle.dine_lines.specs.Lines.{words_of};
ghost use Rattle.dine_script.specs.Commands.{ReadsFirst, about_one, command_of, command_on_one, join_of, one_named, reading_of, two_named, unnamed};

use dine_lines::{
    LineFault, Name, Names, after_blanks, after_filled_line, is_passed_over, is_too_long,
    next_word, short_word, spaced_word,
};
use dine_words::{Call, CallOnOne, CallOnTwo, Task, is_join};

/// What a line of a script asks for, with the tasks that its names are bound to.
#[derive(Clone, Copy, Debug)]
pub enum Command {
    /// A task joins, and takes this name, which is free.
    Join(Name),
    /// A call is made.
    Call(Call),
    /// The state of a task.
    State(Task),
    /// The tasks that a task is in conflict with.
    Neighbours(Task),
    /// The ready task whose last meal is the earliest.
    Next,
}

/// What can be asked about one task.
#[derive(Clone, Copy, Debug, PartialEq, Eq, Hash)]
pub enum AboutOne {
    Call(CallOnOne),
    State,
    Neighbours,
}

impl AboutOne {
    /// What the word asks about one task, if it asks such a thing.
    #[inline(always)]
    pub fn read(word: &[u8]) -> Option<AboutOne>
        ensures { result ≡ about_one word.now }
    {
        if let Some(call) = CallOnOne::read(word) {
            return Some(AboutOne::Call(call));
        }
        match word {
            b"state" => Some(AboutOne::State),
            b"neighbours" => Some(AboutOne::Neighbours),
            _ => None,
        }
    }

    /// The command about this task.
    pub fn on(self, task: Task) -> Command
        ensures { result ≡ command_on_one self task }
    {
        match self {
            AboutOne::Call(call) => Command::Call(call.on(task)),
            AboutOne::State => Command::State(task),
            AboutOne::Neighbours => Command::Neighbours(task),
        }
    }
}

/// What a line asks for: `None` where it is passed over, and an error where it has a fault.
pub fn read_line(names: &Names, line: &[u8]) -> Result<Option<Command>, LineFault>
    ensures { result ≡ reading_of names.now line.now }
{
    if is_too_long(line) {
        return Err(LineFault::Words);
    }
    if is_passed_over(line) {
        return Ok(None);
    }
    Ok(Some(read_command(names, line)?))
}

// What the words of a line ask for.
fn read_command(names: &Names, line: &[u8]) -> Result<Command, LineFault>
    ensures { result ≡ command_of names.now (words_of line.now) }
{
    let Some((word, rest)) = next_word(line) else {
        return Err(LineFault::Words);
    };
    let Some((first, rest)) = next_word(rest) else {
        return read_unnamed(word);
    };
    let Some((second, rest)) = next_word(rest) else {
        return read_one_named(names, word, first, first.len());
    };
    if next_word(rest).is_some() {
        return Err(LineFault::Words);
    }
    read_two_named(names, word, first, first.len(), second, second.len())
}

/// The fault of the first line of a text, and the text after it, where the line has up to three short words, one space
/// between two of them and none elsewhere, and begins with no `#`; or where it has more words, and the first three are such.
/// `None` where it has no fault, too; and it may find none where there is one, as near the end of a text. Each word is found
/// by one comparison, and the line is not cut off first.
#[inline(always)]
pub fn short_fault<'a>(names: &Names, text: &'a [u8]) -> Option<(LineFault, &'a [u8])>
    ensures { IfSome result (λ cut. ReadsFirst names.now text.now cut.1.now (Err cut.0)) }
{
    let word = short_word(text)?;
    if text[0] == b'#' {
        return None;
    }
    let asked = &text[..word.len];
    if word.is_last {
        return fault_in(read_unnamed(asked), word.rest);
    }
    let named = word.rest;
    let first = short_word(named)?;
    if first.is_last {
        let reading = read_one_named(names, asked, named, first.len);
        return fault_in(reading, first.rest);
    }
    let more = first.rest;
    let second = short_word(more)?;
    if !second.is_last {
        return Some((LineFault::Words, after_filled_line(second.rest)?));
    }
    let reading = read_two_named(names, asked, named, first.len, more, second.len);
    fault_in(reading, second.rest)
}

/// What the first line of a text asks for, and the text after it, where the line has up to three short words, with blanks of
/// any kind before, between and behind them, and begins with no `#`. It may find none where there is one, as near the end of
/// a text.
#[inline(always)]
pub fn read_spaced<'a>(
    names: &Names,
    text: &'a [u8],
) -> Option<(Result<Command, LineFault>, &'a [u8])>
    ensures { IfSome result (λ read. ReadsFirst names.now text.now read.1.now read.0) }
{
    let line = after_blanks(text)?;
    let word = spaced_word(line)?;
    if line[0] == b'#' {
        return None;
    }
    let asked = &line[..word.len];
    if word.is_last {
        return Some((read_unnamed(asked), word.rest));
    }
    let named = word.rest;
    let first = spaced_word(named)?;
    if first.is_last {
        let reading = read_one_named(names, asked, named, first.len);
        return Some((reading, first.rest));
    }
    let more = first.rest;
    let second = spaced_word(more)?;
    if !second.is_last {
        return None;
    }
    let read = read_two_named(names, asked, named, first.len, more, second.len);
    Some((read, second.rest))
}

// The fault of a line that was read so, if it has one, with the text after it.
#[inline(always)]
fn fault_in(reading: Result<Command, LineFault>, rest: &[u8]) -> Option<(LineFault, &[u8])>
    ensures fault { IfSome result (λ cut. reading ≡ Err cut.0) }
    ensures rest { IfSome result (λ cut. cut.1.now ≡ rest.now) }
{
    match reading {
        Ok(_) => None,
        Err(fault) => Some((fault, rest)),
    }
}

// What a lone word asks for.
#[inline(always)]
fn read_unnamed(word: &[u8]) -> Result<Command, LineFault>
    ensures { result ≡ unnamed word.now }
{
    match word {
        b"next" => Ok(Command::Next),
        _ => Err(LineFault::Words),
    }
}

// What a word asks for that has one name after it: the first bytes of this text, so many.
#[inline(always)]
fn read_one_named(names: &Names, word: &[u8], text: &[u8], len: usize) -> Result<Command, LineFault>
    requires { len ≤ length text.now }
    ensures { result ≡ command_of names.now (word.now ∷ take len text.now ∷ []) }
{
    if is_join(word) {
        return read_join(names, text, len);
    }
    read_about(names, word, text, len)
}

// What a word other than `join` asks for that has one name after it, the first bytes of this text, so many.
#[inline(always)]
fn read_about(names: &Names, word: &[u8], text: &[u8], len: usize) -> Result<Command, LineFault>
    requires { len ≤ length text.now }
    ensures { result ≡ one_named names.now (about_one word.now) (take len text.now) }
{
    let about = AboutOne::read(word).ok_or(LineFault::Words)?;
    let name = Name::front(text, len).ok_or(LineFault::Name)?;
    let task = names.task(name).ok_or(LineFault::Unbound)?;
    Ok(about.on(task))
}

// What `join` and a name ask for. The name is the first bytes of this text, so many.
#[inline(always)]
fn read_join(names: &Names, text: &[u8], len: usize) -> Result<Command, LineFault>
    requires { len ≤ length text.now }
    ensures { result ≡ join_of names.now (take len text.now) }
{
    let name = Name::front(text, len).ok_or(LineFault::Name)?;
    match names.task(name) {
        Some(_) => Err(LineFault::Bound),
        None => Ok(Command::Join(name)),
    }
}

// What a word asks for that has two names after it: the first bytes of each of these texts, so many.
#[inline(always)]
fn read_two_named(
    names: &Names,
    word: &[u8],
    text: &[u8],
    len: usize,
    more: &[u8],
    more_len: usize,
) -> Result<Command, LineFault>
    requires first { len ≤ length text.now }
    requires second { more_len ≤ length more.now }
    ensures { result ≡ two_named names.now (call_on_two word.now)
        (take len text.now) (take more_len more.now) }
{
    let call = CallOnTwo::read(word).ok_or(LineFault::Words)?;
    let first = Name::front(text, len).ok_or(LineFault::Name)?;
    let second = Name::front(more, more_len).ok_or(LineFault::Name)?;
    let first = names.task(first).ok_or(LineFault::Unbound)?;
    let second = names.task(second).ok_or(LineFault::Unbound)?;
    Ok(Command::Call(call.on(first, second)))
}
