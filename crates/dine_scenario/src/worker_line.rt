//! What a line of a scenario asks for, whichever names are known.

ghost use Rattle.std.specs.Prelude.{◌≡◌, if◌then◌else◌, IfNone, IfSome};
ghost use Rattle.dine_lines.specs.Names.{is_name};
ghost use Rattle.dine_scenario.specs.Asked.{call_asked, call_of, if_named, names_of_call, names_of_step, scenario_words, step_asked, step_of};
ghost use Rattle.dine_scenario.specs.Cut.{AsksNothing, words_seen};

use crate::scenario::{NamedCall, Step};
use dine_lines::{LineFault, Name, is_too_long, next_word};
use dine_words::{CallOnOne, CallOnTwo, is_join};

/// The call that a line asks for, or the first fault that the line has whichever names are known.
pub fn read_call(line: &[u8]) -> Result<NamedCall, LineFault>
    ensures { result ≡ call_of line.now }
{
    call_in(cut(line).ok_or(LineFault::Words)?)
}

/// The step that a line asks for, or the first fault that the line has whichever names are known.
pub fn read_step(line: &[u8]) -> Result<Step, LineFault>
    ensures { result ≡ step_of line.now }
{
    step_in(cut(line).ok_or(LineFault::Words)?)
}

// The words of a line that may ask for something: the first word, and the one name or two after it.
#[derive(Clone, Copy)]
enum Words<'a> {
    One(&'a [u8], &'a [u8]),
    Two(&'a [u8], &'a [u8], &'a [u8]),
}

// The words of a line, or `None` where the line is no line, or has too few words or too many.
fn cut(line: &[u8]) -> Option<Words<'_>>
    ensures some { IfSome result (λ words. scenario_words line.now ≡ words_seen words) }
    ensures none { IfNone result (AsksNothing (scenario_words line.now)) }
{
    if is_too_long(line) || line.contains(&b'\n') {
        return None;
    }
    let (word, rest) = next_word(line)?;
    let (first, rest) = next_word(rest)?;
    let Some((second, rest)) = next_word(rest) else {
        return Some(Words::One(word, first));
    };
    match next_word(rest) {
        Some(_) => None,
        None => Some(Words::Two(word, first, second)),
    }
}

// The step that the words ask for.
fn step_in(words: Words) -> Result<Step, LineFault>
    ensures { result ≡ if_named names_of_step (step_asked (words_seen words.entry)) }
{
    if let Words::One(word, name) = words {
        if word == b"eat".as_slice() {
            return Ok(Step::Eat(read_name(name)?));
        }
        if word == b"look".as_slice() {
            return Ok(Step::Look(read_name(name)?));
        }
    }
    Ok(Step::Call(call_in(words)?))
}

// The call that the words ask for.
fn call_in(words: Words) -> Result<NamedCall, LineFault>
    ensures { result ≡ if_named names_of_call (call_asked (words_seen words.entry)) }
{
    match words {
        Words::One(word, name) if is_join(word) => Ok(NamedCall::Join(read_name(name)?)),
        Words::One(word, name) => {
            let call = CallOnOne::read(word).ok_or(LineFault::Words)?;
            Ok(NamedCall::OnOne(call, read_name(name)?))
        }
        Words::Two(word, first, second) => {
            let call = CallOnTwo::read(word).ok_or(LineFault::Words)?;
            Ok(NamedCall::OnTwo(call, read_name(first)?, read_name(second)?))
        }
    }
}

// The name that a word is.
fn read_name(word: &[u8]) -> Result<Name, LineFault>
    ensures { result ≡ (if is_name word.now then Ok word.now else Err LineFault.Name) }
{
    Name::read(word).ok_or(LineFault::Name)
}
