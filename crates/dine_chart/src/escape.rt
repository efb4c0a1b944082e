//! A text that somebody gives, written so that it can't end what it stands in. On `Err` a part may have been appended.

ghost use Rattle.std.specs.Prelude.{◌≡◌, ◌++◌, ◌∷◌, [], OnErr, OnOk, codes, if◌then◌else◌, option_map};
ghost use mathlib.Core.List.{IsPrefix};
ghost use Rattle.dine_chart.specs.Escapes.{byte_in, is_control, text_in};
ghost use Rattle.dine_chart.specs.Picture.{name_in};

use crate::piece::{Pushed, push};
use dine_words::Task;

/// What a text that somebody gives stands in.
#[derive(Clone, Copy)]
pub(crate) enum Setting {
    /// Markup, between tags or in the quotes of an attribute's value.
    Markup,
    /// The quotes of JSON.
    Json,
    /// The quotes of DOT.
    Dot,
}

/// Appends a task's name: the text that is given for it, or its own.
pub(crate) fn push_name_in(
    out: &mut Vec<u8>,
    setting: Setting,
    given: Option<&[u8]>,
    task: Task,
) -> Pushed
    ensures ok { OnOk result (out.new.items
        ≡ out.old.items ++ name_in setting (option_map (λ text. text.now) given.entry) task) }
    ensures err { OnErr result (IsPrefix out.old.items out.new.items) }
{
    match given {
        Some(text) => push_text(out, setting, text),
        None => task.write_to(out),
    }
}

// Appends a text that somebody gives.
fn push_text(out: &mut Vec<u8>, setting: Setting, text: &[u8]) -> Pushed
    ensures ok { OnOk result (out.new.items ≡ out.old.items ++ text_in setting text.now) }
    ensures err { OnErr result (IsPrefix out.old.items out.new.items) }
{
    for byte in text {
        push_in(out, setting, *byte)?;
    }
    Ok(())
}

// What stands for a byte.
fn push_in(out: &mut Vec<u8>, setting: Setting, byte: u8) -> Pushed
    ensures ok { OnOk result (out.new.items ≡ out.old.items ++ byte_in setting byte) }
    ensures err { OnErr result (IsPrefix out.old.items out.new.items) }
{
    match (setting, byte) {
        (Setting::Markup | Setting::Dot, b'&') => push(out, b"&amp;"),
        (Setting::Markup, b'<') => push(out, b"&lt;"),
        (Setting::Markup, b'>') => push(out, b"&gt;"),
        (Setting::Markup, b'"') => push(out, b"&quot;"),
        (Setting::Markup, b'\'') => push(out, b"&#39;"),
        (Setting::Json | Setting::Dot, b'"') => push(out, b"\\\""),
        (Setting::Json | Setting::Dot, b'\\') => push(out, b"\\\\"),
        _ => push_shown(out, byte),
    }
}

// Appends a byte, or a question mark for a control character.
fn push_shown(out: &mut Vec<u8>, byte: u8) -> Pushed
    ensures ok { OnOk result (out.new.items
        ≡ out.old.items ++ (if is_control byte then codes "?" else byte ∷ [])) }
    ensures err { OnErr result (IsPrefix out.old.items out.new.items) }
{
    match byte {
        0..=31 | 127 => push(out, b"?"),
        _ => push_byte(out, byte),
    }
}

// Appends a byte.
fn push_byte(out: &mut Vec<u8>, byte: u8) -> Pushed
    ensures ok { OnOk result (out.new.items ≡ out.old.items ++ byte ∷ []) }
    ensures err { OnErr result (IsPrefix out.old.items out.new.items) }
{
    out.push(byte)?;
    Ok(())
}
