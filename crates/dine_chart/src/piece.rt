//! Pieces of text that all kinds of pictures are made of. On `Err` a part may have been appended.

ghost use Rattle.std.specs.Prelude.{◌≡◌, ◌++◌, ◌+◌, ◌≤◌, OnErr, OnOk, length, vec_capacity, vec_len};
ghost use mathlib.Core.List.{IsPrefix};
ghost use Rattle.dine_chart.specs.Pieces.{counted, numbered, point_text};

use dine_words::{NUMBER_LEN, push_number, push_numbered, put_number, put_text};
use std::alloc::AllocError;

/// What comes of appending a text: an error is want of memory.
pub(crate) type Pushed = Result<(), AllocError>;

/// Appends a text.
pub(crate) fn push(out: &mut Vec<u8>, text: &[u8]) -> Pushed
    ensures ok { OnOk result (out.new.items ≡ out.old.items ++ text.now) }
    ensures err { OnErr result (IsPrefix out.old.items out.new.items) }
{
    out.extend_from_slice(text)
}

/// Appends how many there are of something: its word gets an s, but for one.
#[tactic(auto, unfolding(crate::specs::Pieces::counted))]
pub(crate) fn push_counted(out: &mut Vec<u8>, number: u64, word: &[u8]) -> Pushed
    ensures ok { OnOk result (out.new.items ≡ out.old.items ++ counted number word.now) }
    ensures err { OnErr result (IsPrefix out.old.items out.new.items) }
{
    push_number(out, number)?;
    push(out, word)?;
    if number == 1 { Ok(()) } else { push(out, b"s") }
}

/// Appends a point behind a text.
#[tactic(auto, unfolding(crate::specs::Pieces::point_text))]
pub(crate) fn push_point(out: &mut Vec<u8>, opening: &[u8], x: u64, y: u64) -> Pushed
    ensures ok { OnOk result (out.new.items ≡ out.old.items ++ point_text opening.now x y) }
    ensures err { OnErr result (IsPrefix out.old.items out.new.items) }
{
    push_numbered(out, opening, x)?;
    push_numbered(out, b" ", y)
}

/// Appends a text, and a number behind it, as one piece.
#[tactic(auto, unfolding(crate::specs::Pieces::numbered))]
pub(crate) fn push_labelled(out: &mut Vec<u8>, text: &[u8], number: u64) -> Pushed
    ensures ok { OnOk result (out.new.items ≡ out.old.items ++ numbered text.now number) }
    ensures err { OnErr result (IsPrefix out.old.items out.new.items) }
{
    push_numbered(out, text, number)
}

/// Appends a text, and a number behind it, for which there is room.
#[inline(always)]
#[tactic(auto, unfolding(crate::specs::Pieces::numbered))]
pub(crate) fn put_labelled(out: &mut Vec<u8>, text: &[u8], number: u64)
    requires { vec_len out.old + length text.now + NUMBER_LEN ≤ vec_capacity out.old }
    ensures text { out.new.items ≡ out.old.items ++ numbered text.now number }
    ensures len { vec_len out.new ≤ vec_len out.old + length text.now + NUMBER_LEN }
    ensures capacity { vec_capacity out.old ≤ vec_capacity out.new }
{
    put_text(out, text);
    put_number(out, number);
}
