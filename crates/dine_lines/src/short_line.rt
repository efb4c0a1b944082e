//! Words of short lines, each found by one comparison of many bytes.

ghost use Rattle.std.specs.Prelude.{◌≡◌, ◌<◌, ◌≤◌, true, length, take, IfSome};
ghost use Rattle.std.specs.List.{list_all};
ghost use Rattle.dine_lines.specs.Lines.{is_blank};
ghost use Rattle.dine_lines.specs.Runs.{IsRunIn};
ghost use Rattle.dine_lines.specs.ShortWords.{BeginsBlank, BeginsFilledLine, BeginsSpaced, BeginsWord, is_above_space};

use crate::line_words::{blanks_len, next_line};
use crate::name::first_bit;
use std::simd::prelude::*;

// How many bytes are looked at at once: a short word and the byte that ends it are among them.
const AT_ONCE: usize = 32;

/// A short word at the front of a text, and what follows it.
#[derive(Clone, Copy, Debug)]
pub struct ShortWord<'a> {
    /// How many bytes it has, from 1 to 31.
    pub len: usize,
    /// Whether its line ends behind it.
    pub is_last: bool,
    /// The text after the space, the blanks or the line feed behind it.
    pub rest: &'a [u8],
}

/// The word at the front of a text, where it has fewer than 32 bytes, all above the space, and one space or a line feed is
/// behind it. It may find none where there is one, as near the end of a text.
#[inline(always)]
pub fn short_word(text: &[u8]) -> Option<ShortWord<'_>>
    ensures { IfSome result (λ w. BeginsWord text.now w.len w.is_last w.rest.now) }
{
    if text.len() < AT_ONCE {
        return None;
    }
    let len = len_above_space(text);
    if len == 0 || len == AT_ONCE {
        return None;
    }
    let is_last = match text[len] {
        b' ' => false,
        b'\n' => true,
        _ => return None,
    };
    let rest = &text[len + 1..];
    Some(ShortWord { len, is_last, rest })
}

/// As [`short_word`], with fewer than 32 blanks of any kind behind the word, one at least where it isn't the last of its line.
/// The rest begins behind them.
#[inline(always)]
pub fn spaced_word(text: &[u8]) -> Option<ShortWord<'_>>
    ensures { IfSome result (λ w. BeginsSpaced text.now w.len w.is_last w.rest.now) }
{
    if text.len() < AT_ONCE {
        return None;
    }
    let len = len_above_space(text);
    if len == 0 || len == AT_ONCE {
        return None;
    }
    let gap = few_blanks(&text[len..])?;
    let end = len + gap;
    if end >= text.len() {
        return None;
    }
    if text[end] == b'\n' {
        let rest = &text[end + 1..];
        let is_last = true;
        return Some(ShortWord { len, is_last, rest });
    }
    if gap == 0 {
        return None;
    }
    let rest = &text[end..];
    let is_last = false;
    Some(ShortWord { len, is_last, rest })
}

/// The text after the blanks at its front, if they are fewer than 32.
#[inline(always)]
pub fn after_blanks(text: &[u8]) -> Option<&[u8]>
    ensures { IfSome result (λ rest. BeginsBlank text.now rest.now) }
{
    let gap = few_blanks(text)?;
    Some(&text[gap..])
}

/// The text after the first line, where the text begins with a byte above the space, so that the line has a word. `None` where
/// it doesn't.
#[inline(always)]
pub fn after_filled_line(text: &[u8]) -> Option<&[u8]>
    ensures { IfSome result (λ rest. BeginsFilledLine text.now rest.now) }
{
    if text.is_empty() || text[0] <= b' ' {
        return None;
    }
    match next_line(text) {
        Some((_, rest)) => Some(rest),
        None => None,
    }
}

// How many blanks stand at the front of a text, if they are fewer than 32.
#[inline(always)]
fn few_blanks(text: &[u8]) -> Option<usize>
    ensures few { IfSome result (λ gap. gap < AT_ONCE) }
    ensures within { IfSome result (λ gap. gap ≤ length text.now) }
    ensures blanks { IfSome result (λ gap. list_all is_blank (take gap text.now) ≡ true) }
{
    let gap = blanks_len(text);
    if gap < AT_ONCE { Some(gap) } else { None }
}

// How many of the bytes that are looked at stand before the first one up to the space.
#[inline(always)]
fn len_above_space(text: &[u8]) -> usize
    requires { AT_ONCE ≤ length text.now }
    ensures { IsRunIn is_above_space text.now AT_ONCE result }
{
    let ends = u8x32::from_slice(text).simd_le(u8x32::splat(b' '));
    first_bit(ends.to_bitmask(), AT_ONCE)
}
