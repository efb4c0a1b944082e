//! Lines of a text and words of a line, as slices of them.

ghost use Rattle.std.specs.Prelude.{◌≡◌, ℕ, ◌<◌, ◌≤◌, ◌-◌, true, false, [], ◌∷◌, drop, length, slice_index, IfSome, IfNone};
ghost use Rattle.dine_lines.specs.Lines.{PassesFirst, is_blank, is_passed_over, is_too_long, lines_of, words_of};

use crate::line_feed::line_feed;
use dine_words::MAX_LINE;
use memchr::memchr;

/// The first line of a text without its line feed, and the text after it. `None` where the text is empty.
pub fn next_line(text: &[u8]) -> Option<(&[u8], &[u8])>
    ensures none { IfNone result (lines_of text.now ≡ []) }
    ensures some { IfSome result (λ cut.
        lines_of text.now ≡ cut.0.now ∷ lines_of cut.1.now) }
    ensures shorter { IfSome result (λ cut. length cut.1.now < length text.now) }
    ensures left { IfSome result (λ cut.
        cut.1.now ≡ drop (length text.now - length cut.1.now) text.now) }
{
    if text.is_empty() {
        return None;
    }
    match memchr(b'\n', text) {
        Some(end) => Some((&text[..end], &text[end + 1..])),
        None => Some((text, &[])),
    }
}

/// The text after the first line, where that line begins with `#`, isn't too long and has a line feed. Such a line is
/// passed over, and nobody looks at its words.
#[inline(always)]
pub fn after_comment(text: &[u8]) -> Option<&[u8]>
    ensures { IfSome result (λ rest. PassesFirst text.now rest.now) }
{
    if text.is_empty() || text[0] != b'#' {
        return None;
    }
    match line_feed(text) {
        Some(end) if end <= MAX_LINE => Some(&text[end + 1..]),
        _ => None,
    }
}

/// The text after the first line, where that line has no byte at all. It is passed over.
#[inline(always)]
pub fn after_empty(text: &[u8]) -> Option<&[u8]>
    ensures { IfSome result (λ rest. PassesFirst text.now rest.now) }
{
    match text {
        [b'\n', rest @ ..] => Some(rest),
        _ => None,
    }
}

/// The first word of a line, and what follows it. `None` where the line has no word.
pub fn next_word(line: &[u8]) -> Option<(&[u8], &[u8])>
    ensures none { IfNone result (words_of line.now ≡ []) }
    ensures some { IfSome result (λ cut.
        words_of line.now ≡ cut.0.now ∷ words_of cut.1.now) }
    ensures filled { IfSome result (λ cut. 0 < length cut.0.now) }
{
    let rest = without_blanks(line);
    if rest.is_empty() {
        return None;
    }
    Some(rest.split_at(word_len(rest)))
}

/// Whether a line has no word, or its first word begins with `#`. It looks at no byte after that one.
pub fn is_passed_over(line: &[u8]) -> bool
    ensures { result ≡ is_passed_over (words_of line.now) }
{
    let rest = without_blanks(line);
    rest.is_empty() || rest[0] == b'#'
}

// What follows the blanks at the front of a line.
fn without_blanks(line: &[u8]) -> &[u8]
    ensures words { words_of line.now ≡ words_of result.now }
    ensures first { 0 < length result.now → is_blank (slice_index result.now 0) ≡ false }
{
    &line[blanks_len(line)..]
}

// How many blanks stand at the front of a line.
pub(crate) fn blanks_len(line: &[u8]) -> usize
    ensures bound { result ≤ length line.now }
    ensures before { (k : ℕ) → k < result → is_blank (slice_index line.now k) ≡ true }
    ensures end { result < length line.now → is_blank (slice_index line.now result) ≡ false }
{
    let end = line.iter().position(|byte| !is_blank(*byte));
    end.unwrap_or(line.len())
}

// How many bytes the word at the front of a line has.
fn word_len(line: &[u8]) -> usize
    ensures bound { result ≤ length line.now }
    ensures before { (k : ℕ) → k < result → is_blank (slice_index line.now k) ≡ false }
    ensures end { result < length line.now → is_blank (slice_index line.now result) ≡ true }
{
    let end = line.iter().position(|byte| is_blank(*byte));
    end.unwrap_or(line.len())
}

/// Whether a line has more bytes than a line may have.
pub fn is_too_long(line: &[u8]) -> bool
    ensures { result ≡ is_too_long line.now }
{
    line.len() > MAX_LINE
}

// Whether a byte is a space, a tab or a carriage return.
fn is_blank(byte: u8) -> bool
    ensures { result ≡ is_blank byte }
{
    matches!(byte, b' ' | b'\t' | b'\r')
}
