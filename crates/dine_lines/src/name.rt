//! Names of tasks in scripts.

ghost use Rattle.std.specs.Prelude.{◌≡◌, ◌≢◌, ℕ, ◌<◌, ◌≤◌, ◌-◌, ◌∷◌, ◌++◌, [], true, false, length, take, drop, is_some, replicate, IfNone, IfSome, IsTrue, slice_index, ◌+◌};
ghost use Rattle.std.specs.Int.{to_le_bytes, w64};
ghost use Rattle.std.specs.Str.{bytes_eq};
ghost use Rattle.std.specs.Cmp.Rules.{comparing, hashing};
ghost use Rattle.std.proofs.Common.{rules};
ghost use Rattle.dine_lines.specs.Names.{begins_name, is_name, is_name_byte, most_letters};
ghost use Rattle.dine_lines.specs.Padding.{AreFront, padded};
ghost use Rattle.dine_lines.specs.Runs.{IsRunIn, first_bit};

use std::hash::{Hash, Hasher};
use std::marker::Model;
use std::simd::prelude::*;

/// The most letters that a name may have.
pub const MAX_NAME: usize = 16;

/// The name of a task in a script: from 1 to [`MAX_NAME`] letters from `a` to `z` and digits.
#[derive(Clone, Copy, Debug)]
pub struct Name {
    // The letters, filled up with zeros.
    letters: [u8; MAX_NAME],
}

impl Model for Name {
    ghost use Rattle.std.specs.Prelude.{◌≡◌, ℕ, List};
    ghost use Rattle.std.proofs.Common.{sym, ap};
    ghost use Rattle.dine_lines.specs.Padding.{IsNameKept, padded, word_in};

    ghost Value = { List ℕ };

    ghost view = { λ name. word_in name.letters };

    ghost invariant = { λ name. IsNameKept name.letters };

    ghost inverse = { λ word. record { letters = padded word } };

    ghost inverse_ok = { λ name kept. ap (λ letters. record { letters = letters }) (sym kept.padded) };
}

impl PartialEq for Name {
    ghost eq = { bytes_eq };

    ghost laws = { Prim.search (comparing, rules) };

    fn eq(&self, other: &Name) -> bool {
        self.halves() == other.halves()
    }
}

impl Eq for Name {
    ghost laws = { Prim.search (comparing, rules) };
}

// The letters go to the hasher in one write, since it takes many bytes at once faster than one by one.
impl Hash for Name {
    ghost hash_input = { λ word. padded word ∷ [] };

    ghost respects_eq = { Prim.search (hashing, rules) };

    fn hash<H: Hasher>(&self, state: &mut H) {
        state.write(&self.letters);
    }
}

impl Name {
    /// The word as a name, or `None` if it is no name.
    pub fn read(word: &[u8]) -> Option<Name>
        ensures exactly { is_some result ≡ is_name word.now }
        ensures letters { IfSome result (λ name. name ≡ word.now) }
    {
        match Name::cut(word) {
            Some((name, [])) => Some(name),
            _ => None,
        }
    }

    // The name at the front of a text, and the text after it. The name takes all letters that follow, up to the most that
    // it may have. `None` if the text doesn't begin with a letter or a digit.
    fn cut(text: &[u8]) -> Option<(Name, &[u8])>
        ensures none { IfNone result (begins_name text.now ≡ false) }
        ensures cut { IfSome result (λ cut. text.now ≡ cut.0 ++ cut.1.now) }
        ensures name { IfSome result (λ cut. is_name cut.0 ≡ true) }
        ensures whole { IfSome result (λ cut.
            length cut.0 < most_letters → begins_name cut.1.now ≡ false) }
    {
        let (letters, len) = front_letters(text);
        Name::at_front(text, letters, len)
    }

    /// As `cut`, with all letters compared at once. Near the end of a text it finds no name.
    #[inline(always)]
    pub(crate) fn cut_at_once(text: &[u8]) -> Option<(Name, &[u8])>
        ensures cut { IfSome result (λ cut. text.now ≡ cut.0 ++ cut.1.now) }
        ensures name { IfSome result (λ cut. is_name cut.0 ≡ true) }
    {
        if text.len() < MAX_NAME {
            return None;
        }
        let (letters, len) = letters_at_once(text);
        Name::at_front(text, letters, len)
    }

    /// The first `len` bytes of a text as a name, or `None` if they are no name. `len` is at most the text's length. All
    /// letters are compared at once, except near the end of a text.
    #[inline(always)]
    pub fn front(text: &[u8], len: usize) -> Option<Name>
        requires { len ≤ length text.now }
        ensures exactly { is_some result ≡ is_name (take len text.now) }
        ensures letters { IfSome result (λ name. name ≡ take len text.now) }
    {
        if text.len() >= MAX_NAME {
            let (letters, count) = letters_at_once(text);
            if count < len {
                return None;
            }
            if count == len {
                return match Name::at_front(text, letters, len) {
                    Some((name, _)) => Some(name),
                    None => None,
                };
            }
        }
        Name::read(&text[..len])
    }

    /// Whether the first `len` bytes of a text are a name. Near the end of a text it is `false` also for a name.
    #[inline(always)]
    pub(crate) fn is_front(text: &[u8], len: usize) -> bool
        requires { len ≤ length text.now }
        ensures { IsTrue result → is_name (take len text.now) ≡ true }
    {
        if text.len() < MAX_NAME || len == 0 {
            return false;
        }
        letters_before(text) >= len
    }

    // The name of the letters at the front of a text, if there are letters, and the text after them.
    #[inline(always)]
    fn at_front(text: &[u8], letters: [u8; MAX_NAME], len: usize) -> Option<(Name, &[u8])>
        requires { AreFront text.now letters len }
        ensures none { IfNone result (begins_name text.now ≡ false) }
        ensures cut { IfSome result (λ cut. text.now ≡ cut.0 ++ cut.1.now) }
        ensures name { IfSome result (λ cut. is_name cut.0 ≡ true) }
        ensures whole { IfSome result (λ cut.
            length cut.0 < most_letters → begins_name cut.1.now ≡ false) }
        ensures letters { IfSome result (λ cut. cut.0 ≡ take len text.now) }
    {
        if len == 0 {
            return None;
        }
        Some((Name { letters }, &text[len..]))
    }

    // Its letters, filled up with zeros, as two numbers: the first eight, and the last eight.
    #[inline(always)]
    pub(crate) fn halves(&self) -> (u64, u64)
        ensures letters { padded self.now
            ≡ to_le_bytes w64 result.0 ++ to_le_bytes w64 result.1 }
        ensures name { is_name self.now ≡ true }
    {
        halves(self.letters)
    }

    // Whether its letters, filled up with zeros, are these two numbers.
    #[inline(always)]
    pub(crate) fn has_halves(&self, low: u64, high: u64) -> bool
        ensures letters { IsTrue result →
            padded self.now ≡ to_le_bytes w64 low ++ to_le_bytes w64 high }
        ensures name { is_name self.now ≡ true }
    {
        let (own_low, own_high) = self.halves();
        own_low == low && own_high == high
    }

    /// Its letters.
    pub fn letters(&self) -> &[u8]
        ensures { result.now ≡ self.now }
    {
        &self.letters[..letters_len(&self.letters)]
    }
}

// How many letters are in front of the first zero.
fn letters_len(letters: &[u8]) -> usize
    ensures bound { result ≤ length letters.now }
    ensures before { (k : ℕ) → k < result → slice_index letters.now k ≢ 0 }
    ensures end { result < length letters.now → slice_index letters.now result ≡ 0 }
{
    let end = letters.iter().position(|letter| *letter == 0);
    end.unwrap_or(letters.len())
}

// The first and the last eight letters, each as one number: two comparisons tell two names apart.
#[inline(always)]
fn halves(letters: [u8; MAX_NAME]) -> (u64, u64)
    ensures { letters ≡ to_le_bytes w64 result.0 ++ to_le_bytes w64 result.1 }
{
    (eight_at(&letters, 0), eight_at(&letters, 8))
}

// Eight letters as one number.
#[inline(always)]
pub(crate) fn half(letters: [u8; 8]) -> u64
    ensures { letters ≡ to_le_bytes w64 result }
{
    u64::from_le_bytes(letters)
}

// The letters at the front of a text, as many as a name may have, filled up with zeros, and how many there are. All letters
// are compared at once, except near the end of a text.
#[inline(always)]
fn front_letters(text: &[u8]) -> ([u8; MAX_NAME], usize)
    ensures { AreFront text.now result.0 result.1 }
{
    if text.len() < MAX_NAME {
        few_letters(text)
    } else {
        letters_at_once(text)
    }
}

// As `front_letters`, with all letters compared at once.
#[inline(always)]
fn letters_at_once(text: &[u8]) -> ([u8; MAX_NAME], usize)
    requires { most_letters ≤ length text.now }
    ensures { AreFront text.now result.0 result.1 }
{
    let len = letters_before(text);
    (first_letters(text, len), len)
}

// How many letters are at the front of a text, at most as many as a name may have.
#[inline(always)]
fn letters_before(text: &[u8]) -> usize
    requires { most_letters ≤ length text.now }
    ensures { IsRunIn is_name_byte text.now most_letters result }
{
    let bytes = u8x16::from_slice(text);
    let from_a = bytes - u8x16::splat(b'a');
    let from_0 = bytes - u8x16::splat(b'0');
    let ends = from_a.simd_ge(u8x16::splat(26)) & from_0.simd_ge(u8x16::splat(10));
    first_bit(ends.to_bitmask(), MAX_NAME)
}

// The place of a mask's lowest bit, or `most` if the mask has no bit.
#[inline(always)]
pub(crate) fn first_bit(mask: u64, most: usize) -> usize
    ensures { result ≡ first_bit mask most }
{
    if mask == 0 {
        most
    } else {
        mask.trailing_zeros() as usize
    }
}

// The place of each lane of a vector.
const PLACES: [u8; MAX_NAME] = [0, 1, 2, 3, 4, 5, 6, 7, 8, 9, 10, 11, 12, 13, 14, 15];

// The first `len` bytes of a text, filled up with zeros.
#[inline(always)]
fn first_letters(text: &[u8], len: usize) -> [u8; MAX_NAME]
    requires text { most_letters ≤ length text.now }
    requires len { len ≤ most_letters }
    ensures { result ≡ padded (take len text.now) }
{
    let kept = u8x16::from_array(PLACES).simd_lt(u8x16::splat(len as u8));
    kept.select(u8x16::from_slice(text), u8x16::splat(0))
        .to_array()
}

// As `front_letters`, with one letter compared after the other.
#[inline(never)]
fn few_letters(text: &[u8]) -> ([u8; MAX_NAME], usize)
    ensures { AreFront text.now result.0 result.1 }
{
    let mut letters = [0; MAX_NAME];
    let most = text.len().min(MAX_NAME);
    for index in 0..most {
        let byte = text[index];
        if !is_name_byte(byte) {
            return (letters, index);
        }
        letters[index] = byte;
    }
    (letters, most)
}

// Whether a name may have this byte.
fn is_name_byte(byte: u8) -> bool
    ensures { result ≡ is_name_byte byte }
{
    matches!(byte, b'a'..=b'z' | b'0'..=b'9')
}

/// A word at the front of a text, as long as a name may be: its letters, filled up with zeros, as two numbers of eight
/// bytes.
#[derive(Clone, Copy)]
pub(crate) struct FrontWord<'a> {
    /// Its first eight bytes.
    pub low: u64,
    /// Its last eight bytes.
    pub high: u64,
    /// How many letters it has.
    pub len: usize,
    /// The text after the byte that ends the word.
    pub rest: &'a [u8],
}

// A word is taken at once from a text of at least so many bytes. The longest word, and the byte that ends it, are among
// them.
const AT_ONCE: usize = 32;

/// The word at the front of a text that ends at the first byte `end`. It is as long as a name may be, and its last byte
/// isn't zero. No other byte of it is compared, so it may be no name. `None` if there is no such word, or if the text is
/// too short.
#[inline(always)]
pub(crate) fn front_word(text: &[u8], end: u8) -> Option<FrontWord<'_>>
    ensures text { IfSome result (λ w. text.now ≡ take w.len text.now ++ end ∷ w.rest.now) }
    ensures some { IfSome result (λ w. 0 < w.len) }
    ensures len { IfSome result (λ w. w.len ≤ length text.now) }
    ensures short { IfSome result (λ w. w.len ≤ most_letters) }
    ensures halves { IfSome result (λ w. padded (take w.len text.now)
        ≡ to_le_bytes w64 w.low ++ to_le_bytes w64 w.high) }
    ensures last { IfSome result (λ w. slice_index text.now (w.len - 1) ≢ 0) }
{
    if text.len() < AT_ONCE {
        return None;
    }
    let len = len_before(text, end);
    if len == 0 || text[len] != end || text[len - 1] == 0 {
        return None;
    }
    let (low, high) = first_halves(text, len);
    let rest = &text[len + 1..];
    Some(FrontWord {
        low,
        high,
        len,
        rest,
    })
}

// How many bytes are in front of the first byte `end`, at most as many as a name may have.
#[inline(always)]
fn len_before(text: &[u8], end: u8) -> usize
    requires { most_letters ≤ length text.now }
    ensures { result ≤ most_letters }
{
    let ends = u8x16::from_slice(text)
        .simd_eq(u8x16::splat(end))
        .to_bitmask();
    ((ends | 1 << MAX_NAME).trailing_zeros() as usize).min(MAX_NAME)
}

// The first `len` bytes of a text, filled up with zeros, as two numbers of eight bytes.
#[inline(always)]
fn first_halves(text: &[u8], len: usize) -> (u64, u64)
    requires text { most_letters ≤ length text.now }
    requires len { len ≤ most_letters }
    ensures { padded (take len text.now) ≡ to_le_bytes w64 result.0 ++ to_le_bytes w64 result.1 }
{
    let low = eight_at(text, 0);
    if len <= 8 {
        (first_of(low, len), 0)
    } else {
        (low, first_of(eight_at(text, 8), len - 8))
    }
}

// Eight bytes of a text as one number.
#[inline(always)]
pub(crate) fn eight_at(text: &[u8], from: usize) -> u64
    requires { from + 8 ≤ length text.now }
    ensures { to_le_bytes w64 result ≡ take 8 (drop from text.now) }
{
    match text[from..].first_chunk::<8>() {
        Some(bytes) => half(*bytes),
        None => 0,
    }
}

// The first `len` of a number's eight bytes, with zeros in place of the other bytes.
#[inline(always)]
pub(crate) fn first_of(number: u64, len: usize) -> u64
    requires { len ≤ 8 }
    ensures { to_le_bytes w64 result
        ≡ take len (to_le_bytes w64 number) ++ replicate (8 - len) 0 }
{
    if len == 0 {
        return 0;
    }
    number & (u64::MAX >> (64 - 8 * len))
}
