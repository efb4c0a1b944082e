//! Numbers in decimal, and lines of a label and a number. All that is written of numbers is written here.

ghost use Rattle.std.specs.Prelude.{◌≡◌, [], ◌∷◌, ◌++◌, ◌+◌, ◌<◌, ◌≤◌, codes, decimal, OnOk, OnErr, length, vec_capacity, vec_len};
ghost use mathlib.Core.List.{IsPrefix};
ghost use Rattle.dine_words.specs.Texts.{AppendsUpTo};

use itoa::Buffer;
use std::alloc::AllocError;

/// The most bytes that a number takes as text.
pub const NUMBER_LEN: usize = 20;

/// Appends a number in decimal. On `Err` the content of `out` is unchanged.
pub fn push_number(out: &mut Vec<u8>, number: u64) -> Result<(), AllocError>
    ensures ok { OnOk result (out.new.items ≡ out.old.items ++ decimal number) }
    ensures err { OnErr result (out.new.items ≡ out.old.items) }
{
    out.reserve(NUMBER_LEN)?;
    put_number(out, number);
    Ok(())
}

/// Appends a label, and a number behind it. On `Err`, which is want of memory, a part may have been appended, behind what
/// stood there before.
pub fn push_numbered(out: &mut Vec<u8>, label: &[u8], number: u64) -> Result<(), AllocError>
    ensures ok { OnOk result (out.new.items ≡ out.old.items ++ label.now ++ decimal number) }
    ensures err { OnErr result (IsPrefix out.old.items out.new.items) }
{
    out.extend_from_slice(label)?;
    push_number(out, number)
}

/// Appends the line of a label and a number. On `Err`, which is want of memory, a part may have been appended, behind what
/// stood there before.
pub fn push_number_line(out: &mut Vec<u8>, label: &[u8], number: u64) -> Result<(), AllocError>
    ensures ok { OnOk result
        (out.new.items ≡ out.old.items ++ label.now ++ decimal number ++ codes "\n") }
    ensures err { OnErr result (IsPrefix out.old.items out.new.items) }
{
    push_numbered(out, label, number)?;
    out.extend_from_slice(b"\n")
}

/// Appends a number in decimal, for which there is room. Numbers of up to eight digits need no buffer.
#[inline(always)]
pub fn put_number(out: &mut Vec<u8>, number: u64)
    requires { vec_len out.old + NUMBER_LEN ≤ vec_capacity out.old }
    ensures text { out.new.items ≡ out.old.items ++ decimal number }
    ensures len { vec_len out.new ≤ vec_len out.old + NUMBER_LEN }
    ensures capacity { vec_capacity out.new ≡ vec_capacity out.old }
{
    if number < 10_000 {
        put_four(out, number);
    } else if number < 100_000_000 {
        put_eight(out, number);
    } else {
        let mut buffer = Buffer::new();
        put_text(out, buffer.format(number).as_bytes());
    }
}

// Appends a number of five digits to eight.
#[inline(always)]
fn put_eight(out: &mut Vec<u8>, number: u64)
    requires some { 10000 ≤ number }
    requires few { number < 100000000 }
    requires room { vec_len out.old + 8 ≤ vec_capacity out.old }
    ensures { AppendsUpTo 8 (decimal number) out.old out.new }
{
    let tens = number / 10;
    let hundreds = tens / 10;
    let thousands = hundreds / 10;
    put_four(out, thousands / 10);
    put_digit(out, thousands % 10);
    put_digit(out, hundreds % 10);
    put_digit(out, tens % 10);
    put_digit(out, number % 10);
}

// Appends a number of one digit to four.
#[inline(always)]
fn put_four(out: &mut Vec<u8>, number: u64)
    requires few { number < 10000 }
    requires room { vec_len out.old + 4 ≤ vec_capacity out.old }
    ensures { AppendsUpTo 4 (decimal number) out.old out.new }
{
    if number < 1000 {
        put_three(out, number);
    } else {
        put_three(out, number / 10);
        put_digit(out, number % 10);
    }
}

// Appends a number of one digit to three.
#[inline(always)]
fn put_three(out: &mut Vec<u8>, number: u64)
    requires few { number < 1000 }
    requires room { vec_len out.old + 3 ≤ vec_capacity out.old }
    ensures { AppendsUpTo 3 (decimal number) out.old out.new }
{
    if number < 100 {
        put_two(out, number);
    } else {
        put_two(out, number / 10);
        put_digit(out, number % 10);
    }
}

// Appends a number of one digit or two.
#[inline(always)]
fn put_two(out: &mut Vec<u8>, number: u64)
    requires few { number < 100 }
    requires room { vec_len out.old + 2 ≤ vec_capacity out.old }
    ensures { AppendsUpTo 2 (decimal number) out.old out.new }
{
    if number < 10 {
        put_digit(out, number);
    } else {
        put_digit(out, number / 10);
        put_digit(out, number % 10);
    }
}

// Appends a digit for which there is room.
#[inline(always)]
fn put_digit(out: &mut Vec<u8>, digit: u64)
    requires digit { digit < 10 }
    requires room { vec_len out.old < vec_capacity out.old }
    ensures text { out.new.items ≡ out.old.items ++ (48 + digit) ∷ [] }
    ensures len { vec_len out.new ≡ vec_len out.old + 1 }
    ensures capacity { vec_capacity out.new ≡ vec_capacity out.old }
{
    out.push_reserved(b'0' + digit as u8);
}

/// Appends bytes for which there is room, one after the other. Where they are known it takes a store for each eight.
#[inline(always)]
pub fn put_text(out: &mut Vec<u8>, text: &[u8])
    requires { vec_len out.old + length text.now ≤ vec_capacity out.old }
    ensures text { out.new.items ≡ out.old.items ++ text.now }
    ensures len { vec_len out.new ≡ vec_len out.old + length text.now }
    ensures capacity { vec_capacity out.new ≡ vec_capacity out.old }
{
    for byte in text {
        out.push_reserved(*byte);
    }
}
