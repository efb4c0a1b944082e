//! The first line feed of a text, near its front or far from it.

ghost use Rattle.std.specs.Prelude.{◌≡◌, ◌≤◌, ◌+◌, ◌*◌, ◌<◌, length, IfSome, IfNone, IsTrue};
ghost use Rattle.memchr.specs.Find.{IsFirstByte, is_byte};
ghost use Rattle.dine_lines.specs.Blocks.{AllAbove, Bounds, HasNoFeed, no_line_feed};
ghost use Rattle.dine_lines.specs.Runs.{IsRunIn};

use crate::name::first_bit;
use memchr::memchr;
use std::simd::prelude::*;

// How many bytes are looked at at once where a line is short.
const NEAR: usize = 32;

// How many bytes are looked at at once where a line is long, in four parts.
const BLOCK: usize = 1_024;

// How many bytes one of the parts has.
const PART: usize = 256;

// How many vectors of 16 bytes a part has.
const PART_VECTORS: usize = 16;

/// The place of a text's first line feed. One comparison finds it where a line is short.
#[inline(always)]
pub(crate) fn line_feed(text: &[u8]) -> Option<usize>
    ensures { IsFirstByte (is_byte 10) text.now result }
{
    if text.len() < BLOCK {
        return line_feed_from(text, 0);
    }
    let near = near_line_feed(text);
    if near < NEAR {
        Some(near)
    } else {
        far_line_feed(text)
    }
}

// The same where no line feed stands before a place.
#[inline(never)]
fn line_feed_from(text: &[u8], from: usize) -> Option<usize>
    requires inside { from ≤ length text.now }
    requires passed { HasNoFeed text.now 0 from }
    ensures { IsFirstByte (is_byte 10) text.now result }
{
    match memchr(b'\n', &text[from..]) {
        Some(end) => Some(from + end),
        None => None,
    }
}

// How many of the bytes that are looked at at once stand before the first line feed.
#[inline(always)]
fn near_line_feed(text: &[u8]) -> usize
    requires { NEAR ≤ length text.now }
    ensures { IsRunIn no_line_feed text.now NEAR result }
{
    let found = u8x32::from_slice(text).simd_eq(u8x32::splat(b'\n'));
    first_bit(found.to_bitmask(), NEAR)
}

// The first line feed where none is near. Each block is as long as all that was passed over before it, so that a line is
// looked at to about twice its length at most; the longest blocks have equal lengths.
#[inline(never)]
fn far_line_feed(text: &[u8]) -> Option<usize>
    requires long { BLOCK ≤ length text.now }
    requires passed { HasNoFeed text.now 0 NEAR }
    ensures { IsFirstByte (is_byte 10) text.now result }
{
    if !is_above(text, 32, 2) {
        return within_32(text, 32);
    }
    if !is_above(text, 64, 4) {
        return within_64(text, 64);
    }
    if !is_above(text, 128, 8) {
        return within_128(text, 128);
    }
    if !is_above(text, 256, 16) {
        return within_256(text, 256);
    }
    if !is_above(text, 512, 32) {
        return within_512(text, 512);
    }
    after_blocks(text)
}

// The first line feed where the first block has none.
#[inline(always)]
fn after_blocks(text: &[u8]) -> Option<usize>
    requires long { BLOCK ≤ length text.now }
    requires passed { HasNoFeed text.now 0 BLOCK }
    ensures { IsFirstByte (is_byte 10) text.now result }
{
    let last = text.len() - BLOCK;
    let mut at = BLOCK;
    while at <= last {
        if let Some(part) = part_to_search(text, at) {
            return within_256(text, part);
        }
        at += BLOCK;
    }
    line_feed_from(text, at)
}

// Where the first part of a block begins that has a byte up to a line feed, if one has.
#[inline(always)]
fn part_to_search(text: &[u8], at: usize) -> Option<usize>
    requires inside { at + BLOCK ≤ length text.now }
    requires passed { HasNoFeed text.now 0 at }
    ensures none { IfNone result (HasNoFeed text.now 0 (at + BLOCK)) }
    ensures low { IfSome result (λ part. at ≤ part) }
    ensures inside { IfSome result (λ part. part + PART ≤ length text.now) }
    ensures some { IfSome result (λ part. HasNoFeed text.now 0 part) }
{
    let first = least_of(text, at, PART_VECTORS);
    let second = least_of(text, at + PART, PART_VECTORS);
    let third = least_of(text, at + 2 * PART, PART_VECTORS);
    let fourth = least_of(text, at + 3 * PART, PART_VECTORS);
    let front = lesser(first, second);
    if all_above(lesser(front, lesser(third, fourth))) {
        return None;
    }
    if !all_above(front) {
        return Some(if all_above(first) { at + PART } else { at });
    }
    Some(if all_above(third) {
        at + 3 * PART
    } else {
        at + 2 * PART
    })
}

// The first line feed, where it is looked for in so many bytes from a place on, and none stands before.
#[inline(always)]
fn within_512(text: &[u8], at: usize) -> Option<usize>
    requires inside { at + 512 ≤ length text.now }
    requires passed { HasNoFeed text.now 0 at }
    ensures { IsFirstByte (is_byte 10) text.now result }
{
    within_256(text, behind(text, at, 16))
}

// As `within_512`.
#[inline(never)]
fn within_256(text: &[u8], at: usize) -> Option<usize>
    requires inside { at + 256 ≤ length text.now }
    requires passed { HasNoFeed text.now 0 at }
    ensures { IsFirstByte (is_byte 10) text.now result }
{
    within_128(text, behind(text, at, 8))
}

// As `within_512`.
#[inline(never)]
fn within_128(text: &[u8], at: usize) -> Option<usize>
    requires inside { at + 128 ≤ length text.now }
    requires passed { HasNoFeed text.now 0 at }
    ensures { IsFirstByte (is_byte 10) text.now result }
{
    within_64(text, behind(text, at, 4))
}

// As `within_512`.
#[inline(never)]
fn within_64(text: &[u8], at: usize) -> Option<usize>
    requires inside { at + 64 ≤ length text.now }
    requires passed { HasNoFeed text.now 0 at }
    ensures { IsFirstByte (is_byte 10) text.now result }
{
    within_32(text, behind(text, at, 2))
}

// As `within_512`. Other bytes up to a line feed, as tabs, can have led here too.
#[inline(never)]
fn within_32(text: &[u8], at: usize) -> Option<usize>
    requires inside { at + NEAR ≤ length text.now }
    requires passed { HasNoFeed text.now 0 at }
    ensures { IsFirstByte (is_byte 10) text.now result }
{
    let near = near_line_feed(&text[at..]);
    if near < NEAR {
        Some(at + near)
    } else {
        line_feed_from(text, at)
    }
}

// The place behind so many vectors, or this place where they have a byte up to a line feed.
#[inline(always)]
fn behind(text: &[u8], at: usize, vectors: usize) -> usize
    requires some { 0 < vectors }
    requires inside { at + 16 * vectors ≤ length text.now }
    requires passed { HasNoFeed text.now 0 at }
    ensures low { at ≤ result }
    ensures bound { result ≤ at + 16 * vectors }
    ensures passed { HasNoFeed text.now 0 result }
{
    if is_above(text, at, vectors) {
        at + 16 * vectors
    } else {
        at
    }
}

// Whether each byte of so many vectors from a place on is above a line feed, where none stands before.
#[inline(always)]
fn is_above(text: &[u8], at: usize, vectors: usize) -> bool
    requires some { 0 < vectors }
    requires inside { at + 16 * vectors ≤ length text.now }
    requires passed { HasNoFeed text.now 0 at }
    ensures { IsTrue result → HasNoFeed text.now 0 (at + 16 * vectors) }
{
    all_above(least_of(text, at, vectors))
}

// Whether each lane is above a line feed.
#[inline(always)]
fn all_above(lanes: u8x16) -> bool
    requires { length lanes ≡ 16 }
    ensures { IsTrue result → AllAbove lanes }
{
    lanes.simd_le(u8x16::splat(b'\n')).to_bitmask() == 0
}

// The least byte of each lane, of so many vectors from a place on.
#[inline(always)]
fn least_of(text: &[u8], at: usize, vectors: usize) -> u8x16
    requires some { 0 < vectors }
    requires inside { at + 16 * vectors ≤ length text.now }
    ensures { Bounds result text.now at (at + 16 * vectors) }
{
    let mut least = lanes_at(text, at);
    for vector in 1..vectors {
        least = lesser(least, lanes_at(text, at + 16 * vector));
    }
    least
}

// The lesser byte of each lane.
#[inline(always)]
fn lesser(first: u8x16, second: u8x16) -> u8x16
    requires first { length first ≡ 16 }
    requires second { length second ≡ 16 }
    ensures long { length result ≡ 16 }
    ensures both { AllAbove result → AllAbove first × AllAbove second }
{
    first.simd_min(second)
}

// The 16 bytes at a place.
#[inline(always)]
fn lanes_at(text: &[u8], at: usize) -> u8x16
    requires { at + 16 ≤ length text.now }
    ensures { Bounds result text.now at (at + 16) }
{
    u8x16::from_slice(&text[at..])
}
