//! Reads tasks of few digits without a loop. A task that is found here is the one that the readers of all numbers find.
//! `None` doesn't mean that there is no task.

ghost use Rattle.std.specs.Prelude.{◌≡◌, ◌≤◌, ◌∷◌, drop, false, true, IfSome, Some};
ghost use Rattle.std.specs.Char.{is_ascii_digit};
ghost use Rattle.dine_words.specs.Reading.{IsNumberBefore, begins_with_number, digits_after, task_at};

use crate::read::number_at;
use crate::task::Task;

impl Task {
    /// The task at the front of the bytes, and the bytes from `end` on, if `end` follows the task. A number of up to four
    /// digits takes no loop and no call. A number of five to eight digits takes a call and no loop. `None` if there is no
    /// such task, or if the task is too near the end of the bytes.
    #[inline(always)]
    pub fn read_short(bytes: &[u8], end: u8) -> Option<(Task, &[u8])>
        requires { is_ascii_digit end ≡ false }
        ensures found { IfSome result (λ found. task_at bytes.now ≡ Some (found.0, found.1.now)) }
        ensures ends { IfSome result (λ found. found.1.now ≡ end ∷ drop 1 found.1.now) }
    {
        let (slot, rest) = number_before(bytes, u64::from(u32::MAX), b'.')?;
        let (born, rest) = number_before(&rest[1..], u64::MAX, end)?;
        let slot = slot as u32;
        Some((Task { slot, born }, rest))
    }
}

// The number at the front of the bytes, if it is at most `most` and `end` follows it, and the bytes from `end` on.
#[inline(always)]
fn number_before(bytes: &[u8], most: u64, end: u8) -> Option<(u64, &[u8])>
    requires other { is_ascii_digit end ≡ false }
    requires most { 99999999 ≤ most }
    ensures { IfSome result (λ found.
        IsNumberBefore most end bytes.now found.0 found.1.now) }
{
    let [first, second, third, fourth, fifth, ..] = bytes else {
        return None;
    };
    if !first.is_ascii_digit() {
        return None;
    }
    let one = u64::from(*first - b'0');
    if *second == end {
        return Some((one, &bytes[1..]));
    }
    if !second.is_ascii_digit() {
        return None;
    }
    let two = 10 * one + u64::from(*second - b'0');
    // A number of two digits begins with no 0.
    if two < 10 {
        return None;
    }
    if *third == end {
        return Some((two, &bytes[2..]));
    }
    if !third.is_ascii_digit() {
        return None;
    }
    let three = 10 * two + u64::from(*third - b'0');
    if *fourth == end {
        return Some((three, &bytes[3..]));
    }
    if !fourth.is_ascii_digit() {
        return None;
    }
    let four = 10 * three + u64::from(*fourth - b'0');
    if *fifth == end {
        return Some((four, &bytes[4..]));
    }
    long_number_before(bytes, four, most, end)
}

// As `number_before`, of a number of more than four digits whose first four digits make `four`. It is apart from
// `number_before` so that a shorter number makes no room for the result of the call.
#[inline(always)]
fn long_number_before(bytes: &[u8], four: u64, most: u64, end: u8) -> Option<(u64, &[u8])>
    requires other { is_ascii_digit end ≡ false }
    requires most { 99999999 ≤ most }
    requires begins { begins_with_number bytes.now ≡ true }
    requires goes_on { digits_after 0 bytes.now ≡ digits_after four (drop 4 bytes.now) }
    requires small { four ≤ 9999 }
    ensures { IfSome result (λ found.
        IsNumberBefore most end bytes.now found.0 found.1.now) }
{
    number_from_four(bytes, four, most, end)
}

// As `long_number_before`. Up to eight digits take no loop. It is called, since `number_before` is built into many places.
#[inline(never)]
fn number_from_four(bytes: &[u8], four: u64, most: u64, end: u8) -> Option<(u64, &[u8])>
    requires other { is_ascii_digit end ≡ false }
    requires most { 99999999 ≤ most }
    requires begins { begins_with_number bytes.now ≡ true }
    requires goes_on { digits_after 0 bytes.now ≡ digits_after four (drop 4 bytes.now) }
    requires small { four ≤ 9999 }
    ensures { IfSome result (λ found.
        IsNumberBefore most end bytes.now found.0 found.1.now) }
{
    let [_, _, _, _, fifth, sixth, seventh, eighth, ninth, ..] = bytes else {
        return rare_number_before(bytes, most, end);
    };
    if !fifth.is_ascii_digit() {
        return None;
    }
    let five = 10 * four + u64::from(*fifth - b'0');
    if *sixth == end {
        return Some((five, &bytes[5..]));
    }
    if !sixth.is_ascii_digit() {
        return None;
    }
    let six = 10 * five + u64::from(*sixth - b'0');
    if *seventh == end {
        return Some((six, &bytes[6..]));
    }
    if !seventh.is_ascii_digit() {
        return None;
    }
    let seven = 10 * six + u64::from(*seventh - b'0');
    if *eighth == end {
        return Some((seven, &bytes[7..]));
    }
    if !eighth.is_ascii_digit() {
        return None;
    }
    let eight = 10 * seven + u64::from(*eighth - b'0');
    if *ninth == end {
        return Some((eight, &bytes[8..]));
    }
    rare_number_before(bytes, most, end)
}

// As `number_before`, of a number of more than eight digits, or near the end of the bytes. It is apart for the reason of
// `long_number_before`. It returns the number and the bytes one by one: a copy of both at once would wait for the stores of
// the call.
#[inline(always)]
fn rare_number_before(bytes: &[u8], most: u64, end: u8) -> Option<(u64, &[u8])>
    ensures { IfSome result (λ found.
        IsNumberBefore most end bytes.now found.0 found.1.now) }
{
    let (number, rest) = any_number_before(bytes, most, end)?;
    Some((number, rest))
}

// As `number_before`, of a number of any length.
#[inline(never)]
fn any_number_before(bytes: &[u8], most: u64, end: u8) -> Option<(u64, &[u8])>
    ensures { IfSome result (λ found.
        IsNumberBefore most end bytes.now found.0 found.1.now) }
{
    let (number, rest) = number_at(bytes, most)?;
    match rest {
        [next, ..] if *next == end => Some((number, rest)),
        _ => None,
    }
}
