//! An input that is read a piece at a time, and of which what was dealt with is forgotten.

ghost use Rattle.std.specs.Prelude.{◌≡◌, ◌≤◌, ◌<◌, ◌+◌, ◌-◌, ℕ, [], true, false, IfErr, IfOk, IfSome, IsErrOf, OnErr, OnOk, drop, length, take, vec_len};
ghost use Rattle.std.specs.Io.KnownBytes.{Consumes, IsAtEnd, Keeps};
ghost use Rattle.dine_streams.specs.Inputs.{IsMarkedOrPast, IsReadOut, most_bytes_of_an_input};
ghost use Rattle.dine_streams.specs.Lines.{begun_line};

use crate::buffer::to_front;
use crate::without_memory::fault_without_memory;
use dine_words::Source;
use memchr::memrchr;
use std::alloc::{AllocError, Global};
use std::marker::Model;
use thiserror::Error;

/// The most bytes that an input may have.
pub const MAX_INPUT: usize = 16_777_216;

/// So many bytes are asked for at once.
pub const CHUNK: usize = 65_536;

// For how many bytes there is room before the first read. The C library copies a block of memory that grows while it is
// smaller than this, and moves a larger one by its pages alone.
const FIRST_ROOM: usize = 262_144;

// How many zeros are made at once. The C library makes more of them by `rep stosb`, which is slow to begin and on many
// machines no faster in the end.
const PART: usize = 2_048;

/// Why an input was not read to its end.
#[derive(Clone, Copy, Debug, PartialEq, Eq, Error)]
pub enum InputFault {
    /// A read failed, or the input has more than [`MAX_INPUT`] bytes.
    #[error("the input can't be read, or is too long")]
    Read,
    /// There is no memory to keep it in.
    #[error("no memory for the input")]
    Memory,
}

/// An input, as far as it was read: the text that wasn't dealt with yet, how many bytes came in all, and whether the end has.
#[derive(Drop)]
pub struct InputBuffer {
    room: Vec<u8>,
    filled: usize,
    heard: usize,
    is_at_end: bool,
}

impl Model for InputBuffer {
    ghost use Rattle.std.specs.Prelude.{take};
    ghost use Rattle.dine_streams.specs.Inputs.{HeardInput, IsInput};

    ghost Value = { HeardInput };

    ghost view = { λ i. record { text = take i.filled i.room.items; heard = i.heard; is_at_end = i.is_at_end } };

    ghost invariant = { λ i. IsInput i.room.items i.filled i.heard };
}

impl InputBuffer {
    ghost use Rattle.dine_streams.specs.Inputs.{HearsMore};

    /// An input of which nothing was read yet. An error is want of memory.
    pub fn new(alloc: Global) -> Result<InputBuffer, AllocError>
        ensures { IfOk result (λ input.
            input ≡ record { text = []; heard = 0; is_at_end = false }) }
    {
        Ok(InputBuffer {
            room: Vec::with_capacity(alloc, FIRST_ROOM)?,
            filled: 0,
            heard: 0,
            is_at_end: false,
        })
    }

    /// Reads on until so many bytes more have come, or the end has. Once that has come nothing is read any more.
    ///
    /// `Read` is answered where a read failed, or where more than [`MAX_INPUT`] bytes came in all. `Memory` is answered where
    /// there is none to keep them in, once all others were read. The text is as it was then.
    pub fn hear<R: Source>(&mut self, reader: &mut R, enough: usize) -> Result<(), InputFault>
        ensures heard { OnOk result (HearsMore self.old self.new
            (R.remaining reader.old) (R.remaining reader.new) enough) }
        ensures kept { OnErr result (self.new ≡ self.old) }
        ensures unmarked { OnOk result (R.mark reader.new ≡ R.mark reader.old) }
        ensures failed { IsErrOf result InputFault.Read → IsMarkedOrPast
            (most_bytes_of_an_input - self.old.heard) (R.mark reader.new) (R.remaining reader.old) }
        ensures memory { IsErrOf result InputFault.Memory → IsReadOut
            (most_bytes_of_an_input - self.old.heard) (R.remaining reader.old) (R.remaining reader.new)
            (R.mark reader.old) (R.mark reader.new) }
    {
        if self.is_at_end {
            return Ok(());
        }
        let most = MAX_INPUT - self.heard;
        let (came, is_at_end) = read_enough(reader, &mut self.room, self.filled, enough, most)?;
        self.filled += came;
        self.heard += came;
        self.is_at_end = is_at_end;
        Ok(())
    }

    /// What was read and wasn't dealt with yet.
    pub fn text(&self) -> &[u8]
        ensures { result.now ≡ self.now.text }
    {
        &self.room[..self.filled]
    }

    /// How many bytes came in all.
    pub fn heard(&self) -> usize
        ensures count { result ≡ self.now.heard }
        ensures bound { result ≤ most_bytes_of_an_input }
    {
        self.heard
    }

    /// Whether the end has come.
    pub fn is_at_end(&self) -> bool
        ensures { result ≡ self.now.is_at_end }
    {
        self.is_at_end
    }

    /// How long the whole lines at the front of the text are, each with its line feed, where the last line feed is looked for
    /// from a place on: before it none needs to stand. It is 0 where none stands there.
    pub fn lines_len(&self, from: usize) -> usize
        requires { from ≤ length self.now.text }
        ensures bound { result ≤ length self.now.text }
        ensures ended { begun_line [] (take result self.now.text) ≡ [] }
    {
        match memrchr(b'\n', &self.room[from..self.filled]) {
            Some(last) => from + last + 1,
            None => 0,
        }
    }

    /// Forgets so many bytes at the front of the text, which were dealt with.
    pub fn forget(&mut self, count: usize)
        requires { count ≤ length self.old.text }
        ensures text { self.new.text ≡ drop count self.old.text }
        ensures heard { self.new.heard ≡ self.old.heard }
        ensures end { self.new.is_at_end ≡ self.old.is_at_end }
    {
        // A line that goes on from read to read is moved by none of them.
        if count > 0 {
            self.filled = to_front(&mut self.room, count, self.filled);
        }
    }

    /// What was read and wasn't dealt with yet, in memory of its own.
    pub fn into_text(self) -> Vec<u8>
        ensures { result.items ≡ self.text }
    {
        let mut text = self.room;
        text.truncate(self.filled);
        text
    }
}

// Reads behind what is filled, until so many bytes have come, or the end has. It answers how many came, and whether the end
// did.
fn read_enough<R: Source>(
    reader: &mut R,
    room: &mut Vec<u8>,
    filled: usize,
    enough: usize,
    most: usize,
) -> Result<(usize, bool), InputFault>
    requires filled { filled ≤ vec_len room.old }
    requires most { filled + most ≤ most_bytes_of_an_input }
    ensures front { take filled room.new.items ≡ take filled room.old.items }
    ensures within { OnErr result (filled ≤ vec_len room.new) }
    ensures fits { IfOk result (λ heard. filled + heard.0 ≤ vec_len room.new) }
    ensures few { IfOk result (λ heard. heard.0 ≤ most) }
    ensures bytes { IfOk result (λ heard. Consumes (R.remaining reader.old) (R.remaining reader.new)
        (take heard.0 (drop filled room.new.items))) }
    ensures end { IfOk result (λ heard. heard.1 ≡ true → IsAtEnd (R.remaining reader.new)) }
    ensures some { IfOk result (λ heard. heard.1 ≡ false → enough ≤ heard.0) }
    ensures unmarked { OnOk result (R.mark reader.new ≡ R.mark reader.old) }
    ensures failed { IsErrOf result InputFault.Read → IsMarkedOrPast
        most (R.mark reader.new) (R.remaining reader.old) }
    ensures memory { IsErrOf result InputFault.Memory → IsReadOut most (R.remaining reader.old)
        (R.remaining reader.new) (R.mark reader.old) (R.mark reader.new) }
{
    let mut came = 0;
    while came < enough {
        let Ok(()) = make_room(room, filled + came) else {
            return Err(fault_without_memory(reader, most - came));
        };
        let count = read_at(reader, room, filled + came)?;
        if count == 0 {
            return Ok((came, true));
        }
        if count > most - came {
            return Err(InputFault::Read);
        }
        came += count;
    }
    Ok((came, false))
}

// Makes room for a read behind what is filled, with zeros that are made a part at a time. On `Err` some may have been made.
fn make_room(input: &mut Vec<u8>, filled: usize) -> Result<(), AllocError>
    requires bound { filled ≤ most_bytes_of_an_input }
    requires filled { filled ≤ vec_len input.old }
    ensures front { take filled input.new.items ≡ take filled input.old.items }
    ensures room { OnOk result (filled < vec_len input.new) }
{
    let end = filled + CHUNK;
    while input.len() < end {
        let part = (end - input.len()).min(PART);
        input.resize(input.len() + part, 0)?;
    }
    Ok(())
}

// Reads into the bytes from a place on.
fn read_at<R: Source>(reader: &mut R, bytes: &mut [u8], at: usize) -> Result<usize, InputFault>
    requires { at < length bytes.old }
    ensures front { take at bytes.new ≡ take at bytes.old }
    ensures len { length bytes.new ≡ length bytes.old }
    ensures fits { IfOk result (λ count. at + count ≤ length bytes.new) }
    ensures read { IfOk result (λ count. Consumes (R.remaining reader.old) (R.remaining reader.new)
        (take count (drop at bytes.new))) }
    ensures end { IfOk result (λ count. count ≡ 0 → IsAtEnd (R.remaining reader.new)) }
    ensures unmarked { OnOk result (R.mark reader.new ≡ R.mark reader.old) }
    ensures marked { OnErr result (R.mark reader.new ≡ true) }
    ensures fault { IfErr result (λ fault. fault ≡ InputFault.Read) }
{
    reader.read(&mut bytes[at..]).map_err(|_| InputFault::Read)
}
