//! Reading a whole input, and writing a whole output.

ghost use Rattle.std.specs.Prelude.{◌≡◌, ◌≢◌, ◌≤◌, ◌<◌, ◌+◌, ℕ, true, Err, IfErr, IfOk, IfSome, IsErrOf, OnErr, OnOk, drop, length, take, vec_len};
ghost use Rattle.std.specs.Io.KnownBytes.{Appends, Consumes, IsAtEnd, Keeps};
ghost use Rattle.dine_streams.specs.Gathered.{MovesOn};
ghost use Rattle.dine_streams.specs.Inputs.{IsMarkedOrLong, IsReadWhole, most_bytes_of_an_input};

use crate::input::{InputBuffer, InputFault, MAX_INPUT};
use crate::without_memory::fault_without_memory;
use dine_words::{Failed, Sink, Source};
use std::alloc::Global;

/// So many bytes of lines are gathered before they are written.
pub const LARGE_WRITE: usize = 65_536;

/// Reads all that is left.
///
/// `Read` is answered where a read failed, or where more than [`MAX_INPUT`] bytes were left. `Memory` is answered where there
/// is none to keep them in, once all that is left was read.
pub fn read_whole<R: Source>(alloc: Global, reader: &mut R) -> Result<Vec<u8>, InputFault>
    ensures bytes { IfOk result (λ input.
        IfSome (R.remaining reader.old) (λ bytes. input.items ≡ bytes)) }
    ensures bound { IfOk result (λ input. length input.items ≤ most_bytes_of_an_input) }
    ensures unmarked { OnOk result (R.mark reader.new ≡ R.mark reader.old) }
    ensures failed { IsErrOf result InputFault.Read →
        IsMarkedOrLong (R.mark reader.new) (R.remaining reader.old) }
    ensures memory { IsErrOf result InputFault.Memory → R.mark reader.new ≡ R.mark reader.old }
    ensures whole { result ≢ Err InputFault.Read → IsReadWhole (R.remaining reader.old)
        (R.remaining reader.new) (R.mark reader.old) (R.mark reader.new) }
{
    let Ok(mut input) = InputBuffer::new(alloc) else {
        return Err(fault_without_memory(reader, MAX_INPUT));
    };
    input.hear(reader, usize::MAX)?;
    Ok(input.into_text())
}

/// Writes all of the bytes.
///
/// An error comes where a write failed, or took none of some bytes. A first part of the bytes was written then.
pub fn write_whole<W: Sink>(writer: &mut W, bytes: &[u8]) -> Result<(), Failed>
    ensures ok { OnOk result (Appends (W.contents writer.old) (W.contents writer.new) bytes.now) }
    ensures err { OnErr result ((n : ℕ) ×
        Appends (W.contents writer.old) (W.contents writer.new) (take n bytes.now)) }
    ensures unmarked { OnOk result (W.mark writer.new ≡ W.mark writer.old) }
    ensures marked { OnErr result (W.mark writer.new ≡ true) }
{
    let mut done = 0;
    while done < bytes.len() {
        let count = writer.write(&bytes[done..])?;
        if count == 0 {
            return Err(Failed);
        }
        done += count;
    }
    Ok(())
}

/// Writes the lines that were gathered and clears them, if they are [`LARGE_WRITE`] bytes or more. Else they wait.
///
/// An error comes where [`write_whole`] gives one. A first part of the lines was written then.
pub fn write_if_enough<W: Sink>(writer: &mut W, lines: &mut Vec<u8>) -> Result<(), Failed>
    ensures ok { OnOk result (MovesOn (W.contents writer.old) (W.contents writer.new)
        lines.old.items lines.new.items) }
    ensures err { OnErr result ((n : ℕ) ×
        Appends (W.contents writer.old) (W.contents writer.new) (take n lines.old.items)) }
    ensures few { length lines.old.items < LARGE_WRITE →
        Keeps (W.contents writer.old) (W.contents writer.new)
        × (lines.new.items ≡ lines.old.items) }
    ensures unmarked { OnOk result (W.mark writer.new ≡ W.mark writer.old) }
    ensures marked { OnErr result (W.mark writer.new ≡ true) }
{
    if lines.len() < LARGE_WRITE {
        return Ok(());
    }
    write_whole(writer, lines)?;
    lines.clear();
    Ok(())
}
