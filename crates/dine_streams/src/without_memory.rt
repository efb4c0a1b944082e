//! The rest of an input for which memory was wanting: it is read all the same, and nothing of it is kept.

ghost use Rattle.std.specs.Prelude.{◌≡◌, ◌≤◌, ℕ, false, true, Ok, Err, IfOk, OnErr, OnOk};
ghost use Rattle.std.specs.Io.KnownBytes.{ConsumesCount, IsAtEnd};
ghost use Rattle.dine_streams.specs.Inputs.{IsMarkedOrPast, IsPast, IsReadOut, IsReadPast, most_bytes_of_an_input};

use crate::input::InputFault;
use dine_words::{Failed, Source};

// So many bytes are read at once, into an array on the stack.
const PART: usize = 4_096;

/// The fault of an input for which memory was wanting, and of which so many bytes may still come. The rest is read first,
/// which takes no memory.
///
/// It is `Read` where a read fails, or where more bytes come than may. Else it is `Memory`, once the end has come.
#[cold]
#[inline(never)]
pub fn fault_without_memory<R: Source>(reader: &mut R, most: usize) -> InputFault
    requires { most ≤ most_bytes_of_an_input }
    ensures read { result ≡ InputFault.Read → IsMarkedOrPast
        most (R.mark reader.new) (R.remaining reader.old) }
    ensures memory { result ≡ InputFault.Memory → IsReadOut most (R.remaining reader.old)
        (R.remaining reader.new) (R.mark reader.old) (R.mark reader.new) }
{
    match read_out(reader, most) {
        Ok(true) => InputFault::Memory,
        Ok(false) => InputFault::Read,
        Err(_) => InputFault::Read,
    }
}

/// Reads on to the end, or until more than so many bytes have come, and keeps none of them. It takes no memory, and answers
/// whether the end has come.
pub fn read_out<R: Source>(reader: &mut R, most: usize) -> Result<bool, Failed>
    requires { most ≤ most_bytes_of_an_input }
    ensures end { result ≡ Ok true → IsReadOut most (R.remaining reader.old)
        (R.remaining reader.new) (R.mark reader.old) (R.mark reader.new) }
    ensures past { result ≡ Ok false → IsPast most (R.remaining reader.old) }
    ensures read { OnOk result (IsReadPast most (R.remaining reader.old)
        (R.remaining reader.new) (R.mark reader.old) (R.mark reader.new)) }
    ensures marked { OnErr result (R.mark reader.new ≡ true) }
{
    let mut came = 0;
    while came <= most {
        let count = read_part(reader)?;
        if count == 0 {
            return Ok(true);
        }
        came += count;
    }
    Ok(false)
}

// Makes one read, and forgets what it gives.
#[inline(never)]
fn read_part<R: Source>(reader: &mut R) -> Result<usize, Failed>
    ensures bytes { ConsumesCount (R.remaining reader.old) (R.remaining reader.new) result }
    ensures few { IfOk result (λ count. count ≤ PART) }
    ensures end { IfOk result (λ count. count ≡ 0 → IsAtEnd (R.remaining reader.new)) }
    ensures unmarked { OnOk result (R.mark reader.new ≡ R.mark reader.old) }
    ensures marked { OnErr result (R.mark reader.new ≡ true) }
{
    let mut part = [0; PART];
    reader.read(&mut part)
}
