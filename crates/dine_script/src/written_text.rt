//! A text that is written as it is.

ghost use Rattle.std.specs.Prelude.{◌≡◌, ◌≢◌, true, IfErr, IfOk, OnErr, OnOk};
ghost use Rattle.std.specs.Io.KnownBytes.{Appends};
ghost use Rattle.dine_script.specs.Streams.{IsTextLeft};

use dine_streams::{CliFault, Ended, write_whole};
use dine_words::Sink;

/// Writes a text, and ends so. The one fault is `Write`, where a write fails: a part of the text may have been written then.
pub fn write_text<W: Sink>(writer: &mut W, text: &[u8], ended: Ended) -> Result<Ended, CliFault>
    ensures written { OnOk result
        (Appends (W.contents writer.old) (W.contents writer.new) text.now) }
    ensures ended { IfOk result (λ answered. answered ≡ ended) }
    ensures left { IfErr result (λ fault.
        IsTextLeft text.now fault (W.contents writer.old) (W.contents writer.new)) }
    ensures no_read { result ≢ Err CliFault.Read }
    ensures mark { OnErr result (W.mark writer.new ≡ true) }
    ensures unmarked { OnOk result (W.mark writer.new ≡ W.mark writer.old) }
{
    write_whole(writer, text)?;
    Ok(ended)
}
