//! How much of a journal may be read.

ghost use Rattle.std.specs.Prelude.{◌≡◌, ◌<◌, ◌≤◌, ◌-◌, ◌^◌, false, not, true, IfOk, OnErr, OnOk};

use dine_streams::LineBuffer;
use dine_words::{Failed, Source};

// So many bytes that a number of 64 bits counts the entries, however many they are.
const ENDLESS: u64 = u64::MAX - 2;

/// How many bytes of a journal may still come, and whether its end has come.
#[derive(Clone, Copy, Debug)]
pub(crate) struct Bound {
    /// So many bytes may still come.
    pub allowed: u64,
    /// A read has met the end.
    pub is_at_end: bool,
}

impl Bound {
    ghost use Rattle.dine_streams.specs.Heard.{Hears};
    ghost use Rattle.dine_replay.specs.Bounds.{IsMarkedOrPastFrom, IsReadToEnd, StaysWithinBound};

    /// So many bytes may come.
    pub fn new(most: usize) -> Bound
        ensures { result ≡ record { allowed = most; is_at_end = false } }
    {
        Bound {
            allowed: most as u64,
            is_at_end: false,
        }
    }

    /// A journal may have any length that is counted.
    pub fn endless() -> Bound
        ensures { result ≡ record { allowed = 2 ^ 64 - 3; is_at_end = false } }
    {
        Bound {
            allowed: ENDLESS,
            is_at_end: false,
        }
    }

    /// Makes one read, as [`LineBuffer::hear`]. An error is a failed read, or that more bytes came than might.
    pub fn hear<R: Source>(
        &mut self,
        reader: &mut R,
        buffer: &mut LineBuffer,
    ) -> Result<bool, Failed>
        ensures heard { IfOk result (λ came. Hears buffer.old buffer.new
            (R.remaining reader.old) (R.remaining reader.new) came) }
        ensures within { OnOk result (StaysWithinBound
            (R.remaining reader.old) (R.remaining reader.new) self.old self.new) }
        ensures end { IfOk result (λ came. self.new.is_at_end ≡ not came) }
        ensures fewer { IfOk result (λ came. came ≡ true → self.new.allowed < self.old.allowed) }
        ensures no_more { OnOk result (self.new.allowed ≤ self.old.allowed) }
        ensures unmarked { OnOk result (R.mark reader.new ≡ R.mark reader.old) }
        ensures failed { OnErr result (IsMarkedOrPastFrom
            (R.mark reader.new) (R.remaining reader.old) self.old) }
    {
        let count = buffer.hear_bytes(reader)?;
        if count as u64 > self.allowed {
            return Err(Failed);
        }
        self.allowed -= count as u64;
        self.is_at_end = count == 0;
        Ok(0 < count)
    }

    /// Reads on to the end, and keeps nothing of what comes. An error is a failed read, or that more bytes came than might.
    pub fn hear_to_end<R: Source>(
        &mut self,
        reader: &mut R,
        buffer: &mut LineBuffer,
    ) -> Result<(), Failed>
        ensures end { OnOk result (IsReadToEnd
            (R.remaining reader.old) (R.remaining reader.new) self.old) }
        ensures unmarked { OnOk result (R.mark reader.new ≡ R.mark reader.old) }
        ensures failed { OnErr result (IsMarkedOrPastFrom
            (R.mark reader.new) (R.remaining reader.old) self.old) }
    {
        while !self.is_at_end {
            self.hear(reader, buffer)?;
        }
        Ok(())
    }
}
