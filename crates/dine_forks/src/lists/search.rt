//! The search for the record of two slots: a walk of the list of one of them.

ghost use Rattle.std.specs.Prelude.{◌≡◌, ◌<◌};
ghost use Rattle.dine_forks.specs.Book.{id_between, slot_list};
ghost use Rattle.dine_forks.specs.Search.{place_between};

use super::Lists;
use crate::record::ForkId;

impl Lists {
    /// The record that joins a slot to another, and how many records of the slot were read to find it or to see that
    /// there is none.
    #[inline]
    pub fn along(&self, slot: u32, other: u32) -> (Option<ForkId>, u32)
        requires { slot < self.now.slots }
        ensures found { result.0 ≡ id_between slot other self.now.records }
        ensures counted { result.1 ≡ place_between slot other (slot_list slot self.now.records) }
    {
        let mut read = 0;
        let mut next = self.first_of(slot);
        while let Some(id) = next {
            let record = self.record(id);
            read += 1;
            // Both branches say the same of their end: each is built knowing it, which spares the test of the other end and
            // that of what follows.
            if slot == record.first {
                if record.second == other {
                    return (next, read);
                }
                next = self.next_of(slot, id);
            } else {
                if record.first == other {
                    return (next, read);
                }
                next = self.next_of(slot, id);
            }
        }
        (None, read)
    }
}
