//! The signatures of the slots, by which most searches for a record that isn't there end before they look at one.
//!
//! The bit of a slot is that of its number modulo 64: where it is not set no record joins the two slots. A record that goes leaves
//! its bits. They go with the first record that comes once its slot has none.

ghost use Rattle.std.specs.Prelude.{◌≡◌, ◌<◌, length};
ghost use Rattle.dine_forks.specs.Signatures.{has_bit_of, noted, signature_of};

/// Notes another slot in the signature of a slot that has so many records, before one comes that joins the two. The signature
/// was read before.
#[inline(always)]
pub fn note(signatures: &mut Vec<u64>, slot: u32, old: u64, other: u32, degree: u32)
    requires slot { slot < length signatures.old.items }
    requires old { old ≡ signature_of signatures.old.items slot }
    ensures { signatures.new.items ≡ noted slot other degree signatures.old.items }
{
    let before = if degree == 0 { 0 } else { old };
    signatures[slot as usize] = before | 1 << (other % 64);
}

/// Whether another slot is noted in the signature of a slot, or one that shares its bit.
#[inline(always)]
pub fn is_noted(signatures: &[u64], slot: u32, other: u32) -> bool
    requires { slot < length signatures.now }
    ensures { result ≡ has_bit_of signatures.now slot other }
{
    (signatures[slot as usize] >> (other % 64)) & 1 == 1
}
