//! A digest of all that jobs answer.

/// What was answered so far.
#[derive(Drop)]
pub struct Digest {
    /// How many answers there were.
    pub answers: u64,
    /// How many bytes they have.
    pub bytes: u64,
    /// The digest of them, in order.
    pub state: u64,
}

impl Digest {
    /// The digest of nothing.
    pub fn new() -> Self {
        Digest {
            answers: 0,
            bytes: 0,
            state: 0x9e37_79b9_7f4a_7c15,
        }
    }

    /// Takes a number in.
    #[inline]
    pub fn take_number(&mut self, number: u64) {
        let mixed = (self.state ^ number).wrapping_mul(0x2545_f491_4f6c_dd1d);
        self.state = mixed ^ (mixed >> 29);
    }

    /// Takes an answer in: a status, and a text.
    pub fn take(&mut self, status: u8, text: &[u8]) {
        self.answers = self.answers.wrapping_add(1);
        self.bytes = self.bytes.wrapping_add(text.len() as u64);
        self.take_number(u64::from(status));
        let (words, rest) = text.as_chunks::<8>();
        for word in words {
            self.take_number(u64::from_le_bytes(*word));
        }
        for byte in rest {
            self.take_number(u64::from(*byte));
        }
    }
}
