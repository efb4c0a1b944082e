//! One remark, of which a terminal prints every character.

ghost use Rattle.std.specs.Prelude.{◌≡◌, ◌++◌, ◌∷◌, [], OnOk, decimal, map, true};
ghost use Rattle.std.specs.List.{list_all};
ghost use Rattle.dine_lines.specs.Printable.{is_printable, shown};

use dine_words::push_number;
use std::alloc::{AllocError, Global};
use std::marker::Model;

// The most bytes of a word that a remark quotes.
const MAX_QUOTED: usize = 40;

/// A line of text for people, without its line feed.
///
/// It has printable letters of ASCII alone. A stranger's text may be quoted in it, and can neither move a terminal's cursor
/// nor begin a line of its own.
#[derive(Drop)]
pub struct Remark {
    text: Vec<u8>,
}

impl Model for Remark {
    ghost use Rattle.std.specs.Prelude.{◌≡◌, ℕ, List, true};
    ghost use Rattle.std.specs.List.{list_all};
    ghost use Rattle.dine_lines.specs.Printable.{is_printable};

    ghost Value = { List ℕ };

    ghost view = { λ remark. remark.text.items };

    ghost invariant = { λ remark. list_all is_printable remark.text.items ≡ true };
}

impl Remark {
    /// Nothing is said yet.
    pub fn new(alloc: Global) -> Remark
        ensures { result ≡ [] }
    {
        Remark {
            text: Vec::new(alloc),
        }
    }

    /// What is said.
    pub fn text(&self) -> &[u8]
        ensures text { result.now ≡ self.now }
        ensures printable { list_all is_printable result.now ≡ true }
    {
        &self.text
    }

    /// Says a text, with a question mark in the place of each byte that is not printable. On `Err` a part of it may have
    /// been said.
    pub fn push(&mut self, text: &[u8]) -> Result<(), AllocError>
        ensures { OnOk result (self.new ≡ self.old ++ map shown text.now) }
    {
        for byte in text {
            self.push_byte(*byte)?;
        }
        Ok(())
    }

    // Says a byte, or a question mark in its place.
    fn push_byte(&mut self, byte: u8) -> Result<(), AllocError>
        ensures { OnOk result (self.new ≡ self.old ++ map shown (byte ∷ [])) }
    {
        self.text.push(shown(byte))?;
        Ok(())
    }

    /// Says a number in decimal. On `Err` nothing of it was said.
    #[tactic(auto, using(crate::proofs::Digits::decimal_is_shown))]
    pub fn push_number(&mut self, number: u64) -> Result<(), AllocError>
        ensures { OnOk result (self.new ≡ self.old ++ map shown (decimal number)) }
    {
        push_number(&mut self.text, number)
    }

    /// Says a text between quotes. Only its first part is told where it is long. On `Err` a part may have been said.
    pub fn push_quoted(&mut self, text: &[u8]) -> Result<(), AllocError> {
        let told = text.len().min(MAX_QUOTED);
        self.push(b"'")?;
        self.push(&text[..told])?;
        if told < text.len() {
            self.push(b"..")?;
        }
        self.push(b"'")
    }
}

// A printable letter of ASCII, or a question mark in the place of another byte.
fn shown(byte: u8) -> u8
    ensures { result ≡ shown byte }
{
    if matches!(byte, b' '..=b'~') {
        byte
    } else {
        b'?'
    }
}

/// The beginning of a remark that tells an error. An error is want of memory.
pub fn error_remark(alloc: Global) -> Result<Remark, AllocError> {
    let mut remark = Remark::new(alloc);
    remark.push(b"error: ")?;
    Ok(remark)
}
