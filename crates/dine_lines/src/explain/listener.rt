//! Who is told.

use crate::explain::remark::Remark;
use std::alloc::{AllocError, Global};

/// Is told what was wrong. What it makes of that is its own: no promise of this program depends on it.
pub trait Listener {
    /// One thing that was wrong.
    fn tell(&mut self, remark: &Remark);
}

/// Nobody is told.
#[derive(Clone, Copy, Debug)]
pub struct Silence;

impl Listener for Silence {
    fn tell(&mut self, _remark: &Remark) {}
}

/// Tells a text. On `Err` memory has run out, and nobody is told.
pub fn tell<L: Listener>(alloc: Global, text: &[u8], listener: &mut L) -> Result<(), AllocError> {
    let mut remark = Remark::new(alloc);
    remark.push(text)?;
    listener.tell(&remark);
    Ok(())
}
