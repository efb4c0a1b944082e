//! What is said beside the output of a command line that asks for nothing. Where there is no memory for the words, nothing is
//! said.

use dine_lines::{Listener, Remark, next_line};
use std::alloc::Global;

/// Tells what was wrong with a command line, in the words of who read it.
pub fn explain_words<L: Listener>(alloc: Global, explanation: &[u8], listener: &mut L) {
    let mut rest = explanation;
    while let Some((line, after)) = next_line(rest) {
        let mut remark = Remark::new(alloc);
        if remark.push(line).is_ok() {
            listener.tell(&remark);
        }
        rest = after;
    }
}
