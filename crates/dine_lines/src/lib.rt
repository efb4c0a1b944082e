//! The lines of a text, the words of a line, and the names of tasks: what scripts and scenarios have in common. And what
//! scripts have in common with a service and a race: what a question is answered, what of a run is written, and what people
//! are told of a line that is wrong.
#![tactic(auto)]

mod explain;
mod form;
mod label;
mod line_fault;
mod line_feed;
mod line_words;
mod name;
mod names;
mod print;
mod question_answer;
mod seed;
mod short_line;
mod usual;

pub use explain::{
    Listener, Place, Remark, Silence, error_remark, journal_from, push_entry_fault,
    push_header_fault, push_line_fault, push_other_reply, tell,
};
pub use form::Form;
pub use label::Label;
pub use line_fault::LineFault;
pub use line_words::{
    after_comment, after_empty, is_passed_over, is_too_long, next_line, next_word,
};
pub use name::Name;
pub use names::Names;
pub use print::Print;
pub use question_answer::{push_neighbours, push_next, push_state, push_tasks};
pub use seed::Seed;
pub use short_line::{ShortWord, after_blanks, after_filled_line, short_word, spaced_word};
pub use usual::{
    FoundCall, FoundPair, PairLine, StepLine, cut_join, cut_pair, cut_state, cut_step, find_call,
    find_neighbours, find_pair, find_state,
};
