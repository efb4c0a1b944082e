//! Pictures of a history as texts: SVG, a page, a trace in Chrome's format, and a graph in DOT.
#![tactic(auto)]

mod elements;
mod escape;
mod fixed;
mod gather;
mod graph;
mod law;
mod page;
mod picture;
mod picture_form;
mod piece;
mod standing;
mod svg;
mod trace;

pub use graph::push_graph;
pub use law::{
    a_conflict_has_one_edge, a_name_stays_between_its_quotes, a_name_stays_in_its_element,
};
pub use picture::{MOST_LANES, MOST_PLACES, Picture, window_in};
pub use trace::write_trace;
