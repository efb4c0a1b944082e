//! What crosses the crates.

mod gates;
mod named_files;
mod program;
mod rows;
mod same;
mod starts;
