//! The programs over streams that fail, never end or are interrupted, and with little memory.

mod engine;
mod growth;
mod kinds;
mod large_writes;
mod long_scripts;
mod program;
mod same;
mod services;
mod torn_streams;
