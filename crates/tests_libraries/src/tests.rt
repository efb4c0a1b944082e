//! Each library by itself, and the plain table and the arbiter side by side.

mod bars;
mod inputs;
mod journal;
mod same;
mod slots;
mod two_tables;
mod words;
