//! Growth below the programs: it is refused, or doesn't come.

mod grows;
mod growth;
mod same;
mod steady;
