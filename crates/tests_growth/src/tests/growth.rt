//! Calls to which one growth is refused. Each test is an ordinary run where memory is ample; `.ci/refused-growth` runs it
//! over and over, and refuses its first growth, its second, and so on, until a run meets no refusal. A call that finds no
//! memory leaves all as it was, and gives what it would have given when it is made again.

mod calls;
mod fronts;
mod histories;
