//! Texts of two tasks that eat by turns and of five round a table; and rows, whose parts are lines or entries with `; `
//! between them.

use std::alloc::AllocError;

/// A script of two that eat by turns: the second has to wait until the first has finished.
pub const SCRIPT: &str =
    "join a\njoin b\nconflict a b\nhungry a\nbegin a\nhungry b\nbegin b\nfinish a\nbegin b\n";

/// Its replies.
pub const REPLIES: &str =
    "joined 0.0\njoined 1.1\ndone\ndone\ndone\ndone\nrefused not-yet\ndone\ndone\n";

/// Its journal.
pub const JOURNAL: &str = "dine 2 64 256\n0 join -> joined 0.0\n0 join -> joined 1.1\n\
    0 conflict 0.0 1.1 -> done\n0 hungry 0.0 -> done\n0 begin 0.0 -> done\n0 hungry 1.1 -> done\n\
    0 begin 1.1 -> refused not-yet\n0 finish 0.0 -> done\n0 begin 1.1 -> done\n";

/// The journal of a task that eats twice while its neighbour is hungry: the second time it has to wait.
pub const OVERTAKING: &str = "dine 2 64 256\n0 join -> joined 0.0\n0 join -> joined 1.1\n\
    0 conflict 0.0 1.1 -> done\n0 hungry 1.1 -> done\n0 hungry 0.0 -> done\n0 begin 0.0 -> done\n\
    0 finish 0.0 -> done\n0 hungry 0.0 -> done\n0 begin 0.0 -> refused not-yet\n\
    0 begin 1.1 -> done\n";

/// The row of the first journal.
pub const TURNS: &str = "0 join -> joined 0.0; 0 join -> joined 1.1; 0 conflict 0.0 1.1 -> done; \
    0 hungry 0.0 -> done; 0 begin 0.0 -> done; 0 hungry 1.1 -> done; \
    0 begin 1.1 -> refused not-yet; 0 finish 0.0 -> done; 0 begin 1.1 -> done";

/// A row of five round a table that are hungry, and the first eats.
pub const RING: &str = "0 join -> joined 0.0; 0 join -> joined 1.1; 0 join -> joined 2.2; \
    0 join -> joined 3.3; 0 join -> joined 4.4; 0 conflict 0.0 1.1 -> done; \
    0 conflict 1.1 2.2 -> done; 0 conflict 2.2 3.3 -> done; 0 conflict 3.3 4.4 -> done; \
    0 conflict 4.4 0.0 -> done; 0 hungry 0.0 -> done; 0 hungry 1.1 -> done; \
    0 hungry 2.2 -> done; 0 hungry 3.3 -> done; 0 hungry 4.4 -> done; 0 begin 0.0 -> done";

/// Appends the parts of a row as lines. An empty row has none.
pub fn push_lines(text: &mut Vec<u8>, row: &str) -> Result<(), AllocError> {
    if row.is_empty() {
        return Ok(());
    }
    for line in row.split("; ") {
        text.extend_from_slice(line.as_bytes())?;
        text.push(b'\n')?;
    }
    Ok(())
}
