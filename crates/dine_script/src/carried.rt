//! What came of lines at the front of a text.

/// How many bytes of a text are left behind lines at its front that were carried out. It is handed back in two registers, as
/// a result with two numbers is not.
#[derive(Clone, Copy, Debug)]
pub enum Carried {
    /// So many, and none of the lines has a fault.
    Good(usize),
    /// So many: one line was carried out, and it has a fault.
    Faulty(usize),
    /// It isn't told, since memory ran out.
    NoMemory,
}
