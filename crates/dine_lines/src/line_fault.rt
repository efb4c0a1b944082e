//! Why a line cannot be carried out.

ghost use Rattle.std.specs.Prelude.{◌≡◌};
ghost use Rattle.dine_lines.specs.Faults.{fault_text};

/// Why a line cannot be carried out. A line with several faults has the first of them, in this order.
#[derive(Clone, Copy, Debug, PartialEq, Eq, Hash)]
pub enum LineFault {
    /// There is no such command, it has another number of words, or the line is too long.
    Words,
    /// A word that is to be a name isn't one.
    Name,
    /// A name is to be free, and is bound.
    Bound,
    /// A name is to be bound, and is free.
    Unbound,
}

impl LineFault {
    /// The kind of the fault, as it stands in output.
    pub fn text(self) -> &'static str
        ensures { result.now ≡ fault_text self }
    {
        match self {
            LineFault::Words => "words",
            LineFault::Name => "name",
            LineFault::Bound => "bound",
            LineFault::Unbound => "unbound",
        }
    }
}
