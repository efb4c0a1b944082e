//! Why a line can't be carried out.

ghost use Rattle.std.specs.Prelude.{◌≡◌};
ghost use Rattle.dine_serve.specs.Answers.{line_fault_text};

/// Why a line can't be carried out.
#[derive(Clone, Copy, Debug, PartialEq, Eq, Hash)]
pub enum LineFault {
    /// It is no request, or it is too long.
    Words,
    /// It is the last one and has no line feed, so a part of it may be missing.
    Torn,
    /// It is a begin that has to wait, and as many wait as tasks may be present.
    Full,
    /// Its number is below that of the pass's last request.
    Stale,
}

impl LineFault {
    /// The kind of the fault, as it stands in output.
    pub(crate) fn text(self) -> &'static str
        ensures { result.now ≡ line_fault_text self }
    {
        match self {
            LineFault::Words => "words",
            LineFault::Torn => "torn",
            LineFault::Full => "full",
            LineFault::Stale => "stale",
        }
    }
}
