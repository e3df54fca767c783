//! How the reading of a line ended.
ghost use Rattle.std.specs.Prelude.{◌≡◌};
ghost use Rattle.command_inputs.specs.LineRuns.{is_last, stopped};

use crate::ended::Ended;

/// How the reading of a line ended.
#[derive(Clone, Copy, Debug, PartialEq, Eq)]
pub enum LineEnd {
    /// An LF ended it.
    Whole,
    /// The input ended.
    Last,
    /// It passed the limit, and the rest of it is not wanted.
    Long,
    /// As many bytes as may be read of one input were read, without its end.
    Full,
    /// A read failed.
    Failed,
    /// Memory ran out.
    Memory,
}

impl LineEnd {
    /// How a command ends whose reading stopped in a line; none where the line came to its end.
    pub fn stopped(self) -> Option<Ended>
        ensures { result ≡ stopped self }
    {
        match self {
            LineEnd::Whole | LineEnd::Last | LineEnd::Long => None,
            LineEnd::Full => Some(Ended::TooLong),
            LineEnd::Failed => Some(Ended::Failed),
            LineEnd::Memory => Some(Ended::Memory),
        }
    }

    /// Whether the input ended with the line.
    pub fn is_last(self) -> bool
        ensures { result ≡ is_last self }
    {
        matches!(self, LineEnd::Last)
    }
}
