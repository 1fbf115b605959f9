//! How a run ended.

ghost use Rattle.std.specs.Prelude.{◌≡◌};

/// The exit status of a run.
#[derive(Clone, Copy, PartialEq, Eq, Debug)]
pub enum Status {
    /// Cleared, each step of a replay accepted or cleared, a certificate that holds or is written anew, rights that fit, within rounding, or
    /// tables that are made.
    Done,
    /// The words are none that the program takes.
    Usage,
    /// A file is at fault, an edit of a replay is refused, or a case allows no tables of factors.
    Refused,
    /// No dispatch is feasible.
    Infeasible,
    /// Numbers became too large, for 127 bits or for as many as were asked for.
    Range,
    /// A named file could not be read.
    ReadFailed,
    /// A certificate or a table could not be written, or the text not be put.
    WriteFailed,
    /// Memory was refused.
    Memory,
    /// What was to be checked does not hold.
    Refuted,
}

impl Status {
    ghost use Rattle.command_answers.specs.Status.{code_of};

    pub fn code(self) -> u8
        ensures { result ≡ code_of self }
    {
        match self {
            Status::Done => 0,
            Status::Usage => 1,
            Status::Refused => 2,
            Status::Infeasible => 3,
            Status::Range => 4,
            Status::ReadFailed => 5,
            Status::WriteFailed => 6,
            Status::Memory => 7,
            Status::Refuted => 8,
        }
    }
}
