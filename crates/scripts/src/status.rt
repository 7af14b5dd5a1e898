//! The status of a run.
ghost use Rattle.scripts.specs.Scripts.{code_of, message_of};
ghost use Rattle.std.specs.Prelude.{MatchOption, None, Some, ◌≡◌};

/// The status with which a run ends, and what was written.
#[derive(Debug, Clone, Copy, PartialEq, Eq)]
pub enum Status {
    /// The script was run to its end. The output is a line for each reply, and the text of each
    /// `show`.
    Done,
    /// A line is unreadable. The output is a line with the number of the first such line.
    Unreadable,
    /// Reading the input failed. Nothing was written.
    InputFailed,
    /// Writing failed. The output is nothing, or a beginning of the right one.
    OutputFailed,
    /// Memory ran out. Nothing was written.
    OutOfMemory,
}

impl Status {
    /// Returns the exit status of a program that ran the script.
    pub fn code(self) -> u8
        ensures { result ≡ code_of self }
    {
        match self {
            Status::Done => 0,
            Status::Unreadable => 2,
            Status::InputFailed | Status::OutputFailed => 3,
            Status::OutOfMemory => 4,
        }
    }

    /// Returns the text that a program writes to standard error, after its own name.
    pub fn message(self) -> Option<&'static str>
        ensures { MatchOption result (message_of self ≡ None)
            (λ text. message_of self ≡ Some text.now) }
    {
        match self {
            Status::Done | Status::Unreadable => None,
            Status::InputFailed => Some("input failed"),
            Status::OutputFailed => Some("output failed"),
            Status::OutOfMemory => Some("out of memory"),
        }
    }
}
