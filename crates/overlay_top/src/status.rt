ghost use Rattle.std.specs.Prelude.{◌≡◌};
ghost use Rattle.overlay_top.specs.Status.{code_of};

/// How a call ended.
#[derive(Clone, Copy, Debug, PartialEq, Eq)]
pub enum Status {
    /// All commands were done.
    Done,
    /// There was no memory.
    NoMemory,
    /// The words aren't the command's.
    BadWords,
    /// A file isn't there, or the source or the shelf failed.
    ReadFailed,
    /// The sink failed.
    WriteFailed,
    /// A line of the script is outside the grammar.
    BadLine,
    /// The script or a file has more bytes than it may have.
    TooLong,
}

impl Status {
    /// The number that the program ends with.
    pub(crate) fn code(self) -> u8
        ensures { result ≡ code_of self }
    {
        match self {
            Status::Done => 0,
            Status::NoMemory => 1,
            Status::BadWords => 2,
            Status::ReadFailed => 3,
            Status::WriteFailed => 4,
            Status::BadLine => 5,
            Status::TooLong => 6,
        }
    }
}
