//! How a run ends.

ghost use Rattle.std.specs.Prelude.{◌≡◌};
ghost use Rattle.lockss.specs.Codes.{code_of};

use lks_base::PeerId;

/// The answer of a run.
#[derive(Clone, Copy, Debug, PartialEq, Eq)]
pub enum Status {
    /// The run was made, and its history has no alarm; or the journals that were examined hold.
    Done,
    /// The run was made, and its history has an alarm.
    Alarmed,
    /// The words aren't a command.
    Usage,
    /// The bytes aren't a script, or a script and journals. `line` is the first bad line, counted from 1.
    BadScript { line: u32 },
    ReadFault,
    WriteFault,
    /// The count of faults of this peer's disk rose.
    DiskFault { peer: PeerId },
    NoMemory,
    /// More than 16,777,216 bytes came.
    TooLong,
    /// The journals that were examined don't hold.
    Doubted,
}

impl Status {
    /// The program's exit code.
    pub fn code(self) -> u8
        ensures { result ≡ code_of self }
    {
        match self {
            Status::Done => 0,
            Status::Alarmed => 1,
            Status::Usage => 2,
            Status::BadScript { .. } => 3,
            Status::ReadFault => 4,
            Status::WriteFault => 5,
            Status::DiskFault { .. } => 6,
            Status::NoMemory => 7,
            Status::TooLong => 8,
            Status::Doubted => 9,
        }
    }
}
