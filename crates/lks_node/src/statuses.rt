//! How a run of a node ends.

ghost use Rattle.std.specs.Prelude.{◌≡◌};
ghost use Rattle.lks_node.specs.Codes.{code_of};

/// The answer of a run of a node.
#[derive(Clone, Copy, Debug, PartialEq, Eq)]
pub enum NodeStatus {
    /// The source ended at the end of a frame, and each frame was answered.
    Done,
    /// The words aren't the number of a peer and a path.
    Usage,
    /// The first frame isn't a script. `line` is its first bad line, counted from 1.
    BadScript { line: u32 },
    ReadFault,
    WriteFault,
    /// The count of faults of the store rose.
    DiskFault,
    NoMemory,
    /// The store holds a journal that isn't this peer's: the batch at this place, counted from 0, is the first that it
    /// wouldn't have written.
    Foreign { batch: u32 },
    /// This frame, counted from 0, isn't whole, is too long, or tells nothing.
    BadFrame { index: u32 },
    OpenFault,
    /// The journal has no room for one batch more, or is too long to be read.
    Full,
    /// There are more than 4,096 frames behind the first.
    TooMany,
    /// The script has no honest peer of this number.
    Stranger,
    /// The store holds no journal: the frame whose gate stands at this offset passes its end.
    Damaged { offset: u64 },
}

impl NodeStatus {
    /// The program's exit code.
    pub fn code(self) -> u8
        ensures { result ≡ code_of self }
    {
        match self {
            NodeStatus::Done => 0,
            NodeStatus::Usage => 2,
            NodeStatus::BadScript { .. } => 3,
            NodeStatus::ReadFault => 4,
            NodeStatus::WriteFault => 5,
            NodeStatus::DiskFault => 6,
            NodeStatus::NoMemory => 7,
            NodeStatus::Foreign { .. } => 10,
            NodeStatus::BadFrame { .. } => 11,
            NodeStatus::OpenFault => 12,
            NodeStatus::Full => 13,
            NodeStatus::TooMany => 14,
            NodeStatus::Stranger => 15,
            NodeStatus::Damaged { .. } => 16,
        }
    }
}
