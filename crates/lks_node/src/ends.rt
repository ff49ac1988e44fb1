//! How far a run of a node came, and the answer for it.

ghost use Rattle.std.specs.Prelude.{◌≡◌};
ghost use Rattle.lks_node.specs.Codes.{status_of, rest_status};
ghost use Rattle.lks_node.specs.declared.ends.NodeStop.TheVariants.{Fell as HasFallen, Untold as IsUntold};

use crate::frames::Unread;
use crate::statuses::NodeStatus;
use lks_outside::WriteStop;
use lks_script::ScriptFault;
use lks_store::OpenStop;

/// Why there is no script.
#[derive(Clone, Copy)]
pub enum NoScript {
    Unread(Unread),
    /// The first frame isn't whole, or there is none.
    Unframed,
    Unsaid(ScriptFault),
}

/// Why a store wasn't made a journal of the peer's own.
#[derive(Clone, Copy)]
pub enum Unready {
    /// The store's count of faults rose.
    Failed,
    Memory,
    /// It holds no journal.
    Damaged { offset: u64 },
    /// Its batches are too long to be sorted.
    Full,
    /// It holds another peer's.
    Foreign { batch: u32 },
}

/// How far frames were answered: each reply was written, and what each added is on the store.
#[derive(Clone, Copy)]
pub enum Rest {
    /// The source ended at the end of a frame.
    Done,
    /// A byte follows the last frame that may be.
    TooMany,
    Unread(Unread),
    /// The next frame, which has this number, tells nothing.
    Bad { index: u32 },
    /// No memory was there for what the next frame tells.
    Memory,
    /// The journal has no room for what the next frame may add.
    Full,
}

/// Why a step wasn't taken.
#[derive(Clone, Copy)]
pub enum Fall {
    /// The store's count of faults rose.
    Failed,
    Memory,
}

/// Where the answering of frames ended.
#[derive(Clone, Copy)]
pub enum NodeStop {
    /// Between two frames.
    Rested(Rest),
    /// In the step of a frame.
    Fell(Fall),
    /// In the reply to a frame: what the frame added is on the store.
    Untold(WriteStop),
}

impl From<Fall> for NodeStop {
    ghost from_gives = { λ fall e. e ≡ HasFallen fall };

    fn from(fall: Fall) -> Self {
        NodeStop::Fell(fall)
    }
}

impl From<WriteStop> for NodeStop {
    ghost from_gives = { λ stop e. e ≡ IsUntold stop };

    fn from(stop: WriteStop) -> Self {
        NodeStop::Untold(stop)
    }
}

/// How far a run came.
#[derive(Clone, Copy)]
pub enum NodeEnd {
    /// The words aren't the number of a peer and a path.
    Unnamed,
    Unopened(OpenStop),
    Unscripted(NoScript),
    /// The script has no such honest peer.
    Strange,
    Unready(Unready),
    Answered(NodeStop),
}

impl NodeEnd {
    /// The answer of a run that came so far.
    pub fn status(self) -> NodeStatus
        ensures { result ≡ status_of self }
    {
        match self {
            NodeEnd::Unnamed => NodeStatus::Usage,
            NodeEnd::Unopened(OpenStop::Failed) => NodeStatus::OpenFault,
            NodeEnd::Unopened(OpenStop::Memory) => NodeStatus::NoMemory,
            NodeEnd::Unscripted(NoScript::Unread(Unread::Failed)) => NodeStatus::ReadFault,
            NodeEnd::Unscripted(NoScript::Unread(Unread::Memory)) => NodeStatus::NoMemory,
            NodeEnd::Unscripted(NoScript::Unframed) => NodeStatus::BadFrame { index: 0 },
            NodeEnd::Unscripted(NoScript::Unsaid(ScriptFault::BadLine { line })) =>
                NodeStatus::BadScript { line },
            NodeEnd::Unscripted(NoScript::Unsaid(ScriptFault::Memory)) => NodeStatus::NoMemory,
            NodeEnd::Strange => NodeStatus::Stranger,
            NodeEnd::Unready(Unready::Failed) => NodeStatus::DiskFault,
            NodeEnd::Unready(Unready::Memory) => NodeStatus::NoMemory,
            NodeEnd::Unready(Unready::Damaged { offset }) => NodeStatus::Damaged { offset },
            NodeEnd::Unready(Unready::Full) => NodeStatus::Full,
            NodeEnd::Unready(Unready::Foreign { batch }) => NodeStatus::Foreign { batch },
            NodeEnd::Answered(NodeStop::Rested(rest)) => rest.status(),
            NodeEnd::Answered(NodeStop::Fell(Fall::Failed)) => NodeStatus::DiskFault,
            NodeEnd::Answered(NodeStop::Fell(Fall::Memory)) => NodeStatus::NoMemory,
            NodeEnd::Answered(NodeStop::Untold(WriteStop::Failed)) => NodeStatus::WriteFault,
            NodeEnd::Answered(NodeStop::Untold(WriteStop::Memory)) => NodeStatus::NoMemory,
        }
    }
}

impl Rest {
    fn status(self) -> NodeStatus
        ensures { result ≡ rest_status self }
    {
        match self {
            Rest::Done => NodeStatus::Done,
            Rest::TooMany => NodeStatus::TooMany,
            Rest::Unread(Unread::Failed) => NodeStatus::ReadFault,
            Rest::Unread(Unread::Memory) => NodeStatus::NoMemory,
            Rest::Bad { index } => NodeStatus::BadFrame { index },
            Rest::Memory => NodeStatus::NoMemory,
            Rest::Full => NodeStatus::Full,
        }
    }
}
