//! How far a run came, and the answer for it.

ghost use Rattle.std.specs.Prelude.{◌≡◌};
ghost use Rattle.lks_script.specs.declared.faults.ScriptFault.TheVariants.{Memory};
ghost use Rattle.lockss.specs.Codes.{status_of};
ghost use Rattle.lockss.specs.declared.ends.Unscripted.TheVariants.{Unread, Unsaid};

use crate::statuses::Status;
use lks_base::OutOfMemory;
use lks_outside::{ReadStop, WriteStop};
use lks_script::ScriptFault;
use lks_world::WorldFault;

/// How far a script was played.
#[derive(Clone, Copy)]
pub enum Played {
    /// No world was made.
    Unmade(WorldFault),
    /// A fault stopped it in one of its steps.
    Stopped(WorldFault),
    /// All steps were done, but a journal wasn't read back, or no memory was there for what is told.
    Untold(WorldFault),
    /// All steps were done and all was told, and whether an alarm was raised; or less than all was told.
    Told(Result<bool, WriteStop>),
}

/// How far a race came.
#[derive(Clone, Copy)]
pub enum Raced {
    /// No world was made.
    Unmade(WorldFault),
    /// A fault stopped it in one of the script's steps.
    Stopped(WorldFault),
    /// All steps were done. A fault stopped it while threads took what was due.
    Halted(WorldFault),
    /// All steps were done, threads took what was due to the end, and all was told, and whether an alarm was raised; or
    /// less than all was told.
    Told(Result<bool, WriteStop>),
}

/// Why a run found no script, or no journals.
#[derive(Clone, Copy)]
pub enum Unscripted {
    /// Reading stopped.
    Unread(ReadStop),
    /// The bytes are none, or no memory was there for them.
    Unsaid(ScriptFault),
}

impl From<ReadStop> for Unscripted {
    ghost from_gives = { λ stop e. e ≡ Unread stop };

    fn from(stop: ReadStop) -> Self {
        Unscripted::Unread(stop)
    }
}

impl From<ScriptFault> for Unscripted {
    ghost from_gives = { λ fault e. e ≡ Unsaid fault };

    fn from(fault: ScriptFault) -> Self {
        Unscripted::Unsaid(fault)
    }
}

impl From<OutOfMemory> for Unscripted {
    ghost from_gives = { λ _ e. e ≡ Unsaid Memory };

    fn from(_: OutOfMemory) -> Self {
        Unscripted::Unsaid(ScriptFault::Memory)
    }
}

/// How far a run came.
#[derive(Clone, Copy)]
pub enum End {
    /// The words aren't a command.
    Unnamed,
    /// No memory was there for the words.
    Unbegun,
    Unscripted(Unscripted),
    Played(Played),
    Raced(Raced),
    /// Journals were examined and all was told, and whether one is doubted; or less than all was told.
    Examined(Result<bool, WriteStop>),
}

impl End {
    /// The answer of a run that came so far.
    pub fn status(self) -> Status
        ensures { result ≡ status_of self }
    {
        match self {
            End::Unnamed => Status::Usage,
            End::Unbegun => Status::NoMemory,
            End::Unscripted(Unscripted::Unread(ReadStop::Failed)) => Status::ReadFault,
            End::Unscripted(Unscripted::Unread(ReadStop::TooLong)) => Status::TooLong,
            End::Unscripted(Unscripted::Unread(ReadStop::Memory)) => Status::NoMemory,
            End::Unscripted(Unscripted::Unsaid(ScriptFault::BadLine { line })) =>
                Status::BadScript { line },
            End::Unscripted(Unscripted::Unsaid(ScriptFault::Memory)) => Status::NoMemory,
            End::Played(Played::Unmade(WorldFault::Disk { peer })) => Status::DiskFault { peer },
            End::Played(Played::Unmade(WorldFault::Memory)) => Status::NoMemory,
            End::Played(Played::Stopped(WorldFault::Disk { peer })) => Status::DiskFault { peer },
            End::Played(Played::Stopped(WorldFault::Memory)) => Status::NoMemory,
            End::Played(Played::Untold(WorldFault::Disk { peer })) => Status::DiskFault { peer },
            End::Played(Played::Untold(WorldFault::Memory)) => Status::NoMemory,
            End::Played(Played::Told(Ok(false))) => Status::Done,
            End::Played(Played::Told(Ok(true))) => Status::Alarmed,
            End::Played(Played::Told(Err(WriteStop::Failed))) => Status::WriteFault,
            End::Played(Played::Told(Err(WriteStop::Memory))) => Status::NoMemory,
            End::Raced(Raced::Unmade(WorldFault::Disk { peer })) => Status::DiskFault { peer },
            End::Raced(Raced::Unmade(WorldFault::Memory)) => Status::NoMemory,
            End::Raced(Raced::Stopped(WorldFault::Disk { peer })) => Status::DiskFault { peer },
            End::Raced(Raced::Stopped(WorldFault::Memory)) => Status::NoMemory,
            End::Raced(Raced::Halted(WorldFault::Disk { peer })) => Status::DiskFault { peer },
            End::Raced(Raced::Halted(WorldFault::Memory)) => Status::NoMemory,
            End::Raced(Raced::Told(Ok(false))) => Status::Done,
            End::Raced(Raced::Told(Ok(true))) => Status::Alarmed,
            End::Raced(Raced::Told(Err(WriteStop::Failed))) => Status::WriteFault,
            End::Raced(Raced::Told(Err(WriteStop::Memory))) => Status::NoMemory,
            End::Examined(Ok(false)) => Status::Done,
            End::Examined(Ok(true)) => Status::Doubted,
            End::Examined(Err(WriteStop::Failed)) => Status::WriteFault,
            End::Examined(Err(WriteStop::Memory)) => Status::NoMemory,
        }
    }
}
