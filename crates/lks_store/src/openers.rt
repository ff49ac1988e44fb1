//! What opens a store.
ghost use Rattle.std.specs.Prelude.{ℕ, List, IfOk, OnErr, IsErrOf};
ghost use Rattle.lks_store.specs.Opening.{HasCause, IsOpened, TellsTheSame};

use lks_disk::Disk;

/// Why a store wasn't opened.
#[derive(Clone, Copy, Debug, PartialEq, Eq)]
pub enum OpenStop {
    /// The opener's count of faults rose.
    Failed,
    Memory,
}

/// Opens stores by name.
pub trait Opener {
    type Store: Disk;

    /// How often it has failed.
    ghost faults: { Self → ℕ };

    /// It tells what the store holds that the next call gives.
    ghost tells: { Self → Type 0 };

    /// The bytes of that store, where it tells them.
    ghost content: { Self → List ℕ };

    /// How often that store has failed.
    ghost store_faults: { Self → ℕ };

    /// A store as it was told: nothing is pending on it, and no fuse is set. After a refusal the same is told of the
    /// next one.
    fn open_store(&mut self, path: &str) -> Result<Self::Store, OpenStop>
        ensures opened { IfOk result
            (λ store. IsOpened Self.Store.face (tells self.old) (content self.old) (store_faults self.old) store) }
        ensures cause { HasCause (faults self.old) (faults self.new) result }
        ensures same { OnErr result
            (TellsTheSame (tells self.old) (tells self.new) (content self.old) (content self.new)
            (store_faults self.old) (store_faults self.new)) };
}
