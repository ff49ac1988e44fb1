//! Where bytes go.
ghost use Rattle.std.specs.Prelude.{◌≡◌, ◌<◌, ◌≤◌, ◌++◌, ℕ, List, [], length, take, Some, Option, Ok, IsOk, IfOk};
ghost use Rattle.std.specs.Prelude.{OnOk, OnErr, IsErrOf};
ghost use Rattle.lks_outside.specs.declared.sinks.SinkStop.TheVariants as taking;
ghost use Rattle.lks_outside.specs.Counts.{Rose};
ghost use Rattle.lks_outside.specs.Streams.{AddsFront, told_as};

use std::alloc::AllocError;

/// A sink took nothing of a piece.
#[derive(Clone, Copy, Debug, PartialEq, Eq)]
pub enum SinkStop {
    Failed,
    Memory,
}

impl From<AllocError> for SinkStop {
    ghost from_gives = { λ _ e. e ≡ taking.Memory };

    fn from(_: AllocError) -> Self {
        SinkStop::Memory
    }
}

/// What takes bytes, in pieces of any size.
pub trait Sink {
    /// The bytes that were taken, where the sink tells them.
    ghost taken: { Self → Option (List ℕ) };

    /// How often the sink has failed.
    ghost faults: { Self → ℕ };

    /// Takes a front of the piece, and answers its length.
    fn write(&mut self, piece: &[u8]) -> Result<usize, SinkStop>
        ensures within { IfOk result (λ n. n ≤ length piece.now) }
        ensures took { (bytes : List ℕ) → taken self.old ≡ Some bytes →
            IfOk result (λ n. taken self.new ≡ Some (bytes ++ take n piece.now)) }
        ensures kept { OnErr result (taken self.new ≡ taken self.old) }
        ensures failed { IsErrOf result SinkStop.Failed → Rose (faults self.old) (faults self.new) }
        ensures stuck { result ≡ Ok 0 → 0 < length piece.now → Rose (faults self.old) (faults self.new) }
        ensures count { faults self.old ≤ faults self.new };
}

/// Why not all of a piece was written.
#[derive(Clone, Copy, Debug, PartialEq, Eq)]
pub enum WriteStop {
    Failed,
    Memory,
}

impl From<SinkStop> for WriteStop {
    ghost from_gives = { λ stop e. e ≡ told_as stop };

    fn from(stop: SinkStop) -> Self {
        match stop {
            SinkStop::Failed => WriteStop::Failed,
            SinkStop::Memory => WriteStop::Memory,
        }
    }
}

/// Writes the whole piece, in as many calls as it takes. A sink that takes nothing of the rest has failed.
pub fn write_all<K: Sink>(sink: &mut K, piece: &[u8]) -> Result<(), WriteStop>
    ensures whole { (bytes : List ℕ) → K.taken sink.old ≡ Some bytes →
        OnOk result (K.taken sink.new ≡ Some (bytes ++ piece.now)) }
    ensures part { (bytes : List ℕ) → K.taken sink.old ≡ Some bytes →
        OnErr result (AddsFront bytes piece.now (K.taken sink.new)) }
    ensures empty { piece.now ≡ [] → IsOk result × (sink.new ≡ sink.old) }
    ensures failed { IsErrOf result WriteStop.Failed → Rose (K.faults sink.old) (K.faults sink.new) }
    ensures count { K.faults sink.old ≤ K.faults sink.new }
{
    let mut rest = piece;
    'turns: while !rest.is_empty() {
        let n = sink.write(rest)?;
        if n == 0 {
            return Err(WriteStop::Failed);
        }
        let (_, next) = rest.split_at(n);
        rest = next;
    }
    Ok(())
}
