//! What an operator is told.

use lks_base::{AuId, PeerId};

/// Why a peer asks for a person.
#[derive(Clone, Copy, Debug, PartialEq, Eq)]
pub enum AlarmKind {
    /// The poll of this number has no landslide at this block.
    Split { number: u32, block: u16 },
    /// It has a landslide against this block, and nobody is left to ask for it.
    NoSupplier { number: u32, block: u16 },
    /// No poll on this AU has agreed for too long.
    Overdue { au: AuId },
}

/// An alarm of a peer.
#[derive(Clone, Copy, Debug, PartialEq, Eq)]
pub struct Alarm {
    pub peer: PeerId,
    pub tick: u32,
    pub kind: AlarmKind,
}
