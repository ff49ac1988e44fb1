//! What a report says of an event.

use crate::events::Event;
use crate::lists::Seq;
use crate::names::{AuId, Outcome, PeerId, PollName};

/// What a report says of a record: its names and numbers, without blocks and hashes.
#[derive(Clone, Copy)]
pub enum Note {
    Opened {
        number: u32,
        au: AuId,
    },
    Nominated {
        number: u32,
        voter: PeerId,
    },
    /// `count` peers were invited to the outer circle.
    Outer {
        number: u32,
        count: u16,
    },
    /// `inner` says whether the voter stands in the poll's inner circle.
    VoteIn {
        number: u32,
        voter: PeerId,
        inner: bool,
    },
    Shut {
        number: u32,
    },
    Asked {
        number: u32,
        block: u16,
        voter: PeerId,
    },
    RepairBad {
        number: u32,
        block: u16,
        voter: PeerId,
    },
    /// `length` is that of the new block, in bytes.
    Replaced {
        number: u32,
        au: AuId,
        block: u16,
        length: u16,
    },
    Closed {
        number: u32,
        outcome: Outcome,
    },
    Overdue {
        au: AuId,
    },
    Joined {
        poll: PollName,
        au: AuId,
        low: bool,
    },
    Committed {
        poll: PollName,
        version: u32,
    },
    Voted {
        poll: PollName,
    },
    Served {
        poll: PollName,
        block: u16,
    },
    Ended {
        poll: PollName,
    },
    Tuned {
        quorum: u16,
        minority: u16,
        repairs: u16,
    },
}

/// An event, the notes of the records that it added, and how many envelopes it sent.
#[derive(Drop)]
pub struct Entry {
    pub event: Event,
    /// The envelope's sender where the event is a delivery, else 0.
    pub from: PeerId,
    /// The envelope's receiver where the event is a delivery, else 0.
    pub to: PeerId,
    pub notes: Seq<Note>,
    pub sends: u32,
}
