//! Peer 1 polls 2, 3 and 4 on AU 1, of two blocks of a byte each, about its copy `AX`, and replaces the second block.
//! Peers 1 to 4 and 6 are honest, 5 is corrupt.

ghost use Rattle.std.specs.Prelude.{IfOk};
ghost use Rattle.lks_hash.specs.Counting.{Opens};
ghost use Rattle.lks_evidence.specs.Sizes.{IsShort};

use crate::same::same;
use lks_base::{
    AuPlan, Blocks, Bytes, HashKind, Hashes, Ids, OutOfMemory, PeerId, PeerPlan, Plan, PollName,
    Record, Rules, Seq,
};
use lks_evidence::{Doubt, Finding, Shelf, Why, examine};
use lks_hash::{Chain, Steps, key};
use std::alloc::Global;
use std::marker::Brand;
use std::sync::ledger::{Blank, Ledger};

const POLL: PollName = PollName {
    poller: 1,
    number: 7,
};

const NONCE: [u8; 32] = [9; 32];

const RULES: Rules = Rules {
    inner: 3,
    quorum: 3,
    minority: 1,
    outer: 1,
    repairs: 8,
    pace: 0,
    refractory: 0,
    overdue: 0,
    unknown_pct: 100,
    debt_pct: 100,
    churn: 0,
};

/// A record of a journal; each letter of a text is a block.
#[derive(Clone, Copy)]
enum Line {
    Deposit(&'static str),
    Opened(u16),
    /// The vote of a peer over these blocks.
    Vote(u16, &'static str),
    Shut,
    /// A block, and the letter that replaces it.
    Replaced(u16, &'static str),
    Joined(u16),
    Committed(u32, HashKind),
}

use Line::{Committed, Deposit, Joined, Opened, Replaced, Shut, Vote};

const KIND: HashKind = HashKind::Sha256;

fn bytes_of(alloc: Global, byte: u8) -> Result<Bytes, OutOfMemory> {
    Ok(Bytes::from_vec([byte].as_slice().to_vec(alloc)?))
}

fn blocks_of(alloc: Global, text: &str) -> Result<Blocks, OutOfMemory> {
    let mut blocks = Vec::new(alloc);
    for byte in text.as_bytes() {
        blocks.push(bytes_of(alloc, *byte)?)?;
    }
    Ok(Seq::from_vec(blocks))
}

fn hash_all<L: Ledger>(
    alloc: Global,
    voter: PeerId,
    bytes: &[u8],
    blank: Blank,
) -> Result<Hashes, OutOfMemory>
    requires { Opens blank L.name L.parts }
{
    let mut steps = Steps::<L>::open(blank);
    let mut chain = Chain::start(false, key(false, 1, 7, &NONCE, voter, 1, 2));
    let mut hashes = Vec::new(alloc);
    for byte in bytes {
        hashes.push(chain.add(&[*byte], &mut steps))?;
    }
    Ok(Seq::from_vec(hashes))
}

fn hashes_of(alloc: Global, voter: PeerId, text: &str) -> Result<Hashes, OutOfMemory> {
    hash_all::<Brand>(alloc, voter, text.as_bytes(), Blank::new(1))
}

fn record_of(alloc: Global, line: Line) -> Result<Record, OutOfMemory> {
    Ok(match line {
        Deposit(text) => Record::Deposit {
            au: 1,
            blocks: blocks_of(alloc, text)?,
        },
        Opened(au) => Record::PollOpened {
            number: 7,
            au,
            nonce: NONCE,
            inner: Ids::from_vec([2, 3, 4].as_slice().to_vec(alloc)?),
            tick: 0,
            limits: None,
            kind: KIND,
        },
        Vote(voter, text) => Record::VoteIn {
            number: 7,
            voter,
            hashes: hashes_of(alloc, voter, text)?,
        },
        Shut => Record::Shut { number: 7 },
        Replaced(block, text) => Record::Replaced {
            number: 7,
            au: 1,
            block,
            bytes: Bytes::from_vec(text.as_bytes().to_vec(alloc)?),
        },
        Joined(au) => Record::Joined {
            poll: POLL,
            au,
            tick: 0,
            low: false,
            repairs: None,
        },
        Committed(version, kind) => Record::Committed {
            poll: POLL,
            nonce: NONCE,
            version,
            kind,
        },
    })
}

/// The shelf with these records, at most 99.
#[tactic(auto, unfolding(lks_evidence::specs::Sizes::most_records))]
fn shelf_of(alloc: Global, peer: PeerId, lines: &[Line]) -> Result<Shelf, OutOfMemory>
    ensures { IfOk result IsShort }
{
    let mut list = Vec::new(alloc);
    for line in lines {
        if list.len() < 99 {
            list.push(record_of(alloc, *line)?)?;
        }
    }
    Ok(Shelf { peer, list })
}

fn plan_of(alloc: Global) -> Result<Plan, OutOfMemory> {
    let mut peers = Vec::new(alloc);
    for id in 1..7 {
        peers.push(PeerPlan {
            id,
            corrupt: id == 5,
            seed: [0; 32],
            proof: Seq::from_vec(Vec::new(alloc)),
            refs: Seq::from_vec(Vec::new(alloc)),
            friends: Seq::from_vec(Vec::new(alloc)),
            copies: Seq::from_vec(Vec::new(alloc)),
            hash: KIND,
        })?;
    }
    Ok(Plan {
        rules: RULES,
        turns: 0,
        aus: Seq::from_vec(vec![in alloc; AuPlan { id: 1, count: 2 }]?),
        peers: Seq::from_vec(peers),
    })
}

/// What is found of the journal of peer 1 and another one.
fn found(
    alloc: Global,
    lines: &[Line],
    peer: PeerId,
    others: &[Line],
) -> Result<Finding, OutOfMemory> {
    let plan = plan_of(alloc)?;
    let set = vec![in alloc; shelf_of(alloc, 1, lines)?, shelf_of(alloc, peer, others)?]?;
    examine(alloc, &plan, &set)
}

const REPAIR: &[Line] = &[
    Deposit("AX"),
    Opened(1),
    Vote(2, "AB"),
    Vote(3, "AB"),
    Vote(4, "AX"),
    Shut,
    Replaced(1, "B"),
];

/// The journal of peer 1, another peer and its journal, and peer, place and cause of the first doubt, if any.
const ROWS: [(&[Line], PeerId, &[Line], Option<(PeerId, u32, Why)>); 23] = [
    // The votes alone, and with the journal of a voter.
    (REPAIR, 6, &[], None),
    (
        REPAIR,
        2,
        &[Deposit("AB"), Joined(1), Committed(0, KIND)],
        None,
    ),
    // Two shelves of one peer.
    (REPAIR, 1, &[], Some((1, 0, Why::Peer))),
    // The first round comes first, over all shelves.
    (&[Replaced(1, "B")], 6, &[], Some((1, 0, Why::Copy))),
    (
        &[Deposit("AX"), Opened(1), Replaced(1, "B")],
        5,
        &[],
        Some((5, 0, Why::Peer)),
    ),
    // A second deposit behind the repair, one with another number of blocks, and a block that isn't there.
    (
        &[Deposit("AX"), Replaced(1, "B"), Deposit("AX")],
        6,
        &[],
        Some((1, 1, Why::Copy)),
    ),
    (
        &[Deposit("AXX"), Replaced(1, "B")],
        6,
        &[],
        Some((1, 1, Why::Copy)),
    ),
    (
        &[Deposit("AX"), Replaced(2, "B")],
        6,
        &[],
        Some((1, 1, Why::Copy)),
    ),
    // No poll, two of one number, one on another AU, and one that is shut too late.
    (
        &[Deposit("AX"), Shut, Replaced(1, "B")],
        6,
        &[],
        Some((1, 2, Why::Poll)),
    ),
    (
        &[Deposit("AX"), Opened(1), Opened(1), Shut, Replaced(1, "B")],
        6,
        &[],
        Some((1, 4, Why::Poll)),
    ),
    (
        &[Deposit("AX"), Opened(2), Shut, Replaced(1, "B")],
        6,
        &[],
        Some((1, 3, Why::Poll)),
    ),
    (
        &[Deposit("AX"), Opened(1), Replaced(1, "B"), Shut],
        6,
        &[],
        Some((1, 2, Why::Poll)),
    ),
    // Of 2 and 3, who both voted twice, 2 voted first. An outer peer may.
    (
        &[
            Deposit("AX"),
            Opened(1),
            Vote(6, ""),
            Vote(6, ""),
            Vote(2, ""),
            Vote(3, ""),
            Vote(3, ""),
            Vote(2, ""),
            Shut,
            Replaced(1, "B"),
        ],
        6,
        &[],
        Some((1, 9, Why::Twice { voter: 2 })),
    ),
    (
        &[
            Deposit("AX"),
            Opened(1),
            Vote(2, "AB"),
            Vote(3, "A"),
            Vote(4, "ABB"),
            Shut,
            Replaced(1, "B"),
        ],
        6,
        &[],
        Some((1, 6, Why::Length { voter: 3 })),
    ),
    // Neither an outer vote counts nor one behind the repair.
    (
        &[
            Deposit("AX"),
            Opened(1),
            Vote(2, "AB"),
            Vote(6, "AB"),
            Vote(3, "AB"),
            Shut,
            Replaced(1, "B"),
            Vote(4, "AB"),
        ],
        6,
        &[],
        Some((1, 6, Why::Quorum { votes: 2 })),
    ),
    // Two votes for the block as it was; two of three against what came, where none is for the first block either.
    (
        &[
            Deposit("AX"),
            Opened(1),
            Vote(2, "AB"),
            Vote(3, "AX"),
            Vote(4, "AX"),
            Shut,
            Replaced(1, "B"),
        ],
        6,
        &[],
        Some((1, 6, Why::For { votes: 2 })),
    ),
    (
        &[
            Deposit("AX"),
            Opened(1),
            Vote(2, "AB"),
            Vote(3, "CB"),
            Vote(4, "AX"),
            Shut,
            Replaced(1, "B"),
        ],
        6,
        &[],
        Some((1, 6, Why::Against { votes: 2 })),
    ),
    // A voter that didn't join, joined twice, or for another AU; one that committed to a version that it hasn't, or for
    // another kind; one with other blocks.
    (
        REPAIR,
        2,
        &[Deposit("AB"), Committed(0, KIND)],
        Some((1, 6, Why::Vote { voter: 2 })),
    ),
    (
        REPAIR,
        2,
        &[Deposit("AB"), Joined(1), Joined(1), Committed(0, KIND)],
        Some((1, 6, Why::Vote { voter: 2 })),
    ),
    (
        REPAIR,
        3,
        &[Deposit("AB"), Joined(2), Committed(0, KIND)],
        Some((1, 6, Why::Vote { voter: 3 })),
    ),
    (
        REPAIR,
        3,
        &[Deposit("AB"), Joined(1), Committed(1, KIND)],
        Some((1, 6, Why::Vote { voter: 3 })),
    ),
    (
        REPAIR,
        3,
        &[Deposit("AB"), Joined(1), Committed(0, HashKind::Sha512_256)],
        Some((1, 6, Why::Vote { voter: 3 })),
    ),
    (
        REPAIR,
        4,
        &[Deposit("AB"), Joined(1), Committed(0, KIND)],
        Some((1, 6, Why::Vote { voter: 4 })),
    ),
];

/// The finding that has this doubt, or none.
fn finding_of(doubt: Option<(PeerId, u32, Why)>) -> Finding {
    match doubt {
        Some((peer, place, why)) => Finding::No(Doubt { peer, place, why }),
        None => Finding::Yes { replaced: 1 },
    }
}

#[test]
fn findings(rt: HostRuntime) -> Result<(), OutOfMemory> {
    for (row, (lines, other, others, doubt)) in ROWS.iter().enumerate() {
        let finding = found(rt.alloc(), lines, *other, others)?;
        same(&rt, &finding, &finding_of(*doubt), &row);
    }
    Ok(())
}
