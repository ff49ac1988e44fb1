//! Peer 1 restored from a journal: it holds the blocks `41` and `42` of AU 1, polls 2, 3 and 4 on it, and has committed
//! to vote in poll 1 of 5.

ghost use Rattle.std.specs.Prelude.{◌≡◌, None, IfOk, IsSome};
ghost use Rattle.lks_base.specs.Checking.{plan_fault};
ghost use Rattle.lks_law.specs.Facts.{IsHeard};
ghost use Rattle.lks_law.specs.World.{honest_peer};
ghost use Rattle.lks_run_trials.specs.Opened.{deposit, opened_poll, journal_of};

use lks_base::{
    AuPlan, Bytes, HashKind, Ids, Input, Judged, Limits, OutOfMemory, PeerPlan, Plan, PollName,
    Record, Rules, Seq,
};
use lks_blocks::BlockPool;
use lks_inbox::receive_judged;
use lks_peer::{Peer, find_honest};
use std::alloc::Global;
use std::sync::Wait;
use std::test::Fail;

const NONCE: [u8; 32] = [9; 32];

pub const THEIRS: PollName = PollName {
    poller: 5,
    number: 1,
};

/// A vote in poll 1 for two blocks, whatever they are.
pub const CAST: &[u8] =
    b"\x01\x05\0\0\0\x01\0\x02AAAAAAAAAAAAAAAAAAAAAAAAAAAAAAAABBBBBBBBBBBBBBBBBBBBBBBBBBBBBBBB\x01\x01";

/// The message that these bytes are, from this peer and with this verdict.
pub fn got(alloc: Global, from: u16, judged: Judged, bytes: &[u8]) -> Result<Input, Fail>
    ensures { IfOk result IsHeard }
{
    match receive_judged(alloc, from, bytes, judged)? {
        Some(input) => Ok(input),
        None => Err("no message".into()),
    }
}

fn peer_of(alloc: Global, id: u16, proof: &[u8]) -> Result<PeerPlan, OutOfMemory> {
    let honest = id == 1;
    let refs: &[u16] = if honest { &[2, 3, 4] } else { &[] };
    Ok(PeerPlan {
        id,
        corrupt: !honest,
        seed: [1; 32],
        proof: Bytes::from_vec(proof.to_vec(alloc)?),
        refs: Ids::from_vec(refs.to_vec(alloc)?),
        friends: Seq::from_vec(Vec::new(alloc)),
        copies: Seq::from_vec(Vec::new(alloc)),
        hash: HashKind::Sha256,
    })
}

fn drafted(alloc: Global, rules: Rules, proof: &[u8]) -> Result<Plan, OutOfMemory> {
    let mut peers = Vec::new(alloc);
    for id in 1..6 {
        peers.push(peer_of(alloc, id, proof)?)?;
    }
    Ok(Plan {
        rules,
        turns: 0,
        aus: Seq::from_vec(vec![in alloc; AuPlan { id: 1, count: 2 }]?),
        peers: Seq::from_vec(peers),
    })
}

/// Of five peers with this proof, of which the first is honest.
pub fn plan_of(alloc: Global, rules: Rules, proof: &[u8]) -> Result<Plan, Fail>
    ensures good { IfOk result (λ plan. plan_fault plan ≡ None) }
    ensures honest { IfOk result (λ plan. IsSome (honest_peer 1 plan)) }
{
    let plan = drafted(alloc, rules, proof)?;
    if plan.check().is_err() || find_honest(plan.peers.as_slice(), 1).is_none() {
        return Err("no good plan".into());
    }
    Ok(plan)
}

fn deposit(alloc: Global) -> Result<Record, OutOfMemory>
    ensures { IfOk result (λ r. r ≡ deposit) }
{
    let first = Bytes::from_vec(b"A".to_vec(alloc)?);
    let second = Bytes::from_vec(b"B".to_vec(alloc)?);
    Ok(Record::Deposit {
        au: 1,
        blocks: Seq::from_vec(vec![in alloc; first, second]?),
    })
}

fn opened_poll(
    alloc: Global,
    nonce: [u8; 32],
    limits: Option<Limits>,
) -> Result<Record, OutOfMemory>
    ensures { IfOk result (λ r. r ≡ opened_poll nonce limits) }
{
    Ok(Record::PollOpened {
        number: 1,
        au: 1,
        nonce,
        inner: Ids::from_vec(vec![in alloc; 2, 3, 4]?),
        tick: 0,
        limits,
        kind: HashKind::Sha256,
    })
}

/// The journal with these numbers, or without.
fn journal(
    alloc: Global,
    nonce: [u8; 32],
    limits: Option<Limits>,
    repairs: Option<u16>,
) -> Result<Vec<Record>, OutOfMemory>
    ensures { IfOk result (λ v. v.items ≡ journal_of nonce limits repairs) }
{
    let joined = Record::Joined {
        poll: THEIRS,
        au: 1,
        tick: 0,
        low: true,
        repairs,
    };
    let committed = Record::Committed {
        poll: THEIRS,
        nonce,
        version: 0,
        kind: HashKind::Sha256,
    };
    Ok(vec![in alloc;
        deposit(alloc)?,
        opened_poll(alloc, nonce, limits)?,
        joined,
        committed,
    ]?)
}

#[tactic(auto, using(crate::proofs::Openings::journal_fits, crate::proofs::Openings::pool_of))]
pub fn restored<R: Wait>(
    alloc: Global,
    rt: &R,
    pool: &BlockPool,
    plan: &Plan,
    limits: Option<Limits>,
    repairs: Option<u16>,
) -> Result<Peer, Fail>
    requires good { plan_fault plan.now ≡ None }
    requires honest { IsSome (honest_peer 1 plan.now) }
    ensures { IfOk result (λ peer. peer.pool ≡ pool.now) }
{
    let list = journal(alloc, NONCE, limits, repairs)?;
    Ok(Peer::restore(alloc, rt, pool, plan, 1, &list)?)
}
