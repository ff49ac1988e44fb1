//! What a frame tells a node.
ghost use Rattle.std.specs.Prelude.{◌≡◌, IfOk, IfSome};
ghost use Rattle.lks_law.specs.Facts.{IsHeard};
ghost use Rattle.lks_node.specs.Going.{IsTaken};
ghost use Rattle.lks_law.specs.World.{own_deed_of};
ghost use Rattle.lks_node.specs.Orders.{heard_in, told_in, passed_in, order_in, own_order};

use lks_base::{Bytes, Input, MOST_TICKS, OutOfMemory, PeerId, PeerStep, Plan, has_peer};
use lks_script::{Step, read_step};
use std::alloc::Global;
use std::marker::Model;

/// What a frame tells a node.
#[derive(Drop)]
pub enum Order {
    /// Bytes came from a peer.
    Hear { from: PeerId, bytes: Bytes },
    /// The peer is to do this.
    Do { input: Input },
    /// The clock moves on.
    Pass { ticks: u32 },
}

/// Who acts, and what it is to that peer.
#[derive(Drop)]
struct Deed {
    peer: PeerId,
    input: Input,
}

impl Model for Deed {
    ghost use Rattle.lks_law.specs.World.{Deed as Done};

    ghost Value = { Done };

    ghost view = { λ a. record { peer = a.peer; input = a.input } };
}

/// A step other than a delivery, and whose it is.
#[tactic(auto, unfolding(lks_law::specs::World::own_deed_of))]
fn deed_of(s: PeerStep) -> Option<Deed>
    ensures deed { result ≡ own_deed_of s }
    ensures heard { IfSome result (λ d. IsHeard d.input) }
{
    let (peer, input) = match s {
        PeerStep::OpenPoll { peer, au } => (peer, Input::OpenPoll { au }),
        PeerStep::Widen { peer, number } => (peer, Input::Widen { number }),
        PeerStep::Shut { peer, number } => (peer, Input::Shut { number }),
        PeerStep::Tally { peer, number } => (peer, Input::Tally { number }),
        PeerStep::Nudge { peer, number } => (peer, Input::Nudge { number }),
        PeerStep::GiveUp { peer, number } => (peer, Input::GiveUp { number }),
        PeerStep::Work { peer, poll } => (peer, Input::Work { poll }),
        PeerStep::Expire { peer, poll } => (peer, Input::Expire { poll }),
        PeerStep::Check { peer } => (peer, Input::Check),
        PeerStep::Tune {
            peer,
            quorum,
            minority,
            repairs,
        } => (
            peer,
            Input::Tune {
                quorum,
                minority,
                repairs,
            },
        ),
        PeerStep::Deliver { .. } => return None,
    };
    Some(Deed { peer, input })
}

/// What the step is to this peer, if it is one of its own.
#[tactic(auto, unfolding(crate::specs::Orders::own_order))]
fn order_by(id: PeerId, step: &Step) -> Option<Order>
    ensures order { result ≡ own_order id step.now }
    ensures taken { IfSome result IsTaken }
{
    let step = match step {
        Step::Peer(step) => *step,
        Step::Tick { .. }
        | Step::Next { .. }
        | Step::Lose
        | Step::Again { .. }
        | Step::Settle
        | Step::Finish
        | Step::Forge { .. }
        | Step::SayPoll { .. }
        | Step::SayProof { .. }
        | Step::SayRequest { .. }
        | Step::SayReceipt { .. }
        | Step::SayChallenge { .. }
        | Step::SayNominate { .. }
        | Step::SayVote { .. }
        | Step::SayRepair { .. }
        | Step::Crash { .. }
        | Step::Cut { .. } => return None,
    };
    let Deed { peer, input } = deed_of(step)?;
    if peer == id {
        Some(Order::Do { input })
    } else {
        None
    }
}

/// Bytes behind the number of their sender, who is another peer of the plan.
#[tactic(auto, unfolding(crate::specs::Orders::heard_in))]
fn hear(alloc: Global, plan: &Plan, id: PeerId, rest: &[u8]) -> Result<Option<Order>, OutOfMemory>
    ensures order { IfOk result (λ o. o ≡ heard_in plan.now id rest.now) }
    ensures taken { IfOk result (λ o. IfSome o IsTaken) }
{
    let [high, low, bytes @ ..] = rest else {
        return Ok(None);
    };
    let from = PeerId::from_be_bytes([*high, *low]);
    if from == id || !has_peer(plan.peers.as_slice(), from) {
        return Ok(None);
    }
    let bytes = Bytes::from_vec(bytes.to_vec(alloc)?);
    Ok(Some(Order::Hear { from, bytes }))
}

/// A step line of this peer, without its line feed.
#[tactic(auto, unfolding(crate::specs::Orders::told_in))]
fn tell(alloc: Global, plan: &Plan, id: PeerId, line: &[u8]) -> Result<Option<Order>, OutOfMemory>
    ensures order { IfOk result (λ o. o ≡ told_in plan.now id line.now) }
    ensures taken { IfOk result (λ o. IfSome o IsTaken) }
{
    match read_step(alloc, plan, line)? {
        Some(step) => Ok(order_by(id, &step)),
        None => Ok(None),
    }
}

/// A number of ticks.
#[tactic(auto, unfolding(crate::specs::Orders::passed_in))]
fn pass(rest: &[u8]) -> Option<Order>
    ensures order { result ≡ passed_in rest.now }
    ensures taken { IfSome result IsTaken }
{
    let [a, b, c, d] = rest else {
        return None;
    };
    let ticks = u32::from_be_bytes([*a, *b, *c, *d]);
    if 1 <= ticks && ticks <= MOST_TICKS {
        Some(Order::Pass { ticks })
    } else {
        None
    }
}

/// What the body of a frame tells the peer of this number, by its first byte, if it tells something.
#[tactic(auto, unfolding(crate::specs::Orders::order_in))]
pub fn read_order(
    alloc: Global,
    plan: &Plan,
    id: PeerId,
    body: &[u8],
) -> Result<Option<Order>, OutOfMemory>
    ensures order { IfOk result (λ o. o ≡ order_in plan.now id body.now) }
    ensures taken { IfOk result (λ o. IfSome o IsTaken) }
{
    match body {
        [1, rest @ ..] => hear(alloc, plan, id, rest),
        [2, line @ ..] => tell(alloc, plan, id, line),
        [3, rest @ ..] => Ok(pass(rest)),
        _ => Ok(None),
    }
}
