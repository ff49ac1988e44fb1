//! What a step is to the peer that takes it.

ghost use Rattle.std.specs.Prelude.{◌≡◌, IfOk, IfSome, slice_get};
ghost use Rattle.std.specs.Option.{option_copied};
ghost use Rattle.lks_law.specs.Entries.{carried_envelope, sender_of, receiver_of};
ghost use Rattle.lks_law.specs.Facts.{IsHeard};
ghost use Rattle.lks_inbox.specs.Received.{deed_by};
ghost use Rattle.lks_law.specs.World.{delivers, own_deed_of, deed_of};
ghost use Rattle.lks_world.specs.Cuts.{taker_of};

use lks_base::{Envelope, Input, Judged, OutOfMemory, PeerId, PeerStep};
use lks_inbox::receive_judged;
use std::alloc::Global;
use std::marker::Model;

/// Who acts, and what it is to that peer.
#[derive(Drop)]
pub struct Deed {
    pub peer: PeerId,
    pub input: Input,
}

impl Model for Deed {
    ghost use Rattle.lks_law.specs.World.{Deed as Done};

    ghost Value = { Done };

    ghost view = { λ a. record { peer = a.peer; input = a.input } };
}

/// What a peer does with an input, if it gets one.
pub fn deed_to(peer: PeerId, input: Option<Input>) -> Option<Deed>
    requires { IfSome input IsHeard }
    ensures deed { result ≡ deed_by peer input }
    ensures heard { IfSome result (λ d. IsHeard d.input) }
{
    match input {
        Some(input) => Some(Deed { peer, input }),
        None => None,
    }
}

fn delivered(
    alloc: Global,
    bag: &[Envelope],
    envelope: u32,
    judged: Judged,
) -> Result<Option<Deed>, OutOfMemory>
    ensures deed { IfOk result (λ d. d ≡ delivers (slice_get bag.now envelope) judged) }
    ensures heard { IfOk result (λ d. IfSome d (λ d. IsHeard d.input)) }
{
    match bag.get(envelope as usize) {
        Some(e) => {
            let input = receive_judged(alloc, e.from, e.bytes.as_slice(), judged)?;
            Ok(deed_to(e.to, input))
        }
        None => Ok(None),
    }
}

/// A step other than a delivery.
#[tactic(auto, unfolding(lks_law::specs::World::own_deed_of))]
fn make_own_deed(s: PeerStep) -> Option<Deed>
    ensures deed { result ≡ own_deed_of s }
    ensures heard { IfSome result (λ d. IsHeard d.input) }
{
    let (peer, input) = match s {
        PeerStep::OpenPoll { peer, au } => (peer, Input::OpenPoll { au }),
        PeerStep::Widen { peer, number } => (peer, Input::Widen { number }),
        PeerStep::Shut { peer, number } => (peer, Input::Shut { number }),
        PeerStep::Tally { peer, number } => (peer, Input::Tally { number }),
        PeerStep::Nudge { peer, number } => (peer, Input::Nudge { number }),
        PeerStep::GiveUp { peer, number } => (peer, Input::GiveUp { number }),
        PeerStep::Work { peer, poll } => (peer, Input::Work { poll }),
        PeerStep::Expire { peer, poll } => (peer, Input::Expire { poll }),
        PeerStep::Check { peer } => (peer, Input::Check),
        PeerStep::Tune {
            peer,
            quorum,
            minority,
            repairs,
        } => (
            peer,
            Input::Tune {
                quorum,
                minority,
                repairs,
            },
        ),
        PeerStep::Deliver { .. } => return None,
    };
    Some(Deed { peer, input })
}

/// What a step is, and to whom. A delivery of bytes that spell no message is nothing.
#[tactic(auto, unfolding(lks_law::specs::World::deed_of))]
pub fn make_deed(alloc: Global, bag: &[Envelope], s: PeerStep) -> Result<Option<Deed>, OutOfMemory>
    ensures deed { IfOk result (λ d. d ≡ deed_of bag.now s) }
    ensures heard { IfOk result (λ d. IfSome d (λ d. IsHeard d.input)) }
{
    match s {
        PeerStep::Deliver { envelope, judged } => delivered(alloc, bag, envelope, judged),
        s => Ok(make_own_deed(s)),
    }
}

fn carried(bag: &[Envelope], s: PeerStep) -> Option<&Envelope>
    ensures { option_copied result ≡ carried_envelope bag.now s }
{
    match s {
        PeerStep::Deliver { envelope, .. } => bag.get(envelope as usize),
        PeerStep::OpenPoll { .. }
        | PeerStep::Widen { .. }
        | PeerStep::Shut { .. }
        | PeerStep::Tally { .. }
        | PeerStep::Nudge { .. }
        | PeerStep::GiveUp { .. }
        | PeerStep::Work { .. }
        | PeerStep::Expire { .. }
        | PeerStep::Check { .. }
        | PeerStep::Tune { .. } => None,
    }
}

/// The sender and the receiver of the envelope that a step delivers, or 0 and 0.
pub fn ends_of(bag: &[Envelope], s: PeerStep) -> (PeerId, PeerId)
    ensures from { result.0 ≡ sender_of (carried_envelope bag.now s) }
    ensures to { result.1 ≡ receiver_of (carried_envelope bag.now s) }
{
    match carried(bag, s) {
        Some(e) => (e.from, e.to),
        None => (0, 0),
    }
}

/// Who takes a step: of a delivery the receiver.
pub fn taker(bag: &[Envelope], s: PeerStep) -> PeerId
    ensures { result ≡ taker_of bag.now s }
{
    match s {
        PeerStep::Deliver { .. } => ends_of(bag, s).1,
        PeerStep::OpenPoll { peer, .. }
        | PeerStep::Widen { peer, .. }
        | PeerStep::Shut { peer, .. }
        | PeerStep::Tally { peer, .. }
        | PeerStep::Nudge { peer, .. }
        | PeerStep::GiveUp { peer, .. }
        | PeerStep::Work { peer, .. }
        | PeerStep::Expire { peer, .. }
        | PeerStep::Check { peer }
        | PeerStep::Tune { peer, .. } => peer,
    }
}
