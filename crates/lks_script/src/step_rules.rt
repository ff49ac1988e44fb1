//! Which steps a script with a plan can have.

ghost use Rattle.std.specs.Prelude.{◌≡◌, filter, length};
ghost use Rattle.lks_script.specs.StepRules.{is_session, is_tuning, is_own_step, is_said_vote, is_said, is_forgery};
ghost use Rattle.lks_script.specs.StepRules.{is_invitation, is_request, is_repair, is_nomination, is_cut_step, is_cut};
ghost use Rattle.lks_script.specs.StepRules.{is_step_of, fails_power, has_power_for};

use crate::steps::{CutStep, MOST_CUT_CALLS, MOST_POWER_FAILURES, Step};
use lks_base::{
    Bytes, LAST_BLOCK, MOST_BLOCK_BYTES, MOST_BLOCKS, MOST_EVENTS, MOST_FORGED_BYTES,
    MOST_NOMINEES, MOST_REPAIRS, MOST_TICKS, PeerStep, Plan, PollName, are_short, has_au,
    has_corrupt, has_honest, has_peer, obeys_quorum_rule,
};

#[tactic(auto, unfolding(crate::specs::StepRules::is_session))]
fn session(plan: &Plan, voter: u16, poll: PollName) -> bool
    ensures { result ≡ is_session plan.now voter poll }
{
    has_honest(plan.peers.as_slice(), voter) && has_peer(plan.peers.as_slice(), poll.poller)
}

#[tactic(auto, unfolding(crate::specs::StepRules::is_tuning))]
fn tuning(plan: &Plan, peer: u16, quorum: u16, minority: u16, repairs: u16) -> bool
    ensures { result ≡ is_tuning plan.now peer quorum minority repairs }
{
    has_honest(plan.peers.as_slice(), peer)
        && 1 <= quorum
        && quorum <= plan.rules.inner
        && obeys_quorum_rule(quorum, minority)
        && repairs <= MOST_REPAIRS
}

#[tactic(auto, unfolding(crate::specs::StepRules::is_own_step))]
fn own_step(plan: &Plan, step: &PeerStep) -> bool
    ensures { result ≡ is_own_step plan.now step.now }
{
    match step {
        PeerStep::OpenPoll { peer, au } => {
            has_honest(plan.peers.as_slice(), *peer) && has_au(plan.aus.as_slice(), *au)
        }
        PeerStep::Widen { peer, .. }
        | PeerStep::Shut { peer, .. }
        | PeerStep::Tally { peer, .. }
        | PeerStep::Nudge { peer, .. }
        | PeerStep::GiveUp { peer, .. }
        | PeerStep::Check { peer } => has_honest(plan.peers.as_slice(), *peer),
        PeerStep::Work { peer, poll } | PeerStep::Expire { peer, poll } => {
            session(plan, *peer, *poll)
        }
        PeerStep::Tune {
            peer,
            quorum,
            minority,
            repairs,
        } => tuning(plan, *peer, *quorum, *minority, *repairs),
        PeerStep::Deliver { .. } => false,
    }
}

#[tactic(auto, unfolding(crate::specs::StepRules::is_said))]
fn said(plan: &Plan, from: u16, to: u16) -> bool
    ensures { result ≡ is_said plan.now from to }
{
    has_corrupt(plan.peers.as_slice(), from) && has_peer(plan.peers.as_slice(), to)
}

#[tactic(auto, unfolding(crate::specs::StepRules::is_said_vote))]
fn said_vote(plan: &Plan, from: u16, to: u16, au: u16, blocks: &[Bytes]) -> bool
    ensures { result ≡ is_said_vote plan.now from to au blocks.now }
{
    said(plan, from, to)
        && has_au(plan.aus.as_slice(), au)
        && 1 <= blocks.len()
        && blocks.len() <= MOST_BLOCKS as usize
        && are_short(blocks)
}

#[tactic(auto, unfolding(crate::specs::StepRules::is_forgery))]
fn forgery(plan: &Plan, from: u16, to: u16, bytes: &[u8]) -> bool
    ensures { result ≡ is_forgery plan.now from to bytes.now }
{
    said(plan, from, to) && bytes.len() <= MOST_FORGED_BYTES as usize
}

#[tactic(auto, unfolding(crate::specs::StepRules::is_invitation))]
fn invitation(plan: &Plan, from: u16, to: u16, au: u16) -> bool
    ensures { result ≡ is_invitation plan.now from to au }
{
    said(plan, from, to) && has_au(plan.aus.as_slice(), au)
}

#[tactic(auto, unfolding(crate::specs::StepRules::is_request))]
fn request(plan: &Plan, from: u16, to: u16, block: u16) -> bool
    ensures { result ≡ is_request plan.now from to block }
{
    said(plan, from, to) && block <= LAST_BLOCK
}

#[tactic(auto, unfolding(crate::specs::StepRules::is_repair))]
fn repair(plan: &Plan, from: u16, to: u16, block: u16, bytes: &[u8]) -> bool
    ensures { result ≡ is_repair plan.now from to block bytes.now }
{
    said(plan, from, to) && block <= LAST_BLOCK && bytes.len() <= MOST_BLOCK_BYTES as usize
}

#[tactic(auto, unfolding(crate::specs::StepRules::is_nomination))]
fn nomination(plan: &Plan, from: u16, to: u16, nominees: &[u16]) -> bool
    ensures { result ≡ is_nomination plan.now from to nominees.now }
{
    said(plan, from, to) && nominees.len() <= MOST_NOMINEES as usize
}

/// What a line can cut off.
#[tactic(auto, unfolding(crate::specs::StepRules::is_cut_step))]
fn cut_step(plan: &Plan, step: &CutStep) -> bool
    ensures { result ≡ is_cut_step plan.now step.now }
{
    match step {
        CutStep::Next | CutStep::Again { .. } => true,
        CutStep::Peer(own) => own_step(plan, own),
    }
}

#[tactic(auto, unfolding(crate::specs::StepRules::is_cut))]
fn cut(plan: &Plan, calls: u8, step: &CutStep) -> bool
    ensures { result ≡ is_cut plan.now calls step.now }
{
    calls <= MOST_CUT_CALLS && cut_step(plan, step)
}

/// Whether a script with this plan can have the step.
#[tactic(auto, unfolding(crate::specs::StepRules::is_step_of))]
pub fn step_of(plan: &Plan, step: &Step) -> bool
    ensures { result ≡ is_step_of plan.now step.now }
{
    match step {
        Step::Peer(own) => own_step(plan, own),
        Step::Tick { by } => 1 <= *by && *by <= MOST_TICKS,
        Step::Next { times } => 1 <= *times && *times <= MOST_EVENTS,
        Step::Lose | Step::Again { .. } | Step::Settle | Step::Finish => true,
        Step::Forge { from, to, bytes } => forgery(plan, *from, *to, bytes.as_slice()),
        Step::SayPoll { from, to, au, .. } => invitation(plan, *from, *to, *au),
        Step::SayProof { from, to, .. } => said(plan, *from, *to),
        Step::SayRequest {
            from,
            to,
            block,
            ..
        } => request(plan, *from, *to, *block),
        Step::SayReceipt { from, to, .. } => said(plan, *from, *to),
        Step::SayChallenge { from, to, .. } => said(plan, *from, *to),
        Step::SayNominate {
            from,
            to,
            nominees,
            ..
        } => nomination(plan, *from, *to, nominees.as_slice()),
        Step::SayRepair {
            from,
            to,
            block,
            bytes,
            ..
        } => repair(plan, *from, *to, *block, bytes.as_slice()),
        Step::SayVote {
            from,
            to,
            au,
            blocks,
            ..
        } => said_vote(plan, *from, *to, *au, blocks.as_slice()),
        Step::Crash { peer } => has_honest(plan.peers.as_slice(), *peer),
        Step::Cut { calls, step, .. } => cut(plan, *calls, step),
    }
}

/// The power of a peer fails in the step.
#[tactic(auto, unfolding(crate::specs::StepRules::fails_power))]
fn fails_power(step: &Step) -> bool
    ensures { result ≡ fails_power step.now }
{
    match step {
        Step::Crash { .. } | Step::Cut { .. } => true,
        Step::Peer(_)
        | Step::Tick { .. }
        | Step::Next { .. }
        | Step::Lose
        | Step::Again { .. }
        | Step::Settle
        | Step::Finish
        | Step::Forge { .. }
        | Step::SayPoll { .. }
        | Step::SayProof { .. }
        | Step::SayRequest { .. }
        | Step::SayReceipt { .. }
        | Step::SayChallenge { .. }
        | Step::SayNominate { .. }
        | Step::SayRepair { .. }
        | Step::SayVote { .. } => false,
    }
}

fn power_failures(steps: &[Step]) -> usize
    ensures { result ≡ length (filter fails_power steps.now) }
{
    steps.iter().filter(|step| fails_power(step)).count()
}

/// Whether the power can fail behind these steps in one more, if it does.
#[tactic(auto, unfolding(crate::specs::StepRules::has_power_for))]
pub fn power_for(steps: &[Step], step: &Step) -> bool
    ensures { result ≡ has_power_for steps.now step.now }
{
    !fails_power(step) || power_failures(steps) < MOST_POWER_FAILURES
}
