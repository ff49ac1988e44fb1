//! What corrupt peers say.

ghost use Rattle.std.specs.Prelude.{◌≡◌, ◌≤◌, ◌==◌, true, Some, None, IfOk, IfSome, find, length};
ghost use Rattle.std.specs.Option.{option_copied};
ghost use Rattle.lks_base.specs.Checking.{plan_fault};
ghost use Rattle.lks_base.specs.declared.messages.Message.TheVariants as message;
ghost use Rattle.lks_hash.specs.Counting.{Opens};
ghost use Rattle.lks_hash.specs.Running.{hashes_of};
ghost use Rattle.lks_message.specs.Spelling.{IsWithin};
ghost use Rattle.lks_base.specs.declared.limits.TheConstants.{LAST_BLOCK, MOST_BLOCKS, MOST_BLOCK_BYTES};
ghost use Rattle.lks_base.specs.declared.limits.TheConstants.{MOST_NOMINEES, MOST_PROOF_BYTES};
ghost use Rattle.lks_script.specs.StepRules.{is_step_of};
ghost use Rattle.lks_saying.specs.Sayings.{saying, planned_peer, proof_by, count_for, vote_over, vote_by, said_by};

use lks_base::{
    AuId, AuPlan, Bytes, Hashes, Ids, Message, OutOfMemory, PeerId, PeerPlan, Plan, Seq,
};
use lks_hash::{Chain, Steps, key, nonce_of};
use lks_script::Step;
use std::alloc::Global;
use std::marker::{Brand, Model};
use std::sync::ledger::{Blank, Ledger};

/// The declared peer of this number.
fn find_planned(plan: &Plan, id: PeerId) -> Option<&PeerPlan>
    ensures { option_copied result ≡ planned_peer plan.now id }
{
    plan.peers.as_slice().iter().find(|p| p.id == id)
}

fn find_au(aus: &[AuPlan], au: AuId) -> Option<&AuPlan>
    ensures { option_copied result ≡ find (λ a. a.id == au) aus.now }
{
    aus.iter().find(|a| a.id == au)
}

fn count_of(plan: &Plan, au: AuId) -> u16
    ensures { result ≡ count_for plan.now au }
{
    match find_au(plan.aus.as_slice(), au) {
        Some(found) => found.count,
        None => 0,
    }
}

fn hash_all<L: Ledger>(
    alloc: Global,
    second: bool,
    key: [u8; 32],
    blocks: &[Bytes],
    steps: &mut Steps<L>,
) -> Result<Hashes, OutOfMemory>
    ensures { IfOk result (λ hashes. hashes ≡ hashes_of second key blocks.now) }
{
    let mut chain = Chain::start(second, key);
    let mut hashes = Vec::new(alloc);
    for block in blocks {
        hashes.push(chain.add(block.as_slice(), steps))?;
    }
    Ok(Seq::from_vec(hashes))
}

fn hash_counted<L: Ledger>(
    alloc: Global,
    second: bool,
    key: [u8; 32],
    blocks: &[Bytes],
    blank: Blank,
) -> Result<Hashes, OutOfMemory>
    requires { Opens blank L.name L.parts }
    ensures { IfOk result (λ hashes. hashes ≡ hashes_of second key blocks.now) }
{
    hash_all(alloc, second, key, blocks, &mut Steps::<L>::open(blank))
}

fn hash_blocks(
    alloc: Global,
    second: bool,
    key: [u8; 32],
    blocks: &[Bytes],
) -> Result<Hashes, OutOfMemory>
    ensures { IfOk result (λ hashes. hashes ≡ hashes_of second key blocks.now) }
{
    hash_counted::<Brand>(alloc, second, key, blocks, Blank::new(1))
}

/// What a corrupt peer says to another.
#[derive(Drop)]
pub struct Saying {
    pub from: PeerId,
    pub to: PeerId,
    pub message: Message,
}

impl Model for Saying {
    ghost use Rattle.lks_saying.specs.Sayings.{Saying as Said};

    ghost Value = { Said };

    ghost view = { λ a. record { from = a.from; to = a.to; message = a.message } };
}

fn say(from: PeerId, to: PeerId, message: Message) -> Option<Saying>
    ensures { result ≡ Some (saying from to message) }
{
    Some(Saying { from, to, message })
}

/// The vote that `voter` would send to `poller` if it held these blocks.
#[tactic(auto, using(lks_hash::proofs::RunningLaws::hashes_length))]
fn vote(
    alloc: Global,
    plan: &Plan,
    voter: &PeerPlan,
    poller: &PeerPlan,
    number: u32,
    au: AuId,
    blocks: &[Bytes],
) -> Result<Message, OutOfMemory>
    requires blocks { length blocks.now ≤ MOST_BLOCKS }
    requires proof { length voter.now.proof ≤ MOST_PROOF_BYTES }
    ensures vote { IfOk result (λ m. m ≡ vote_over (count_for plan.now au) voter.now poller.now number au blocks.now) }
    ensures within { IfOk result (λ m. IsWithin m) }
{
    let second = poller.hash.second();
    let nonce = nonce_of(&poller.seed, number);
    let key = key(
        second,
        poller.id,
        number,
        &nonce,
        voter.id,
        au,
        count_of(plan, au),
    );
    Ok(Message::Vote {
        number,
        hashes: hash_blocks(alloc, second, key, blocks)?,
        proof: voter.proof.clone()?,
    })
}

#[tactic(auto, using(lks_base::proofs::PlanLaws::short_proof))]
fn say_vote(
    alloc: Global,
    plan: &Plan,
    from: PeerId,
    to: PeerId,
    number: u32,
    au: AuId,
    blocks: &[Bytes],
) -> Result<Option<Saying>, OutOfMemory>
    requires good { plan_fault plan.now ≡ None }
    requires few { length blocks.now ≤ MOST_BLOCKS }
    ensures said { IfOk result
        (λ s. s ≡ vote_by plan.now from to (planned_peer plan.now from)
        (planned_peer plan.now to) number au blocks.now) }
    ensures within { IfOk result (λ s. IfSome s (λ x. IsWithin x.message)) }
{
    let (Some(voter), Some(poller)) = (find_planned(plan, from), find_planned(plan, to)) else {
        return Ok(None);
    };
    let message = vote(alloc, plan, voter, poller, number, au, blocks)?;
    Ok(say(from, to, message))
}

#[tactic(auto, using(lks_base::proofs::PlanLaws::short_proof))]
fn say_proof(
    plan: &Plan,
    from: PeerId,
    to: PeerId,
    number: u32,
) -> Result<Option<Saying>, OutOfMemory>
    requires { plan_fault plan.now ≡ None }
    ensures said { IfOk result (λ s. s ≡ proof_by from to number (planned_peer plan.now from)) }
    ensures within { IfOk result (λ s. IfSome s (λ x. IsWithin x.message)) }
{
    let Some(sender) = find_planned(plan, from) else {
        return Ok(None);
    };
    let message = Message::PollProof {
        number,
        nonce: nonce_of(&sender.seed, number),
        kind: sender.hash,
        proof: sender.proof.clone()?,
    };
    Ok(say(from, to, message))
}

fn say_invitation(from: PeerId, to: PeerId, number: u32, au: AuId) -> Option<Saying>
    ensures { result ≡ Some (saying from to (message.Poll number au)) }
{
    say(from, to, Message::Poll { number, au })
}

fn say_request(from: PeerId, to: PeerId, number: u32, block: u16) -> Option<Saying>
    ensures { result ≡ Some (saying from to (message.RepairRequest number block)) }
{
    say(from, to, Message::RepairRequest { number, block })
}

fn say_challenge(from: PeerId, to: PeerId, number: u32, yes: bool) -> Option<Saying>
    ensures { result ≡ Some (saying from to (message.PollChallenge number yes)) }
{
    say(from, to, Message::PollChallenge { number, yes })
}

fn say_nominees(
    from: PeerId,
    to: PeerId,
    number: u32,
    nominees: &Ids,
) -> Result<Option<Saying>, OutOfMemory>
    requires { length nominees.now ≤ MOST_NOMINEES }
    ensures said { IfOk result (λ s. s ≡ Some (saying from to (message.Nominate number nominees.now))) }
    ensures within { IfOk result (λ s. IfSome s (λ x. IsWithin x.message)) }
{
    let nominees = nominees.clone()?;
    Ok(say(from, to, Message::Nominate { number, nominees }))
}

fn say_repair(
    from: PeerId,
    to: PeerId,
    number: u32,
    block: u16,
    bytes: &Bytes,
) -> Result<Option<Saying>, OutOfMemory>
    requires block { block ≤ LAST_BLOCK }
    requires bytes { length bytes.now ≤ MOST_BLOCK_BYTES }
    ensures said { IfOk result (λ s. s ≡ Some (saying from to (message.Repair number block bytes.now))) }
    ensures within { IfOk result (λ s. IfSome s (λ x. IsWithin x.message)) }
{
    let bytes = bytes.clone()?;
    let message = Message::Repair {
        number,
        block,
        bytes,
    };
    Ok(say(from, to, message))
}

/// What a corrupt peer says in a step, if it says something.
#[tactic(auto, unfolding(crate::specs::Sayings::said_by, lks_script::specs::StepRules::is_step_of, lks_script::specs::StepRules::is_request, lks_script::specs::StepRules::is_said_vote, lks_script::specs::StepRules::is_nomination, lks_script::specs::StepRules::is_repair))]
pub fn what_is_said(alloc: Global, plan: &Plan, step: &Step) -> Result<Option<Saying>, OutOfMemory>
    requires good { plan_fault plan.now ≡ None }
    requires legal { is_step_of plan.now step.now ≡ true }
    ensures said { IfOk result (λ s. s ≡ said_by plan.now step.now) }
    ensures within { IfOk result (λ s. IfSome s (λ x. IsWithin x.message)) }
{
    match step {
        Step::SayPoll {
            from,
            to,
            number,
            au,
        } => Ok(say_invitation(*from, *to, *number, *au)),
        Step::SayProof { from, to, number } => say_proof(plan, *from, *to, *number),
        Step::SayVote {
            from,
            to,
            number,
            au,
            blocks,
        } => say_vote(alloc, plan, *from, *to, *number, *au, blocks.as_slice()),
        Step::SayRequest {
            from,
            to,
            number,
            block,
        } => Ok(say_request(*from, *to, *number, *block)),
        Step::SayReceipt { from, to, number } => {
            Ok(say(*from, *to, Message::Receipt { number: *number }))
        }
        Step::SayChallenge {
            from,
            to,
            number,
            yes,
        } => Ok(say_challenge(*from, *to, *number, *yes)),
        Step::SayNominate {
            from,
            to,
            number,
            nominees,
        } => say_nominees(*from, *to, *number, nominees),
        Step::SayRepair {
            from,
            to,
            number,
            block,
            bytes,
        } => say_repair(*from, *to, *number, *block, bytes),
        Step::Peer(_)
        | Step::Tick { .. }
        | Step::Next { .. }
        | Step::Lose
        | Step::Again { .. }
        | Step::Settle
        | Step::Finish
        | Step::Forge { .. }
        | Step::Crash { .. }
        | Step::Cut { .. } => Ok(None),
    }
}
