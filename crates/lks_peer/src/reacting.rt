//! What a peer adds to its journal and sends, whatever it does or receives. Nothing that is seen of it changes.

ghost use Rattle.std.specs.Prelude.{◌≡◌, ◌<◌, IfOk};
ghost use Rattle.lks_law.specs.Fitting.{most_numbered};
ghost use Rattle.lks_law.specs.Table.{react_on, receive_in};
ghost use Rattle.lks_law.specs.Voting as voting;
ghost use Rattle.lks_law.specs.Voting.{poll_named, on_tune};
ghost use Rattle.lks_audit.specs.Kept.{kept_of};
ghost use Rattle.lks_blocks.specs.Block.{AllOf};
ghost use Rattle.lks_peer.specs.Accepting.{input_of};
ghost use Rattle.lks_peer.specs.Keeping.{kept_deciding};
ghost use Rattle.lks_peer.specs.Knows.{state_of, IsTied, IsWell};
ghost use Rattle.lks_work.specs.Names.{refs_done};

use crate::known::Known;
use crate::opening::open;
use crate::rows::{give_up, nominate, nudge, prove, shut, vote, widen};
use lks_audit::reactions::{adding, no_reaction, no_sends};
use lks_audit::tallies::SentBlock;
use lks_audit::{Station, check_aus};
use lks_base::{
    Input, Judged, MOST_REPAIRS, Message, OutOfMemory, PeerId, PollName, Reaction, Record, Rules,
    obeys_quorum_rule,
};
use lks_blocks::BlockPool;
use lks_sessions::{Proof, accept, answer_invitation, answer_proof, answer_request, end, work};
use lks_work::JobDone;
use std::alloc::Global;

/// What it adds and sends for a message.
#[tactic(auto, using(crate::proofs::Sending::sendable))]
fn hear(
    alloc: Global,
    own: &Station,
    pool: &BlockPool,
    known: &mut Known,
    tick: u32,
    from: PeerId,
    message: &Message,
    judged: Judged,
) -> Result<Reaction, OutOfMemory>
    requires { IsWell own.now pool.now known.old }
    ensures reaction { IfOk result (λ r. r ≡ receive_in own.now (state_of known.old) tick from message.now judged) }
    ensures same { known.new ≡ known.old }
{
    let polls = known.polls.as_slice();
    let copies = known.copies.as_slice();
    let sessions = &known.sessions;
    match message {
        Message::Poll { number, au } => {
            let repairs = known.numbers.repairs;
            let poll = name(from, *number);
            answer_invitation(alloc, own, sessions, copies, repairs, tick, poll, *au)
        }
        Message::PollChallenge { number, yes } => prove(alloc, own, polls, *number, from, *yes),
        Message::Nominate { number, nominees } => nominate(alloc, polls, *number, from, nominees),
        Message::PollProof {
            number,
            nonce,
            kind,
            ..
        } => {
            let refs = known.references.list();
            let proof = Proof {
                poll: name(from, *number),
                nonce,
                kind: *kind,
                judged,
            };
            answer_proof(alloc, own, sessions, copies, refs, &proof)
        }
        Message::Vote { number, hashes, .. } => {
            vote(alloc, polls, *number, from, hashes, judged)
        }
        Message::Repair {
            number,
            block,
            bytes,
        } => {
            let block = *block;
            let sent = SentBlock { from, block, bytes };
            known
                .polls
                .repair(alloc, own, pool, &known.copies, *number, &sent)
        }
        Message::RepairRequest { number, block } => {
            answer_request(alloc, pool, sessions, name(from, *number), *block)
        }
        Message::Receipt { number } => end(alloc, sessions, name(from, *number)),
    }
}

/// A poll of this peer.
fn name(poller: PeerId, number: u32) -> PollName
    ensures { result ≡ poll_named poller number }
{
    PollName { poller, number }
}

#[tactic(auto, unfolding(lks_law::specs::Voting::may_tune))]
fn may_tune(rules: &Rules, quorum: u16, minority: u16, repairs: u16) -> bool
    ensures { result ≡ voting.may_tune rules.now quorum minority repairs }
{
    1 <= quorum
        && quorum <= rules.inner
        && obeys_quorum_rule(quorum, minority)
        && repairs <= MOST_REPAIRS
}

/// Takes the operator's numbers.
#[tactic(auto, unfolding(lks_law::specs::Voting::on_tune))]
fn tune(
    alloc: Global,
    own: &Station,
    quorum: u16,
    minority: u16,
    repairs: u16,
) -> Result<Reaction, OutOfMemory>
    ensures { IfOk result (λ r. r ≡ on_tune own.now quorum minority repairs) }
{
    if !may_tune(&own.rules, quorum, minority, repairs) {
        return Ok(no_reaction(alloc));
    }
    let item = Record::Tuned {
        quorum,
        minority,
        repairs,
    };
    adding(alloc, item, no_sends(alloc))
}

/// What it adds and sends. Where it counts votes, their hashes are kept.
#[tactic(auto, unfolding(lks_law::specs::Table::react_on), using(crate::proofs::Asking::asks_small, crate::proofs::Sending::sendable))]
pub fn react(
    alloc: Global,
    own: &Station,
    pool: &BlockPool,
    known: &mut Known,
    tick: u32,
    input: &Input,
) -> Result<Reaction, OutOfMemory>
    requires well { IsWell own.now pool.now known.old }
    requires room { known.old.openings < most_numbered }
    ensures reaction { IfOk result (λ r. r ≡ react_on own.now (state_of known.old) tick input.now) }
    ensures seen { state_of known.new ≡ state_of known.old }
    ensures kept { kept_of known.new.polls
        ≡ kept_deciding own.now (state_of known.old) input.now (kept_of known.old.polls) }
    ensures tied { IsTied own.now.id pool.now known.new }
{
    let polls = known.polls.as_slice();
    match input {
        Input::OpenPoll { au } => open(alloc, own, known, tick, *au),
        Input::Widen { number } => widen(alloc, own, polls, *number),
        Input::Shut { number } => shut(alloc, own, polls, tick, *number),
        Input::Tally { number } => {
            let copies = &known.copies;
            known.polls.tally(alloc, own, pool, copies, tick, *number)
        }
        Input::Nudge { number } => nudge(alloc, polls, *number),
        Input::GiveUp { number } => give_up(alloc, polls, *number),
        Input::Work { poll } => work(alloc, pool, own, &known.sessions, *poll),
        Input::Expire { poll } => end(alloc, &known.sessions, *poll),
        Input::Tune {
            quorum,
            minority,
            repairs,
        } => tune(alloc, own, *quorum, *minority, *repairs),
        Input::Check => check_aus(alloc, own, known.copies.as_slice(), tick),
        Input::Got {
            from,
            message,
            judged,
        } => hear(alloc, own, pool, known, tick, *from, message, *judged),
    }
}

/// What it adds and sends for work that was done elsewhere, and whose blocks are of this pool.
#[tactic(auto, unfolding(lks_law::specs::Table::react_on), using(crate::proofs::Sending::sendable))]
pub fn react_done(
    alloc: Global,
    own: &Station,
    pool: &BlockPool,
    known: &mut Known,
    tick: u32,
    done: JobDone,
) -> Result<Reaction, OutOfMemory>
    requires well { IsWell own.now pool.now known.old }
    requires refs { AllOf pool.now (refs_done done) }
    ensures reaction { IfOk result (λ r. r ≡ react_on own.now (state_of known.old) tick (input_of done)) }
    ensures seen { state_of known.new ≡ state_of known.old }
    ensures kept { kept_of known.new.polls
        ≡ kept_deciding own.now (state_of known.old) (input_of done) (kept_of known.old.polls) }
    ensures tied { IsTied own.now.id pool.now known.new }
{
    match done {
        JobDone::Vote(done) => accept(alloc, pool, own, &known.sessions, done),
        JobDone::Tally(done) => {
            let copies = &known.copies;
            known.polls.accept(alloc, own, pool, copies, tick, done)
        }
    }
}
