//! What a peer adds and sends in a poll of its own once voting ended.

ghost use Rattle.std.specs.Prelude.{◌≡◌, ◌≤◌, ◌<◌, ℕ, List, IfOk, All, length};
ghost use Rattle.lks_base.specs.declared.limits.TheConstants.{MOST_BLOCKS};
ghost use Rattle.lks_law.specs.Reacting.{asked_of, tallied_as, tally_over, verdict_of, tally_in, repair_over};
ghost use Rattle.lks_law.specs.Reacting.{repair_in};
ghost use Rattle.lks_audit.specs.Counted.{IsCountedOn, IsSmall, done, answered_by};
ghost use Rattle.lks_audit.specs.Copied.{copies_of, IsOf, HasBlocks};
ghost use Rattle.lks_audit.specs.Kept.{kept_over, kept_tallied};
ghost use Rattle.lks_audit.specs.Seen.{poll_of, IsOn};
ghost use Rattle.lks_poller.specs.Rules.{IsKept};
ghost use Rattle.lks_tally.specs.Keeping.{IsSame, kept_after};

use crate::copies::Copies;
use crate::letters::write;
use crate::reactions::{adding, no_reaction, no_sends};
use crate::stations::Station;
use crate::voting::close;
use lks_base::{Bytes, Contents, Message, OutOfMemory, PeerId, Reaction, Record, Seq};
use lks_blocks::BlockPool;
use lks_poller::{Answer, Next, PollSession};
use lks_tally::Verdict;
use std::alloc::Global;

fn ask(
    alloc: Global,
    poll: &PollSession,
    block: u16,
    voter: PeerId,
) -> Result<Reaction, OutOfMemory>
    requires { block < MOST_BLOCKS }
    ensures { IfOk result (λ r. r ≡ asked_of (poll_of poll.now) block voter) }
{
    let number = poll.poll().number;
    let request = write(alloc, &Message::RepairRequest { number, block }, voter)?;
    let mut sends = Vec::new(alloc);
    sends.push(request)?;
    let item = Record::Asked {
        number,
        block,
        voter,
    };
    adding(alloc, item, Seq::from_vec(sends))
}

/// Does what follows from a verdict.
fn follow(alloc: Global, poll: &PollSession, tick: u32, next: Next) -> Result<Reaction, OutOfMemory>
    requires { IsSmall next }
    ensures { IfOk result (λ r. r ≡ done (poll_of poll.now) tick next) }
{
    match next {
        Next::Close(outcome) => close(alloc, poll, tick, outcome),
        Next::Ask { block, voter } => ask(alloc, poll, block, voter),
    }
}

#[tactic(auto, using(crate::proofs::Counts::tallied_seen, crate::proofs::Counts::small_next))]
fn decide(
    alloc: Global,
    own: &Station,
    poll: &PollSession,
    tick: u32,
    verdict: Verdict,
) -> Result<Reaction, OutOfMemory>
    requires kept { IsKept verdict poll.now.tally.kept }
    requires few { poll.now.tally.ballot.count ≤ MOST_BLOCKS }
    ensures { (blocks : List (List ℕ)) → IsCountedOn own.now.id blocks poll.now
        → IfOk result (λ r. r ≡ tallied_as own.now (poll_of poll.now) tick blocks verdict) }
{
    match verdict {
        Verdict::Inquorate => Ok(no_reaction(alloc)),
        Verdict::Agreed | Verdict::Loss { .. } | Verdict::Split { .. } => {
            let next = poll.next_of(verdict)?;
            follow(alloc, poll, tick, next)
        }
    }
}

/// The verdict of the inner votes on the copy.
#[tactic(auto, using(crate::proofs::Counts::verdict_seen, crate::proofs::Counts::counted_still, crate::proofs::Counts::poll_still))]
pub fn count<C: Contents>(own: &Station, poll: &mut PollSession, copy: &C) -> Verdict
    requires on { IsCountedOn own.now.id (C.blocks copy.now) poll.old }
    ensures verdict { result ≡ verdict_of own.now (poll_of poll.old) (C.blocks copy.now) }
    ensures on { IsCountedOn own.now.id (C.blocks copy.now) poll.new }
    ensures seen { poll_of poll.new ≡ poll_of poll.old }
    ensures same { IsSame poll.new.tally poll.old.tally }
    ensures lost { IsKept result poll.new.tally.kept }
    ensures kept { poll.new.tally.kept ≡ kept_after result poll.old.tally.kept poll.old.tally.ballot.count }
{
    poll.verdict(copy)
}

/// Counts the votes of a shut poll, unless it waits for a repair, and does what follows.
pub fn tally<C: Contents>(
    alloc: Global,
    own: &Station,
    tick: u32,
    poll: &mut PollSession,
    copy: &C,
) -> Result<Reaction, OutOfMemory>
    requires on { IsCountedOn own.now.id (C.blocks copy.now) poll.old }
    requires few { length (C.blocks copy.now) ≤ MOST_BLOCKS }
    ensures reaction { IfOk result (λ r. r ≡ tally_over own.now tick (C.blocks copy.now) (poll_of poll.old)) }
    ensures on { IsCountedOn own.now.id (C.blocks copy.now) poll.new }
    ensures seen { poll_of poll.new ≡ poll_of poll.old }
    ensures kept { poll.new.tally.kept ≡ kept_over own.now (C.blocks copy.now) (poll_of poll.old) poll.old.tally.kept }
{
    if !poll.may_tally() {
        return Ok(no_reaction(alloc));
    }
    let verdict = count(own, poll, copy);
    decide(alloc, own, poll, tick, verdict)
}

/// A block that came, and from whom.
#[derive(Drop)]
pub struct SentBlock<'a> {
    pub from: PeerId,
    pub block: u16,
    pub bytes: &'a Bytes,
}

/// Tries a block that came: it is put in where the votes are for the copy with it.
pub fn repair<C: Contents>(
    alloc: Global,
    own: &Station,
    poll: &mut PollSession,
    copy: &C,
    sent: &SentBlock<'_>,
) -> Result<Reaction, OutOfMemory>
    requires on { IsCountedOn own.now.id (C.blocks copy.now) poll.old }
    ensures reaction { IfOk result
        (λ r. r ≡ repair_over own.now sent.now.from sent.now.block sent.now.bytes.now (C.blocks copy.now)
        (poll_of poll.old)) }
    ensures same { poll.new ≡ poll.old }
{
    let answer = poll.answer_of(sent.from, sent.block, sent.bytes.as_slice(), copy);
    let reaction = answer_with(alloc, poll, sent.from, sent.block, sent.bytes, answer)?;
    Ok(reaction)
}

fn answer_with(
    alloc: Global,
    poll: &PollSession,
    from: PeerId,
    block: u16,
    bytes: &Bytes,
    answer: Answer,
) -> Result<Reaction, OutOfMemory>
    ensures { IfOk result (λ r. r ≡ answered_by (poll_of poll.now) from block bytes.now answer) }
{
    let number = poll.poll().number;
    match answer {
        Answer::NotAsked => Ok(no_reaction(alloc)),
        Answer::Bad => {
            let item = Record::RepairBad {
                number,
                block,
                voter: from,
            };
            adding(alloc, item, no_sends(alloc))
        }
        Answer::Replace => {
            let item = Record::Replaced {
                number,
                au: poll.au(),
                block,
                bytes: bytes.clone()?,
            };
            adding(alloc, item, no_sends(alloc))
        }
    }
}

/// What the rules say about the votes of a poll over the copy that is held.
#[tactic(auto, unfolding(lks_law::specs::Reacting::tally_in), using(crate::proofs::Holdings::held_on, crate::proofs::Holdings::few_on, crate::proofs::Running::on_still))]
pub fn tally_held(
    alloc: Global,
    own: &Station,
    pool: &BlockPool,
    copies: &Copies,
    tick: u32,
    poll: &mut PollSession,
) -> Result<Reaction, OutOfMemory>
    requires of { All (IsOf pool.now) copies.now }
    requires counted { All HasBlocks (copies_of copies.now) }
    requires on { IsOn own.now.id (copies_of copies.now) poll.old }
    ensures reaction { IfOk result (λ r. r ≡ tally_in own.now tick (copies_of copies.now) (poll_of poll.old)) }
    ensures seen { poll_of poll.new ≡ poll_of poll.old }
    ensures on { IsOn own.now.id (copies_of copies.now) poll.new }
    ensures kept { poll.new.tally.kept
        ≡ kept_tallied own.now (copies_of copies.now) (poll_of poll.old) poll.old.tally.kept }
{
    let copy = copies.read(pool, poll.au());
    tally(alloc, own, tick, poll, &copy)
}

/// What they say about a block that came for it.
#[tactic(auto, unfolding(lks_law::specs::Reacting::repair_in), using(crate::proofs::Holdings::held_on))]
pub fn repair_held(
    alloc: Global,
    own: &Station,
    pool: &BlockPool,
    copies: &Copies,
    poll: &mut PollSession,
    sent: &SentBlock<'_>,
) -> Result<Reaction, OutOfMemory>
    requires of { All (IsOf pool.now) copies.now }
    requires on { IsOn own.now.id (copies_of copies.now) poll.old }
    ensures reaction { IfOk result
        (λ r. r
        ≡ repair_in own.now sent.now.from sent.now.block sent.now.bytes.now (copies_of copies.now) (poll_of poll.old)) }
    ensures same { poll.new ≡ poll.old }
{
    let copy = copies.read(pool, poll.au());
    repair(alloc, own, poll, &copy, sent)
}
