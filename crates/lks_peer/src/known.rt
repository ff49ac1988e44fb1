//! What a peer knows, and what each record makes of it.

ghost use Rattle.std.specs.Prelude.{◌≡◌, ◌<◌, ◌≤◌, ◌++◌, ◌∷◌, ℕ, List, [], Option, Some, IfOk, map, option_map};
ghost use Rattle.std.specs.Prelude.{is_some, true, length, OnOk, OnErr, All};
ghost use Rattle.lks_base.specs.declared.limits.TheConstants.{MOST_CIRCLE};
ghost use Rattle.lks_base.specs.declared.names.Outcome.TheVariants as outcome;
ghost use Rattle.lks_base.specs.declared.records.Record.TheVariants as record_of;
ghost use Rattle.lks_blocks.specs.Block.{AllOf, bytes_of};
ghost use Rattle.lks_law.specs.Fitting.{Fits, IsCounted, marks_left, most_numbered};
ghost use Rattle.lks_law.specs.State.{Poll, after, agreed_on, blocks_at, copy_at};
ghost use Rattle.lks_audit.specs.Copied.{IsOf, MayReplace, copies_of};
ghost use Rattle.lks_audit.specs.Kept.{kept_of, kept_before, without_kept};
ghost use Rattle.lks_peer.specs.Keeping.{kept_after};
ghost use Rattle.lks_peer.specs.Knows.{state_of, IsSameButMarks, IsTied, StaysTied};
ghost use Rattle.lks_audit.specs.Seen.{AreAgreed, MayAsk, MayVote, RunOver, polls_of};
ghost use Rattle.lks_sessions.specs.Kept.{voter_of};
ghost use Rattle.lks_sessions.specs.Sendable.{MayServe};

use lks_audit::{Copies, Held, Polls, Station, begin, count_held, refer};
use lks_base::{
    AuId, Blocks, Bytes, HashKind, Hashes, Ids, Numbers, OutOfMemory, Outcome, PeerId, PollName,
    Record,
};
use lks_blocks::{BlockPool, Refs};
use lks_choice::References;
use lks_law::Opening;
use lks_sessions::Sessions;
use std::alloc::Global;
use std::sync::Wait;

/// What a peer knows: the numbers in force, how many polls it opened, its copies, those of its polls that run, its
/// reference list, and its part in polls of others.
#[derive(Drop)]
pub struct Known {
    pub numbers: Numbers,
    pub openings: u32,
    pub copies: Copies,
    pub polls: Polls,
    pub references: References,
    pub sessions: Sessions,
}

/// Notes a nomination.
#[tactic(auto, unfolding(lks_law::specs::State::after), using(crate::proofs::Knowing::tied_polls, lks_audit::proofs::Running::on_equal, lks_audit::proofs::Running::on_none))]
pub fn nominate(
    own: &Station,
    known: &mut Known,
    number: u32,
    voter: PeerId,
    nominees: &Ids,
) -> Result<(), OutOfMemory>
    ensures state { OnOk result
        (state_of known.new ≡ after own.now (state_of known.old) (record_of.Nominated number voter nominees.now)) }
    ensures tied { StaysTied known.old known.new }
    ensures err { OnErr result (state_of known.new ≡ state_of known.old) }
    ensures kept { OnOk result (kept_of known.new.polls ≡ kept_of known.old.polls) }
{
    let nominees = nominees.clone()?;
    known.polls.nominate(number, voter, nominees)?;
    Ok(())
}

/// Notes that the outer circle was invited.
#[tactic(auto, unfolding(lks_law::specs::State::after), using(crate::proofs::Knowing::tied_polls, lks_audit::proofs::Running::on_equal, lks_audit::proofs::Running::on_none))]
pub fn widen(own: &Station, known: &mut Known, number: u32, outer: &Ids) -> Result<(), OutOfMemory>
    ensures state { OnOk result
        (state_of known.new ≡ after own.now (state_of known.old) (record_of.OuterOpened number outer.now)) }
    ensures tied { StaysTied known.old known.new }
    ensures err { OnErr result (state_of known.new ≡ state_of known.old) }
    ensures kept { OnOk result (kept_of known.new.polls ≡ kept_of known.old.polls) }
{
    let outer = outer.clone()?;
    known.polls.widen(number, outer);
    Ok(())
}

/// Notes a vote. For want of memory its voter may already be given credit.
#[tactic(auto, unfolding(lks_law::specs::State::after), using(crate::proofs::Knowing::tied_voted, crate::proofs::Knowing::tied_still, crate::proofs::Knowing::same_but_marks, lks_audit::proofs::Running::on_equal, lks_audit::proofs::Running::on_none))]
pub fn vote(
    own: &Station,
    known: &mut Known,
    number: u32,
    voter: PeerId,
    hashes: &Hashes,
) -> Result<(), OutOfMemory>
    requires may { MayVote number voter hashes.now known.old.polls }
    requires marks { marks_left (voter_of known.old.sessions) ≡ true }
    ensures state { OnOk result
        (state_of known.new ≡ after own.now (state_of known.old) (record_of.VoteIn number voter hashes.now)) }
    ensures tied { StaysTied known.old known.new }
    ensures err { OnErr result (IsSameButMarks (state_of known.old) (state_of known.new)) }
    ensures kept { OnOk result
        (kept_of known.new.polls
        ≡ kept_after (state_of known.old).polls (record_of.VoteIn number voter hashes.now)
        (kept_of known.old.polls)) }
{
    let hashes = hashes.clone()?;
    known.sessions.receive(voter)?;
    known.polls.vote(number, voter, hashes)?;
    Ok(())
}

/// Notes that voting ended.
#[tactic(auto, unfolding(lks_law::specs::State::after), using(crate::proofs::Knowing::tied_polls, lks_audit::proofs::Running::on_equal, lks_audit::proofs::Running::on_none))]
pub fn shut(own: &Station, known: &mut Known, number: u32)
    ensures state { state_of known.new ≡ after own.now (state_of known.old) (record_of.Shut number) }
    ensures tied { StaysTied known.old known.new }
    ensures kept { kept_of known.new.polls ≡ kept_of known.old.polls }
{
    known.polls.shut(number);
}

/// Notes that a voter was asked for a block.
#[tactic(auto, unfolding(lks_law::specs::State::after), using(crate::proofs::Knowing::tied_polls, lks_audit::proofs::Running::on_equal, lks_audit::proofs::Running::on_none))]
pub fn ask(
    own: &Station,
    known: &mut Known,
    number: u32,
    block: u16,
    voter: PeerId,
) -> Result<(), OutOfMemory>
    requires { MayAsk number block known.old.polls }
    ensures state { OnOk result
        (state_of known.new ≡ after own.now (state_of known.old) (record_of.Asked number block voter)) }
    ensures tied { StaysTied known.old known.new }
    ensures err { OnErr result (state_of known.new ≡ state_of known.old) }
    ensures kept { OnOk result (kept_of known.new.polls ≡ kept_of known.old.polls) }
{
    known.polls.ask(number, block, voter)?;
    Ok(())
}

/// Notes that a block that came was bad, or that a request was given up.
#[tactic(auto, unfolding(lks_law::specs::State::after), using(crate::proofs::Knowing::tied_polls, lks_audit::proofs::Running::on_equal, lks_audit::proofs::Running::on_none))]
pub fn give_up(own: &Station, known: &mut Known, number: u32, block: u16, voter: PeerId)
    ensures state { state_of known.new ≡ after own.now (state_of known.old) (record_of.RepairBad number block voter) }
    ensures tied { StaysTied known.old known.new }
    ensures kept { kept_of known.new.polls ≡ kept_of known.old.polls }
{
    known.polls.answer(number);
}

/// Notes that a poll ended, which isn't agreed.
#[tactic(auto, unfolding(lks_law::specs::State::after), using(crate::proofs::Knowing::tied_polls, lks_audit::proofs::Running::on_equal, lks_audit::proofs::Running::on_none))]
pub fn close(own: &Station, known: &mut Known, number: u32)
    ensures inquorate { (tick : ℕ)
        → state_of known.new ≡ after own.now (state_of known.old) (record_of.Closed number outcome.Inquorate tick) }
    ensures split { (tick b : ℕ)
        → state_of known.new ≡ after own.now (state_of known.old) (record_of.Closed number (outcome.Split b) tick) }
    ensures none { (tick b : ℕ)
        → state_of known.new
        ≡ after own.now (state_of known.old) (record_of.Closed number (outcome.NoSupplier b) tick) }
    ensures tied { StaysTied known.old known.new }
    ensures kept { kept_of known.new.polls ≡ without_kept number (kept_of known.old.polls) }
{
    known.polls.close(number);
}

/// Notes that an AU was noted as overdue.
#[tactic(auto, unfolding(lks_law::specs::State::after), using(crate::proofs::Knowing::tied_noted))]
pub fn note(own: &Station, known: &mut Known, au: AuId, tick: u32)
    ensures state { state_of known.new ≡ after own.now (state_of known.old) (record_of.Overdue au tick) }
    ensures tied { StaysTied known.old known.new }
    ensures kept { known.new.polls ≡ known.old.polls }
{
    known.copies.note(au);
}

/// Takes the numbers of a tuning.
#[tactic(auto, unfolding(lks_law::specs::State::after), using(crate::proofs::Knowing::tied_polls, lks_audit::proofs::Running::on_equal, lks_audit::proofs::Running::on_none))]
pub fn tune(own: &Station, known: &mut Known, numbers: Numbers)
    ensures state { state_of known.new
        ≡ after own.now (state_of known.old) (record_of.Tuned numbers.quorum numbers.minority numbers.repairs) }
    ensures tied { StaysTied known.old known.new }
    ensures kept { known.new.polls ≡ known.old.polls }
{
    known.numbers = numbers;
}

/// Takes a copy with which the peer begins.
#[tactic(auto, unfolding(lks_law::specs::State::after), using(crate::proofs::Knowing::tied_copies, crate::proofs::Knowing::no_polls))]
pub fn deposit<R: Wait>(
    alloc: Global,
    rt: &R,
    pool: &BlockPool,
    own: &Station,
    known: &mut Known,
    au: AuId,
    blocks: &Blocks,
) -> Result<(), OutOfMemory>
    requires counted { IsCounted blocks.now }
    requires first { (state_of known.old).polls ≡ [] }
    ensures state { OnOk result
        (state_of known.new ≡ after own.now (state_of known.old) (record_of.Deposit au blocks.now)) }
    ensures tied { (id : ℕ) → IsTied id pool.now known.old → IsTied id pool.now known.new }
    ensures err { OnErr result (state_of known.new ≡ state_of known.old) }
    ensures kept { OnOk result (known.new.polls ≡ known.old.polls) }
{
    known
        .copies
        .deposit(alloc, rt, pool, au, blocks.as_slice())?;
    Ok(())
}

/// Opens a poll on a held AU.
#[tactic(auto, unfolding(lks_law::specs::State::after), using(crate::proofs::Counting::kept_opened))]
pub fn open(
    alloc: Global,
    own: &Station,
    known: &mut Known,
    number: u32,
    opening: &Opening<'_>,
    tick: u32,
) -> Result<(), OutOfMemory>
    requires held { is_some (copy_at opening.now.au (copies_of known.old.copies)) ≡ true }
    requires few { length opening.now.inner ≤ MOST_CIRCLE }
    requires room { known.old.openings < most_numbered }
    ensures state { OnOk result
        (state_of known.new
        ≡ after own.now (state_of known.old)
        (record_of.PollOpened number opening.now.au opening.now.nonce opening.now.inner tick
        opening.now.limits opening.now.kind)) }
    ensures tied { (pool : List ℕ) → IsTied own.now.id pool known.old → IsTied own.now.id pool known.new }
    ensures err { OnErr result (state_of known.new ≡ state_of known.old) }
    ensures kept { OnOk result
        (kept_of known.new.polls
        ≡ kept_of known.old.polls ++ record { number = number; au = opening.now.au; count = 0 } ∷ []) }
{
    let count = count_held(known.copies.as_slice(), opening.au);
    let poll = begin(alloc, own, number, count, opening)?;
    known.polls.push(poll)?;
    known.copies.open(opening.au, tick);
    known.openings += 1;
    Ok(())
}

/// Puts other bytes in the place of a block, for which a poll asked.
#[tactic(auto, unfolding(lks_law::specs::State::after), using(crate::proofs::Knowing::tied_replaced, crate::proofs::Knowing::forgotten_seen, crate::proofs::Counting::kept_forgotten))]
pub fn replace<R: Wait>(
    alloc: Global,
    rt: &R,
    pool: &BlockPool,
    own: &Station,
    known: &mut Known,
    number: u32,
    au: AuId,
    block: u16,
    bytes: &Bytes,
) -> Result<(), OutOfMemory>
    requires { MayReplace au block (copies_of known.old.copies) }
    ensures state { OnOk result
        (state_of known.new ≡ after own.now (state_of known.old) (record_of.Replaced number au block bytes.now)) }
    ensures tied { (id : ℕ) → IsTied id pool.now known.old → IsTied id pool.now known.new }
    ensures err { OnErr result (state_of known.new ≡ state_of known.old) }
    ensures kept { OnOk result (kept_of known.new.polls ≡ map (kept_before au block) (kept_of known.old.polls)) }
{
    known
        .copies
        .replace(alloc, rt, pool, au, block, bytes.as_slice())?;
    known.polls.answer(number);
    known.polls.forget(au, block);
    Ok(())
}

#[tactic(auto, using(crate::proofs::Knowing::agreed_some, crate::proofs::Knowing::agreed_none, crate::proofs::Knowing::over_agreed, crate::proofs::Knowing::over_same))]
fn mark(copies: &mut Copies, au: Option<AuId>, tick: u32)
    ensures seen { (o : Option Poll) → au ≡ option_map (λ p. p.opening.au) o
        → copies_of copies.new ≡ agreed_on o tick (copies_of copies.old) }
    ensures of { (pool : List ℕ) → All (IsOf pool) copies.old → All (IsOf pool) copies.new }
    ensures on { RunOver copies.old copies.new }
{
    if let Some(au) = au {
        copies.agree(au, tick);
    }
}

/// Notes that a poll was agreed, with what that makes of the reference list.
#[tactic(auto, unfolding(lks_law::specs::State::after), using(crate::proofs::Knowing::tied_agreed))]
pub fn agree(
    alloc: Global,
    pool: &BlockPool,
    own: &Station,
    known: &mut Known,
    number: u32,
    tick: u32,
) -> Result<(), OutOfMemory>
    requires tied { IsTied own.now.id pool.now known.old }
    requires agreed { AreAgreed own.now number (copies_of known.old.copies) (polls_of known.old.polls) }
    ensures state { OnOk result
        (state_of known.new ≡ after own.now (state_of known.old) (record_of.Closed number outcome.Agreed tick)) }
    ensures tied { IsTied own.now.id pool.now known.new }
    ensures err { OnErr result (state_of known.new ≡ state_of known.old) }
    ensures kept { OnOk result (kept_of known.new.polls ≡ without_kept number (kept_of known.old.polls)) }
{
    let au = known.polls.agree(
        alloc,
        own,
        pool,
        &known.copies,
        &mut known.references,
        number,
    )?;
    mark(&mut known.copies, au, tick);
    known.polls.close(number);
    Ok(())
}

/// References to the blocks of the newest version of an AU, none where none is named.
#[tactic(auto, using(lks_blocks::specs::Block::all_none))]
fn refer_if(alloc: Global, copies: &[Held], au: Option<AuId>) -> Result<Refs, OutOfMemory>
    ensures blocks { IfOk result (λ refs. (a : ℕ) → au ≡ Some a → bytes_of refs ≡ blocks_at a (copies_of copies.now)) }
    ensures of { IfOk result (λ refs. (pool : List ℕ) → All (IsOf pool) copies.now → AllOf pool refs) }
{
    match au {
        Some(au) => refer(alloc, copies, au),
        None => Ok(Refs::from_vec(Vec::new(alloc))),
    }
}

/// Notes that the peer joined a poll of another.
#[tactic(auto, unfolding(lks_law::specs::State::after), using(crate::proofs::Knowing::tied_sessions))]
pub fn join(
    own: &Station,
    known: &mut Known,
    poll: PollName,
    au: AuId,
    tick: u32,
    low: bool,
    repairs: Option<u16>,
) -> Result<(), OutOfMemory>
    ensures state { OnOk result
        (state_of known.new ≡ after own.now (state_of known.old) (record_of.Joined poll au tick low repairs)) }
    ensures tied { StaysTied known.old known.new }
    ensures err { OnErr result (state_of known.new ≡ state_of known.old) }
    ensures kept { known.new.polls ≡ known.old.polls }
{
    known
        .sessions
        .join(&own.rules, poll, au, tick, low, repairs)?;
    Ok(())
}

/// Notes that the peer committed to the newest version of the AU of a session.
#[tactic(auto, unfolding(lks_law::specs::State::after), using(crate::proofs::Pinning::pins, crate::proofs::Knowing::tied_pinned))]
pub fn commit(
    alloc: Global,
    own: &Station,
    known: &mut Known,
    poll: PollName,
    nonce: &[u8; 32],
    version: u32,
    kind: HashKind,
) -> Result<(), OutOfMemory>
    ensures state { OnOk result
        (state_of known.new
        ≡ after own.now (state_of known.old) (record_of.Committed poll nonce.now version kind)) }
    ensures tied { StaysTied known.old known.new }
    ensures err { OnErr result (state_of known.new ≡ state_of known.old) }
    ensures kept { known.new.polls ≡ known.old.polls }
{
    let au = known.sessions.au_of(poll);
    let refs = refer_if(alloc, known.copies.as_slice(), au)?;
    known.sessions.commit(poll, *nonce, version, kind, refs)?;
    Ok(())
}

/// Notes that the peer voted in a session.
#[tactic(auto, unfolding(lks_law::specs::State::after), using(crate::proofs::Knowing::tied_sessions, crate::proofs::Knowing::tied_still))]
pub fn cast(
    alloc: Global,
    own: &Station,
    known: &mut Known,
    poll: PollName,
    hashes: &Hashes,
) -> Result<(), OutOfMemory>
    requires { marks_left (voter_of known.old.sessions) ≡ true }
    ensures state { OnOk result
        (state_of known.new ≡ after own.now (state_of known.old) (record_of.Voted poll hashes.now)) }
    ensures tied { StaysTied known.old known.new }
    ensures err { OnErr result (state_of known.new ≡ state_of known.old) }
    ensures kept { known.new.polls ≡ known.old.polls }
{
    let hashes = hashes.clone()?;
    known.sessions.cast(alloc, poll, hashes)?;
    Ok(())
}

/// Notes that the peer gave the poller of a session a block.
#[tactic(auto, unfolding(lks_law::specs::State::after), using(crate::proofs::Knowing::tied_sessions))]
pub fn serve(
    own: &Station,
    known: &mut Known,
    poll: PollName,
    block: u16,
) -> Result<(), OutOfMemory>
    requires { MayServe poll block (voter_of known.old.sessions).cast }
    ensures state { OnOk result
        (state_of known.new ≡ after own.now (state_of known.old) (record_of.Served poll block)) }
    ensures tied { StaysTied known.old known.new }
    ensures err { OnErr result (state_of known.new ≡ state_of known.old) }
    ensures kept { known.new.polls ≡ known.old.polls }
{
    known.sessions.serve(poll, block)?;
    Ok(())
}

/// Notes that a session is over.
#[tactic(auto, unfolding(lks_law::specs::State::after), using(crate::proofs::Knowing::tied_sessions))]
pub fn end_session(own: &Station, known: &mut Known, poll: PollName) -> Result<(), OutOfMemory>
    ensures state { OnOk result (state_of known.new ≡ after own.now (state_of known.old) (record_of.Ended poll)) }
    ensures tied { StaysTied known.old known.new }
    ensures err { OnErr result (state_of known.new ≡ state_of known.old) }
    ensures kept { known.new.polls ≡ known.old.polls }
{
    known.sessions.end(poll)?;
    Ok(())
}

/// Notes how a poll ended.
#[tactic(auto, using(crate::proofs::Knowing::tied_on))]
fn end(
    alloc: Global,
    pool: &BlockPool,
    own: &Station,
    known: &mut Known,
    number: u32,
    how: Outcome,
    tick: u32,
) -> Result<(), OutOfMemory>
    requires tied { IsTied own.now.id pool.now known.old }
    requires fits { Fits own.now (state_of known.old) (record_of.Closed number how tick) }
    ensures state { OnOk result
        (state_of known.new ≡ after own.now (state_of known.old) (record_of.Closed number how tick)) }
    ensures tied { IsTied own.now.id pool.now known.new }
    ensures err { OnErr result (state_of known.new ≡ state_of known.old) }
    ensures kept { OnOk result (kept_of known.new.polls ≡ without_kept number (kept_of known.old.polls)) }
{
    match how {
        Outcome::Agreed => agree(alloc, pool, own, known, number, tick),
        Outcome::Inquorate => {
            close(own, known, number);
            Ok(())
        }
        Outcome::Split { .. } => {
            close(own, known, number);
            Ok(())
        }
        Outcome::NoSupplier { .. } => {
            close(own, known, number);
            Ok(())
        }
    }
}

/// What a record makes of what the peer knows.
#[tactic(auto, using(crate::proofs::Knowing::tied_on, crate::proofs::Knowing::same_but_marks))]
pub fn apply<R: Wait>(
    alloc: Global,
    rt: &R,
    pool: &BlockPool,
    own: &Station,
    known: &mut Known,
    r: &Record,
) -> Result<(), OutOfMemory>
    requires tied { IsTied own.now.id pool.now known.old }
    requires fits { Fits own.now (state_of known.old) r.now }
    ensures state { OnOk result (state_of known.new ≡ after own.now (state_of known.old) r.now) }
    ensures tied { IsTied own.now.id pool.now known.new }
    ensures err { OnErr result (IsSameButMarks (state_of known.old) (state_of known.new)) }
    ensures kept { OnOk result
        (kept_of known.new.polls ≡ kept_after (state_of known.old).polls r.now (kept_of known.old.polls)) }
{
    match r {
        Record::Deposit { au, blocks } => deposit(alloc, rt, pool, own, known, *au, blocks),
        Record::PollOpened {
            number,
            au,
            nonce,
            inner,
            tick,
            limits,
            kind,
        } => {
            let opening = Opening {
                au: *au,
                nonce,
                inner,
                limits: *limits,
                kind: *kind,
            };
            open(alloc, own, known, *number, &opening, *tick)
        }
        Record::Nominated {
            number,
            voter,
            nominees,
        } => nominate(own, known, *number, *voter, nominees),
        Record::OuterOpened { number, outer } => widen(own, known, *number, outer),
        Record::VoteIn {
            number,
            voter,
            hashes,
        } => vote(own, known, *number, *voter, hashes),
        Record::Shut { number } => {
            shut(own, known, *number);
            Ok(())
        }
        Record::Asked {
            number,
            block,
            voter,
        } => ask(own, known, *number, *block, *voter),
        Record::RepairBad {
            number,
            block,
            voter,
        } => {
            give_up(own, known, *number, *block, *voter);
            Ok(())
        }
        Record::Replaced {
            number,
            au,
            block,
            bytes,
        } => replace(alloc, rt, pool, own, known, *number, *au, *block, bytes),
        Record::Closed {
            number,
            outcome,
            tick,
        } => end(alloc, pool, own, known, *number, *outcome, *tick),
        Record::Overdue { au, tick } => {
            note(own, known, *au, *tick);
            Ok(())
        }
        Record::Tuned {
            quorum,
            minority,
            repairs,
        } => {
            let numbers = Numbers {
                quorum: *quorum,
                minority: *minority,
                repairs: *repairs,
            };
            tune(own, known, numbers);
            Ok(())
        }
        Record::Joined {
            poll,
            au,
            tick,
            low,
            repairs,
        } => join(own, known, *poll, *au, *tick, *low, *repairs),
        Record::Committed {
            poll,
            nonce,
            version,
            kind,
        } => commit(alloc, own, known, *poll, nonce, *version, *kind),
        Record::Voted { poll, hashes } => cast(alloc, own, known, *poll, hashes),
        Record::Served { poll, block } => serve(own, known, *poll, *block),
        Record::Ended { poll } => end_session(own, known, *poll),
    }
}
