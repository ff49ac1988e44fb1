//! Polls of four inner peers on the blocks `41` and another one, with a quorum of 3 and at most 1 vote in a minority.

ghost use Rattle.std.specs.Prelude.{◌≡◌, ℕ, List, [], ◌∷◌, length, IfOk};
ghost use Rattle.lks_hash.specs.Counting.{Opens};
ghost use Rattle.lks_tally.specs.Keeping.{IsCacheOf};

use crate::same::same;
use crate::samples::{POLL, Pair, RULES};
use lks_base::{Contents, HashKind, Hashes, Ids, OutOfMemory, Outcome};
use lks_hash::{Chain, Steps, key};
use lks_poller::{Answer, Next, PollSession, Stage};
use std::alloc::Global;
use std::marker::Brand;
use std::process::Abort;
use std::sync::ledger::{Blank, Ledger};

const SEVENS: [u8; 32] = [7; 32];

fn inner_circle(alloc: Global) -> Result<Ids, OutOfMemory>
    ensures { IfOk result (λ ids. length ids ≡ 4) }
{
    Ok(Ids::from_vec(vec![in alloc; 2, 3, 4, 5]?))
}

/// A poll of peer 1 whose inner circle is 2 to 5.
fn opened_session(alloc: Global) -> Result<PollSession, OutOfMemory>
    ensures count { IfOk result (λ s. s.tally.ballot.count ≡ 2) }
    ensures cache { IfOk result (λ s. (blocks : List (List ℕ)) → IsCacheOf s.tally blocks) }
{
    let inner = inner_circle(alloc)?;
    PollSession::new(
        alloc,
        &RULES,
        POLL,
        1,
        2,
        HashKind::Sha512_256,
        SEVENS,
        inner,
    )
}

fn hashes_counted<L: Ledger>(
    blank: Blank,
    alloc: Global,
    voter: u16,
    copy: &Pair,
) -> Result<Hashes, OutOfMemory>
    requires { Opens blank L.name L.parts }
{
    let mut steps = Steps::<L>::open(blank);
    let mut chain = Chain::start(true, key(true, 1, 1, &SEVENS, voter, 1, 2));
    let first = chain.add(copy.block(0), &mut steps);
    let second = chain.add(copy.block(1), &mut steps);
    Ok(Hashes::from_vec(vec![in alloc; first, second]?))
}

/// The vote of a peer over a copy whose second block is `43`.
fn hashes_of(alloc: Global, voter: u16) -> Result<Hashes, OutOfMemory> {
    hashes_counted::<Brand>(Blank::new(1), alloc, voter, &Pair(*b"C"))
}

fn cast(session: &mut PollSession, alloc: Global, voter: u16) -> Result<bool, OutOfMemory>
    ensures ballot { session.new.tally.ballot ≡ session.old.tally.ballot }
    ensures cache { (blocks : List (List ℕ)) → IsCacheOf session.old.tally blocks → IsCacheOf session.new.tally blocks }
{
    let hashes = hashes_of(alloc, voter)?;
    session.vote(voter, hashes)
}

/// Those whom a peer nominates, and the outer circle.
fn six(alloc: Global) -> Result<Ids, OutOfMemory> {
    Ok(Ids::from_vec(vec![in alloc; 6]?))
}

fn name(session: &mut PollSession, voter: u16, nominees: Ids) -> Result<bool, OutOfMemory>
    ensures { session.new.tally ≡ session.old.tally }
{
    session.nominate(voter, nominees)
}

fn widen(session: &mut PollSession, outer: Ids) -> bool
    ensures { session.new.tally ≡ session.old.tally }
{
    session.widen(outer)
}

fn end(session: &mut PollSession) -> bool
    ensures { session.new.tally ≡ session.old.tally }
{
    session.shut()
}

/// Counts the votes, and says what is to be done.
fn decide(session: &mut PollSession, copy: &Pair) -> Result<Option<Next>, OutOfMemory>
    requires count { session.old.tally.ballot.count ≡ 2 }
    requires cache { IsCacheOf session.old.tally ((65 ∷ []) ∷ copy.now.0 ∷ []) }
    ensures count { session.new.tally.ballot.count ≡ 2 }
    ensures cache { IsCacheOf session.new.tally ((65 ∷ []) ∷ copy.now.0 ∷ []) }
{
    match session.stage() {
        Stage::Shut => {}
        Stage::Inviting | Stage::Widened | Stage::Asking | Stage::Closed => return Ok(None),
    }
    let verdict = session.verdict(copy);
    Ok(Some(session.judge(verdict)?))
}

fn give_up(session: &mut PollSession) -> Option<(u16, u16)>
    ensures { session.new.tally ≡ session.old.tally }
{
    session.give_up()
}

/// Hands the session a second block, and puts it in where it serves.
fn offer(session: &mut PollSession, from: u16, bytes: [u8; 1], copy: &mut Pair) -> Answer
    requires count { session.old.tally.ballot.count ≡ 2 }
    requires cache { IsCacheOf session.old.tally ((65 ∷ []) ∷ copy.old.0 ∷ []) }
    ensures count { session.new.tally.ballot.count ≡ 2 }
    ensures cache { IsCacheOf session.new.tally ((65 ∷ []) ∷ copy.new.0 ∷ []) }
{
    match session.answer(from, 1, &bytes, copy) {
        Answer::Replace => {
            copy.0 = bytes;
            Answer::Replace
        }
        Answer::Bad => Answer::Bad,
        Answer::NotAsked => Answer::NotAsked,
    }
}

/// The first outer voter for a copy with this second block.
fn first_outer_for(session: &PollSession, bytes: [u8; 1]) -> Result<Option<u16>, OutOfMemory>
    requires { session.now.tally.ballot.count ≡ 2 }
{
    let voters = session.outer_for(&Pair(bytes))?;
    Ok(voters.as_slice().first().copied())
}

/// A call before voting ends, which says whether it was taken.
#[derive(Clone, Copy)]
enum Voting {
    Name(u16),
    Widen,
    Cast(u16),
    End,
}

fn take_part(session: &mut PollSession, alloc: Global, voting: Voting) -> Result<bool, OutOfMemory>
    ensures ballot { session.new.tally.ballot ≡ session.old.tally.ballot }
    ensures cache { (blocks : List (List ℕ)) → IsCacheOf session.old.tally blocks → IsCacheOf session.new.tally blocks }
{
    match voting {
        Voting::Name(voter) => name(session, voter, six(alloc)?),
        Voting::Widen => Ok(widen(session, six(alloc)?)),
        Voting::Cast(voter) => cast(session, alloc, voter),
        Voting::End => Ok(end(session)),
    }
}

/// A call once voting ended, and what it is to answer.
#[derive(Clone, Copy)]
enum Counting {
    Decide(Option<Next>),
    Offer(u16, [u8; 1], Answer),
    GiveUp(Option<(u16, u16)>),
}

/// Whether a call answers what it is to.
fn counts(
    session: &mut PollSession,
    copy: &mut Pair,
    counting: Counting,
) -> Result<bool, OutOfMemory>
    requires count { session.old.tally.ballot.count ≡ 2 }
    requires cache { IsCacheOf session.old.tally ((65 ∷ []) ∷ copy.old.0 ∷ []) }
    ensures count { session.new.tally.ballot.count ≡ 2 }
    ensures cache { IsCacheOf session.new.tally ((65 ∷ []) ∷ copy.new.0 ∷ []) }
{
    Ok(match counting {
        Counting::Decide(want) => decide(session, copy)? == want,
        Counting::Offer(from, bytes, want) => offer(session, from, bytes, copy) == want,
        Counting::GiveUp(want) => give_up(session) == want,
    })
}

/// A call, and what it is to answer.
#[derive(Clone, Copy)]
enum Act {
    Taken(Voting),
    Refused(Voting),
    Count(Counting),
    OuterFor([u8; 1], Option<u16>),
    At(Stage),
}

/// Whether a call answers what it is to.
fn plays(
    session: &mut PollSession,
    alloc: Global,
    copy: &mut Pair,
    act: Act,
) -> Result<bool, OutOfMemory>
    requires count { session.old.tally.ballot.count ≡ 2 }
    requires cache { IsCacheOf session.old.tally ((65 ∷ []) ∷ copy.old.0 ∷ []) }
    ensures count { session.new.tally.ballot.count ≡ 2 }
    ensures cache { IsCacheOf session.new.tally ((65 ∷ []) ∷ copy.new.0 ∷ []) }
{
    Ok(match act {
        Act::Taken(voting) => take_part(session, alloc, voting)?,
        Act::Refused(voting) => !take_part(session, alloc, voting)?,
        Act::Count(counting) => counts(session, copy, counting)?,
        Act::OuterFor(bytes, want) => first_outer_for(session, bytes)? == want,
        Act::At(want) => session.stage() == want,
    })
}

fn play_all<R: Abort>(rt: &R, alloc: Global, acts: &[Act]) -> Result<(), OutOfMemory> {
    let mut copy = Pair(*b"B");
    let mut session = opened_session(alloc)?;
    for (at, act) in acts.iter().enumerate() {
        assert!(rt; plays(&mut session, alloc, &mut copy, *act)?, "{at}");
    }
    Ok(())
}

const REPAIR: [Act; 22] = [
    Act::At(Stage::Inviting),
    Act::Taken(Voting::Cast(2)),
    Act::Refused(Voting::Cast(2)),
    Act::Refused(Voting::Cast(9)),
    Act::Taken(Voting::Cast(3)),
    Act::Taken(Voting::Cast(4)),
    Act::Count(Counting::Decide(None)),
    Act::Taken(Voting::End),
    Act::At(Stage::Shut),
    Act::Refused(Voting::End),
    Act::Count(Counting::Decide(Some(Next::Ask { block: 1, voter: 2 }))),
    Act::At(Stage::Asking),
    Act::Count(Counting::Offer(3, *b"C", Answer::NotAsked)),
    Act::Count(Counting::Offer(2, *b"D", Answer::Bad)),
    Act::Count(Counting::Decide(Some(Next::Ask { block: 1, voter: 3 }))),
    Act::Count(Counting::GiveUp(Some((1, 3)))),
    Act::Count(Counting::GiveUp(None)),
    Act::Count(Counting::Decide(Some(Next::Ask { block: 1, voter: 4 }))),
    Act::Count(Counting::Offer(4, *b"C", Answer::Replace)),
    Act::Count(Counting::Decide(Some(Next::Close(Outcome::Agreed)))),
    Act::At(Stage::Closed),
    Act::Refused(Voting::End),
];

#[test]
fn repair(rt: HostRuntime) -> Result<(), OutOfMemory> {
    play_all(&rt, rt.alloc(), &REPAIR)
}

const WIDENING: [Act; 14] = [
    Act::Refused(Voting::Name(6)),
    Act::Taken(Voting::Name(2)),
    Act::Refused(Voting::Name(2)),
    Act::Refused(Voting::Cast(6)),
    Act::Taken(Voting::Widen),
    Act::At(Stage::Widened),
    Act::Refused(Voting::Widen),
    Act::Refused(Voting::Name(3)),
    Act::Taken(Voting::Cast(6)),
    Act::Taken(Voting::Cast(2)),
    Act::OuterFor(*b"C", Some(6)),
    Act::OuterFor(*b"B", None),
    Act::Taken(Voting::End),
    Act::At(Stage::Closed),
];

#[test]
fn widening(rt: HostRuntime) -> Result<(), OutOfMemory> {
    play_all(&rt, rt.alloc(), &WIDENING)
}

/// What a caller notes by itself and of the session alone.
#[derive(Clone, Copy)]
enum Noting {
    Nominated(u16),
    Widened,
    Voted(u16),
    Shut,
    Asked(u16),
    Answered,
}

/// What a caller notes, or asks, by itself.
#[derive(Clone, Copy)]
enum Move {
    Note(Noting),
    Replaced([u8; 1]),
    Next(Next),
    Answer(u16, [u8; 1], Answer),
}

/// Notes a vote. False where the peer has voted or its hashes aren't one a block.
fn note_vote(session: &mut PollSession, voter: u16, hashes: Hashes) -> Result<bool, OutOfMemory>
    ensures ballot { session.new.tally.ballot ≡ session.old.tally.ballot }
    ensures cache { (blocks : List (List ℕ)) → IsCacheOf session.old.tally blocks → IsCacheOf session.new.tally blocks }
{
    if session.has_voted(voter) || hashes.as_slice().len() != usize::from(session.count()) {
        return Ok(false);
    }
    session.voted(voter, hashes)?;
    Ok(true)
}

/// Notes a request. False where none may be made.
fn note_request(session: &mut PollSession, voter: u16) -> Result<bool, OutOfMemory>
    requires { session.old.tally.ballot.count ≡ 2 }
    ensures { session.new.tally ≡ session.old.tally }
{
    match session.stage() {
        Stage::Shut => {
            session.asked(1, voter)?;
            Ok(true)
        }
        Stage::Inviting | Stage::Widened | Stage::Asking | Stage::Closed => Ok(false),
    }
}

fn note_repair(session: &mut PollSession, bytes: [u8; 1], copy: &mut Pair)
    requires count { session.old.tally.ballot.count ≡ 2 }
    requires cache { IsCacheOf session.old.tally ((65 ∷ []) ∷ copy.old.0 ∷ []) }
    ensures count { session.new.tally.ballot.count ≡ 2 }
    ensures cache { IsCacheOf session.new.tally ((65 ∷ []) ∷ copy.new.0 ∷ []) }
{
    session.replaced(1);
    copy.0 = bytes;
}

fn foresee(session: &mut PollSession, copy: &Pair) -> Result<Next, OutOfMemory>
    requires count { session.old.tally.ballot.count ≡ 2 }
    requires cache { IsCacheOf session.old.tally ((65 ∷ []) ∷ copy.now.0 ∷ []) }
    ensures count { session.new.tally.ballot.count ≡ 2 }
    ensures cache { IsCacheOf session.new.tally ((65 ∷ []) ∷ copy.now.0 ∷ []) }
{
    let verdict = session.verdict(copy);
    session.next_of(verdict)
}

/// Whether this could be noted.
fn note(session: &mut PollSession, alloc: Global, noting: Noting) -> Result<bool, OutOfMemory>
    requires { session.old.tally.ballot.count ≡ 2 }
    ensures ballot { session.new.tally.ballot ≡ session.old.tally.ballot }
    ensures cache { (blocks : List (List ℕ)) → IsCacheOf session.old.tally blocks → IsCacheOf session.new.tally blocks }
{
    match noting {
        Noting::Nominated(voter) => session.nominated(voter, six(alloc)?)?,
        Noting::Widened => session.widened(six(alloc)?),
        Noting::Voted(voter) => return note_vote(session, voter, hashes_of(alloc, voter)?),
        Noting::Shut => session.shut_now(),
        Noting::Asked(voter) => return note_request(session, voter),
        Noting::Answered => session.answered(),
    }
    Ok(true)
}

/// Whether this could be noted, or has the answer that it is to have.
fn enters(
    session: &mut PollSession,
    alloc: Global,
    copy: &mut Pair,
    made: Move,
) -> Result<bool, OutOfMemory>
    requires count { session.old.tally.ballot.count ≡ 2 }
    requires cache { IsCacheOf session.old.tally ((65 ∷ []) ∷ copy.old.0 ∷ []) }
    ensures count { session.new.tally.ballot.count ≡ 2 }
    ensures cache { IsCacheOf session.new.tally ((65 ∷ []) ∷ copy.new.0 ∷ []) }
{
    Ok(match made {
        Move::Note(noting) => note(session, alloc, noting)?,
        Move::Replaced(bytes) => {
            note_repair(session, bytes, copy);
            true
        }
        Move::Next(want) => foresee(session, copy)? == want,
        Move::Answer(from, bytes, want) => session.answer_of(from, 1, &bytes, copy) == want,
    })
}

const MOVES: [Move; 17] = [
    Move::Note(Noting::Nominated(2)),
    Move::Note(Noting::Widened),
    Move::Note(Noting::Voted(6)),
    Move::Note(Noting::Voted(2)),
    Move::Note(Noting::Voted(4)),
    Move::Note(Noting::Voted(3)),
    Move::Note(Noting::Shut),
    Move::Next(Next::Ask { block: 1, voter: 2 }),
    Move::Note(Noting::Asked(2)),
    Move::Answer(2, *b"D", Answer::Bad),
    Move::Note(Noting::Answered),
    Move::Answer(2, *b"C", Answer::NotAsked),
    Move::Next(Next::Ask { block: 1, voter: 4 }),
    Move::Note(Noting::Asked(4)),
    Move::Answer(4, *b"C", Answer::Replace),
    Move::Replaced(*b"C"),
    Move::Next(Next::Close(Outcome::Agreed)),
];

/// Enters these into a session without votes, on a copy whose second block is `42`.
fn enter_all<R: Abort>(
    rt: &R,
    session: &mut PollSession,
    alloc: Global,
    moves: &[Move],
) -> Result<(), OutOfMemory>
    requires count { session.old.tally.ballot.count ≡ 2 }
    requires cache { (blocks : List (List ℕ)) → IsCacheOf session.old.tally blocks }
{
    let mut copy = Pair(*b"B");
    for (at, made) in moves.iter().enumerate() {
        assert!(rt; enters(session, alloc, &mut copy, *made)?, "{at}");
    }
    Ok(())
}

#[test]
fn noted(rt: HostRuntime) -> Result<(), OutOfMemory> {
    let mut session = opened_session(rt.alloc())?;
    enter_all(&rt, &mut session, rt.alloc(), &MOVES)?;
    same(
        &rt,
        &session.voters(),
        &[6, 2, 4, 3].as_slice(),
        &"session.voters",
    );
    Ok(())
}

/// Puts a copy of the session's tally in its place.
fn put_copy(session: &mut PollSession) -> Result<(), OutOfMemory> {
    let tally = session.tally()?;
    session.put_tally(tally);
    Ok(())
}

#[test]
fn copied_tally(rt: HostRuntime) -> Result<(), OutOfMemory> {
    let mut session = opened_session(rt.alloc())?;
    put_copy(&mut session)?;
    same(&rt, &session.kept(), &0, &"session.kept");
    Ok(())
}
