//! Verdicts of small polls on the blocks `41` and `42`, with a quorum of 3 and at most 1 vote in a minority.

ghost use Rattle.std.specs.Prelude.{◌≡◌, ◌≤◌, ◌+◌, ◌*◌, ◌-◌, [], ◌∷◌, length, IfOk};
ghost use Rattle.lks_base.specs.declared.limits.TheConstants.{MOST_CIRCLE};
ghost use Rattle.lks_hash.specs.Counting.{Opens};
ghost use Rattle.lks_tally.specs.Keeping.{IsCacheOf, IsReserved, IsSame};

use crate::same::same;
use crate::samples::{NONCE, POLL, PUBLISHED, Pair, RULES, add_vote, tally_without_votes};
use lks_base::{Contents, HashKind, Hashes, Ids, MOST_CIRCLE, OutOfMemory};
use lks_hash::{Chain, Steps, key};
use lks_tally::{At, Ballot, Tally, Verdict, Vote, VoteFault, for_of};
use std::alloc::Global;
use std::marker::Brand;
use std::process::Abort;
use std::sync::ledger::{Blank, Ledger};
use std::test::Fail;

/// A copy of one block.
#[derive(Clone, Copy)]
struct Single([u8; 1]);

impl Contents for Single {
    ghost blocks = { λ c. c.0 ∷ [] };

    fn count(&self) -> u16 {
        1
    }

    fn block(&self, _b: u16) -> &[u8] {
        &self.0
    }
}

fn hashes_of<C: Contents, L: Ledger>(
    alloc: Global,
    kind: HashKind,
    voter: u16,
    copy: &C,
    steps: &mut Steps<L>,
) -> Result<Hashes, OutOfMemory> {
    let key = key(kind.second(), 1, 1, NONCE, voter, 1, copy.count());
    let mut chain = Chain::start(kind.second(), key);
    let mut hashes = Vec::new(alloc);
    for b in 0..copy.count() {
        hashes.push(chain.add(copy.block(b), steps))?;
    }
    Ok(Hashes::from_vec(hashes))
}

/// A tally of votes over these copies, by voters 2, 3 and so on, whose hashes are of kind `voted`.
fn tally_of<C: Contents, L: Ledger>(
    alloc: Global,
    kind: HashKind,
    voted: HashKind,
    count: u16,
    copies: &[C],
    steps: &mut Steps<L>,
) -> Result<Tally, Fail>
    requires { length copies.now ≤ MOST_CIRCLE }
    ensures { IfOk result
        (λ t. (IsReserved t) × (length t.votes ≡ length copies.now) × (t.ballot.count ≡ count) × (t.kept ≡ 0)
        × (t.hashes ≡ [])) }
{
    let mut tally = tally_without_votes(alloc, kind, count)?;
    for (i, copy) in copies.iter().enumerate() {
        let voter = i as u16 + 2;
        let hashes = hashes_of(alloc, voted, voter, copy, steps)?;
        add_vote(&mut tally, voter, hashes)?;
    }
    Ok(tally)
}

fn verdict_counted<L: Ledger>(blank: Blank, alloc: Global, votes: &[Pair]) -> Result<Verdict, Fail>
    requires blank { Opens blank L.name L.parts }
    requires few { length votes.now ≤ MOST_CIRCLE }
{
    let kind = HashKind::Sha256;
    let mut steps = Steps::<L>::open(blank);
    let mut tally = tally_of(alloc, kind, kind, 2, votes, &mut steps)?;
    Ok(tally.verdict(&Pair(*b"B"), &mut steps))
}

fn verdict_on(alloc: Global, votes: &[Pair]) -> Result<Verdict, Fail>
    requires { length votes.now ≤ MOST_CIRCLE }
{
    verdict_counted::<Brand>(Blank::new(1), alloc, votes)
}

const GOOD: Pair = Pair(*b"B");

const OTHER: Pair = Pair(*b"C");

const VERDICTS: [(&[Pair], Verdict); 6] = [
    (&[GOOD, GOOD], Verdict::Inquorate),
    (&[GOOD, GOOD, GOOD, GOOD], Verdict::Agreed),
    (&[GOOD, OTHER, GOOD, GOOD], Verdict::Agreed),
    (&[GOOD, GOOD, OTHER, OTHER], Verdict::Split { block: 1 }),
    (&[OTHER, OTHER, GOOD, OTHER], Verdict::Loss { block: 1 }),
    (&[OTHER, OTHER, OTHER, OTHER], Verdict::Loss { block: 1 }),
];

#[test]
fn verdicts(rt: HostRuntime) -> Result<(), Fail> {
    for (at, (votes, want)) in VERDICTS.iter().enumerate() {
        assert!(rt; votes.len() <= MOST_CIRCLE as usize);
        same(&rt, &verdict_on(rt.alloc(), votes)?, want, &at);
    }
    Ok(())
}

fn second_counted<L: Ledger>(blank: Blank, alloc: Global, voted: HashKind) -> Result<Verdict, Fail>
    requires { Opens blank L.name L.parts }
{
    let mut steps = Steps::<L>::open(blank);
    let copy = Single(*b"A");
    let votes = [copy, copy, copy];
    let mut tally = tally_of(alloc, HashKind::Sha512_256, voted, 1, &votes, &mut steps)?;
    Ok(tally.verdict(&copy, &mut steps))
}

fn second_on(alloc: Global, voted: HashKind) -> Result<Verdict, Fail> {
    second_counted::<Brand>(Blank::new(1), alloc, voted)
}

#[test]
fn second_kind(rt: HostRuntime) -> Result<(), Fail> {
    let own = second_on(rt.alloc(), HashKind::Sha512_256)?;
    same(&rt, &own, &Verdict::Agreed, &"own");
    let other = second_on(rt.alloc(), HashKind::Sha256)?;
    same(&rt, &other, &Verdict::Loss { block: 0 }, &"other");
    Ok(())
}

/// The verdict of three votes: a link for each of them at each block whose hashes aren't kept.
fn verdict_linked<L: Ledger>(tally: &mut Tally, copy: &Pair, steps: &mut Steps<L>) -> Verdict
    requires reserved { IsReserved tally.old }
    requires three { length tally.old.votes ≡ 3 }
    requires count { tally.old.ballot.count ≡ 2 }
    requires cache { IsCacheOf tally.old ((65 ∷ []) ∷ copy.now.0 ∷ []) }
    ensures same { IsSame tally.new tally.old }
    ensures reserved { IsReserved tally.new }
    ensures cache { IsCacheOf tally.new ((65 ∷ []) ∷ copy.now.0 ∷ []) }
    ensures links { steps.new ≤ steps.old + 3 * (2 - tally.old.kept) }
{
    tally.verdict(copy, steps)
}

/// What three votes say at the second block once hashes of the first are kept: a link for each.
fn second_linked<L: Ledger>(
    tally: &mut Tally,
    copy: &Pair,
    bytes: &[u8],
    steps: &mut Steps<L>,
) -> At
    requires three { length tally.old.votes ≡ 3 }
    requires count { tally.old.ballot.count ≡ 2 }
    requires kept { 1 ≤ tally.old.kept }
    requires cache { IsCacheOf tally.old ((65 ∷ []) ∷ copy.now.0 ∷ []) }
    ensures same { tally.new ≡ tally.old }
    ensures links { steps.new ≤ steps.old + 3 }
{
    tally.try_block(copy, 1, bytes, steps)
}

/// Puts a second block into the copy.
fn replace(tally: &mut Tally, bytes: [u8; 1], copy: &mut Pair)
    requires cache { IsCacheOf tally.old ((65 ∷ []) ∷ copy.old.0 ∷ []) }
    ensures same { IsSame tally.new tally.old }
    ensures reserved { IsReserved tally.old → IsReserved tally.new }
    ensures cache { IsCacheOf tally.new ((65 ∷ []) ∷ copy.new.0 ∷ []) }
{
    tally.forget_from(1);
    copy.0 = bytes;
}

/// Whether these are the voters against the copy at block `b`.
fn are_against(alloc: Global, tally: &Tally, b: u16, want: &[u16]) -> Result<bool, OutOfMemory> {
    if b >= tally.kept() {
        return Ok(false);
    }
    Ok(tally.against(alloc, b)?.as_slice() == want)
}

/// A call on a tally, and what it is to answer.
#[derive(Clone, Copy)]
enum Call {
    Verdict(Verdict),
    Kept(u16),
    Against(u16, &'static [u16]),
    Second([u8; 1], At),
    Replace([u8; 1]),
}

/// Whether a call answers what it is to.
fn plays<L: Ledger>(
    alloc: Global,
    tally: &mut Tally,
    copy: &mut Pair,
    steps: &mut Steps<L>,
    call: Call,
) -> Result<bool, OutOfMemory>
    requires reserved { IsReserved tally.old }
    requires three { length tally.old.votes ≡ 3 }
    requires count { tally.old.ballot.count ≡ 2 }
    requires cache { IsCacheOf tally.old ((65 ∷ []) ∷ copy.old.0 ∷ []) }
    ensures same { IsSame tally.new tally.old }
    ensures reserved { IsReserved tally.new }
    ensures cache { IsCacheOf tally.new ((65 ∷ []) ∷ copy.new.0 ∷ []) }
{
    Ok(match call {
        Call::Verdict(want) => verdict_linked(tally, copy, steps) == want,
        Call::Kept(want) => tally.kept() == want,
        Call::Against(b, want) => are_against(alloc, tally, b, want)?,
        Call::Second(bytes, want) => {
            tally.kept() >= 1 && second_linked(tally, copy, &bytes, steps) == want
        }
        Call::Replace(bytes) => {
            replace(tally, bytes, copy);
            true
        }
    })
}

const REPAIR: [Call; 8] = [
    Call::Verdict(Verdict::Loss { block: 1 }),
    Call::Kept(2),
    Call::Against(1, &[2, 3, 4]),
    Call::Against(0, &[]),
    Call::Second(*b"D", At::Loss),
    Call::Second(*b"C", At::Win),
    Call::Replace(*b"C"),
    Call::Verdict(Verdict::Agreed),
];

/// Three votes over `41,43`.
fn three_votes<L: Ledger>(alloc: Global, steps: &mut Steps<L>) -> Result<Tally, Fail>
    ensures { IfOk result
        (λ t. (IsReserved t) × (length t.votes ≡ 3) × (t.ballot.count ≡ 2) × (t.kept ≡ 0) × (t.hashes ≡ [])) }
{
    let kind = HashKind::Sha256;
    tally_of(alloc, kind, kind, 2, &[OTHER, OTHER, OTHER], steps)
}

/// Whether a copy of a tally has its votes and keeps as many hashes.
fn is_copied(alloc: Global, tally: &Tally) -> Result<bool, OutOfMemory> {
    let copy = tally.copy(alloc)?;
    Ok(copy.same(tally) && copy.kept() == tally.kept())
}

/// Three votes over `41,43`, on a copy `41,42` whose second block is repaired.
fn repair_counted<L: Ledger, R: Abort>(
    rt: &R,
    blank: Blank,
    alloc: Global,
    calls: &[Call],
) -> Result<(), Fail>
    requires { Opens blank L.name L.parts }
{
    let mut steps = Steps::<L>::open(blank);
    let mut tally = three_votes(alloc, &mut steps)?;
    let mut copy = GOOD;
    for (at, call) in calls.iter().enumerate() {
        assert!(rt;
            plays(alloc, &mut tally, &mut copy, &mut steps, *call)?,
            "{at}"
        );
    }
    assert!(rt; tally.same(&three_votes(alloc, &mut steps)?));
    assert!(rt; is_copied(alloc, &tally)?);
    Ok(())
}

#[test]
fn repair(rt: HostRuntime) -> Result<(), Fail> {
    repair_counted::<Brand, HostRuntime>(&rt, Blank::new(1), rt.alloc(), &REPAIR)
}

fn published(alloc: Global) -> Result<Hashes, OutOfMemory> {
    Ok(Hashes::from_vec(PUBLISHED.to_vec(alloc)?))
}

fn published_votes(alloc: Global) -> Result<Vec<Vote>, OutOfMemory> {
    let hashes = published(alloc)?;
    let mut votes = Vec::with_capacity(alloc, 1)?;
    votes.push_reserved(Vote { voter: 2, hashes });
    Ok(votes)
}

/// Who is for the copy at its second block.
fn holders_counted<L: Ledger>(blank: Blank, alloc: Global, copy: &Pair) -> Result<Ids, OutOfMemory>
    requires { Opens blank L.name L.parts }
{
    let mut steps = Steps::<L>::open(blank);
    let votes = published_votes(alloc)?;
    let ballot = Ballot {
        poll: POLL,
        au: 1,
        kind: HashKind::Sha256,
        nonce: *NONCE,
        count: 2,
    };
    for_of(alloc, &ballot, &votes, copy, 1, &mut steps)
}

fn holders_of(alloc: Global, copy: &Pair) -> Result<Ids, OutOfMemory> {
    holders_counted::<Brand>(Blank::new(1), alloc, copy)
}

#[test]
fn a_published_vote(rt: HostRuntime) -> Result<(), Fail> {
    same(
        &rt,
        &holders_of(rt.alloc(), &GOOD)?.as_slice(),
        &[2].as_slice(),
        &"holders_of",
    );
    same(
        &rt,
        &holders_of(rt.alloc(), &OTHER)?.as_slice(),
        &[].as_slice(),
        &"holders_of",
    );
    Ok(())
}

/// A vote of peer 2, with hashes or without: why it isn't taken.
fn fault_of(
    alloc: Global,
    tally: &mut Tally,
    has_hashes: bool,
) -> Result<Option<VoteFault>, OutOfMemory> {
    let hashes = if has_hashes {
        published(alloc)?
    } else {
        Hashes::from_vec(Vec::new(alloc))
    };
    Ok(tally.add_vote(2, hashes).err())
}

const FAULTS: [(bool, Option<VoteFault>); 3] = [
    (false, Some(VoteFault::Length)),
    (true, None),
    (true, Some(VoteFault::Twice)),
];

#[test]
fn votes_that_are_not_taken(rt: HostRuntime) -> Result<(), Fail> {
    let mut tally = Tally::new(rt.alloc(), &RULES, POLL, 1, HashKind::Sha256, *NONCE, 2);
    for (at, (has_hashes, want)) in FAULTS.iter().enumerate() {
        same(
            &rt,
            &fault_of(rt.alloc(), &mut tally, *has_hashes)?,
            want,
            &at,
        );
    }
    Ok(())
}
