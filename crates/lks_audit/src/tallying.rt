//! The tally of a poll as a job: what leaves the peer, and what becomes of it once it was hashed.

ghost use Rattle.std.specs.Prelude.{◌≡◌, ℕ, List, Some, IfOk, IfSome, All};
ghost use Rattle.std.specs.Bool.{OnTrue};
ghost use Rattle.lks_blocks.specs.Block.{AllOf};
ghost use Rattle.lks_law.specs.Reacting.{tally_in};
ghost use Rattle.lks_audit.specs.Copied.{copies_of, IsOf, HasBlocks};
ghost use Rattle.lks_audit.specs.Kept.{kept_tallied};
ghost use Rattle.lks_audit.specs.Seen.{poll_of, IsOn};
ghost use Rattle.lks_audit.specs.Tallying as tallying;
ghost use Rattle.lks_audit.specs.Tallying.{IsSameTally, IsTallyIn};

use crate::copies::{Copies, refer, version_of};
use crate::stations::Station;
use crate::tallies::tally_held;
use lks_base::{OutOfMemory, Reaction};
use lks_blocks::BlockPool;
use lks_poller::PollSession;
use lks_versions::{PinTag, Place, tag_at};
use lks_work::{TallyDone, TallyJob};
use std::alloc::Global;

fn tag_of(copies: &Copies, places: &[Place], poll: &PollSession) -> PinTag
    ensures { result ≡ tallying.tag_of places.now (copies_of copies.now) (poll_of poll.now) }
{
    let version = version_of(copies.as_slice(), poll.au());
    tag_at(places, poll.au(), version)
}

/// The name of the version on which the votes of a poll may be counted, none where they may not.
pub fn tag_ready(copies: &Copies, places: &[Place], poll: &PollSession) -> Option<PinTag>
    ensures { result ≡ tallying.tag_ready places.now (copies_of copies.now) (Some (poll_of poll.now)) }
{
    if poll.may_tally() {
        Some(tag_of(copies, places, poll))
    } else {
        None
    }
}

/// The tally of a poll as a job, if its votes may be counted.
pub fn job_held(
    alloc: Global,
    own: &Station,
    copies: &Copies,
    places: &[Place],
    poll: &PollSession,
) -> Result<Option<TallyJob>, OutOfMemory>
    requires on { IsOn own.now.id (copies_of copies.now) poll.now }
    ensures job { IfOk result (IsTallyIn own.now places.now (copies_of copies.now) (Some (poll_of poll.now))) }
    ensures kept { IfOk result (λ o. IfSome o (λ j. j.tally.kept ≡ poll.now.tally.kept)) }
    ensures of { IfOk result (λ o. IfSome o (λ j. (pool : List ℕ) → All (IsOf pool) copies.now → AllOf pool j.refs)) }
{
    if !poll.may_tally() {
        return Ok(None);
    }
    let refs = refer(alloc, copies.as_slice(), poll.au())?;
    Ok(Some(TallyJob {
        peer: own.id,
        number: poll.poll().number,
        tag: tag_of(copies, places, poll),
        refs,
        tally: poll.tally()?,
    }))
}

/// Whether a tally that was hashed is of this peer's poll, its votes and the newest version of its copy, and keeps the
/// hashes that a count here would keep.
fn is_same(
    own: &Station,
    pool: &BlockPool,
    copies: &Copies,
    poll: &PollSession,
    done: &TallyDone,
) -> bool
    requires of { All (IsOf pool.now) copies.now }
    requires on { IsOn own.now.id (copies_of copies.now) poll.now }
    requires refs { AllOf pool.now done.now.job.refs }
    ensures { OnTrue result (IsSameTally (copies_of copies.now) poll.now done.now) }
{
    done.job.peer == own.id
        && done.job.number == poll.poll().number
        && poll.is_same(&done.job.tally)
        && done.job.tally.kept() as usize == poll.kept_by(done.verdict)
        && pool.same_blocks(done.job.refs.as_slice(), copies.refs(poll.au()))
}

/// Takes the hashes of a tally, where it is the one that may be counted now.
fn take(own: &Station, pool: &BlockPool, copies: &Copies, poll: &mut PollSession, done: TallyDone)
    requires of { All (IsOf pool.now) copies.now }
    requires on { IsOn own.now.id (copies_of copies.now) poll.old }
    requires refs { AllOf pool.now done.job.refs }
    ensures seen { poll_of poll.new ≡ poll_of poll.old }
    ensures on { IsOn own.now.id (copies_of copies.now) poll.new }
    ensures kept { kept_tallied own.now (copies_of copies.now) (poll_of poll.old) poll.new.tally.kept
        ≡ kept_tallied own.now (copies_of copies.now) (poll_of poll.old) poll.old.tally.kept }
{
    if poll.may_tally() && is_same(own, pool, copies, poll, &done) {
        poll.put_tally(done.job.tally);
    }
}

/// What the rules say about the votes of a poll over the copy that is held, once they were counted elsewhere: what is
/// hashed already isn't hashed again. Where the result isn't of this poll as it is now, they are counted here.
pub fn tally_done(
    alloc: Global,
    own: &Station,
    pool: &BlockPool,
    copies: &Copies,
    tick: u32,
    poll: &mut PollSession,
    done: TallyDone,
) -> Result<Reaction, OutOfMemory>
    requires of { All (IsOf pool.now) copies.now }
    requires counted { All HasBlocks (copies_of copies.now) }
    requires on { IsOn own.now.id (copies_of copies.now) poll.old }
    requires refs { AllOf pool.now done.job.refs }
    ensures reaction { IfOk result (λ r. r ≡ tally_in own.now tick (copies_of copies.now) (poll_of poll.old)) }
    ensures seen { poll_of poll.new ≡ poll_of poll.old }
    ensures on { IsOn own.now.id (copies_of copies.now) poll.new }
    ensures kept { poll.new.tally.kept
        ≡ kept_tallied own.now (copies_of copies.now) (poll_of poll.old) poll.old.tally.kept }
{
    take(own, pool, copies, poll, done);
    tally_held(alloc, own, pool, copies, tick, poll)
}
