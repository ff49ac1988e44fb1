//! What an agreed poll makes of the reference list.

ghost use Rattle.std.specs.Prelude.{◌≡◌, Some, IfOk, OnOk, OnErr, All};
ghost use Rattle.lks_law.specs.Reacting.{verdict_of};
ghost use Rattle.lks_law.specs.State.{leavers, comers, blocks_at, refs_agreed};
ghost use Rattle.lks_law.specs.References.{picked_friends};
ghost use Rattle.lks_audit.specs.Copied.{copies_of, IsOf};
ghost use Rattle.lks_audit.specs.Counted.{IsCountedOn};
ghost use Rattle.lks_audit.specs.Seen.{poll_of, IsOn};
ghost use Rattle.lks_choice.specs.Lists.{list_after};
ghost use Rattle.lks_tally.specs.declared.ballots.Verdict.TheVariants as verdict;

use crate::copies::Copies;
use crate::samples::pick_friends;
use crate::stations::Station;
use crate::tallies::count;
use lks_base::{Contents, Ids, OutOfMemory};
use lks_blocks::BlockPool;
use lks_choice::References;
use lks_poller::PollSession;
use std::alloc::Global;

/// The inner voters against the copy at its last block, whose hashes are kept once the votes were counted.
#[tactic(auto, using(crate::proofs::Counts::leavers_seen))]
fn find_leavers<C: Contents>(
    own: &Station,
    poll: &mut PollSession,
    copy: &C,
) -> Result<Ids, OutOfMemory>
    requires on { IsCountedOn own.now.id (C.blocks copy.now) poll.old }
    requires agreed { verdict_of own.now (poll_of poll.old) (C.blocks copy.now) ≡ verdict.Agreed }
    ensures leavers { IfOk result (λ ids. ids ≡ leavers own.now (poll_of poll.old) (C.blocks copy.now)) }
    ensures on { IsCountedOn own.now.id (C.blocks copy.now) poll.new }
    ensures seen { poll_of poll.new ≡ poll_of poll.old }
{
    let _verdict = count(own, poll, copy);
    let last = poll.count() - 1;
    poll.against(last)
}

/// The outer voters for it there.
#[tactic(auto, using(crate::proofs::Counts::comers_seen))]
fn find_comers<C: Contents>(own: &Station, poll: &PollSession, copy: &C) -> Result<Ids, OutOfMemory>
    requires on { IsCountedOn own.now.id (C.blocks copy.now) poll.now }
    ensures { IfOk result (λ ids. ids ≡ comers own.now (poll_of poll.now) (C.blocks copy.now)) }
{
    poll.outer_for(copy)
}

/// Takes those who were against out of the list, and those who join and who are picked into it.
fn change<C: Contents>(
    alloc: Global,
    own: &Station,
    poll: &mut PollSession,
    copy: &C,
    references: &mut References,
) -> Result<(), OutOfMemory>
    requires on { IsCountedOn own.now.id (C.blocks copy.now) poll.old }
    requires agreed { verdict_of own.now (poll_of poll.old) (C.blocks copy.now) ≡ verdict.Agreed }
    requires owner { references.old.own ≡ own.now.id }
    ensures list { OnOk result
        (references.new.list
        ≡ list_after own.now.id references.old.list (leavers own.now (poll_of poll.old) (C.blocks copy.now))
        (comers own.now (poll_of poll.old) (C.blocks copy.now))
        (picked_friends own.now (poll_of poll.old).number)) }
    ensures owner { references.new.own ≡ references.old.own }
    ensures err { OnErr result (references.new ≡ references.old) }
    ensures on { IsCountedOn own.now.id (C.blocks copy.now) poll.new }
    ensures seen { poll_of poll.new ≡ poll_of poll.old }
{
    let against = find_leavers(own, poll, copy)?;
    let joining = find_comers(own, poll, copy)?;
    let friends = pick_friends(alloc, own, poll.poll().number)?;
    references.after_poll(against.as_slice(), joining.as_slice(), &friends)
}

/// The same over the copy that is held.
#[tactic(auto, using(crate::proofs::Holdings::held_on, crate::proofs::Running::on_still))]
pub fn change_held(
    alloc: Global,
    own: &Station,
    pool: &BlockPool,
    copies: &Copies,
    poll: &mut PollSession,
    references: &mut References,
) -> Result<(), OutOfMemory>
    requires of { All (IsOf pool.now) copies.now }
    requires on { IsOn own.now.id (copies_of copies.now) poll.old }
    requires agreed { verdict_of own.now (poll_of poll.old)
        (blocks_at poll.old.tally.ballot.au (copies_of copies.now))
        ≡ verdict.Agreed }
    requires owner { references.old.own ≡ own.now.id }
    ensures list { OnOk result
        (references.new.list
        ≡ refs_agreed own.now references.old.list (copies_of copies.now) (Some (poll_of poll.old))) }
    ensures owner { references.new.own ≡ references.old.own }
    ensures err { OnErr result (references.new ≡ references.old) }
    ensures on { IsOn own.now.id (copies_of copies.now) poll.new }
    ensures seen { poll_of poll.new ≡ poll_of poll.old }
{
    let copy = copies.read(pool, poll.au());
    change(alloc, own, poll, &copy, references)
}
