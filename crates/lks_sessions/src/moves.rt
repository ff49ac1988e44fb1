//! How sessions move on from one list to the next.

ghost use Rattle.std.specs.Prelude.{◌≡◌, ◌<◌, ◌↔◌, ◌++◌, IsTrue, ℕ, List, map, vec_len, vec_capacity, OnOk, OnErr, All};
ghost use Rattle.lks_blocks.specs.Block.{AllOf, bytes_of};
ghost use Rattle.lks_law.specs.Firsts.{changed_first, without_first};
ghost use Rattle.lks_law.specs.Fitting.{AreWell, MayHave, IsPinnedWell};
ghost use Rattle.lks_law.specs.Taking.{is_session_of, is_pinned_of, is_cast_of, session_at, pinned_at, pins_of};
ghost use Rattle.lks_law.specs.Taking.{casts_of, serving_block};
ghost use Rattle.lks_sessions.specs.Kept.{session_of, pinned_of, cast_of, IsPinnedOf, IsCastOf};
ghost use Rattle.lks_sessions.specs.Sendable.{PinsBlocks, MayServe};

use crate::stages::{
    CastSession, JoinedSession, PinnedSession, place_of_cast, place_of_joined, place_of_pinned,
};
use lks_base::{HashKind, Hashes, OutOfMemory, PollName};
use lks_blocks::Refs;
use lks_voter::Serve;
use std::alloc::Global;

/// Takes the joined session of this poll out, if there is one.
#[tactic(auto, using(crate::proofs::Keyed::session_gone))]
pub fn drop_joined(joined: &mut Vec<JoinedSession>, poll: PollName)
    ensures { map session_of joined.new.items ≡ without_first (is_session_of poll) (map session_of joined.old.items) }
{
    match place_of_joined(joined.as_slice(), poll) {
        Some(i) => drop(joined.remove(i)),
        None => {}
    }
}

/// Takes the committed session of this poll out.
#[tactic(auto, using(crate::proofs::Keyed::pinned_gone, crate::proofs::Keyed::all_but))]
pub fn drop_pinned(pinned: &mut Vec<PinnedSession>, poll: PollName)
    ensures left { map pinned_of pinned.new.items ≡ without_first (is_pinned_of poll) (map pinned_of pinned.old.items) }
    ensures of { (pool : List ℕ) → All (IsPinnedOf pool) pinned.old.items → All (IsPinnedOf pool) pinned.new.items }
{
    match place_of_pinned(pinned.as_slice(), poll) {
        Some(i) => drop(pinned.remove(i)),
        None => {}
    }
}

/// Takes the voted session of this poll out.
#[tactic(auto, using(crate::proofs::Keyed::cast_gone, crate::proofs::Keyed::all_but))]
pub fn drop_cast(cast: &mut Vec<CastSession>, poll: PollName)
    ensures left { map cast_of cast.new.items ≡ without_first (is_cast_of poll) (map cast_of cast.old.items) }
    ensures of { (pool : List ℕ) → All (IsCastOf pool) cast.old.items → All (IsCastOf pool) cast.new.items }
{
    match place_of_cast(cast.as_slice(), poll) {
        Some(i) => drop(cast.remove(i)),
        None => {}
    }
}

/// Commits the joined session of this poll to a version with these blocks, if there is such a session.
#[tactic(auto, using(crate::proofs::Keyed::session_gone))]
pub fn pin(
    joined: &mut Vec<JoinedSession>,
    pinned: &mut Vec<PinnedSession>,
    poll: PollName,
    nonce: [u8; 32],
    version: u32,
    kind: HashKind,
    refs: Refs,
) -> Result<(), OutOfMemory>
    ensures left { OnOk result
        (map session_of joined.new.items ≡ without_first (is_session_of poll) (map session_of joined.old.items)) }
    ensures pinned { OnOk result
        ((blocks : ℕ → List (List ℕ)) → PinsBlocks blocks poll (bytes_of refs) (map session_of joined.old.items)
        → map pinned_of pinned.new.items
        ≡ map pinned_of pinned.old.items
        ++ pins_of blocks (record { nonce = nonce; version = version; kind = kind })
        (session_at poll (map session_of joined.old.items))) }
    ensures sendable { AreWell (bytes_of refs) → All IsPinnedWell (map pinned_of pinned.old.items)
        → All IsPinnedWell (map pinned_of pinned.new.items) }
    ensures of { (pool : List ℕ) → AllOf pool refs → All (IsPinnedOf pool) pinned.old.items
        → All (IsPinnedOf pool) pinned.new.items }
    ensures err { OnErr result ((joined.new.items ≡ joined.old.items) × (pinned.new.items ≡ pinned.old.items)) }
{
    match place_of_joined(joined.as_slice(), poll) {
        Some(i) => {
            pinned.reserve(1)?;
            let session = joined.remove(i);
            pinned.push_reserved(PinnedSession {
                committed: session.joined.commit(kind, nonce, version),
                repairs: session.repairs,
                refs,
            });
            Ok(())
        }
        None => Ok(()),
    }
}

/// The peer votes in the committed session of this poll, if there is one.
#[tactic(auto, using(crate::proofs::Keyed::pinned_gone))]
pub fn cast(
    alloc: Global,
    pinned: &mut Vec<PinnedSession>,
    cast: &mut Vec<CastSession>,
    poll: PollName,
    hashes: Hashes,
)
    requires room { vec_len cast.old < vec_capacity cast.old }
    ensures left { map pinned_of pinned.new.items ≡ without_first (is_pinned_of poll) (map pinned_of pinned.old.items) }
    ensures cast { map cast_of cast.new.items
        ≡ map cast_of cast.old.items ++ casts_of hashes (pinned_at poll (map pinned_of pinned.old.items)) }
    ensures of { (pool : List ℕ) → All (IsPinnedOf pool) pinned.old.items → All (IsCastOf pool) cast.old.items
        → All (IsPinnedOf pool) pinned.new.items × All (IsCastOf pool) cast.new.items }
{
    match place_of_pinned(pinned.as_slice(), poll) {
        Some(i) => {
            let session = pinned.remove(i);
            cast.push_reserved(CastSession {
                voted: session.committed.vote(alloc, hashes),
                repairs: session.repairs,
                refs: session.refs,
            });
        }
        None => {}
    }
}

impl CastSession {
    /// Whether the block is new to the poller, and it may have one more.
    pub fn may_have(&self, block: u16) -> bool
        ensures { IsTrue result ↔ MayHave block (cast_of self.now) }
    {
        matches!(self.voted.answer(block, self.repairs), Serve::First)
    }

    /// Notes that it gave a block.
    pub fn serve(&mut self, block: u16) -> Result<(), OutOfMemory>
        requires { MayHave block (cast_of self.old) }
        ensures ok { OnOk result (cast_of self.new ≡ serving_block block (cast_of self.old)) }
        ensures refs { self.new.refs ≡ self.old.refs }
        ensures err { OnErr result (self.new ≡ self.old) }
    {
        self.voted.serve(block, self.repairs)?;
        Ok(())
    }
}

/// Notes that the voted session of this poll gave a block.
#[tactic(auto, using(crate::proofs::Keyed::cast_serves))]
pub fn serve(cast: &mut Vec<CastSession>, poll: PollName, block: u16) -> Result<(), OutOfMemory>
    requires { MayServe poll block (map cast_of cast.old.items) }
    ensures served { OnOk result
        (map cast_of cast.new.items
        ≡ changed_first (is_cast_of poll) (serving_block block) (map cast_of cast.old.items)) }
    ensures of { (pool : List ℕ) → All (IsCastOf pool) cast.old.items → All (IsCastOf pool) cast.new.items }
    ensures err { OnErr result (cast.new.items ≡ cast.old.items) }
{
    match place_of_cast(cast.as_slice(), poll) {
        Some(i) => cast[i].serve(block),
        None => Ok(()),
    }
}
