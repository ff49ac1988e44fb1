//! All sessions of a peer in polls of others.

ghost use Rattle.std.specs.Prelude.{◌≡◌, ◌≤◌, ◌↔◌, ◌+◌, ℕ, IsTrue, List, true, find, map, option_map, slice_get};
ghost use Rattle.std.specs.Prelude.{length, nat_lt, OnOk, OnErr, if◌then◌else◌};
ghost use Rattle.std.specs.List.{list_any};
ghost use Rattle.std.specs.Option.{option_copied};
ghost use Rattle.lks_base.specs.declared.limits.TheConstants.{MOST_BLOCKS};
ghost use Rattle.lks_base.specs.declared.plans.Rules.{Rules as RulesOf};
ghost use Rattle.lks_base.specs.declared.events.PeerStep.TheVariants as steps;
ghost use Rattle.lks_base.specs.declared.records.Record.TheVariants as record_of;
ghost use Rattle.lks_blocks.specs.Block.{AllOf, bytes_of};
ghost use Rattle.lks_law.specs.Answering as answering;
ghost use Rattle.lks_law.specs.Fitting.{AreWell, marks_left};
ghost use Rattle.lks_law.specs.Journal as journal;
ghost use Rattle.lks_law.specs.Sessions.{is_poll};
ghost use Rattle.lks_law.specs.Taking.{newcomer, voter_after, session_at, pinned_at, cast_at, mark_at};
ghost use Rattle.lks_sessions.specs.Kept.{session_of, pinned_of, cast_of, voter_of, IsOf, StaysOf, StaysSendable};
ghost use Rattle.lks_sessions.specs.Sendable.{IsSendable, MayServe, PinsBlocks};
ghost use Rattle.lks_work.specs.Names.{is_left};
ghost use Rattle.lks_work.specs.declared.jobs.JobName.TheVariants as names;

use crate::marks::{Mark, can_all_grow, count_given, count_received, mark_of};
use crate::moves;
use crate::stages::{
    CastSession, JoinedSession, PinnedSession, find_cast, find_joined, find_pinned,
};
use lks_base::{AuId, HashKind, Hashes, OutOfMemory, PeerId, PeerStep, PollName, Rules};
use lks_blocks::Refs;
use lks_voter::Joined;
use lks_work::JobName;
use std::alloc::Global;
use std::marker::Model;

/// The sessions of a peer in polls of others, those that are over, the votes of each peer, and when a peer of low grade
/// was last let in. Contracts see of them what `lks_law` calls a voter.
#[derive(Drop)]
pub struct Sessions {
    joined: Vec<JoinedSession>,
    pinned: Vec<PinnedSession>,
    cast: Vec<CastSession>,
    ended: Vec<PollName>,
    marks: Vec<Mark>,
    last_low: Option<u32>,
}

impl Model for Sessions {
    ghost use Rattle.lks_sessions.specs.Kept.{Kept};

    ghost Value = { Kept };

    ghost view = { λ s.
        record {
          joined = s.joined.items;
          pinned = s.pinned.items;
          cast = s.cast.items;
          ended = s.ended.items;
          marks = s.marks.items;
          last_low = s.last_low;
        } };
}

fn later(before: Option<u32>, tick: u32) -> Option<u32>
    ensures { result ≡ journal.later before tick }
{
    match before {
        Some(before) => Some(before.max(tick)),
        None => Some(tick),
    }
}

fn low_after(before: Option<u32>, tick: u32, low: bool) -> Option<u32>
    ensures { result ≡ (if low then journal.later before tick else before) }
{
    if low { later(before, tick) } else { before }
}

fn contains(polls: &[PollName], poll: PollName) -> bool
    ensures { result ≡ list_any (λ p. is_poll p poll) polls.now }
{
    polls.iter().any(|p| *p == poll)
}

fn are_few(joined: usize, pinned: usize, cast: usize) -> bool
    ensures { result ≡ nat_lt (joined + pinned + cast) 16 }
{
    joined < 16 && pinned < 16 && cast < 16 && joined + pinned + cast < 16
}

#[tactic(auto, using(crate::proofs::Keyed::work_within, crate::proofs::Keyed::work_past))]
fn ready_among(pinned: &[PinnedSession], id: PeerId, k: u32) -> Option<PeerStep>
    ensures { result ≡ slice_get (map (λ p. steps.Work id p.committed.joined.poll) (map pinned_of pinned.now)) k }
{
    if pinned.len() <= k as usize {
        return None;
    }
    Some(PeerStep::Work {
        peer: id,
        poll: pinned[k as usize].committed.joined().poll(),
    })
}

fn vote_left(pinned: &[PinnedSession], id: PeerId, out: &[JobName]) -> Option<JobName>
    ensures { result
        ≡ find (is_left out.now) (map (λ p. names.Vote id p.committed.joined.poll) (map pinned_of pinned.now)) }
{
    for session in pinned {
        let name = JobName::Vote {
            peer: id,
            poll: session.committed.joined().poll(),
        };
        if name.is_left(out) {
            return Some(name);
        }
    }
    None
}

impl Sessions {
    /// No session yet.
    pub fn new(alloc: Global) -> Sessions
        ensures state { voter_of result ≡ newcomer }
        ensures of { (pool : List ℕ) → IsOf pool result }
        ensures sendable { IsSendable (voter_of result) }
    {
        Sessions {
            joined: Vec::new(alloc),
            pinned: Vec::new(alloc),
            cast: Vec::new(alloc),
            ended: Vec::new(alloc),
            marks: Vec::new(alloc),
            last_low: None,
        }
    }

    /// Joins a poll on an AU at this tick, at which the poller has a low grade or hasn't. It may have so many blocks,
    /// or as many as the rules say.
    #[tactic(auto, using(crate::proofs::Pools::of_same, crate::proofs::Lasting::sends_same))]
    pub fn join(
        &mut self,
        rules: &Rules,
        poll: PollName,
        au: AuId,
        tick: u32,
        low: bool,
        repairs: Option<u16>,
    ) -> Result<(), OutOfMemory>
        ensures state { OnOk result
            ((blocks : ℕ → List (List ℕ))
            → voter_of self.new
            ≡ voter_after rules.now blocks (record_of.Joined poll au tick low repairs) (voter_of self.old)) }
        ensures of { StaysOf self.old self.new }
        ensures sendable { StaysSendable self.old self.new }
        ensures err { OnErr result (self.new ≡ self.old) }
    {
        let session = JoinedSession {
            joined: Joined::new(poll, au, tick, low),
            repairs: repairs.unwrap_or(rules.repairs),
        };
        self.joined.push(session)?;
        self.last_low = low_after(self.last_low, tick, low);
        Ok(())
    }

    /// Commits the joined session of a poll, if there is one, to the version of its AU that has these blocks. It keeps
    /// them.
    pub fn commit(
        &mut self,
        poll: PollName,
        nonce: [u8; 32],
        version: u32,
        kind: HashKind,
        refs: Refs,
    ) -> Result<(), OutOfMemory>
        ensures state { OnOk result
            ((rules : RulesOf) (blocks : ℕ → List (List ℕ))
            → PinsBlocks blocks poll (bytes_of refs) (voter_of self.old).sessions
            → voter_of self.new
            ≡ voter_after rules blocks (record_of.Committed poll nonce version kind) (voter_of self.old)) }
        ensures of { (pool : List ℕ) → AllOf pool refs → IsOf pool self.old → IsOf pool self.new }
        ensures sendable { AreWell (bytes_of refs) → StaysSendable self.old self.new }
        ensures err { OnErr result (self.new ≡ self.old) }
    {
        moves::pin(
            &mut self.joined,
            &mut self.pinned,
            poll,
            nonce,
            version,
            kind,
            refs,
        )
    }

    /// Notes a vote with these hashes in the committed session of a poll, if there is one, and that its poller got one.
    #[tactic(auto, using(crate::proofs::Pools::of_same, crate::proofs::Pools::of_cast, crate::proofs::Lasting::sends_same, crate::proofs::Lasting::sends_cast))]
    pub fn cast(&mut self, alloc: Global, poll: PollName, hashes: Hashes) -> Result<(), OutOfMemory>
        requires { marks_left (voter_of self.old) ≡ true }
        ensures state { OnOk result
            ((rules : RulesOf) (blocks : ℕ → List (List ℕ))
            → voter_of self.new ≡ voter_after rules blocks (record_of.Voted poll hashes) (voter_of self.old)) }
        ensures of { StaysOf self.old self.new }
        ensures sendable { length hashes ≤ MOST_BLOCKS → StaysSendable self.old self.new }
        ensures err { OnErr result (self.new ≡ self.old) }
    {
        self.cast.reserve(1)?;
        count_given(&mut self.marks, poll.poller)?;
        moves::cast(alloc, &mut self.pinned, &mut self.cast, poll, hashes);
        Ok(())
    }

    /// Notes that the voted session of a poll, if there is one, gave the poller a block.
    #[tactic(auto, using(crate::proofs::Pools::of_same, crate::proofs::Pools::of_served, crate::proofs::Lasting::sends_same, crate::proofs::Lasting::sends_served))]
    pub fn serve(&mut self, poll: PollName, block: u16) -> Result<(), OutOfMemory>
        requires { MayServe poll block (voter_of self.old).cast }
        ensures state { OnOk result
            ((rules : RulesOf) (blocks : ℕ → List (List ℕ))
            → voter_of self.new ≡ voter_after rules blocks (record_of.Served poll block) (voter_of self.old)) }
        ensures of { StaysOf self.old self.new }
        ensures sendable { StaysSendable self.old self.new }
        ensures err { OnErr result (self.new ≡ self.old) }
    {
        moves::serve(&mut self.cast, poll, block)
    }

    /// Whether a block of the voted session of a poll may be noted, as one that is new to the poller and that it may
    /// have. Where there is no such session, nothing is noted.
    #[tactic(auto, unfolding(crate::specs::Sendable::MayServe))]
    pub fn may_serve(&self, poll: PollName, block: u16) -> bool
        ensures { IsTrue result ↔ MayServe poll block (voter_of self.now).cast }
    {
        match self.find_cast(poll) {
            Some(session) => session.may_have(block),
            None => true,
        }
    }

    /// Ends the session of a poll, which then stays over.
    #[tactic(auto, using(crate::proofs::Pools::of_same, crate::proofs::Pools::of_moved, crate::proofs::Lasting::sends_same, crate::proofs::Lasting::sends_ended))]
    pub fn end(&mut self, poll: PollName) -> Result<(), OutOfMemory>
        ensures state { OnOk result
            ((rules : RulesOf) (blocks : ℕ → List (List ℕ))
            → voter_of self.new ≡ voter_after rules blocks (record_of.Ended poll) (voter_of self.old)) }
        ensures of { StaysOf self.old self.new }
        ensures sendable { StaysSendable self.old self.new }
        ensures err { OnErr result (self.new ≡ self.old) }
    {
        self.ended.push(poll)?;
        moves::drop_joined(&mut self.joined, poll);
        moves::drop_pinned(&mut self.pinned, poll);
        moves::drop_cast(&mut self.cast, poll);
        Ok(())
    }

    /// Notes a vote of this peer in a poll of our own.
    #[tactic(auto, using(crate::proofs::Pools::of_same, crate::proofs::Lasting::sends_same))]
    pub fn receive(&mut self, voter: PeerId) -> Result<(), OutOfMemory>
        requires { marks_left (voter_of self.old) ≡ true }
        ensures state { OnOk result
            ((rules : RulesOf) (blocks : ℕ → List (List ℕ)) (number : ℕ) (hashes : List (List ℕ))
            → voter_of self.new
            ≡ voter_after rules blocks (record_of.VoteIn number voter hashes) (voter_of self.old)) }
        ensures of { StaysOf self.old self.new }
        ensures sendable { StaysSendable self.old self.new }
        ensures err { OnErr result (self.new ≡ self.old) }
    {
        count_received(&mut self.marks, voter)
    }

    /// Whether one vote more can be counted, of any peer and for any.
    pub fn has_marks_left(&self) -> bool
        ensures { result ≡ marks_left (voter_of self.now) }
    {
        can_all_grow(&self.marks)
    }

    #[tactic(auto, using(crate::proofs::Keyed::session_seen))]
    pub(crate) fn find_joined(&self, poll: PollName) -> Option<&JoinedSession>
        ensures { session_at poll (voter_of self.now).sessions ≡ option_map session_of (option_copied result) }
    {
        find_joined(&self.joined, poll)
    }

    #[tactic(auto, using(crate::proofs::Keyed::pinned_seen))]
    pub(crate) fn find_pinned(&self, poll: PollName) -> Option<&PinnedSession>
        ensures found { option_copied result ≡ find (λ s. is_poll s.committed.joined.poll poll) self.now.pinned }
        ensures seen { pinned_at poll (voter_of self.now).pinned ≡ option_map pinned_of (option_copied result) }
    {
        find_pinned(&self.pinned, poll)
    }

    #[tactic(auto, using(crate::proofs::Keyed::cast_seen))]
    pub(crate) fn find_cast(&self, poll: PollName) -> Option<&CastSession>
        ensures found { option_copied result ≡ find (λ s. is_poll s.voted.committed.joined.poll poll) self.now.cast }
        ensures seen { cast_at poll (voter_of self.now).cast ≡ option_map cast_of (option_copied result) }
    {
        find_cast(&self.cast, poll)
    }

    /// Whether the session of a poll is open.
    #[tactic(auto, unfolding(lks_law::specs::Answering::is_open))]
    pub fn is_open(&self, poll: PollName) -> bool
        ensures { result ≡ answering.is_open poll (voter_of self.now) }
    {
        self.find_joined(poll).is_some()
            || self.find_pinned(poll).is_some()
            || self.find_cast(poll).is_some()
    }

    /// Whether it is over.
    #[tactic(auto, unfolding(lks_law::specs::Answering::was_ended))]
    pub fn was_ended(&self, poll: PollName) -> bool
        ensures { result ≡ answering.was_ended poll (voter_of self.now) }
    {
        contains(&self.ended, poll)
    }

    /// Whether there is room for one more open session.
    #[tactic(auto, unfolding(lks_law::specs::Answering::open_sessions), using(crate::proofs::Keyed::session_count, crate::proofs::Keyed::pinned_count, crate::proofs::Keyed::cast_count))]
    pub fn has_room(&self) -> bool
        ensures { result ≡ nat_lt (answering.open_sessions (voter_of self.now)) 16 }
    {
        are_few(self.joined.len(), self.pinned.len(), self.cast.len())
    }

    pub(crate) fn mark(&self, peer: PeerId) -> Mark
        ensures { result ≡ mark_at peer (voter_of self.now).marks }
    {
        mark_of(&self.marks, peer)
    }

    pub(crate) fn last_low(&self) -> Option<u32>
        ensures { result ≡ (voter_of self.now).last_low }
    {
        self.last_low
    }

    /// The AU of the joined session of a poll, if there is one.
    pub fn au_of(&self, poll: PollName) -> Option<AuId>
        ensures { result ≡ option_map (λ s. s.joined.au) (session_at poll (voter_of self.now).sessions) }
    {
        match self.find_joined(poll) {
            Some(session) => Some(session.joined.au()),
            None => None,
        }
    }

    /// The number of committed sessions that wait for their vote.
    #[tactic(auto, using(crate::proofs::Keyed::pinned_count))]
    pub fn pinned_count(&self) -> usize
        ensures { result ≡ length (voter_of self.now).pinned }
    {
        self.pinned.len()
    }

    /// The vote of number `k` for which this peer is ready, in order of the commitments.
    pub fn ready(&self, id: PeerId, k: u32) -> Option<PeerStep>
        ensures { result ≡ slice_get (map (λ p. steps.Work id p.committed.joined.poll) (voter_of self.now).pinned) k }
    {
        ready_among(&self.pinned, id, k)
    }

    /// The first vote, in order of the commitments, for which this peer is ready and whose job is none of these.
    pub fn vote_left(&self, id: PeerId, out: &[JobName]) -> Option<JobName>
        ensures { result
            ≡ find (is_left out.now) (map (λ p. names.Vote id p.committed.joined.poll) (voter_of self.now).pinned) }
    {
        vote_left(&self.pinned, id, out)
    }
}
