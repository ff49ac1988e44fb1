//! The state of a poll.

ghost use Rattle.std.specs.Prelude.{◌≡◌, ◌==◌, not, ◌<◌, ◌≤◌, ◌↔◌, IsTrue, ℕ, List, [], true, false, length};
ghost use Rattle.std.specs.Prelude.{unwrap_or, option_copied, if◌then◌else◌, IfOk, OnOk, OnErr, IsNone};
ghost use Rattle.std.specs.List.{list_any};
ghost use Rattle.lks_base.specs.Checking.{has_member as is_member};
ghost use Rattle.lks_base.specs.declared.limits.TheConstants.{MOST_CIRCLE};
ghost use Rattle.lks_base.specs.declared.names.Limits.{Limits as LimitsOf};
ghost use Rattle.lks_choice.specs.Asking.{awaited_request};
ghost use Rattle.lks_tally.specs.Counting.{verdict_on, voters_against};
ghost use Rattle.lks_tally.specs.declared.ballots.Ballot.{Ballot as BallotOf};
ghost use Rattle.lks_tally.specs.Running.{has_nominated_in, is_invited_to, is_request, may_nominate, may_prove};
ghost use Rattle.lks_tally.specs.Running.{may_tally, may_vote, may_widen, silent_in, supplied_by};
ghost use Rattle.lks_tally.specs.Keeping.{IsCacheOf, IsReserved, IsSame, hashes_forgotten, kept_after, roomed_as};
ghost use Rattle.lks_poller.specs.Polling as polling;
ghost use Rattle.lks_poller.specs.Polling.{begun_session, nominees_noted, outer_invited, vote_taken, shut_now};
ghost use Rattle.lks_poller.specs.Polling.{voting_ended, moved_on, request_released, block_replaced, answer_taken};
ghost use Rattle.lks_poller.specs.Rules as rules_of;
ghost use Rattle.lks_poller.specs.Rules.{stage_of, next_of, AsksWithin, IsAt, IsKept, answer_of};
ghost use Rattle.lks_poller.specs.Running.{poll_of};
ghost use Rattle.lks_poller.specs.declared.stages.Next.TheVariants as next_is;
ghost use Rattle.lks_poller.specs.Sound.{IsSound};

use crate::counts;
use crate::stages::{Answer, Next, Nomination, Stage};
use lks_base::{
    AuId, Contents, HashKind, Hashes, Ids, Limits, OutOfMemory, Outcome, PeerId, PollName, Rules,
    has_member,
};
use lks_choice::Suppliers;
use lks_tally::{At, Ballot, Tally, Verdict, Vote};
use std::alloc::Global;
use std::marker::{Brand, Model};
use std::sync::ledger::Blank;

/// A poll as its poller runs it.
///
/// [`PollSession::nominate`], [`widen`](PollSession::widen), [`vote`](PollSession::vote), [`shut`](PollSession::shut),
/// [`judge`](PollSession::judge) and [`answer`](PollSession::answer) hold by the rules: where its rule doesn't hold, a
/// call says so and changes nothing. Each is made of calls that only read, by which a caller decides, and of calls that
/// only note what was decided, by which it can also build a session again. Want of memory changes nothing.
#[derive(Drop)]
pub struct PollSession {
    alloc: Global,
    tally: Tally,
    inner: Ids,
    nominations: Vec<Nomination>,
    outer: Option<Ids>,
    outer_votes: Vec<Vote>,
    voters: Vec<PeerId>,
    shut: bool,
    closed: bool,
    suppliers: Suppliers,
}

impl Model for PollSession {
    ghost use Rattle.lks_poller.specs.Polling.{Polled};

    ghost Value = { Polled };

    ghost use Rattle.lks_poller.specs.Shown.{shown_session};
    ghost use Rattle.lks_poller.specs.Sound.{IsSound};

    ghost view = { shown_session };

    ghost invariant = { λ a. IsSound (shown_session a) };
}

impl PollSession {
    /// A poll whose inner circle is invited. The rules have the numbers of this poll; `count` is that of the AU's
    /// blocks.
    pub fn new(
        alloc: Global,
        rules: &Rules,
        poll: PollName,
        au: AuId,
        count: u16,
        kind: HashKind,
        nonce: [u8; 32],
        inner: Ids,
    ) -> Result<PollSession, OutOfMemory>
        requires few { length inner ≤ MOST_CIRCLE }
        requires blocks { 1 ≤ count }
        ensures { let ballot : BallotOf = record { poll = poll; au = au; kind = kind; nonce = nonce; count = count } in
            let limits : LimitsOf = record { quorum = rules.now.quorum; minority = rules.now.minority } in
            IfOk result (λ s. s ≡ begun_session ballot limits inner s.tally.room s.tally.vote_room) }
    {
        let mut tally = Tally::new(alloc, rules, poll, au, kind, nonce, count);
        tally.reserve()?;
        Ok(PollSession {
            alloc,
            tally,
            inner,
            nominations: Vec::new(alloc),
            outer: None,
            outer_votes: Vec::new(alloc),
            voters: Vec::new(alloc),
            shut: false,
            closed: false,
            suppliers: Suppliers::new(alloc),
        })
    }

    /// How far the poll is.
    pub fn stage(&self) -> Stage
        ensures stage { result ≡ stage_of self.now }
        ensures flags { IsAt self.now result }
        ensures sound { IsSound self.now }
    {
        if self.closed {
            Stage::Closed
        } else if self.suppliers.unanswered().is_some() {
            Stage::Asking
        } else if self.shut {
            Stage::Shut
        } else if self.outer.is_some() {
            Stage::Widened
        } else {
            Stage::Inviting
        }
    }

    /// What all votes of the poll are about.
    pub fn ballot(&self) -> &Ballot
        ensures { result.now ≡ self.now.tally.ballot }
    {
        self.tally.ballot()
    }

    /// Who called the poll, and its number among those of that peer.
    pub fn poll(&self) -> PollName
        ensures { result ≡ self.now.tally.ballot.poll }
    {
        self.tally.ballot().poll
    }

    /// The AU that is polled on.
    pub fn au(&self) -> AuId
        ensures { result ≡ self.now.tally.ballot.au }
    {
        self.tally.ballot().au
    }

    /// The hash function of the poll's votes.
    pub fn kind(&self) -> HashKind
        ensures { result ≡ self.now.tally.ballot.kind }
    {
        self.tally.ballot().kind
    }

    /// The nonce that all keys of the poll's votes are made of.
    pub fn nonce(&self) -> &[u8; 32]
        ensures { result.now ≡ self.now.tally.ballot.nonce }
    {
        &self.tally.ballot().nonce
    }

    /// The number of blocks of the AU.
    pub fn count(&self) -> u16
        ensures { result ≡ self.now.tally.ballot.count }
    {
        self.tally.ballot().count
    }

    /// The numbers that decide the poll.
    pub fn limits(&self) -> Limits
        ensures { result ≡ self.now.tally.limits }
    {
        self.tally.limits()
    }

    /// The inner circle.
    pub fn inner(&self) -> &[PeerId]
        ensures { result.now ≡ self.now.inner }
    {
        self.inner.as_slice()
    }

    /// The outer circle, once it is invited.
    pub fn outer(&self) -> Option<&Ids>
        ensures { option_copied result ≡ self.now.outer }
    {
        self.outer.as_ref()
    }

    /// Who nominated whom, in order.
    pub fn nominations(&self) -> &[Nomination]
        ensures { result.now ≡ self.now.nominations }
    {
        &self.nominations
    }

    /// The votes of the inner circle, in their order.
    pub fn inner_votes(&self) -> &[Vote]
        ensures { result.now ≡ self.now.tally.votes }
    {
        self.tally.votes()
    }

    /// The voters of both circles, in order of their votes.
    pub fn voters(&self) -> &[PeerId]
        ensures { result.now ≡ self.now.voters }
    {
        &self.voters
    }

    /// Whether voting ended.
    pub fn is_shut(&self) -> bool
        ensures { result ≡ self.now.shut }
    {
        self.shut
    }

    /// Whether the poll ended.
    pub fn is_closed(&self) -> bool
        ensures { result ≡ self.now.closed }
    {
        self.closed
    }

    /// For how many blocks running hashes are kept.
    pub fn kept(&self) -> u16
        ensures { result ≡ self.now.tally.kept }
    {
        self.tally.kept()
    }

    /// For how many blocks they would be kept once the votes are counted with this verdict.
    pub fn kept_by(&self, v: Verdict) -> usize
        ensures { result ≡ kept_after v self.now.tally.kept self.now.tally.ballot.count }
    {
        match v {
            Verdict::Inquorate => self.tally.kept() as usize,
            Verdict::Agreed => self.tally.ballot().count as usize,
            Verdict::Loss { block } | Verdict::Split { block } => {
                (self.tally.kept() as usize).max(block as usize + 1)
            }
        }
    }

    /// The block and the voter of the request that isn't answered, or `None` where nobody is waited for.
    pub fn unanswered(&self) -> Option<(u16, PeerId)>
        ensures last { result ≡ awaited_request self.now.suppliers }
        ensures none { IsNone result ↔ (self.now.suppliers.waiting ≡ false) }
    {
        self.suppliers.unanswered()
    }

    /// Whether there are fewer inner votes than the quorum.
    pub fn is_inquorate(&self) -> bool
        ensures { result ≡ polling.is_inquorate self.now }
    {
        self.tally.votes().len() < self.tally.limits().quorum as usize
    }

    /// Whether the outer circle may be invited: once, while votes are open.
    pub fn may_widen(&self) -> bool
        ensures { result ≡ may_widen (poll_of self.now) }
    {
        !self.shut && self.outer.is_none()
    }

    /// Whether this peer may nominate: an inner one, once, until the outer circle is invited.
    pub fn may_nominate(&self, from: PeerId) -> bool
        ensures { result ≡ may_nominate (poll_of self.now) from }
    {
        self.may_widen() && has_member(self.inner.as_slice(), from) && !self.has_nominated(from)
    }

    fn has_nominated(&self, from: PeerId) -> bool
        ensures { result ≡ has_nominated_in (poll_of self.now) from }
    {
        names(self.nominations(), from)
    }

    /// Whether this peer is of one of the circles that are invited.
    #[tactic(auto, unfolding(lks_tally::specs::Running::is_invited_to))]
    pub fn is_invited(&self, voter: PeerId) -> bool
        ensures { result ≡ is_invited_to (poll_of self.now) voter }
    {
        has_member(self.inner.as_slice(), voter) || has_member(members(&self.outer), voter)
    }

    /// Whether this peer voted.
    pub fn has_voted(&self, voter: PeerId) -> bool
        ensures { result ≡ is_member self.now.voters voter }
    {
        has_member(&self.voters, voter)
    }

    /// Whether this peer may have the proof of effort: an invited one, until its vote is in, while votes are open.
    pub fn may_prove(&self, from: PeerId) -> bool
        ensures { result ≡ may_prove (poll_of self.now) from }
    {
        !self.shut && self.is_invited(from) && !self.has_voted(from)
    }

    /// Whether this peer may vote with so many hashes: an invited one, once, while votes are open, with one for each
    /// block.
    pub fn may_vote(&self, from: PeerId, hashes: usize) -> bool
        ensures { result ≡ may_vote (poll_of self.now) from hashes self.now.tally.ballot.count }
    {
        self.may_prove(from) && hashes == self.tally.ballot().count as usize
    }

    /// The invited peers that haven't voted: of the inner circle, then of the outer one.
    #[tactic(auto, unfolding(lks_tally::specs::Running::silent_in))]
    pub fn silent(&self) -> Result<Ids, OutOfMemory>
        ensures { IfOk result (λ ids. ids ≡ silent_in (poll_of self.now)) }
    {
        let mut peers = self.inner.as_slice().to_vec(self.alloc)?;
        peers.extend_from_slice(members(&self.outer))?;
        peers.retain(|v| !self.has_voted(*v));
        Ok(Ids::from_vec(peers))
    }

    /// Whether the votes may be counted: once voting ended, while nobody is waited for.
    pub fn may_tally(&self) -> bool
        ensures { result ≡ may_tally (poll_of self.now) }
    {
        self.shut && self.unanswered().is_none()
    }

    /// Notes that a peer nominated these.
    pub fn nominated(&mut self, voter: PeerId, nominees: Ids) -> Result<(), OutOfMemory>
        ensures ok { OnOk result (self.new ≡ nominees_noted self.old voter nominees) }
        ensures err { OnErr result (self.new ≡ self.old) }
    {
        self.nominations.push(Nomination { voter, nominees })?;
        Ok(())
    }

    /// Notes that the outer circle is invited. The one that was invited first stays.
    pub fn widened(&mut self, outer: Ids)
        ensures { self.new ≡ outer_invited self.old outer }
    {
        if self.outer.is_none() {
            self.outer = Some(outer);
        }
    }

    /// Notes the vote of a peer that hasn't voted: that of an inner one is counted, any other is kept beside.
    pub fn voted(&mut self, voter: PeerId, hashes: Hashes) -> Result<(), OutOfMemory>
        requires new { is_member self.old.voters voter ≡ false }
        requires whole { length hashes ≡ self.old.tally.ballot.count }
        ensures ok { OnOk result (self.new ≡ vote_taken self.old voter hashes) }
        ensures err { OnErr result (self.new ≡ self.old) }
    {
        if has_member(self.inner.as_slice(), voter) {
            counts::add_inner(&mut self.tally, &mut self.voters, voter, hashes)?;
            Ok(())
        } else {
            counts::add_outer(&mut self.outer_votes, &mut self.voters, voter, hashes)?;
            Ok(())
        }
    }

    /// Notes that voting ended.
    pub fn shut_now(&mut self)
        ensures { self.new ≡ shut_now self.old }
    {
        self.shut = true;
    }

    /// Notes that the poll ended, after voting did.
    pub fn closed(&mut self)
        requires { self.old.shut ≡ true }
        ensures { self.new ≡ polling.session_closed self.old }
    {
        self.closed = true;
    }

    /// Notes that a voter was asked for a block, and is waited for.
    pub fn asked(&mut self, block: u16, voter: PeerId) -> Result<(), OutOfMemory>
        requires ended { self.old.shut ≡ true }
        requires idle { self.old.suppliers.waiting ≡ false }
        requires within { block < self.old.tally.ballot.count }
        ensures ok { OnOk result (self.new ≡ polling.supplier_asked self.old block voter) }
        ensures err { OnErr result (self.new ≡ self.old) }
    {
        self.suppliers.asked(block, voter)
    }

    /// Notes that nobody is waited for any more.
    pub fn answered(&mut self)
        ensures { self.new ≡ request_released self.old }
    {
        self.suppliers.answered();
    }

    /// Forgets the running hashes from block `b` on, as the copy changed there.
    pub fn forget_from(&mut self, b: u16)
        ensures { self.new ≡ record self.old { tally = hashes_forgotten b self.old.tally } }
    {
        self.tally.forget_from(b);
    }

    /// Notes that block `b` of the copy was replaced by the one that was waited for.
    pub fn replaced(&mut self, b: u16)
        ensures { self.new ≡ block_replaced self.old b }
    {
        self.answered();
        self.forget_from(b);
    }

    /// Takes an inner peer's nomination, its first one.
    pub fn nominate(&mut self, from: PeerId, list: Ids) -> Result<bool, OutOfMemory>
        ensures taken { IfOk result (λ taken. taken ≡ may_nominate (poll_of self.old) from) }
        ensures after { IfOk result
            (λ taken. self.new ≡ (if taken then nominees_noted self.old from list else self.old)) }
        ensures err { OnErr result (self.new ≡ self.old) }
    {
        if !self.may_nominate(from) {
            return Ok(false);
        }
        self.nominated(from, list)?;
        Ok(true)
    }

    /// Invites the outer circle.
    pub fn widen(&mut self, outer: Ids) -> bool
        ensures taken { result ≡ may_widen (poll_of self.old) }
        ensures after { self.new ≡ (if result then outer_invited self.old outer else self.old) }
    {
        if !self.may_widen() {
            return false;
        }
        self.widened(outer);
        true
    }

    /// Takes the vote of an invited peer, its first one.
    #[tactic(auto, using(crate::proofs::Soundness::vote_new, crate::proofs::Soundness::vote_whole))]
    pub fn vote(&mut self, from: PeerId, hashes: Hashes) -> Result<bool, OutOfMemory>
        ensures taken { IfOk result
            (λ taken. taken ≡ may_vote (poll_of self.old) from (length hashes) self.old.tally.ballot.count) }
        ensures after { IfOk result
            (λ taken. self.new ≡ (if taken then vote_taken self.old from hashes else self.old)) }
        ensures err { OnErr result (self.new ≡ self.old) }
    {
        if !self.may_vote(from, hashes.as_slice().len()) {
            return Ok(false);
        }
        self.voted(from, hashes)?;
        Ok(true)
    }

    /// Ends voting. A poll with fewer inner votes than its quorum ends with it, as inquorate.
    pub fn shut(&mut self) -> bool
        ensures taken { result ≡ not self.old.shut }
        ensures after { self.new ≡ (if result then voting_ended self.old else self.old) }
    {
        if self.shut {
            return false;
        }
        self.shut_now();
        self.closed = self.is_inquorate();
        true
    }

    /// The verdict of the inner votes on a copy. Running hashes are kept for the verdict after a repair.
    pub fn verdict<C: Contents>(&mut self, c: &C) -> Verdict
        requires count { length (C.blocks c.now) ≡ self.old.tally.ballot.count }
        requires cache { IsCacheOf self.old.tally (C.blocks c.now) }
        ensures verdict { let t = self.old.tally in
            result ≡ verdict_on t.limits.quorum t.limits.minority t.ballot t.votes (C.blocks c.now) }
        ensures rest { self.new ≡ record self.old { tally = self.new.tally } }
        ensures same { IsSame self.new.tally self.old.tally }
        ensures kept { self.new.tally.kept ≡ kept_after result self.old.tally.kept self.old.tally.ballot.count }
        ensures within { self.new.tally.kept ≤ self.old.tally.ballot.count }
        ensures lost { IsKept result self.new.tally.kept }
        ensures cache { IsCacheOf self.new.tally (C.blocks c.now) }
    {
        counts::verdict_counted::<C, Brand>(&mut self.tally, c, Blank::new(1))
    }

    /// The outer voters that are for a copy at its last block, in order of their votes.
    pub fn outer_for<C: Contents>(&self, c: &C) -> Result<Ids, OutOfMemory>
        requires { length (C.blocks c.now) ≡ self.now.tally.ballot.count }
        ensures { IfOk result (λ ids. ids ≡ rules_of.outer_for self.now (C.blocks c.now)) }
    {
        // Without votes no block has to be read.
        if self.outer_votes.is_empty() {
            return Ok(Ids::from_vec(Vec::new(self.alloc)));
        }
        counts::for_counted::<C, Brand>(
            self.alloc,
            self.tally.ballot(),
            &self.outer_votes,
            c,
            self.tally.ballot().count - 1,
            Blank::new(1),
        )
    }

    /// The inner voters against the copy of the last verdict at block `b`, in order of their votes.
    pub fn against(&self, b: u16) -> Result<Ids, OutOfMemory>
        requires { b < self.now.tally.kept }
        ensures { (blocks : List (List ℕ)) → IsCacheOf self.now.tally blocks
            → IfOk result (λ ids. ids ≡ voters_against self.now.tally.ballot self.now.tally.votes blocks b) }
    {
        self.tally.against(self.alloc, b)
    }

    /// A reserved copy of the session's tally, with the running hashes of its last verdict.
    pub fn tally(&self) -> Result<Tally, OutOfMemory>
        ensures same { IfOk result (λ t. t ≡ roomed_as t self.now.tally) }
        ensures reserved { IfOk result (λ t. IsReserved t) }
        ensures few { length self.now.tally.votes ≤ MOST_CIRCLE }
    {
        self.tally.copy(self.alloc)
    }

    /// Whether a tally is of the same poll as the session's, with the same AU, kind of hash, nonce, count, numbers and
    /// votes.
    pub fn is_same(&self, t: &Tally) -> bool
        ensures { IsTrue result ↔ IsSame t.now self.now.tally }
    {
        t.same(&self.tally)
    }

    /// Puts a tally of the same votes in the place of the session's.
    #[tactic(auto, using(crate::proofs::Soundness::sound_tally))]
    pub fn put_tally(&mut self, t: Tally)
        requires reserved { IsReserved t }
        requires same { IsSame t self.old.tally }
        ensures { self.new ≡ record self.old { tally = t } }
    {
        self.tally = t;
    }

    #[tactic(auto, using(crate::proofs::Running::supplier_seen))]
    fn find_supplier(&self, block: u16) -> Result<Option<PeerId>, OutOfMemory>
        requires { block < self.now.tally.kept }
        ensures { (blocks : List (List ℕ)) → IsCacheOf self.now.tally blocks
            → IfOk result (λ found. found ≡ rules_of.candidate self.now blocks block) }
    {
        let against = self.against(block)?;
        Ok(self.suppliers.next(block, against.as_slice()))
    }

    /// What follows from the last verdict on a copy: the poll ends, or a voter against the block at which the copy lost
    /// is asked for it.
    pub fn next_of(&self, v: Verdict) -> Result<Next, OutOfMemory>
        requires { IsKept v self.now.tally.kept }
        ensures next { (blocks : List (List ℕ)) → IsCacheOf self.now.tally blocks
            → IfOk result (λ next. next ≡ next_of self.now v blocks) }
        ensures within { IfOk result (AsksWithin self.now.tally.ballot.count) }
    {
        // Its clause says that no more blocks are kept than the copy has.
        let _kept = self.tally.kept();
        match v {
            Verdict::Inquorate => Ok(Next::Close(Outcome::Inquorate)),
            Verdict::Agreed => Ok(Next::Close(Outcome::Agreed)),
            Verdict::Split { block } => Ok(Next::Close(Outcome::Split { block })),
            Verdict::Loss { block } => Ok(asking(block, self.find_supplier(block)?)),
        }
    }

    /// Does what follows from the last verdict on a copy, once voting ended and while nobody is waited for.
    pub fn judge(&mut self, v: Verdict) -> Result<Next, OutOfMemory>
        requires ended { self.old.shut ≡ true }
        requires running { self.old.closed ≡ false }
        requires idle { self.old.suppliers.waiting ≡ false }
        requires kept { IsKept v self.old.tally.kept }
        ensures next { (blocks : List (List ℕ)) → IsCacheOf self.old.tally blocks
            → IfOk result (λ next. next ≡ next_of self.old v blocks) }
        ensures after { IfOk result (λ next. self.new ≡ moved_on self.old next) }
        ensures err { OnErr result (self.new ≡ self.old) }
    {
        let next = self.next_of(v)?;
        match next {
            Next::Close(_) => self.closed(),
            Next::Ask { block, voter } => self.asked(block, voter)?,
        }
        Ok(next)
    }

    fn is_asked(&self, from: PeerId, b: u16) -> bool
        ensures asked { result ≡ is_request b from (poll_of self.now).request }
        ensures within { result ≡ true → b < self.now.tally.ballot.count }
    {
        match self.suppliers.unanswered() {
            Some((block, voter)) => block == b && voter == from,
            None => false,
        }
    }

    /// What is to become of a block that a peer sent.
    pub fn answer_of<C: Contents>(&mut self, from: PeerId, b: u16, bytes: &[u8], c: &C) -> Answer
        requires count { length (C.blocks c.now) ≡ self.old.tally.ballot.count }
        requires cache { IsCacheOf self.old.tally (C.blocks c.now) }
        ensures answer { result ≡ answer_of self.old from b bytes.now (C.blocks c.now) }
        ensures same { self.new ≡ self.old }
    {
        if !self.is_asked(from, b) {
            return Answer::NotAsked;
        }
        match counts::at_counted::<C, Brand>(&mut self.tally, c, b, bytes, Blank::new(1)) {
            At::Win => Answer::Replace,
            At::Loss | At::Split => Answer::Bad,
        }
    }

    /// Does what becomes of a block that a peer sent. The caller puts it in at `Replace`: the session has forgotten its
    /// running hashes from there on.
    pub fn answer<C: Contents>(&mut self, from: PeerId, b: u16, bytes: &[u8], c: &C) -> Answer
        requires count { length (C.blocks c.now) ≡ self.old.tally.ballot.count }
        requires cache { IsCacheOf self.old.tally (C.blocks c.now) }
        ensures answer { result ≡ answer_of self.old from b bytes.now (C.blocks c.now) }
        ensures after { self.new ≡ answer_taken self.old b result }
    {
        let answer = self.answer_of(from, b, bytes, c);
        match answer {
            Answer::Replace => self.replaced(b),
            Answer::Bad => self.answered(),
            Answer::NotAsked => {}
        }
        answer
    }

    /// Ends the waiting for the block and the voter that it gives.
    pub fn give_up(&mut self) -> Option<(u16, PeerId)>
        ensures last { result ≡ awaited_request self.old.suppliers }
        ensures none { IsNone result ↔ (self.old.suppliers.waiting ≡ false) }
        ensures after { self.new ≡ request_released self.old }
    {
        let request = self.unanswered();
        self.answered();
        request
    }
}

// A voter is asked for the block, or without one the poll ends.
fn asking(block: u16, voter: Option<PeerId>) -> Next
    ensures { result ≡ supplied_by next_is.Close next_is.Ask block voter }
{
    match voter {
        Some(voter) => Next::Ask { block, voter },
        None => Next::Close(Outcome::NoSupplier { block }),
    }
}

// Whether one of the nominations is of this peer.
fn names(nominations: &[Nomination], from: PeerId) -> bool
    ensures { result ≡ list_any (λ n. n.voter == from) nominations.now }
{
    nominations.iter().any(|n| n.voter == from)
}

fn members(circle: &Option<Ids>) -> &[PeerId]
    ensures { result.now ≡ unwrap_or circle.now [] }
{
    match circle {
        Some(peers) => peers.as_slice(),
        None => &[],
    }
}
