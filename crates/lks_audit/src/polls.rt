//! The polls of a peer that run.

ghost use Rattle.std.specs.Prelude.{◌≡◌, ◌==◌, ◌++◌, ◌∷◌, [], ℕ, List, None, Some, false, true, length, map};
ghost use Rattle.std.specs.Prelude.{option_map, find, OnOk, OnErr, IfOk, IfSome, All};
ghost use Rattle.std.specs.List.{position};
ghost use Rattle.std.specs.Option.{option_copied};
ghost use Rattle.lks_blocks.specs.Block.{AllOf};
ghost use Rattle.lks_law.specs.State.{Copy, poll_at, refs_agreed, changed_poll, without_poll, nominated_by};
ghost use Rattle.lks_law.specs.State.{widened_to, voted_by, shut_now, request_sent, request_answered};
ghost use Rattle.lks_law.specs.Reacting.{for_poll, tally_in, repair_in};
ghost use Rattle.lks_law.specs.Turning.{has_inner_of};
ghost use Rattle.lks_audit.specs.Copied.{copies_of, IsOf, HasBlocks};
ghost use Rattle.lks_audit.specs.Kept.{kept_of, kept_at, kept_voted, kept_by_tally, without_kept};
ghost use Rattle.lks_audit.specs.Seen.{poll_of, polls_of, AreAgreed, MayVote, MayAsk, IsOn, RunsOn, forgetting};
ghost use Rattle.lks_audit.specs.Tallying.{IsTallyIn};

use crate::copies::Copies;
use crate::lists::change_held;
use crate::reactions::no_reaction;
use crate::stations::Station;
use crate::tallies::{SentBlock, repair_held, tally_held};
use crate::tallying::{job_held, tally_done};
use lks_base::{AuId, Hashes, Ids, OutOfMemory, PeerId, Reaction};
use lks_blocks::BlockPool;
use lks_choice::References;
use lks_poller::PollSession;
use lks_versions::Place;
use lks_work::{TallyDone, TallyJob};
use std::alloc::Global;
use std::marker::Model;

fn find(polls: &[PollSession], number: u32) -> Option<&PollSession>
    ensures { option_copied result ≡ find (λ s. s.tally.ballot.poll.number == number) polls.now }
{
    polls.iter().find(|s| s.poll().number == number)
}

/// The running poll of this number, if one runs.
#[tactic(auto, using(crate::proofs::Sessions::poll_seen, crate::proofs::Keeping::kept_seen))]
pub fn find_poll(polls: &[PollSession], number: u32) -> Option<&PollSession>
    ensures seen { poll_at number (polls_of polls.now) ≡ option_map poll_of (option_copied result) }
    ensures kept { kept_at number (kept_of polls.now) ≡ option_map (λ s. s.tally.kept) (option_copied result) }
    ensures on { (id : ℕ) (copies : List Copy) → All (IsOn id copies) polls.now
        → IfSome (option_copied result) (IsOn id copies) }
{
    find(polls, number)
}

fn find_place(polls: &[PollSession], number: u32) -> Option<usize>
    ensures { result ≡ position (λ s. s.tally.ballot.poll.number == number) polls.now }
{
    polls.iter().position(|s| s.poll().number == number)
}

/// The running polls of a peer, in order of their openings. Contracts see them as a list.
#[derive(Drop)]
pub struct Polls {
    list: Vec<PollSession>,
}

impl Model for Polls {
    ghost use Rattle.std.specs.Prelude.{List};
    ghost use Rattle.lks_poller.specs.Polling.{Polled};

    ghost Value = { List Polled };

    ghost view = { λ p. p.list.items };
}

impl Polls {
    /// No poll.
    pub fn new(alloc: Global) -> Polls
        ensures { result ≡ [] }
    {
        Polls {
            list: Vec::new(alloc),
        }
    }

    /// The running polls, in order of their openings.
    pub fn as_slice(&self) -> &[PollSession]
        ensures { result.now ≡ self.now }
    {
        &self.list
    }

    /// Takes a poll that was opened just now.
    pub fn push(&mut self, poll: PollSession) -> Result<(), OutOfMemory>
        ensures ok { OnOk result (self.new ≡ self.old ++ poll ∷ []) }
        ensures err { OnErr result (self.new ≡ self.old) }
    {
        self.list.push(poll)?;
        Ok(())
    }

    fn place(&self, number: u32) -> Option<usize>
        ensures { result ≡ position (λ s. s.tally.ballot.poll.number == number) self.now }
    {
        find_place(&self.list, number)
    }

    /// What the rules say about the votes of the poll of this number, over the copy that is held.
    #[tactic(auto, using(crate::proofs::Sessions::found_poll, crate::proofs::Sessions::no_poll, crate::proofs::Sessions::seen_still, crate::proofs::Running::on_place, crate::proofs::Running::on_set, crate::proofs::Keeping::kept_counted, crate::proofs::Keeping::kept_uncounted))]
    pub fn tally(
        &mut self,
        alloc: Global,
        own: &Station,
        pool: &BlockPool,
        copies: &Copies,
        tick: u32,
        number: u32,
    ) -> Result<Reaction, OutOfMemory>
        requires of { All (IsOf pool.now) copies.now }
        requires counted { All HasBlocks (copies_of copies.now) }
        requires on { All (IsOn own.now.id (copies_of copies.now)) self.old }
        ensures reaction { IfOk result
            (λ r. r
            ≡ for_poll (poll_at number (polls_of self.old)) (tally_in own.now tick (copies_of copies.now))) }
        ensures seen { polls_of self.new ≡ polls_of self.old }
        ensures on { All (IsOn own.now.id (copies_of copies.now)) self.new }
        ensures kept { kept_of self.new
            ≡ kept_by_tally own.now (copies_of copies.now) number (poll_at number (polls_of self.old))
            (kept_of self.old) }
    {
        match self.place(number) {
            Some(i) => tally_held(alloc, own, pool, copies, tick, &mut self.list[i]),
            None => Ok(no_reaction(alloc)),
        }
    }

    /// The tally of the poll of this number as a job, if the poll runs and its votes may be counted.
    #[tactic(auto, using(crate::proofs::Sessions::found_poll, crate::proofs::Sessions::no_poll, crate::proofs::Running::on_place, crate::proofs::Keeping::kept_found))]
    pub fn job(
        &self,
        alloc: Global,
        own: &Station,
        copies: &Copies,
        places: &[Place],
        number: u32,
    ) -> Result<Option<TallyJob>, OutOfMemory>
        requires on { All (IsOn own.now.id (copies_of copies.now)) self.now }
        ensures job { IfOk result
            (IsTallyIn own.now places.now (copies_of copies.now) (poll_at number (polls_of self.now))) }
        ensures kept { IfOk result (λ o. IfSome o (λ j. Some j.tally.kept ≡ kept_at number (kept_of self.now))) }
        ensures of { IfOk result
            (λ o. IfSome o (λ j. (pool : List ℕ) → All (IsOf pool) copies.now → AllOf pool j.refs)) }
    {
        match self.place(number) {
            Some(i) => job_held(alloc, own, copies, places, &self.list[i]),
            None => Ok(None),
        }
    }

    /// What the rules say about the votes of a poll, over the copy that is held, once they were counted elsewhere.
    #[tactic(auto, using(crate::proofs::Sessions::found_poll, crate::proofs::Sessions::no_poll, crate::proofs::Sessions::seen_still, crate::proofs::Running::on_place, crate::proofs::Running::on_set, crate::proofs::Keeping::kept_counted, crate::proofs::Keeping::kept_uncounted))]
    pub fn accept(
        &mut self,
        alloc: Global,
        own: &Station,
        pool: &BlockPool,
        copies: &Copies,
        tick: u32,
        done: TallyDone,
    ) -> Result<Reaction, OutOfMemory>
        requires of { All (IsOf pool.now) copies.now }
        requires counted { All HasBlocks (copies_of copies.now) }
        requires on { All (IsOn own.now.id (copies_of copies.now)) self.old }
        requires refs { AllOf pool.now done.job.refs }
        ensures reaction { IfOk result
            (λ r. r
            ≡ for_poll (poll_at done.job.number (polls_of self.old))
            (tally_in own.now tick (copies_of copies.now))) }
        ensures seen { polls_of self.new ≡ polls_of self.old }
        ensures on { All (IsOn own.now.id (copies_of copies.now)) self.new }
        ensures kept { kept_of self.new
            ≡ kept_by_tally own.now (copies_of copies.now) done.job.number
            (poll_at done.job.number (polls_of self.old)) (kept_of self.old) }
    {
        match self.place(done.job.number) {
            Some(i) => tally_done(alloc, own, pool, copies, tick, &mut self.list[i], done),
            None => Ok(no_reaction(alloc)),
        }
    }

    /// What they say about a block that came for it.
    #[tactic(auto, using(crate::proofs::Sessions::found_poll, crate::proofs::Sessions::no_poll, crate::proofs::Sessions::same_still, crate::proofs::Running::on_place))]
    pub fn repair(
        &mut self,
        alloc: Global,
        own: &Station,
        pool: &BlockPool,
        copies: &Copies,
        number: u32,
        sent: &SentBlock<'_>,
    ) -> Result<Reaction, OutOfMemory>
        requires of { All (IsOf pool.now) copies.now }
        requires on { All (IsOn own.now.id (copies_of copies.now)) self.old }
        ensures reaction { IfOk result
            (λ r. r
            ≡ for_poll (poll_at number (polls_of self.old))
            (repair_in own.now sent.now.from sent.now.block sent.now.bytes.now (copies_of copies.now))) }
        ensures same { self.new ≡ self.old }
    {
        match self.place(number) {
            Some(i) => repair_held(alloc, own, pool, copies, &mut self.list[i], sent),
            None => Ok(no_reaction(alloc)),
        }
    }

    /// What the poll of this number, which is agreed, makes of the reference list, if it runs; and the AU that it was
    /// on.
    #[tactic(auto, using(crate::proofs::Sessions::found_poll, crate::proofs::Sessions::no_poll, crate::proofs::Sessions::seen_still, crate::proofs::Running::on_place, crate::proofs::Running::on_set, crate::proofs::Sessions::agreed_at_place, crate::proofs::Keeping::kept_agreed))]
    pub fn agree(
        &mut self,
        alloc: Global,
        own: &Station,
        pool: &BlockPool,
        copies: &Copies,
        references: &mut References,
        number: u32,
    ) -> Result<Option<AuId>, OutOfMemory>
        requires of { All (IsOf pool.now) copies.now }
        requires on { All (IsOn own.now.id (copies_of copies.now)) self.old }
        requires agreed { AreAgreed own.now number (copies_of copies.now) (polls_of self.old) }
        requires owner { references.old.own ≡ own.now.id }
        ensures au { IfOk result (λ au. au ≡ option_map (λ p. p.opening.au) (poll_at number (polls_of self.old))) }
        ensures list { OnOk result
            (references.new.list
            ≡ refs_agreed own.now references.old.list (copies_of copies.now)
            (poll_at number (polls_of self.old))) }
        ensures owner { references.new.own ≡ references.old.own }
        ensures err { OnErr result (references.new ≡ references.old) }
        ensures seen { polls_of self.new ≡ polls_of self.old }
        ensures on { All (IsOn own.now.id (copies_of copies.now)) self.new }
        ensures kept { without_kept number (kept_of self.new) ≡ without_kept number (kept_of self.old) }
    {
        match self.place(number) {
            Some(i) => {
                let poll = &mut self.list[i];
                change_held(alloc, own, pool, copies, poll, references)?;
                Ok(Some(poll.au()))
            }
            None => Ok(None),
        }
    }

    /// Notes a nomination.
    #[tactic(auto, using(crate::proofs::Running::on_nominated, crate::proofs::Sessions::put_nominated, crate::proofs::Sessions::put_nothing, crate::proofs::Running::on_none, crate::proofs::Keeping::kept_still))]
    pub fn nominate(&mut self, number: u32, voter: PeerId, nominees: Ids) -> Result<(), OutOfMemory>
        ensures seen { OnOk result
            (polls_of self.new ≡ changed_poll number (nominated_by voter nominees) (polls_of self.old)) }
        ensures on { OnOk result (RunsOn self.old self.new) }
        ensures err { OnErr result (self.new ≡ self.old) }
        ensures kept { OnOk result (kept_of self.new ≡ kept_of self.old) }
    {
        match self.place(number) {
            Some(i) => self.list[i].nominated(voter, nominees),
            None => Ok(()),
        }
    }

    /// Notes that the outer circle was invited.
    #[tactic(auto, using(crate::proofs::Running::on_widened, crate::proofs::Sessions::put_widened, crate::proofs::Sessions::put_nothing, crate::proofs::Running::on_none, crate::proofs::Keeping::kept_still))]
    pub fn widen(&mut self, number: u32, outer: Ids)
        ensures seen { polls_of self.new ≡ changed_poll number (widened_to outer) (polls_of self.old) }
        ensures on { RunsOn self.old self.new }
        ensures kept { kept_of self.new ≡ kept_of self.old }
    {
        if let Some(i) = self.place(number) {
            self.list[i].widened(outer);
        }
    }

    /// Notes that voting ended.
    #[tactic(auto, using(crate::proofs::Running::on_shut, crate::proofs::Sessions::put_shut, crate::proofs::Sessions::put_nothing, crate::proofs::Running::on_none, crate::proofs::Keeping::kept_still))]
    pub fn shut(&mut self, number: u32)
        ensures seen { polls_of self.new ≡ changed_poll number shut_now (polls_of self.old) }
        ensures on { RunsOn self.old self.new }
        ensures kept { kept_of self.new ≡ kept_of self.old }
    {
        if let Some(i) = self.place(number) {
            self.list[i].shut_now();
        }
    }

    /// Notes that a request was answered, or given up.
    #[tactic(auto, using(crate::proofs::Running::on_answered, crate::proofs::Sessions::put_answered, crate::proofs::Sessions::put_nothing, crate::proofs::Running::on_none, crate::proofs::Keeping::kept_still))]
    pub fn answer(&mut self, number: u32)
        ensures seen { polls_of self.new ≡ changed_poll number request_answered (polls_of self.old) }
        ensures on { RunsOn self.old self.new }
        ensures kept { kept_of self.new ≡ kept_of self.old }
    {
        if let Some(i) = self.place(number) {
            self.list[i].answered();
        }
    }

    /// Takes out a poll that ended.
    #[tactic(auto, using(crate::proofs::Running::on_gone, crate::proofs::Sessions::gone, crate::proofs::Sessions::gone_nothing, crate::proofs::Running::on_none, crate::proofs::Keeping::kept_gone, crate::proofs::Keeping::kept_not_gone))]
    pub fn close(&mut self, number: u32)
        ensures seen { polls_of self.new ≡ without_poll number (polls_of self.old) }
        ensures on { RunsOn self.old self.new }
        ensures kept { kept_of self.new ≡ without_kept number (kept_of self.old) }
    {
        match self.place(number) {
            Some(i) => drop(self.list.remove(i)),
            None => {}
        }
    }

    /// Notes that a voter was asked for a block.
    #[tactic(auto, using(crate::proofs::Running::on_asked, crate::proofs::Sessions::put_asked, crate::proofs::Sessions::put_nothing, crate::proofs::Running::on_none, crate::proofs::Keeping::kept_still))]
    pub fn ask(&mut self, number: u32, block: u16, voter: PeerId) -> Result<(), OutOfMemory>
        requires { MayAsk number block self.old }
        ensures seen { OnOk result
            (polls_of self.new
            ≡ changed_poll number (request_sent (record { block = block; voter = voter })) (polls_of self.old)) }
        ensures on { OnOk result (RunsOn self.old self.new) }
        ensures err { OnErr result (self.new ≡ self.old) }
        ensures kept { OnOk result (kept_of self.new ≡ kept_of self.old) }
    {
        match self.place(number) {
            Some(i) => self.list[i].asked(block, voter),
            None => Ok(()),
        }
    }

    /// Notes a vote.
    #[tactic(auto, using(crate::proofs::Running::on_voted, crate::proofs::Sessions::put_voted, crate::proofs::Sessions::put_nothing, crate::proofs::Running::on_none, crate::proofs::Keeping::kept_voted_in, crate::proofs::Keeping::kept_unvoted))]
    pub fn vote(&mut self, number: u32, voter: PeerId, hashes: Hashes) -> Result<(), OutOfMemory>
        requires { MayVote number voter hashes self.old }
        ensures seen { OnOk result
            (polls_of self.new
            ≡ changed_poll number (voted_by (record { voter = voter; hashes = hashes })) (polls_of self.old)) }
        ensures on { OnOk result (RunsOn self.old self.new) }
        ensures err { OnErr result (self.new ≡ self.old) }
        ensures kept { OnOk result
            (kept_of self.new
            ≡ kept_voted number (has_inner_of (poll_at number (polls_of self.old)) voter) (kept_of self.old)) }
    {
        match self.place(number) {
            Some(i) => self.list[i].voted(voter, hashes),
            None => Ok(()),
        }
    }

    /// Notes that a block of an AU changed: its running hashes from there on are forgotten in each poll on it.
    pub fn forget(&mut self, au: AuId, block: u16)
        ensures { self.new ≡ map (forgetting au block) self.old }
    {
        forget_each(&mut self.list, au, block);
    }
}

fn forget_in(poll: &mut PollSession, au: AuId, block: u16)
    ensures { poll.new ≡ forgetting au block poll.old }
{
    if poll.au() == au {
        poll.forget_from(block);
    }
}

fn forget_each(polls: &mut [PollSession], au: AuId, block: u16)
    ensures { polls.new ≡ map (forgetting au block) polls.old }
{
    for i in 0..polls.len() {
        forget_in(&mut polls[i], au, block);
    }
}
