//! Laws on every history of every plan.

ghost use Rattle.std.specs.Prelude.{◌≡◌, ◌≢◌, ◌<◌, ◌≤◌, ◌++◌, ◌∷◌, [], ℕ, true, Some, None, List, length, map};
ghost use Rattle.std.specs.Prelude.{slice_get};
ghost use Rattle.std.specs.List.{range_with_len};
ghost use Rattle.lks_base.specs.Checking.{plan_fault};
ghost use Rattle.lks_base.specs.declared.entries.Entry.{Entry};
ghost use Rattle.lks_base.specs.declared.events.Due.{Due};
ghost use Rattle.lks_base.specs.declared.events.Event.{Event};
ghost use Rattle.lks_base.specs.declared.limits.TheConstants.{MOST_CIRCLE, MOST_EVENTS};
ghost use Rattle.lks_base.specs.declared.plans.AuPlan.{AuPlan};
ghost use Rattle.lks_base.specs.declared.plans.Holding.{Holding};
ghost use Rattle.lks_base.specs.declared.plans.PeerPlan.{PeerPlan};
ghost use Rattle.lks_base.specs.declared.plans.Plan.{Plan};
ghost use Rattle.lks_base.specs.declared.plans.Rules.{Rules};
ghost use Rattle.lks_base.specs.declared.reactions.Input.{Input};
ghost use Rattle.lks_base.specs.declared.records.Record.{Record};
ghost use Rattle.lks_law.specs.Alarms.{alarms_by, alarms};
ghost use Rattle.lks_law.specs.Batches.{together, journal_at, batches_at};
ghost use Rattle.lks_law.specs.Behind.{latest_tick, StandsBehind, StandBehind, AreHeardBehind};
ghost use Rattle.lks_law.specs.Broken.{with_lax_numbers, with_one_vote, with_one_voter, with_later_votes};
ghost use Rattle.lks_law.specs.Broken.{with_strange_vote, with_strange_bytes, with_no_envelope};
ghost use Rattle.lks_law.specs.Circles.{Samples};
ghost use Rattle.lks_law.specs.Due.{dues, next_to_finish, ready_at, turns_at};
ghost use Rattle.lks_law.specs.Entries.{entries, is_inner};
ghost use Rattle.lks_law.specs.Facts.{IsHeard, AddsFor, IsJournalOf, HaveJournals, HasPolls};
ghost use Rattle.lks_law.specs.Fitting.{Fits, AreFitting, IsSound, has_room, most_numbered};
ghost use Rattle.lks_law.specs.Histories.{MayHappen, IsHistory};
ghost use Rattle.lks_law.specs.Journal.{Opening, opening_of, openings, opened_numbers, is_running};
ghost use Rattle.lks_law.specs.Linked.{AreLinked};
ghost use Rattle.lks_law.specs.Polls.{Station, ObeyQuorumRule, limits_in, verdict_in};
ghost use Rattle.lks_law.specs.Questions.{Verdicts, asked_by, questions, event_of};
ghost use Rattle.lks_law.specs.Reaction.{may_tally};
ghost use Rattle.lks_law.specs.Safe.{HasEvidence, Safe};
ghost use Rattle.lks_law.specs.Snapshots.{IsRestored};
ghost use Rattle.lks_law.specs.State.{State, after, blank, state_of};
ghost use Rattle.lks_law.specs.Table.{react_on, reaction};
ghost use Rattle.lks_law.specs.Turning.{ready_on, turns_on, has_inner_in};
ghost use Rattle.lks_law.specs.World.{Standing, station_of, deposits, honest_peer, world};
ghost use Rattle.lks_law.specs.Written.{AreWritten};
ghost use Rattle.lks_tally.specs.declared.ballots.Verdict.{Verdict};

/// The entries of a history are those of its events, one each, in order.
pub fn every_event_has_its_entry()
    ensures { (plan : Plan) (history : List Event) → map (λ (e : Entry). e.event) (entries plan history) ≡ history }
{}

/// The honest peers of a world are those of its plan, as many and in its order, and each has a journal of its own: its
/// deposits, and then what the rules add for what it did and was told, at ticks that don't fall.
pub fn every_journal_is_its_peers_own()
    ensures { (plan : Plan) (history : List Event) → HaveJournals plan (world plan history) }
{}

/// The journal of an honest peer is its batches one after another: one for each deposit, and one for each event
/// that added records to it.
pub fn every_journal_is_its_batches()
    ensures { (plan : Plan) (history : List Event) (place : ℕ)
        → together (batches_at place plan history) ≡ journal_at place (world plan history) }
{}

/// In a world of a good plan each honest peer's reference list names others alone, none of them twice. So does each
/// inner and each outer circle of its polls, which is no larger than the rules say; nobody stands in both.
pub fn every_circle_is_a_sample()
    ensures { (plan : Plan) → plan_fault plan ≡ None → (history : List Event) (place : ℕ) (s : Standing)
        → slice_get (world plan history).peers place ≡ Some s → Samples s }
{}

/// The polls of an honest peer are numbered from 1 on, each is opened once, and at most one runs on an AU. A poll that
/// runs and is shut has its quorum, and so has each that asked for a repair. It waits for one repair at most, and its
/// votes still say that this block is lost.
pub fn every_poll_keeps_its_state()
    ensures { (plan : Plan) (history : List Event) (place : ℕ) (s : Standing)
        → slice_get (world plan history).peers place ≡ Some s → HasPolls s.own s.journal }
{}

/// So a poll that can be tallied is never found to lack its quorum.
pub fn every_tally_has_its_quorum()
    ensures { (plan : Plan) (history : List Event) (place : ℕ) (s : Standing)
        → slice_get (world plan history).peers place ≡ Some s
        → (n : ℕ) (opening : Opening) → may_tally n s.journal ≡ true → opening_of n s.journal ≡ Some opening
        → verdict_in s.own n opening s.journal ≢ Verdict.Inquorate }
{}

/// A history goes on by each event that may happen in its world, while it has fewer than 4,096.
pub fn every_history_goes_on()
    ensures none { (plan : Plan) → IsHistory plan [] }
    ensures more { (plan : Plan) (history : List Event) (e : Event) → IsHistory plan history
        → length history < MOST_EVENTS → MayHappen plan (world plan history) e
        → IsHistory plan (history ++ e ∷ []) }
{}

/// Whatever is due in the world of a history may happen there, whatever the judge says. What comes next until nothing
/// is due is the first of it.
pub fn whatever_is_due_may_happen()
    ensures may { (verdict : Verdicts) (plan : Plan) (history : List Event) (place : ℕ) (d : Due)
        → slice_get (dues plan history) place ≡ Some d
        → MayHappen plan (world plan history) (event_of verdict plan history d) }
    ensures first { (plan : Plan) (history : List Event)
        → next_to_finish plan history ≡ slice_get (dues plan history) 0 }
{}

/// What an event asks and what it raises comes behind the questions and the alarms of the events before it.
pub fn every_event_asks_and_raises_its_own()
    ensures asks { (plan : Plan) (history : List Event) (e : Event)
        → questions plan (history ++ e ∷ []) ≡ questions plan history ++ asked_by (world plan history) e }
    ensures raises { (plan : Plan) (history : List Event) (e : Event)
        → alarms plan (history ++ e ∷ []) ≡ alarms plan history ++ alarms_by (world plan history) e }
{}

/// The definitions can be broken: a block that was replaced with a vote too few, by votes that may be a landslide both
/// ways, by one voter's two votes, or before the votes came has no evidence. Peers don't agree where one counts a vote
/// that an honest voter didn't vote, or sends bytes that spell no message. And a list in which an envelope comes that
/// nobody sent is no history.
pub fn rules_can_be_broken()
    ensures few { (rules : Rules) (poller au b : ℕ) (bytes : List ℕ)
        → HasEvidence rules poller (with_one_vote au b bytes) → ⊥ }
    ensures lax { (rules : Rules) (poller au b : ℕ) (bytes : List ℕ)
        → HasEvidence rules poller (with_lax_numbers au b bytes) → ⊥ }
    ensures twice { (rules : Rules) (poller au b : ℕ) (bytes : List ℕ)
        → HasEvidence rules poller (with_one_voter au b bytes) → ⊥ }
    ensures later { (rules : Rules) (poller au b : ℕ) (bytes : List ℕ)
        → HasEvidence rules poller (with_later_votes au b bytes) → ⊥ }
    ensures uncast { (rules : Rules) (hashes : List (List ℕ)) → AreLinked (with_strange_vote rules hashes) → ⊥ }
    ensures unread { (rules : Rules) → AreLinked (with_strange_bytes rules) → ⊥ }
    ensures unsent { (plan : Plan) → IsHistory plan with_no_envelope → ⊥ }
{}

/// Each replaced block of each honest peer's journal has its evidence: at least a quorum of votes by distinct
/// invited inner peers of one poll, at most a minority of them for the old block and at most a minority against
/// the new one, where no votes are a landslide both ways. So it is of every plan whose own numbers obey this rule, and
/// of every list of events, whether or not they may happen.
pub fn every_replacement_has_evidence()
    ensures { (plan : Plan) (history : List Event) (place : ℕ) (s : Standing)
        → ObeyQuorumRule (limits_in plan.rules) → slice_get (world plan history).peers place ≡ Some s
        → HasEvidence s.own.rules s.own.id s.journal }
{}

/// Every history of a plan that breaks no rule is safe, with any number of honest peers. Each replaced block has its
/// evidence. The hashes of each vote that an honest peer sent are those of one version of the AU: of the one that its
/// journal names for the poll, under the poll's own key; and it joins and commits once. Of the votes that stand behind
/// a replaced block, at most a minority is of honest peers that held that block and all before it.
pub fn every_history_is_safe()
    ensures { (plan : Plan) (history : List Event) → plan_fault plan ≡ None → IsHistory plan history
        → Safe plan history }
{}

/// In every history of a plan that breaks no rule the journals and the envelopes of different peers agree. Each
/// envelope of an honest peer spells a message, and what this says of a poll is in its sender's journal. A peer joins,
/// commits and votes once in a poll of another: on its AU, under its nonce and kind of hash, and over the version to
/// which it committed. And each vote that an honest peer counts for an honest voter is the one which that one voted.
pub fn every_peer_agrees_with_the_others()
    ensures { (plan : Plan) (history : List Event) → plan_fault plan ≡ None → IsHistory plan history
        → AreLinked (world plan history) }
{}

/// Where more than a minority of the votes behind a replaced block is of honest peers that held some blocks up to
/// there, the replaced block makes the copy agree with these, or somebody found two texts with one hash.
pub fn every_replacement_restores()
    ensures { (plan : Plan) (history : List Event) → plan_fault plan ≡ None → IsHistory plan history
        → (place : ℕ) (s : Standing) → slice_get (world plan history).peers place ≡ Some s
        → IsRestored (world plan history) s }
{}

/// What a peer adds and sends is what it adds and sends in the state for which its journal stands, if the journal is
/// written so: deposits come first, no record names a poll before it is opened, a poll asks while it runs, and it is
/// closed once, when it waits for nothing.
pub fn every_state_stands_for_its_journal()
    ensures { (own : Station) (journal : List Record) → AreWritten [] journal → (tick : ℕ) (i : Input)
        → react_on own (state_of own journal) tick i ≡ reaction own journal tick i }
{}

/// What is due of a peer over its journal is due in the state for which the journal stands: the tallies for which it is
/// ready and its turns, by poll number, if its polls are numbered from 1 on in the order in which they were opened; and
/// who is in the inner circle of a poll that runs.
pub fn every_turn_is_of_a_running_poll()
    ensures ready { (own : Station) (journal : List Record) → AreWritten [] journal
        → opened_numbers journal ≡ range_with_len 1 (openings journal)
        → ready_on own (state_of own journal) ≡ ready_at (record { own = own; journal = journal }) }
    ensures turns { (own : Station) (journal : List Record) → AreWritten [] journal
        → opened_numbers journal ≡ range_with_len 1 (openings journal)
        → turns_on own (state_of own journal) ≡ turns_at (record { own = own; journal = journal }) }
    ensures inner { (own : Station) (journal : List Record) → AreWritten [] journal → (n voter : ℕ)
        → is_running n journal ≡ true → has_inner_in (state_of own journal) n voter ≡ is_inner journal n voter }
{}

/// What the rules add fits the state to which it is added, while a poll and a version more can be numbered; and
/// whatever fits leaves each copy with as many blocks as an AU has, each request for one of them, and numbers in force
/// with which a poll may be opened.
pub fn whatever_is_added_fits()
    ensures adds { (own : Station) (s : State) → own.rules.inner ≤ MOST_CIRCLE → has_room s ≡ true → IsSound s
        → (tick : ℕ) (i : Input) → IsHeard i → AreFitting own s (react_on own s tick i).records }
    ensures keeps { (own : Station) (s : State) (r : Record) → Fits own s r → IsSound s → IsSound (after own s r) }
{}

/// Each journal of an honest peer of a plan that breaks no rule, with its numbers or without, fits record by record,
/// while it is short enough that each thing in it can be numbered; and such a journal leaves room to number a poll, a
/// version and a vote more.
pub fn every_journal_fits()
    ensures fits { (plan : Plan) (id : ℕ) (p : PeerPlan) → plan_fault plan ≡ None → honest_peer id plan ≡ Some p
        → (tick : ℕ) (journal : List Record) → length journal < most_numbered
        → IsJournalOf (station_of plan p) (deposits plan.aus p.copies) tick journal
        → AreFitting (station_of plan p) (blank (station_of plan p)) journal }
    ensures room { (own : Station) (journal : List Record) → length journal < most_numbered
        → has_room (state_of own journal) ≡ true }
{}

/// Each journal that the rules make is written so, with its numbers or without, and so is that of each honest peer of a
/// world.
pub fn every_journal_is_written()
    ensures made { (own : Station) (aus : List AuPlan) (copies : List Holding) (tick : ℕ) (journal : List Record)
        → IsJournalOf own (deposits aus copies) tick journal → AreWritten [] journal }
    ensures kept { (plan : Plan) (history : List Event) (place : ℕ) (s : Standing)
        → slice_get (world plan history).peers place ≡ Some s → AreWritten [] s.journal }
{}

/// What the rules add for anything, at a tick that isn't below those of the journal, stands behind the journal: the
/// input that it names adds the same at the tick that it names. So each journal is its deposits and batches that stand
/// behind one another, and whatever is such, with messages in their limits, is a journal.
pub fn whatever_is_added_stands()
    ensures added { (own : Station) (journal : List Record) (tick : ℕ) (i : Input) (added : List Record)
        → latest_tick journal ≤ tick → AddsFor own journal (record { tick = tick; input = i }) added → added ≢ []
        → StandsBehind own journal added }
    ensures sorted { (own : Station) (aus : List AuPlan) (copies : List Holding) (tick : ℕ) (journal : List Record)
        → IsJournalOf own (deposits aus copies) tick journal
        → (batches : List (List Record)) × (journal ≡ deposits aus copies ++ together batches)
        × StandBehind own (deposits aus copies) batches }
    ensures journal { (own : Station) (begun : List Record) (batches : List (List Record))
        → StandBehind own begun batches → AreHeardBehind begun batches
        → IsJournalOf own begun (latest_tick (begun ++ together batches)) (begun ++ together batches) }
{}
