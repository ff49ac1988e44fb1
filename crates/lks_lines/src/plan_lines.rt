//! Lines that begin a plan: its rules, its AUs and its peers.

ghost use Rattle.std.specs.Prelude.{◌≡◌, ◌≤◌, [], map, IfOk};
ghost use Rattle.lks_words.specs.Words.{Gives, Shows};
ghost use Rattle.lks_lines.specs.PlanLines.{named_number, are_good, numbers_in, paces_in, rules_in, au_in, may_add_au};
ghost use Rattle.lks_lines.specs.PlanLines.{aus_with, peer_in, begun_draft, with_peers, may_add_peer, draft_with_peer};

use lks_base::{
    AuPlan, HashKind, Ids, MOST_AUS, MOST_BLOCKS, MOST_EVENTS, MOST_PEERS, PeerPlan, Plan, Rules,
    Seq, are_bounded, are_ordered, has_au, has_peer, is_fit,
};
use lks_words::{Stop, count, id, kind, number, proof, seed};
use std::alloc::Global;
use std::mem;

/// A plan as far as its lines are read.
#[derive(Drop)]
pub struct PlanDraft {
    pub plan: Plan,
    /// The bytes of all copies together.
    pub bytes: usize,
    /// The peers whose hash was said.
    pub hashed: Ids,
}

// A name, a number of at most so much, and the words behind them.
#[tactic(auto, unfolding(crate::specs::PlanLines::named_number))]
fn named_number<'a, 'b>(
    name: &[u8],
    most: u64,
    words: &'a [&'b [u8]],
) -> Result<(u64, &'a [&'b [u8]]), Stop>
    ensures value { Shows (λ x. (x.0, map (λ w. w.now) x.1.now)) result
        (named_number name.now most (map (λ w. w.now) words.now)) }
    ensures few { IfOk result (λ x. x.0 ≤ most) }
{
    let [key, word, rest @ ..] = words else {
        return Err(Stop::Bad);
    };
    if *key != name {
        return Err(Stop::Bad);
    }
    match number(most, word) {
        Some(n) => Ok((n, rest)),
        None => Err(Stop::Bad),
    }
}

// The numbers of a `rules` line behind its sizes.
#[tactic(auto, unfolding(crate::specs::PlanLines::paces_in))]
fn with_paces(sizes: Rules, words: &[&[u8]]) -> Result<Rules, Stop>
    ensures { Gives result (paces_in sizes (map (λ w. w.now) words.now)) }
{
    let (pace, words) = named_number(b"pace", 4_294_967_295, words)?;
    let (refractory, words) = named_number(b"refractory", 4_294_967_295, words)?;
    let (overdue, words) = named_number(b"overdue", 4_294_967_295, words)?;
    let (unknown_pct, words) = named_number(b"unknown", 255, words)?;
    let (debt_pct, words) = named_number(b"debt", 255, words)?;
    let (churn, words) = named_number(b"churn", 65_535, words)?;
    if words.len() != 0 {
        return Err(Stop::Bad);
    }
    Ok(Rules {
        pace: pace as u32,
        refractory: refractory as u32,
        overdue: overdue as u32,
        unknown_pct: unknown_pct as u8,
        debt_pct: debt_pct as u8,
        churn: churn as u16,
        ..sizes
    })
}

// The numbers of a `rules` line.
#[tactic(auto, unfolding(crate::specs::PlanLines::numbers_in))]
fn rule_numbers(words: &[&[u8]]) -> Result<Rules, Stop>
    ensures { Gives result (numbers_in (map (λ w. w.now) words.now)) }
{
    let (inner, words) = named_number(b"inner", 65_535, words)?;
    let (quorum, words) = named_number(b"quorum", 65_535, words)?;
    let (minority, words) = named_number(b"minority", 65_535, words)?;
    let (outer, words) = named_number(b"outer", 65_535, words)?;
    let (repairs, words) = named_number(b"repairs", 65_535, words)?;
    let sizes = Rules {
        inner: inner as u16,
        quorum: quorum as u16,
        minority: minority as u16,
        outer: outer as u16,
        repairs: repairs as u16,
        pace: 0,
        refractory: 0,
        overdue: 0,
        unknown_pct: 0,
        debt_pct: 0,
        churn: 0,
    };
    with_paces(sizes, words)
}

#[tactic(auto, unfolding(crate::specs::PlanLines::are_good))]
fn good(rules: &Rules) -> bool
    ensures { result ≡ are_good rules.now }
{
    are_bounded(rules) && are_ordered(rules)
}

/// The rules that the words behind `rules` say, in their bounds and in order.
#[tactic(auto, unfolding(crate::specs::PlanLines::rules_in))]
pub fn rules(words: &[&[u8]]) -> Result<Rules, Stop>
    ensures { Gives result (rules_in (map (λ w. w.now) words.now)) }
{
    let rules = rule_numbers(words)?;
    if good(&rules) {
        Ok(rules)
    } else {
        Err(Stop::Bad)
    }
}

#[tactic(auto, unfolding(crate::specs::PlanLines::au_in))]
fn au(words: &[&[u8]]) -> Result<AuPlan, Stop>
    ensures { Gives result (au_in (map (λ w. w.now) words.now)) }
{
    let [name, blocks] = words else {
        return Err(Stop::Bad);
    };
    let name = id(name)?;
    let count = count(blocks)?;
    Ok(AuPlan { id: name, count })
}

#[tactic(auto, unfolding(crate::specs::PlanLines::may_add_au))]
fn may_add(aus: &[AuPlan], au: &AuPlan) -> bool
    ensures { result ≡ may_add_au aus.now au.now }
{
    aus.len() < MOST_AUS as usize && 1 <= au.count && au.count <= MOST_BLOCKS && !has_au(aus, au.id)
}

/// The AUs with the one that the words behind `au` say.
#[tactic(auto, unfolding(crate::specs::PlanLines::aus_with))]
pub fn add_au(aus: Seq<AuPlan>, words: &[&[u8]]) -> Result<Seq<AuPlan>, Stop>
    ensures { Gives result (aus_with aus (map (λ w. w.now) words.now)) }
{
    let au = au(words)?;
    if !may_add(aus.as_slice(), &au) {
        return Err(Stop::Bad);
    }
    let mut aus = aus.into_vec();
    aus.push(au)?;
    Ok(Seq::from_vec(aus))
}

#[tactic(auto, unfolding(crate::specs::PlanLines::peer_in))]
fn peer(alloc: Global, words: &[&[u8]]) -> Result<PeerPlan, Stop>
    ensures { Gives result (peer_in (map (λ w. w.now) words.now)) }
{
    let [name, what, start, effort] = words else {
        return Err(Stop::Bad);
    };
    let name = id(name)?;
    let corrupt = kind(what)?;
    let seed = seed(alloc, start)?;
    let proof = proof(alloc, effort)?;
    Ok(PeerPlan {
        id: name,
        corrupt,
        seed,
        proof,
        refs: Seq::from_vec(Vec::new(alloc)),
        friends: Seq::from_vec(Vec::new(alloc)),
        copies: Seq::from_vec(Vec::new(alloc)),
        hash: HashKind::Sha256,
    })
}

/// A plan without peers.
pub fn begin(alloc: Global, rules: Rules, turns: Option<u32>, aus: Seq<AuPlan>) -> PlanDraft
    ensures { result ≡ begun_draft rules turns aus }
{
    let plan = Plan {
        rules,
        turns: turns.unwrap_or(u32::from(MOST_EVENTS)),
        aus,
        peers: Seq::from_vec(Vec::new(alloc)),
    };
    PlanDraft {
        plan,
        bytes: 0,
        hashed: Seq::from_vec(Vec::new(alloc)),
    }
}

impl PlanDraft {
    /// The peers, and the draft without them.
    pub fn into_peers(self, alloc: Global) -> (Seq<PeerPlan>, PlanDraft)
        ensures peers { result.0 ≡ self.plan.peers }
        ensures rest { result.1 ≡ with_peers self [] self.bytes }
    {
        let mut draft = self;
        let none = Seq::from_vec(Vec::new(alloc));
        let peers = mem::replace(&mut draft.plan.peers, none);
        (peers, draft)
    }

    /// The draft with other peers, whose copies have so many bytes.
    pub fn with_peers(self, peers: Seq<PeerPlan>, bytes: usize) -> PlanDraft
        ensures { result ≡ with_peers self peers bytes }
    {
        let mut draft = self;
        draft.plan.peers = peers;
        draft.bytes = bytes;
        draft
    }
}

#[tactic(auto, unfolding(crate::specs::PlanLines::may_add_peer))]
fn may_join(plan: &Plan, peer: &PeerPlan) -> bool
    ensures { result ≡ may_add_peer plan.now peer.now }
{
    let peers = plan.peers.as_slice();
    1 <= plan.aus.as_slice().len()
        && peers.len() < MOST_PEERS as usize
        && !has_peer(peers, peer.id)
        && is_fit(peer)
}

/// The draft with the peer that the words behind `peer` say.
#[tactic(auto, unfolding(crate::specs::PlanLines::draft_with_peer))]
pub fn add_peer(alloc: Global, draft: PlanDraft, words: &[&[u8]]) -> Result<PlanDraft, Stop>
    ensures { Gives result (draft_with_peer draft (map (λ w. w.now) words.now)) }
{
    let peer = peer(alloc, words)?;
    if !may_join(&draft.plan, &peer) {
        return Err(Stop::Bad);
    }
    let bytes = draft.bytes;
    let (peers, draft) = draft.into_peers(alloc);
    let mut peers = peers.into_vec();
    peers.push(peer)?;
    Ok(draft.with_peers(Seq::from_vec(peers), bytes))
}
