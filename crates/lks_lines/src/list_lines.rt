//! Lines that say a peer's lists and its hash.

ghost use Rattle.std.specs.Prelude.{◌≡◌, ◌==◌, map, length};
ghost use Rattle.std.specs.List.{position};
ghost use Rattle.lks_words.specs.Words.{Gives};
ghost use Rattle.lks_lines.specs.ListLines.{list_of, lacks_list, with_list, is_list, peers_with_list};
ghost use Rattle.lks_lines.specs.ListLines.{draft_with_list, hashing};
ghost use Rattle.lks_lines.specs.ListLines.{draft_with_noted, draft_with_hash};

use crate::plan_lines::PlanDraft;
use lks_base::{HashKind, Ids, PeerPlan, Seq, check_members, has_member};
use lks_words::{Stop, hash, id, ids};
use std::alloc::Global;

/// The lists of a peer.
#[derive(Clone, Copy)]
pub enum ListKind {
    /// Its reference list.
    Refs,
    /// Its friends.
    Friends,
}

impl ListKind {
    #[tactic(auto, unfolding(crate::specs::ListLines::list_of))]
    fn count(self, peer: &PeerPlan) -> usize
        ensures { result ≡ length (list_of self peer.now) }
    {
        match self {
            ListKind::Refs => peer.refs.as_slice().len(),
            ListKind::Friends => peer.friends.as_slice().len(),
        }
    }

    #[tactic(auto, unfolding(crate::specs::ListLines::with_list))]
    fn set(self, peer: &mut PeerPlan, ids: Ids)
        ensures { peer.new ≡ with_list self peer.old ids }
    {
        match self {
            ListKind::Refs => peer.refs = ids,
            ListKind::Friends => peer.friends = ids,
        }
    }
}

#[tactic(auto, unfolding(crate::specs::ListLines::lacks_list))]
fn may_list(kind: ListKind, id: u16, peer: &PeerPlan) -> bool
    ensures { result ≡ lacks_list kind id peer.now }
{
    peer.id == id && !peer.corrupt && kind.count(peer) == 0
}

fn unlisted(peers: &[PeerPlan], kind: ListKind, id: u16) -> Option<usize>
    ensures { result ≡ position (lacks_list kind id) peers.now }
{
    peers.iter().position(|p| may_list(kind, id, p))
}

#[tactic(auto, unfolding(crate::specs::ListLines::is_list))]
fn fits(peers: &[PeerPlan], id: u16, ids: &Ids) -> bool
    ensures { result ≡ is_list peers.now id ids.now }
{
    1 <= ids.as_slice().len() && check_members(peers, id, ids.as_slice()).is_ok()
}

#[tactic(auto, unfolding(crate::specs::ListLines::peers_with_list))]
fn give_list(peers: Seq<PeerPlan>, kind: ListKind, id: u16, ids: Ids) -> Result<Seq<PeerPlan>, Stop>
    ensures { Gives result (peers_with_list kind id ids peers) }
{
    let mut peers = peers.into_vec();
    match unlisted(&peers, kind, id) {
        Some(at) if fits(&peers, id, &ids) => {
            kind.set(&mut peers[at], ids);
            Ok(Seq::from_vec(peers))
        }
        Some(_) => Err(Stop::Bad),
        None => Err(Stop::Bad),
    }
}

/// The draft with the list that the words behind `refs` or `friends` say.
#[tactic(auto, unfolding(crate::specs::ListLines::draft_with_list))]
pub fn add_list(
    alloc: Global,
    kind: ListKind,
    draft: PlanDraft,
    words: &[&[u8]],
) -> Result<PlanDraft, Stop>
    ensures { Gives result (draft_with_list kind draft (map (λ w. w.now) words.now)) }
{
    let [name, members @ ..] = words else {
        return Err(Stop::Bad);
    };
    let name = id(name)?;
    let ids = ids(alloc, members)?;
    let bytes = draft.bytes;
    let (peers, draft) = draft.into_peers(alloc);
    let peers = give_list(peers, kind, name, ids)?;
    Ok(draft.with_peers(peers, bytes))
}

fn named(peers: &[PeerPlan], id: u16) -> Option<usize>
    ensures { result ≡ position (λ p. p.id == id) peers.now }
{
    peers.iter().position(|p| p.id == id)
}

#[tactic(auto, unfolding(crate::specs::ListLines::hashing))]
fn give_hash(peers: Seq<PeerPlan>, id: u16, hash: HashKind) -> Result<Seq<PeerPlan>, Stop>
    ensures { Gives result (hashing id hash peers) }
{
    let mut peers = peers.into_vec();
    match named(&peers, id) {
        Some(at) => {
            peers[at].hash = hash;
            Ok(Seq::from_vec(peers))
        }
        None => Err(Stop::Bad),
    }
}

#[tactic(auto, unfolding(crate::specs::ListLines::draft_with_noted))]
fn note(draft: PlanDraft, id: u16) -> Result<PlanDraft, Stop>
    ensures { Gives result (draft_with_noted draft id) }
{
    let PlanDraft {
        plan,
        bytes,
        hashed,
    } = draft;
    if has_member(hashed.as_slice(), id) {
        return Err(Stop::Bad);
    }
    let mut hashed = hashed.into_vec();
    hashed.push(id)?;
    let hashed = Seq::from_vec(hashed);
    Ok(PlanDraft {
        plan,
        bytes,
        hashed,
    })
}

/// The draft with the hash that the words behind `hash` say, for any peer and once at most.
#[tactic(auto, unfolding(crate::specs::ListLines::draft_with_hash))]
pub fn add_hash(alloc: Global, draft: PlanDraft, words: &[&[u8]]) -> Result<PlanDraft, Stop>
    ensures { Gives result (draft_with_hash draft (map (λ w. w.now) words.now)) }
{
    let [name, kind] = words else {
        return Err(Stop::Bad);
    };
    let name = id(name)?;
    let hash = hash(kind)?;
    let bytes = draft.bytes;
    let (peers, draft) = draft.into_peers(alloc);
    let peers = give_hash(peers, name, hash)?;
    note(draft.with_peers(peers, bytes), name)
}
