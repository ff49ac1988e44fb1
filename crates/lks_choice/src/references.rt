//! The reference list of a peer, and its friends.

ghost use Rattle.std.specs.Prelude.{◌≡◌, ◌++◌, OnOk, OnErr, IfOk};
ghost use Rattle.lks_choice.specs.Lists as lists;
ghost use Rattle.lks_choice.specs.Lists.{without_peers, joined_by, all_joined, list_after, IsReferenceList};

use lks_base::{Ids, OutOfMemory, PeerId, has_member};
use std::alloc::Global;
use std::marker::Model;

/// The peers that a peer samples, and the friends of its operator.
#[derive(Drop)]
pub struct References {
    alloc: Global,
    own: PeerId,
    list: Ids,
    friends: Ids,
}

impl Model for References {
    ghost use Rattle.lks_choice.specs.Lists.{Lists};

    ghost Value = { Lists };

    ghost view = { λ r. record { own = r.own; list = r.list; friends = r.friends } };
}

impl References {
    /// The lists with which peer `own` begins.
    pub fn new(alloc: Global, own: PeerId, refs: Ids, friends: Ids) -> References
        ensures { result ≡ record { own = own; list = refs; friends = friends } }
    {
        References {
            alloc,
            own,
            list: refs,
            friends,
        }
    }

    /// The reference list.
    pub fn list(&self) -> &[PeerId]
        ensures { result.now ≡ self.now.list }
    {
        self.list.as_slice()
    }

    /// The operator's friends.
    pub fn friends(&self) -> &[PeerId]
        ensures { result.now ≡ self.now.friends }
    {
        self.friends.as_slice()
    }

    /// What an agreed poll makes of the list: the inner voters against leave it; then the outer voters for and the
    /// picked friends join it at its end, in order, but for the peer itself and those who are there.
    #[tactic(auto, unfolding(crate::specs::Lists::list_after))]
    pub fn after_poll(
        &mut self,
        against: &[PeerId],
        joining: &[PeerId],
        picked: &[PeerId],
    ) -> Result<(), OutOfMemory>
        ensures ok { OnOk result
            (self.new
            ≡ record self.old {
              list = list_after self.old.own self.old.list against.now joining.now picked.now;
            }) }
        ensures law { IsReferenceList self.old.own self.old.list → IsReferenceList self.new.own self.new.list }
        ensures err { OnErr result (self.new ≡ self.old) }
    {
        let mut list = others(self.alloc, self.list.as_slice(), against)?;
        join(&mut list, self.own, joining)?;
        join(&mut list, self.own, picked)?;
        self.list = Ids::from_vec(list);
        Ok(())
    }
}

// The list without these peers.
fn others(alloc: Global, list: &[PeerId], out: &[PeerId]) -> Result<Vec<PeerId>, OutOfMemory>
    ensures { IfOk result (λ v. v.items ≡ without_peers out.now list.now) }
{
    let kept = list
        .iter()
        .copied()
        .filter(|p| !has_member(out, *p))
        .collect(alloc)?;
    Ok(kept)
}

fn join_one(list: &mut Vec<PeerId>, own: PeerId, peer: PeerId) -> Result<(), OutOfMemory>
    ensures { OnOk result (list.new.items ≡ joined_by own list.old.items peer) }
{
    if peer != own && !has_member(list, peer) {
        list.push(peer)?;
    }
    Ok(())
}

fn join(list: &mut Vec<PeerId>, own: PeerId, peers: &[PeerId]) -> Result<(), OutOfMemory>
    ensures { OnOk result (list.new.items ≡ all_joined own list.old.items peers.now) }
{
    for peer in peers {
        join_one(list, own, *peer)?;
    }
    Ok(())
}
