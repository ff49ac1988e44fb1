//! The sites of a world: one for each peer of its plan, in order.

ghost use Rattle.std.specs.Prelude.{◌≡◌, ◌≤◌, ◌<◌, ◌+◌, ◌++◌, ◌∷◌, [], reverse, MatchOption, slice_get, vec_len};
ghost use Rattle.std.specs.Prelude.{vec_capacity};
ghost use Rattle.std.specs.List.{position};
ghost use Rattle.lks_world.specs.Hosts.{peers_of, IsAbsent};
ghost use Rattle.lks_world.specs.Sites.{disk_at, disks_at, hosts_of, is_site_of, StandsAt};
ghost use Rattle.lks_world.specs.States.{site_steps};

use crate::settling::OwnSteps;
use lks_base::{PeerId, PeerStep};
use lks_disk::Disk;
use lks_host::Host;

/// The site of a peer: an honest one's host on its disk, or the disk of a corrupt one.
#[derive(Drop)]
pub enum Site<D: Disk> {
    Host(Host<D>),
    Idle(D),
}

impl<D: Disk> Site<D> {
    /// The disk of the site.
    pub fn into_disk(self) -> D
        ensures { result ≡ disk_at self }
    {
        match self {
            Site::Host(host) => host.into_disk(),
            Site::Idle(disk) => disk,
        }
    }

    fn is_of(&self, id: PeerId) -> bool
        ensures { result ≡ is_site_of id self.now }
    {
        match self {
            Site::Host(host) => host.id() == id,
            Site::Idle(_) => false,
        }
    }

    /// The first step of this part that is due of the peer.
    pub fn first(&self, part: OwnSteps) -> Option<PeerStep>
        ensures { result ≡ slice_get (site_steps part self.now) 0 }
    {
        match self {
            Site::Host(host) => match part {
                OwnSteps::Ready => host.ready(0),
                OwnSteps::Turns => host.turn(0),
            },
            Site::Idle(_) => None,
        }
    }
}

fn find<D: Disk>(sites: &[Site<D>], id: PeerId) -> Option<usize>
    ensures { result ≡ position (is_site_of id) sites.now }
{
    sites.iter().position(|site| site.is_of(id))
}

/// The place of the honest peer of this number.
pub fn place_of<D: Disk>(sites: &[Site<D>], id: PeerId) -> Option<usize>
    ensures { MatchOption result (IsAbsent id (peers_of D.face (hosts_of sites.now))) (StandsAt D.face id sites.now) }
{
    find(sites, id)
}

/// Turns the order of the disks round.
pub fn turn_round<D: Drop>(disks: &mut Vec<D>)
    ensures items { disks.new.items ≡ reverse disks.old.items }
    ensures len { vec_len disks.new ≡ vec_len disks.old }
    ensures room { vec_capacity disks.new ≡ vec_capacity disks.old }
{
    disks.reverse();
}

/// Puts the disks behind those of the list, the last site's first, where there is room.
pub fn unsite<D: Disk + Drop>(mut sites: Vec<Site<D>>, disks: &mut Vec<D>)
    requires { vec_len disks.old + vec_len sites ≤ vec_capacity disks.old }
    ensures items { disks.new.items ≡ disks.old.items ++ reverse (disks_at sites.items) }
{
    while let Some(site) = sites.pop() {
        disks.push_reserved(site.into_disk());
    }
}
