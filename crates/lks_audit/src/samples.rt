//! Whom a peer samples: the circles of its polls, and friends.

ghost use Rattle.std.specs.Prelude.{◌≡◌, IfOk, map};
ghost use Rattle.lks_draw.specs.Picks.{picked_by};
ghost use Rattle.lks_draw.specs.Words.{drawn_from};
ghost use Rattle.lks_law.specs.Reacting.{inner_of};
ghost use Rattle.lks_law.specs.References.{picked_friends};
ghost use Rattle.lks_choice.specs.Circles.{circle_of};

use crate::stations::Station;
use lks_base::{Ids, OutOfMemory, PeerId, Seq};
use lks_choice::outer_circle;
use lks_draw::Draws;
use lks_poller::Nomination;
use std::alloc::Global;

/// The labels of the draws of inner circles, of outer circles, and of friends.
const INNER_CIRCLE: u8 = 1;

const OUTER_CIRCLE: u8 = 2;

const FRIENDS: u8 = 4;

/// At most `most` members of a list, by the draw of this label and number.
fn pick(
    alloc: Global,
    own: &Station,
    label: u8,
    number: u32,
    list: &[PeerId],
    most: u16,
) -> Result<Vec<PeerId>, OutOfMemory>
    ensures { IfOk result (λ v. v.items ≡ picked_by (drawn_from own.now.seed label number) list.now most) }
{
    let mut draws = Draws::new(&own.seed, label, number);
    match draws.pick(alloc, list, most as usize) {
        Ok(members) => Ok(members),
        Err(_) => Err(OutOfMemory),
    }
}

/// The inner circle of a poll: a sample of the reference list.
#[tactic(auto, unfolding(lks_law::specs::Reacting::inner_of))]
pub fn sample_inner(
    alloc: Global,
    own: &Station,
    number: u32,
    references: &[PeerId],
) -> Result<Ids, OutOfMemory>
    ensures { IfOk result (λ inner. inner ≡ inner_of own.now number references.now) }
{
    let members = pick(
        alloc,
        own,
        INNER_CIRCLE,
        number,
        references,
        own.rules.inner,
    )?;
    Ok(Seq::from_vec(members))
}

/// Copies of whom the nominations name, in order.
fn copy_nominees(alloc: Global, nominations: &[Nomination]) -> Result<Vec<Ids>, OutOfMemory>
    ensures { IfOk result (λ v. v.items ≡ map (λ n. n.nominees) nominations.now) }
{
    let mut nominated = Vec::new(alloc);
    for nomination in nominations {
        nominated.push(nomination.nominees.clone()?)?;
    }
    Ok(nominated)
}

/// The outer circle of a poll: a sample of its nominees.
pub fn sample_outer(
    alloc: Global,
    own: &Station,
    number: u32,
    inner: &[PeerId],
    nominations: &[Nomination],
) -> Result<Ids, OutOfMemory>
    ensures { IfOk result
        (λ outer. outer
        ≡ (circle_of (drawn_from own.now.seed 2 number) own.now.id inner.now
        (map (λ n. n.nominees) nominations.now) own.now.rules.outer).peers) }
{
    let nominated = copy_nominees(alloc, nominations)?;
    let mut draws = Draws::new(&own.seed, OUTER_CIRCLE, number);
    outer_circle(
        alloc,
        own.id,
        inner,
        &nominated,
        own.rules.outer,
        &mut draws,
    )
}

/// The friends that are picked after a poll.
#[tactic(auto, unfolding(lks_law::specs::References::picked_friends))]
pub fn pick_friends(alloc: Global, own: &Station, number: u32) -> Result<Vec<PeerId>, OutOfMemory>
    ensures { IfOk result (λ v. v.items ≡ picked_friends own.now number) }
{
    pick(
        alloc,
        own,
        FRIENDS,
        number,
        own.friends.as_slice(),
        own.rules.churn,
    )
}
