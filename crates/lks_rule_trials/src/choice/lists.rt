//! Circles that another program made, and lists worked out by hand.

use crate::SEED;
use crate::same::same;
use lks_base::{Ids, OutOfMemory};
use lks_choice::{References, outer_circle};
use lks_draw::Draws;
use std::alloc::Global;

fn ids(alloc: Global, peers: &[u16]) -> Result<Ids, OutOfMemory> {
    Ok(Ids::from_vec(peers.to_vec(alloc)?))
}

/// The outer circle of a poll of peer 1 with the inner peers 2 and 3.
fn circle(
    alloc: Global,
    nominated: &[&[u16]],
    size: u16,
    draws: &mut Draws,
) -> Result<Ids, OutOfMemory> {
    let mut lists = Vec::new(alloc);
    for peers in nominated {
        lists.push(ids(alloc, peers)?)?;
    }
    outer_circle(alloc, 1, &[2, 3], &lists, size, draws)
}

/// Nominations, and a circle of at most four peers that takes no word.
const CIRCLES: [(&[&[u16]], &[u16]); 2] = [
    // Each nomination has as many candidates as its share.
    (&[&[3, 9, 1], &[9, 8]], &[9, 8]),
    // Without nominations the circle is empty.
    (&[], &[]),
];

#[test]
fn circles(rt: HostRuntime) -> Result<(), OutOfMemory> {
    let mut draws = Draws::new(SEED, 2, 1);
    for (nominated, wanted) in CIRCLES.iter() {
        let circle = circle(rt.alloc(), nominated, 4, &mut draws)?;
        same(&rt, &circle.as_slice(), wanted, &"circle");
    }
    same(
        &rt,
        &(draws.next(u32::MAX) + 1),
        &0x8274_4e46,
        &"the next word",
    );
    Ok(())
}

const NOMINATED: &[&[u16]] = &[&[4, 5, 6, 7, 8], &[4, 5, 6, 7, 8, 9], &[3, 2, 1, 10, 10]];

#[test]
fn drawn_circle(rt: HostRuntime) -> Result<(), OutOfMemory> {
    // A share is two of five, and the last nomination fills the circle.
    let mut draws = Draws::new(SEED, 2, 1);
    let circle = circle(rt.alloc(), NOMINATED, 5, &mut draws)?;
    same(
        &rt,
        &circle.as_slice(),
        &[6, 4, 8, 9, 10].as_slice(),
        &"circle",
    );
    Ok(())
}

/// A poll's inner voters against, those who join, the picked friends, and the list after it.
type Poll = [&'static [u16]; 4];

const POLLS: [Poll; 2] = [
    [&[3, 7], &[6, 2, 1, 6], &[5, 4], &[2, 4, 6, 5]],
    // Who was against may join again.
    [&[2], &[], &[2], &[4, 6, 5, 2]],
];

fn after_poll(references: &mut References, poll: &Poll) -> Result<(), OutOfMemory> {
    references.after_poll(poll[0], poll[1], poll[2])
}

/// The references of peer 1.
fn references(alloc: Global) -> Result<References, OutOfMemory> {
    let refs = ids(alloc, &[2, 3, 4])?;
    let friends = ids(alloc, &[5, 4])?;
    Ok(References::new(alloc, 1, refs, friends))
}

#[test]
fn lists(rt: HostRuntime) -> Result<(), OutOfMemory> {
    let mut references = references(rt.alloc())?;
    for poll in POLLS.iter() {
        after_poll(&mut references, poll)?;
        same(&rt, &references.list(), &poll[3], &"references.list");
        same(
            &rt,
            &references.friends(),
            &[5, 4].as_slice(),
            &"references.friends",
        );
    }
    Ok(())
}
