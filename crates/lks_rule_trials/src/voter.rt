//! Sessions of peer 2 in a poll of peer 1.

use crate::same::same;
use lks_base::{HashKind, Hashes, OutOfMemory, PollName};
use lks_voter::{Committed, Joined, Serve, Session, Voted};
use std::alloc::Global;
use std::process::Abort;

const POLL: PollName = PollName {
    poller: 1,
    number: 4,
};

const NONCE: [u8; 32] = [7; 32];

fn voted(alloc: Global) -> Result<Voted, OutOfMemory> {
    let hashes = Hashes::from_vec(vec![in alloc; [9; 32]]?);
    let committed = Joined::new(POLL, 6, 20, true).commit(HashKind::Sha512_256, NONCE, 3);
    Ok(committed.vote(alloc, hashes))
}

const AT_MOST_TWO: [(u16, Serve); 6] = [
    (1, Serve::First),
    (1, Serve::Again),
    (3, Serve::First),
    (3, Serve::Again),
    (4, Serve::Spent),
    (1, Serve::Again),
];

/// Asks for these blocks, of which at most two are served.
fn serve_all<R: Abort>(
    rt: &R,
    voted: &mut Voted,
    requests: &[(u16, Serve)],
) -> Result<(), OutOfMemory> {
    for (at, (b, answer)) in requests.iter().enumerate() {
        assert!(rt; voted.answer(*b, 2) == *answer, "{at}");
        assert!(rt; voted.serve(*b, 2)? == *answer, "{at}");
    }
    Ok(())
}

#[test]
fn at_most_two(rt: HostRuntime) -> Result<(), OutOfMemory> {
    let mut voted = voted(rt.alloc())?;
    serve_all(&rt, &mut voted, &AT_MOST_TWO)?;
    same(&rt, &voted.served(), &[1, 3].as_slice(), &"voted.served");
    // Where more may be served later, the next one is.
    same(&rt, &voted.serve(4, 3)?, &Serve::First, &"voted.serve");
    Ok(())
}

#[test]
fn none_at_all(rt: HostRuntime) -> Result<(), OutOfMemory> {
    let mut voted = voted(rt.alloc())?;
    same(&rt, &voted.serve(0, 0)?, &Serve::Spent, &"voted.serve");
    assert!(rt; voted.served().is_empty());
    Ok(())
}

/// Whether this is what the session was begun with.
fn is_as_joined(committed: &Committed) -> bool {
    let joined = committed.joined();
    joined.low() && joined.tick() == 20
}

/// Whether this is what the session committed to.
fn is_as_committed(committed: &Committed) -> bool {
    committed.version() == 3
        && *committed.nonce() == NONCE
        && committed.kind() == HashKind::Sha512_256
}

#[test]
fn what_was_handed_in(rt: HostRuntime) -> Result<(), OutOfMemory> {
    let voted = voted(rt.alloc())?;
    assert!(rt; is_as_joined(voted.committed()));
    assert!(rt; is_as_committed(voted.committed()));
    same(
        &rt,
        &voted.hashes().as_slice().len(),
        &1,
        &"voted.hashes.len",
    );
    Ok(())
}

#[test]
fn a_session_that_ends(rt: HostRuntime) -> Result<(), OutOfMemory> {
    let session = Session::Voted(voted(rt.alloc())?);
    same(
        &rt,
        &(session.poll(), session.au()),
        &(POLL, 6),
        &"poll and AU",
    );
    let ended = session.end();
    same(&rt, &(ended.poll(), ended.au()), &(POLL, 6), &"poll and AU");
    let over = Session::Ended(ended);
    same(&rt, &(over.poll(), over.au()), &(POLL, 6), &"poll and AU");
    Ok(())
}
