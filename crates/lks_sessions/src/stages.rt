//! Sessions in polls of others, by how far they have come, and where they stand in their lists.

ghost use Rattle.std.specs.Prelude.{◌≡◌, find, option_map, map};
ghost use Rattle.std.specs.List.{position};
ghost use Rattle.std.specs.Option.{option_copied};
ghost use Rattle.lks_law.specs.Sessions.{is_poll};
ghost use Rattle.lks_law.specs.Taking.{session_at, pinned_at, cast_at, serving_block};
ghost use Rattle.lks_sessions.specs.Kept.{session_of, pinned_of, cast_of};

use lks_base::PollName;
use lks_blocks::Refs;
use lks_voter::{Committed, Joined, Voted};

/// The peer joined.
#[derive(Drop)]
pub struct JoinedSession {
    pub joined: Joined,
    /// How many blocks it gives the poller at most.
    pub repairs: u16,
}

/// It committed to a version, whose blocks it keeps.
#[derive(Drop)]
pub struct PinnedSession {
    pub committed: Committed,
    pub repairs: u16,
    pub refs: Refs,
}

/// It voted.
#[derive(Drop)]
pub struct CastSession {
    pub voted: Voted,
    pub repairs: u16,
    pub refs: Refs,
}

pub fn find_joined(sessions: &[JoinedSession], poll: PollName) -> Option<&JoinedSession>
    ensures { option_copied result ≡ find (λ s. is_poll s.joined.poll poll) sessions.now }
{
    sessions.iter().find(|s| s.joined.poll() == poll)
}

pub fn find_pinned(sessions: &[PinnedSession], poll: PollName) -> Option<&PinnedSession>
    ensures { option_copied result ≡ find (λ s. is_poll s.committed.joined.poll poll) sessions.now }
{
    sessions
        .iter()
        .find(|s| s.committed.joined().poll() == poll)
}

pub fn find_cast(sessions: &[CastSession], poll: PollName) -> Option<&CastSession>
    ensures { option_copied result ≡ find (λ s. is_poll s.voted.committed.joined.poll poll) sessions.now }
{
    sessions
        .iter()
        .find(|s| s.voted.committed().joined().poll() == poll)
}

pub fn place_of_joined(sessions: &[JoinedSession], poll: PollName) -> Option<usize>
    ensures { result ≡ position (λ s. is_poll s.joined.poll poll) sessions.now }
{
    sessions.iter().position(|s| s.joined.poll() == poll)
}

pub fn place_of_pinned(sessions: &[PinnedSession], poll: PollName) -> Option<usize>
    ensures { result ≡ position (λ s. is_poll s.committed.joined.poll poll) sessions.now }
{
    sessions
        .iter()
        .position(|s| s.committed.joined().poll() == poll)
}

pub fn place_of_cast(sessions: &[CastSession], poll: PollName) -> Option<usize>
    ensures { result ≡ position (λ s. is_poll s.voted.committed.joined.poll poll) sessions.now }
{
    sessions
        .iter()
        .position(|s| s.voted.committed().joined().poll() == poll)
}
