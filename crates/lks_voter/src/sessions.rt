//! A session in whichever state it is.

ghost use Rattle.std.specs.Prelude.{◌≡◌};
ghost use Rattle.lks_voter.specs.Ending.{poll_of, au_of, ended_session};

use crate::commitments::{Committed, Ended, Joined};
use crate::votes::Voted;
use lks_base::{AuId, PollName};

/// A voter's part in a poll.
#[derive(Drop)]
pub enum Session {
    Joined(Joined),
    Committed(Committed),
    Voted(Voted),
    Ended(Ended),
}

impl Session {
    /// The poll of the session.
    pub fn poll(&self) -> PollName
        ensures { result ≡ poll_of self.now }
    {
        match self {
            Session::Joined(joined) => joined.poll(),
            Session::Committed(committed) => committed.joined().poll(),
            Session::Voted(voted) => voted.committed().joined().poll(),
            Session::Ended(ended) => ended.poll(),
        }
    }

    /// The AU on which the poll is.
    pub fn au(&self) -> AuId
        ensures { result ≡ au_of self.now }
    {
        match self {
            Session::Joined(joined) => joined.au(),
            Session::Committed(committed) => committed.joined().au(),
            Session::Voted(voted) => voted.committed().joined().au(),
            Session::Ended(ended) => ended.au(),
        }
    }

    /// Ends the session, if it isn't over already.
    pub fn end(self) -> Ended
        ensures { result ≡ ended_session self }
    {
        Ended::of(self.poll(), self.au())
    }
}
