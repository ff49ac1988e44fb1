//! How far back a journal has to be read for a poll: polls that come one after another, by number, are each read once.

ghost use Rattle.std.specs.Prelude.{◌≡◌, ◌≤◌, length};
ghost use Rattle.lks_evidence.specs.Marks.{mark_after, polled_in};
ghost use Rattle.lks_evidence.specs.Marks as marks;

use crate::records::{Repair, as_repair};
use lks_base::Record;

/// Before this place of a journal no poll of the peer's own has a number above `high`, and none so far has one above
/// `seen`.
#[derive(Clone, Copy)]
pub struct ReadMark {
    pub place: usize,
    pub high: u32,
    pub seen: u32,
}

/// The peer's own poll that a record opens, takes a vote in or shuts.
#[tactic(auto, unfolding(crate::specs::Marks::polled_in))]
fn polled_in(r: &Record) -> Option<u32>
    ensures { result ≡ polled_in r.now }
{
    match r {
        Record::PollOpened { number, .. }
        | Record::VoteIn { number, .. }
        | Record::Shut { number } => Some(*number),
        Record::Deposit { .. }
        | Record::Nominated { .. }
        | Record::OuterOpened { .. }
        | Record::Asked { .. }
        | Record::RepairBad { .. }
        | Record::Replaced { .. }
        | Record::Closed { .. }
        | Record::Overdue { .. }
        | Record::Joined { .. }
        | Record::Committed { .. }
        | Record::Voted { .. }
        | Record::Served { .. }
        | Record::Ended { .. }
        | Record::Tuned { .. } => None,
    }
}

/// What has to be read for a poll.
pub fn recent<'a>(mark: ReadMark, r: &Repair<'_>, before: &'a [Record]) -> &'a [Record]
    requires { mark.place ≤ length before.now }
    ensures { result.now ≡ marks.recent_records mark r.now.number before.now }
{
    if mark.high < r.number {
        &before[mark.place..]
    } else {
        before
    }
}

/// The mark after one record more, which stands at this place.
#[tactic(auto, unfolding(crate::specs::Marks::mark_after))]
pub fn after(place: usize, mark: ReadMark, item: &Record) -> ReadMark
    ensures { result ≡ mark_after place mark item.now }
{
    let seen = mark.seen.max(polled_in(item).unwrap_or(0));
    if as_repair(item).is_some() {
        ReadMark {
            place,
            high: mark.seen,
            seen,
        }
    } else {
        ReadMark {
            place: mark.place,
            high: mark.high,
            seen,
        }
    }
}
