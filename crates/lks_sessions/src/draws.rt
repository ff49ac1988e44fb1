//! The draws of a peer for polls of others: one for the admission to a poll, and one for its nominees.

ghost use Rattle.std.specs.Prelude.{◌≡◌, ◌≤◌, length, IfOk};
ghost use Rattle.lks_base.specs.declared.limits.TheConstants as limits;
ghost use Rattle.lks_draw.specs.Words.{drawn_from};
ghost use Rattle.lks_law.specs.Voting as law;

use lks_audit::Station;
use lks_base::{Ids, MOST_NOMINEES, OutOfMemory, PeerId, PollName, Seq};
use lks_draw::Draws;
use std::alloc::Global;

/// The labels of the draws of admissions and of nominees.
const ADMISSION: u8 = 3;

const NOMINEES: u8 = 5;

fn number_of(poll: PollName) -> u32
    ensures { result ≡ law.draw_number poll }
{
    u32::from(poll.poller) * 65_536 + poll.number % 65_536
}

/// The draw that decides whether the poller is let in.
pub fn draw_admission(own: &Station, poll: PollName) -> Draws
    ensures { result ≡ drawn_from own.now.seed 3 (law.draw_number poll) }
{
    Draws::new(&own.seed, ADMISSION, number_of(poll))
}

/// Whom the peer nominates in a poll.
#[tactic(auto, unfolding(lks_law::specs::Voting::nominees))]
pub fn pick_nominees(
    alloc: Global,
    own: &Station,
    refs: &[PeerId],
    poll: PollName,
) -> Result<Ids, OutOfMemory>
    ensures picked { IfOk result (λ ids. ids ≡ law.nominees own.now refs.now poll) }
    ensures few { IfOk result (λ ids. length ids ≤ limits.MOST_NOMINEES) }
{
    let mut draws = Draws::new(&own.seed, NOMINEES, number_of(poll));
    match draws.pick(alloc, refs, MOST_NOMINEES as usize) {
        Ok(members) => Ok(Seq::from_vec(members)),
        Err(_) => Err(OutOfMemory),
    }
}
