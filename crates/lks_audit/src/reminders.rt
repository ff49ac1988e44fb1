//! Reminders of a poll, and requests that are given up.

ghost use Rattle.std.specs.Prelude.{◌≡◌, ◌≤◌, IfOk, IfSome, option_map};
ghost use Rattle.lks_base.specs.declared.limits.TheConstants.{LAST_BLOCK};
ghost use Rattle.lks_law.specs.Reaction.{asked_again, given_up};
ghost use Rattle.lks_law.specs.Reacting.{nudge_in, give_up_in};
ghost use Rattle.lks_choice.specs.Asking.{awaited_request};
ghost use Rattle.lks_audit.specs.Seen.{poll_of, request_of};

use crate::letters::{invite, write};
use crate::reactions::{adding, no_reaction, no_sends, sending, telling};
use lks_base::{Message, OutOfMemory, PeerId, Reaction, Record};
use lks_poller::PollSession;
use std::alloc::Global;

fn ask_again(
    alloc: Global,
    number: u32,
    request: Option<(u16, PeerId)>,
) -> Result<Reaction, OutOfMemory>
    requires { IfSome request (λ r. r.0 ≤ LAST_BLOCK) }
    ensures { IfOk result (λ r. r ≡ asked_again number (option_map request_of request)) }
{
    match request {
        Some((block, voter)) => {
            let message = Message::RepairRequest { number, block };
            sending(alloc, write(alloc, &message, voter)?)
        }
        None => Ok(no_reaction(alloc)),
    }
}

/// Invites who didn't vote yet again, or asks for the block again that the poll waits for.
#[tactic(auto, unfolding(lks_law::specs::Reacting::nudge_in))]
pub fn nudge(alloc: Global, poll: &PollSession) -> Result<Reaction, OutOfMemory>
    requires { IfSome (awaited_request poll.now.suppliers) (λ r. r.0 ≤ LAST_BLOCK) }
    ensures { IfOk result (λ r. r ≡ nudge_in (poll_of poll.now)) }
{
    let number = poll.poll().number;
    if poll.is_shut() {
        return ask_again(alloc, number, poll.unanswered());
    }
    let peers = poll.silent()?;
    Ok(telling(alloc, invite(alloc, number, poll.au(), peers.as_slice())?))
}

/// Gives up the request that the poll waits for.
#[tactic(auto, unfolding(lks_law::specs::Reacting::give_up_in))]
pub fn give_up(alloc: Global, poll: &PollSession) -> Result<Reaction, OutOfMemory>
    ensures { IfOk result (λ r. r ≡ give_up_in (poll_of poll.now)) }
{
    match poll.unanswered() {
        Some((block, voter)) => {
            let item = Record::RepairBad {
                number: poll.poll().number,
                block,
                voter,
            };
            adding(alloc, item, no_sends(alloc))
        }
        None => Ok(no_reaction(alloc)),
    }
}
