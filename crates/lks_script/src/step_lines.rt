//! Lines that say a step.

ghost use Rattle.std.specs.Prelude.{◌≡◌, map, IfOk};
ghost use Rattle.lks_words.specs.Words.{Gives, parts};
ghost use Rattle.lks_script.specs.StepLines.{open_in, own_poll_in, poll_step_in, in_own_poll, check_in, session_in};
ghost use Rattle.lks_script.specs.StepLines.{work_in, expire_in, tune_in, own_step_in, peer_step_in, tick_in, next_in};
ghost use Rattle.lks_script.specs.StepLines.{lose_in, again_in, settle_in, finish_in, forge_in, crash_in, cut_next_in};
ghost use Rattle.lks_script.specs.StepLines.{cut_again_in, cut_own_in, cut_step_in, cut_in, step_in, steps_with};
ghost use Rattle.lks_script.specs.StepLines.{step_under};

use crate::say_lines::say;
use crate::step_rules::{power_for, step_of};
use crate::steps::{CutStep, Step};
use lks_base::{OutOfMemory, PeerId, PeerStep, Plan, PollName, Seq};
use lks_words::{Stop, bytes, count, id, large, poll, small, split};
use std::alloc::Global;

#[tactic(auto, unfolding(crate::specs::StepLines::open_in))]
fn open(words: &[&[u8]]) -> Result<PeerStep, Stop>
    ensures { Gives result (open_in (map (λ w. w.now) words.now)) }
{
    let [peer, au] = words else {
        return Err(Stop::Bad);
    };
    let peer = id(peer)?;
    let au = id(au)?;
    Ok(PeerStep::OpenPoll { peer, au })
}

/// A peer, and the number of a poll of its own.
#[tactic(auto, unfolding(crate::specs::StepLines::own_poll_in))]
fn own_poll(words: &[&[u8]]) -> Result<(u16, u32), Stop>
    ensures { Gives result (own_poll_in (map (λ w. w.now) words.now)) }
{
    let [peer, number] = words else {
        return Err(Stop::Bad);
    };
    let peer = id(peer)?;
    let number = poll(number)?;
    Ok((peer, number))
}

/// A step in it, by the word that names it.
#[tactic(auto, unfolding(crate::specs::StepLines::poll_step_in))]
fn poll_step(key: &[u8], peer: u16, number: u32) -> Result<PeerStep, Stop>
    ensures { Gives result (poll_step_in key.now peer number) }
{
    if key == b"outer".as_slice() {
        Ok(PeerStep::Widen { peer, number })
    } else if key == b"shut".as_slice() {
        Ok(PeerStep::Shut { peer, number })
    } else if key == b"tally".as_slice() {
        Ok(PeerStep::Tally { peer, number })
    } else if key == b"nudge".as_slice() {
        Ok(PeerStep::Nudge { peer, number })
    } else if key == b"give-up".as_slice() {
        Ok(PeerStep::GiveUp { peer, number })
    } else {
        Err(Stop::Bad)
    }
}

#[tactic(auto, unfolding(crate::specs::StepLines::in_own_poll))]
fn step_in_own_poll(key: &[u8], more: &[&[u8]]) -> Result<PeerStep, Stop>
    ensures { Gives result (in_own_poll key.now (map (λ w. w.now) more.now)) }
{
    let (peer, number) = own_poll(more)?;
    poll_step(key, peer, number)
}

#[tactic(auto, unfolding(crate::specs::StepLines::check_in))]
fn check(words: &[&[u8]]) -> Result<PeerStep, Stop>
    ensures { Gives result (check_in (map (λ w. w.now) words.now)) }
{
    let [peer] = words else {
        return Err(Stop::Bad);
    };
    let peer = id(peer)?;
    Ok(PeerStep::Check { peer })
}

/// A peer, and a poll by its poller and its number.
#[tactic(auto, unfolding(crate::specs::StepLines::session_in))]
fn session(words: &[&[u8]]) -> Result<(PeerId, PollName), Stop>
    ensures { Gives result (session_in (map (λ w. w.now) words.now)) }
{
    let [voter, poller, number] = words else {
        return Err(Stop::Bad);
    };
    let voter = id(voter)?;
    let poller = id(poller)?;
    let number = poll(number)?;
    Ok((voter, PollName { poller, number }))
}

#[tactic(auto, unfolding(crate::specs::StepLines::work_in))]
fn work(words: &[&[u8]]) -> Result<PeerStep, Stop>
    ensures { Gives result (work_in (map (λ w. w.now) words.now)) }
{
    let (peer, poll) = session(words)?;
    Ok(PeerStep::Work { peer, poll })
}

#[tactic(auto, unfolding(crate::specs::StepLines::expire_in))]
fn expire(words: &[&[u8]]) -> Result<PeerStep, Stop>
    ensures { Gives result (expire_in (map (λ w. w.now) words.now)) }
{
    let (peer, poll) = session(words)?;
    Ok(PeerStep::Expire { peer, poll })
}

#[tactic(auto, unfolding(crate::specs::StepLines::tune_in))]
fn tune(words: &[&[u8]]) -> Result<PeerStep, Stop>
    ensures { Gives result (tune_in (map (λ w. w.now) words.now)) }
{
    let [peer, quorum, minority, repairs] = words else {
        return Err(Stop::Bad);
    };
    let peer = id(peer)?;
    let quorum = count(quorum)?;
    let minority = count(minority)?;
    let repairs = count(repairs)?;
    Ok(PeerStep::Tune {
        peer,
        quorum,
        minority,
        repairs,
    })
}

/// A step of a peer's own.
#[tactic(auto, unfolding(crate::specs::StepLines::own_step_in))]
fn own_step(key: &[u8], more: &[&[u8]]) -> Result<PeerStep, Stop>
    ensures { Gives result (own_step_in key.now (map (λ w. w.now) more.now)) }
{
    if key == b"open".as_slice() {
        open(more)
    } else if key == b"check".as_slice() {
        check(more)
    } else if key == b"work".as_slice() {
        work(more)
    } else if key == b"expire".as_slice() {
        expire(more)
    } else if key == b"tune".as_slice() {
        tune(more)
    } else {
        step_in_own_poll(key, more)
    }
}

/// The same as a step of the script.
#[tactic(auto, unfolding(crate::specs::StepLines::peer_step_in))]
fn peer_step(key: &[u8], more: &[&[u8]]) -> Result<Step, Stop>
    ensures { Gives result (peer_step_in key.now (map (λ w. w.now) more.now)) }
{
    let step = own_step(key, more)?;
    Ok(Step::Peer(step))
}

#[tactic(auto, unfolding(crate::specs::StepLines::tick_in))]
fn tick(words: &[&[u8]]) -> Result<Step, Stop>
    ensures { Gives result (tick_in (map (λ w. w.now) words.now)) }
{
    let [ticks] = words else {
        return Err(Stop::Bad);
    };
    let by = large(ticks)?;
    Ok(Step::Tick { by })
}

#[tactic(auto, unfolding(crate::specs::StepLines::next_in))]
fn next(words: &[&[u8]]) -> Result<Step, Stop>
    ensures { Gives result (next_in (map (λ w. w.now) words.now)) }
{
    match words {
        [] => Ok(Step::Next { times: 1 }),
        [times] => {
            let times = count(times)?;
            Ok(Step::Next { times })
        }
        _ => Err(Stop::Bad),
    }
}

#[tactic(auto, unfolding(crate::specs::StepLines::lose_in))]
fn lose(words: &[&[u8]]) -> Result<Step, Stop>
    ensures { Gives result (lose_in (map (λ w. w.now) words.now)) }
{
    match words {
        [] => Ok(Step::Lose),
        _ => Err(Stop::Bad),
    }
}

#[tactic(auto, unfolding(crate::specs::StepLines::again_in))]
fn again(words: &[&[u8]]) -> Result<Step, Stop>
    ensures { Gives result (again_in (map (λ w. w.now) words.now)) }
{
    let [envelope] = words else {
        return Err(Stop::Bad);
    };
    let envelope = large(envelope)?;
    Ok(Step::Again { envelope })
}

#[tactic(auto, unfolding(crate::specs::StepLines::settle_in))]
fn settle(words: &[&[u8]]) -> Result<Step, Stop>
    ensures { Gives result (settle_in (map (λ w. w.now) words.now)) }
{
    match words {
        [] => Ok(Step::Settle),
        _ => Err(Stop::Bad),
    }
}

#[tactic(auto, unfolding(crate::specs::StepLines::finish_in))]
fn finish(words: &[&[u8]]) -> Result<Step, Stop>
    ensures { Gives result (finish_in (map (λ w. w.now) words.now)) }
{
    match words {
        [] => Ok(Step::Finish),
        _ => Err(Stop::Bad),
    }
}

#[tactic(auto, unfolding(crate::specs::StepLines::forge_in))]
fn forge(alloc: Global, words: &[&[u8]]) -> Result<Step, Stop>
    ensures { Gives result (forge_in (map (λ w. w.now) words.now)) }
{
    let [from, to, content] = words else {
        return Err(Stop::Bad);
    };
    let from = id(from)?;
    let to = id(to)?;
    let bytes = bytes(alloc, content)?;
    Ok(Step::Forge { from, to, bytes })
}

#[tactic(auto, unfolding(crate::specs::StepLines::crash_in))]
fn crash(words: &[&[u8]]) -> Result<Step, Stop>
    ensures { Gives result (crash_in (map (λ w. w.now) words.now)) }
{
    let [peer] = words else {
        return Err(Stop::Bad);
    };
    let peer = id(peer)?;
    Ok(Step::Crash { peer })
}

#[tactic(auto, unfolding(crate::specs::StepLines::cut_next_in))]
fn cut_next(words: &[&[u8]]) -> Result<CutStep, Stop>
    ensures { Gives result (cut_next_in (map (λ w. w.now) words.now)) }
{
    match words {
        [] => Ok(CutStep::Next),
        _ => Err(Stop::Bad),
    }
}

#[tactic(auto, unfolding(crate::specs::StepLines::cut_again_in))]
fn cut_again(words: &[&[u8]]) -> Result<CutStep, Stop>
    ensures { Gives result (cut_again_in (map (λ w. w.now) words.now)) }
{
    let [envelope] = words else {
        return Err(Stop::Bad);
    };
    let envelope = large(envelope)?;
    Ok(CutStep::Again { envelope })
}

#[tactic(auto, unfolding(crate::specs::StepLines::cut_own_in))]
fn cut_own(key: &[u8], more: &[&[u8]]) -> Result<CutStep, Stop>
    ensures { Gives result (cut_own_in key.now (map (λ w. w.now) more.now)) }
{
    let step = own_step(key, more)?;
    Ok(CutStep::Peer(step))
}

/// What a line cuts off.
#[tactic(auto, unfolding(crate::specs::StepLines::cut_step_in))]
fn cut_step(key: &[u8], more: &[&[u8]]) -> Result<CutStep, Stop>
    ensures { Gives result (cut_step_in key.now (map (λ w. w.now) more.now)) }
{
    if key == b"next".as_slice() {
        cut_next(more)
    } else if key == b"again".as_slice() {
        cut_again(more)
    } else {
        cut_own(key, more)
    }
}

#[tactic(auto, unfolding(crate::specs::StepLines::cut_in))]
fn cut(words: &[&[u8]]) -> Result<Step, Stop>
    ensures { Gives result (cut_in (map (λ w. w.now) words.now)) }
{
    let [calls, choice, key, more @ ..] = words else {
        return Err(Stop::Bad);
    };
    let calls = small(calls)?;
    let choice = small(choice)?;
    let step = cut_step(key, more)?;
    Ok(Step::Cut {
        calls,
        choice,
        step,
    })
}

/// The step that a word and those behind it say.
#[tactic(auto, unfolding(crate::specs::StepLines::step_in))]
fn step(alloc: Global, key: &[u8], more: &[&[u8]]) -> Result<Step, Stop>
    ensures { Gives result (step_in key.now (map (λ w. w.now) more.now)) }
{
    if key == b"tick".as_slice() {
        tick(more)
    } else if key == b"next".as_slice() {
        next(more)
    } else if key == b"lose".as_slice() {
        lose(more)
    } else if key == b"again".as_slice() {
        again(more)
    } else if key == b"settle".as_slice() {
        settle(more)
    } else if key == b"finish".as_slice() {
        finish(more)
    } else if key == b"forge".as_slice() {
        forge(alloc, more)
    } else if key == b"say".as_slice() {
        say(alloc, more)
    } else if key == b"crash".as_slice() {
        crash(more)
    } else if key == b"cut".as_slice() {
        cut(more)
    } else {
        peer_step(key, more)
    }
}

/// The steps with one more.
#[tactic(auto, unfolding(crate::specs::StepLines::steps_with))]
pub fn add_step(
    alloc: Global,
    plan: &Plan,
    steps: Seq<Step>,
    key: &[u8],
    more: &[&[u8]],
) -> Result<Seq<Step>, Stop>
    ensures { Gives result (steps_with plan.now steps key.now (map (λ w. w.now) more.now)) }
{
    let step = step(alloc, key, more)?;
    if !step_of(plan, &step) || !power_for(steps.as_slice(), &step) {
        return Err(Stop::Bad);
    }
    let mut steps = steps.into_vec();
    steps.push(step)?;
    Ok(Seq::from_vec(steps))
}

#[tactic(auto, unfolding(crate::specs::StepLines::step_under))]
fn single_step(alloc: Global, plan: &Plan, words: &[&[u8]]) -> Result<Step, Stop>
    ensures { Gives result (step_under plan.now (map (λ w. w.now) words.now)) }
{
    let [key, more @ ..] = words else {
        return Err(Stop::Bad);
    };
    let step = step(alloc, key, more)?;
    if !step_of(plan, &step) {
        return Err(Stop::Bad);
    }
    Ok(step)
}

/// The step that a line says by itself, without its line feed. There is none exactly where it isn't a step line under
/// the plan.
pub fn read_step(alloc: Global, plan: &Plan, line: &[u8]) -> Result<Option<Step>, OutOfMemory>
    ensures { IfOk result (λ step. step ≡ step_under plan.now (parts 32 line.now)) }
{
    let words = split(alloc, line, b' ').map_err(|_| OutOfMemory)?;
    match single_step(alloc, plan, &words) {
        Ok(step) => Ok(Some(step)),
        Err(Stop::Bad) => Ok(None),
        Err(Stop::Memory) => Err(OutOfMemory),
    }
}
