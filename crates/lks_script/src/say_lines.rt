//! Lines that say what a corrupt peer sends, one function for each message.

ghost use Rattle.std.specs.Prelude.{◌≡◌, map};
ghost use Rattle.lks_words.specs.Words.{Gives};
ghost use Rattle.lks_script.specs.StepLines.{invitation_said, proof_said, request_said, receipt_said, challenge_said};
ghost use Rattle.lks_script.specs.StepLines.{nominees_said, vote_said, repair_said, said_in, say_in};

use crate::steps::Step;
use lks_base::PeerId;
use lks_words::{Stop, answer, block, blocks, id, ids, index, poll};
use std::alloc::Global;

#[tactic(auto, unfolding(crate::specs::StepLines::invitation_said))]
fn invitation(from: PeerId, to: PeerId, number: u32, more: &[&[u8]]) -> Result<Step, Stop>
    ensures { Gives result (invitation_said from to number (map (λ w. w.now) more.now)) }
{
    let [word] = more else {
        return Err(Stop::Bad);
    };
    let au = id(word)?;
    Ok(Step::SayPoll {
        from,
        to,
        number,
        au,
    })
}

#[tactic(auto, unfolding(crate::specs::StepLines::proof_said))]
fn proof(from: PeerId, to: PeerId, number: u32, more: &[&[u8]]) -> Result<Step, Stop>
    ensures { Gives result (proof_said from to number (map (λ w. w.now) more.now)) }
{
    match more {
        [] => Ok(Step::SayProof { from, to, number }),
        _ => Err(Stop::Bad),
    }
}

#[tactic(auto, unfolding(crate::specs::StepLines::request_said))]
fn request(from: PeerId, to: PeerId, number: u32, more: &[&[u8]]) -> Result<Step, Stop>
    ensures { Gives result (request_said from to number (map (λ w. w.now) more.now)) }
{
    let [word] = more else {
        return Err(Stop::Bad);
    };
    let block = index(word)?;
    Ok(Step::SayRequest {
        from,
        to,
        number,
        block,
    })
}

#[tactic(auto, unfolding(crate::specs::StepLines::receipt_said))]
fn receipt(from: PeerId, to: PeerId, number: u32, more: &[&[u8]]) -> Result<Step, Stop>
    ensures { Gives result (receipt_said from to number (map (λ w. w.now) more.now)) }
{
    match more {
        [] => Ok(Step::SayReceipt { from, to, number }),
        _ => Err(Stop::Bad),
    }
}

#[tactic(auto, unfolding(crate::specs::StepLines::challenge_said))]
fn challenge(from: PeerId, to: PeerId, number: u32, more: &[&[u8]]) -> Result<Step, Stop>
    ensures { Gives result (challenge_said from to number (map (λ w. w.now) more.now)) }
{
    let [word] = more else {
        return Err(Stop::Bad);
    };
    let yes = answer(word)?;
    Ok(Step::SayChallenge {
        from,
        to,
        number,
        yes,
    })
}

#[tactic(auto, unfolding(crate::specs::StepLines::nominees_said))]
fn nominees(
    alloc: Global,
    from: PeerId,
    to: PeerId,
    number: u32,
    more: &[&[u8]],
) -> Result<Step, Stop>
    ensures { Gives result (nominees_said from to number (map (λ w. w.now) more.now)) }
{
    let nominees = ids(alloc, more)?;
    Ok(Step::SayNominate {
        from,
        to,
        number,
        nominees,
    })
}

#[tactic(auto, unfolding(crate::specs::StepLines::vote_said))]
fn vote(alloc: Global, from: PeerId, to: PeerId, number: u32, more: &[&[u8]]) -> Result<Step, Stop>
    ensures { Gives result (vote_said from to number (map (λ w. w.now) more.now)) }
{
    let [au, of, content] = more else {
        return Err(Stop::Bad);
    };
    let au = id(au)?;
    let blocks = blocks(alloc, content)?;
    if *of != b"of".as_slice() {
        return Err(Stop::Bad);
    }
    Ok(Step::SayVote {
        from,
        to,
        number,
        au,
        blocks,
    })
}

#[tactic(auto, unfolding(crate::specs::StepLines::repair_said))]
fn repair(
    alloc: Global,
    from: PeerId,
    to: PeerId,
    number: u32,
    more: &[&[u8]],
) -> Result<Step, Stop>
    ensures { Gives result (repair_said from to number (map (λ w. w.now) more.now)) }
{
    let [word, content] = more else {
        return Err(Stop::Bad);
    };
    let at = index(word)?;
    let bytes = block(alloc, content)?;
    Ok(Step::SayRepair {
        from,
        to,
        number,
        block: at,
        bytes,
    })
}

/// What is said, by the word that names it and those behind the poll's number.
#[tactic(auto, unfolding(crate::specs::StepLines::said_in))]
fn said(
    alloc: Global,
    what: &[u8],
    from: PeerId,
    to: PeerId,
    number: u32,
    more: &[&[u8]],
) -> Result<Step, Stop>
    ensures { Gives result (said_in what.now from to number (map (λ w. w.now) more.now)) }
{
    if what == b"poll".as_slice() {
        invitation(from, to, number, more)
    } else if what == b"proof".as_slice() {
        proof(from, to, number, more)
    } else if what == b"request".as_slice() {
        request(from, to, number, more)
    } else if what == b"receipt".as_slice() {
        receipt(from, to, number, more)
    } else if what == b"challenge".as_slice() {
        challenge(from, to, number, more)
    } else if what == b"nominate".as_slice() {
        nominees(alloc, from, to, number, more)
    } else if what == b"vote".as_slice() {
        vote(alloc, from, to, number, more)
    } else if what == b"repair".as_slice() {
        repair(alloc, from, to, number, more)
    } else {
        Err(Stop::Bad)
    }
}

/// What a corrupt peer says.
#[tactic(auto, unfolding(crate::specs::StepLines::say_in))]
pub fn say(alloc: Global, words: &[&[u8]]) -> Result<Step, Stop>
    ensures { Gives result (say_in (map (λ w. w.now) words.now)) }
{
    let [from, what, to, number, more @ ..] = words else {
        return Err(Stop::Bad);
    };
    let from = id(from)?;
    let to = id(to)?;
    let number = poll(number)?;
    said(alloc, what, from, to, number, more)
}
