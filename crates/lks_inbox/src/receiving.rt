//! Bytes to inputs.

ghost use Rattle.std.specs.Prelude.{◌≡◌, ◌<◌, ◌++◌, ℕ, List, Some, IfOk, IfSome, OnOk, OnErr, length};
ghost use Rattle.std.specs.Option.{option_to_list};
ghost use Rattle.lks_base.specs.declared.limits.TheConstants.{MOST_EVENTS};
ghost use Rattle.lks_inbox.specs.Received.{envelope_of, asked_by, judged_by, deed_by, verdict_with};
ghost use Rattle.lks_law.specs.Facts.{IsHeard};
ghost use Rattle.lks_law.specs.Questions.{judgement_on, question_by};
ghost use Rattle.lks_law.specs.World.{delivers, message_in};
ghost use Rattle.lks_message.specs.Spelling.{IsWithin};

use lks_base::{Input, Judged, Message, OutOfMemory, PeerId};
use lks_message::{MsgFault, decode};
use lks_outside::{EffortJudge, Question};
use std::alloc::Global;

/// The message that the bytes spell, if they spell one.
fn read(alloc: Global, bytes: &[u8]) -> Result<Option<Message>, OutOfMemory>
    ensures message { IfOk result (λ m. m ≡ message_in bytes.now) }
    ensures within { IfOk result (λ m. IfSome m IsWithin) }
{
    match decode(alloc, bytes) {
        Ok(message) => Ok(Some(message)),
        Err(MsgFault::Memory) => Err(OutOfMemory),
        Err(_) => Ok(None),
    }
}

/// The question that a message puts: on the proof of its poll's poller, or of a voter. The proof is copied, at most 64
/// bytes.
fn question_by(from: PeerId, to: PeerId, message: &Message) -> Result<Option<Question>, OutOfMemory>
    ensures { IfOk result (λ q. (bytes : List ℕ) → q ≡ question_by (envelope_of from to bytes) message.now) }
{
    match message {
        Message::PollProof { number, proof, .. } => Ok(Some(Question {
            from,
            poller: from,
            number: *number,
            proof: proof.clone()?,
        })),
        Message::Vote { number, proof, .. } => Ok(Some(Question {
            from,
            poller: to,
            number: *number,
            proof: proof.clone()?,
        })),
        Message::Poll { .. }
        | Message::PollChallenge { .. }
        | Message::Nominate { .. }
        | Message::RepairRequest { .. }
        | Message::Repair { .. }
        | Message::Receipt { .. } => Ok(None),
    }
}

/// Asks the judge what is to be asked, if anything is.
fn ask<J: EffortJudge>(judge: &mut J, question: Option<Question>) -> Judged
    requires room { length (J.heard judge.old) < MOST_EVENTS }
    ensures judged { result ≡ judgement_on (J.verdict judge.old) (J.heard judge.old) question }
    ensures asks { J.heard judge.new ≡ J.heard judge.old ++ option_to_list question }
    ensures same { J.verdict judge.new ≡ J.verdict judge.old }
{
    match question {
        Some(question) => {
            if judge.judge(question) {
                Judged::Accepted
            } else {
                Judged::Refused
            }
        }
        None => Judged::NotAsked,
    }
}

/// What came from `from` to the honest peer `to`, as that peer's input: the message that the bytes spell, with the
/// judge's verdict on it, or nothing where they spell none. A `PollProof` or a `Vote` puts one question, and nothing
/// else does (Maniatis et al., ACM TOCS 23(1), 2005, section 4). The message moves on whole, and only its proof of
/// effort is copied, for the judge. Want of memory comes before the judge is asked.
pub fn receive<J: EffortJudge>(
    alloc: Global,
    from: PeerId,
    to: PeerId,
    bytes: &[u8],
    judge: &mut J,
) -> Result<Option<Input>, OutOfMemory>
    requires { length (J.heard judge.old) < MOST_EVENTS }
    ensures input { IfOk result
        (λ i. deed_by to i
        ≡ delivers (Some (envelope_of from to bytes.now))
        (judged_by (J.verdict judge.old) (J.heard judge.old) (envelope_of from to bytes.now))) }
    ensures verdict { IfOk result
        (λ i. verdict_with i ≡ judged_by (J.verdict judge.old) (J.heard judge.old) (envelope_of from to bytes.now)) }
    ensures within { IfOk result (λ i. IfSome i IsHeard) }
    ensures asks { OnOk result
        (J.heard judge.new ≡ J.heard judge.old ++ option_to_list (asked_by (envelope_of from to bytes.now))) }
    ensures same { J.verdict judge.new ≡ J.verdict judge.old }
    ensures err { OnErr result (judge.new ≡ judge.old) }
{
    let Some(message) = read(alloc, bytes)? else {
        return Ok(None);
    };
    let question = question_by(from, to, &message)?;
    let judged = ask(judge, question);
    Ok(Some(Input::Got {
        from,
        message,
        judged,
    }))
}

/// The same where the verdict is known, or nobody is to be asked: a judge is asked of what honest peers receive alone.
pub fn receive_judged(
    alloc: Global,
    from: PeerId,
    bytes: &[u8],
    judged: Judged,
) -> Result<Option<Input>, OutOfMemory>
    ensures input { IfOk result
        (λ i. (to : ℕ) → deed_by to i ≡ delivers (Some (envelope_of from to bytes.now)) judged) }
    ensures within { IfOk result (λ i. IfSome i IsHeard) }
{
    match read(alloc, bytes)? {
        Some(message) => Ok(Some(Input::Got {
            from,
            message,
            judged,
        })),
        None => Ok(None),
    }
}

/// The verdict that came with an input: none was asked for where nothing was heard.
pub fn verdict_on(input: &Option<Input>) -> Judged
    ensures { result ≡ verdict_with input.now }
{
    match input {
        Some(Input::Got { judged, .. }) => *judged,
        Some(
            Input::OpenPoll { .. }
            | Input::Widen { .. }
            | Input::Shut { .. }
            | Input::Tally { .. }
            | Input::Nudge { .. }
            | Input::GiveUp { .. }
            | Input::Work { .. }
            | Input::Expire { .. }
            | Input::Check
            | Input::Tune { .. },
        )
        | None => Judged::NotAsked,
    }
}
