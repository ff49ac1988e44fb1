//! What peer 2 sends to peer 1 about poll 7, as the input of peer 1.

ghost use Rattle.std.specs.Prelude.{◌≡◌, ◌≤◌, IfOk, IfSome, length, []};
ghost use Rattle.lks_outside.specs.Verdicts.{first_byte};
ghost use Rattle.lks_law.specs.Facts.{IsHeard};

use crate::same::same;
use lks_base::{Bytes, HashKind, Input, Judged, Message, OutOfMemory, PeerId, Seq};
use lks_inbox::{receive, receive_judged, verdict_on};
use lks_message::encode;
use lks_outside::{EffortJudge, FirstByteJudge, Question};
use std::alloc::Global;

/// Who is asked of, whose poll it is, and its number.
type Asked = (PeerId, PeerId, u32);

/// Counts the questions, and remembers the last one.
#[derive(Drop)]
struct Counting {
    judge: FirstByteJudge,
    count: u32,
    last: Option<Asked>,
}

impl EffortJudge for Counting {
    ghost heard = { λ c. c.judge };

    ghost verdict = { λ _. first_byte };

    fn judge(&mut self, q: Question) -> bool {
        self.count = self.count.saturating_add(1);
        self.last = Some((q.from, q.poller, q.number));
        self.judge.judge(q)
    }
}

fn make_judge(alloc: Global) -> Result<Counting, OutOfMemory>
    ensures { IfOk result (λ c. c.judge ≡ []) }
{
    Ok(Counting {
        judge: FirstByteJudge::new(alloc)?,
        count: 0,
        last: None,
    })
}

/// What is sent: a message with a proof of this byte, one without a proof, or no message.
#[derive(Clone, Copy)]
enum Sent {
    Proof(u8),
    Vote(u8),
    Poll,
    Receipt,
    Bare(&'static [u8]),
}

fn proof_of(alloc: Global, byte: u8) -> Result<Bytes, OutOfMemory>
    ensures { IfOk result (λ bytes. length bytes ≤ 1) }
{
    Ok(Bytes::from_vec(vec![in alloc; byte]?))
}

fn encode_proof(alloc: Global, byte: u8) -> Result<Vec<u8>, OutOfMemory> {
    let message = Message::PollProof {
        number: 7,
        nonce: [3; 32],
        kind: HashKind::Sha256,
        proof: proof_of(alloc, byte)?,
    };
    encode(alloc, &message)
}

fn encode_vote(alloc: Global, byte: u8) -> Result<Vec<u8>, OutOfMemory> {
    let message = Message::Vote {
        number: 7,
        hashes: Seq::from_vec(vec![in alloc; [5; 32]]?),
        proof: proof_of(alloc, byte)?,
    };
    encode(alloc, &message)
}

fn bytes_of(alloc: Global, sent: Sent) -> Result<Vec<u8>, OutOfMemory> {
    match sent {
        Sent::Proof(byte) => encode_proof(alloc, byte),
        Sent::Vote(byte) => encode_vote(alloc, byte),
        Sent::Poll => encode(alloc, &Message::Poll { number: 7, au: 1 }),
        Sent::Receipt => encode(alloc, &Message::Receipt { number: 7 }),
        Sent::Bare(bytes) => Ok(bytes.to_vec(alloc)?),
    }
}

/// From whom something is heard, and its bytes again, where something is.
fn heard(alloc: Global, input: &Option<Input>) -> Result<Option<(PeerId, Vec<u8>)>, OutOfMemory>
    requires { IfSome input.now IsHeard }
{
    match input {
        Some(Input::Got { from, message, .. }) => Ok(Some((*from, encode(alloc, message)?))),
        Some(
            Input::OpenPoll { .. }
            | Input::Widen { .. }
            | Input::Shut { .. }
            | Input::Tally { .. }
            | Input::Nudge { .. }
            | Input::GiveUp { .. }
            | Input::Work { .. }
            | Input::Expire { .. }
            | Input::Check
            | Input::Tune { .. },
        )
        | None => Ok(None),
    }
}

/// What is sent, whether it is a message, what the judge is asked, and what it says.
const ROWS: [(Sent, bool, Option<Asked>, Judged); 9] = [
    // The poller of poll 7 is its sender.
    (Sent::Proof(1), true, Some((2, 2, 7)), Judged::Accepted),
    (Sent::Proof(0), true, Some((2, 2, 7)), Judged::Refused),
    // The poller is the receiver.
    (Sent::Vote(1), true, Some((2, 1, 7)), Judged::Accepted),
    (Sent::Vote(2), true, Some((2, 1, 7)), Judged::Refused),
    // Messages that put no question.
    (Sent::Poll, true, None, Judged::NotAsked),
    (Sent::Receipt, true, None, Judged::NotAsked),
    // No bytes, a receipt with a byte more, and a vote without its proof.
    (Sent::Bare(b""), false, None, Judged::NotAsked),
    (
        Sent::Bare(b"\x01\x08\0\0\0\x07\0"),
        false,
        None,
        Judged::NotAsked,
    ),
    (
        Sent::Bare(b"\x01\x05\0\0\0\x07\0\0"),
        false,
        None,
        Judged::NotAsked,
    ),
];

/// Whether these bytes are heard of peer 2 where they are a message, and nothing is where they aren't.
fn is_whole(
    alloc: Global,
    input: &Option<Input>,
    bytes: &[u8],
    is_message: bool,
) -> Result<bool, OutOfMemory>
    requires { IfSome input.now IsHeard }
{
    Ok(match heard(alloc, input)? {
        Some((from, again)) => is_message && from == 2 && again.as_slice() == bytes,
        None => !is_message,
    })
}

/// The verdict on what is sent, what the judge is asked last and how often, and whether what is heard is whole.
fn received(
    alloc: Global,
    sent: Sent,
    is_message: bool,
) -> Result<(Judged, Option<Asked>, u32, bool), OutOfMemory> {
    let bytes = bytes_of(alloc, sent)?;
    let mut judge = make_judge(alloc)?;
    let input = receive(alloc, 2, 1, &bytes, &mut judge)?;
    let whole = is_whole(alloc, &input, &bytes, is_message)?;
    Ok((verdict_on(&input), judge.last, judge.count, whole))
}

#[test]
fn messages_received(rt: HostRuntime) -> Result<(), OutOfMemory> {
    for (row, (sent, is_message, asked, judged)) in ROWS.iter().enumerate() {
        let found = received(rt.alloc(), *sent, *is_message)?;
        let count = u32::from(asked.is_some());
        same(&rt, &found, &(*judged, *asked, count, true), &row);
    }
    Ok(())
}

/// The verdict on what was refused before, and whether what is heard is whole.
fn refused_before(
    alloc: Global,
    sent: Sent,
    is_message: bool,
) -> Result<(Judged, bool), OutOfMemory> {
    let bytes = bytes_of(alloc, sent)?;
    let input = receive_judged(alloc, 2, &bytes, Judged::Refused)?;
    let whole = is_whole(alloc, &input, &bytes, is_message)?;
    Ok((verdict_on(&input), whole))
}

/// The verdict that is known is the input's, whatever the message is.
#[test]
fn messages_judged_before(rt: HostRuntime) -> Result<(), OutOfMemory> {
    for (row, (sent, is_message, _, _)) in ROWS.iter().enumerate() {
        let judged = if *is_message {
            Judged::Refused
        } else {
            Judged::NotAsked
        };
        let found = refused_before(rt.alloc(), *sent, *is_message)?;
        same(&rt, &found, &(judged, true), &row);
    }
    assert!(rt; verdict_on(&Some(Input::Check)) == Judged::NotAsked);
    Ok(())
}
