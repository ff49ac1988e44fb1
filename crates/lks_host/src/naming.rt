//! What a batch names behind a journal.

ghost use Rattle.std.specs.Prelude.{◌≡◌, ◌||◌, [], All, IfOk, max, option_map};
ghost use Rattle.lks_base.specs.declared.messages.Message.TheVariants as messages;
ghost use Rattle.lks_base.specs.declared.names.Judged.TheVariants as judgements;
ghost use Rattle.lks_base.specs.declared.reactions.Input.TheVariants as inputs;
ghost use Rattle.lks_law.specs.Behind.{tick_in, latest_tick, tick_or, last_asked, input_named};
ghost use Rattle.lks_law.specs.Journal.{Request, was_tuned};
ghost use Rattle.lks_record.specs.Spelling.{IsInLimits};
ghost use Rattle.lks_host.specs.Naming.{Names};

use lks_base::{
    Bytes, HashKind, Hashes, Ids, Input, Judged, Message, OutOfMemory, PeerId, PollName, Record,
};
use std::alloc::Global;

/// What a batch answers: an input, at a tick.
#[derive(Drop)]
pub struct Named {
    pub tick: u32,
    pub input: Input,
}

/// The tick of a record, if it has one.
fn tick_of(r: &Record) -> Option<u32>
    ensures { result ≡ tick_in r.now }
{
    match r {
        Record::PollOpened { tick, .. }
        | Record::Closed { tick, .. }
        | Record::Overdue { tick, .. }
        | Record::Joined { tick, .. } => Some(*tick),
        Record::Deposit { .. }
        | Record::Nominated { .. }
        | Record::OuterOpened { .. }
        | Record::VoteIn { .. }
        | Record::Shut { .. }
        | Record::Asked { .. }
        | Record::RepairBad { .. }
        | Record::Replaced { .. }
        | Record::Committed { .. }
        | Record::Voted { .. }
        | Record::Served { .. }
        | Record::Ended { .. }
        | Record::Tuned { .. } => None,
    }
}

/// The tick of the first of these records that has one, or else this one.
pub fn tick_named(tick: u32, records: &[Record]) -> u32
    ensures { result ≡ tick_or tick records.now }
{
    for r in records {
        if let Some(found) = tick_of(r) {
            return found;
        }
    }
    tick
}

/// The greatest tick of these records and this one.
#[tactic(auto, unfolding(lks_law::specs::Behind::latest_tick))]
pub fn latest_with(tick: u32, records: &[Record]) -> u32
    ensures { result ≡ max tick (latest_tick records.now) }
{
    let mut found = tick;
    for r in records {
        if let Some(tick) = tick_of(r) {
            found = found.max(tick);
        }
    }
    found
}

#[tactic(auto, unfolding(lks_law::specs::Journal::was_tuned))]
fn is_tuned(list: &[Record]) -> bool
    ensures { result ≡ was_tuned list.now }
{
    list.iter().any(|r| matches!(r, Record::Tuned { .. }))
}

/// Whether there was a tuning before, or is one in these records.
pub fn tuned_with(tuned: bool, records: &[Record]) -> bool
    ensures { result ≡ (tuned || was_tuned records.now) }
{
    tuned || is_tuned(records)
}

/// The voter that was asked last for a block in poll `number`.
#[tactic(auto, unfolding(lks_law::specs::Behind::last_asked))]
fn last_voter(list: &[Record], number: u32) -> Option<PeerId>
    ensures { result ≡ option_map (λ (r : Request). r.voter) (last_asked number list.now) }
{
    let mut found = None;
    for r in list {
        if let Record::Asked {
            number: n,
            voter,
            ..
        } = r
        {
            if *n == number {
                found = Some(*voter);
            }
        }
    }
    found
}

fn nomination(number: u32, voter: PeerId, nominees: &Ids) -> Result<Input, OutOfMemory>
    ensures { IfOk result (λ i. i ≡ inputs.Got voter (messages.Nominate number nominees.now) judgements.NotAsked) }
{
    let nominees = nominees.clone()?;
    Ok(Input::Got {
        from: voter,
        message: Message::Nominate { number, nominees },
        judged: Judged::NotAsked,
    })
}

fn vote(alloc: Global, number: u32, voter: PeerId, hashes: &Hashes) -> Result<Input, OutOfMemory>
    ensures { IfOk result (λ i. i ≡ inputs.Got voter (messages.Vote number hashes.now []) judgements.Accepted) }
{
    let hashes = hashes.clone()?;
    let proof = Bytes::from_vec(Vec::new(alloc));
    Ok(Input::Got {
        from: voter,
        message: Message::Vote {
            number,
            hashes,
            proof,
        },
        judged: Judged::Accepted,
    })
}

fn repair(
    list: &[Record],
    number: u32,
    block: u16,
    bytes: &Bytes,
) -> Result<Option<Input>, OutOfMemory>
    ensures { IfOk result
        (λ o. o
        ≡ option_map
        (λ (r : Request). inputs.Got r.voter (messages.Repair number block bytes.now) judgements.NotAsked)
        (last_asked number list.now)) }
{
    let Some(from) = last_voter(list, number) else {
        return Ok(None);
    };
    let bytes = bytes.clone()?;
    Ok(Some(Input::Got {
        from,
        message: Message::Repair {
            number,
            block,
            bytes,
        },
        judged: Judged::NotAsked,
    }))
}

fn proof(alloc: Global, poll: PollName, nonce: &[u8; 32], kind: HashKind) -> Input
    ensures { result ≡ inputs.Got poll.poller (messages.PollProof poll.number nonce.now kind []) judgements.Accepted }
{
    Input::Got {
        from: poll.poller,
        message: Message::PollProof {
            number: poll.number,
            nonce: *nonce,
            kind,
            proof: Bytes::from_vec(Vec::new(alloc)),
        },
        judged: Judged::Accepted,
    }
}

/// What a batch with this first record answers, behind these records.
fn input_of(alloc: Global, list: &[Record], r: &Record) -> Result<Option<Input>, OutOfMemory>
    ensures { IfOk result (λ o. o ≡ input_named list.now r.now) }
{
    match r {
        Record::Deposit { .. } => Ok(None),
        Record::PollOpened { au, .. } => Ok(Some(Input::OpenPoll { au: *au })),
        Record::Nominated {
            number,
            voter,
            nominees,
        } => Ok(Some(nomination(*number, *voter, nominees)?)),
        Record::OuterOpened { number, .. } => Ok(Some(Input::Widen { number: *number })),
        Record::VoteIn {
            number,
            voter,
            hashes,
        } => Ok(Some(vote(alloc, *number, *voter, hashes)?)),
        Record::Shut { number } => Ok(Some(Input::Shut { number: *number })),
        Record::Asked { number, .. } | Record::Closed { number, .. } => {
            Ok(Some(Input::Tally { number: *number }))
        }
        Record::RepairBad { number, .. } => Ok(Some(Input::GiveUp { number: *number })),
        Record::Replaced {
            number,
            block,
            bytes,
            ..
        } => repair(list, *number, *block, bytes),
        Record::Overdue { .. } => Ok(Some(Input::Check)),
        Record::Joined { poll, au, .. } => Ok(Some(Input::Got {
            from: poll.poller,
            message: Message::Poll {
                number: poll.number,
                au: *au,
            },
            judged: Judged::NotAsked,
        })),
        Record::Committed {
            poll,
            nonce,
            kind,
            ..
        } => Ok(Some(proof(alloc, *poll, nonce, *kind))),
        Record::Voted { poll, .. } => Ok(Some(Input::Work { poll: *poll })),
        Record::Served { poll, block } => Ok(Some(Input::Got {
            from: poll.poller,
            message: Message::RepairRequest {
                number: poll.number,
                block: *block,
            },
            judged: Judged::NotAsked,
        })),
        Record::Ended { poll } => Ok(Some(Input::Expire { poll: *poll })),
        Record::Tuned {
            quorum,
            minority,
            repairs,
        } => Ok(Some(Input::Tune {
            quorum: *quorum,
            minority: *minority,
            repairs: *repairs,
        })),
    }
}

/// What the batch answers behind these records, whose greatest tick is known: by its first record, and by the first
/// tick in it. Nothing, where it has no record, its tick is below theirs, or its first record names no input.
pub fn name_batch(
    alloc: Global,
    list: &[Record],
    last: u32,
    batch: &[Record],
) -> Result<Option<Named>, OutOfMemory>
    requires last { last ≡ latest_tick list.now }
    requires limits { All IsInLimits batch.now }
    ensures { IfOk result (λ named. Names list.now batch.now named) }
{
    let Some(first) = batch.first() else {
        return Ok(None);
    };
    let tick = tick_named(last, batch);
    if tick < last {
        return Ok(None);
    }
    match input_of(alloc, list, first)? {
        Some(input) => Ok(Some(Named { tick, input })),
        None => Ok(None),
    }
}
