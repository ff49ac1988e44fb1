//! Lines that say a step.

ghost use Rattle.std.specs.Prelude.{◌≡◌, ◌++◌, ◌∷◌, [], OnOk, codes, map};
ghost use Rattle.std.specs.Fmt.{decimal};
ghost use Rattle.lks_words.specs.Printing.{hex_or_hyphen, blocks_text, answer_text};
ghost use Rattle.std.specs.List.{flat_map};
ghost use Rattle.lks_print.specs.Steps.{cut_key, cut_more, times_words, said_words, key_of, more_of, step_line};
ghost use Rattle.lks_words.specs.Steps.{spaced, own_key, own_more};

use crate::adding::{add_answer, add_block, add_blocks, add_ids, add_number, add_word};
use lks_base::{AuId, Blocks, PeerId, PeerStep};
use lks_script::{CutStep, Step};
use lks_words::{put_step_rest, put_text, step_key};
use std::alloc::{AllocError, Global};

/// The words behind the one that names the step.
fn add_own(alloc: Global, out: &mut Vec<u8>, step: &PeerStep) -> Result<(), AllocError>
    ensures { OnOk result (out.new.items ≡ out.old.items ++ spaced (own_more step.now)) }
{
    let mut rest = String::new(alloc);
    put_step_rest(&mut rest, step)?;
    put_text(out, rest.as_bytes())
}

#[tactic(auto, unfolding(crate::specs::Steps::cut_key, crate::specs::Steps::cut_more))]
fn add_cut(alloc: Global, out: &mut Vec<u8>, step: &CutStep) -> Result<(), AllocError>
    ensures { OnOk result (out.new.items ≡ out.old.items ++ spaced (cut_key step.now ∷ cut_more step.now)) }
{
    match step {
        CutStep::Next => add_word(out, b"next"),
        CutStep::Again { envelope } => {
            add_word(out, b"again")?;
            add_number(alloc, out, u64::from(*envelope))
        }
        CutStep::Peer(step) => {
            add_word(out, step_key(step).as_bytes())?;
            add_own(alloc, out, step)
        }
    }
}

#[tactic(auto, unfolding(crate::specs::Steps::times_words))]
fn add_times(alloc: Global, out: &mut Vec<u8>, times: u16) -> Result<(), AllocError>
    ensures { OnOk result (out.new.items ≡ out.old.items ++ spaced (times_words times)) }
{
    if times == 1 {
        Ok(())
    } else {
        add_number(alloc, out, u64::from(times))
    }
}

fn add_said(
    alloc: Global,
    out: &mut Vec<u8>,
    from: PeerId,
    what: &[u8],
    to: PeerId,
    number: u32,
) -> Result<(), AllocError>
    ensures { OnOk result (out.new.items ≡ out.old.items ++ spaced (said_words from what.now to number [])) }
{
    add_number(alloc, out, u64::from(from))?;
    add_word(out, what)?;
    add_number(alloc, out, u64::from(to))?;
    add_number(alloc, out, u64::from(number))
}

fn add_answered(
    alloc: Global,
    out: &mut Vec<u8>,
    from: PeerId,
    what: &[u8],
    to: PeerId,
    number: u32,
    yes: bool,
) -> Result<(), AllocError>
    ensures { OnOk result
        (out.new.items ≡ out.old.items ++ spaced (said_words from what.now to number (answer_text yes ∷ []))) }
{
    add_said(alloc, out, from, what, to, number)?;
    add_answer(out, yes)
}

fn add_content(
    alloc: Global,
    out: &mut Vec<u8>,
    au: AuId,
    blocks: &Blocks,
) -> Result<(), AllocError>
    ensures { OnOk result
        (out.new.items ≡ out.old.items ++ spaced (decimal au ∷ codes "of" ∷ blocks_text blocks.now ∷ [])) }
{
    add_number(alloc, out, u64::from(au))?;
    add_word(out, b"of")?;
    add_blocks(alloc, out, blocks)
}

#[tactic(auto, unfolding(crate::specs::Steps::key_of))]
fn key(step: &Step) -> &'static [u8]
    ensures { result.now ≡ key_of step.now }
{
    match step {
        Step::Peer(step) => step_key(step).as_bytes(),
        Step::Tick { .. } => b"tick",
        Step::Next { .. } => b"next",
        Step::Lose => b"lose",
        Step::Again { .. } => b"again",
        Step::Settle => b"settle",
        Step::Finish => b"finish",
        Step::Forge { .. } => b"forge",
        Step::SayPoll { .. }
        | Step::SayProof { .. }
        | Step::SayRequest { .. }
        | Step::SayReceipt { .. }
        | Step::SayChallenge { .. }
        | Step::SayNominate { .. }
        | Step::SayVote { .. }
        | Step::SayRepair { .. } => b"say",
        Step::Crash { .. } => b"crash",
        Step::Cut { .. } => b"cut",
    }
}

#[tactic(auto, unfolding(crate::specs::Steps::more_of))]
fn add_more(alloc: Global, out: &mut Vec<u8>, step: &Step) -> Result<(), AllocError>
    ensures { OnOk result (out.new.items ≡ out.old.items ++ spaced (more_of step.now)) }
{
    match step {
        Step::Peer(step) => add_own(alloc, out, step),
        Step::Tick { by } => add_number(alloc, out, u64::from(*by)),
        Step::Next { times } => add_times(alloc, out, *times),
        Step::Lose | Step::Settle | Step::Finish => Ok(()),
        Step::Again { envelope } => add_number(alloc, out, u64::from(*envelope)),
        Step::Forge { from, to, bytes } => {
            add_number(alloc, out, u64::from(*from))?;
            add_number(alloc, out, u64::from(*to))?;
            add_block(alloc, out, bytes.as_slice())
        }
        Step::SayPoll {
            from,
            to,
            number,
            au,
        } => {
            add_said(alloc, out, *from, b"poll", *to, *number)?;
            add_number(alloc, out, u64::from(*au))
        }
        Step::SayProof { from, to, number } => add_said(alloc, out, *from, b"proof", *to, *number),
        Step::SayRequest {
            from,
            to,
            number,
            block,
        } => {
            add_said(alloc, out, *from, b"request", *to, *number)?;
            add_number(alloc, out, u64::from(*block))
        }
        Step::SayReceipt { from, to, number } => {
            add_said(alloc, out, *from, b"receipt", *to, *number)
        }
        Step::SayChallenge {
            from,
            to,
            number,
            yes,
        } => { add_answered(alloc, out, *from, b"challenge", *to, *number, *yes) }
        Step::SayNominate {
            from,
            to,
            number,
            nominees,
        } => {
            add_said(alloc, out, *from, b"nominate", *to, *number)?;
            add_ids(alloc, out, nominees.as_slice())
        }
        Step::SayVote {
            from,
            to,
            number,
            au,
            blocks,
        } => {
            add_said(alloc, out, *from, b"vote", *to, *number)?;
            add_content(alloc, out, *au, blocks)
        }
        Step::SayRepair {
            from,
            to,
            number,
            block,
            bytes,
        } => {
            add_said(alloc, out, *from, b"repair", *to, *number)?;
            add_number(alloc, out, u64::from(*block))?;
            add_block(alloc, out, bytes.as_slice())
        }
        Step::Crash { peer } => add_number(alloc, out, u64::from(*peer)),
        Step::Cut {
            calls,
            choice,
            step,
        } => {
            add_number(alloc, out, u64::from(*calls))?;
            add_number(alloc, out, u64::from(*choice))?;
            add_cut(alloc, out, step)
        }
    }
}

#[tactic(auto, unfolding(crate::specs::Steps::step_line, crate::specs::Steps::line_of))]
fn put_step(alloc: Global, out: &mut Vec<u8>, step: &Step) -> Result<(), AllocError>
    ensures { OnOk result (out.new.items ≡ out.old.items ++ step_line step.now) }
{
    put_text(out, key(step))?;
    add_more(alloc, out, step)?;
    put_text(out, b"\n")
}

/// A line each.
pub(crate) fn put_steps(alloc: Global, out: &mut Vec<u8>, steps: &[Step]) -> Result<(), AllocError>
    ensures { OnOk result (out.new.items ≡ out.old.items ++ flat_map step_line steps.now) }
{
    for step in steps {
        put_step(alloc, out, step)?;
    }
    Ok(())
}
