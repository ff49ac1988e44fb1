//! Plans and journals as text.

ghost use Rattle.std.specs.Prelude.{◌≡◌, ◌<◌, ◌^◌, ◌++◌, [], Ok, List, OnOk, OnErr, IfOk, length, All};
ghost use Rattle.std.specs.List.{flat_map};
ghost use Rattle.lks_field.specs.Frames.{frame, AreBodies};
ghost use Rattle.hex.specs.Hex.{encode_lower, IsBytes};
ghost use Rattle.lks_gather.specs.Sets.{Book, set_of};
ghost use Rattle.lks_gather.specs.Texts.{file_of, journal_text, set_text, AreFiles, AreFiled, IsSaidPlan};

use crate::gates::{CLOSED, OPEN};
use lks_base::{Blocks, Bytes, OutOfMemory, PeerId, Plan};
use lks_print::put_plan;
use lks_words::{put_hex, put_number, put_text};
use std::alloc::{AllocError, Global};
use std::marker::Model;

/// A peer and the bodies of its batches, oldest first, as they stand in its journal.
#[derive(Drop)]
pub struct Filed {
    pub peer: PeerId,
    pub bodies: Blocks,
}

impl Model for Filed {
    ghost use Rattle.lks_gather.specs.Texts.{Filed as Written};

    ghost Value = { Written };

    ghost view = { λ f. record { peer = f.peer; bodies = f.bodies } };
}

fn put_frame(out: &mut Vec<u8>, body: &[u8]) -> Result<(), AllocError>
    requires { length body.now < 2 ^ 32 }
    ensures { OnOk result (out.new.items ≡ out.old.items ++ frame body.now) }
{
    out.push(OPEN)?;
    out.extend_from_slice((body.len() as u32).to_be_bytes().as_slice())?;
    out.extend_from_slice(body)
}

fn put_frames(out: &mut Vec<u8>, bodies: &[Bytes]) -> Result<(), AllocError>
    requires { All (λ body. length body < 2 ^ 32) bodies.now }
    ensures { OnOk result (out.new.items ≡ out.old.items ++ flat_map frame bodies.now) }
{
    for body in bodies {
        put_frame(out, body.as_slice())?;
    }
    Ok(())
}

/// The frames of a journal and a closed gate.
#[tactic(auto, using(crate::proofs::Printed::frames_flat, crate::proofs::Printed::bodies_all))]
fn make_file(alloc: Global, bodies: &[Bytes]) -> Result<Vec<u8>, AllocError>
    requires { AreBodies bodies.now }
    ensures { IfOk result (λ v. v.items ≡ file_of bodies.now) }
{
    let mut out = Vec::new(alloc);
    put_frames(&mut out, bodies)?;
    out.push(CLOSED)?;
    Ok(out)
}

/// Bytes in lower-case hex.
fn put_file(alloc: Global, out: &mut Vec<u8>, file: &[u8]) -> Result<(), AllocError>
    ensures text { OnOk result (out.new.items ≡ out.old.items ++ encode_lower file.now) }
    ensures bytes { IsBytes file.now }
{
    put_hex(alloc, out, file)
}

/// The line of a journal.
#[tactic(auto, unfolding(crate::specs::Texts::journal_text, lks_print::specs::Steps::line_of))]
fn put_journal(alloc: Global, out: &mut Vec<u8>, journal: &Filed) -> Result<(), AllocError>
    requires { AreBodies journal.now.bodies }
    ensures line { OnOk result (out.new.items ≡ out.old.items ++ journal_text journal.now) }
    ensures bytes { OnOk result (IsBytes (file_of journal.now.bodies)) }
{
    let file = make_file(alloc, journal.bodies.as_slice())?;
    put_text(out, b"journal ")?;
    put_number(alloc, out, u64::from(journal.peer))?;
    put_text(out, b" ")?;
    put_file(alloc, out, &file)?;
    put_text(out, b"\n")
}

/// A line for each journal. Without memory some of them may stand behind `out`.
fn put_lines(alloc: Global, out: &mut Vec<u8>, journals: &[Filed]) -> Result<(), AllocError>
    requires { All (λ j. AreBodies j.bodies) journals.now }
    ensures lines { OnOk result (out.new.items ≡ out.old.items ++ flat_map journal_text journals.now) }
    ensures bytes { OnOk result (AreFiles journals.now) }
{
    for journal in journals {
        put_journal(alloc, out, journal)?;
    }
    Ok(())
}

/// A line for each journal. Without memory nothing is added to `out`.
pub fn put_journals(alloc: Global, out: &mut Vec<u8>, journals: &[Filed]) -> Result<(), AllocError>
    requires { All (λ j. AreBodies j.bodies) journals.now }
    ensures lines { OnOk result (out.new.items ≡ out.old.items ++ flat_map journal_text journals.now) }
    ensures bytes { OnOk result (AreFiles journals.now) }
    ensures same { OnErr result (out.new.items ≡ out.old.items) }
{
    let mut text = Vec::new(alloc);
    put_lines(alloc, &mut text, journals)?;
    out.extend_from_slice(&text)
}

/// The lines of the plan, and behind them a line `journal P HEX` for each journal, where `HEX` is its frames and a
/// closed gate `00` in lower-case hex. Where the plan can be said, as each that was read, and the journals are of
/// different honest peers of it and hold batches, the text says that plan and the records of these batches again.
#[tactic(auto, using(crate::proofs::Printed::again_as), unfolding(crate::specs::Texts::set_text))]
pub fn print_set(alloc: Global, plan: &Plan, journals: &[Filed]) -> Result<Vec<u8>, OutOfMemory>
    requires { All (λ j. AreBodies j.bodies) journals.now }
    ensures exact { IfOk result (λ text. text.items ≡ set_text plan.now journals.now) }
    ensures again { (books : List Book) → IsSaidPlan plan.now → AreFiled plan.now [] journals.now books →
        IfOk result (λ text. set_of text.items ≡ Ok (record { plan = plan.now; set = books })) }
{
    let mut out = Vec::new(alloc);
    put_plan(alloc, &mut out, plan)?;
    put_lines(alloc, &mut out, journals)?;
    Ok(out)
}
