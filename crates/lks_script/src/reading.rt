//! Scripts from bytes.

ghost use Rattle.std.specs.Prelude.{◌≡◌, ◌==◌, ◌<◌, ◌∷◌, [], length, IfSome, IfNone, IfOk, true};
ghost use Rattle.std.specs.List.{position};
ghost use Rattle.lks_base.specs.Checking.{plan_fault};
ghost use Rattle.lks_script.specs.StepRules.{are_steps_of};
ghost use Rattle.lks_words.specs.Words.{Gives, parts};
ghost use Rattle.lks_script.specs.Grammar.{are_ascii, means_nothing, with_line, line_number, end_in, script_of};
ghost use Rattle.lks_script.specs.Grammar.{Answers};

use crate::drafts::{Draft, into_script, read_line};
use crate::faults::ScriptFault;
use crate::steps::Script;
use lks_words::{Stop, split};
use std::alloc::Global;

fn line_end(bytes: &[u8]) -> Option<usize>
    ensures { result ≡ position (λ b. b == 10) bytes.now }
{
    bytes.iter().position(|b| *b == b'\n')
}

/// The first line without its line feed, and the bytes behind that.
#[tactic(auto, using(crate::proofs::Lines::cut_at, crate::proofs::Lines::uncut))]
pub fn first_line(bytes: &[u8]) -> Option<(&[u8], &[u8])>
    ensures some { IfSome result (λ r. (parts 10 bytes.now ≡ r.0.now ∷ parts 10 r.1.now)) }
    ensures less { IfSome result (λ r. length r.1.now < length bytes.now) }
    ensures none { IfNone result (parts 10 bytes.now ≡ bytes.now ∷ []) }
{
    let at = line_end(bytes)?;
    let (line, _) = bytes.split_at(at);
    let (_, rest) = bytes.split_at(at + 1);
    Some((line, rest))
}

#[tactic(auto, unfolding(crate::specs::Grammar::are_ascii))]
fn ascii(text: &[u8]) -> bool
    ensures { result ≡ are_ascii text.now }
{
    text.iter().all(|b| *b < 128)
}

/// An empty line, or a comment in ASCII.
#[tactic(auto, unfolding(crate::specs::Grammar::means_nothing))]
pub fn is_idle(line: &[u8]) -> bool
    ensures { result ≡ means_nothing line.now }
{
    match line {
        [] => true,
        [first, rest @ ..] => *first == b'#' && ascii(rest),
    }
}

#[tactic(auto, unfolding(crate::specs::Grammar::with_line))]
fn extend(alloc: Global, draft: Draft, line: &[u8]) -> Result<Draft, Stop>
    ensures { Gives result (with_line draft line.now) }
{
    if is_idle(line) {
        return Ok(draft);
    }
    let words = split(alloc, line, b' ')?;
    read_line(alloc, draft, &words)
}

/// A bad line of this number, or of the last one that has a place.
#[tactic(auto, unfolding(crate::specs::Grammar::line_number))]
pub fn bad_line(line: u64) -> ScriptFault
    ensures { result ≡ ScriptFault.BadLine (line_number line) }
{
    ScriptFault::BadLine {
        line: line.min(u64::from(u32::MAX)) as u32,
    }
}

#[tactic(auto, unfolding(crate::specs::Grammar::end_in))]
fn finish(alloc: Global, line: u64, draft: Draft, last: &[u8]) -> Result<Script, ScriptFault>
    ensures { Answers result (end_in line draft last.now) }
{
    if last.len() != 0 {
        return Err(bad_line(line));
    }
    match into_script(alloc, draft) {
        Some(script) => Ok(script),
        None => Err(bad_line(line)),
    }
}

/// The script that the bytes say, line by line.
pub fn read_script(alloc: Global, bytes: &[u8]) -> Result<Script, ScriptFault>
    ensures exact { Answers result (script_of bytes.now) }
    ensures good { IfOk result (λ s. plan_fault s.plan ≡ None) }
    ensures steps { IfOk result (λ s. are_steps_of s.plan s.steps ≡ true) }
{
    let mut draft = Draft::Blank;
    let mut line = 1;
    let mut rest = bytes;
    'lines: while let Some((row, more)) = first_line(rest) {
        draft = match extend(alloc, draft, row) {
            Ok(longer) => longer,
            Err(Stop::Bad) => return Err(bad_line(line)),
            Err(Stop::Memory) => return Err(ScriptFault::Memory),
        };
        line += 1;
        rest = more;
    }
    finish(alloc, line, draft, rest)
}
