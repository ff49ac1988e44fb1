//! A script as text.

ghost use Rattle.std.specs.Prelude.{◌≡◌, Ok, IfOk};
ghost use Rattle.lks_script.specs.Grammar.{script_of};
ghost use Rattle.lks_print.specs.Said.{IsSaid};
ghost use Rattle.lks_print.specs.Scripts.{script_text};

use crate::plans::put_plan_lines;
use crate::steps::put_steps;
use lks_base::OutOfMemory;
use lks_script::Script;
use std::alloc::Global;

/// The lines of a script, each ended by a line feed: first those of its plan, in the order in which a script has them,
/// then a line for each step. Copies are printed block by block, bytes in lower-case hex, seeds whole, and what is
/// empty or as it is where nothing is said has no line; only `turns` has one always. What is printed of a script that
/// can be said, and so of each that was read, says that script again.
#[tactic(auto, using(crate::proofs::Whole::again_as), unfolding(crate::specs::Scripts::script_text))]
pub fn print_script(alloc: Global, script: &Script) -> Result<Vec<u8>, OutOfMemory>
    ensures exact { IfOk result (λ text. text.items ≡ script_text script.now) }
    ensures again { IsSaid script.now → IfOk result (λ text. script_of text.items ≡ Ok script.now) }
{
    let mut out = Vec::new(alloc);
    put_plan_lines(alloc, &mut out, &script.plan)?;
    put_steps(alloc, &mut out, script.steps.as_slice())?;
    Ok(out)
}
