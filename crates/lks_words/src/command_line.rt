//! The command line, read as a command and a number. No word is an option, so one with a leading hyphen is refused
//! before clap reads it.

ghost use Rattle.std.specs.Prelude.{◌≡◌, map, string_bytes, true, IfOk};
ghost use Rattle.clap.specs.Words.{app_of, found_of, matches_of, rows_of};
ghost use Rattle.lks_words.specs.CommandLine.{are_operands, is_operand, line};

use clap::error::ErrorKind;
use clap::{Arg, ArgAction, ArgMatches, Command};
use lks_base::OutOfMemory;
use std::alloc::Global;

fn is_operand(word: &str) -> bool
    ensures { result ≡ is_operand word.now }
{
    !matches!(word.as_bytes(), [b'-', ..])
}

/// Whether there are one or two words, none with a leading hyphen.
#[tactic(auto, unfolding(crate::specs::CommandLine::are_operands))]
pub fn are_operands(words: &[String]) -> bool
    ensures { result ≡ are_operands (map string_bytes words.now) }
{
    match words {
        [word] => is_operand(word),
        [word, number] => is_operand(word) && is_operand(number),
        _ => false,
    }
}

#[tactic(auto, unfolding(crate::specs::CommandLine::line))]
fn new_line<'a>(alloc: Global) -> Result<Command<'a>, OutOfMemory>
    ensures { IfOk result (λ r. app_of r ≡ line) }
{
    let command = Arg::new(alloc, "command")
        .required(true)
        .action(ArgAction::Set);
    let number = Arg::new(alloc, "number").action(ArgAction::Set);
    let line = Command::new(alloc, "lockss")
        .no_binary_name(true)
        .disable_help_flag(true)
        .arg(command)?
        .arg(number)?;
    Ok(line)
}

/// The words, read as a command and a number.
pub fn read(alloc: Global, words: &[String]) -> Result<ArgMatches<'_>, OutOfMemory>
    requires { are_operands (map string_bytes words.now) ≡ true }
    ensures { IfOk result (λ m. rows_of (found_of m) ≡ matches_of line (map string_bytes words.now)) }
{
    match new_line(alloc)?.try_get_matches_from(words) {
        Ok(matches) => Ok(matches),
        Err(error) => match error.kind() {
            ErrorKind::OutOfMemory => Err(OutOfMemory),
            _ => unreachable!(),
        },
    }
}
