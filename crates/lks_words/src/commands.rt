//! What the program is asked to do.

ghost use Rattle.std.specs.Prelude.{◌≡◌, map, option_map, string_bytes, IfOk, IfSome};
ghost use Rattle.lks_words.specs.Commands.{command_in, command_of, race_of, HasThreads};

use crate::command_line;
use crate::numbers::number;
use lks_base::OutOfMemory;
use std::alloc::Global;

/// What is played, and what is told of it.
#[derive(Clone, Copy, Debug, PartialEq, Eq)]
pub enum Play {
    /// A script from the source is played, and the report of its history is written.
    Replay,
    /// The scenario of a seed is played, and one line on its history is written.
    Drill { seed: u64 },
    /// A script from the source is played, and its plan and the journals of its honest peers are written.
    Journals,
}

/// What the program is asked to do.
#[derive(Clone, Copy, Debug, PartialEq, Eq)]
pub enum Command {
    /// Peers are played.
    Play(Play),
    /// A script from the source is played, then this many threads take what is due in whatever order they come, and the
    /// report of the history is written.
    Race { threads: u16 },
    /// Journals from the source are examined, and one line on what is found of them is written.
    Evidence,
}

/// A race of so many threads, from 1 to 64.
#[tactic(auto, unfolding(crate::specs::Commands::race_of))]
fn race(threads: &str) -> Option<Command>
    ensures race { result ≡ race_of threads.now }
    ensures threads { IfSome result HasThreads }
{
    match number(64, threads.as_bytes()) {
        None | Some(0) => None,
        Some(threads) => Some(Command::Race {
            threads: threads as u16,
        }),
    }
}

#[tactic(auto, unfolding(crate::specs::Commands::numbered_in, crate::specs::Commands::alone_in))]
fn named(word: Option<&str>, count: Option<&str>) -> Option<Command>
    ensures command { result ≡ command_of (option_map (λ s. s.now) word.entry) (option_map (λ s. s.now) count.entry) }
    ensures threads { IfSome result HasThreads }
{
    match (word, count) {
        (Some("replay"), None) => Some(Command::Play(Play::Replay)),
        (Some("journals"), None) => Some(Command::Play(Play::Journals)),
        (Some("evidence"), None) => Some(Command::Evidence),
        (Some("race"), Some(threads)) => race(threads),
        (Some("drill"), Some(seed)) => {
            let seed = number(u64::MAX, seed.as_bytes())?;
            Some(Command::Play(Play::Drill { seed }))
        }
        _ => None,
    }
}

/// The command that the words name, if they name one: `replay`, `journals` or `evidence`; `drill` and a seed, or `race`
/// and a number of threads from 1 to 64, both decimal without leading zeros.
#[tactic(auto, using(crate::proofs::Operands::names_command, crate::proofs::Operands::others_name_none))]
pub fn parse(alloc: Global, words: &[String]) -> Result<Option<Command>, OutOfMemory>
    ensures command { IfOk result (λ r. r ≡ command_in (map string_bytes words.now)) }
    ensures threads { IfOk result (λ r. IfSome r HasThreads) }
{
    if !command_line::are_operands(words) {
        return Ok(None);
    }
    let matches = command_line::read(alloc, words)?;
    Ok(named(matches.get_str("command"), matches.get_str("number")))
}
