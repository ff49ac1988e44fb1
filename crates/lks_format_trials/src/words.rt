//! Which words name which command.

use crate::same::same;
use lks_base::OutOfMemory;
use lks_words::{Command, Play, parse};
use std::alloc::Global;
use std::test::*;

fn owned(alloc: Global, words: &[&str]) -> Result<Vec<String>, OutOfMemory> {
    let mut owned = Vec::new(alloc);
    for word in words {
        owned.push(String::from_str(alloc, word)?)?;
    }
    Ok(owned)
}

const ROWS: [(&[&str], Option<Command>); 29] = [
    (&["replay"], Some(Command::Play(Play::Replay))),
    (
        &["drill", "0"],
        Some(Command::Play(Play::Drill { seed: 0 })),
    ),
    (
        &["drill", "1"],
        Some(Command::Play(Play::Drill { seed: 1 })),
    ),
    (
        &["drill", "18446744073709551615"],
        Some(Command::Play(Play::Drill { seed: u64::MAX })),
    ),
    (&["journals"], Some(Command::Play(Play::Journals))),
    (&["evidence"], Some(Command::Evidence)),
    (&["journals", "1"], None),
    (&["evidence", ""], None),
    (&["evidence", "--"], None),
    (&["-evidence"], None),
    (&["journals", "evidence", "1"], None),
    (&["drill", "18446744073709551616"], None),
    (&["drill", "01"], None),
    (&["drill", "-1"], None),
    (&["drill"], None),
    (&["replay", "1"], None),
    (&["replay", "--"], None),
    (&["--help"], None),
    (&["-h"], None),
    (&["race", "1"], Some(Command::Race { threads: 1 })),
    (&["race", "64"], Some(Command::Race { threads: 64 })),
    (&["race"], None),
    (&["race", "0"], None),
    (&["race", "65"], None),
    (&["race", "02"], None),
    (&["race", "2", "2"], None),
    (&["drill", "1", "2"], None),
    (&[""], None),
    (&[], None),
];

#[test]
fn words_name_a_command_or_none(rt: HostRuntime) -> Result<(), OutOfMemory> {
    for (at, (words, command)) in ROWS.iter().enumerate() {
        let words = owned(rt.alloc(), words)?;
        same(&rt, &parse(rt.alloc(), &words)?, command, &at);
    }
    Ok(())
}
