//! Scripts read and printed, and read again.

use crate::pieces::{AU, LISTS, PEERS, PRINTED_PEERS, RULES, TITLE, joined, script_in};
use crate::same::same;
use lks_print::print_script;
use std::alloc::Global;
use std::process::Abort;
use std::test::*;

const PLAIN_STEPS: &str = "\
open 1 1
say 2 vote 1 1 1 of 41,42
say 3 vote 1 1 1 of 41,42
say 4 vote 1 1 1 of 41,42
settle
shut 1 1
settle
";

/// Steps of the clock, of envelopes and of a poller.
const MOVES: &str = "\
open 1 1
tick 7
next
next 9
lose
again 3
outer 1 5
check 1
open 1 1
tally 1 2
nudge 1 3
give-up 1 4
finish
";

/// Steps of a voter and of an operator, and an invitation said and forged.
const VOTER_MOVES: &str = "\
work 1 2 3
expire 1 4 5
tune 1 4 1 512
say 2 poll 3 4 1
forge 2 1 0101000000010001
";

/// `like` takes the copy as it stands at its line, and `damage` changes one block of one copy.
const COPIES: &str = "\
peer 5 honest 05 01
peer 6 honest 06 01
copy 1 1 41,42
copy 5 1 like 1
damage 1 1 0 43
copy 6 1 like 1
damage 6 1 1 -
hash 5 sha512-256
";

const PRINTED_COPIES: &str = "\
peer 5 honest 0500000000000000000000000000000000000000000000000000000000000000 01
peer 6 honest 0600000000000000000000000000000000000000000000000000000000000000 01
copy 1 1 43,42
hash 5 sha512-256
copy 5 1 41,42
copy 6 1 43,-
";

/// Peers of which the last has letters in its seed, and no proof.
const TWO_HONEST: &str =
    "peer 1 honest 01 01\npeer 2 corrupt 02 01\npeer 3 corrupt 03 01\npeer 4 honest AB -\n";

const PRINTED_TWO_HONEST: &str = "\
peer 1 honest 0100000000000000000000000000000000000000000000000000000000000000 01
peer 2 corrupt 0200000000000000000000000000000000000000000000000000000000000000 01
peer 3 corrupt 0300000000000000000000000000000000000000000000000000000000000000 01
peer 4 honest ab00000000000000000000000000000000000000000000000000000000000000 -
";

const MIXED_LISTS: &str = "\
# Peer 4 has what peer 1 has, and then one block of peer 1's is damaged.
friends 1 4
copy 1 1 41,42*3
refs 4 1
hash 1 sha256
refs 1 2 3 4
hash 2 sha512-256
copy 4 1 like 1
damage 1 1 0 -
";

const PRINTED_MIXED_LISTS: &str = "\
refs 1 2 3 4
friends 1 4
copy 1 1 -,424242
hash 2 sha512-256
refs 4 1
copy 4 1 41,424242
";

const EACH_STEP: &str = "\
open 1 1
outer 1 2
shut 1 3
tally 1 4
nudge 4 5
give-up 4 6
work 1 2 7
expire 4 3 8
check 1
tune 1 4 1 512
tick 9
next
next 10
lose
again 11
settle
finish
forge 2 1 0a0b
forge 2 4 -
say 2 poll 1 12 1
say 2 proof 1 13
say 2 request 1 14 511
say 2 receipt 1 15
say 3 challenge 1 16 yes
say 3 challenge 1 17 no
say 3 nominate 1 18 2 4 65535
say 3 nominate 1 19
say 3 vote 1 20 1 of 41,-,4344
say 3 repair 1 21 0 45
crash 1
cut 0 255 open 1 1
cut 8 0 next
cut 1 2 again 22
cut 3 4 tune 4 3 1 0
";

/// Pieces of a script, and of what is printed of it.
const ROWS: [(&[&str], &[&str]); 7] = [
    (
        &[TITLE, RULES, AU, TWO_HONEST],
        &[TITLE, RULES, "turns 4096\n", AU, PRINTED_TWO_HONEST],
    ),
    (
        &[
            TITLE,
            RULES,
            "turns 7\n",
            AU,
            TWO_HONEST,
            MIXED_LISTS,
            EACH_STEP,
            "next 1\n",
        ],
        &[
            TITLE,
            RULES,
            "turns 7\n",
            AU,
            PRINTED_TWO_HONEST,
            PRINTED_MIXED_LISTS,
            EACH_STEP,
            "next\n",
        ],
    ),
    (
        &[TITLE, RULES, AU, PEERS, LISTS, PLAIN_STEPS],
        &[
            TITLE,
            RULES,
            "turns 4096\n",
            AU,
            PRINTED_PEERS,
            LISTS,
            PLAIN_STEPS,
        ],
    ),
    (
        &[
            TITLE,
            RULES,
            AU,
            PEERS,
            "friends 1 4 2\nrefs 1 2 3 4\n",
            MOVES,
        ],
        &[
            TITLE,
            RULES,
            "turns 4096\n",
            AU,
            PRINTED_PEERS,
            "refs 1 2 3 4\nfriends 1 4 2\n",
            MOVES,
        ],
    ),
    (
        &[TITLE, RULES, "turns 7\n", AU, PEERS, "copy 1 1 -,5A*3\n"],
        &[
            TITLE,
            RULES,
            "turns 7\n",
            AU,
            PRINTED_PEERS,
            "copy 1 1 -,5a5a5a\n",
        ],
    ),
    (
        &[TITLE, RULES, AU, PEERS, VOTER_MOVES],
        &[TITLE, RULES, "turns 4096\n", AU, PRINTED_PEERS, VOTER_MOVES],
    ),
    (
        &[TITLE, RULES, AU, PEERS, COPIES],
        &[
            TITLE,
            RULES,
            "turns 4096\n",
            AU,
            PRINTED_PEERS,
            PRINTED_COPIES,
        ],
    ),
];

/// The script that the bytes say, printed.
fn printed(alloc: Global, bytes: &[u8]) -> Result<Vec<u8>, Fail> {
    let script = script_in(alloc, bytes)?;
    match print_script(alloc, &script) {
        Ok(text) => Ok(text),
        Err(_) => Err("out of memory".into()),
    }
}

/// What a script is printed as is what is printed of it when it is read again.
fn check_printed(
    rt: &impl Abort,
    alloc: Global,
    at: usize,
    script: &[&str],
    text: &[&str],
) -> Result<(), Fail> {
    let text = joined(alloc, text)?;
    let found = printed(alloc, &joined(alloc, script)?)?;
    same(rt, &found.as_slice(), &text.as_slice(), &at);
    let again = printed(alloc, &found)?;
    same(rt, &again.as_slice(), &text.as_slice(), &at);
    Ok(())
}

#[test]
fn scripts_printed(rt: HostRuntime) -> Result<(), Fail> {
    for (at, (script, text)) in ROWS.iter().enumerate() {
        check_printed(&rt, rt.alloc(), at, script, text)?;
    }
    Ok(())
}
