//! Plans and journals read, printed, and read again.

ghost use Rattle.std.specs.Prelude.{◌≡◌, ◌<◌, ◌^◌, IfOk, length, All};
ghost use Rattle.lks_evidence.specs.Sizes.{IsSmall};
ghost use Rattle.lks_field.specs.Frames.{AreBodies};

use crate::pieces::{AU, LISTS, PEERS, PRINTED_PEERS, RULES, TITLE, joined};
use crate::same::same;
use lks_base::{Bytes, Record, Seq};
use lks_evidence::{Finding, Shelf, examine};
use lks_gather::{Filed, Gathered, print_set, read_set};
use lks_script::ScriptFault;
use std::alloc::{AllocError, Global};
use std::test::*;

/// Nine lines.
const HEAD: &[&str] = &[TITLE, RULES, AU, PEERS, LISTS];

/// What is printed of these and a journal.
const PRINTED: &[&str] = &[
    TITLE,
    RULES,
    "turns 4096\n",
    AU,
    PRINTED_PEERS,
    LISTS,
    DEPOSITED,
];

/// Three lines of a plan that lacks its peers.
const EARLY: &[&str] = &[TITLE, RULES, AU];

/// Peer 1 deposited AU 1 with the blocks `41` and `42`.
const DEPOSITED: &str = "journal 1 a50000000e000101010001000200014100014200\n";

/// The batch in its frame: one record, `Deposit`, of AU 1, and two blocks of a byte each.
const BODY: [u8; 14] = [0, 1, 1, 1, 0, 1, 0, 2, 0, 1, 0x41, 0, 1, 0x42];

/// What stands before the journals, what stands behind it, and the first bad line, or 0.
const ROWS: [(&[&str], &str, u32); 29] = [
    // No journal, one, one without a frame, and hex of either case.
    (HEAD, "", 0),
    (HEAD, DEPOSITED, 0),
    (HEAD, "journal 1 00\n", 0),
    (
        HEAD,
        "journal 1 A50000000e000101010001000200014100014200\n",
        0,
    ),
    // Steps may stand before the first journal alone, empty lines and comments anywhere.
    (HEAD, "open 1 1\n\n# x\njournal 1 00\n\n# y\n", 0),
    (HEAD, "open 1 1\njournal 1 00\nopen 1 1\n", 12),
    (HEAD, "journal 1 00\n\nturns 7\n", 12),
    // The journal of a peer that is corrupt or isn't there, or that has one.
    (HEAD, "journal 2 00\n", 10),
    (HEAD, "journal 7 00\n", 10),
    (HEAD, "journal 1 00\n# x\njournal 1 00\n", 12),
    // A line that doesn't end, or has other words.
    (HEAD, "journal 1 00", 10),
    (HEAD, "journal 1 00\n# x", 11),
    (HEAD, "journal\n", 10),
    (HEAD, "journal 1\n", 10),
    (HEAD, "journal 1 \n", 10),
    (HEAD, "journal 01 00\n", 10),
    (HEAD, "journal  1 00\n", 10),
    (HEAD, "journal 1 00 \n", 10),
    (HEAD, " journal 1 00\n", 10),
    // No hex.
    (HEAD, "journal 1 0\n", 10),
    (HEAD, "journal 1 0g\n", 10),
    // Bytes behind the closed gate, another closed gate, none, a frame without a batch, and one that is cut short.
    (HEAD, "journal 1 0000\n", 10),
    (HEAD, "journal 1 01\n", 10),
    (HEAD, "journal 1 a5\n", 10),
    (HEAD, "journal 1 a50000000000\n", 10),
    (
        HEAD,
        "journal 1 a50000000e0001010100010002000141000142\n",
        10,
    ),
    // A script with a bad line, and one that ends too early.
    (HEAD, "open 2 1\njournal 1 0\n", 10),
    (EARLY, "journal 1 00\n", 4),
    (EARLY, "", 4),
];

fn text_of(alloc: Global, head: &[&str], rest: &str) -> Result<Vec<u8>, Fail> {
    let mut bytes = joined(alloc, head)?;
    bytes.extend_from_slice(rest.as_bytes())?;
    Ok(bytes)
}

/// The first bad line, or 0.
fn first_bad(alloc: Global, bytes: &[u8]) -> Result<u32, Fail> {
    match read_set(alloc, bytes) {
        Ok(_) => Ok(0),
        Err(ScriptFault::BadLine { line }) => Ok(line),
        Err(ScriptFault::Memory) => Err("out of memory".into()),
    }
}

#[test]
fn first_bad_lines(rt: HostRuntime) -> Result<(), Fail> {
    let alloc = rt.alloc();
    for (head, rest, line) in ROWS.iter() {
        let bytes = text_of(alloc, head, rest)?;
        same(&rt, &first_bad(alloc, &bytes)?, line, rest);
    }
    Ok(())
}

/// The plan and the journals that so few bytes say.
#[tactic(auto, unfolding(lks_evidence::specs::Sizes::most_records))]
fn gathered(alloc: Global, bytes: &[u8]) -> Result<Gathered, Fail>
    ensures { IfOk result (λ g. IsSmall g.set.items) }
{
    if bytes.len() > 1000 {
        return Err("a text of at most 1,000 bytes".into());
    }
    match read_set(alloc, bytes) {
        Ok(set) => Ok(set),
        Err(_) => Err("a bad line, or out of memory".into()),
    }
}

/// Whether these are two blocks `41` and `42` of AU 1.
fn is_deposited(list: &[Record]) -> bool {
    let [Record::Deposit { au, blocks }] = list else {
        return false;
    };
    let [first, second] = blocks.as_slice() else {
        return false;
    };
    *au == 1 && first.as_slice() == b"A".as_slice() && second.as_slice() == b"B".as_slice()
}

/// Whether the journals are that of peer 1 alone, and of such blocks.
fn is_of_first(set: &[Shelf]) -> bool {
    let [shelf] = set else {
        return false;
    };
    shelf.peer == 1 && is_deposited(shelf.list.as_slice())
}

/// The journal of peer 1 with its batch.
fn filed(alloc: Global) -> Result<Filed, AllocError>
    ensures { IfOk result (λ f. AreBodies f.bodies) }
{
    let body = Bytes::from_vec(BODY.as_slice().to_vec(alloc)?);
    let bodies = vec![in alloc; body]?;
    Ok(Filed {
        peer: 1,
        bodies: Seq::from_vec(bodies),
    })
}

/// What is printed of the journal of peer 1 behind the plan that these bytes say.
fn printed(alloc: Global, bytes: &[u8]) -> Result<Vec<u8>, Fail> {
    let read = gathered(alloc, bytes)?;
    if !is_of_first(&read.set) {
        return Err("the journal of peer 1".into());
    }
    let journals = vec![in alloc; filed(alloc)?]?;
    Ok(print_set(alloc, &read.plan, &journals)?)
}

/// A plan and a journal are read, and printed with a line for the turns and whole seeds, which is read and printed
/// again.
#[test]
fn journals_printed(rt: HostRuntime) -> Result<(), Fail> {
    let alloc = rt.alloc();
    let whole = joined(alloc, PRINTED)?;
    same(
        &rt,
        &printed(alloc, &text_of(alloc, HEAD, DEPOSITED)?)?,
        &whole,
        &"printed",
    );
    same(&rt, &printed(alloc, &whole)?, &whole, &"printed");
    Ok(())
}

/// Nothing is replaced in a journal without a poll, and nothing in none.
#[test]
fn journals_without_a_poll(rt: HostRuntime) -> Result<(), Fail> {
    let alloc = rt.alloc();
    for rest in [DEPOSITED, ""] {
        let bytes = text_of(alloc, HEAD, rest)?;
        let read = gathered(alloc, &bytes)?;
        let finding = examine(alloc, &read.plan, &read.set)?;
        same(&rt, &finding, &Finding::Yes { replaced: 0 }, &"finding");
    }
    Ok(())
}
