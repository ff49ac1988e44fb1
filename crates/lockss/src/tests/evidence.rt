//! Journals that are told, and what they are found to be.

use super::peers::PEERS;
use super::*;
use lks_evidence::{Finding, examine};
use lks_gather::read_set;
use lks_script::ScriptFault;

const JOURNALS: &[&str] = &["journals"];

const EVIDENCE: &[&str] = &["evidence"];

/// The plan of a head as it is printed, and the journal of its one honest peer, which deposited its copy and did
/// nothing.
const HEAD_PRINTED: &str = "\
lockss 1
rules inner 4 quorum 3 minority 1 outer 0 repairs 2 pace 0 refractory 0 overdue 100 unknown 100 debt 100 churn 0
turns 4096
au 1 2
peer 1 honest 0100000000000000000000000000000000000000000000000000000000000000 01
peer 2 corrupt 0200000000000000000000000000000000000000000000000000000000000000 01
peer 3 corrupt 0300000000000000000000000000000000000000000000000000000000000000 01
peer 4 corrupt 0400000000000000000000000000000000000000000000000000000000000000 01
refs 1 2 3 4
copy 1 1 41,42
journal 1 a50000000e000101010001000200014100014200
";

/// Four honest peers, of which the first repairs its copy.
const MANY: &[&str] = &[PEERS, "settle\nshut 1 1\nsettle\n"];

const ONE: &[&str] = &[HEAD, REPAIRED];

/// What `journals` writes for a script.
fn told<R: Abort + Threads + Wait + Sync>(
    rt: &R,
    alloc: Global,
    script: &[&str],
) -> Result<Vec<u8>, Fail> {
    let (status, written) = replayed(alloc, rt, JOURNALS, script, &[], &[])?;
    same(rt, &status, &Done, &"status");
    Ok(written)
}

/// What `evidence` answers and writes.
fn found<R: Threads + Wait + Sync>(
    alloc: Global,
    rt: &R,
    bytes: &[u8],
) -> Result<(Status, Vec<u8>), Fail> {
    let words = words_of(alloc, EVIDENCE)?;
    let mut source = MemSource::new(alloc, bytes.to_vec(alloc)?, [].to_vec(alloc)?);
    let mut sink = MemSink::new(alloc, [].to_vec(alloc)?);
    let mut disks = fresh_disks(alloc)?;
    let status = run_plainly(alloc, rt, &words, &mut source, &mut sink, &mut disks)?;
    Ok((status, sink.bytes().to_vec(alloc)?))
}

#[test]
fn journals_without_a_poll(rt: HostRuntime) -> Result<(), Fail> {
    let alloc = rt.alloc();
    let text = told(&rt, alloc, &[HEAD])?;
    same(&rt, &text.as_slice(), &HEAD_PRINTED.as_bytes(), &"text");
    let ended = found(alloc, &rt, &text)?;
    expect(&rt, &ended, Done, b"evidence yes 0\n", &"no poll");
    Ok(())
}

/// Where the piece stands first.
fn place_of(bytes: &[u8], piece: &[u8]) -> Result<usize, Fail> {
    for at in 0..bytes.len() {
        if bytes[at..].starts_with(piece) {
            return Ok(at);
        }
    }
    Err("the piece".into())
}

/// The text with one piece in place of another, and so many bytes left out behind it.
fn edited(
    alloc: Global,
    text: &[u8],
    old: &str,
    new: &str,
    without: usize,
) -> Result<Vec<u8>, Fail> {
    let at = place_of(text, old.as_bytes())?;
    let left_out = old.len().saturating_add(without);
    let mut bytes = Vec::new(alloc);
    for (place, byte) in text.iter().enumerate() {
        if place == at {
            bytes.extend_from_slice(new.as_bytes())?;
        }
        if place < at || place - at >= left_out {
            bytes.push(*byte)?;
        }
    }
    Ok(bytes)
}

/// Of a script, which piece of what `journals` writes for it is replaced by which, how many bytes are left out behind
/// it, and what `evidence` then writes.
const DOCTORED: [(&[&str], &str, &str, usize, &str); 10] = [
    (ONE, "", "", 0, "evidence yes 1\n"),
    (MANY, "", "", 0, "evidence yes 1\n"),
    // The replaced block is one that the AU doesn't have, or of a poll that wasn't opened.
    (
        ONE,
        "010900000001000100010001",
        "010900000001000100020001",
        0,
        "evidence no 1 7 copy\n",
    ),
    (
        ONE,
        "010900000001000100010001",
        "010900000002000100010001",
        0,
        "evidence no 1 7 poll\n",
    ),
    // The vote of peer 3 is another one of peer 2.
    (
        ONE,
        "0105000000010003",
        "0105000000010002",
        0,
        "evidence no 1 7 twice 2\n",
    ),
    // That of peer 2 has one hash.
    (
        ONE,
        "a50000004c000101050000000100020002",
        "a50000002c000101050000000100020001",
        64,
        "evidence no 1 7 length 2\n",
    ),
    // That of peer 4 is of a stranger.
    (
        ONE,
        "0105000000010004",
        "0105000000010009",
        0,
        "evidence no 1 7 quorum 2\n",
    ),
    // The copy had the block for which all vote.
    (
        ONE,
        "010100010002000141000142",
        "010100010002000141000143",
        0,
        "evidence no 1 7 for 3\n",
    ),
    // It has another one now.
    (
        ONE,
        "01090000000100010001000143",
        "01090000000100010001000144",
        0,
        "evidence no 1 7 against 3\n",
    ),
    // Peer 2 joined the poll on another AU.
    (
        MANY,
        "020c0001000000010001",
        "020c0001000000010002",
        0,
        "evidence no 1 10 vote 2\n",
    ),
];

/// One journal that is doctored for each reason of a doubt, but for the one that no text can say.
#[test]
fn doctored_journals(rt: HostRuntime) -> Result<(), Fail> {
    let alloc = rt.alloc();
    for &(script, old, new, without, line) in DOCTORED.iter() {
        let text = edited(alloc, &told(&rt, alloc, script)?, old, new, without)?;
        let answer = if line.starts_with("evidence yes") {
            Done
        } else {
            Doubted
        };
        expect(
            &rt,
            &found(alloc, &rt, &text)?,
            answer,
            line.as_bytes(),
            &line,
        );
    }
    Ok(())
}

/// The same where the text is bad: a second journal of a peer, one of a corrupt peer and one of a stranger, and a last
/// byte that is missing. Line 11 has the journal.
const BAD: [(&str, &str, u32); 4] = [
    ("journal 1 ", "journal 1 00\njournal 1 ", 12),
    ("journal 1 ", "journal 2 ", 11),
    ("journal 1 ", "journal 9 ", 11),
    ("00\n", "\n", 11),
];

#[test]
fn bad_journals(rt: HostRuntime) -> Result<(), Fail> {
    let alloc = rt.alloc();
    let text = told(&rt, alloc, &[HEAD])?;
    for &(old, new, line) in BAD.iter() {
        let ended = found(alloc, &rt, &edited(alloc, &text, old, new, 0)?)?;
        expect(&rt, &ended, Status::BadScript { line }, b"", &new);
    }
    Ok(())
}

const DIGITS: &[u8] = b"0123456789abcdef";

/// A digit of hex with one of its four bits turned.
fn turned(digit: u8, bit: usize) -> u8 {
    let Some(value) = DIGITS.iter().position(|d| *d == digit) else {
        return digit;
    };
    let turned = value as u8 ^ (1u8 << (bit % 4));
    DIGITS[usize::from(turned % 16)]
}

/// The text with a bit turned of the digit at this place.
fn with_turned(alloc: Global, text: &[u8], at: usize, bit: usize) -> Result<Vec<u8>, Fail> {
    let mut bytes = text.to_vec(alloc)?;
    if at < bytes.len() {
        bytes[at] = turned(bytes[at], bit);
    }
    Ok(bytes)
}

/// What reading and examining these bytes say, by themselves.
#[tactic(auto, unfolding(lks_evidence::specs::Sizes::most_records))]
fn examined(alloc: Global, bytes: &[u8]) -> Result<Status, Fail> {
    if bytes.len() > 1_000_000 {
        return Err("a short text".into());
    }
    match read_set(alloc, bytes) {
        Ok(read) => match examine(alloc, &read.plan, &read.set)? {
            Finding::Yes { .. } => Ok(Done),
            Finding::No(_) => Ok(Doubted),
        },
        Err(ScriptFault::BadLine { line }) => Ok(Status::BadScript { line }),
        Err(ScriptFault::Memory) => Err("out of memory".into()),
    }
}

/// Each bit of a journal with a replaced block is turned. One of that block never passes, and the answer is always that
/// of the reader and the checker.
#[test]
fn each_bit_turned(rt: HostRuntime) -> Result<(), Fail> {
    let alloc = rt.alloc();
    let text = told(&rt, alloc, ONE)?;
    let start = place_of(&text, b"journal 1 ")?.saturating_add(10);
    let block = place_of(&text, b"01090000000100010001000143")?.saturating_add(24);
    let behind = block.saturating_add(2);
    for at in start..text.len().saturating_sub(1) {
        for bit in 0..4 {
            let bytes = with_turned(alloc, &text, at, bit)?;
            let (status, _line) = found(alloc, &rt, &bytes)?;
            same(&rt, &status, &examined(alloc, &bytes)?, &(at, bit));
            assert!(rt; status != Done || at < block || at >= behind, "{at} {bit}");
        }
    }
    Ok(())
}

/// A bit of each hash that was counted, where the voter's own journal is there: none passes.
#[test]
fn hashes_turned(rt: HostRuntime) -> Result<(), Fail> {
    let alloc = rt.alloc();
    let text = told(&rt, alloc, MANY)?;
    let start = place_of(&text, b"0105000000010003000c")?.saturating_add(20);
    for at in start..start.saturating_add(12 * 64) {
        let (status, _line) = found(alloc, &rt, &with_turned(alloc, &text, at, at)?)?;
        same(&rt, &status, &Doubted, &at);
    }
    Ok(())
}

/// A sink that takes seven bytes at a time and fails at its third call has a front of the text, of either command.
#[test]
fn a_write_fails(rt: HostRuntime) -> Result<(), Fail> {
    let alloc = rt.alloc();
    let journals = told(&rt, alloc, ONE)?;
    let line = b"evidence yes 1\n".as_slice();
    for (words, source, whole) in [
        (JOURNALS, joined(alloc, ONE)?, journals.as_slice()),
        (EVIDENCE, journals.as_slice().to_vec(alloc)?, line),
    ] {
        let words = words_of(alloc, words)?;
        let mut source = MemSource::new(alloc, source, [].to_vec(alloc)?);
        let mut sink = MemSink::narrow(alloc, [3].to_vec(alloc)?, 7);
        let mut disks = fresh_disks(alloc)?;
        let status = run_plainly(alloc, &rt, &words, &mut source, &mut sink, &mut disks)?;
        same(&rt, &status, &Status::WriteFault, &"status");
        assert!(rt; sink.bytes().len() == 14 && whole.starts_with(sink.bytes()));
    }
    Ok(())
}

/// The calls of a source and of a sink that fail, of which nothing is written.
#[test]
fn evidence_faults(rt: HostRuntime) -> Result<(), Fail> {
    let alloc = rt.alloc();
    for (reads, writes, answer) in [
        ([1u32].as_slice(), [].as_slice(), Status::ReadFault),
        ([].as_slice(), [1u32].as_slice(), Status::WriteFault),
    ] {
        let ended = replayed(alloc, &rt, EVIDENCE, &[HEAD], reads, writes)?;
        expect(&rt, &ended, answer, b"", &reads);
    }
    Ok(())
}
