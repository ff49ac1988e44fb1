//! Whole runs of a node.

ghost use Rattle.std.specs.Prelude.{IfOk};
ghost use Rattle.lks_disk.specs.MemFace.{mem_face};
ghost use Rattle.lks_store.specs.Opening.{IsIdle};

use crate::runs::node;
use crate::statuses::NodeStatus;
use lks_disk::{Disk, MemDisk};
use lks_outside::{FirstByteJudge, MemSink, MemSource};
use lks_store::{FileOpener, MemOpener, Opener};
use std::alloc::Global;
use std::fmt::Debug;
use std::fs;
use std::fs::{File, Files};
use std::process::Abort;
use std::sync::Wait;
use std::test::*;

const SCRIPT: &[u8] = b"\
lockss 1
rules inner 4 quorum 3 minority 1 outer 0 repairs 2 pace 0 refractory 0 overdue 100 unknown 100 debt 100 churn 0
au 1 2
peer 1 honest 01 01
peer 2 corrupt 02 01
peer 3 corrupt 03 01
peer 4 corrupt 04 01
refs 1 2 3 4
copy 1 1 41,42
";

/// `open 1 1` as a frame.
const OPEN: &[u8] = b"\x00\x00\x00\x09\x02open 1 1";

/// One record, and the invitations of the inner circle.
const OPENED: &[u8] = b"\
\x00\x00\x00\x2e\x00\x01\x00\x03\
\x00\x02\x00\x00\x00\x08\x01\x01\x00\x00\x00\x01\x00\x01\
\x00\x03\x00\x00\x00\x08\x01\x01\x00\x00\x00\x01\x00\x01\
\x00\x04\x00\x00\x00\x08\x01\x01\x00\x00\x00\x01\x00\x01";

const NOTHING: &[u8] = b"\x00\x00\x00\x04\x00\x00\x00\x00";

/// A disk with these bytes, and nothing pending.
fn disk_with(alloc: Global, bytes: &[u8]) -> Result<MemDisk, Fail>
    ensures { IfOk result (IsIdle mem_face) }
{
    let mut disk = MemDisk::new(alloc, Vec::new(alloc));
    disk.write_at(0, bytes)?;
    disk.sync()?;
    Ok(disk)
}

/// What a run leaves: its answer, what it wrote, and the bytes of its store.
#[derive(Drop)]
struct Left {
    status: NodeStatus,
    output: Vec<u8>,
    store: Vec<u8>,
}

/// Ends the test where a run didn't answer and write this, and says at which row.
fn expect(rt: &impl Abort, left: &Left, wanted: NodeStatus, output: &[u8], row: &impl Debug) {
    assert_eq!(rt; left.status, wanted, "{row:?}");
    assert_eq!(rt; left.output.as_slice(), output, "{row:?}");
}

/// The frame of the script, and these bytes behind it.
fn input_of(alloc: Global, frames: &[u8]) -> Result<Vec<u8>, Fail> {
    let mut bytes = Vec::new(alloc);
    bytes.extend_from_slice(&(SCRIPT.len() as u32).to_be_bytes())?;
    bytes.extend_from_slice(SCRIPT)?;
    bytes.extend_from_slice(frames)?;
    Ok(bytes)
}

fn words_of(alloc: Global, words: [&str; 2]) -> Result<Vec<String>, Fail> {
    let mut said = Vec::new(alloc);
    for word in words {
        said.push(String::from_str(alloc, word)?)?;
    }
    Ok(said)
}

/// A run with these two words, a store with these bytes, and these bytes behind the script, so many a call.
fn run<R: Wait>(
    alloc: Global,
    rt: &R,
    words: [&str; 2],
    store: &[u8],
    frames: &[u8],
    width: usize,
) -> Result<Left, Fail> {
    run_over(alloc, rt, words, store, input_of(alloc, frames)?, width)
}

/// The same with these bytes as its whole input.
fn run_over<R: Wait>(
    alloc: Global,
    rt: &R,
    words: [&str; 2],
    store: &[u8],
    input: Vec<u8>,
    width: usize,
) -> Result<Left, Fail> {
    let mut source = MemSource::narrow(alloc, input, Vec::new(alloc), width.max(1));
    let mut sink = MemSink::new(alloc, Vec::new(alloc));
    let mut opener = MemOpener::new(disk_with(alloc, store)?, false);
    run_with(alloc, rt, words, &mut source, &mut sink, &mut opener)
}

/// A run with these two words over these devices.
fn run_with<R: Wait>(
    alloc: Global,
    rt: &R,
    words: [&str; 2],
    source: &mut MemSource,
    sink: &mut MemSink,
    opener: &mut MemOpener<MemDisk>,
) -> Result<Left, Fail> {
    let said = words_of(alloc, words)?;
    let mut judge = FirstByteJudge::new(alloc)?;
    let (status, left) = node(alloc, rt, &said, source, sink, opener, &mut judge);
    let output = sink.bytes().to_vec(alloc)?;
    Ok(Left {
        status,
        output,
        store: bytes_of(alloc, left)?,
    })
}

fn bytes_of(alloc: Global, store: Option<MemDisk>) -> Result<Vec<u8>, Fail> {
    match store {
        Some(disk) => Ok(disk.bytes().to_vec(alloc)?),
        None => Ok(Vec::new(alloc)),
    }
}

#[test]
fn opens_a_poll_once(rt: HostRuntime) -> Result<(), Fail> {
    let alloc = rt.alloc();
    let first = run(alloc, &rt, ["1", "j"], b"", OPEN, usize::MAX)?;
    expect(&rt, &first, NodeStatus::Done, OPENED, &"first");
    let again = run(alloc, &rt, ["1", "j"], &first.store, OPEN, usize::MAX)?;
    expect(&rt, &again, NodeStatus::Done, NOTHING, &"again");
    let narrow = run(alloc, &rt, ["1", "j"], b"", OPEN, 1)?;
    expect(&rt, &narrow, NodeStatus::Done, OPENED, &"narrow");
    Ok(())
}

/// The words, the bytes of the store, those behind the script, and the answer.
const REFUSED: [([&str; 2], &[u8], &[u8], NodeStatus); 9] = [
    (
        ["1", "j"],
        b"\xa5\x00\x00\x00\x08\x00\x01\x01\x06\x00\x00\x00\x01\x00",
        b"",
        NodeStatus::Foreign { batch: 0 },
    ),
    (
        ["1", "j"],
        b"\xa5\x00\x00\x00\x05",
        b"",
        NodeStatus::Damaged { offset: 0 },
    ),
    (
        ["1", "j"],
        b"",
        b"\x00\x00\x00\x01\x09",
        NodeStatus::BadFrame { index: 1 },
    ),
    (["2", "j"], b"", b"", NodeStatus::Stranger),
    (["65536", "j"], b"", b"", NodeStatus::Usage),
    (["1", ""], b"", b"", NodeStatus::Usage),
    (
        ["1", "j"],
        b"",
        b"\x00\x00\x00\x09\x02open 2 1",
        NodeStatus::BadFrame { index: 1 },
    ),
    (
        ["1", "j"],
        b"",
        b"\x00\x00\x9c\x44",
        NodeStatus::BadFrame { index: 1 },
    ),
    (
        ["1", "j"],
        b"",
        b"\x00\x00\x00\x05\x03\x00\x00\x00\x00",
        NodeStatus::BadFrame { index: 1 },
    ),
];

#[test]
fn refuses(rt: HostRuntime) -> Result<(), Fail> {
    for (words, store, frames, wanted) in REFUSED.iter() {
        let left = run(rt.alloc(), &rt, *words, store, frames, usize::MAX)?;
        expect(&rt, &left, *wanted, b"", words);
    }
    Ok(())
}

/// Inputs whose first frame isn't whole, is longer than a script may be, or is no script.
const NO_SCRIPTS: [(&[u8], NodeStatus); 4] = [
    (b"", NodeStatus::BadFrame { index: 0 }),
    (b"\x00\x00\x00\x05lock", NodeStatus::BadFrame { index: 0 }),
    (
        b"\x01\x00\x00\x01lockss 1\n",
        NodeStatus::BadFrame { index: 0 },
    ),
    (
        b"\x00\x00\x00\x09lockss 2\n",
        NodeStatus::BadScript { line: 1 },
    ),
];

#[test]
fn begins_with_a_script(rt: HostRuntime) -> Result<(), Fail> {
    let alloc = rt.alloc();
    for (input, wanted) in NO_SCRIPTS.iter() {
        let left = run_over(
            alloc,
            &rt,
            ["1", "j"],
            b"",
            input.to_vec(alloc)?,
            usize::MAX,
        )?;
        expect(&rt, &left, *wanted, b"", input);
        assert!(rt; left.store.is_empty());
    }
    Ok(())
}

/// A tick as a frame.
const TICK: &[u8] = b"\x00\x00\x00\x05\x03\x00\x00\x00\x01";

/// How many frames come behind the script, and the answer.
const COUNTS: [(u32, NodeStatus); 2] = [(4_096, NodeStatus::Done), (4_097, NodeStatus::TooMany)];

#[test]
fn takes_so_many_frames(rt: HostRuntime) -> Result<(), Fail> {
    let alloc = rt.alloc();
    for (count, wanted) in COUNTS.iter() {
        let mut frames = Vec::new(alloc);
        for _ in 0..*count {
            frames.extend_from_slice(TICK)?;
        }
        let left = run(alloc, &rt, ["1", "j"], b"", &frames, usize::MAX)?;
        assert_eq!(rt; left.status, *wanted);
        assert_eq!(rt; left.output.len(), 4_096 * NOTHING.len());
    }
    Ok(())
}

const FOLDER: &str = "lks_node_test";

const PATH: &str = "lks_node_test/journal";

/// A run of peer 1 with its journal in the file: what it answers and writes, without its store.
fn run_on_file<R: Wait + Files<File = File>>(
    alloc: Global,
    rt: &R,
    frames: &[u8],
) -> Result<Left, Fail> {
    let mut source = MemSource::new(alloc, input_of(alloc, frames)?, Vec::new(alloc));
    let mut sink = MemSink::new(alloc, Vec::new(alloc));
    let mut opener = FileOpener::new(rt);
    let mut judge = FirstByteJudge::new(alloc)?;
    let said = words_of(alloc, ["1", PATH])?;
    // The store is dropped without a word, as a process that is killed leaves its file.
    let (status, _store) = node(
        alloc,
        rt,
        &said,
        &mut source,
        &mut sink,
        &mut opener,
        &mut judge,
    );
    Ok(Left {
        status,
        output: sink.bytes().to_vec(alloc)?,
        store: Vec::new(alloc),
    })
}

#[test]
fn goes_on_from_a_file(rt: HostRuntime) -> Result<(), Fail> {
    let _ = fs::remove_dir_all(&rt, FOLDER);
    fs::create_dir(&rt, FOLDER)?;
    let first = run_on_file(rt.alloc(), &rt, OPEN)?;
    expect(&rt, &first, NodeStatus::Done, OPENED, &"first");
    let again = run_on_file(rt.alloc(), &rt, OPEN)?;
    expect(&rt, &again, NodeStatus::Done, NOTHING, &"again");
    let held = FileOpener::new(&rt).open_store(PATH)?;
    let refused = run_on_file(rt.alloc(), &rt, OPEN)?;
    expect(&rt, &refused, NodeStatus::OpenFault, b"", &"held");
    drop(held);
    fs::remove_dir_all(&rt, FOLDER)?;
    Ok(())
}

/// The calls that fail, counted from 1: reads, writes of the sink, writes and syncs of the store; and the answer.
const FAULTS: [(&[u32], &[u32], &[u32], NodeStatus); 5] = [
    (&[1], &[], &[], NodeStatus::ReadFault),
    (&[3], &[], &[], NodeStatus::ReadFault),
    (&[], &[1], &[], NodeStatus::WriteFault),
    (&[], &[], &[1], NodeStatus::DiskFault),
    (&[], &[], &[9], NodeStatus::DiskFault),
];

/// A run of peer 1 on an empty store, with calls that fail.
fn run_failing<R: Wait>(
    alloc: Global,
    rt: &R,
    reads: &[u32],
    writes: &[u32],
    calls: &[u32],
) -> Result<Left, Fail> {
    let mut source = MemSource::new(alloc, input_of(alloc, OPEN)?, reads.to_vec(alloc)?);
    let mut sink = MemSink::new(alloc, writes.to_vec(alloc)?);
    let mut opener = MemOpener::new(MemDisk::new(alloc, calls.to_vec(alloc)?), false);
    run_with(alloc, rt, ["1", "j"], &mut source, &mut sink, &mut opener)
}

#[test]
fn stops_at_a_fault(rt: HostRuntime) -> Result<(), Fail> {
    for (reads, writes, calls, wanted) in FAULTS.iter() {
        let left = run_failing(rt.alloc(), &rt, reads, writes, calls)?;
        expect(&rt, &left, *wanted, b"", &(reads, writes, calls));
    }
    Ok(())
}

// A journal is made by 2 calls, and the deposit and the opening take 4 each. What is left goes on: the poll is opened,
// or was.
#[test]
fn goes_on_where_a_call_failed(rt: HostRuntime) -> Result<(), Fail> {
    let alloc = rt.alloc();
    for call in 1..11u32 {
        let left = run_failing(alloc, &rt, &[], &[], &[call])?;
        expect(&rt, &left, NodeStatus::DiskFault, b"", &call);
        let next = run(alloc, &rt, ["1", "j"], &left.store, OPEN, usize::MAX)?;
        let output = if call > 8 && next.output.as_slice() == NOTHING {
            NOTHING
        } else {
            OPENED
        };
        expect(&rt, &next, NodeStatus::Done, output, &call);
    }
    let left = run_failing(alloc, &rt, &[], &[], &[11])?;
    expect(&rt, &left, NodeStatus::Done, OPENED, &11);
    Ok(())
}
