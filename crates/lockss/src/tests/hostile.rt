//! What comes from outside at its worst: scripts that are cut off or too long, streams of a byte a call, calls that
//! fail.

use super::*;

/// The answer to the bytes in front of a cut, of which so many lines are whole: the first four are a plan.
fn answer_to(lines: u32, is_whole: bool) -> Status {
    if is_whole && lines >= 4 {
        Done
    } else {
        Status::BadScript {
            line: lines.saturating_add(1),
        }
    }
}

/// What a replay of these bytes answers.
fn answered<R: Threads + Wait + Sync>(alloc: Global, rt: &R, bytes: &[u8]) -> Result<Status, Fail> {
    let mut source = MemSource::new(alloc, bytes.to_vec(alloc)?, Vec::new(alloc));
    let mut sink = MemSink::new(alloc, Vec::new(alloc));
    Ok(run_over(alloc, rt, REPLAY, &mut source, &mut sink)?.0)
}

#[test]
fn a_script_cut_at_each_byte(rt: HostRuntime) -> Result<(), Fail> {
    let alloc = rt.alloc();
    let mut front = Vec::new(alloc);
    let mut lines: u32 = 0;
    let mut is_whole = true;
    for byte in joined(alloc, &[HEAD, AGREED])? {
        let answer = answered(alloc, &rt, &front)?;
        same(&rt, &answer, &answer_to(lines, is_whole), &front.len());
        front.push(byte)?;
        is_whole = byte == b'\n';
        if is_whole {
            lines = lines.saturating_add(1);
        }
    }
    same(&rt, &lines, &16, &"lines");
    same(&rt, &answered(alloc, &rt, &front)?, &Done, &"answered");
    Ok(())
}

/// A script, how many bytes a comment behind it fills it up to, what ends the comment, and the answer.
const LONG: [(&[&str], usize, &str, Status); 4] = [
    (&[], 16_777_216, "", Status::BadScript { line: 1 }),
    (&[], 16_777_217, "", Status::TooLong),
    (&[HEAD, AGREED], 16_777_216, "\n", Done),
    (&[HEAD, AGREED], 16_777_217, "\n", Status::TooLong),
];

#[test]
fn as_long_as_may_be(rt: HostRuntime) -> Result<(), Fail> {
    let alloc = rt.alloc();
    for &(script, count, end, answer) in LONG.iter() {
        let mut bytes = joined(alloc, script)?;
        bytes.resize(count.saturating_sub(end.len()), b'#')?;
        bytes.extend_from_slice(end.as_bytes())?;
        same(&rt, &bytes.len(), &count, &"bytes.len");
        same(&rt, &answered(alloc, &rt, &bytes)?, &answer, &count);
    }
    Ok(())
}

/// How many bytes a sink takes a call, behind a source of a byte a call, and the answer.
const NARROW: [(usize, Status); 3] = [(1, Done), (3, Done), (0, Status::WriteFault)];

#[test]
fn narrow_streams(rt: HostRuntime) -> Result<(), Fail> {
    let alloc = rt.alloc();
    let report = joined(alloc, &[VOTED, AGREED_REPORT])?;
    for &(most, answer) in NARROW.iter() {
        let script = joined(alloc, &[HEAD, AGREED])?;
        let mut source = MemSource::narrow(alloc, script, Vec::new(alloc), 1);
        let mut sink = MemSink::narrow(alloc, Vec::new(alloc), most);
        let ended = run_over(alloc, &rt, REPLAY, &mut source, &mut sink)?;
        let text = if answer == Done {
            report.as_slice()
        } else {
            b""
        };
        expect(&rt, &ended, answer, text, &most);
    }
    Ok(())
}

// A sink of seven bytes a call, up to the first run in which none fails. What was taken before a failure is a front of
// the report.
#[test]
fn each_write_fails(rt: HostRuntime) -> Result<(), Fail> {
    let alloc = rt.alloc();
    let report = joined(alloc, &[VOTED, AGREED_REPORT])?;
    for call in 1..10_000u32 {
        let mut source = MemSource::new(alloc, joined(alloc, &[HEAD, AGREED])?, Vec::new(alloc));
        let mut sink = MemSink::narrow(alloc, vec![in alloc; call]?, 7);
        let (status, written) = run_over(alloc, &rt, REPLAY, &mut source, &mut sink)?;
        if status == Done {
            assert!(rt; call as usize > report.len() / 7);
            same(&rt, &written, &report, &"written");
            return Ok(());
        }
        same(&rt, &status, &Status::WriteFault, &call);
        assert!(rt; written.len() < report.len(), "call {call}");
        assert!(rt; report.starts_with(&written), "call {call}");
    }
    Err("each of 9,999 calls failed".into())
}
