//! The first bad lines of scripts, their limits, and a step line by itself.

use crate::pieces::{AU, LISTS, PEERS, RULES, TITLE, script_in};
use crate::same::same;
use lks_base::{PeerStep, Plan};
use lks_script::{ScriptFault, Step, read_script, read_step};
use lks_words::{large, put_number, split};
use std::alloc::Global;
use std::process::Abort;
use std::test::*;

/// Marks in a row, and what they stand for: a semicolon for a line feed, and for a piece an upper-case letter that is
/// no digit of hex.
const MARKS: [(u8, &str); 7] = [
    (b'T', TITLE),
    (b'R', RULES),
    (b'U', AU),
    (b'P', PEERS),
    (b'L', LISTS),
    (b'X', FOUR_FAILURES),
    (b';', "\n"),
];

const FOUR_FAILURES: &str = "crash 1\ncut 0 0 next\ncut 8 255 again 7\nlose\ncrash 1\n";

/// A plan of four peers, the first of them honest.
const PLAN: &[u8] = b"TRUP";

/// Adds what a byte stands for: itself, where it isn't a mark.
fn add_meaning(bytes: &mut Vec<u8>, byte: u8) -> Result<(), Fail> {
    for (mark, text) in MARKS.iter() {
        if *mark == byte {
            bytes.extend_from_slice(text.as_bytes())?;
            return Ok(());
        }
    }
    bytes.push(byte)?;
    Ok(())
}

/// Adds what a text with marks says.
fn expand(bytes: &mut Vec<u8>, marked: &[u8]) -> Result<(), Fail> {
    for byte in marked {
        add_meaning(bytes, *byte)?;
    }
    Ok(())
}

/// The first bad line, or 0.
fn first_bad(alloc: Global, bytes: &[u8]) -> Result<u32, Fail> {
    match read_script(alloc, bytes) {
        Ok(_) => Ok(0),
        Err(ScriptFault::BadLine { line }) => Ok(line),
        Err(ScriptFault::Memory) => Err("out of memory".into()),
    }
}

/// The number and the text of a row.
fn row_parts(alloc: Global, row: &[u8]) -> Result<(u32, &[u8]), Fail> {
    let parts = split(alloc, row, b'|')?;
    let [number, text] = parts.as_slice() else {
        return Err("a row is a number, a bar and a text".into());
    };
    match large(number) {
        Ok(line) => Ok((line, *text)),
        Err(_) => Err("a row begins with a number".into()),
    }
}

/// Each row is the first bad line of a script, or 0, a bar, and what stands in the script behind its head. A row that
/// begins with `#` is a comment.
fn check_table(rt: &impl Abort, alloc: Global, head: &[u8], table: &str) -> Result<(), Fail> {
    for (at, row) in split(alloc, table.as_bytes(), b'\n')?.iter().enumerate() {
        if row.is_empty() || row.starts_with(b"#") {
            continue;
        }
        let (line, text) = row_parts(alloc, row)?;
        let mut bytes = Vec::new(alloc);
        expand(&mut bytes, head)?;
        expand(&mut bytes, text)?;
        same(rt, &first_bad(alloc, &bytes)?, &line, &at);
    }
    Ok(())
}

const HEADS: &str = "\
# ends
1|
1|lockss 1
2|T
3|TR
4|TRU
0|TRUP
0|TRUpeer 2 corrupt 02 01;
# forms
1|lockss 2;
3|;T
2|# a comment;
1| # no comment;
1|# \u{e9};
0|# lockss;;T#;R;U# four;P;
0|TRUpeer 2 corrupt 02 01;# none;
1|lockss 1\r;
1|lockss  1;
1|lockss 1 ;
10|TRUPLfrob;
10|TRUPLforge 1 2 00;
0|TRUPLsettle;;settle;# end;
11|TRUPLsettle;# end
10|TRUPLsettle now;
# rules
2|Trules inner 4;
2|Trules inner 17 quorum 3 minority 1 outer 0 repairs 2 pace 0 refractory 0 overdue 100 unknown 100 debt 100 churn 0;
2|Trules inner 4 quorum 2 minority 1 outer 0 repairs 2 pace 0 refractory 0 overdue 100 unknown 100 debt 100 churn 0;
2|Trules inner 4 quorum 3 minority 1 outer 0 repairs 2 pace 0 refractory 0 overdue 100 unknown 101 debt 100 churn 0;
3|TRR
# turns
0|TRturns 0;UP
4|TRturns 4096;turns 4096;
3|TRturns 4097;
3|TRturns;
4|TRUturns 7;
8|TRUPturns 7;
# AUs
3|TRau 1 0;
3|TRau 1 513;
3|TRau 01 2;
3|TRau +1 2;
3|TRau 65536 2;
5|TRau 65535 2;au 0 512;au 65535 2;
7|TRau 1 2;au 2 2;au 3 2;au 4 2;au 5 2;
3|TRP
# peers
5|TRUpeer 2 corrupt 02 01;refs 2 2;
10|TRUPLpeer 5 corrupt 05 01;
8|TRUPU
# copies
10|TRUPLcopy 1 1 41,42;
9|TRUPsettle;L
";

#[test]
fn first_bad_lines(rt: HostRuntime) -> Result<(), Fail> {
    check_table(&rt, rt.alloc(), b"", HEADS)
}

const LISTS_AND_STEPS: &str = "\
# ends
9|refs 1 2 3 4;copy 1 1 41,42
# peers
0|peer 5 honest 05 01;refs 5 1;refs 1 5;copy 5 1 41,42;open 5 1;
8|peer 4 corrupt 05 01;
8|peer 5 corrupt - 01;
8|peer 5 corrupt 0 01;
0|peer 5 corrupt 000102030405060708090a0b0c0d0e0f101112131415161718191A1B1C1D1E1F -;
8|peer 5 corrupt 000102030405060708090a0b0c0d0e0f101112131415161718191A1B1C1D1E1F20 -;
# lists
8|refs 1 2 2;
8|refs 1 1;
8|refs 1 9;
8|refs 1;
8|refs 2 1;
9|refs 1 2;refs 1 3;
0|peer 5 corrupt 05 01;peer 6 corrupt 06 01;refs 1 2 3 4 5 6;
0|refs 1 2 3;friends 1 4;copy 1 1 41,42;
0|copy 1 1 41,42;friends 1 4 3 2;refs 1 2;open 1 1;
8|friends 1;
8|friends;
9|friends 1 2;friends 1 2;
10|friends 1 2;refs 1 3;refs 1 3;
8|friends 2 3;
8|friends 1 1;
8|friends 1 9;
8|friends 1 2 2;
8|friends 1 65536;
9|friends 1 2;peer 5 corrupt 05 01;
9|lose;friends 1 2;
# copies
8|copy 1 1 41;
0|copy 1 1 41,-;
0|copy 1 1 41*2,fF*16384;
8|copy 1 1 41*0,42;
8|copy 1 1 41*16385,42;
8|copy 1 1 41*02,42;
8|copy 1 1 4142*2,42;
8|copy 1 1 41*2*2,42;
8|copy 1 1 *2,42;
8|copy 1 1 41*,42;
8|copy 1 1 -*2,42;
8|copy 1 1 41,;
8|copy 1 2 41,42;
8|copy 2 1 41,42;
# steps
0|open 1 1;open 1 1;
8|open 2 1;
8|open 1 2;
9|shut 1 4294967295;shut 1 4294967296;
8|say 1 vote 2 1 1 of 41;
9|say 2 vote 3 1 1 of 41;say 2 vote 9 1 1 of 41;
8|say 2 vote 1 1 1 41;
9|say 2 repair 1 1 511 43;say 2 repair 1 1 512 43;
0|say 2 repair 1 1 0 -;say 2 repair 1 1 0 5a*16384;
8|say 2 repair 1 1 0;
0|forge 2 1 -;forge 2 1 0101000000010001;
8|forge 2 1 0g;
8|forge 2 9 00;
10|say 2 challenge 1 1 yes;say 2 challenge 1 1 no;say 2 challenge 1 1 maybe;
10|say 2 nominate 1 1;say 2 nominate 1 1 1 2 3 4 5 6 7 65535;say 2 nominate 1 1 1 2 3 4 5 6 7 8 9;
8|say 2 nominate 1 1 65536;
9|say 2 proof 1 7;say 2 proof 1 7 1;
9|say 2 request 1 7 511;say 2 request 1 7 512;
9|say 2 receipt 1 7;say 1 receipt 2 7;
10|tick 1;tick 1000000;tick 1000001;
8|tick 0;
8|tick 01;
8|tick;
8|tick 1 1;
0|tick 1000000;
11|next;next 1;next 4096;next 4097;
0|next 4096;next;
8|next 0;
8|next 65536;
8|next 1 1;
9|lose;lose 1;
0|again 0;again 4294967295;
8|again;
8|again 4294967296;
8|again 1 1;
0|outer 1 0;outer 1 4294967295;check 1;
8|outer 1 4294967296;
0|tally 1 1;nudge 1 1;give-up 1 1;finish;
8|tally 2 1;
8|nudge 1;
8|give-up 1 1 1;
8|give up 1 1;
8|finish 1;
8|outer 2 1;
8|outer 1;
8|check 2;
8|check 9;
8|check;
8|check 1 1;
";

#[test]
fn first_bad_lines_behind_the_peers(rt: HostRuntime) -> Result<(), Fail> {
    check_table(&rt, rt.alloc(), PLAN, LISTS_AND_STEPS)
}

const COPIES_AND_HASHES: &str = "\
# like
8|copy 1 1 like 1;
9|peer 5 honest 05 01;copy 5 1 like 1;
0|peer 5 honest 05 01;copy 1 1 41,42;copy 5 1 like 1;
10|peer 5 honest 05 01;copy 1 1 41,42;copy 5 1 like 2;
10|peer 5 honest 05 01;copy 1 1 41,42;copy 5 1 like 9;
10|peer 5 honest 05 01;copy 1 1 41,42;copy 5 2 like 1;
9|copy 1 1 41,42;copy 1 1 like 1;
8|copy 1 1 like;
8|copy 1 1 as 1;
8|copy 1 1 like 1 1;
8|copy 1 1;
# damage
8|damage 1 1 0 43;
0|copy 1 1 41,42;damage 1 1 1 -;damage 1 1 1 5a*16384;
9|copy 1 1 41,42;damage 1 1 2 43;
9|copy 1 1 41,42;damage 1 1 512 43;
9|copy 1 1 41,42;damage 1 2 0 43;
9|copy 1 1 41,42;damage 2 1 0 43;
9|copy 1 1 41,42;damage 1 1 0 5a*16385;
9|copy 1 1 41,42;damage 1 1 0;
10|copy 1 1 41,42;open 1 1;damage 1 1 0 43;
# hash
0|hash 1 sha256;hash 2 sha512-256;
9|hash 1 sha256;hash 1 sha256;
8|hash 1 sha1;
8|hash 9 sha256;
8|hash 1;
8|hash 1 sha256 1;
9|open 1 1;hash 1 sha256;
";

#[test]
fn lines_of_copies_and_hashes(rt: HostRuntime) -> Result<(), Fail> {
    check_table(&rt, rt.alloc(), PLAN, COPIES_AND_HASHES)
}

const VOTERS: &str = "\
0|work 1 2 1;work 1 1 0;work 1 4 4294967295;
8|work 2 1 1;
8|work 9 2 1;
8|work 1 9 1;
8|work 1 65536 1;
8|work 1 2 4294967296;
8|work 1 2 01;
8|work 1 2;
8|work 1 2 1 1;
8|work;
0|expire 1 2 1;expire 1 1 0;expire 1 4 4294967295;
8|expire 2 1 1;
8|expire 9 2 1;
8|expire 1 9 1;
8|expire 1 2 4294967296;
8|expire 1 2;
8|expire 1 2 1 1;
# invitations
0|say 2 poll 1 1 1;say 2 poll 3 0 1;say 2 poll 2 4294967295 1;
8|say 1 poll 2 1 1;
8|say 9 poll 1 1 1;
8|say 2 poll 9 1 1;
8|say 2 poll 1 4294967296 1;
8|say 2 poll 1 1 2;
8|say 2 poll 1 1 65536;
8|say 2 poll 1 1;
8|say 2 poll 1 1 1 1;
0|forge 2 1 0101000000010001;forge 2 3 01010000000100020000;
8|forge 1 2 0101000000010001;
";

#[test]
fn lines_of_voters(rt: HostRuntime) -> Result<(), Fail> {
    check_table(&rt, rt.alloc(), PLAN, VOTERS)
}

const OPERATORS: &str = "\
0|tune 1 1 0 0;tune 1 3 1 2;tune 1 4 1 512;
8|tune 1 0 0 2;
9|tune 1 4 0 2;tune 1 5 0 2;
8|tune 1 65536 1 2;
8|tune 1 2 1 2;
8|tune 1 4 2 2;
8|tune 1 4 32768 2;
8|tune 1 4 65535 2;
8|tune 1 4 1 513;
8|tune 1 4 1 65536;
8|tune 2 3 1 2;
8|tune 9 3 1 2;
8|tune 1 03 1 2;
8|tune 1 3 1;
8|tune 1 3 1 2 2;
";

#[test]
fn lines_of_operators(rt: HostRuntime) -> Result<(), Fail> {
    check_table(&rt, rt.alloc(), PLAN, OPERATORS)
}

const FAILING_POWER: &str = "\
0|crash 1;
8|crash 2;
8|crash 9;
8|crash;
8|crash 1 1;
0|cut 0 0 next;cut 8 255 again 4294967295;
0|cut 1 2 check 1;cut 3 1 open 1 1;cut 0 0 outer 1 1;
0|cut 0 0 shut 1 1;cut 0 0 tally 1 1;cut 0 0 nudge 1 1;
0|cut 0 0 give-up 1 1;cut 0 0 work 1 2 1;cut 0 0 expire 1 2 1;
0|cut 4 165 tune 1 4 1 512;
8|cut 9 0 next;
8|cut 256 0 next;
8|cut 0 256 next;
8|cut 0 00 next;
8|cut 0 0 next 1;
8|cut 0 0 again;
8|cut 0 0;
8|cut 0 0 lose;
8|cut 0 0 settle;
8|cut 0 0 crash 1;
8|cut 0 0 cut 0 0 next;
8|cut 0 0 say 2 receipt 1 1;
8|cut 0 0 open 2 1;
8|cut 0 0 tune 1 5 1 2;
";

#[test]
fn lines_of_failing_power(rt: HostRuntime) -> Result<(), Fail> {
    check_table(&rt, rt.alloc(), PLAN, FAILING_POWER)
}

const FAILURES: &str = "\
0|
0|lose;
28|crash 1;
29|lose;cut 0 0 next;
";

#[test]
fn at_most_so_many_failures(rt: HostRuntime) -> Result<(), Fail> {
    check_table(&rt, rt.alloc(), b"TRUPXXXX", FAILURES)
}

/// Adds a line for each number from the first on: the number, and the words before and behind it.
fn add_lines(
    alloc: Global,
    bytes: &mut Vec<u8>,
    first: u64,
    end: u64,
    around: (&str, &str),
) -> Result<(), Fail> {
    let (before, behind) = around;
    for number in first..end {
        expand(bytes, before.as_bytes())?;
        put_number(alloc, bytes, number)?;
        expand(bytes, behind.as_bytes())?;
    }
    Ok(())
}

fn add_times(bytes: &mut Vec<u8>, times: u32, text: &str) -> Result<(), Fail> {
    for _ in 0..times {
        bytes.extend_from_slice(text.as_bytes())?;
    }
    Ok(())
}

/// Sixteen copies of 8 MiB have all bytes that copies may have, so the next one is refused.
#[test]
fn at_most_so_many_bytes_of_copies(rt: HostRuntime) -> Result<(), Fail> {
    let alloc = rt.alloc();
    let mut bytes = Vec::new(alloc);
    expand(&mut bytes, b"TRau 1 512;")?;
    add_lines(alloc, &mut bytes, 1, 18, ("peer ", " honest 02 -;"))?;
    expand(&mut bytes, b"copy 1 1 5a*16384")?;
    add_times(&mut bytes, 511, ",5a*16384")?;
    expand(&mut bytes, b";")?;
    add_lines(alloc, &mut bytes, 2, 18, ("copy ", " 1 like 1;"))?;
    same(&rt, &first_bad(alloc, &bytes)?, &37, &"first_bad");
    Ok(())
}

/// A forged envelope of so many zero digits behind `0101`.
fn forged(alloc: Global, zeros: u32) -> Result<Vec<u8>, Fail> {
    let mut bytes = Vec::new(alloc);
    expand(&mut bytes, b"TRUPforge 2 1 0101")?;
    add_times(&mut bytes, zeros, "0")?;
    expand(&mut bytes, b";")?;
    Ok(bytes)
}

#[test]
fn at_most_so_many_forged_bytes(rt: HostRuntime) -> Result<(), Fail> {
    let alloc = rt.alloc();
    same(
        &rt,
        &first_bad(alloc, &forged(alloc, 79_996)?)?,
        &0,
        &"first_bad",
    );
    same(
        &rt,
        &first_bad(alloc, &forged(alloc, 79_998)?)?,
        &8,
        &"first_bad",
    );
    Ok(())
}

/// A plan of the peers from 1 to before this number.
fn crowd(alloc: Global, end: u64) -> Result<Vec<u8>, Fail> {
    let mut bytes = Vec::new(alloc);
    expand(&mut bytes, PLAN)?;
    add_lines(alloc, &mut bytes, 5, end, ("peer ", " corrupt 02 -;"))?;
    Ok(bytes)
}

#[test]
fn at_most_so_many_peers(rt: HostRuntime) -> Result<(), Fail> {
    let alloc = rt.alloc();
    same(
        &rt,
        &first_bad(alloc, &crowd(alloc, 33)?)?,
        &0,
        &"first_bad",
    );
    same(
        &rt,
        &first_bad(alloc, &crowd(alloc, 34)?)?,
        &36,
        &"first_bad",
    );
    Ok(())
}

fn opens_first(step: &Step) -> bool {
    matches!(step, Step::Peer(PeerStep::OpenPoll { peer: 1, au: 1 }))
}

const NO_STEPS: [&str; 7] = [
    "open 1",
    "open 2 1",
    "open 1 1\n",
    "next 4097",
    "copy 1 1 41",
    "",
    "# open 1 1",
];

fn plan_alone(alloc: Global) -> Result<Plan, Fail> {
    let mut bytes = Vec::new(alloc);
    expand(&mut bytes, PLAN)?;
    let script = read_script(alloc, &bytes)
        .ok()
        .ok_or("the plan is a script")?;
    Ok(script.plan)
}

#[test]
fn a_step_line_by_itself(rt: HostRuntime) -> Result<(), Fail> {
    let alloc = rt.alloc();
    let plan = plan_alone(alloc)?;
    let step = read_step(alloc, &plan, b"open 1 1")?.ok_or("a step line")?;
    assert!(rt; opens_first(&step));
    for line in NO_STEPS.iter() {
        let step = read_step(alloc, &plan, line.as_bytes())?;
        assert!(rt; step.is_none(), "{line}");
    }
    Ok(())
}
