//! Peers whose power fails, between two events and within a step.

use super::*;

// The votes speak against block 1, and a repair is on its way.
pub const ASKED: &str = "\
open 1 1
say 2 vote 1 1 1 of 41,43
say 3 vote 1 1 1 of 41,43
say 4 vote 1 1 1 of 41,43
settle
shut 1 1
settle
say 2 repair 1 1 1 43
";

const ASKED_REPORT: &str = "\
12 tally 1 1 | asked 1 1 2 | 1
13 deliver 6 1 2 | - | 0
14 forge 2 1 11 | - | 1
";

const AGAIN: &str = "again 7\nsettle\n";

const LOST_REPORT: &str = "\
15 cut lost deliver 7 2 1 | - | 0
16 deliver 7 2 1 | replaced 1 1 1 1 | 0
17 tally 1 1 | closed 1 agreed | 3
18 deliver 8 1 2 | - | 0
19 deliver 9 1 3 | - | 0
20 deliver 10 1 4 | - | 0
copy 1 1 1
poll 1 1 1 3 0 agreed
end 20
";

const KEPT_REPORT: &str = "\
15 cut kept deliver 7 2 1 | replaced 1 1 1 1 | 0
16 deliver 7 2 1 | - | 0
17 tally 1 1 | closed 1 agreed | 3
18 deliver 8 1 2 | - | 0
19 deliver 9 1 3 | - | 0
20 deliver 10 1 4 | - | 0
copy 1 1 1
poll 1 1 1 3 0 agreed
end 20
";

const WHOLE_REPORT: &str = "\
15 deliver 7 2 1 | replaced 1 1 1 1 | 0
16 crash 1 | - | 0
17 deliver 7 2 1 | - | 0
18 tally 1 1 | closed 1 agreed | 3
19 deliver 8 1 2 | - | 0
20 deliver 9 1 3 | - | 0
21 deliver 10 1 4 | - | 0
copy 1 1 1
poll 1 1 1 3 0 agreed
end 21
";

const THREE: &str = "\
cut 0 165 next
cut 2 0 again 7
cut 3 1 again 7
settle
";

const THREE_REPORT: &str = "\
15 cut lost deliver 7 2 1 | - | 0
16 cut lost deliver 7 2 1 | - | 0
17 cut kept deliver 7 2 1 | replaced 1 1 1 1 | 0
18 tally 1 1 | closed 1 agreed | 3
19 deliver 8 1 2 | - | 0
20 deliver 9 1 3 | - | 0
21 deliver 10 1 4 | - | 0
copy 1 1 1
poll 1 1 1 3 0 agreed
end 21
";

// Peer 1 commits, replaces block 1, and loses its power before it votes. What it voted over is still there.
const SNAPSHOT: &str = "\
say 2 poll 1 7 1
next
say 2 proof 1 7
next 2
open 1 1
say 2 vote 1 1 1 of 41,43
say 3 vote 1 1 1 of 41,43
say 4 vote 1 1 1 of 41,43
next 7
shut 1 1
tally 1 1
say 2 repair 1 1 1 43
next 2
crash 1
again 2
work 1 2 7
again 2
";

const SNAPSHOT_REPORT: &str = "\
lockss report 1
1 forge 2 1 8 | - | 1
2 deliver 0 2 1 | joined 2 7 1 low | 1
3 forge 2 1 40 | - | 1
4 deliver 1 1 2 | - | 0
5 deliver 2 2 1 accepted | committed 2 7 0 | 1
6 open 1 1 | opened 1 1 | 3
7 forge 2 1 74 | - | 1
8 forge 3 1 74 | - | 1
9 forge 4 1 74 | - | 1
10 deliver 3 1 2 | - | 0
11 deliver 4 1 2 | - | 0
12 deliver 5 1 3 | - | 0
13 deliver 6 1 4 | - | 0
14 deliver 7 2 1 accepted | vote-in 1 2 | 0
15 deliver 8 3 1 accepted | vote-in 1 3 | 0
16 deliver 9 4 1 accepted | vote-in 1 4 | 0
17 shut 1 1 | shut 1 | 0
18 tally 1 1 | asked 1 1 2 | 1
19 forge 2 1 11 | - | 1
20 deliver 10 1 2 | - | 0
21 deliver 11 2 1 | replaced 1 1 1 1 | 0
22 crash 1 | - | 0
23 deliver 2 2 1 accepted | - | 1
24 work 1 2 7 | voted 2 7 | 1
25 deliver 2 2 1 accepted | - | 2
copy 1 1 1
poll 1 1 1 3 0 running
end 25
";

// The numbers to which peer 1 was tuned are in force after the crash.
const TUNED: &str = "tune 1 1 0 2\ncrash 1\n";

const TUNED_REPORT: &str = "\
lockss report 1
1 tune 1 1 0 2 | tuned 1 0 2 | 0
2 crash 1 | - | 0
3 open 1 1 | opened 1 1 | 3
4 forge 2 1 74 | - | 1
5 forge 3 1 74 | - | 1
6 deliver 0 1 2 | - | 0
7 deliver 1 1 3 | - | 0
8 deliver 2 1 4 | - | 0
9 deliver 3 2 1 accepted | vote-in 1 2 | 0
10 deliver 4 3 1 accepted | vote-in 1 3 | 0
11 shut 1 1 | shut 1 | 0
12 tally 1 1 | closed 1 agreed | 2
13 deliver 5 1 2 | - | 0
14 deliver 6 1 3 | - | 0
copy 1 1 0
poll 1 1 1 2 0 agreed
end 14
";

// Nothing waits at first, peer 2 is corrupt, envelope 9 is never sent, and envelope 3 is no message. A poll without a
// vote is closed when it is shut, and a cut step sends nothing.
const ELSEWHERE: &str = "\
cut 0 0 next
open 1 1
cut 0 0 next
cut 0 0 again 9
forge 2 1 00
cut 0 0 again 3
cut 0 1 shut 1 1
cut 2 1 shut 1 1
cut 0 0 shut 1 1
";

const ELSEWHERE_REPORT: &str = "\
lockss report 1
1 open 1 1 | opened 1 1 | 3
2 deliver 0 1 2 | - | 0
3 forge 2 1 1 | - | 1
4 deliver 3 2 1 | - | 0
5 crash 1 | - | 0
6 cut lost shut 1 1 | - | 0
7 cut kept shut 1 1 | shut 1, closed 1 inquorate | 0
8 shut 1 1 | - | 0
9 crash 1 | - | 0
copy 1 1 0
poll 1 1 1 0 0 inquorate
end 9
";

const LOST_AND_AGAIN: &[&str] = &[VOTED, ASKED_REPORT, LOST_REPORT];

const KEPT_AND_AGAIN: &[&str] = &[VOTED, ASKED_REPORT, KEPT_REPORT];

const WHOLE_AND_AGAIN: &[&str] = &[VOTED, ASKED_REPORT, WHOLE_REPORT];

/// How many calls of the disk pass in a step and what a power cut leaves, and what is reported.
const CUT_STEPS: [(&str, &[&str]); 24] = [
    ("cut 0 0 next\n", LOST_AND_AGAIN),
    ("cut 1 0 next\n", LOST_AND_AGAIN),
    ("cut 2 0 next\n", LOST_AND_AGAIN),
    ("cut 3 0 next\n", LOST_AND_AGAIN),
    ("cut 4 0 next\n", WHOLE_AND_AGAIN),
    ("cut 8 0 next\n", WHOLE_AND_AGAIN),
    ("cut 0 1 next\n", LOST_AND_AGAIN),
    ("cut 1 1 next\n", LOST_AND_AGAIN),
    ("cut 2 1 next\n", KEPT_AND_AGAIN),
    ("cut 3 1 next\n", KEPT_AND_AGAIN),
    ("cut 4 1 next\n", WHOLE_AND_AGAIN),
    ("cut 8 1 next\n", WHOLE_AND_AGAIN),
    ("cut 0 2 next\n", LOST_AND_AGAIN),
    ("cut 1 2 next\n", LOST_AND_AGAIN),
    ("cut 2 2 next\n", LOST_AND_AGAIN),
    ("cut 3 2 next\n", LOST_AND_AGAIN),
    ("cut 4 2 next\n", WHOLE_AND_AGAIN),
    ("cut 8 2 next\n", WHOLE_AND_AGAIN),
    ("cut 0 165 next\n", LOST_AND_AGAIN),
    ("cut 1 165 next\n", LOST_AND_AGAIN),
    ("cut 2 165 next\n", KEPT_AND_AGAIN),
    ("cut 3 165 next\n", KEPT_AND_AGAIN),
    ("cut 4 165 next\n", WHOLE_AND_AGAIN),
    ("cut 8 165 next\n", WHOLE_AND_AGAIN),
];

const CUTS: [Row; 2] = [
    (
        Done,
        &[HEAD, ASKED, THREE],
        &[VOTED, ASKED_REPORT, THREE_REPORT],
    ),
    (Done, &[HEAD, ELSEWHERE], &[ELSEWHERE_REPORT]),
];

#[test]
fn cuts(rt: HostRuntime) -> Result<(), Fail> {
    let alloc = rt.alloc();
    for &(line, report) in CUT_STEPS.iter() {
        let script = [HEAD, ASKED, line, AGAIN];
        let found = replayed(alloc, &rt, REPLAY, &script, &[], &[])?;
        let report = joined(alloc, report)?;
        expect(&rt, &found, Done, &report, &line);
    }
    check_rows(&rt, alloc, &CUTS)
}

const CRASHES: [Row; 2] = [
    (Done, &[HEAD, SNAPSHOT], &[SNAPSHOT_REPORT]),
    (Done, &[HEAD, TUNED, INQUORATE], &[TUNED_REPORT]),
];

#[test]
fn crashes(rt: HostRuntime) -> Result<(), Fail> {
    check_rows(&rt, rt.alloc(), &CRASHES)
}
