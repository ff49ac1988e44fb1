//! An honest peer in polls of corrupt ones.

use super::*;

// Peer 1 joins a poll, commits, and only then repairs block 1: it votes over the version from before, and gives its
// block 1.
const SNAPSHOT: &str = "\
say 2 poll 1 7 1
next
say 2 proof 1 7
next 2
open 1 1
say 2 vote 1 1 1 of 41,43
say 3 vote 1 1 1 of 41,43
say 4 vote 1 1 1 of 41,43
next 7
shut 1 1
tally 1 1
say 2 repair 1 1 1 43
next 2
work 1 2 7
say 2 request 1 7 1
next 2
";

const SNAPSHOT_BEGUN: &str = "\
lockss report 1
1 forge 2 1 8 | - | 1
2 deliver 0 2 1 | joined 2 7 1 low | 1
";

const SNAPSHOT_REPORT: &str = "\
4 deliver 1 1 2 | - | 0
5 deliver 2 2 1 accepted | committed 2 7 0 | 1
6 open 1 1 | opened 1 1 | 3
7 forge 2 1 74 | - | 1
8 forge 3 1 74 | - | 1
9 forge 4 1 74 | - | 1
10 deliver 3 1 2 | - | 0
11 deliver 4 1 2 | - | 0
12 deliver 5 1 3 | - | 0
13 deliver 6 1 4 | - | 0
14 deliver 7 2 1 accepted | vote-in 1 2 | 0
15 deliver 8 3 1 accepted | vote-in 1 3 | 0
16 deliver 9 4 1 accepted | vote-in 1 4 | 0
17 shut 1 1 | shut 1 | 0
18 tally 1 1 | asked 1 1 2 | 1
19 forge 2 1 11 | - | 1
20 deliver 10 1 2 | - | 0
21 deliver 11 2 1 | replaced 1 1 1 1 | 0
22 work 1 2 7 | voted 2 7 | 1
23 forge 2 1 8 | - | 1
24 deliver 12 1 2 | - | 0
25 deliver 13 2 1 | served 2 7 1 | 1
copy 1 1 1
poll 1 1 1 3 0 running
end 25
";

// Within 10 ticks one peer of low grade is let join.
const HEAD_OF_TEN: &str = "\
lockss 1
rules inner 4 quorum 3 minority 1 outer 0 repairs 2 pace 0 refractory 10 overdue 100 unknown 100 debt 100 churn 0
au 1 2
peer 1 honest 01 01
peer 2 corrupt 02 01
peer 3 corrupt 03 01
peer 4 corrupt 04 01
refs 1 2 3 4
copy 1 1 41,42
";

const REFRACTORY: &str = "\
say 2 poll 1 1 1
next
tick 9
say 3 poll 1 1 1
next 2
tick 1
say 4 poll 1 1 1
next 2
";

const REFRACTORY_REPORT: &str = "\
lockss report 1
1 forge 2 1 8 | - | 1
2 deliver 0 2 1 | joined 2 1 1 low | 1
3 tick 9 | - | 0
4 forge 3 1 8 | - | 1
5 deliver 1 1 2 | - | 0
6 deliver 2 3 1 | - | 1
7 tick 1 | - | 0
8 forge 4 1 8 | - | 1
9 deliver 3 1 3 | - | 0
10 deliver 4 4 1 | joined 4 1 1 low | 1
copy 1 1 0
end 10
";

// Peer 2's proofs are refused.
const HEAD_OF_BAD_PROOF: &str = "\
lockss 1
rules inner 4 quorum 3 minority 1 outer 0 repairs 2 pace 0 refractory 0 overdue 100 unknown 100 debt 100 churn 0
au 1 2
peer 1 honest 01 01
peer 2 corrupt 02 02
peer 3 corrupt 03 01
peer 4 corrupt 04 01
refs 1 2 3 4
copy 1 1 41,42
";

const REFUSED: &str = "\
say 2 poll 1 7 1
next
say 2 proof 1 7
next 2
say 2 poll 1 7 1
next 2
";

const REFUSED_REPORT: &str = "\
lockss report 1
1 forge 2 1 8 | - | 1
2 deliver 0 2 1 | joined 2 7 1 low | 1
3 forge 2 1 40 | - | 1
4 deliver 1 1 2 | - | 0
5 deliver 2 2 1 refused | ended 2 7 | 0
6 forge 2 1 8 | - | 1
7 deliver 3 2 1 | - | 1
8 deliver 4 1 2 | - | 0
copy 1 1 0
end 8
";

// The poll keeps the numbers with which it was opened.
const TUNED: &str = "\
open 1 1
tune 1 1 0 2
say 2 vote 1 1 1 of 41,42
say 3 vote 1 1 1 of 41,42
settle
shut 1 1
settle
";

const TUNED_REPORT: &str = "\
lockss report 1
1 open 1 1 | opened 1 1 | 3
2 tune 1 1 0 2 | tuned 1 0 2 | 0
3 forge 2 1 74 | - | 1
4 forge 3 1 74 | - | 1
5 deliver 0 1 2 | - | 0
6 deliver 1 1 3 | - | 0
7 deliver 2 1 4 | - | 0
8 deliver 3 2 1 accepted | vote-in 1 2 | 0
9 deliver 4 3 1 accepted | vote-in 1 3 | 0
10 shut 1 1 | shut 1, closed 1 inquorate | 2
11 deliver 5 1 2 | - | 0
12 deliver 6 1 3 | - | 0
copy 1 1 0
poll 1 1 1 2 0 inquorate
end 12
";

const SESSIONS: [Row; 6] = [
    (
        Done,
        &[HEAD, SNAPSHOT],
        &[SNAPSHOT_BEGUN, "3 forge 2 1 40 | - | 1\n", SNAPSHOT_REPORT],
    ),
    (
        Done,
        &[HEAD, "hash 2 sha512-256\n", SNAPSHOT],
        &[SNAPSHOT_BEGUN, "3 forge 2 1 41 | - | 1\n", SNAPSHOT_REPORT],
    ),
    (
        Done,
        &[HEAD, "hash 1 sha512-256\n", AGREED],
        &[VOTED, AGREED_REPORT],
    ),
    (Done, &[HEAD_OF_TEN, REFRACTORY], &[REFRACTORY_REPORT]),
    (Done, &[HEAD_OF_BAD_PROOF, REFUSED], &[REFUSED_REPORT]),
    (Done, &[HEAD, TUNED], &[TUNED_REPORT]),
];

#[test]
fn sessions(rt: HostRuntime) -> Result<(), Fail> {
    check_rows(&rt, rt.alloc(), &SESSIONS)
}
