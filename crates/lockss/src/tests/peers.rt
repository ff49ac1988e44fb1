//! Honest peers that audit and repair each other's copies.

use super::*;

pub const PEERS: &str = "\
lockss 1
rules inner 3 quorum 3 minority 1 outer 0 repairs 2 pace 0 refractory 0 overdue 100 unknown 100 debt 100 churn 0
au 1 12
peer 1 honest 01 01
peer 2 honest 02 01
peer 3 honest 03 01
peer 4 honest 04 01
refs 1 2 3 4
refs 2 1 3 4
refs 3 1 2 4
refs 4 1 2 3
copy 1 1 30,31,32,33,34,35,36,37,38,39,3a,3b
copy 2 1 like 1
copy 3 1 like 1
copy 4 1 like 1
damage 1 1 5 ff
open 1 1
";

const VOTES_REPORT: &str = "\
lockss report 1
1 open 1 1 | opened 1 1 | 3
2 deliver 0 1 2 | joined 1 1 1 low | 1
3 deliver 1 1 3 | joined 1 1 1 low | 1
4 deliver 2 1 4 | joined 1 1 1 low | 1
5 deliver 3 2 1 | - | 1
6 deliver 4 3 1 | - | 1
7 deliver 5 4 1 | - | 1
8 deliver 6 1 2 accepted | committed 1 1 0 | 1
9 deliver 7 1 3 accepted | committed 1 1 0 | 1
10 deliver 8 1 4 accepted | committed 1 1 0 | 1
11 deliver 9 2 1 | nominated 1 2 | 0
12 deliver 10 3 1 | nominated 1 3 | 0
13 deliver 11 4 1 | nominated 1 4 | 0
14 work 2 1 1 | voted 1 1 | 1
15 deliver 12 2 1 accepted | vote-in 1 2 | 0
16 work 3 1 1 | voted 1 1 | 1
17 deliver 13 3 1 accepted | vote-in 1 3 | 0
18 work 4 1 1 | voted 1 1 | 1
19 deliver 14 4 1 accepted | vote-in 1 4 | 0
";

const SHUT_REPORT: &str = "\
20 shut 1 1 | shut 1 | 0
21 tally 1 1 | asked 1 5 2 | 1
22 deliver 15 1 2 | served 1 1 5 | 1
23 deliver 16 2 1 | replaced 1 1 5 1 | 0
24 tally 1 1 | closed 1 agreed | 3
25 deliver 17 1 2 | ended 1 1 | 0
26 deliver 18 1 3 | ended 1 1 | 0
27 deliver 19 1 4 | ended 1 1 | 0
";

const WIDENED_REPORT: &str = "\
20 outer 1 1 | outer 1 0 | 0
21 shut 1 1 | shut 1 | 0
22 tally 1 1 | asked 1 5 2 | 1
23 deliver 15 1 2 | served 1 1 5 | 1
24 deliver 16 2 1 | replaced 1 1 5 1 | 0
25 tally 1 1 | closed 1 agreed | 3
26 deliver 17 1 2 | ended 1 1 | 0
27 deliver 18 1 3 | ended 1 1 | 0
28 deliver 19 1 4 | ended 1 1 | 0
";

const REPAIRED: &str = "\
copy 1 1 1
copy 2 1 0
copy 3 1 0
copy 4 1 0
poll 1 1 1 3 0 agreed
";

// Nobody is honest, so there is nothing to tell but the events.
const STRANGERS: &str = "\
lockss 1
rules inner 3 quorum 3 minority 1 outer 0 repairs 2 pace 0 refractory 0 overdue 100 unknown 100 debt 100 churn 0
au 1 12
peer 1 corrupt 01 01
forge 1 1 00
finish
";

const STRANGERS_REPORT: &str = "\
lockss report 1
1 forge 1 1 1 | - | 1
2 deliver 0 1 1 | - | 0
end 2
";

// Peer 2 commits to its copy in the poll of peer 1, and then its block is replaced by a poll of its own. Its vote and
// its repair are still those of the copy from before, so peer 1 takes over two bytes for its one.
const SNAPSHOT: &str = "\
lockss 1
rules inner 1 quorum 1 minority 0 outer 0 repairs 1 pace 0 refractory 0 overdue 100 unknown 100 debt 100 churn 0
au 1 1
peer 1 honest 01 01
peer 2 honest 02 01
peer 3 corrupt 03 01
refs 1 2
refs 2 3
copy 1 1 41
copy 2 1 4242
open 1 1
next 3
open 2 1
say 3 vote 2 1 1 of 41
next 3
shut 2 1
tally 2 1
say 3 repair 2 1 0 41
next 2
work 2 1 1
next
shut 1 1
tally 1 1
next 2
tally 1 1
";

const SNAPSHOT_REPORT: &str = "\
lockss report 1
1 open 1 1 | opened 1 1 | 1
2 deliver 0 1 2 | joined 1 1 1 low | 1
3 deliver 1 2 1 | - | 1
4 deliver 2 1 2 accepted | committed 1 1 0 | 1
5 open 2 1 | opened 1 1 | 1
6 forge 3 2 42 | - | 1
7 deliver 3 2 1 | nominated 1 2 | 0
8 deliver 4 2 3 | - | 0
9 deliver 5 3 2 accepted | vote-in 1 3 | 0
10 shut 2 1 | shut 1 | 0
11 tally 2 1 | asked 1 0 3 | 1
12 forge 3 2 11 | - | 1
13 deliver 6 2 3 | - | 0
14 deliver 7 3 2 | replaced 1 1 0 1 | 0
15 work 2 1 1 | voted 1 1 | 1
16 deliver 8 2 1 accepted | vote-in 1 2 | 0
17 shut 1 1 | shut 1 | 0
18 tally 1 1 | asked 1 0 2 | 1
19 deliver 9 1 2 | served 1 1 0 | 1
20 deliver 10 2 1 | replaced 1 1 0 2 | 0
21 tally 1 1 | closed 1 agreed | 1
copy 1 1 1
copy 2 1 1
poll 1 1 1 1 0 agreed
poll 2 1 1 1 0 running
end 21
";

const HONEST_PEERS: [Row; 4] = [
    (
        Done,
        &[PEERS, "settle\nshut 1 1\nsettle\n"],
        &[VOTES_REPORT, SHUT_REPORT, REPAIRED, "end 27\n"],
    ),
    (
        Done,
        &[PEERS, "finish\n"],
        &[VOTES_REPORT, WIDENED_REPORT, REPAIRED, "end 28\n"],
    ),
    (Done, &[STRANGERS], &[STRANGERS_REPORT]),
    (Done, &[SNAPSHOT], &[SNAPSHOT_REPORT]),
];

#[test]
fn honest_peers(rt: HostRuntime) -> Result<(), Fail> {
    check_rows(&rt, rt.alloc(), &HONEST_PEERS)
}
