//! Circles, reference lists, overdue AUs, and what a script does with messages that wait.

use super::*;

// Peer 5 is on no list.
const HEAD_OF_STRANGER: &str = "\
lockss 1
rules inner 4 quorum 3 minority 1 outer 1 repairs 2 pace 0 refractory 0 overdue 100 unknown 100 debt 100 churn 0
au 1 2
peer 1 honest 01 01
peer 2 corrupt 02 01
peer 3 corrupt 03 01
peer 4 corrupt 04 01
peer 5 corrupt 05 01
refs 1 2 3 4
copy 1 1 41,42
";

// A vote of peer 5 is passed over before peer 2 nominates it, and is an outer one after it was invited. It is against.
const STRANGER: &str = "\
open 1 1
say 5 vote 1 1 1 of 41,43
say 2 nominate 1 1 5
settle
outer 1 1
say 5 vote 1 1 1 of 41,43
say 2 vote 1 1 1 of 41,42
say 3 vote 1 1 1 of 41,42
say 4 vote 1 1 1 of 41,42
settle
shut 1 1
settle
";

const STRANGER_EVENTS: &str = "\
lockss report 1
1 open 1 1 | opened 1 1 | 3
2 forge 5 1 74 | - | 1
3 forge 2 1 9 | - | 1
4 deliver 0 1 2 | - | 0
5 deliver 1 1 3 | - | 0
6 deliver 2 1 4 | - | 0
7 deliver 3 5 1 accepted | - | 0
8 deliver 4 2 1 | nominated 1 2 | 0
9 outer 1 1 | outer 1 1 | 1
10 forge 5 1 74 | - | 1
11 forge 2 1 74 | - | 1
12 forge 3 1 74 | - | 1
13 forge 4 1 74 | - | 1
14 deliver 5 1 5 | - | 0
15 deliver 6 5 1 accepted | vote-in 1 5 | 0
16 deliver 7 2 1 accepted | vote-in 1 2 | 0
17 deliver 8 3 1 accepted | vote-in 1 3 | 0
18 deliver 9 4 1 accepted | vote-in 1 4 | 0
19 shut 1 1 | shut 1 | 0
20 tally 1 1 | closed 1 agreed | 4
21 deliver 10 1 5 | - | 0
22 deliver 11 1 2 | - | 0
23 deliver 12 1 3 | - | 0
24 deliver 13 1 4 | - | 0
";

const STRANGER_REPORT: &str = "\
copy 1 1 0
poll 1 1 1 3 1 agreed
end 24
";

const OPEN: &str = "open 1 1\n";

// An outer voter that was against doesn't join the list.
const STRANGER_AGAIN_REPORT: &str = "\
25 open 1 1 | opened 2 1 | 3
copy 1 1 0
poll 1 1 1 3 1 agreed
poll 1 2 1 0 0 running
end 25
";

// The same, but the vote of peer 5 that counts is for the copy. It joins the list.
const JOINER: &str = "\
open 1 1
say 5 vote 1 1 1 of 41,43
say 2 nominate 1 1 5
settle
outer 1 1
say 5 vote 1 1 1 of 41,42
say 2 vote 1 1 1 of 41,42
say 3 vote 1 1 1 of 41,42
say 4 vote 1 1 1 of 41,42
settle
shut 1 1
settle
open 1 1
";

const JOINER_REPORT: &str = "\
25 open 1 1 | opened 2 1 | 4
copy 1 1 0
poll 1 1 1 3 1 agreed
poll 1 2 1 0 0 running
end 25
";

// Peer 5 is a friend of peer 1, and after each agreed poll one friend joins the list.
const HEAD_OF_FRIEND: &str = "\
lockss 1
rules inner 4 quorum 3 minority 1 outer 0 repairs 2 pace 0 refractory 0 overdue 100 unknown 100 debt 100 churn 1
au 1 2
peer 1 honest 01 01
peer 2 corrupt 02 01
peer 3 corrupt 03 01
peer 4 corrupt 04 01
peer 5 corrupt 05 01
refs 1 2 3 4
copy 1 1 41,42
friends 1 5
";

const FRIEND_EVENTS: &str = "\
12 tally 1 1 | closed 1 agreed | 3
13 deliver 6 1 2 | - | 0
14 deliver 7 1 3 | - | 0
15 deliver 8 1 4 | - | 0
16 open 1 1 | opened 2 1 | 4
copy 1 1 0
poll 1 1 1 3 0 agreed
poll 1 2 1 0 0 running
end 16
";

// Peer 2, whose vote was against, has left the list.
const SECOND_POLL_REPORT: &str = "\
18 open 1 1 | opened 2 1 | 2
copy 1 1 0
poll 1 1 1 3 0 agreed
poll 1 2 1 0 0 running
end 18
";

// Of the six peers on the list a poll invites three: by another implementation of SHA-256 and ChaCha20, 5, 3 and 4.
const HEAD_OF_SEVEN: &str = "\
lockss 1
rules inner 3 quorum 3 minority 1 outer 0 repairs 2 pace 0 refractory 0 overdue 100 unknown 100 debt 100 churn 0
au 1 2
peer 1 honest 01 01
peer 2 corrupt 02 01
peer 3 corrupt 03 01
peer 4 corrupt 04 01
peer 5 corrupt 05 01
peer 6 corrupt 06 01
peer 7 corrupt 07 01
refs 1 2 3 4 5 6 7
copy 1 1 41,42
";

const OPEN_AND_SETTLE: &str = "open 1 1\nsettle\n";

const SAMPLED_REPORT: &str = "\
lockss report 1
1 open 1 1 | opened 1 1 | 3
2 deliver 0 1 5 | - | 0
3 deliver 1 1 3 | - | 0
4 deliver 2 1 4 | - | 0
copy 1 1 0
poll 1 1 1 0 0 running
end 4
";

const HEAD_OF_PACE: &str = "\
lockss 1
rules inner 4 quorum 3 minority 1 outer 0 repairs 2 pace 10 refractory 0 overdue 100 unknown 100 debt 100 churn 0
au 1 2
peer 1 honest 01 01
peer 2 corrupt 02 01
peer 3 corrupt 03 01
peer 4 corrupt 04 01
refs 1 2 3 4
copy 1 1 41,42
";

const PACE: &str = "\
open 1 1
settle
shut 1 1
open 1 1
tick 10
open 1 1
";

const PACE_REPORT: &str = "\
lockss report 1
1 open 1 1 | opened 1 1 | 3
2 deliver 0 1 2 | - | 0
3 deliver 1 1 3 | - | 0
4 deliver 2 1 4 | - | 0
5 shut 1 1 | shut 1, closed 1 inquorate | 0
6 open 1 1 | - | 0
7 tick 10 | - | 0
8 open 1 1 | opened 2 1 | 3
copy 1 1 0
poll 1 1 1 0 0 inquorate
poll 1 2 1 0 0 running
end 8
";

pub const OVERDUE: &str = "\
tick 100
check 1
tick 1
check 1
check 1
";

pub const OVERDUE_REPORT: &str = "\
lockss report 1
1 tick 100 | - | 0
2 check 1 | - | 0
3 tick 1 | - | 0
4 check 1 | overdue 1 | 0
5 check 1 | - | 0
copy 1 1 0
alarm 1 101 overdue 1
end 5
";

// An agreed poll starts the count again: an AU that was agreed at tick 101 is overdue again at tick 202.
const OVERDUE_AGAIN: &str = "\
tick 101
check 1
open 1 1
say 2 vote 1 1 1 of 41,42
say 3 vote 1 1 1 of 41,42
say 4 vote 1 1 1 of 41,42
next 6
shut 1 1
settle
tick 100
check 1
tick 1
check 1
";

const OVERDUE_AGAIN_REPORT: &str = "\
lockss report 1
1 tick 101 | - | 0
2 check 1 | overdue 1 | 0
3 open 1 1 | opened 1 1 | 3
4 forge 2 1 74 | - | 1
5 forge 3 1 74 | - | 1
6 forge 4 1 74 | - | 1
7 deliver 0 1 2 | - | 0
8 deliver 1 1 3 | - | 0
9 deliver 2 1 4 | - | 0
10 deliver 3 2 1 accepted | vote-in 1 2 | 0
11 deliver 4 3 1 accepted | vote-in 1 3 | 0
12 deliver 5 4 1 accepted | vote-in 1 4 | 0
13 shut 1 1 | shut 1 | 0
14 tally 1 1 | closed 1 agreed | 3
15 deliver 6 1 2 | - | 0
16 deliver 7 1 3 | - | 0
17 deliver 8 1 4 | - | 0
18 tick 100 | - | 0
19 check 1 | - | 0
20 tick 1 | - | 0
21 check 1 | overdue 1 | 0
copy 1 1 0
poll 1 1 1 3 0 agreed
alarm 1 101 overdue 1
alarm 1 202 overdue 1
end 21
";

// Message 9 was never sent, and nothing waits at the end. A vote that comes again doesn't count again.
const WAITING: &str = "\
open 1 1
next
lose
again 0
again 9
say 2 vote 1 1 1 of 41,42
next 5
again 3
lose
next
";

const WAITING_REPORT: &str = "\
lockss report 1
1 open 1 1 | opened 1 1 | 3
2 deliver 0 1 2 | - | 0
3 lose 1 | - | 0
4 deliver 0 1 2 | - | 0
5 forge 2 1 74 | - | 1
6 deliver 2 1 4 | - | 0
7 deliver 3 2 1 accepted | vote-in 1 2 | 0
8 deliver 3 2 1 accepted | - | 0
copy 1 1 0
poll 1 1 1 1 0 running
end 8
";

const CIRCLES_AND_LISTS: [Row; 6] = [
    (
        Done,
        &[HEAD_OF_STRANGER, STRANGER],
        &[STRANGER_EVENTS, STRANGER_REPORT],
    ),
    (
        Done,
        &[HEAD_OF_STRANGER, STRANGER, OPEN],
        &[STRANGER_EVENTS, STRANGER_AGAIN_REPORT],
    ),
    (
        Done,
        &[HEAD_OF_STRANGER, JOINER],
        &[STRANGER_EVENTS, JOINER_REPORT],
    ),
    (
        Done,
        &[HEAD_OF_FRIEND, AGREED, OPEN],
        &[VOTED, FRIEND_EVENTS],
    ),
    (
        Done,
        &[HEAD, TWICE, OPEN],
        &[TWICE_EVENTS, SECOND_POLL_REPORT],
    ),
    (Done, &[HEAD_OF_SEVEN, OPEN_AND_SETTLE], &[SAMPLED_REPORT]),
];

#[test]
fn circles_and_lists(rt: HostRuntime) -> Result<(), Fail> {
    check_rows(&rt, rt.alloc(), &CIRCLES_AND_LISTS)
}

const CLOCK_AND_WAITING_MESSAGES: [Row; 4] = [
    (Done, &[HEAD_OF_PACE, PACE], &[PACE_REPORT]),
    (Alarmed, &[HEAD, OVERDUE], &[OVERDUE_REPORT]),
    (Alarmed, &[HEAD, OVERDUE_AGAIN], &[OVERDUE_AGAIN_REPORT]),
    (Done, &[HEAD, WAITING], &[WAITING_REPORT]),
];

#[test]
fn clock_and_waiting_messages(rt: HostRuntime) -> Result<(), Fail> {
    check_rows(&rt, rt.alloc(), &CLOCK_AND_WAITING_MESSAGES)
}
