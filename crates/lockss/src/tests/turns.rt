//! Reminders, requests that are given up, and runs until nothing is due.

use super::*;

// The request is sent again, and then it is given up; so is the next one, and nobody is left to ask.
const GIVEN_UP: &str = "\
nudge 1 1
give-up 1 1
settle
give-up 1 1
settle
";

const GIVEN_UP_REPORT: &str = "\
18 nudge 1 1 | - | 1
19 give-up 1 1 | repair-bad 1 1 3 | 0
20 deliver 9 1 3 | - | 0
21 tally 1 1 | asked 1 1 4 | 1
22 deliver 10 1 4 | - | 0
23 give-up 1 1 | repair-bad 1 1 4 | 0
24 tally 1 1 | closed 1 no-supplier-1 | 3
25 deliver 11 1 2 | - | 0
26 deliver 12 1 3 | - | 0
27 deliver 13 1 4 | - | 0
copy 1 1 0
poll 1 1 1 3 0 no-supplier-1
alarm 1 0 no-supplier 1 1
end 27
";

// Who didn't vote is invited again. A poll that isn't shut is not tallied.
const REMINDED: &str = "\
open 1 1
say 3 vote 1 1 1 of 41,42
settle
nudge 1 1
settle
tally 1 1
";

const REMINDED_REPORT: &str = "\
lockss report 1
1 open 1 1 | opened 1 1 | 3
2 forge 3 1 74 | - | 1
3 deliver 0 1 2 | - | 0
4 deliver 1 1 3 | - | 0
5 deliver 2 1 4 | - | 0
6 deliver 3 3 1 accepted | vote-in 1 3 | 0
7 nudge 1 1 | - | 2
8 deliver 4 1 2 | - | 0
9 deliver 5 1 4 | - | 0
10 tally 1 1 | - | 0
copy 1 1 0
poll 1 1 1 1 0 running
end 10
";

const FINISHED: &str = "\
open 1 1
say 2 vote 1 1 1 of 41,42
say 3 vote 1 1 1 of 41,42
say 4 vote 1 1 1 of 41,42
finish
";

// Once the votes are in, the outer circle is invited, which is empty, and the poll is shut.
const VOTED_BEFORE_IT_IS_SHUT: &str = "\
lockss report 1
1 open 1 1 | opened 1 1 | 3
2 forge 2 1 74 | - | 1
3 forge 3 1 74 | - | 1
4 forge 4 1 74 | - | 1
5 deliver 0 1 2 | - | 0
6 deliver 1 1 3 | - | 0
7 deliver 2 1 4 | - | 0
8 deliver 3 2 1 accepted | vote-in 1 2 | 0
9 deliver 4 3 1 accepted | vote-in 1 3 | 0
10 deliver 5 4 1 accepted | vote-in 1 4 | 0
11 outer 1 1 | outer 1 0 | 0
12 shut 1 1 | shut 1 | 0
";

const FINISHED_REPORT: &str = "\
13 tally 1 1 | closed 1 agreed | 3
14 deliver 6 1 2 | - | 0
15 deliver 7 1 3 | - | 0
16 deliver 8 1 4 | - | 0
copy 1 1 0
poll 1 1 1 3 0 agreed
end 16
";

// No repair comes, so each request is given up in its turn.
const LOST_AND_FINISHED: &str = "\
open 1 1
say 2 vote 1 1 1 of 41,43
say 3 vote 1 1 1 of 41,43
say 4 vote 1 1 1 of 41,43
finish
";

const LOST_AND_FINISHED_REPORT: &str = "\
13 tally 1 1 | asked 1 1 2 | 1
14 deliver 6 1 2 | - | 0
15 give-up 1 1 | repair-bad 1 1 2 | 0
16 tally 1 1 | asked 1 1 3 | 1
17 deliver 7 1 3 | - | 0
18 give-up 1 1 | repair-bad 1 1 3 | 0
19 tally 1 1 | asked 1 1 4 | 1
20 deliver 8 1 4 | - | 0
21 give-up 1 1 | repair-bad 1 1 4 | 0
22 tally 1 1 | closed 1 no-supplier-1 | 3
23 deliver 9 1 2 | - | 0
24 deliver 10 1 3 | - | 0
25 deliver 11 1 4 | - | 0
copy 1 1 0
poll 1 1 1 3 0 no-supplier-1
alarm 1 0 no-supplier 1 1
end 25
";

const TURNS: [Row; 4] = [
    (
        Alarmed,
        &[HEAD, FALSE_REPAIR, GIVEN_UP],
        &[VOTED, FALSE_REPAIR_EVENTS, GIVEN_UP_REPORT],
    ),
    (Done, &[HEAD, REMINDED], &[REMINDED_REPORT]),
    (
        Done,
        &[HEAD, FINISHED],
        &[VOTED_BEFORE_IT_IS_SHUT, FINISHED_REPORT],
    ),
    (
        Alarmed,
        &[HEAD, LOST_AND_FINISHED],
        &[VOTED_BEFORE_IT_IS_SHUT, LOST_AND_FINISHED_REPORT],
    ),
];

#[test]
fn turns(rt: HostRuntime) -> Result<(), Fail> {
    check_rows(&rt, rt.alloc(), &TURNS)
}
