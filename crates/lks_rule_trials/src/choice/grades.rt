//! Grades, and admissions by words that another program made.

use crate::SEED;
use crate::same::same;
use lks_base::Rules;
use lks_choice::{Grade, admits, grade_of};
use lks_draw::Draws;
use std::process::Abort;

/// What was received and given, whether the peer is a friend, and its grade.
const GRADES: [(u32, u32, bool, Grade); 5] = [
    (0, 0, false, Grade::Unknown),
    (0, 0, true, Grade::Even),
    (1, 2, true, Grade::Debt),
    (2, 1, false, Grade::Credit),
    (3, 3, false, Grade::Even),
];

#[test]
fn grades(rt: HostRuntime) {
    for (received, given, friend, grade) in GRADES.iter() {
        let answer = grade_of(*received, *given, *friend);
        same(&rt, &answer, grade, &(received, given));
    }
}

fn rules(unknown_pct: u8, debt_pct: u8) -> Rules {
    Rules {
        inner: 8,
        quorum: 5,
        minority: 2,
        outer: 2,
        repairs: 4,
        pace: 0,
        refractory: 5,
        overdue: 1000,
        unknown_pct,
        debt_pct,
        churn: 1,
    }
}

/// The answer, and `next(100)` of the draw after it. Its first two words give 80 and 59.
fn admitted(
    rt: &impl Abort,
    g: Grade,
    rules: &Rules,
    last_low: Option<u32>,
    tick: u32,
) -> (bool, u32) {
    if let Some(last) = last_low {
        assert!(rt; last <= tick);
    }
    let mut draws = Draws::new(SEED, 3, 65537);
    let answer = admits(g, rules, last_low, tick, &mut draws);
    (answer, draws.next(100))
}

/// A grade, the percentages, when the last of a low grade was admitted, the tick, the answer, and the draw after it.
const ADMISSIONS: [(Grade, u8, u8, Option<u32>, u32, (bool, u32)); 9] = [
    (Grade::Even, 0, 0, Some(10), 10, (true, 80)),
    (Grade::Credit, 0, 0, None, 0, (true, 80)),
    (Grade::Unknown, 80, 100, None, 0, (false, 59)),
    (Grade::Unknown, 81, 0, None, 0, (true, 59)),
    (Grade::Debt, 100, 80, None, 0, (false, 59)),
    (Grade::Debt, 0, 81, None, 0, (true, 59)),
    // Five ticks have to go by, and no word is taken before.
    (Grade::Unknown, 100, 100, Some(10), 14, (false, 80)),
    (Grade::Debt, 100, 100, Some(10), 14, (false, 80)),
    (Grade::Unknown, 100, 100, Some(10), 15, (true, 59)),
];

#[test]
fn admissions(rt: HostRuntime) {
    for (g, unknown_pct, debt_pct, last_low, tick, wanted) in ADMISSIONS.iter() {
        let rules = rules(*unknown_pct, *debt_pct);
        let answer = admitted(&rt, *g, &rules, *last_low, *tick);
        same(&rt, &answer, wanted, &(g, unknown_pct, debt_pct, tick));
    }
}
