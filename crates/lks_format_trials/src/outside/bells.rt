//! A bell that is dropped, beside one that goes on.

use crate::same::same;
use lks_base::OutOfMemory;
use lks_outside::{Alarm, AlarmDesk, AlarmKind, Bell, ListBell};
use std::alloc::Global;
use std::test::Fail;

const SPLIT: Alarm = Alarm {
    peer: 1,
    tick: 101,
    kind: AlarmKind::Split {
        number: 1,
        block: 1,
    },
};

const OVERDUE: Alarm = Alarm {
    peer: 2,
    tick: 101,
    kind: AlarmKind::Overdue { au: 1 },
};

fn attach<B: Bell>(desk: &mut AlarmDesk<B>, bell: B) -> Result<(), OutOfMemory> {
    desk.attach(bell).ok().ok_or(OutOfMemory)
}

fn raise<B: Bell>(desk: &mut AlarmDesk<B>, alarms: &[Alarm]) {
    for alarm in alarms {
        desk.raise(alarm);
    }
}

/// Hangs up a bell that wants one alarm, and one that wants five.
fn hang_two(alloc: Global, desk: &mut AlarmDesk<ListBell>) -> Result<(), OutOfMemory> {
    attach(desk, ListBell::new(alloc, 1)?)?;
    attach(desk, ListBell::new(alloc, 5)?)
}

/// The bells that are left once these alarms were raised.
fn left(alloc: Global, alarms: &[Alarm]) -> Result<Vec<ListBell>, OutOfMemory> {
    let mut desk = AlarmDesk::new(alloc);
    hang_two(alloc, &mut desk)?;
    raise(&mut desk, alarms);
    Ok(desk.into_bells())
}

/// Whether the last of these bells rang for these alarms, and wants more.
fn last_rang_for(bells: &[ListBell], alarms: &[Alarm]) -> bool {
    match bells {
        [.., last] => last.alarms() == alarms && last.wants_more(),
        [] => false,
    }
}

/// How many bells are left after no alarm, after one, and after two.
const COUNTS: [usize; 3] = [2, 1, 1];

#[test]
fn drops_a_bell_at_its_limit(rt: HostRuntime) -> Result<(), Fail> {
    let alarms = [OVERDUE, SPLIT];
    for (raised, count) in COUNTS.iter().enumerate() {
        let alarms = &alarms[..raised];
        let bells = left(rt.alloc(), alarms)?;
        same(&rt, &bells.len(), count, &raised);
        assert!(rt; last_rang_for(&bells, alarms), "{raised}");
    }
    Ok(())
}

fn boxed(alloc: Global, most: u32) -> Result<Box<dyn Bell>, Fail> {
    Ok(Box::new(alloc, ListBell::new(alloc, most)?)?)
}

/// The same two bells, each in a box.
fn hang_boxes(alloc: Global, desk: &mut AlarmDesk) -> Result<(), Fail> {
    attach(desk, boxed(alloc, 1)?)?;
    attach(desk, boxed(alloc, 5)?)?;
    Ok(())
}

#[test]
fn rings_in_boxes(rt: HostRuntime) -> Result<(), Fail> {
    let mut desk: AlarmDesk = AlarmDesk::new(rt.alloc());
    hang_boxes(rt.alloc(), &mut desk)?;
    raise(&mut desk, &[OVERDUE, SPLIT]);
    let bells = desk.into_bells();
    assert_eq!(rt; bells.len(), 1);
    same(&rt, &bells[0].rung(), &2, &"bells[0].rung");
    Ok(())
}
