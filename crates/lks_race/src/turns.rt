//! What a world is asked for, and what is given back to it, with the entry of what it kept.

ghost use Rattle.std.specs.Prelude.{◌≡◌};
ghost use Rattle.lks_blocks.specs.Block.{AllOf};
ghost use Rattle.lks_race.specs.Racing.{GoesOn, Meets, begin_of};
ghost use Rattle.lks_work.specs.Names.{refs_done};

use lks_base::{Entry, OutOfMemory};
use lks_disk::CrashDisk;
use lks_outside::{Bell, EffortJudge};
use lks_work::{Job, JobDone};
use lks_world::{Back, Taken, World};
use std::sync::Wait;

/// What came of asking a world for what is due, or of giving it a result.
#[derive(Drop)]
pub enum Met {
    /// It goes on: the entry of the event that it kept, if it kept one.
    On(Option<Entry>),
    /// A job to be hashed.
    Work(Job),
    /// For now there is nothing to do but to hash: all that is due is work whose jobs are out, or another thread is at
    /// the world.
    Out,
    /// It takes no further step.
    End,
}

/// The entry of the event that was kept. Without memory for it the world is stopped.
fn kept<D: CrashDisk + Drop, J: EffortJudge, B: Bell>(world: &mut World<'_, D, J, B>) -> Met
    ensures on { GoesOn (begin_of world.old) world.new }
    ensures meets { Meets world.old.pool world.new result }
{
    match world.last_entry() {
        Ok(entry) => Met::On(entry),
        Err(OutOfMemory) => {
            world.halt();
            Met::End
        }
    }
}

/// Asks a world for what is due. One that was stopped has nothing more.
pub fn meet<D: CrashDisk + Drop, J: EffortJudge, B: Bell, R: Wait>(
    rt: &R,
    world: &mut World<'_, D, J, B>,
) -> Met
    ensures on { GoesOn (begin_of world.old) world.new }
    ensures meets { Meets world.old.pool world.new result }
{
    if world.stopped().is_some() {
        return Met::End;
    }
    match world.take_due(rt) {
        Ok(Taken::Did) => kept(world),
        Ok(Taken::Work(job)) => Met::Work(job),
        Ok(Taken::Out) => Met::Out,
        Ok(Taken::Finished) | Err(_) => Met::End,
    }
}

/// Gives a result back to a world. One that was stopped takes nothing more.
pub fn give<D: CrashDisk + Drop, J: EffortJudge, B: Bell, R: Wait>(
    rt: &R,
    world: &mut World<'_, D, J, B>,
    done: JobDone,
) -> Met
    requires of { AllOf world.old.pool (refs_done done) }
    ensures on { GoesOn (begin_of world.old) world.new }
    ensures meets { Meets world.old.pool world.new result }
{
    if world.stopped().is_some() {
        return Met::End;
    }
    match world.give_back(rt, done) {
        Ok(Back::Kept) => kept(world),
        Ok(Back::Stale { .. } | Back::Late) => Met::On(None),
        Err(_) => Met::End,
    }
}
