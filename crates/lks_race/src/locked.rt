//! What lies behind the lock.

ghost use Rattle.std.specs.Prelude.{◌≡◌};
ghost use Rattle.lks_blocks.specs.Block.{AllOf};
ghost use Rattle.lks_race.specs.Racing.{GoesOn, IsJobOf, begin_of};
ghost use Rattle.lks_work.specs.Names.{refs_done};

use crate::naming::NamesRace;
use crate::turns::{Met, give, meet};
use lks_disk::CrashDisk;
use lks_outside::{Bell, EffortJudge};
use lks_work::JobDone;
use lks_world::World;
use std::marker::{Model, PhantomData};
use std::sync::Wait;

/// A world in a race. Whenever the lock is free it has gone on from how the race began, by events that were due.
#[derive(Drop)]
pub struct Locked<'a, N: NamesRace, D: CrashDisk, J: EffortJudge, B: Bell> {
    world: World<'a, D, J, B>,
    of: PhantomData<N>,
}

impl<'a, N: NamesRace, D: CrashDisk, J: EffortJudge, B: Bell> Model for Locked<'a, N, D, J, B> {
    ghost use Rattle.lks_race.specs.Racing.{GoesOn};
    ghost use Rattle.lks_world.specs.Worlds.{Seen};

    ghost Value = { Seen D J B };

    ghost view = { λ l. l.world };

    ghost invariant = { λ l. GoesOn N.begin l.world };
}

impl<'a, N: NamesRace, D: CrashDisk + Drop, J: EffortJudge, B: Bell> Locked<'a, N, D, J, B> {
    /// The world with which the race begins.
    pub fn new(world: World<'a, D, J, B>) -> Locked<'a, N, D, J, B>
        requires { N.begin ≡ begin_of world }
    {
        Locked {
            world,
            of: PhantomData,
        }
    }

    /// The world, once no thread asks for it any more.
    pub fn into_world(self) -> World<'a, D, J, B>
        ensures { GoesOn N.begin result }
    {
        let Locked { world, of: _ } = self;
        world
    }

    /// Asks the world for what is due.
    pub fn meet<R: Wait>(&mut self, rt: &R) -> Met
        ensures { IsJobOf N.begin.pool result }
    {
        meet(rt, &mut self.world)
    }

    /// Gives the world a result.
    pub fn give<R: Wait>(&mut self, rt: &R, done: JobDone) -> Met
        requires { AllOf N.begin.pool (refs_done done) }
    {
        give(rt, &mut self.world, done)
    }

    /// The world takes no further step.
    pub fn halt(&mut self) {
        self.world.halt();
    }
}
