//! A bell that keeps what it rang for.

ghost use Rattle.std.specs.Prelude.{◌≡◌, [], IfOk};

use crate::alarms::Alarm;
use crate::bells::Bell;
use lks_base::OutOfMemory;
use std::alloc::Global;
use std::marker::Model;

/// Keeps the alarms that it rang for. It takes the room for all that it wants when it is made.
#[derive(Drop)]
pub struct ListBell {
    alarms: Vec<Alarm>,
    most: u32,
}

impl Model for ListBell {
    ghost use Rattle.std.specs.Prelude.{◌≤◌, vec_capacity};
    ghost use Rattle.lks_outside.specs.Bells.{Heard};

    ghost Value = { Heard };

    ghost view = { λ b. record { rung = b.alarms.items; limit = b.most } };

    ghost invariant = { λ b. b.most ≤ vec_capacity b.alarms };
}

impl ListBell {
    /// Wants so many alarms.
    pub fn new(alloc: Global, most: u32) -> Result<ListBell, OutOfMemory>
        ensures { IfOk result (λ b. b ≡ record { rung = []; limit = most }) }
    {
        let alarms = Vec::with_capacity(alloc, most as usize)?;
        Ok(ListBell { alarms, most })
    }

    /// The alarms that it rang for, in order.
    pub fn alarms(&self) -> &[Alarm]
        ensures { result.now ≡ self.now.rung }
    {
        self.alarms.as_slice()
    }
}

impl Bell for ListBell {
    ghost rung = { λ b. b.rung };

    ghost limit = { λ b. b.limit };

    fn ring(&mut self, a: &Alarm) {
        self.alarms.push_reserved(*a);
    }

    fn wants_more(&self) -> bool {
        self.alarms.len() < self.most as usize
    }

    fn rung(&self) -> u32 {
        self.alarms.len().min(u32::MAX as usize) as u32
    }
}
