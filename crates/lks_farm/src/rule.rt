//! The rule that both queues have. These types are for the proofs alone.

ghost use Rattle.std.specs.Prelude.{List, ℕ};
ghost use Rattle.lks_farm.specs.declared.entries.NumberedJob.{NumberedJob};

use crate::entries::NumberedJob;
use crate::jobs::{FarmDone, FarmJob};
use crossbeam_queue::protocol::{Join, Lesson, Outcome, Protocol, Split};
use std::collections::LinkedList;
use std::marker::{Brand, PhantomData};

/// What a pass knows: its parts of the right to know the whole, the pool, and the entries that it put and got. No value
/// of it is made.
pub struct View {
    pub parts: u64,
    pub pool: LinkedList<u64>,
    pub put: LinkedList<NumberedJob>,
    pub got: LinkedList<NumberedJob>,
}

/// What goes through a queue.
pub trait Entries: Drop {
    ghost entry: { Self → NumberedJob };
}

impl Entries for FarmJob {
    ghost use Rattle.lks_farm.specs.Entries.{entry_of};

    ghost entry = { entry_of };
}

impl Entries for FarmDone {
    ghost use Rattle.lks_farm.specs.Entries.{entry_done};

    ghost entry = { entry_done };
}

/// The pool that the views of a new queue name.
pub trait NamesPool {
    ghost pool: { List ℕ };
}

impl NamesPool for Brand {
    ghost use Rattle.std.specs.Prelude.{[]};

    ghost pool = { [] };
}

pub struct Rule;

impl<T: Entries> Protocol<T, View> for Rule {
    ghost use Rattle.std.specs.Prelude.{[], map};
    ghost use Rattle.lks_farm.specs.Sharing.{Shared, view_knowing};

    ghost holds = { λ items views. Shared (map T.entry items) views };

    ghost first = { view_knowing 128 [] [] [] };
}

/// What a call learns where it finds the queue full or empty, or counts what it holds.
pub struct Finds;

impl<T: Entries> Lesson<T, View> for Finds {
    ghost use Rattle.std.specs.Prelude.{length};
    ghost use Rattle.lks_farm.specs.Sharing.{Moment};

    ghost fact = { λ v items. Moment (length items) v };
}

pub struct Puts;

impl<T: Entries> Outcome<T, View> for Puts {
    ghost use Rattle.std.specs.Prelude.{◌≡◌};
    ghost use Rattle.lks_farm.specs.Sharing.{putting};

    ghost then = { λ v x w. w ≡ putting v (T.entry x) };
}

impl<T: Entries> Lesson<T, View> for Puts {
    ghost use Rattle.std.specs.Prelude.{length};
    ghost use Rattle.lks_farm.specs.Sharing.{Moment};

    ghost fact = { λ v items. Moment (length items) v };
}

pub struct Takes;

impl<T: Entries> Outcome<T, View> for Takes {
    ghost use Rattle.std.specs.Prelude.{◌≡◌};
    ghost use Rattle.lks_farm.specs.Entries.{IsOf};
    ghost use Rattle.lks_farm.specs.Sharing.{getting};

    ghost then = { λ v x w. (w ≡ getting v (T.entry x)) × IsOf v.pool (T.entry x) };
}

impl<T: Entries> Lesson<T, View> for Takes {
    ghost use Rattle.std.specs.Prelude.{length};
    ghost use Rattle.lks_farm.specs.Sharing.{Moment};

    ghost fact = { λ v items. Moment (length items) v };
}

/// Gives the whole right to a pass that names the pool.
pub struct Names<N> {
    pool: PhantomData<N>,
}

impl<N: NamesPool> Split<View> for Names<N> {
    ghost use Rattle.std.specs.Prelude.{[]};
    ghost use Rattle.lks_farm.specs.Sharing.{view_knowing};

    ghost left = { λ v. view_knowing 0 N.pool [] [] };

    ghost right = { λ v. view_knowing v.parts N.pool [] [] };
}

/// Gives one part away, and joins passes.
pub struct Shares;

impl Split<View> for Shares {
    ghost use Rattle.std.specs.Prelude.{[], ◌-◌};
    ghost use Rattle.lks_farm.specs.Sharing.{view_knowing};

    ghost left = { λ v. view_knowing (v.parts - 1) v.pool v.put v.got };

    ghost right = { λ v. view_knowing 1 v.pool [] [] };
}

impl Join<View> for Shares {
    ghost use Rattle.std.specs.Prelude.{[]};
    ghost use Rattle.lks_farm.specs.Sharing.{joined_views, view_knowing};

    ghost both = { joined_views };

    ghost spent = { view_knowing 0 [] [] [] };
}
