//! Events in which no honest peer acts.

ghost use Rattle.std.specs.Prelude.{◌≡◌, ◌≤◌, ◌<◌, ◌+◌, ◌++◌, ◌∷◌, [], None, OnOk, OnErr, ◌==◌, length, filter, not};
ghost use Rattle.lks_base.specs.declared.events.Event.TheVariants as events;
ghost use Rattle.lks_law.specs.Entries.{entry_for, entry_of};
ghost use Rattle.lks_law.specs.World.{happens};
ghost use Rattle.lks_world.specs.States.{world_in};

use crate::states::{State, forget, put};
use lks_base::{Bytes, Entry, Envelope, Event, OutOfMemory, PeerId, Seq};
use lks_disk::CrashDisk;

/// Notes down an event that delivers nothing and adds no records.
fn note_down(history: &mut Vec<Entry>, event: Event, sends: u32) -> Result<(), OutOfMemory>
    ensures ok { OnOk result (history.new.items ≡ history.old.items ++ entry_for event None [] sends ∷ []) }
    ensures err { OnErr result (history.new.items ≡ history.old.items) }
{
    let notes = Seq::from_vec(Vec::new(*history.allocator()));
    history.push(Entry {
        event,
        from: 0,
        to: 0,
        notes,
        sends,
    })?;
    Ok(())
}

/// A corrupt peer sends bytes.
#[tactic(auto, unfolding(lks_law::specs::World::happens, lks_law::specs::Entries::entry_of))]
pub fn forge<D: CrashDisk>(
    state: &mut State<'_, D>,
    from: PeerId,
    to: PeerId,
    bytes: Bytes,
) -> Result<(), OutOfMemory>
    requires few { length state.old.bag.items < 4294967295 }
    ensures sites { state.new.sites.items ≡ state.old.sites.items }
    ensures pool { state.new.pool.now ≡ state.old.pool.now }
    ensures world { OnOk result
        (world_in D.face state.new ≡ happens (world_in D.face state.old) (events.Forge from to bytes)) }
    ensures history { OnOk result
        (state.new.history.items
        ≡ state.old.history.items ++ entry_of (world_in D.face state.old) (events.Forge from to bytes) ∷ []) }
    ensures err { OnErr result (state.new.history.items ≡ state.old.history.items) }
    ensures pending { OnOk result
        (state.new.pending.items ≡ state.old.pending.items ++ length state.old.bag.items ∷ []) }
{
    let copy = bytes.clone()?;
    let envelope = Envelope {
        from,
        to,
        bytes: copy,
    };
    put(&mut state.bag, &mut state.pending, envelope)?;
    note_down(&mut state.history, Event::Forge { from, to, bytes }, 1)
}

/// The clock moves on.
#[tactic(auto, unfolding(lks_law::specs::World::happens, lks_law::specs::Entries::entry_of))]
pub fn tick<D: CrashDisk>(state: &mut State<'_, D>, by: u32) -> Result<(), OutOfMemory>
    requires fits { state.old.tick + by ≤ u32.MAX }
    ensures sites { state.new.sites.items ≡ state.old.sites.items }
    ensures pool { state.new.pool.now ≡ state.old.pool.now }
    ensures world { OnOk result (world_in D.face state.new ≡ happens (world_in D.face state.old) (events.Tick by)) }
    ensures history { OnOk result
        (state.new.history.items
        ≡ state.old.history.items ++ entry_of (world_in D.face state.old) (events.Tick by) ∷ []) }
    ensures err { OnErr result (state.new.history.items ≡ state.old.history.items) }
    ensures pending { OnOk result (state.new.pending.items ≡ state.old.pending.items) }
{
    state.tick += by;
    note_down(&mut state.history, Event::Tick { by }, 0)
}

/// An envelope is lost, so it doesn't wait any more.
#[tactic(auto, unfolding(lks_law::specs::World::happens, lks_law::specs::Entries::entry_of))]
pub fn lose<D: CrashDisk>(state: &mut State<'_, D>, envelope: u32) -> Result<(), OutOfMemory>
    ensures sites { state.new.sites.items ≡ state.old.sites.items }
    ensures pool { state.new.pool.now ≡ state.old.pool.now }
    ensures world { OnOk result
        (world_in D.face state.new ≡ happens (world_in D.face state.old) (events.Lose envelope)) }
    ensures history { OnOk result
        (state.new.history.items
        ≡ state.old.history.items ++ entry_of (world_in D.face state.old) (events.Lose envelope) ∷ []) }
    ensures err { OnErr result (state.new.history.items ≡ state.old.history.items) }
    ensures pending { OnOk result
        (state.new.pending.items ≡ filter (λ i. not (i == envelope)) state.old.pending.items) }
{
    forget(&mut state.pending, envelope);
    note_down(&mut state.history, Event::Lose { envelope }, 0)
}

/// A peer was reopened after its power failed.
#[tactic(auto, unfolding(lks_law::specs::World::happens, lks_law::specs::Entries::entry_of))]
pub fn crash<D: CrashDisk>(state: &mut State<'_, D>, peer: PeerId) -> Result<(), OutOfMemory>
    ensures sites { state.new.sites.items ≡ state.old.sites.items }
    ensures pool { state.new.pool.now ≡ state.old.pool.now }
    ensures world { OnOk result (world_in D.face state.new ≡ happens (world_in D.face state.old) (events.Crash peer)) }
    ensures history { OnOk result
        (state.new.history.items
        ≡ state.old.history.items ++ entry_of (world_in D.face state.old) (events.Crash peer) ∷ []) }
    ensures err { OnErr result (state.new.history.items ≡ state.old.history.items) }
    ensures pending { OnOk result (state.new.pending.items ≡ state.old.pending.items) }
{
    note_down(&mut state.history, Event::Crash { peer }, 0)
}
