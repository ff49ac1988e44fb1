//! Where bells hang.

ghost use Rattle.std.specs.Prelude.{◌≡◌, ℕ, List, [], ◌∷◌, ◌++◌, map, OnOk, IfErr};
ghost use Rattle.lks_outside.specs.declared.alarms.Alarm.{Alarm};
ghost use Rattle.lks_outside.specs.Bells.{heard_of, seen, after, wanting, Raises, raised, left_of};

use crate::alarms::Alarm;
use crate::bells::Bell;
use std::alloc::Global;
use std::marker::Model;

/// The bells of an operator. Contracts see them as a list, in the order in which they were attached.
#[derive(Drop)]
pub struct AlarmDesk<B = Box<dyn Bell>> {
    bells: Vec<B>,
}

impl<B> Model for AlarmDesk<B> {
    ghost use Rattle.std.specs.Prelude.{List};

    ghost Value = { List B };

    ghost view = { λ d. d.bells.items };
}

impl<B: Bell> AlarmDesk<B> {
    /// No bell hangs there.
    pub fn new(alloc: Global) -> AlarmDesk<B>
        ensures { result ≡ [] }
    {
        AlarmDesk {
            bells: Vec::new(alloc),
        }
    }

    /// These bells hang there, in their order. It takes no memory.
    pub fn from_bells(bells: Vec<B>) -> AlarmDesk<B>
        ensures { result ≡ bells.items }
    {
        AlarmDesk { bells }
    }

    /// Hangs a bell behind the others, or gives it back for want of memory.
    pub fn attach(&mut self, bell: B) -> Result<(), B>
        ensures ok { OnOk result (self.new ≡ self.old ++ bell ∷ []) }
        ensures back { IfErr result (λ b. (b ≡ bell) × (self.new ≡ self.old)) }
    {
        match self.bells.push(bell) {
            Ok(()) => Ok(()),
            Err(failed) => Err(failed.value),
        }
    }

    /// Rings each bell that wants more, in order, and then drops each that wants no more. It takes no memory.
    pub fn raise(&mut self, a: &Alarm)
        ensures rings { Raises B.rung B.limit a.now self.old self.new }
        ensures raised { seen B.rung B.limit self.new ≡ raised a.now (seen B.rung B.limit self.old) }

        // Bells that rang for the same alarms so far do so again, but for those that have reached their limit.
        ensures alike { (alarms : List Alarm) (limits : List ℕ) →
            seen B.rung B.limit self.old ≡ left_of alarms limits →
            seen B.rung B.limit self.new ≡ left_of (alarms ++ a.now ∷ []) limits }
    {
        ring_each(&mut self.bells, a);
        drop_sated(&mut self.bells);
    }

    /// The bells that hang there, in order.
    pub fn into_bells(self) -> Vec<B>
        ensures { result.items ≡ self }
    {
        let AlarmDesk { bells } = self;
        bells
    }
}

fn ring_each<B: Bell>(bells: &mut Vec<B>, a: &Alarm)
    ensures { seen B.rung B.limit bells.new.items ≡ map (after a.now) (seen B.rung B.limit bells.old.items) }
{
    for bell in bells.iter_mut() {
        ring_wanting(bell, a);
    }
}

fn ring_wanting<B: Bell>(bell: &mut B, a: &Alarm)
    ensures { heard_of B.rung B.limit bell.new ≡ after a.now (heard_of B.rung B.limit bell.old) }
{
    if bell.wants_more() {
        bell.ring(a);
    }
}

fn drop_sated<B: Bell>(bells: &mut Vec<B>)
    ensures { bells.new.items ≡ wanting B.rung B.limit bells.old.items }
{
    bells.retain(|bell| bell.wants_more());
}
