//! Who hears alarms.

ghost use Rattle.std.specs.Prelude.{◌≡◌, ◌<◌, ℕ, List, [], ◌∷◌, ◌++◌, length, min, nat_lt};
ghost use Rattle.lks_outside.specs.declared.alarms.Alarm.{Alarm};

use crate::alarms::Alarm;

/// Rings for alarms, up to a limit of its own.
pub trait Bell: Send + Drop {
    /// The alarms that it rang for, in order.
    ghost rung: { Self → List Alarm };

    /// How many alarms it wants.
    ghost limit: { Self → ℕ };

    /// Rings for one more alarm. It can't fail.
    fn ring(&mut self, a: &Alarm)
        requires { length (rung self.old) < limit self.old }
        ensures rung { rung self.new ≡ rung self.old ++ a.now ∷ [] }
        ensures same { limit self.new ≡ limit self.old };

    /// Whether it rang for fewer alarms than it wants.
    fn wants_more(&self) -> bool
        ensures { result ≡ nat_lt (length (rung self.now)) (limit self.now) };

    /// For how many alarms it rang, or the largest `u32` where they are more.
    fn rung(&self) -> u32
        ensures { result ≡ min (length (rung self.now)) u32.MAX };
}
