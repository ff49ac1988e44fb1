//! A judge and bells.

ghost use Rattle.std.specs.Prelude.{◌≡◌};
ghost use Rattle.std.specs.List.{filter_map};
ghost use Rattle.lks_law.specs.Alarms.{alarm_noted};
ghost use Rattle.lks_watch.specs.Watching.{ears, seen_by, Rings};

use crate::alarms::alarm;
use lks_base::{Note, PeerId};
use lks_outside::{AlarmDesk, Bell, EffortJudge};

/// The judge of a world and the desk where its bells hang.
#[derive(Drop)]
pub struct Watch<J, B> {
    pub judge: J,
    pub desk: AlarmDesk<B>,
}

impl<J: EffortJudge, B: Bell> Watch<J, B> {
    /// A judge and bells that hang in this order.
    pub fn new(judge: J, bells: Vec<B>) -> Watch<J, B>
        ensures { result ≡ record { judge = judge; desk = bells.items } }
    {
        let desk = AlarmDesk::from_bells(bells);
        Watch { judge, desk }
    }

    /// The judge, and the bells that hang there, in order.
    pub fn into_parts(self) -> (J, Vec<B>)
        ensures judge { result.0 ≡ self.judge }
        ensures bells { result.1.items ≡ self.desk }
    {
        let Watch { judge, desk } = self;
        (judge, desk.into_bells())
    }

    /// Raises each alarm of which these notes tell, in order.
    pub fn hear(&mut self, peer: PeerId, tick: u32, notes: &[Note])
        ensures judge { self.new.judge ≡ self.old.judge }
        ensures rings { Rings (filter_map (alarm_noted peer tick) notes.now)
            (seen_by (ears J.heard J.verdict B.rung B.limit) self.old)
            (seen_by (ears J.heard J.verdict B.rung B.limit) self.new) }
    {
        for note in notes {
            if let Some(alarm) = alarm(peer, tick, note) {
                self.desk.raise(&alarm);
            }
        }
    }
}
