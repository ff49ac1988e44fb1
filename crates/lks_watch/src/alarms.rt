//! The alarms that notes tell of.

ghost use Rattle.std.specs.Prelude.{◌≡◌};
ghost use Rattle.lks_law.specs.Alarms.{closing_alarm, alarm_noted};

use lks_base::{Note, Outcome, PeerId};
use lks_outside::{Alarm, AlarmKind};

/// The alarm of a poll that ends so.
fn closing(peer: PeerId, tick: u32, number: u32, outcome: Outcome) -> Option<Alarm>
    ensures { result ≡ closing_alarm peer tick number outcome }
{
    let kind = match outcome {
        Outcome::Agreed | Outcome::Inquorate => return None,
        Outcome::Split { block } => AlarmKind::Split { number, block },
        Outcome::NoSupplier { block } => AlarmKind::NoSupplier { number, block },
    };
    Some(Alarm { peer, tick, kind })
}

/// The alarm of which a note tells, where the peer noted it at this tick.
pub fn alarm(peer: PeerId, tick: u32, note: &Note) -> Option<Alarm>
    ensures { result ≡ alarm_noted peer tick note.now }
{
    match note {
        Note::Closed { number, outcome } => closing(peer, tick, *number, *outcome),
        Note::Overdue { au } => Some(Alarm {
            peer,
            tick,
            kind: AlarmKind::Overdue { au: *au },
        }),
        Note::Opened { .. }
        | Note::Nominated { .. }
        | Note::Outer { .. }
        | Note::VoteIn { .. }
        | Note::Shut { .. }
        | Note::Asked { .. }
        | Note::RepairBad { .. }
        | Note::Replaced { .. }
        | Note::Joined { .. }
        | Note::Committed { .. }
        | Note::Voted { .. }
        | Note::Served { .. }
        | Note::Ended { .. }
        | Note::Tuned { .. } => None,
    }
}
