//! Laws on the report of every history of every plan.

ghost use Rattle.std.specs.Prelude.{◌≡◌, List, count_by, length};
ghost use Rattle.std.specs.List.{flat_map};
ghost use Rattle.lks_base.specs.declared.events.Event.{Event};
ghost use Rattle.lks_base.specs.declared.plans.Plan.{Plan};
ghost use Rattle.lks_law.specs.Alarms.{alarms};
ghost use Rattle.lks_law.specs.Entries.{entries};
ghost use Rattle.lks_report.specs.Alarms.{has_any, is_alarm, is_alarmed};
ghost use Rattle.lks_report.specs.Summary.{all_notes};
ghost use Rattle.lks_report.specs.Text.{alarm_text, alarm_lines};

/// The entries of a history have an alarm exactly where it raises one, they have as many alarms among their notes as it
/// raises, and the alarm lines of its report are those of its alarms, one each, in order.
pub fn every_alarm_is_told()
    ensures tells { (plan : Plan) (history : List Event)
        → is_alarmed (entries plan history) ≡ has_any (alarms plan history) }
    ensures counts { (plan : Plan) (history : List Event)
        → count_by is_alarm (all_notes (entries plan history)) ≡ length (alarms plan history) }
    ensures lines { (plan : Plan) (history : List Event)
        → alarm_lines (entries plan history) ≡ flat_map alarm_text (alarms plan history) }
{}
