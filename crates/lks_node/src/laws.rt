//! A node that was stopped goes on from its store.

ghost use Rattle.std.specs.Prelude.{◌≡◌, ◌≤◌, ◌<◌, ◌^◌, ℕ, List};
ghost use Rattle.lks_base.specs.declared.plans.AuPlan.{AuPlan};
ghost use Rattle.lks_base.specs.declared.plans.Holding.{Holding};
ghost use Rattle.lks_base.specs.declared.records.Record.{Record};
ghost use Rattle.lks_field.specs.Frames.{HoldsBodies};
ghost use Rattle.lks_host.specs.Bodies.{bodies_of, AreRead};
ghost use Rattle.lks_law.specs.Behind.{latest_tick};
ghost use Rattle.lks_law.specs.Polls.{Station};
ghost use Rattle.lks_law.specs.Questions.{Verdicts};
ghost use Rattle.lks_law.specs.World.{deposits};
ghost use Rattle.lks_node.specs.Again.{AreWhole};
ghost use Rattle.lks_node.specs.Going.{Progress, after_all, journal_of};
ghost use Rattle.lks_node.specs.Opening.{BeginsWith};
ghost use Rattle.lks_node.specs.declared.orders.Order.{Order as Ordered};

/// What a node that began with a whole journal of its peer leaves on its store, after any orders, is a whole journal of
/// the peer: when it is started again with the same plan, it isn't refused, and it begins with these batches and no
/// others.
pub fn every_node_goes_on()
    ensures { (verdict : Verdicts) (own : Station) (aus : List AuPlan) (copies : List Holding) (p : Progress)
        (orders : List Ordered)
        → AreWhole own (deposits aus copies) p.batches → latest_tick (journal_of p) ≤ p.tick → p.tick < 2 ^ 32
        → AreRead (after_all verdict own p orders).batches
        → AreWhole own (deposits aus copies) (after_all verdict own p orders).batches }
{}

/// And with these batches it begins: a store that holds them, or that a crash left with them, is read as these and no
/// others.
pub fn every_start_is_where_it_stopped()
    ensures { (own : Station) (begun : List Record) (batches first : List (List Record)) (file : List ℕ)
        → AreWhole own begun batches → AreRead batches → HoldsBodies (bodies_of batches) file
        → BeginsWith begun file first → first ≡ batches }
{}
