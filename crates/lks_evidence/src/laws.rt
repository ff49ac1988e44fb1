//! Laws on sets of journals that hold.

ghost use Rattle.std.specs.Prelude.{◌≡◌, ◌≤◌, ℕ, Some, None, List, length, slice_get};
ghost use Rattle.lks_base.specs.Checking.{plan_fault};
ghost use Rattle.lks_base.specs.declared.events.Event.{Event};
ghost use Rattle.lks_base.specs.declared.limits.TheConstants.{MOST_CIRCLE};
ghost use Rattle.lks_base.specs.declared.plans.Plan.{Plan};
ghost use Rattle.lks_base.specs.declared.records.Record.{Record};
ghost use Rattle.lks_law.specs.Histories.{IsHistory};
ghost use Rattle.lks_law.specs.Journal.{EachRepair};
ghost use Rattle.lks_law.specs.Polls.{inner_votes};
ghost use Rattle.lks_law.specs.Safe.{HasEvidence};
ghost use Rattle.lks_law.specs.Snapshots.{Restores};
ghost use Rattle.lks_law.specs.World.{world};
ghost use Rattle.lks_tally.specs.Distinct.{AreDistinct};
ghost use Rattle.lks_evidence.specs.declared.findings.Shelf.{Shelf};
ghost use Rattle.lks_evidence.specs.Histories.{AreShelvesOf};
ghost use Rattle.lks_evidence.specs.Holding.{SetHolds};
ghost use Rattle.lks_evidence.specs.Parts.{IsPart};
ghost use Rattle.lks_evidence.specs.Rules.{journals_on, told_count};

/// Where a set holds, each replaced block of each journal in it has its evidence: at least a quorum of votes by
/// distinct inner peers of one poll that was over, at most a minority of them for the old block and at most a minority
/// against the new one, where no votes are a landslide both ways.
pub fn every_replacement_has_evidence()
    ensures { (plan : Plan) (set : List Shelf) (k : ℕ) (s : Shelf) → SetHolds plan set → slice_get set k ≡ Some s
        → HasEvidence plan.rules s.peer s.list.items }
{}

/// Where a set holds, and more than a minority of a poll's inner voters have journals in it that commit them to some
/// blocks up to a block that was replaced, the copy is these blocks up to there, or two different inputs of links of
/// running hashes have one hash.
pub fn every_repair_restores()
    ensures { (plan : Plan) (set : List Shelf) (k : ℕ) (s : Shelf) → SetHolds plan set → slice_get set k ≡ Some s
        → EachRepair (Restores (journals_on set) plan.rules s.peer) s.list.items }
{}

/// The journals of every history of a plan that breaks no rule hold, with any number of honest peers: so each part of
/// them does, and no peer that follows the rules is ever doubted for what its own journal says.
pub fn every_history_holds()
    ensures { (plan : Plan) (history : List Event) (set : List Shelf) → plan_fault plan ≡ None
        → IsHistory plan history → AreShelvesOf (world plan history).peers set → SetHolds plan set }
{}

/// Each part of a set that holds does so.
pub fn every_part_holds()
    ensures { (plan : Plan) (part set : List Shelf) → IsPart part set → SetHolds plan set → SetHolds plan part }
{}

/// A doubt tells its number of votes whole: nobody votes twice there, and a circle has 16 members at most.
pub fn every_count_is_told()
    ensures { (inner : List ℕ) (n m : ℕ) (journal : List Record) → length inner ≤ MOST_CIRCLE
        → AreDistinct (inner_votes n inner journal) → m ≤ length (inner_votes n inner journal) → told_count m ≡ m }
{}
