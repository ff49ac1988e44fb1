//! What is read and printed.

ghost use Rattle.std.specs.Prelude.{◌≡◌, ◌⊎◌, ◌++◌, ℕ, true, List, [], None, Some, Ok};
ghost use Rattle.hex.specs.Hex.{IsBytes};
ghost use Rattle.lks_base.specs.declared.records.Record.{Record};
ghost use Rattle.lks_gather.specs.Framed.{journal_in, Spells};
ghost use Rattle.lks_base.specs.Checking.{plan_fault};
ghost use Rattle.lks_base.specs.declared.plans.Plan.{Plan};
ghost use Rattle.lks_gather.specs.Sets.{Book, Said, begins_journal, script_from, journals_from, set_of, said_by};
ghost use Rattle.lks_base.specs.declared.events.Event.{Event};
ghost use Rattle.lks_evidence.specs.Holding.{SetHolds};
ghost use Rattle.lks_gather.specs.Worlds.{AreFiledFor, books_of};
ghost use Rattle.lks_gather.specs.declared.gathered.Gathered.{Gathered};
ghost use Rattle.lks_law.specs.Histories.{IsHistory};
ghost use Rattle.lks_law.specs.World.{world};
ghost use Rattle.lks_gather.specs.Texts.{Filed, set_text, AreFiles, AreFiled, AreTheirs, IsSaidPlan, honest_peers};
ghost use Rattle.lks_script.specs.Grammar.{script_of};
ghost use Rattle.lks_script.specs.declared.steps.Script.{Script};

/// Bytes are read as a journal of these records exactly where they are the frames of batches of them and a closed gate.
pub fn every_journal_is_its_frames()
    ensures found { (file : List ℕ) (list : List Record) → IsBytes file → journal_in file ≡ Some list
        → Spells file list }
    ensures only { (file : List ℕ) (list : List Record) → Spells file list → journal_in file ≡ Some list }
{}

/// Bytes are a script's, and behind it those of journals: none, or from the first line on that gives one.
pub fn every_text_is_parted()
    ensures whole { (bytes : List ℕ) → script_from true bytes ++ journals_from true bytes ≡ bytes }
    ensures begins { (bytes : List ℕ)
        → (journals_from true bytes ≡ []) ⊎ (begins_journal (journals_from true bytes) ≡ true) }
    ensures first { (bytes : List ℕ) → journals_from true (script_from true bytes) ≡ [] }
{}

/// Each script is a plan without journals.
pub fn every_script_is_a_set()
    ensures { (text : List ℕ) (script : Script) → script_of text ≡ Ok script
        → set_of text ≡ Ok (record { plan = script.plan; set = [] }) }
{}

/// The plan of each set that was read can be said.
pub fn every_plan_read_is_said()
    ensures { (bytes : List ℕ) (said : Said) → set_of bytes ≡ Ok said → IsSaidPlan said.plan }
{}

/// A plan's honest peers may each have a journal, in the plan's order.
pub fn every_honest_peer_may_be_filed()
    ensures { (plan : Plan) (journals : List Filed) (books : List Book) → plan_fault plan ≡ None
        → AreTheirs (honest_peers plan) journals books → AreFiled plan [] journals books }
{}

/// The journals of every history are printed so that they read back as these journals, and hold: a peer that follows
/// the rules is never doubted for what is read of it.
pub fn every_history_is_gathered()
    ensures read { (plan : Plan) (history : List Event) (journals : List Filed) → IsSaidPlan plan
        → AreFiles journals → AreFiledFor (world plan history).peers journals
        → set_of (set_text plan journals) ≡ Ok (record { plan = plan; set = books_of (world plan history).peers }) }
    ensures holds { (plan : Plan) (history : List Event) (g : Gathered) → plan_fault plan ≡ None
        → IsHistory plan history
        → said_by g ≡ record { plan = plan; set = books_of (world plan history).peers } → SetHolds g.plan g.set.items }
{}
