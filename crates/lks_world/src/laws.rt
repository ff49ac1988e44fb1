//! Laws on what follows a script, on limits, on what disks hold, and on worlds that no history leads to.

ghost use Rattle.std.specs.Prelude.{◌≡◌, ◌≢◌, ◌≤◌, ◌<◌, ◌*◌, ◌++◌, ◌∷◌, [], ℕ, true, None, Some, Ok, List, length};
ghost use Rattle.std.specs.Prelude.{slice_get};
ghost use Rattle.lks_base.specs.Checking.{plan_fault};
ghost use Rattle.lks_base.specs.declared.events.Event.{Event};
ghost use Rattle.lks_base.specs.declared.limits.TheConstants.{MOST_EVENTS, MOST_TICKS};
ghost use Rattle.lks_base.specs.declared.messages.Message.TheVariants as message;
ghost use Rattle.lks_base.specs.declared.plans.Plan.{Plan};
ghost use Rattle.lks_base.specs.declared.plans.Rules.{Rules};
ghost use Rattle.lks_base.specs.declared.records.Record.{Record};
ghost use Rattle.lks_host.specs.Bodies.{bodies_of};
ghost use Rattle.lks_field.specs.Frames.{HoldsBodies};
ghost use Rattle.lks_law.specs.Batches.{batches_at};
ghost use Rattle.lks_law.specs.Histories.{IsHistory};
ghost use Rattle.lks_law.specs.Questions.{Verdicts, questions};
ghost use Rattle.lks_law.specs.Snapshots.{HaveSnapshots, HasFewHolders};
ghost use Rattle.lks_law.specs.Fitting.{has_room};
ghost use Rattle.lks_law.specs.State.{state_of};
ghost use Rattle.lks_law.specs.World.{Standing, world};
ghost use Rattle.lks_message.specs.Reading.{decode_of};
ghost use Rattle.lks_saying.specs.Bytes.{GiveBytes};
ghost use Rattle.lks_script.specs.StepRules.{are_steps_of};
ghost use Rattle.lks_script.specs.declared.steps.Step.{Step};
ghost use Rattle.lks_world.specs.Disks.{honest_disks};
ghost use Rattle.lks_world.specs.Follows.{Follows};
ghost use Rattle.lks_world.specs.Held.{HoldsBatches, HaveBatches, IsFresh};
ghost use Rattle.lks_world.specs.Unsafe.{with_sent, who_replaced, with_holder};

use lks_disk::CrashDisk;

/// In a good plan, what follows the steps of a script is a history, where the steps go on from one, whatever the judge
/// says. Numbers that stand for bytes are bytes: those that the steps give, and the proofs of the peers.
pub fn what_follows_a_script_is_a_history()
    ensures { (verdict : Verdicts) (plan : Plan) (history after : List Event) (steps : List Step)
        → plan_fault plan ≡ None
        → are_steps_of plan steps ≡ true → GiveBytes plan steps → IsHistory plan history
        → Follows verdict plan history steps after → IsHistory plan after }
{}

/// Limits that no history of a good plan passes: before each of its events the judge was asked fewer than 4,096
/// questions; its clock is at most 4,096,000,000 ticks, and it has at most 67,239,936 envelopes, which 32 bits number;
/// and each honest peer has numbers left for a poll, a version and a vote more.
pub fn no_history_passes_a_limit()
    ensures asked { (plan : Plan) (history : List Event) (event : Event) → IsHistory plan (history ++ event ∷ [])
        → length (questions plan history) < MOST_EVENTS }
    ensures clock { (plan : Plan) (history : List Event) → IsHistory plan history
        → (world plan history).tick ≤ MOST_TICKS * MOST_EVENTS }
    ensures envelopes { (plan : Plan) (history : List Event) → plan_fault plan ≡ None → IsHistory plan history
        → length (world plan history).bag ≤ 16416 * MOST_EVENTS }
    ensures numbers { (plan : Plan) (history : List Event) → plan_fault plan ≡ None → IsHistory plan history
        → (place : ℕ) (s : Standing) → slice_get (world plan history).peers place ≡ Some s
        → has_room (state_of s.own s.journal) ≡ true }
{}

/// What disks hold can be wrong: bytes hold the bodies of one list of batches, so disks that hold the batches of one
/// history don't hold those of another with other bodies at an honest peer's place, or with one batch more there.
/// Where the disk of an honest peer is empty, they hold those of none.
pub fn disks_may_hold_other_batches<D: CrashDisk>()
    ensures once { (content : List ℕ) (batches others : List (List Record))
        → HoldsBodies (bodies_of batches) content → HoldsBodies (bodies_of others) content
        → bodies_of batches ≡ bodies_of others }
    ensures disk { (plan : Plan) (history other : List Event) (place : ℕ) (disk : D)
        → HoldsBatches D.face plan history place disk → HoldsBatches D.face plan other place disk
        → bodies_of (batches_at place plan history) ≡ bodies_of (batches_at place plan other) }
    ensures others { (plan : Plan) (history other : List Event) (disks : List D) (place : ℕ) (disk : D)
        → slice_get (honest_disks plan.peers disks) place ≡ Some disk
        → bodies_of (batches_at place plan history) ≢ bodies_of (batches_at place plan other)
        → HaveBatches D.face plan history disks → HaveBatches D.face plan other disks → ⊥ }
    ensures more { (plan : Plan) (history other : List Event) (disks : List D) (place : ℕ) (disk : D)
        (batch : List Record)
        → slice_get (honest_disks plan.peers disks) place ≡ Some disk
        → batches_at place plan other ≡ batches_at place plan history ++ batch ∷ []
        → HaveBatches D.face plan history disks → HaveBatches D.face plan other disks → ⊥ }
    ensures fresh { (plan : Plan) (history : List Event) (disks : List D) (place : ℕ) (disk : D)
        → slice_get (honest_disks plan.peers disks) place ≡ Some disk
        → IsFresh D.face disk → HaveBatches D.face plan history disks → ⊥ }
{}

/// That a vote is over a version, and that few voters held what is replaced, can be wrong: a vote of one hash isn't
/// over a version of two blocks, and a block that an honest voter held isn't replaced where a minority is nobody. No
/// history leads to such a world (`every_history_is_safe` of `lks_law`).
pub fn worlds_may_be_unsafe()
    ensures short { (rules : Rules) (first second bytes hash proof : List ℕ)
        → decode_of bytes ≡ Ok (message.Vote 1 (hash ∷ []) proof)
        → HaveSnapshots (with_sent rules first second bytes) → ⊥ }
    ensures held { (rules : Rules) (hashes : List (List ℕ)) (bytes : List ℕ)
        → HasFewHolders (with_holder rules hashes bytes) (who_replaced rules hashes bytes) → ⊥ }
{}
