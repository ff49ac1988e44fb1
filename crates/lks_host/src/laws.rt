//! Laws on sorted journals.

ghost use Rattle.std.specs.Prelude.{◌≡◌, ◌++◌, ℕ, Ok as Fine, List, map};
ghost use Rattle.lks_base.specs.declared.plans.AuPlan.{AuPlan};
ghost use Rattle.lks_base.specs.declared.plans.Holding.{Holding};
ghost use Rattle.lks_base.specs.declared.records.Record.{Record};
ghost use Rattle.lks_law.specs.Batches.{together};
ghost use Rattle.lks_law.specs.Facts.{IsJournalOf};
ghost use Rattle.lks_law.specs.Polls.{Station};
ghost use Rattle.lks_law.specs.World.{deposits};
ghost use Rattle.lks_record.specs.Reading.{decode_of};
ghost use Rattle.lks_host.specs.Sorted.{SortsAs, spelled_each};
ghost use Rattle.lks_host.specs.declared.sorting.JournalSort.{JournalSort};
ghost use Rattle.lks_host.specs.declared.sorting.JournalSort.TheVariants.{Whole};

/// Each journal of a peer is its deposits and batches, and all bodies that are read as these batches make it whole
/// behind the bodies of its deposits.
pub fn every_journal_is_whole()
    ensures { (own : Station) (aus : List AuPlan) (copies : List Holding) (tick : ℕ) (journal : List Record)
        → IsJournalOf own (deposits aus copies) tick journal
        → (batches : List (List Record)) × (journal ≡ deposits aus copies ++ together batches)
        × ((bodies : List (List ℕ)) → map decode_of bodies ≡ map (λ (b : List Record). Fine b) batches
        → SortsAs own (deposits aus copies) (spelled_each (deposits aus copies) ++ bodies) (Whole journal)) }
{}

/// Whatever the bodies are, they are that alone: no two answers are right.
pub fn every_sort_is_the_only_one()
    ensures { (own : Station) (begun : List Record) (bodies : List (List ℕ)) (one other : JournalSort)
        → SortsAs own begun bodies one → SortsAs own begun bodies other → one ≡ other }
{}
