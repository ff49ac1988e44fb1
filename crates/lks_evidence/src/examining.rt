//! The search for the first doubt.

ghost use Rattle.std.specs.Prelude.{◌≡◌, ◌≤◌, ◌↔◌, IfOk, OnOk, All, [], length, take};
ghost use Rattle.lks_evidence.specs.Held.{IsHeldFrom};
ghost use Rattle.lks_evidence.specs.Holding.{IsYes, SetHolds};
ghost use Rattle.lks_evidence.specs.Marks.{IsMark};
ghost use Rattle.lks_evidence.specs.Recounts.{IsRecountIf};
ghost use Rattle.lks_evidence.specs.Search.{each, doubt_at, all_repairs, finding};
ghost use Rattle.lks_evidence.specs.Search as search_of;
ghost use Rattle.lks_evidence.specs.Rules as rules;
ghost use Rattle.lks_evidence.specs.Sizes.{IsShort, IsSmall, most_records};

use crate::cases::Case;
use crate::findings::{Doubt, Finding, Shelf, Why};
use crate::judging::{Judgement, doubt_poll};
use crate::marks::{self, ReadMark};
use crate::records::{Repair, as_repair, count_deposits, count_repairs};
use crate::recounts::{Recount, after};
use crate::voters::{count_deposited, is_deposited};
use lks_base::{AuId, AuPlan, OutOfMemory, PeerId, Plan, Record, has_honest};
use std::alloc::Global;

fn has_shelf(shelves: &[Shelf], peer: PeerId) -> bool
    ensures { result ≡ rules.has_shelf shelves.now peer }
{
    shelves.iter().any(|s| s.peer == peer)
}

/// Whether a peer may have a shelf: an honest one, that has none before.
#[tactic(auto, unfolding(crate::specs::Rules::is_new))]
fn is_new(plan: &Plan, earlier: &[Shelf], peer: PeerId) -> bool
    ensures { result ≡ rules.is_new plan.now earlier.now peer }
{
    has_honest(plan.peers.as_slice(), peer) && !has_shelf(earlier, peer)
}

/// An AU that is held from some place of a journal on, with so many blocks.
#[derive(Drop)]
struct Held {
    au: AuId,
    count: usize,
}

/// Whether the AU is deposited before the place and nowhere else in the journal, and has the block. Finds it among the
/// AUs that are held, or puts it there.
#[tactic(auto, unfolding(crate::specs::Rules::is_held))]
fn is_held(
    aus: &[AuPlan],
    journal: &[Record],
    place: usize,
    r: &Repair<'_>,
    held: &mut Vec<Held>,
) -> Result<bool, OutOfMemory>
    requires within { place ≤ length journal.now }
    requires held { All (IsHeldFrom aus.now journal.now place) held.old.items }
    ensures is { IfOk result (λ t. t ≡ rules.is_held aus.now journal.now (take place journal.now) r.now) }
    ensures held { OnOk result (All (IsHeldFrom aus.now journal.now place) held.new.items) }
{
    for h in held.iter() {
        if h.au == r.au {
            return Ok((r.block as usize) < h.count);
        }
    }
    let before = &journal[..place];
    if !is_deposited(aus, r.au, before) || count_deposits(journal, r.au) != 1 {
        return Ok(false);
    }
    let count = count_deposited(before, r.au);
    held.push(Held { au: r.au, count })?;
    Ok((r.block as usize) < count)
}

/// A doubt of this peer's journal, at the place after these records.
#[tactic(auto, unfolding(crate::specs::Sizes::most_records))]
fn doubt_at(peer: PeerId, before: &[Record], why: Option<Why>) -> Option<Doubt>
    requires { length before.now ≤ most_records }
    ensures { result ≡ doubt_at peer (length before.now) why }
{
    match why {
        Some(why) => Some(Doubt {
            peer,
            place: before.len() as u32,
            why,
        }),
        None => None,
    }
}

#[tactic(auto, unfolding(crate::specs::Search::held_doubt))]
fn doubt_held(
    plan: &Plan,
    journal: &[Record],
    place: usize,
    item: &Record,
    held: &mut Vec<Held>,
) -> Result<Option<Why>, OutOfMemory>
    requires within { place ≤ length journal.now }
    requires held { All (IsHeldFrom plan.now.aus journal.now place) held.old.items }
    ensures why { IfOk result
        (λ why. why ≡ search_of.held_doubt plan.now journal.now (take place journal.now) item.now) }
    ensures held { OnOk result (All (IsHeldFrom plan.now.aus journal.now place) held.new.items) }
{
    match as_repair(item) {
        Some(r) => {
            if is_held(plan.aus.as_slice(), journal, place, &r, held)? {
                Ok(None)
            } else {
                Ok(Some(Why::Copy))
            }
        }
        None => Ok(None),
    }
}

/// The first round over one shelf.
#[tactic(auto, unfolding(crate::specs::Search::first_of_shelf))]
fn first_of_shelf(
    alloc: Global,
    plan: &Plan,
    earlier: &[Shelf],
    shelf: &Shelf,
) -> Result<Option<Doubt>, OutOfMemory>
    requires { IsShort shelf.now }
    ensures { IfOk result (λ doubt. doubt ≡ search_of.first_of_shelf plan.now earlier.now shelf.now) }
{
    let peer = shelf.peer;
    if !is_new(plan, earlier, peer) {
        return Ok(Some(Doubt {
            peer,
            place: 0,
            why: Why::Peer,
        }));
    }
    let journal = shelf.list.as_slice();
    let mut held = Vec::new(alloc);
    for (i, item) in journal.iter().enumerate() {
        let why = doubt_held(plan, journal, i, item, &mut held)?;
        let doubt = doubt_at(peer, &journal[..i], why);
        if doubt.is_some() {
            return Ok(doubt);
        }
    }
    Ok(None)
}

#[tactic(auto, unfolding(crate::specs::Search::repair_doubt))]
fn doubt_repair(
    alloc: Global,
    case: &Case<'_>,
    before: &[Record],
    mark: ReadMark,
    item: &Record,
    last: Option<Recount>,
) -> Result<Judgement, OutOfMemory>
    requires last { IsRecountIf case.now.plan.now case.now.set.now case.now.poller before.now last }
    requires mark { IsMark before.now mark }
    ensures why { IfOk result
        (λ j. j.why ≡ search_of.repair_doubt case.now.plan.now case.now.set.now case.now.poller before.now item.now) }
    ensures last { IfOk result (λ j. IsRecountIf case.now.plan.now case.now.set.now case.now.poller before.now j.last) }
{
    match as_repair(item) {
        Some(r) => doubt_poll(alloc, case, before, mark, &r, last),
        None => Ok(Judgement { why: None, last }),
    }
}

/// The second round over one shelf.
#[tactic(auto, unfolding(crate::specs::Search::second_of_shelf))]
fn second_of_shelf(
    alloc: Global,
    plan: &Plan,
    set: &[Shelf],
    earlier: &[Shelf],
    shelf: &Shelf,
) -> Result<Option<Doubt>, OutOfMemory>
    requires { IsShort shelf.now }
    ensures { IfOk result (λ doubt. doubt ≡ search_of.second_of_shelf plan.now set.now earlier.now shelf.now) }
{
    let peer = shelf.peer;
    let case = Case {
        plan,
        set,
        poller: peer,
    };
    let journal = shelf.list.as_slice();
    let mut last = None;
    let mut mark = ReadMark {
        place: 0,
        high: 0,
        seen: 0,
    };
    for (i, item) in journal.iter().enumerate() {
        let before = &journal[..i];
        let judged = doubt_repair(alloc, &case, before, mark, item, last)?;
        let doubt = doubt_at(peer, before, judged.why);
        if doubt.is_some() {
            return Ok(doubt);
        }
        last = after(alloc, judged.last, item)?;
        mark = marks::after(i, mark, item);
    }
    Ok(None)
}

/// The first round over all shelves.
fn first_round(alloc: Global, plan: &Plan, set: &[Shelf]) -> Result<Option<Doubt>, OutOfMemory>
    requires { All IsShort set.now }
    ensures { IfOk result (λ doubt. doubt ≡ each (search_of.first_of_shelf plan.now) [] set.now) }
{
    for (k, shelf) in set.iter().enumerate() {
        let doubt = first_of_shelf(alloc, plan, &set[..k], shelf)?;
        if doubt.is_some() {
            return Ok(doubt);
        }
    }
    Ok(None)
}

/// The second round over all shelves.
fn second_round(alloc: Global, plan: &Plan, set: &[Shelf]) -> Result<Option<Doubt>, OutOfMemory>
    requires { All IsShort set.now }
    ensures { IfOk result (λ doubt. doubt ≡ each (search_of.second_of_shelf plan.now set.now) [] set.now) }
{
    for (k, shelf) in set.iter().enumerate() {
        let doubt = second_of_shelf(alloc, plan, set, &set[..k], shelf)?;
        if doubt.is_some() {
            return Ok(doubt);
        }
    }
    Ok(None)
}

/// How many blocks were replaced in all journals.
fn count_all(set: &[Shelf]) -> u32
    requires { IsSmall set.now }
    ensures { result ≡ all_repairs set.now }
{
    let mut replaced = 0;
    for shelf in set {
        replaced += count_repairs(&shelf.list) as u32;
    }
    replaced
}

#[tactic(auto, unfolding(crate::specs::Search::first_doubt))]
fn find_doubt(alloc: Global, plan: &Plan, set: &[Shelf]) -> Result<Option<Doubt>, OutOfMemory>
    requires { All IsShort set.now }
    ensures { IfOk result (λ doubt. doubt ≡ search_of.first_doubt plan.now set.now) }
{
    let doubt = first_round(alloc, plan, set)?;
    if doubt.is_some() {
        return Ok(doubt);
    }
    second_round(alloc, plan, set)
}

/// Examines journals, each the records of one peer, oldest first, and trusts the plan alone: whoever wrote them, `Yes`
/// says of each replaced block in them that a poll stands behind it (Maniatis et al., ACM TOCS 23(1), 2005, section 4).
/// The poll was on this AU and was over; at least its quorum of distinct peers of its inner circle had voted; a
/// minority at most of these votes was for the block as it was, and a minority at most is against the block as it
/// became. And where a voter's journal is there too, it bears out the vote: it names the version of the copy whose
/// hashes these are.
///
/// `No` has the first rule that fails, in two rounds over the journals and their places. Any want of memory, and that
/// alone, is answered by `OutOfMemory`.
#[tactic(auto, unfolding(crate::specs::Search::finding))]
pub fn examine(alloc: Global, plan: &Plan, set: &[Shelf]) -> Result<Finding, OutOfMemory>
    requires { IsSmall set.now }
    ensures finding { IfOk result (λ f. f ≡ finding plan.now set.now) }
    ensures yes { IfOk result (λ f. IsYes f ↔ SetHolds plan.now set.now) }
{
    match find_doubt(alloc, plan, set)? {
        Some(doubt) => Ok(Finding::No(doubt)),
        None => Ok(Finding::Yes {
            replaced: count_all(set),
        }),
    }
}
