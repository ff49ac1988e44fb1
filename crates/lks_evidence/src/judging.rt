//! What is found of a repair, by the last recount where that is of its poll, or by one made afresh.

ghost use Rattle.std.specs.Prelude.{◌≡◌, IfOk, cond};
ghost use Rattle.lks_law.specs.Journal.{contents_of};
ghost use Rattle.lks_evidence.specs.Marks.{IsMark};
ghost use Rattle.lks_evidence.specs.Recounts.{HasCopy, IsRecountIf, is_of_last};
ghost use Rattle.lks_evidence.specs.Recounts as recounts;
ghost use Rattle.lks_evidence.specs.Rules as rules;

use crate::cases::Case;
use crate::findings::Why;
use crate::marks::{ReadMark, recent};
use crate::records::Repair;
use crate::recounts::{Recount, find_copy, recount_of};
use lks_base::{OutOfMemory, Record};
use std::alloc::Global;

/// What is found of a repair, and the recount of its poll, if that was held.
#[derive(Drop)]
pub struct Judgement {
    pub why: Option<Why>,
    pub last: Option<Recount>,
}

/// Whether the last recount is of the repair's poll.
fn covers(last: &Option<Recount>, r: &Repair<'_>) -> bool
    ensures { result ≡ is_of_last r.now last.now }
{
    match last {
        Some(recount) => recount.covers(r),
        None => false,
    }
}

/// The recount of the repair's poll: the last one, where that is of it.
fn find_recount(
    alloc: Global,
    case: &Case<'_>,
    before: &[Record],
    mark: ReadMark,
    r: &Repair<'_>,
    last: Option<Recount>,
) -> Result<Option<Recount>, OutOfMemory>
    requires copy { HasCopy before.now last }
    requires mark { IsMark before.now mark }
    ensures { IfOk result
        (λ k. k
        ≡ cond (is_of_last r.now last) last
        (recounts.recount_of case.now.plan.now case.now.set.now case.now.poller before.now
        (contents_of r.now.au before.now) r.now)) }
{
    if covers(&last, r) {
        Ok(last)
    } else {
        let copy = find_copy(alloc, before, r, last)?;
        let recent = recent(mark, r, before);
        recount_of(alloc, case, recent, copy, r)
    }
}

/// What its poll leaves in doubt of a repair in the poller's journal, which has these records before it.
pub fn doubt_poll(
    alloc: Global,
    case: &Case<'_>,
    before: &[Record],
    mark: ReadMark,
    r: &Repair<'_>,
    last: Option<Recount>,
) -> Result<Judgement, OutOfMemory>
    requires last { IsRecountIf case.now.plan.now case.now.set.now case.now.poller before.now last }
    requires mark { IsMark before.now mark }
    ensures why { IfOk result
        (λ j. j.why ≡ rules.poll_doubt case.now.plan.now case.now.set.now case.now.poller before.now r.now) }
    ensures last { IfOk result (λ j. IsRecountIf case.now.plan.now case.now.set.now case.now.poller before.now j.last) }
{
    match find_recount(alloc, case, before, mark, r, last)? {
        Some(recount) => {
            let mut recount = recount;
            let why = recount.doubt_votes(alloc, r)?;
            Ok(Judgement {
                why,
                last: Some(recount),
            })
        }
        None => Ok(Judgement {
            why: Some(Why::Poll),
            last: None,
        }),
    }
}
