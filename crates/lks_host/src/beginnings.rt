//! What the journal of a new peer begins with.

ghost use Rattle.std.specs.Prelude.{◌≡◌, ◌-◌, ◌++◌, ◌∷◌, [], Some, None, IfOk, IsSome, drop, length, option_map};
ghost use Rattle.std.specs.List.{filter_map};
ghost use Rattle.lks_base.specs.Checking.{plan_fault};
ghost use Rattle.lks_host.specs.Fits.{AreFirst};
ghost use Rattle.lks_law.specs.World.{deposit_for, deposits, honest_peer, standing_of};
ghost use Rattle.lks_peer.specs.Knows.{knowing_of};

use lks_base::{AuPlan, Holding, OutOfMemory, PeerId, Plan, Record};
use lks_blocks::BlockPool;
use lks_peer::{Peer, find_honest};
use std::alloc::Global;
use std::sync::Wait;

/// Adds the deposit of a copy of this AU, unless it is left out, and says how many later ones are.
fn deposit_copy(
    list: &mut Vec<Record>,
    skip: usize,
    au: &AuPlan,
    copy: &Holding,
) -> Result<usize, OutOfMemory>
    ensures list { IfOk result
        (λ left. list.new.items ≡ list.old.items ++ drop skip (filter_map (deposit_for au.now) (copy.now ∷ []))) }
    ensures left { IfOk result (λ left. left ≡ skip - length (filter_map (deposit_for au.now) (copy.now ∷ []))) }
{
    if copy.au != au.id {
        return Ok(skip);
    }
    if skip > 0 {
        return Ok(skip - 1);
    }
    let blocks = copy.blocks.clone()?;
    list.push(Record::Deposit { au: au.id, blocks })?;
    Ok(0)
}

fn deposit_au(
    list: &mut Vec<Record>,
    skip: usize,
    au: &AuPlan,
    copies: &[Holding],
) -> Result<usize, OutOfMemory>
    ensures list { IfOk result
        (λ left. list.new.items ≡ list.old.items ++ drop skip (filter_map (deposit_for au.now) copies.now)) }
    ensures left { IfOk result (λ left. left ≡ skip - length (filter_map (deposit_for au.now) copies.now)) }
{
    let mut left = skip;
    for copy in copies {
        left = deposit_copy(list, left, au, copy)?;
    }
    Ok(left)
}

/// A deposit for each AU held, in the plan's order of AUs, but for the first `skip` of them.
#[tactic(auto, unfolding(lks_law::specs::World::deposits))]
fn deposit_all(
    alloc: Global,
    aus: &[AuPlan],
    copies: &[Holding],
    skip: usize,
) -> Result<Vec<Record>, OutOfMemory>
    ensures { IfOk result (λ list. list.items ≡ drop skip (deposits aus.now copies.now)) }
{
    let mut list = Vec::new(alloc);
    let mut left = skip;
    for au in aus {
        left = deposit_au(&mut list, left, au, copies)?;
    }
    Ok(list)
}

/// The deposits of the honest peer `id` of a good plan, but for the first `skip` of them.
pub fn missing_deposits(
    alloc: Global,
    plan: &Plan,
    id: PeerId,
    skip: usize,
) -> Result<Vec<Record>, OutOfMemory>
    requires good { plan_fault plan.now ≡ None }
    requires honest { IsSome (honest_peer id plan.now) }
    ensures list { IfOk result
        (λ list. option_map (λ p. drop skip (standing_of plan.now p).journal) (honest_peer id plan.now)
        ≡ Some list.items) }
    ensures first { IfOk result (λ list. AreFirst list.items) }
{
    let Some(planned) = find_honest(plan.peers.as_slice(), id) else {
        unreachable!()
    };
    deposit_all(alloc, plan.aus.as_slice(), planned.copies.as_slice(), skip)
}

/// The honest peer `id` of a good plan, as it begins, and its deposits.
pub fn begin_peer<R: Wait>(
    alloc: Global,
    rt: &R,
    pool: &BlockPool,
    plan: &Plan,
    id: PeerId,
) -> Result<(Peer, Vec<Record>), OutOfMemory>
    requires good { plan_fault plan.now ≡ None }
    requires honest { IsSome (honest_peer id plan.now) }
    ensures peer { IfOk result
        (λ p. option_map (λ q. knowing_of pool.now (standing_of plan.now q)) (honest_peer id plan.now) ≡ Some p.0) }
    ensures list { IfOk result
        (λ p. option_map (λ q. (standing_of plan.now q).journal) (honest_peer id plan.now) ≡ Some p.1.items) }
    ensures first { IfOk result (λ p. AreFirst p.1.items) }
{
    let list = missing_deposits(alloc, plan, id, 0)?;
    let peer = Peer::restore(alloc, rt, pool, plan, id, &list)?;
    Ok((peer, list))
}
