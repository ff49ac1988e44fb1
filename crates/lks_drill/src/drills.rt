//! A drill as a script.

ghost use Rattle.std.specs.Prelude.{◌≡◌, ◌++◌, IfOk, OnOk, None, true};
ghost use Rattle.lks_base.specs.Checking.{plan_fault};
ghost use Rattle.lks_script.specs.StepRules.{are_steps_of};
ghost use Rattle.lks_drill.specs.Drill.{aus_of_drill, plan_of, audits_of, steps_of_drill, drill_of};

use crate::copies::{BLOCKS, FIRST_AU, LAST_AU};
use crate::peers::{FIRST_PEER, LAST_PEER, peers};
use lks_base::{AuPlan, OutOfMemory, PeerId, PeerStep, Plan, Rules, Seq};
use lks_script::{Script, Step};
use std::alloc::Global;

/// Events that threads may choose.
const TURNS: u32 = 4_096;

/// The numbers that the peers of a drill go by: peers, votes and blocks, ticks, and percentages.
const RULES: Rules = Rules {
    inner: 8,
    quorum: 5,
    minority: 2,
    outer: 2,
    repairs: 4,
    pace: 0,
    refractory: 0,
    overdue: 1_000,
    unknown_pct: 100,
    debt_pct: 100,
    churn: 1,
};

/// Each AU in order.
#[tactic(auto, using(crate::proofs::Ranges::map_to))]
fn aus(alloc: Global) -> Result<Seq<AuPlan>, OutOfMemory>
    ensures { IfOk result (λ aus. aus ≡ aus_of_drill) }
{
    let mut aus = Vec::new(alloc);
    for id in FIRST_AU..=LAST_AU {
        aus.push(AuPlan { id, count: BLOCKS })?;
    }
    Ok(Seq::from_vec(aus))
}

/// What a drill begins with.
#[tactic(auto, unfolding(crate::specs::Drill::plan_of))]
fn plan(alloc: Global, seed: u64) -> Result<Plan, OutOfMemory>
    ensures { IfOk result (λ plan. plan ≡ plan_of seed) }
{
    Ok(Plan {
        rules: RULES,
        turns: TURNS,
        aus: aus(alloc)?,
        peers: peers(alloc, seed)?,
    })
}

/// Puts the audits of a peer behind the steps: it opens a poll on each AU in order, and each poll is finished.
fn add_audits(steps: &mut Vec<Step>, peer: PeerId) -> Result<(), OutOfMemory>
    ensures { OnOk result (steps.new.items ≡ steps.old.items ++ audits_of peer) }
{
    for au in FIRST_AU..=LAST_AU {
        steps.push(Step::Peer(PeerStep::OpenPoll { peer, au }))?;
        steps.push(Step::Finish)?;
    }
    Ok(())
}

/// The audits of each peer in order.
#[tactic(auto, using(crate::proofs::Ranges::flat_map_to))]
fn steps(alloc: Global) -> Result<Seq<Step>, OutOfMemory>
    ensures { IfOk result (λ steps. steps ≡ steps_of_drill) }
{
    let mut steps = Vec::new(alloc);
    for peer in FIRST_PEER..=LAST_PEER {
        add_audits(&mut steps, peer)?;
    }
    Ok(Seq::from_vec(steps))
}

/// The scenario of a drill: twelve honest peers with two AUs of 128 blocks, whose copies are damaged by draws from the
/// seed, and each of whose peers audits each AU once.
#[tactic(auto, unfolding(crate::specs::Drill::drill_of))]
pub fn drill(alloc: Global, seed: u64) -> Result<Script, OutOfMemory>
    ensures exact { IfOk result (λ s. s ≡ drill_of seed) }
    ensures good { IfOk result (λ s. plan_fault s.plan ≡ None) }
    ensures steps { IfOk result (λ s. are_steps_of s.plan s.steps ≡ true) }
{
    Ok(Script {
        plan: plan(alloc, seed)?,
        steps: steps(alloc)?,
    })
}
