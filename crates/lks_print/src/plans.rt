//! Lines that say a plan.

ghost use Rattle.std.specs.Prelude.{◌≡◌, ◌++◌, ◌∷◌, [], OnOk, OnErr, codes, map};
ghost use Rattle.std.specs.Fmt.{decimal};
ghost use Rattle.std.specs.List.{flat_map};
ghost use Rattle.lks_print.specs.Steps.{line_of};
ghost use Rattle.lks_words.specs.Steps.{spaced};
ghost use Rattle.lks_print.specs.Scripts.{named_text, rules_words, rules_line, au_line, peer_line, hash_line};
ghost use Rattle.lks_print.specs.Scripts.{list_line, copy_line, belongings, plan_text};

use crate::adding::{add_block, add_blocks, add_hex, add_ids, add_kind, add_number, add_word};
use lks_base::{AuPlan, HashKind, Holding, PeerId, PeerPlan, Plan, Rules};
use lks_words::{put_hash, put_text};
use std::alloc::{AllocError, Global};

fn add_named(alloc: Global, out: &mut Vec<u8>, named: &[(&[u8], u64)]) -> Result<(), AllocError>
    ensures { OnOk result (out.new.items ≡ out.old.items ++ flat_map (λ x. named_text x.0.now x.1) named.now) }
{
    for (name, n) in named {
        add_word(out, name)?;
        add_number(alloc, out, *n)?;
    }
    Ok(())
}

#[tactic(auto, unfolding(crate::specs::Scripts::rules_words))]
fn add_rules(alloc: Global, out: &mut Vec<u8>, rules: &Rules) -> Result<(), AllocError>
    ensures { OnOk result (out.new.items ≡ out.old.items ++ spaced (rules_words rules.now)) }
{
    let named: [(&[u8], u64); 11] = [
        (b"inner", u64::from(rules.inner)),
        (b"quorum", u64::from(rules.quorum)),
        (b"minority", u64::from(rules.minority)),
        (b"outer", u64::from(rules.outer)),
        (b"repairs", u64::from(rules.repairs)),
        (b"pace", u64::from(rules.pace)),
        (b"refractory", u64::from(rules.refractory)),
        (b"overdue", u64::from(rules.overdue)),
        (b"unknown", u64::from(rules.unknown_pct)),
        (b"debt", u64::from(rules.debt_pct)),
        (b"churn", u64::from(rules.churn)),
    ];
    add_named(alloc, out, &named)
}

#[tactic(auto, unfolding(crate::specs::Scripts::rules_line, crate::specs::Steps::line_of))]
fn put_rules(alloc: Global, out: &mut Vec<u8>, rules: &Rules) -> Result<(), AllocError>
    ensures { OnOk result (out.new.items ≡ out.old.items ++ rules_line rules.now) }
{
    put_text(out, b"rules")?;
    add_rules(alloc, out, rules)?;
    put_text(out, b"\n")
}

#[tactic(auto, unfolding(crate::specs::Steps::line_of))]
fn put_turns(alloc: Global, out: &mut Vec<u8>, turns: u32) -> Result<(), AllocError>
    ensures { OnOk result (out.new.items ≡ out.old.items ++ line_of (codes "turns") (decimal turns ∷ [])) }
{
    put_text(out, b"turns")?;
    add_number(alloc, out, u64::from(turns))?;
    put_text(out, b"\n")
}

#[tactic(auto, unfolding(crate::specs::Scripts::au_line, crate::specs::Scripts::au_words, crate::specs::Steps::line_of))]
fn put_au(alloc: Global, out: &mut Vec<u8>, au: &AuPlan) -> Result<(), AllocError>
    ensures { OnOk result (out.new.items ≡ out.old.items ++ au_line au.now) }
{
    put_text(out, b"au")?;
    add_number(alloc, out, u64::from(au.id))?;
    add_number(alloc, out, u64::from(au.count))?;
    put_text(out, b"\n")
}

fn put_aus(alloc: Global, out: &mut Vec<u8>, aus: &[AuPlan]) -> Result<(), AllocError>
    ensures { OnOk result (out.new.items ≡ out.old.items ++ flat_map au_line aus.now) }
{
    for au in aus {
        put_au(alloc, out, au)?;
    }
    Ok(())
}

#[tactic(auto, unfolding(crate::specs::Scripts::peer_line, crate::specs::Scripts::peer_words, crate::specs::Steps::line_of))]
fn put_peer(alloc: Global, out: &mut Vec<u8>, peer: &PeerPlan) -> Result<(), AllocError>
    ensures { OnOk result (out.new.items ≡ out.old.items ++ peer_line peer.now) }
{
    put_text(out, b"peer")?;
    add_number(alloc, out, u64::from(peer.id))?;
    add_kind(out, peer.corrupt)?;
    add_hex(alloc, out, &peer.seed)?;
    add_block(alloc, out, peer.proof.as_slice())?;
    put_text(out, b"\n")
}

fn put_peers(alloc: Global, out: &mut Vec<u8>, peers: &[PeerPlan]) -> Result<(), AllocError>
    ensures { OnOk result (out.new.items ≡ out.old.items ++ flat_map peer_line peers.now) }
{
    for peer in peers {
        put_peer(alloc, out, peer)?;
    }
    Ok(())
}

#[tactic(auto, unfolding(crate::specs::Scripts::hash_line, crate::specs::Steps::line_of))]
fn put_hash_line(
    alloc: Global,
    out: &mut Vec<u8>,
    peer: PeerId,
    hash: HashKind,
) -> Result<(), AllocError>
    ensures { OnOk result (out.new.items ≡ out.old.items ++ hash_line peer hash) }
{
    match hash {
        HashKind::Sha256 => Ok(()),
        HashKind::Sha512_256 => {
            put_text(out, b"hash")?;
            add_number(alloc, out, u64::from(peer))?;
            out.push(b' ')?;
            put_hash(out, hash)?;
            put_text(out, b"\n")
        }
    }
}

#[tactic(auto, unfolding(crate::specs::Scripts::list_line, crate::specs::Steps::line_of))]
fn put_list(
    alloc: Global,
    out: &mut Vec<u8>,
    key: &[u8],
    peer: PeerId,
    ids: &[u16],
) -> Result<(), AllocError>
    ensures { OnOk result (out.new.items ≡ out.old.items ++ list_line key.now peer ids.now) }
{
    match ids {
        [] => Ok(()),
        [_, ..] => {
            put_text(out, key)?;
            add_number(alloc, out, u64::from(peer))?;
            add_ids(alloc, out, ids)?;
            put_text(out, b"\n")
        }
    }
}

#[tactic(auto, unfolding(crate::specs::Scripts::copy_line, crate::specs::Steps::line_of))]
fn put_copy(
    alloc: Global,
    out: &mut Vec<u8>,
    peer: PeerId,
    copy: &Holding,
) -> Result<(), AllocError>
    ensures { OnOk result (out.new.items ≡ out.old.items ++ copy_line peer copy.now) }
{
    put_text(out, b"copy")?;
    add_number(alloc, out, u64::from(peer))?;
    add_number(alloc, out, u64::from(copy.au))?;
    add_blocks(alloc, out, &copy.blocks)?;
    put_text(out, b"\n")
}

fn put_copies(
    alloc: Global,
    out: &mut Vec<u8>,
    peer: PeerId,
    copies: &[Holding],
) -> Result<(), AllocError>
    ensures { OnOk result (out.new.items ≡ out.old.items ++ flat_map (copy_line peer) copies.now) }
{
    for copy in copies {
        put_copy(alloc, out, peer, copy)?;
    }
    Ok(())
}

#[tactic(auto, unfolding(crate::specs::Scripts::belongings))]
fn put_belongings(alloc: Global, out: &mut Vec<u8>, peer: &PeerPlan) -> Result<(), AllocError>
    ensures { OnOk result (out.new.items ≡ out.old.items ++ belongings peer.now) }
{
    put_hash_line(alloc, out, peer.id, peer.hash)?;
    put_list(alloc, out, b"refs", peer.id, peer.refs.as_slice())?;
    put_list(alloc, out, b"friends", peer.id, peer.friends.as_slice())?;
    put_copies(alloc, out, peer.id, peer.copies.as_slice())
}

fn put_all_belongings(
    alloc: Global,
    out: &mut Vec<u8>,
    peers: &[PeerPlan],
) -> Result<(), AllocError>
    ensures { OnOk result (out.new.items ≡ out.old.items ++ flat_map belongings peers.now) }
{
    for peer in peers {
        put_belongings(alloc, out, peer)?;
    }
    Ok(())
}

/// The lines of a plan. Without memory some of them may stand behind `out`.
#[tactic(auto, unfolding(crate::specs::Scripts::plan_text, crate::specs::Steps::line_of))]
pub(crate) fn put_plan_lines(
    alloc: Global,
    out: &mut Vec<u8>,
    plan: &Plan,
) -> Result<(), AllocError>
    ensures { OnOk result (out.new.items ≡ out.old.items ++ plan_text plan.now) }
{
    put_text(out, b"lockss 1\n")?;
    put_rules(alloc, out, &plan.rules)?;
    put_turns(alloc, out, plan.turns)?;
    put_aus(alloc, out, plan.aus.as_slice())?;
    put_peers(alloc, out, plan.peers.as_slice())?;
    put_all_belongings(alloc, out, plan.peers.as_slice())
}

/// The lines of a plan, which stand before the first step. Without memory nothing is added to `out`.
pub fn put_plan(alloc: Global, out: &mut Vec<u8>, plan: &Plan) -> Result<(), AllocError>
    ensures text { OnOk result (out.new.items ≡ out.old.items ++ plan_text plan.now) }
    ensures same { OnErr result (out.new.items ≡ out.old.items) }
{
    let mut text = Vec::new(alloc);
    put_plan_lines(alloc, &mut text, plan)?;
    out.extend_from_slice(&text)
}
