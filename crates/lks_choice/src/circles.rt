//! The outer circle of a poll.

ghost use Rattle.std.specs.Prelude.{◌≡◌, ◌<◌, IfOk, OnOk, OnErr, not, ◌&&◌, cond, [], ◌∷◌, ◌++◌, length};
ghost use Rattle.std.specs.Int.{div_ceil};
ghost use Rattle.lks_base.specs.Checking.{has_member};
ghost use Rattle.lks_draw.specs.Picks.{picked_by, words_taken};
ghost use Rattle.lks_draw.specs.Words.{draw_after};
ghost use Rattle.lks_choice.specs.Circles as circles;
ghost use Rattle.lks_choice.specs.Circles.{circle_of, HasComeTo, IsLeastShare, IsOuterCircle};

use lks_base::{Ids, OutOfMemory, PeerId, has_member};
use lks_draw::Draws;
use std::alloc::Global;

/// The outer circle of a poll of peer `own`: at most `size` peers. The nominations are gone through in order; from each
/// nomination's new nominees, who are neither `own` nor inner peers, an equal share of `size` is picked, rounded up.
#[tactic(auto, unfolding(crate::specs::Circles::circle_of))]
pub fn outer_circle(
    alloc: Global,
    own: PeerId,
    inner: &[PeerId],
    nominated: &[Ids],
    size: u16,
    draws: &mut Draws,
) -> Result<Ids, OutOfMemory>
    ensures circle { IfOk result (λ ids. ids ≡ (circle_of draws.old own inner.now nominated.now size).peers) }
    ensures law { IfOk result (λ ids. IsOuterCircle own inner.now nominated.now size ids) }
    ensures draws { OnOk result
        (draws.new ≡ draw_after draws.old (circle_of draws.old own inner.now nominated.now size).words) }
    ensures err { OnErr result (HasComeTo draws.old own inner.now nominated.now size draws.new) }
{
    let mut peers = Vec::new(alloc);
    if nominated.is_empty() {
        return Ok(Ids::from_vec(peers));
    }
    let share = share(size, nominated.len());
    for nominees in nominated {
        let those = candidates(alloc, own, inner, &peers, nominees.as_slice())?;
        let most = share.min((size as usize).saturating_sub(peers.len()));
        let members = pick(alloc, draws, &those, most)?;
        peers.extend_from_slice(&members)?;
    }
    Ok(Ids::from_vec(peers))
}

// Who of a nomination may be picked, beside those already in the circle.
fn candidates(
    alloc: Global,
    own: PeerId,
    inner: &[PeerId],
    circle: &[PeerId],
    nominees: &[PeerId],
) -> Result<Vec<PeerId>, OutOfMemory>
    ensures { IfOk result (λ v. v.items ≡ circles.candidates own inner.now circle.now nominees.now) }
{
    let mut those = Vec::new(alloc);
    for p in nominees {
        consider(&mut those, own, inner, circle, *p)?;
    }
    Ok(those)
}

// Puts a nominee behind the candidates, if it may stand and isn't one of them.
fn consider(
    those: &mut Vec<PeerId>,
    own: PeerId,
    inner: &[PeerId],
    circle: &[PeerId],
    p: PeerId,
) -> Result<(), OutOfMemory>
    ensures { OnOk result
        (those.new.items
        ≡ those.old.items
        ++ cond (circles.may_stand own inner.now circle.now p && not (has_member those.old.items p)) (p ∷ [])
        []) }
{
    if may_stand(own, inner, circle, p) && !has_member(those, p) {
        those.push(p)?;
    }
    Ok(())
}

fn may_stand(own: PeerId, inner: &[PeerId], circle: &[PeerId], p: PeerId) -> bool
    ensures { result ≡ circles.may_stand own inner.now circle.now p }
{
    p != own && !has_member(inner, p) && !has_member(circle, p)
}

// The share of each nomination: the least number by which `nominations` shares make up the size.
#[tactic(auto, using(crate::proofs::Shares::div_ceil_least))]
fn share(size: u16, nominations: usize) -> usize
    requires { 0 < nominations }
    ensures share { result ≡ div_ceil size nominations }
    ensures least { IsLeastShare size nominations result }
{
    (size as usize).div_ceil(nominations)
}

// A pick, whose want of memory is told as elsewhere here.
fn pick(
    alloc: Global,
    draws: &mut Draws,
    list: &[PeerId],
    n: usize,
) -> Result<Vec<PeerId>, OutOfMemory>
    ensures picked { IfOk result (λ v. v.items ≡ picked_by draws.old list.now n) }
    ensures moved { OnOk result (draws.new ≡ draw_after draws.old (words_taken list.now n)) }
    ensures err { OnErr result (draws.new ≡ draws.old) }
{
    match draws.pick(alloc, list, n) {
        Ok(members) => Ok(members),
        Err(_) => Err(OutOfMemory),
    }
}
