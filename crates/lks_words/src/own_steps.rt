//! The words of a peer's own step, as scripts and reports have them.

ghost use Rattle.std.specs.Prelude.{◌≡◌, ◌++◌, OnOk, string_bytes};
ghost use Rattle.lks_words.specs.Steps.{spaced, own_key, own_more, own_words};

use lks_base::PeerStep;
use std::alloc::AllocError;

/// The word that names the step.
#[tactic(auto, unfolding(crate::specs::Steps::own_key))]
pub fn step_key(step: &PeerStep) -> &'static str
    ensures { result.now ≡ own_key step.now }
{
    match step {
        PeerStep::OpenPoll { .. } => "open",
        PeerStep::Widen { .. } => "outer",
        PeerStep::Shut { .. } => "shut",
        PeerStep::Tally { .. } => "tally",
        PeerStep::Nudge { .. } => "nudge",
        PeerStep::GiveUp { .. } => "give-up",
        PeerStep::Work { .. } => "work",
        PeerStep::Expire { .. } => "expire",
        PeerStep::Check { .. } => "check",
        PeerStep::Tune { .. } => "tune",
        PeerStep::Deliver { .. } => "deliver",
    }
}

/// The words behind that one, a space before each: of a delivery, its envelope.
#[tactic(auto, unfolding(crate::specs::Steps::own_more))]
pub fn put_step_rest(out: &mut String, step: &PeerStep) -> Result<(), AllocError>
    ensures { OnOk result (string_bytes out.new ≡ string_bytes out.old ++ spaced (own_more step.now)) }
{
    match *step {
        PeerStep::OpenPoll { peer, au } => write!(out, " {peer} {au}"),
        PeerStep::Widen { peer, number }
        | PeerStep::Shut { peer, number }
        | PeerStep::Tally { peer, number }
        | PeerStep::Nudge { peer, number }
        | PeerStep::GiveUp { peer, number } => write!(out, " {peer} {number}"),
        PeerStep::Work { peer, poll } | PeerStep::Expire { peer, poll } => {
            write!(out, " {peer} {} {}", poll.poller, poll.number)
        }
        PeerStep::Check { peer } => write!(out, " {peer}"),
        PeerStep::Tune {
            peer,
            quorum,
            minority,
            repairs,
        } => write!(out, " {peer} {quorum} {minority} {repairs}"),
        PeerStep::Deliver { envelope, .. } => write!(out, " {envelope}"),
    }
}

/// All words of the step.
#[tactic(auto, unfolding(crate::specs::Steps::own_words))]
pub fn put_step(out: &mut String, step: &PeerStep) -> Result<(), AllocError>
    ensures { OnOk result (string_bytes out.new ≡ string_bytes out.old ++ own_words step.now) }
{
    out.push_str(step_key(step))?;
    put_step_rest(out, step)
}
