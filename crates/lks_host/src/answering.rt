//! What a peer does with an input, or with a result of such work.

ghost use Rattle.std.specs.Prelude.{◌≡◌, IfErr, IfOk, IfSome};
ghost use Rattle.lks_host.specs.Working.{Expected, IsResultOf, MayRefuse};
ghost use Rattle.lks_law.specs.Facts.{IsHeard};
ghost use Rattle.lks_law.specs.Fitting.{AreFitting};
ghost use Rattle.lks_law.specs.State.{after_all};
ghost use Rattle.lks_law.specs.Table.{react_on};
ghost use Rattle.lks_peer.specs.Accepting.{input_of};
ghost use Rattle.lks_peer.specs.Knows.{IsFit};

use lks_base::{Input, Reaction};
use lks_blocks::BlockPool;
use lks_peer::{AcceptFault, Peer};
use lks_work::JobDone;
use std::sync::Wait;

/// The step that was worked for.
pub fn work_of(done: &JobDone) -> Input
    ensures work { result ≡ input_of done.now }
    ensures heard { IsHeard result }
{
    match done {
        JobDone::Vote(done) => Input::Work {
            poll: done.job.poll,
        },
        JobDone::Tally(done) => Input::Tally {
            number: done.job.number,
        },
    }
}

/// What the peer does with the input: by a result of such work, if there is one.
pub fn answer<R: Wait>(
    rt: &R,
    pool: &BlockPool,
    peer: &mut Peer,
    tick: u32,
    input: &Input,
    done: Option<JobDone>,
) -> Result<Reaction, AcceptFault>
    requires pool { pool.now ≡ peer.old.pool }
    requires heard { IsHeard input.now }
    requires done { IfSome done (IsResultOf pool.now input.now) }
    ensures reaction { IfOk result (λ r. r ≡ react_on peer.old.own peer.old.state tick input.now) }
    ensures state { IfOk result (λ r. peer.new.state ≡ after_all peer.old.own peer.old.state r.records) }
    ensures fits { IfOk result (λ r. AreFitting peer.old.own peer.old.state r.records) }
    ensures fit { IsFit peer.old.own peer.old.state }
    ensures own { (peer.new.own ≡ peer.old.own) × (peer.new.pool ≡ peer.old.pool) }
    ensures expected { IfOk result (λ _. Expected peer.old peer.new done) }
    ensures refused { IfErr result (MayRefuse peer.old peer.new done) }
{
    match done {
        Some(done) => peer.accept(rt, pool, tick, done),
        None => Ok(peer.step(rt, pool, tick, input)?),
    }
}
