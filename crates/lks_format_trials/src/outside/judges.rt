//! Both judges on a few proofs, the second in a box.

ghost use Rattle.std.specs.Prelude.{◌≡◌, []};

use crate::same::same;
use lks_base::Bytes;
use lks_outside::{EffortJudge, FirstByteJudge, ListJudge, Question};
use std::alloc::Global;
use std::test::Fail;

fn question(alloc: Global, proof: &[u8]) -> Result<Question, Fail> {
    Ok(Question {
        from: 2,
        poller: 1,
        number: 7,
        proof: Bytes::from_vec(proof.to_vec(alloc)?),
    })
}

fn verdicts<J: EffortJudge>(alloc: Global, judge: &mut J) -> Result<[bool; 4], Fail>
    requires { J.heard judge.old ≡ [] }
{
    Ok([
        judge.judge(question(alloc, &[1])?),
        judge.judge(question(alloc, &[2, 1])?),
        judge.judge(question(alloc, &[])?),
        judge.judge(question(alloc, &[1, 2])?),
    ])
}

#[test]
fn first_bytes(rt: HostRuntime) -> Result<(), Fail> {
    let mut judge = FirstByteJudge::new(rt.alloc())?;
    let verdicts = verdicts(rt.alloc(), &mut judge)?;
    same(&rt, &verdicts, &[true, false, false, true], &"verdicts");
    Ok(())
}

/// The list is shorter than the questions.
#[test]
fn a_list(rt: HostRuntime) -> Result<(), Fail> {
    let listed = [true, false, true].to_vec(rt.alloc())?;
    let judge = ListJudge::new(rt.alloc(), listed)?;
    let mut judge: Box<dyn EffortJudge> = Box::new(rt.alloc(), judge)?;
    let verdicts = verdicts(rt.alloc(), &mut judge)?;
    same(&rt, &verdicts, &[true, false, true, false], &"verdicts");
    Ok(())
}
