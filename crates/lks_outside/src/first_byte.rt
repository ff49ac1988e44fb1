//! A judge that looks at one byte.

ghost use Rattle.std.specs.Prelude.{◌≡◌, [], IfOk};
ghost use Rattle.lks_outside.specs.Verdicts.{begins_with_one, first_byte};

use crate::judges::EffortJudge;
use crate::questions::{Heard, Question};
use lks_base::OutOfMemory;
use std::alloc::Global;
use std::marker::Model;

/// Accepts exactly the proofs whose first byte is 1. Contracts see the questions that it heard.
#[derive(Drop)]
pub struct FirstByteJudge {
    heard: Heard,
}

impl Model for FirstByteJudge {
    ghost use Rattle.std.specs.Prelude.{List};
    ghost use Rattle.lks_outside.specs.declared.questions.Question.{Question};

    ghost Value = { List Question };

    ghost view = { λ j. j.heard };
}

impl FirstByteJudge {
    /// Takes the room for all questions that it will hear.
    pub fn new(alloc: Global) -> Result<FirstByteJudge, OutOfMemory>
        ensures heard { IfOk result (λ j. j ≡ []) }
        ensures verdict { IfOk result (λ j.
            ⟦<FirstByteJudge as EffortJudge>⟧.verdict j ≡ first_byte) }
    {
        let heard = Heard::new(alloc)?;
        Ok(FirstByteJudge { heard })
    }
}

impl EffortJudge for FirstByteJudge {
    ghost heard = { λ j. j };

    ghost verdict = { λ _. first_byte };

    fn judge(&mut self, q: Question) -> bool {
        let accepted = begins_with_one(q.proof.as_slice());
        self.heard.keep(q);
        accepted
    }
}

/// Whether the first byte of a proof is 1.
pub fn begins_with_one(proof: &[u8]) -> bool
    ensures { result ≡ begins_with_one proof.now }
{
    match proof {
        [first, ..] => *first == 1,
        [] => false,
    }
}
