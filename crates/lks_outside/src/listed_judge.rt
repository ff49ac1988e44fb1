//! A judge that reads its verdicts off a list.

ghost use Rattle.std.specs.Prelude.{◌≡◌, [], IfOk, length};
ghost use Rattle.lks_outside.specs.Verdicts.{verdict_at};

use crate::judges::EffortJudge;
use crate::questions::{Heard, Question};
use lks_base::OutOfMemory;
use std::alloc::Global;
use std::marker::Model;

/// Answers a list in order, whatever it is asked, and refuses past its end. Contracts see the questions that it heard
/// and the list.
#[derive(Drop)]
pub struct ListJudge {
    heard: Heard,
    verdicts: Vec<bool>,
}

impl Model for ListJudge {
    ghost use Rattle.lks_outside.specs.Scripted.{Scripted};

    ghost Value = { Scripted };

    ghost view = { λ j. record { heard = j.heard; verdicts = j.verdicts.items } };
}

impl ListJudge {
    /// Takes the room for all questions that it will hear.
    pub fn new(alloc: Global, verdicts: Vec<bool>) -> Result<ListJudge, OutOfMemory>
        ensures heard { IfOk result (λ j. j ≡ record { heard = []; verdicts = verdicts.items }) }
        ensures verdict { IfOk result (λ j.
            ⟦<ListJudge as EffortJudge>⟧.verdict j ≡ (λ before _. verdict_at verdicts.items (length before))) }
    {
        let heard = Heard::new(alloc)?;
        Ok(ListJudge { heard, verdicts })
    }
}

impl EffortJudge for ListJudge {
    ghost heard = { λ j. j.heard };

    ghost verdict = { λ j before _. verdict_at j.verdicts (length before) };

    fn judge(&mut self, q: Question) -> bool {
        let accepted = verdict_at(self.verdicts.as_slice(), self.heard.len());
        self.heard.keep(q);
        accepted
    }
}

fn verdict_at(verdicts: &[bool], n: usize) -> bool
    ensures { result ≡ verdict_at verdicts.now n }
{
    verdicts.get(n).copied().unwrap_or(false)
}
