//! What a judge is asked, and what it was asked before.

ghost use Rattle.std.specs.Prelude.{◌≡◌, ◌<◌, [], ◌∷◌, ◌++◌, IfOk, length};

use lks_base::{Bytes, MOST_EVENTS, OutOfMemory, PeerId};
use std::alloc::Global;
use std::marker::Model;

/// Whether a peer has shown its effort for a poll.
#[derive(Drop)]
pub struct Question {
    /// The peer that sent the proof.
    pub from: PeerId,
    pub poller: PeerId,
    /// The poll's number among the polls of the poller.
    pub number: u32,
    pub proof: Bytes,
}

/// Questions in order, with room for as many as a history has events, of which contracts see the questions alone.
#[derive(Drop)]
pub(crate) struct Heard {
    questions: Vec<Question>,
}

impl Model for Heard {
    ghost use Rattle.std.specs.Prelude.{◌≤◌, List, vec_capacity};
    ghost use Rattle.lks_base.specs.declared.limits.TheConstants.{MOST_EVENTS};
    ghost use Rattle.lks_outside.specs.declared.questions.Question.{Question};

    ghost Value = { List Question };

    ghost view = { λ h. h.questions.items };

    ghost invariant = { λ h. MOST_EVENTS ≤ vec_capacity h.questions };
}

impl Heard {
    pub(crate) fn new(alloc: Global) -> Result<Heard, OutOfMemory>
        ensures { IfOk result (λ h. h ≡ []) }
    {
        let questions = Vec::with_capacity(alloc, MOST_EVENTS as usize)?;
        Ok(Heard { questions })
    }

    pub(crate) fn len(&self) -> usize
        ensures { result ≡ length self.now }
    {
        self.questions.len()
    }

    pub(crate) fn keep(&mut self, q: Question)
        requires { length self.old < MOST_EVENTS }
        ensures { self.new ≡ self.old ++ q ∷ [] }
    {
        self.questions.push_reserved(q);
    }
}
