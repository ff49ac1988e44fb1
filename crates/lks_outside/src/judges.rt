//! Who judges proofs of effort.

ghost use Rattle.std.specs.Prelude.{◌≡◌, ◌<◌, Bool, List, [], ◌∷◌, ◌++◌, length};
ghost use Rattle.lks_base.specs.declared.limits.TheConstants.{MOST_EVENTS};
ghost use Rattle.lks_outside.specs.declared.questions.Question.{Question};

use crate::questions::Question;

/// Says of each proof of effort whether it is accepted.
pub trait EffortJudge: Send + Drop {
    /// The questions that it heard, in order.
    ghost heard: { Self → List Question };

    /// What it says to a question after those that it heard before.
    ghost verdict: { Self → List Question → Question → Bool };

    /// Accepts a proof or not. It has room for as many questions as a history has events, so it can't fail before.
    fn judge(&mut self, q: Question) -> bool
        requires { length (heard self.old) < MOST_EVENTS }
        ensures heard { heard self.new ≡ heard self.old ++ q ∷ [] }
        ensures answer { result ≡ verdict self.old (heard self.old) q }
        ensures same { verdict self.new ≡ verdict self.old };
}
