//! A judge in a box.

use crate::judges::EffortJudge;
use crate::questions::Question;

impl EffortJudge for Box<dyn EffortJudge> {
    ghost heard = { λ b. (EffortJudge-box b).heard b.value };

    ghost verdict = { λ b. (EffortJudge-box b).verdict b.value };

    fn judge(&mut self, q: Question) -> bool {
        (**self).judge(q)
    }
}
