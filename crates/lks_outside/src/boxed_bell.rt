//! A bell in a box.

use crate::alarms::Alarm;
use crate::bells::Bell;

impl Bell for Box<dyn Bell> {
    ghost rung = { λ b. (Bell-box b).rung b.value };

    ghost limit = { λ b. (Bell-box b).limit b.value };

    fn ring(&mut self, a: &Alarm) {
        (**self).ring(a)
    }

    fn wants_more(&self) -> bool {
        (**self).wants_more()
    }

    fn rung(&self) -> u32 {
        (**self).rung()
    }
}
