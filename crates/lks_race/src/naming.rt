//! How a race began, as a name that its lock goes by.

use std::marker::Brand;

/// How a race began. Each race picks it.
pub trait NamesRace {
    ghost use Rattle.lks_race.specs.Racing.{Begin};

    ghost begin: { Begin };
}

impl NamesRace for Brand {
    ghost use Rattle.lks_race.specs.Racing.{nowhere};

    ghost begin = { nowhere };
}
