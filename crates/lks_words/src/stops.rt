//! Why the reading of a line stops.

ghost use Rattle.std.specs.Prelude.{◌≡◌};
ghost use Rattle.lks_words.specs.declared.stops.Stop.TheVariants as stops;

use std::alloc::{AllocError, AllocFailed};

/// Why the reading of a line stops.
#[derive(Clone, Copy)]
pub enum Stop {
    /// The line is bad.
    Bad,
    /// No memory was there.
    Memory,
}

impl From<AllocError> for Stop {
    ghost from_gives = { λ _ e. e ≡ stops.Memory };

    fn from(_error: AllocError) -> Stop {
        Stop::Memory
    }
}

impl<T: Drop> From<AllocFailed<T>> for Stop {
    ghost from_gives = { λ _ e. e ≡ stops.Memory };

    fn from(_failed: AllocFailed<T>) -> Stop {
        Stop::Memory
    }
}
