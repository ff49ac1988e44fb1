//! Why bytes are no batch.

ghost use Rattle.std.specs.Prelude.{◌≡◌};
ghost use Rattle.lks_record.specs.Faults.{told_as};
ghost use Rattle.lks_record.specs.declared.fault.RecFault.TheVariants.{Memory};

use lks_field::FieldFault;
use std::alloc::{AllocError, AllocFailed};

/// The first fault from left to right, or want of memory.
#[derive(Clone, Copy, Debug, PartialEq, Eq)]
pub enum RecFault {
    /// A byte is missing.
    Short,
    /// A record's first byte isn't 1 to 3.
    Form,
    /// The form hasn't this tag.
    Tag,
    /// A value is outside its limit.
    Limit,
    /// Bytes are left.
    Trailing,
    Memory,
}

impl From<FieldFault> for RecFault {
    ghost from_gives = { λ fault e. e ≡ told_as fault };

    fn from(fault: FieldFault) -> RecFault {
        match fault {
            FieldFault::Short => RecFault::Short,
            FieldFault::Value => RecFault::Limit,
            FieldFault::Long => RecFault::Trailing,
            FieldFault::Memory => RecFault::Memory,
        }
    }
}

impl From<AllocError> for RecFault {
    ghost from_gives = { λ _ e. e ≡ Memory };

    fn from(_error: AllocError) -> RecFault {
        RecFault::Memory
    }
}

impl<T: Drop> From<AllocFailed<T>> for RecFault {
    ghost from_gives = { λ _ e. e ≡ Memory };

    fn from(_failed: AllocFailed<T>) -> RecFault {
        RecFault::Memory
    }
}
