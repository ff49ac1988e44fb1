//! Why a field couldn't be read.

ghost use Rattle.std.specs.Prelude.{◌≡◌};
ghost use Rattle.lks_field.specs.declared.fault.FieldFault.TheVariants as faults;

use std::alloc::{AllocError, AllocFailed};

#[derive(Clone, Copy, Debug, PartialEq, Eq)]
pub enum FieldFault {
    /// Fewer bytes are left than the field has.
    Short,
    /// A number is above its limit, or a byte isn't the one that it has to be.
    Value,
    /// Bytes are left behind the last field.
    Long,
    /// No memory was there for what was read.
    Memory,
}

impl From<AllocError> for FieldFault {
    ghost from_gives = { λ _ e. e ≡ faults.Memory };

    fn from(_error: AllocError) -> FieldFault {
        FieldFault::Memory
    }
}

impl<T: Drop> From<AllocFailed<T>> for FieldFault {
    ghost from_gives = { λ _ e. e ≡ faults.Memory };

    fn from(_failed: AllocFailed<T>) -> FieldFault {
        FieldFault::Memory
    }
}
