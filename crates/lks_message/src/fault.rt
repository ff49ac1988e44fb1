//! Why bytes are no message.

ghost use Rattle.std.specs.Prelude.{◌≡◌};
ghost use Rattle.lks_message.specs.Faults.{told_as};
ghost use Rattle.lks_message.specs.declared.fault.MsgFault.TheVariants.{Memory};

use lks_field::FieldFault;
use std::alloc::AllocError;

/// The first fault from left to right, or want of memory.
#[derive(Clone, Copy, Debug, PartialEq, Eq)]
pub enum MsgFault {
    /// A byte is missing.
    Short,
    /// The first byte is neither 1 nor 2.
    Version,
    /// The version hasn't this tag.
    Tag,
    /// A value is outside its limit.
    Limit,
    /// Bytes are left.
    Trailing,
    Memory,
}

impl From<FieldFault> for MsgFault {
    ghost from_gives = { λ fault e. e ≡ told_as fault };

    fn from(fault: FieldFault) -> MsgFault {
        match fault {
            FieldFault::Short => MsgFault::Short,
            FieldFault::Value => MsgFault::Limit,
            FieldFault::Long => MsgFault::Trailing,
            FieldFault::Memory => MsgFault::Memory,
        }
    }
}

impl From<AllocError> for MsgFault {
    ghost from_gives = { λ _ e. e ≡ Memory };

    fn from(_error: AllocError) -> MsgFault {
        MsgFault::Memory
    }
}
