//! Why changes aren't made.

ghost use Rattle.std.specs.Prelude.{◌≡◌};
ghost use Rattle.entry_changes.specs.declared.fault.ChangeFault.TheVariants.{NoMemory};

use ldap_msg::ResultCode;
use std::alloc::AllocError;
use thiserror::Error;

/// No memory was left.
pub type NoMemory = AllocError;

/// Why changes aren't made.
#[derive(Clone, Copy, Debug, Error)]
pub enum ChangeFault {
    /// One of them is refused, with this code.
    #[error("refused")]
    Refused(ResultCode),
    /// There was no memory.
    #[error("no memory")]
    NoMemory,
}

impl From<AllocError> for ChangeFault {
    ghost from_gives = { λ _ fault. fault ≡ NoMemory };

    fn from(_error: AllocError) -> ChangeFault {
        ChangeFault::NoMemory
    }
}
