//! Why a request isn't read.

ghost use Rattle.std.specs.Prelude.{◌≡◌};
ghost use Rattle.op_add_delete.specs.declared.fault.Fault.TheVariants.{NoMemory};

use ldap_msg::ResultCode;
use std::alloc::{AllocError, AllocFailed};

/// Why a request, or a part of one, isn't read.
#[derive(Drop)]
pub enum Fault {
    /// It is refused, with this code: it says what no directory could hold.
    Refused(ResultCode),
    /// There was no memory, whatever the request says.
    NoMemory,
}

impl From<AllocError> for Fault {
    ghost from_gives = { λ _ fault. fault ≡ NoMemory };

    fn from(_error: AllocError) -> Fault {
        Fault::NoMemory
    }
}

impl<T: Drop> From<AllocFailed<T>> for Fault {
    ghost from_gives = { λ _ fault. fault ≡ NoMemory };

    fn from(_error: AllocFailed<T>) -> Fault {
        Fault::NoMemory
    }
}
