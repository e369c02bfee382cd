//! What a text of requests gives, and why it gives nothing.

ghost use Rattle.std.specs.Prelude.{◌≡◌};
ghost use Rattle.client_core.specs.declared.types.AskFault.TheVariants.{NoMemory};

use ldap_msg::Message;
use std::alloc::{AllocError, AllocFailed};
use thiserror::Error;

/// No memory was left.
pub type NoMemory = AllocError;

/// A request: the number of the line that names its target, from 1, and the message that asks for it.
#[derive(Drop)]
pub struct Asked {
    pub line: u64,
    pub message: Message,
}

/// Why a text gives no requests.
#[derive(Clone, Copy, Debug, PartialEq, Eq, Error)]
pub enum AskFault {
    /// The text isn't one of requests: `line`, from 1, is the first that is at fault.
    #[error("bad request line {line}")]
    Bad { line: u64 },
    /// There was no memory for the requests.
    #[error("no memory")]
    NoMemory,
}

impl From<AllocError> for AskFault {
    ghost from_gives = { λ _ fault. fault ≡ NoMemory };

    fn from(_error: AllocError) -> AskFault {
        AskFault::NoMemory
    }
}

impl<T: Drop> From<AllocFailed<T>> for AskFault {
    ghost from_gives = { λ _ fault. fault ≡ NoMemory };

    fn from(_error: AllocFailed<T>) -> AskFault {
        AskFault::NoMemory
    }
}
