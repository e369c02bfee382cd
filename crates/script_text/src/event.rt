//! What a script gives, and why it gives nothing.

ghost use Rattle.std.specs.Prelude.{◌≡◌};
ghost use Rattle.script_text.specs.declared.event.ScriptFault.TheVariants.{NoMemory};

use plain_values::Octets;
use std::alloc::{AllocError, AllocFailed};
use thiserror::Error;

/// What happens on a connection, which has a number from 1 to 4,294,967,295.
#[derive(Debug, Drop)]
pub enum ScriptEvent {
    /// The connection is opened.
    Opened(u32),
    /// Octets come on the connection, at least one.
    Bytes(u32, Octets),
    /// The other side ends the connection.
    Ended(u32),
}

/// Why a text gives no events.
#[derive(Debug, Drop, Error)]
pub enum ScriptFault {
    /// The text isn't a script: `line` is the first line, counted from 1, that breaks the grammar.
    #[error("bad script line {line}")]
    Bad { line: u64 },
    /// There was no memory for the events.
    #[error("no memory")]
    NoMemory,
}

impl From<AllocError> for ScriptFault {
    ghost from_gives = { λ _ fault. fault ≡ NoMemory };

    fn from(_error: AllocError) -> ScriptFault {
        ScriptFault::NoMemory
    }
}

impl<T: Drop> From<AllocFailed<T>> for ScriptFault {
    ghost from_gives = { λ _ fault. fault ≡ NoMemory };

    fn from(_error: AllocFailed<T>) -> ScriptFault {
        ScriptFault::NoMemory
    }
}
