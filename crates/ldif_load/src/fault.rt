//! Why a data record isn't loaded.

ghost use Rattle.std.specs.Prelude.{◌≡◌};
ghost use Rattle.ldif_load.specs.declared.fault.LoadFault.TheVariants.{Bad, NoMemory};

use aci_item::EntryRule;
use std::alloc::AllocError;
use thiserror::Error;

/// No memory was left.
pub type NoMemory = AllocError;

/// What is wrong with a record.
#[derive(Clone, Copy, Debug, PartialEq, Error)]
pub enum LoadCause {
    /// The `dn` line gives no name, or the empty one.
    #[error("name")]
    Name,
    /// The line's type is unknown.
    #[error("type")]
    Kind,
    /// The line's value is not of its type's syntax, or has more than 65,536 octets.
    #[error("value")]
    Value,
    /// The entry has an equal value of the type, or another entry has the name.
    #[error("twice")]
    Twice,
    /// The superior of the entry doesn't stand before it.
    #[error("order")]
    Order,
    /// The entry breaks this rule first.
    #[error("rule {}", .0.number())]
    Rule(EntryRule),
    /// The entry goes past a limit of the tree.
    #[error("limit")]
    Limit,
}

/// Why a record isn't loaded.
#[derive(Clone, Copy, Debug, PartialEq, Error)]
pub enum LoadFault {
    /// The record is bad at the line, for the cause.
    #[error("line {line}: {cause}")]
    Bad { line: u64, cause: LoadCause },
    /// There was no memory.
    #[error("no memory")]
    NoMemory,
}

impl From<AllocError> for LoadFault {
    ghost from_gives = { λ _ fault. fault ≡ NoMemory };

    fn from(_error: AllocError) -> LoadFault {
        LoadFault::NoMemory
    }
}

/// The fault of the line.
pub(crate) fn bad_at(line: u64, cause: LoadCause) -> LoadFault
    ensures exact { result ≡ Bad line cause }
{
    LoadFault::Bad { line, cause }
}
