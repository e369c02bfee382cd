//! Why a text is no filter that can be read.

ghost use Rattle.std.specs.Prelude.{◌≡◌};
ghost use Rattle.filter_text.specs.declared.error.FilterFault.TheVariants.{NoMemory};

use std::alloc::{AllocError, AllocFailed};
use thiserror::Error;

/// Why a text is no filter that can be read.
#[derive(Clone, Copy, Debug, PartialEq, Eq, Error)]
pub enum FilterFault {
    /// The octets are the text of no filter; `place` counts the octets of the longest front with which the text
    /// of some filter begins.
    #[error("the octets leave the grammar of filters at {place}")]
    Text { place: usize },
    /// More than 64 filters are open at once in a front with which the text of some filter begins.
    #[error("the filter is too deep")]
    TooDeep,
    /// Memory for the filter is refused.
    #[error("no memory for the filter")]
    NoMemory,
}

impl From<AllocError> for FilterFault {
    ghost from_gives = { λ _ error. error ≡ NoMemory };

    fn from(_error: AllocError) -> FilterFault {
        FilterFault::NoMemory
    }
}

impl<T: Drop> From<AllocFailed<T>> for FilterFault {
    ghost from_gives = { λ _ error. error ≡ NoMemory };

    fn from(_error: AllocFailed<T>) -> FilterFault {
        FilterFault::NoMemory
    }
}
