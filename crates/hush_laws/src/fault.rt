//! Where a hush is broken.

use crate::part::Part;

/// The first place that breaks a hush.
#[derive(Clone, Copy, Debug, PartialEq, Eq)]
pub struct Fault {
    /// How many events had been heard, that in whose course the place lies included.
    pub heard: u64,
    /// The first part that it breaks.
    pub part: Part,
}
