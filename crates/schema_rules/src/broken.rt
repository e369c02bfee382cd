//! Why an entry may not stand in a tree.

use aci_item::EntryRule;
use std::alloc::AllocError;
use thiserror::Error;

/// No memory was left.
pub type NoMemory = AllocError;

/// Why an entry is refused.
#[derive(Clone, Copy, Debug, PartialEq, Error)]
pub enum Broken {
    /// The first rule that the entry breaks.
    #[error("rule {}", .0.number())]
    Rule(EntryRule),
    /// There was no memory.
    #[error("no memory")]
    NoMemory,
}
