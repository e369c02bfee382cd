//! The answers of this crate.

use std::alloc::AllocError;

/// The one error of the calls that append: there was no memory.
pub type NoMemory = AllocError;

/// What stands at the front of some octets (X.690 8.1.2 and 8.1.3).
#[derive(Clone, Copy, Debug, PartialEq, Eq)]
pub enum Header {
    /// A whole header: its tag octet, how many octets it has, and how many octets of content follow it.
    Head { tag: u8, head: usize, len: usize },
    /// The front of a header, and less than the whole of one.
    Short,
    /// No header, however the octets go on.
    Bad,
}
