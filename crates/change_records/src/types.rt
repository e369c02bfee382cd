//! What a file of changes says.

use ldap_msg::Request;
use std::alloc::AllocError;

/// The one error of the calls that append: there was no memory.
pub type NoMemory = AllocError;

/// A change, and the number of the first line of its record, from 1.
#[derive(Drop)]
pub struct RecordedChange {
    pub line: u64,
    pub change: Request,
}

/// What a file of changes says.
#[derive(Drop)]
pub struct ChangeFile {
    /// The SHA-256 of the data file whose entries were changed.
    pub digest: [u8; 32],
    /// The changes, in their order: each a modify, an add, a delete or a modify DN.
    pub changes: Vec<RecordedChange>,
}
