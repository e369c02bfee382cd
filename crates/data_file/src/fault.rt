//! Why a data file isn't accepted.

use ldif_load::LoadCause;
use ldif_load::ldif_records::LineCause;
use std::alloc::AllocError;
use thiserror::Error;

/// No memory was left.
pub type NoMemory = AllocError;

/// What is wrong with a file at its first bad line.
#[derive(Clone, Copy, Debug, PartialEq, Error)]
pub enum DataCause {
    /// The line has no good form.
    #[error("a bad line")]
    Line(LineCause),
    /// The record isn't loaded.
    #[error("a bad record: {0}")]
    Record(LoadCause),
}

/// Why a file isn't loaded.
#[derive(Clone, Copy, Debug, PartialEq, Error)]
pub enum DataFault {
    /// The first bad line, from 1, and what is wrong with it.
    #[error("bad data line {line}: {cause}")]
    Bad { line: u64, cause: DataCause },
    /// There was no memory.
    #[error("no memory")]
    NoMemory,
}
