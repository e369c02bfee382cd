//! The answers and faults of the outside.

ghost use Rattle.std.specs.Prelude.{◌≡◌};
ghost use Rattle.wire_io.specs.declared.answers.FetchFault.TheVariants as fetch_fault;
ghost use Rattle.wire_io.specs.declared.answers.PutFault.TheVariants as put_fault;
ghost use Rattle.wire_io.specs.declared.answers.NextFault.TheVariants as next_fault;
ghost use Rattle.wire_io.specs.declared.answers.ReadFault.TheVariants as read_fault;

use std::alloc::AllocError;
use thiserror::Error;

/// Want of memory.
pub type NoMemory = AllocError;

/// Why a shelf gave nothing of a file.
#[derive(Clone, Copy, Debug, PartialEq, Error)]
pub enum FetchFault {
    /// The shelf knows its files, and has none of this name.
    #[error("no such file")]
    Absent,
    /// The shelf could not read; its count of faults rose.
    #[error("the file could not be read")]
    Failed,
    /// There was no memory.
    #[error("no memory")]
    NoMemory,
}

/// Why a sink took nothing.
#[derive(Clone, Copy, Debug, PartialEq, Error)]
pub enum PutFault {
    /// The sink could not write; its count of faults rose.
    #[error("the octets could not be written")]
    Failed,
    /// There was no memory.
    #[error("no memory")]
    NoMemory,
}

/// Why a link did not open, gave no event, or stored nothing that is sure.
#[derive(Clone, Copy, Debug, PartialEq, Error)]
pub enum NextFault {
    /// The link or its store failed; the count of that one's faults rose.
    #[error("the link failed")]
    Failed,
    /// There was no memory.
    #[error("no memory")]
    NoMemory,
}

/// Why a file was not read whole.
#[derive(Clone, Copy, Debug, PartialEq, Error)]
pub enum ReadFault {
    /// The shelf knows its files, and has none of this name.
    #[error("no such file")]
    Absent,
    /// The shelf could not read; its count of faults rose.
    #[error("the file could not be read")]
    Failed,
    /// The file has more octets than the limit; `line` is the line, counted from 1, of the first
    /// octet past it.
    #[error("the file is too long from line {line} on")]
    TooLong { line: u64 },
    /// There was no memory.
    #[error("no memory")]
    NoMemory,
}

/// An event that a link gives. Connections have numbers, each opened at most once.
#[derive(Clone, Copy, Debug, PartialEq)]
pub enum Heard {
    /// The connection was opened.
    Opened(u32),
    /// So many octets of the connection stand at the front of the buffer.
    Bytes(u32, usize),
    /// The peer ended the connection.
    Ended(u32),
    /// The connection, which is on hold, may take octets again.
    Ready(u32),
    /// Nothing happened for a while.
    Idle,
    /// No further event comes.
    Stop,
}

/// What a link did with the octets that it was given for a connection.
#[derive(Clone, Copy, Debug, PartialEq)]
pub enum Took {
    /// It took so many octets from the front, at least one.
    Took(usize),
    /// It takes none now.
    Later,
    /// The connection is lost; the link's count of lost connections rose.
    Gone,
    /// There was no memory, and it took none.
    NoMemory,
}

impl From<AllocError> for FetchFault {
    ghost from_gives = { λ _ fault. fault ≡ fetch_fault.NoMemory };

    fn from(_error: AllocError) -> FetchFault {
        FetchFault::NoMemory
    }
}

impl From<AllocError> for PutFault {
    ghost from_gives = { λ _ fault. fault ≡ put_fault.NoMemory };

    fn from(_error: AllocError) -> PutFault {
        PutFault::NoMemory
    }
}

impl From<AllocError> for NextFault {
    ghost from_gives = { λ _ fault. fault ≡ next_fault.NoMemory };

    fn from(_error: AllocError) -> NextFault {
        NextFault::NoMemory
    }
}

impl From<AllocError> for ReadFault {
    ghost from_gives = { λ _ fault. fault ≡ read_fault.NoMemory };

    fn from(_error: AllocError) -> ReadFault {
        ReadFault::NoMemory
    }
}
