//! What a data file gives: positions, records and their lines, and why a line is bad.

ghost use Rattle.std.specs.Prelude.{◌≡◌};
ghost use Rattle.ldif_records.specs.declared.types.BadLine.TheVariants.{NoMemory};

use crate::kind_text::KindText;
use dir_tree::plain_values::Octets;
use std::alloc::{AllocError, AllocFailed};
use std::marker::Model;
use thiserror::Error;

/// No memory was left.
pub type NoMemory = AllocError;

/// A place in a file, between two lines: how many octets stand before it, and the number of the line after it,
/// from 1.
#[derive(Clone, Copy, Debug, PartialEq, Eq)]
pub struct Position {
    pub offset: usize,
    pub line: u64,
}

/// A line of a record after the first: its number, from 1, which is that of the first line where it is folded, its
/// type as it is written, and the octets of its value.
#[derive(Debug, Drop)]
pub struct RecordLine {
    pub line: u64,
    pub kind: KindText,
    pub value: Octets,
}

/// Lines of a record. Contracts see them as the list of the lines.
#[derive(Debug, Drop)]
pub struct RecordLines {
    lines: Vec<RecordLine>,
}

impl Model for RecordLines {
    ghost use Rattle.std.specs.Prelude.{List};
    ghost use Rattle.ldif_records.specs.declared.types.RecordLine.{RecordLine};

    ghost Value = { List RecordLine };

    ghost view = { λ found. found.lines.items };
}

impl RecordLines {
    /// Takes the lines of a vector, without memory.
    pub fn from_vec(lines: Vec<RecordLine>) -> RecordLines
        ensures exact { result ≡ lines.items }
    {
        RecordLines { lines }
    }

    /// Gives the lines back as a vector, without memory.
    pub fn into_vec(self) -> Vec<RecordLine>
        ensures exact { result.items ≡ self }
    {
        let RecordLines { lines } = self;
        lines
    }

    /// Lends the lines.
    pub fn as_slice(&self) -> &[RecordLine]
        ensures exact { result.now ≡ self.now }
    {
        self.lines.as_slice()
    }
}

/// A record: the number of its first line, the octets of the name that this line gives, and its other lines.
#[derive(Debug, Drop)]
pub struct Record {
    pub line: u64,
    pub name: Octets,
    pub lines: RecordLines,
}

/// Why a line is bad, in the order in which the causes are tried.
#[derive(Clone, Copy, Debug, PartialEq, Eq)]
pub enum LineCause {
    /// The line is of no form that may stand there, or is the only line of its record.
    Syntax,
    /// The type is `changetype`: the record changes something.
    Changetype,
    /// The value is not padded base64 (RFC 4648 section 4), with no bits left over.
    Base64,
}

/// Why there is no next record.
#[derive(Clone, Copy, Debug, PartialEq, Eq, Error)]
pub enum BadLine {
    /// The first bad line of the record, from 1, and why it is bad.
    #[error("bad data line {line}")]
    Bad { line: u64, cause: LineCause },
    /// There was no memory for the record.
    #[error("no memory for the record")]
    NoMemory,
}

impl From<AllocError> for BadLine {
    ghost from_gives = { λ _ bad. bad ≡ NoMemory };

    fn from(_error: AllocError) -> BadLine {
        BadLine::NoMemory
    }
}

impl<T: Drop> From<AllocFailed<T>> for BadLine {
    ghost from_gives = { λ _ bad. bad ≡ NoMemory };

    fn from(_error: AllocFailed<T>) -> BadLine {
        BadLine::NoMemory
    }
}
