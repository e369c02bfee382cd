//! Why a tree does not take a change.

use thiserror::Error;

/// Why an entry is not put in.
#[derive(Clone, Copy, PartialEq, Eq, Debug, Drop, Error)]
pub enum InsertRefusal {
    /// An entry has the name.
    #[error("the name is taken")]
    NameTaken,
    /// The tree has entries, and the superior is none of them.
    #[error("the superior is not an entry")]
    NoSuperior,
    /// The tree has 200,000 entries.
    #[error("the tree is full")]
    Full,
    /// There is no memory.
    #[error("no memory")]
    NoMemory,
}

/// Why an entry is not taken out.
#[derive(Clone, Copy, PartialEq, Eq, Debug, Drop, Error)]
pub enum RemoveRefusal {
    /// The number is not in use.
    #[error("the number is not in use")]
    Absent,
    /// An entry stands below.
    #[error("an entry stands below")]
    HasBelow,
    /// There is no memory.
    #[error("no memory")]
    NoMemory,
}

/// Why another entry does not take an entry's place.
#[derive(Clone, Copy, PartialEq, Eq, Debug, Drop, Error)]
pub enum ReplaceRefusal {
    /// The number is not in use.
    #[error("the number is not in use")]
    Absent,
    /// Another entry has the new name.
    #[error("the name is taken")]
    NameTaken,
    /// The new name is empty, or the entry is not the suffix and the new superior is no other entry.
    #[error("the superior is not an entry")]
    NoSuperior,
    /// Entries stand below, and the new name is not the same.
    #[error("an entry stands below")]
    HasBelow,
    /// There is no memory.
    #[error("no memory")]
    NoMemory,
}
