//! How a decision came about.

use dir_tree::EntryNo;

/// How many tuples count for an entry, and how many are left by each of the six filters (X.501 18.8.2 to 18.8.4).
#[derive(Clone, Copy, PartialEq, Eq, Debug)]
pub struct Counts {
    /// All that count.
    pub listed: usize,
    /// Those of the requester's user classes and level.
    pub users: usize,
    /// Of these, those that cover the item.
    pub item: usize,
    /// Of these, those with the permission that extend to what is added.
    pub permission: usize,
    /// Of these, those of the highest precedence.
    pub precedence: usize,
    /// Of these, those of the most specific user class.
    pub class: usize,
    /// Of these, those that name the item explicitly, or all where none does.
    pub explicit: usize,
}

/// A tuple that the last filter leaves.
#[derive(Drop)]
pub struct KeptTuple {
    /// The entry that holds its item.
    pub source: EntryNo,
    /// The item's identificationTag.
    pub tag: String,
    /// Whether it grants; else it denies.
    pub grants: bool,
}

/// A decision, filter by filter.
#[derive(Drop)]
pub struct Steps {
    pub counts: Counts,
    /// Those that the last filter leaves, in their order.
    pub kept: Vec<KeptTuple>,
    /// Whether access is granted.
    pub granted: bool,
}
