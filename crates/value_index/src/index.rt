//! The index, as it is kept.

ghost use Rattle.std.specs.Prelude.{◌≡◌, []};

use std::alloc::Global;
use std::collections::BTreeSet;
use std::marker::Model;

/// The number of an entry, posted under a hash.
#[derive(Clone, Copy, PartialEq, Eq, PartialOrd, Ord, Debug, Drop)]
pub struct Posting {
    /// The hash of an attribute type with the key of a value, or of the type alone.
    pub hash: u32,
    /// The number of the entry.
    pub number: u32,
}

/// An index of the values of attributes, beside a tree. Contracts see the postings.
#[derive(Drop)]
pub struct ValueIndex {
    pub(crate) postings: BTreeSet<Posting>,
}

impl Model for ValueIndex {
    ghost use Rattle.std.specs.Prelude.{List};
    ghost use Rattle.value_index.specs.declared.index.Posting.{Posting};

    ghost Value = { List Posting };

    ghost view = { λ index. index.postings.keys };
}

impl ValueIndex {
    /// An index without postings. Takes no memory.
    pub fn new(alloc: Global) -> ValueIndex
        ensures empty { result ≡ [] }
    {
        ValueIndex {
            postings: BTreeSet::new(alloc),
        }
    }
}
