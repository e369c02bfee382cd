//! The index of a tree.

ghost use Rattle.std.specs.Prelude.{◌≡◌, IfOk};
ghost use Rattle.value_index.specs.Postings.{IsIndexed};

use crate::hashes::put_hashes;
use crate::index::ValueIndex;
use dir_tree::{EntryNo, NoMemory, Tree};
use std::alloc::Global;

/// The index of the tree. The error comes where memory is wanted.
pub fn index_of(alloc: Global, tree: &Tree) -> Result<ValueIndex, NoMemory>
    ensures ok { IfOk result (λ index. IsIndexed index tree.now) }
{
    let mut index = ValueIndex::new(alloc);
    let mut hashes = Vec::new(alloc);
    for number in 0..tree.bound() {
        let number = EntryNo(number as u32);
        if let Some(entry) = tree.at(number) {
            hashes.clear();
            put_hashes(entry, &mut hashes)?;
            index.add(number, &hashes)?;
        }
    }
    Ok(index)
}
