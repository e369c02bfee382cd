//! The numbers that the index names for a value.

ghost use Rattle.std.specs.Prelude.{◌≡◌, ◌++◌, ◌+◌, ◌<◌, ◌≤◌, List, length, map, IfOk, IfSome, IfNone};
ghost use Rattle.std.specs.Bool.{OnTrue, OnFalse};
ghost use Rattle.dir_tree.specs.tree.Numbered.{Numbered, IsNumberedTree};
ghost use Rattle.value_index.specs.Postings.{IsIndexed};
ghost use Rattle.value_index.specs.Holders.{most_holders, numbers_under, numbers_for, HasHolders, NamesNone};

use crate::hashes::{hash_of, is_indexed};
use crate::index::{Posting, ValueIndex};
use dir_tree::schema_tables::AttrId;
use dir_tree::{EntryNo, MOST_ENTRIES, NoMemory};
use std::alloc::Global;
use std::collections::BTreeSet;
use std::ops::Bound;

/// How many numbers are named for a value, at most.
pub const MOST_HOLDERS: usize = 128;

// Puts the numbers under the hash behind the others. Answers whether they are not too many.
fn put_numbers(
    postings: &BTreeSet<Posting>,
    hash: u32,
    numbers: &mut Vec<EntryNo>,
) -> Result<bool, NoMemory>
    requires fits { length numbers.old.items ≤ most_holders }
    ensures fits { length numbers.new.items ≤ most_holders }
    ensures ok { IfOk result (λ fit. OnTrue fit (map (λ number. number.0) numbers.new.items
        ≡ map (λ number. number.0) numbers.old.items ++ numbers_under hash postings.now.keys)) }
    ensures full { IfOk result (λ fit. OnFalse fit
        (most_holders < length numbers.old.items + length (numbers_under hash postings.now.keys))) }
{
    let first = Posting { hash, number: 0 };
    let end = Posting {
        hash,
        number: MOST_ENTRIES as u32,
    };
    for posting in postings.range((Bound::Included(first), Bound::Excluded(end))) {
        if numbers.len() == MOST_HOLDERS {
            return Ok(false);
        }
        numbers.push(EntryNo(posting.number))?;
    }
    Ok(true)
}

impl ValueIndex {
    /// Numbers among which each entry is that has a value of the type with the key, in the tree whose index this is. There
    /// may be others among them, of entries without the value or in no use, and a number may come twice. None where values
    /// of the type are not posted, as of objectClass, and where there would be more than 128 numbers. The error comes where
    /// memory is wanted.
    pub fn holders(
        &self,
        alloc: Global,
        kind: AttrId,
        key: &[u8],
    ) -> Result<Option<Vec<EntryNo>>, NoMemory>
        // No holder is missing.
        ensures holders { IfOk result (λ found. IfSome found (λ numbers. (rows : List Numbered)
            → IsNumberedTree rows → IsIndexed self.now rows → HasHolders kind.0 key.now rows numbers.items)) }

        // What is named is posted, and is not too much.
        ensures ok { IfOk result (λ found. IfSome found (λ numbers.
            map (λ number. number.0) numbers.items ≡ numbers_for kind.0 key.now self.now)) }
        ensures fits { IfOk result (λ found. IfSome found (λ numbers. length numbers.items ≤ most_holders)) }
        ensures none { IfOk result (λ found. IfNone found (NamesNone kind.0 key.now self.now)) }
    {
        if !is_indexed(kind) {
            return Ok(None);
        }
        let mut numbers = Vec::new(alloc);
        if !put_numbers(&self.postings, hash_of(kind, key), &mut numbers)? {
            return Ok(None);
        }
        if !put_numbers(&self.postings, hash_of(kind, &[]), &mut numbers)? {
            return Ok(None);
        }
        Ok(Some(numbers))
    }
}
