//! Postings put in.

ghost use Rattle.std.specs.Prelude.{◌≡◌, [], ◌∷◌, OnOk, OnErr};
ghost use Rattle.value_index.specs.Postings.{AllStay, IsAdded, OthersStay};

use crate::index::{Posting, ValueIndex};
use dir_tree::{EntryNo, NoMemory};
use std::collections::BTreeSet;

// Posts the number under the hash.
fn add_one(postings: &mut BTreeSet<Posting>, number: EntryNo, hash: u32) -> Result<(), NoMemory>
    ensures ok { OnOk result (IsAdded number.0 (hash ∷ []) postings.old.keys postings.new.keys) }
    ensures err { OnErr result (postings.new.keys ≡ postings.old.keys) }
{
    postings.insert(Posting {
        hash,
        number: number.0,
    })?;
    Ok(())
}

// Posts the number under each of the hashes.
fn add_each(
    postings: &mut BTreeSet<Posting>,
    number: EntryNo,
    hashes: &[u32],
) -> Result<(), NoMemory>
    ensures ok { OnOk result (IsAdded number.0 hashes.now postings.old.keys postings.new.keys) }
    ensures kept { AllStay postings.old.keys postings.new.keys }
    ensures others { OthersStay number.0 postings.old.keys postings.new.keys }
{
    for hash in hashes {
        add_one(postings, number, *hash)?;
    }
    Ok(())
}

impl ValueIndex {
    /// Posts the number under each of the hashes. The error comes where memory is wanted: then it may be posted under some
    /// of them, and all else is as before.
    pub fn add(&mut self, number: EntryNo, hashes: &[u32]) -> Result<(), NoMemory>
        ensures ok { OnOk result (IsAdded number.0 hashes.now self.old self.new) }

        // Whether there was memory or not.
        ensures kept { AllStay self.old self.new }
        ensures others { OthersStay number.0 self.old self.new }
    {
        add_each(&mut self.postings, number, hashes)
    }
}
