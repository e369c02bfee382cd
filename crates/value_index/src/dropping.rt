//! Postings taken out.

ghost use Rattle.std.specs.Prelude.{◌≡◌, [], ◌∷◌};
ghost use Rattle.value_index.specs.Hashes.{has_hash, hashes_of, attribute_hashes, value_hashes};
ghost use Rattle.value_index.specs.Postings.{IsDropped};

use crate::hashes::{MOST_VALUES, hash_of, is_indexed};
use crate::index::{Posting, ValueIndex};
use dir_tree::dn_names::Value;
use dir_tree::schema_tables::AttrId;
use dir_tree::{Entry, EntryNo};
use std::collections::BTreeSet;

// Whether the hash is one of them: looked for at its likely place first.
fn has_hash(hash: u32, hashes: &[u32], place: usize) -> bool
    ensures exact { result ≡ has_hash hash hashes.now }
{
    if let Some(other) = hashes.get(place) {
        if *other == hash {
            return true;
        }
    }
    hashes.iter().any(|other| *other == hash)
}

// Takes the number out of those under the hash.
fn drop_one(postings: &mut BTreeSet<Posting>, number: EntryNo, hash: u32)
    ensures exact { IsDropped number.0 (hash ∷ []) [] postings.old.keys postings.new.keys }
{
    postings.remove(&Posting {
        hash,
        number: number.0,
    });
}

// Takes the number out of those under the hash, unless that is kept; its likely place is given.
fn drop_unkept(
    postings: &mut BTreeSet<Posting>,
    number: EntryNo,
    hash: u32,
    kept: &[u32],
    place: usize,
)
    ensures exact { IsDropped number.0 (hash ∷ []) kept.now postings.old.keys postings.new.keys }
{
    if !has_hash(hash, kept, place) {
        drop_one(postings, number, hash);
    }
}

// Takes the number out of those under the hashes that are not kept.
fn drop_each(postings: &mut BTreeSet<Posting>, number: EntryNo, hashes: &[u32], kept: &[u32])
    ensures exact { IsDropped number.0 hashes.now kept.now postings.old.keys postings.new.keys }
{
    for place in 0..hashes.len() {
        drop_unkept(postings, number, hashes[place], kept, place);
    }
}

// Takes the number out of those under the hashes of an attribute whose type is posted.
fn drop_values(postings: &mut BTreeSet<Posting>, number: EntryNo, kind: AttrId, values: &[Value])
    ensures exact { IsDropped number.0 (value_hashes (record { kind = kind.0; values = values.now })) []
        postings.old.keys postings.new.keys }
{
    if values.len() > MOST_VALUES {
        drop_one(postings, number, hash_of(kind, &[]));
        return;
    }
    for value in values {
        drop_one(postings, number, hash_of(kind, value.key()));
    }
}

// Takes the number out of those under the hashes of an attribute.
fn drop_attribute(postings: &mut BTreeSet<Posting>, number: EntryNo, kind: AttrId, values: &[Value])
    ensures exact { IsDropped number.0 (attribute_hashes (record { kind = kind.0; values = values.now })) []
        postings.old.keys postings.new.keys }
{
    if is_indexed(kind) {
        drop_values(postings, number, kind, values);
    }
}

// Takes the number out of those under the hashes of the entry.
fn drop_entry(postings: &mut BTreeSet<Posting>, number: EntryNo, entry: &Entry)
    ensures exact { IsDropped number.0 (hashes_of entry.now) [] postings.old.keys postings.new.keys }
{
    for (kind, values) in entry.attributes() {
        drop_attribute(postings, number, kind, values);
    }
}

impl ValueIndex {
    /// Takes the number out of those under the hashes that are not kept. Takes no memory.
    pub fn drop_but(&mut self, number: EntryNo, hashes: &[u32], kept: &[u32])
        ensures exact { IsDropped number.0 hashes.now kept.now self.old self.new }
    {
        drop_each(&mut self.postings, number, hashes, kept);
    }

    /// Takes the number out of those under the hashes of the entry. Takes no memory.
    pub fn forget(&mut self, number: EntryNo, entry: &Entry)
        ensures exact { IsDropped number.0 (hashes_of entry.now) [] self.old self.new }
    {
        drop_entry(&mut self.postings, number, entry);
    }
}
