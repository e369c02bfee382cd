//! The values of an entry's own RDN.

ghost use Rattle.std.specs.Prelude.{◌≡◌, OnOk};
ghost use Rattle.std.specs.List.{list_all};
ghost use Rattle.dir_tree.specs.Entry.{has_key, values_of};
ghost use Rattle.ldif_load.specs.load.Loading.{with_pairs, with_own_values};

use crate::fault::NoMemory;
use dir_tree::Entry;
use dir_tree::dn_names::Pair;
use std::alloc::Global;

// Whether the entry has the value of the pair.
fn has_pair(entry: &Entry, pair: &Pair) -> bool
    ensures exact { result ≡ has_key pair.now.value.key (values_of pair.now.kind entry.now.attributes) }
{
    entry.has_value(pair.kind(), pair.value().key())
}

// Whether the entry has the values of all pairs.
fn has_pairs(entry: &Entry, pairs: &[Pair]) -> bool
    ensures exact { result
        ≡ list_all (λ pair. has_key pair.value.key (values_of pair.kind entry.now.attributes)) pairs.now }
{
    pairs.iter().all(|pair| has_pair(entry, pair))
}

// Adds those of the pairs' values that the entry lacks, last.
fn add_pairs(alloc: Global, entry: &mut Entry, pairs: &[Pair]) -> Result<(), NoMemory>
    ensures ok { OnOk result (entry.new ≡ with_pairs entry.old pairs.now) }
{
    for pair in pairs {
        let _added = entry.push(pair.kind(), pair.value().copy(alloc)?)?;
    }
    Ok(())
}

/// Adds those values of its own RDN that the entry lacks, last.
pub fn add_own_values(alloc: Global, entry: &mut Entry) -> Result<(), NoMemory>
    ensures ok { OnOk result (entry.new ≡ with_own_values entry.old) }
{
    // As nearly every record gives them, the name is mostly not copied.
    if has_pairs(entry, entry.name().last_rdn()) {
        return Ok(());
    }
    let name = entry.name().copy(alloc)?;
    add_pairs(alloc, entry, name.last_rdn())
}
