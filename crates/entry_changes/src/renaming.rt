//! Renames of an entry.

ghost use Rattle.std.specs.Prelude.{◌≡◌, IfOk, if◌then◌else◌};
ghost use Rattle.dir_tree.specs.attributes.Changes.{without_value};
ghost use Rattle.entry_changes.specs.Renaming.{is_same_pair, has_pair, are_among, is_same_rdn, gone_among, without_pairs, renamed_entry};

use crate::fault::NoMemory;
use dir_tree::Entry;
use dir_tree::dn_names::{Dn, Pair};
use ldif_load::add_own_values;
use std::alloc::Global;

// Whether the pairs have one type and values that match.
fn is_same_pair(one: &Pair, other: &Pair) -> bool
    ensures exact { result ≡ is_same_pair one.now other.now }
{
    one.kind().0 == other.kind().0 && one.value().key() == other.value().key()
}

// Whether one of the pairs is the same.
fn has_pair(pair: &Pair, pairs: &[Pair]) -> bool
    ensures exact { result ≡ has_pair pair.now pairs.now }
{
    pairs.iter().any(|other| is_same_pair(pair, other))
}

// Whether each of the pairs is among the others.
fn are_among(pairs: &[Pair], others: &[Pair]) -> bool
    ensures exact { result ≡ are_among pairs.now others.now }
{
    pairs.iter().all(|pair| has_pair(pair, others))
}

/// Whether the RDNs of these pairs are the same (X.501 9.3): the pairs of each are among the other's, in any order and
/// spelling.
pub fn is_same_rdn(one: &[Pair], other: &[Pair]) -> bool
    ensures exact { result ≡ is_same_rdn one.now other.now }
{
    are_among(one, other) && are_among(other, one)
}

// Takes out the value of the pair, unless that is among the new ones.
fn drop_pair(entry: &mut Entry, pair: &Pair, new: &[Pair])
    ensures exact { entry.new ≡ (if has_pair pair.now new.now then entry.old
        else without_value pair.now.kind pair.now.value.key entry.old) }
{
    if !has_pair(pair, new) {
        let _found = entry.drop_value(pair.kind(), pair.value().key());
    }
}

// Takes out the values of those old pairs that are not among the new ones.
fn drop_pairs(entry: &mut Entry, old: &[Pair], new: &[Pair])
    ensures exact { entry.new ≡ without_pairs entry.old (gone_among old.now new.now) }
{
    for pair in old {
        drop_pair(entry, pair, new);
    }
}

/// The entry under another name (RFC 4511 4.9, X.511 11.4): the new RDN's values come, last, where the entry lacks them,
/// and where the old ones are to go, those go that the new RDN has not. The entry itself stays as it is. The error comes
/// where memory is wanted.
#[tactic(auto, unfolding(crate::specs::Renaming::renamed_entry))]
pub fn rename_entry(
    alloc: Global,
    entry: &Entry,
    name: Dn,
    delete_old: bool,
) -> Result<Entry, NoMemory>
    ensures ok { IfOk result (λ renamed. renamed ≡ renamed_entry name delete_old entry.now) }
{
    let mut renamed = entry.copy(alloc)?;
    renamed.set_name(name.copy(alloc)?);
    add_own_values(alloc, &mut renamed)?;
    if delete_old {
        drop_pairs(&mut renamed, entry.name().last_rdn(), name.last_rdn());
    }
    Ok(renamed)
}
