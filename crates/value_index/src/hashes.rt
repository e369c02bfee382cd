//! The hashes under which an entry is posted.

ghost use Rattle.std.specs.Prelude.{◌≡◌, ◌++◌, IfOk, OnOk};
ghost use Rattle.value_index.specs.Hashes.{hash_step, hash_of, is_indexed, value_hashes, attribute_hashes, hashes_of};

use dir_tree::dn_names::Value;
use dir_tree::schema_tables::AttrId;
use dir_tree::{Entry, NoMemory};
use std::alloc::Global;

/// How many values of an attribute are posted each, at most: an attribute that has more is posted once.
pub(crate) const MOST_VALUES: usize = 32;

// The hash of what was hashed and an octet more.
#[tactic(auto, unfolding(crate::specs::Hashes::hash_step))]
fn hash_step(hash: u32, octet: u8) -> u32
    ensures exact { result ≡ hash_step hash octet }
{
    ((hash as u64 * 16_777_619 + octet as u64) % 4_294_967_296) as u32
}

/// The hash of the type and the key; of the type alone where the key is empty. Takes no memory.
#[tactic(auto, unfolding(crate::specs::Hashes::hash_of))]
pub(crate) fn hash_of(kind: AttrId, key: &[u8]) -> u32
    ensures exact { result ≡ hash_of kind.0 key.now }
{
    let mut hash = hash_step(2_166_136_261, kind.0);
    for octet in key {
        hash = hash_step(hash, *octet);
    }
    hash
}

/// Whether values of the type are posted.
pub(crate) fn is_indexed(kind: AttrId) -> bool
    ensures exact { result ≡ is_indexed kind.0 }
{
    kind.0 != AttrId::OBJECT_CLASS.0
}

// Puts the hashes of an attribute whose type is posted behind the others.
fn put_value_hashes(kind: AttrId, values: &[Value], hashes: &mut Vec<u32>) -> Result<(), NoMemory>
    ensures ok { OnOk result (hashes.new.items
        ≡ hashes.old.items ++ value_hashes (record { kind = kind.0; values = values.now })) }
{
    if values.len() > MOST_VALUES {
        hashes.push(hash_of(kind, &[]))?;
        return Ok(());
    }
    for value in values {
        hashes.push(hash_of(kind, value.key()))?;
    }
    Ok(())
}

// Puts the hashes of an attribute behind the others.
fn put_attribute_hashes(
    kind: AttrId,
    values: &[Value],
    hashes: &mut Vec<u32>,
) -> Result<(), NoMemory>
    ensures ok { OnOk result (hashes.new.items
        ≡ hashes.old.items ++ attribute_hashes (record { kind = kind.0; values = values.now })) }
{
    if is_indexed(kind) {
        put_value_hashes(kind, values, hashes)?;
    }
    Ok(())
}

/// Puts the hashes of the entry behind the others.
pub(crate) fn put_hashes(entry: &Entry, hashes: &mut Vec<u32>) -> Result<(), NoMemory>
    ensures ok { OnOk result (hashes.new.items ≡ hashes.old.items ++ hashes_of entry.now) }
{
    for (kind, values) in entry.attributes() {
        put_attribute_hashes(kind, values, hashes)?;
    }
    Ok(())
}

/// The hashes under which the entry is posted: one for each value of an attribute of 32 values at most, and one for an
/// attribute of more; none for objectClass. The error comes where memory is wanted.
pub fn hashes_of(alloc: Global, entry: &Entry) -> Result<Vec<u32>, NoMemory>
    ensures ok { IfOk result (λ hashes. hashes.items ≡ hashes_of entry.now) }
{
    let mut hashes = Vec::new(alloc);
    put_hashes(entry, &mut hashes)?;
    Ok(hashes)
}
