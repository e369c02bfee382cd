//! Values in a slice, and their keys.

ghost use Rattle.std.specs.Prelude.{◌≡◌, not, filter, IfOk};
ghost use Rattle.std.specs.List.{list_any};
ghost use Rattle.std.specs.Str.{bytes_eq};
ghost use Rattle.value_lists.specs.Orders.{key_at};

use dn_names::Value;
use std::alloc::{AllocError, Global};

/// The key of the value at the place; empty past the last value.
pub(crate) fn key_at(values: &[Value], place: u32) -> &[u8]
    ensures exact { result.now ≡ key_at values.now place }
{
    match values.get(place as usize) {
        Some(value) => value.key(),
        None => &[],
    }
}

/// Whether one of the values has the key: looks through all of them.
pub(crate) fn has_key(values: &[Value], key: &[u8]) -> bool
    ensures exact { result ≡ list_any (λ value. bytes_eq key.now value.key) values.now }
{
    values.iter().any(|value| key == value.key())
}

/// Takes out the values that have the key.
pub(crate) fn drop_key(values: &mut Vec<Value>, key: &[u8])
    ensures exact { values.new.items ≡ filter (λ value. not (bytes_eq key.now value.key)) values.old.items }
{
    values.retain(
        |value: &Value| -> bool
            ensures { result ≡ not (bytes_eq key.entry.now value.now.key) }
        { key != value.key() },
    );
}

/// The same values in memory of their own.
pub(crate) fn copy_values(alloc: Global, values: &[Value]) -> Result<Vec<Value>, AllocError>
    ensures ok { IfOk result (λ copies. copies.items ≡ values.now) }
{
    let mut copies = Vec::with_capacity(alloc, values.len())?;
    for value in values {
        copies.push(value.copy(alloc)?)?;
    }
    Ok(copies)
}
