//! The attributes of an entry, kept by their types.

ghost use Rattle.std.specs.Prelude.{◌≡◌, ◌++◌, [], ◌∷◌, true, false, nat_lt, filter, map, length, IfOk, OnOk, OnErr};
ghost use Rattle.dir_tree.specs.Entry.{values_of, has_key, has_kind};
ghost use Rattle.dir_tree.specs.attributes.Changes.{put_value, set_in, cut_attribute, is_filled, other_attributes};
ghost use Rattle.dir_tree.specs.attributes.Rows.{attributes_of};

use dn_names::Value;
use indexmap::IndexMap;
use schema_tables::AttrId;
use std::alloc::{AllocError, Global};
use value_lists::Values;

/// Puts the value last of its type, and a new type last.
pub(crate) fn put_value(
    attributes: &mut IndexMap<AttrId, Values>,
    kind: AttrId,
    value: Value,
) -> Result<(), AllocError>
    ensures ok { OnOk result (attributes_of attributes.new.entries
        ≡ put_value kind.0 value (attributes_of attributes.old.entries)) }
    ensures err { OnErr result (attributes_of attributes.new.entries ≡ attributes_of attributes.old.entries) }
{
    if has_kind(attributes, kind) {
        put_last(attributes, kind, value)
    } else {
        put_first(attributes, kind, value)
    }
}

/// Puts the value last of its type, which is there.
fn put_last(
    attributes: &mut IndexMap<AttrId, Values>,
    kind: AttrId,
    value: Value,
) -> Result<(), AllocError>
    requires { has_kind kind.0 (attributes_of attributes.old.entries) ≡ true }
    ensures ok { OnOk result (attributes_of attributes.new.entries
        ≡ put_value kind.0 value (attributes_of attributes.old.entries)) }
    ensures err { OnErr result (attributes_of attributes.new.entries ≡ attributes_of attributes.old.entries) }
{
    let alloc = *attributes.allocator();
    if let Some(values) = attributes.get_mut(&kind) {
        values.push(alloc, value)?;
    }
    Ok(())
}

/// Puts the value in an attribute of its own at the end: its type is not there.
fn put_first(
    attributes: &mut IndexMap<AttrId, Values>,
    kind: AttrId,
    value: Value,
) -> Result<(), AllocError>
    requires { has_kind kind.0 (attributes_of attributes.old.entries) ≡ false }
    ensures ok { OnOk result (attributes_of attributes.new.entries
        ≡ put_value kind.0 value (attributes_of attributes.old.entries)) }
    ensures err { OnErr result (attributes_of attributes.new.entries ≡ attributes_of attributes.old.entries) }
{
    put_attribute(attributes, kind, Values::one(value))
}

/// Puts an attribute at the end: its type is not there.
fn put_attribute(
    attributes: &mut IndexMap<AttrId, Values>,
    kind: AttrId,
    values: Values,
) -> Result<(), AllocError>
    requires { has_kind kind.0 (attributes_of attributes.old.entries) ≡ false }
    ensures ok { OnOk result (attributes_of attributes.new.entries
        ≡ attributes_of attributes.old.entries ++ record { kind = kind.0; values = values } ∷ []) }
    ensures err { OnErr result (attributes_of attributes.new.entries ≡ attributes_of attributes.old.entries) }
{
    attributes.insert(kind, values)?;
    Ok(())
}

/// Whether there is an attribute of the type.
pub(crate) fn has_kind(attributes: &IndexMap<AttrId, Values>, kind: AttrId) -> bool
    ensures exact { result ≡ has_kind kind.0 (attributes_of attributes.now.entries) }
{
    attributes.contains_key(&kind)
}

/// Whether a value of the type has the key.
pub(crate) fn has_value(attributes: &IndexMap<AttrId, Values>, kind: AttrId, key: &[u8]) -> bool
    ensures exact { result ≡ has_key key.now (values_of kind.0 (attributes_of attributes.now.entries)) }
{
    match attributes.get(&kind) {
        Some(values) => values.has_key(key),
        None => false,
    }
}

/// Gives the attribute of the type these values; a new one comes last.
pub(crate) fn set_values(
    attributes: &mut IndexMap<AttrId, Values>,
    kind: AttrId,
    values: Values,
) -> Result<(), AllocError>
    ensures ok { OnOk result (attributes_of attributes.new.entries
        ≡ set_in kind.0 values (attributes_of attributes.old.entries)) }
    ensures err { OnErr result (attributes_of attributes.new.entries ≡ attributes_of attributes.old.entries) }
{
    attributes.insert(kind, values)?;
    Ok(())
}

/// Takes the values that have the key out of the attribute of the type, which may be left with none.
pub(crate) fn cut_values(attributes: &mut IndexMap<AttrId, Values>, kind: AttrId, key: &[u8])
    ensures exact { attributes_of attributes.new.entries
        ≡ map (cut_attribute kind.0 key.now) (attributes_of attributes.old.entries) }
{
    let alloc = *attributes.allocator();
    if let Some(values) = attributes.get_mut(&kind) {
        values.drop_key(alloc, key);
    }
}

/// Takes out the attributes that have no values.
pub(crate) fn drop_empty(attributes: &mut IndexMap<AttrId, Values>)
    ensures exact { attributes_of attributes.new.entries
        ≡ filter is_filled (attributes_of attributes.old.entries) }
{
    attributes.retain(
        |_kind: &AttrId, values: &mut Values| -> bool
            ensures { (result ≡ nat_lt 0 (length values.old)) × (values.new ≡ values.old) }
        { !values.is_empty() },
    );
}

/// Takes out the attribute of the type. Answers whether there was one.
pub(crate) fn drop_kind(attributes: &mut IndexMap<AttrId, Values>, kind: AttrId) -> bool
    ensures found { result ≡ has_kind kind.0 (attributes_of attributes.old.entries) }
    ensures exact { attributes_of attributes.new.entries
        ≡ other_attributes kind.0 (attributes_of attributes.old.entries) }
{
    // `len` says that the keys are distinct.
    let _count = attributes.len();
    attributes.shift_remove(&kind).is_some()
}

/// The same attributes in memory of their own.
pub(crate) fn copy_attributes(
    alloc: Global,
    attributes: &IndexMap<AttrId, Values>,
) -> Result<IndexMap<AttrId, Values>, AllocError>
    ensures ok { IfOk result (λ copies. attributes_of copies.entries ≡ attributes_of attributes.now.entries) }
{
    let mut copies = IndexMap::with_capacity(alloc, attributes.len())?;
    for (kind, values) in attributes.iter() {
        put_attribute(&mut copies, *kind, values.copy(alloc)?)?;
    }
    Ok(copies)
}
