//! The table of a requester's rights on an entry.

ghost use Rattle.std.specs.Prelude.{◌≡◌, ◌++◌, Some, None, IfOk, OnOk, OnErr, codes, flat_map, string_bytes};
ghost use Rattle.dir_tree.specs.schema_tables.Attributes.{name_of};
ghost use Rattle.dir_tree.specs.Entry.{EntryInformation};
ghost use Rattle.dir_tree.specs.tree.Numbered.{entry_of, entries_of};
ghost use Rattle.acdf_filters.specs.Asking.{protected_of};
ghost use Rattle.acdf_filters.specs.Asking as protected;
ghost use Rattle.certify.specs.RightsTable.{permission_text, granted_permissions, rights_line, value_words, value_lines, attribute_lines, rights_text, rights_at};

use crate::questions::kind_name;
use acdf_filters::aci_item::Permission;
use acdf_filters::{Item, Requester};
use dir_tree::dn_names::{Dn, Value};
use dir_tree::schema_tables::AttrId;
use dir_tree::{EntryNo, NoMemory};
use directory::{Asking, Dir, NumberedEntry, Target, find_entry};
use explanation::{asked_permissions, permission_name};
use std::alloc::Global;

// Writes a permission.
fn put_permission(permission: Permission, out: &mut String) -> Result<(), NoMemory>
    ensures ok { OnOk result (string_bytes out.new ≡ string_bytes out.old ++ permission_text permission) }
{
    out.push_str(" ")?;
    out.push_str(permission_name(permission))
}

// Writes those that are granted for the item.
fn put_granted<D: Dir>(
    target: &Target<'_, '_, D>,
    item: Item<'_>,
    out: &mut String,
) -> Result<(), NoMemory>
    ensures ok { OnOk result (string_bytes out.new ≡ string_bytes out.old ++ flat_map permission_text
        (granted_permissions (entries_of (D.rows target.now.asking.now.dir.now)) target.now.asking.now.who.now
        target.now.entry.now (protected_of item.entry))) }
{
    let permissions = asked_permissions();
    for permission in permissions {
        if target.allows(item, *permission) {
            put_permission(*permission, out)?;
        }
    }
    Ok(())
}

// Writes the line of the item.
fn put_rights<D: Dir>(
    target: &Target<'_, '_, D>,
    words: &str,
    item: Item<'_>,
    out: &mut String,
) -> Result<(), NoMemory>
    ensures ok { OnOk result (string_bytes out.new ≡ string_bytes out.old ++ rights_line
        (entries_of (D.rows target.now.asking.now.dir.now)) target.now.asking.now.who.now target.now.entry.now
        words.now (protected_of item.entry)) }
{
    out.push_str(words)?;
    put_granted(target, item, out)?;
    out.push_str("\n")
}

// The words of a type.
fn kind_words(alloc: Global, kind: AttrId) -> Result<String, NoMemory>
    ensures ok { IfOk result (λ text. string_bytes text ≡ codes "type " ++ name_of kind.0) }
{
    let name = kind_name(kind);
    let mut text = String::new(alloc);
    write!(text, "type {name}")?;
    Ok(text)
}

// The words of the value of the number.
fn value_words(alloc: Global, kind: AttrId, number: usize) -> Result<String, NoMemory>
    ensures ok { IfOk result (λ text. string_bytes text ≡ value_words kind.0 number) }
{
    let name = kind_name(kind);
    let mut text = String::new(alloc);
    write!(text, "value {name} {number}")?;
    Ok(text)
}

// Writes the line of a value, which has the number.
fn put_value<D: Dir>(
    target: &Target<'_, '_, D>,
    kind: AttrId,
    number: usize,
    value: &Value,
    out: &mut String,
) -> Result<(), NoMemory>
    ensures ok { OnOk result (string_bytes out.new ≡ string_bytes out.old ++ rights_line
        (entries_of (D.rows target.now.asking.now.dir.now)) target.now.asking.now.who.now target.now.entry.now
        (value_words kind.0 number) (protected.Value kind.0 value.now)) }
{
    let words = value_words(*out.allocator(), kind, number)?;
    put_rights(target, words.as_str(), Item::Value(kind, value), out)
}

// Writes those of the values of a type.
fn put_values<D: Dir>(
    target: &Target<'_, '_, D>,
    kind: AttrId,
    values: &[Value],
    out: &mut String,
) -> Result<(), NoMemory>
    ensures ok { OnOk result (string_bytes out.new ≡ string_bytes out.old ++ value_lines
        (entries_of (D.rows target.now.asking.now.dir.now)) target.now.asking.now.who.now target.now.entry.now
        kind.0 0 values.now) }
{
    for (number, value) in values.iter().enumerate() {
        put_value(target, kind, number, value, out)?;
    }
    Ok(())
}

// Writes the lines of an attribute.
fn put_attribute<D: Dir>(
    target: &Target<'_, '_, D>,
    kind: AttrId,
    values: &[Value],
    out: &mut String,
) -> Result<(), NoMemory>
    ensures ok { OnOk result (string_bytes out.new ≡ string_bytes out.old ++ attribute_lines
        (entries_of (D.rows target.now.asking.now.dir.now)) target.now.asking.now.who.now target.now.entry.now
        (record { kind = kind.0; values = values.now })) }
{
    let words = kind_words(*out.allocator(), kind)?;
    put_rights(target, words.as_str(), Item::Kind(kind), out)?;
    put_values(target, kind, values, out)
}

// Writes those of all attributes.
fn put_attributes<D: Dir>(target: &Target<'_, '_, D>, out: &mut String) -> Result<(), NoMemory>
    ensures ok { OnOk result (string_bytes out.new ≡ string_bytes out.old ++ flat_map (attribute_lines
        (entries_of (D.rows target.now.asking.now.dir.now)) target.now.asking.now.who.now target.now.entry.now)
        target.now.entry.now.attributes) }
{
    for (kind, values) in target.entry.attributes() {
        put_attribute(target, kind, values, out)?;
    }
    Ok(())
}

// The table of the target.
#[tactic(auto, unfolding(crate::specs::RightsTable::rights_text))]
fn target_table<D: Dir>(alloc: Global, target: &Target<'_, '_, D>) -> Result<String, NoMemory>
    ensures ok { IfOk result (λ text. string_bytes text ≡ rights_text
        (entries_of (D.rows target.now.asking.now.dir.now)) target.now.asking.now.who.now target.now.entry.now) }
{
    let mut text = String::new(alloc);
    put_rights(target, "entry", Item::Entry, &mut text)?;
    put_attributes(target, &mut text)?;
    Ok(text)
}

// The same, for who the requester is.
fn table_for<D: Dir>(
    alloc: Global,
    dir: &D,
    who: &Requester,
    found: NumberedEntry<'_>,
) -> Result<String, NoMemory>
    requires { entry_of found.number.0 (D.rows dir.now) ≡ Some found.entry.now }
    ensures ok { IfOk result (λ text. string_bytes text
        ≡ rights_text (entries_of (D.rows dir.now)) who.now found.entry.entry.now) }
{
    let asking = Asking::new(alloc, dir, who)?;
    let target = Target {
        asking: &asking,
        number: found.number,
        entry: found.entry,
    };
    target_table(alloc, &target)
}

/// Appends the table of the requester's rights on the entry of the number: the line `entry`, then for each of its
/// attributes, in their order, `type NAME`, and after it for each value `value NAME N`, N counting from 0. Each line goes on
/// with the permissions that are granted for its item (X.501 18.8), in the order of their type and each behind a space, and
/// ends in LF. Invoke is not among them. A value for which Add is granted is one that would be added alone. Nothing is
/// appended where the number is not in use. After the error, want of memory, `out` is as before.
pub fn rights<D: Dir>(
    alloc: Global,
    dir: &D,
    who: &Requester,
    number: EntryNo,
    out: &mut Vec<u8>,
) -> Result<(), NoMemory>
    ensures ok { (entry : EntryInformation) → entry_of number.0 (D.rows dir.now) ≡ Some entry
        → OnOk result (out.new.items
        ≡ out.old.items ++ rights_text (entries_of (D.rows dir.now)) who.now entry) }
    ensures absent { entry_of number.0 (D.rows dir.now) ≡ None → out.new.items ≡ out.old.items }
    ensures err { OnErr result (out.new.items ≡ out.old.items) }
{
    let Some(entry) = dir.tree().at(number) else {
        return Ok(());
    };
    let text = table_for(alloc, dir, who, NumberedEntry { number, entry })?;
    out.extend_from_slice(text.as_bytes())
}

/// The table of the requester's rights on the entry of the name, as `rights` appends it; `absent` where there is none. The
/// error comes where memory is wanted.
#[tactic(auto, unfolding(crate::specs::RightsTable::rights_at))]
pub fn rights_text<D: Dir>(
    alloc: Global,
    dir: &D,
    who: &Requester,
    target: &Dn,
) -> Result<Vec<u8>, NoMemory>
    ensures ok { IfOk result (λ text. text.items ≡ rights_at (entries_of (D.rows dir.now)) who.now target.now) }
{
    match find_entry(dir.tree(), target) {
        Some(found) => Ok(table_for(alloc, dir, who, found)?.into_bytes()),
        None => Vec::from_slice(alloc, b"absent\n"),
    }
}
