//! What a change that is not refused leaves of the entry.

ghost use Rattle.std.specs.Prelude.{◌≡◌, ◌++◌, [], ◌∷◌, IfOk, OnOk};
ghost use Rattle.std.specs.List.{IsDistinct};
ghost use Rattle.dir_tree.specs.Entry.{is_match};
ghost use Rattle.entry_changes.specs.declared.kind.ChangeKind.TheVariants as change_kind;
ghost use Rattle.entry_changes.specs.Change.{with_each, without_each, left_by};
ghost use Rattle.entry_changes.specs.Steps.{staying};

use crate::fault::NoMemory;
use crate::refusing::are_none;
use dir_tree::Entry;
use dir_tree::dn_names::Value;
use dir_tree::schema_tables::AttrId;
use std::alloc::Global;
use value_lists::Values;

/// As many values as are taken out one by one: each costs a look at all that are there.
const FEW: usize = 64;

/// The same values in memory of their own.
pub(crate) fn copies(alloc: Global, values: &[Value]) -> Result<Vec<Value>, NoMemory>
    ensures ok { IfOk result (λ copies. copies.items ≡ values.now) }
{
    let mut copies = Vec::with_capacity(alloc, values.len())?;
    for value in values {
        copies.push(value.copy(alloc)?)?;
    }
    Ok(copies)
}

/// Puts each value last of its type, where none matches it.
pub(crate) fn add_values(
    alloc: Global,
    entry: &mut Entry,
    kind: AttrId,
    values: &[Value],
) -> Result<(), NoMemory>
    ensures ok { OnOk result (entry.new ≡ with_each kind.0 values.now entry.old) }
{
    for value in values {
        let _added = entry.push(kind, value.copy(alloc)?)?;
    }
    Ok(())
}

// Takes out those values of the type that match these.
fn drop_values(entry: &mut Entry, kind: AttrId, values: &[Value])
    ensures exact { entry.new ≡ without_each kind.0 values.now entry.old }
{
    for value in values {
        let _found = entry.drop_value(kind, value.key());
    }
}

// Puts the value behind the others, unless it matches one of those that go.
fn put_staying(
    alloc: Global,
    left: &mut Vec<Value>,
    gone: &Values,
    value: &Value,
) -> Result<(), NoMemory>
    ensures ok { OnOk result (left.new.items ≡ left.old.items ++ staying gone.now (value.now ∷ [])) }
{
    if gone.has_key(value.key()) {
        return Ok(());
    }
    left.push(value.copy(alloc)?)?;
    Ok(())
}

// The values that match none of those that go.
fn staying(alloc: Global, values: &[Value], gone: &Values) -> Result<Vec<Value>, NoMemory>
    ensures ok { IfOk result (λ left. left.items ≡ staying gone.now values.now) }
{
    let mut left = Vec::new(alloc);
    for value in values {
        put_staying(alloc, &mut left, gone, value)?;
    }
    Ok(left)
}

// Gives the attribute those of its values that match none of those that go.
fn keep_staying(
    alloc: Global,
    entry: &mut Entry,
    kind: AttrId,
    gone: &Values,
) -> Result<(), NoMemory>
    ensures ok { OnOk result (entry.new ≡ without_each kind.0 gone.now entry.old) }
{
    entry.is_good();
    let left = staying(alloc, entry.values(kind), gone)?;
    replace_values(entry, kind, left)
}

/// Takes out those values of the type that match these: many together.
pub(crate) fn take_out(
    alloc: Global,
    entry: &mut Entry,
    kind: AttrId,
    gone: &Values,
) -> Result<(), NoMemory>
    ensures ok { OnOk result (entry.new ≡ without_each kind.0 gone.now entry.old) }
{
    if gone.as_slice().len() > FEW {
        return keep_staying(alloc, entry, kind, gone);
    }
    drop_values(entry, kind, gone.as_slice());
    Ok(())
}

/// Gives the attribute the values in place of its own; where none is given, it goes.
pub(crate) fn replace_values(
    entry: &mut Entry,
    kind: AttrId,
    values: Vec<Value>,
) -> Result<(), NoMemory>
    requires distinct { IsDistinct is_match values.items }
    ensures ok { OnOk result (entry.new ≡ left_by change_kind.Replace kind.0 values.items entry.old) }
{
    if are_none(&values) {
        let _found = entry.drop_kind(kind);
        return Ok(());
    }
    entry.set_values(kind, values)
}
