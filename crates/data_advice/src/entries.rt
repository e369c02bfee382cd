//! What is noted of an entry.

ghost use Rattle.std.specs.Prelude.{◌≡◌, ◌++◌, OnOk, Some, None, false, option_map, codes, string_bytes};
ghost use Rattle.dir_tree.specs.Entry.{values_of};
ghost use Rattle.dir_tree.specs.tree.Numbered.{entries_of};
ghost use Rattle.dir_tree.specs.tree.Trees.{named_in, superior_name};
ghost use Rattle.subtree_spec.specs.Subtrees.{subtree_of};
ghost use Rattle.admin_scope.specs.InForce.{subtree_of_entry};
ghost use Rattle.data_advice.specs.Noting.{numbered};
ghost use Rattle.data_advice.specs.ItemNotes.{text_note};
ghost use Rattle.data_advice.specs.EntryNotes.{at, items_note, held, subtree_note, entry_note};

use crate::items::put_text;
use crate::noting::{NoMemory, Spot, put_noted};
use crate::passwords::put_passwords;
use crate::subtrees::holds_some_below;
use admin_scope::subtree;
use dir_tree::dn_names::Value;
use dir_tree::schema_tables::AttrId;
use dir_tree::{Entry, Tree};
use std::alloc::Global;
use subtree_spec::Spec;

// Writes what is noted of a value of the type.
fn put_item(
    alloc: Global,
    tree: &Tree,
    entry: &Entry,
    kind: AttrId,
    number: usize,
    value: &Value,
    out: &mut String,
) -> Result<(), NoMemory>
    ensures ok { OnOk result (string_bytes out.new ≡ string_bytes out.old
        ++ text_note (entries_of tree.now) (at entry.now kind.0 number) value.now.octets) }
{
    let spot = Spot {
        name: entry.name(),
        kind,
        number,
    };
    put_text(alloc, tree, &spot, value.octets(), out)
}

// Writes what is noted of values of the type.
fn put_values(
    alloc: Global,
    tree: &Tree,
    entry: &Entry,
    kind: AttrId,
    values: &[Value],
    out: &mut String,
) -> Result<(), NoMemory>
    ensures ok { OnOk result (string_bytes out.new ≡ string_bytes out.old
        ++ numbered (λ number value. text_note (entries_of tree.now) (at entry.now kind.0 number) value.octets) 1 values.now) }
{
    for (index, value) in values.iter().enumerate() {
        put_item(alloc, tree, entry, kind, index + 1, value, out)?;
    }
    Ok(())
}

// Writes what is noted of the items of a type.
fn put_items(
    alloc: Global,
    tree: &Tree,
    entry: &Entry,
    kind: AttrId,
    out: &mut String,
) -> Result<(), NoMemory>
    ensures ok { OnOk result (string_bytes out.new
        ≡ string_bytes out.old ++ items_note (entries_of tree.now) entry.now kind.0) }
{
    put_values(alloc, tree, entry, kind, entry.values(kind), out)
}

// The entry above.
fn entry_above<'a>(tree: &'a Tree, entry: &Entry) -> Option<&'a Entry>
    ensures exact { option_map (λ entry. entry.now) result
        ≡ named_in (superior_name entry.now.name) (entries_of tree.now) }
{
    tree.entries_form_a_tree();
    let name = entry.name();
    match tree.find_prefix(name, name.len().saturating_sub(1)) {
        Some(number) => tree.at(number),
        None => None,
    }
}

// Whether the subtree, read from the entry above the subentry on, holds an entry.
fn is_held(tree: &Tree, subentry: &Entry, subtree: &Spec) -> bool
    ensures exact { result ≡ held (entries_of tree.now)
        (named_in (superior_name subentry.now.name) (entries_of tree.now)) (subtree_of subtree.now) }
{
    match entry_above(tree, subentry) {
        Some(point) => holds_some_below(tree, subtree, point.name()),
        None => false,
    }
}

// Writes that a subtree specification holds no entry, where it is so.
fn put_read(
    alloc: Global,
    tree: &Tree,
    subentry: &Entry,
    subtree: &Spec,
    out: &mut String,
) -> Result<(), NoMemory>
    ensures ok { OnOk result (string_bytes out.new ≡ string_bytes out.old
        ++ subtree_note (entries_of tree.now) subentry.now (Some (subtree_of subtree.now))) }
{
    if is_held(tree, subentry, subtree) {
        return Ok(());
    }
    let spot = Spot {
        name: subentry.name(),
        kind: AttrId::SUBTREE_SPECIFICATION,
        number: 1,
    };
    put_noted(
        alloc,
        &spot,
        "it holds no entry; its base is read from the entry above\n",
        out,
    )
}

// Writes the same of an entry that has a subtree specification.
fn put_subtree(
    alloc: Global,
    tree: &Tree,
    subentry: &Entry,
    out: &mut String,
) -> Result<(), NoMemory>
    ensures ok { OnOk result (string_bytes out.new ≡ string_bytes out.old
        ++ subtree_note (entries_of tree.now) subentry.now (subtree_of_entry subentry.now)) }
{
    match subtree(alloc, subentry)? {
        Some(spec) => put_read(alloc, tree, subentry, &spec, out),
        None => Ok(()),
    }
}

/// Writes what is noted of an entry.
#[tactic(auto, unfolding(crate::specs::EntryNotes::entry_note))]
pub(crate) fn put_entry(
    alloc: Global,
    tree: &Tree,
    entry: &Entry,
    out: &mut String,
) -> Result<(), NoMemory>
    ensures ok { OnOk result (string_bytes out.new
        ≡ string_bytes out.old ++ entry_note (entries_of tree.now) entry.now) }
{
    put_subtree(alloc, tree, entry, out)?;
    put_items(alloc, tree, entry, AttrId::PRESCRIPTIVE_ACI, out)?;
    put_items(alloc, tree, entry, AttrId::ENTRY_ACI, out)?;
    put_items(alloc, tree, entry, AttrId::SUBENTRY_ACI, out)?;
    put_passwords(alloc, entry, out)
}
